//! An entry of the roster.

use crate::stay::Stay;

/// A competitor, or one that has left.
#[derive(Clone, Copy, Drop)]
pub(crate) struct Entry {
    /// Its identity; not 0.
    pub identity: u64,
    /// Its own state, or `None` if it has left.
    pub stay: Option<Stay>,
}
