//! One competitor of a pool.

use crate::stay::Stay;

/// A competitor of a pool.
#[derive(Clone, Copy, Debug, Drop, PartialEq, Eq)]
pub struct Competitor {
    /// Its identity; not 0.
    pub identity: u64,
    /// Its own state.
    pub stay: Stay,
}
