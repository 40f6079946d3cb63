//! A stay, and who keeps it.

use crate::stays::keeper::Keeper;

/// A stay, and who keeps it.
#[derive(Clone, Copy, Debug, Drop, PartialEq, Eq)]
pub struct KeptStay {
    /// The identity that stays.
    pub identity: u64,
    /// Who keeps the stay.
    pub keeper: Keeper,
}
