//! Why words of a command line ask for nothing.

ghost use Rattle.std.specs.Prelude.{◌≡◌};
ghost use Rattle.tool_work.specs.declared.misuse.Misuse.TheVariants.{Memory};

use std::alloc::AllocError;
use thiserror::Error;

/// Why words of a command line ask for nothing. Its `Display` is the text for the user.
#[derive(Debug, Drop, Error)]
pub enum Misuse {
    /// They ask for help or for the version. This is its text.
    #[error("{0}")]
    Help(String),
    /// They are refused. This text says why.
    #[error("{0}")]
    Words(String),
    /// An allocation failed.
    #[error("slotctl: no memory\n")]
    Memory,
}

impl From<AllocError> for Misuse {
    ghost from_gives = { λ _ u. u ≡ Memory };

    fn from(_error: AllocError) -> Misuse {
        Misuse::Memory
    }
}
