//! Why a checker stops.

ghost use Rattle.std.specs.Prelude.{◌≡◌};
ghost use Rattle.text_checker.specs.Fault.{reported_by};
ghost use Rattle.text_checker.specs.declared.fault.Fault.TheVariants as fault;

use crate::reason::Reason;
use std::alloc::AllocError;

/// Why a checker stops at a line.
#[derive(Clone, Copy, Drop)]
pub enum Fault {
    /// The line can't follow those before it.
    Unlawful(Reason),
    /// An allocation failed.
    NoMemory,
}

impl Fault {
    /// Returns the reason.
    ///
    /// # Errors
    ///
    /// `AllocError`: an allocation failed.
    pub fn reported(self) -> Result<Option<Reason>, AllocError>
        ensures { result ≡ reported_by self }
    {
        match self {
            Fault::Unlawful(reason) => Ok(Some(reason)),
            Fault::NoMemory => Err(AllocError),
        }
    }
}

impl From<AllocError> for Fault {
    ghost from_gives = { λ _ f. f ≡ fault.NoMemory };

    fn from(_refused: AllocError) -> Fault {
        Fault::NoMemory
    }
}
