//! Why a hall is not rebuilt.

use model_steps::Refusal;
use std::alloc::{AllocError, AllocFailed};

/// An event was refused, or an allocation failed.
#[derive(Clone, Copy, Debug, Drop, PartialEq, Eq)]
pub(crate) struct Stuck;

impl From<AllocError> for Stuck {
    fn from(_refused: AllocError) -> Stuck {
        Stuck
    }
}

impl<T: Drop> From<AllocFailed<T>> for Stuck {
    fn from(_refused: AllocFailed<T>) -> Stuck {
        Stuck
    }
}

impl From<Refusal> for Stuck {
    fn from(_refused: Refusal) -> Stuck {
        Stuck
    }
}
