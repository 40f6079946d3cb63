//! Why a server did not come to its end.

use model_steps::NoMemory;
use std::alloc::{AllocError, AllocFailed};
use std::io::{self, ErrorKind};

/// Why a host did not come to its end. A fault of one connection is none of these.
#[derive(Debug, Drop)]
pub enum HostFault<F> {
    /// A growth was refused.
    Memory,
    /// To listen or to wait failed, so the system told.
    Network(ErrorKind),
    /// What it tells was not taken.
    Output,
    /// What the service told could not be kept; no reply of that turn was sent.
    Persist(F),
}

impl<F> From<AllocError> for HostFault<F> {
    fn from(_refused: AllocError) -> HostFault<F> {
        HostFault::Memory
    }
}

impl<F> From<NoMemory> for HostFault<F> {
    fn from(_refused: NoMemory) -> HostFault<F> {
        HostFault::Memory
    }
}

impl<F> From<io::Error> for HostFault<F> {
    fn from(error: io::Error) -> HostFault<F> {
        HostFault::Network(error.kind())
    }
}
