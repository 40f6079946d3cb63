//! The state of a competitor, from `enter` to `leave`.

ghost use Rattle.std.specs.Prelude.{◌≡◌};
ghost use Rattle.model_pool.specs.Stay.{probe_access, stay_probed, probe_reply, leave_access, held_at};
ghost use Rattle.model_pool.specs.Competitors.{holds_at};

use crate::probe::Probe;
use model_steps::{Access, Answer};

/// The own state of a competitor (Moir and Anderson 1995). It and the size of the pool fix the next access.
#[derive(Clone, Copy, Debug, Drop, PartialEq, Eq)]
pub enum Stay {
    /// It holds no number, and missed each bit below this one. It probes this one next.
    Seeking(u32),
    /// It holds this number.
    Settled(u32),
}

impl Stay {
    /// Returns the access of the next probe, in a pool of this size: the last number has no bit.
    pub(crate) fn probe_access(self, size: u32) -> Access<usize, ()>
        ensures { result ≡ probe_access size self }
    {
        match self {
            Stay::Seeking(next) => {
                if next < size {
                    Access::TestAndSet(next as usize)
                } else {
                    Access::Nothing
                }
            }
            Stay::Settled(_) => Access::Nothing,
        }
    }

    /// Returns the state after the next probe, for this answer to its access.
    pub(crate) fn probed(self, size: u32, got: Answer<()>) -> Stay
        ensures { result ≡ stay_probed size self got }
    {
        match (self, got) {
            (Stay::Seeking(next), Answer::WasSet(true)) => {
                if u64::from(next) + 1 < u64::from(size) {
                    Stay::Seeking(next + 1)
                } else {
                    Stay::Settled(size)
                }
            }
            (Stay::Seeking(next), Answer::WasSet(false)) => Stay::Settled(next),
            (Stay::Seeking(_), Answer::Value(_)) => Stay::Settled(size),
            (Stay::Seeking(_), Answer::Done) => Stay::Settled(size),
            (Stay::Settled(number), _) => Stay::Settled(number),
        }
    }

    /// Returns the reply of a probe that led to this state.
    pub(crate) fn probe_reply(self) -> Probe
        ensures { result ≡ probe_reply self }
    {
        match self {
            Stay::Seeking(_) => Probe::Missed,
            Stay::Settled(number) => Probe::Got(number),
        }
    }

    /// Returns the access that gives the number back, in a pool of this size: the last number has no bit.
    pub(crate) fn leave_access(self, size: u32) -> Access<usize, ()>
        ensures { result ≡ leave_access size self }
    {
        match self {
            Stay::Seeking(_) => Access::Nothing,
            Stay::Settled(number) => {
                if number < size {
                    Access::Clear(number as usize)
                } else {
                    Access::Nothing
                }
            }
        }
    }

    /// Whether it holds this number.
    pub(crate) fn holds(self, number: u32) -> bool
        ensures { result ≡ holds_at number (held_at self) }
    {
        match self {
            Stay::Seeking(_) => false,
            Stay::Settled(held) => held == number,
        }
    }
}
