//! The end of a lock: its history is compared with what its callers kept.

ghost use Rattle.std.specs.Prelude.{◌≡◌, ◌++◌, map, IfOk, IfErr};
ghost use Rattle.service_lock.specs.Kepts.{IsJust};
ghost use Rattle.service_hall.specs.Halls.{SatisfiesSpec};

use crate::lock::HallLock;
use crate::{Clerk, Closed, LockName, Session};
use std::sync::Mutex;

/// What was given to `close`, if a caller or an event is missing.
#[derive(Drop)]
pub struct Missing<L: LockName> {
    /// The lock.
    pub lock: HallLock<L>,
    /// The sessions.
    pub sessions: Vec<Session<L>>,
    /// The clerks.
    pub clerks: Vec<Clerk<L>>,
}

impl<L: LockName> HallLock<L> {
    /// Ends a lock and compares its history with what its callers kept. This allocates nothing.
    ///
    /// Returns the history if all callers that were opened are given. Each place of it was then kept by exactly one of
    /// them, with its event and its reply.
    ///
    /// # Errors
    ///
    /// `Missing`: a caller is missing, or the history and what the callers kept differ. Its fields are what was given.
    pub fn close(
        self,
        sessions: Vec<Session<L>>,
        clerks: Vec<Clerk<L>>,
    ) -> Result<Closed<L>, Missing<L>>
        ensures lawful { IfOk result (λ c. SatisfiesSpec c.hall) }
        ensures config { IfOk result (λ c. c.hall.config ≡ L.config) }
        ensures all { IfOk result (λ c. c.whole.parts ≡ 1000001) }
        ensures just { IfOk result (λ c. IsJust c.hall.history (map (λ s. s.clerk.kept) sessions.items ++ map (λ c. c.kept) clerks.items)) }
        ensures sessions { IfErr result (λ m. m.sessions ≡ sessions) }
        ensures clerks { IfErr result (λ m. m.clerks ≡ clerks) }
    {
        let HallLock { locked } = self;
        let mut locked = locked.into_inner();
        let opened = locked.opened() as usize;
        let all_given = sessions.len() <= opened && clerks.len() == opened - sessions.len();
        if all_given && locked.agrees(&sessions, &clerks) {
            return Ok(locked.closed(sessions, clerks));
        }
        Err(Missing {
            lock: HallLock {
                locked: Mutex::new(locked),
            },
            sessions,
            clerks,
        })
    }
}
