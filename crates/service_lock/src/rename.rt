//! Steps until the name.

ghost use Rattle.std.specs.Prelude.{◌≡◌, ◌≢◌, ◌≤◌, ℕ, Ok, None};
ghost use Rattle.text_worlds.specs.desk.Names.{begun_in};
ghost use Rattle.service_lock.specs.Renamed.{IsRenamed, turns_among};

use crate::lock::HallLock;
use crate::{Act, LockName, Session};
use model_asked::Reply;
use model_steps::{Refusal, View};
use std::sync::Wait;

impl<L: LockName> HallLock<L> {
    /// Makes steps of a session until it has a name, at most `turns`, and returns the name. Each step takes the lock
    /// once.
    ///
    /// Returns `Ok(None)` if all `turns` steps are made and it has no name. It does not, if `turns` is at least
    /// `turns_among(config, b)` and at most `b` participants have begun.
    ///
    /// # Errors
    ///
    /// - `Spent`: the participant has used up its proposals.
    /// - Otherwise the error of the step that failed, as `Hall::apply` returns it.
    pub fn rename<R: Wait>(
        &self,
        rt: &R,
        session: &mut Session<L>,
        turns: u64,
    ) -> Result<Option<u64>, Refusal>
        ensures renamed { IsRenamed L.config session.old.id turns session.old.clerk result session.new.clerk }
        ensures same { session.new.id ≡ session.old.id }
        ensures ended { turns_among L.config L.config.m ≤ turns → result ≢ Ok None }
        ensures adaptive { (b : ℕ) → begun_in session.new.clerk.seen ≤ b → turns_among L.config b ≤ turns → result ≢ Ok None }
    {
        let mut view = View::new();
        for turn in 0..turns {
            let _ = turn;
            let reply = self.act_short(rt, session, Act::Step, &mut view);
            if let Reply::Named(name, ()) = reply {
                return Ok(Some(name));
            }
            if let Reply::Spent = reply {
                return Err(Refusal::Spent);
            }
            if let Reply::Refused(refusal) = reply {
                return Err(refusal);
            }
        }
        Ok(None)
    }
}
