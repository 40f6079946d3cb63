//! A hall under a lock.

ghost use Rattle.std.specs.Prelude.{◌≡◌, ◌⊎◌, ◌↔◌, [], IfOk, IfErr, Err, false};
ghost use Rattle.model_asked.specs.Config.{gives_names};
ghost use Rattle.service_lock.specs.Acts.{event_of};
ghost use Rattle.model_asked.specs.Replies.{with_view};
ghost use Rattle.service_lock.specs.Answers.{IsRefusedBegin, IsSomeOwner};
ghost use Rattle.service_hall.specs.Halls.{hall_of, SatisfiesSpec};
ghost use Rattle.service_lock.specs.Kepts.{IsOpened, IsTaken, IsReported};

use crate::{Act, Clerk, LockName, Locked, Opened, Session};
use model_asked::{Config, Event, Exchange, Reply};
use model_steps::{Refusal, View};
use std::alloc::Global;
use std::sync::ledger::Blank;
use std::sync::{Mutex, Wait};

/// A hall behind a mutex, which threads share.
#[derive(Drop)]
pub struct HallLock<L: LockName> {
    pub(crate) locked: Mutex<Locked<L>>,
}

impl<L: LockName> HallLock<L> {
    /// Makes a lock around a hall of this configuration with no event.
    ///
    /// # Errors
    ///
    /// An error drops the blank and the history. The first that applies is returned:
    ///
    /// - `OutOfRange`: the world of `config` gives no names.
    /// - `NoMemory`: an allocation failed.
    pub fn new(
        alloc: Global,
        config: Config,
        blank: Blank,
        history: Opened<Exchange>,
    ) -> Result<HallLock<L>, Refusal>
        requires name { blank.name ≡ L.name }
        requires parts { (blank.parts ≡ L.parts) × (L.parts ≡ 1000001) }
        requires book { history.seen.book ≡ L.book }
        requires config { config ≡ L.config }
        ensures out_of_range { result ≡ Err Refusal.OutOfRange ↔ (gives_names config.world ≡ false) }
        ensures only { IfErr result (λ why. (why ≡ Refusal.NoMemory) ⊎ (why ≡ Refusal.OutOfRange)) }
    {
        let locked = Locked::new(alloc, config, blank, history)?;
        Ok(HallLock {
            locked: Mutex::new(locked),
        })
    }

    /// Opens a clerk, which has kept no event.
    ///
    /// # Errors
    ///
    /// - `Full`: 1,000,000 callers were opened.
    /// - `NoMemory`: an allocation failed.
    pub fn clerk<R: Wait>(&self, rt: &R, alloc: Global) -> Result<Clerk<L>, Refusal>
        ensures new { IfOk result (λ c. (c.kept ≡ []) × SatisfiesSpec (hall_of L.config c.seen)) }
        ensures errors { IfErr result (λ why. (why ≡ Refusal.Full) ⊎ (why ≡ Refusal.NoMemory)) }
    {
        self.locked.lock(rt).open(alloc)
    }

    /// Opens a session for identity `id`, which begins. The session has kept this event alone.
    ///
    /// # Errors
    ///
    /// An error opens no session. The first that applies is returned:
    ///
    /// - `Full`: 1,000,000 callers were opened.
    /// - `NoMemory`: an allocation failed.
    /// - The error of `begin` in the hall: `ZeroIdentity`, `AlreadyBegun`, `Full`, `HistoryFull` or `NoMemory`.
    pub fn session<R: Wait>(&self, rt: &R, alloc: Global, id: u64) -> Result<Session<L>, Refusal>
        ensures opened { IfOk result (λ s. (s.id ≡ id) × IsOpened L.config id s.clerk) }
        ensures errors { IfErr result (λ why. (why ≡ Refusal.Full) ⊎ (why ≡ Refusal.NoMemory) ⊎ IsRefusedBegin L.config id why) }
    {
        self.locked.lock(rt).begin(rt, alloc, id)
    }

    /// Applies one event of a clerk, under the lock, and returns the reply of the hall.
    ///
    /// The clerk keeps an accepted event with its reply and its place in the history. A refused event changes nothing.
    /// The history of the hall satisfies the specification and extends all that the clerk has seen.
    pub fn apply<R: Wait>(&self, rt: &R, clerk: &mut Clerk<L>, event: Event) -> Reply<View>
        ensures { IsTaken L.config clerk.old event result clerk.new }
    {
        let mut view = View::new();
        self.apply_short(rt, clerk, event, &mut view).with(&view)
    }

    /// Applies one event as `apply` does, and returns a reply of a few bytes. If the reply has a view, the view is put
    /// into `view`.
    pub fn apply_short<R: Wait>(
        &self,
        rt: &R,
        clerk: &mut Clerk<L>,
        event: Event,
        view: &mut View,
    ) -> Reply<()>
        ensures { IsTaken L.config clerk.old event (with_view result view.new) clerk.new }
    {
        self.locked.lock(rt).apply(rt, clerk, event, view)
    }

    /// Applies one action of a session, as `apply` does.
    pub fn act<R: Wait>(&self, rt: &R, session: &mut Session<L>, act: Act) -> Reply<View>
        ensures taken { IsTaken L.config session.old.clerk (event_of act session.old.id) result session.new.clerk }
        ensures same { session.new.id ≡ session.old.id }
    {
        let mut view = View::new();
        self.act_short(rt, session, act, &mut view).with(&view)
    }

    /// Applies one action as `act` does, and returns a reply of a few bytes. If the reply has a view, the view is put
    /// into `view`.
    pub fn act_short<R: Wait>(
        &self,
        rt: &R,
        session: &mut Session<L>,
        act: Act,
        view: &mut View,
    ) -> Reply<()>
        ensures taken { IsTaken L.config session.old.clerk (event_of act session.old.id) (with_view result view.new) session.new.clerk }
        ensures same { session.new.id ≡ session.old.id }
    {
        self.locked.lock(rt).act(rt, session, act, view)
    }

    /// Makes one step of a session, as `apply` does.
    pub fn step<R: Wait>(&self, rt: &R, session: &mut Session<L>) -> Reply<View>
        ensures taken { IsTaken L.config session.old.clerk (Event.Step session.old.id) result session.new.clerk }
        ensures same { session.new.id ≡ session.old.id }
    {
        self.act(rt, session, Act::Step)
    }

    /// Returns the identity that has a name, and shows the clerk the history so far. See `Desk::owner` for the reply.
    pub fn tell_owner<R: Wait>(&self, rt: &R, clerk: &mut Clerk<L>, number: u64) -> Reply<View>
        ensures { IsReported L.config clerk.old number result clerk.new }
    {
        self.locked.lock(rt).tell_owner(rt, clerk, number)
    }

    /// Returns the identity that has a name in some lawful history of the lock's configuration. See `Desk::owner` for
    /// the reply.
    pub fn owner<R: Wait>(&self, rt: &R, number: u64) -> Reply<View>
        ensures { IsSomeOwner L.config number result }
    {
        self.locked.lock(rt).owner(number)
    }
}
