//! What is done under the lock: a hall with its callers.

ghost use Rattle.std.specs.Prelude.{◌≡◌, ◌+◌, ◌-◌, ◌<◌, ◌≤◌, ◌⊎◌, ◌↔◌, [], IfOk, IfErr, IfNone, IfSome, vec_len, vec_capacity, Err, None, true, false};
ghost use Rattle.model_asked.specs.Config.{gives_names};
ghost use Rattle.service_lock.specs.Acts.{event_of};
ghost use Rattle.model_asked.specs.Replies.{is_refusal, with_view};
ghost use Rattle.service_lock.specs.Answers.{IsRefusedBegin, IsSomeOwner};
ghost use Rattle.service_lock.specs.CallerState.{caller_of};
ghost use Rattle.service_hall.specs.Halls.{hall_of, hall_refusal, HallMay, SatisfiesSpec};
ghost use Rattle.service_lock.specs.Kepts.{IsNew, IsOpened, IsTaken, IsReported};

use crate::act::Act;
use crate::kept_log::KeptLog;
use crate::parts::{Clerk, LockName, Locked, MOST_CALLERS, Session};
use crate::telling::{Reported, show, tell};
use crate::{Front, Opened};
use model_asked::{Config, Event, Exchange, Reply};
use model_steps::{NoMemory, Refusal, View};
use service_hall::Hall;
use std::alloc::Global;
use std::sync::Wait;
use std::sync::ledger::{Blank, Share};

impl<L: LockName> Clerk<L> {
    /// A clerk that has kept no event, and has seen the history so far.
    fn new(kept: KeptLog, share: Share<L>, seen: Front<L, Exchange>) -> Clerk<L>
        requires share { (kept.items ≡ []) × (share.parts ≡ 1) × (share.amount ≡ 0) }
        requires lawful { SatisfiesSpec (hall_of L.config seen) }
        ensures { result ≡ caller_of [] seen }
    {
        Clerk {
            kept,
            next: 0,
            share,
            seen,
        }
    }
}

/// The error of an event before it is applied: the hall's, or `NoMemory` if no room to keep it can be allocated.
fn refusal_of(
    hall: &Hall,
    kept: &mut KeptLog,
    marks: &mut Vec<bool>,
    event: Event,
) -> Option<Refusal>
    ensures refused { IfSome result (λ why. HallMay hall.now event (Reply.Refused why) hall.now) }
    ensures due { IfNone result (hall_refusal hall.now event ≡ None) }
    ensures room { IfNone result ((kept.new.room ≡ true) × (vec_len marks.new < vec_capacity marks.new)) }
    ensures items { kept.new.items ≡ kept.old.items }
    ensures marks { marks.new.items ≡ marks.old.items }
{
    if let Some(refusal) = hall.refusal(event) {
        return Some(refusal);
    }
    if !kept.reserve() || marks.reserve(1).is_err() {
        return Some(Refusal::NoMemory);
    }
    None
}

impl<L: LockName> Locked<L> {
    /// Makes a hall of this configuration with no event, and no caller.
    ///
    /// # Errors
    ///
    /// An error drops the blank and the history. The first that applies is returned:
    ///
    /// - `OutOfRange`: the world of `config` gives no names.
    /// - `NoMemory`: an allocation failed.
    pub fn new(
        alloc: Global,
        config: Config,
        blank: Blank,
        history: Opened<Exchange>,
    ) -> Result<Locked<L>, Refusal>
        requires name { blank.name ≡ L.name }
        requires parts { (blank.parts ≡ L.parts) × (L.parts ≡ 1000001) }
        requires book { history.seen.book ≡ L.book }
        requires config { config ≡ L.config }
        ensures new { IfOk result (λ l. (l.hall ≡ hall_of L.config []) × (l.opened ≡ 0)) }
        ensures out_of_range { result ≡ Err Refusal.OutOfRange ↔ (gives_names config.world ≡ false) }
        ensures only { IfErr result (λ why. (why ≡ Refusal.NoMemory) ⊎ (why ≡ Refusal.OutOfRange)) }
    {
        let (count, rest) = blank.open::<L>();
        let (book, front) = history.named::<L>();
        let hall = Hall::new(alloc, config)?;
        Ok(Locked {
            hall,
            marks: Vec::new(alloc),
            count,
            rest,
            opened: 0,
            book,
            front,
        })
    }

    /// Returns the number of callers that are open.
    pub fn opened(&self) -> u64
        ensures { result ≡ self.now.opened }
    {
        self.opened
    }

    /// Applies one event of a caller, which the hall answers. An accepted event is added to the history, and the caller
    /// keeps it.
    ///
    /// If the reply has a view, the view is put into `view`. The caller has then seen the history.
    pub fn apply<R: Wait>(
        &mut self,
        rt: &R,
        clerk: &mut Clerk<L>,
        event: Event,
        view: &mut View,
    ) -> Reply<()>
        ensures taken { IsTaken L.config clerk.old event (with_view result view.new) clerk.new }
        ensures hall { HallMay self.old.hall event (with_view result view.new) self.new.hall }
        ensures refused { is_refusal (with_view result view.new) ≡ true → self.new.hall ≡ self.old.hall }
        ensures opened { self.new.opened ≡ self.old.opened }
    {
        let Locked {
            hall,
            count,
            marks,
            book,
            front,
            ..
        } = self;
        let Clerk {
            kept,
            next,
            share,
            seen,
        } = clerk;
        show(rt, front, seen);
        let place = hall.len();
        if let Some(refusal) = refusal_of(hall, kept, marks, event) {
            return Reply::Refused(refusal);
        }
        let reply = hall.apply_short(event, view);
        if reply.is_refusal() {
            return reply;
        }
        tell(rt, book, front, seen, &Reported { event, reply, view });
        count.add(share, 1);
        kept.push_reserved(place, event, reply, view);
        marks.push_reserved(false);
        *next = place + 1;
        reply
    }

    /// Applies one action of a session, as `apply` does.
    pub fn act<R: Wait>(
        &mut self,
        rt: &R,
        session: &mut Session<L>,
        act: Act,
        view: &mut View,
    ) -> Reply<()>
        ensures taken { IsTaken L.config session.old.clerk (event_of act session.old.id) (with_view result view.new) session.new.clerk }
        ensures same { session.new.id ≡ session.old.id }
    {
        self.apply(rt, &mut session.clerk, act.event(session.id), view)
    }

    /// Opens one more clerk.
    ///
    /// # Errors
    ///
    /// - `Full`: 1,000,000 callers were opened.
    /// - `NoMemory`: an allocation failed.
    pub fn open(&mut self, alloc: Global) -> Result<Clerk<L>, Refusal>
        ensures new { IfOk result (IsNew L.config self.old.hall.history) }
        ensures more { IfOk result (λ c. self.new.opened ≡ self.old.opened + 1) }
        ensures errors { IfErr result (λ why. (why ≡ Refusal.Full) ⊎ (why ≡ Refusal.NoMemory)) }
        ensures full { result ≡ Err Refusal.Full ↔ (1000000 ≤ self.old.opened) }
        ensures same { IfErr result (λ why. self.new.opened ≡ self.old.opened) }
        ensures hall { self.new.hall ≡ self.old.hall }
    {
        if self.opened >= MOST_CALLERS {
            return Err(Refusal::Full);
        }
        let kept = KeptLog::new(alloc)?;
        // Called for its clause `lawful`: the history satisfies the specification.
        let _ = self.hall.len();
        let seen = self.front.again();
        let Locked { rest, opened, .. } = self;
        let share = rest.split_off(1, 0);
        *opened += 1;
        Ok(Clerk::new(kept, share, seen))
    }

    /// Closes a clerk that has kept no event.
    fn put_back(&mut self, clerk: Clerk<L>)
        requires { clerk.kept ≡ [] }
        ensures opened { self.new.opened ≡ self.old.opened - 1 }
        ensures hall { self.new.hall ≡ self.old.hall }
    {
        let share = clerk.into_share();
        let Locked { rest, opened, .. } = self;
        if *opened > 0 {
            rest.merge(share);
            *opened -= 1;
        }
    }

    /// Opens a session for identity `id`, which begins.
    ///
    /// # Errors
    ///
    /// An error changes nothing. The first that applies is returned:
    ///
    /// - `Full`: 1,000,000 callers were opened.
    /// - `NoMemory`: an allocation failed.
    /// - The error of `begin` in the hall: `ZeroIdentity`, `AlreadyBegun`, `Full`, `HistoryFull` or `NoMemory`.
    pub fn begin<R: Wait>(&mut self, rt: &R, alloc: Global, id: u64) -> Result<Session<L>, Refusal>
        ensures opened { IfOk result (λ s. (s.id ≡ id) × IsOpened L.config id s.clerk) }
        ensures hall { IfOk result (λ s. HallMay self.old.hall (Event.Begin id) Reply.Ok self.new.hall) }
        ensures same { IfErr result (λ why. (self.new.hall ≡ self.old.hall) × (self.new.opened ≡ self.old.opened)) }
        ensures errors { IfErr result (λ why. (why ≡ Refusal.Full) ⊎ (why ≡ Refusal.NoMemory) ⊎ IsRefusedBegin L.config id why) }
        ensures more { IfOk result (λ s. self.new.opened ≡ self.old.opened + 1) }
        ensures full { 1000000 ≤ self.old.opened → result ≡ Err Refusal.Full }
        ensures due { IfErr result (λ why. self.old.opened < 1000000 → (why ≡ Refusal.NoMemory) ⊎
            HallMay self.old.hall (Event.Begin id) (Reply.Refused why) self.old.hall) }
    {
        let mut clerk = self.open(alloc)?;
        let mut view = View::new();
        let reply = self.apply(rt, &mut clerk, Event::Begin(id), &mut view);
        if let Reply::Refused(refusal) = reply {
            self.put_back(clerk);
            return Err(refusal);
        }
        Ok(Session { id, clerk })
    }

    /// Returns the identity that has a name, and shows the caller the history so far.
    pub fn tell_owner<R: Wait>(&self, rt: &R, clerk: &mut Clerk<L>, number: u64) -> Reply<View>
        ensures { IsReported L.config clerk.old number result clerk.new }
    {
        show(rt, &self.front, &mut clerk.seen);
        // Called for its clause `lawful`: the history satisfies the specification.
        let _ = self.hall.len();
        self.hall.owner(number)
    }

    /// Returns the identity that has a name.
    pub fn owner(&self, number: u64) -> Reply<View>
        ensures { IsSomeOwner L.config number result }
    {
        // Called for its clause `lawful`: the history satisfies the specification.
        let _ = self.hall.len();
        self.hall.owner(number)
    }
}
