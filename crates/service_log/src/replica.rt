//! A machine that follows a log.

ghost use Rattle.std.specs.Prelude.{◌≡◌, ◌≢◌, ◌<◌, ◌≤◌, ℕ, length, true, false, Ok, Err, OnOk, OnErr, IfOk, IfErr, ◌+◌, ◌⊎◌, not};
ghost use Rattle.service_log.specs.Places.{Adds, AddsFrom, Contradicts, IsTaken, Same};
ghost use Rattle.service_log.specs.Replicas.{AddsOnce, EndsBy, FaultLeaves, GoesOn, IsAnswered, IsApplied, IsReplicaFrom, OneMore, ServeLeaves};
ghost use Rattle.service_log.specs.Causes.{MayCause, MayFail};
ghost use Rattle.service_log.specs.declared.store.TheConstants.{MOST_PLACES};
ghost use Rattle.service_log.specs.declared.replica.Step.TheVariants.{Nothing, Answered, Passed};
ghost use Rattle.service_log.specs.declared.serve_fault.Cause.TheVariants.{Busy, Poisoned};
ghost use Rattle.service_log.specs.declared.serve_fault.Cause.TheVariants as cause;
ghost use Rattle.service_log.specs.declared.serve_fault.ServeFault.TheVariants.{TooLong, Unknown};
ghost use Rattle.service_log.specs.declared.store_fault.StoreFault.{StoreFault};

use crate::machine::{ApplyFault, Machine};
use crate::serve_fault::{Cause, ServeFault};
use crate::store::{Append, MOST_PLACES, Put, Store};
use std::alloc::Global;
use std::marker::Model;

/// The most bytes of a batch.
pub const MOST_BATCH: usize = 65_536;

/// The most steps for a batch.
pub const MOST_STEPS: u64 = 1_000_000;

/// What a step did.
#[derive(Clone, Copy, Debug, Drop, PartialEq, Eq)]
pub enum Step {
    /// The batch is in the log, the machine applied it, and its replies are returned.
    Answered,
    /// Another entry was at the place, and the machine applied it.
    Passed,
    /// The machine applied nothing. The place was taken when the replica offered the batch, or empty when it read.
    Nothing,
}

/// A machine that applies the entries of a log, each once, in their order (state machine replication: Schneider 1990).
///
/// Contracts see four things of it:
///
/// - the machine;
/// - the number of entries that it applied;
/// - whether it is *poisoned*: an allocation failed while it applied an entry, and it never answers again;
/// - whether it is *behind*: it must read the next place before it writes there.
#[derive(Drop)]
pub struct Replica<M: Machine> {
    alloc: Global,
    machine: M,
    entry: Vec<u8>,
    place: u64,
    poisoned: bool,
    behind: bool,
}

impl<M: Machine> Model for Replica<M> {
    ghost use Rattle.service_log.specs.ReplicaState.{ReplicaState};

    ghost Value = { ReplicaState M };

    ghost view = { λ r. record { machine = r.machine; place = r.place; poisoned = r.poisoned; behind = r.behind } };
}

impl<M: Machine> Replica<M> {
    /// Makes a replica of a machine that has applied no entry of the log.
    pub fn new(alloc: Global, machine: M) -> Replica<M>
        ensures { result ≡ record { machine = machine; place = 0; poisoned = false; behind = false } }
    {
        Replica {
            alloc,
            machine,
            entry: Vec::new(alloc),
            place: 0,
            poisoned: false,
            behind: false,
        }
    }

    /// Makes a replica of a machine that is where the entries of a log before a place led it, so far as its maker knows.
    ///
    /// It has applied no entry from that place on. It reads this place before it writes there.
    pub fn at(alloc: Global, machine: M, place: u64) -> Replica<M>
        ensures { result ≡ record { machine = machine; place = place; poisoned = false; behind = true } }
    {
        Replica {
            alloc,
            machine,
            entry: Vec::new(alloc),
            place,
            poisoned: false,
            behind: true,
        }
    }

    /// Returns the number of entries that it applied, which is its next place in the log.
    pub fn place(&self) -> u64
        ensures { result ≡ self.now.place }
    {
        self.place
    }

    /// Returns true if and only if it could not apply an entry.
    pub fn is_poisoned(&self) -> bool
        ensures { result ≡ self.now.poisoned }
    {
        self.poisoned
    }

    /// Returns the machine.
    pub fn machine(&self) -> &M
        ensures { result.now ≡ self.now.machine }
    {
        &self.machine
    }

    // Reads the entry at the next place, and applies it.
    fn follow<S: Store>(
        &mut self,
        store: &mut S,
        batch: &[u8],
        replies: &mut M::Replies,
    ) -> Result<Step, Cause>
        requires room { self.old.place < 10000000000000000 }
        requires well { self.old.poisoned ≡ false }
        ensures answered { result ≡ Ok Answered → IsApplied M.applies (S.stands store.new) self.old batch.now replies.new self.new }
        ensures passed { result ≡ Ok Passed → OneMore M.applies (S.stands store.new) self.old self.new }
        ensures nothing { result ≡ Ok Nothing → self.new ≡ record self.old { behind = false } }
        ensures missed { result ≡ Ok Nothing → S.lacks store.new self.old.place }
        ensures lost { (fault : StoreFault) → result ≡ Err (cause.Store fault) → self.new ≡ self.old }
        ensures fault { IfErr result (λ cause. FaultLeaves self.old cause self.new) }
        ensures cause { IfErr result (MayCause S.fails) }
        ensures same { Same (S.stands store.old) (S.stands store.new) }
    {
        match store.get(self.place, &mut self.entry) {
            Ok(true) => {}
            Ok(false) => {
                self.behind = false;
                return Ok(Step::Nothing);
            }
            Err(fault) => return Err(Cause::Store(fault)),
        }
        if let Err(fault) = self.machine.apply(&self.entry, replies) {
            self.poisoned = true;
            return Err(Cause::of_apply(fault));
        }
        self.place += 1;
        if self.entry.as_slice() == batch {
            Ok(Step::Answered)
        } else {
            Ok(Step::Passed)
        }
    }

    // Offers a batch for the next place, and applies it if this call wrote it there.
    fn offer<S: Store>(
        &mut self,
        store: &mut S,
        batch: &[u8],
        replies: &mut M::Replies,
    ) -> Result<Step, Cause>
        requires room { self.old.place < 10000000000000000 }
        requires well { self.old.poisoned ≡ false }
        ensures answered { result ≡ Ok Answered → IsApplied M.applies (S.stands store.new) self.old batch.now replies.new self.new }
        ensures passed { result ≢ Ok Passed }
        ensures nothing { result ≡ Ok Nothing → (self.new ≡ record self.old { behind = true }) × Same (S.stands store.old) (S.stands store.new) }
        ensures stood { result ≡ Ok Nothing → IsTaken (S.stands store.new) self.old.place }
        ensures lost { (fault : StoreFault) → result ≡ Err (cause.Store fault) → self.new.behind ≡ true }
        ensures fault { IfErr result (λ cause. FaultLeaves self.old cause self.new) }
        ensures cause { IfErr result (MayCause S.fails) }
        ensures adds { Adds (S.stands store.old) self.old.place batch.now (S.stands store.new) }
    {
        self.behind = true;
        match store.put(self.place, batch) {
            Ok(Put::Written) => {}
            Ok(Put::Taken) => return Ok(Step::Nothing),
            Err(fault) => return Err(Cause::Store(fault)),
        }
        if let Err(fault) = self.machine.apply(batch, replies) {
            self.poisoned = true;
            return Err(Cause::of_apply(fault));
        }
        self.place += 1;
        self.behind = false;
        Ok(Step::Answered)
    }

    // Applies the entry at the next place, and drops its replies. Returns false if the place is empty or past the end of
    // the log.
    fn pass<S: Store>(&mut self, store: &mut S, replies: &mut M::Replies) -> Result<bool, Cause>
        requires well { self.old.poisoned ≡ false }
        requires silent { M.silent replies.old }
        ensures passed { result ≡ Ok true → OneMore M.applies (S.stands store.new) self.old self.new }
        ensures nothing { result ≡ Ok false → self.new ≡ record self.old { behind = self.new.behind } }
        ensures missed { result ≡ Ok false → (MOST_PLACES ≤ self.old.place) ⊎ S.lacks store.new self.old.place }
        ensures ready { result ≡ Ok false → (MOST_PLACES ≤ self.old.place) ⊎ (self.new.behind ≡ false) }
        ensures silent { M.silent replies.new }
        ensures fault { IfErr result (λ cause. FaultLeaves self.old cause self.new) }
        ensures cause { IfErr result (MayCause S.fails) }
        ensures same { Same (S.stands store.old) (S.stands store.new) }
    {
        if self.place >= MOST_PLACES {
            return Ok(false);
        }
        let step = self.follow(store, &[], replies);
        M::forget(replies);
        Ok(step? != Step::Nothing)
    }

    // Makes one step for a batch as `step` does, and leaves any replies.
    fn advance<S: Store>(
        &mut self,
        store: &mut S,
        batch: &[u8],
        replies: &mut M::Replies,
    ) -> Result<Step, Cause>
        ensures answered { result ≡ Ok Answered → IsApplied M.applies (S.stands store.new) self.old batch.now replies.new self.new }
        ensures passed { result ≡ Ok Passed → OneMore M.applies (S.stands store.new) self.old self.new }
        ensures nothing { result ≡ Ok Nothing → (self.new ≡ record self.old { behind = not self.old.behind }) × (self.old.poisoned ≡ false) }
        ensures missed { result ≡ Ok Nothing → self.old.behind ≡ true → S.lacks store.new self.old.place }
        ensures stood { result ≡ Ok Nothing → self.old.behind ≡ false → IsTaken (S.stands store.new) self.old.place }
        ensures lost { (fault : StoreFault) → result ≡ Err (cause.Store fault) → self.new.behind ≡ true }
        ensures reads { self.old.behind ≡ true → Same (S.stands store.old) (S.stands store.new) }
        ensures unwritten { IfOk result (λ step. step ≢ Answered → Same (S.stands store.old) (S.stands store.new)) }
        ensures fault { IfErr result (λ cause. FaultLeaves self.old cause self.new) }
        ensures cause { IfErr result (MayCause S.fails) }
        ensures poisoned { self.old.poisoned ≡ true → (result ≡ Err Poisoned) × (store.new ≡ store.old) }
        ensures adds { Adds (S.stands store.old) self.old.place batch.now (S.stands store.new) }
    {
        if self.poisoned {
            return Err(Cause::Poisoned);
        }
        if self.place >= MOST_PLACES {
            return Err(Cause::Full);
        }
        if self.behind {
            self.follow(store, batch, replies)
        } else {
            self.offer(store, batch, replies)
        }
    }

    /// Makes one step for a batch, which asks the store once. The replies are none unless the result is `Answered`.
    ///
    /// A replica that is behind reads the entry at its next place and applies it. Otherwise it offers the batch for
    /// that place.
    ///
    /// # Errors
    ///
    /// The first that applies is returned:
    ///
    /// - `Poisoned`: the replica was poisoned before. Nothing has changed.
    /// - `Full`: all 10^16 places of the log are used. Nothing has changed.
    /// - `Store`: the store failed. The replica is now behind.
    /// - `Memory`: an allocation failed while it applied an entry. The replica is now poisoned.
    /// - `Damaged`: an entry of the log is damaged. The replica is now poisoned.
    pub fn step<S: Store>(
        &mut self,
        store: &mut S,
        batch: &[u8],
        replies: &mut M::Replies,
    ) -> Result<Step, Cause>
        ensures answered { result ≡ Ok Answered → IsApplied M.applies (S.stands store.new) self.old batch.now replies.new self.new }
        ensures unanswered { result ≢ Ok Answered → M.silent replies.new }
        ensures passed { result ≡ Ok Passed → OneMore M.applies (S.stands store.new) self.old self.new }
        ensures nothing { result ≡ Ok Nothing → (self.new ≡ record self.old { behind = not self.old.behind }) × (self.old.poisoned ≡ false) }
        ensures missed { result ≡ Ok Nothing → self.old.behind ≡ true → S.lacks store.new self.old.place }
        ensures stood { result ≡ Ok Nothing → self.old.behind ≡ false → IsTaken (S.stands store.new) self.old.place }
        ensures lost { (fault : StoreFault) → result ≡ Err (cause.Store fault) → self.new.behind ≡ true }
        ensures reads { self.old.behind ≡ true → Same (S.stands store.old) (S.stands store.new) }
        ensures unwritten { IfOk result (λ step. step ≢ Answered → Same (S.stands store.old) (S.stands store.new)) }
        ensures fault { IfErr result (λ cause. FaultLeaves self.old cause self.new) }
        ensures cause { IfErr result (MayCause S.fails) }
        ensures poisoned { self.old.poisoned ≡ true → (result ≡ Err Poisoned) × (store.new ≡ store.old) }
        ensures goes_on { self.new.poisoned ≡ false → GoesOn M.applies (S.stands store.new) self.old self.new }
        ensures follows { (from : ℕ) (start : M) → IsReplicaFrom M.applies (S.stands store.old) from start self.old →
            IsReplicaFrom M.applies (S.stands store.new) from start self.new }
        ensures adds { Adds (S.stands store.old) self.old.place batch.now (S.stands store.new) }
    {
        let result = self.advance(store, batch, replies);
        if result != Ok(Step::Answered) {
            M::forget(replies);
        }
        result
    }

    // Applies the entries at the places before `at`, and drops their replies. `Busy` is a store that lacks a place which it
    // said was taken.
    fn reach<S: Store>(
        &mut self,
        store: &mut S,
        at: u64,
        replies: &mut M::Replies,
    ) -> Result<(), Cause>
        requires from { self.old.place ≤ at }
        requires within { at < MOST_PLACES }
        requires well { self.old.poisoned ≡ false }
        requires taken { (between : ℕ) → self.old.place ≤ between → between < at → IsTaken (S.stands store.old) between }
        ensures there { OnOk result (self.new.place ≡ at) }
        ensures well { OnOk result (self.new.poisoned ≡ false) }
        ensures lost { (fault : StoreFault) → result ≡ Err (cause.Store fault) → self.new.behind ≡ true }
        ensures fault { IfErr result (λ cause. EndsBy self.old cause self.new) }
        ensures cause { IfErr result (MayCause S.fails) }
        ensures busy { result ≡ Err Busy → Contradicts S.stands S.lacks }
        ensures goes_on { self.new.poisoned ≡ false → GoesOn M.applies (S.stands store.new) self.old self.new }
        ensures same { Same (S.stands store.old) (S.stands store.new) }
    {
        let missing = at - self.place;
        let passed = self.catch_up(store, missing, replies);
        self.behind = true;
        passed?;
        if self.place < at {
            return Err(Cause::Busy);
        }
        Ok(())
    }

    // Applies a batch that this replica wrote at its place.
    fn apply_own(&mut self, own: &[u8], replies: &mut M::Replies) -> Result<(), ApplyFault>
        requires room { self.old.place < MOST_PLACES }
        requires well { self.old.poisoned ≡ false }
        ensures applied { OnOk result (M.applies self.old.machine own.now replies.new self.new.machine) }
        ensures next { OnOk result ((self.new.place ≡ self.old.place + 1) × (self.new.poisoned ≡ false)) }
        ensures poisoned { OnErr result (self.new.poisoned ≡ true) }
    {
        if let Err(fault) = self.machine.apply(own, replies) {
            self.poisoned = true;
            return Err(fault);
        }
        self.place += 1;
        self.behind = false;
        Ok(())
    }

    // Appends a batch to the log, applies the entries before it and then the batch, if this call wrote it.
    fn write<S: Store>(
        &mut self,
        store: &mut S,
        batch: &[u8],
        replies: &mut M::Replies,
    ) -> Result<Step, Cause>
        requires well { self.old.poisoned ≡ false }
        ensures answered { result ≡ Ok Answered → IsAnswered M.applies (S.stands store.new) self.old batch.now self.new replies.new }
        ensures passed { result ≢ Ok Passed }
        ensures nothing { result ≡ Ok Nothing → (self.new ≡ record self.old { behind = true }) × Same (S.stands store.old) (S.stands store.new) }
        ensures stood { result ≡ Ok Nothing → IsTaken (S.stands store.new) self.old.place }
        ensures lost { (fault : StoreFault) → result ≡ Err (cause.Store fault) → self.new.behind ≡ true }
        ensures fault { IfErr result (λ cause. EndsBy self.old cause self.new) }
        ensures cause { IfErr result (MayCause S.fails) }
        ensures busy { result ≡ Err Busy → Contradicts S.stands S.lacks }
        ensures goes_on { self.new.poisoned ≡ false → GoesOn M.applies (S.stands store.new) self.old self.new }
        ensures adds { AddsFrom (S.stands store.old) self.old.place batch.now (S.stands store.new) }
    {
        self.behind = true;
        let at = match store.append(self.place, batch) {
            Ok(Append::At(at)) => at,
            Ok(Append::Nowhere) => return Ok(Step::Nothing),
            Err(fault) => return Err(Cause::Store(fault)),
        };
        self.reach(store, at, replies)?;
        if let Err(fault) = self.apply_own(batch, replies) {
            return Err(Cause::of_apply(fault));
        }
        Ok(Step::Answered)
    }

    // Makes one step for a batch that may come to stand behind other entries, and leaves any replies.
    fn progress<S: Store>(
        &mut self,
        store: &mut S,
        batch: &[u8],
        replies: &mut M::Replies,
    ) -> Result<Step, Cause>
        requires well { self.old.poisoned ≡ false }
        ensures answered { result ≡ Ok Answered → IsAnswered M.applies (S.stands store.new) self.old batch.now self.new replies.new }
        ensures passed { result ≡ Ok Passed → OneMore M.applies (S.stands store.new) self.old self.new }
        ensures nothing { result ≡ Ok Nothing → (self.new ≡ record self.old { behind = not self.old.behind }) × (self.old.poisoned ≡ false) }
        ensures missed { result ≡ Ok Nothing → self.old.behind ≡ true → S.lacks store.new self.old.place }
        ensures stood { result ≡ Ok Nothing → self.old.behind ≡ false → IsTaken (S.stands store.new) self.old.place }
        ensures lost { (fault : StoreFault) → result ≡ Err (cause.Store fault) → self.new.behind ≡ true }
        ensures reads { self.old.behind ≡ true → Same (S.stands store.old) (S.stands store.new) }
        ensures unwritten { IfOk result (λ step. step ≢ Answered → Same (S.stands store.old) (S.stands store.new)) }
        ensures fault { IfErr result (λ cause. EndsBy self.old cause self.new) }
        ensures cause { IfErr result (MayCause S.fails) }
        ensures busy { result ≡ Err Busy → Contradicts S.stands S.lacks }
        ensures goes_on { self.new.poisoned ≡ false → GoesOn M.applies (S.stands store.new) self.old self.new }
        ensures once { AddsOnce (S.stands store.old) batch.now (S.stands store.new) }
    {
        if self.place >= MOST_PLACES {
            return Err(Cause::Full);
        }
        let behind = self.behind;
        if behind {
            self.follow(store, batch, replies)
        } else {
            self.write(store, batch, replies)
        }
    }

    // Makes one step for a batch as `progress` does. The replies are none unless the result is `Answered`.
    fn stride<S: Store>(
        &mut self,
        store: &mut S,
        batch: &[u8],
        replies: &mut M::Replies,
    ) -> Result<Step, Cause>
        requires well { self.old.poisoned ≡ false }
        ensures answered { result ≡ Ok Answered → IsAnswered M.applies (S.stands store.new) self.old batch.now self.new replies.new }
        ensures unanswered { result ≢ Ok Answered → M.silent replies.new }
        ensures passed { result ≡ Ok Passed → OneMore M.applies (S.stands store.new) self.old self.new }
        ensures nothing { result ≡ Ok Nothing → (self.new ≡ record self.old { behind = not self.old.behind }) × (self.old.poisoned ≡ false) }
        ensures missed { result ≡ Ok Nothing → self.old.behind ≡ true → S.lacks store.new self.old.place }
        ensures stood { result ≡ Ok Nothing → self.old.behind ≡ false → IsTaken (S.stands store.new) self.old.place }
        ensures lost { (fault : StoreFault) → result ≡ Err (cause.Store fault) → self.new.behind ≡ true }
        ensures unwritten { IfOk result (λ step. step ≢ Answered → Same (S.stands store.old) (S.stands store.new)) }
        ensures fault { IfErr result (λ cause. EndsBy self.old cause self.new) }
        ensures cause { IfErr result (MayCause S.fails) }
        ensures busy { result ≡ Err Busy → Contradicts S.stands S.lacks }
        ensures goes_on { self.new.poisoned ≡ false → GoesOn M.applies (S.stands store.new) self.old self.new }
        ensures once { AddsOnce (S.stands store.old) batch.now (S.stands store.new) }
    {
        let result = self.progress(store, batch, replies);
        let is_answered = result == Ok(Step::Answered);
        if !is_answered {
            M::forget(replies);
        }
        result
    }

    /// Serves a batch: appends it to the log, applies all entries before it and then the batch, and returns its replies.
    ///
    /// This call writes the batch at most once, also if it fails. After an error the replies are none.
    ///
    /// # Errors
    ///
    /// The first that applies is returned:
    ///
    /// - `TooLong`: the batch has more than 65,536 bytes. Nothing has changed.
    /// - `Unknown(Poisoned)`: the replica was poisoned before. Nothing has changed.
    /// - `Unknown` with a cause of `step`, at the step that failed. The batch may be in the log, or get there later.
    /// - `Unknown(Busy)`: 1,000,000 steps were made. The replica applied at least 333,333 entries of others, or the
    ///   store contradicts itself.
    pub fn serve<S: Store>(
        &mut self,
        store: &mut S,
        batch: &[u8],
        replies: &mut M::Replies,
    ) -> Result<(), ServeFault>
        ensures answered { OnOk result (IsAnswered M.applies (S.stands store.new) self.old batch.now self.new replies.new) }
        ensures unanswered { OnErr result (M.silent replies.new) }
        ensures too_long { 65536 < length batch.now → result ≡ Err TooLong }
        ensures refused { result ≡ Err TooLong → (65536 < length batch.now) × (self.new ≡ self.old) × (store.new ≡ store.old) }
        ensures fault { IfErr result (MayFail S.fails) }
        ensures busy { result ≡ Err (Unknown Busy) → (self.old.place + 333333 ≤ self.new.place) ⊎ Contradicts S.stands S.lacks }
        ensures leaves { IfErr result (λ fault. ServeLeaves self.old fault self.new) }
        ensures lost { (fault : StoreFault) → result ≡ Err (Unknown (cause.Store fault)) → self.new.behind ≡ true }
        ensures poisoned { self.old.poisoned ≡ true → length batch.now ≤ 65536 →
            (result ≡ Err (Unknown Poisoned)) × (self.new ≡ self.old) × (store.new ≡ store.old) }
        ensures goes_on { self.new.poisoned ≡ false → GoesOn M.applies (S.stands store.new) self.old self.new }
        ensures follows { (from : ℕ) (start : M) → IsReplicaFrom M.applies (S.stands store.old) from start self.old →
            IsReplicaFrom M.applies (S.stands store.new) from start self.new }
        ensures once { AddsOnce (S.stands store.old) batch.now (S.stands store.new) }
    {
        if batch.len() > MOST_BATCH {
            M::forget(replies);
            return Err(ServeFault::TooLong);
        }
        if self.poisoned {
            M::forget(replies);
            return Err(ServeFault::Unknown(Cause::Poisoned));
        }
        for _ in 0..MOST_STEPS {
            match self.stride(store, batch, replies) {
                Ok(Step::Answered) => return Ok(()),
                Ok(Step::Passed | Step::Nothing) => {}
                Err(cause) => return Err(ServeFault::Unknown(cause)),
            }
        }
        M::forget(replies);
        Err(ServeFault::Unknown(Cause::Busy))
    }

    /// Applies the next entries of the log, at most `most`, and returns how many they were. It drops their replies.
    ///
    /// It applies fewer than `most` only if the store reports the next place as empty, or at the end of the log.
    ///
    /// # Errors
    ///
    /// The first that applies is returned. Entries that were applied before it stay applied.
    ///
    /// - `Poisoned`: the replica was poisoned before. Nothing of it has changed.
    /// - `Store`: the store failed.
    /// - `Memory`: an allocation failed while it applied an entry. The replica is now poisoned.
    /// - `Damaged`: an entry of the log is damaged. The replica is now poisoned.
    pub fn catch_up<S: Store>(
        &mut self,
        store: &mut S,
        most: u64,
        replies: &mut M::Replies,
    ) -> Result<u64, Cause>
        ensures count { IfOk result (λ n. self.new.place ≡ self.old.place + n) }
        ensures most { IfOk result (λ n. n ≤ most) }
        ensures stopped { IfOk result (λ n. n < most → (MOST_PLACES ≤ self.new.place) ⊎ S.lacks store.new self.new.place) }

        // Then it may write at its place.
        ensures ready { IfOk result (λ n. n < most → (MOST_PLACES ≤ self.new.place) ⊎ (self.new.behind ≡ false)) }
        ensures fault { IfErr result (λ cause. EndsBy self.old cause self.new) }
        ensures well { OnOk result (self.new.poisoned ≡ false) }
        ensures unanswered { M.silent replies.new }
        ensures poisoned { self.old.poisoned ≡ true → (result ≡ Err Poisoned) × (self.new ≡ self.old) }
        ensures not_busy { result ≢ Err Busy }
        ensures goes_on { self.new.poisoned ≡ false → GoesOn M.applies (S.stands store.new) self.old self.new }
        ensures follows { (from : ℕ) (start : M) → IsReplicaFrom M.applies (S.stands store.old) from start self.old →
            IsReplicaFrom M.applies (S.stands store.new) from start self.new }
        ensures same { Same (S.stands store.old) (S.stands store.new) }
        ensures cause { IfErr result (MayCause S.fails) }
    {
        M::forget(replies);
        if self.poisoned {
            return Err(Cause::Poisoned);
        }
        for passed in 0..most {
            let stood = self.pass(store, replies)?;
            if !stood {
                return Ok(passed);
            }
        }
        Ok(most)
    }
}
