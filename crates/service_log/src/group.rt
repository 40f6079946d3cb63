//! Several replicas that share one log in memory.

ghost use Rattle.std.specs.Prelude.{◌≡◌, ◌≢◌, ◌<◌, ◌≤◌, ◌+◌, ℕ, [], ◌∷◌, ◌++◌, ◌⊎◌, length, slice_get, true, false, not, ◌↔◌, Some, Ok, Err, OnOk, OnErr, IfErr};
ghost use Rattle.service_log.specs.Causes.{FailsInMemory, MayCause, MayFail};
ghost use Rattle.service_log.specs.Groups.{IsOneHistory, StaysOneHistory, TellsOneMore};
ghost use Rattle.service_log.specs.Places.{IsDecidedBelow, IsTaken, stands_in};
ghost use Rattle.service_log.specs.Replicas.{FaultLeaves, OneMore, ServeLeaves};
ghost use Rattle.service_log.specs.ReplicaState.{ReplicaState};
ghost use Rattle.service_log.specs.declared.replica.Step.TheVariants.{Answered, Nothing, Passed};
ghost use Rattle.service_log.specs.declared.serve_fault.Cause.TheVariants.{Busy};
ghost use Rattle.service_log.specs.declared.serve_fault.Cause.TheVariants as cause;
ghost use Rattle.service_log.specs.declared.serve_fault.ServeFault.TheVariants.{TooLong, Unknown};
ghost use Rattle.service_log.specs.declared.store_fault.StoreFault.{StoreFault};
ghost use Rattle.service_log.specs.declared.store_fault.StoreFault.TheVariants as store_fault;

use crate::machine::Machine;
use crate::memory_store::MemoryStore;
use crate::replica::{Replica, Step};
use crate::serve_fault::{Cause, ServeFault};
use crate::store::Store;
use crate::store_fault::StoreFault;
use std::alloc::{AllocError, Global};
use std::marker::Model;

/// A log in memory, with the replicas of a machine that share it.
#[derive(Drop)]
pub struct Group<M: Machine> {
    alloc: Global,
    store: MemoryStore,
    replicas: Vec<Replica<M>>,
}

impl<M: Machine> Model for Group<M> {
    ghost use Rattle.service_log.specs.GroupState.{GroupState};

    ghost Value = { GroupState M };

    ghost view = { λ g. record { log = g.store; replicas = g.replicas.items } };
}

impl<M: Machine + Drop> Group<M> {
    /// Makes an empty log that no replica follows.
    pub fn new(alloc: Global) -> Group<M>
        ensures empty { (result.log ≡ []) × (result.replicas ≡ []) }
        ensures history { (start : M) → IsOneHistory M.applies start result.log result.replicas [] }
    {
        Group {
            alloc,
            store: MemoryStore::new(alloc),
            replicas: Vec::new(alloc),
        }
    }

    /// Returns the number of replicas.
    pub fn len(&self) -> usize
        ensures { result ≡ length self.now.replicas }
    {
        self.replicas.len()
    }

    /// Returns the log.
    pub fn log(&self) -> &MemoryStore
        ensures { result.now ≡ self.now.log }
    {
        &self.store
    }

    /// Adds a replica of a machine that has applied no entry of the log.
    ///
    /// All replicas have one history if all machines that join are equal at their start.
    ///
    /// # Errors
    ///
    /// `AllocError`: an allocation failed. Nothing has changed.
    pub fn join(&mut self, machine: M) -> Result<(), AllocError>
        ensures log { self.new.log ≡ self.old.log }
        ensures joined { OnOk result (self.new.replicas ≡
            self.old.replicas ++ record { machine = machine; place = 0; poisoned = false; behind = false } ∷ []) }
        ensures unchanged_on_error { OnErr result (self.new.replicas ≡ self.old.replicas) }
        ensures history { StaysOneHistory M.applies machine self.old self.new }
    {
        match self.replicas.push(Replica::new(self.alloc, machine)) {
            Ok(()) => Ok(()),
            Err(_) => Err(AllocError),
        }
    }

    /// Gives up the entries of the log below a place, but never the first (`Store::trim`). All that stood is decided still.
    ///
    /// # Errors
    ///
    /// `Gap`: the log is shorter. Nothing has changed.
    pub fn trim(&mut self, place: u64) -> Result<bool, StoreFault>
        ensures log { self.new.log ≡ self.old.log }
        ensures replicas { self.new.replicas ≡ self.old.replicas }
        ensures decided { OnOk result (IsDecidedBelow (stands_in self.new.log) place) }
        ensures gap { result ≡ Err store_fault.Gap ↔ length self.old.log < place }
        ensures history { (start : M) → StaysOneHistory M.applies start self.old self.new }
    {
        self.store.trim(place)
    }

    /// Makes one step of replica `at` for a batch (`Replica::step`). The replicas are counted from 0.
    ///
    /// # Errors
    ///
    /// Those of `Replica::step`, in that order. The log in memory fails with `StoreFault::Memory`, `Gap` or `Trimmed` alone.
    pub fn step(&mut self, at: usize, batch: &[u8], replies: &mut M::Replies) -> Result<Step, Cause>
        requires in_bounds { at < length self.old.replicas }
        ensures log { (self.new.log ≡ self.old.log) ⊎ (self.new.log ≡ self.old.log ++ batch.now ∷ []) }
        ensures others { (other : ℕ) → other ≢ at → slice_get self.new.replicas other ≡ slice_get self.old.replicas other }
        ensures unanswered { result ≢ Ok Answered → M.silent replies.new }
        ensures answered { result ≡ Ok Answered → (start : M) → TellsOneMore M.applies start self.old self.new batch.now replies.new }
        ensures history { (start : M) → StaysOneHistory M.applies start self.old self.new }
        ensures leaves { (r s : ReplicaState M) → slice_get self.old.replicas at ≡ Some r → slice_get self.new.replicas at ≡ Some s →
            IfErr result (λ cause. FaultLeaves r cause s) }
        ensures passed { (r s : ReplicaState M) → slice_get self.old.replicas at ≡ Some r → slice_get self.new.replicas at ≡ Some s →
            result ≡ Ok Passed → OneMore M.applies (stands_in self.new.log) r s }
        ensures nothing { (r s : ReplicaState M) → slice_get self.old.replicas at ≡ Some r → slice_get self.new.replicas at ≡ Some s →
            result ≡ Ok Nothing → (s ≡ record r { behind = not r.behind }) × (r.poisoned ≡ false) }
        ensures missed { (r : ReplicaState M) → slice_get self.old.replicas at ≡ Some r → result ≡ Ok Nothing → r.behind ≡ true →
            length self.new.log ≤ r.place }
        ensures stood { (r : ReplicaState M) → slice_get self.old.replicas at ≡ Some r → result ≡ Ok Nothing → r.behind ≡ false →
            IsTaken (stands_in self.new.log) r.place }
        ensures lost { (s : ReplicaState M) → slice_get self.new.replicas at ≡ Some s → (fault : StoreFault) → result ≡ Err (cause.Store fault) →
            s.behind ≡ true }
        ensures fault { IfErr result (MayCause FailsInMemory) }
    {
        self.replicas[at].step(&mut self.store, batch, replies)
    }

    /// Has replica `at` serve a batch (`Replica::serve`). The replicas are counted from 0.
    ///
    /// # Errors
    ///
    /// Those of `Replica::serve`, in that order. The log in memory fails with `StoreFault::Memory`, `Gap` or `Trimmed` alone.
    pub fn serve(
        &mut self,
        at: usize,
        batch: &[u8],
        replies: &mut M::Replies,
    ) -> Result<(), ServeFault>
        requires in_bounds { at < length self.old.replicas }
        ensures log { (self.new.log ≡ self.old.log) ⊎ (self.new.log ≡ self.old.log ++ batch.now ∷ []) }
        ensures others { (other : ℕ) → other ≢ at → slice_get self.new.replicas other ≡ slice_get self.old.replicas other }
        ensures unanswered { OnErr result (M.silent replies.new) }
        ensures answered { OnOk result ((start : M) → TellsOneMore M.applies start self.old self.new batch.now replies.new) }
        ensures history { (start : M) → StaysOneHistory M.applies start self.old self.new }
        ensures too_long { 65536 < length batch.now → result ≡ Err TooLong }
        ensures refused { result ≡ Err TooLong → 65536 < length batch.now }
        ensures leaves { (r s : ReplicaState M) → slice_get self.old.replicas at ≡ Some r → slice_get self.new.replicas at ≡ Some s →
            IfErr result (λ fault. ServeLeaves r fault s) }
        ensures busy { (r s : ReplicaState M) → slice_get self.old.replicas at ≡ Some r → slice_get self.new.replicas at ≡ Some s →
            result ≡ Err (Unknown Busy) → r.place + 333333 ≤ s.place }
        ensures fault { IfErr result (MayFail FailsInMemory) }
    {
        self.replicas[at].serve(&mut self.store, batch, replies)
    }
}
