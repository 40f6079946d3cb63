//! Slots over a pool.

ghost use Rattle.std.specs.Prelude.{◌≡◌, ℕ, ◌+◌, [], ◌++◌, replicate, ◌≤◌, IfOk, IsOk, OnErr, vec_len, vec_capacity};
ghost use Rattle.std.specs.Result.{result_map_both};
ghost use Rattle.model_pool.specs.Calls.Call.{Entered, Probed, Sought, Left};
ghost use Rattle.model_pool.specs.Acquired.{IsSought};
ghost use Rattle.model_pool.specs.Sought.{seek_answer, after_seek};
ghost use Rattle.model_pool.specs.Pool.{enter_answer, after_enter, probe_answer, after_probe, number_answer, after_leave, widen_answer};
ghost use Rattle.model_pool.specs.Machine.{pool as pool_machine};
ghost use Rattle.model_steps.specs.Machine.{Reaches, OnEveryHistory, SatisfiesSpec, Extends};
ghost use Rattle.model_pool.specs.Locality.{ChangesOnly, IsWidened, Indistinguishable, StandAlike, probe_steps, leave_steps};
ghost use Rattle.model_pool.specs.PoolState.{PoolStart, PoolState};
ghost use Rattle.model_pool.specs.slots.SlotCalls.{pool_calls};
ghost use Rattle.model_pool.specs.slots.SlotCalls.SlotCall.{Pooled, Stored, Fetched, Extended};
ghost use Rattle.model_pool.specs.slots.Slots.{stored_reply, IsFetched, after_put, ChangesOwnSlot, after_extend, FillsNewSlots};
ghost use Rattle.model_pool.specs.slots.Machine.{slots};

use crate::{Pool, Probe};
use model_steps::{NoMemory, Refusal};
use std::alloc::Allocator;
use std::marker::Model;

/// A pool of numbers, with a slot for each number.
pub struct Slots<T, A: Allocator> {
    pool: Pool<A>,
    values: Vec<T, A>,
}

// By hand, so that the code that drops slots is here alone, and not at each place where some go out of scope.
impl<T: Drop, A: Allocator> Drop for Slots<T, A> {
    fn drop(self) {
        let Slots { pool: _, values: _ } = self;
    }
}

impl<T, A: Allocator> Model for Slots<T, A> {
    ghost use Rattle.std.specs.Prelude.{◌≡◌, ◌≤◌, vec_len, vec_capacity};
    ghost use Rattle.model_pool.specs.slots.SlotsState.{SlotsState};

    ghost Value = { SlotsState T };

    ghost view = { λ s. record { pool = s.pool; values = s.values.items } };

    ghost invariant = { λ s. (vec_len s.values ≡ s.pool.size) × (s.pool.most ≤ vec_capacity s.values) };
}

/// Appends `more` copies of a value to a vector that has room for them.
fn fill<T: Copy, A: Allocator>(values: &mut Vec<T, A>, more: usize, value: T)
    requires { vec_len values.old + more ≤ vec_capacity values.old }
    ensures items { values.new.items ≡ values.old.items ++ replicate more value }
    ensures capacity { vec_capacity values.new ≡ vec_capacity values.old }
{
    for _i in 0..more {
        values.push_reserved(value);
    }
}

impl<T: Drop, A: Allocator> Slots<T, A> {
    /// Makes slots over a pool, one for each of its numbers. The slot of number 1 holds the first of `values`.
    ///
    /// It allocates room for a value of each number that the pool may get, unless `values` has it.
    ///
    /// # Errors
    ///
    /// `NoMemory`: the allocation failed.
    pub fn new(pool: Pool<A>, values: Vec<T, A>) -> Result<Self, NoMemory>
        requires { vec_len values ≡ pool.size }
        ensures state { IfOk result (λ s. s ≡ record { pool = pool; values = values.items }) }
        ensures after { IfOk result (λ s. (start : PoolStart) → Reaches pool_machine start pool [] → Reaches slots (start, values.items) s []) }
        ensures room { pool.most ≤ vec_capacity values → IsOk result }
    {
        let mut values = values;
        let spare = (pool.most() - pool.size()) as usize;
        match values.reserve(spare) {
            Ok(()) => Ok(Slots { pool, values }),
            Err(_) => Err(NoMemory),
        }
    }

    /// Returns the pool.
    pub fn pool(&self) -> &Pool<A>
        ensures pool { result.now ≡ self.now.pool }
        ensures after { OnEveryHistory slots (λ first r. Reaches pool_machine first.0 result.now (pool_calls r)) self.now }
    {
        &self.pool
    }

    /// Returns the values in the slots. The first is that of number 1.
    pub fn values(&self) -> &[T]
        ensures { result.now ≡ self.now.values }
    {
        self.values.as_slice()
    }

    /// Makes `id` a competitor, as `Pool::enter` does.
    ///
    /// # Errors
    ///
    /// An error changes nothing. The first that applies is returned:
    ///
    /// - `ZeroIdentity`: `id` is 0.
    /// - `AlreadyCompeting`: `id` competes.
    /// - `Crowded`: as many compete as the pool has numbers.
    #[tactic(auto, using(crate::proofs::cited::slots::SlotsKeep::slots_law))]
    pub fn enter(&mut self, id: u64) -> Result<(), Refusal>
        ensures answer { result ≡ enter_answer self.old.pool id }
        ensures state { self.new ≡ record self.old { pool = after_enter self.old.pool id } }
        ensures unchanged_on_error { OnErr result (self.new ≡ self.old) }
        ensures after { Extends slots self.old self.new (Pooled (Entered id result)) }
        ensures law { SatisfiesSpec slots self.new }
    {
        self.pool.enter(id)
    }

    /// Makes one probe of competitor `id`, as `Pool::probe` does: at most one access.
    ///
    /// # Errors
    ///
    /// An error changes nothing. The first that applies is returned:
    ///
    /// - `NotCompeting`: `id` does not compete.
    /// - `Holding`: `id` holds a number.
    #[tactic(auto, using(crate::proofs::cited::slots::SlotsKeep::slots_law))]
    pub fn probe(&mut self, id: u64) -> Result<Probe, Refusal>
        ensures answer { result ≡ probe_answer self.old.pool id }
        ensures state { self.new ≡ record self.old { pool = after_probe self.old.pool id } }
        ensures unchanged_on_error { OnErr result (self.new ≡ self.old) }
        ensures after { Extends slots self.old self.new (Pooled (Probed id result)) }
        ensures law { SatisfiesSpec slots self.new }

        // Nothing of the pool changes except this competitor and the bit that it names. In another pool that this competitor
        // cannot distinguish, the reply and its new state are the same.
        ensures local { ChangesOnly probe_steps id self.old.pool self.new.pool result }
        ensures alike { (other : PoolState) → Indistinguishable probe_steps id self.old.pool other → result ≡ probe_answer other id }
        ensures stands_alike { (other : PoolState) → Indistinguishable probe_steps id self.old.pool other → StandAlike id self.new.pool (after_probe other id) }
    {
        self.pool.probe(id)
    }

    /// Lets competitor `id` probe until it has a number, as `Pool::seek` does.
    ///
    /// # Errors
    ///
    /// Those of `probe`, in that order. An error changes nothing.
    #[tactic(auto, using(crate::proofs::cited::slots::SlotsKeep::slots_law))]
    pub fn seek(&mut self, id: u64) -> Result<u32, Refusal>
        ensures answer { result ≡ seek_answer self.old.pool id }
        ensures state { self.new ≡ record self.old { pool = after_seek self.old.pool id } }
        ensures unchanged_on_error { OnErr result (self.new ≡ self.old) }
        ensures after { Extends slots self.old self.new (Pooled (Sought id result)) }
        ensures law { SatisfiesSpec slots self.new }

        // It is shorthand for probes.
        ensures sought { IfOk result (λ n. IsSought self.old.pool id n self.new.pool) }
    {
        self.pool.seek(id)
    }

    /// Gives back the number that `id` holds, as `Pool::leave` does: at most one access. The number's slot keeps its
    /// value.
    ///
    /// # Errors
    ///
    /// An error changes nothing. The first that applies is returned:
    ///
    /// - `NotCompeting`: `id` does not compete.
    /// - `NotHolding`: `id` competes and holds no number.
    #[tactic(auto, using(crate::proofs::cited::slots::SlotsKeep::slots_law))]
    pub fn leave(&mut self, id: u64) -> Result<u32, Refusal>
        ensures answer { result ≡ number_answer self.old.pool id }
        ensures state { self.new ≡ record self.old { pool = after_leave self.old.pool id } }
        ensures unchanged_on_error { OnErr result (self.new ≡ self.old) }
        ensures after { Extends slots self.old self.new (Pooled (Left id result)) }
        ensures law { SatisfiesSpec slots self.new }

        // Nothing of the pool changes except this competitor and the bit that it names. In another pool that this competitor
        // cannot distinguish, the reply and its new state are the same.
        ensures local { ChangesOnly leave_steps id self.old.pool self.new.pool result }
        ensures alike { (other : PoolState) → Indistinguishable leave_steps id self.old.pool other → result ≡ number_answer other id }
        ensures stands_alike { (other : PoolState) → Indistinguishable leave_steps id self.old.pool other → StandAlike id self.new.pool (after_leave other id) }
    {
        self.pool.leave(id)
    }

    /// Puts a value into the slot of the number that `id` holds. No other slot changes.
    ///
    /// # Errors
    ///
    /// An error changes nothing. The first that applies is returned:
    ///
    /// - `NotCompeting`: `id` does not compete.
    /// - `NotHolding`: `id` competes and holds no number.
    #[tactic(auto, using(crate::proofs::cited::slots::SlotsKeep::slots_law))]
    pub fn put(&mut self, id: u64, value: T) -> Result<(), Refusal>
        ensures answer { result ≡ stored_reply (number_answer self.old.pool id) }
        ensures state { self.new ≡ after_put self.old id value }
        ensures changes { ChangesOwnSlot id value self.old self.new }
        ensures unchanged_on_error { OnErr result (self.new ≡ self.old) }
        ensures after { Extends slots self.old self.new (Stored id value result) }
        ensures law { SatisfiesSpec slots self.new }
    {
        let number = self.pool.number_of(id)?;
        self.values[number as usize - 1] = value;
        Ok(())
    }

    /// Returns the value in the slot of the number that `id` holds.
    ///
    /// # Errors
    ///
    /// The first that applies is returned:
    ///
    /// - `NotCompeting`: `id` does not compete.
    /// - `NotHolding`: `id` competes and holds no number.
    #[tactic(auto, using(crate::proofs::cited::slots::SlotsKeep::slots_law))]
    pub fn get(&self, id: u64) -> Result<&T, Refusal>
        ensures answer { IsFetched self.now.values (number_answer self.now.pool id) (result_map_both (λ value. value.now) (λ refusal. refusal) result) }
        ensures after { Extends slots self.now self.now (Fetched id (result_map_both (λ value. value.now) (λ refusal. refusal) result)) }
        ensures law { SatisfiesSpec slots self.now }
    {
        let number = self.pool.number_of(id)?;
        Ok(&self.values[number as usize - 1])
    }
}

impl<T: Copy, A: Allocator> Slots<T, A> {
    /// Gives the pool more numbers, as `Pool::widen` does. Each new slot holds `value`, and each other slot keeps its
    /// value.
    ///
    /// This makes at most one access and allocates nothing.
    ///
    /// # Errors
    ///
    /// `OutOfRange`: `size` is not above the present size, or is above the most. Nothing has changed.
    #[tactic(auto, using(crate::proofs::cited::slots::SlotsKeep::slots_law))]
    pub fn widen(&mut self, size: u64, value: T) -> Result<(), Refusal>
        ensures answer { result ≡ widen_answer self.old.pool size }
        ensures state { self.new ≡ after_extend self.old size value }
        ensures fills { IfOk result (λ done. FillsNewSlots size value self.old self.new) }
        ensures unchanged_on_error { OnErr result (self.new ≡ self.old) }
        ensures after { Extends slots self.old self.new (Extended size value result) }
        ensures law { SatisfiesSpec slots self.new }

        // No competitor changes, and no bit except that of the number that was the last one.
        ensures local { IsWidened self.old.pool self.new.pool result }
    {
        self.pool.widen(size)?;
        let more = size as usize - self.values.len();
        fill(&mut self.values, more, value);
        Ok(())
    }
}
