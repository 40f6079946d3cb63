//! The pool.

ghost use Rattle.std.specs.Prelude.{length, ◌≡◌, ◌≤◌, ◌<◌, ◌⊎◌, [], IfOk, IfErr, IfSome, IfNone, IsOk, OnErr, Err, Some, max, ℕ};
ghost use Rattle.model_pool.specs.Competitors.{stay_of, holder_in, identities};
ghost use Rattle.model_pool.specs.Invariant.{AreSetBelow, AreSetFrom};
ghost use Rattle.model_pool.specs.declared.stay.Stay.TheVariants.{Seeking};
ghost use Rattle.model_pool.specs.Stay.{IsWithin};
ghost use Rattle.model_pool.specs.PoolState.{PoolState};
ghost use Rattle.model_pool.specs.Pool.{fresh_pool, enter_refusal, enter_answer, after_enter, probe_refusal, probe_answer, after_probe, number_answer, after_leave, widen_answer, after_widen};
ghost use Rattle.model_pool.specs.Sought.{seek_answer, after_seek};
ghost use Rattle.model_pool.specs.Widening.{widen_refusal};
ghost use Rattle.model_pool.specs.Locality.{ChangesOnly, IsWidened, Indistinguishable, StandAlike, probe_steps, leave_steps};
ghost use Rattle.model_pool.specs.Calls.Call.{Entered, Probed, Sought, Left, Widened};
ghost use Rattle.model_pool.specs.PoolObject.{PoolObject, IsRun, number_in, IsHolderIn};
ghost use Rattle.model_pool.specs.Machine.{pool};
ghost use Rattle.model_steps.specs.Machine.{Reaches, OnEveryHistory, SatisfiesSpec, Extends};
ghost use Rattle.model_pool.specs.Acquired.{IsAcquired, IsSought, LeadsByProbes, LeadsByStay, was_clear, Gets};

use crate::competitor::Competitor;
use crate::probe::Probe;
use crate::roster::Roster;
use crate::stay::Stay;
use model_steps::{Access, Answer, Memory, NoMemory, Refusal, StepMemory};
use std::alloc::Allocator;
use std::marker::Model;

/// The most numbers that any pool may have, and the most competitors.
pub const MOST_NUMBERS: usize = 65_536;

/// A pool of the numbers from 1 to its size (Moir and Anderson 1995).
///
/// Each number below the size has a bit, which is set while the number is held. The last number has none. All bits below
/// `low` are set. So probes from there on find what those from bit 1 on find.
pub struct Pool<A: Allocator> {
    size: u32,
    low: u32,
    bits: Memory<(), A>,
    competitors: Roster<A>,
}

// By hand, so that the code that drops a pool is here alone, and not at each place where one goes out of scope.
impl<A: Allocator> Drop for Pool<A> {
    fn drop(self) {
        let Pool {
            size: _,
            low: _,
            bits: _,
            competitors: _,
        } = self;
    }
}

impl<A: Allocator> Model for Pool<A> {
    ghost use Rattle.model_pool.specs.PoolState.{PoolState};
    ghost use Rattle.model_pool.specs.Invariant.{IsSound};

    ghost Value = { PoolState };

    ghost view = { λ p. record { most = p.competitors.most; size = p.size; bits = p.bits; competitors = p.competitors.competitors } };

    ghost invariant = { λ p. IsSound p.competitors.most p.size p.low p.bits p.competitors.competitors };
}

/// Whether a bit was clear, by the answer to a test-and-set.
fn was_clear(got: Answer<()>) -> bool
    ensures { result ≡ was_clear got }
{
    matches!(got, Answer::WasSet(false))
}

/// Probes the bits from `first` on, and returns the number that they give. Those below `from` are set, and are passed over.
fn seek<A: Allocator>(bits: &mut Memory<(), A>, size: u32, first: u32, from: u32) -> u32
    requires some { (1 ≤ first) × (1 ≤ size) }
    requires from { (first ≤ from) × (from ≤ max first size) }
    requires set { AreSetFrom first from bits.old }
    ensures probes { Gets size first bits.old result bits.new }
    ensures range { (1 ≤ result) × (result ≤ size) }
    ensures set { AreSetFrom first result bits.new }
    ensures kept { (low : ℕ) → AreSetBelow low bits.old → AreSetBelow low bits.new }
{
    for bit in from..size {
        let got = bits.access(Access::TestAndSet(bit as usize)).unwrap();
        if was_clear(got) {
            return bit;
        }
    }
    size
}

/// Returns the bit below which all are set, where all below `low` are, and all from `next` on below `number`.
fn low_after(low: u32, next: u32, number: u32) -> u32
    ensures { ((next ≤ low) × (result ≡ number)) ⊎ (result ≡ low) }
{
    if next <= low { number } else { low }
}

impl<A: Allocator + Clone> Pool<A> {
    /// Makes a pool of the numbers from 1 to `size`, which may get `most`, and for which nobody competes. No other call
    /// but `competitors` allocates.
    ///
    /// # Errors
    ///
    /// - `OutOfRange`: `size` is not from 1 to `most`, or `most` is above 65,536.
    /// - `NoMemory`: an allocation failed.
    pub fn new(alloc: A, most: u64, size: u64) -> Result<Self, Refusal>
        ensures fresh { IfOk result (λ p. p ≡ fresh_pool (record { most = most; size = size })) }
        ensures after { IfOk result (λ p. Reaches pool (record { most = most; size = size }) p []) }
        ensures range { IsOk result → (1 ≤ size) × (size ≤ most) × (most ≤ 65536) }
        ensures below { size ≡ 0 → result ≡ Err Refusal.OutOfRange }
        ensures above { most < size → result ≡ Err Refusal.OutOfRange }
        ensures wide { 65536 < most → result ≡ Err Refusal.OutOfRange }
        ensures out_of_range { result ≡ Err Refusal.OutOfRange → (1 ≤ size → size ≤ most → 65536 < most) }
        ensures only { IfErr result (λ r. (r ≡ Refusal.NoMemory) ⊎ (r ≡ Refusal.OutOfRange)) }
    {
        if size < 1 || size > most || most > MOST_NUMBERS as u64 {
            return Err(Refusal::OutOfRange);
        }
        let bits = Memory::new(alloc.clone()?, (), 0, most as usize + 1)?;
        let competitors = Roster::new(alloc, most as usize)?;
        Ok(Pool {
            size: size as u32,
            low: 1,
            bits,
            competitors,
        })
    }
}

impl<A: Allocator> Pool<A> {
    /// Returns the present size, which is the largest number: from 1 to the most.
    pub fn size(&self) -> u64
        ensures size { result ≡ self.now.size }
        ensures range { (1 ≤ result) × (result ≤ self.now.most) × (self.now.most ≤ 65536) }
    {
        u64::from(self.size)
    }

    /// Returns the most numbers that the pool may get.
    pub fn most(&self) -> u64
        ensures most { result ≡ self.now.most }
        ensures range { (1 ≤ result) × (result ≤ 65536) }
    {
        self.competitors.most() as u64
    }

    /// Returns how many compete.
    pub fn count(&self) -> u64
        ensures count { result ≡ length self.now.competitors }
    {
        self.competitors.len() as u64
    }

    /// Returns the competitors, in the order in which they entered.
    ///
    /// # Errors
    ///
    /// `NoMemory`: an allocation failed.
    pub fn competitors<B: Allocator>(&self, alloc: B) -> Result<Vec<Competitor, B>, NoMemory>
        ensures value { IfOk result (λ cs. cs.items ≡ self.now.competitors) }
        ensures law { IfOk result (λ cs. OnEveryHistory pool (λ start r. (o : PoolObject) → IsRun start r o → identities cs.items ≡ o.competing) self.now) }
    {
        let mut out = Vec::new(alloc);
        self.competitors.copy(&mut out)?;
        Ok(out)
    }

    /// Returns the state of a competitor, or `None` if the identity does not compete.
    pub fn stay_of(&self, id: u64) -> Option<Stay>
        ensures stay { result ≡ stay_of id self.now.competitors }
        ensures within { IfSome result (λ stay. IsWithin self.now.size stay) }
    {
        self.competitors.stay_of(id)
    }

    /// Returns the number that `id` holds. This makes no access.
    ///
    /// # Errors
    ///
    /// The first that applies is returned:
    ///
    /// - `NotCompeting`: `id` does not compete.
    /// - `NotHolding`: `id` competes and holds no number.
    pub fn number_of(&self, id: u64) -> Result<u32, Refusal>
        ensures answer { result ≡ number_answer self.now id }
        ensures range { IfOk result (λ n. (1 ≤ n) × (n ≤ self.now.size)) }
        ensures law { OnEveryHistory pool (λ size r. (o : PoolObject) → IsRun size r o → result ≡ number_in o id) self.now }
    {
        match self.stay_of(id) {
            None => Err(Refusal::NotCompeting),
            Some(Stay::Seeking(_)) => Err(Refusal::NotHolding),
            Some(Stay::Settled(number)) => Ok(number),
        }
    }

    /// Returns the identity that holds this number, or `None` if no identity holds it.
    pub fn holder_of(&self, number: u32) -> Option<u64>
        ensures value { result ≡ holder_in number self.now.competitors }
        ensures law { OnEveryHistory pool (λ size r. (o : PoolObject) → IsRun size r o → IsHolderIn o number result) self.now }
    {
        self.competitors.holder(number)
    }

    /// Returns the error that `enter` would return, or `None` if it would succeed.
    pub fn enter_refusal(&self, id: u64) -> Option<Refusal>
        ensures { result ≡ enter_refusal self.now id }
    {
        if id == 0 {
            Some(Refusal::ZeroIdentity)
        } else if self.stay_of(id).is_some() {
            Some(Refusal::AlreadyCompeting)
        } else if self.size as usize <= self.competitors.len() {
            Some(Refusal::Crowded)
        } else {
            None
        }
    }

    /// Makes `id` a competitor, which holds no number. This makes no access.
    ///
    /// # Errors
    ///
    /// An error changes nothing. The first that applies is returned:
    ///
    /// - `ZeroIdentity`: `id` is 0.
    /// - `AlreadyCompeting`: `id` competes.
    /// - `Crowded`: as many compete as the pool has numbers.
    #[tactic(auto, using(crate::proofs::cited::PoolKeeps::pool_law))]
    pub fn enter(&mut self, id: u64) -> Result<(), Refusal>
        ensures answer { result ≡ enter_answer self.old id }
        ensures state { self.new ≡ after_enter self.old id }
        ensures unchanged_on_error { OnErr result (self.new ≡ self.old) }
        ensures after { Extends pool self.old self.new (Entered id result) }
        ensures law { SatisfiesSpec pool self.new }
    {
        if let Some(refusal) = self.enter_refusal(id) {
            return Err(refusal);
        }
        self.competitors.add(id, Stay::Seeking(1));
        Ok(())
    }

    /// Returns the error that `probe` would return, or `None` if it would succeed.
    pub fn probe_refusal(&self, id: u64) -> Option<Refusal>
        ensures { result ≡ probe_refusal self.now id }
    {
        self.next_probe(id).err()
    }

    /// Returns the number of the bit that competitor `id`, which holds no number, probes next.
    fn next_probe(&self, id: u64) -> Result<u32, Refusal>
        ensures seeks { IfOk result (λ next. stay_of id self.now.competitors ≡ Some (Seeking next)) }
        ensures range { IfOk result (λ next. IsWithin self.now.size (Seeking next)) }
        ensures refused { IfErr result (λ why. probe_refusal self.now id ≡ Some why) }
    {
        match self.stay_of(id) {
            None => Err(Refusal::NotCompeting),
            Some(Stay::Seeking(next)) => Ok(next),
            Some(Stay::Settled(_)) => Err(Refusal::Holding),
        }
    }

    /// Makes one probe of competitor `id`: the `i`-th since it entered tests and sets bit `i`.
    ///
    /// It gets number `i` if the bit was clear. If the bit was set and no bit is left, it gets the last number.
    ///
    /// # Errors
    ///
    /// An error changes nothing. The first that applies is returned:
    ///
    /// - `NotCompeting`: `id` does not compete.
    /// - `Holding`: `id` holds a number.
    ///
    /// # Steps
    ///
    /// At most one access. A competitor has a number after at most `max(1, k - 1)` probes in a pool of size `k`.
    #[tactic(auto, using(crate::proofs::cited::PoolKeeps::pool_law))]
    pub fn probe(&mut self, id: u64) -> Result<Probe, Refusal>
        ensures answer { result ≡ probe_answer self.old id }
        ensures state { self.new ≡ after_probe self.old id }
        ensures unchanged_on_error { OnErr result (self.new ≡ self.old) }
        ensures after { Extends pool self.old self.new (Probed id result) }
        ensures law { SatisfiesSpec pool self.new }

        // Nothing of the pool changes except this competitor and the bit that it names.
        ensures local { ChangesOnly probe_steps id self.old self.new result }

        // In another pool that this competitor cannot distinguish, the reply and its new state are the same.
        ensures alike { (other : PoolState) → Indistinguishable probe_steps id self.old other → result ≡ probe_answer other id }
        ensures stands_alike { (other : PoolState) → Indistinguishable probe_steps id self.old other → StandAlike id self.new (after_probe other id) }
    {
        let next = self.next_probe(id)?;
        let stay = Stay::Seeking(next);
        let got = self.bits.access(stay.probe_access(self.size)).unwrap();
        let stay = stay.probed(self.size, got);
        self.competitors.put(id, stay);
        Ok(stay.probe_reply())
    }

    /// Probes in one call, until `id` has a number, and returns the number.
    ///
    /// # Errors
    ///
    /// Those of `probe`, in that order. An error changes nothing.
    ///
    /// # Steps
    ///
    /// Those of the probes that it stands for, each of one access: at most `max(1, k - 1)` in a pool of size `k`. The identity is
    /// searched once, and bits that are known to be set are passed over.
    #[tactic(auto, using(crate::proofs::cited::PoolKeeps::pool_law))]
    pub fn seek(&mut self, id: u64) -> Result<u32, Refusal>
        ensures answer { result ≡ seek_answer self.old id }
        ensures state { self.new ≡ after_seek self.old id }
        ensures unchanged_on_error { OnErr result (self.new ≡ self.old) }
        ensures after { Extends pool self.old self.new (Sought id result) }
        ensures law { SatisfiesSpec pool self.new }

        // It is shorthand for probes: they lead to the same pool, and are answered so.
        ensures sought { IfOk result (λ n. IsSought self.old id n self.new) }
        ensures shorthand { LeadsByProbes id self.old self.new result }
    {
        let first = self.next_probe(id)?;
        let number = seek(&mut self.bits, self.size, first, first.max(self.low));
        self.low = low_after(self.low, first, number);
        self.competitors.put(id, Stay::Settled(number));
        Ok(number)
    }

    /// Enters and probes in one call, until `id` has a number, and returns the number.
    ///
    /// # Errors
    ///
    /// Those of `enter`, in that order. An error changes nothing.
    ///
    /// # Steps
    ///
    /// At most `max(1, k - 1)` probes in a pool of size `k`. The identity is searched once.
    #[tactic(auto, using(crate::proofs::cited::PoolKeeps::pool_law))]
    pub fn acquire(&mut self, id: u64) -> Result<u32, Refusal>
        ensures acquired { IfOk result (λ n. IsAcquired self.old id n self.new) }
        ensures unchanged_on_error { IfErr result (λ why. (enter_answer self.old id ≡ Err why) × (self.new ≡ self.old)) }
        ensures range { IfOk result (λ n. (1 ≤ n) × (n ≤ self.new.size)) }
        ensures after { LeadsByStay id self.old self.new result }
        ensures law { SatisfiesSpec pool self.new }
    {
        if let Some(refusal) = self.enter_refusal(id) {
            return Err(refusal);
        }
        let number = seek(&mut self.bits, self.size, 1, self.low);
        self.low = number;
        self.competitors.add(id, Stay::Settled(number));
        Ok(number)
    }

    /// Gives back the number that `id` holds, and returns it. The identity then competes no more.
    ///
    /// # Errors
    ///
    /// An error changes nothing. The first that applies is returned:
    ///
    /// - `NotCompeting`: `id` does not compete.
    /// - `NotHolding`: `id` competes and holds no number.
    ///
    /// # Steps
    ///
    /// At most one access, which clears the number's bit.
    #[tactic(auto, using(crate::proofs::cited::PoolKeeps::pool_law))]
    pub fn leave(&mut self, id: u64) -> Result<u32, Refusal>
        ensures answer { result ≡ number_answer self.old id }
        ensures state { self.new ≡ after_leave self.old id }
        ensures unchanged_on_error { OnErr result (self.new ≡ self.old) }
        ensures after { Extends pool self.old self.new (Left id result) }
        ensures law { SatisfiesSpec pool self.new }

        // Nothing of the pool changes except this competitor and the bit that it names.
        ensures local { ChangesOnly leave_steps id self.old self.new result }

        // In another pool that this competitor cannot distinguish, the reply and its new state are the same.
        ensures alike { (other : PoolState) → Indistinguishable leave_steps id self.old other → result ≡ number_answer other id }
        ensures stands_alike { (other : PoolState) → Indistinguishable leave_steps id self.old other → StandAlike id self.new (after_leave other id) }
    {
        let number = self.number_of(id)?;
        let access = Stay::Settled(number).leave_access(self.size);
        self.bits.access(access).unwrap();
        self.competitors.remove(id);
        self.low = self.low.min(number);
        Ok(number)
    }

    /// Returns the error that `widen` would return, or `None` if it would succeed.
    pub fn widen_refusal(&self, size: u64) -> Option<Refusal>
        ensures answer { result ≡ widen_refusal self.now.most self.now.size size }
        ensures more { IfNone result ((self.now.size < size) × (size ≤ self.now.most)) }
    {
        if size <= self.size() || size > self.most() {
            Some(Refusal::OutOfRange)
        } else {
            None
        }
    }

    /// Gives the pool more numbers: those from 1 to `size`. Each competitor keeps its number. This allocates nothing.
    ///
    /// The last number had no bit. If it is held, this call sets its bit.
    ///
    /// # Errors
    ///
    /// `OutOfRange`: `size` is not above the present size, or is above the most. Nothing has changed.
    ///
    /// # Steps
    ///
    /// At most one access.
    #[tactic(auto, using(crate::proofs::cited::PoolKeeps::pool_law))]
    pub fn widen(&mut self, size: u64) -> Result<(), Refusal>
        ensures answer { result ≡ widen_answer self.old size }
        ensures state { self.new ≡ after_widen self.old size }
        ensures unchanged_on_error { OnErr result (self.new ≡ self.old) }
        ensures after { Extends pool self.old self.new (Widened size result) }
        ensures law { SatisfiesSpec pool self.new }

        // No competitor changes, and no bit except that of the number that was the last one.
        ensures local { IsWidened self.old self.new result }
    {
        if let Some(refusal) = self.widen_refusal(size) {
            return Err(refusal);
        }
        let access = if self.competitors.holder(self.size).is_some() {
            Access::TestAndSet(self.size as usize)
        } else {
            Access::Nothing
        };
        self.bits.access(access).unwrap();
        self.size = size as u32;
        Ok(())
    }
}
