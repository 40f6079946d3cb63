//! A pool whose numbers are sought from 1 upward.

ghost use Rattle.std.specs.Prelude.{[], ◌≡◌, ◌<◌, ◌≤◌, ◌+◌, ◌-◌, ◌*◌, ◌⊎◌, ◌↔◌, ℕ, suc, true, false, Err, IfErr, IfOk, IsOk, vec_len, slice_index};
ghost use lib.ListN.{get_elem?};
ghost use mathlib.Core.Option.{some};
ghost use Rattle.words_pool.specs.PoolView.{call_of, first_places, races, IsSeeking, IsWithin, HasLooked, HasSwapped};
ghost use Rattle.words_pool.specs.PoolSteps.{IsWordFor};
ghost use Rattle.words_pool.specs.Pools.{CallId, HasLookedAtAll, HasMetAllHeld, HasMetFirstHeld, IsTableOf, pool_of, set_places};

use crate::held::{AllHeld, Held, LastLook, Released};
use crate::pool_over::{PoolOver, STRIDE};
use crate::pool_steps::{Come, ComeBySwap, LookAside, Pooling, ReadFirst, ReadOn, Take};
use crate::pool_view::PoolView;
use atomic_table::{Seat, Shared};
use model_steps::Refusal;
use std::alloc::{AllocError, Allocator};

/// A pool: the numbers from 1 on, each with a shared atomic word, for any number of threads.
pub type WordPool<A> = PoolOver<Pooling, A>;

impl<A: Allocator + Clone> PoolOver<Pooling, A> {
    /// Makes a pool of `numbers` numbers, of which none is held.
    ///
    /// # Errors
    ///
    /// - `OutOfRange`: `numbers` is not from 1 to 4096.
    /// - `NoMemory`: an allocation failed.
    #[tactic(auto, using(crate::proofs::Keeping::pool_steps))]
    pub fn new(alloc: A, numbers: u64) -> Result<WordPool<A>, Refusal>
        ensures pool { IfOk result (λ p. p.numbers ≡ numbers) }
        ensures range { IsOk result → (1 ≤ numbers) × (numbers ≤ 4096) }
        ensures out_of_range { result ≡ Err Refusal.OutOfRange ↔ ((numbers < 1) ⊎ (4096 < numbers)) }
        ensures only { IfErr result (λ r. (r ≡ Refusal.NoMemory) ⊎ (r ≡ Refusal.OutOfRange)) }
    {
        let (pool, _) = WordPool::with_seat(alloc, numbers)?;
        Ok(pool)
    }
}

/// The words of a pool's numbers.
pub(crate) type Words = Shared<u8, PoolView, u64, Pooling>;

/// Swaps 1 into one word after another from place `from` to below `end`, until a word was 0.
fn take_from(
    table: &Words,
    _numbers: u64,
    mut seat: Seat<u8, PoolView>,
    from: u64,
    end: u64,
) -> Result<Held, AllHeld>
    requires table { IsTableOf _numbers table.now.table_id table.now.key }
    requires ours { seat.table_id ≡ table.now.table_id }
    requires range { (from ≤ end) × (end ≤ _numbers) }
    requires here { IsSeeking from seat.me.0 × (seat.me.1 ≡ []) }
    ensures ours { IfOk result (λ h. h.pool ≡ table.now.table_id) }
    ensures range { IfOk result (λ h. (from < h.number) × (h.number ≤ end)) }
    ensures below { IfOk result (λ h. (h.call.met ≡ first_places (h.number - 1)) × (h.call.hinted ≡ false)) }
    ensures accesses { IfOk result (λ h. h.call.accesses + from ≡ (call_of seat.me.0).accesses + h.number) }
    ensures races { IfOk result (λ h. suc from < h.number → h.call.lost ≡ races (call_of seat.me.0)) }
    ensures aside { IfOk result (λ h. h.call.met_aside ≡ (call_of seat.me.0).met_aside) }
    ensures all_held { IfErr result (λ a. HasMetFirstHeld (pool_of table.now.table_id _numbers) end a) }
    ensures aside_in_vain { IfErr result (λ a. a.call.met_aside ≡ (call_of seat.me.0).met_aside) }
    ensures accesses_in_vain { IfErr result (λ a. a.call.accesses + from ≡ (call_of seat.me.0).accesses + end) }
    ensures races_in_vain { IfErr result (λ a. from < end → a.call.lost ≡ races (call_of seat.me.0)) }
    ensures lost { IfOk result (λ h. (call_of seat.me.0).lost ≤ h.call.lost) }
    ensures lost_in_vain { IfErr result (λ a. (call_of seat.me.0).lost ≤ a.call.lost) }
{
    for place in from..end {
        let found = table.swap::<Take>(&mut seat, (place * STRIDE) as usize, 1);
        if found == 0 {
            return Ok(Held::of(seat, place));
        }
    }
    Err(AllHeld {
        badge: seat.into_badge(),
    })
}

/// Reads each word once, by a new call of the seat.
fn look_at_all<B: Allocator>(
    table: &Words,
    numbers: u64,
    alloc: B,
    seat: &mut Seat<u8, PoolView>,
) -> Result<Vec<u64, B>, AllocError>
    requires table { IsTableOf numbers table.now.table_id table.now.key }
    requires ours { (seat.old.table_id ≡ table.now.table_id) × (seat.old.me.1 ≡ []) }
    ensures ours { (seat.new.table_id ≡ table.now.table_id) × (seat.new.me.1 ≡ []) }
    ensures count { IfOk result (λ v. vec_len v ≡ numbers) }
    ensures words { IfOk result (λ v. (place : ℕ) → place < numbers → IsWordFor place seat.old.me.0 (slice_index v.items place)) }
    ensures met { IfOk result (λ v. (call_of seat.new.me.0).met ≡ set_places v.items numbers) }
    ensures accesses { IsOk result → (call_of seat.new.me.0).accesses ≡ numbers }
{
    let mut words = Vec::with_capacity(alloc, numbers as usize)?;
    let first = table.load::<ReadFirst>(seat, 0);
    words.push_reserved(first);
    for place in 1..numbers {
        let found = table.load::<ReadOn>(seat, (place * STRIDE) as usize);
        words.push_reserved(found);
    }
    Ok(words)
}

impl<A: Allocator> PoolOver<Pooling, A> {
    /// Takes the least number that a walk from 1 upward finds free (Moir and Anderson 1995).
    ///
    /// The walk passes a number only if it finds it held.
    ///
    /// # Errors
    ///
    /// `AllHeld`: the walk found each number held, one after another. They need not have been held at the same time.
    ///
    /// # Steps
    ///
    /// At most `n + 1` accesses to get number `n`, and at most `k` in all among `k` numbers, or `k + 1` if it lost a
    /// race.
    pub fn acquire(&self) -> Result<Held, AllHeld>
        ensures ours { IfOk result (λ h. h.pool ≡ self.now.table) }
        ensures range { IfOk result (λ h. (1 ≤ h.number) × (h.number ≤ self.now.numbers)) }
        ensures below { IfOk result (λ h. (h.call.met ≡ first_places (h.number - 1)) × (h.call.hinted ≡ false)) }
        ensures accesses { IfOk result (λ h. (h.call.accesses ≤ h.number + 1) × IsWithin self.now.numbers h.call) }
        ensures all_held { IfErr result (λ a. HasMetAllHeld self.now a) }
        ensures accesses_in_vain { IfErr result (λ a. IsWithin self.now.numbers a.call) }
    {
        if self.numbers == 1 {
            let (found, seat) = self.table.shared.swap_new_seat::<ComeBySwap>(0, 1);
            return self.walk_by_swaps(seat, found, self.numbers);
        }
        let (found, seat) = self.table.shared.load_new_seat::<Come>(0);
        self.walk(seat, found, self.numbers)
    }

    /// The walk of a seat that has read the first word, over the places below `end`. It reads until it finds a word 0, and
    /// then swaps.
    pub(crate) fn walk(
        &self,
        mut seat: Seat<u8, PoolView>,
        found: u64,
        end: u64,
    ) -> Result<Held, AllHeld>
        requires ours { seat.table_id ≡ self.now.table }
        requires some { (1 < end) × (end ≤ self.now.numbers) }
        requires looked { HasLooked found 0 seat.me.0 × ((call_of seat.me.0).lost ≡ 0) × (seat.me.1 ≡ []) }
        ensures ours { IfOk result (λ h. h.pool ≡ self.now.table) }
        ensures range { IfOk result (λ h. (1 ≤ h.number) × (h.number ≤ end)) }
        ensures below { IfOk result (λ h. (h.call.met ≡ first_places (h.number - 1)) × (h.call.hinted ≡ false)) }
        ensures accesses { IfOk result (λ h. h.call.accesses ≤ (call_of seat.me.0).accesses + h.number) }
        ensures within { IfOk result (λ h. IsWithin ((call_of seat.me.0).accesses + end - 1) h.call) }
        ensures aside { IfOk result (λ h. h.call.met_aside ≡ (call_of seat.me.0).met_aside) }
        ensures all_held { IfErr result (λ a. HasMetFirstHeld self.now end a) }
        ensures aside_in_vain { IfErr result (λ a. a.call.met_aside ≡ (call_of seat.me.0).met_aside) }
        ensures accesses_in_vain { IfErr result (λ a. IsWithin ((call_of seat.me.0).accesses + end - 1) a.call) }
    {
        let place = if found == 0 {
            0
        } else {
            self.look_on(&mut seat, end)
        };
        take_from(&self.table.shared, self.numbers, seat, place, end)
    }

    /// The walk of a seat that has swapped into the first word, over the places below `end`. It goes on by swaps alone.
    pub(crate) fn walk_by_swaps(
        &self,
        seat: Seat<u8, PoolView>,
        found: u64,
        end: u64,
    ) -> Result<Held, AllHeld>
        requires ours { seat.table_id ≡ self.now.table }
        requires some { (0 < end) × (end ≤ self.now.numbers) × (0 < self.now.table.words) }
        requires swapped { HasSwapped found 0 seat.me.0 × (seat.me.1 ≡ []) }
        ensures ours { IfOk result (λ h. h.pool ≡ self.now.table) }
        ensures range { IfOk result (λ h. (1 ≤ h.number) × (h.number ≤ end)) }
        ensures below { IfOk result (λ h. (h.call.met ≡ first_places (h.number - 1)) × (h.call.hinted ≡ false)) }
        ensures accesses { IfOk result (λ h. h.call.accesses + 1 ≡ (call_of seat.me.0).accesses + h.number) }
        ensures aside { IfOk result (λ h. h.call.met_aside ≡ (call_of seat.me.0).met_aside) }
        ensures all_held { IfErr result (λ a. HasMetFirstHeld self.now end a) }
        ensures aside_in_vain { IfErr result (λ a. a.call.met_aside ≡ (call_of seat.me.0).met_aside) }
        ensures accesses_in_vain { IfErr result (λ a. a.call.accesses + 1 ≡ (call_of seat.me.0).accesses + end) }
        ensures lost { IfOk result (λ h. (call_of seat.me.0).lost ≤ h.call.lost) }
        ensures lost_in_vain { IfErr result (λ a. (call_of seat.me.0).lost ≤ a.call.lost) }
    {
        if found == 0 {
            return Ok(Held::of(seat, 0));
        }
        take_from(&self.table.shared, self.numbers, seat, 1, end)
    }

    /// Gives a number of this pool back, by one access.
    pub fn release(&self, held: Held) -> Released
        requires ours { held.pool ≡ self.now.table }
        ensures ours { result.pool ≡ self.now.table }
        ensures number { result.number ≡ held.number }
        ensures accesses { result.call.accesses ≡ held.call.accesses + 1 }
    {
        Released {
            badge: self.give_back(held),
        }
    }

    /// Ends the pool and returns its words, by rising number: 1 if the number is held, otherwise 0. Each number in
    /// `out` has word 1.
    ///
    /// `LastLook` shows that each word was read once, and which numbers were found held. `out` is of this pool.
    ///
    /// # Errors
    ///
    /// `AllocError`: the allocation failed. The pool is gone.
    pub fn close<B: Allocator, C: Allocator>(
        self,
        alloc: B,
        out: Vec<Held, C>,
    ) -> Result<(Vec<u64, B>, LastLook), AllocError>
        requires ours { (i : ℕ) (h : CallId) → get_elem? out.items i ≡ some h → h.pool ≡ self.table }
        ensures count { IfOk result (λ r. vec_len r.0 ≡ self.numbers) }
        ensures bits { IfOk result (λ r. (place : ℕ) → place < self.numbers → slice_index r.0.items place ≤ 1) }
        ensures out { IfOk result (λ r. (i : ℕ) (h : CallId) → get_elem? out.items i ≡ some h → slice_index r.0.items (h.number - 1) ≡ 1) }
        ensures no_others { IfOk result (λ r. HasLookedAtAll self r.0.items r.1) }
    {
        let (_, mut seat) = self.table.shared.load_new_seat::<LookAside>(0);
        self.gather_all(&mut seat, out);
        let words = look_at_all(&self.table.shared, self.numbers, alloc, &mut seat)?;
        let badge = seat.into_badge();
        Ok((words, LastLook { badge }))
    }
}
