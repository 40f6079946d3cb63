//! A walk over a pool that begins at a hint.

ghost use Rattle.std.specs.Prelude.{[], ◌∷◌, ◌≡◌, ◌<◌, ◌≤◌, ◌+◌, ◌-◌, true, false, IfErr, IfOk};
ghost use Rattle.words_pool.specs.PoolView.{call_of, first_places, lone, places_from, races, IsAside, IsWithin};
ghost use Rattle.words_pool.specs.Tally.{one_if};
ghost use Rattle.words_pool.specs.Pools.{CallId, HasGoneOn, HasMetAllFrom, HasMetAllHeld, HasWrapped, IsHint, IsNoHint, IsTableOf};

use crate::held::{AllHeld, Held};
use crate::pool_over::{PoolOver, STRIDE};
use crate::pool_steps::{Come, ComeBySwap, LookAside, Pooling, TakeAside};
use crate::pool_view::PoolView;
use crate::word_pool::Words;
use atomic_table::Seat;
use std::alloc::Allocator;

/// Reads one word after another from place `from` on, and returns the first place that is free, or `numbers`.
fn look_aside(
    table: &Words,
    numbers: u64,
    seat: &mut Seat<u8, PoolView>,
    _first: u64,
    from: u64,
) -> u64
    requires table { IsTableOf numbers table.now.table_id table.now.key }
    requires ours { (seat.old.table_id ≡ table.now.table_id) × (seat.old.me.1 ≡ []) }
    requires range { (_first ≤ from) × (from ≤ numbers) }
    requires here { IsAside _first (from - _first) seat.old.me.0 × ((call_of seat.old.me.0).sighted ≡ false) }
    ensures ours { (seat.new.table_id ≡ table.now.table_id) × (seat.new.me.1 ≡ []) }
    ensures range { (from ≤ result) × (result + one_if (call_of seat.new.me.0).sighted ≤ numbers) }
    ensures here { IsAside _first (result - _first) seat.new.me.0 }
    ensures all { result ≡ numbers → (call_of seat.new.me.0).sighted ≡ false }
    ensures one { result < numbers → (call_of seat.new.me.0).sighted ≡ true }
    ensures accesses { (call_of seat.new.me.0).accesses + from ≡ (call_of seat.old.me.0).accesses + result + one_if (call_of seat.new.me.0).sighted }
    ensures lost { (call_of seat.new.me.0).lost ≡ (call_of seat.old.me.0).lost }
{
    for place in from..numbers {
        let found = table.load::<LookAside>(seat, (place * STRIDE) as usize);
        if found == 0 {
            return place;
        }
    }
    numbers
}

/// Swaps 1 into one word after another from place `from` on, until a word was 0. The seat comes back if none was.
fn take_aside(
    table: &Words,
    numbers: u64,
    mut seat: Seat<u8, PoolView>,
    _first: u64,
    from: u64,
) -> Result<Held, Seat<u8, PoolView>>
    requires table { IsTableOf numbers table.now.table_id table.now.key }
    requires ours { (seat.table_id ≡ table.now.table_id) × (seat.me.1 ≡ []) }
    requires range { (_first ≤ from) × (from ≤ numbers) }
    requires here { IsAside _first (from - _first) seat.me.0 }
    ensures ours { IfOk result (λ h. h.pool ≡ table.now.table_id) }
    ensures range { IfOk result (λ h. (from < h.number) × (h.number ≤ numbers)) }
    ensures hinted { IfOk result (λ h. h.call.hinted ≡ true) }
    ensures met { IfOk result (λ h. h.call.met_aside ≡ places_from _first (h.number - 1 - _first)) }
    ensures accesses { IfOk result (λ h. h.call.accesses + from ≡ (call_of seat.me.0).accesses + h.number) }
    ensures ours_in_vain { IfErr result (λ s. (s.table_id ≡ table.now.table_id) × (s.me.1 ≡ [])) }
    ensures here_in_vain { IfErr result (λ s. IsAside _first (numbers - _first) s.me.0) }
    ensures accesses_in_vain { IfErr result (λ s. (call_of s.me.0).accesses + from ≡ (call_of seat.me.0).accesses + numbers) }
    ensures lost_in_vain { IfErr result (λ s. from < numbers → (call_of s.me.0).lost ≡ races (call_of seat.me.0)) }
{
    for place in from..numbers {
        let found = table.swap::<TakeAside>(&mut seat, (place * STRIDE) as usize, 1);
        if found == 0 {
            return Ok(Held::of(seat, place));
        }
    }
    Err(seat)
}

impl<A: Allocator> PoolOver<Pooling, A> {
    /// Takes the first number that a walk finds free: from `hint` up to the greatest, and then from 1 up to `hint`. It tries
    /// each number once.
    ///
    /// The walk passes a number only if it finds it held. A hint of 1, and one that is no number of this pool, is no hint:
    /// then this is `acquire`.
    ///
    /// # Errors
    ///
    /// `AllHeld`: the walk found each number held, one after another. They need not have been held at the same time.
    ///
    /// # Steps
    ///
    /// At most `n - hint + 2` accesses to get number `n` from `hint` on, so two to get the hint. At most `k` in all among `k`
    /// numbers, or `k + 1` if it lost a race.
    pub fn acquire_near(&self, hint: u64) -> Result<Held, AllHeld>
        ensures ours { IfOk result (λ h. h.pool ≡ self.now.table) }
        ensures range { IfOk result (λ h. (1 ≤ h.number) × (h.number ≤ self.now.numbers)) }
        ensures gone_on { IfOk result (λ h. h.call.hinted ≡ true → HasGoneOn hint h) }
        ensures wrapped { IfOk result (λ h. h.call.hinted ≡ false → IsHint self.now hint → HasWrapped self.now hint h) }
        ensures below { IfOk result (λ h. h.call.hinted ≡ false → h.call.met ≡ first_places (h.number - 1)) }
        ensures no_hint { IfOk result (λ h. IsNoHint self.now hint → (h.call.hinted ≡ false) × (h.call.accesses ≤ h.number + 1)) }
        ensures accesses { IfOk result (λ h. IsWithin self.now.numbers h.call) }
        ensures all_held { IfErr result (λ a. IsHint self.now hint → HasMetAllFrom self.now hint a) }
        ensures all_held_from_1 { IfErr result (λ a. IsNoHint self.now hint → HasMetAllHeld self.now a) }
        ensures accesses_in_vain { IfErr result (λ a. IsWithin self.now.numbers a.call) }
    {
        if hint <= 1 || self.numbers < hint {
            return self.acquire();
        }
        self.acquire_from(hint)
    }

    /// The walk of a call with a hint that is a number of this pool other than 1.
    fn acquire_from(&self, hint: u64) -> Result<Held, AllHeld>
        requires hint { IsHint self.now hint }
        ensures ours { IfOk result (λ h. h.pool ≡ self.now.table) }
        ensures range { IfOk result (λ h. (1 ≤ h.number) × (h.number ≤ self.now.numbers)) }
        ensures gone_on { IfOk result (λ h. h.call.hinted ≡ true → HasGoneOn hint h) }
        ensures wrapped { IfOk result (λ h. h.call.hinted ≡ false → HasWrapped self.now hint h) }
        ensures accesses { IfOk result (λ h. IsWithin self.now.numbers h.call) }
        ensures all_held { IfErr result (λ a. HasMetAllFrom self.now hint a) }
        ensures accesses_in_vain { IfErr result (λ a. IsWithin self.now.numbers a.call) }
    {
        let first = hint - 1;
        let table = &self.table.shared;
        let (found, mut seat) = table.load_new_seat::<LookAside>((first * STRIDE) as usize);
        let place = if found == 0 {
            first
        } else {
            look_aside(table, self.numbers, &mut seat, first, hint)
        };
        if place == self.numbers {
            return self.walk_below(seat, first);
        }
        match take_aside(table, self.numbers, seat, first, place) {
            Ok(held) => Ok(held),
            Err(seat) => self.walk_on(seat, first),
        }
    }

    /// The walk over the places below `end` of a seat at rest, which has met those from `end` on held.
    fn walk_below(&self, mut seat: Seat<u8, PoolView>, end: u64) -> Result<Held, AllHeld>
        requires ours { (seat.table_id ≡ self.now.table) × (seat.me.1 ≡ []) }
        requires range { (0 < end) × (end < self.now.numbers) }
        requires here { IsAside end (self.now.numbers - end) seat.me.0 × ((call_of seat.me.0).lost ≡ 0) }
        requires accesses { (call_of seat.me.0).accesses + end ≤ self.now.numbers }
        ensures ours { IfOk result (λ h. h.pool ≡ self.now.table) }
        ensures range { IfOk result (λ h. (1 ≤ h.number) × (h.number ≤ self.now.numbers) × (h.call.hinted ≡ false)) }
        ensures wrapped { IfOk result (λ h. HasWrapped self.now (end + 1) h) }
        ensures accesses { IfOk result (λ h. IsWithin self.now.numbers h.call) }
        ensures all_held { IfErr result (λ a. HasMetAllFrom self.now (end + 1) a) }
        ensures accesses_in_vain { IfErr result (λ a. IsWithin self.now.numbers a.call) }
    {
        if end == 1 {
            return self.walk_on(seat, end);
        }
        let found = self.table.shared.load::<Come>(&mut seat, 0);
        self.walk(seat, found, end)
    }

    /// The same by swaps alone.
    fn walk_on(&self, mut seat: Seat<u8, PoolView>, end: u64) -> Result<Held, AllHeld>
        requires ours { (seat.table_id ≡ self.now.table) × (seat.me.1 ≡ []) }
        requires range { (0 < end) × (end < self.now.numbers) }
        requires here { IsAside end (self.now.numbers - end) seat.me.0 }
        requires accesses { ((call_of seat.me.0).accesses + end ≤ self.now.numbers + 1) ×
            ((call_of seat.me.0).lost ≡ 0 → (call_of seat.me.0).accesses + end ≤ self.now.numbers) }
        ensures ours { IfOk result (λ h. h.pool ≡ self.now.table) }
        ensures range { IfOk result (λ h. (1 ≤ h.number) × (h.number ≤ self.now.numbers) × (h.call.hinted ≡ false)) }
        ensures wrapped { IfOk result (λ h. HasWrapped self.now (end + 1) h) }
        ensures accesses { IfOk result (λ h. IsWithin self.now.numbers h.call) }
        ensures all_held { IfErr result (λ a. HasMetAllFrom self.now (end + 1) a) }
        ensures accesses_in_vain { IfErr result (λ a. IsWithin self.now.numbers a.call) }
    {
        let found = self.table.shared.swap::<ComeBySwap>(&mut seat, 0, 1);
        self.walk_by_swaps(seat, found, end)
    }
}
