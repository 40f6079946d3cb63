//! The words of numbers under any invariant of a pool, and what each pool does with them in the same way.

ghost use Rattle.std.specs.Prelude.{[], ◌∷◌, ◌≡◌, ◌≢◌, ◌<◌, ◌≤◌, ◌+◌, ◌⊎◌, ◌↔◌, ℕ, suc, false, Err, IfErr, IfOk, IsOk};
ghost use lib.ListN.{get_elem?};
ghost use mathlib.Core.Option.{some};
ghost use Rattle.words_pool.specs.declared.pool_view.Call.{Call};
ghost use Rattle.words_pool.specs.Tally.{own, one_if};
ghost use Rattle.words_pool.specs.PoolView.{call_of, going, resting, IsSeeking};
ghost use Rattle.words_pool.specs.NumberSteps.{KeepsSteps};
ghost use Rattle.words_pool.specs.Pools.{CallId, HasNumberOf, IsHeldAt, IsStill};

use crate::held::Held;
use crate::pool_steps::{Free, LookAtNumber, LookAtStay, Sever, UniteStays};
use crate::pool_view::PoolView;
use atomic_table::{Badge, Seat, Table, TableRule};
use model_steps::Refusal;
use std::alloc::{AllocError, Allocator};
use std::marker::Model;
use std::mem;

/// The most numbers of a pool.
pub(crate) const MOST_NUMBERS: u64 = 4096;

/// The distance of two numbers in words, so that no two of them share a cache line.
pub(crate) const STRIDE: u64 = 8;

/// The numbers from 1 on, each with a shared atomic word: 1 while a thread holds the number, otherwise 0.
///
/// `WordPool` and `LinePool` are this type with their invariants.
#[derive(Drop)]
pub struct PoolOver<R: TableRule<u8, PoolView, u64>, A: Allocator> {
    pub(crate) numbers: u64,
    // It has no slots: their type means nothing.
    pub(crate) table: Table<u8, PoolView, u64, R, A>,
}

impl<R: TableRule<u8, PoolView, u64>, A: Allocator> Model for PoolOver<R, A> {
    ghost use Rattle.words_pool.specs.NumberSteps.{KeepsSteps};
    ghost use Rattle.words_pool.specs.Pools.{IsTableOf, PoolId, pool_of};

    ghost Value = { PoolId };

    ghost view = { λ p. pool_of p.table.shared.table_id p.numbers };

    ghost invariant = { λ p. IsTableOf p.numbers p.table.shared.table_id p.table.shared.key × KeepsSteps R.holds R.first };
}

impl<R: TableRule<u8, PoolView, u64>, A: Allocator + Clone> PoolOver<R, A> {
    /// Makes the words of `numbers` numbers, of which none is held, and the first seat.
    ///
    /// `OutOfRange` if `numbers` is not from 1 to 4096, or `NoMemory` if an allocation failed.
    pub(crate) fn with_seat(
        alloc: A,
        numbers: u64,
    ) -> Result<(PoolOver<R, A>, Seat<u8, PoolView>), Refusal>
        requires rule { KeepsSteps R.holds R.first }
        ensures pool { IfOk result (λ r. r.0.numbers ≡ numbers) }
        ensures seat { IfOk result (λ r. (r.1.table_id ≡ r.0.table) × (r.1.me ≡ (R.first numbers, []))) }
        ensures range { IsOk result → (1 ≤ numbers) × (numbers ≤ 4096) }
        ensures out_of_range { result ≡ Err Refusal.OutOfRange ↔ ((numbers < 1) ⊎ (4096 < numbers)) }
        ensures only { IfErr result (λ r. (r ≡ Refusal.NoMemory) ⊎ (r ≡ Refusal.OutOfRange)) }
    {
        if numbers < 1 || MOST_NUMBERS < numbers {
            return Err(Refusal::OutOfRange);
        }
        Ok(PoolOver::open(alloc, numbers)?)
    }

    fn open(alloc: A, numbers: u64) -> Result<(PoolOver<R, A>, Seat<u8, PoolView>), AllocError>
        requires range { (1 ≤ numbers) × (numbers ≤ 4096) }
        requires rule { KeepsSteps R.holds R.first }
        ensures pool { IfOk result (λ r. r.0.numbers ≡ numbers) }
        ensures seat { IfOk result (λ r. (r.1.table_id ≡ r.0.table) × (r.1.me ≡ (R.first numbers, []))) }
    {
        let words = Vec::from_elem(alloc.clone()?, 0u64, (numbers * STRIDE) as usize)?;
        let (table, seat) = Table::of_words(alloc, words.as_slice(), &numbers)?;
        Ok((PoolOver { numbers, table }, seat))
    }
}

impl<R: TableRule<u8, PoolView, u64>, A: Allocator> PoolOver<R, A> {
    /// Returns the number of numbers: from 1 to 4096.
    pub fn numbers(&self) -> u64
        ensures count { result ≡ self.now.numbers }
        ensures range { (1 ≤ result) × (result ≤ 4096) }
    {
        self.numbers
    }

    /// Reads one word after another from the second on, and returns the first place that is free, or the last below `end`,
    /// which it does not read.
    pub(crate) fn look_on(&self, seat: &mut Seat<u8, PoolView>, end: u64) -> u64
        requires ours { seat.old.table_id ≡ self.now.table }
        requires some { (1 < end) × (end ≤ self.now.numbers) }
        requires passed { IsSeeking 1 seat.old.me.0 × ((call_of seat.old.me.0).sighted ≡ false) × (seat.old.me.1 ≡ []) }
        ensures ours { (seat.new.table_id ≡ self.now.table) × (seat.new.me.1 ≡ []) }
        ensures this_call { (seat.new.id ≡ seat.old.id) × (seat.new.me.0.past ≡ seat.old.me.0.past) }
        ensures range { (1 ≤ result) × (result + one_if (call_of seat.new.me.0).sighted < end) }
        ensures here { IsSeeking result seat.new.me.0 }
        ensures accesses { (call_of seat.new.me.0).accesses + 1 ≡ (call_of seat.old.me.0).accesses + result + one_if (call_of seat.new.me.0).sighted }
        ensures lost { (call_of seat.new.me.0).lost ≡ (call_of seat.old.me.0).lost }
        ensures aside { (call_of seat.new.me.0).met_aside ≡ (call_of seat.old.me.0).met_aside }
    {
        for place in 1..end - 1 {
            let found = self
                .table
                .shared
                .load::<LookAtNumber>(seat, (place * STRIDE) as usize);
            if found == 0 {
                return place;
            }
        }
        end - 1
    }

    /// Gives a number of this pool back, by one access, and returns the seat of the call that ended.
    pub(crate) fn give_back(&self, held: Held) -> Badge<PoolView>
        requires ours { held.pool ≡ self.now.table }
        ensures ours { (result.table_id ≡ self.now.table) × (result.id ≡ held.seat) }
        ensures ended { (moment : ℕ) × (result.views ≡ resting (going moment held.call ∷ held.past) ∷ []) }
        ensures number { suc held.call.place ≡ held.number }
    {
        let Held { place, badge } = held;
        let mut seat = badge.into_seat::<u8>();
        self.table
            .shared
            .store::<Free>(&mut seat, (place * STRIDE) as usize, 0);
        seat.into_badge()
    }

    /// Compares two held numbers of this pool, which stay as they are. They differ.
    pub fn meet(&self, one: &mut Held, other: &mut Held)
        requires one { one.old.pool ≡ self.now.table }
        requires other { other.old.pool ≡ self.now.table }
        ensures one { IsStill one.old one.new }
        ensures other { IsStill other.old other.new }
        ensures apart { one.old.number ≢ other.old.number }
    {
        let left = mem::replace(&mut one.badge, Badge::blank()).into_seat::<u8>();
        let right = mem::replace(&mut other.badge, Badge::blank()).into_seat::<u8>();
        let (left, right) = self.look_together(left, right, one.place, other.place);
        one.badge = left.into_badge();
        other.badge = right.into_badge();
    }

    /// Joins two seats that hold a place each, reads a word, and parts them again.
    fn look_together(
        &self,
        mut left: Seat<u8, PoolView>,
        right: Seat<u8, PoolView>,
        _one: u64,
        _other: u64,
    ) -> (Seat<u8, PoolView>, Seat<u8, PoolView>)
        requires ours { (left.table_id ≡ self.now.table) × (right.table_id ≡ self.now.table) }
        requires left { IsHeldAt _one (left.me.0 ∷ []) × (left.me.1 ≡ []) }
        requires right { IsHeldAt _other (right.me.0 ∷ []) × (right.me.1 ≡ []) }
        ensures ours { (result.0.table_id ≡ self.now.table) × (result.1.table_id ≡ self.now.table) }
        ensures left { IsHeldAt _one (result.0.me.0 ∷ []) × (result.0.me.1 ≡ []) }
        ensures right { IsHeldAt _other (result.1.me.0 ∷ []) × (result.1.me.1 ≡ []) }
        ensures calls { (call_of result.0.me.0 ≡ call_of left.me.0) × (call_of result.1.me.0 ≡ call_of right.me.0) }
        ensures met { _one ≢ _other }
    {
        self.table.shared.join_seat::<UniteStays>(&mut left, right);
        self.table.shared.load::<LookAtStay>(&mut left, 0);
        let right = self.table.shared.split_seat::<Sever>(&mut left);
        (left, right)
    }

    /// Adds the calls of some held numbers to a seat.
    pub(crate) fn gather_all<C: Allocator>(
        &self,
        seat: &mut Seat<u8, PoolView>,
        mut out: Vec<Held, C>,
    )
        requires ours { (seat.old.table_id ≡ self.now.table) × (seat.old.me.1 ≡ []) }
        requires out { (i : ℕ) (h : CallId) → get_elem? out.items i ≡ some h → h.pool ≡ self.now.table }
        ensures ours { (seat.new.table_id ≡ self.now.table) × (seat.new.me.1 ≡ []) }
        ensures more { (f : Call → ℕ) → own f seat.old.me.0 ≤ own f seat.new.me.0 }
        ensures held { (i : ℕ) (h : CallId) → get_elem? out.items i ≡ some h → HasNumberOf self.now.table seat.new.me.0 h }
    {
        while let Some(held) = out.pop() {
            self.gather(seat, held);
        }
    }

    /// Adds the call of one held number to a seat.
    fn gather(&self, seat: &mut Seat<u8, PoolView>, held: Held)
        requires ours { (seat.old.table_id ≡ self.now.table) × (seat.old.me.1 ≡ []) }
        requires held { held.pool ≡ self.now.table }
        ensures ours { (seat.new.table_id ≡ self.now.table) × (seat.new.me.1 ≡ []) }
        ensures more { (f : Call → ℕ) → own f seat.old.me.0 ≤ own f seat.new.me.0 }
        ensures held { HasNumberOf self.now.table seat.new.me.0 held }
    {
        let Held { place: _, badge } = held;
        self.table
            .shared
            .join_seat::<UniteStays>(seat, badge.into_seat::<u8>());
    }
}
