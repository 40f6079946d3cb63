//! A pool with as many tickets as numbers.

ghost use Rattle.std.specs.Prelude.{[], ◌∷◌, ◌≡◌, ◌<◌, ◌≤◌, ◌+◌, ◌-◌, ◌*◌, ◌⊎◌, ◌↔◌, ℕ, suc, Err, IfErr, IfOk, IfSome, IsOk, IsSome, vec_len, slice_index};
ghost use Rattle.std.specs.Mem.Slots.{slots_items, slots_len, IsFull};
ghost use Rattle.words_pool.specs.PoolRule.{word_of};
ghost use Rattle.words_pool.specs.PoolView.{call_of, first_of, first_places, going, lone, races, IsSeeking, IsWithin};
ghost use Rattle.words_pool.specs.Pools.{CallId};
ghost use Rattle.words_pool.specs.Crowd.{greatest};
ghost use Rattle.words_pool.specs.LineRule.{IsInLine};
ghost use Rattle.words_pool.specs.Tally.{sum_below};
ghost use lib.ListN.{get_elem?};
ghost use mathlib.Core.Option.{some};

use crate::held::Held;
use crate::line_steps::{ComeBySwapInLine, DealNumber, Lining, Never, TakeInLine};
use crate::pool_over::{PoolOver, STRIDE};
use crate::pool_steps::Come;
use crate::pool_view::PoolView;
use crate::ticket::{Ticket, Tickets};
use atomic_table::{Closed, Seat};
use model_steps::Refusal;
use std::alloc::{AllocError, Allocator};

/// A line: the numbers from 1 on, each with a shared atomic word, and as many tickets. A thread with a ticket always
/// gets a number.
pub type LinePool<A> = PoolOver<Lining, A>;

impl<A: Allocator + Clone> PoolOver<Lining, A> {
    /// Makes a line of `numbers` numbers, of which none is held, and as many tickets.
    ///
    /// # Errors
    ///
    /// - `OutOfRange`: `numbers` is not from 1 to 4096.
    /// - `NoMemory`: an allocation failed.
    #[tactic(auto, using(crate::proofs::Lining::line_steps))]
    pub fn new(alloc: A, numbers: u64) -> Result<(LinePool<A>, Tickets), Refusal>
        ensures pool { IfOk result (λ r. r.0.numbers ≡ numbers) }
        ensures tickets { IfOk result (λ r. r.1 ≡ r.0) }
        ensures range { IsOk result → (1 ≤ numbers) × (numbers ≤ 4096) }
        ensures out_of_range { result ≡ Err Refusal.OutOfRange ↔ ((numbers < 1) ⊎ (4096 < numbers)) }
        ensures only { IfErr result (λ r. (r ≡ Refusal.NoMemory) ⊎ (r ≡ Refusal.OutOfRange)) }
    {
        let (line, seat) = LinePool::with_seat(alloc, numbers)?;
        let left = numbers;
        Ok((line, Tickets { left, seat }))
    }
}

impl<A: Allocator> PoolOver<Lining, A> {
    /// Deals a ticket of this line, or returns `None` if none is left.
    pub fn deal(&self, tickets: &mut Tickets) -> Option<Ticket>
        requires ours { tickets.old.table ≡ self.now.table }
        ensures ours { tickets.new.table ≡ self.now.table }
        ensures left { tickets.new.numbers ≡ tickets.old.numbers - 1 }
        ensures some { IsSome result ↔ (0 < tickets.old.numbers) }
        ensures ticket { IfSome result (λ t. t.pool ≡ self.now.table) }
    {
        if tickets.left == 0 {
            return None;
        }
        let Tickets { left, seat } = tickets;
        *left -= 1;
        let dealt = self.table.shared.split_seat::<DealNumber>(seat);
        Some(Ticket {
            badge: dealt.into_badge(),
        })
    }

    /// Takes the least number that a walk from 1 upward finds free, for a ticket of this line (Moir and Anderson 1995).
    ///
    /// The walk passes a number only if it finds it held. The number is at most the most calls that competed, held or
    /// sought, at one moment of this call: `crowds` has how many did at each moment, and `law_of_the_line` says so of
    /// every call. `release` returns the ticket.
    ///
    /// # Steps
    ///
    /// At most `n + 1` accesses to get number `n`, and at most `k` in all among `k` numbers, or `k + 1` if it lost a
    /// race.
    pub fn acquire(&self, ticket: Ticket) -> Held
        requires ours { ticket.pool ≡ self.now.table }
        ensures ours { result.pool ≡ self.now.table }
        ensures this_call { (result.seat ≡ ticket.seat) × (result.past ≡ ticket.past) }
        ensures range { (1 ≤ result.number) × (result.number ≤ self.now.numbers) }
        ensures below { result.call.met ≡ first_places (result.number - 1) }
        ensures accesses { (result.call.accesses ≤ result.number + 1) × IsWithin self.now.numbers result.call }
        ensures small { result.number ≤ greatest result.call.crowds }
        ensures in_line { IsInLine (lone result.call result.past) }
    {
        let Ticket { badge } = ticket;
        let mut seat = badge.into_seat::<u8>();
        if self.numbers == 1 {
            let found = self.table.shared.swap::<ComeBySwapInLine>(&mut seat, 0, 1);
            if found == 0 {
                return Held::of(seat, 0);
            }
            return self.take_from(seat, 1);
        }
        let found = self.table.shared.load::<Come>(&mut seat, 0);
        let place = if found == 0 {
            0
        } else {
            self.look_on(&mut seat, self.numbers)
        };
        self.take_from(seat, place)
    }

    /// Swaps 1 into one word after another from place `from` on, until a word was 0.
    fn take_from(&self, mut seat: Seat<u8, PoolView>, from: u64) -> Held
        requires ours { seat.table_id ≡ self.now.table }
        requires range { from ≤ self.now.numbers }
        requires here { IsSeeking from seat.me.0 × (seat.me.1 ≡ []) }
        ensures ours { result.pool ≡ self.now.table }
        ensures this_call { (result.seat ≡ seat.id) × (result.past ≡ seat.me.0.past) }
        ensures range { (from < result.number) × (result.number ≤ self.now.numbers) }
        ensures below { result.call.met ≡ first_places (result.number - 1) }
        ensures accesses { result.call.accesses + from ≡ (call_of seat.me.0).accesses + result.number }
        ensures races { suc from < result.number → result.call.lost ≡ races (call_of seat.me.0) }
        ensures small { result.number ≤ greatest result.call.crowds }
        ensures in_line { IsInLine (lone result.call result.past) }
    {
        for place in from..self.numbers {
            let found = self
                .table
                .shared
                .swap::<TakeInLine>(&mut seat, (place * STRIDE) as usize, 1);
            if found == 0 {
                return Held::of(seat, place);
            }
        }
        // No seat is past the last number, so this is never reached.
        self.table.shared.load::<Never>(&mut seat, 0);
        unreachable!()
    }

    /// Gives a number of this line back, by one access, and returns the ticket.
    pub fn release(&self, held: Held) -> Ticket
        requires ours { held.pool ≡ self.now.table }
        ensures ours { (result.pool ≡ self.now.table) × (result.seat ≡ held.seat) }
        ensures past { (moment : ℕ) × (result.past ≡ going moment held.call ∷ held.past) }
        ensures number { suc (first_of result.past).place ≡ held.number }
        ensures accesses { (first_of result.past).accesses ≡ held.call.accesses + 1 }
    {
        Ticket {
            badge: self.give_back(held),
        }
    }

    /// Ends the line and returns its words, by rising number: 1 or 0. Each number in `out` has word 1.
    ///
    /// At most as many words are 1 as tickets were dealt. `out` and the tickets are of this line.
    ///
    /// # Errors
    ///
    /// `AllocError`: the allocation failed. The line is gone.
    pub fn close<B: Allocator, C: Allocator>(
        self,
        alloc: B,
        tickets: Tickets,
        out: Vec<Held, C>,
    ) -> Result<Vec<u64, B>, AllocError>
        requires tickets { tickets.table ≡ self.table }
        requires ours { (i : ℕ) (h : CallId) → get_elem? out.items i ≡ some h → h.pool ≡ self.table }
        ensures count { IfOk result (λ v. vec_len v ≡ self.numbers) }
        ensures bits { IfOk result (λ v. (place : ℕ) → place < self.numbers → slice_index v.items place ≤ 1) }
        ensures out { IfOk result (λ v. (i : ℕ) (h : CallId) → get_elem? out.items i ≡ some h → slice_index v.items (h.number - 1) ≡ 1) }
        ensures most { IfOk result (λ v. sum_below (slice_index v.items) self.numbers + tickets.numbers ≤ self.numbers) }
    {
        let Tickets { left: _, mut seat } = tickets;
        self.gather_all(&mut seat, out);
        let PoolOver { numbers, table } = self;
        let closed = table.close_with(seat);
        let words = read_out(alloc, &closed, numbers as usize);
        closed.free();
        match words {
            Ok(words) => Ok(words),
            Err(AllocError) => Err(AllocError),
        }
    }
}

/// The words of `count` numbers of a closed table, in their order.
pub(crate) fn read_out<A: Allocator, B: Allocator>(
    alloc: B,
    closed: &Closed<u8, A>,
    count: usize,
) -> Result<Vec<u64, B>, AllocError>
    requires { (word_of count ≡ slots_len closed.now.words) × (count ≤ 4096) × IsFull closed.now.words }
    ensures count { IfOk result (λ v. vec_len v ≡ count) }
    ensures words { IfOk result (λ v. (i : ℕ) → i < count → get_elem? v.items i ≡ get_elem? (slots_items closed.now.words) (word_of i)) }
{
    let mut words = Vec::with_capacity(alloc, count)?;
    for i in 0..count {
        words.push_reserved(closed.word(i * STRIDE as usize));
    }
    Ok(words)
}
