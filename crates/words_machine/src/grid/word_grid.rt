//! The grid.

ghost use Rattle.std.specs.Prelude.{◌≡◌, ◌≢◌, ◌<◌, ◌≤◌, ◌+◌, ◌*◌, ◌/◌, IfOk, IfErr, IfSome, IfNone, IsOk, IsSome, Err, ◌⊎◌, ◌↔◌};
ghost use Rattle.model_splitter.specs.grid.Door.{IsDoorWithin};
ghost use Rattle.words_machine.specs.grid.Law.{WalkSpec};
ghost use Rattle.words_machine.specs.grid.Seats.{claim_of, place_of};
ghost use Rattle.words_machine.specs.Ids.{dealer_of, seat_of};

use crate::WordMachine;
use crate::grid::seats::{EnteredGridSeat, FreshGridSeat, GridClaim, GridDealer};
use model_splitter::grid::Walker;
use model_steps::Refusal;
use std::alloc::Allocator;
use std::marker::Model;

/// The most seats of a grid.
const MOST_SEATS: u64 = 64;

/// A triangular grid of splitters on shared atomic words (Moir and Anderson 1995), for a fixed number of seats.
#[derive(Drop)]
pub struct WordGrid<A: Allocator> {
    machine: WordMachine<Walker, A>,
}

impl<A: Allocator> Model for WordGrid<A> {
    ghost use Rattle.words_machine.specs.grid.Seats.{GridId};

    ghost Value = { GridId };

    ghost view = { λ g. g.machine };
}

impl<A: Allocator + Clone> WordGrid<A> {
    /// Makes a grid that no seat has entered, and the dealer of its seats.
    ///
    /// # Errors
    ///
    /// - `OutOfRange`: `most` is not from 1 to 64.
    /// - `NoMemory`: an allocation failed.
    pub fn new(alloc: A, most: u64) -> Result<(WordGrid<A>, GridDealer), Refusal>
        ensures grid { IfOk result (λ r. r.0.most ≡ most) }
        ensures dealer { IfOk result (λ r. r.1 ≡ dealer_of r.0 0) }
        ensures range { IsOk result → (1 ≤ most) × (most ≤ 64) }
        ensures out_of_range { result ≡ Err Refusal.OutOfRange ↔ ((most < 1) ⊎ (64 < most)) }
        ensures only { IfErr result (λ r. (r ≡ Refusal.NoMemory) ⊎ (r ≡ Refusal.OutOfRange)) }
    {
        if most < 1 || MOST_SEATS < most {
            return Err(Refusal::OutOfRange);
        }
        let (machine, dealer) = WordMachine::new(alloc, most)?;
        Ok((WordGrid { machine }, dealer))
    }
}

impl<A: Allocator> WordGrid<A> {
    /// Returns the most seats: from 1 to 64.
    pub fn most(&self) -> u64
        ensures count { result ≡ self.now.most }
        ensures range { (1 ≤ result) × (result ≤ 64) }
    {
        self.machine.most()
    }

    /// Deals the seat of the least number that was not dealt, or returns `None` if all seats were dealt. The dealer is
    /// of this grid.
    pub fn deal(&self, dealer: &mut GridDealer) -> Option<FreshGridSeat>
        requires ours { dealer.old.words ≡ self.now }
        ensures ours { dealer.new.words ≡ self.now }
        ensures some { IsSome result ↔ (dealer.old.dealt < self.now.most) }
        ensures seat { IfSome result (λ s. (s ≡ seat_of self.now dealer.old.dealt) × (dealer.new.dealt ≡ dealer.old.dealt + 1)) }
        ensures none { IfNone result (dealer.new ≡ dealer.old) }
    {
        self.machine.deal(dealer)
    }

    /// Makes the walk of a seat of this grid, by reads and writes (Moir and Anderson 1995).
    ///
    /// The walk goes from the corner, right or down as each splitter says, until it stops. If no other walk had begun
    /// when it ended, it has place 0.
    ///
    /// # Steps
    ///
    /// At most `4b` accesses, where `b` walks had begun when this one ended, whatever the other seats do.
    pub fn enter(&self, fresh: FreshGridSeat) -> EnteredGridSeat
        requires ours { fresh.words ≡ self.now }
        ensures seat { (result.grid ≡ fresh.words) × (result.number ≡ fresh.number) }
        ensures law { WalkSpec result }

        // If no other walk had begun when it ended, it has the place in the corner, by four accesses.
        ensures alone { result.entered ≡ 1 → (place_of result ≡ 0) × (result.accesses ≡ 4) }
    {
        let own = self.machine.own_number(&fresh);
        let seat = self.machine.enter(fresh, own);
        EnteredGridSeat { seat }
    }

    /// Compares two entered seats of this grid, which stay as they are. Their places differ.
    pub fn meet(&self, one: &mut EnteredGridSeat, other: &mut EnteredGridSeat)
        requires one { one.old.grid ≡ self.now }
        requires other { other.old.grid ≡ self.now }
        ensures same { (one.new ≡ one.old) × (other.new ≡ other.old) }
        ensures apart { one.old.number ≢ other.old.number }
        ensures distinct { place_of one.old ≢ place_of other.old }
    {
        self.machine.meet(&mut one.seat, &mut other.seat);
    }

    /// Compares an entered seat with the dealer, both of this grid, which stay as they are.
    ///
    /// Where `d` seats were dealt, at most `d` walks had begun when this one ended. So its place is below `d(d + 1)/2`,
    /// and its walk made at most `4d` accesses.
    pub fn tally(&self, dealer: &mut GridDealer, entered: &mut EnteredGridSeat)
        requires dealer { dealer.old.words ≡ self.now }
        requires entered { entered.old.grid ≡ self.now }
        ensures same { (dealer.new ≡ dealer.old) × (entered.new ≡ entered.old) }
        ensures counted { entered.old.entered ≤ dealer.old.dealt }
        ensures within { IsDoorWithin dealer.old.dealt (place_of entered.old) }
        ensures low { place_of entered.old < dealer.old.dealt * (dealer.old.dealt + 1) / 2 }
        ensures at_most { entered.old.accesses ≤ 4 * dealer.old.dealt }
    {
        self.machine.tally(dealer, &mut entered.seat);
    }

    /// Makes a claim of the place of an entered seat of this grid, which stays as it is.
    pub fn claim(&self, entered: &mut EnteredGridSeat) -> GridClaim
        requires ours { entered.old.grid ≡ self.now }
        ensures same { entered.new ≡ entered.old }
        ensures claim { result ≡ claim_of entered.old }
    {
        let claim = self.machine.claim(&mut entered.seat);
        GridClaim { claim }
    }

    /// Compares two claims of this grid, which stay as they are. If their places are equal, so are their seats.
    pub fn compare(&self, one: &mut GridClaim, other: &mut GridClaim)
        requires one { one.old.grid ≡ self.now }
        requires other { other.old.grid ≡ self.now }
        ensures same { (one.new ≡ one.old) × (other.new ≡ other.old) }
        ensures one_seat { one.old.place ≡ other.old.place → one.old.number ≡ other.old.number }
    {
        self.machine.compare(&mut one.claim, &mut other.claim);
    }
}
