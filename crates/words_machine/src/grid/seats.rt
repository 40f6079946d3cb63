//! The seats of a grid, before they are dealt and before and after their walks, and claims of their places.

ghost use Rattle.std.specs.Prelude.{◌≡◌};
ghost use Rattle.words_machine.specs.grid.Seats.{place_of};
ghost use Rattle.words_machine.specs.grid.Law.{WalkSpec};

use model_splitter::grid::{Door, Walker};
use model_steps::Place;
use std::marker::Model;

/// The seats of a grid that are not dealt yet, by rising number.
pub type GridDealer = crate::Dealer<Walker>;

/// A seat that has not entered. `enter` takes it, so no seat enters twice.
pub type FreshGridSeat = crate::FreshSeat<Walker>;

/// A seat that has entered, with the door at which its walk stopped.
#[derive(Drop)]
pub struct EnteredGridSeat {
    pub(crate) seat: crate::EnteredSeat<Walker>,
}

impl Model for EnteredGridSeat {
    ghost use Rattle.words_machine.specs.grid.Seats.{EndedWalk, walk_of_run};
    ghost use Rattle.words_machine.specs.Ids.{HasRun};
    ghost use Rattle.words_machine.specs.lemmas.Walks.{walk_law};

    ghost Value = { EndedWalk };

    ghost view = { λ e. walk_of_run e.seat };

    ghost invariant = { λ e. HasRun walk_law e.seat };
}

impl EnteredGridSeat {
    /// Returns the seat's number, from 0.
    pub fn number(&self) -> u64
        ensures { result ≡ self.now.number }
    {
        self.seat.number()
    }

    /// Returns its place: the number of the door at which the walk stopped. Numbers go from 0, diagonal by diagonal.
    ///
    /// Where `b` walks had begun when this one ended, the place is below `b(b + 1)/2` and the walk made at most `4b`
    /// accesses.
    pub fn place(&self) -> Place
        ensures value { result ≡ place_of self.now }

        // The law that each entered seat keeps.
        ensures law { WalkSpec self.now }
    {
        Place::from(self.seat.end().door.number())
    }

    /// Returns the door at which the walk stopped.
    pub fn door(&self) -> Door
        ensures { result ≡ self.now.door }
    {
        self.seat.end().door
    }
}

/// A claim: the walk of a seat has ended at a place. It stays true.
#[derive(Drop)]
pub struct GridClaim {
    pub(crate) claim: crate::Claim<Walker>,
}

impl Model for GridClaim {
    ghost use Rattle.words_machine.specs.grid.Seats.{ClaimId, claim_at};

    ghost Value = { ClaimId };

    ghost view = { λ c. claim_at c.claim.words c.claim.number c.claim.outcome };
}

impl GridClaim {
    /// Returns the number of the seat whose place it is, from 0.
    pub fn number(&self) -> u64
        ensures { result ≡ self.now.number }
    {
        self.claim.number()
    }

    /// Returns the place, from 0.
    pub fn place(&self) -> Place
        ensures { result ≡ self.now.place }
    {
        *self.claim.outcome()
    }
}
