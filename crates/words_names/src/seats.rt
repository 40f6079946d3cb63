//! The seats: before they are dealt, before and after they are renamed, and what they can show of their names.

ghost use Rattle.std.specs.Prelude.{◌≡◌};
ghost use Rattle.words_names.specs.NameLaw.{NameSpec};

use model_recursion::Namer;
use std::marker::Model;

/// The most seats.
pub const MOST_SEATS: usize = 64;

/// The seats that are still to be dealt, by rising number.
#[derive(Drop)]
pub struct NameDealer {
    pub(crate) dealer: words_machine::Dealer<Namer>,
    // The identities of the seats that were dealt come first.
    pub(crate) identities: [u64; MOST_SEATS],
}

impl Model for NameDealer {
    ghost use Rattle.std.specs.Prelude.{◌≤◌, take};
    ghost use Rattle.words_names.specs.Seats.{DealerId, dealer_of};

    ghost Value = { DealerId };

    ghost view = { λ d. dealer_of d.dealer.words d.dealer.dealt (take d.dealer.dealt d.identities) };

    ghost invariant = { λ d. d.dealer.dealt ≤ 64 };
}

impl NameDealer {
    /// Returns how many seats were dealt.
    pub fn dealt(&self) -> u64
        ensures { result ≡ self.now.dealt }
    {
        self.dealer.dealt()
    }
}

/// A seat that was not renamed. `rename` takes it, so no seat is renamed twice.
#[derive(Drop)]
pub struct FreshNameSeat {
    pub(crate) identity: u64,
    pub(crate) seat: words_machine::FreshSeat<Namer>,
}

impl Model for FreshNameSeat {
    ghost use Rattle.std.specs.Prelude.{◌≤◌};
    ghost use Rattle.words_names.specs.Seats.{SeatId, seat_of};

    ghost Value = { SeatId };

    ghost view = { λ f. seat_of f.seat.words f.seat.number f.identity };

    ghost invariant = { λ f. 1 ≤ f.identity };
}

impl FreshNameSeat {
    /// Returns the seat's number, from 0.
    pub fn number(&self) -> u64
        ensures { result ≡ self.now.number }
    {
        self.seat.number()
    }

    /// Returns the identity that the seat was dealt to.
    pub fn identity(&self) -> u64
        ensures { result ≡ self.now.identity }
    {
        self.identity
    }
}

/// A seat that is being renamed, one access at a time. `step` takes it.
pub type Renaming = words_machine::RunningSeat<Namer>;

/// A seat that was renamed.
#[derive(Drop)]
pub struct Renamed {
    pub(crate) seat: words_machine::EnteredSeat<Namer>,
}

impl Model for Renamed {
    ghost use Rattle.words_names.specs.Seats.{RenamedId, renamed_by};
    ghost use Rattle.words_machine.specs.Ids.{HasRun};
    ghost use Rattle.words_machine.specs.Names.{names_law};

    ghost Value = { RenamedId };

    ghost view = { λ e. renamed_by e.seat };

    ghost invariant = { λ e. HasRun names_law e.seat };
}

impl Renamed {
    /// Returns the seat's number, from 0.
    pub fn number(&self) -> u64
        ensures { result ≡ self.now.number }
    {
        self.seat.number()
    }

    /// Returns the identity that the seat was dealt to.
    pub fn identity(&self) -> u64
        ensures { result ≡ self.now.identity }
    {
        self.seat.identity()
    }

    /// Returns how many accesses of words it made.
    pub fn accesses(&self) -> u64
        ensures { result ≡ self.now.accesses }
    {
        self.seat.accesses()
    }

    /// Returns its name.
    ///
    /// Where `b` seats of `m` had begun when it got the name, itself among them, the name is from 1 to `2b - 1`, and the seat
    /// made at most `m(m + 1)` accesses.
    pub fn name(&self) -> u64
        ensures value { result ≡ self.now.name }

        // The law that each renamed seat keeps.
        ensures law { NameSpec self.now }
    {
        u64::from(*self.seat.outcome())
    }
}

/// A claim: a seat has a name. It stays true.
#[derive(Drop)]
pub struct NameClaim {
    pub(crate) identity: u64,
    pub(crate) claim: words_machine::Claim<Namer>,
}

impl Model for NameClaim {
    ghost use Rattle.words_names.specs.Seats.{ClaimId, claim_at};

    ghost Value = { ClaimId };

    ghost view = { λ c. claim_at c.claim.words c.claim.number c.identity c.claim.outcome };
}

impl NameClaim {
    /// Returns the number of the seat whose name it is, from 0.
    pub fn number(&self) -> u64
        ensures { result ≡ self.now.number }
    {
        self.claim.number()
    }

    /// Returns the identity that the seat was dealt to.
    pub fn identity(&self) -> u64
        ensures { result ≡ self.now.identity }
    {
        self.identity
    }

    /// Returns the name.
    pub fn name(&self) -> u64
        ensures { result ≡ self.now.name }
    {
        u64::from(*self.claim.outcome())
    }
}
