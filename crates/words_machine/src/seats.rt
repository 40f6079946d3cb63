//! The seats: before they are dealt, before and after their participants' runs, and what they can show of how these ended.

ghost use Rattle.std.specs.Prelude.{◌≡◌};
ghost use Rattle.words_machine.specs.Ids.{HasRun};

use crate::program::WordProgram;
use crate::seat_view::SeatView;
use atomic_table::{Badge, Seat};
use std::marker::Model;

/// The seats that are still to be dealt, by rising number.
#[derive(Drop)]
pub struct Dealer<P: WordProgram> {
    pub(crate) dealt: u64,
    pub(crate) badge: Badge<SeatView<P, P::Output>>,
}

impl<P: WordProgram> Model for Dealer<P> {
    ghost use Rattle.std.specs.Prelude.{◌≡◌, ◌≤◌, [], ◌∷◌};
    ghost use Rattle.words_machine.specs.SeatViews.{undealt_from};
    ghost use Rattle.words_machine.specs.Ids.{DealerId, dealer_of, words_of, most_in};

    ghost Value = { DealerId };

    ghost view = { λ d. dealer_of (words_of d.badge.table_id (most_in d.badge.views)) d.dealt };

    ghost invariant = { λ d. (d.dealt ≤ most_in d.badge.views) × (d.badge.views ≡ undealt_from d.dealt (most_in d.badge.views) ∷ []) };
}

impl<P: WordProgram> Dealer<P> {
    /// Returns how many seats were dealt.
    pub fn dealt(&self) -> u64
        ensures { result ≡ self.now.dealt }
    {
        self.dealt
    }
}

/// A seat whose participant has not begun. To enter uses it up, so no seat enters twice.
#[derive(Drop)]
pub struct FreshSeat<P: WordProgram> {
    pub(crate) number: u64,
    pub(crate) seat: Seat<u8, SeatView<P, P::Output>>,
}

impl<P: WordProgram> Model for FreshSeat<P> {
    ghost use Rattle.std.specs.Prelude.{◌≡◌, ◌<◌, []};
    ghost use Rattle.words_machine.specs.SeatViews.{lone_view, unbegun};
    ghost use Rattle.words_machine.specs.Ids.{SeatId, seat_of, words_of};

    ghost Value = { SeatId };

    ghost view = { λ f. seat_of (words_of f.seat.table_id f.seat.me.0.most) f.number };

    ghost invariant = { λ f. (f.number < f.seat.me.0.most) × (f.seat.me ≡ (lone_view f.seat.me.0.most (unbegun f.number), [])) };
}

impl<P: WordProgram> FreshSeat<P> {
    /// Returns the seat's number, from 0.
    pub fn number(&self) -> u64
        ensures { result ≡ self.now.number }
    {
        self.number
    }
}

/// A seat whose participant has not ended, to make its accesses one at a time. To make one uses it up.
#[derive(Drop)]
pub struct RunningSeat<P: WordProgram + Drop> {
    pub(crate) number: u64,
    pub(crate) identity: u64,
    pub(crate) program: P,
    pub(crate) accesses: u64,
    pub(crate) seat: Seat<u8, SeatView<P, P::Output>>,
}

impl<P: WordProgram + Drop> Model for RunningSeat<P> {
    ghost use Rattle.std.specs.Prelude.{◌≡◌, ◌<◌};
    ghost use Rattle.words_machine.specs.Ids.{RunningId, running_of, words_of};
    ghost use Rattle.words_machine.specs.RunSteps.{Stands, accesses_in};

    ghost Value = { RunningId P };

    ghost view = { λ s. running_of (words_of s.seat.table_id s.seat.me.0.most) s.number s.identity s.program s.accesses };

    ghost invariant = { λ s. (s.number < s.seat.me.0.most) × (s.accesses ≡ accesses_in s.seat.me)
        × Stands P.steps P.law s.seat.me.0.most s.number s.identity s.program s.seat.me };
}

impl<P: WordProgram + Drop> RunningSeat<P> {
    /// Returns the seat's number, from 0.
    pub fn number(&self) -> u64
        ensures { result ≡ self.now.number }
    {
        self.number
    }

    /// Returns the identity for which it began.
    pub fn identity(&self) -> u64
        ensures { result ≡ self.now.identity }
    {
        self.identity
    }

    /// Returns the program at which it stands.
    pub fn program(&self) -> &P
        ensures { result.now ≡ self.now.program }
    {
        &self.program
    }

    /// Returns how many accesses its program has made.
    pub fn accesses(&self) -> u64
        ensures { result ≡ self.now.accesses }
    {
        self.accesses
    }
}

/// A seat whose participant has ended: at which program, and with what.
#[derive(Drop)]
pub struct EnteredSeat<P: WordProgram + Drop>
where
    P::Output: Drop,
{
    pub(crate) number: u64,
    pub(crate) identity: u64,
    pub(crate) program: P,
    pub(crate) outcome: P::Output,
    pub(crate) accesses: u64,
    pub(crate) badge: Badge<SeatView<P, P::Output>>,
}

impl<P: WordProgram + Drop> Model for EnteredSeat<P>
where
    P::Output: Drop,
{
    ghost use Rattle.std.specs.Prelude.{◌≡◌};
    ghost use Rattle.words_machine.specs.Ids.{EndedRun, IsOfEnded, accesses_in, ended_run, program_in, HasRun};

    ghost Value = { EndedRun P P.Output };

    ghost view = { λ e. ended_run e.badge.table_id e.number e.identity (program_in P.law e.number e.identity e.badge.views) e.outcome e.badge.views };

    ghost invariant = { λ e. IsOfEnded e.number e.identity (program_in P.law e.number e.identity e.badge.views) e.outcome e.badge.views
        × HasRun P.law (ended_run e.badge.table_id e.number e.identity (program_in P.law e.number e.identity e.badge.views) e.outcome e.badge.views)
        × (e.accesses ≡ accesses_in e.badge.views)
        × (e.program ≡ program_in P.law e.number e.identity e.badge.views) };
}

impl<P: WordProgram + Drop> EnteredSeat<P>
where
    P::Output: Drop,
{
    /// Returns the seat's number, from 0.
    pub fn number(&self) -> u64
        ensures { result ≡ self.now.number }
    {
        self.number
    }

    /// Returns the identity for which it began.
    pub fn identity(&self) -> u64
        ensures { result ≡ self.now.identity }
    {
        self.identity
    }

    /// Returns the program at which it has ended.
    pub fn end(&self) -> &P
        ensures value { result.now ≡ self.now.program }

        // There is a list of calls after which it has ended so.
        ensures law { HasRun P.law self.now }
    {
        &self.program
    }

    /// Returns what its program has ended with.
    pub fn outcome(&self) -> &P::Output
        ensures value { result.now ≡ self.now.outcome }

        // There is a list of calls after which it has ended so.
        ensures law { HasRun P.law self.now }
    {
        &self.outcome
    }

    /// Returns how many accesses its program has made.
    pub fn accesses(&self) -> u64
        ensures { result ≡ self.now.accesses }
    {
        self.accesses
    }
}

/// A claim: that the participant of a seat has ended with this. Whoever has it can show it, for good.
#[derive(Drop)]
pub struct Claim<P: WordProgram>
where
    P::Output: Drop,
{
    pub(crate) number: u64,
    pub(crate) outcome: P::Output,
    pub(crate) badge: Badge<SeatView<P, P::Output>>,
}

impl<P: WordProgram> Model for Claim<P>
where
    P::Output: Drop,
{
    ghost use Rattle.std.specs.Prelude.{◌≡◌, [], ◌∷◌};
    ghost use Rattle.words_machine.specs.SeatViews.{ending_at, view_of};
    ghost use Rattle.words_machine.specs.Ids.{ClaimId, claim_at, most_in};

    ghost Value = { ClaimId P.Output };

    ghost view = { λ c. claim_at c.badge.table_id c.number c.outcome c.badge.views };

    ghost invariant = { λ c. c.badge.views ≡ view_of (most_in c.badge.views) [] (ending_at c.number c.outcome ∷ []) ∷ [] };
}

impl<P: WordProgram> Claim<P>
where
    P::Output: Drop,
{
    /// Returns whose end it is: the number of a seat, from 0.
    pub fn number(&self) -> u64
        ensures { result ≡ self.now.number }
    {
        self.number
    }

    /// Returns what the participant has ended with.
    pub fn outcome(&self) -> &P::Output
        ensures { result.now ≡ self.now.outcome }
    {
        &self.outcome
    }
}
