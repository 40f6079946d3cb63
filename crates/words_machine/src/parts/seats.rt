//! The seats of a splitter, before and after their visits.

ghost use Rattle.std.specs.Prelude.{◌≡◌};

use crate::parts::splitter_view::SplitterView;
use atomic_table::{Badge, Seat};
use model_splitter::Way;
use std::marker::Model;

/// A seat that has not entered. `enter` takes it, so no seat enters twice.
#[derive(Drop)]
pub struct FreshSplitterSeat {
    pub(crate) number: u64,
    pub(crate) seat: Seat<u8, SplitterView>,
}

impl Model for FreshSplitterSeat {
    ghost use Rattle.std.specs.Prelude.{◌≡◌, ◌<◌, []};
    ghost use Rattle.words_machine.specs.parts.SplitterView.{fresh_visit, lone_view};
    ghost use Rattle.words_machine.specs.parts.Seats.{SeatId};

    ghost Value = { SeatId };

    ghost view = { λ f. record { splitter = record { table = f.seat.table_id; seats = f.seat.me.0.seats }; number = f.number } };

    ghost invariant = { λ f. (f.number < 64) × (f.seat.me ≡ (lone_view f.seat.me.0.seats (fresh_visit f.number), [])) };
}

/// A seat that has entered, with the way that its visit ended.
#[derive(Drop)]
pub struct EnteredSplitterSeat {
    pub(crate) number: u64,
    pub(crate) way: Way,
    pub(crate) badge: Badge<SplitterView>,
}

impl Model for EnteredSplitterSeat {
    ghost use Rattle.words_machine.specs.parts.Seats.{EndedVisit, IsOfEnded, ended_visit};

    ghost Value = { EndedVisit };

    ghost view = { λ e. ended_visit e.badge.table_id e.number e.way e.badge.views };

    ghost invariant = { λ e. IsOfEnded e.number e.way e.badge.views };
}

impl EnteredSplitterSeat {
    /// Returns the seat's number, from 0.
    pub fn number(&self) -> u64
        ensures { result ≡ self.now.number }
    {
        self.number
    }

    /// Returns the way that its visit ended.
    pub fn way(&self) -> Way
        ensures { result ≡ self.now.way }
    {
        self.way
    }
}
