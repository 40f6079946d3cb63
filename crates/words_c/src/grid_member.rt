//! One thread's part in a shared grid.

ghost use Rattle.std.specs.Prelude.{◌≡◌, ◌≢◌, ◌≤◌, ◌⊎◌, IfNone, IfSome, IsSome, IsSomeAnd, None};
ghost use Rattle.std.specs.Arc.{arc_value};
ghost use Rattle.std.proofs.Props.{props};
ghost use Rattle.words_c.specs.Grids.{IsNextOf, IsReportedAs};

use std::alloc::Global;
use std::sync::Arc;
use words_machine::grid::{EnteredGridSeat, FreshGridSeat, GridDealer, WordGrid};

/// The grid, which all members share; who deals its seats, at the first member alone; the seat that this member has not
/// entered with; and the walk that it has made.
#[derive(Drop)]
pub struct GridMember {
    pub(crate) grid: Arc<WordGrid<Global>, Global>,
    pub(crate) dealer: Option<GridDealer>,
    pub(crate) seat: Option<FreshGridSeat>,
    pub(crate) entered: Option<EnteredGridSeat>,
    ghost dealt: { IfSome dealer (λ d. d.words ≡ arc_value grid) } by { Prim.hlevel props },
    ghost ours: { IfSome seat (λ s. s.words ≡ arc_value grid) } by { Prim.hlevel props },
}

impl GridMember {
    /// A seat for a further member, where this one deals them and one is left.
    pub fn deal(&mut self) -> Option<FreshGridSeat>
        ensures grid { arc_value self.new.grid ≡ arc_value self.old.grid }
        ensures same { (self.new.seat ≡ self.old.seat) × (self.new.entered ≡ self.old.entered) }
        ensures ours { IfSome result (λ s. s.words ≡ arc_value self.old.grid) }
        ensures dealt { IfSome result (λ s. IsSomeAnd self.old.dealer (λ d. IsSomeAnd self.new.dealer (λ e. IsNextOf d e s))) }
        ensures due { IfNone result ((self.old.dealer ≡ None) ⊎ IsSomeAnd self.old.dealer (λ d. (arc_value self.old.grid).most ≤ d.dealt)) }
        ensures none { IfNone result (self.new.dealer ≡ self.old.dealer) }
    {
        let mut dealer = self.dealer.take()?;
        let seat = self.grid.deal(&mut dealer);
        self.dealer = Some(dealer);
        seat
    }

    /// Walks with the seat that was dealt to this member, and tells its place, from 1: one more than the grid's own number.
    /// 0 where it has no seat left, since it has entered.
    pub fn enter(&mut self) -> u64
        ensures grid { arc_value self.new.grid ≡ arc_value self.old.grid }
        ensures spent { self.new.seat ≡ None }
        ensures place { result ≢ 0 → IsSomeAnd self.new.entered (IsReportedAs result (arc_value self.new.grid)) }
        ensures some { result ≢ 0 → IsSomeAnd self.old.seat (λ s. IsSomeAnd self.new.entered (λ e. e.number ≡ s.number)) }
        ensures none { result ≡ 0 → (self.old.seat ≡ None) × (self.new.entered ≡ self.old.entered) }
        ensures dealer { self.new.dealer ≡ self.old.dealer }
    {
        let Some(seat) = self.seat.take() else {
            return 0;
        };
        let entered = self.grid.enter(seat);
        let place = u64::from(entered.door().number()) + 1;
        self.entered = Some(entered);
        place
    }
}
