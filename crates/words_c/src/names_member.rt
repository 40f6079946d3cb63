//! One thread's part in shared names.

ghost use Rattle.std.specs.Prelude.{◌≡◌, ◌≢◌, ◌≤◌, IfNone, IfSome, IsSome, IsSomeAnd, None};
ghost use Rattle.std.specs.Arc.{arc_value};
ghost use Rattle.std.proofs.Props.{props};
ghost use Rattle.words_c.specs.Named.{DealsNext, IsReportedName};
ghost use Rattle.words_names.specs.Seats.{no_deal};

use std::alloc::Global;
use std::sync::Arc;
use words_names::{FreshNameSeat, NameDealer, Names, Renamed};

/// The names, which all members share; who deals their seats, at the first member alone; the seat that this member was not
/// renamed with; and how it was renamed.
#[derive(Drop)]
pub struct NamesMember {
    pub(crate) names: Arc<Names<Global>, Global>,
    pub(crate) dealer: Option<NameDealer>,
    pub(crate) seat: Option<FreshNameSeat>,
    pub(crate) renamed: Option<Renamed>,
    ghost dealt: { IfSome dealer (λ d. d.names ≡ arc_value names) } by { Prim.hlevel props },
    ghost ours: { IfSome seat (λ s. s.names ≡ arc_value names) } by { Prim.hlevel props },
    ghost was: { IfSome renamed (λ e. e.names ≡ arc_value names) } by { Prim.hlevel props },
}

impl NamesMember {
    /// A seat for a further member, of this identity, where this one deals them.
    pub fn deal(&mut self, identity: u64) -> Option<FreshNameSeat>
        ensures names { arc_value self.new.names ≡ arc_value self.old.names }
        ensures same { (self.new.seat ≡ self.old.seat) × (self.new.renamed ≡ self.old.renamed) }
        ensures ours { IfSome result (λ s. (s.names ≡ arc_value self.old.names) × (s.identity ≡ identity)) }
        ensures dealer { IsSome result → IsSome self.old.dealer }
        ensures dealt { IfSome result (DealsNext (arc_value self.old.names) identity self.old.dealer self.new.dealer) }
        ensures due { IfNone result (IfSome self.old.dealer (λ d. IsSome (no_deal d identity))) }
        ensures none { IfNone result (self.new.dealer ≡ self.old.dealer) }
        ensures kept { IsSome self.old.dealer → IsSome self.new.dealer }
    {
        let mut dealer = self.dealer.take()?;
        let seat = self.names.deal(&mut dealer, identity).ok();
        self.dealer = Some(dealer);
        seat
    }

    /// The name of this member: the first time the seat that was dealt to it is renamed, and each other time it is the same.
    /// 0 where it has no seat.
    pub fn name(&mut self) -> u64
        ensures names { arc_value self.new.names ≡ arc_value self.old.names }
        ensures spent { self.new.seat ≡ None }
        ensures name { result ≢ 0 → IsSomeAnd self.new.renamed (IsReportedName result (arc_value self.new.names)) }
        ensures same { self.old.seat ≡ None → self.new.renamed ≡ self.old.renamed }
        ensures own { IfSome self.old.seat (λ s. IsSomeAnd self.new.renamed (λ e. (e.number ≡ s.number) × (e.identity ≡ s.identity))) }
        ensures none { result ≡ 0 → (self.old.seat ≡ None) × (self.old.renamed ≡ None) }
        ensures dealer { self.new.dealer ≡ self.old.dealer }
    {
        if let Some(seat) = self.seat.take() {
            self.renamed = Some(self.names.rename(seat));
        }
        match &self.renamed {
            Some(renamed) => self.names.name(renamed),
            None => 0,
        }
    }
}
