//! One thread's part in a shared line.

ghost use Rattle.std.specs.Prelude.{◌≡◌, ◌≢◌, ◌-◌, ◌⊎◌, IfNone, IfSome, IsSome, IsSomeAnd, None};
ghost use Rattle.std.specs.Arc.{arc_value};
ghost use Rattle.std.proofs.Props.{props};
ghost use Rattle.words_c.specs.Lines.{IsHeldInLine, IsTicketOf};

use std::alloc::Global;
use std::sync::Arc;
use words_pool::{Held, LinePool, Ticket, Tickets};

/// The line, which all members share; the tickets that are left, at the first member alone; and this member's ticket, or the
/// number that it holds by it.
#[derive(Drop)]
pub struct LineMember {
    pub(crate) line: Arc<LinePool<Global>, Global>,
    pub(crate) tickets: Option<Tickets>,
    pub(crate) ticket: Option<Ticket>,
    pub(crate) held: Option<Held>,
    ghost dealt: { IfSome tickets (λ t. t.table ≡ (arc_value line).table) } by { Prim.hlevel props },
    ghost rests: { IfSome ticket (λ t. t.pool ≡ (arc_value line).table) } by { Prim.hlevel props },
    ghost holds: { IfSome held (λ h. h.pool ≡ (arc_value line).table) } by { Prim.hlevel props },
}

impl LineMember {
    /// A member that holds no number.
    pub(crate) fn of(
        line: Arc<LinePool<Global>, Global>,
        tickets: Option<Tickets>,
        ticket: Option<Ticket>,
    ) -> LineMember
        requires dealt { IfSome tickets (λ t. t.table ≡ (arc_value line).table) }
        requires rests { IfSome ticket (λ t. t.pool ≡ (arc_value line).table) }
        ensures line { arc_value result.line ≡ arc_value line }
        ensures ticket { (result.ticket ≡ ticket) × (result.held ≡ None) }
    {
        LineMember {
            line,
            tickets,
            ticket,
            held: None,
        }
    }

    /// A ticket for a further member, where this one deals them and one is left.
    pub fn deal(&mut self) -> Option<Ticket>
        ensures line { arc_value self.new.line ≡ arc_value self.old.line }
        ensures same { (self.new.ticket ≡ self.old.ticket) × (self.new.held ≡ self.old.held) }
        ensures ours { IfSome result (λ t. t.pool ≡ (arc_value self.old.line).table) }
        ensures left { IfSome self.old.tickets (λ t. IsSomeAnd self.new.tickets (λ u. u.numbers ≡ t.numbers - 1)) }
        ensures due { IfNone result ((self.old.tickets ≡ None) ⊎ IsSomeAnd self.old.tickets (λ t. t.numbers ≡ 0)) }
        ensures tickets { IsSome result → IsSome self.old.tickets }
    {
        let mut tickets = self.tickets.take()?;
        let ticket = self.line.deal(&mut tickets);
        self.tickets = Some(tickets);
        ticket
    }

    /// Takes the least number that a walk from 1 finds free, and holds it. 0 where one is held already, and where this member
    /// has no ticket.
    pub fn acquire(&mut self) -> u64
        ensures line { arc_value self.new.line ≡ arc_value self.old.line }
        ensures held { result ≢ 0 → IsSomeAnd self.new.held (IsHeldInLine result (arc_value self.new.line)) }
        ensures some { result ≢ 0 → (self.old.held ≡ None) × IsSome self.old.ticket }
        ensures kept { result ≡ 0 → (self.new.held ≡ self.old.held) × (self.new.ticket ≡ self.old.ticket) }
        ensures none { result ≡ 0 → IsSome self.old.held ⊎ (self.old.ticket ≡ None) }
        ensures tickets { self.new.tickets ≡ self.old.tickets }
    {
        if self.held.is_some() {
            return 0;
        }
        match self.ticket.take() {
            Some(ticket) => {
                let held = self.line.acquire(ticket);
                let number = held.number();
                self.held = Some(held);
                number
            }
            None => 0,
        }
    }

    /// Gives back the number that is held, has its ticket again, and tells the number. 0 where none is held.
    pub fn release(&mut self) -> u64
        ensures line { arc_value self.new.line ≡ arc_value self.old.line }
        ensures none { self.new.held ≡ None }
        ensures number { result ≢ 0 → IsSomeAnd self.old.held (λ h. h.number ≡ result) }
        ensures ready { IfSome self.old.held (λ h. IsSomeAnd self.new.ticket (IsTicketOf h)) }
        ensures zero { result ≡ 0 → (self.old.held ≡ None) × (self.new.ticket ≡ self.old.ticket) }
        ensures tickets { self.new.tickets ≡ self.old.tickets }
    {
        match self.held.take() {
            Some(held) => {
                let number = held.number();
                let ticket = self.line.release(held);
                self.ticket = Some(ticket);
                number
            }
            None => 0,
        }
    }
}
