//! The line's functions. Each thread has a handle of its own, with one ticket.

ghost use Rattle.std.specs.Prelude.{◌≡◌, ◌≢◌, ◌≤◌, ◌⊎◌, IfSome, IsSome, IsSomeAnd, None, Some, true, false};
ghost use Rattle.std.specs.Arc.{arc_value};
ghost use Rattle.words_c.specs.Reported.{HasTicketOf, HoldsInLine};
ghost use Rattle.words_c.specs.Parts.{IsLineAnd};
ghost use Rattle.words_c.specs.declared.line_member.LineMember.{LineMember};
ghost use Rattle.words_c.specs.declared.part.Part.TheVariants.{Line};

use crate::handle::Handle;
use crate::line_member::LineMember;
use crate::part::Part;
use std::alloc::Global;
use std::mem;
use std::sync::Arc;
use words_pool::LinePool;

fn open_line(alloc: Global, numbers: u64) -> Option<LineMember>
    ensures range { IsSome result → (1 ≤ numbers) × (numbers ≤ 4096) }
    ensures numbers { IfSome result (λ m. (arc_value m.line).numbers ≡ numbers) }
    ensures ready { IfSome result (λ m. IsSome m.ticket × (m.held ≡ None)) }
{
    let (line, mut tickets) = LinePool::new(alloc, numbers).ok()?;
    let ticket = line.deal(&mut tickets);
    let line = Arc::new(alloc, line).ok()?;
    Some(LineMember::of(line, Some(tickets), ticket))
}

/// Makes a line of the numbers from 1 to `numbers`, which is from 1 to 4096, with as many tickets, at a handle that holds
/// none, and deals this handle the first ticket. False, with nothing made, where `numbers` is outside that range or memory
/// was refused.
#[unsafe(no_mangle)]
pub extern "C" fn line_pool_new(alloc: Global, handle: &mut Handle, numbers: u64) -> bool
    requires empty { handle.old.part ≡ None }
    ensures made { result ≡ true → IsSomeAnd handle.new.part (IsLineAnd (λ m. ((arc_value m.line).numbers ≡ numbers) × IsSome m.ticket × (m.held ≡ None))) }
    ensures range { result ≡ true → (1 ≤ numbers) × (numbers ≤ 4096) }
    ensures none { result ≡ false → handle.new.part ≡ None }
{
    match open_line(alloc, numbers) {
        Some(member) => handle.fill(alloc, Part::Line(member)),
        None => false,
    }
}

fn another(first: &mut LineMember) -> Option<LineMember>
    ensures line { arc_value first.new.line ≡ arc_value first.old.line }
    ensures same { (first.new.ticket ≡ first.old.ticket) × (first.new.held ≡ first.old.held) }
    ensures ours { IfSome result (λ m. (arc_value m.line ≡ arc_value first.old.line) × IsSome m.ticket × (m.held ≡ None)) }
    ensures dealer { IsSome first.old.tickets → IsSome first.new.tickets }
{
    let line = Arc::try_clone(&first.line).ok()?;
    let ticket = Some(first.deal()?);
    Some(LineMember::of(line, None, ticket))
}

/// A handle for one more thread, with the next ticket; `handle` is the one that `line_pool_new` made. False, with none made,
/// where all tickets are dealt, `handle` is another, or memory was refused; a ticket that was dealt then is lost.
#[unsafe(no_mangle)]
pub extern "C" fn line_pool_join(alloc: Global, handle: &mut Handle, other: &mut Handle) -> bool
    ghost line: { LineMember }
    requires held { handle.old.part ≡ Some (Line line) }
    requires empty { other.old.part ≡ None }
    ensures held { IsSomeAnd handle.new.part (IsLineAnd (λ m. (arc_value m.line ≡ arc_value line.line) × (m.ticket ≡ line.ticket) × (m.held ≡ line.held))) }
    ensures joined { result ≡ true → IsSomeAnd other.new.part (IsLineAnd (λ m. (arc_value m.line ≡ arc_value line.line) × IsSome m.ticket × (m.held ≡ None))) }
    ensures dealer { IsSome line.tickets → IsSomeAnd handle.new.part (IsLineAnd (λ m. IsSome m.tickets)) }
    ensures none { result ≡ false → other.new.part ≡ None }
{
    let mut whole = mem::replace(handle, Handle::blank(alloc)).into_box();
    let theirs = match &mut *whole {
        Part::Line(member) => another(member),
        _ => None,
    };
    *handle = Handle::of(whole);
    match theirs {
        Some(member) => other.fill(alloc, Part::Line(member)),
        None => false,
    }
}

/// Takes the least number that a walk from 1 upward finds free, by at most one access more than the number says. The number
/// is at most the most handles that held or sought one at one moment of the call. 0 only where the handle holds one already:
/// a handle that was made or joined, and holds none, always gets a number.
#[unsafe(no_mangle)]
pub extern "C" fn line_pool_acquire(alloc: Global, handle: &mut Handle) -> u64
    ghost line: { LineMember }
    requires held { handle.old.part ≡ Some (Line line) }
    ensures line { IsSomeAnd handle.new.part (IsLineAnd (λ m. arc_value m.line ≡ arc_value line.line)) }
    ensures number { result ≢ 0 → IsSomeAnd handle.new.part (IsLineAnd (HoldsInLine result)) }
    ensures some { result ≢ 0 → (line.held ≡ None) × IsSome line.ticket }
    ensures kept { result ≡ 0 → IsSomeAnd handle.new.part (IsLineAnd (λ m. (m.held ≡ line.held) × (m.ticket ≡ line.ticket))) }
    ensures none { result ≡ 0 → IsSome line.held ⊎ (line.ticket ≡ None) }
    ensures dealer { IsSomeAnd handle.new.part (IsLineAnd (λ m. m.tickets ≡ line.tickets)) }
{
    let mut whole = mem::replace(handle, Handle::blank(alloc)).into_box();
    let number = match &mut *whole {
        Part::Line(member) => member.acquire(),
        _ => 0,
    };
    *handle = Handle::of(whole);
    number
}

/// Gives back the number that the handle holds, by one access, and tells it. 0 where it holds none.
#[unsafe(no_mangle)]
pub extern "C" fn line_pool_release(alloc: Global, handle: &mut Handle) -> u64
    ghost line: { LineMember }
    requires held { handle.old.part ≡ Some (Line line) }
    ensures none { IsSomeAnd handle.new.part (IsLineAnd (λ m. (arc_value m.line ≡ arc_value line.line) × (m.held ≡ None))) }
    ensures ready { IfSome line.held (λ h. IsSomeAnd handle.new.part (IsLineAnd (HasTicketOf h))) }
    ensures number { result ≢ 0 → IsSomeAnd line.held (λ h. h.number ≡ result) }
    ensures zero { result ≡ 0 → (line.held ≡ None) × IsSomeAnd handle.new.part (IsLineAnd (λ m. m.ticket ≡ line.ticket)) }
    ensures dealer { IsSomeAnd handle.new.part (IsLineAnd (λ m. m.tickets ≡ line.tickets)) }
{
    let mut whole = mem::replace(handle, Handle::blank(alloc)).into_box();
    let number = match &mut *whole {
        Part::Line(member) => member.release(),
        _ => 0,
    };
    *handle = Handle::of(whole);
    number
}

/// Ends a handle: its number is given back, its ticket is not dealt again, and with the last handle goes the line's memory.
#[unsafe(no_mangle)]
pub extern "C" fn line_pool_free(alloc: Global, handle: &mut Handle)
    ghost line: { LineMember }
    requires held { handle.old.part ≡ Some (Line line) }
    ensures none { handle.new.part ≡ None }
{
    let mut whole = mem::replace(handle, Handle::blank(alloc)).into_box();
    if let Part::Line(member) = &mut *whole {
        member.release();
    }
    drop(whole);
}
