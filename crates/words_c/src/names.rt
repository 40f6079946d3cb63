//! The functions of names. One handle deals the seats, and each thread has a handle of its own, with one seat.

ghost use Rattle.std.specs.Prelude.{◌≡◌, ◌≢◌, ◌≤◌, IfNone, IfSome, IsSome, IsSomeAnd, None, Some, true, false};
ghost use Rattle.std.specs.Arc.{arc_value};
ghost use Rattle.words_c.specs.Named.{IsReportedName};
ghost use Rattle.words_c.specs.Reported.{DealsSeats, DealtNone, DealtTo, HasSeatOf, KeepsSeat};
ghost use Rattle.words_c.specs.Parts.{IsNamesAnd};
ghost use Rattle.words_c.specs.declared.names_member.NamesMember.{NamesMember};
ghost use Rattle.words_c.specs.declared.part.Part.TheVariants as part;
ghost use Rattle.words_names.specs.Seats.{IsSize};

use crate::handle::Handle;
use crate::names_member::NamesMember;
use crate::part::Part;
use std::alloc::Global;
use std::mem;
use std::sync::Arc;
use words_names::Names;

fn open_names(alloc: Global, most: u64) -> Option<NamesMember>
    ensures range { IsSome result → IsSize most }
    ensures made { IfSome result (λ m. DealsSeats most m) }
{
    let Ok((names, dealer)) = Names::new(alloc, most) else {
        return None;
    };
    let names = Arc::new(alloc, names).ok()?;
    let dealer = Some(dealer);
    let seat = None;
    let renamed = None;
    Some(NamesMember {
        names,
        dealer,
        seat,
        renamed,
    })
}

/// Makes names for `most` threads, from 1 to 64, at a handle that holds none. This handle deals the seats, and has none. False,
/// with nothing made, where the number is outside its range, or an allocation failed.
#[unsafe(no_mangle)]
pub extern "C" fn word_names_new(alloc: Global, handle: &mut Handle, most: u64) -> bool
    requires empty { handle.old.part ≡ None }
    ensures made { result ≡ true → IsSomeAnd handle.new.part (IsNamesAnd (DealsSeats most)) }
    ensures range { result ≡ true → IsSize most }
    ensures none { result ≡ false → handle.new.part ≡ None }
{
    match open_names(alloc, most) {
        Some(member) => handle.fill(alloc, Part::Names(member)),
        None => false,
    }
}

fn second(first: &mut NamesMember, identity: u64) -> Option<NamesMember>
    ensures kept { KeepsSeat first.old first.new }
    ensures ours { IfSome result (λ m. HasSeatOf identity first.old m) }
    ensures dealt { IfSome result (λ m. DealtTo identity first.old first.new m) }
    ensures due { IfNone result (DealtNone identity first.old first.new) }
{
    let seat = Some(first.deal(identity)?);
    let names = Arc::try_clone(&first.names).ok()?;
    let dealer = None;
    let renamed = None;
    Some(NamesMember {
        names,
        dealer,
        seat,
        renamed,
    })
}

/// A handle for one more thread, with the next seat, dealt to this identity; `handle` is the one that `word_names_new` made. False,
/// with none made, where the identity is 0, a seat was dealt to it, all seats are dealt, `handle` is another, or an allocation
/// failed; a seat that was dealt then is lost.
#[unsafe(no_mangle)]
pub extern "C" fn word_names_join(
    alloc: Global,
    handle: &mut Handle,
    other: &mut Handle,
    identity: u64,
) -> bool
    ghost names: { NamesMember }
    requires held { handle.old.part ≡ Some (part.Names names) }
    requires empty { other.old.part ≡ None }
    ensures held { IsSomeAnd handle.new.part (IsNamesAnd (KeepsSeat names)) }
    ensures joined { result ≡ true → IsSomeAnd other.new.part (IsNamesAnd (HasSeatOf identity names)) }
    ensures dealt { result ≡ true → IsSomeAnd handle.new.part (IsNamesAnd (λ m. IsSomeAnd other.new.part (IsNamesAnd (DealtTo identity names m)))) }
    ensures due { result ≡ false → IsSomeAnd handle.new.part (IsNamesAnd (DealtNone identity names)) }
    ensures none { result ≡ false → other.new.part ≡ None }
{
    let mut whole = mem::replace(handle, Handle::blank(alloc)).into_box();
    let theirs = match &mut *whole {
        Part::Names(member) => second(member, identity),
        _ => None,
    };
    *handle = Handle::of(whole);
    match theirs {
        Some(member) => other.fill(alloc, Part::Names(member)),
        None => false,
    }
}

/// The name of this handle. The first call runs the renaming program with the handle's seat, by reads and writes alone, whatever
/// the others do: at most `most * (most + 1)` of them. A further call tells the same name. Where `b` had begun, itself among
/// them, it is from 1 to `2b - 1`. No two handles of one family have one name. 0 where the handle has no seat: it is the one
/// that deals them.
#[unsafe(no_mangle)]
pub extern "C" fn word_names_name(alloc: Global, handle: &mut Handle) -> u64
    ghost names: { NamesMember }
    requires held { handle.old.part ≡ Some (part.Names names) }
    ensures names { IsSomeAnd handle.new.part (IsNamesAnd (λ m. arc_value m.names ≡ arc_value names.names)) }
    ensures name { result ≢ 0 → IsSomeAnd handle.new.part (IsNamesAnd (λ m. IsSomeAnd m.renamed (IsReportedName result (arc_value names.names)))) }
    ensures own { IfSome names.seat (λ s.
        IsSomeAnd handle.new.part (IsNamesAnd (λ m. IsSomeAnd m.renamed (λ e. (e.number ≡ s.number) × (e.identity ≡ s.identity))))) }
    ensures same { names.seat ≡ None → IsSomeAnd handle.new.part (IsNamesAnd (λ m. m.renamed ≡ names.renamed)) }
    ensures none { result ≡ 0 → (names.seat ≡ None) × (names.renamed ≡ None) }
    ensures dealer { IsSomeAnd handle.new.part (IsNamesAnd (λ m. m.dealer ≡ names.dealer)) }
{
    let mut whole = mem::replace(handle, Handle::blank(alloc)).into_box();
    let name = match &mut *whole {
        Part::Names(member) => member.name(),
        _ => 0,
    };
    *handle = Handle::of(whole);
    name
}

/// Ends a handle, and with the last one the memory of the names. Its name stays taken.
#[unsafe(no_mangle)]
pub extern "C" fn word_names_free(alloc: Global, handle: &mut Handle)
    ghost names: { NamesMember }
    requires held { handle.old.part ≡ Some (part.Names names) }
    ensures none { handle.new.part ≡ None }
{
    drop(mem::replace(handle, Handle::blank(alloc)).into_box());
}
