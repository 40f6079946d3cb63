//! The grid's functions. Each thread has a handle of its own, with one seat.

ghost use Rattle.std.specs.Prelude.{◌≡◌, ◌≢◌, ◌≤◌, IfSome, IsSome, IsSomeAnd, None, Some, true, false};
ghost use Rattle.std.specs.Arc.{arc_value};
ghost use Rattle.words_c.specs.Grids.{IsReportedAs};
ghost use Rattle.words_c.specs.Reported.{DealtNext};
ghost use Rattle.words_c.specs.Parts.{IsGridAnd};
ghost use Rattle.words_c.specs.declared.grid_member.GridMember.{GridMember};
ghost use Rattle.words_c.specs.declared.part.Part.TheVariants.{Grid};

use crate::grid_member::GridMember;
use crate::handle::Handle;
use crate::part::Part;
use std::alloc::Global;
use std::mem;
use std::sync::Arc;
use words_machine::grid::WordGrid;

fn open_grid(alloc: Global, most: u64) -> Option<GridMember>
    ensures range { IsSome result → (1 ≤ most) × (most ≤ 64) }
    ensures most { IfSome result (λ m. (arc_value m.grid).most ≡ most) }
    ensures seat { IfSome result (λ m. IsSome m.seat × IsSome m.dealer) }
{
    let (grid, mut dealer) = WordGrid::new(alloc, most).ok()?;
    let seat = grid.deal(&mut dealer);
    let grid = Arc::new(alloc, grid).ok()?;
    let dealer = Some(dealer);
    let entered = None;
    Some(GridMember {
        grid,
        dealer,
        seat,
        entered,
    })
}

/// Makes a grid of `most` seats, which are from 1 to 64, at a handle that holds none, and deals this handle the first seat.
/// False, with nothing made, where `most` is outside that range or memory was refused.
#[unsafe(no_mangle)]
pub extern "C" fn word_grid_new(alloc: Global, handle: &mut Handle, most: u64) -> bool
    requires empty { handle.old.part ≡ None }
    ensures made { result ≡ true → IsSomeAnd handle.new.part (IsGridAnd (λ m. ((arc_value m.grid).most ≡ most) × IsSome m.seat × IsSome m.dealer)) }
    ensures range { result ≡ true → (1 ≤ most) × (most ≤ 64) }
    ensures none { result ≡ false → handle.new.part ≡ None }
{
    match open_grid(alloc, most) {
        Some(member) => handle.fill(alloc, Part::Grid(member)),
        None => false,
    }
}

fn second(first: &mut GridMember) -> Option<GridMember>
    ensures grid { arc_value first.new.grid ≡ arc_value first.old.grid }
    ensures same { (first.new.seat ≡ first.old.seat) × (first.new.entered ≡ first.old.entered) }
    ensures ours { IfSome result (λ m. (arc_value m.grid ≡ arc_value first.old.grid) × IsSome m.seat) }
    ensures dealt { IfSome result (λ m. DealtNext first.old first.new m) }
    ensures dealer { IsSome first.old.dealer → IsSome first.new.dealer }
{
    let grid = Arc::try_clone(&first.grid).ok()?;
    let seat = Some(first.deal()?);
    let dealer = None;
    let entered = None;
    Some(GridMember {
        grid,
        dealer,
        seat,
        entered,
    })
}

/// A handle for one more thread, with the next seat; `handle` is the one that `word_grid_new` made. False, with none made,
/// where all seats are dealt, `handle` is another, or memory was refused; a seat that was dealt then is lost.
#[unsafe(no_mangle)]
pub extern "C" fn word_grid_join(alloc: Global, handle: &mut Handle, other: &mut Handle) -> bool
    ghost grid: { GridMember }
    requires held { handle.old.part ≡ Some (Grid grid) }
    requires empty { other.old.part ≡ None }
    ensures held { IsSomeAnd handle.new.part (IsGridAnd (λ m. (arc_value m.grid ≡ arc_value grid.grid) × (m.seat ≡ grid.seat) × (m.entered ≡ grid.entered))) }
    ensures joined { result ≡ true → IsSomeAnd other.new.part (IsGridAnd (λ m. (arc_value m.grid ≡ arc_value grid.grid) × IsSome m.seat)) }
    ensures dealt { result ≡ true → IsSomeAnd handle.new.part (IsGridAnd (λ m. IsSomeAnd other.new.part (IsGridAnd (DealtNext grid m)))) }
    ensures dealer { IsSome grid.dealer → IsSomeAnd handle.new.part (IsGridAnd (λ m. IsSome m.dealer)) }
    ensures none { result ≡ false → other.new.part ≡ None }
{
    let mut whole = mem::replace(handle, Handle::blank(alloc)).into_box();
    let theirs = match &mut *whole {
        Part::Grid(member) => second(member),
        _ => None,
    };
    *handle = Handle::of(whole);
    match theirs {
        Some(member) => other.fill(alloc, Part::Grid(member)),
        None => false,
    }
}

/// Walks from the corner with this handle's seat until it stops, by reads and writes alone, and tells the place, from 1: where
/// `b` had entered, itself among them, at most `b(b + 1)/2`, by at most `4b` accesses. No two handles of one grid have one
/// place. 0 where the handle has entered already.
#[unsafe(no_mangle)]
pub extern "C" fn word_grid_enter(alloc: Global, handle: &mut Handle) -> u64
    ghost grid: { GridMember }
    requires held { handle.old.part ≡ Some (Grid grid) }
    ensures place { result ≢ 0 → IsSomeAnd handle.new.part (IsGridAnd (λ m. IsSomeAnd m.entered (IsReportedAs result (arc_value grid.grid)))) }
    ensures some { result ≢ 0 → IsSome grid.seat }
    ensures spent { IsSomeAnd handle.new.part (IsGridAnd (λ m. m.seat ≡ None)) }
    ensures none { result ≡ 0 → grid.seat ≡ None }
    ensures dealer { IsSomeAnd handle.new.part (IsGridAnd (λ m. m.dealer ≡ grid.dealer)) }
{
    let mut whole = mem::replace(handle, Handle::blank(alloc)).into_box();
    let place = match &mut *whole {
        Part::Grid(member) => member.enter(),
        _ => 0,
    };
    *handle = Handle::of(whole);
    place
}

/// Ends a handle, and with the last one the grid's memory. Its place stays taken.
#[unsafe(no_mangle)]
pub extern "C" fn word_grid_free(alloc: Global, handle: &mut Handle)
    ghost grid: { GridMember }
    requires held { handle.old.part ≡ Some (Grid grid) }
    ensures none { handle.new.part ≡ None }
{
    drop(mem::replace(handle, Handle::blank(alloc)).into_box());
}
