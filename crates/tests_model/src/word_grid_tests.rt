//! Walks that are made one after another, and by threads at once.

ghost use Rattle.std.specs.Prelude.{◌≡◌};

use crate::common::{racing, same};
use model_steps::{Place, Refusal};
use std::alloc::{AllocError, Global};
use std::thread::{self, Threads};
use words_machine::grid::{FreshGridSeat, GridDealer, WordGrid};

/// How many places the rows of a triangle have, so many rows.
fn places_of_rows(rows: u64) -> Place {
    let rows = Place::from(rows);
    rows.saturating_mul(rows.saturating_add(1)) / 2
}

/// Enters with the next seat: the depth and the column of its door, its place, and its number.
fn walk_next(grid: &WordGrid<Global>, dealer: &mut GridDealer) -> Option<(u64, u8, Place, u64)>
    requires ours { dealer.old.words ≡ grid.now }
    ensures ours { dealer.new.words ≡ grid.now }
{
    let fresh = grid.deal(dealer)?;
    let mut entered = grid.enter(fresh);
    grid.tally(dealer, &mut entered);
    let door = entered.door();
    let depth = u64::from(door.depth);
    Some((depth, door.column, entered.place(), entered.number()))
}

/// Whether each seat in turn has the place at the right end of its row, and there are as many as the grid says.
fn go_right(grid: &WordGrid<Global>, mut dealer: GridDealer) -> bool
    requires ours { dealer.words ≡ grid.now }
{
    for before in 0..grid.most() {
        let due = (before, 0, places_of_rows(before), before);
        if walk_next(grid, &mut dealer) != Some(due) {
            return false;
        }
    }
    walk_next(grid, &mut dealer).is_none() && dealer.dealt() == grid.most()
}

/// Whether all go right in a grid for so many.
fn are_seated(alloc: Global, most: u64) -> Result<bool, Refusal> {
    let (grid, dealer) = WordGrid::new(alloc, most)?;
    Ok(grid.most() == most && go_right(&grid, dealer))
}

/// For how many a grid is asked, and whether all go right in it, or why it is not made.
const SIZES: [(u64, Result<bool, Refusal>); 6] = [
    (0, Err(Refusal::OutOfRange)),
    (1, Ok(true)),
    (2, Ok(true)),
    (64, Ok(true)),
    (65, Err(Refusal::OutOfRange)),
    (u64::MAX, Err(Refusal::OutOfRange)),
];

#[test]
fn each_that_comes_later_goes_right(rt: HostRuntime) {
    for (i, (most, due)) in SIZES.iter().enumerate() {
        same(&rt, i, are_seated(rt.alloc(), *most), *due);
    }
}

/// A thread's part: the grid, and a seat of it.
#[derive(Drop)]
struct Visitor<'a> {
    grid: &'a WordGrid<Global>,
    seat: FreshGridSeat,
    ghost ours: { seat.words ≡ grid.now },
}

/// The place at which a walk ends.
fn place_of(visitor: Visitor<'_>) -> Place {
    let Visitor { grid, seat } = visitor;
    grid.enter(seat).place()
}

/// So many visitors of a grid, each with a seat of its own, as far as there are seats.
fn visitors_of<'a>(
    alloc: Global,
    grid: &'a WordGrid<Global>,
    mut dealer: GridDealer,
    count: u64,
) -> Result<Vec<Visitor<'a>, Global>, AllocError>
    requires ours { dealer.words ≡ grid.now }
{
    let mut visitors = Vec::new(alloc);
    for _ in 0..count {
        if let Some(seat) = grid.deal(&mut dealer) {
            visitors.push(Visitor { grid, seat })?;
        }
    }
    Ok(visitors)
}

/// Whether there are so many places, each among the first of as many rows and no two alike.
fn are_places_of(places: &[Place], count: u64) -> bool {
    for (i, place) in places.iter().enumerate() {
        if places_of_rows(count) <= *place || places[..i].contains(place) {
            return false;
        }
    }
    places.len() as u64 == count
}

/// Whether so many threads that enter a new grid at once have places of their own among the first.
fn have_places<R: Threads + Sync>(rt: &R, alloc: Global, count: u64) -> Result<bool, Refusal> {
    let (grid, dealer) = WordGrid::new(alloc, 64)?;
    let visitors = visitors_of(alloc, &grid, dealer, count)?;
    let places = thread::map_vec(rt, visitors, &|visitor| place_of(visitor))?;
    Ok(are_places_of(&places, count))
}

/// In each tenth round as many as a grid has seats for.
#[test]
fn threads_have_places_of_their_own(rt: HostRuntime) {
    for round in 0..1000usize {
        let count = racing(round, 2, 64);
        same(&rt, round, have_places(&rt, rt.alloc(), count), Ok(true));
    }
}
