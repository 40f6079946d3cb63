//! A splitter that threads visit over words, by the program that its machine proves.

ghost use Rattle.std.specs.Prelude.{◌≡◌, ◌≤◌};

use crate::common::{racing, same};
use model_splitter::{Visitor, Way};
use model_steps::Refusal;
use std::alloc::{AllocError, Global};
use std::thread::{self, Threads};
use words_machine::{Dealer, FreshSeat, WordMachine};

/// A splitter over two words.
type Splitter = WordMachine<Visitor<usize>, Global>;

/// A thread's part: the splitter, and a seat of it.
#[derive(Drop)]
struct Guest<'a> {
    splitter: &'a Splitter,
    seat: FreshSeat<Visitor<usize>>,
    ghost ours: { seat.words ≡ splitter.now },
}

/// The way that a visit goes.
fn way_of(guest: Guest<'_>) -> Way {
    let Guest { splitter, seat } = guest;
    let identity = splitter.own_number(&seat);
    let entered = splitter.enter(seat, identity);
    *entered.outcome()
}

/// So many guests of a splitter, each with a seat of its own, as far as there are seats.
fn guests_of<'a>(
    alloc: Global,
    splitter: &'a Splitter,
    mut dealer: Dealer<Visitor<usize>>,
    count: u64,
) -> Result<Vec<Guest<'a>, Global>, AllocError>
    requires ours { dealer.words ≡ splitter.now }
{
    let mut guests = Vec::new(alloc);
    for _ in 0..count {
        if let Some(seat) = splitter.deal(&mut dealer) {
            guests.push(Guest { splitter, seat })?;
        }
    }
    Ok(guests)
}

/// How many went this way.
fn went(ways: &[Way], way: Way) -> usize {
    ways.iter().filter(|taken| **taken == way).count()
}

/// Whether at most one stopped, not all went right, and not all went down.
fn are_split(ways: &[Way], count: u64) -> bool {
    went(ways, Way::Stop) <= 1
        && went(ways, Way::Right) < ways.len()
        && went(ways, Way::Down) < ways.len()
        && ways.len() as u64 == count
}

/// Whether so many threads that visit a new splitter at once are split.
fn split<R: Threads + Sync>(rt: &R, alloc: Global, count: u64) -> Result<bool, Refusal>
    requires { 1 ≤ count }
{
    let (splitter, dealer) = Splitter::new(alloc, count)?;
    let guests = guests_of(alloc, &splitter, dealer, count)?;
    let ways = thread::map_vec(rt, guests, &|guest| way_of(guest))?;
    Ok(are_split(&ways, count))
}

/// In each tenth round sixteen threads.
#[test]
fn threads_are_split(rt: HostRuntime) {
    for round in 0..1000usize {
        let count = racing(round, 1, 16);
        same(&rt, round, split(&rt, rt.alloc(), count), Ok(true));
    }
}
