//! Visits of a raw splitter, one after another and by threads at once.

ghost use Rattle.std.specs.Prelude.{◌≡◌};

use crate::common::holds;
use model_splitter::Way;
use std::alloc::Global;
use std::test::Fail;
use std::thread::{Threads, join};
use words_machine::parts::{EnteredSplitterSeat, FreshSplitterSeat, RawSplitter};

/// Whether the only seat of a splitter for one stops.
fn one_stops(splitter: &RawSplitter<Global>, seat: FreshSplitterSeat) -> bool
    requires { seat.splitter ≡ splitter.now }
{
    let (entered, way) = splitter.enter(seat);
    (entered.number(), entered.way(), way) == (0, Way::Stop, Way::Stop)
}

#[test]
fn one_alone_stops(rt: HostRuntime) -> Result<(), Fail> {
    let (splitter, mut seats) = RawSplitter::new(rt.alloc(), 1)?;
    let stopped = match seats.pop() {
        Some(seat) => one_stops(&splitter, seat),
        None => false,
    };
    holds(&rt, 1, stopped && seats.is_empty());
    Ok(())
}

/// Whether of two seats that enter one after the other the first stops and the second goes right.
fn first_stops(
    splitter: &RawSplitter<Global>,
    first: FreshSplitterSeat,
    second: FreshSplitterSeat,
) -> bool
    requires first { first.splitter ≡ splitter.now }
    requires second { second.splitter ≡ splitter.now }
{
    let (mut one, first_way) = splitter.enter(first);
    let (mut other, second_way) = splitter.enter(second);
    splitter.meet(&mut one, &mut other);
    (first_way, second_way) == (Way::Stop, Way::Right)
        && (one.way(), other.way()) == (Way::Stop, Way::Right)
}

#[test]
fn the_first_of_a_pair_stops_in_both_orders(rt: HostRuntime) -> Result<(), Fail> {
    let (splitter, first, second) = RawSplitter::pair(rt.alloc())?;
    holds(&rt, 1, first_stops(&splitter, first, second));
    let (splitter, first, second) = RawSplitter::pair(rt.alloc())?;
    holds(&rt, 2, first_stops(&splitter, second, first));
    Ok(())
}

/// Whether two threads that enter at once, and then meet, have different ways.
fn are_split<R: Threads + Sync>(
    rt: &R,
    splitter: &RawSplitter<Global>,
    first: FreshSplitterSeat,
    second: FreshSplitterSeat,
) -> bool
    requires first { first.splitter ≡ splitter.now }
    requires second { second.splitter ≡ splitter.now }
{
    let ((mut one, first_way), (mut other, second_way)) = join(
        rt,
        move || -> (EnteredSplitterSeat, Way)
            requires { first.splitter ≡ splitter.now }
            ensures { result.0.splitter ≡ splitter.entry.now }
        { splitter.enter(first) },
        move || -> (EnteredSplitterSeat, Way)
            requires { second.splitter ≡ splitter.now }
            ensures { result.0.splitter ≡ splitter.entry.now }
        { splitter.enter(second) },
    );
    splitter.meet(&mut one, &mut other);
    first_way != second_way
}

#[test]
fn two_threads_are_split(rt: HostRuntime) -> Result<(), Fail> {
    for turn in 0..1000 {
        let (splitter, first, second) = RawSplitter::pair(rt.alloc())?;
        holds(&rt, turn, are_split(&rt, &splitter, first, second));
    }
    Ok(())
}
