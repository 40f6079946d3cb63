//! Halls that drawn events lead to, built anew: the new hall answers as the old one.

use crate::drawn::Words;
use model_asked::{Config, Event, WorldKind};
use service_hall::{Compactor, Hall, compacted};
use std::alloc::Global;
use std::process::Abort;

/// A hall of this world, for so many numbers, in which one enters, takes a number and leaves, so many times; none where memory was refused.
fn padded(alloc: Global, world: WorldKind, k: u64, stays: usize) -> Option<Hall> {
    let config = Config::new(world, 4, k, 1000).ok()?;
    let mut hall = Hall::new(alloc, config).ok()?;
    for _ in 0..stays {
        let _ = hall.apply(Event::Enter(1));
        let _ = hall.apply(Event::Probe(1));
        let _ = hall.apply(Event::Leave(1));
    }
    Some(hall)
}

/// Lets a hall answer so many drawn events.
fn draw(hall: &mut Hall, words: &mut Words, k: u64, count: u64) {
    let bound = words.below(k.saturating_add(2)).saturating_add(1);
    for _ in 0..count {
        let event = words.event(k, bound);
        let _ = hall.apply(event);
    }
}

/// Whether both halls answer forty drawn events alike.
fn are_alike(one: &mut Hall, other: &mut Hall, words: &mut Words, k: u64) -> bool {
    for _ in 0..40 {
        let event = words.event(k, k.saturating_add(2));
        if one.apply(event) != other.apply(event) {
            return false;
        }
    }
    true
}

/// Whether a hall is built anew with fewer events, and both answer alike after it.
fn stands_as(alloc: Global, old: &mut Hall, words: &mut Words, k: u64) -> bool {
    match compacted(alloc, old) {
        Some(mut new) => new.len() < old.len() && are_alike(old, &mut new, words, k),
        None => false,
    }
}

/// Whether a hall of so many numbers with drawn events, behind stays that leave nothing, is built anew.
fn is_built_anew(alloc: Global, seed: u64, k: u64, stays: usize) -> bool {
    let world = if seed % 2 == 0 {
        WorldKind::Rename
    } else {
        WorldKind::Tree
    };
    let mut words = Words::new(seed);
    match padded(alloc, world, k, stays) {
        Some(mut old) => {
            let count = words.below(k.saturating_mul(8).saturating_add(30));
            draw(&mut old, &mut words, k, count);
            stands_as(alloc, &mut old, &mut words, k)
        }
        None => false,
    }
}

/// So many halls are built anew, of numbers from so many on of so many sizes, and behind so many stays.
fn are_built_anew(
    rt: &impl Abort,
    alloc: Global,
    (halls, least, sizes, stays): (u64, u64, u64, usize),
) {
    for seed in 0..halls {
        let k = seed.checked_rem(sizes).unwrap_or(0).saturating_add(least);
        assert!(rt; is_built_anew(alloc, seed, k, stays), "seed {seed}");
    }
}

#[test]
fn drawn_halls_of_few_numbers(rt: HostRuntime) {
    are_built_anew(&rt, rt.alloc(), (9_600, 1, 6, 60));
}

#[test]
fn drawn_halls_of_more_numbers(rt: HostRuntime) {
    are_built_anew(&rt, rt.alloc(), (380, 7, 14, 1_500));
}

#[test]
fn drawn_halls_of_all_numbers(rt: HostRuntime) {
    are_built_anew(&rt, rt.alloc(), (20, 61, 4, 10_000));
}

/// Whether a hall behind so many stays that leave nothing is compacted, and whether that is due.
fn reported_behind(alloc: Global, stays: usize) -> Option<(bool, bool)> {
    let old = padded(alloc, WorldKind::Rename, 4, stays)?;
    Some((
        compacted(alloc, &old).is_some(),
        Compactor::new().is_due(&old),
    ))
}

/// What would be no shorter stays, and it is due where the history is long.
#[test]
fn it_is_due_where_the_history_is_long(rt: HostRuntime) {
    for (stays, due) in [
        (0, (false, false)),
        (1, (true, false)),
        (150_000, (true, false)),
        (150_001, (true, true)),
    ] {
        assert!(rt; reported_behind(rt.alloc(), stays) == Some(due), "{stays}");
    }
}
