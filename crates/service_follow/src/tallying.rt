//! How much there is of a hall.

ghost use Rattle.std.specs.Prelude.{◌≡◌, IfSome, count_by};
ghost use Rattle.text_worlds.specs.desk.Desk.{owner_reply};
ghost use Rattle.text_worlds.specs.desk.Held.{slots_of};
ghost use Rattle.service_hall.specs.Halls.{desk_of};
ghost use Rattle.service_loop.specs.Rooms.{room_in};
ghost use Rattle.service_follow.specs.Tallied.{IsTallyOf, holds_one, is_owned, names_given, numbers_free};

use model_asked::Reply;
use model_pool::{Competitor, Stay};
use service_hall::{Hall, MOST_EVENTS};
use service_loop::Tally;
use std::alloc::Global;

// How many of these competitors hold a number.
fn count_held(competitors: &[Competitor]) -> u64
    ensures { result ≡ count_by holds_one competitors.now }
{
    let mut held = 0;
    for competitor in competitors {
        if matches!(competitor.stay, Stay::Settled(_)) {
            held += 1;
        }
    }
    held
}

// How many numbers of the pool nobody holds; `None` where an allocation failed.
fn numbers_free(alloc: Global, hall: &Hall) -> Option<u64>
    ensures { IfSome result (λ n. n ≡ numbers_free hall.now) }
{
    let pool = hall.slots().pool();
    let Ok(competitors) = pool.competitors(alloc) else {
        return None;
    };
    Some(pool.size().saturating_sub(count_held(&competitors)))
}

// Whether somebody has the name of this number.
fn is_given(hall: &Hall, number: u64) -> bool
    ensures { result ≡ is_owned (owner_reply (desk_of hall.now) number) }
{
    matches!(hall.owner(number), Reply::Owner(Some(_)))
}

// How many names are given, of those from 1 to 2m - 1.
fn names_given(hall: &Hall) -> u64
    ensures { result ≡ names_given hall.now }
{
    let most = 2 * hall.config().m;
    let mut given = 0;
    for number in 1..most {
        if is_given(hall, number) {
            given += 1;
        }
    }
    given
}

/// How many more may compete in the pool of a hall.
pub fn room_of(hall: &Hall) -> u64
    ensures { result ≡ room_in (slots_of (desk_of hall.now)) }
{
    let pool = hall.slots().pool();
    pool.size().saturating_sub(pool.count())
}

/// How much there is of a hall, for people: nothing is known of where its history is kept.
pub fn tally_of(alloc: Global, hall: &Hall) -> Tally
    ensures { IsTallyOf hall.now result.events result.events_left result.competitors result.numbers_free result.names_given }
{
    let events = hall.len();
    Tally {
        events_left: Some(MOST_EVENTS.saturating_sub(events) as u64),
        competitors: Some(hall.slots().pool().count()),
        numbers_free: numbers_free(alloc, hall),
        names_given: Some(names_given(hall)),
        ..Tally::of_events(events as u64)
    }
}
