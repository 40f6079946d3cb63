//! Lines that ask who holds numbers, what changes of that, or the terms, after a turn of the loop.

ghost use Rattle.std.specs.Prelude.{◌≡◌, ◌⊎◌, ℕ, get_or, None};
ghost use Rattle.service_loop.specs.Answering.{AnsweredAndSent, QueriesAnswered, SeatAnswered};
ghost use Rattle.service_loop.specs.Queries.{query_text};
ghost use Rattle.service_loop.specs.SharedBuffers.{AreShared};
ghost use Rattle.service_loop.specs.Seats.{seats_of};

use crate::connection::{Connection, ConnectionStage};
use crate::feed::Feed;
use crate::first_point::FirstPoint;
use crate::persist::Persist;
use crate::shared::SharedBuffers;
use crate::stream::Stream;
use crate::terms::Terms;
use crate::turns::send_replies;
use std::alloc::Allocator;

// The connection of a seat is answered, where there is one that rests.
fn answer_at<D, K: Persist<D>, S: Stream, A: Allocator, B: Allocator>(
    service: &D,
    persister: &K,
    terms: Terms,
    feed: &Feed,
    first: &FirstPoint,
    shared: &mut SharedBuffers<B>,
    seats: &mut [Option<Connection<S, A>>],
    key: usize,
)
    requires { AreShared shared.old }
    ensures answered { (seats.new ≡ seats.old) ⊎
        SeatAnswered (seats_of S.left S.gone) (query_text terms (K.holds persister.now service.now) first.now feed.now) (λ c. c.stage ≡ ConnectionStage.Idle)
        key seats.old seats.new }
    ensures room { AreShared shared.new }
{
    if key < seats.len() {
        if let Some(connection) = &mut seats[key] {
            if let ConnectionStage::Idle = connection.stage {
                connection.answer(service, persister, terms, feed, first, shared);
            }
        }
    }
}

// The connections of these seats are answered. Nothing is sent.
fn answer_all<D, K: Persist<D>, S: Stream, A: Allocator, B: Allocator>(
    service: &D,
    persister: &K,
    terms: Terms,
    feed: &Feed,
    first: &FirstPoint,
    called: &[usize],
    shared: &mut SharedBuffers<B>,
    seats: &mut [Option<Connection<S, A>>],
)
    requires { AreShared shared.old }
    ensures answered { QueriesAnswered (seats_of S.left S.gone) (query_text terms (K.holds persister.now service.now) first.now feed.now) seats.old seats.new }
    ensures room { AreShared shared.new }
{
    for key in called {
        answer_at(service, persister, terms, feed, first, shared, seats, *key);
    }
}

/// After a turn of the loop: of each of these seats the line that waits first is answered, where it asks who holds numbers, what changes of that, or the terms, and
/// the answer is sent as far as its stream takes it now. Who holds numbers is what the persister holds to be so then: no other line was taken since the last was kept.
pub fn answer_queries<D, K: Persist<D>, S: Stream, A: Allocator, B: Allocator>(
    service: &D,
    persister: &K,
    terms: Terms,
    feed: &Feed,
    first: &FirstPoint,
    shared: &mut SharedBuffers<B>,
    seats: &mut [Option<Connection<S, A>>],
    called: &[usize],
)
    requires { AreShared shared.old }
    ensures answered { AnsweredAndSent (seats_of S.left S.gone) (query_text terms (K.holds persister.now service.now) first.now feed.now) seats.old seats.new }
    ensures room { AreShared shared.new }
{
    answer_all(
        service, persister, terms, feed, first, called, shared, seats,
    );
    send_replies(seats, called);
}
