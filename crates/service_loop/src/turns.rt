//! One turn of the loop.

ghost use Rattle.std.specs.Prelude.{◌≡◌, ◌⊎◌, ℕ, true, get_or, take, None, IfOk, OnErr};
ghost use Rattle.model_asked.specs.Requests.{Request};
ghost use Rattle.text_player.specs.Shared.{TurnLog};
ghost use Rattle.service_loop.specs.Attending.{Hears, acts_in, acts_of, number_at};
ghost use Rattle.service_loop.specs.SharedBuffers.{AreShared};
ghost use Rattle.service_loop.specs.ConnectionBuffers.{HasTakenAll};
ghost use Rattle.service_loop.specs.Seats.{seats_of, CallsSome, EachIs, SeatIs, Served, TurnsTaken, RepliesSent, NoneSent, SeatTurn, SeatSent, ServedIteration};

use crate::attended::Attended;
use crate::connection::{Connection, ConnectionStage};
use crate::persist::Persist;
use crate::shared::SharedBuffers;
use crate::stream::Stream;
use std::alloc::Allocator;
use text_player::Service;

// The number of the connection of a seat.
pub(crate) fn number_at(numbers: &[u64], key: usize) -> u64
    ensures { result ≡ number_at numbers.now key }
{
    if key < numbers.len() { numbers[key] } else { 0 }
}

// The connection of a seat has its turn, where there is one and its turn is due. It is the one of this number.
fn take_at<R, D: Service<R>, S: Stream, A: Allocator, B: Allocator>(
    rt: &R,
    service: &mut Attended<D>,
    shared: &mut SharedBuffers<B>,
    seats: &mut [Option<Connection<S, A>>],
    number: u64,
    key: usize,
)
    requires knows { (q : Request) → D.knows q ≡ true }
    requires room { AreShared shared.old }
    ensures took { ((service.new ≡ service.old) × (seats.new ≡ seats.old)) ⊎
        ((turn : SeatTurn (seats_of S.left S.gone) D.may (λ c. c.stage ≡ ConnectionStage.Queued) key
        service.old.service seats.old service.new.service seats.new) ×
        Hears (acts_of number turn.turns) service.old service.new) }
    ensures done { SeatIs (λ c. c.stage ≡ ConnectionStage.Queued → ⊥) (get_or seats.new key None) }
    ensures all { (seats.new ≡ seats.old) ⊎ SeatIs (λ c. HasTakenAll c.buffers) (get_or seats.new key None) }
    ensures others { (i : ℕ) → (i ≡ key → ⊥) → get_or seats.new i None ≡ get_or seats.old i None }
    ensures room { AreShared shared.new }
{
    if key < seats.len() {
        if let Some(connection) = &mut seats[key] {
            if let ConnectionStage::Queued = connection.stage {
                service.listen_to(number);
                connection.take(rt, service, shared);
                shared.note_turn(connection.buffers.has_input());
            }
        }
    }
}

/// The connections of these seats have their turns, one after another, until so much is to be kept; the first has it in any
/// case. Says how many of the seats were called. Nothing is sent. Who keeps a stay is noted by the numbers of the connections.
pub fn take_turns<R, D: Service<R>, K: Persist<D>, S: Stream, A: Allocator, B: Allocator>(
    rt: &R,
    service: &mut Attended<D>,
    persister: &K,
    shared: &mut SharedBuffers<B>,
    seats: &mut [Option<Connection<S, A>>],
    numbers: &[u64],
    ready: &[usize],
) -> usize
    requires knows { (q : Request) → D.knows q ≡ true }
    requires room { AreShared shared.old }
    ensures taken { (log : TurnLog) × TurnsTaken (seats_of S.left S.gone) D.may service.old.service seats.old log service.new.service seats.new ×
        Hears (acts_in (number_at numbers.now) log) service.old service.new }
    ensures called { CallsSome ready.now result }
    ensures done { EachIs (λ c. c.stage ≡ ConnectionStage.Queued → ⊥) (take result ready.now) seats.new }
    ensures served { Served (seats_of S.left S.gone) (λ c. c.stage ≡ ConnectionStage.Queued) (take result ready.now) seats.old seats.new }
    ensures room { AreShared shared.new }
{
    let mut called = 0;
    while called < ready.len() && (called == 0 || !persister.is_full(&service.service)) {
        let key = ready[called];
        take_at(rt, service, shared, seats, number_at(numbers, key), key);
        called += 1;
    }
    called
}

// The connection of a seat sends what waits, where there is one and its turn is taken.
fn send_at<S: Stream, A: Allocator>(seats: &mut [Option<Connection<S, A>>], key: usize)
    ensures sent { (seats.new ≡ seats.old) ⊎
        SeatSent (seats_of S.left S.gone) (λ c. c.stage ≡ ConnectionStage.Taken) key seats.old seats.new }
    ensures rests { SeatIs (λ c. c.stage ≡ ConnectionStage.Queued → ⊥) (get_or seats.old key None) →
        SeatIs (λ c. c.stage ≡ ConnectionStage.Idle) (get_or seats.new key None) }
    ensures others { (i : ℕ) → (i ≡ key → ⊥) → get_or seats.new i None ≡ get_or seats.old i None }
{
    if key < seats.len() {
        if let Some(connection) = &mut seats[key] {
            if let ConnectionStage::Taken = connection.stage {
                connection.send();
            }
        }
    }
}

/// The connections of these seats send what waits, as far as their streams take it now.
pub fn send_replies<S: Stream, A: Allocator>(
    seats: &mut [Option<Connection<S, A>>],
    called: &[usize],
)
    ensures sent { RepliesSent (seats_of S.left S.gone) seats.old seats.new }
    ensures rest { EachIs (λ c. c.stage ≡ ConnectionStage.Queued → ⊥) called.now seats.old →
        EachIs (λ c. c.stage ≡ ConnectionStage.Idle) called.now seats.new }
{
    for key in called {
        send_at(seats, *key);
    }
}

/// One turn of the loop: the connections of these seats take what came, what the service tells of it is kept, and only then are
/// replies sent. Says how many of the seats were called, one at least where any is given: of each of them the connection rests then, and the
/// others are to be called in the next turn. Who keeps a stay is noted by the numbers of the connections, in the order of all turns.
///
/// # Errors
///
/// The persister's own fault. No byte is sent.
pub fn iterate<R, D: Service<R>, K: Persist<D>, S: Stream, A: Allocator, B: Allocator>(
    rt: &R,
    service: &mut Attended<D>,
    persister: &mut K,
    shared: &mut SharedBuffers<B>,
    seats: &mut [Option<Connection<S, A>>],
    numbers: &[u64],
    ready: &[usize],
) -> Result<usize, K::Fault>
    requires knows { (q : Request) → D.knows q ≡ true }
    requires room { AreShared shared.old }
    ensures turned { IfOk result (λ called.
        (turned : ServedIteration (seats_of S.left S.gone) D.may K.persists (λ c. c.stage ≡ ConnectionStage.Queued) (take called ready.now)
        persister.old service.old.service seats.old persister.new service.new.service seats.new) ×
        Hears (acts_in (number_at numbers.now) turned.turn.log) service.old service.new) }
    ensures unsent { OnErr result (NoneSent (seats_of S.left S.gone) seats.old seats.new) }
    ensures called { IfOk result (λ called. CallsSome ready.now called) }
    ensures rest { IfOk result (λ called. EachIs (λ c. c.stage ≡ ConnectionStage.Idle) (take called ready.now) seats.new) }
    ensures room { AreShared shared.new }
{
    let called = take_turns(rt, service, persister, shared, seats, numbers, ready);
    persister.persist(&mut service.service)?;
    send_replies(seats, &ready[..called]);
    Ok(called)
}
