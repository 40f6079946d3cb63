//! One turn of the loop over a service that learns its answers before.

ghost use Rattle.std.specs.Prelude.{◌≡◌, ◌⊎◌, ℕ, List, ◌++◌, ◌≤◌, true, false, [], get_or, take, None, IfOk, OnErr};
ghost use Rattle.model_asked.specs.Requests.{Request};
ghost use Rattle.text_lines.specs.Lines.{whole_lines, with_ends};
ghost use Rattle.text_player.specs.Shared.{TurnLog};
ghost use Rattle.service_loop.specs.Attending.{Hears, acts_in, acts_of, number_at};
ghost use Rattle.service_loop.specs.Losing.{lost_acts};
ghost use Rattle.service_loop.specs.SharedBuffers.{AreShared};
ghost use Rattle.service_loop.specs.Seats.{seats_of, CallsSome, EachIs, NoneSent, SeatIdle, SeatIs, TurnsTaken};
ghost use Rattle.service_loop.specs.Gathering.{any_asks_holders, asks_holders, Gathered, SeatPeeked, SeatAsks, SeatBroken, SeatTurnPeeked, TakenPeeked, Reported, PrefetchedIteration, NotPrefetched, count_of};
ghost use Rattle.service_loop.specs.Reported.{SeatLines, all_lines, IsAmong};

use crate::attended::Attended;
use crate::connection::{Connection, ConnectionStage};
use crate::losing::note_lost;
use crate::peek::has_room;
use crate::persist::{Persist, Prefetch};
use crate::shared::SharedBuffers;
use crate::stream::Stream;
use crate::turns::{number_at, send_replies};
use model_asked::WorldKind;
use std::alloc::Allocator;
use text_player::Service;

/// What goes to a persister before a turn takes it.
#[derive(Drop)]
pub struct Batch<A: Allocator> {
    /// The world whose commands are spoken.
    pub kind: WorldKind,
    /// How many bytes of lines go to the persister at most.
    pub most: usize,
    /// Lines of requests, in the order in which they will be taken, each with its LF.
    pub lines: Vec<u8, A>,
    /// Whether it is asked too who holds numbers.
    pub holds: bool,
}

impl<A: Allocator> Batch<A> {
    /// Nothing is reported yet, and so many bytes at most are at once.
    pub fn new(alloc: A, kind: WorldKind, most: usize) -> Batch<A>
        ensures empty { (result.lines.items ≡ []) × (result.holds ≡ false) }
        ensures limits { (result.kind ≡ kind) × (result.most ≡ most) }
    {
        Batch {
            kind,
            most,
            lines: Vec::new(alloc),
            holds: false,
        }
    }
}

/// How a turn ended before which its answers were to be prefetched, and how many of the seats were called; the others are to be called in the
/// next turn.
#[derive(Clone, Copy, Debug, Drop, PartialEq, Eq)]
pub enum Called {
    /// They had their turn.
    Served(usize),
    /// The answers were not prefetched: nothing was taken of any and nothing sent, and those whose lines are in the batch are at fault.
    Unserved(usize),
}

impl Called {
    /// How many of the seats were called.
    pub fn count(self) -> usize
        ensures { result ≡ count_of self }
    {
        match self {
            Called::Served(count) | Called::Unserved(count) => count,
        }
    }
}

// The connection of a seat is read, and its lines are looked at, where there is one and its turn is due.
fn gather_at<S: Stream, A: Allocator, B: Allocator>(
    batch: &mut Batch<B>,
    shared: &mut SharedBuffers<B>,
    seats: &mut [Option<Connection<S, A>>],
    key: usize,
)
    requires { AreShared shared.old }
    ensures gathered { Gathered (seats_of S.left S.gone) seats.old seats.new }
    ensures peeked { ((batch.new ≡ batch.old) × (seats.new ≡ seats.old) × SeatIdle (λ c. c.stage ≡ ConnectionStage.Queued) (get_or seats.old key None)) ⊎
        ((more : List (List ℕ)) × (batch.new.lines.items ≡ batch.old.lines.items ++ with_ends more) ×
        SeatPeeked (seats_of S.left S.gone) (λ c. c.peek) (λ c. c.stage ≡ ConnectionStage.Queued) batch.old.kind key seats.old seats.new more) }
    ensures kind { batch.new.kind ≡ batch.old.kind }
    ensures room { AreShared shared.new }
{
    if key < seats.len() {
        if let Some(connection) = &mut seats[key] {
            if let ConnectionStage::Queued = connection.stage {
                connection.gather(batch.kind, batch.most, shared, &mut batch.lines);
            }
        }
    }
}

/// The connections of these seats are read, and their lines are looked at, one after another, as far as there is room for one line more
/// in the batch; the first is in any case. Says how many of the seats had their look. Nothing is taken and nothing sent.
pub fn gather<S: Stream, A: Allocator, B: Allocator>(
    batch: &mut Batch<B>,
    shared: &mut SharedBuffers<B>,
    seats: &mut [Option<Connection<S, A>>],
    ready: &[usize],
) -> usize
    requires { AreShared shared.old }
    ensures gathered { Gathered (seats_of S.left S.gone) seats.old seats.new }
    ensures reported { (reported : SeatLines) × (batch.new.lines.items ≡ with_ends (all_lines reported)) ×
        Reported (seats_of S.left S.gone) (λ c. c.peek) (λ c. c.stage ≡ ConnectionStage.Queued) batch.old.kind (take result ready.now) reported seats.new }
    ensures kind { batch.new.kind ≡ batch.old.kind }
    ensures peeked { CallsSome ready.now result }
    ensures room { AreShared shared.new }
{
    batch.lines.clear();
    let mut peeked = 0;
    while peeked < ready.len() && has_room(batch.most, &batch.lines) {
        gather_at(batch, shared, seats, ready[peeked]);
        peeked += 1;
    }
    peeked
}

// The connection of a seat is at fault, where there is one whose lines are in the batch; each other waits for its next turn.
fn give_up_at<S: Stream, A: Allocator>(seats: &mut [Option<Connection<S, A>>], key: usize)
    ensures gathered { Gathered (seats_of S.left S.gone) seats.old seats.new }
    ensures reported { SeatAsks (λ c. c.peek) (get_or seats.old key None) → SeatBroken (seats_of S.left S.gone) (get_or seats.new key None) }
    ensures rests { SeatIs (λ c. c.stage ≡ ConnectionStage.Idle) (get_or seats.new key None) }
    ensures others { (i : ℕ) → (i ≡ key → ⊥) → get_or seats.new i None ≡ get_or seats.old i None }
{
    if key < seats.len() {
        if let Some(connection) = &mut seats[key] {
            connection.give_up();
        }
    }
}

// The connections of these seats whose lines are in the batch are at fault; nothing is taken of any, and nothing sent.
fn give_up<S: Stream, A: Allocator>(seats: &mut [Option<Connection<S, A>>], called: &[usize])
    ensures gathered { Gathered (seats_of S.left S.gone) seats.old seats.new }
    ensures reported { (i : ℕ) → IsAmong i called.now → SeatAsks (λ c. c.peek) (get_or seats.old i None) →
        SeatBroken (seats_of S.left S.gone) (get_or seats.new i None) }
    ensures rest { EachIs (λ c. c.stage ≡ ConnectionStage.Idle) called.now seats.new }
{
    for key in called {
        give_up_at(seats, *key);
    }
}

// The connection of a seat has its turn over what was looked at, where there is one and its turn is due. It is the one of this number.
fn take_peeked_at<R, D: Service<R>, S: Stream, A: Allocator, B: Allocator>(
    rt: &R,
    service: &mut Attended<D>,
    shared: &mut SharedBuffers<B>,
    seats: &mut [Option<Connection<S, A>>],
    number: u64,
    key: usize,
)
    requires knows { (q : Request) → D.knows q ≡ true }
    requires room { AreShared shared.old }
    ensures took { ((service.new ≡ service.old) × (seats.new ≡ seats.old)) ⊎
        ((peeked : SeatTurnPeeked (seats_of S.left S.gone) (λ c. c.peek) (λ c. c.stage ≡ ConnectionStage.Queued) D.may key
        service.old.service seats.old service.new.service seats.new) ×
        Hears (acts_of number peeked.turn.turns) service.old service.new) }
    ensures done { SeatIs (λ c. c.stage ≡ ConnectionStage.Queued → ⊥) (get_or seats.new key None) }
    ensures others { (i : ℕ) → (i ≡ key → ⊥) → get_or seats.new i None ≡ get_or seats.old i None }
    ensures room { AreShared shared.new }
{
    if key < seats.len() {
        if let Some(connection) = &mut seats[key] {
            if let ConnectionStage::Queued = connection.stage {
                service.listen_to(number);
                connection.take_peeked(rt, service, shared);
                shared.note_turn(connection.buffers.has_input());
            }
        }
    }
}

// The connections of these seats have their turns over what was looked at, one after another. Nothing is sent.
fn take_peeked<R, D: Service<R>, S: Stream, A: Allocator, B: Allocator>(
    rt: &R,
    service: &mut Attended<D>,
    shared: &mut SharedBuffers<B>,
    seats: &mut [Option<Connection<S, A>>],
    numbers: &[u64],
    called: &[usize],
)
    requires knows { (q : Request) → D.knows q ≡ true }
    requires room { AreShared shared.old }
    ensures taken { (log : TurnLog) × TurnsTaken (seats_of S.left S.gone) D.may service.old.service seats.old log service.new.service seats.new ×
        TakenPeeked (seats_of S.left S.gone) (λ c. c.peek) (λ c. c.stage ≡ ConnectionStage.Queued) called.now log seats.old seats.new ×
        Hears (acts_in (number_at numbers.now) log) service.old service.new }
    ensures done { EachIs (λ c. c.stage ≡ ConnectionStage.Queued → ⊥) called.now seats.new }
    ensures room { AreShared shared.new }
{
    for key in called {
        take_peeked_at(rt, service, shared, seats, number_at(numbers, *key), *key);
    }
}

// Whether the connection of a seat asks who holds numbers, as it was looked at.
fn asks_holders_at<S: Stream, A: Allocator>(seats: &[Option<Connection<S, A>>], key: usize) -> bool
    ensures { result ≡ asks_holders (λ c. c.peek) (get_or seats.now key None) }
{
    if key < seats.len() {
        if let Some(connection) = &seats[key] {
            return connection.asks_holders();
        }
    }
    false
}

// Whether a connection of these seats does.
fn any_asks_holders<S: Stream, A: Allocator>(
    seats: &[Option<Connection<S, A>>],
    called: &[usize],
) -> bool
    ensures { result ≡ any_asks_holders (λ c. c.peek) called.now seats.now }
{
    for key in called {
        if asks_holders_at(seats, *key) {
            return true;
        }
    }
    false
}

/// Has the persister learn a batch, where there is something in it.
pub(crate) fn prefetch<D, K: Persist<D>, B: Allocator>(
    service: &mut D,
    persister: &mut K,
    batch: &Batch<B>,
) -> Result<Prefetch, K::Fault>
    ensures known { result ≡ Ok Prefetch.Known →
        ((batch.now.lines.items ≡ []) × (batch.now.holds ≡ false) × (persister.new ≡ persister.old) × (service.new ≡ service.old)) ⊎
        K.prefetches persister.old service.old batch.now.lines.items persister.new service.new }
    ensures lost { result ≡ Ok Prefetch.Lost → K.waits persister.old service.old persister.new service.new }
{
    if batch.lines.is_empty() && !batch.holds {
        return Ok(Prefetch::Known);
    }
    persister.prefetch(service, &batch.lines)
}

/// One turn of the loop over a service that learns its answers before: the connections of these seats are read, the requests among their
/// lines go to the persister, which has the service prefetch the answers, and then they take their turns (as in `iterate`). Where the answers are not
/// prefetched in time, those whose lines are in the batch are at fault, and nothing is sent. No connection takes more than was looked at. One seat at
/// least is called, where any is given, and of each that is called the connection rests then. Who keeps a stay is noted as in `iterate`. Of each
/// `enter` among lines whose answers are lost it is noted that nobody keeps the stay, unless a connection does: it may have been applied.
///
/// # Errors
///
/// The persister's own fault. No byte is sent.
pub fn iterate_prefetched<R, D: Service<R>, K: Persist<D>, S: Stream, A: Allocator, B: Allocator>(
    rt: &R,
    service: &mut Attended<D>,
    persister: &mut K,
    batch: &mut Batch<B>,
    shared: &mut SharedBuffers<B>,
    seats: &mut [Option<Connection<S, A>>],
    numbers: &[u64],
    ready: &[usize],
) -> Result<Called, K::Fault>
    requires knows { (q : Request) → D.knows q ≡ true }
    requires room { AreShared shared.old }
    ensures served { (called : ℕ) → result ≡ Ok (Called.Served called) →
        (turned : PrefetchedIteration (seats_of S.left S.gone) (λ c. c.peek) (λ c. c.stage ≡ ConnectionStage.Queued) D.may K.prefetches K.persists
        batch.old.kind (take called ready.now) persister.old service.old.service seats.old batch.new.lines.items persister.new service.new.service seats.new) ×
        Hears (acts_in (number_at numbers.now) turned.turn.log) service.old service.new }
    ensures unserved { (called : ℕ) → result ≡ Ok (Called.Unserved called) →
        NotPrefetched (seats_of S.left S.gone) (λ c. c.peek) (λ c. c.stage ≡ ConnectionStage.Queued) batch.old.kind (take called ready.now)
        seats.old batch.new.lines.items seats.new }
    ensures lost { (called : ℕ) → result ≡ Ok (Called.Unserved called) → K.waits persister.old service.old.service persister.new service.new.service ×
        Hears (lost_acts batch.old.kind service.old.stays (whole_lines batch.new.lines.items)) service.old service.new }
    ensures unsent { OnErr result (NoneSent (seats_of S.left S.gone) seats.old seats.new) }
    ensures called { IfOk result (λ called. CallsSome ready.now (count_of called)) }
    ensures rest { IfOk result (λ called. EachIs (λ c. c.stage ≡ ConnectionStage.Idle) (take (count_of called) ready.now) seats.new) }
    ensures room { AreShared shared.new }
{
    let peeked = gather(batch, shared, seats, ready);
    let called = &ready[..peeked];
    batch.holds = any_asks_holders(seats, called);
    match prefetch(&mut service.service, persister, batch)? {
        Prefetch::Known => {
            take_peeked(rt, service, shared, seats, numbers, called);
            persister.persist(&mut service.service)?;
            send_replies(seats, called);
            Ok(Called::Served(peeked))
        }
        Prefetch::Lost => {
            give_up(seats, called);
            note_lost(service, &batch.lines, batch.kind);
            Ok(Called::Unserved(peeked))
        }
    }
}
