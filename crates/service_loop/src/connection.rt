//! A connection: its stream, and what is held of it.

ghost use Rattle.std.specs.Prelude.{◌≡◌, ◌⊎◌, ◌+◌, ◌++◌, ◌≤◌, ◌<◌, true, false, List, [], length, take, drop, is_some, Some, IfOk, IsTrue, ◌↔◌};
ghost use Rattle.std.specs.IoError.{error_kind};
ghost use Rattle.std.specs.declared.io.ErrorKind.TheVariants.{WouldBlock, Interrupted};
ghost use Rattle.std.specs.Io.{ReadsAtMost};
ghost use Rattle.std.specs.Io.KnownBytes.{Appends, ReadConsumes};
ghost use Rattle.model_asked.specs.Requests.{Request};
ghost use Rattle.text_lines.specs.Lines.{has_no_lf, with_ends};
ghost use Rattle.text_player.specs.Runs.{Runs};
ghost use Rattle.text_player.specs.Turns.{Turn};
ghost use Rattle.text_player.specs.declared.form.TheConstants.{TURN_ROOM};
ghost use Rattle.service_loop.specs.SharedBuffers.{AreShared};
ghost use Rattle.service_loop.specs.declared.peek.Peek.{Peek};
ghost use Rattle.service_loop.specs.Reported.{asks_of, at_end_of, bytes_of, holds_of, lines_seen, more_of, requests_seen, IsSameGrant};
ghost use Rattle.text_lines.specs.declared.held.query.TheConstants.{QUERY_MAX};
ghost use Rattle.service_loop.specs.Asking.{none_own, MayAnswer, MayAsk};
ghost use Rattle.service_loop.specs.Queries.{query_text};
ghost use Rattle.service_loop.specs.ConnectionBuffers.{is_done, CanSend, CanTake, HasTakenAll, SomeTaken, Takes, TakesEnd, TakesPeeked, SendsTo};
ghost use Rattle.service_loop.specs.Gathering.{GathersOf};
ghost use Rattle.service_loop.specs.Taking.{MayTakeNumber};
ghost use Rattle.service_loop.specs.TakeQueue.{wish_of};
ghost use Rattle.service_loop.specs.Waiting.{given_up, may_take, taken_for};
ghost use Rattle.service_loop.specs.declared.shared.TheConstants.{READ_ROOM};
ghost use Rattle.service_loop.specs.declared.buffers.TheConstants.{UNSENT_ROOM, MOST_LINES};

use crate::buffers::{Buffers, MOST_LINES, UNSENT_ROOM};
use crate::feed::Feed;
use crate::first_point::FirstPoint;
use crate::manner::Manner;
use crate::peek::{Limits, Peek};
use crate::persist::Persist;
use crate::shared::{READ_ROOM, SharedBuffers};
use crate::stream::Stream;
use crate::take_line::TakeLine;
use crate::taking::{is_crowded, print_taken, take_with_token};
use crate::terms::{Query, Terms, put_answer};
use crate::watch_line::{WatchQuery, end_told};
use model_asked::WorldKind;
use std::alloc::Allocator;
use std::io::{self, ErrorKind};
use text_lines::held::QUERY_MAX;
use text_player::{Service, TURN_ROOM};

/// So many bytes are read at most, behind the beginning of a line that may ask who holds numbers, or take one.
const MOST_READ: usize = READ_ROOM - QUERY_MAX;

/// Where a connection stands in a turn of the loop.
#[derive(Clone, Copy, Debug, Drop, PartialEq, Eq)]
pub enum ConnectionStage {
    /// Nothing is to be done for it.
    Idle,
    /// It has something to take or to send.
    Queued,
    /// Its lines of this turn are taken, and the replies not sent yet.
    Taken,
}

/// A connection.
#[derive(Drop)]
pub struct Connection<S, A: Allocator> {
    pub stream: S,
    pub buffers: Buffers<A>,
    pub stage: ConnectionStage,
    /// Whether a read may give something.
    pub readable: bool,
    /// Whether a write may take something.
    pub writable: bool,
    /// Whether the end of what comes was reported: then a read that gives little need not be the last that gives something.
    pub hung: bool,
    /// The tick at which something last came or went.
    pub since: u64,
    /// What its next turn takes, where the service prefetches the answers before; `None` where it takes what comes.
    pub peek: Option<Peek>,
}

// Reads once into the first so many bytes of a chunk.
fn read_at_most<S: Stream>(stream: &mut S, chunk: &mut [u8], most: usize) -> io::Result<usize>
    requires { (1 ≤ most) × (most ≤ length chunk.old) }
    ensures bound { ReadsAtMost result chunk.new }
    ensures bytes { ReadConsumes (S.left stream.old) (S.left stream.new) result chunk.new }
    ensures same { S.gone stream.new ≡ S.gone stream.old }
    ensures size { length chunk.new ≡ length chunk.old }
    ensures few { IfOk result (λ count. count ≤ most) }
{
    stream.read_some(&mut chunk[..most])
}

// Reads once into the room, at most so many bytes.
fn read_into<S: Stream, B: Allocator>(
    stream: &mut S,
    shared: &mut SharedBuffers<B>,
    most: usize,
) -> io::Result<usize>
    requires room { AreShared shared.old }
    requires most { (1 ≤ most) × (most ≤ READ_ROOM) }
    ensures bound { ReadsAtMost result shared.new.chunk.items }
    ensures bytes { ReadConsumes (S.left stream.old) (S.left stream.new) result shared.new.chunk.items }
    ensures same { S.gone stream.new ≡ S.gone stream.old }
    ensures few { IfOk result (λ count. count ≤ most) }
    ensures room { AreShared shared.new }
{
    read_at_most(stream, &mut shared.chunk, most)
}

// A read or a write did nothing: it may do something once the stream is reported able again, or at once, or else the connection is at fault.
fn note_fault<A: Allocator>(fault: &io::Error, able: &mut bool, buffers: &mut Buffers<A>)
    ensures buffers { buffers.new ≡ record buffers.old { broken = buffers.new.broken } }
    ensures whole { buffers.new.broken ≡ false → buffers.old.broken ≡ false }
    ensures kept { (error_kind fault.now ≡ WouldBlock) ⊎ (error_kind fault.now ≡ Interrupted) → buffers.new ≡ buffers.old }
    ensures rests { error_kind fault.now ≡ WouldBlock → able.new ≡ false }
    ensures able { (error_kind fault.now ≡ WouldBlock → ⊥) → able.new ≡ able.old }
{
    match fault.kind() {
        ErrorKind::WouldBlock => *able = false,
        ErrorKind::Interrupted => {}
        _ => buffers.fail(),
    }
}

impl<S: Stream, A: Allocator> Connection<S, A> {
    /// A connection of which nothing was read.
    pub fn new(stream: S, buffers: Buffers<A>, since: u64) -> Connection<S, A>
        ensures { (result.stream ≡ stream) × (result.buffers ≡ buffers) × (result.stage ≡ ConnectionStage.Idle) }
    {
        Connection {
            stream,
            buffers,
            stage: ConnectionStage::Idle,
            readable: false,
            writable: true,
            hung: false,
            since,
            peek: None,
        }
    }

    /// Whether it is at its end: at fault, or all that came is taken and all replies are sent.
    pub fn is_done(&self) -> bool
        ensures { result ≡ is_done self.now.buffers }
    {
        self.buffers.is_broken() || (self.buffers.is_ended() && self.buffers.unsent().is_empty())
    }

    /// Whether it has something to send, and its stream takes it now.
    pub fn can_send(&self) -> bool
        ensures { IsTrue result ↔ CanSend self.now.writable self.now.buffers }
    {
        self.writable && !self.buffers.unsent().is_empty() && !self.buffers.is_broken()
    }

    /// Whether a turn more would have something to do, with nothing new told of its stream.
    pub fn goes_on(&self) -> bool
        ensures sends { CanSend self.now.writable self.now.buffers → IsTrue result }
        ensures takes { CanTake self.now.buffers → (self.now.readable ≡ true) ⊎ (more_of self.now.peek ≡ true) → IsTrue result }
        ensures only { IsTrue result → CanSend self.now.writable self.now.buffers ⊎ CanTake self.now.buffers }
    {
        let sends = self.writable && !self.buffers.unsent().is_empty();
        let waits = match self.peek {
            Some(peek) => peek.more,
            None => !self.buffers.waits_for_more(),
        };
        let takes = self.may_take() && (waits || self.readable);
        !self.buffers.is_broken() && (sends || takes)
    }

    // Whether more may come and be taken: there is room for a reply.
    fn may_take(&self) -> bool
        ensures may { IsTrue result ↔ CanTake self.now.buffers }
        ensures none { result ≡ false → HasTakenAll self.now.buffers }
        ensures whole { IsTrue result → self.now.buffers.broken ≡ false }
        ensures reply { IsTrue result → length self.now.buffers.outbox + TURN_ROOM ≤ UNSENT_ROOM }
        ensures count { IsTrue result → self.now.buffers.responder.summary.lines ≤ MOST_LINES }
        ensures exact { result ≡ may_take self.now.buffers }
    {
        !self.buffers.is_broken() && !self.buffers.is_ended() && self.buffers.has_room()
    }

    /// Takes its turn, which is due: what waited of its lines, or else what one read gives.
    pub fn take<R, D: Service<R>, B: Allocator>(
        &mut self,
        rt: &R,
        service: &mut D,
        shared: &mut SharedBuffers<B>,
    )
        requires knows { (q : Request) → D.knows q ≡ true }
        requires room { AreShared shared.old }
        ensures takes { SomeTaken D.may service.old service.new (S.left self.old.stream) self.old.buffers (S.left self.new.stream) self.new.buffers }
        ensures all { HasTakenAll self.new.buffers }
        ensures unsent { S.gone self.new.stream ≡ S.gone self.old.stream }
        ensures stage { self.new.stage ≡ ConnectionStage.Taken }
        ensures room { AreShared shared.new }
    {
        self.stage = ConnectionStage::Taken;
        if !self.may_take() {
            return;
        }
        if !self.buffers.waits_for_more() {
            self.buffers.take(
                rt,
                service,
                &mut shared.view,
                &[],
                false,
                &mut shared.replies,
            );
        } else if self.readable {
            self.read(rt, service, shared);
        }
    }

    /// Takes its turn over a service that prefetched its answers before: what was looked at (`gather`), and nothing else.
    pub fn take_peeked<R, D: Service<R>, B: Allocator>(
        &mut self,
        rt: &R,
        service: &mut D,
        shared: &mut SharedBuffers<B>,
    )
        requires knows { (q : Request) → D.knows q ≡ true }
        requires room { AreShared shared.old }
        ensures takes { (turns : List Turn) × Runs D.may service.old turns service.new ×
            TakesPeeked turns self.old.peek (S.left self.old.stream) self.old.buffers (S.left self.new.stream) self.new.buffers }
        ensures unsent { S.gone self.new.stream ≡ S.gone self.old.stream }
        ensures stage { self.new.stage ≡ ConnectionStage.Taken }
        ensures room { AreShared shared.new }
    {
        self.stage = ConnectionStage::Taken;
        let Some(peek) = self.peek else {
            return;
        };
        if !self.may_take() {
            return;
        }
        self.peek = Some(peek.taken());
        self.buffers.take_first(
            rt,
            service,
            &mut shared.view,
            peek.bytes,
            &mut shared.replies,
        );
        if peek.ends && self.may_read() {
            self.take_end(shared);
        }
    }

    // Takes the end, which was read before: a stream that was at its end tells it again. One that gives more is at fault.
    fn take_end<B: Allocator>(&mut self, shared: &mut SharedBuffers<B>)
        requires whole { self.old.buffers.broken ≡ false }
        requires none { self.old.buffers.inbox ≡ [] }
        requires room { AreShared shared.old }
        ensures takes { TakesEnd (S.left self.old.stream) self.old.buffers (S.left self.new.stream) self.new.buffers }
        ensures unsent { S.gone self.new.stream ≡ S.gone self.old.stream }
        ensures stage { self.new.stage ≡ self.old.stage }
        ensures room { AreShared shared.new }
    {
        match read_into(&mut self.stream, shared, READ_ROOM) {
            Ok(0) => self.buffers.finish(),
            Ok(_) => self.buffers.fail(),
            Err(fault) => note_fault(&fault, &mut self.readable, &mut self.buffers),
        }
    }

    // Whether all that came is taken, and more may be.
    fn may_read(&self) -> bool
        ensures whole { IsTrue result → self.now.buffers.broken ≡ false }
        ensures none { IsTrue result → self.now.buffers.inbox ≡ [] }
    {
        self.may_take() && !self.buffers.has_input()
    }

    /// Reads once what came, if there is room, and looks at its lines before they are taken: its requests are added to the batch, as far
    /// as there is room there. Where memory is refused it is at fault, and none of its lines is in the batch. None of the lines that are looked at is one
    /// that the server answers by itself. Where it may take lines and no more is to be looked at, no whole line is left.
    pub fn gather<B: Allocator>(
        &mut self,
        kind: WorldKind,
        most: usize,
        shared: &mut SharedBuffers<B>,
        batch: &mut Vec<u8, B>,
    )
        requires { AreShared shared.old }
        ensures gathers { GathersOf (S.left self.old.stream) self.old.buffers (S.left self.new.stream) self.new.buffers }
        ensures unsent { S.gone self.new.stream ≡ S.gone self.old.stream }
        ensures stage { self.new.stage ≡ self.old.stage }
        ensures reported { batch.new.items ≡ batch.old.items ++ with_ends (requests_seen kind self.new.buffers self.new.peek) }
        ensures asks { asks_of self.new.peek ≡ false → (asks_of self.old.peek ≡ false) × (requests_seen kind self.new.buffers self.new.peek ≡ []) }
        ensures own { none_own (lines_seen self.new.buffers self.new.peek) ≡ true }
        ensures rest { (peek : Peek) → may_take self.old.buffers ≡ true → self.new.buffers.broken ≡ false → self.new.peek ≡ Some peek → peek.more ≡ false →
            has_no_lf (drop peek.bytes self.new.buffers.inbox) ≡ true }
        ensures end { at_end_of self.old.peek ≡ true → at_end_of self.new.peek ≡ true }
        ensures room { AreShared shared.new }
    {
        let peek = match self.peek {
            Some(peek) => peek.nothing(),
            None => Peek::new(),
        };
        self.peek = Some(peek);
        if !self.may_take() {
            return;
        }
        self.gather_bytes(&mut shared.chunk);
        if !self.buffers.is_broken() {
            self.peek_over(kind, most, batch);
        }
    }

    /// Whether a line that was looked at asks who holds numbers.
    pub fn asks_holders(&self) -> bool
        ensures { result ≡ holds_of self.now.peek }
    {
        match self.peek {
            Some(peek) => peek.holds,
            None => false,
        }
    }

    // The end of what comes was read.
    fn note_end(&mut self)
        ensures same { self.new ≡ record self.old { readable = false; peek = self.new.peek } }
        ensures peek { IsSameGrant self.old.peek self.new.peek }
        ensures end { at_end_of self.new.peek ≡ is_some self.old.peek }
    {
        self.readable = false;
        if let Some(peek) = &mut self.peek {
            peek.at_end = true;
        }
    }

    // Looks at what waits.
    fn peek_over<B: Allocator>(&mut self, kind: WorldKind, most: usize, batch: &mut Vec<u8, B>)
        ensures reported { batch.new.items ≡ batch.old.items ++ with_ends (requests_seen kind self.new.buffers self.new.peek) }
        ensures asks { asks_of self.new.peek ≡ false → (asks_of self.old.peek ≡ false) × (requests_seen kind self.new.buffers self.new.peek ≡ []) }
        ensures own { none_own (lines_seen self.new.buffers self.new.peek) ≡ true }
        ensures rest { (peek : Peek) → self.new.buffers.broken ≡ false → self.new.peek ≡ Some peek → peek.more ≡ false →
            has_no_lf (drop peek.bytes self.new.buffers.inbox) ≡ true }
        ensures end { at_end_of self.new.peek ≡ at_end_of self.old.peek }
        ensures buffers { self.new.buffers ≡ record self.old.buffers { broken = self.new.buffers.broken } }
        ensures whole { self.new.buffers.broken ≡ false → self.old.buffers.broken ≡ false }
        ensures stream { self.new.stream ≡ self.old.stream }
        ensures stage { self.new.stage ≡ self.old.stage }
    {
        let Some(seen) = self.peek else {
            return;
        };
        let mut peek = seen;
        let before = batch.len();
        let mut limits = Limits {
            kind,
            most,
            said: self.buffers.unsent().len(),
        };
        if self.buffers.is_over() {
            peek.take_all(self.buffers.inbox());
        } else if peek
            .peek_over(self.buffers.inbox(), &mut limits, batch)
            .is_err()
        {
            batch.truncate(before);
            peek = seen.nothing();
            self.buffers.fail();
        }
        self.peek = Some(peek);
    }

    /// It is at fault, and due: nothing more is sent to it. Returns true if it was idle, and is to be queued.
    pub fn fail(&mut self) -> bool
        ensures buffers { self.new.buffers ≡ record self.old.buffers { broken = true } }
        ensures stream { self.new.stream ≡ self.old.stream }
    {
        self.buffers.fail();
        let is_idle = self.stage == ConnectionStage::Idle;
        if is_idle {
            self.stage = ConnectionStage::Queued;
        }
        is_idle
    }

    /// Its lines went to the persister, if any were, and what they are answered is not known: then it is at fault. It waits for its next turn.
    pub fn give_up(&mut self)
        ensures buffers { self.new.buffers ≡ record self.old.buffers { broken = self.new.buffers.broken } }
        ensures whole { self.new.buffers.broken ≡ false → self.old.buffers.broken ≡ false }
        ensures stream { self.new.stream ≡ self.old.stream }
        ensures reported { asks_of self.old.peek ≡ true → self.new.buffers.broken ≡ true }
        ensures stage { self.new.stage ≡ ConnectionStage.Idle }
    {
        if let Some(peek) = self.peek {
            if peek.asks || peek.holds {
                self.buffers.fail();
            }
            self.peek = Some(peek.untaken());
        }
        self.stage = ConnectionStage::Idle;
    }

    // Reads once what came, if there is room.
    fn gather_bytes(&mut self, chunk: &mut [u8])
        requires whole { self.old.buffers.broken ≡ false }
        requires room { length chunk.old ≡ READ_ROOM }
        ensures gathers { GathersOf (S.left self.old.stream) self.old.buffers (S.left self.new.stream) self.new.buffers }
        ensures unsent { S.gone self.new.stream ≡ S.gone self.old.stream }
        ensures stage { self.new.stage ≡ self.old.stage }
        ensures peek { IsSameGrant self.old.peek self.new.peek }
    {
        let free = READ_ROOM - self.buffers.inbox().len();
        if !self.readable || free == 0 {
            return;
        }
        match self.stream.read_some(&mut chunk[..free]) {
            Ok(0) => self.note_end(),
            Ok(count) => {
                self.readable = self.hung || count == free;
                self.buffers.add(&chunk[..count]);
            }
            Err(fault) => note_fault(&fault, &mut self.readable, &mut self.buffers),
        }
    }

    // Reads once, and takes what that gives. At the end what waits is taken first, and the end is read again in the next turn.
    fn read<R, D: Service<R>, B: Allocator>(
        &mut self,
        rt: &R,
        service: &mut D,
        shared: &mut SharedBuffers<B>,
    )
        requires knows { (q : Request) → D.knows q ≡ true }
        requires whole { self.old.buffers.broken ≡ false }
        requires none { 0 < length self.old.buffers.inbox → MayAsk self.old.buffers.inbox }
        requires few { length self.old.buffers.inbox ≤ QUERY_MAX }
        requires line { has_no_lf self.old.buffers.inbox ≡ true }
        requires reply { length self.old.buffers.outbox + TURN_ROOM ≤ UNSENT_ROOM }
        requires count { self.old.buffers.responder.summary.lines ≤ MOST_LINES }
        requires room { AreShared shared.old }
        ensures takes { SomeTaken D.may service.old service.new (S.left self.old.stream) self.old.buffers (S.left self.new.stream) self.new.buffers }
        ensures all { HasTakenAll self.new.buffers }
        ensures unsent { S.gone self.new.stream ≡ S.gone self.old.stream }
        ensures stage { self.new.stage ≡ self.old.stage }
        ensures room { AreShared shared.new }
    {
        let most = shared.most().min(MOST_READ);
        match read_into(&mut self.stream, shared, most) {
            Ok(0) => self.take_last(rt, service, shared),
            Ok(count) => {
                self.readable = self.hung || count == most;
                self.buffers.take(
                    rt,
                    service,
                    &mut shared.view,
                    &shared.chunk[..count],
                    false,
                    &mut shared.replies,
                );
            }
            Err(fault) => note_fault(&fault, &mut self.readable, &mut self.buffers),
        }
    }

    // The end was read. What waits is taken before it, where anything does.
    fn take_last<R, D: Service<R>, B: Allocator>(
        &mut self,
        rt: &R,
        service: &mut D,
        shared: &mut SharedBuffers<B>,
    )
        requires knows { (q : Request) → D.knows q ≡ true }
        requires whole { self.old.buffers.broken ≡ false }
        requires reply { length self.old.buffers.outbox + TURN_ROOM ≤ UNSENT_ROOM }
        requires count { self.old.buffers.responder.summary.lines ≤ MOST_LINES }
        requires room { AreShared shared.old }
        ensures takes { (turns : List Turn) × Runs D.may service.old turns service.new ×
            (Takes turns [] true self.old.buffers self.new.buffers ⊎ Takes turns [] false self.old.buffers self.new.buffers) }
        ensures all { HasTakenAll self.new.buffers }
        ensures stream { self.new.stream ≡ self.old.stream }
        ensures stage { self.new.stage ≡ self.old.stage }
        ensures room { AreShared shared.new }
    {
        if self.buffers.has_input() {
            self.buffers.take(
                rt,
                service,
                &mut shared.view,
                &[],
                true,
                &mut shared.replies,
            );
        } else {
            self.buffers.finish();
        }
    }

    /// Answers the line that waits first, where that asks who holds numbers, what changes of that, or the terms, and there is room. Who holds numbers the
    /// persister tells: where the service prefetches its answers, only if the line was looked at. Changes are told once there are any.
    pub fn answer<D, K: Persist<D>, B: Allocator>(
        &mut self,
        service: &D,
        persister: &K,
        terms: Terms,
        feed: &Feed,
        first: &FirstPoint,
        shared: &mut SharedBuffers<B>,
    )
        requires room { AreShared shared.old }
        ensures answers { MayAnswer (query_text terms (K.holds persister.now service.now) first.now feed.now) self.old.buffers self.new.buffers }
        ensures stream { self.new.stream ≡ self.old.stream }
        ensures stage { self.new.stage ≡ ConnectionStage.Taken }
        ensures room { AreShared shared.new }
    {
        self.stage = ConnectionStage::Taken;
        if !self.may_take() {
            return;
        }
        if let Some((query, count)) = self.buffers.query() {
            if self.may_ask(query, end_told(feed, first)) {
                put_answer(
                    service,
                    persister,
                    terms,
                    feed,
                    first,
                    query,
                    &mut shared.replies,
                );
                self.buffers.answer(count, &mut shared.replies);
            }
        }
    }

    // Whether a line that asks this may be answered in this turn: who holds numbers only where all is known that was kept before, and changes only where
    // there are any from that point on. They end at this one.
    fn may_ask(&self, query: Query, end: u64) -> bool {
        match (self.peek, query) {
            (Some(peek), Query::Holders(_)) => peek.holds,
            (_, Query::Changes(WatchQuery::From(point))) => self.hung || point != end,
            _ => true,
        }
    }

    /// Whether the line that waits first asks for changes from their end on, so that it is answered once there are any.
    pub fn watches(&self, end: u64) -> bool {
        match self.buffers.query() {
            Some((Query::Changes(query), _)) => !self.may_ask(Query::Changes(query), end),
            _ => false,
        }
    }

    /// For which identity the line that waits first takes a number, where it takes one and there is room for the answer.
    pub fn taking(&self) -> Option<u64>
        ensures { result ≡ taken_for self.now.buffers }
    {
        if !self.may_take() {
            return None;
        }
        match self.buffers.taking() {
            Some((identity, _)) => Some(identity),
            None => None,
        }
    }

    /// For whom it takes a number, where the line that waits first takes one and there is room for the answer, and for how many seconds it waits: for
    /// none, where the end of what comes was told.
    pub fn wish(&self) -> Option<TakeLine>
        ensures { result ≡ wish_of (Some self.now) }
    {
        let identity = self.taking()?;
        let seconds = if self.hung { 0 } else { self.buffers.wait() };
        Some(TakeLine { identity, seconds })
    }

    /// Where it takes a number, the lines of that went to the persister, and what they are answered is not known: then it is at fault.
    pub fn give_up_taking(&mut self)
        ensures { self.new ≡ record self.old { buffers = given_up self.old.buffers } }
    {
        if self.taking().is_some() {
            self.buffers.fail();
        }
    }

    /// Takes a number, where the line that waits first takes one and there is room for the answer: by events of the service, one after another, of
    /// which the last reply is the answer, and where tokens are given the token stands behind it (`take_with_token`). Where those who are called are patient,
    /// one that waits for seconds and is refused since all are held waits on.
    pub fn take_number<R, D: Service<R>, B: Allocator>(
        &mut self,
        rt: &R,
        service: &mut D,
        shared: &mut SharedBuffers<B>,
        manner: Manner,
        ahead: bool,
    )
        requires knows { (q : Request) → D.knows q ≡ true }
        requires room { AreShared shared.old }
        ensures takes { (turns : List Turn) × Runs D.may service.old turns service.new ×
            MayTakeNumber manner ahead shared.old.patient turns self.old.buffers self.new.buffers }
        ensures stream { self.new.stream ≡ self.old.stream }
        ensures stage { self.new.stage ≡ ConnectionStage.Taken }
        ensures room { AreShared shared.new }
        ensures patient { shared.new.patient ≡ shared.old.patient }
    {
        self.stage = ConnectionStage::Taken;
        if !self.may_take() {
            return;
        }
        if let Some((identity, count)) = self.buffers.taking() {
            let taken = take_with_token(rt, service, &mut shared.view, identity, manner, ahead);
            if shared.patient && 0 < self.buffers.wait() && is_crowded(&taken.answer) {
                return;
            }
            print_taken(taken, &shared.view, &mut shared.replies);
            self.buffers.answer(count, &mut shared.replies);
        }
    }

    /// Sends what waits, where it has taken its turn, as far as its stream takes it now.
    pub fn send(&mut self)
        ensures sends { SendsTo (S.gone self.old.stream) self.old.buffers (S.gone self.new.stream) self.new.buffers }
        ensures unread { S.left self.new.stream ≡ S.left self.old.stream }
        ensures stage { self.new.stage ≡ ConnectionStage.Idle }
    {
        self.stage = ConnectionStage::Idle;
        let mut at = 0;
        while self.writable && !self.buffers.is_broken() && at < self.buffers.unsent().len() {
            let count = self.write(at);
            if count == 0 {
                break;
            }
            at += count;
        }
        self.buffers.was_sent(at);
    }

    // Writes once, what waits from there on, and says how many bytes of it were taken; none where it takes no more now.
    fn write(&mut self, from: usize) -> usize
        requires { from ≤ length self.old.buffers.outbox }
        ensures taken { from + result ≤ length self.old.buffers.outbox }
        ensures gained { Appends (S.gone self.old.stream) (S.gone self.new.stream) (take result (drop from self.old.buffers.outbox)) }
        ensures unread { S.left self.new.stream ≡ S.left self.old.stream }
        ensures buffers { self.new.buffers ≡ record self.old.buffers { broken = self.new.buffers.broken } }
        ensures whole { self.new.buffers.broken ≡ false → self.old.buffers.broken ≡ false }
        ensures stage { self.new.stage ≡ self.old.stage }
    {
        match self.stream.write_some(&self.buffers.unsent()[from..]) {
            Ok(0) => {
                self.buffers.fail();
                0
            }
            Ok(count) => count,
            Err(fault) => {
                note_fault(&fault, &mut self.writable, &mut self.buffers);
                0
            }
        }
    }
}
