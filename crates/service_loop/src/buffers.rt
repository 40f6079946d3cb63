//! A connection without its stream.

ghost use Rattle.std.specs.Prelude.{◌≡◌, ◌&&◌, ◌↔◌, ◌+◌, ◌<◌, ◌≤◌, ◌++◌, true, false, ◌⊎◌, List, [], length, drop, take, Some, IfOk, IfSome, IsTrue};
ghost use Rattle.text_player.specs.Knows.{Knows};
ghost use Rattle.text_player.specs.Runs.{Runs};
ghost use Rattle.text_player.specs.Turns.{Turn};
ghost use Rattle.text_player.specs.declared.form.TheConstants.{TURN_ROOM};
ghost use Rattle.text_lines.specs.Lines.{has_no_lf};
ghost use Rattle.text_lines.specs.declared.held.query.TheConstants.{QUERY_MAX};
ghost use Rattle.service_loop.specs.Asking.{IsPrefixOf, IsQueryOf, IsTakingOf, MayAsk};
ghost use Rattle.service_loop.specs.ConnectionBuffers.{goes_on_in_line, IsFull, AreNewBuffers, Takes, TakesFirst, TakesNoOwn};
ghost use Rattle.service_loop.specs.Waiting.{first_wait, has_room, is_at_line, is_prefix_of, waiting_query, waiting_taking, waits_for_more};

use crate::asking::{before_query, first_query, first_taking, first_wait, is_prefix_of};
use crate::terms::Query;
use model_asked::WorldKind;
use model_steps::{NoMemory, View};
use std::alloc::Allocator;
use std::marker::Model;
use text_player::{AsReplies, Replies, Responder, Service, TURN_ROOM};

/// No more bytes of replies wait to be sent. Where there is no room for one reply more, no line is taken.
pub const UNSENT_ROOM: usize = 65_536;

/// What ends a line.
const LF: u8 = 10;

/// Past so many lines no more are taken, so that their counts stay numbers of 64 bits.
pub const MOST_LINES: u64 = 1 << 63;

/// A connection without its stream: one side of a transcript, what came and is not taken yet, what was said and is not sent yet, whether the end of
/// what comes was taken, and whether it is at fault, by its stream or because an allocation failed.
#[derive(Drop)]
pub struct Buffers<A: Allocator> {
    responder: Responder<A, AsReplies>,
    inbox: Vec<u8, A>,
    outbox: Vec<u8, A>,
    ended: bool,
    broken: bool,
    /// Whether a line was begun and not ended by what was taken last.
    in_line: bool,
}

impl<A: Allocator> Model for Buffers<A> {
    ghost use Rattle.std.specs.Prelude.{◌≤◌, length};
    ghost use Rattle.service_loop.specs.BuffersState.{BuffersState};

    ghost Value = { BuffersState };

    ghost view = { λ w. record {
      responder = w.responder;
      inbox = w.inbox.items;
      outbox = w.outbox.items;
      ended = w.ended;
      broken = w.broken;
      in_line = w.in_line;
    } };

    ghost invariant = { λ w. (length w.inbox.items ≤ 65536) × (length w.outbox.items ≤ 65536) };
}

/// Takes away the first bytes. Where none is left, their room goes back, and nothing is moved.
pub(crate) fn drop_front<A: Allocator>(bytes: &mut Vec<u8, A>, count: usize)
    requires { count ≤ length bytes.old.items }
    ensures { bytes.new.items ≡ drop count bytes.old.items }
{
    if count == bytes.len() {
        bytes.clear();
        bytes.shrink_to_fit();
    } else {
        bytes.drain(..count);
    }
}

impl<A: Allocator + Clone> Buffers<A> {
    /// Nothing came, nothing was said.
    ///
    /// # Errors
    ///
    /// `NoMemory`: an allocation failed.
    pub fn new(alloc: A, kind: WorldKind) -> Result<Buffers<A>, NoMemory>
        ensures { IfOk result (λ buffers. AreNewBuffers kind buffers) }
    {
        let Ok(for_line) = alloc.clone() else {
            return Err(NoMemory);
        };
        let Ok(for_inbox) = alloc.clone() else {
            return Err(NoMemory);
        };
        let responder = Responder::new(for_line, kind)?;
        Ok(Buffers {
            responder,
            inbox: Vec::new(for_inbox),
            outbox: Vec::new(alloc),
            ended: false,
            broken: false,
            in_line: false,
        })
    }
}

impl<A: Allocator> Buffers<A> {
    /// Whether `quit` was answered.
    pub fn is_over(&self) -> bool
        ensures { result ≡ self.now.responder.over }
    {
        self.responder.is_over()
    }

    /// Whether the end of what comes was taken.
    pub fn is_ended(&self) -> bool
        ensures { result ≡ self.now.ended }
    {
        self.ended
    }

    /// Whether it is at fault.
    pub fn is_broken(&self) -> bool
        ensures { result ≡ self.now.broken }
    {
        self.broken
    }

    /// How many lines were taken.
    pub fn lines(&self) -> u64
        ensures { result ≡ self.now.responder.summary.lines }
    {
        self.responder.summary().lines
    }

    /// Whether bytes that came wait to be taken.
    pub fn has_input(&self) -> bool
        ensures some { IsTrue result ↔ (0 < length self.now.inbox) }
        ensures few { length self.now.inbox ≤ UNSENT_ROOM }
    {
        !self.inbox.is_empty()
    }

    /// What waits to be sent.
    pub fn unsent(&self) -> &[u8]
        ensures { result.now ≡ self.now.outbox }
    {
        &self.outbox
    }

    /// What came and is not taken yet.
    pub fn inbox(&self) -> &[u8]
        ensures bytes { result.now ≡ self.now.inbox }
        ensures few { length self.now.inbox ≤ UNSENT_ROOM }
    {
        &self.inbox
    }

    /// Whether one more line may be taken: there is room for a reply to it, and to count it.
    pub fn has_room(&self) -> bool
        ensures room { IsTrue result → length self.now.outbox + TURN_ROOM ≤ UNSENT_ROOM }
        ensures count { IsTrue result → self.now.responder.summary.lines ≤ MOST_LINES }
        ensures full { result ≡ false → IsFull self.now }
        ensures none { self.now.outbox ≡ [] → self.now.responder.summary.lines ≤ MOST_LINES → IsTrue result }
        ensures exact { result ≡ has_room self.now }
    {
        self.outbox.len() <= UNSENT_ROOM - TURN_ROOM && self.responder.summary().lines <= MOST_LINES
    }

    /// Whether nothing waits but the beginning of a line that may ask who holds numbers, or take one: then more of it is to come.
    pub fn waits_for_more(&self) -> bool
        ensures exact { result ≡ waits_for_more self.now }
        ensures none { result ≡ true → 0 < length self.now.inbox → MayAsk self.now.inbox }
        ensures few { result ≡ true → length self.now.inbox ≤ QUERY_MAX }
        ensures line { result ≡ true → has_no_lf self.now.inbox ≡ true }
        ensures most { length self.now.inbox ≤ UNSENT_ROOM }
    {
        self.inbox.is_empty() || self.is_begun()
    }

    // Whether what waits begins with a line, and lines are still answered.
    fn is_at_line(&self) -> bool
        ensures { result ≡ is_at_line self.now }
    {
        !self.in_line && !self.is_over()
    }

    // Whether the beginning of a line waits that may ask who holds numbers, or take one.
    fn is_begun(&self) -> bool
        ensures exact { result ≡ (is_at_line self.now && is_prefix_of self.now.inbox) }
        ensures prefix { result ≡ true → IsPrefixOf self.now.inbox }
    {
        self.is_at_line() && is_prefix_of(&self.inbox)
    }

    /// What is asked by the line that waits first, where that asks who holds numbers or the terms, and how many bytes the line has with its LF.
    pub fn query(&self) -> Option<(Query, usize)>
        ensures exact { result ≡ waiting_query self.now }
        ensures asks { IfSome result (λ r. IsQueryOf self.now.inbox r.0 r.1) }
    {
        if !self.is_at_line() {
            return None;
        }
        first_query(&self.inbox)
    }

    /// For which identity the line that waits first takes a number, where it takes one, and how many bytes the line has with its LF.
    pub fn taking(&self) -> Option<(u64, usize)>
        ensures exact { result ≡ waiting_taking self.now }
        ensures asks { IfSome result (λ r. IsTakingOf self.now.inbox r.0 r.1) }
    {
        if !self.is_at_line() {
            return None;
        }
        first_taking(&self.inbox)
    }

    /// For how many seconds the line that waits first waits for a number; 0 where it takes none, or waits for none.
    pub fn wait(&self) -> u64
        ensures { result ≡ first_wait self.now.inbox }
    {
        first_wait(&self.inbox)
    }

    /// The line that waits first, of so many bytes with its LF, was answered by what these replies are: they wait to be sent. Where memory is
    /// refused it is at fault.
    pub fn answer<B: Allocator>(&mut self, count: usize, replies: &mut Replies<B>)
        requires inside { count ≤ length self.old.inbox }
        requires room { length self.old.outbox + length replies.old ≤ UNSENT_ROOM }
        ensures same { (self.new.responder ≡ self.old.responder) × (self.new.ended ≡ self.old.ended) × (self.new.in_line ≡ self.old.in_line) }
        ensures taken { self.new.inbox ≡ drop count self.old.inbox }
        ensures held { self.new.broken ≡ false → (self.new.outbox ≡ self.old.outbox ++ replies.old) × (self.old.broken ≡ false) }
        ensures empty { replies.new ≡ [] }
    {
        self.hold(replies);
        drop_front(&mut self.inbox, count);
    }

    // How many of the bytes that wait a turn takes: all where no more are to come, or else those before a line that asks who holds numbers, or takes one.
    fn free(&self, last: bool) -> usize
        ensures inside { result ≤ length self.now.inbox }
        ensures asks { result < length self.now.inbox → MayAsk (drop result self.now.inbox) }
        ensures own { last ≡ false → TakesNoOwn self.now (take result self.now.inbox) }
    {
        if last || self.is_over() {
            return self.inbox.len();
        }
        before_query(!self.in_line, &self.inbox)
    }

    // So many of the bytes that waited were taken.
    fn note_taken(&mut self, count: usize)
        requires { count ≤ length self.old.inbox }
        ensures { self.new ≡ record self.old { inbox = drop count self.old.inbox; in_line = goes_on_in_line self.old.in_line (take count self.old.inbox) } }
    {
        if 0 < count {
            self.in_line = self.inbox[count - 1] != LF;
        }
        drop_front(&mut self.inbox, count);
    }

    /// Takes lines of what waits and of these bytes, which came behind it, as long as there is room for one reply more, up to a line that
    /// asks who holds numbers or takes one; where they are the last that come, past that too. The rest waits. Where memory is refused it is at fault. No
    /// line that the server answers by itself is taken, unless they are the last, or `quit` was answered.
    pub fn take<R, D: Service<R>, B: Allocator>(
        &mut self,
        rt: &R,
        service: &mut D,
        view: &mut View,
        bytes: &[u8],
        last: bool,
        replies: &mut Replies<B>,
    )
        requires knows { Knows D.knows self.old.responder.kind }
        requires whole { self.old.broken ≡ false }
        requires few { length self.old.inbox + length bytes.now ≤ 65536 }
        requires count { self.old.responder.summary.lines ≤ MOST_LINES }
        requires empty { replies.old ≡ [] }
        ensures takes { (turns : List Turn) × Runs D.may service.old turns service.new ×
            (takes : Takes turns bytes.now false self.old self.new) × (last ≡ false → TakesNoOwn self.old takes.taken) }
        ensures full { self.new.broken ≡ false → 0 < length self.new.inbox →
            (UNSENT_ROOM < length self.new.outbox + TURN_ROOM) ⊎ MayAsk self.new.inbox }
        ensures empty { replies.new ≡ [] }
    {
        if !self.add(bytes) {
            return;
        }
        let free = self.free(last);
        let most = UNSENT_ROOM - self.outbox.len();
        let taken = self
            .responder
            .take_some(rt, service, view, &self.inbox[..free], most, replies);
        self.hold(replies);
        self.note_taken(taken);
    }

    /// Takes the end of what comes, before which nothing waits to be taken. A line that no LF has ended is not answered: it may be the first part of
    /// another, as of a client that was cut off.
    pub fn finish(&mut self)
        requires { self.old.inbox ≡ [] }
        ensures { Takes [] [] true self.old self.new }
    {
        self.ended = true;
    }

    /// Takes lines of the first bytes of what waits, as long as there is room for one reply more. The rest waits. Where memory is refused
    /// it is at fault.
    pub fn take_first<R, D: Service<R>, B: Allocator>(
        &mut self,
        rt: &R,
        service: &mut D,
        view: &mut View,
        count: usize,
        replies: &mut Replies<B>,
    )
        requires knows { Knows D.knows self.old.responder.kind }
        requires whole { self.old.broken ≡ false }
        requires count { self.old.responder.summary.lines ≤ MOST_LINES }
        requires empty { replies.old ≡ [] }
        ensures takes { (turns : List Turn) × Runs D.may service.old turns service.new × TakesFirst turns count self.old self.new }
        ensures empty { replies.new ≡ [] }
    {
        let most = UNSENT_ROOM - self.outbox.len();
        let few = count.min(self.inbox.len());
        let used = self
            .responder
            .take_some(rt, service, view, &self.inbox[..few], most, replies);
        self.hold(replies);
        self.note_taken(used);
    }

    /// These bytes came, and wait to be taken. Where memory is refused it is at fault.
    pub fn add(&mut self, bytes: &[u8]) -> bool
        requires { length self.old.inbox + length bytes.now ≤ UNSENT_ROOM }
        ensures added { result ≡ true → self.new ≡ record self.old { inbox = self.old.inbox ++ bytes.now } }
        ensures refused { result ≡ false → self.new ≡ record self.old { broken = true } }
    {
        if self.inbox.extend_from_slice(bytes).is_err() {
            self.broken = true;
            return false;
        }
        true
    }

    // Replies wait to be sent.
    fn hold<B: Allocator>(&mut self, replies: &mut Replies<B>)
        requires { length self.old.outbox + length replies.old ≤ UNSENT_ROOM }
        ensures same { (self.new.responder ≡ self.old.responder) × (self.new.inbox ≡ self.old.inbox) ×
            (self.new.ended ≡ self.old.ended) × (self.new.in_line ≡ self.old.in_line) }
        ensures held { self.new.broken ≡ false → (self.new.outbox ≡ self.old.outbox ++ replies.old) × (self.old.broken ≡ false) }
        ensures empty { replies.new ≡ [] }
    {
        if self.outbox.extend_from_slice(replies.as_slice()).is_err() {
            self.broken = true;
        }
        replies.clear();
    }

    /// The first bytes of what waited were sent.
    pub fn was_sent(&mut self, count: usize)
        requires { count ≤ length self.old.outbox }
        ensures { self.new ≡ record self.old { outbox = drop count self.old.outbox } }
    {
        drop_front(&mut self.outbox, count);
    }

    /// It is at fault.
    pub fn fail(&mut self)
        ensures { self.new ≡ record self.old { broken = true } }
    {
        self.broken = true;
    }
}
