//! What is seen of a connection's lines before its turn takes them.

ghost use Rattle.std.specs.Prelude.{◌≡◌, ◌++◌, ◌≤◌, ◌-◌, ◌↔◌, ◌&&◌, not, List, ℕ, true, false, [], ◌∷◌, length, take, drop, IfOk, IsTrue};
ghost use Rattle.text_lines.specs.Lines.{has_no_lf, whole_lines, with_ends};
ghost use Rattle.service_loop.specs.Asking.{is_own, none_own};
ghost use Rattle.service_loop.specs.declared.peek.TheConstants.{REQUEST_ROOM};
ghost use Rattle.service_loop.specs.Reported.{requests, behind, requests_in, takes_any, HasPeeked};

use crate::asking::is_own;
use crate::buffers::UNSENT_ROOM;
use memchr::memchr;
use model_asked::{Command, Event, WorldKind};
use std::alloc::{AllocError, Allocator};
use text_lines::held::held_query;
use text_player::{REPLY_ROOM, TURN_ROOM, parse_line};

/// What ends a line.
const LF: u8 = 10;

/// No reply has more bytes where it shows no view: a word of at most 9 letters, a space, a number of at most 20 digits, and LF.
const SHORT_REPLY: usize = 40;

/// No line of a request has more bytes, its LF included.
const REQUEST_ROOM: usize = 101;

/// Where so many bytes wait and no line ends in them, they are taken as the prefix of one that is too long.
const MOST_WAITING: usize = 65_536;

/// What the next turn of a connection takes, where the service prefetches the answers before.
#[derive(Clone, Copy, Debug, Drop, PartialEq, Eq)]
pub struct Peek {
    /// How many bytes of what waits it takes.
    pub bytes: usize,
    /// Whether it takes the end of what comes.
    pub ends: bool,
    /// Whether lines of it go to the persister.
    pub asks: bool,
    /// Whether more than it takes could be taken, if there were room.
    pub more: bool,
    /// Whether the end of what comes was read.
    pub at_end: bool,
    /// Whether a line that is longer than any request was begun before what waits.
    pub long: bool,
    /// Whether such a line goes on behind what it takes.
    pub goes_on: bool,
    /// Whether the line that waits first asks who holds numbers, and is to be answered in this turn.
    pub holds: bool,
}

/// What a turn takes of a line.
enum Sight {
    /// A request, whose reply has at most so many bytes.
    Request(usize),
    /// A line that asks for nothing.
    Nothing,
    /// The end of the transcript.
    Quit,
}

// What a turn takes of a line, or of the end of a longer one.
fn peek_at(long: bool, line: &[u8], kind: WorldKind) -> Sight
    ensures request { (room : ℕ) → result ≡ Sight.Request room → requests kind (behind long (line.now ∷ [])) ≡ line.now ∷ [] }
    ensures nothing { result ≡ Sight.Nothing → requests kind (behind long (line.now ∷ [])) ≡ [] }
    ensures quit { result ≡ Sight.Quit → requests kind (behind long (line.now ∷ [])) ≡ [] }
{
    if long {
        return Sight::Nothing;
    }
    match parse_line(line, kind) {
        Ok(Command::Quit) => Sight::Quit,
        Ok(Command::Event(Event::Step(_))) => Sight::Request(REPLY_ROOM),
        Ok(_) => Sight::Request(SHORT_REPLY),
        Err(_) => Sight::Nothing,
    }
}

/// How much room there is for what a turn takes: bytes of the batch, and bytes of replies.
#[derive(Clone, Copy, Debug, Drop)]
pub struct Limits {
    /// The world whose commands are spoken.
    pub kind: WorldKind,
    /// How many bytes of lines go to the persister at most.
    pub most: usize,
    /// How many bytes wait to be sent.
    pub said: usize,
}

/// Whether there is room for one line more in a batch of so many bytes at most.
pub fn has_room<B: Allocator>(most: usize, batch: &Vec<u8, B>) -> bool
    ensures first { batch.now.items ≡ [] → IsTrue result }
    ensures room { IsTrue result ↔ (length batch.now.items ≤ most - REQUEST_ROOM) }
{
    batch.len() <= most.saturating_sub(REQUEST_ROOM)
}

// A line is added to a batch, with its LF.
fn add_line<B: Allocator>(line: &[u8], batch: &mut Vec<u8, B>) -> Result<(), AllocError>
    ensures added { IfOk result (λ done. batch.new.items ≡ batch.old.items ++ with_ends (line.now ∷ [])) }
    ensures kept { (more : List ℕ) × (batch.new.items ≡ batch.old.items ++ more) }
{
    batch.extend_from_slice(line)?;
    batch.push(LF)?;
    Ok(())
}

impl Limits {
    // Whether there is room for one line more, and for the reply to it.
    fn have_room<B: Allocator>(&self, batch: &Vec<u8, B>) -> bool {
        self.said <= UNSENT_ROOM - TURN_ROOM && has_room(self.most, batch)
    }
}

impl Peek {
    /// Nothing was read or looked at.
    pub fn new() -> Peek
        ensures { (result.bytes ≡ 0) × (result.ends ≡ false) × (result.asks ≡ false) × (result.at_end ≡ false) }
    {
        Peek {
            bytes: 0,
            ends: false,
            asks: false,
            more: false,
            at_end: false,
            long: false,
            goes_on: false,
            holds: false,
        }
    }

    /// Nothing of what waits is taken in the next turn.
    pub fn nothing(self) -> Peek
        ensures { result ≡ record self { bytes = 0; ends = false; goes_on = self.long; holds = false } }
    {
        Peek {
            bytes: 0,
            ends: false,
            goes_on: self.long,
            holds: false,
            ..self
        }
    }

    /// What it was to take was taken.
    pub fn taken(self) -> Peek
        ensures { result ≡ record self { bytes = 0; ends = false; asks = false; long = self.goes_on; goes_on = self.long } }
    {
        Peek {
            asks: false,
            long: self.goes_on,
            holds: self.holds,
            ..self.nothing()
        }
    }

    /// What it was to take was not taken, and is to be looked at again.
    pub fn untaken(self) -> Peek
        ensures { result ≡ record self { bytes = 0; ends = false; asks = false; goes_on = self.long; holds = false; more = takes_any self } }
    {
        Peek {
            asks: false,
            more: self.more || self.ends || 0 < self.bytes,
            ..self.nothing()
        }
    }

    /// Looks at what waits, as far as there is room, and up to a line that the server answers by itself: the next turn takes its whole lines, and the
    /// requests of those are added to the batch. What no LF ends asks for nothing, at the end of what comes neither. None of the lines is one that the
    /// server answers by itself. Where `more` is not set, no whole line is left.
    ///
    /// # Errors
    ///
    /// `AllocError`: the batch could not grow. It has a part of the requests.
    pub fn peek_over<B: Allocator>(
        &mut self,
        bytes: &[u8],
        limits: &mut Limits,
        batch: &mut Vec<u8, B>,
    ) -> Result<(), AllocError>
        ensures reported { IfOk result (λ done.
            batch.new.items ≡ batch.old.items ++ with_ends (requests_in limits.old.kind self.old.long (take self.new.bytes bytes.now))) }
        ensures asks { IfOk result (λ done. self.new.asks ≡ false →
            (self.old.asks ≡ false) × (requests_in limits.old.kind self.old.long (take self.new.bytes bytes.now) ≡ [])) }
        ensures own { IfOk result (λ done. none_own (behind self.old.long (whole_lines (take self.new.bytes bytes.now))) ≡ true) }
        ensures rest { IfOk result (λ done. self.new.more ≡ false → has_no_lf (drop self.new.bytes bytes.now) ≡ true) }
        ensures end { self.new.at_end ≡ self.old.at_end }
        ensures long { self.new.long ≡ self.old.long }
        ensures kept { (more : List ℕ) × (batch.new.items ≡ batch.old.items ++ more) }
    {
        *self = self.nothing();
        if !self.peek_lines(bytes, limits, batch)? {
            self.more = true;
            return Ok(());
        }
        self.more = false;
        let ends = self.at_end;
        if ends || (MOST_WAITING <= bytes.len() && self.bytes == 0) {
            self.bytes = bytes.len();
            self.goes_on = true;
            self.ends = ends;
        }
        Ok(())
    }

    /// Whatever waits is taken in the next turn, and asks for nothing, as it does once `quit` was answered.
    pub fn take_all(&mut self, bytes: &[u8])
        ensures same { (self.new.asks ≡ self.old.asks) × (self.new.long ≡ self.old.long) × (self.new.at_end ≡ self.old.at_end) }
        ensures taken { (self.new.bytes ≡ length bytes.now) × (self.new.ends ≡ self.old.at_end) × (self.new.more ≡ false) }
    {
        self.bytes = bytes.len();
        self.ends = self.at_end;
        self.more = false;
    }

    // Looks at the whole lines, and says whether there was room for each, and for one more.
    fn peek_lines<B: Allocator>(
        &mut self,
        bytes: &[u8],
        limits: &mut Limits,
        batch: &mut Vec<u8, B>,
    ) -> Result<bool, AllocError>
        requires { (self.old.bytes ≡ 0) × (self.old.goes_on ≡ self.old.long) }
        ensures peeked { IfOk result (λ whole. HasPeeked limits.old.kind self.old.long self.old.asks batch.old.items bytes.now
            self.new.bytes self.new.goes_on self.new.asks batch.new.items) }
        ensures none { result ≡ Ok true → has_no_lf (drop self.new.bytes bytes.now) ≡ true }
        ensures rest { self.new ≡ record self.old { bytes = self.new.bytes; asks = self.new.asks; goes_on = self.new.goes_on; holds = self.new.holds } }
        ensures limits { limits.new ≡ record limits.old { said = limits.new.said } }
        ensures kept { (more : List ℕ) × (batch.new.items ≡ batch.old.items ++ more) }
    {
        while limits.have_room(batch) {
            let rest = &bytes[self.bytes..];
            let Some(end) = memchr(LF, rest) else {
                return Ok(true);
            };
            if self.stops_at(&rest[..end]) {
                self.holds = self.bytes == 0 && held_query(&rest[..end]).is_some();
                return Ok(false);
            }
            self.bytes += end + 1;
            if !self.take_line(&rest[..end], limits, batch)? {
                return Ok(false);
            }
        }
        Ok(false)
    }

    // Whether a line that stands next is one that the server answers by itself, and not the end of a longer one.
    fn stops_at(&self, line: &[u8]) -> bool
        ensures { result ≡ (not self.now.goes_on && is_own line.now) }
    {
        !self.goes_on && is_own(line)
    }

    // One line more is taken: a request is added to the batch. Says whether to look on.
    fn take_line<B: Allocator>(
        &mut self,
        line: &[u8],
        limits: &mut Limits,
        batch: &mut Vec<u8, B>,
    ) -> Result<bool, AllocError>
        ensures reported { IfOk result (λ on.
            batch.new.items ≡ batch.old.items ++ with_ends (requests limits.old.kind (behind self.old.goes_on (line.now ∷ [])))) }
        ensures asks { IfOk result (λ on. self.new.asks ≡ false →
            (self.old.asks ≡ false) × (requests limits.old.kind (behind self.old.goes_on (line.now ∷ [])) ≡ [])) }
        ensures rest { self.new ≡ record self.old { asks = self.new.asks; goes_on = false } }
        ensures limits { limits.new ≡ record limits.old { said = limits.new.said } }
        ensures kept { (more : List ℕ) × (batch.new.items ≡ batch.old.items ++ more) }
    {
        let sight = peek_at(self.goes_on, line, limits.kind);
        self.goes_on = false;
        match sight {
            Sight::Request(reply) => {
                add_line(line, batch)?;
                self.asks = true;
                limits.said = limits.said.saturating_add(reply);
                Ok(true)
            }
            Sight::Nothing => {
                limits.said = limits.said.saturating_add(SHORT_REPLY);
                Ok(true)
            }
            Sight::Quit => Ok(false),
        }
    }
}
