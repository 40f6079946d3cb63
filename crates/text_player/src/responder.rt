//! One side of a transcript: it takes bytes, makes requests of a service that others may share, and appends replies to
//! a buffer.

ghost use Rattle.std.specs.Prelude.{◌≡◌, true, ◌+◌, ◌^◌, ◌<◌, ◌≤◌, length, take, IfOk, Ok};
ghost use Rattle.model_asked.specs.Replies.{ShownReply, with_view};
ghost use Rattle.model_asked.specs.Requests.Request.{Take, OwnerOf};
ghost use Rattle.text_lines.specs.Events.{event_words};
ghost use Rattle.text_lines.specs.declared.replies.TheConstants.{HELD_REPLIES};
ghost use Rattle.text_player.specs.Knows.{Knows, KnowsMeant};
ghost use Rattle.text_player.specs.Progress.{after_meaning, after_line, after_bytes, after_end};
ghost use Rattle.text_player.specs.Says.{Says, SaysFrom, GoingOn, Afresh, IsHeld, IsSilent, TakesLine};
ghost use Rattle.text_player.specs.Turns.Turn.{Answered, Reported, Ended, Misread};
ghost use Rattle.text_player.specs.declared.form.TheConstants.{TURN_ROOM};

use crate::form::{Form, TURN_ROOM};
use crate::service::Service;
use crate::summary::Summary;
use memchr::memchr;
use model_asked::{Bad, Command, Event, Reply, WorldKind};
use model_steps::{NoMemory, View};
use std::alloc::Allocator;
use std::marker::{Model, PhantomData};
use text_lines::{EVENT_ROOM, HELD_REPLIES, LineBuffer, Replies, parse_line, quick_command};

/// The byte that ends a line.
const LF: u8 = 10;

/// One side of a transcript under way: the kind of world, the line so far, the counts, and whether `quit` was answered.
///
/// It takes some 200 bytes, so that a server can have one for each connection. Its replies go to a buffer that the
/// caller lends.
#[derive(Drop)]
pub struct Responder<A: Allocator, F: Form> {
    kind: WorldKind,
    line: LineBuffer<A>,
    summary: Summary,
    over: bool,
    form: PhantomData<F>,
}

impl<A: Allocator, F: Form> Model for Responder<A, F> {
    ghost use Rattle.text_player.specs.ResponderState.{ResponderState};

    ghost Value = { ResponderState };

    ghost view = { λ t. record { kind = t.kind; line = t.line; summary = t.summary; over = t.over } };
}

impl<A: Allocator, F: Form> Responder<A, F> {
    /// Makes a transcript without a turn. Later calls allocate only what the service allocates.
    ///
    /// # Errors
    ///
    /// `NoMemory`: the allocation of room for a line failed.
    pub fn new(alloc: A, kind: WorldKind) -> Result<Responder<A, F>, NoMemory>
        ensures { IfOk result (λ responder. IsSilent kind responder) }
    {
        let line = LineBuffer::new(alloc)?;
        Ok(Responder {
            kind,
            line,
            summary: Summary::new(),
            over: false,
            form: PhantomData,
        })
    }

    /// Returns the counts so far.
    pub fn summary(&self) -> Summary
        ensures { result ≡ self.now.summary }
    {
        self.summary
    }

    /// Returns true if and only if `quit` was answered.
    pub fn is_over(&self) -> bool
        ensures { result ≡ self.now.over }
    {
        self.over
    }

    /// Counts the reply to an event, and appends the text of both. A reply that shows a view shows `view`.
    #[inline(always)]
    fn hold_answered<B: Allocator>(
        &mut self,
        event: Event,
        reply: Reply<()>,
        view: &View,
        out: &mut Replies<B>,
    )
        requires room { length out.old + TURN_ROOM ≤ HELD_REPLIES }
        requires count { self.old.summary.lines + 1 < 2 ^ 64 }
        ensures held { IsHeld F.text self.old out.old (Answered (record { event = event; reply = with_view reply view.now })) self.new out.new }
        ensures longer { length out.new ≤ length out.old + TURN_ROOM }
    {
        F::put_answered(event, reply, view, out);
        self.summary.count_reply(reply);
    }

    /// Does what `hold_answered` does, for the event that this line asks for.
    #[inline(always)]
    fn hold_asked<B: Allocator>(
        &mut self,
        line: &[u8],
        event: Event,
        reply: Reply<()>,
        view: &View,
        out: &mut Replies<B>,
    )
        requires room { length out.old + TURN_ROOM ≤ HELD_REPLIES }
        requires line { line.now ≡ event_words event }
        requires few { length line.now ≤ EVENT_ROOM }
        requires count { self.old.summary.lines + 1 < 2 ^ 64 }
        ensures held { IsHeld F.text self.old out.old (Answered (record { event = event; reply = with_view reply view.now })) self.new out.new }
        ensures longer { length out.new ≤ length out.old + TURN_ROOM }
    {
        F::put_asked(line, event, reply, view, out);
        self.summary.count_reply(reply);
    }

    /// Counts the reply to a question for the owner of name `n`, and appends its text.
    #[inline(always)]
    fn hold_reported<B: Allocator>(
        &mut self,
        n: u64,
        reply: Reply<()>,
        view: &View,
        out: &mut Replies<B>,
    )
        requires room { length out.old + TURN_ROOM ≤ HELD_REPLIES }
        requires count { self.old.summary.lines + 1 < 2 ^ 64 }
        ensures held { IsHeld F.text self.old out.old (Reported n (with_view reply view.now)) self.new out.new }
        ensures longer { length out.new ≤ length out.old + TURN_ROOM }
    {
        F::put_reported(n, reply, view, out);
        self.summary.count_reply(reply);
    }

    /// Counts `quit`, and appends its text.
    fn hold_ended<B: Allocator>(&mut self, out: &mut Replies<B>)
        requires room { length out.old + TURN_ROOM ≤ HELD_REPLIES }
        requires count { self.old.summary.lines + 1 < 2 ^ 64 }
        ensures held { IsHeld F.text self.old out.old Ended self.new out.new }
        ensures longer { length out.new ≤ length out.old + TURN_ROOM }
    {
        F::put_ended(out);
        self.summary.count_reply(Reply::Ok);
    }

    /// Counts a bad line, and appends its text.
    fn hold_misread<B: Allocator>(&mut self, bad: Bad, out: &mut Replies<B>)
        requires room { length out.old + TURN_ROOM ≤ HELD_REPLIES }
        requires count { self.old.summary.lines + 1 < 2 ^ 64 }
        ensures held { IsHeld F.text self.old out.old (Misread bad) self.new out.new }
        ensures longer { length out.new ≤ length out.old + TURN_ROOM }
    {
        F::put_misread(bad, out);
        self.summary.count_bad(bad);
    }

    /// Asks the service for the owner of name `n`, counts the reply, and appends its text. It is a function of its own,
    /// since a whole reply takes a kilobyte.
    #[inline(never)]
    fn tell_owner<R, D: Service<R>, B: Allocator>(
        &mut self,
        rt: &R,
        service: &mut D,
        n: u64,
        view: &mut View,
        out: &mut Replies<B>,
    )
        requires knows { D.knows (OwnerOf n) ≡ true }
        requires room { length out.old + TURN_ROOM ≤ HELD_REPLIES }
        requires count { self.old.summary.lines + 1 < 2 ^ 64 }
        ensures reported { (reply : ShownReply) × D.may service.old (OwnerOf n) reply service.new ×
            IsHeld F.text self.old out.old (Reported n reply) self.new out.new }
        ensures longer { length out.new ≤ length out.old + TURN_ROOM }
    {
        let reply = service.owner(rt, n).shorten(view);
        self.hold_reported(n, reply, view, out);
    }

    /// Answers what a line means, counts the answer, and appends the text of both. `quit` ends the transcript.
    #[inline(always)]
    fn answer<R, D: Service<R>, B: Allocator>(
        &mut self,
        rt: &R,
        service: &mut D,
        view: &mut View,
        meaning: Result<Command, Bad>,
        out: &mut Replies<B>,
    )
        requires knows { KnowsMeant D.knows meaning }
        requires room { length out.old + TURN_ROOM ≤ HELD_REPLIES }
        requires count { self.old.summary.lines + 1 < 2 ^ 64 }
        ensures says { SaysFrom D.may F.text Afresh service.old self.old out.old service.new self.new out.new (λ p. after_meaning p meaning) }
        ensures kept { self.new.kind ≡ self.old.kind }
        ensures longer { length out.new ≤ length out.old + TURN_ROOM }
        ensures counted { self.new.summary.lines ≡ self.old.summary.lines + 1 }
    {
        match meaning {
            Ok(Command::Event(event)) => {
                let reply = service.apply(rt, event, view);
                self.hold_answered(event, reply, view, out);
            }
            Ok(Command::Owner(n)) => self.tell_owner(rt, service, n, view, out),
            Ok(Command::Quit) => {
                self.over = true;
                self.hold_ended(out);
            }
            Err(bad) => self.hold_misread(bad, out),
        }
    }

    /// Answers the event that this line asks for, counts the reply, and appends the text of both.
    #[inline(always)]
    fn answer_event<R, D: Service<R>, B: Allocator>(
        &mut self,
        rt: &R,
        service: &mut D,
        view: &mut View,
        line: &[u8],
        event: Event,
        out: &mut Replies<B>,
    )
        requires knows { D.knows (Take event) ≡ true }
        requires room { length out.old + TURN_ROOM ≤ HELD_REPLIES }
        requires line { line.now ≡ event_words event }
        requires few { length line.now ≤ EVENT_ROOM }
        requires count { self.old.summary.lines + 1 < 2 ^ 64 }
        ensures says { SaysFrom D.may F.text Afresh service.old self.old out.old service.new self.new out.new
            (λ p. after_meaning p (Ok (Command.Event event))) }
        ensures kept { self.new.kind ≡ self.old.kind }
        ensures longer { length out.new ≤ length out.old + TURN_ROOM }
        ensures counted { self.new.summary.lines ≡ self.old.summary.lines + 1 }
    {
        let reply = service.apply(rt, event, view);
        self.hold_asked(line, event, reply, view, out);
    }

    /// Answers the line so far, which is whole, and starts the next.
    fn answer_line<R, D: Service<R>, B: Allocator>(
        &mut self,
        rt: &R,
        service: &mut D,
        view: &mut View,
        out: &mut Replies<B>,
    )
        requires knows { Knows D.knows self.old.kind }
        requires room { length out.old + TURN_ROOM ≤ HELD_REPLIES }
        requires count { self.old.summary.lines + 1 < 2 ^ 64 }
        ensures says { SaysFrom D.may F.text GoingOn service.old self.old out.old service.new self.new out.new (after_line self.old.kind) }
        ensures kept { self.new.kind ≡ self.old.kind }
        ensures longer { length out.new ≤ length out.old + TURN_ROOM }
        ensures counted { self.new.summary.lines ≡ self.old.summary.lines + 1 }
    {
        let meaning = self.line.meaning(self.kind);
        self.line.clear();
        self.answer(rt, service, view, meaning, out);
    }

    /// Takes the first line of these bytes with its LF, or all of them if none ends. Returns how many bytes it took.
    ///
    /// It appends the answer of the service, at most `TURN_ROOM` bytes, to `out`. After `quit` it answers nothing.
    #[inline(never)]
    pub fn take<R, D: Service<R>, B: Allocator>(
        &mut self,
        rt: &R,
        service: &mut D,
        view: &mut View,
        bytes: &[u8],
        out: &mut Replies<B>,
    ) -> usize
        requires knows { Knows D.knows self.old.kind }
        requires room { length out.old + TURN_ROOM ≤ HELD_REPLIES }
        requires count { self.old.summary.lines + 1 < 2 ^ 64 }
        requires some { 0 < length bytes.now }
        ensures line { TakesLine self.old out.old bytes.now self.new out.new result }
        ensures says { Says D.may F.text service.old self.old out.old service.new self.new out.new (λ p. after_bytes self.old.kind p (take result bytes.now)) }
    {
        if self.over {
            return bytes.len();
        }
        if self.line.is_empty() {
            if let Some((Command::Event(event), end)) = quick_command(bytes, self.kind, LF) {
                self.answer_event(rt, service, view, &bytes[..end], event, out);
                return end + 1;
            }
        }
        self.take_slowly(rt, service, view, bytes, out)
    }

    /// Takes lines of these bytes while `out`, with `TURN_ROOM` bytes more, stays within `most` bytes. Returns how many
    /// bytes it took.
    ///
    /// It leaves bytes only if `out` has no room for one more turn. The next call takes the bytes from there on.
    pub fn take_some<R, D: Service<R>, B: Allocator>(
        &mut self,
        rt: &R,
        service: &mut D,
        view: &mut View,
        bytes: &[u8],
        most: usize,
        out: &mut Replies<B>,
    ) -> usize
        requires knows { Knows D.knows self.old.kind }
        requires most { most ≤ HELD_REPLIES }
        requires count { self.old.summary.lines + length bytes.now < 2 ^ 64 }
        ensures taken { result ≤ length bytes.now }
        ensures says { Says D.may F.text service.old self.old out.old service.new self.new out.new (λ p. after_bytes self.old.kind p (take result bytes.now)) }
        ensures kept { self.new.kind ≡ self.old.kind }
        ensures within { length out.old ≤ most → length out.new ≤ most }
        ensures full { result < length bytes.now → most < length out.new + TURN_ROOM }
        ensures counted { self.new.summary.lines ≤ self.old.summary.lines + result }
    {
        let mut at = 0;
        while at < bytes.len() && TURN_ROOM <= most && out.len() <= most - TURN_ROOM {
            at += self.take(rt, service, view, &bytes[at..], out);
        }
        at
    }

    /// Does what `take` does for any line, while the transcript goes on. A line that is whole in these bytes is not
    /// copied.
    #[inline(never)]
    fn take_slowly<R, D: Service<R>, B: Allocator>(
        &mut self,
        rt: &R,
        service: &mut D,
        view: &mut View,
        bytes: &[u8],
        out: &mut Replies<B>,
    ) -> usize
        requires knows { Knows D.knows self.old.kind }
        requires room { length out.old + TURN_ROOM ≤ HELD_REPLIES }
        requires count { self.old.summary.lines + 1 < 2 ^ 64 }
        requires some { 0 < length bytes.now }
        ensures line { TakesLine self.old out.old bytes.now self.new out.new result }
        ensures says { SaysFrom D.may F.text GoingOn service.old self.old out.old service.new self.new out.new
            (λ p. after_bytes self.old.kind p (take result bytes.now)) }
    {
        let Some(end) = memchr(LF, bytes) else {
            self.line.extend(bytes);
            return bytes.len();
        };
        if self.line.is_empty() {
            let meaning = parse_line(&bytes[..end], self.kind);
            self.answer(rt, service, view, meaning, out);
            return end + 1;
        }
        self.line.extend(&bytes[..end]);
        self.answer_line(rt, service, view, out);
        end + 1
    }

    /// Takes the end of the input. Bytes after the last LF are a line too.
    pub fn finish<R, D: Service<R>, B: Allocator>(
        &mut self,
        rt: &R,
        service: &mut D,
        view: &mut View,
        out: &mut Replies<B>,
    )
        requires knows { Knows D.knows self.old.kind }
        requires room { length out.old + TURN_ROOM ≤ HELD_REPLIES }
        requires count { self.old.summary.lines + 1 < 2 ^ 64 }
        ensures says { Says D.may F.text service.old self.old out.old service.new self.new out.new (after_end self.old.kind) }
        ensures kept { self.new.kind ≡ self.old.kind }
        ensures longer { length out.new ≤ length out.old + TURN_ROOM }
    {
        if !self.over && !self.line.is_empty() {
            self.answer_line(rt, service, view, out);
        }
    }
}
