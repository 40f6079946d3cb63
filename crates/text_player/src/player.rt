//! A run under way: bytes in, replies out.

ghost use Rattle.std.specs.Prelude.{◌≡◌, ◌+◌, ◌*◌, ◌^◌, ◌<◌, ◌≤◌, [], length, take, IfOk, IfErr, OnOk, OnErr};
ghost use Rattle.text_lines.specs.Written.{HasPartOf};
ghost use Rattle.text_lines.specs.declared.replies.TheConstants.{HELD_REPLIES};
ghost use Rattle.text_player.specs.Knows.{Knows};
ghost use Rattle.text_player.specs.Progress.{after_bytes, after_end};
ghost use Rattle.text_player.specs.Stands.{Advances, AdvancesWriting, AdvancesInPart, IsFresh, IsSent};
ghost use Rattle.text_player.specs.Records.{header_line};
ghost use Rattle.std.specs.Io.KnownBytes.{Appends};
ghost use Rattle.text_player.specs.declared.form.TheConstants.{TURN_ROOM};
ghost use Rattle.text_player.specs.declared.as_record.TheConstants.{HEADER_ROOM};

use crate::as_record::{HEADER_ROOM, print_header};
use crate::form::{Form, TURN_ROOM};
use crate::responder::Responder;
use crate::service::Service;
use crate::summary::Summary;
use model_asked::{Config, WorldKind};
use model_steps::{NoMemory, View};
use std::alloc::Allocator;
use std::marker::Model;
use text_lines::{Fault, HELD_REPLIES, Replies, Sink};

/// A run under way: one side of a transcript, with the replies that it has not written yet.
pub struct Player<A: Allocator, F: Form> {
    responder: Responder<A, F>,
    replies: Replies<A>,
}

// By hand, so that the code that drops a player is here alone, and not at each place where one goes out of scope.
impl<A: Allocator, F: Form> Drop for Player<A, F> {
    fn drop(self) {
        let Player {
            responder: _,
            replies: _,
        } = self;
    }
}

impl<A: Allocator, F: Form> Model for Player<A, F> {
    ghost use Rattle.text_player.specs.PlayerState.{PlayerState, player_of};

    ghost Value = { PlayerState };

    ghost view = { λ p. player_of p.responder p.replies };
}

impl<A: Allocator + Clone, F: Form> Player<A, F> {
    /// Makes a run that has read nothing. Later calls allocate only what the service allocates.
    ///
    /// # Errors
    ///
    /// `NoMemory`: an allocation failed.
    pub fn new(alloc: A, kind: WorldKind) -> Result<Player<A, F>, NoMemory>
        ensures { IfOk result (λ player. IsFresh kind player) }
    {
        let Ok(other) = alloc.clone() else {
            return Err(NoMemory);
        };
        let responder = Responder::new(other, kind)?;
        let replies = Replies::new(alloc)?;
        Ok(Player { responder, replies })
    }
}

impl<A: Allocator, F: Form> Player<A, F> {
    /// Returns the counts so far.
    pub fn summary(&self) -> Summary
        ensures { result ≡ self.now.summary }
    {
        self.responder.summary()
    }

    /// Returns true if and only if `quit` was answered.
    pub fn is_over(&self) -> bool
        ensures { result ≡ self.now.over }
    {
        self.responder.is_over()
    }

    /// Takes the first line of these bytes with its LF, or all of them if none ends. Returns how many bytes it took.
    /// After `quit` it answers nothing.
    #[inline(always)]
    fn take<R, D: Service<R>>(
        &mut self,
        rt: &R,
        world: &mut D,
        view: &mut View,
        bytes: &[u8],
    ) -> usize
        requires knows { Knows D.knows self.old.kind }
        requires room { length self.old.replies + TURN_ROOM ≤ HELD_REPLIES }
        requires count { self.old.summary.lines + 1 < 2 ^ 64 }
        requires some { 0 < length bytes.now }
        ensures taken { (0 < result) × (result ≤ length bytes.now) }
        ensures stands { Advances D.may F.text world.old self.old world.new self.new (λ p. after_bytes self.old.kind p (take result bytes.now)) }
        ensures kept { self.new.kind ≡ self.old.kind }
        ensures longer { length self.new.replies ≤ length self.old.replies + TURN_ROOM }
        ensures counted { self.new.summary.lines ≤ self.old.summary.lines + 1 }
    {
        self.responder
            .take(rt, world, view, bytes, &mut self.replies)
    }

    /// Writes the replies that it holds.
    fn send<W: Sink>(&mut self, writer: &mut W) -> Result<(), Fault>
        requires calls { W.calls writer.old + length self.old.replies ≤ 2 ^ 100 }
        ensures ok { OnOk result (IsSent self.old (W.contents writer.old) self.new (W.contents writer.new)) }
        ensures empty { OnOk result (self.new.replies ≡ []) }
        ensures only { IfErr result (λ fault. fault ≡ Fault.Write) }
        ensures failed { OnErr result (W.failed writer.old < W.failed writer.new) }
        ensures unfailed { OnOk result (W.failed writer.new ≡ W.failed writer.old) }
        ensures part { OnErr result (HasPartOf (W.contents writer.old) (W.contents writer.new) self.old.replies) }
        ensures kept { (self.new.kind ≡ self.old.kind) × (self.new.summary ≡ self.old.summary) }
        ensures calls { W.calls writer.new ≤ W.calls writer.old + length self.old.replies }
    {
        self.replies.send(writer)
    }

    /// Writes the first line of a record. The player holds no reply.
    ///
    /// # Errors
    ///
    /// `Fault::Write`: a write failed or took nothing. The writer has gained a prefix of the line.
    pub fn write_header<W: Sink>(&mut self, config: Config, writer: &mut W) -> Result<(), Fault>
        requires none { self.old.replies ≡ [] }
        requires calls { W.calls writer.old + HEADER_ROOM ≤ 2 ^ 100 }
        ensures ok { OnOk result (Appends (W.contents writer.old) (W.contents writer.new) (header_line config)) }
        ensures same { OnOk result (self.new ≡ self.old) }
        ensures only { IfErr result (λ fault. fault ≡ Fault.Write) }
        ensures failed { OnErr result (W.failed writer.old < W.failed writer.new) }
        ensures unfailed { OnOk result (W.failed writer.new ≡ W.failed writer.old) }
        ensures part { OnErr result (HasPartOf (W.contents writer.old) (W.contents writer.new) (header_line config)) }
        ensures calls { W.calls writer.new ≤ W.calls writer.old + HEADER_ROOM }
    {
        print_header(config, &mut self.replies);
        self.replies.send(writer)
    }

    /// Makes room for one more turn. If there is too little, it writes the replies that it holds.
    fn make_room<W: Sink>(&mut self, writer: &mut W) -> Result<(), Fault>
        requires calls { W.calls writer.old + length self.old.replies ≤ 2 ^ 100 }
        ensures ok { OnOk result (IsSent self.old (W.contents writer.old) self.new (W.contents writer.new)) }
        ensures room { OnOk result (length self.new.replies + TURN_ROOM ≤ HELD_REPLIES) }
        ensures only { IfErr result (λ fault. fault ≡ Fault.Write) }
        ensures failed { OnErr result (W.failed writer.old < W.failed writer.new) }
        ensures unfailed { OnOk result (W.failed writer.new ≡ W.failed writer.old) }
        ensures part { OnErr result (HasPartOf (W.contents writer.old) (W.contents writer.new) self.old.replies) }
        ensures kept { (self.new.kind ≡ self.old.kind) × (self.new.summary ≡ self.old.summary) }
        ensures calls { W.calls writer.new ≤ W.calls writer.old + length self.old.replies }
        ensures calls_left { OnOk result (W.calls writer.new + length self.new.replies ≤ W.calls writer.old + length self.old.replies) }
    {
        if self.replies.len() <= HELD_REPLIES - TURN_ROOM {
            return Ok(());
        }
        self.send(writer)
    }

    /// Takes bytes that were read, has the service answer their lines, and writes all replies.
    ///
    /// # Errors
    ///
    /// `Fault::Write`: a write failed or took nothing. Part of the lines are answered, and a prefix of the text is
    /// written.
    pub fn feed<R, D: Service<R>, W: Sink>(
        &mut self,
        rt: &R,
        world: &mut D,
        chunk: &[u8],
        writer: &mut W,
    ) -> Result<(), Fault>
        requires knows { Knows D.knows self.old.kind }
        requires count { self.old.summary.lines + length chunk.now < 2 ^ 64 }
        requires calls { W.calls writer.old + length self.old.replies + TURN_ROOM * length chunk.now ≤ 2 ^ 100 }
        ensures ok { OnOk result (AdvancesWriting D.may F.text world.old self.old (W.contents writer.old) world.new self.new (W.contents writer.new)
            (λ p. after_bytes self.old.kind p chunk.now)) }
        ensures empty { OnOk result (self.new.replies ≡ []) }
        ensures only { IfErr result (λ fault. fault ≡ Fault.Write) }
        ensures failed { OnErr result (W.failed writer.old < W.failed writer.new) }
        ensures unfailed { OnOk result (W.failed writer.new ≡ W.failed writer.old) }
        ensures part { OnErr result (AdvancesInPart D.may F.text world.old self.old (W.contents writer.old) world.new (W.contents writer.new)
            (λ p. after_bytes self.old.kind p chunk.now)) }
        ensures kept { self.new.kind ≡ self.old.kind }
        ensures counted { self.new.summary.lines ≤ self.old.summary.lines + length chunk.now }
        ensures calls { W.calls writer.new ≤ W.calls writer.old + length self.old.replies + TURN_ROOM * length chunk.now }
    {
        let mut view = View::new();
        let mut at = 0;
        while at < chunk.len() {
            self.make_room(writer)?;
            at += self.take(rt, world, &mut view, &chunk[at..]);
        }
        self.send(writer)
    }

    /// Takes the end of the input, and writes the last reply. Bytes after the last LF are a line too.
    ///
    /// # Errors
    ///
    /// `Fault::Write`: a write failed or took nothing. A prefix of the text is written.
    pub fn finish<R, D: Service<R>, W: Sink>(
        &mut self,
        rt: &R,
        world: &mut D,
        writer: &mut W,
    ) -> Result<(), Fault>
        requires knows { Knows D.knows self.old.kind }
        requires room { length self.old.replies + TURN_ROOM ≤ HELD_REPLIES }
        requires count { self.old.summary.lines + 1 < 2 ^ 64 }
        requires calls { W.calls writer.old + length self.old.replies + TURN_ROOM ≤ 2 ^ 100 }
        ensures ok { OnOk result (AdvancesWriting D.may F.text world.old self.old (W.contents writer.old) world.new self.new (W.contents writer.new)
            (after_end self.old.kind)) }
        ensures empty { OnOk result (self.new.replies ≡ []) }
        ensures only { IfErr result (λ fault. fault ≡ Fault.Write) }
        ensures failed { OnErr result (W.failed writer.old < W.failed writer.new) }
        ensures unfailed { OnOk result (W.failed writer.new ≡ W.failed writer.old) }
        ensures part { OnErr result (AdvancesInPart D.may F.text world.old self.old (W.contents writer.old) world.new (W.contents writer.new)
            (after_end self.old.kind)) }
    {
        self.end_line(rt, world, &mut View::new());
        self.send(writer)
    }

    /// Answers the bytes after the last LF, if there are any.
    fn end_line<R, D: Service<R>>(&mut self, rt: &R, world: &mut D, view: &mut View)
        requires knows { Knows D.knows self.old.kind }
        requires room { length self.old.replies + TURN_ROOM ≤ HELD_REPLIES }
        requires count { self.old.summary.lines + 1 < 2 ^ 64 }
        ensures stands { Advances D.may F.text world.old self.old world.new self.new (after_end self.old.kind) }
        ensures longer { length self.new.replies ≤ length self.old.replies + TURN_ROOM }
    {
        self.responder.finish(rt, world, view, &mut self.replies);
    }
}
