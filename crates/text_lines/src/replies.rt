//! A buffer of replies that are not written yet.

ghost use Rattle.std.specs.Prelude.{◌≡◌, ℕ, ◌+◌, ◌≤◌, ◌<◌, ◌^◌, ◌++◌, List, [], length, IfOk, IfErr, OnOk, OnErr};
ghost use Rattle.std.specs.Io.KnownBytes.{Appends};
ghost use Rattle.text_lines.specs.UnderWay.{GoesPast, StopsWithin};
ghost use Rattle.text_lines.specs.Written.{HasPartOf};

use crate::fault::Fault;
use crate::sink::{Sink, put_all};
use model_steps::NoMemory;
use std::alloc::Allocator;
use std::marker::Model;

/// The most bytes that are held before they are written.
pub const HELD_REPLIES: usize = 65_536;

/// A buffer of bytes to be written. Its 65,536 bytes are allocated once.
#[derive(Drop)]
pub struct Replies<A: Allocator> {
    bytes: Vec<u8, A>,
    used: usize,
}

impl<A: Allocator> Model for Replies<A> {
    ghost use Rattle.std.specs.Prelude.{◌≡◌, ◌≤◌, ℕ, List, take};
    ghost use Rattle.std.specs.Vec.{vec_len};

    ghost Value = { List ℕ };

    ghost view = { λ r. take r.used r.bytes.items };

    ghost invariant = { λ r. (r.used ≤ 65536) × (vec_len r.bytes ≡ 65536) };
}

impl<A: Allocator> Replies<A> {
    /// Makes an empty buffer.
    ///
    /// # Errors
    ///
    /// `NoMemory`: the allocation failed.
    pub fn new(alloc: A) -> Result<Replies<A>, NoMemory>
        ensures { IfOk result (λ replies. replies ≡ []) }
    {
        match Vec::from_elem(alloc, 0, HELD_REPLIES) {
            Ok(bytes) => Ok(Replies { bytes, used: 0 }),
            Err(_) => Err(NoMemory),
        }
    }

    /// Returns the number of bytes in the buffer: at most `HELD_REPLIES`.
    pub fn len(&self) -> usize
        ensures count { result ≡ length self.now }
        ensures most { result ≤ HELD_REPLIES }
    {
        self.used
    }

    /// Returns the bytes in the buffer.
    pub fn as_slice(&self) -> &[u8]
        ensures { result.now ≡ self.now }
    {
        &self.bytes[..self.used]
    }

    /// Appends bytes, for which there is room.
    #[inline(always)]
    pub fn put(&mut self, text: &[u8])
        requires { length self.old + length text.now ≤ HELD_REPLIES }
        ensures { self.new ≡ self.old ++ text.now }
    {
        let end = self.used + text.len();
        self.bytes[self.used..end].copy_from_slice(text);
        self.used = end;
    }

    /// Writes the bytes in the buffer, and empties it.
    ///
    /// # Errors
    ///
    /// `Write`: a write failed or took no byte. A prefix of the bytes is written.
    pub fn send<W: Sink>(&mut self, writer: &mut W) -> Result<(), Fault>
        requires { W.calls writer.old + length self.old ≤ 2 ^ 100 }
        ensures on { OnOk result (GoesPast [] (W.contents writer.old) self.old (W.contents writer.new) self.new) }
        ensures within { OnErr result (StopsWithin [] (W.contents writer.old) self.old (W.contents writer.new)) }
        ensures sent { OnOk result (Appends (W.contents writer.old) (W.contents writer.new) self.old) }
        ensures part { OnErr result (HasPartOf (W.contents writer.old) (W.contents writer.new) self.old) }
        ensures empty { OnOk result (self.new ≡ []) }
        ensures only { IfErr result (λ fault. fault ≡ Fault.Write) }
        ensures failed { OnErr result (W.failed writer.old < W.failed writer.new) }
        ensures unfailed { OnOk result (W.failed writer.new ≡ W.failed writer.old) }
        ensures calls { W.calls writer.new ≤ W.calls writer.old + length self.old }
    {
        put_all(writer, self.as_slice())?;
        self.clear();
        Ok(())
    }

    /// Makes room for `room` bytes: if there is too little, it writes the bytes in the buffer, as `send` does.
    ///
    /// # Errors
    ///
    /// `Write`: a write failed or took no byte. A prefix of the bytes is written.
    pub fn make_room<W: Sink>(&mut self, room: usize, writer: &mut W) -> Result<(), Fault>
        requires few { room ≤ HELD_REPLIES }
        requires calls { W.calls writer.old + length self.old ≤ 2 ^ 100 }
        ensures on { OnOk result (GoesPast [] (W.contents writer.old) self.old (W.contents writer.new) self.new) }
        ensures within { OnErr result (StopsWithin [] (W.contents writer.old) self.old (W.contents writer.new)) }
        ensures room { OnOk result (length self.new + room ≤ HELD_REPLIES) }
        ensures only { IfErr result (λ fault. fault ≡ Fault.Write) }
        ensures failed { OnErr result (W.failed writer.old < W.failed writer.new) }
        ensures unfailed { OnOk result (W.failed writer.new ≡ W.failed writer.old) }
        ensures calls { OnOk result (W.calls writer.new + length self.new ≤ W.calls writer.old + length self.old) }
    {
        if self.len() <= HELD_REPLIES - room {
            return Ok(());
        }
        self.send(writer)
    }

    /// Empties the buffer.
    pub fn clear(&mut self)
        ensures { self.new ≡ [] }
    {
        self.used = 0;
    }
}
