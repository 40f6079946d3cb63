//! The line that is being read.

ghost use Rattle.std.specs.Prelude.{◌≡◌, ◌↔◌, ℕ, List, [], ◌∷◌, ◌++◌, IfOk, IsTrue};
ghost use Rattle.text_lines.specs.HeldLine.{held};
ghost use Rattle.text_lines.specs.Meaning.{meaning};

use crate::parse::{LINE_MAX, parse_line};
use model_asked::{Bad, Command, WorldKind};
use model_steps::NoMemory;
use std::alloc::Allocator;
use std::marker::Model;

/// A line that a reader gives byte by byte. Its room of 100 bytes is allocated once.
///
/// Bytes after the 100th are dropped, and the line is then too long.
#[derive(Drop)]
pub struct LineBuffer<A: Allocator> {
    bytes: Vec<u8, A>,
    too_long: bool,
}

impl<A: Allocator> Model for LineBuffer<A> {
    ghost use Rattle.std.specs.Prelude.{◌≡◌, ◌≤◌};
    ghost use Rattle.std.specs.Vec.{vec_len, vec_capacity};
    ghost use Rattle.text_lines.specs.HeldLine.{HeldLine};

    ghost Value = { HeldLine };

    ghost view = { λ b. record { kept = b.bytes.items; too_long = b.too_long } };

    ghost invariant = { λ b. (vec_len b.bytes ≤ 100) × (vec_capacity b.bytes ≡ 100) };
}

impl<A: Allocator> LineBuffer<A> {
    /// Makes an empty line.
    ///
    /// # Errors
    ///
    /// `NoMemory`: the allocation failed.
    pub fn new(alloc: A) -> Result<LineBuffer<A>, NoMemory>
        ensures { IfOk result (λ buffer. buffer ≡ held []) }
    {
        match Vec::with_capacity(alloc, LINE_MAX) {
            Ok(bytes) => Ok(LineBuffer {
                bytes,
                too_long: false,
            }),
            Err(_) => Err(NoMemory),
        }
    }

    /// Appends one byte to the line.
    pub fn push(&mut self, byte: u8)
        ensures { (line : List ℕ) → self.old ≡ held line → self.new ≡ held (line ++ byte ∷ []) }
    {
        if self.bytes.len() < LINE_MAX {
            self.bytes.push_reserved(byte);
        } else {
            self.too_long = true;
        }
    }

    /// Appends bytes to the line.
    pub fn extend(&mut self, bytes: &[u8])
        ensures { (line : List ℕ) → self.old ≡ held line → self.new ≡ held (line ++ bytes.now) }
    {
        for byte in bytes {
            self.push(*byte);
        }
    }

    /// Starts the next line.
    pub fn clear(&mut self)
        ensures { self.new ≡ held [] }
    {
        self.bytes.clear();
        self.too_long = false;
    }

    /// Whether the line has no byte.
    pub fn is_empty(&self) -> bool
        ensures { (line : List ℕ) → self.now ≡ held line → (IsTrue result ↔ (line ≡ [])) }
    {
        self.bytes.is_empty()
    }

    /// Returns the command that the whole line means in this world, as `parse_line` does.
    ///
    /// # Errors
    ///
    /// Those of `parse_line`, in that order.
    pub fn meaning(&self, world: WorldKind) -> Result<Command, Bad>
        ensures held { (line : List ℕ) → self.now ≡ held line → result ≡ meaning world line }
        ensures some { (line : List ℕ) × (result ≡ meaning world line) }
    {
        if self.too_long {
            return Err(Bad::TooLong);
        }
        parse_line(&self.bytes, world)
    }
}
