//! A writer that fails at one write.

ghost use Rattle.std.specs.Prelude.{◌≡◌, []};

use std::alloc::Global;
use std::io;
use std::io::Write;

/// A writer that takes at most `piece` bytes a write, and fails at one write. Only tested: which one fails.
#[derive(Drop)]
pub struct FaultyWriter {
    /// The bytes that were taken.
    pub taken: Vec<u8>,
    /// The most bytes of a write.
    pub piece: usize,
    /// The write that fails, from 1, or 0 for none.
    pub fails_at: u64,
    /// Whether the write that fails takes no byte and returns no error.
    pub takes_nothing: bool,
    /// The number of writes.
    pub calls: u64,
}

impl FaultyWriter {
    /// Makes a writer that was not written to yet.
    pub fn new(alloc: Global, piece: usize, fails_at: u64, takes_nothing: bool) -> FaultyWriter
        ensures taken { result.taken.items ≡ [] }
        ensures piece { result.piece ≡ piece }
        ensures fails_at { result.fails_at ≡ fails_at }
        ensures takes_nothing { result.takes_nothing ≡ takes_nothing }
        ensures calls { result.calls ≡ 0 }
    {
        FaultyWriter {
            taken: Vec::new(alloc),
            piece,
            fails_at,
            takes_nothing,
            calls: 0,
        }
    }
}

impl Write for FaultyWriter {
    fn write(&mut self, buf: &[u8]) -> io::Result<usize> {
        self.calls = self.calls.saturating_add(1);
        if self.calls == self.fails_at {
            return if self.takes_nothing {
                Ok(0)
            } else {
                Err(io::ErrorKind::Other.into())
            };
        }
        let count = buf.len().min(self.piece);
        self.taken.extend_from_slice(&buf[..count])?;
        Ok(count)
    }

    fn flush(&mut self) -> io::Result<()> {
        Ok(())
    }
}
