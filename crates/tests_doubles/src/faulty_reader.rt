//! A reader that fails at one read.

ghost use Rattle.std.specs.Prelude.{◌≡◌};

use std::io;
use std::io::Read;

/// A reader that gives at most `piece` bytes a read, and fails at one read. Only tested: which one fails.
#[derive(Drop)]
pub struct FaultyReader<'a> {
    /// The bytes that are left.
    pub bytes: &'a [u8],
    /// The most bytes of a read.
    pub piece: usize,
    /// The read that fails, from 1, or 0 for none.
    pub fails_at: u64,
    /// The number of reads.
    pub calls: u64,
}

impl<'a> FaultyReader<'a> {
    /// Makes a reader of these bytes that was not read yet.
    pub fn new(bytes: &'a [u8], piece: usize, fails_at: u64) -> FaultyReader<'a>
        ensures bytes { result.bytes.now ≡ bytes.now }
        ensures piece { result.piece ≡ piece }
        ensures fails_at { result.fails_at ≡ fails_at }
        ensures calls { result.calls ≡ 0 }
    {
        FaultyReader {
            bytes,
            piece,
            fails_at,
            calls: 0,
        }
    }
}

impl Read for FaultyReader<'_> {
    fn read(&mut self, buf: &mut [u8]) -> io::Result<usize> {
        self.calls = self.calls.saturating_add(1);
        if self.calls == self.fails_at {
            return Err(io::ErrorKind::Other.into());
        }
        let count = self.bytes.len().min(self.piece).min(buf.len());
        let (given, left) = self.bytes.split_at(count);
        buf[..count].copy_from_slice(given);
        self.bytes = left;
        Ok(count)
    }
}
