//! Readers that count their calls.

ghost use Rattle.std.specs.Prelude.{◌≡◌, ℕ, ◌+◌, ◌^◌, ◌<◌};
ghost use Rattle.std.specs.Io.{ReadsAtMost};
ghost use Rattle.std.specs.Io.KnownBytes.{ReadConsumes};
ghost use Rattle.text_lines.specs.Tries.{read_failures};

use std::io;
use std::io::Read;

/// A reader that counts its calls, and those that failed. Contracts alone see the counts.
pub trait Source: Read {
    /// The number of reads.
    ghost calls: { Self → ℕ };

    /// The number of reads that failed.
    ghost failed: { Self → ℕ };

    /// Makes one read, as std's `read` does.
    ///
    /// # Errors
    ///
    /// Those of the reader's `read`.
    fn read_once(&mut self, buf: &mut [u8]) -> io::Result<usize>
        requires room { calls self.old < 2 ^ 100 }
        ensures bound { ReadsAtMost result buf.new }
        ensures bytes { ReadConsumes (Self.remaining self.old) (Self.remaining self.new) result buf.new }
        ensures called { calls self.new ≡ calls self.old + 1 }
        ensures failed { failed self.new ≡ failed self.old + read_failures result };
}
