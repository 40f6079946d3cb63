//! Streams that do not wait.

ghost use Rattle.std.specs.Prelude.{◌≡◌, ℕ, List, Option};
ghost use Rattle.std.specs.Io.{ReadsAtMost, WritesAtMost};
ghost use Rattle.std.specs.Io.KnownBytes.{ReadConsumes, WriteAppends};

use std::io;

/// A stream of bytes both ways that does not wait: where it can give or take none now, it answers `ErrorKind::WouldBlock`.
pub trait Stream {
    /// The bytes that it has still to give, where it tells them.
    ghost left: { Self → Option (List ℕ) };

    /// The bytes that it has taken, where it tells them.
    ghost gone: { Self → Option (List ℕ) };

    /// One read, as std's `read`.
    fn read_some(&mut self, buf: &mut [u8]) -> io::Result<usize>
        ensures bound { ReadsAtMost result buf.new }
        ensures bytes { ReadConsumes (left self.old) (left self.new) result buf.new }
        ensures same { gone self.new ≡ gone self.old };

    /// One write, as std's `write`.
    fn write_some(&mut self, buf: &[u8]) -> io::Result<usize>
        ensures bound { WritesAtMost result buf.now }
        ensures bytes { WriteAppends (gone self.old) (gone self.new) result buf.now }
        ensures same { left self.new ≡ left self.old };
}
