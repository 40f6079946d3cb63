//! Writers whose calls are counted.

ghost use Rattle.std.specs.Prelude.{◌≡◌, ℕ, ◌+◌, ◌^◌, ◌<◌, ◌≤◌, length, OnOk, OnErr, IfErr};
ghost use Rattle.std.specs.Io.{WritesAtMost};
ghost use Rattle.std.specs.Io.KnownBytes.{WriteAppends, Appends};
ghost use Rattle.text_lines.specs.Tries.{write_failures};
ghost use Rattle.text_lines.specs.Written.{HasPartOf};

use crate::fault::Fault;
use std::io;
use std::io::Write;

/// A writer with ghost counts of its calls and of those that failed.
///
/// A write that takes no byte has failed.
pub trait Sink: Write {
    /// The number of calls.
    ghost calls: { Self → ℕ };

    /// The number of calls that failed.
    ghost failed: { Self → ℕ };

    /// Makes one write, as `write` of std does.
    ///
    /// # Errors
    ///
    /// Those of `write`. Nothing was then written.
    fn write_once(&mut self, buf: &[u8]) -> io::Result<usize>
        requires room { calls self.old < 2 ^ 100 }
        ensures bound { WritesAtMost result buf.now }
        ensures bytes { WriteAppends (Self.contents self.old) (Self.contents self.new) result buf.now }
        ensures called { calls self.new ≡ calls self.old + 1 }
        ensures failed { failed self.new ≡ failed self.old + write_failures (length buf.now) result };
}

/// Writes a whole text, in at most as many calls as it has bytes.
///
/// # Errors
///
/// `Write`: a write failed or took no byte. A prefix of the text is written.
pub fn put_all<W: Sink>(writer: &mut W, text: &[u8]) -> Result<(), Fault>
    requires room { W.calls writer.old + length text.now ≤ 2 ^ 100 }
    ensures ok { OnOk result (Appends (W.contents writer.old) (W.contents writer.new) text.now) }
    ensures err { OnErr result (HasPartOf (W.contents writer.old) (W.contents writer.new) text.now) }
    ensures only { IfErr result (λ fault. fault ≡ Fault.Write) }
    ensures failed { OnErr result (W.failed writer.old < W.failed writer.new) }
    ensures unfailed { OnOk result (W.failed writer.new ≡ W.failed writer.old) }
    ensures calls { W.calls writer.new ≤ W.calls writer.old + length text.now }
{
    let mut at = 0;
    while at < text.len() {
        match writer.write_once(&text[at..]) {
            Ok(0) => return Err(Fault::Write),
            Ok(n) => at += n,
            Err(_) => return Err(Fault::Write),
        }
    }
    Ok(())
}
