//! Any reader or writer, with counts of its calls.

ghost use Rattle.std.specs.Prelude.{◌≡◌, ◌≤◌};

use crate::source::Source;
use std::io;
use std::io::{Read, Write};
use text_lines::Sink;

/// A reader or writer of std, with counts of its calls and of those that failed.
///
/// A write of some bytes that takes none counts as failed.
#[derive(Drop)]
pub struct Tried<T> {
    inner: T,
    calls: u128,
    failed: u128,
    ghost fewer: { failed ≤ calls },
}

impl<T> Tried<T> {
    /// Makes one of this reader or writer, with both counts 0.
    pub fn new(inner: T) -> Tried<T>
        ensures { (result.inner ≡ inner) × (result.calls ≡ 0) × (result.failed ≡ 0) }
    {
        Tried {
            inner,
            calls: 0,
            failed: 0,
        }
    }

    /// Returns the reader or writer.
    pub fn into_inner(self) -> T
        ensures { result ≡ self.inner }
    {
        let Tried {
            inner,
            calls: _,
            failed: _,
        } = self;
        inner
    }
}

impl<T: Read> Read for Tried<T> {
    ghost remaining = { λ t. T.remaining t.inner };

    fn read(&mut self, buf: &mut [u8]) -> io::Result<usize> {
        self.inner.read(buf)
    }
}

impl<T: Read> Source for Tried<T> {
    ghost calls = { λ t. t.calls };

    ghost failed = { λ t. t.failed };

    fn read_once(&mut self, buf: &mut [u8]) -> io::Result<usize> {
        let outcome = self.inner.read(buf);
        let failed = if outcome.is_err() { 1 } else { 0 };
        self.calls += 1;
        self.failed += failed;
        outcome
    }
}

impl<T: Write> Write for Tried<T> {
    ghost contents = { λ t. T.contents t.inner };

    fn write(&mut self, buf: &[u8]) -> io::Result<usize> {
        self.inner.write(buf)
    }

    fn flush(&mut self) -> io::Result<()> {
        self.inner.flush()
    }
}

impl<T: Write> Sink for Tried<T> {
    ghost calls = { λ t. t.calls };

    ghost failed = { λ t. t.failed };

    fn write_once(&mut self, buf: &[u8]) -> io::Result<usize> {
        let outcome = self.inner.write(buf);
        let failed = match &outcome {
            Ok(n) => u128::from(*n == 0 && !buf.is_empty()),
            Err(_) => 1,
        };
        self.calls += 1;
        self.failed += failed;
        outcome
    }
}
