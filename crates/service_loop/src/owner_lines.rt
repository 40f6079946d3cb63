//! The lines of a stream whose clients own their identities, on their way to the service.

ghost use Rattle.std.specs.Prelude.{◌≡◌, ◌⊎◌, ◌++◌, [], length, min, take, drop, OnOk, IfOk, IfErr};
ghost use Rattle.std.specs.Io.{ReadsAtMost};
ghost use Rattle.std.specs.IoError.{error_kind};
ghost use Rattle.std.specs.declared.io.ErrorKind.TheVariants.{OutOfMemory};
ghost use Rattle.service_loop.specs.OwnerLines.{with_byte, with_bytes};
ghost use Rattle.service_loop.specs.OwnerReads.{Fills, GivesOwned};

use crate::buffers::drop_front;
use crate::owner_line::put_owned;
use crate::stream::Stream;
use std::alloc::{AllocError, Global};
use std::io::{self, ErrorKind};
use std::marker::Model;

/// What ends a line.
const LF: u8 = 10;

/// So many bytes of a line are kept. A line that is so long is none that the service knows.
pub const MOST_LINE: usize = 200;

/// So many bytes are read at once.
const CHUNK: usize = 4_096;

/// So many reads are made at most for one that is asked for.
const MOST_READS: usize = 64;

/// The lines of a stream on their way to the service: each goes as `put_owned` says.
#[derive(Drop)]
pub struct OwnerLines {
    /// The line that is begun.
    begun: Vec<u8>,
    /// What is ready for the service.
    ready: Vec<u8>,
}

impl Model for OwnerLines {
    ghost use Rattle.service_loop.specs.OwnerState.{OwnerState};

    ghost Value = { OwnerState };

    ghost view = { λ l. record { begun = l.begun.items; ready = l.ready.items } };
}

impl OwnerLines {
    /// Nothing came.
    pub fn new(alloc: Global) -> OwnerLines
        ensures { result ≡ record { begun = []; ready = [] } }
    {
        OwnerLines {
            begun: Vec::new(alloc),
            ready: Vec::new(alloc),
        }
    }

    // The line that is begun has ended.
    fn end_line(&mut self) -> Result<(), AllocError>
        ensures { OnOk result (self.new ≡ with_byte self.old 10) }
    {
        put_owned(&self.begun, &mut self.ready)?;
        self.ready.push(LF)?;
        self.begun.clear();
        Ok(())
    }

    // One byte came.
    fn add_byte(&mut self, byte: u8) -> Result<(), AllocError>
        ensures { OnOk result (self.new ≡ with_byte self.old byte) }
    {
        if byte == LF {
            return self.end_line();
        }
        if self.begun.len() < MOST_LINE {
            self.begun.push(byte)?;
        }
        Ok(())
    }

    /// These bytes came.
    ///
    /// # Errors
    ///
    /// `AllocError`: an allocation failed.
    pub fn add(&mut self, bytes: &[u8]) -> Result<(), AllocError>
        ensures { OnOk result (self.new ≡ with_bytes self.old bytes.now) }
    {
        for byte in bytes {
            self.add_byte(*byte)?;
        }
        Ok(())
    }

    // Gives what is ready, as far as there is room for it.
    fn give(&mut self, buf: &mut [u8]) -> usize
        ensures count { result ≡ min (length self.old.ready) (length buf.old) }
        ensures bytes { buf.new ≡ take result self.old.ready ++ drop result buf.old }
        ensures rest { self.new ≡ record self.old { ready = drop result self.old.ready } }
    {
        let count = self.ready.len().min(buf.len());
        buf[..count].copy_from_slice(&self.ready[..count]);
        drop_front(&mut self.ready, count);
        count
    }

    // Reads until so many bytes are ready, or the stream has no more for now. Returns what came of the last read.
    fn fill<S: Stream>(
        &mut self,
        stream: &mut S,
        most: usize,
    ) -> Result<io::Result<usize>, AllocError>
        ensures lines { OnOk result (Fills (S.left stream.old) (S.left stream.new) self.old self.new) }
        ensures same { S.gone stream.new ≡ S.gone stream.old }
    {
        let mut chunk = [0u8; CHUNK];
        let mut came = Ok(0);
        for _ in 0..MOST_READS {
            if most <= self.ready.len() {
                break;
            }
            came = stream.read_some(&mut chunk);
            let Ok(count) = came else {
                break;
            };
            self.add(&chunk[..count])?;
            if count < CHUNK {
                break;
            }
        }
        Ok(came)
    }

    /// One read, as std's `read`, of the lines as they go to the service. Where none is ready, or the stream may have more than it was read for so far, it is
    /// `ErrorKind::Interrupted`: what is given is less than is asked for only where the stream has no more for now, as the loop takes it.
    ///
    /// # Errors
    ///
    /// Those of the stream, and `ErrorKind::OutOfMemory`.
    pub fn read<S: Stream>(&mut self, stream: &mut S, buf: &mut [u8]) -> io::Result<usize>
        ensures bound { ReadsAtMost result buf.new }
        ensures owned { IfOk result (λ count. GivesOwned (S.left stream.old) (S.left stream.new) self.old self.new (take count buf.new)) }
        ensures kept { IfErr result (λ error. (error_kind error ≡ OutOfMemory) ⊎ Fills (S.left stream.old) (S.left stream.new) self.old self.new) }
        ensures same { S.gone stream.new ≡ S.gone stream.old }
    {
        let Ok(came) = self.fill(stream, buf.len()) else {
            return Err(io::Error::from(ErrorKind::OutOfMemory));
        };
        match came {
            Ok(CHUNK) if self.ready.len() < buf.len() => {
                Err(io::Error::from(ErrorKind::Interrupted))
            }
            _ if !self.ready.is_empty() => Ok(self.give(buf)),
            Ok(0) => Ok(0),
            Ok(_) => Err(io::Error::from(ErrorKind::Interrupted)),
            Err(error) => Err(error),
        }
    }
}
