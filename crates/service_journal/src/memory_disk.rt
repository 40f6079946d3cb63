//! A disk in memory, for integration tests.

ghost use Rattle.std.specs.Prelude.{◌≡◌, Some, take, vec_len};
ghost use Rattle.service_journal.specs.Disks.{state_of, MayLeave};
ghost use Rattle.service_journal.specs.Memories.{memory_before, memory_state};

use crate::disk::{Disk, DiskFault};
use std::alloc::Global;
use std::io::ErrorKind;
use std::mem;

/// The bytes before a replacing, and how many of them were durable.
#[derive(Drop)]
struct Before {
    bytes: Vec<u8>,
    synced: usize,
}

/// A disk in memory, for integration tests. After a number of calls each call fails.
///
/// A write that fails writes half of its bytes. A replacing is three calls: it writes the new bytes beside, puts them in place of the
/// old ones, and makes that durable. If the last of these fails, a crash may bring the old bytes back.
#[derive(Drop)]
pub struct MemoryDisk {
    bytes: Vec<u8>,
    synced: usize,
    cuts: usize,
    calls_left: usize,
    before: Option<Before>,
}

impl MemoryDisk {
    /// Makes a disk with these bytes, all durable. After `calls_left` calls each call fails.
    pub fn new(bytes: Vec<u8>, calls_left: usize) -> MemoryDisk
        ensures { memory_state result ≡ state_of bytes.items (vec_len bytes) 0 }
    {
        let synced = bytes.len();
        MemoryDisk {
            bytes,
            synced,
            cuts: 0,
            calls_left,
            before: None,
        }
    }

    /// Returns the bytes that were written.
    pub fn as_slice(&self) -> &[u8]
        ensures { result.now ≡ self.now.bytes.items }
    {
        &self.bytes
    }

    /// Returns how many of the first bytes are durable: each crash leaves them.
    pub fn synced(&self) -> usize
        ensures { result ≡ self.now.synced }
    {
        self.synced
    }

    /// Returns the disk after a crash that leaves the first `keep` bytes, and all durable ones. After `calls_left` calls each call fails.
    pub fn crashed(self, keep: usize, calls_left: usize) -> MemoryDisk
        ensures left { MayLeave (memory_state self) (memory_state self) result.bytes.items }
        ensures whole { keep ≡ vec_len self.bytes → result.bytes.items ≡ self.bytes.items }
        ensures none { keep ≡ 0 → result.bytes.items ≡ take self.synced self.bytes.items }
    {
        let MemoryDisk {
            mut bytes,
            synced,
            ..
        } = self;
        let kept = keep.max(synced);
        bytes.truncate(kept);
        MemoryDisk::new(bytes, calls_left)
    }

    /// Returns what `crashed` does, after a crash that takes back a replacing that failed, if there was one.
    pub fn reverted(self, keep: usize, calls_left: usize) -> MemoryDisk
        ensures { MayLeave (memory_before self) (memory_before self) result.bytes.items }
    {
        let MemoryDisk {
            bytes,
            synced,
            cuts,
            before,
            ..
        } = self;
        let (bytes, synced) = match before {
            Some(Before { bytes, synced }) => (bytes, synced),
            None => (bytes, synced),
        };
        let old = MemoryDisk {
            bytes,
            synced,
            cuts,
            calls_left: 0,
            before: None,
        };
        old.crashed(keep, calls_left)
    }

    /// Counts a call, and returns whether it may go on.
    fn goes_on(&mut self) -> bool
        ensures { memory_state self.new ≡ memory_state self.old }
    {
        if self.calls_left == 0 {
            return false;
        }
        self.calls_left -= 1;
        true
    }
}

impl Disk for MemoryDisk {
    ghost state = { λ d. Some (memory_state d) };

    fn read(&mut self, alloc: Global) -> Result<Vec<u8>, DiskFault> {
        if !self.goes_on() {
            return Err(DiskFault::Failed(ErrorKind::Other));
        }
        Ok(self.bytes.to_vec(alloc)?)
    }

    fn append(&mut self, bytes: &[u8]) -> Result<(), DiskFault> {
        if !self.goes_on() {
            self.bytes.extend_from_slice(&bytes[..bytes.len() / 2])?;
            return Err(DiskFault::Failed(ErrorKind::StorageFull));
        }
        self.bytes.extend_from_slice(bytes)?;
        Ok(())
    }

    fn sync(&mut self) -> Result<(), DiskFault> {
        if !self.goes_on() {
            return Err(DiskFault::Failed(ErrorKind::Other));
        }
        self.synced = self.bytes.len();
        Ok(())
    }

    fn cut(&mut self, len: usize) -> Result<(), DiskFault> {
        if self.cuts == usize::MAX || !self.goes_on() {
            return Err(DiskFault::Failed(ErrorKind::Other));
        }
        self.cuts += 1;
        self.bytes.truncate(len);
        self.synced = self.synced.min(self.bytes.len());
        Ok(())
    }

    fn can_replace(&self, _alloc: Global, _bytes: &[u8]) -> bool {
        self.calls_left != 0
    }

    fn replace(&mut self, alloc: Global, bytes: &[u8]) -> Result<(), DiskFault> {
        let written = bytes.to_vec(alloc)?;
        if self.cuts == usize::MAX || !self.goes_on() {
            return Err(DiskFault::Failed(ErrorKind::StorageFull));
        }
        if !self.goes_on() {
            return Err(DiskFault::Failed(ErrorKind::Other));
        }
        let synced = self.synced;
        self.synced = written.len();
        let bytes = mem::replace(&mut self.bytes, written);
        self.before = Some(Before { bytes, synced });
        self.cuts += 1;
        if !self.goes_on() {
            return Err(DiskFault::Failed(ErrorKind::Other));
        }
        self.before = None;
        Ok(())
    }

    fn look(&self) -> Result<(), DiskFault> {
        Ok(())
    }

    fn size(&self) -> u64 {
        self.bytes.len() as u64
    }
}
