//! Disks whose lines are sealed: torn at each byte, with each bit flipped, and of journals of version 2.

use crate::journals::{ALL_CALLS, empty_disk, record, reply_to};
use model_asked::{Config, Event, WorldKind};
use service_journal::{Disk, Journal, MemoryDisk, Opened, SealedDisk};
use std::alloc::{AllocError, Global};
use std::test::Fail;
use text_checker::{Verdict, check};
use text_records::{LineForm, Text, crc32c, put_lines};

/// The lines of a text, sealed.
fn sealed(alloc: Global, text: &[u8]) -> Result<Vec<u8>, AllocError> {
    let mut out = Text::new(alloc);
    put_lines(LineForm::Sealed, text, &mut out)?;
    Ok(out.into_bytes())
}

/// The lines that are read of a disk with these bytes; none where it is refused.
fn lines_of(alloc: Global, bytes: Vec<u8>) -> Option<Vec<u8>> {
    let mut disk = SealedDisk::open(alloc, MemoryDisk::new(bytes, ALL_CALLS)).ok()?;
    disk.read(alloc).ok()
}

/// How many lines end in some bytes.
fn ends_in(bytes: &[u8]) -> usize {
    bytes.iter().filter(|byte| **byte == b'\n').count()
}

#[test]
fn the_checksum_is_crc_32c(rt: HostRuntime) -> Result<(), Fail> {
    assert!(rt; crc32c(b"") == 0);
    assert!(rt; crc32c(b"123456789") == 0xe306_9283);
    assert!(rt; crc32c(&[0; 32]) == 0x8a91_36aa);
    assert!(rt; crc32c(&[0xff; 32]) == 0x62a8_ab43);
    Ok(())
}

#[test]
fn a_crash_at_each_byte_leaves_the_whole_lines(rt: HostRuntime) -> Result<(), Fail> {
    let text = record(rt.alloc(), 6, b"")?;
    let whole = sealed(rt.alloc(), &text)?;
    for end in 0..whole.len() {
        let left = &whole[..end];
        let lines = lines_of(rt.alloc(), left.to_vec(rt.alloc())?);
        let is_front = lines.is_some_and(|lines| text.starts_with(&lines)
            && ends_in(&lines) == ends_in(left));
        assert!(rt; is_front, "at {end}");
    }
    Ok(())
}

/// Whether a journal with one bit changed is refused.
fn is_refused(alloc: Global, whole: &[u8], bit: usize) -> Result<bool, AllocError> {
    let mut bytes = whole.to_vec(alloc)?;
    if let Some(byte) = bytes.get_mut(bit / 8) {
        *byte ^= 1 << (bit % 8);
    }
    match lines_of(alloc, bytes) {
        Some(lines) => Ok(check(alloc, &lines) != Verdict::Yes),
        None => Ok(true),
    }
}

#[test]
fn each_flipped_bit_is_refused(rt: HostRuntime) -> Result<(), Fail> {
    let whole = sealed(rt.alloc(), &record(rt.alloc(), 6, b"")?)?;
    for bit in 0..whole.len().min(1000) * 8 {
        assert!(rt;
            is_refused(rt.alloc(), &whole, bit) == Ok(true),
            "bit {bit}"
        );
    }
    Ok(())
}

/// The bytes of an empty disk once two events were committed to its journal, with sealed lines; none where a call fails.
fn committed(alloc: Global) -> Option<Vec<u8>> {
    let config = Config::new(WorldKind::Rename, 2, 4, 1000).ok()?;
    let lines = SealedDisk::open(alloc, empty_disk(alloc)).ok()?;
    let Opened {
        mut journal,
        mut write_ahead,
    } = Journal::open(alloc, lines, config).ok()?;
    let _ = reply_to(&mut write_ahead, Event::Begin(7));
    let _ = reply_to(&mut write_ahead, Event::Enter(8));
    journal.commit(&mut write_ahead).ok()?;
    journal
        .into_disk()
        .into_disk()
        .as_slice()
        .to_vec(alloc)
        .ok()
}

#[test]
fn a_commit_seals_its_lines(rt: HostRuntime) -> Result<(), Fail> {
    let whole = sealed(rt.alloc(), &record(rt.alloc(), 2, b"")?)?;
    assert!(rt; committed(rt.alloc()).is_some_and(|bytes| bytes == whole));
    Ok(())
}
