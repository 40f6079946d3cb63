//! Journals in memory: torn, failing, and of other runs.

use crate::journals::{
    ALL_CALLS, Act, HEADER, OPENING_CALLS, are_so, disk_after, empty_disk, opened, record, tried,
};
use model_asked::Event;
use service_journal::{DiskFault, MemoryDisk, OpenFault};
use std::alloc::{AllocError, Global};
use std::test::Fail;
use text_checker::{Reason, Verdict};

/// The run, of which two events are committed at a time.
const COMMITS: [Act; 10] = [
    Act::Accepts(Event::Begin(7)),
    Act::Accepts(Event::Enter(8)),
    Act::Commits,
    Act::Accepts(Event::Probe(8)),
    Act::Accepts(Event::Put(8, 1 << 40)),
    Act::Commits,
    Act::Accepts(Event::Get(8)),
    Act::Accepts(Event::Leave(8)),
    Act::Commits,
    Act::Has(6),
];

/// Whether all of these are so of the journal of a disk, and it then has these bytes, all of them durable.
fn has(alloc: Global, disk: MemoryDisk, acts: &[Act], bytes: &[u8]) -> bool {
    match disk_after(alloc, disk, acts) {
        Some(disk) => disk.as_slice() == bytes && disk.synced() == bytes.len(),
        None => false,
    }
}

#[test]
fn commits_write_the_lines_of_a_record(rt: HostRuntime) -> Result<(), Fail> {
    let whole = record(rt.alloc(), 6, b"")?;
    assert!(rt; has(rt.alloc(), empty_disk(rt.alloc()), &COMMITS, &whole));
    Ok(())
}

/// Whether a record of which these bytes are there is mended: a torn header is made whole, and behind it a torn line is cut off.
fn is_mended(alloc: Global, torn: &[u8]) -> Result<bool, AllocError> {
    let lines = torn.iter().filter(|byte| **byte == b'\n').count();
    let events = lines.saturating_sub(1);
    let whole = record(alloc, events, b"")?;
    let disk = MemoryDisk::new(torn.to_vec(alloc)?, ALL_CALLS);
    Ok(has(alloc, disk, &[Act::Has(events)], &whole))
}

#[test]
fn a_record_is_torn_at_each_byte(rt: HostRuntime) -> Result<(), Fail> {
    let whole = record(rt.alloc(), 6, b"")?;
    for end in 0..whole.len() {
        assert!(rt;
            is_mended(rt.alloc(), &whole[..end]) == Ok(true),
            "at {end}"
        );
    }
    Ok(())
}

/// Whether a crash that keeps so many bytes leaves a prefix of the record, with at least the events that were committed before the call
/// that failed: the disk has a header, the call after so many fails, and two events are committed at a time.
fn keeps_what_was_committed(
    alloc: Global,
    whole: &[u8],
    calls: usize,
    keep: usize,
) -> Option<bool> {
    let disk = MemoryDisk::new(HEADER.to_vec(alloc).ok()?, calls);
    let (done, disk) = tried(alloc, disk, &COMMITS)?;
    let left = disk.crashed(keep, ALL_CALLS);
    let begins = whole.starts_with(left.as_slice());
    let opened = opened(alloc, left).ok()?;
    Some(begins && done / 3 * 2 <= opened.write_ahead.hall().len())
}

/// Crashes that keep nothing, a part, or all of what is not durable.
#[test]
fn a_crash_after_each_fault_keeps_what_was_committed(rt: HostRuntime) -> Result<(), Fail> {
    let whole = record(rt.alloc(), 6, b"")?;
    for at in OPENING_CALLS * 4..40 {
        let keep = [0, whole.len() / 4, whole.len() / 2, whole.len()][at % 4];
        let kept = keeps_what_was_committed(rt.alloc(), &whole, at / 4, keep);
        assert!(rt; kept == Some(true), "calls {}, keep {keep}", at / 4);
    }
    Ok(())
}

/// Why the journal of these bytes is not opened, on a disk of which the call after so many fails; none where it is.
fn fault(alloc: Global, bytes: Vec<u8>, calls: usize) -> Option<OpenFault> {
    opened(alloc, MemoryDisk::new(bytes, calls)).err()
}

#[test]
fn a_fault_while_it_is_opened_is_reported(rt: HostRuntime) -> Result<(), Fail> {
    for calls in 0..OPENING_CALLS {
        let reported = fault(rt.alloc(), HEADER.to_vec(rt.alloc())?, calls);
        let is_failed = matches!(reported, Some(OpenFault::Disk(DiskFault::Failed(_))));
        assert!(rt; is_failed, "calls {calls}");
    }
    Ok(())
}

/// What is no record of a hall of the config, and why not.
const OTHERS: [(&[u8], OpenFault); 3] = [
    (
        b"{\"format\":\"slot-record\",\"k\":5,\"limit\":1000,\"m\":2,\"version\":2,\"world\":\"rename\"}\n",
        OpenFault::OtherConfig,
    ),
    (
        b"{\"format\":\"slot-record\",\"k\":4,\"limit\":1000,\"m\":2,\"version\":1,\"world\":\"rename\"}\n",
        OpenFault::OtherConfig,
    ),
    (b"some other file", OpenFault::Judged(Verdict::BadRecord(1))),
];

#[test]
fn other_files_are_refused(rt: HostRuntime) -> Result<(), Fail> {
    for (row, (bytes, due)) in OTHERS.iter().enumerate() {
        let reported = fault(rt.alloc(), bytes.to_vec(rt.alloc())?, ALL_CALLS);
        assert!(rt; reported == Some(*due), "row {row}");
    }
    Ok(())
}

/// What no hall writes behind the first two events, and why that is not opened: a refusal that is not due, one that is, another spelling, and
/// zeros, which are no torn line.
const BEHIND: [(&[u8], OpenFault); 4] = [
    (
        b"{\"command\":\"leave 9\",\"reply\":\"refused 6\"}\n",
        OpenFault::Judged(Verdict::No(4, Reason::Refusal)),
    ),
    (
        b"{\"command\":\"leave 9\",\"reply\":\"refused 8\"}\n",
        OpenFault::OtherLine(4),
    ),
    (
        b"{\"command\": \"probe 8\",\"reply\":\"got 1\"}\n",
        OpenFault::OtherLine(4),
    ),
    (b"{\"comm\0\0\0\0", OpenFault::OtherLine(4)),
];

#[test]
fn lines_that_no_hall_writes_are_refused(rt: HostRuntime) -> Result<(), Fail> {
    for (row, (bytes, due)) in BEHIND.iter().enumerate() {
        let reported = fault(rt.alloc(), record(rt.alloc(), 2, bytes)?, ALL_CALLS);
        assert!(rt; reported == Some(*due), "row {row}");
    }
    Ok(())
}

/// A write-ahead hall that is full takes an event only once its lines were committed.
const IS_BOUNDED: [Act; 6] = [
    Act::Accepts(Event::Enter(8)),
    Act::Accepts(Event::Probe(8)),
    Act::Fills,
    Act::WantsRoom(Event::Get(8)),
    Act::Commits,
    Act::Accepts(Event::Get(8)),
];

#[test]
fn no_more_than_a_megabyte_waits(rt: HostRuntime) {
    assert!(rt; are_so(rt.alloc(), empty_disk(rt.alloc()), &IS_BOUNDED));
}
