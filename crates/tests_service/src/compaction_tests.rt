//! Journals whose hall is compacted, on disks that fail and crash in its midst.

use crate::journals::{ALL_CALLS, Act, OPENING_CALLS, are_so, disk_after, empty_disk};
use model_asked::Event;
use service_journal::MemoryDisk;
use std::alloc::Global;

/// One enters, takes a number, and leaves.
const ENTERS: Act = Act::Accepts(Event::Enter(8));

const PROBES: Act = Act::Accepts(Event::Probe(8));

const LEAVES: Act = Act::Accepts(Event::Leave(8));

/// One begins, and another stays five times: 16 events, that are committed, and not compacted, which is not due.
const RUNS: [Act; 19] = [
    Act::Accepts(Event::Begin(7)),
    ENTERS,
    PROBES,
    LEAVES,
    ENTERS,
    PROBES,
    LEAVES,
    ENTERS,
    PROBES,
    LEAVES,
    ENTERS,
    PROBES,
    LEAVES,
    ENTERS,
    PROBES,
    LEAVES,
    Act::Commits,
    Act::CompactsWhenDue,
    Act::Has(16),
];

/// There are two events, and a third is committed.
const GOES_ON: [Act; 3] = [Act::Has(2), Act::Accepts(Event::Probe(9)), Act::Commits];

/// The disk of a journal with 16 events that was compacted, or told to have failed, behind one more that waits, where the call after so
/// many fails.
fn compacted_disk(alloc: Global, calls: usize, done: bool) -> Option<MemoryDisk> {
    let calls = calls.saturating_add(OPENING_CALLS);
    let disk = disk_after(alloc, empty_disk(alloc), &RUNS)?;
    let acts = [Act::Accepts(Event::Enter(9)), Act::Compacts(done)];
    disk_after(alloc, disk.crashed(usize::MAX, calls), &acts)
}

/// Whether a journal that was compacted goes on after a crash, and what is committed then outlasts another.
fn is_the_new_record(alloc: Global) -> Option<bool> {
    let disk = compacted_disk(alloc, ALL_CALLS, true)?;
    let disk = disk_after(alloc, disk.crashed(0, ALL_CALLS), &GOES_ON)?;
    Some(are_so(alloc, disk.crashed(0, ALL_CALLS), &[Act::Has(3)]))
}

#[test]
fn its_record_is_that_of_the_new_hall(rt: HostRuntime) {
    assert!(rt; is_the_new_record(rt.alloc()) == Some(true));
}

/// A disk whose call after so many fails while a journal is compacted, whether a crash then takes back a replacing that failed, and how
/// many events are left.
const LEFT: [(usize, bool, usize); 8] = [
    (0, false, 16),
    (0, true, 16),
    (1, false, 16),
    (1, true, 16),
    (2, false, 2),
    (2, true, 16),
    (3, false, 2),
    (3, true, 2),
];

/// Whether so many are left by a crash that keeps so many bytes.
fn are_left(alloc: Global, calls: usize, reverts: bool, keep: usize, events: usize) -> bool {
    match compacted_disk(alloc, calls, calls == 3) {
        Some(disk) => {
            let disk = if reverts {
                disk.reverted(keep, ALL_CALLS)
            } else {
                disk.crashed(keep, ALL_CALLS)
            };
            are_so(alloc, disk, &[Act::Has(events)])
        }
        None => false,
    }
}

#[test]
fn a_crash_in_its_midst_leaves_old_or_new(rt: HostRuntime) {
    for (calls, reverts, events) in &LEFT {
        let none = are_left(rt.alloc(), *calls, *reverts, 0, *events);
        let all = are_left(rt.alloc(), *calls, *reverts, usize::MAX, *events);
        assert!(rt; none && all, "{calls} {reverts}");
    }
}
