//! Journals on disks in memory, what is done with them, and a short run with its record.

use model_asked::{Config, Event, Reply, WorldKind};
use model_steps::{Refusal, View};
use service_hall::{Compactor, compacted};
use service_journal::{Journal, MOST_WAITING, MemoryDisk, OpenFault, Opened, WriteAhead};
use std::alloc::{AllocError, Global};
use text_worlds::Service;

/// No call of such a disk fails.
pub(crate) const ALL_CALLS: usize = 1 << 60;

/// How many calls of its disk open a journal that is whole: it is read, nothing is appended, and that is synced.
pub(crate) const OPENING_CALLS: usize = 3;

/// The header of the run's record.
pub(crate) const HEADER: &[u8] =
    b"{\"format\":\"slot-record\",\"k\":4,\"limit\":1000,\"m\":2,\"version\":2,\"world\":\"rename\"}\n";

/// The lines of its record.
const LINES: [&[u8]; 6] = [
    b"{\"command\":\"begin 7\",\"reply\":\"ok\"}\n",
    b"{\"command\":\"enter 8\",\"reply\":\"ok\"}\n",
    b"{\"command\":\"probe 8\",\"reply\":\"got 1\"}\n",
    b"{\"command\":\"put 8 1099511627776\",\"reply\":\"ok\"}\n",
    b"{\"command\":\"get 8\",\"reply\":\"value 1099511627776\"}\n",
    b"{\"command\":\"leave 8\",\"reply\":\"left 1\"}\n",
];

/// The record of so many events of the run, and these bytes behind it.
pub(crate) fn record(alloc: Global, events: usize, more: &[u8]) -> Result<Vec<u8>, AllocError> {
    let mut bytes = HEADER.to_vec(alloc)?;
    for line in LINES.iter().take(events) {
        bytes.extend_from_slice(line)?;
    }
    bytes.extend_from_slice(more)?;
    Ok(bytes)
}

/// What is tried of a journal and its write-ahead hall.
#[derive(Drop)]
pub(crate) enum Act {
    /// An event is accepted.
    Accepts(Event),
    /// Values are accepted until so many lines wait that no more may.
    Fills,
    /// An event is refused for want of room.
    WantsRoom(Event),
    /// What waits is committed.
    Commits,
    /// A hall that is compacted takes the place of its own, or that fails.
    Compacts(bool),
    /// It is compacted where that is due.
    CompactsWhenDue,
    /// It has so many events.
    Has(usize),
}

/// Opens the journal of a disk, whose hall has at most 2 participants and 4 numbers.
pub(crate) fn opened(alloc: Global, disk: MemoryDisk) -> Result<Opened<MemoryDisk>, OpenFault> {
    match Config::new(WorldKind::Rename, 2, 4, 1000) {
        Ok(config) => Journal::open(alloc, disk, config).map_err(|refused| refused.fault),
        Err(_) => Err(OpenFault::NoNames),
    }
}

/// What a write-ahead hall answers an event.
pub(crate) fn reply_to(write_ahead: &mut WriteAhead, event: Event) -> Reply<()> {
    let mut view = View::new();
    write_ahead.apply(&(), event, &mut view)
}

/// Whether values are accepted until so many lines wait that no more may, and these are no more than may.
fn fills(write_ahead: &mut WriteAhead) -> bool {
    for value in 0..100_000 {
        if write_ahead.is_full() {
            return write_ahead.waiting().len() <= MOST_WAITING;
        }
        if reply_to(write_ahead, Event::Put(8, value)).is_refusal() {
            return false;
        }
    }
    false
}

/// Whether a hall that is compacted takes the place of a write-ahead hall's, or fails to, as said.
fn compacts(
    alloc: Global,
    journal: &mut Journal<MemoryDisk>,
    write_ahead: &mut WriteAhead,
    done: bool,
) -> bool {
    match compacted(alloc, write_ahead.hall()) {
        Some(hall) => matches!(journal.compact(alloc, write_ahead, hall), Ok(true)) == done,
        None => false,
    }
}

/// Whether it may be compacted where that is due.
fn compacts_when_due(
    alloc: Global,
    journal: &mut Journal<MemoryDisk>,
    write_ahead: &mut WriteAhead,
) -> bool {
    let mut compactor = Compactor::new();
    let outcome = journal.compact_when_due(alloc, &mut compactor, write_ahead);
    outcome.is_ok()
}

/// Whether something is so of a journal and its write-ahead hall.
fn is_so(
    alloc: Global,
    journal: &mut Journal<MemoryDisk>,
    write_ahead: &mut WriteAhead,
    act: &Act,
) -> bool {
    match act {
        Act::Accepts(event) => !reply_to(write_ahead, *event).is_refusal(),
        Act::Fills => fills(write_ahead),
        Act::WantsRoom(event) => {
            reply_to(write_ahead, *event) == Reply::Refused(Refusal::NoMemory)
        }
        Act::Commits => journal.commit(write_ahead).is_ok(),
        Act::Compacts(done) => compacts(alloc, journal, write_ahead, *done),
        Act::CompactsWhenDue => compacts_when_due(alloc, journal, write_ahead),
        Act::Has(events) => write_ahead.hall().len() == *events,
    }
}

/// How many of these are so, one after another, up to the first that is not.
fn how_many_are_so(
    alloc: Global,
    journal: &mut Journal<MemoryDisk>,
    write_ahead: &mut WriteAhead,
    acts: &[Act],
) -> usize {
    let mut count = 0usize;
    for act in acts {
        if !is_so(alloc, journal, write_ahead, act) {
            return count;
        }
        count = count.saturating_add(1);
    }
    count
}

/// As many of a journal that was opened, and its disk then.
fn tried_in(alloc: Global, opened: Opened<MemoryDisk>, acts: &[Act]) -> (usize, MemoryDisk) {
    let Opened {
        mut journal,
        mut write_ahead,
    } = opened;
    let count = how_many_are_so(alloc, &mut journal, &mut write_ahead, acts);
    (count, journal.into_disk())
}

/// As many of the journal of a disk, and the disk then; none where it is not opened.
pub(crate) fn tried(alloc: Global, disk: MemoryDisk, acts: &[Act]) -> Option<(usize, MemoryDisk)> {
    match opened(alloc, disk) {
        Ok(opened) => Some(tried_in(alloc, opened, acts)),
        Err(_) => None,
    }
}

/// The disk of a journal of which all of these are so; none where they are not.
pub(crate) fn disk_after(alloc: Global, disk: MemoryDisk, acts: &[Act]) -> Option<MemoryDisk> {
    let (count, disk) = tried(alloc, disk, acts)?;
    (count == acts.len()).then_some(disk)
}

/// Whether all of these are so of the journal of a disk.
pub(crate) fn are_so(alloc: Global, disk: MemoryDisk, acts: &[Act]) -> bool {
    disk_after(alloc, disk, acts).is_some()
}

/// A disk with nothing on it, of which no call fails.
pub(crate) fn empty_disk(alloc: Global) -> MemoryDisk {
    MemoryDisk::new(Vec::new(alloc), ALL_CALLS)
}
