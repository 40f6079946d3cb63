//! Replicas over a log in memory.

use crate::log_doubles::{Late, Lossy, Notebook, SharedLog};
use service_log::{Cause, Group, MemoryStore, Put, Replica, ServeFault, Step, Store, StoreFault};
use std::alloc::{AllocError, Global};
use std::cell::{Cell, RefCell};

/// A machine to which nothing was applied.
fn notebook(alloc: Global, refusals: u64) -> Notebook {
    Notebook {
        alloc,
        entries: Vec::new(alloc),
        refusals,
    }
}

/// A replica to which nothing was applied.
fn replica(alloc: Global, refusals: u64) -> Replica<Notebook> {
    Replica::new(alloc, notebook(alloc, refusals))
}

/// How many batches of the members of a group are answered in a hundred steps that they take in turn.
fn answered(group: &mut Group<Notebook>, replies: &mut Vec<u8>) -> usize {
    let mut answered = 0usize;
    for turn in 0..100usize {
        let at = turn % 2;
        if at < group.len() && group.step(at, &[at as u8], replies) == Ok(Step::Answered) {
            answered = answered.saturating_add(1);
        }
    }
    answered
}

/// Two members of a group: how many of their batches are answered, and how many stand in their log.
fn two_members(alloc: Global) -> Result<(usize, usize), AllocError> {
    let mut group = Group::new(alloc);
    group.join(notebook(alloc, 0))?;
    group.join(notebook(alloc, 0))?;
    let mut replies = Vec::new(alloc);
    let answered = answered(&mut group, &mut replies);
    Ok((answered, group.log().len()))
}

#[test]
fn what_a_group_answers_stands_in_its_log(rt: HostRuntime) {
    let reported = two_members(rt.alloc());
    assert!(rt;
        matches!(reported, Ok((answered, stored)) if 20 < answered && answered == stored),
        "{reported:?}"
    );
}

/// Whether a replica finds what it wrote where the answer of its store was lost.
fn finds_what_was_lost(alloc: Global) -> bool {
    let mut store = Lossy::new(MemoryStore::new(alloc), 1);
    let mut replies = Vec::new(alloc);
    let mut one = replica(alloc, 0);
    let reported = [
        one.serve(&mut store, b"1 a", &mut replies),
        one.serve(&mut store, b"1 a", &mut replies),
    ];
    let lost = ServeFault::Unknown(Cause::Store(StoreFault::Lost));
    reported == [Err(lost), Ok(())]
        && replies.as_slice() == b"\x001 a".as_slice()
        && store.store.len() == 1
}

/// Whether an entry stands once that got there late, and its replies are those due there.
fn finds_what_came_late(alloc: Global) -> bool {
    let mut store = Late::new(alloc, MemoryStore::new(alloc));
    let mut replies = Vec::new(alloc);
    let mut one = replica(alloc, 0);
    let reported = [
        one.serve(&mut store, b"1 a", &mut replies),
        one.serve(&mut store, b"1 a", &mut replies),
        one.serve(&mut store, b"2 a", &mut replies),
    ];
    let lost = ServeFault::Unknown(Cause::Store(StoreFault::Lost));
    reported == [Err(lost), Ok(()), Ok(())]
        && replies.as_slice() == b"\x012 a".as_slice()
        && store.log.len() == 2
}

/// Whether a batch comes to stand behind the entry of a rival that came first, and all that is before it was applied.
fn stands_behind_a_rival(alloc: Global) -> Result<bool, AllocError> {
    let log = RefCell::new(MemoryStore::new(alloc));
    let rival = RefCell::new(Vec::from_slice(alloc, b"2 b")?);
    let (late, seconds) = (Cell::new(0), Cell::new(0));
    let mut store = SharedLog {
        log: &log,
        rival: &rival,
        late: &late,
        seconds: &seconds,
    };
    let mut replies = Vec::new(alloc);
    let mut one = replica(alloc, 0);
    let reported = one.serve(&mut store, b"1 a", &mut replies);
    Ok(reported == Ok(()) && replies.as_slice() == b"\x011 a".as_slice() && one.place() == 2)
}

/// Whether a replica whose machine was refused a growth answers nothing any more.
fn is_poisoned(alloc: Global) -> bool {
    let mut store = MemoryStore::new(alloc);
    let mut replies = Vec::new(alloc);
    let mut one = replica(alloc, 1);
    let reported = [
        one.serve(&mut store, b"1 a", &mut replies),
        one.serve(&mut store, b"2 a", &mut replies),
    ];
    let due = [
        Err(ServeFault::Unknown(Cause::Memory)),
        Err(ServeFault::Unknown(Cause::Poisoned)),
    ];
    reported == due && store.len() == 1 && one.is_poisoned() && replies.is_empty()
}

/// A log of ten entries, of which those below the sixth place were given up, but the first.
fn trimmed(alloc: Global) -> Option<MemoryStore> {
    let mut store = MemoryStore::new(alloc);
    for place in 0..10 {
        if store.put(place, &[place as u8]) != Ok(Put::Written) {
            return None;
        }
    }
    if store.trim(6) == Ok(true) {
        Some(store)
    } else {
        None
    }
}

/// Whether the places that were given up are taken for good, and the others are as they were.
fn are_taken_for_good(alloc: Global) -> Option<bool> {
    let mut store = trimmed(alloc)?;
    let mut entry = Vec::new(alloc);
    let got = [
        store.get(0, &mut entry),
        store.get(1, &mut entry),
        store.get(5, &mut entry),
        store.get(6, &mut entry),
        store.get(10, &mut entry),
    ];
    let put = [store.put(1, b"x"), store.put(5, b"x"), store.put(10, b"x")];
    let trimmed = [store.trim(4), store.trim(12)];
    let gone = Err(StoreFault::Trimmed);
    Some(
        got == [Ok(true), gone, gone, Ok(true), Ok(false)]
            && put == [Ok(Put::Taken), Ok(Put::Taken), Ok(Put::Written)]
            && trimmed == [Ok(true), Err(StoreFault::Gap)]
            && store.trimmed() == Ok(6),
    )
}

/// Whether a replica that is behind is told so, and one that starts at the place goes on.
fn go_on_behind_a_trim(alloc: Global) -> Option<bool> {
    let mut store = trimmed(alloc)?;
    let mut replies = Vec::new(alloc);
    let mut late = replica(alloc, 0);
    let mut later = Replica::at(alloc, notebook(alloc, 0), 6);
    let gone = Cause::Store(StoreFault::Trimmed);
    Some(
        late.catch_up(&mut store, 20, &mut replies) == Err(gone)
            && late.place() == 1
            && late.serve(&mut store, b"1 a", &mut replies) == Err(ServeFault::Unknown(gone))
            && later.serve(&mut store, b"1 a", &mut replies) == Ok(())
            && later.place() == 11
            && store.len() == 11,
    )
}

#[test]
fn a_place_that_was_given_up_is_taken_for_good(rt: HostRuntime) {
    assert!(rt; are_taken_for_good(rt.alloc()) == Some(true));
    assert!(rt; go_on_behind_a_trim(rt.alloc()) == Some(true));
}

#[test]
fn replicas_over_stores_that_fail(rt: HostRuntime) {
    let reported = [
        finds_what_was_lost(rt.alloc()),
        is_poisoned(rt.alloc()),
        finds_what_came_late(rt.alloc()),
    ];
    assert!(rt; reported == [true, true, true], "{reported:?}");
    assert!(rt; stands_behind_a_rival(rt.alloc()) == Ok(true));
}
