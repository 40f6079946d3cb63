//! Front ends of one log that compact its history, beside one of another log that never does.

use crate::front_tests::{draw_lines, drawn};
use crate::persister_tests::reported;
use crate::stay_doubles::{self, FrontEnd, Site, front_end, reading};
use service_follow::{LogFault, ReplyQueue};
use service_hall::{Hall, is_same};
use service_log::Store;
use service_loop::Persist;
use std::alloc::Global;

/// At how many events a compaction is due.
const DUE: usize = 60;

/// At how many entries since the last.
const DUE_ENTRIES: u64 = 20;

/// How many batches are served.
const BATCHES: usize = 150;

/// A front end that compacts at few events.
fn compacting(site: &Site, letter: u8) -> Option<FrontEnd<'_>> {
    let mut front = front_end(site, letter)?;
    front.compact_at(DUE);
    Some(front)
}

/// What a front end answers to lines, where a compaction may be due before it.
fn says(alloc: Global, front: &mut FrontEnd<'_>, lines: &[u8]) -> Option<Vec<u8>> {
    front.compact_at(DUE);
    reported(alloc, front, lines).ok()?
}

/// Has three front ends of a log serve drawn lines in drawn order, the one behind the other, and one of another log the same
/// lines. Tells whether all answers are the same, and the history of the first is shorter.
fn go_as_one(site: &Site, plain: &Site, seed: u64) -> Option<bool> {
    let alloc = site.alloc;
    let mut first = compacting(site, b'a')?;
    let mut second = compacting(site, b'b')?;
    let mut third = compacting(site, b'c')?;
    let mut other = front_end(plain, b'p')?;
    let mut state = seed;
    let mut lines = Vec::new(alloc);
    for _ in 0..BATCHES {
        lines.clear();
        draw_lines(&mut state, &mut lines).ok()?;
        let said = match drawn(&mut state) % 3 {
            0 => says(alloc, &mut first, &lines)?,
            1 => says(alloc, &mut second, &lines)?,
            _ => says(alloc, &mut third, &lines)?,
        };
        let want = reported(alloc, &mut other, &lines).ok()??;
        if said.as_slice() != want.as_slice() {
            return Some(false);
        }
    }
    let _ = says(alloc, &mut first, b"get 1\n")?;
    Some(first.hall().len() < other.hall().len() && plain.entries() < site.entries())
}

/// Whether two halls have one history.
fn are_one(one: &Hall, other: &Hall) -> bool {
    if one.len() != other.len() {
        return false;
    }
    for place in 0..one.len() {
        let (Some(exchange), Some(beside)) = (one.get(place), other.get(place)) else {
            return false;
        };
        if !is_same(&exchange, &beside) {
            return false;
        }
    }
    true
}

/// A front end that starts by a hint.
fn hinted(site: &Site, place: u64) -> Option<FrontEnd<'_>> {
    if !site.hint_at(place) {
        return None;
    }
    front_end(site, b'd')
}

/// Whether a front end that starts at any place of a log has the hall of one that starts at the first.
fn start_alike(site: &Site) -> Option<bool> {
    let all = hinted(site, 0)?;
    let past = site.entries().saturating_add(2);
    for place in 0..past {
        let later = hinted(site, place as u64)?;
        if later.len() != all.len() || !are_one(later.hall(), all.hall()) {
            return Some(false);
        }
    }
    Some(true)
}

/// Whether that is so of the log of front ends of which each ended in the midst of what it did, and lines are answered there
/// as from the first entry on.
fn outlast(site: &Site, entries: usize) -> Option<bool> {
    let cut = site.cut(entries)?;
    let beside = site.cut(entries)?;
    let mut all = hinted(&cut, 0)?;
    let mut later = hinted(&beside, (entries / 2) as u64)?;
    let lines = b"enter 1\nprobe 1\nput 1 5\nget 2\nleave 3\nbegin 4\nstep 4\n";
    let one = says(site.alloc, &mut all, lines)?;
    let other = reported(site.alloc, &mut later, lines).ok()??;
    Some(one.as_slice() == other.as_slice())
}

#[test]
fn front_ends_that_compact_answer_as_one_that_does_not(rt: HostRuntime) {
    for seed in 1..6 {
        let site = Site::new(rt.alloc());
        let plain = Site::new(rt.alloc());
        assert!(rt; go_as_one(&site, &plain, seed) == Some(true), "seed {seed}");
    }
}

#[test]
fn a_start_by_any_hint_is_one_from_the_first_entry(rt: HostRuntime) {
    let site = Site::new(rt.alloc());
    let plain = Site::new(rt.alloc());
    assert!(rt; go_as_one(&site, &plain, 7) == Some(true));
    assert!(rt; start_alike(&site) == Some(true));
}

#[test]
fn a_compaction_that_stops_in_its_midst_holds_nobody_up(rt: HostRuntime) {
    let site = Site::new(rt.alloc());
    let plain = Site::new(rt.alloc());
    assert!(rt; go_as_one(&site, &plain, 8) == Some(true));
    for entries in 1..site.entries() {
        assert!(rt; outlast(&site, entries) == Some(true), "{entries} entries");
    }
}

/// One that compacts at few entries, too.
fn resting(site: &Site, letter: u8) -> Option<FrontEnd<'_>> {
    let mut front = reading(site, letter)?;
    front.compact_at_entries(DUE_ENTRIES);
    Some(front)
}

/// A front end is asked so often for what is no event, and answers.
fn asks(site: &Site, front: &mut FrontEnd<'_>, times: u64) -> Option<()> {
    for _ in 0..times {
        if !stay_doubles::says(site, front, b"leave 2\nget 1\n", b"refused 8\nvalue 7\n") {
            return None;
        }
    }
    Some(())
}

/// It is so that a front end has something to tell.
fn begins(site: &Site, front: &mut FrontEnd<'_>) -> Option<()> {
    let lines = b"enter 1\nprobe 1\nput 1 7\n";
    if stay_doubles::says(site, front, lines, b"ok\ngot 1\nok\n") {
        Some(())
    } else {
        None
    }
}

/// A second passes for a front end for which no client is there.
fn ticks(site: &Site, front: &mut FrontEnd<'_>) -> Option<()> {
    let mut reply_queue = ReplyQueue::new(site.alloc);
    front.tick(&mut reply_queue).ok()
}

/// How many compactions a front end has read.
fn compactions(site: &Site, front: &FrontEnd<'_>) -> Option<u64> {
    front.tally(&ReplyQueue::new(site.alloc)).compactions
}

/// Requests that are no events lead to compactions, each of the very same history, and to one who starts behind the last of them.
fn compact_refused(site: &Site) -> Option<bool> {
    let mut front = resting(site, b'a')?;
    begins(site, &mut front)?;
    asks(site, &mut front, 5 * DUE_ENTRIES)?;
    let mut later = reading(site, b'b')?;
    let since = front.entries_since_compaction();
    let is_compacted = 4 <= compactions(site, &front)? && since <= DUE_ENTRIES;
    let is_alike = are_one(front.hall(), later.hall()) && front.hall().len() == 3;
    let starts_behind = compactions(site, &later)? == 1
        && later.entries_since_compaction() == since;
    asks(site, &mut later, 1)?;
    Some(is_compacted && is_alike && starts_behind)
}

/// Front ends that nobody asks for anything compact what others made, once in all. Tells how many compactions each of two read, and how many entries they
/// have applied since.
fn compact_at_rest(site: &Site) -> Option<[u64; 4]> {
    let mut asked = reading(site, b'a')?;
    let mut one = resting(site, b'b')?;
    let mut other = resting(site, b'c')?;
    begins(site, &mut asked)?;
    asks(site, &mut asked, 3 * DUE_ENTRIES)?;
    ticks(site, &mut one)?;
    ticks(site, &mut other)?;
    ticks(site, &mut one)?;
    Some([
        compactions(site, &one)?,
        compactions(site, &other)?,
        one.entries_since_compaction(),
        other.entries_since_compaction(),
    ])
}

#[test]
fn entries_without_events_lead_to_compactions(rt: HostRuntime) {
    assert!(rt; compact_refused(&Site::new(rt.alloc())) == Some(true));
}

/// The place of a log below which entries were given up.
fn trimmed(site: &Site) -> Option<u64> {
    match site.log.try_borrow_mut() {
        Ok(mut log) => log.trimmed().ok(),
        Err(_) => None,
    }
}

/// A log of a front end that compacts, of which entries are given up once later compactions stand for long enough. Tells how many were before, and then.
fn give_up(site: &Site, front: &mut FrontEnd<'_>) -> Option<(u64, u64)> {
    begins(site, front)?;
    asks(site, front, 5 * DUE_ENTRIES)?;
    let before = trimmed(site)?;
    for _ in 0..20 {
        site.pass_second();
    }
    asks(site, front, 1)?;
    Some((before, trimmed(site)?))
}

/// A front end that was away is told that entries were given up. One that starts by any hint goes on, and so do the others.
fn outlast_a_trim(site: &Site) -> Option<bool> {
    let mut away = reading(site, b'c')?;
    let mut front = resting(site, b'a')?;
    let (before, then) = give_up(site, &mut front)?;
    for place in [0, 1, then, then.saturating_add(9), 1_000] {
        let later = hinted(site, place)?;
        if later.len() != front.len() || !are_one(later.hall(), front.hall()) {
            return Some(false);
        }
    }
    asks(site, &mut front, 1)?;
    let told = reported(site.alloc, &mut away, b"get 1\n");
    Some(before == 0 && 0 < then && matches!(told, Err(LogFault::Trimmed)))
}

#[test]
fn one_that_was_away_for_compactions_is_told_so(rt: HostRuntime) {
    assert!(rt; outlast_a_trim(&Site::new(rt.alloc())) == Some(true));
}

#[test]
fn a_hall_at_rest_is_compacted_once(rt: HostRuntime) {
    let told = compact_at_rest(&Site::new(rt.alloc()));
    assert!(rt; told == Some([1, 1, 0, 0]), "{told:?}");
}
