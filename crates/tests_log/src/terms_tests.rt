//! Front ends of one log that were started with other terms than its hall has, and changes of these.

use crate::persister_tests::reported;
use crate::stay_doubles::{
    Site, changed_to, competing, front_end, opened_by, says, seconds_until_alone, sweeps,
};
use service_follow::{HallTerms, LogFault, ReplyQueue, TermsChange};
use service_loop::Persist;

/// The terms of `front_end`, and others.
const TEN: HallTerms = HallTerms::Grace(10);

const THREE: HallTerms = HallTerms::Grace(3);

#[test]
fn a_front_end_of_other_terms_does_not_start(rt: HostRuntime) {
    let site = Site::new(rt.alloc());
    assert!(rt; front_end(&site, b'a').is_some());
    for terms in [HallTerms::Forever, THREE] {
        let fault = opened_by(&site, b'b', terms).err();
        assert!(rt; fault == Some(LogFault::OtherTerms(TEN, terms)));
    }
    assert!(rt; front_end(&site, b'b').is_some());
}

// What one that runs answers once the terms were changed, and what a turn and a look at the stays come to.
fn ends_once_changed(site: &Site) -> Option<[Option<LogFault>; 3]> {
    let mut here = front_end(site, b'a')?;
    let mut other = front_end(site, b'b')?;
    let mut third = front_end(site, b'c')?;
    if !says(site, &mut here, b"enter 1\n", b"ok\n") {
        return None;
    }
    if changed_to(site, THREE) != Ok(TermsChange::Stands) {
        return None;
    }
    let mut reply_queue = ReplyQueue::new(site.alloc);
    Some([
        reported(site.alloc, &mut here, b"probe 1\n").err(),
        other.tick(&mut reply_queue).err(),
        third.end_stays(&mut reply_queue, &[]).err(),
    ])
}

#[test]
fn a_front_end_ends_once_the_terms_are_changed(rt: HostRuntime) {
    let due = Some(LogFault::OtherTerms(THREE, TEN));
    let faults = ends_once_changed(&Site::new(rt.alloc()));
    assert!(rt; faults == Some([due, due, due]), "{faults:?}");
}

// What comes of changes: while somebody competes whose number is held forever, once he has left, and once more.
fn changes(site: &Site) -> Option<[bool; 4]> {
    let mut here = opened_by(site, b'a', HallTerms::Forever).ok()?;
    let entered = says(site, &mut here, b"enter 1\n", b"ok\n");
    let held = changed_to(site, TEN) == Ok(TermsChange::Held);
    let left = says(site, &mut here, b"probe 1\nleave 1\n", b"got 1\nleft 1\n");
    let stands = changed_to(site, TEN) == Ok(TermsChange::Stands);
    let entries = site.entries();
    let again = changed_to(site, TEN) == Ok(TermsChange::Stands) && site.entries() == entries;
    Some([entered && held, left, stands, again])
}

#[test]
fn terms_are_changed_once_all_have_left(rt: HostRuntime) {
    let told = changes(&Site::new(rt.alloc()));
    assert!(rt; told == Some([true; 4]), "{told:?}");
}

// After how many seconds the stay of another ends, where its grace time was ten seconds and is three.
fn outlives_a_change(site: &Site, turns: bool) -> Option<u64> {
    let mut dead = front_end(site, b'a')?;
    if !says(site, &mut dead, b"enter 1\nprobe 1\n", b"ok\ngot 1\n") {
        return None;
    }
    if changed_to(site, THREE) != Ok(TermsChange::Stands) {
        return None;
    }
    let mut other = opened_by(site, b'b', THREE).ok()?;
    let mut reply_queue = ReplyQueue::new(site.alloc);
    for second in 1..100 {
        if turns && other.tick(&mut reply_queue).is_err() {
            return None;
        }
        if !sweeps(site, &mut other, &[]) {
            return None;
        }
        if competing(&other) == 0 {
            return Some(second);
        }
    }
    None
}

/// Who was told of ten seconds has them. A turn of the loop takes the shorter time no sooner.
#[test]
fn a_longer_grace_time_lasts(rt: HostRuntime) {
    for turns in [false, true] {
        let seconds = outlives_a_change(&Site::new(rt.alloc()), turns);
        assert!(rt; seconds == Some(32), "{seconds:?}");
    }
}

// After how many seconds the stay of another ends that comes once the longer time has lasted for long enough.
fn outlives_later(site: &Site) -> Option<u64> {
    if front_end(site, b'a').is_none() || changed_to(site, THREE) != Ok(TermsChange::Stands) {
        return None;
    }
    let mut other = opened_by(site, b'b', THREE).ok()?;
    let mut reply_queue = ReplyQueue::new(site.alloc);
    for _ in 0..32 {
        site.pass_second();
    }
    let mut dead = opened_by(site, b'c', THREE).ok()?;
    let entered = says(site, &mut dead, b"enter 1\n", b"ok\n");
    if !entered || other.tick(&mut reply_queue).is_err() {
        return None;
    }
    seconds_until_alone(site, &mut other)
}

#[test]
fn then_the_shorter_one_is_used(rt: HostRuntime) {
    let seconds = outlives_later(&Site::new(rt.alloc()));
    assert!(rt; seconds == Some(25), "{seconds:?}");
}
