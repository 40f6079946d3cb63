//! Front ends that end stays over one log.

use crate::persister_tests::reported;
use crate::stay_doubles::{
    FrontEnd, Site, competing, ended, front_end, left_after, says, seconds_until_alone, sweeps,
};

/// How many steps two front ends make together.
const STEPS: u64 = 200;

// After how many seconds a front end ends the stay of another that has died.
fn outlives(site: &Site) -> Option<u64> {
    let mut dead = front_end(site, b'a')?;
    let mut other = front_end(site, b'b')?;
    if !says(site, &mut dead, b"enter 1\nprobe 1\n", b"ok\ngot 1\n") {
        return None;
    }
    seconds_until_alone(site, &mut other)
}

/// The first look is in the first second, and nothing is heard for the grace time and the 20 seconds for which the dead one may answer.
#[test]
fn stays_of_a_dead_front_end_end(rt: HostRuntime) {
    let seconds = outlives(&Site::new(rt.alloc()));
    assert!(rt; seconds == Some(32), "{seconds:?}");
}

// Whether one that is there goes on: it has an entry every five seconds, and no other ends its stays.
fn lives_on(site: &Site) -> Option<(usize, usize)> {
    let mut here = front_end(site, b'a')?;
    let mut other = front_end(site, b'b')?;
    if !says(site, &mut here, b"enter 1\n", b"ok\n") {
        return None;
    }
    for _ in 0..50 {
        if !sweeps(site, &mut here, &[]) || !sweeps(site, &mut other, &[]) {
            return None;
        }
    }
    Some((competing(&other), site.entries()))
}

/// Two front ends look once each in two seconds of the clock. One of them has an empty entry in second 5, and in each sixth second from then on:
/// 16 of them, beside the line of the config and the `enter`.
#[test]
fn a_front_end_that_is_there_keeps_its_stays(rt: HostRuntime) {
    let left = lives_on(&Site::new(rt.alloc()));
    assert!(rt; left == Some((1, 18)), "{left:?}");
}

// What is left of the stays that nobody keeps at one front end: first a holder, then one that holds nothing, then one that another keeps.
fn ends_its_own(site: &Site) -> Option<[usize; 4]> {
    let mut here = front_end(site, b'a')?;
    let mut other = front_end(site, b'b')?;
    let entered = says(
        site,
        &mut here,
        b"enter 1\nprobe 1\nenter 2\nenter 3\n",
        b"ok\ngot 1\nok\nok\n",
    ) && says(site, &mut other, b"enter 3\n", b"refused 9\n");
    let first = left_after(site, &mut here, &[1])?;
    let second = left_after(site, &mut here, &[2])?;
    let third = left_after(site, &mut here, &[3])?;
    let last = left_after(site, &mut other, &[3])?;
    if !entered {
        return None;
    }
    Some([first, second, third, last])
}

#[test]
fn a_front_end_ends_what_it_keeps_alone(rt: HostRuntime) {
    let left = ends_its_own(&Site::new(rt.alloc()));
    assert!(rt; left == Some([2, 1, 1, 0]), "{left:?}");
}

// What is left where another front end is told `enter` just before a release is put: it is not put further on.
fn is_overtaken(site: &Site) -> Option<[usize; 3]> {
    let mut here = front_end(site, b'a')?;
    if !says(site, &mut here, b"enter 1\n", b"ok\n") {
        return None;
    }
    site.let_come_first(b'b', b'1').ok()?;
    let first = left_after(site, &mut here, &[1])?;
    let second = left_after(site, &mut here, &[1])?;
    Some([first, second, site.entries()])
}

#[test]
fn a_release_that_is_overtaken_is_not_put(rt: HostRuntime) {
    let left = is_overtaken(&Site::new(rt.alloc()));
    assert!(rt; left == Some([1, 1, 3]), "{left:?}");
}

// Whether a front end may answer 19 and 20 seconds after its last entry.
fn may_answer(site: &Site) -> Option<[bool; 2]> {
    let mut here = front_end(site, b'a')?;
    if !says(site, &mut here, b"enter 1\n", b"ok\n") {
        return None;
    }
    for _ in 0..19 {
        site.pass_second();
    }
    let lease = here.lease();
    let first = here.may_answer_stays(lease);
    site.pass_second();
    Some([first, here.may_answer_stays(lease)])
}

#[test]
fn a_front_end_that_is_cut_off_answers_no_more(rt: HostRuntime) {
    let answers = may_answer(&Site::new(rt.alloc()));
    assert!(rt; answers == Some([true, false]), "{answers:?}");
}

// Whether those who kept a stay since a lease may be answered, and those who begin to keep one.
fn may_answer_since(here: &FrontEnd<'_>, lease: u64) -> [bool; 2] {
    [
        here.may_answer_stays(lease),
        here.may_answer_stays(here.lease()),
    ]
}

// The same, behind an entry of clients that was sent in second 15, and stood so many seconds later.
fn may_answer_late(site: &Site, late: u64) -> Option<[bool; 2]> {
    let mut here = front_end(site, b'a')?;
    if !says(site, &mut here, b"enter 1\n", b"ok\n") {
        return None;
    }
    let lease = here.lease();
    for _ in 0..15 {
        site.pass_second();
    }
    site.let_come_late(late);
    if !says(site, &mut here, b"enter 2\n", b"ok\n") {
        return None;
    }
    Some(may_answer_since(&here, lease))
}

// The same, behind an empty entry that was sent in second 15.
fn beats_late(site: &Site, late: u64) -> Option<[bool; 2]> {
    let mut here = front_end(site, b'a')?;
    let entered = says(site, &mut here, b"enter 1\n", b"ok\n");
    if !entered || !sweeps(site, &mut here, &[]) {
        return None;
    }
    let lease = here.lease();
    for _ in 0..13 {
        site.pass_second();
    }
    site.let_come_late(late);
    if !sweeps(site, &mut here, &[]) || site.entries() != 3 {
        return None;
    }
    Some(may_answer_since(&here, lease))
}

/// An entry that stands once others may have ended the stays begins another lease.
#[test]
fn a_late_entry_begins_another_lease(rt: HostRuntime) {
    let in_time = may_answer_late(&Site::new(rt.alloc()), 4);
    assert!(rt; in_time == Some([true, true]), "{in_time:?}");
    let late = may_answer_late(&Site::new(rt.alloc()), 5);
    assert!(rt; late == Some([false, true]), "{late:?}");
}

#[test]
fn a_late_beat_begins_another_lease(rt: HostRuntime) {
    let in_time = beats_late(&Site::new(rt.alloc()), 4);
    assert!(rt; in_time == Some([true, true]), "{in_time:?}");
    let late = beats_late(&Site::new(rt.alloc()), 5);
    assert!(rt; late == Some([false, true]), "{late:?}");
}

// The next drawn number below 64.
fn drawn(state: &mut u64) -> u8 {
    *state = state
        .wrapping_mul(6364136223846793005)
        .wrapping_add(1442695040888963407);
    ((*state >> 33) % 64) as u8
}

// One of two front ends enters an identity for a client, or ends what is to end where nobody keeps one there any more. Sometimes the other is
// told `enter` of that first.
fn one_step(site: &Site, fronts: &mut [FrontEnd<'_>; 2], state: &mut u64) -> Option<bool> {
    let at = usize::from(drawn(state) % 2);
    let id = b'1' + drawn(state) % 6;
    if drawn(state) % 3 == 0 {
        site.let_come_first(b'b' - at as u8, id).ok()?;
    }
    if drawn(state) % 2 == 0 {
        return Some(sweeps(site, &mut fronts[at], &[u64::from(id - b'0')]));
    }
    let mut line = Vec::from_slice(site.alloc, b"enter ").ok()?;
    line.extend_from_slice(&[id, b'\n']).ok()?;
    Some(reported(site.alloc, &mut fronts[at], &line).is_ok())
}

// How many stays two front ends ended that they kept themselves, and how many that the other kept.
fn two_release(site: &Site, seed: u64) -> Option<[usize; 2]> {
    let mut fronts = [front_end(site, b'a')?, front_end(site, b'b')?];
    let mut state = seed;
    for _ in 0..STEPS {
        if !one_step(site, &mut fronts, &mut state)? {
            return None;
        }
    }
    ended(site)
}

// Whether stays were ended, and each by the front end that kept it.
fn end_their_own(stays: Option<[usize; 2]>) -> bool {
    match stays {
        Some(counts) => 10 < counts[0] && counts[1] == 0,
        None => false,
    }
}

#[test]
fn two_end_stays_over_one_log(rt: HostRuntime) {
    for seed in 1..3 {
        let stays = two_release(&Site::new(rt.alloc()), seed);
        assert!(rt; end_their_own(stays), "{seed}: {stays:?}");
    }
}
