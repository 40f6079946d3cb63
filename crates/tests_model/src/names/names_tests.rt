//! Names that are given one after another, and to threads at once.

ghost use Rattle.std.specs.Prelude.{◌≡◌};

use model_steps::Refusal;
use std::alloc::{AllocError, Global};
use std::process::Abort;
use std::thread::{self, Threads};
use words_names::{FreshNameSeat, NameDealer, Names};

/// What an integration test tells of what was made: whether it goes so; or why it was not made.
pub type Reported = Result<bool, Refusal>;

/// Stops an integration test unless in this case of it, named by a row or a round, what it tells is what is due.
pub fn same(rt: &impl Abort, case: usize, reported: Reported, due: Reported) {
    assert_eq!(rt; reported, due, "case {case}");
}

/// An identity of 64 bits for a seat: the least first.
pub fn identity_at(number: u64) -> u64 {
    (u64::MAX - 64).saturating_add(number)
}

/// The name of the next seat, which is dealt to this identity.
fn name_as(names: &Names<Global>, dealer: &mut NameDealer, identity: u64) -> Option<u64>
    requires ours { dealer.old.names ≡ names.now }
    ensures ours { dealer.new.names ≡ names.now }
{
    let fresh = names.deal(dealer, identity).ok()?;
    let mut renamed = names.rename(fresh);
    names.tally(dealer, &mut renamed);
    Some(names.name(&renamed))
}

/// Whether the last name is this, where so many seats are renamed one after another.
fn last_is(alloc: Global, most: u64, count: u64, due: Option<u64>) -> Result<bool, Refusal> {
    let (names, dealer) = Names::new(alloc, most)?;
    let mut dealer = dealer;
    let mut last = None;
    for _ in 0..count {
        let identity = identity_at(dealer.dealt());
        last = name_as(&names, &mut dealer, identity);
    }
    Ok(last == due)
}

/// For how many, how many come one after another; the last name, and whether it is that, or why there are no names. The k-th that
/// comes has the greatest identity so far. So it is the last of the first instance where k come, and has the name `2k - 1`.
const NAMED: [(u64, u64, Option<u64>, Result<bool, Refusal>); 8] = [
    (0, 1, None, Err(Refusal::OutOfRange)),
    (65, 1, None, Err(Refusal::OutOfRange)),
    (1, 1, Some(1), Ok(true)),
    (1, 2, None, Ok(true)),
    (2, 2, Some(3), Ok(true)),
    (16, 16, Some(31), Ok(true)),
    (16, 3, Some(5), Ok(true)),
    (64, 64, Some(127), Ok(true)),
];

#[test]
fn each_that_comes_later_has_the_next_odd_name(rt: HostRuntime) {
    for (i, (most, count, last, due)) in NAMED.iter().enumerate() {
        same(&rt, i, last_is(rt.alloc(), *most, *count, *last), *due);
    }
}

/// Whether the last of these identities has this name, which are renamed one after another.
fn last_of(alloc: Global, identities: &[u64], due: u64) -> Result<bool, Refusal> {
    let (names, dealer) = Names::new(alloc, identities.len() as u64)?;
    let mut dealer = dealer;
    let mut last = None;
    for identity in identities {
        last = name_as(&names, &mut dealer, *identity);
    }
    Ok(last == Some(due))
}

/// Identities that come one after another, and the name of the last. The second of two has the last name of the first instance
/// if its identity is the greater one. If not, it turns to the instance of one seat that goes down from 2.
const ORDERED: [(&[u64], u64); 4] = [
    (&[1, 2], 3),
    (&[2, 1], 2),
    (&[7, u64::MAX], 3),
    (&[u64::MAX, 7], 2),
];

#[test]
fn the_greater_identity_has_the_greater_name(rt: HostRuntime) {
    for (i, (identities, last)) in ORDERED.iter().enumerate() {
        same(&rt, i, last_of(rt.alloc(), identities, *last), Ok(true));
    }
}

/// A thread's part: the names, and a seat of theirs.
#[derive(Drop)]
pub struct Caller<'a> {
    pub names: &'a Names<Global>,
    pub seat: FreshNameSeat,
    ghost ours: { seat.names ≡ names.now },
}

/// The name of a seat.
pub fn name_of(caller: Caller<'_>) -> u64 {
    let Caller { names, seat } = caller;
    names.name(&names.rename(seat))
}

/// So many callers, each with a seat of its own, as far as there are seats.
pub fn callers_of<'a>(
    alloc: Global,
    names: &'a Names<Global>,
    mut dealer: NameDealer,
    count: u64,
) -> Result<Vec<Caller<'a>, Global>, AllocError>
    requires ours { dealer.names ≡ names.now }
{
    let mut callers = Vec::new(alloc);
    for _ in 0..count {
        let identity = identity_at(dealer.dealt());
        if let Ok(seat) = names.deal(&mut dealer, identity) {
            callers.push(Caller { names, seat })?;
        }
    }
    Ok(callers)
}

/// Whether these are names below twice this number, no two alike.
pub fn are_distinct(names: &[u64], count: u64) -> bool {
    for (i, name) in names.iter().enumerate() {
        if *name < 1 || count.saturating_mul(2) <= *name || names[..i].contains(name) {
            return false;
        }
    }
    true
}

/// Whether so many threads that are renamed at once, of so many seats, have names of their own below twice their number.
fn have_names<R: Threads + Sync>(
    rt: &R,
    alloc: Global,
    most: u64,
    count: u64,
) -> Result<bool, Refusal> {
    let (names, dealer) = Names::new(alloc, most)?;
    let callers = callers_of(alloc, &names, dealer, count)?;
    let reported = thread::map_vec(rt, callers, &|caller| name_of(caller))?;
    Ok(reported.len() as u64 == count && are_distinct(&reported, count))
}

/// A thousand races from this one on, each hundredth of 64 threads. Ten tests make ten thousand, each in the minute that a test has.
fn race<R: Threads + Sync + Abort>(rt: &R, alloc: Global, first: u64) {
    for round in first..first.saturating_add(1_000) {
        let most = if round % 100 == 0 { 64 } else { 2 + round % 15 };
        same(
            rt,
            round as usize,
            have_names(rt, alloc, most, most),
            Ok(true),
        );
    }
}

#[test]
fn threads_have_names_of_their_own_from_0(rt: HostRuntime) {
    race(&rt, rt.alloc(), 0);
}

#[test]
fn threads_have_names_of_their_own_from_1000(rt: HostRuntime) {
    race(&rt, rt.alloc(), 1_000);
}

#[test]
fn threads_have_names_of_their_own_from_2000(rt: HostRuntime) {
    race(&rt, rt.alloc(), 2_000);
}

#[test]
fn threads_have_names_of_their_own_from_3000(rt: HostRuntime) {
    race(&rt, rt.alloc(), 3_000);
}

#[test]
fn threads_have_names_of_their_own_from_4000(rt: HostRuntime) {
    race(&rt, rt.alloc(), 4_000);
}

#[test]
fn threads_have_names_of_their_own_from_5000(rt: HostRuntime) {
    race(&rt, rt.alloc(), 5_000);
}

#[test]
fn threads_have_names_of_their_own_from_6000(rt: HostRuntime) {
    race(&rt, rt.alloc(), 6_000);
}

#[test]
fn threads_have_names_of_their_own_from_7000(rt: HostRuntime) {
    race(&rt, rt.alloc(), 7_000);
}

#[test]
fn threads_have_names_of_their_own_from_8000(rt: HostRuntime) {
    race(&rt, rt.alloc(), 8_000);
}

#[test]
fn threads_have_names_of_their_own_from_9000(rt: HostRuntime) {
    race(&rt, rt.alloc(), 9_000);
}

/// Of 64 seats few come: their names are below twice their number.
#[test]
fn few_of_many_have_low_names(rt: HostRuntime) {
    for round in 0..100u64 {
        let count = 1 + round % 8;
        same(
            &rt,
            round as usize,
            have_names(&rt, rt.alloc(), 64, count),
            Ok(true),
        );
    }
}

/// Why a seat is refused to an identity, where these were dealt one.
fn refusal_after(alloc: Global, most: u64, known: &[u64], identity: u64) -> Result<bool, Refusal> {
    let (names, dealer) = Names::new(alloc, most)?;
    let mut dealer = dealer;
    for other in known {
        names.deal(&mut dealer, *other)?;
    }
    let seat = names.deal(&mut dealer, identity)?;
    Ok(seat.identity() == identity && seat.number() == known.len() as u64)
}

/// How many seats there are, to whom some were dealt, who asks next, and what is reported.
const DEALT: [(u64, &[u64], u64, Result<bool, Refusal>); 7] = [
    (2, &[], 0, Err(Refusal::ZeroIdentity)),
    (2, &[7], 7, Err(Refusal::AlreadyBegun)),
    (2, &[7], u64::MAX, Ok(true)),
    (2, &[7, 8], 7, Err(Refusal::AlreadyBegun)),
    (2, &[7, 8], 9, Err(Refusal::Full)),
    (2, &[7, 8], 0, Err(Refusal::ZeroIdentity)),
    (64, &[1, 2, 3], 4, Ok(true)),
];

#[test]
fn each_identity_is_dealt_one_seat(rt: HostRuntime) {
    for (i, (most, known, identity, due)) in DEALT.iter().enumerate() {
        same(
            &rt,
            i,
            refusal_after(rt.alloc(), *most, known, *identity),
            *due,
        );
    }
}
