//! A hall whose history is full, and locks round halls with a session and with a clerk.

ghost use Rattle.std.specs.Prelude.{◌≡◌};

use crate::opening::{Opening, opened};
use model_asked::{Config, Event, Reply, WorldKind};
use model_steps::{Refusal, View};
use service_hall::{Hall, Reads, Rules};
use service_lock::{Act, Clerk, HallLock, LockName, Missing, Session};
use std::alloc::Global;
use std::marker::Brand;
use std::process::Abort;
use std::sync::Wait;

/// A hall for one participant and one number.
fn hall(rt: &impl Abort, alloc: Global) -> Hall {
    let config = Config::new(WorldKind::Rename, 1, 1, 1000).expect(rt, "a config in range");
    Hall::new(alloc, config).expect(rt, "room for a hall")
}

/// Fills a history with events of one who holds a number. Whether it has a million.
fn fill(hall: &mut Hall) -> bool {
    hall.apply(Event::Enter(5));
    hall.apply(Event::Probe(5));
    for value in 2..1_000_000 {
        hall.apply(Event::Put(5, value));
    }
    hall.len() == 1_000_000
}

/// What a hall whose history is full refuses, and why: what else is due is said first.
const REFUSED: [(Event, Refusal); 7] = [
    (Event::Get(5), Refusal::HistoryFull),
    (Event::Leave(5), Refusal::HistoryFull),
    (Event::Begin(7), Refusal::HistoryFull),
    (Event::Widen(2), Refusal::HistoryFull),
    (Event::Widen(1), Refusal::OutOfRange),
    (Event::Get(6), Refusal::NotCompeting),
    (Event::Begin(0), Refusal::ZeroIdentity),
];

/// How many of these it refuses so, up to the first that it does not.
fn refused(hall: &mut Hall) -> usize {
    for (i, (event, refusal)) in REFUSED.iter().enumerate() {
        if hall.apply(*event) != Reply::Refused(*refusal) {
            return i;
        }
    }
    REFUSED.len()
}

/// A history of a million events is full, which is said where nothing else is due.
#[test]
fn a_full_history(rt: HostRuntime) {
    let mut hall = hall(&rt, rt.alloc());
    let reported = (fill(&mut hall), refused(&mut hall), hall.len());
    assert!(rt; reported == (true, 7, 1_000_000), "{reported:?}");
}

/// What a hall replies to reads.
fn reads(hall: &Hall) -> [Reply<()>; 3] {
    [hall.read(5), hall.read(6), hall.read(0)]
}

/// Reads are answered though the history is full, and it stays as it is. All else is refused still.
#[test]
fn reads_of_a_full_history(rt: HostRuntime) {
    let mut hall = hall(&rt, rt.alloc());
    let mut view = View::new();
    let is_full = fill(&mut hall);
    let not_competing = Reply::Refused(Refusal::NotCompeting);
    let due = [Reply::Value(999_999), not_competing, not_competing];
    assert!(rt; reads(&hall) == due);
    let full = Reply::Refused(Refusal::HistoryFull);
    let served = [
        hall.serve_short(Rules::all(Reads::Plain), Event::Get(5), &mut view),
        hall.serve_short(Rules::all(Reads::Logged), Event::Get(5), &mut view),
        hall.serve_short(Rules::all(Reads::Plain), Event::Put(5, 1), &mut view),
    ];
    assert!(rt;
        is_full && served == [Reply::Value(999_999), full, full] && hall.len() == 1_000_000
    );
}

/// What a hall takes, whether its reads are logged, what it replies, and how many events it has then.
const SERVED: [(Event, bool, Reply<()>, usize); 9] = [
    (
        Event::Get(5),
        false,
        Reply::Refused(Refusal::NotCompeting),
        0,
    ),
    (Event::Enter(5), false, Reply::Ok, 1),
    (Event::Get(5), false, Reply::Refused(Refusal::NotHolding), 1),
    (Event::Probe(5), false, Reply::Got(1), 2),
    (Event::Get(5), false, Reply::Value(0), 2),
    (Event::Put(5, 77), false, Reply::Ok, 3),
    (Event::Get(5), false, Reply::Value(77), 3),
    (Event::Get(5), true, Reply::Value(77), 4),
    (Event::Get(5), false, Reply::Value(77), 4),
];

/// How many of these it serves so, up to the first that it does not.
fn served(hall: &mut Hall) -> usize {
    let mut view = View::new();
    for (i, (event, logged, reply, events)) in SERVED.iter().enumerate() {
        let reads = if *logged { Reads::Logged } else { Reads::Plain };
        if hall.serve_short(Rules::all(reads), *event, &mut view) != *reply
            || hall.len() != *events
        {
            return i;
        }
    }
    SERVED.len()
}

/// Reads are stored, or not, as it is said.
#[test]
fn reads_of_a_hall(rt: HostRuntime) {
    let mut hall = hall(&rt, rt.alloc());
    let count = served(&mut hall);
    assert!(rt; count == SERVED.len(), "{count}");
}

/// What rules bar is refused, and changes nothing; all else is served.
#[test]
fn rules_of_a_hall(rt: HostRuntime) {
    let mut hall = hall(&rt, rt.alloc());
    let mut view = View::new();
    let rules = Rules {
        reads: Reads::Plain,
        widening: false,
        naming: false,
        tokens: false,
    };
    let barred = Reply::Refused(Refusal::OutOfRange);
    let served = [
        hall.serve_short(rules, Event::Begin(5), &mut view),
        hall.serve_short(rules, Event::Step(5), &mut view),
        hall.serve_short(rules, Event::Widen(2), &mut view),
        hall.serve_short(rules, Event::Enter(5), &mut view),
    ];
    assert!(rt; served == [barred, barred, barred, Reply::Ok] && hall.len() == 1);
    let named = Rules {
        naming: true,
        tokens: false,
        ..rules
    };
    let widened = Rules {
        widening: true,
        ..rules
    };
    let later = [
        hall.serve_short(named, Event::Begin(5), &mut view),
        hall.serve_short(named, Event::Widen(2), &mut view),
        hall.serve_short(widened, Event::Step(5), &mut view),
        hall.serve_short(widened, Event::Widen(2), &mut view),
    ];
    assert!(rt; later == [Reply::Ok, barred, barred, Reply::Ok] && hall.len() == 3);
}

/// What a session does, with the replies: it takes a number, uses its slot, gives it back, and steps.
const ACTS: [(Act, Reply<()>); 6] = [
    (Act::Enter, Reply::Ok),
    (Act::Probe, Reply::Got(1)),
    (Act::Put(5), Reply::Ok),
    (Act::Get, Reply::Value(5)),
    (Act::Leave, Reply::Left(1)),
    (Act::Step, Reply::Quiet),
];

/// Whether a session acts.
fn acts<L: LockName, R: Wait>(rt: &R, lock: &HallLock<L>, session: &mut Session<L>) -> bool {
    let mut view = View::new();
    for (act, want) in &ACTS {
        if lock.act(rt, session, *act).shorten(&mut view) != *want {
            return false;
        }
    }
    true
}

/// A session that steps, acts and then steps until it is named, beside which no other is opened for the same identity.
fn one_who_acts<L: LockName, R: Abort + Wait>(
    rt: &R,
    alloc: Global,
    lock: &HallLock<L>,
) -> Session<L> {
    let mut session = lock.session(rt, alloc, 7).expect(rt, "room for a session");
    let again = lock.session(rt, alloc, 7).err();
    let is_quiet = lock.step(rt, &mut session) == Reply::Quiet;
    let acted = is_quiet && acts(rt, lock, &mut session);
    let named = [
        lock.rename(rt, &mut session, 6),
        lock.rename(rt, &mut session, 0),
        lock.rename(rt, &mut session, 1),
        lock.rename(rt, &mut session, 1),
    ];
    let are_due = named == [Ok(None), Ok(None), Ok(Some(1)), Err(Refusal::Finished)];
    assert!(rt; acted && are_due && again == Some(Refusal::AlreadyBegun));
    session
}

/// One session of a lock, which closes first without and then with it. The length of the history.
fn one_session<L: LockName, R: Abort + Wait>(rt: &R, alloc: Global, opening: Opening) -> usize
    requires name { (opening.blank.name ≡ L.name) × (opening.blank.parts ≡ L.parts) }
    requires book { opening.history.seen.book ≡ L.book }
    requires config { opening.config ≡ L.config }
{
    let lock = opened::<L>(rt, alloc, opening);
    let session = one_who_acts(rt, alloc, &lock);
    let missing = lock.close(Vec::new(alloc), Vec::new(alloc)).err();
    let Missing {
        lock,
        mut sessions,
        clerks,
    } = missing.expect(rt, "a session is missing");
    sessions.push(session).ok().expect(rt, "room for one more");
    let closed = lock.close(sessions, clerks).ok();
    closed.expect(rt, "each caller is handed in").hall.len()
}

#[test]
fn the_row_of_a_session(rt: HostRuntime) {
    let length = one_session::<Brand, _>(
        &rt,
        rt.alloc(),
        Opening::new(&rt, WorldKind::Rename, 1, 4),
    );
    assert!(rt; length == 15);
}

/// What a clerk applies for 7, which goes its way alone, with the replies.
const WAY: [(Event, Reply<()>); 11] = [
    (Event::Begin(7), Reply::Ok),
    (Event::Step(7), Reply::Quiet),
    (Event::Step(7), Reply::Quiet),
    (Event::Step(7), Reply::Quiet),
    (Event::Step(7), Reply::Place(0)),
    (Event::Step(7), Reply::Quiet),
    (Event::Step(7), Reply::Quiet),
    (Event::Step(7), Reply::Proposed(1)),
    (Event::Step(7), Reply::Quiet),
    (Event::Step(7), Reply::Named(1, ())),
    (Event::Step(7), Reply::Refused(Refusal::Finished)),
];

/// Whether a clerk applies these events with these replies.
fn are_applied<L: LockName, R: Wait>(rt: &R, lock: &HallLock<L>, clerk: &mut Clerk<L>) -> bool {
    let mut view = View::new();
    for (event, want) in &WAY {
        if lock.apply(rt, clerk, *event).shorten(&mut view) != *want {
            return false;
        }
    }
    view.pairs() == [(7, 1)].as_slice()
}

/// Whether the lock says that 1 is 7's, and that 2 is no name.
fn has_one_owner<L: LockName, R: Wait>(rt: &R, lock: &HallLock<L>) -> bool {
    lock.owner(rt, 1) == Reply::Owner(Some(7))
        && lock.owner(rt, 2) == Reply::Refused(Refusal::OutOfRange)
}

/// One participant alone, through a clerk. The length of the history.
fn one_by_clerk<L: LockName, R: Abort + Wait>(rt: &R, alloc: Global, opening: Opening) -> usize
    requires name { (opening.blank.name ≡ L.name) × (opening.blank.parts ≡ L.parts) }
    requires book { opening.history.seen.book ≡ L.book }
    requires config { opening.config ≡ L.config }
{
    let lock = opened::<L>(rt, alloc, opening);
    let mut clerk = lock.clerk(rt, alloc).expect(rt, "room for a clerk");
    assert!(rt; are_applied(rt, &lock, &mut clerk) && has_one_owner(rt, &lock));
    let mut clerks = Vec::new(alloc);
    clerks.push(clerk).ok().expect(rt, "room for one more");
    let closed = lock.close(Vec::new(alloc), clerks).ok();
    closed.expect(rt, "each caller is handed in").hall.len()
}

#[test]
fn the_row_of_a_clerk(rt: HostRuntime) {
    let length = one_by_clerk::<Brand, _>(
        &rt,
        rt.alloc(),
        Opening::new(&rt, WorldKind::Rename, 1, 4),
    );
    assert!(rt; length == 10);
}
