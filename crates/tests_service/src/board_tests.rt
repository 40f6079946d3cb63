//! Sessions of a lock, each in a thread, that post their names on a board.

ghost use Rattle.std.specs.Prelude.{◌≡◌, All, IfSome};

use crate::opening::{Opening, opened};
use model_asked::WorldKind;
use service_lock::{Closed, HallLock, LockName, Session, agrees, post_name};
use std::alloc::Global;
use std::marker::Brand;
use std::process::Abort;
use std::sync::Wait;
use std::thread;
use std::thread::Threads;
use words_machine::parts::{Board, Grant, ReaderSeat};

/// What a thread is given: a session, and a seat of the board.
#[derive(Drop)]
struct Job<L: LockName> {
    session: Session<L>,
    seat: ReaderSeat,
}

/// What a thread hands back: its session, and the grant of the name that it got.
#[derive(Drop)]
struct Posted<L: LockName> {
    session: Session<L>,
    grant: Option<Grant>,
}

/// Steps until the session is named, and posts the name, once the lock was released.
fn rename_and_post<L: LockName, R: Wait>(
    rt: &R,
    lock: &HallLock<L>,
    board: &Board<Global>,
    job: Job<L>,
) -> Posted<L>
    requires { job.seat.board ≡ board.now }
    ensures { IfSome result.grant (λ g. g.board ≡ board.now) }
{
    let Job {
        mut session,
        mut seat,
    } = job;
    let name = lock.rename(rt, &mut session, 100_000).unwrap_or(None);
    let grant = match post_name(&session, board, &mut seat) {
        Some(grant) if Some(grant.name()) == name => Some(grant),
        _ => None,
    };
    Posted { session, grant }
}

/// The same by as many threads.
fn all_posted<L: LockName + Send + Sync, R: Threads + Wait + Sync>(
    rt: &R,
    lock: &HallLock<L>,
    board: &Board<Global>,
    jobs: Vec<Job<L>>,
) -> Option<Vec<Posted<L>>>
    requires { All (λ j. j.seat.board ≡ board.now) jobs.items }
    ensures { IfSome result (λ v. All (λ p. IfSome p.grant (λ g. g.board ≡ board.now)) v.items) }
{
    thread::map_vec(rt, jobs, &|job| rename_and_post(rt, lock, board, job)).ok()
}

/// Takes what one thread handed back: its session is put beside the others, and its grant is answered.
fn take_one<L: LockName>(
    rt: &impl Abort,
    board: &Board<Global>,
    done: &mut Vec<Posted<L>>,
    sessions: &mut Vec<Session<L>>,
) -> Grant
    requires { All (λ p. IfSome p.grant (λ g. g.board ≡ board.now)) done.old.items }
    ensures rest { All (λ p. IfSome p.grant (λ g. g.board ≡ board.now)) done.new.items }
    ensures grant { result.board ≡ board.now }
{
    let Posted { session, grant } = done.pop().expect(rt, "one for each thread");
    sessions.push(session).ok().expect(rt, "room for a session");
    grant.expect(rt, "one that is named posts its name")
}

/// A session and a seat for each of four identities.
fn four_jobs<L: LockName, R: Wait>(
    rt: &R,
    alloc: Global,
    lock: &HallLock<L>,
    board: &Board<Global>,
    seat: &mut ReaderSeat,
) -> Option<Vec<Job<L>>>
    requires { seat.old.board ≡ board.now }
    ensures { IfSome result (λ v. All (λ j. j.seat.board ≡ board.now) v.items) }
{
    let mut jobs = Vec::new(alloc);
    for id in 1..=4u64 {
        let session = lock.session(rt, alloc, id).ok()?;
        let seat = board.reader(seat);
        let Ok(()) = jobs.push(Job { session, seat }) else {
            return None;
        };
    }
    Some(jobs)
}

/// Every two of four grants meet.
fn all_meet(
    board: &Board<Global>,
    one: &mut Grant,
    two: &mut Grant,
    three: &mut Grant,
    four: &mut Grant,
)
    requires { (one.old.board ≡ board.now) × (two.old.board ≡ board.now) × (three.old.board ≡ board.now) × (four.old.board ≡ board.now) }
    ensures { four.new.board ≡ board.now }
{
    board.meet(one, two);
    board.meet(one, three);
    board.meet(one, four);
    board.meet(two, three);
    board.meet(two, four);
    board.meet(three, four);
}

/// How long the lists of these are together.
fn kept_by<L: LockName>(sessions: &Vec<Session<L>>) -> usize {
    let mut kept = 0usize;
    for session in sessions {
        kept = kept.wrapping_add(session.count());
    }
    kept
}

/// What four threads hand back that were named and posted their names: their sessions, and one of the grants, every two of which
/// have met.
fn four_posted<L: LockName + Send + Sync, R: Abort + Threads + Wait + Sync>(
    rt: &R,
    alloc: Global,
    lock: &HallLock<L>,
    board: &Board<Global>,
    seat: &mut ReaderSeat,
) -> (Vec<Session<L>>, Grant)
    requires { seat.old.board ≡ board.now }
    ensures { result.1.board ≡ board.now }
{
    let jobs = four_jobs(rt, alloc, lock, board, seat).expect(rt, "four sessions");
    let mut done = all_posted(rt, lock, board, jobs).expect(rt, "room for what threads answer");
    let mut sessions = Vec::new(alloc);
    let mut one = take_one(rt, board, &mut done, &mut sessions);
    let mut two = take_one(rt, board, &mut done, &mut sessions);
    let mut three = take_one(rt, board, &mut done, &mut sessions);
    let mut four = take_one(rt, board, &mut done, &mut sessions);
    all_meet(board, &mut one, &mut two, &mut three, &mut four);
    (sessions, four)
}

/// Whether the words of a board are four, and agree with the history of a lock that closes with these sessions, and whether that is as
/// long as their lists together.
fn closes_so<L: LockName>(
    rt: &impl Abort,
    alloc: Global,
    lock: HallLock<L>,
    board: Board<Global>,
    sessions: Vec<Session<L>>,
    grant: Grant,
) -> bool
    requires { grant.board ≡ board }
{
    let words = board.close(grant).expect(rt, "room for the words");
    let kept = kept_by(&sessions);
    let closed = lock.close(sessions, Vec::new(alloc)).ok();
    let closed = closed.expect(rt, "each caller is handed in");
    let posted = words.iter().filter(|word| **word != 0).count();
    posted == 4 && agrees(&closed, &words) && closed.hall.len() == kept
}

/// Four threads are named and post their names, and their board and their lock close so.
fn four_post<L: LockName + Send + Sync, R: Abort + Threads + Wait + Sync>(
    rt: &R,
    alloc: Global,
    opening: Opening,
) -> bool
    requires name { (opening.blank.name ≡ L.name) × (opening.blank.parts ≡ L.parts) }
    requires book { opening.history.seen.book ≡ L.book }
    requires config { opening.config ≡ L.config }
{
    let lock = opened::<L>(rt, alloc, opening);
    let (board, mut seat) = Board::new(alloc, 7).expect(rt, "room for a board");
    let (sessions, grant) = four_posted(rt, alloc, &lock, &board, &mut seat);
    closes_so(rt, alloc, lock, board, sessions, grant)
}

/// Each has a name of its own from 1 to 7, since the board has so many words and four of them hold who posted there.
#[test]
fn four_threads_post_their_names(rt: HostRuntime) {
    for _ in 0..20 {
        assert!(rt;
            four_post::<Brand, _>(&rt, rt.alloc(), Opening::new(&rt, WorldKind::Rename, 4, 4))
        );
    }
}
