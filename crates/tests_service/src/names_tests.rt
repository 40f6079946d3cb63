//! Two sessions of a lock, one after the other, that post their names on a board, and what a third seat finds there.

ghost use Rattle.std.specs.Prelude.{◌≡◌, IfSome};

use crate::opening::{Opening, opened};
use model_asked::WorldKind;
use service_lock::{Closed, HallLock, LockName, Session, agrees, post_name};
use std::alloc::Global;
use std::marker::Brand;
use std::process::Abort;
use std::sync::Wait;
use words_machine::parts::{Board, Grant, ReaderSeat};

/// Whose name it is, by a grant, if there is one.
fn granted(grant: Option<Grant>) -> Option<(u64, u64)> {
    grant.map(|grant| (grant.name(), grant.identity()))
}

/// Whether a third seat finds that 3 is 20's, and nothing else of what it asks, where 1 is 10's and 2 is free.
fn finds(board: &Board<Global>, seat: &mut ReaderSeat) -> bool
    requires { seat.old.board ≡ board.now }
{
    let found = [
        granted(board.confirm(seat, 3, 20)),
        granted(board.confirm(seat, 1, 20)),
        granted(board.confirm(seat, 2, 10)),
        granted(board.confirm(seat, 9, 10)),
        granted(board.confirm(seat, 2, 0)),
    ];
    let owners = (board.owner(3), board.owner(2));
    found == [Some((3, 20)), None, None, None, None] && owners == (Some(20), None)
}

/// The grant by which a session has just this name posted.
fn posts<L: LockName>(
    rt: &impl Abort,
    board: &Board<Global>,
    session: &Session<L>,
    seat: &mut ReaderSeat,
    want: (u64, u64),
) -> Grant
    requires { seat.old.board ≡ board.now }
    ensures seat { seat.new.board ≡ board.now }
    ensures grant { result.board ≡ board.now }
{
    let grant = post_name(session, board, seat).expect(rt, "a session that is named");
    assert!(rt; (grant.name(), grant.identity()) == want);
    grant
}

/// 20 is named by its 32nd step, and posts its name twice; that of 10 it does not get.
fn twenty_posts<L: LockName, R: Abort + Wait>(
    rt: &R,
    lock: &HallLock<L>,
    board: &Board<Global>,
    session: &mut Session<L>,
    seat: &mut ReaderSeat,
) -> Grant
    requires { seat.old.board ≡ board.now }
    ensures seat { seat.new.board ≡ board.now }
    ensures grant { result.board ≡ board.now }
{
    let named = lock.rename(rt, session, 100);
    let beside = granted(board.post(seat, 1, 20));
    assert!(rt; (named, session.count(), beside) == (Ok(Some(3)), 33, None));
    let _ = posts(rt, board, session, seat, (3, 20));
    posts(rt, board, session, seat, (3, 20))
}

/// Whether the words of a board are those of two names, and agree with a closed history, as free ones do, and others do not.
fn agree<L: LockName>(closed: &Closed<L>, words: &[u64]) -> bool {
    words == [10, 0, 20].as_slice()
        && agrees(closed, words)
        && agrees(closed, &[0, 0, 0])
        && !agrees(closed, &[10, 20, 0])
        && !agrees(closed, &[10, 0, 20, 30])
}

/// How many events the history of a lock has that closes with these sessions, and agrees with the words of a board.
fn closes_so<L: LockName>(
    rt: &impl Abort,
    alloc: Global,
    lock: HallLock<L>,
    words: &[u64],
    (ten, twenty): (Session<L>, Session<L>),
) -> usize {
    let mut sessions = Vec::new(alloc);
    sessions.push(ten).ok().expect(rt, "room for a session");
    sessions.push(twenty).ok().expect(rt, "room for a session");
    let closed = lock.close(sessions, Vec::new(alloc)).ok();
    let closed = closed.expect(rt, "each caller is handed in");
    assert!(rt; agree(&closed, words));
    closed.hall.len()
}

/// The sessions of 10 and 20, which post their names on a board of three, and a grant of it, once both grants have met.
fn two_post<L: LockName, R: Abort + Wait>(
    rt: &R,
    alloc: Global,
    lock: &HallLock<L>,
    board: &Board<Global>,
    seat: &mut ReaderSeat,
) -> ((Session<L>, Session<L>), Grant)
    requires { seat.old.board ≡ board.now }
    ensures { result.1.board ≡ board.now }
{
    let mut second = board.reader(seat);
    let mut third = board.reader(seat);
    let mut ten = lock.session(rt, alloc, 10).expect(rt, "room for a session");
    // 10 is named by its 17th step; before, it had no name to post.
    let unnamed = granted(post_name(&ten, board, seat));
    let named = lock.rename(rt, &mut ten, 17);
    assert!(rt; unnamed == None && named == Ok(Some(1)));
    let mut one = posts(rt, board, &ten, seat, (1, 10));
    let mut twenty = lock.session(rt, alloc, 20).expect(rt, "room for a session");
    let mut two = twenty_posts(rt, lock, board, &mut twenty, &mut second);
    assert!(rt; finds(board, &mut third));
    board.meet(&mut one, &mut two);
    ((ten, twenty), two)
}

/// Two sessions post their names. How many events the closed history has.
fn two_sessions<L: LockName, R: Abort + Wait>(rt: &R, alloc: Global, opening: Opening) -> usize
    requires name { (opening.blank.name ≡ L.name) × (opening.blank.parts ≡ L.parts) }
    requires book { opening.history.seen.book ≡ L.book }
    requires config { opening.config ≡ L.config }
{
    let lock = opened::<L>(rt, alloc, opening);
    let (board, mut seat) = Board::new(alloc, 3).expect(rt, "room for a board");
    let (sessions, grant) = two_post(rt, alloc, &lock, &board, &mut seat);
    let words = board.close(grant).expect(rt, "room for the words");
    closes_so(rt, alloc, lock, &words, sessions)
}

#[test]
fn two_sessions_post_their_names(rt: HostRuntime) {
    let length = two_sessions::<Brand, _>(
        &rt,
        rt.alloc(),
        Opening::new(&rt, WorldKind::Rename, 2, 4),
    );
    assert!(rt; length == 51);
}
