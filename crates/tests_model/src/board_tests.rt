//! Posts and looks on a name board, one after another and by threads at once.

ghost use Rattle.std.specs.Prelude.{◌≡◌, IfSome};

use crate::common::holds;
use std::alloc::Global;
use std::test::Fail;
use std::thread::{Threads, join};
use words_machine::parts::{Board, Grant, ReaderSeat};

/// Two names, posted by a seat and by a further one.
fn posts(board: &Board<Global>, seat: &mut ReaderSeat) -> Option<(Grant, Grant)>
    requires { seat.old.board ≡ board.now }
    ensures seat { seat.new.board ≡ board.now }
    ensures grants { IfSome result (λ grants. (grants.0.board ≡ board.now) × (grants.1.board ≡ board.now)) }
{
    let mut second = board.reader(seat);
    let one = board.post(seat, 1, 10)?;
    let two = board.post(&mut second, 3, 20)?;
    Some((one, two))
}

/// Whether a seat finds 1 held by another than 20, 2 by nobody, and 3 by 20, who may post there again.
fn finds(board: &Board<Global>, seat: &mut ReaderSeat) -> bool
    requires { seat.old.board ≡ board.now }
{
    let found = [
        board.post(seat, 1, 20).is_some(),
        board.post(seat, 3, 20).is_some(),
        board.confirm(seat, 1, 20).is_some(),
        board.confirm(seat, 2, 20).is_some(),
        board.confirm(seat, 3, 20).is_some(),
    ];
    found == [false, true, false, false, true] && board.owner(3) == Some(20)
}

/// Whether a board ends with the words that are due, where two grants have met and the last is handed in.
fn ends_with_two(board: Board<Global>, grants: Option<(Grant, Grant)>) -> bool
    requires { IfSome grants (λ grants. (grants.0.board ≡ board) × (grants.1.board ≡ board)) }
{
    let Some((mut one, mut two)) = grants else {
        return false;
    };
    board.meet(&mut one, &mut two);
    match board.close(two) {
        Ok(words) => words.as_slice() == [10, 0, 20].as_slice(),
        Err(_) => false,
    }
}

/// Two names on a board of three, posted, confirmed and closed.
#[test]
fn two_post_their_names(rt: HostRuntime) -> Result<(), Fail> {
    let (board, mut seat) = Board::new(rt.alloc(), 3)?;
    let grants = posts(&board, &mut seat);
    let are_found = finds(&board, &mut seat);
    holds(&rt, 3, ends_with_two(board, grants) && are_found);
    Ok(())
}

/// Whether just one of two threads that post at the last name of a board at once is granted it.
fn race<R: Threads + Sync>(
    rt: &R,
    board: &Board<Global>,
    mut one: ReaderSeat,
    mut other: ReaderSeat,
) -> bool
    requires one { one.board ≡ board.now }
    requires other { other.board ≡ board.now }
{
    let last = board.names();
    let (first, second) = join(
        rt,
        move || -> bool
            requires { one.board ≡ board.now }
        { board.post(&mut one, last, 10).is_some() },
        move || -> bool
            requires { other.board ≡ board.now }
        { board.post(&mut other, last, 20).is_some() },
    );
    first != second
}

/// On boards of 1 to 127 names.
#[test]
fn one_of_two_threads_gets_the_name(rt: HostRuntime) -> Result<(), Fail> {
    for turn in 0..1016usize {
        let (board, mut one) = Board::new(rt.alloc(), turn as u64 % 127 + 1)?;
        let other = board.reader(&mut one);
        holds(&rt, turn, race(&rt, &board, one, other));
    }
    Ok(())
}
