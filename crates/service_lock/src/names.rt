//! Names on a board.

ghost use Rattle.std.specs.Prelude.{◌≡◌, ◌⊎◌, ◌↔◌, ◌+◌, ℕ, None, Some, IfSome, IsSome, true};
ghost use Rattle.text_worlds.specs.desk.Desk.{owner_reply};
ghost use Rattle.service_hall.specs.Halls.{desk_of};
ghost use Rattle.service_lock.specs.KeptNames.{name_kept};
ghost use Rattle.service_lock.specs.Words.{IsOwnerOrNone, Agree};
ghost use Rattle.words_machine.specs.parts.Boards.{MayHold, post_cost, reader_of};

use crate::matching::Closed;
use crate::parts::{LockName, Session};
use model_asked::Reply;
use service_hall::Hall;
use std::alloc::Allocator;
use words_machine::parts::{Board, Grant, ReaderSeat};

/// Posts the identity of a session at its first name, as `Board::post` does, on a board of which the seat is. It takes
/// no lock.
///
/// Returns `None` if the session has no name, or if `Board::post` returns `None`.
///
/// # Steps
///
/// At most two accesses: the compare-exchange, and one more for a grant.
pub fn post_name<L: LockName, A: Allocator>(
    session: &Session<L>,
    board: &Board<A>,
    seat: &mut ReaderSeat,
) -> Option<Grant>
    requires { seat.old.board ≡ board.now }
    ensures seat { seat.new.board ≡ board.now }
    ensures board { IfSome result (λ g. g.board ≡ board.now) }
    ensures name { IfSome result (λ g. name_kept session.now.clerk.kept ≡ Some g.name) }
    ensures identity { IfSome result (λ g. g.identity ≡ session.now.id) }

    // A post is one access, and a grant takes one more: the seat makes no other. The grant is returned if and only if the board's
    // word was 0 or held the identity.
    ensures posted { (name : ℕ) → name_kept session.now.clerk.kept ≡ Some name → MayHold board.now name session.now.id →
        (seat.new ≡ reader_of board.now (seat.old.accesses + post_cost seat.new.found session.now.id) seat.new.found) ×
        (IsSome result ↔ ((seat.new.found ≡ 0) ⊎ (seat.new.found ≡ session.now.id))) }
    ensures unnamed { name_kept session.now.clerk.kept ≡ None → seat.new ≡ seat.old }
{
    let name = session.name()?;
    board.post(seat, name, session.id())
}

/// Whether a word is 0 or the identity that has this name.
fn is_owner_or_none(hall: &Hall, number: u64, word: u64) -> bool
    ensures { result ≡ true ↔ IsOwnerOrNone (desk_of hall.now) number word }
{
    word == 0 || is_owner(hall, number, word)
}

/// Whether this identity has this name.
fn is_owner(hall: &Hall, number: u64, identity: u64) -> bool
    ensures { result ≡ true ↔ (owner_reply (desk_of hall.now) number ≡ Reply.Owner (Some identity)) }
{
    match hall.owner(number) {
        Reply::Owner(Some(owner)) => owner == identity,
        _ => false,
    }
}

/// Whether each word that is not 0 is the identity that has the word's name in the closed history. The first word is
/// that of name 1.
pub fn agrees<L: LockName>(closed: &Closed<L>, words: &[u64]) -> bool
    ensures { result ≡ true ↔ Agree (desk_of closed.now.hall) words.now }
{
    for place in 0..words.len() {
        if !is_owner_or_none(&closed.hall, place as u64 + 1, words[place]) {
            return false;
        }
    }
    true
}
