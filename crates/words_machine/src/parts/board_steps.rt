//! The invariant of a name board's table, and the kinds of step that keep it.

ghost use Rattle.std.specs.Prelude.{[], suc, take, drop};
ghost use Rattle.words_machine.specs.parts.BoardRule.{KeepsBoardRule};
ghost use Rattle.words_machine.specs.parts.BoardSteps.{Posts, Finds, LooksOn, Reads};
ghost use Rattle.words_machine.specs.parts.BoardView.{board_view, claims_of, no_claim, united};

use crate::parts::board_view::BoardView;
use atomic_table::{Join, Play, Split, TableRule};

/// The invariant of a board's table.
pub struct Boarding;

impl<S> TableRule<S, BoardView, u64> for Boarding {
    ghost holds = { KeepsBoardRule };

    ghost first = { λ count. no_claim };
}

/// A compare-exchange that writes an identity into a word that is 0.
pub struct Post;

impl<S> Play<S, BoardView> for Post {
    ghost then = { Posts };
}

/// A load of a word.
pub struct Find;

impl<S> Play<S, BoardView> for Find {
    ghost then = { Finds };
}

/// A split: the claims go to the new seat. The accesses stay with the old one, and the split counts as one more.
pub struct Hand;

impl Split<BoardView> for Hand {
    ghost left = { λ v. board_view [] (suc v.accesses) v.found v.read };

    ghost right = { λ v. claims_of v.claims };
}

/// A join: the first seat gets the claims and the accesses of both, and one access more. The second then claims
/// nothing.
pub struct UniteGrants;

impl Join<BoardView> for UniteGrants {
    ghost both = { united };

    ghost spent = { no_claim };
}

/// A load that changes nothing, and shows that all claims of the seat are true at once.
pub struct LookAtBoard;

impl<S> Play<S, BoardView> for LookAtBoard {
    ghost then = { LooksOn };
}

/// A split after a join: the first claim stays with the first seat. Both are seats of grants, whose accesses no caller
/// sees.
pub struct Part;

impl Split<BoardView> for Part {
    ghost left = { λ v. claims_of (take 1 v.claims) };

    ghost right = { λ v. claims_of (drop 1 v.claims) };
}

/// A load of the next word, as the board ends.
pub struct Read;

impl<S> Play<S, BoardView> for Read {
    ghost then = { Reads };
}
