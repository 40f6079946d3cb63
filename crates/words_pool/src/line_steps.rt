//! The invariant of a line's table, and the kinds of step that only a line has.

ghost use Rattle.std.specs.Prelude.{[], take, drop};
ghost use Rattle.words_pool.specs.LineRule.{ComesBySwapInLine, KeepsLineRule, TakesInLine, NeverComes, undealt};
ghost use Rattle.words_pool.specs.PoolView.{view_of};

use crate::pool_view::PoolView;
use atomic_table::{Play, Split, TableRule};

/// The invariant of a line's table.
pub struct Lining;

impl<S> TableRule<S, PoolView, u64> for Lining {
    ghost holds = { KeepsLineRule };

    ghost first = { λ count. view_of (undealt count) [] };
}

/// A split: the first call goes to the new seat.
pub struct DealNumber;

impl Split<PoolView> for DealNumber {
    ghost left = { λ v. view_of (drop 1 v.calls) v.past };

    ghost right = { λ v. view_of (take 1 v.calls) [] };
}

/// A call begins, by a swap of 1 into the first word. It holds the number if the word was 0.
pub struct ComeBySwapInLine;

impl<S> Play<S, PoolView> for ComeBySwapInLine {
    ghost then = { ComesBySwapInLine };
}

/// A call swaps 1 into the word of its place. It holds the number if the word was 0, and the number is then small.
pub struct TakeInLine;

impl<S> Play<S, PoolView> for TakeInLine {
    ghost then = { TakesInLine };
}

/// A step that no seat makes.
pub struct Never;

impl<S> Play<S, PoolView> for Never {
    ghost then = { NeverComes };
}
