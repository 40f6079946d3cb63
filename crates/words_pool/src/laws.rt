//! Laws of the invariants of a pool's and a line's table, which run nothing.

ghost use Rattle.words_pool.specs.LineRule.{ComesAtTheNext, IsSmallAmongFew, StandsInLine};
ghost use Rattle.words_pool.specs.PoolRule.{HasOneHolder, IsSetByHolder, HasHolderWhereSet};

/// A law: under the invariant of a pool's table, no two seats hold one place. The word of a place is not 0 if and only
/// if the place is held, and it is then 1.
pub fn law_of_the_pool()
    ensures one { HasOneHolder }
    ensures set { IsSetByHolder }
    ensures holder { HasHolderWhereSet }
{}

/// A law: under the invariant of a line's table, each seat with a call that rests or competes is at one of the numbers.
///
/// The ghost state of a call that holds a number has how many competed at each moment from its coming to its taking.
/// Its number is at most the greatest of these. A call comes at the moment after the last one, and no earlier.
pub fn law_of_the_line()
    ensures stands { StandsInLine }
    ensures small { IsSmallAmongFew }
    ensures next { ComesAtTheNext }
{}
