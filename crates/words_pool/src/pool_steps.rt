//! The invariant of a pool's table, and the kinds of step that keep it.

ghost use Rattle.std.specs.Prelude.{take, drop, []};
ghost use Rattle.words_pool.specs.PoolRule.{KeepsPoolRule};
ghost use Rattle.words_pool.specs.PoolSteps.{Comes, ComesBySwap, Looks, Takes, LooksAside, TakesAside, Frees, LooksOn, ReadsFirst, ReadsOn};
ghost use Rattle.words_pool.specs.PoolView.{resting, view_of, no_call, united};

use crate::pool_view::PoolView;
use atomic_table::{Join, Play, Split, TableRule};

/// The invariant of a pool's table.
pub struct Pooling;

impl<S> TableRule<S, PoolView, u64> for Pooling {
    ghost holds = { KeepsPoolRule };

    ghost first = { λ count. resting [] };
}

/// A call begins, and reads the first word.
pub struct Come;

impl<S> Play<S, PoolView> for Come {
    ghost then = { Comes };
}

/// A call begins, by a swap of 1 into the first word. It holds the number if the word was 0.
pub struct ComeBySwap;

impl<S> Play<S, PoolView> for ComeBySwap {
    ghost then = { ComesBySwap };
}

/// A call reads the word of its place.
pub struct LookAtNumber;

impl<S> Play<S, PoolView> for LookAtNumber {
    ghost then = { Looks };
}

/// A call swaps 1 into the word of its place. It holds the number if the word was 0.
pub struct Take;

impl<S> Play<S, PoolView> for Take {
    ghost then = { Takes };
}

/// A call at rest reads the word of a hint.
pub struct LookAside;

impl<S> Play<S, PoolView> for LookAside {
    ghost then = { LooksAside };
}

/// A call at rest swaps 1 into the word of a hint. It holds the number if the word was 0.
pub struct TakeAside;

impl<S> Play<S, PoolView> for TakeAside {
    ghost then = { TakesAside };
}

/// The holder of a number clears its word.
pub struct Free;

impl<S> Play<S, PoolView> for Free {
    ghost then = { Frees };
}

/// A load that changes nothing, and shows that what the seat holds keeps the invariant.
pub struct LookAtStay;

impl<S> Play<S, PoolView> for LookAtStay {
    ghost then = { LooksOn };
}

/// The last call of a pool begins, by a load of a word.
pub struct ReadFirst;

impl<S> Play<S, PoolView> for ReadFirst {
    ghost then = { ReadsFirst };
}

/// The last call of a pool reads one more word.
pub struct ReadOn;

impl<S> Play<S, PoolView> for ReadOn {
    ghost then = { ReadsOn };
}

/// A join: one seat gets the calls of both. The other then has none.
pub struct UniteStays;

impl Join<PoolView> for UniteStays {
    ghost both = { united };

    ghost spent = { no_call };
}

/// A split: the first call stays, with the calls that have ended. The others go to the new seat.
pub struct Sever;

impl Split<PoolView> for Sever {
    ghost left = { λ v. view_of (take 1 v.calls) v.past };

    ghost right = { λ v. view_of (drop 1 v.calls) [] };
}
