//! The rule of a table of words, and the kinds of step that keep it.

ghost use Rattle.std.specs.Prelude.{◌++◌, [], take, drop};
ghost use Rattle.words_machine.specs.RunRule.{KeepsRun};
ghost use Rattle.words_machine.specs.RunSteps.{Reads, Writes, Looks};
ghost use Rattle.words_machine.specs.SeatViews.{view_of, undealt_from, endings_of};

use crate::program::WordProgram;
use crate::seat_view::SeatView;
use atomic_table::{Join, Play, Split, TableRule};
use std::marker::PhantomData;

/// The rule: some list of calls leads to a state whose memory is the words, and whose participants the views tell.
pub struct Running<P> {
    of: PhantomData<P>,
}

impl<S, P: WordProgram> TableRule<S, SeatView<P, P::Output>, u64> for Running<P> {
    ghost holds = { KeepsRun P.law };

    ghost first = { undealt_from 0 };
}

/// The load of the word of a register: the participant's read.
pub struct GetWord<P> {
    of: PhantomData<P>,
}

impl<S, P: WordProgram> Play<S, SeatView<P, P::Output>> for GetWord<P> {
    ghost then = { Reads P.steps P.law };
}

/// The store of the word of a register: the participant's write.
pub struct PutWord<P> {
    of: PhantomData<P>,
}

impl<S, P: WordProgram> Play<S, SeatView<P, P::Output>> for PutWord<P> {
    ghost then = { Writes P.steps P.law };
}

/// The first participant goes to a new seat: where a seat is dealt out, and where two that met part again.
pub struct DealRun;

impl<P, O> Split<SeatView<P, O>> for DealRun {
    ghost left = { λ v. view_of v.most (drop 1 v.stands) v.endings };

    ghost right = { λ v. view_of v.most (take 1 v.stands) [] };
}

/// A seat takes in the participants of another, before its own. The other is spent: no participant is its to step.
pub struct UniteRuns;

impl<P, O> Join<SeatView<P, O>> for UniteRuns {
    ghost both = { λ v w. view_of v.most (w.stands ++ v.stands) v.endings };

    ghost spent = { view_of 0 [] [] };
}

/// A load that changes nothing, and shows that the view is one under the rule.
pub struct LookAtRun<P> {
    of: PhantomData<P>,
}

impl<S, P: WordProgram> Play<S, SeatView<P, P::Output>> for LookAtRun<P> {
    ghost then = { Looks P.law };
}

/// A new seat can tell of the end of this seat's participant.
pub struct Tell;

impl<P, O> Split<SeatView<P, O>> for Tell {
    ghost left = { λ v. v };

    ghost right = { λ v. view_of v.most [] (endings_of v.stands) };
}

/// A seat takes in what another can tell, before its own.
pub struct Learn;

impl<P, O> Join<SeatView<P, O>> for Learn {
    ghost both = { λ v w. view_of v.most v.stands (w.endings ++ v.endings) };

    ghost spent = { view_of 0 [] [] };
}

/// They part again: what it learned goes to a new seat.
pub struct Forget;

impl<P, O> Split<SeatView<P, O>> for Forget {
    ghost left = { λ v. view_of v.most v.stands (drop 1 v.endings) };

    ghost right = { λ v. view_of v.most [] (take 1 v.endings) };
}
