//! The invariant of a splitter's table, and the kinds of step that keep it.

ghost use Rattle.std.specs.Prelude.{◌++◌, [], take, drop};
ghost use Rattle.words_machine.specs.parts.SplitterRule.{KeepsRule};
ghost use Rattle.words_machine.specs.parts.SplitterSteps.{MovesOn, Looks};
ghost use Rattle.words_machine.specs.parts.SplitterView.{view_of, undealt_from};

use crate::parts::splitter_view::SplitterView;
use atomic_table::{Join, Play, Split, TableRule};

/// The invariant of a splitter's table.
pub struct Splitting;

impl<S> TableRule<S, SplitterView, u64> for Splitting {
    ghost holds = { KeepsRule };

    ghost first = { undealt_from 0 };
}

/// A split: the first visit goes to the new seat. A seat is dealt so, and two that met part so.
pub struct DealVisit;

impl Split<SplitterView> for DealVisit {
    ghost left = { λ v. view_of v.seats (drop 1 v.visits) };

    ghost right = { λ v. view_of v.seats (take 1 v.visits) };
}

/// An access of a visit: the store or the load that comes next.
pub struct VisitAccess;

impl<S> Play<S, SplitterView> for VisitAccess {
    ghost then = { MovesOn };
}

/// A join: one seat gets the visits of both, the other's first. The other then has none.
pub struct UniteVisits;

impl Join<SplitterView> for UniteVisits {
    ghost both = { λ v w. view_of v.seats (w.visits ++ v.visits) };

    ghost spent = { view_of 0 [] };
}

/// A load that changes nothing, and shows that the ghost state of the seat keeps the invariant.
pub struct LookAtVisits;

impl<S> Play<S, SplitterView> for LookAtVisits {
    ghost then = { Looks };
}
