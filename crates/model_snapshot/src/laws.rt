//! Laws of the snapshot object over any places, which run nothing.

ghost use Rattle.std.specs.Prelude.{ℕ};
ghost use Rattle.model_snapshot.specs.Alone.{EndsSoonAlone, EndsAlike};
ghost use Rattle.model_snapshot.specs.Places.{BeginsAlike};
ghost use Rattle.model_snapshot.specs.Machine.{snapshot, MakesOwnAccess, BeginsTheSame, HasDistinctPlaces, IsConsistentAfter, KeepsReported, StepExtends};
ghost use Rattle.model_snapshot.specs.Snapshot.{SnapBounds, HoldsOfPrefixes};
ghost use Rattle.model_steps.specs.Machine.{IsProved};
ghost use Rattle.model_snapshot.specs.SnapWorld.{SnapState, snap_answer, after_snap_step, LacksOnWay, AnswersAlike, StaysAlike};
ghost use Rattle.model_snapshot.specs.Standing.{BeginsSo, GoesSoIdle, GoesSoBusy};

use crate::places::{Known, PlaceWalker, Places};
use crate::walk::SegmentWalk;

/// A law: a snapshot object over any places is a machine whose calls extend its history.
///
/// - Each history that begins with places in which nothing was written satisfies the specification of a snapshot
///   object. Where b have begun, the bound on scans leaves room for b + 1 collects.
/// - Every prefix of a history that satisfies the specification satisfies it.
/// - No two participants have one place. If a step has returned a place, the participant has that place.
/// - The memory agrees with the ways of the participants that have begun.
/// - Only a step on the way to a place may fail because an allocation failed. Each access is one for what is pending.
/// - A step that returns its due reply extends the history. Its reply and the participant's new state depend on nothing
///   that the participant cannot distinguish.
/// - If the places do not depend on the order of beginning, an identity begins in the same state in any two objects of
///   one size.
pub fn law_of_snapshot_calls<W: Places>()
    ensures machine { IsProved (snapshot ⟦<W as Known>⟧.places) }
    ensures prefix { (bounds : SnapBounds) → HoldsOfPrefixes bounds }
    ensures distinct { (w : SnapState W W.Walker W.Walk) → HasDistinctPlaces ⟦<W as Known>⟧.places w }
    ensures reported { (w : SnapState W W.Walker W.Walk) (p : ℕ) → KeepsReported ⟦<W as Known>⟧.places w p }
    ensures consistent { (w : SnapState W W.Walker W.Walk) → IsConsistentAfter ⟦<W as Known>⟧.places w }
    ensures sure { (w : SnapState W W.Walker W.Walk) (p : ℕ) → LacksOnWay ⟦<W as Known>⟧.places w p }
    ensures own { (w : SnapState W W.Walker W.Walk) (p : ℕ) → MakesOwnAccess ⟦<W as Known>⟧.places w p }
    ensures leads { (w : SnapState W W.Walker W.Walk) (p : ℕ) → StepExtends ⟦<W as Known>⟧.places w p }
    ensures answered { (w : SnapState W W.Walker W.Walk) (p : ℕ) → AnswersAlike ⟦<W as Known>⟧.places w p (snap_answer ⟦<W as Known>⟧.places w p) }
    ensures stays { (w : SnapState W W.Walker W.Walk) (p : ℕ) → StaysAlike ⟦<W as Known>⟧.places w (after_snap_step ⟦<W as Known>⟧.places w p) p }
    ensures alike { BeginsAlike ⟦<W as Known>⟧.places → (p : ℕ) → BeginsTheSame ⟦<W as Known>⟧.places p }
{}

/// A law: what each call does to the participants of a snapshot object over any places. A call changes no other
/// participant.
///
/// - A participant that begins has nothing pending if and only if it has its place at once.
/// - If nothing is pending, a scan is accepted. An update is accepted unless 1,000,000 were asked for.
/// - If something is pending, a scan or an update fails, and a step succeeds unless an allocation fails. The step
///   leaves nothing pending if and only if its reply is not `Quiet`.
pub fn law_of_clients<W: Places>()
    ensures begun { (w : SnapState W W.Walker W.Walk) (p : ℕ) → BeginsSo ⟦<W as Known>⟧.places w p }
    ensures idle { (w : SnapState W W.Walker W.Walk) (p : ℕ) → GoesSoIdle ⟦<W as Known>⟧.places w p }
    ensures busy { (w : SnapState W W.Walker W.Walk) (p : ℕ) → GoesSoBusy ⟦<W as Known>⟧.places w p }
{}

/// A law: how soon an operation ends in a solo run, over any places in which a collect makes at most c reads.
///
/// - A scan ends within 2c steps from its beginning, and within 3c - 1 from any point of it. What others did before
///   does not matter.
/// - An update ends one step later.
/// - Steps of others that write nothing do not change these bounds.
pub fn law_of_steps_alone<W: Places>()
    ensures soon { (w : SnapState W W.Walker W.Walk) (p : ℕ) → EndsSoonAlone ⟦<W as Known>⟧.places w p }
    ensures alike { (w other : SnapState W W.Walker W.Walk) (p : ℕ) → EndsAlike ⟦<W as Known>⟧.places w other p }
{}
