//! What gives participants places.

ghost use Rattle.std.specs.Prelude.{◌≡◌, ℕ, Option, None, IfSome, OnErr, true};
ghost use Rattle.model_steps.specs.Taken.{reported_in};
ghost use Rattle.model_snapshot.specs.Places.{PlaceTies, KnownPlaces, places_by, PlacesLaws, way_note, way_after};

use crate::walk::SegmentWalk;
use model_steps::{NoMemory, Note, Place, StepMemory, StepProgram};

/// A way to a place: a program of one access a step, which ends with the place.
pub trait PlaceWalker: StepProgram<Output = Place> {
    /// The place that the way has reached.
    ghost place_of: { Self → Option ℕ };

    /// Returns the place, or `None` if the way has not reached it.
    fn place(&self) -> Option<Place>
        ensures { result ≡ place_of self.now };
}

/// A memory of segments, each at a place, in which each participant gets a place of its own.
///
/// The memory also has the registers that the ways to places need. `specs/Places.antt` states what an implementor
/// proves.
pub trait Places: StepMemory {
    /// The way of a participant to its place.
    type Walker: PlaceWalker<Reg = Self::Reg, Value = Self::Value, Output = Place>;

    /// A walk over all segments that may be in use.
    type Walk: SegmentWalk<Reg = Self::Reg, Value = Self::Value>;

    /// The most participants.
    ghost most_of: { Self → ℕ };

    /// The way of an identity that begins after so many others.
    ghost walker_from: { ℕ → ℕ → Self.Walker };

    /// A walk that has read nothing.
    ghost walk_from: { Self → Self.Walk };

    /// The relations of the memory to the ways and the walks, and the bounds on their accesses and reads.
    ghost ties: { PlaceTies Self Self.Walker Self.Walk };

    /// Returns the most participants: at most 64.
    fn most(&self) -> usize
        ensures { result ≡ most_of self.now };

    /// Returns the way to a place of `identity`, which begins after `begun` others.
    fn walker(&self, begun: usize, identity: u64) -> Self::Walker
        ensures { result ≡ walker_from begun identity };

    /// Returns a walk that has read nothing.
    fn walk(&self) -> Self::Walk
        ensures { result ≡ walk_from self.now };

    /// Makes the next step of a way in place, without a copy of a value, and returns the note of that step.
    ///
    /// Returns `None` if it made no step. Nothing has changed then. The default makes none.
    ///
    /// # Errors
    ///
    /// `NoMemory`: the access needed memory and the allocation failed. Nothing has changed, and the caller may repeat
    /// the step.
    fn walk_on(&mut self, _walker: &mut Self::Walker) -> Result<Option<Note<Place>>, NoMemory>
        ensures note { IfSome (reported_in result) (λ note. note ≡ way_note Self.Walker.steps Self.steps _walker.old self.old) }
        ensures after { IfSome (reported_in result) (λ _. _walker.new ≡ way_after Self.Walker.steps Self.steps _walker.old self.old) }
        ensures memory { IfSome (reported_in result) (λ _. self.new ≡ Self.steps.after self.old (Self.Walker.steps.next _walker.old)) }
        ensures kept { reported_in result ≡ None → _walker.new ≡ _walker.old }
        ensures memory_kept { reported_in result ≡ None → self.new ≡ self.old }
        ensures no_memory { OnErr result (Self.steps.may_refuse self.old (Self.Walker.steps.next _walker.old) ≡ true) }
    {
        Ok(None)
    }

    /// Places are distinct, a way reaches its place, and a walk reads each segment that was written before it began.
    ghost laws: { PlacesLaws (places_by Self.Walker.steps Self.Walker.place_of Self.Walk.walks Self.steps most_of walker_from walk_from ties) };
}

/// Places, with all that contracts say of them in one record: `⟦<W as Known>⟧.places`. Every `Places` is one.
pub trait Known: Places {
    /// What the ways, the walks and the memory do, and how they are related.
    ghost places: { KnownPlaces Self Self.Reg Self.Value Self.Walker Self.Walk };
}

impl<W: Places> Known for W {
    ghost places = { places_by W.Walker.steps W.Walker.place_of W.Walk.walks W.steps W.most_of W.walker_from W.walk_from W.ties };
}
