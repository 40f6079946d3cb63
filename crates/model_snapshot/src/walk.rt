//! Walks over the segments that may be in use.

ghost use Rattle.std.specs.Prelude.{◌≡◌, option_copied};
ghost use Rattle.model_snapshot.specs.Walks.{WalkSteps};

use model_steps::{Place, Record, Segment};

/// A walk over all segments that may be in use, one read after another.
///
/// The next register may depend on what the walk has read. Not every read is of a segment.
pub trait SegmentWalk {
    /// What names a register.
    type Reg;

    /// What a register holds.
    type Value;

    /// What a walk reads next, and its state after each read.
    ghost walks: { WalkSteps Self Self.Reg Self.Value };

    /// Returns the register of the next read.
    fn next(&self) -> Self::Reg
        ensures { result ≡ walks.next self.now };

    /// Returns the place whose segment the next read reads, or `None` if it reads no segment.
    fn place(&self) -> Option<Place>
        ensures { result ≡ walks.place self.now };

    /// Takes the value that was read, and returns true if and only if the walk is over.
    fn resume(&mut self, got: &Self::Value) -> bool
        ensures after { self.new ≡ walks.resumed self.old got.now }
        ensures over { result ≡ walks.is_over self.old got.now };

    /// Returns the register of the segment at a place.
    fn segment(place: Place) -> Self::Reg
        ensures { result ≡ walks.segment place };

    /// Returns the value that a register holds for this segment.
    fn stored(segment: Segment) -> Self::Value
        ensures { result ≡ walks.stored segment };

    /// Returns the record of the segment for which a register holds this value, or `None` if the segment is empty.
    fn content(value: &Self::Value) -> Option<&Record>
        ensures { option_copied result ≡ walks.content value.now };
}
