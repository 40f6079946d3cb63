//! The registers of a grid with segments.

ghost use Rattle.std.specs.Prelude.{◌≡◌};
ghost use Rattle.model_renaming.specs.over.Grid.{contents_of};

use model_steps::{Place, Segment};

/// A register of a grid with segments.
#[derive(Clone, Copy, Debug, Drop, PartialEq, Eq)]
pub enum GridRegister {
    /// X or Y of a door, by its number among the doors' registers.
    Door(usize),
    /// The segment at a place.
    Segment(Place),
}

/// The value of a register of a grid with segments.
#[derive(Clone, Copy, Debug, Drop)]
pub enum GridValue {
    /// The value of X or of Y.
    Word(u64),
    /// The value of a segment.
    Contents(Segment),
}

impl GridValue {
    /// Returns the segment that this value is, or an empty one if it is the word of a door.
    pub fn contents(&self) -> Segment
        ensures { result ≡ contents_of self.now }
    {
        match self {
            GridValue::Word(_) => None,
            GridValue::Contents(segment) => *segment,
        }
    }
}
