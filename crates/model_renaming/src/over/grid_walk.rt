//! A walk over the segments of a grid.

ghost use Rattle.model_renaming.specs.over.Grid.{grid_walks};

use crate::over::grid_register::{GridRegister, GridValue};
use model_snapshot::SegmentWalk;
use model_steps::{Place, Record, Segment};

/// A walk over the segments of a grid, by rising place.
#[derive(Clone, Copy, Debug, Drop, PartialEq, Eq)]
pub struct GridWalk {
    /// The place whose segment it reads next.
    pub at: usize,
    /// The number of segments.
    pub most: usize,
}

impl SegmentWalk for GridWalk {
    type Reg = GridRegister;

    type Value = GridValue;

    ghost walks = { grid_walks };

    fn next(&self) -> GridRegister {
        GridRegister::Segment(self.at as Place)
    }

    fn place(&self) -> Option<Place> {
        Some(self.at as Place)
    }

    fn resume(&mut self, _got: &GridValue) -> bool {
        if self.at < self.most {
            self.at += 1;
        }
        self.most <= self.at
    }

    fn segment(place: Place) -> GridRegister {
        GridRegister::Segment(place)
    }

    fn stored(segment: Segment) -> GridValue {
        GridValue::Contents(segment)
    }

    fn content(value: &GridValue) -> Option<&Record> {
        match value {
            GridValue::Word(_) => None,
            GridValue::Contents(segment) => segment.as_ref(),
        }
    }
}
