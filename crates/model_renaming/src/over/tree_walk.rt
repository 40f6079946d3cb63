//! A walk over the segments of a tree.

ghost use Rattle.model_renaming.specs.over.Tree.{tree_walks};

use model_snapshot::SegmentWalk;
use model_splitter::tree::{CollectWalk, TreeRegister, TreeValue};
use model_steps::{Place, Record, Segment};

/// A walk over the segments of the marked nodes: each node first, then its left subtree, then its right one.
#[derive(Clone, Copy, Debug, Drop, PartialEq, Eq)]
pub struct TreeWalk {
    /// The walk over marks and segments.
    pub walk: CollectWalk,
}

impl SegmentWalk for TreeWalk {
    type Reg = TreeRegister;

    type Value = TreeValue;

    ghost walks = { tree_walks };

    fn next(&self) -> TreeRegister {
        self.walk.next()
    }

    fn place(&self) -> Option<Place> {
        self.walk.place()
    }

    fn resume(&mut self, got: &TreeValue) -> bool {
        self.walk.resume(got)
    }

    fn segment(place: Place) -> TreeRegister {
        TreeRegister::Contents(place)
    }

    fn stored(segment: Segment) -> TreeValue {
        TreeValue::Contents(segment)
    }

    fn content(value: &TreeValue) -> Option<&Record> {
        CollectWalk::content(value)
    }
}
