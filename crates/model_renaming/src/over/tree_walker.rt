//! A way down a tree.

ghost use Rattle.std.specs.Prelude.{◌≡◌};
ghost use Rattle.model_renaming.specs.over.Tree.{tree_walker_steps, tree_place};
ghost use Rattle.model_splitter.specs.tree.Walk.{next_access, walker_after, walker_note};

use model_snapshot::PlaceWalker;
use model_splitter::tree::{TreeRegister, TreeValue, Walker};
use model_steps::{Access, Answer, Note, Place, StepProgram};

/// A walk down a tree to a place: the node at which it stops.
#[derive(Clone, Copy, Debug, Drop, PartialEq, Eq)]
pub struct TreeWalker {
    /// The walk, over the registers of the tree.
    pub walker: Walker,
}

impl StepProgram for TreeWalker {
    type Reg = TreeRegister;

    type Value = TreeValue;

    type Output = Place;

    ghost steps = { tree_walker_steps };

    fn next(&self) -> Access<TreeRegister, TreeValue>
        ensures { result ≡ next_access self.now.walker }
    {
        self.walker.next()
    }

    fn resume(&mut self, got: Answer<TreeValue>) -> Note<Place>
        ensures after { self.new ≡ record { walker = walker_after self.old.walker got } }
        ensures note { result ≡ walker_note self.old.walker got }
    {
        self.walker.resume(got)
    }
}

impl PlaceWalker for TreeWalker {
    ghost place_of = { tree_place };

    fn place(&self) -> Option<Place> {
        self.walker.place()
    }
}
