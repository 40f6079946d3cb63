//! A way through the doors of a grid.

ghost use Rattle.std.specs.Prelude.{◌≡◌};
ghost use Rattle.model_renaming.specs.over.Grid.{door_access, word_answer, grid_walker_steps, grid_place};
ghost use Rattle.model_splitter.specs.grid.Walk as walk;

use crate::over::grid_register::{GridRegister, GridValue};
use model_snapshot::PlaceWalker;
use model_splitter::grid::Walker;
use model_steps::{Access, Answer, Note, Place, StepProgram};

/// A walk through the doors of a grid, over the registers of a grid with segments (Moir and Anderson 1995).
#[derive(Clone, Copy, Debug, Drop, PartialEq, Eq)]
pub struct GridWalker {
    /// The walk, over the registers of the doors alone.
    pub walker: Walker,
}

impl StepProgram for GridWalker {
    type Reg = GridRegister;

    type Value = GridValue;

    type Output = Place;

    ghost steps = { grid_walker_steps };

    fn next(&self) -> Access<GridRegister, GridValue>
        ensures { result ≡ door_access (walk.next_access self.now.walker) }
    {
        match self.walker.next() {
            Access::Read(r) => Access::Read(GridRegister::Door(r)),
            Access::Write(r, word) => Access::Write(GridRegister::Door(r), GridValue::Word(word)),
            Access::TestAndSet(r) => Access::TestAndSet(GridRegister::Door(r)),
            Access::Clear(r) => Access::Clear(GridRegister::Door(r)),
            Access::Nothing => Access::Nothing,
        }
    }

    fn resume(&mut self, got: Answer<GridValue>) -> Note<Place>
        ensures after { self.new ≡ record { walker = walk.walker_after self.old.walker (word_answer got) } }
        ensures note { result ≡ walk.walker_note self.old.walker (word_answer got) }
    {
        let word = match got {
            Answer::Value(GridValue::Word(word)) => Answer::Value(word),
            Answer::Value(GridValue::Contents(_)) => Answer::Done,
            Answer::WasSet(was) => Answer::WasSet(was),
            Answer::Done => Answer::Done,
        };
        self.walker.resume(word)
    }
}

impl PlaceWalker for GridWalker {
    ghost place_of = { grid_place };

    fn place(&self) -> Option<Place> {
        self.walker.place()
    }
}
