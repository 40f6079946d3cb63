//! A walk from door to door.

ghost use Rattle.std.specs.Prelude.{◌≡◌};
ghost use Rattle.model_splitter.specs.grid.Walk.{walker_at, walker_steps, next_access, walker_after, walker_note, place_of};

use crate::grid::door::Door;
use crate::{Visitor, Way};
use model_steps::{Access, Answer, Note, Place, StepProgram};

/// A walk of one identity, which is not 0, through a grid of splitters (Moir and Anderson 1995).
///
/// If the visit to a door ends right or down, the next step makes the first access to the next door that way. If the
/// visit stops, the walk ends, and the door is the place of the identity.
#[derive(Clone, Copy, Debug, Drop, PartialEq, Eq)]
pub struct Walker {
    /// Its visit to that door.
    pub visitor: Visitor<usize>,
    /// The door that it visits, or visits next.
    pub door: Door,
}

impl Walker {
    /// Makes a walk that has made no access to this door.
    pub fn new(identity: u64, door: Door) -> Walker
        ensures { result ≡ walker_at identity door }
    {
        Walker {
            visitor: Visitor::new(identity, door.x(), door.y()),
            door,
        }
    }

    /// Returns the place at which the walk has ended, or `None` if it goes on.
    pub fn place(&self) -> Option<Place>
        ensures { result ≡ place_of self.now }
    {
        self.visitor.stage.place_at(Place::from(self.door.number()))
    }
}

impl StepProgram for Walker {
    type Reg = usize;

    type Value = u64;

    type Output = Place;

    ghost steps = { walker_steps };

    fn next(&self) -> Access<usize, u64>
        ensures { result ≡ next_access self.now }
    {
        self.visitor.next()
    }

    #[inline(always)]
    fn resume(&mut self, got: Answer<u64>) -> Note<Place>
        ensures after { self.new ≡ walker_after self.old got }
        ensures note { result ≡ walker_note self.old got }
    {
        match self.visitor.resume(got) {
            Note::Ended(Way::Stop) => Note::Ended(Place::from(self.door.number())),
            Note::Ended(Way::Right) => {
                *self = Walker::new(self.visitor.identity, self.door.right());
                Note::Quiet
            }
            Note::Ended(Way::Down) => {
                *self = Walker::new(self.visitor.identity, self.door.down());
                Note::Quiet
            }
            Note::Quiet | Note::Said(_) => Note::Quiet,
        }
    }
}
