//! A walk from node to node.

ghost use Rattle.std.specs.Prelude.{◌≡◌};
ghost use Rattle.model_splitter.specs.tree.Walk.{left_child, right_child, in_words, reported, walker_at, walk_of, walker_steps, next_access, walker_after, walker_note, walked_to, place_of};
ghost use Rattle.model_splitter.specs.Visitor.{stage_by};
ghost use Rattle.model_splitter.specs.Walk.{note_at_door};

use crate::tree::register::{MARKED, ROOT, TreeRegister, TreeValue};
use crate::{Visitor, Way};
use model_steps::{Access, Answer, Note, Place, StepProgram};

/// The child that down leads to. A number that does not fit, which no tree reaches, is the greatest.
fn left_child(place: Place) -> Place
    ensures { result ≡ left_child place }
{
    place.saturating_mul(2)
}

/// The child that right leads to.
fn right_child(place: Place) -> Place
    ensures { result ≡ right_child place }
{
    left_child(place).saturating_add(1)
}

/// The same access, on registers that may hold segments too.
fn in_words(access: Access<TreeRegister, u64>) -> Access<TreeRegister, TreeValue>
    ensures { result ≡ in_words access }
{
    match access {
        Access::Read(register) => Access::Read(register),
        Access::Write(register, word) => Access::Write(register, TreeValue::Word(word)),
        Access::TestAndSet(register) => Access::TestAndSet(register),
        Access::Clear(register) => Access::Clear(register),
        Access::Nothing => Access::Nothing,
    }
}

/// The part of an answer that a visit takes.
fn reported(got: Answer<TreeValue>) -> Answer<u64>
    ensures { result ≡ reported got }
{
    match got {
        Answer::Value(TreeValue::Word(word)) => Answer::Value(word),
        Answer::Value(TreeValue::Contents(_)) => Answer::Done,
        Answer::WasSet(was) => Answer::WasSet(was),
        Answer::Done => Answer::Done,
    }
}

/// A walk of one identity, which is not 0, down a tree of splitters (Moir and Anderson 1995) from its root.
///
/// At each node it first writes the mark, which makes the node if it does not exist, and then visits the node's
/// splitter. A visit that ends down leads to the left child, and one that ends right to the right child. If the visit
/// stops, the walk ends, and the node is the place of the identity. (The mark is this project's own.)
#[derive(Clone, Copy, Debug, Drop, PartialEq, Eq)]
pub struct Walker {
    /// Its visit to that node.
    pub visitor: Visitor<TreeRegister>,
    /// The number of the node that it visits, or visits next.
    pub place: Place,
    /// Whether the next access writes the mark.
    pub is_marking: bool,
}

impl Walker {
    /// Makes a walk that is at the root and has made no access.
    pub fn new(identity: u64) -> Walker
        ensures { result ≡ walk_of identity }
    {
        Walker::before(identity, ROOT)
    }

    /// A walk that has made no access to this node.
    fn before(identity: u64, place: Place) -> Walker
        ensures { result ≡ walker_at identity place }
    {
        Walker {
            visitor: Visitor::new(identity, TreeRegister::X(place), TreeRegister::Y(place)),
            place,
            is_marking: true,
        }
    }

    /// Returns the place at which the walk has ended, or `None` if it goes on.
    pub fn place(&self) -> Option<Place>
        ensures { result ≡ place_of self.now }
    {
        self.visitor.stage.place_at(self.place)
    }

    /// Takes the answer to an access of the visit.
    pub(crate) fn resume_visit(&mut self, got: Answer<u64>) -> Note<Place>
        ensures after { self.new ≡ walked_to self.old (stage_by self.old.visitor got) }
        ensures note { result ≡ note_at_door self.old.place (stage_by self.old.visitor got) }
    {
        match self.visitor.resume(got) {
            Note::Ended(Way::Stop) => Note::Ended(self.place),
            Note::Ended(Way::Right) => {
                *self = Walker::before(self.visitor.identity, right_child(self.place));
                Note::Quiet
            }
            Note::Ended(Way::Down) => {
                *self = Walker::before(self.visitor.identity, left_child(self.place));
                Note::Quiet
            }
            Note::Quiet | Note::Said(_) => Note::Quiet,
        }
    }
}

impl StepProgram for Walker {
    type Reg = TreeRegister;

    type Value = TreeValue;

    type Output = Place;

    ghost steps = { walker_steps };

    fn next(&self) -> Access<TreeRegister, TreeValue>
        ensures { result ≡ next_access self.now }
    {
        if self.is_marking {
            Access::Write(TreeRegister::Mark(self.place), TreeValue::Word(MARKED))
        } else {
            in_words(self.visitor.next())
        }
    }

    fn resume(&mut self, got: Answer<TreeValue>) -> Note<Place>
        ensures after { self.new ≡ walker_after self.old got }
        ensures note { result ≡ walker_note self.old got }
    {
        if self.is_marking {
            self.is_marking = false;
            return Note::Quiet;
        }
        self.resume_visit(reported(got))
    }
}
