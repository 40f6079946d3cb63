//! A participant of a tree.

ghost use Rattle.std.specs.Prelude.{◌≡◌};
ghost use Rattle.model_splitter.specs.tree.Client.{place_reported, view_reported, is_placing, is_idle, is_collecting, client_of, storing, collecting, record_of, client_steps, client_access, client_after, client_note, placing_after, placing_note, collecting_after, collecting_note};

use crate::tree::collect::Collect;
use crate::tree::{TreeRegister, TreeValue, Walker};
use model_steps::{Access, Answer, Note, Place, Record, StepProgram, View};

/// What a step of a participant returns, if it returns anything.
#[derive(Clone, Copy, Debug, Drop)]
pub enum TreeReply {
    /// The participant has reached this place.
    Placed(Place),
    /// The value is stored.
    Stored,
    /// The collect has ended with this view.
    Collected(View),
}

/// Returns the place that a step reports.
pub(crate) fn place_reported(note: &Note<TreeReply>) -> Option<Place>
    ensures { result ≡ place_reported note.now }
{
    match note {
        Note::Said(TreeReply::Placed(place)) => Some(*place),
        Note::Said(TreeReply::Stored) => None,
        Note::Said(TreeReply::Collected(_)) => None,
        Note::Ended(_) => None,
        Note::Quiet => None,
    }
}

/// Returns the view that a step reports.
pub(crate) fn view_reported(note: &Note<TreeReply>) -> Option<View>
    ensures { result ≡ view_reported note.now }
{
    match note {
        Note::Said(TreeReply::Collected(view)) => Some(*view),
        Note::Said(TreeReply::Placed(_)) => None,
        Note::Said(TreeReply::Stored) => None,
        Note::Ended(_) => None,
        Note::Quiet => None,
    }
}

/// What a participant has still to do.
#[derive(Clone, Copy, Debug, Drop)]
pub enum Task {
    /// To reach its place.
    Placing,
    /// Nothing.
    Nothing,
    /// To write this value into its segment.
    Storing(u64),
    /// To go on with this collect.
    Collecting(Collect),
}

/// A participant of a tree: its walk to its place, and what it has still to do.
#[derive(Clone, Copy, Debug, Drop)]
pub struct Client {
    /// Its walk to its place.
    pub walker: Walker,
    /// What it has still to do.
    pub task: Task,
}

impl Client {
    /// Makes a participant whose walk has made no access.
    pub fn new(identity: u64) -> Self
        ensures { result ≡ client_of identity }
    {
        Client {
            walker: Walker::new(identity),
            task: Task::Placing,
        }
    }

    /// Whether it has no place yet.
    pub fn is_placing(&self) -> bool
        ensures { result ≡ is_placing self.now.task }
    {
        matches!(self.task, Task::Placing)
    }

    /// Whether it has its place, and nothing to do.
    pub fn is_idle(&self) -> bool
        ensures { result ≡ is_idle self.now.task }
    {
        matches!(self.task, Task::Nothing)
    }

    /// Whether a collect of it is under way.
    pub fn is_collecting(&self) -> bool
        ensures { result ≡ is_collecting self.now.task }
    {
        matches!(self.task, Task::Collecting(_))
    }

    /// Returns this participant with a value to store.
    pub fn storing(&self, value: u64) -> Self
        ensures { result ≡ storing self.now value }
    {
        Client {
            walker: self.walker,
            task: Task::Storing(value),
        }
    }

    /// Returns this participant with a collect that has read nothing.
    pub fn collecting(&self) -> Self
        ensures { result ≡ collecting self.now }
    {
        Client {
            walker: self.walker,
            task: Task::Collecting(Collect::new()),
        }
    }

    /// Returns the record that it writes into its segment.
    fn record(&self, value: u64) -> Record
        ensures { result ≡ record_of self.now value }
    {
        Record {
            identity: self.walker.visitor.identity,
            value,
            number: 0,
            view: View::new(),
        }
    }

    /// Takes the answer to an access of the walk to the place.
    fn resume_placing(&mut self, got: Answer<TreeValue>) -> Note<TreeReply>
        ensures after { self.new ≡ placing_after self.old got }
        ensures note { result ≡ placing_note self.old got }
    {
        match self.walker.resume(got) {
            Note::Ended(place) => {
                self.task = Task::Nothing;
                Note::Said(TreeReply::Placed(place))
            }
            Note::Said(_) => Note::Quiet,
            Note::Quiet => Note::Quiet,
        }
    }

    /// Takes the answer to a read of this collect.
    fn resume_collect(&mut self, collect: Collect, got: &TreeValue) -> Note<TreeReply>
        ensures after { self.new ≡ collecting_after self.old collect got.now }
        ensures note { result ≡ collecting_note collect got.now }
    {
        let mut collect = collect;
        match collect.resume(got) {
            Some(view) => {
                self.task = Task::Nothing;
                Note::Said(TreeReply::Collected(view))
            }
            None => {
                self.task = Task::Collecting(collect);
                Note::Quiet
            }
        }
    }
}

impl StepProgram for Client {
    type Reg = TreeRegister;

    type Value = TreeValue;

    type Output = TreeReply;

    ghost steps = { client_steps };

    fn next(&self) -> Access<TreeRegister, TreeValue>
        ensures { result ≡ client_access self.now }
    {
        match self.task {
            Task::Placing => self.walker.next(),
            Task::Nothing => Access::Nothing,
            Task::Storing(value) => match self.walker.place() {
                Some(place) => Access::Write(
                    TreeRegister::Contents(place),
                    TreeValue::Contents(Some(self.record(value))),
                ),
                None => Access::Nothing,
            },
            Task::Collecting(collect) => Access::Read(collect.next()),
        }
    }

    fn resume(&mut self, got: Answer<TreeValue>) -> Note<TreeReply>
        ensures after { self.new ≡ client_after self.old got }
        ensures note { result ≡ client_note self.old got }
    {
        match self.task {
            Task::Placing => self.resume_placing(got),
            Task::Nothing => Note::Quiet,
            Task::Storing(_) => {
                self.task = Task::Nothing;
                Note::Said(TreeReply::Stored)
            }
            Task::Collecting(collect) => match got {
                Answer::Value(value) => self.resume_collect(collect, &value),
                Answer::WasSet(_) => Note::Quiet,
                Answer::Done => Note::Quiet,
            },
        }
    }
}
