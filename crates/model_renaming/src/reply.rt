//! The reply of a step of a renaming world.

ghost use Rattle.std.specs.Prelude.{◌≡◌};
ghost use Rattle.model_renaming.specs.Reply.{view_reported, with_view, outcome_with};

use model_steps::{Place, Refusal, View};

/// What a step returns.
///
/// `V` is what it carries of a view: the view that it shows, or `()` if the view is kept beside it and the reply takes
/// a few bytes.
#[derive(Clone, Copy, Debug, Drop, PartialEq, Eq)]
pub enum Reply<V> {
    /// The step has completed nothing.
    Quiet,
    /// The participant has reached this place.
    Placed(Place),
    /// The participant has proposed this number.
    Proposed(u64),
    /// The participant has seen, in this view, that another one proposes the same number.
    Saw(V),
    /// The participant has this name, by this view.
    Named(u64, V),
    /// The participant has used up its proposals.
    Spent,
}

impl Reply<View> {
    /// Returns the view of `Saw` or `Named`, and `None` of any other reply.
    pub fn view(&self) -> Option<View>
        ensures { result ≡ view_reported self.now }
    {
        match self {
            Reply::Quiet => None,
            Reply::Placed(_) => None,
            Reply::Proposed(_) => None,
            Reply::Saw(view) => Some(*view),
            Reply::Named(_, view) => Some(*view),
            Reply::Spent => None,
        }
    }

    /// Returns the reply without its view, and puts the view, if it has one, into `view`.
    pub fn shorten(self, view: &mut View) -> Reply<()>
        ensures { with_view result view.new ≡ self }
    {
        match self {
            Reply::Quiet => Reply::Quiet,
            Reply::Placed(place) => Reply::Placed(place),
            Reply::Proposed(number) => Reply::Proposed(number),
            Reply::Saw(seen) => {
                *view = seen;
                Reply::Saw(())
            }
            Reply::Named(name, seen) => {
                *view = seen;
                Reply::Named(name, ())
            }
            Reply::Spent => Reply::Spent,
        }
    }
}

impl Reply<()> {
    /// Returns the reply with this view, which was kept beside it.
    pub fn with(self, view: &View) -> Reply<View>
        ensures { result ≡ with_view self view.now }
    {
        match self {
            Reply::Quiet => Reply::Quiet,
            Reply::Placed(place) => Reply::Placed(place),
            Reply::Proposed(number) => Reply::Proposed(number),
            Reply::Saw(()) => Reply::Saw(*view),
            Reply::Named(name, ()) => Reply::Named(name, *view),
            Reply::Spent => Reply::Spent,
        }
    }

    /// Returns the outcome of a step, with the view that was kept beside its reply.
    ///
    /// # Errors
    ///
    /// The outcome's own error.
    pub fn with_in(outcome: Result<Self, Refusal>, view: &View) -> Result<Reply<View>, Refusal>
        ensures { result ≡ outcome_with outcome view.now }
    {
        match outcome {
            Ok(said) => Ok(said.with(view)),
            Err(refusal) => Err(refusal),
        }
    }
}
