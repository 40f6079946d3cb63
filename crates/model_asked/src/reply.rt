//! The reply to an event.

ghost use Rattle.std.specs.Prelude.{◌≡◌, ℕ, List};
ghost use Rattle.model_asked.specs.Replies.{is_refusal, with_view, done_reply, left_reply, value_reply};

use model_steps::{Place, Refusal, View};

/// The reply to an event.
///
/// `V` is what it carries of a view. `Reply<View>` carries the view that it shows, and takes a kilobyte. `Reply<()>`
/// takes a few bytes, and its view is kept beside it.
#[derive(Clone, Copy, Debug, Drop, PartialEq, Eq)]
pub enum Reply<V> {
    /// Done.
    Ok,
    /// The step has no output.
    Quiet,
    /// The visit to a lone splitter has ended: it stopped.
    Stop,
    /// It went right.
    Right,
    /// It went down.
    Down,
    /// The participant has reached this place.
    Place(Place),
    /// The participant has proposed this number.
    Proposed(u64),
    /// The participant has seen that another proposes what it proposes.
    Saw(V),
    /// The participant has this name, by this view.
    Named(u64, V),
    /// The participant has used up its rounds.
    Spent,
    /// The bit was set: the next probe is of the next bit.
    Missed,
    /// The competitor holds this number.
    Got(u32),
    /// The competitor has given this number back.
    Left(u32),
    /// The value in the slot of the number that is held.
    Value(u64),
    /// The identity that has the name, or `None` if no identity has it.
    Owner(Option<u64>),
    /// The call failed for this reason, and changed nothing.
    Refused(Refusal),
}

impl<V> Reply<V> {
    /// Whether it is a refusal: the event was not accepted.
    #[inline(always)]
    pub fn is_refusal(&self) -> bool
        ensures { (view : List (ℕ × ℕ)) → result ≡ is_refusal (with_view self.now view) }
    {
        matches!(self, Reply::Refused(_))
    }
}

impl Reply<View> {
    /// Returns the reply without its view, and puts the view, if it has one, into `view`.
    pub fn shorten(self, view: &mut View) -> Reply<()>
        ensures { with_view result view.new ≡ self }
    {
        match self {
            Reply::Ok => Reply::Ok,
            Reply::Quiet => Reply::Quiet,
            Reply::Stop => Reply::Stop,
            Reply::Right => Reply::Right,
            Reply::Down => Reply::Down,
            Reply::Place(place) => Reply::Place(place),
            Reply::Proposed(number) => Reply::Proposed(number),
            Reply::Saw(seen) => {
                *view = seen;
                Reply::Saw(())
            }
            Reply::Named(name, seen) => {
                *view = seen;
                Reply::Named(name, ())
            }
            Reply::Spent => Reply::Spent,
            Reply::Missed => Reply::Missed,
            Reply::Got(number) => Reply::Got(number),
            Reply::Left(number) => Reply::Left(number),
            Reply::Value(value) => Reply::Value(value),
            Reply::Owner(owner) => Reply::Owner(owner),
            Reply::Refused(refusal) => Reply::Refused(refusal),
        }
    }
}

impl Reply<()> {
    /// Returns the reply with this view, which was kept beside it.
    pub fn with(self, view: &View) -> Reply<View>
        ensures { result ≡ with_view self view.now }
    {
        match self {
            Reply::Ok => Reply::Ok,
            Reply::Quiet => Reply::Quiet,
            Reply::Stop => Reply::Stop,
            Reply::Right => Reply::Right,
            Reply::Down => Reply::Down,
            Reply::Place(place) => Reply::Place(place),
            Reply::Proposed(number) => Reply::Proposed(number),
            Reply::Saw(()) => Reply::Saw(*view),
            Reply::Named(name, ()) => Reply::Named(name, *view),
            Reply::Spent => Reply::Spent,
            Reply::Missed => Reply::Missed,
            Reply::Got(number) => Reply::Got(number),
            Reply::Left(number) => Reply::Left(number),
            Reply::Value(value) => Reply::Value(value),
            Reply::Owner(owner) => Reply::Owner(owner),
            Reply::Refused(refusal) => Reply::Refused(refusal),
        }
    }

    /// Returns the reply for the outcome of a call that returns no value.
    pub fn of_done(outcome: Result<(), Refusal>) -> Self
        ensures { (view : List (ℕ × ℕ)) → with_view result view ≡ done_reply outcome }
    {
        match outcome {
            Ok(()) => Reply::Ok,
            Err(refusal) => Reply::Refused(refusal),
        }
    }

    /// Returns the reply for the outcome of a call that gives a number back.
    pub fn of_leave(outcome: Result<u32, Refusal>) -> Self
        ensures { (view : List (ℕ × ℕ)) → with_view result view ≡ left_reply outcome }
    {
        match outcome {
            Ok(number) => Reply::Left(number),
            Err(refusal) => Reply::Refused(refusal),
        }
    }

    /// Returns the reply for the outcome of a call that gets a value.
    pub fn of_value(outcome: Result<u64, Refusal>) -> Self
        ensures { (view : List (ℕ × ℕ)) → with_view result view ≡ value_reply outcome }
    {
        match outcome {
            Ok(value) => Reply::Value(value),
            Err(refusal) => Reply::Refused(refusal),
        }
    }
}
