//! The replies for the outcomes of a splitter's and a grid's steps.

ghost use Rattle.std.specs.Prelude.{◌≡◌, ℕ, List};
ghost use Rattle.model_asked.specs.Replies.{with_view};
ghost use Rattle.text_worlds.specs.Visits.{said_reply};
ghost use Rattle.text_worlds.specs.GridWorld.{place_reply};
ghost use Rattle.text_worlds.specs.SplitterWorld.{way_reply};

use model_asked::Reply;
use model_splitter::Way;
use model_steps::{Place, Refusal};

/// The reply for the outcome of a step of a visit.
pub(crate) fn visit_reply(outcome: Result<Option<Way>, Refusal>) -> Reply<()>
    ensures { (view : List (ℕ × ℕ)) → with_view result view ≡ said_reply way_reply outcome }
{
    match outcome {
        Ok(None) => Reply::Quiet,
        Ok(Some(Way::Stop)) => Reply::Stop,
        Ok(Some(Way::Right)) => Reply::Right,
        Ok(Some(Way::Down)) => Reply::Down,
        Err(refusal) => Reply::Refused(refusal),
    }
}

/// The reply for the outcome of a step of a walk.
pub(crate) fn walk_reply(outcome: Result<Option<Place>, Refusal>) -> Reply<()>
    ensures { (view : List (ℕ × ℕ)) → with_view result view ≡ said_reply place_reply outcome }
{
    match outcome {
        Ok(None) => Reply::Quiet,
        Ok(Some(place)) => Reply::Place(place),
        Err(refusal) => Reply::Refused(refusal),
    }
}
