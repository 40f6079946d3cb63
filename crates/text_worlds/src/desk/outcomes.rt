//! The replies for the outcomes of steps, and of one probe or many.

ghost use Rattle.std.specs.Prelude.{◌≡◌, ℕ, List};
ghost use Rattle.model_asked.specs.Replies.{with_view};
ghost use Rattle.text_worlds.specs.desk.Replies.{step_reply, probe_reply, seek_reply};
ghost use Rattle.model_renaming.specs.Reply.{outcome_with};

use model_asked::Reply;
use model_pool::Probe;
use model_renaming::Reply as Step;
use model_steps::Refusal;

/// The reply for the outcome of a step of renaming.
pub(crate) fn of_step(outcome: Result<Step<()>, Refusal>) -> Reply<()>
    ensures { (view : List (ℕ × ℕ)) → with_view result view ≡ step_reply (outcome_with outcome view) }
{
    match outcome {
        Ok(Step::Quiet) => Reply::Quiet,
        Ok(Step::Placed(place)) => Reply::Place(place),
        Ok(Step::Proposed(number)) => Reply::Proposed(number),
        Ok(Step::Saw(())) => Reply::Saw(()),
        Ok(Step::Named(name, ())) => Reply::Named(name, ()),
        Ok(Step::Spent) => Reply::Spent,
        Err(refusal) => Reply::Refused(refusal),
    }
}

/// The reply for the outcome of a probe.
pub(crate) fn of_probe(outcome: Result<Probe, Refusal>) -> Reply<()>
    ensures { (view : List (ℕ × ℕ)) → with_view result view ≡ probe_reply outcome }
{
    match outcome {
        Ok(Probe::Missed) => Reply::Missed,
        Ok(Probe::Got(number)) => Reply::Got(number),
        Err(refusal) => Reply::Refused(refusal),
    }
}

/// The reply for the outcome of probes until a number is had.
pub(crate) fn of_seek(outcome: Result<u32, Refusal>) -> Reply<()>
    ensures { (view : List (ℕ × ℕ)) → with_view result view ≡ seek_reply outcome }
{
    match outcome {
        Ok(number) => Reply::Got(number),
        Err(refusal) => Reply::Refused(refusal),
    }
}
