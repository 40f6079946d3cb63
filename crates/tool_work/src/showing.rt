//! The page of a record that a reader gives.

ghost use Rattle.std.specs.Prelude.{◌≡◌, ◌<◌, ◌^◌};
ghost use Rattle.text_player.specs.Played.{reading, writing};
ghost use Rattle.tool_work.specs.Shown.{IsShownFor, outcome_shown, stretch_asked};

use crate::Showing;
use crate::checking::read_whole;
use crate::failure::Failure;
use crate::outcome::Outcome;
use crate::page::{Stretch, show};
use std::alloc::Global;
use text_checker::Verdict;
use text_player::{Fault, READ_BYTES, Sink, Source};

// Returns the stretch that is asked for.
fn stretch_asked(showing: Showing) -> Stretch
    ensures { result ≡ stretch_asked showing }
{
    Stretch {
        from: showing.from,
        count: showing.count,
    }
}

/// Reads a record to its end, writes its page if its verdict is `Yes`, and returns the verdict. With another verdict it writes nothing.
///
/// # Errors
///
/// - `Read`: the reader failed, or was read 2^40 times. Nothing is written.
/// - `Memory`: an allocation failed. Nothing is written.
/// - `Write`: the writer failed or took no byte. A prefix of the page is written.
pub fn show_for<R: Source, W: Sink>(
    alloc: Global,
    showing: Showing,
    reader: &mut R,
    writer: &mut W,
) -> Result<Verdict, Fault>
    requires reads { R.calls reader.old < 2 ^ 64 }
    requires writes { W.calls writer.old < 2 ^ 64 }
    ensures { IsShownFor (stretch_asked showing) (reading R.remaining R.calls R.failed reader.old reader.new)
        (writing W.contents W.failed writer.old writer.new) result }
{
    let Ok(mut chunk) = Vec::from_elem(alloc, 0, READ_BYTES) else {
        return Err(Fault::Memory);
    };
    let bytes = read_whole(alloc, reader, &mut chunk)?;
    let verdict = show(alloc, bytes.as_slice(), stretch_asked(showing), writer)?;
    Ok(verdict)
}

/// Returns how the program ends once a record was shown.
///
/// # Errors
///
/// - `No`, `BadRecord`: the verdict is no `Yes`.
/// - `Fault`: an allocation or the writer failed.
pub fn after_showing<'a>(shown: Result<Verdict, Fault>) -> Result<Outcome<'a>, Failure>
    ensures { result ≡ outcome_shown shown }
{
    match shown {
        Ok(Verdict::Yes) => Ok(Outcome::Ended(0)),
        Ok(Verdict::No(number, reason)) => Err(Failure::No(number, reason.number())),
        Ok(Verdict::BadRecord(number)) => Err(Failure::BadRecord(number)),
        Ok(Verdict::NoMemory) => Err(Failure::Fault(Fault::Memory)),
        Err(fault) => Err(Failure::Fault(fault)),
    }
}
