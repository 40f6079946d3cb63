//! Runs of a world whose record is written.

ghost use Rattle.std.specs.Prelude.{◌≡◌, true, ◌^◌, ◌<◌};
ghost use Rattle.model_asked.specs.Config.{gives_names};
ghost use Rattle.text_player.specs.Played.{reading, writing};
ghost use Rattle.text_worlds.specs.Recorded.{IsRecorded};

use crate::desk::Desk;
use crate::playing::opened;
use crate::world::Unshared;
use model_asked::Config;
use std::alloc::Allocator;
use text_player::{Fault, Sink, Source, record_on};

/// Plays the commands of a reader as `play` does, and writes the record of the run in place of the replies.
///
/// The record is a header, which is written before the first read, and a line for each event with its reply.
///
/// # Errors
///
/// Those of `play`. If the header cannot be written, the error is `Write` and nothing was read.
pub fn record<A: Allocator + Clone, R: Source, W: Sink>(
    alloc: A,
    reader: &mut R,
    writer: &mut W,
    config: Config,
) -> Result<(), Fault>
    requires names { gives_names config.world ≡ true }
    requires reads { R.calls reader.old < 2 ^ 64 }
    requires writes { W.calls writer.old < 2 ^ 64 }
    ensures { IsRecorded config (reading R.remaining R.calls R.failed reader.old reader.new) (writing W.contents W.failed writer.old writer.new) result }
{
    let mut world = opened::<Desk<A>, Unshared, A>(&alloc, config)?;
    let recorded = record_on(alloc, &Unshared, &mut world, config, reader, writer);
    // by a call, since otherwise it is dropped at each way out
    drop(world);
    recorded
}
