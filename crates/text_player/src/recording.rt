//! Runs that write their record.

ghost use Rattle.std.specs.Prelude.{◌≡◌, ◌≢◌, Err, ◌^◌, ◌<◌, length};
ghost use Rattle.text_player.specs.Knows.{Knows};
ghost use Rattle.text_player.specs.Played.{reading, writing};
ghost use Rattle.text_player.specs.Recorded.{IsRecordedOn};
ghost use Rattle.text_player.specs.Runs.{IsRunTo, CanRun};
ghost use Rattle.text_player.specs.Stands.{IsFresh};

use crate::player::Player;
use crate::playing::{fresh, run};
use crate::{AsRecord, Fault, READ_BYTES, Service, Sink, Source};
use model_asked::Config;
use std::alloc::Allocator;

/// Plays on a service as `play_on` does, and writes the record of the run in place of the replies.
///
/// It writes the header of the config before the first read, and then a line for each event with its reply.
///
/// # Errors
///
/// Those of `play_on`. If it cannot write the whole header, the error is `Fault::Write` and nothing was read.
pub fn record_on<H, D: Service<H>, A: Allocator + Clone, R: Source, W: Sink>(
    alloc: A,
    rt: &H,
    world: &mut D,
    config: Config,
    reader: &mut R,
    writer: &mut W,
) -> Result<(), Fault>
    requires knows { Knows D.knows config.world }
    requires reads { R.calls reader.old < 2 ^ 64 }
    requires writes { W.calls writer.old < 2 ^ 64 }
    ensures recorded { IsRecordedOn config (IsRunTo D.may world.old world.new) (CanRun D.may world.old)
        (reading R.remaining R.calls R.failed reader.old reader.new) (writing W.contents W.failed writer.old writer.new) result }
    ensures unchanged { result ≡ Err Fault.Memory → world.new ≡ world.old }
{
    let (mut player, mut chunk) = fresh::<A, AsRecord>(alloc, config.world)?;
    record_run(rt, world, &mut player, &mut chunk, config, reader, writer)
}

// Writes the header, and then the lines of what it reads to the end of the input or to `quit`.
fn record_run<H, D: Service<H>, A: Allocator, R: Source, W: Sink>(
    rt: &H,
    world: &mut D,
    player: &mut Player<A, AsRecord>,
    chunk: &mut [u8],
    config: Config,
    reader: &mut R,
    writer: &mut W,
) -> Result<(), Fault>
    requires knows { Knows D.knows config.world }
    requires chunk { length chunk.old ≡ READ_BYTES }
    requires fresh { IsFresh config.world player.old }
    requires reads { R.calls reader.old < 2 ^ 64 }
    requires writes { W.calls writer.old < 2 ^ 64 }
    ensures recorded { IsRecordedOn config (IsRunTo D.may world.old world.new) (CanRun D.may world.old)
        (reading R.remaining R.calls R.failed reader.old reader.new) (writing W.contents W.failed writer.old writer.new) result }
    ensures never { result ≢ Err Fault.Memory }
{
    player.write_header(config, writer)?;
    run(rt, world, player, chunk, reader, writer)?;
    Ok(())
}
