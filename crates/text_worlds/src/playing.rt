//! Runs of a world, from a reader to a writer.

ghost use Rattle.std.specs.Prelude.{◌≡◌, true, ◌^◌, ◌<◌, IfOk, IfErr};
ghost use Rattle.model_asked.specs.Config.{gives_names};
ghost use Rattle.text_player.specs.Played.{IsPlayedIn, reading, writing};
ghost use Rattle.text_worlds.specs.DeskWorld.{IsDeskTranscript};
ghost use Rattle.text_worlds.specs.GridWorld.{IsGridTranscript};
ghost use Rattle.text_worlds.specs.IsTranscript.{IsTranscript};
ghost use Rattle.text_worlds.specs.SplitterWorld.{IsSplitterTranscript};
ghost use Rattle.text_worlds.specs.Transcripts.{IsTranscriptOf};

use crate::desk::Desk;
use crate::world::{Unshared, World};
use model_asked::{Config, WorldKind};
use model_splitter::SplitterWorld;
use model_splitter::grid::GridWorld;
use std::alloc::Allocator;
use text_player::{Fault, Sink, Source, Summary, play_on};

/// Plays the commands of a reader, one a line, in a fresh world of the configuration, and writes the replies, one a
/// line.
///
/// The run ends at the end of the input or at `quit`. The replies to what one read gave are written before the next
/// read. All memory is allocated before the first read, except for nodes of a tree. The first three clauses are for one
/// kind of world each. The last is for every world.
///
/// # Errors
///
/// - `Memory`: an allocation failed. Nothing was read and nothing was written.
/// - `Read`: a read failed, or 2^40 reads were made. The replies to all whole lines are written, and a cut line was not
///   run.
/// - `Write`: a write failed or took no byte. A prefix of the replies is written.
pub fn play<A: Allocator + Clone, R: Source, W: Sink>(
    alloc: A,
    reader: &mut R,
    writer: &mut W,
    config: Config,
) -> Result<Summary, Fault>
    requires reads { R.calls reader.old < 2 ^ 64 }
    requires writes { W.calls writer.old < 2 ^ 64 }
    ensures splitter { config.world ≡ WorldKind.Splitter → IsPlayedIn (IsSplitterTranscript config) config.world
        (reading R.remaining R.calls R.failed reader.old reader.new) (writing W.contents W.failed writer.old writer.new) result }
    ensures grid { config.world ≡ WorldKind.Grid → IsPlayedIn (IsGridTranscript config) config.world
        (reading R.remaining R.calls R.failed reader.old reader.new) (writing W.contents W.failed writer.old writer.new) result }
    ensures names { gives_names config.world ≡ true → IsPlayedIn (IsDeskTranscript config) config.world
        (reading R.remaining R.calls R.failed reader.old reader.new) (writing W.contents W.failed writer.old writer.new) result }
    ensures every { IsPlayedIn (IsTranscript config) config.world
        (reading R.remaining R.calls R.failed reader.old reader.new) (writing W.contents W.failed writer.old writer.new) result }
{
    match config.world {
        WorldKind::Splitter => play_in::<SplitterWorld<A>, _, A, R, W>(
            alloc, &Unshared, reader, writer, config,
        ),
        WorldKind::Grid => play_in::<GridWorld<A>, _, A, R, W>(
            alloc, &Unshared, reader, writer, config,
        ),
        WorldKind::Rename | WorldKind::Tree | WorldKind::Wide => play_in::<Desk<A>, _, A, R, W>(
            alloc, &Unshared, reader, writer, config,
        ),
    }
}

/// A fresh world of a configuration; `Memory` if an allocation failed.
pub(crate) fn opened<D: World<A, H>, H, A: Allocator + Clone>(
    alloc: &A,
    config: Config,
) -> Result<D, Fault>
    requires { D.serves config.world ≡ true }
    ensures fresh { IfOk result (λ w. D.fresh config w) }
    ensures only { IfErr result (λ fault. fault ≡ Fault.Memory) }
{
    let Ok(other) = alloc.clone() else {
        return Err(Fault::Memory);
    };
    match D::open(other, config) {
        Ok(world) => Ok(world),
        Err(_) => Err(Fault::Memory),
    }
}

/// Plays in a fresh world of any type, as `play` does.
///
/// It is a function of its own, so that `play` drops no world, which costs the prover time for each type.
///
/// # Errors
///
/// Those of `play`.
pub fn play_in<D: World<A, H> + Drop, H, A: Allocator + Clone, R: Source, W: Sink>(
    alloc: A,
    rt: &H,
    reader: &mut R,
    writer: &mut W,
    config: Config,
) -> Result<Summary, Fault>
    requires serves { D.serves config.world ≡ true }
    requires reads { R.calls reader.old < 2 ^ 64 }
    requires writes { W.calls writer.old < 2 ^ 64 }
    ensures { IsPlayedIn (IsTranscriptOf (D.IsRunIn config) config.m (D.fresh config) D.may) config.world
        (reading R.remaining R.calls R.failed reader.old reader.new) (writing W.contents W.failed writer.old writer.new) result }
{
    let mut world = opened::<D, H, A>(&alloc, config)?;
    play_on(alloc, rt, &mut world, config.world, reader, writer)
}
