//! The command language over any service.

ghost use Rattle.std.specs.Prelude.{◌≡◌, Err, ◌^◌, ◌<◌};
ghost use Rattle.text_player.specs.Knows.{Knows};
ghost use Rattle.text_player.specs.Played.{IsPlayed, reading, writing};
ghost use Rattle.text_player.specs.Texts.{replies_of};
ghost use Rattle.text_player.specs.Runs.{IsRunTo, CanRun};

use std::alloc::Allocator;
use text_player::{Fault, Service, Sink, Source, Summary, WorldKind, play_on};

/// Plays the commands of a reader by a service, one a line, and writes the replies, one a line.
///
/// It has the theorem of `play`, in the command language of the worlds that give names. The replies to what one read
/// gave are written before the next read.
///
/// # Errors
///
/// - `Memory`: an allocation failed. Nothing was read or written, and the service is unchanged.
/// - `Read`: a read failed, or 2^40 reads were made.
/// - `Write`: a write failed or took no byte.
pub fn serve_one<R, A: Allocator + Clone, I: Source, O: Sink, S: Service<R>>(
    rt: &R,
    alloc: A,
    reader: &mut I,
    writer: &mut O,
    service: &mut S,
) -> Result<Summary, Fault>
    requires knows { Knows S.knows WorldKind.Rename }
    requires reads { I.calls reader.old < 2 ^ 64 }
    requires writes { O.calls writer.old < 2 ^ 64 }
    ensures served { IsPlayed replies_of (IsRunTo S.may service.old service.new) (CanRun S.may service.old) WorldKind.Rename
        (reading I.remaining I.calls I.failed reader.old reader.new) (writing O.contents O.failed writer.old writer.new) result }
    ensures unchanged { result ≡ Err Fault.Memory → service.new ≡ service.old }
{
    play_on(alloc, rt, service, WorldKind::Rename, reader, writer)
}
