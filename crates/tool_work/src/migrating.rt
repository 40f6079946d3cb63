//! The migration of a record that a reader gives.

ghost use Rattle.std.specs.Prelude.{◌<◌, ◌^◌};
ghost use Rattle.text_player.specs.Played.{reading, writing};
ghost use Rattle.tool_work.specs.Checked.{IsRewritten};

use crate::checking::{put_verdict, read_whole};
use std::alloc::Global;
use text_checker::{Verdict, migrate};
use text_lines::put_all;
use text_player::{Fault, READ_BYTES, Replies, Sink, Source};

/// Reads a record to its end, and writes it again in version 2 if its verdict is `Yes`, or else the line of its verdict.
///
/// Returns 0 for `Yes`, else 1.
///
/// # Errors
///
/// - `Read`: the reader failed, or was read 2^40 times. Nothing is written.
/// - `Memory`: an allocation failed. Nothing is written.
/// - `Write`: the writer failed or took no byte. A prefix of the text is written.
pub fn migrate_for<R: Source, W: Sink>(
    alloc: Global,
    reader: &mut R,
    writer: &mut W,
) -> Result<u8, Fault>
    requires reads { R.calls reader.old < 2 ^ 64 }
    requires writes { W.calls writer.old < 2 ^ 64 }
    ensures { IsRewritten (reading R.remaining R.calls R.failed reader.old reader.new) (writing W.contents W.failed writer.old writer.new) result }
{
    let Ok(mut line) = Replies::new(alloc) else {
        return Err(Fault::Memory);
    };
    let Ok(mut chunk) = Vec::from_elem(alloc, 0, READ_BYTES) else {
        return Err(Fault::Memory);
    };
    let bytes = read_whole(alloc, reader, &mut chunk)?;
    let verdict = migrate(alloc, bytes.as_slice(), writer)?;
    if verdict == Verdict::Yes {
        return Ok(0);
    }
    if verdict == Verdict::NoMemory {
        return Err(Fault::Memory);
    }
    put_verdict(verdict, &mut line);
    put_all(writer, line.as_slice())?;
    Ok(1)
}
