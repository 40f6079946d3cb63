//! A record is written again, in version 2.

ghost use Rattle.std.specs.Prelude.{◌<◌, ◌^◌, IfOk, MatchResult};
ghost use Rattle.text_player.specs.Played.{writing};
ghost use Rattle.text_checker.specs.Migrated.{IsMigratedTo, IsMigrated, IsOther};
ghost use Rattle.text_records.specs.Records.{record_lines};
ghost use Rattle.text_checker.specs.Verdict.{IsSaid};

use crate::migration::Migration;
use crate::record::{judge_rows, opened};
use crate::verdict::Verdict;
use std::alloc::{AllocError, Global};
use text_lines::put_all;
use text_player::{Fault, Sink};
use text_records::Text;

/// The text of a record in version 2, or the verdict on it if that is not `Yes`.
fn migrated(alloc: Global, bytes: &[u8]) -> Result<Result<Text, Verdict>, AllocError>
    ensures { IfOk result (λ r. MatchResult r (IsMigratedTo bytes.now) (IsOther (IsSaid (record_lines bytes.now)))) }
{
    let Some((header, rows)) = opened(alloc, bytes)? else {
        return Ok(Err(Verdict::BadRecord(1)));
    };
    let mut migration = Migration::new(alloc, header.config)?;
    match judge_rows(alloc, header, rows, &mut migration)? {
        Verdict::Yes => Ok(Ok(migration.into_text())),
        verdict => Ok(Err(verdict)),
    }
}

/// Writes a record again in version 2 if it is one of a run, and returns the verdict on it. Otherwise it writes
/// nothing.
///
/// A view by which a name was given and that is not written is the first by which it could be given. If an allocation
/// fails, the verdict is `NoMemory`.
///
/// # Errors
///
/// `Write`: a write failed or took no byte. A prefix of the text is written.
pub fn migrate<W: Sink>(alloc: Global, bytes: &[u8], writer: &mut W) -> Result<Verdict, Fault>
    requires { W.calls writer.old < 2 ^ 64 }
    ensures { IsMigrated (writing W.contents W.failed writer.old writer.new) bytes.now result }
{
    match migrated(alloc, bytes) {
        Ok(Ok(text)) => {
            put_all(writer, text.as_slice())?;
            Ok(Verdict::Yes)
        }
        Ok(Err(verdict)) => Ok(verdict),
        Err(_) => Ok(Verdict::NoMemory),
    }
}
