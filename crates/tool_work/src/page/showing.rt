//! A record is shown as a page.

ghost use Rattle.std.specs.Prelude.{◌<◌, ◌^◌, IfOk, MatchResult};
ghost use Rattle.text_player.specs.Played.{writing};
ghost use Rattle.text_records.specs.Records.{record_lines};
ghost use Rattle.text_checker.specs.Migrated.{IsOther};
ghost use Rattle.text_checker.specs.Verdict.{IsSaid};
ghost use Rattle.tool_work.specs.page.Shown.{IsPage, IsShown};

use crate::page::sheet::Sheet;
use crate::page::stretch::Stretch;
use std::alloc::{AllocError, Global};
use text_checker::Verdict;
use text_checker::record::{judge_rows, opened};
use text_lines::put_all;
use text_player::{Fault, Sink};
use text_records::Text;

/// Returns the page of a record, or another verdict than `Yes`. It fails if an allocation failed.
fn shown(alloc: Global, bytes: &[u8], stretch: Stretch) -> Result<Result<Text, Verdict>, AllocError>
    ensures { IfOk result (λ r. MatchResult r (IsPage bytes.now stretch) (IsOther (IsSaid (record_lines bytes.now)))) }
{
    let Some((header, rows)) = opened(alloc, bytes)? else {
        return Ok(Err(Verdict::BadRecord(1)));
    };
    let mut sheet = Sheet::new(alloc, header.config, stretch)?;
    match judge_rows(alloc, header, rows, &mut sheet)? {
        Verdict::Yes => {
            let page = sheet.into_page(alloc, stretch)?;
            Ok(Ok(page))
        }
        verdict => Ok(Err(verdict)),
    }
}

/// Writes the page of a stretch of a record, if it is the record of a run, and returns the verdict on it.
///
/// It returns `Yes` if the page is written. With another verdict nothing is written. `NoMemory` says that an allocation failed.
///
/// # Errors
///
/// - `Write`: the writer failed. A prefix of the page is written.
pub fn show<W: Sink>(
    alloc: Global,
    bytes: &[u8],
    stretch: Stretch,
    writer: &mut W,
) -> Result<Verdict, Fault>
    requires { W.calls writer.old < 2 ^ 64 }
    ensures { IsShown (writing W.contents W.failed writer.old writer.new) bytes.now stretch result }
{
    match shown(alloc, bytes, stretch) {
        Ok(Ok(text)) => {
            put_all(writer, text.as_slice())?;
            Ok(Verdict::Yes)
        }
        Ok(Err(verdict)) => Ok(verdict),
        Err(_) => Ok(Verdict::NoMemory),
    }
}
