//! Lines in the spelling in which records are written, read without a reader of JSON.

ghost use Rattle.std.specs.Prelude.{◌≡◌, ◌≤◌, ◌++◌, IfOk, IfSome, length, take, true};
ghost use Rattle.std.specs.List.{list_all};
ghost use Rattle.std.specs.Option.{option_copied};
ghost use Rattle.text_records.specs.Json.{is_plain};
ghost use Rattle.text_records.specs.PlainLine.{SpellsEvent, SpellsEnd, SpellsReported, SpellsRow};

use crate::header::Version;
use crate::line::{Line, Row};
use crate::quick_reply::quick_reported;
use crate::reply_text::reported_of;
use crate::reported::Reported;
use model_asked::{Event, WorldKind};
use std::alloc::{AllocError, Global};
use text_lines::words::is_word;
use text_player::{Command, after_front, quick_command};

/// Whether a byte stands for itself in a JSON string.
fn is_plain(byte: u8) -> bool
    ensures { result ≡ is_plain byte }
{
    b' ' <= byte && byte <= b'~' && byte != b'"' && byte != b'\\'
}

/// The number of bytes before the first that does not stand for itself.
fn plain_length(bytes: &[u8]) -> usize
    ensures within { result ≤ length bytes.now }
    ensures plain { list_all is_plain (take result bytes.now) ≡ true }
{
    for (i, byte) in bytes.iter().enumerate() {
        if !is_plain(*byte) {
            return i;
        }
    }
    bytes.len()
}

/// The bytes before the first that does not stand for itself, and the others.
fn split_plain(bytes: &[u8]) -> (&[u8], &[u8])
    ensures whole { bytes.now ≡ result.0.now ++ result.1.now }
    ensures plain { list_all is_plain result.0.now ≡ true }
{
    bytes.split_at(plain_length(bytes))
}

/// The event at the start of a line, and the bytes from its reply on, in one pass. `None` means nothing.
///
/// It is a function of its own, so that what reads a line is short enough to inline in the loop over lines.
#[inline(never)]
fn plain_event(kind: WorldKind, bytes: &[u8]) -> Option<(Event, &[u8])>
    ensures { IfSome result (λ r. SpellsEvent kind bytes.now r.0 r.1.now) }
{
    let text = after_front(bytes, b"{\"command\":\"")?;
    let (command, end) = quick_command(text, kind, b'"')?;
    let Command::Event(event) = command else {
        return None;
    };
    Some((event, after_front(&text[end..], b"\",\"reply\":\"")?))
}

/// The reply at the end of a line, and the view beside it, if each byte of both stands for itself.
fn plain_end(text: &[u8]) -> Option<(&[u8], Option<&[u8]>)>
    ensures { IfSome result (λ r. SpellsEnd text.now r.0.now (option_copied r.1)) }
{
    let (reply, rest) = split_plain(text);
    if is_word(rest, b"\"}") {
        return Some((reply, None));
    }
    let (view, rest) = split_plain(after_front(rest, b"\",\"view\":\"")?);
    if !is_word(rest, b"\"}") {
        return None;
    }
    Some((reply, Some(view)))
}

/// What the end of a line reports of the reply, with the view beside it. `None` means nothing.
#[inline(never)]
fn plain_reported(
    alloc: Global,
    version: Version,
    text: &[u8],
) -> Result<Option<Reported>, AllocError>
    ensures { IfOk result (λ r. IfSome r (SpellsReported version text.now)) }
{
    match plain_end(text) {
        Some((reply, view)) => reported_of(alloc, version, reply, view),
        None => Ok(None),
    }
}

/// Reads an event's line that is spelled as records are written.
///
/// Such a line has no space between its parts and its keys in order, and each byte of its texts stands for itself.
/// `None` means nothing: `read_row` then decides.
///
/// # Errors
///
/// `AllocError`: the allocation failed.
#[inline(always)]
pub fn plain_line(
    alloc: Global,
    kind: WorldKind,
    version: Version,
    bytes: &[u8],
) -> Result<Option<Row>, AllocError>
    ensures { IfOk result (λ r. IfSome r (SpellsRow kind version bytes.now)) }
{
    let Some((event, text)) = plain_event(kind, bytes) else {
        return Ok(None);
    };
    if let Some(reported) = quick_reported(text) {
        return Ok(Some(Row {
            line: Line { event, reported },
            is_canonical: true,
        }));
    }
    match plain_reported(alloc, version, text)? {
        Some(reported) => Ok(Some(Row {
            line: Line { event, reported },
            is_canonical: false,
        })),
        None => Ok(None),
    }
}
