//! Replies of the commonest words, with which lines end in the spelling in which records are written, in one pass over their bytes.

ghost use Rattle.std.specs.Prelude.{IfSome};
ghost use Rattle.text_records.specs.PlainLine.{SpellsReply, SpellsLastNumber, SpellsNumberAfter};

use crate::reported::Reported;
use text_lines::words::is_word;
use text_player::{after_front, quick_number};

/// Returns what the end of a line reports, if the reply's word is common and spelled alike in each version. `None`
/// means nothing.
#[inline(always)]
pub fn quick_reported(text: &[u8]) -> Option<Reported>
    ensures { IfSome result (λ t. SpellsReply text.now t) }
{
    if is_word(text, b"quiet\"}") {
        return Some(Reported::Quiet);
    }
    if is_word(text, b"ok\"}") {
        return Some(Reported::Ok);
    }
    if is_word(text, b"missed\"}") {
        return Some(Reported::Missed);
    }
    quick_number_reported(text)
}

/// As `quick_reported`, for a word and a number.
fn quick_number_reported(text: &[u8]) -> Option<Reported>
    ensures { IfSome result (λ t. SpellsReply text.now t) }
{
    if let Some(number) = number_after(text, b"proposed ") {
        return Some(Reported::Proposed(number));
    }
    if let Some(number) = number_after(text, b"refused ") {
        return Some(Reported::Refused(number));
    }
    if let Some(number) = number_after(text, b"got ") {
        return Some(Reported::Got(number));
    }
    if let Some(number) = number_after(text, b"left ") {
        return Some(Reported::Left(number));
    }
    if let Some(number) = number_after(text, b"value ") {
        return Some(Reported::Value(number));
    }
    None
}

/// The number at the end of a line, after this word.
#[inline(always)]
fn number_after(text: &[u8], word: &[u8]) -> Option<u64>
    ensures { IfSome result (SpellsNumberAfter text.now word.now) }
{
    last_number(after_front(text, word)?)
}

/// The number at the end of a line.
#[inline(always)]
fn last_number(text: &[u8]) -> Option<u64>
    ensures { IfSome result (λ n. SpellsLastNumber text.now n) }
{
    let (number, count) = quick_number(text, b'"')?;
    if !is_word(&text[count..], b"\"}") {
        return None;
    }
    Some(number)
}
