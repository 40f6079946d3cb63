//! Lines that take a number: `take ID`, and `take ID SECONDS`, which waits for one.

ghost use Rattle.std.specs.Prelude.{◌≡◌};
ghost use Rattle.std.specs.Option.{option_copied};
ghost use Rattle.text_lines.specs.Lines.{pieces_left};
ghost use Rattle.text_lines.specs.Meaning.{words};
ghost use Rattle.service_loop.specs.TakeLines.{line_of_words, seconds_in, seconds_of, take_line};

use text_lines::words::{cut, is_word, number};

/// What stands between two words.
const SPACE: u8 = 32;

/// The most digits of the seconds for which a line waits.
const MOST_DIGITS: usize = 4;

/// What a line says that takes a number.
#[derive(Clone, Copy, Debug, Drop, PartialEq, Eq)]
pub struct TakeLine {
    /// For whom it takes one.
    pub identity: u64,
    /// For how many seconds it waits, at most, while no number is free.
    pub seconds: u64,
}

// The seconds that a word names, at most 9,999.
fn seconds_in(word: &[u8]) -> Option<u64>
    ensures { result ≡ seconds_in word.now }
{
    if word.len() <= MOST_DIGITS {
        number(word)
    } else {
        None
    }
}

// The seconds that the words behind an identity name; 0 where there are none.
#[tactic(auto, using(crate::proofs::TakeLineLemmas::more_words))]
fn seconds_of(words: Option<&[u8]>) -> Option<u64>
    ensures { result ≡ seconds_of (pieces_left 32 (option_copied words.entry)) }
{
    let Some(words) = words else {
        return Some(0);
    };
    let (word, others) = cut(words, SPACE);
    match others {
        None => seconds_in(word),
        Some(_) => None,
    }
}

// What these words say behind `take`.
fn line_of_words(said: &[u8]) -> Option<TakeLine>
    ensures { result ≡ line_of_words (words said.now) }
{
    let (word, others) = cut(said, SPACE);
    let identity = number(word)?;
    let seconds = seconds_of(others)?;
    Some(TakeLine { identity, seconds })
}

/// What a line, without its LF, says, where it takes a number; `None` where it takes none.
pub(crate) fn take_line(line: &[u8]) -> Option<TakeLine>
    ensures { result ≡ take_line line.now }
{
    let front = line.len().min(5);
    if !is_word(&line[..front], b"take ") {
        return None;
    }
    line_of_words(&line[front..])
}
