//! For how long stays go on in the pool of a hall in a log, as its entries tell.

ghost use Rattle.std.specs.Prelude.{◌≡◌, ◌++◌, OnOk};
ghost use Rattle.service_follow.specs.Terms.{first_long, grace_of, terms_by, terms_number, terms_of, terms_text, text_tells, told_text};

use crate::log_persister::push_count;
use crate::machine::behind_first_line;
use crate::marks::{is_there, number_of};
use std::alloc::AllocError;
use std::fmt;

/// What ends a line.
const LF: u8 = 10;

/// How many bytes the text of terms has, with the LF behind it.
const TEXT: usize = 45;

/// How many bytes a first line with terms has at least: those of a token, and the text.
const LEAST: usize = 78;

/// For how long a stay in the pool goes on that nobody keeps.
#[derive(Clone, Copy, Debug, Drop, PartialEq, Eq)]
pub enum HallTerms {
    /// Until somebody gives the number back. Front ends make no beats.
    Forever,
    /// For so many seconds.
    Grace(u32),
}

impl HallTerms {
    /// Returns the seconds of grace; 0 where stays go on forever.
    pub(crate) fn grace(self) -> u32
        ensures { result ≡ grace_of self }
    {
        match self {
            HallTerms::Forever => 0,
            HallTerms::Grace(seconds) => seconds,
        }
    }

    // The number that a text has for them.
    fn number(self) -> u64
        ensures { result ≡ terms_number self }
    {
        match self {
            HallTerms::Forever => 0,
            HallTerms::Grace(seconds) => u64::from(seconds) + 1,
        }
    }

    // The terms for which a text has this number.
    fn of_number(number: u64) -> HallTerms
        ensures { result ≡ terms_by number }
    {
        if number == 0 {
            return HallTerms::Forever;
        }
        HallTerms::Grace((number - 1).min(4_294_967_295) as u32)
    }
}

// As the options of `slotctl host` that give them.
impl fmt::Display for HallTerms {
    fn fmt<W: fmt::Write>(&self, f: &mut fmt::Formatter<W>) -> fmt::Result {
        match self {
            HallTerms::Forever => f.write_str("--hold forever"),
            HallTerms::Grace(seconds) => write!(f, "--hold connection --grace {seconds}"),
        }
    }
}

/// What the first line of an entry tells of the terms of its hall.
#[derive(Clone, Copy, Debug, Drop, PartialEq, Eq)]
pub struct ToldTerms {
    /// The terms of the hall from there on.
    pub terms: HallTerms,
    /// The terms before a change, and the same where nothing was changed.
    pub was: HallTerms,
}

// Appends the text of terms.
fn push_terms(line: &mut Vec<u8>, told: ToldTerms) -> Result<(), AllocError>
    ensures { OnOk result (line.new.items ≡ line.old.items ++ terms_text told) }
{
    line.extend_from_slice(b" terms ")?;
    push_count(line, 16, told.terms.number())?;
    line.extend_from_slice(b" was ")?;
    push_count(line, 16, told.was.number())?;
    Ok(())
}

/// Appends the text of terms, if there are some, to a first line without its end.
///
/// # Errors
///
/// `AllocError`: an allocation failed.
pub(crate) fn push_told(line: &mut Vec<u8>, told: Option<ToldTerms>) -> Result<(), AllocError>
    ensures { OnOk result (line.new.items ≡ line.old.items ++ told_text told) }
{
    match told {
        Some(told) => push_terms(line, told),
        None => Ok(()),
    }
}

// What 45 bytes tell, if they are the text of terms with an LF behind it.
fn text_tells(text: &[u8; 45]) -> Option<ToldTerms>
    ensures { result ≡ text_tells text.now }
{
    if &text[..7] != b" terms ".as_slice() {
        return None;
    }
    if &text[23..28] != b" was ".as_slice() {
        return None;
    }
    if !is_there(text, 44, LF) {
        return None;
    }
    Some(ToldTerms {
        terms: HallTerms::of_number(number_of(&text[7..23])),
        was: HallTerms::of_number(number_of(&text[28..44])),
    })
}

/// Returns what the first line of an entry tells of the terms of its hall, at its end; `None` if it tells nothing. Clients never
/// write a first line.
pub fn terms_of(entry: &[u8]) -> Option<ToldTerms>
    ensures { result ≡ terms_of entry.now }
{
    let long = entry.len() - behind_first_line(entry).len();
    if long < LEAST {
        return None;
    }
    let mut text = [0u8; 45];
    text.copy_from_slice(&entry[long - TEXT..long]);
    text_tells(&text)
}
