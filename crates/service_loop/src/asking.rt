//! Lines that the server answers by itself, among bytes: those that ask who holds numbers or the terms, and those that take a number.

ghost use Rattle.std.specs.Prelude.{◌≡◌, ◌⊎◌, ◌+◌, ◌≤◌, ◌<◌, ℕ, not, true, false, None, Some, length, drop, take, get_or, IfSome};
ghost use Rattle.memchr.specs.Find.{IsFirstByte, is_byte};
ghost use Rattle.text_lines.specs.Lines.{has_no_lf, whole_lines};
ghost use Rattle.text_lines.specs.lemmas.PieceProofs.{lacks};
ghost use Rattle.text_lines.specs.declared.held.query.TheConstants.{QUERY_MAX};
ghost use Rattle.service_loop.specs.Asking.{is_own, none_own, IsLineStart, IsPrefixOf, IsQueryOf, IsTakingOf, MayAsk, taking_of};
ghost use Rattle.service_loop.specs.Reported.{behind};
ghost use Rattle.service_loop.specs.Waiting.{begins, first_query, first_taking, first_wait, is_prefix_of};

use crate::take_line::take_line;
use crate::terms::{Query, query_of};
use memchr::{memchr, memrchr};
use text_lines::held::QUERY_MAX;

/// What ends a line.
const LF: u8 = 10;

/// What each line that asks who holds numbers begins with, and no command. No command has it at all.
const ASKS: u8 = b'h';

/// What each line that takes a number begins with, and the one that asks for the terms, and no command.
const TAKES: u8 = b't';

/// What each line that asks for changes begins with. It has the letter too that no command has.
const WATCHES: u8 = b'w';

/// A letter of each line that takes a number, and of no command.
const INSIDE: u8 = b'k';

/// A letter of the line that asks for the terms, and of no command.
const AMID: u8 = b'm';

/// What the first line of these bytes asks, where it asks who holds numbers or the terms, and how many bytes it has with its LF.
pub(crate) fn first_query(bytes: &[u8]) -> Option<(Query, usize)>
    ensures exact { result ≡ first_query bytes.now }
    ensures asks { IfSome result (λ r. IsQueryOf bytes.now r.0 r.1) }
{
    let end = memchr(LF, bytes)?;
    let query = query_of(&bytes[..end])?;
    Some((query, end + 1))
}

/// The identity for which a line, without its LF, takes a number; `None` where it takes none.
pub(crate) fn taking_of(line: &[u8]) -> Option<u64>
    ensures { result ≡ taking_of line.now }
{
    match take_line(line) {
        Some(said) => Some(said.identity),
        None => None,
    }
}

/// For which identity the first line of these bytes takes a number, where it takes one, and how many bytes it has with its LF.
pub(crate) fn first_taking(bytes: &[u8]) -> Option<(u64, usize)>
    ensures exact { result ≡ first_taking bytes.now }
    ensures asks { IfSome result (λ r. IsTakingOf bytes.now r.0 r.1) }
{
    let end = memchr(LF, bytes)?;
    let identity = taking_of(&bytes[..end])?;
    Some((identity, end + 1))
}

/// For how many seconds the first line of these bytes waits for a number; 0 where it takes none, or waits for none.
pub(crate) fn first_wait(bytes: &[u8]) -> u64
    ensures { result ≡ first_wait bytes.now }
{
    let Some(end) = memchr(LF, bytes) else {
        return 0;
    };
    match take_line(&bytes[..end]) {
        Some(said) => said.seconds,
        None => 0,
    }
}

/// Whether a line, without its LF, is one that the server answers by itself.
pub(crate) fn is_own(line: &[u8]) -> bool
    ensures { result ≡ is_own line.now }
{
    query_of(line).is_some() || taking_of(line).is_some()
}

// Whether the first of these bytes is that of a line that the server answers by itself.
fn begins(bytes: &[u8]) -> bool
    ensures exact { result ≡ begins bytes.now }
    ensures letter { result ≡ true → (get_or bytes.now 0 0 ≡ 104) ⊎ (get_or bytes.now 0 0 ≡ 116) ⊎ (get_or bytes.now 0 0 ≡ 119) }
{
    match bytes {
        [first, ..] => *first == ASKS || *first == TAKES || *first == WATCHES,
        [] => false,
    }
}

// Whether a byte is none of these.
fn lacks(byte: u8, bytes: &[u8]) -> bool
    ensures { result ≡ lacks byte bytes.now }
{
    match memchr(byte, bytes) {
        Some(_) => false,
        None => true,
    }
}

// Whether no line ends in these bytes.
fn lacks_end(bytes: &[u8]) -> bool
    ensures { result ≡ has_no_lf bytes.now }
{
    lacks(LF, bytes)
}

/// Whether these bytes are the beginning of a line that may ask so, or take a number, with no LF.
pub(crate) fn is_prefix_of(bytes: &[u8]) -> bool
    ensures exact { result ≡ is_prefix_of bytes.now }
    ensures prefix { result ≡ true → IsPrefixOf bytes.now }
{
    begins(bytes) && bytes.len() <= QUERY_MAX && lacks_end(bytes)
}

// Whether these bytes begin with a line that asks who holds numbers, or the terms.
fn asks_first(bytes: &[u8]) -> bool
    ensures asks { result ≡ true → (query : Query) × (count : ℕ) × IsQueryOf bytes.now query count }
    ensures none { result ≡ false → first_query bytes.now ≡ None }
{
    match first_query(bytes) {
        Some(_) => true,
        None => false,
    }
}

// Whether these bytes begin with a line that takes a number.
fn takes_first(bytes: &[u8]) -> bool
    ensures asks { result ≡ true → (identity : ℕ) × (count : ℕ) × IsTakingOf bytes.now identity count }
    ensures none { result ≡ false → first_taking bytes.now ≡ None }
{
    match first_taking(bytes) {
        Some(_) => true,
        None => false,
    }
}

// Whether these bytes begin with a line that the server answers by itself, or that may come to be one.
fn may_ask(bytes: &[u8]) -> bool
    ensures asks { result ≡ true → MayAsk bytes.now }
    ensures own { result ≡ false → (end : ℕ) → IsFirstByte (is_byte 10) bytes.now (Some end) → is_own (take end bytes.now) ≡ false }
{
    if !begins(bytes) {
        return false;
    }
    asks_first(bytes) || takes_first(bytes) || is_prefix_of(bytes)
}

// Where the line behind the first of these bytes begins, or else their end.
fn next_line(bytes: &[u8], from: usize) -> usize
    requires { from < length bytes.now }
    ensures inside { (from < result) × (result ≤ length bytes.now) }
    ensures next { ((end : ℕ) × IsFirstByte (is_byte 10) (drop from bytes.now) (Some end) × (result ≡ from + (end + 1))) ⊎
        (IsFirstByte (is_byte 10) (drop from bytes.now) None × (result ≡ length bytes.now)) }
{
    match memchr(LF, &bytes[from..]) {
        Some(end) => from + end + 1,
        None => bytes.len(),
    }
}

// Where the first line of these bytes begins, or else their end. The first of them begins a line, where it says so.
fn first_line(begins: bool, bytes: &[u8]) -> usize
    ensures inside { result ≤ length bytes.now }
    ensures starts { result < length bytes.now → IsLineStart begins bytes.now result }
    ensures own { none_own (behind (not begins) (whole_lines (take result bytes.now))) ≡ true }
{
    if begins || bytes.is_empty() {
        return 0;
    }
    next_line(bytes, 0)
}

// Where the last line of these bytes begins, or else their end. The first of them begins a line, where it says so.
fn last_line(begins: bool, bytes: &[u8]) -> usize
    ensures inside { result ≤ length bytes.now }
    ensures starts { result < length bytes.now → IsLineStart begins bytes.now result }
{
    match memrchr(LF, bytes) {
        Some(end) => end + 1,
        None => first_line(begins, bytes),
    }
}

// Whether none of these bytes is a letter that lines have which the server answers by itself, and no command has. Every byte of clients comes by
// here. Two looks for one letter each take less than half the time of one look for either (`memchr2`).
fn lacks_letters(bytes: &[u8]) -> bool
    ensures { result ≡ true → (lacks 104 bytes.now ≡ true) × (lacks 107 bytes.now ≡ true) × (lacks 109 bytes.now ≡ true) }
{
    lacks(ASKS, bytes) && lacks(INSIDE, bytes) && lacks(AMID, bytes)
}

// Where a line begins before which the server answers none by itself, or else the end of these bytes. The first of them begins a line, where it
// says so.
fn first_look(begins: bool, bytes: &[u8]) -> usize
    ensures inside { result ≤ length bytes.now }
    ensures starts { result < length bytes.now → IsLineStart begins bytes.now result }
    ensures own { none_own (behind (not begins) (whole_lines (take result bytes.now))) ≡ true }
{
    if lacks_letters(bytes) {
        return last_line(begins, bytes);
    }
    first_line(begins, bytes)
}

/// How many of these bytes stand before the first line that the server answers by itself, or that may come to be such a line. The first of them
/// begins a line, where it says so. No line of those that begin before it is one that the server answers by itself.
pub(crate) fn before_query(begins: bool, bytes: &[u8]) -> usize
    ensures inside { result ≤ length bytes.now }
    ensures asks { result < length bytes.now → MayAsk (drop result bytes.now) }
    ensures own { none_own (behind (not begins) (whole_lines (take result bytes.now))) ≡ true }
{
    let mut at = first_look(begins, bytes);
    while at < bytes.len() && !may_ask(&bytes[at..]) {
        at = next_line(bytes, at);
    }
    at
}
