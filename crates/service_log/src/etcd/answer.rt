//! The answers of etcd.

ghost use Rattle.std.specs.Prelude.{◌≡◌, ◌≢◌, ◌⊎◌, ◌+◌, ◌<◌, ◌≤◌, ◌^◌, ◌++◌, ℕ, List, Option, Some, None, Ok, Err, IfOk, IfErr, OnOk, IsUtf8, codes, option_map, option_and_then};
ghost use Rattle.std.specs.Char.{is_ascii_digit};
ghost use Rattle.std.specs.List.{list_all};
ghost use Rattle.std.specs.declared.vec.Vec.{Vec};
ghost use Rattle.std.specs.declared.alloc.Global.{Global};
ghost use Rattle.json.specs.Json.{Json, document, string};
ghost use Rattle.json.specs.Value.{value_view};
ghost use Rattle.base64.specs.Engines.{standard};
ghost use Rattle.base64.specs.GeneralPurpose.{decode_of};
ghost use Rattle.service_log.specs.etcd.Answers.{put_said, entry_said, first_said, first_value, get_said, got_said, revision_said};
ghost use Rattle.service_log.specs.etcd.Keys.{place_said};
ghost use Rattle.service_log.specs.etcd.Faults.{IsOverNetwork};
ghost use Rattle.service_log.specs.etcd.Requests.{only};
ghost use Rattle.service_log.specs.etcd.Found.{HasUnread, IsUnread, SaysAll, SaysGone, gone_noted, SaysAppended, SaysFound, SaysFrom, SaysHint, is_written};

use crate::etcd::key::{hint_key64, key64};
use crate::etcd::request::forget_text;
use crate::{Put, StoreFault};
use base64::DecodeAllocError;
use base64::engine::general_purpose::STANDARD;
use json::{Error, Scratch, Value};
use std::alloc::Global;

/// Returns whether a transaction put its value, or `None` if the JSON is no answer to a transaction.
pub fn put_said(answer: &Value<'_>) -> Option<bool>
    ensures { result ≡ put_said (value_view answer.now) }
{
    answer.get("header")?;
    match answer.get("succeeded") {
        Some(said) => Some(said.as_bool().unwrap_or(false)),
        None => Some(false),
    }
}

// Returns the base64 value of an entry whose key is this one, in base64. `None` if the key is another.
fn entry_said<'v>(entry: &Value<'v>, key: &str) -> Option<&'v str>
    ensures { option_map (λ text. text.now) result ≡ entry_said key.now (value_view entry.now) }
{
    let found = entry.get("key")?.as_str()?;
    if found != key {
        return None;
    }
    match entry.get("value") {
        Some(value) => Some(value.as_str().unwrap_or("")),
        None => Some(""),
    }
}

/// Returns the base64 value at a key, as the answer has it at this index. The inner `None` is an answer with no entry
/// there.
///
/// The outer `None` is JSON that is no such answer. The index is from 0, and the key is in base64.
pub fn get_said<'v>(answer: &Value<'v>, index: usize, key: &str) -> Option<Option<&'v str>>
    ensures { option_map (λ found. option_map (λ text. text.now) found) result ≡ get_said index key.now (value_view answer.now) }
{
    answer.get("header")?;
    let Some(entries) = answer.get("kvs") else {
        return Some(None);
    };
    match entries.at(index) {
        Some(entry) => Some(Some(entry_said(entry, key)?)),
        None => Some(None),
    }
}

// Returns the JSON of the body of an answer.
fn parsed<'a>(
    alloc: Global,
    body: &'a [u8],
    scratch: &'a mut Scratch<Global>,
) -> Result<Value<'a>, StoreFault>
    ensures said { IfOk result (λ answer. document body.now ≡ Some (value_view answer)) }
    ensures fault { IfErr result (λ f. (f ≡ StoreFault.Memory) ⊎ (f ≡ StoreFault.Wrong)) }
    ensures wrong { result ≡ Err StoreFault.Wrong → IsUtf8 body.now → document body.now ≡ None }
{
    match Value::from_slice(alloc, body, scratch) {
        Ok(answer) => Ok(answer),
        Err(Error::OutOfMemory) => Err(StoreFault::Memory),
        Err(_) => Err(StoreFault::Wrong),
    }
}

/// Reads the body of an answer to a request that puts.
///
/// # Errors
///
/// - `Memory`: an allocation failed.
/// - `Wrong`: the body is no such answer.
pub fn read_put(alloc: Global, body: &[u8]) -> Result<Put, StoreFault>
    ensures said { IfOk result (λ put. option_and_then put_said (document body.now) ≡ Some (is_written put)) }
    ensures fault { IfErr result (λ f. (f ≡ StoreFault.Memory) ⊎ (f ≡ StoreFault.Wrong)) }
    ensures wrong { result ≡ Err StoreFault.Wrong → IsUtf8 body.now → option_and_then put_said (document body.now) ≡ None }
{
    let mut scratch = Scratch::new(alloc);
    let said = put_said(&parsed(alloc, body, &mut scratch)?);
    match said {
        Some(true) => Ok(Put::Written),
        Some(false) => Ok(Put::Taken),
        None => Err(StoreFault::Wrong),
    }
}

// Returns the bytes of a text in base64.
fn decoded(alloc: Global, text: &str) -> Result<Vec<u8>, StoreFault>
    ensures bytes { IfOk result (λ bytes. decode_of standard text.now ≡ Ok bytes.items) }
    ensures fault { IfErr result IsOverNetwork }
    ensures wrong { result ≡ Err StoreFault.Wrong → (bytes : List ℕ) → decode_of standard text.now ≢ Ok bytes }
{
    match STANDARD.decode(alloc, text.as_bytes()) {
        Ok(bytes) => Ok(bytes),
        Err(DecodeAllocError::OutOfMemory) => Err(StoreFault::Memory),
        Err(_) => Err(StoreFault::Wrong),
    }
}

// Returns the entry at a place under a prefix, as the answer has it at this index.
fn found_at(
    alloc: Global,
    answer: &Value<'_>,
    index: usize,
    prefix: &str,
    place: u64,
) -> Result<Option<Vec<u8>>, StoreFault>
    ensures said { IfOk result (SaysFound (value_view answer.now) index prefix.now place) }
    ensures fault { IfErr result IsOverNetwork }
    ensures wrong { result ≡ Err StoreFault.Wrong → IsUnread (value_view answer.now) index prefix.now place }
{
    let Ok(key) = key64(alloc, prefix, place) else {
        return Err(StoreFault::Memory);
    };
    match get_said(answer, index, key.as_str()) {
        Some(Some(text)) => Ok(Some(decoded(alloc, text)?)),
        Some(None) => Ok(None),
        None => Err(StoreFault::Wrong),
    }
}

// Appends the entries at the places from `place` on, at most `most`, as the answer has them from this index on.
fn read_from(
    alloc: Global,
    answer: &Value<'_>,
    index: usize,
    most: usize,
    prefix: &str,
    place: u64,
    found: &mut Vec<Vec<u8>>,
) -> Result<(), StoreFault>
    requires { index + most < 2 ^ 64 }
    ensures said { OnOk result ((more : List (Vec ℕ Global)) × (found.new.items ≡ found.old.items ++ more) ×
        SaysFrom most (value_view answer.now) index prefix.now place more) }
    ensures fault { IfErr result IsOverNetwork }
    ensures wrong { result ≡ Err StoreFault.Wrong → place + most ≤ 2 ^ 64 → HasUnread most (value_view answer.now) index prefix.now place }
{
    if most == 0 {
        return Ok(());
    }
    let Some(entry) = found_at(alloc, answer, index, prefix, place)? else {
        return Ok(());
    };
    if found.push(entry).is_err() {
        return Err(StoreFault::Memory);
    }
    if most == 1 {
        return Ok(());
    }
    /// No log has so many places.
    let Some(next) = place.checked_add(1) else {
        // No log has so many places.
        return Err(StoreFault::Wrong);
    };
    read_from(alloc, answer, index + 1, most - 1, prefix, next, found)
}

// Returns the entries at the places from `place` on, at most `most`, as the answer has them from its first one on.
fn read_all(
    alloc: Global,
    answer: &Value<'_>,
    most: usize,
    prefix: &str,
    place: u64,
) -> Result<Vec<Vec<u8>>, StoreFault>
    ensures said { IfOk result (λ found. SaysFrom most (value_view answer.now) 0 prefix.now place found.items) }
    ensures fault { IfErr result IsOverNetwork }
    ensures wrong { result ≡ Err StoreFault.Wrong → place + most ≤ 2 ^ 64 → HasUnread most (value_view answer.now) 0 prefix.now place }
{
    let mut found = Vec::new(alloc);
    read_from(alloc, answer, 0, most, prefix, place, &mut found)?;
    Ok(found)
}

/// Reads the body of an answer to a request that gets. Returns the entries under a prefix from `place` on, at most
/// `most`.
///
/// # Errors
///
/// - `Memory`: an allocation failed.
/// - `Wrong`: the body is no such answer, or it has more entries than the places up to 2^64 - 1.
pub fn read_get(
    alloc: Global,
    body: &[u8],
    most: usize,
    prefix: &str,
    place: u64,
) -> Result<Vec<Vec<u8>>, StoreFault>
    ensures said { IfOk result (λ found. SaysAll most body.now prefix.now place found.items) }
    ensures fault { IfErr result IsOverNetwork }
    ensures wrong { result ≡ Err StoreFault.Wrong → IsUtf8 body.now → place + most ≤ 2 ^ 64 →
        (answer : Json) → document body.now ≡ Some answer → HasUnread most answer 0 prefix.now place }
{
    let mut scratch = Scratch::new(alloc);
    let answer = parsed(alloc, body, &mut scratch)?;
    read_all(alloc, &answer, most, prefix, place)
}

/// What an append was told.
#[derive(Drop)]
pub enum Appended {
    /// Its conditions held. These are the entries at its places then, its own among them if it was written.
    Found(Vec<Vec<u8>>),
    /// They did not hold. The fence was changed last at this revision, in digits.
    Refused(String),
}

// Returns what a transaction got by the request of this index, or `None` if the JSON is no such answer.
fn got_said<'a, 'v>(answer: &'a Value<'v>, index: usize) -> Option<&'a Value<'v>>
    ensures { option_map (λ got. value_view got.now) result ≡ got_said index (value_view answer.now) }
{
    answer.get("responses")?.at(index)?.get("response_range")
}

// Returns the revision at which the first key of an answer was changed last, in digits, or `None` if there is none.
fn revision_of_first<'v>(got: &Value<'v>) -> Option<&'v str> {
    got.get("kvs")?.at(0)?.get("mod_revision")?.as_str()
}

// Returns the revision of the fence as an append was told. A fence that was never changed has none: it is 0.
fn fence_said(alloc: Global, answer: &Value<'_>) -> Result<String, StoreFault>
    ensures { IfErr result IsOverNetwork }
{
    let Some(got) = got_said(answer, 0) else {
        return Err(StoreFault::Wrong);
    };
    let revision = revision_of_first(got).unwrap_or("0");
    match String::from_str(alloc, revision) {
        Ok(revision) => Ok(revision),
        Err(_) => Err(StoreFault::Memory),
    }
}

/// Reads the body of an answer to a request that appends at one of the places from `place` on, `most` of them. Not proved:
/// which revision the fence has. Nothing is written if it is another one.
///
/// # Errors
///
/// - `Memory`: an allocation failed.
/// - `Wrong`: the body is no such answer.
pub fn read_append(
    alloc: Global,
    body: &[u8],
    most: usize,
    prefix: &str,
    place: u64,
) -> Result<Appended, StoreFault>
    ensures said { IfOk result (SaysAppended most body.now prefix.now place) }
    ensures fault { IfErr result IsOverNetwork }
{
    let mut scratch = Scratch::new(alloc);
    let answer = parsed(alloc, body, &mut scratch)?;
    match put_said(&answer) {
        Some(true) => match got_said(&answer, 1) {
            Some(got) => Ok(Appended::Found(read_all(alloc, got, most, prefix, place)?)),
            None => Err(StoreFault::Wrong),
        },
        Some(false) => Ok(Appended::Refused(fence_said(alloc, &answer)?)),
        None => Err(StoreFault::Wrong),
    }
}

// Whether bytes are digits.
fn are_digits(bytes: &[u8]) -> bool
    ensures { result ≡ list_all is_ascii_digit bytes.now }
{
    bytes.iter().all(|byte| byte.is_ascii_digit())
}

// Returns the number that 16 digits say, or `None` of other bytes.
fn place_of(digits: &[u8]) -> Option<u64>
    ensures { result ≡ place_said digits.now }
{
    if digits.len() != 16 || !are_digits(digits) {
        return None;
    }
    let mut place = 0u64;
    for digit in digits {
        place = place * 10 + u64::from(*digit - b'0');
    }
    Some(place)
}

/// Reads the body of an answer to a request that gets the place that is noted under a prefix. Returns `None` if no place
/// is noted, or what is noted is none. It is a hint alone.
///
/// # Errors
///
/// - `Memory`: an allocation failed.
/// - `Wrong`: the body is no such answer.
pub fn read_hint(alloc: Global, body: &[u8], prefix: &str) -> Result<Option<u64>, StoreFault>
    ensures said { IfOk result (λ found. (answer : Json) × (document body.now ≡ Some answer) × SaysHint answer prefix.now found) }
    ensures fault { IfErr result IsOverNetwork }
{
    let Ok(key) = hint_key64(alloc, prefix) else {
        return Err(StoreFault::Memory);
    };
    let mut scratch = Scratch::new(alloc);
    let answer = parsed(alloc, body, &mut scratch)?;
    match get_said(&answer, 0, key.as_str()) {
        Some(Some(text)) => Ok(place_of(&decoded(alloc, text)?)),
        Some(None) => Ok(None),
        None => Err(StoreFault::Wrong),
    }
}

/// What is noted of entries that were given up: those below a place, and the place before which they were deleted.
#[derive(Clone, Copy, Debug, Drop, PartialEq, Eq)]
pub struct Gone {
    /// All entries below this place were given up, but the first.
    pub below: u64,
    /// Those before this place were deleted, but the first.
    pub deleted: u64,
}

// Returns the base64 value of the first entry of an answer, if there is one.
fn first_value<'v>(answer: &Value<'v>) -> Option<&'v str>
    ensures { option_map (λ text. text.now) result ≡ first_value (value_view answer.now) }
{
    answer.get("kvs")?.at(0)?.get("value")?.as_str()
}

// The same, where the inner `None` is an answer with no entry, and the outer one is JSON that is no answer.
fn first_said<'v>(answer: &Value<'v>) -> Option<Option<&'v str>>
    ensures { option_map (λ found. option_map (λ text. text.now) found) result ≡ first_said (value_view answer.now) }
{
    answer.get("header")?;
    Some(first_value(answer))
}

// Returns what two places in 16 digits each note, or `None` of other bytes.
fn gone_of(digits: &[u8]) -> Option<Gone>
    ensures { result ≡ gone_noted digits.now }
{
    let (below, deleted) = digits.split_at_checked(16)?;
    Some(Gone {
        below: place_of(below)?,
        deleted: place_of(deleted)?,
    })
}

// Returns what an answer says of entries that were given up.
fn gone_said(alloc: Global, answer: &Value<'_>) -> Result<Option<Gone>, StoreFault>
    ensures said { IfOk result (SaysGone (value_view answer.now)) }
    ensures fault { IfErr result IsOverNetwork }
    ensures wrong { result ≡ Err StoreFault.Wrong → (found : Option Gone) → ¬ (SaysGone (value_view answer.now) found) }
{
    match first_said(answer) {
        Some(Some(text)) => match gone_of(&decoded(alloc, text)?) {
            Some(gone) => Ok(Some(gone)),
            None => Err(StoreFault::Wrong),
        },
        Some(None) => Ok(None),
        None => Err(StoreFault::Wrong),
    }
}

/// Reads the body of an answer to a request that gets what was noted of entries that were given up. Returns `None` if
/// nothing was noted. No entry hangs on it: a put compares the keys themselves.
///
/// # Errors
///
/// - `Memory`: an allocation failed.
/// - `Wrong`: the body is no such answer.
pub fn read_gone(alloc: Global, body: &[u8]) -> Result<Option<Gone>, StoreFault>
    ensures said { IfOk result (λ found. (answer : Json) × (document body.now ≡ Some answer) × SaysGone answer found) }
    ensures fault { IfErr result IsOverNetwork }
    ensures wrong { result ≡ Err StoreFault.Wrong → IsUtf8 body.now → (answer : Json) → document body.now ≡ Some answer →
        (found : Option Gone) → ¬ (SaysGone answer found) }
{
    let mut scratch = Scratch::new(alloc);
    let answer = parsed(alloc, body, &mut scratch)?;
    gone_said(alloc, &answer)
}

// Returns the revision of the store at which it answered, in digits, or `None` if the JSON is no answer.
fn revision_said<'v>(answer: &Value<'v>) -> Option<&'v str>
    ensures { option_map (λ text. text.now) result ≡ revision_said (value_view answer.now) }
{
    answer.get("header")?.get("revision")?.as_str()
}

/// Returns the text of the request that lets etcd forget what its keys held before the revision at which it answered.
///
/// # Errors
///
/// - `Memory`: an allocation failed.
/// - `Wrong`: the body is no answer.
pub fn forget_text_of(alloc: Global, body: &[u8]) -> Result<Vec<u8>, StoreFault>
    ensures said { IfOk result (λ text. (revision : List ℕ) × (option_and_then revision_said (document body.now) ≡ Some revision) ×
        (document text.items ≡ Some (only (codes "revision") (string revision)))) }
    ensures fault { IfErr result IsOverNetwork }
{
    let mut scratch = Scratch::new(alloc);
    let answer = parsed(alloc, body, &mut scratch)?;
    let Some(revision) = revision_said(&answer) else {
        return Err(StoreFault::Wrong);
    };
    match forget_text(alloc, revision) {
        Ok(text) => Ok(text),
        Err(_) => Err(StoreFault::Memory),
    }
}
