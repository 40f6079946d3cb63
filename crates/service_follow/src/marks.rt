//! The first lines of the entries of a compaction, as they are read.

ghost use Rattle.std.specs.Prelude.{◌≡◌, ◌<◌, ◌++◌, ◌∷◌, [], drop, take, true, slice_get, IfOk, OnOk};
ghost use Rattle.service_follow.specs.Entries.{is_there};
ghost use Rattle.service_follow.specs.Marks.{digit_value, entries_in, head_at, kept_in, kind_by, mark_of, number_of, stay_in, stays_in};
ghost use Rattle.service_follow.specs.declared.marks.Mark.TheVariants.{Ordinary};

use crate::front_end_stay::FrontEndStay;
use service_log::ApplyFault;
use std::alloc::{AllocError, Global};

/// How many bytes a token, a space and a count have.
pub(crate) const HEAD: usize = 49;

/// How many digits a number has.
const DIGITS: usize = 16;

/// How many bytes a stay has.
const STAY: usize = 64;

/// Where the head of the entry before it stands in an entry.
pub(crate) const BEFORE: usize = 62;

/// Where it stands in the entry that ends a compaction how many entries were applied.
const ENTRIES: usize = 112;

/// Where the number of stays stands there, and where the stays begin.
const COUNT: usize = 129;

const STAYS: usize = 146;

/// What an entry is, as its first line tells. Clients never write a first line.
#[derive(Clone, Copy, Debug, Drop, PartialEq, Eq)]
pub enum Mark {
    /// Lines that a front end serves, or the first line of the log.
    Ordinary,
    /// The first entry of a compaction.
    Begins,
    /// One more entry of a compaction.
    GoesOn,
    /// The last entry of a compaction.
    Ends,
}

/// Returns true if and only if this byte stands at a place of an entry.
pub(crate) fn is_there(entry: &[u8], at: usize, byte: u8) -> bool
    ensures { result ≡ is_there (slice_get entry.now at) byte }
{
    match entry.get(at) {
        Some(found) => *found == byte,
        None => false,
    }
}

// What an entry is, as the byte behind the space tells.
fn kind_of(entry: &[u8]) -> Mark
    ensures { result ≡ kind_by (slice_get entry.now 50) }
{
    if is_there(entry, 50, b'c') {
        return Mark::Begins;
    }
    if is_there(entry, 50, b'm') {
        return Mark::GoesOn;
    }
    if is_there(entry, 50, b'e') {
        return Mark::Ends;
    }
    Mark::Ordinary
}

/// Returns what an entry is: its first line begins with a token, a space and a count, and ends there, or goes on with a
/// space and `compaction`, `more behind` or `ends behind`.
pub fn mark_of(entry: &[u8]) -> Mark
    ensures { result ≡ mark_of entry.now }
{
    if is_there(entry, 49, b' ') {
        return kind_of(entry);
    }
    Mark::Ordinary
}

/// Returns true only if an entry is of no compaction.
pub(crate) fn is_ordinary(entry: &[u8]) -> bool
    ensures { result ≡ true → mark_of entry.now ≡ Ordinary }
{
    matches!(mark_of(entry), Mark::Ordinary)
}

/// Returns the 49 bytes of an entry from a place on, a token, a space and a count; zeros where the entry is shorter.
pub(crate) fn head_at(entry: &[u8], at: usize) -> [u8; 49]
    requires { at < 1000 }
    ensures { result ≡ head_at at entry.now }
{
    let mut head = [0u8; 49];
    if at + HEAD <= entry.len() {
        head.copy_from_slice(&entry[at..at + HEAD]);
    }
    head
}

// The value of a digit to the base of 16.
fn digit_value(digit: u8) -> u8
    ensures { result ≡ digit_value digit }
{
    if digit < 58 {
        digit.saturating_sub(48) % 16
    } else {
        (digit - 87.min(digit)) % 16
    }
}

/// Returns the number that digits say, the lowest first, in 64 bits.
pub(crate) fn number_of(digits: &[u8]) -> u64
    ensures { result ≡ number_of digits.now }
{
    let Some((first, rest)) = digits.split_first() else {
        return 0;
    };
    u64::from(digit_value(*first)).wrapping_add(16u64.wrapping_mul(number_of(rest)))
}

// The number of 16 digits at a place. An error where the entry is shorter.
fn number_at(entry: &[u8], at: usize) -> Result<u64, ApplyFault>
    requires { at < 1000 }
    ensures { IfOk result (λ n. n ≡ number_of (take 16 (drop at entry.now))) }
{
    if entry.len() < at + DIGITS {
        return Err(ApplyFault::Damaged);
    }
    Ok(number_of(&entry[at..at + DIGITS]))
}

// The stay that 64 bytes say.
fn stay_in(bytes: &[u8]) -> Result<FrontEndStay, ApplyFault>
    ensures { IfOk result (λ stay. stay ≡ stay_in bytes.now) }
{
    if bytes.len() < STAY {
        return Err(ApplyFault::Damaged);
    }
    let mut token = [0u8; 32];
    token.copy_from_slice(&bytes[32..STAY]);
    Ok(FrontEndStay {
        identity: number_of(&bytes[..16]),
        token,
        last: number_of(&bytes[16..32]),
    })
}

// Appends a stay.
fn push_stay(kept: &mut Vec<FrontEndStay>, stay: FrontEndStay) -> Result<(), AllocError>
    ensures { OnOk result (kept.new.items ≡ kept.old.items ++ stay ∷ []) }
{
    kept.push(stay)?;
    Ok(())
}

// Appends so many stays that bytes say.
fn push_stays(kept: &mut Vec<FrontEndStay>, count: u64, bytes: &[u8]) -> Result<(), ApplyFault>
    ensures { OnOk result (kept.new.items ≡ kept.old.items ++ stays_in count bytes.now) }
{
    if count == 0 {
        return Ok(());
    }
    if bytes.len() < STAY {
        return Err(ApplyFault::Damaged);
    }
    let (first, rest) = bytes.split_at(STAY);
    push_stay(kept, stay_in(first)?)?;
    push_stays(kept, count - 1, rest)
}

/// Returns the stays that the last entry of a compaction tells.
///
/// # Errors
///
/// - `Damaged`: the entry is too short.
/// - `Memory`: an allocation failed.
pub(crate) fn kept_in(alloc: Global, entry: &[u8]) -> Result<Vec<FrontEndStay>, ApplyFault>
    ensures { IfOk result (λ kept. kept.items ≡ kept_in entry.now) }
{
    let count = number_at(entry, COUNT)?;
    if entry.len() < STAYS {
        return Err(ApplyFault::Damaged);
    }
    let mut kept = Vec::new(alloc);
    push_stays(&mut kept, count, &entry[STAYS..])?;
    Ok(kept)
}

/// Returns how many entries were applied, as the last entry of a compaction tells.
///
/// # Errors
///
/// `Damaged`: the entry is too short.
pub(crate) fn entries_in(entry: &[u8]) -> Result<u64, ApplyFault>
    ensures { IfOk result (λ n. n ≡ entries_in entry.now) }
{
    number_at(entry, ENTRIES)
}
