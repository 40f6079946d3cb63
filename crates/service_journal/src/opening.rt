//! From the bytes of a journal to the hall whose record they are.

ghost use Rattle.std.specs.Prelude.{◌≡◌, ◌⊎◌, ◌+◌, ◌≤◌, [], ℕ, length, take, drop, true, false, IfOk, IfErr, OnOk};
ghost use Rattle.model_asked.specs.Config.{gives_names};
ghost use Rattle.text_lines.specs.Lines.{has_no_lf};
ghost use Rattle.text_player.specs.Records.{header_line};
ghost use Rattle.service_hall.specs.Halls.{hall_of};
ghost use Rattle.service_journal.specs.WriteAheads.{record_of_hall};
ghost use Rattle.service_journal.specs.declared.opening.OpenFault.TheVariants as fault;
ghost use Rattle.service_journal.specs.Journals.{without_torn};
ghost use Rattle.service_journal.specs.Openings.{GoesOnBy, HasFollowed, IsRecovered};
ghost use Rattle.service_journal.specs.OpenFaults.{IsFaultOf, IsOpenFault};
ghost use Rattle.text_checker.specs.Verdict.{IsVerdict};

use crate::DiskFault;
use crate::write_ahead::applied;
use memchr::memchr;
use model_asked::{Config, Event, Reply, WorldKind};
use model_steps::{NoMemory, Refusal, View};
use service_hall::Hall;
use std::alloc::{AllocError, Global};
use text_checker::{Verdict, check};
use text_player::{AsRecord, Form, Replies, after_front, law_of_lines, print_header};
use text_records::{Version, read_line};

/// Why `Journal::open` failed. The header is line 1.
#[derive(Clone, Copy, Debug, Drop, PartialEq, Eq)]
pub enum OpenFault {
    /// The disk failed.
    Disk(DiskFault),
    /// An allocation failed.
    NoMemory,
    /// The whole lines are no record of a run: `check` returns this verdict.
    Judged(Verdict),
    /// They are a record of another config, or of another version.
    OtherConfig,
    /// No hall writes the line of this number: it is a refusal, has another spelling or the reply of another object, or is no part of a
    /// line at all.
    OtherLine(u64),
    /// The config's world gives no names.
    NoNames,
}

impl From<AllocError> for OpenFault {
    ghost from_gives = { λ _ f. f ≡ fault.NoMemory };

    fn from(_refused: AllocError) -> OpenFault {
        OpenFault::NoMemory
    }
}

impl From<NoMemory> for OpenFault {
    ghost from_gives = { λ _ f. f ≡ fault.NoMemory };

    fn from(_refused: NoMemory) -> OpenFault {
        OpenFault::NoMemory
    }
}

impl From<DiskFault> for OpenFault {
    ghost from_gives = { λ why f. f ≡ fault.Disk why };

    fn from(fault: DiskFault) -> OpenFault {
        OpenFault::Disk(fault)
    }
}

/// How many bytes stand up to the last LF, with it.
pub(crate) fn whole_length(bytes: &[u8]) -> usize
    ensures within { result ≤ length bytes.now }
    ensures torn { has_no_lf (drop result bytes.now) ≡ true }
    ensures whole { take result bytes.now ≡ without_torn bytes.now }
{
    law_of_lines();
    let mut end = bytes.len();
    while 0 < end && bytes[end - 1] != b'\n' {
        end -= 1;
    }
    end
}

/// The event that the first of some lines asks for; `None` where that is no line. An error where a growth was refused.
fn next_event(alloc: Global, kind: WorldKind, lines: &[u8]) -> Result<Option<Event>, AllocError> {
    let Some(end) = memchr(b'\n', lines) else {
        return Ok(None);
    };
    match read_line(alloc, kind, Version::Two, &lines[..end])? {
        Some(line) => Ok(Some(line.event)),
        None => Ok(None),
    }
}

/// Applies the event of the first of some lines, which has to be the line that the hall's answer writes, and tells what follows it.
fn follow<'a>(
    alloc: Global,
    hall: &mut Hall,
    view: &mut View,
    line: &mut Replies<Global>,
    lines: &'a [u8],
) -> Result<&'a [u8], OpenFault>
    ensures on { IfOk result (λ rest. GoesOnBy hall.old hall.new lines.entry.now rest.now) }
    ensures errors { IfErr result (λ why. (why ≡ OpenFault.NoMemory) ⊎ (why ≡ OpenFault.OtherLine (length hall.old.history + 2))) }
{
    let number = (hall.len() as u64).saturating_add(2);
    let kind = hall.config().world;
    let Some(event) = next_event(alloc, kind, lines)? else {
        return Err(OpenFault::OtherLine(number));
    };
    let reply = applied(hall, event, view);
    if let Reply::Refused(why) = reply {
        return Err(match why {
            Refusal::NoMemory => OpenFault::NoMemory,
            _ => OpenFault::OtherLine(number),
        });
    }
    line.clear();
    AsRecord::put_answered(event, reply, view, line);
    match after_front(lines, line.as_slice()) {
        Some(rest) => Ok(rest),
        None => Err(OpenFault::OtherLine(number)),
    }
}

/// Applies the events of these lines, each of which has to be the line that the hall's answer writes.
fn replay(alloc: Global, hall: &mut Hall, lines: &[u8]) -> Result<(), OpenFault>
    requires { hall.old.history ≡ [] }
    ensures all { OnOk result (HasFollowed hall.old.config hall.new lines.now) }
    ensures errors { IfErr result (λ why. (why ≡ OpenFault.NoMemory) ⊎ ((number : ℕ) × (why ≡ OpenFault.OtherLine number))) }
{
    let mut view = View::new();
    let mut line = Replies::new(alloc)?;
    let mut left = lines;
    while !left.is_empty() {
        left = follow(alloc, hall, &mut view, &mut line, left)?;
    }
    Ok(())
}

/// The hall with no event.
fn fresh(alloc: Global, config: Config) -> Result<Hall, OpenFault>
    ensures none { IfOk result (λ h. h ≡ hall_of config []) }
    ensures errors { IfErr result (λ why. (why ≡ OpenFault.NoMemory) ⊎ ((why ≡ OpenFault.NoNames) × (gives_names config.world ≡ false))) }
{
    match Hall::new(alloc, config) {
        Ok(hall) => Ok(hall),
        Err(Refusal::NoMemory) => Err(OpenFault::NoMemory),
        Err(_) => Err(OpenFault::NoNames),
    }
}

/// The hall whose record stands in these whole lines, with this header.
fn replayed(alloc: Global, config: Config, header: &[u8], whole: &[u8]) -> Result<Hall, OpenFault>
    requires { header.now ≡ header_line config }
    ensures hall { IfOk result (λ h. (h.config ≡ config) × (whole.now ≡ record_of_hall h)) }
    ensures yes { OnOk result (IsVerdict whole.now Verdict.Yes) }
    ensures errors { IfErr result (IsFaultOf config whole.now) }
{
    match check(alloc, whole) {
        Verdict::Yes => {}
        Verdict::NoMemory => return Err(OpenFault::NoMemory),
        verdict => return Err(OpenFault::Judged(verdict)),
    }
    let Some(lines) = after_front(whole, header) else {
        return Err(OpenFault::OtherConfig);
    };
    let mut hall = fresh(alloc, config)?;
    replay(alloc, &mut hall, lines)?;
    Ok(hall)
}

/// Returns the hall whose record these bytes are without their torn last line, and how many bytes are left without it.
///
/// If they are a part of the header, the hall has no event and no byte is left.
///
/// # Errors
///
/// As of `Journal::open`, but for `Disk`.
pub fn recovered(
    alloc: Global,
    config: Config,
    header: &[u8],
    bytes: &[u8],
) -> Result<(Hall, usize), OpenFault>
    requires { header.now ≡ header_line config }
    ensures hall { IfOk result (λ r. IsRecovered config bytes.now r.0 r.1) }
    ensures errors { IfErr result (IsOpenFault config bytes.now) }
{
    let end = whole_length(bytes);
    if end == 0 && after_front(header, bytes).is_some() {
        return Ok((fresh(alloc, config)?, 0));
    }
    let hall = replayed(alloc, config, header, &bytes[..end])?;
    if bytes[end..].contains(&0) {
        return Err(OpenFault::OtherLine((hall.len() as u64).saturating_add(2)));
    }
    Ok((hall, end))
}
