//! A disk whose lines stand beside their checksums.

ghost use Rattle.std.specs.Prelude.{◌≡◌, [], IfOk, IfErr, OnOk};
ghost use Rattle.service_journal.specs.DiskState.{DiskState};
ghost use Rattle.service_journal.specs.Disks.{Changes};
ghost use Rattle.service_journal.specs.Journals.{KeepsLines};
ghost use Rattle.service_journal.specs.SealedDisks.{HasKeptLines, HasOpened, seen};
ghost use Rattle.text_lines.specs.Lines.{rest_of};
ghost use Rattle.text_records.specs.Seals.{lines_in};
ghost use Rattle.text_records.specs.declared.seals.LineForm.TheVariants.{Sealed};

use crate::disk::{Disk, DiskFault};
use crate::journal::NotOpened;
use crate::opening::{OpenFault, whole_length};
use service_watch::durations::DurationHistogram;
use std::alloc::Global;
use std::io::ErrorKind;
use std::marker::Model;
use text_checker::Verdict;
use text_player::law_of_lines;
use text_records::{LineForm, Text, law_of_seals, opened_line, put_lines};

/// A disk over another, on which each line stands beside its checksum (`text_records::seals`).
///
/// What is read of it are the lines alone. A line of the other disk that has no checksum is read as it is; one with a wrong checksum too, and
/// that is no line of a record. Only whole lines are appended.
#[derive(Drop)]
pub struct SealedDisk<D: Disk> {
    alloc: Global,
    disk: D,
    /// Whether a part of a line may stand at the end, since a write has failed.
    torn: bool,
}

impl<D: Disk> Model for SealedDisk<D> {
    ghost use Rattle.std.specs.Prelude.{◌≡◌, Option, Some, false};
    ghost use Rattle.service_journal.specs.DiskState.{DiskState};
    ghost use Rattle.service_journal.specs.SealedDisks.{AreWholeUnless, seen};

    ghost Value = { Option DiskState };

    ghost view = { λ d. seen (D.state d.disk) };

    ghost invariant = { λ d. AreWholeUnless d.torn (D.state d.disk) };
}

/// What a line of a journal may begin with: a sealed one, and the header and an event of version 2.
const FRONTS: [&[u8]; 3] = [
    b"{\"crc32c\":\"",
    b"{\"format\":\"slot-record\"",
    b"{\"command\":\"",
];

/// Whether some bytes agree with a text, as far as both go.
fn agree(bytes: &[u8], front: &[u8]) -> bool {
    let both = bytes.len().min(front.len());
    bytes[..both] == front[..both]
}

/// Whether a crash may have left these bytes behind the last LF. A whole sealed line with one byte more is one that lost its LF.
fn may_be_torn(tail: &[u8]) -> bool {
    let Some((_, line)) = tail.split_last() else {
        return true;
    };
    let begins = agree(tail, FRONTS[0]) || agree(tail, FRONTS[1]) || agree(tail, FRONTS[2]);
    begins && !tail.contains(&0) && opened_line(line).len() == line.len()
}

/// What is wrong where what stands behind these whole lines is no part of a line.
fn fault_behind(whole: &[u8]) -> OpenFault {
    if whole.is_empty() {
        return OpenFault::Judged(Verdict::BadRecord(1));
    }
    let mut number = 1u64;
    for byte in whole {
        if *byte == b'\n' {
            number = number.saturating_add(1);
        }
    }
    OpenFault::OtherLine(number)
}

/// Cuts a torn line off a disk, and waits until what is left is durable.
fn cut_torn<D: Disk>(alloc: Global, disk: &mut D) -> Result<(), OpenFault>
    ensures whole { OnOk result (Changes HasKeptLines (D.state disk.old) (D.state disk.new)) }
    ensures spared { IfErr result (λ why. Changes KeepsLines (D.state disk.old) (D.state disk.new)) }
{
    law_of_lines();
    let bytes = disk.read(alloc)?;
    let whole = whole_length(&bytes);
    if !may_be_torn(&bytes[whole..]) {
        return Err(fault_behind(&bytes[..whole]));
    }
    if whole < bytes.len() {
        disk.cut(whole)?;
    }
    disk.sync()?;
    Ok(())
}

/// These whole lines, sealed.
fn sealed(alloc: Global, lines: &[u8]) -> Result<Text, DiskFault>
    ensures { IfOk result (λ text. (text ≡ lines_in Sealed lines.now) × (rest_of lines.now ≡ [])) }
{
    let mut text = Text::new(alloc);
    let rest = put_lines(LineForm::Sealed, lines, &mut text)?;
    if rest.is_empty() {
        return Ok(text);
    }
    Err(DiskFault::Failed(ErrorKind::InvalidInput))
}

impl<D: Disk> SealedDisk<D> {
    /// Makes such a disk of one with lines, sealed or not. What a crash has left of a last line is cut off.
    ///
    /// # Errors
    ///
    /// The disk is handed back, with all whole lines on it.
    ///
    /// - `Disk`: a call of the disk failed.
    /// - `Judged`: there is no LF, and the bytes are no part of a first line.
    /// - `OtherLine`: what stands behind the last LF is no part of a line.
    pub fn open(alloc: Global, disk: D) -> Result<SealedDisk<D>, NotOpened<D>>
        ensures opened { IfOk result (Changes HasOpened (D.state disk)) }
        ensures spared { IfErr result (λ n. Changes KeepsLines (D.state disk) (D.state n.disk)) }
    {
        law_of_lines();
        let mut disk = disk;
        match cut_torn(alloc, &mut disk) {
            Ok(()) => Ok(SealedDisk {
                alloc,
                disk,
                torn: false,
            }),
            Err(fault) => Err(NotOpened { fault, disk }),
        }
    }

    /// Returns the other disk.
    pub fn into_disk(self) -> D
        ensures { seen (D.state result) ≡ self }
    {
        let SealedDisk { disk, .. } = self;
        disk
    }
}

impl<D: Disk> Disk for SealedDisk<D> {
    ghost state = { λ d. d };

    /// Returns the lines, without their checksums.
    fn read(&mut self, alloc: Global) -> Result<Vec<u8>, DiskFault> {
        let bytes = self.disk.read(alloc)?;
        let mut text = Text::new(alloc);
        put_lines(LineForm::Plain, &bytes, &mut text)?;
        Ok(text.into_bytes())
    }

    /// Appends these whole lines, each beside its checksum. Fails where a call has failed before, or where a line has no LF.
    fn append(&mut self, bytes: &[u8]) -> Result<(), DiskFault> {
        law_of_seals();
        if self.torn {
            return Err(DiskFault::Failed(ErrorKind::Other));
        }
        let text = sealed(self.alloc, bytes)?;
        self.torn = true;
        match self.disk.append(text.as_slice()) {
            Ok(()) => {
                self.torn = false;
                Ok(())
            }
            Err(fault) => Err(fault),
        }
    }

    fn sync(&mut self) -> Result<(), DiskFault> {
        self.disk.sync()
    }

    /// Fails: only what a crash has torn is ever cut off, which `open` does.
    fn cut(&mut self, _len: usize) -> Result<(), DiskFault> {
        Err(DiskFault::Failed(ErrorKind::Unsupported))
    }

    fn can_replace(&self, alloc: Global, bytes: &[u8]) -> bool {
        match sealed(alloc, bytes) {
            Ok(text) => self.disk.can_replace(alloc, text.as_slice()),
            Err(_) => false,
        }
    }

    fn replace(&mut self, alloc: Global, bytes: &[u8]) -> Result<(), DiskFault> {
        law_of_seals();
        let text = sealed(alloc, bytes)?;
        self.disk.replace(alloc, text.as_slice())
    }

    fn look(&self) -> Result<(), DiskFault> {
        self.disk.look()
    }

    fn size(&self) -> u64 {
        self.disk.size()
    }

    fn replacings(&self) -> Option<u64> {
        self.disk.replacings()
    }

    fn sync_times(&self) -> Option<DurationHistogram> {
        self.disk.sync_times()
    }
}
