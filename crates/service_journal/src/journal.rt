//! The journal of a write-ahead hall, on a disk.

ghost use Rattle.std.specs.Prelude.{◌≡◌, ◌≢◌, ◌≤◌, true, false, length, Err, Some, OnOk, OnErr, IfOk, IfErr};
ghost use Rattle.service_journal.specs.Disks.{Changes};
ghost use Rattle.service_journal.specs.DiskState.{DiskState};
ghost use Rattle.service_hall.specs.Compactions.{IsCompacted};
ghost use Rattle.service_hall.specs.Dues.{due_again};
ghost use Rattle.service_journal.specs.WriteAheads.{write_ahead_of};
ghost use Rattle.service_journal.specs.Compactings.{IsPaced, KeepsEither, KeepsWhenCompacted, MayCompact, TakesHall};
ghost use Rattle.service_journal.specs.OpenFaults.{IsOpenFault, IsSpared};
ghost use Rattle.service_journal.specs.Journals.{Stands, HasSynced, KeepsAtAnyMoment, KeepsFront, GrowsFrom, GrowsUnlessTorn, IsHallOf, IsMended, IsWritten, missing_in};

use crate::opening::{OpenFault, recovered};
use crate::record::record_of;
use crate::write_ahead::WriteAhead;
use crate::{Disk, DiskFault};
use model_asked::Config;
use service_hall::{Compactor, Hall};
use std::alloc::Global;
use text_player::{Replies, law_of_lines, print_header};

/// Why a call of a journal failed. The journal has ended: it never writes again.
#[derive(Clone, Copy, Debug, Drop, PartialEq, Eq)]
pub enum JournalFault {
    /// The disk failed in this call. A prefix of what it was to write may stand there.
    Disk(DiskFault),
    /// The journal had ended before this call.
    Ended,
}

/// A disk with the record of what a write-ahead hall has committed.
///
/// After a call of the disk that failed the journal has ended, and never writes again.
#[derive(Drop)]
pub struct Journal<D: Disk> {
    pub(crate) disk: D,
    pub(crate) ended: bool,
}

/// Ends a journal by a fault of its disk.
fn end(ended: &mut bool, fault: DiskFault) -> JournalFault
    ensures fault { result ≡ JournalFault.Disk fault }
    ensures ended { ended.new ≡ true }
{
    *ended = true;
    JournalFault::Disk(fault)
}

impl<D: Disk> Journal<D> {
    /// Appends bytes to the disk and syncs them.
    fn write(&mut self, bytes: &[u8]) -> Result<(), DiskFault>
        ensures written { Changes (IsWritten bytes.now result) (D.state self.old.disk) (D.state self.new.disk) }
        ensures same { self.new.ended ≡ self.old.ended }
    {
        self.disk.append(bytes)?;
        self.disk.sync()?;
        Ok(())
    }

    /// Appends the pending lines to the disk and syncs them. Then all events of the write-ahead hall are committed.
    ///
    /// The caller sends no reply to an event before this has returned `Ok`.
    ///
    /// # Errors
    ///
    /// An error leaves the write-ahead hall as it was, and the journal has ended. The first that applies is returned:
    ///
    /// - `Ended`: the journal had ended before. Nothing changes.
    /// - `Disk`: the disk failed. A prefix of the pending lines may stand there.
    pub fn commit(&mut self, write_ahead: &mut WriteAhead) -> Result<(), JournalFault>
        ensures reported { OnOk result (write_ahead.new ≡ write_ahead_of write_ahead.old.hall (length write_ahead.old.hall.history)) }
        ensures stands { OnOk result (Stands D.state self.old write_ahead.old → Stands D.state self.new write_ahead.new) }

        // A crash at any moment of the call leaves all that was committed before it.
        ensures any_moment { Stands D.state self.old write_ahead.old → KeepsAtAnyMoment D.state self.old self.new write_ahead.old }
        ensures same { OnErr result (write_ahead.new ≡ write_ahead.old) }
        ensures ends { OnErr result (self.new.ended ≡ true) }
        ensures over { self.old.ended ≡ true → (result ≡ Err JournalFault.Ended) × (self.new ≡ self.old) }
        ensures goes_on { self.old.ended ≡ false → result ≢ Err JournalFault.Ended }
    {
        law_of_lines();
        if self.ended {
            return Err(JournalFault::Ended);
        }
        match self.write(write_ahead.waiting()) {
            Ok(()) => {
                write_ahead.mark_committed();
                Ok(())
            }
            Err(fault) => Err(end(&mut self.ended, fault)),
        }
    }
}

/// Puts a compaction off, unless it was kept.
fn put_off_unless(kept: bool, compactor: &mut Compactor, hall: &Hall)
    ensures kept { kept ≡ true → compactor.new ≡ compactor.old }
    ensures due { kept ≡ false → compactor.new.due ≡ due_again (length hall.now.history) }
    ensures put_off { kept ≡ false → compactor.new.put_off ≡ true }
{
    if !kept {
        compactor.put_off(hall);
    }
}

impl<D: Disk> Journal<D> {
    /// Replaces the hall by one that was compacted of it, and the bytes of the disk by its record, in one step. Then all events are committed.
    ///
    /// Returns `false`, and changes nothing, if an allocation failed or the disk has no room for the new record beside the old one.
    ///
    /// # Errors
    ///
    /// An error leaves the write-ahead hall as it was, and the journal has ended. The first that applies is returned:
    ///
    /// - `Ended`: the journal had ended before. Nothing changes.
    /// - `Disk`: the disk failed while it replaced its bytes. It has the old record or the new one.
    pub fn compact(
        &mut self,
        alloc: Global,
        write_ahead: &mut WriteAhead,
        hall: Hall,
    ) -> Result<bool, JournalFault>
        requires { IsCompacted write_ahead.old.hall hall }
        ensures taken { IfOk result (λ done. TakesHall done hall write_ahead.old write_ahead.new) }
        ensures stands { OnOk result (Stands D.state self.old write_ahead.old → Stands D.state self.new write_ahead.new) }

        // A crash at any moment of the call leaves all that was committed before it, or the record of the new hall.
        ensures any_moment { Stands D.state self.old write_ahead.old →
            Changes (KeepsEither write_ahead.old hall) (D.state self.old.disk) (D.state self.new.disk) }
        ensures same { OnErr result (write_ahead.new ≡ write_ahead.old) }
        ensures ends { OnErr result (self.new.ended ≡ true) }
        ensures over { self.old.ended ≡ true → (result ≡ Err JournalFault.Ended) × (self.new ≡ self.old) }
        ensures goes_on { self.old.ended ≡ false → result ≢ Err JournalFault.Ended }
    {
        law_of_lines();
        let _ = write_ahead.waiting();
        if self.ended {
            return Err(JournalFault::Ended);
        }
        let Ok(record) = record_of(alloc, &hall) else {
            return Ok(false);
        };
        if !self.disk.can_replace(alloc, &record) {
            return Ok(false);
        }
        match self.disk.replace(alloc, &record) {
            Ok(()) => {
                write_ahead.replace_hall(hall);
                Ok(true)
            }
            Err(fault) => Err(end(&mut self.ended, fault)),
        }
    }

    // Compacts the write-ahead hall by `compact`, if that makes the history shorter. It stands apart from the question whether that is due: its
    // room for a hall is cleared whenever it is called.
    #[inline(never)]
    fn compact_long(
        &mut self,
        alloc: Global,
        compactor: &mut Compactor,
        write_ahead: &mut WriteAhead,
    ) -> Result<(), JournalFault>
        requires due { compactor.old.due ≤ length write_ahead.old.hall.history }
        ensures compacted { OnOk result (MayCompact write_ahead.old write_ahead.new) }
        ensures stands { OnOk result (Stands D.state self.old write_ahead.old → Stands D.state self.new write_ahead.new) }
        ensures any_moment { Stands D.state self.old write_ahead.old → KeepsWhenCompacted D.state self.old self.new write_ahead.old }
        ensures same { OnErr result (write_ahead.new ≡ write_ahead.old) }
        ensures ends { OnErr result (self.new.ended ≡ true) }
        ensures paced { OnOk result (IsPaced compactor.old write_ahead.old compactor.new write_ahead.new) }
    {
        let Some(hall) = compactor.compacted(alloc, write_ahead.hall()) else {
            return Ok(());
        };
        let done = self.compact(alloc, write_ahead, hall)?;
        put_off_unless(done, compactor, write_ahead.hall());
        Ok(())
    }

    /// Compacts the write-ahead hall by `compact`, if that is due and makes the history shorter.
    ///
    /// If the new record could not be written beside the old one, the hall stays as it is, and the compaction is put off.
    ///
    /// # Errors
    ///
    /// Those of `compact`, if a compaction is due. An error leaves the write-ahead hall as it was.
    pub fn compact_when_due(
        &mut self,
        alloc: Global,
        compactor: &mut Compactor,
        write_ahead: &mut WriteAhead,
    ) -> Result<(), JournalFault>
        ensures compacted { OnOk result (MayCompact write_ahead.old write_ahead.new) }
        ensures stands { OnOk result (Stands D.state self.old write_ahead.old → Stands D.state self.new write_ahead.new) }

        // A crash at any moment of the call leaves all that was committed before it, or the record of the new hall.
        ensures any_moment { Stands D.state self.old write_ahead.old → KeepsWhenCompacted D.state self.old self.new write_ahead.old }
        ensures same { OnErr result (write_ahead.new ≡ write_ahead.old) }
        ensures ends { OnErr result (self.new.ended ≡ true) }

        // Where it could not be written, nothing changed, and it is due again a tenth of the room further on.
        ensures paced { OnOk result (IsPaced compactor.old write_ahead.old compactor.new write_ahead.new) }
    {
        if !compactor.is_due(write_ahead.hall()) {
            return Ok(());
        }
        self.compact_long(alloc, compactor, write_ahead)
    }
}

/// A journal that was opened, with the write-ahead hall of its record.
#[derive(Drop)]
pub struct Opened<D: Disk> {
    /// The journal.
    pub journal: Journal<D>,
    /// The write-ahead hall.
    pub write_ahead: WriteAhead,
}

/// A disk whose journal was not opened.
#[derive(Drop)]
pub struct NotOpened<D: Disk> {
    /// Why it was not.
    pub fault: OpenFault,
    /// The disk.
    pub disk: D,
}

/// Returns what a record with so many whole bytes lacks: its header if there are none, and else nothing.
fn missing(header: &[u8], whole: usize) -> &[u8]
    ensures { result.now ≡ missing_in whole header.now }
{
    if whole == 0 {
        return header;
    }
    &header[..0]
}

/// Cuts a disk of `total` bytes behind the first `whole` ones, appends what is missing, and syncs.
///
/// If a call of the disk fails, the first `whole` bytes stand there still.
fn mend<D: Disk>(disk: &mut D, total: usize, whole: usize, missing: &[u8]) -> Result<(), DiskFault>
    ensures mended { OnOk result (Changes (IsMended total whole missing.now) (D.state disk.old) (D.state disk.new)) }
    ensures front { OnErr result (Changes (KeepsFront whole) (D.state disk.old) (D.state disk.new)) }
    ensures grows { OnOk result (Changes (GrowsFrom total whole) (D.state disk.old) (D.state disk.new)) }
{
    if whole < total {
        disk.cut(whole)?;
    }
    disk.append(missing)?;
    disk.sync()?;
    Ok(())
}

/// Mends the record on a disk, and returns the write-ahead hall of it (`Journal::open`).
fn restored<D: Disk>(alloc: Global, disk: &mut D, config: Config) -> Result<WriteAhead, OpenFault>
    ensures config { IfOk result (λ c. c.hall.config ≡ config) }
    ensures reported { IfOk result (λ c. c.reported ≡ length c.hall.history) }
    ensures synced { IfOk result (λ c. (t : DiskState) → D.state disk.new ≡ Some t → HasSynced c t) }
    ensures hall { IfOk result (λ c. (s : DiskState) → D.state disk.old ≡ Some s → IsHallOf c.hall s.contents) }
    ensures grows { OnOk result (Changes GrowsUnlessTorn (D.state disk.old) (D.state disk.new)) }
    ensures errors { IfErr result (λ why. (s : DiskState) → D.state disk.old ≡ Some s → IsOpenFault config s.contents why) }
    ensures spared { IfErr result (λ why. Changes (IsSpared why) (D.state disk.old) (D.state disk.new)) }
{
    law_of_lines();
    let bytes = disk.read(alloc)?;
    let mut header = Replies::new(alloc)?;
    print_header(config, &mut header);
    let (hall, whole) = recovered(alloc, config, header.as_slice(), &bytes)?;
    let write_ahead = WriteAhead::new(alloc, hall)?;
    mend(disk, bytes.len(), whole, missing(header.as_slice(), whole))?;
    Ok(write_ahead)
}

impl<D: Disk> Journal<D> {
    /// Opens the journal on a disk, and returns it with the write-ahead hall of its record.
    ///
    /// A disk with a part of the header, or with no byte, gets the header, and its hall has no event. Else a last line without LF, which
    /// a crash has torn, is cut off.
    ///
    /// # Errors
    ///
    /// The disk is handed back. It is as it was, unless a call of it failed while it was mended: then all whole lines stand there still.
    ///
    /// - `Disk`: a call of the disk failed, when it was read or mended.
    /// - `NoMemory`: an allocation failed.
    /// - `Judged`: `check` returns something else than `Yes` of the whole lines.
    /// - `OtherConfig`: they are a record of a run, of another config or of another version.
    /// - `NoNames`: the config's world gives no names.
    /// - `OtherLine`: they are a record of this config, with a line that no hall writes.
    pub fn open(alloc: Global, disk: D, config: Config) -> Result<Opened<D>, NotOpened<D>>
        ensures config { IfOk result (λ o. o.write_ahead.hall.config ≡ config) }
        ensures reported { IfOk result (λ o. o.write_ahead.reported ≡ length o.write_ahead.hall.history) }
        ensures stands { IfOk result (λ o. Stands D.state o.journal o.write_ahead) }

        // The hall is that of the record that was there, once its torn line is cut.
        ensures hall { IfOk result (λ o. (s : DiskState) → D.state disk ≡ Some s → IsHallOf o.write_ahead.hall s.contents) }

        // Where no line was torn, nothing was cut off, and what was durable was so all the time.
        ensures grows { IfOk result (λ o. Changes GrowsUnlessTorn (D.state disk) (D.state o.journal.disk)) }

        // Each fault is reported of bytes alone that have it, and of a disk that was spared.
        ensures errors { IfErr result (λ n. (s : DiskState) → D.state disk ≡ Some s → IsOpenFault config s.contents n.fault) }
        ensures spared { IfErr result (λ n. Changes (IsSpared n.fault) (D.state disk) (D.state n.disk)) }
    {
        let mut disk = disk;
        match restored(alloc, &mut disk, config) {
            Ok(write_ahead) => Ok(Opened {
                journal: Journal { disk, ended: false },
                write_ahead,
            }),
            Err(fault) => Err(NotOpened { fault, disk }),
        }
    }

    /// Has the disk look whether its bytes are still where they were written.
    ///
    /// # Errors
    ///
    /// After an error the journal has ended. The first that applies is returned:
    ///
    /// - `Ended`: the journal had ended before. Nothing changes.
    /// - `Disk`: the bytes are no more there, or the disk failed.
    pub fn look(&mut self) -> Result<(), JournalFault>
        ensures same { OnOk result (self.new ≡ self.old) }
        ensures ends { OnErr result (self.new.ended ≡ true) }
        ensures over { self.old.ended ≡ true → (result ≡ Err JournalFault.Ended) × (self.new ≡ self.old) }
        ensures goes_on { self.old.ended ≡ false → result ≢ Err JournalFault.Ended }
    {
        if self.ended {
            return Err(JournalFault::Ended);
        }
        match self.disk.look() {
            Ok(()) => Ok(()),
            Err(fault) => Err(end(&mut self.ended, fault)),
        }
    }

    /// Returns the disk.
    pub fn disk(&self) -> &D
        ensures { result.now ≡ self.now.disk }
    {
        &self.disk
    }

    /// Returns the disk, to which the journal writes no more.
    pub fn into_disk(self) -> D
        ensures { result ≡ self.disk }
    {
        let Journal { disk, ended: _ } = self;
        disk
    }
}
