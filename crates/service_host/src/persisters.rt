//! What is kept of the turns of a loop over a hall.

ghost use Rattle.std.specs.Prelude.{◌≡◌, false, length, OnOk};
ghost use Rattle.text_worlds.specs.desk.Held.{slots_of};
ghost use Rattle.service_hall.specs.Halls.{desk_of};
ghost use Rattle.service_journal.specs.Compactings.{IsPaced, KeepsWhenCompacted, MayCompact};
ghost use Rattle.service_journal.specs.Journals.{Stands};
ghost use Rattle.service_host.specs.Kept.{IsKept, KeptBy, MayCompactHall, Rests};

use crate::reading::Reading;
use service_follow::{room_of, tally_of};
use service_hall::{Compactor, Hall};
use service_journal::{Disk, Journal, JournalFault, WriteAhead, law_of_crashes};
use service_loop::{Persist, Prefetch, Tally};
use std::alloc::{Allocator, Global};
use text_lines::held::{HeldQuery, put_held};
use text_player::Replies;

/// Where so many bytes of lines wait they are kept before the next connection has its turn: the lines of one more turn, 64 KiB of the
/// shortest commands, have room behind them, since a write-ahead hall refuses memory where a megabyte waits.
const FULL_BYTES: usize = 262_144;

/// What is said where the record of a shorter history could not be written.
const NOT_COMPACTED: &str =
    "the journal is not compacted: its new file could not be written beside it; it goes on, and tries again later";

/// Keeps nothing: the history of a hall ends with the program. It is compacted whenever it has grown long.
#[derive(Drop)]
pub struct Unrecorded {
    /// Where the memory of a hall that is compacted comes from.
    pub alloc: Global,
    /// When that is due.
    pub compactor: Compactor,
    /// How often it was compacted.
    pub compactions: u64,
}

impl Unrecorded {
    // Compacts the hall, if that makes the history shorter. It stands apart from the question whether that is due: its room for a hall is cleared
    // whenever it is called.
    #[inline(never)]
    fn compact(&mut self, hall: &mut Hall)
        ensures { MayCompactHall hall.old hall.new }
    {
        if let Some(shorter) = self.compactor.compacted(self.alloc, hall) {
            *hall = shorter;
            self.compactions = self.compactions.saturating_add(1);
        }
    }
}

impl Persist<Reading<Hall>> for Unrecorded {
    type Fault = JournalFault;

    ghost persists = { λ k h l u. MayCompactHall h.service u.service × (u.rules ≡ h.rules) };

    // The hall answers each request as it comes, and there is nothing to learn.
    ghost prefetches = { λ k h lines l u. Rests k h l u };

    ghost waits = { λ k h l u. Rests k h l u };

    ghost holds = { λ k h. slots_of (desk_of h.service) };

    ghost shares = { λ k. false };

    // No other server ends its stays.
    ghost may_answer = { λ k lease. Unit {0} };

    fn put_held<B: Allocator>(
        &self,
        reading: &Reading<Hall>,
        query: HeldQuery,
        out: &mut Replies<B>,
    ) {
        put_held(reading.service.slots(), query, out);
    }

    fn room(&self, reading: &Reading<Hall>) -> u64 {
        room_of(&reading.service)
    }

    fn is_full(&self, _reading: &Reading<Hall>) -> bool {
        false
    }

    fn persist(&mut self, reading: &mut Reading<Hall>) -> Result<(), JournalFault> {
        let hall = &mut reading.service;
        if self.compactor.is_due(hall) {
            self.compact(hall);
        }
        Ok(())
    }

    fn most_prefetched(&self) -> Option<usize> {
        None
    }

    fn prefetch(
        &mut self,
        _reading: &mut Reading<Hall>,
        _lines: &[u8],
    ) -> Result<Prefetch, JournalFault> {
        Ok(Prefetch::Known)
    }

    fn tick(&mut self, _reading: &mut Reading<Hall>) -> Result<(), JournalFault> {
        Ok(())
    }

    // No other server has the hall: its stays end by its own events.
    fn shares_stays(&self) -> bool {
        false
    }

    fn end_stays(
        &mut self,
        _reading: &mut Reading<Hall>,
        _due: &[u64],
    ) -> Result<(), JournalFault> {
        Ok(())
    }

    fn has_stay(&self, reading: &Reading<Hall>, identity: u64) -> bool {
        reading.service.slots().pool().stay_of(identity).is_some()
    }

    fn lease(&self) -> u64 {
        0
    }

    fn may_answer_stays(&self, _lease: u64) -> bool {
        true
    }

    fn trouble(&self) -> Option<&'static str> {
        None
    }

    // Nobody counts it here: a metric tells how much room is left.
    fn lasting_tenths(&self) -> u8 {
        0
    }

    fn tally(&self, reading: &Reading<Hall>) -> Tally {
        Tally {
            compactions: Some(self.compactions),
            ..tally_of(self.alloc, &reading.service)
        }
    }
}

/// Keeps the lines of a write-ahead hall in its journal, and compacts both whenever the history has grown long.
#[derive(Drop)]
pub struct Recorded<D: Disk> {
    /// The journal.
    pub journal: Journal<D>,
    /// Where the memory of a hall that is compacted comes from.
    pub alloc: Global,
    /// When that is due.
    pub compactor: Compactor,
}

impl<D: Disk> Recorded<D> {
    /// Compacts the history where it is long, as it may be at the start.
    ///
    /// # Errors
    ///
    /// Those of `Journal::compact_when_due`.
    pub fn compact_when_due(&mut self, write_ahead: &mut WriteAhead) -> Result<(), JournalFault>
        ensures compacted { OnOk result (MayCompact write_ahead.old write_ahead.new) }
        ensures stands { OnOk result (Stands D.state self.old.journal write_ahead.old → Stands D.state self.new.journal write_ahead.new) }
        ensures any_moment { Stands D.state self.old.journal write_ahead.old → KeepsWhenCompacted D.state self.old.journal self.new.journal write_ahead.old }

        // Where it could not be written, nothing changed, and it is due again a tenth of the room further on.
        ensures paced { OnOk result (IsPaced self.old.compactor write_ahead.old self.new.compactor write_ahead.new) }
    {
        self.journal
            .compact_when_due(self.alloc, &mut self.compactor, write_ahead)
    }

    /// Commits all that is pending, and compacts the history behind that where it is long.
    ///
    /// # Errors
    ///
    /// Those of `Journal::commit` and of `compact_when_due`.
    pub fn commit_all(&mut self, write_ahead: &mut WriteAhead) -> Result<(), JournalFault>
        ensures kept { OnOk result (IsKept D.state self.old.journal write_ahead.old self.new.journal write_ahead.new) }

        // Where nothing is pending, as after plain reads alone, nothing is written and nothing is synced.
        ensures idle { write_ahead.old.reported ≡ length write_ahead.old.hall.history → (self.new ≡ self.old) × (write_ahead.new ≡ write_ahead.old) }
    {
        law_of_crashes();
        if !write_ahead.has_waiting() {
            return Ok(());
        }
        self.journal.commit(write_ahead)?;
        self.compact_when_due(write_ahead)
    }
}

impl<D: Disk> Persist<Reading<WriteAhead>> for Recorded<D> {
    type Fault = JournalFault;

    ghost persists = { KeptBy D.state };

    // The write-ahead hall answers each request as it comes, and there is nothing to learn.
    ghost prefetches = { λ k c lines l u. Rests k c l u };

    ghost waits = { λ k c l u. Rests k c l u };

    ghost holds = { λ k c. slots_of (desk_of c.service.hall) };

    ghost shares = { λ k. false };

    // No other server ends its stays.
    ghost may_answer = { λ k lease. Unit {0} };

    fn put_held<B: Allocator>(
        &self,
        reading: &Reading<WriteAhead>,
        query: HeldQuery,
        out: &mut Replies<B>,
    ) {
        put_held(reading.service.hall().slots(), query, out);
    }

    fn room(&self, reading: &Reading<WriteAhead>) -> u64 {
        room_of(reading.service.hall())
    }

    fn is_full(&self, reading: &Reading<WriteAhead>) -> bool {
        FULL_BYTES < reading.service.waiting().len()
    }

    fn persist(&mut self, reading: &mut Reading<WriteAhead>) -> Result<(), JournalFault> {
        self.commit_all(&mut reading.service)
    }

    fn most_prefetched(&self) -> Option<usize> {
        None
    }

    fn prefetch(
        &mut self,
        _reading: &mut Reading<WriteAhead>,
        _lines: &[u8],
    ) -> Result<Prefetch, JournalFault> {
        Ok(Prefetch::Known)
    }

    // A file that was deleted, moved or cut short is noticed though nothing is written.
    fn tick(&mut self, _reading: &mut Reading<WriteAhead>) -> Result<(), JournalFault> {
        self.journal.look()
    }

    // No other server has the journal: its stays end by its own events.
    fn shares_stays(&self) -> bool {
        false
    }

    fn end_stays(
        &mut self,
        _reading: &mut Reading<WriteAhead>,
        _due: &[u64],
    ) -> Result<(), JournalFault> {
        Ok(())
    }

    fn has_stay(&self, reading: &Reading<WriteAhead>, identity: u64) -> bool {
        reading
            .service
            .hall()
            .slots()
            .pool()
            .stay_of(identity)
            .is_some()
    }

    fn lease(&self) -> u64 {
        0
    }

    fn may_answer_stays(&self, _lease: u64) -> bool {
        true
    }

    fn trouble(&self) -> Option<&'static str> {
        if self.compactor.is_put_off() {
            Some(NOT_COMPACTED)
        } else {
            None
        }
    }

    // Nobody counts it here: a metric tells how much room is left.
    fn lasting_tenths(&self) -> u8 {
        0
    }

    fn tally(&self, reading: &Reading<WriteAhead>) -> Tally {
        Tally {
            compactions: self.journal.disk().replacings(),
            journal_bytes: Some(self.journal.disk().size()),
            syncs: self.journal.disk().sync_times(),
            ..tally_of(self.alloc, reading.service.hall())
        }
    }
}
