//! A hall to which the entries of a log are applied, and who keeps its stays.

ghost use Rattle.std.specs.Prelude.{◌≡◌, ◌⊎◌, ◌↔◌, Err, IfErr, IfOk, OnOk, [], false, true, None};
ghost use Rattle.model_asked.specs.Config.{gives_names};
ghost use Rattle.service_hall.specs.Halls.{hall_of};
ghost use Rattle.service_follow.specs.Marks.{mark_of, next_in};
ghost use Rattle.service_follow.specs.Said.{reply_queue_of};
ghost use Rattle.service_follow.specs.Stays.{
  EndsFrom,
  GoesOnFrom,
  IsRetold,
  ReadsPart,
  StayApplies,
  TakesIfKnown,
  TakesLines,
  TellsTheSame,
  blind_of,
  since_compaction,
  stays_of,
  told_by,
  under_way,
};

use crate::front_end_stay::{FrontEndStay, are_same, token_of};
use crate::gathering::Gathering;
use crate::hall_terms::{ToldTerms, terms_of};
use crate::keeping::Keeping;
use crate::machine::HallMachine;
use crate::marks::{BEFORE, Mark, entries_in, head_at, kept_in, mark_of};
use crate::note::{Asked, Note};
use crate::reply_queue::ReplyQueue;
use crate::retelling::is_retold;
use model_asked::Config;
use model_steps::Refusal;
use service_hall::Hall;
use service_log::{ApplyFault, Machine};
use service_loop::Feed;
use std::alloc::Global;
use std::marker::Model;

/// A hall to which the entries of a log are applied (`HallMachine`), and which front end keeps each stay in its pool: whose entry said `enter`
/// of it last and was answered `ok` or `refused 9`. The first 32 bytes of an entry are the token of its front end.
///
/// A compaction is a run of entries of one front end, each right behind the other (`mark_of`). They tell a shorter history
/// with the same desk, or the same history, and who keeps each stay. Behind the last of them the hall has that history, if it is the same: else
/// nothing is known of the machine. Any other entry between them lets the compaction go.
///
/// A machine that is *blind* began at a later place of the log than the first. It answers nothing before it has read a
/// compaction whole.
#[derive(Drop)]
pub struct StayMachine {
    alloc: Global,
    halls: HallMachine,
    keeping: Keeping,
    gathered: Option<Gathering>,
    blind: bool,
    /// Whether a compaction told another hall, or other stays, than the entries before it.
    differs: bool,
    /// How many compactions were read to their end.
    compactions: u64,
    /// How many entries were applied before the last of them.
    compacted: u64,
    /// The terms of the hall, as the entry told that told some last.
    terms: Option<ToldTerms>,
    /// What entries changed of who holds numbers.
    changes: Feed,
}

impl Model for StayMachine {
    ghost use Rattle.service_follow.specs.StayState.{StayState};

    ghost Value = { StayState };

    ghost view = { λ m. record {
      hall = m.halls;
      kept = m.keeping.kept.items;
      entries = m.keeping.entries;
      compacted = m.compacted;
      gathered = m.gathered;
      blind = m.blind;
    } };
}

// Notes what requests changed of who holds numbers.
fn note_changes(changes: &mut Feed, notes: &[Note]) {
    for note in notes {
        if let Asked::ToTake(event) = note.asked() {
            changes.note(event, &note.reply());
        }
    }
}

impl StayMachine {
    // Makes a machine of this config with no event, blind or not.
    fn at_start(alloc: Global, config: Config, blind: bool) -> Result<StayMachine, Refusal>
        ensures opened { IfOk result (λ m. m ≡ record (stays_of config) { blind = blind }) }
        ensures out_of_range { result ≡ Err Refusal.OutOfRange ↔ (gives_names config.world ≡ false) }
        ensures only { IfErr result (λ why. (why ≡ Refusal.NoMemory) ⊎ (why ≡ Refusal.OutOfRange)) }
    {
        let halls = HallMachine::new(alloc, config)?;
        Ok(StayMachine {
            alloc,
            halls,
            keeping: Keeping::new(alloc),
            gathered: None,
            blind,
            differs: false,
            compactions: 0,
            compacted: 0,
            terms: None,
            changes: Feed::new(alloc),
        })
    }

    /// Makes a hall of this config with no event.
    ///
    /// # Errors
    ///
    /// Those of `HallMachine::new`.
    pub fn new(alloc: Global, config: Config) -> Result<StayMachine, Refusal>
        ensures opened { IfOk result (λ m. m ≡ stays_of config) }
        ensures out_of_range { result ≡ Err Refusal.OutOfRange ↔ (gives_names config.world ≡ false) }
        ensures only { IfErr result (λ why. (why ≡ Refusal.NoMemory) ⊎ (why ≡ Refusal.OutOfRange)) }
    {
        StayMachine::at_start(alloc, config, false)
    }

    /// Makes a blind machine of this config.
    ///
    /// # Errors
    ///
    /// Those of `HallMachine::new`.
    pub fn blind(alloc: Global, config: Config) -> Result<StayMachine, Refusal>
        ensures opened { IfOk result (λ m. m ≡ blind_of config) }
    {
        StayMachine::at_start(alloc, config, true)
    }

    /// Returns the hall.
    pub fn hall(&self) -> &Hall
        ensures { result.now ≡ self.now.hall }
    {
        self.halls.hall()
    }

    /// Returns the stays in the pool, each with the front end that keeps it.
    pub fn kept(&self) -> &[FrontEndStay]
        ensures { result.now ≡ self.now.kept }
    {
        &self.keeping.kept
    }

    /// Returns how many entries were applied, those of compactions aside, in 64 bits.
    pub fn entries(&self) -> u64
        ensures { result ≡ self.now.entries }
    {
        self.keeping.entries
    }

    /// Returns how many entries were applied since the compaction that was read last, or from the first one on.
    pub fn entries_since_compaction(&self) -> u64
        ensures { result ≡ since_compaction self.now }
    {
        self.keeping.entries.saturating_sub(self.compacted)
    }

    /// Returns true if and only if it began at a later place than the first, and has read no compaction whole.
    pub fn is_blind(&self) -> bool
        ensures { result ≡ self.now.blind }
    {
        self.blind
    }

    /// Returns the token and the count of the entry that was read last, if it is one of a compaction that goes on.
    pub(crate) fn under_way(&self) -> Option<[u8; 49]>
        ensures { result ≡ under_way self.now.gathered }
    {
        match &self.gathered {
            Some(part) => Some(part.head),
            None => None,
        }
    }

    /// Whether a compaction told another hall, or other stays, than the entries before it: then nothing is known of the
    /// machine. Not proved.
    pub(crate) fn differs(&self) -> bool {
        self.differs
    }

    /// Returns how many compactions it read to their end. Not proved.
    pub(crate) fn compactions(&self) -> u64 {
        self.compactions
    }

    /// Returns the terms of the hall, as the entry told that told some last; `None` if none did. It is not proved that they are noted, but what
    /// each entry tells is (`terms_of`).
    pub(crate) fn terms(&self) -> Option<ToldTerms> {
        self.terms
    }

    /// Returns what the entries changed of who holds numbers, from the place on at which it began. Not proved.
    pub(crate) fn changes(&self) -> &Feed {
        &self.changes
    }

    // Notes what an entry tells of the terms of the hall, whatever else is known.
    fn note_terms(&mut self, entry: &[u8])
        ensures { self.new ≡ self.old }
    {
        if let Some(told) = terms_of(entry) {
            self.terms = Some(told);
        }
    }

    // Lets go what was read of a compaction.
    fn let_go(&mut self, reply_queue: &mut ReplyQueue)
        ensures silent { reply_queue.new ≡ reply_queue_of [] }
        ensures state { self.new ≡ record self.old { gathered = None } }
    {
        reply_queue.clear();
        self.gathered = None;
    }

    // Plays the lines of an entry, and notes who keeps stays.
    fn take_lines(&mut self, entry: &[u8], reply_queue: &mut ReplyQueue) -> Result<(), ApplyFault>
        requires { self.old.blind ≡ false }
        ensures { OnOk result (TakesLines self.old entry.now reply_queue.new self.new) }
    {
        let _ = self.gathered.take();
        self.halls.apply(entry, reply_queue)?;
        note_changes(&mut self.changes, reply_queue.notes());
        match self.keeping.learn(&token_of(entry), reply_queue.notes()) {
            Ok(()) => Ok(()),
            Err(_) => Err(ApplyFault::Memory),
        }
    }

    // Takes an entry of lines, if anything is known.
    fn take_if_known(
        &mut self,
        entry: &[u8],
        reply_queue: &mut ReplyQueue,
    ) -> Result<(), ApplyFault>
        ensures { OnOk result (TakesIfKnown self.old.blind self.old entry.now reply_queue.new self.new) }
    {
        if self.blind {
            self.let_go(reply_queue);
            return Ok(());
        }
        self.take_lines(entry, reply_queue)
    }

    // Reads the entry with which a compaction begins.
    fn begin(&mut self, entry: &[u8], reply_queue: &mut ReplyQueue) -> Result<(), ApplyFault>
        ensures { OnOk result (ReadsPart (hall_of self.old.hall.config []) self.old entry.now reply_queue.new self.new) }
    {
        let mut part = Gathering::new(self.alloc, self.halls.hall().config(), entry)?;
        part.take(entry, reply_queue)?;
        self.gathered = Some(part);
        Ok(())
    }

    // Takes out what was read of a compaction, if an entry goes on with it.
    fn take_part(&mut self, entry: &[u8]) -> Option<Gathering>
        ensures part { result ≡ next_in self.old.gathered entry.now }
        ensures state { self.new ≡ record self.old { gathered = None } }
    {
        let part = self.gathered.take()?;
        if part.head == head_at(entry, BEFORE) {
            return Some(part);
        }
        None
    }

    // Reads an entry with which a compaction goes on.
    fn go_on(&mut self, entry: &[u8], reply_queue: &mut ReplyQueue) -> Result<(), ApplyFault>
        ensures { OnOk result (GoesOnFrom (next_in self.old.gathered entry.now) self.old entry.now reply_queue.new self.new) }
    {
        let Some(mut part) = self.take_part(entry) else {
            self.let_go(reply_queue);
            return Ok(());
        };
        part.take(entry, reply_queue)?;
        self.gathered = Some(part);
        Ok(())
    }

    // Returns true only if a compaction tells the same hall, the same stays and the same count.
    fn tells_the_same(&self, part: &Gathering, kept: &[FrontEndStay], entries: u64) -> bool
        ensures hall { result ≡ true → IsRetold self.now.hall part.now.halls }
        ensures kept { result ≡ true → kept.now ≡ self.now.kept }
        ensures entries { result ≡ true → entries ≡ self.now.entries }
    {
        if !is_retold(self.alloc, self.halls.hall(), part.halls.hall()) {
            return false;
        }
        if !are_same(kept, &self.keeping.kept) {
            return false;
        }
        self.keeping.entries == entries
    }

    // Returns true only if a compaction tells the same, or nothing is known with which to compare it.
    fn agrees(&self, part: &Gathering, kept: &[FrontEndStay], entries: u64) -> bool
        ensures hall { result ≡ true → self.now.blind ≡ false → IsRetold self.now.hall part.now.halls }
        ensures kept { result ≡ true → self.now.blind ≡ false → kept.now ≡ self.now.kept }
        ensures entries { result ≡ true → self.now.blind ≡ false → entries ≡ self.now.entries }
    {
        if self.blind {
            return true;
        }
        self.tells_the_same(part, kept, entries)
    }

    // Has all be what a compaction tells, which is the same where anything was known.
    fn end_with(&mut self, part: Gathering, entry: &[u8]) -> Result<(), ApplyFault>
        ensures state { OnOk result (self.new ≡ told_by part entry.now) }
        ensures same { OnOk result (self.old.blind ≡ false → TellsTheSame self.old self.new) }
    {
        let kept = kept_in(self.alloc, entry)?;
        let entries = entries_in(entry)?;
        if !self.agrees(&part, &kept, entries) {
            self.differs = true;
            return Err(ApplyFault::Damaged);
        }
        let Gathering { halls, head: _ } = part;
        self.halls = halls;
        self.keeping = Keeping { kept, entries };
        self.compacted = entries;
        self.gathered = None;
        self.blind = false;
        self.compactions = self.compactions.saturating_add(1);
        Ok(())
    }

    // Reads the entry with which a compaction ends.
    fn end(&mut self, entry: &[u8], reply_queue: &mut ReplyQueue) -> Result<(), ApplyFault>
        ensures { OnOk result (EndsFrom (next_in self.old.gathered entry.now) self.old entry.now reply_queue.new self.new) }
    {
        let Some(mut part) = self.take_part(entry) else {
            self.let_go(reply_queue);
            return Ok(());
        };
        part.take(entry, reply_queue)?;
        self.end_with(part, entry)
    }

    // Applies an entry.
    fn take_entry(&mut self, entry: &[u8], reply_queue: &mut ReplyQueue) -> Result<(), ApplyFault>
        ensures { OnOk result (StayApplies self.old entry.now reply_queue.new self.new) }
    {
        self.note_terms(entry);
        match mark_of(entry) {
            Mark::Ordinary => self.take_if_known(entry, reply_queue),
            Mark::Begins => self.begin(entry, reply_queue),
            Mark::GoesOn => self.go_on(entry, reply_queue),
            Mark::Ends => self.end(entry, reply_queue),
        }
    }
}

impl Machine for StayMachine {
    ghost use Rattle.std.specs.Prelude.{◌≡◌, []};
    ghost use Rattle.service_follow.specs.Said.{reply_queue_of};
    ghost use Rattle.service_follow.specs.Stays.{StayApplies};

    type Replies = ReplyQueue;

    ghost applies = { StayApplies };

    ghost silent = { λ reply_queue. reply_queue ≡ reply_queue_of [] };

    fn apply(&mut self, entry: &[u8], reply_queue: &mut ReplyQueue) -> Result<(), ApplyFault> {
        self.take_entry(entry, reply_queue)
    }

    fn forget(reply_queue: &mut ReplyQueue) {
        reply_queue.clear();
    }
}
