//! A hall that follows a log.

ghost use Rattle.std.specs.Prelude.{◌≡◌, ◌<◌, ◌≤◌, ◌+◌, ◌⊎◌, ◌↔◌, true, false, Ok, Err, OnOk, OnErr, IfErr, IfOk, []};
ghost use Rattle.model_asked.specs.Config.{gives_names};
ghost use Rattle.service_log.specs.Places.{Adds, Contradicts, Keeps, Same};
ghost use Rattle.service_log.specs.Replicas.{IsDueFrom};
ghost use Rattle.service_log.specs.declared.replica.Step.TheVariants.{Answered};
ghost use Rattle.service_log.specs.declared.serve_fault.Cause.TheVariants.{Busy};
ghost use Rattle.service_log.specs.declared.serve_fault.ServeFault.TheVariants.{Unknown};
ghost use Rattle.service_follow.specs.Decided.{HasRead};
ghost use Rattle.service_follow.specs.Hosted.{AddsWhereApplied, HasAppliedAll, HasMovedOn, IsAtEnd};
ghost use Rattle.service_follow.specs.Said.{reply_queue_of};
ghost use Rattle.service_follow.specs.Stays.{StayApplies, hall_part, since_compaction, start_of, under_way};

use crate::front_end_stay::FrontEndStay;
use crate::hall_terms::ToldTerms;
use crate::reply_queue::ReplyQueue;
use crate::stay_machine::StayMachine;
use model_asked::Config;
use model_steps::Refusal;
use service_hall::Hall;
use service_log::{Cause, Replica, ServeFault, Step, Store, StoreFault, law_of_following};
use service_loop::Feed;
use std::alloc::Global;
use std::marker::Model;

/// A hall of a config that follows a log: from a hall with no event it was led by the entries that stand in the log, each once, in their
/// order, up to its place. If it started at a later place than the first, it was led by those from there on (`StayMachine`).
#[derive(Drop)]
pub struct LogHall<S: Store> {
    replica: Replica<StayMachine>,
    store: S,
    config: Config,
    /// The place from which on entries were applied.
    from: u64,
}

impl<S: Store> Model for LogHall<S> {
    ghost use Rattle.service_follow.specs.FollowState.{FollowState};

    ghost Value = { FollowState S };

    ghost use Rattle.service_log.specs.Replicas.{IsReplicaFrom};
    ghost use Rattle.service_follow.specs.Stays.{StayApplies, hall_part, start_of};

    ghost view = { λ l. record { replica = hall_part l.replica; stays = l.replica; store = l.store; config = l.config; from = l.from } };

    ghost invariant = { λ l. IsReplicaFrom StayApplies (S.stands l.store) l.from (start_of l.config l.from) l.replica };
}

// Makes the machine with which a hall starts at a place of a log.
#[tactic(auto, using(crate::proofs::Moves::start_first, crate::proofs::Moves::start_later))]
fn machine_at(alloc: Global, config: Config, place: u64) -> Result<StayMachine, Refusal>
    ensures { IfOk result (λ m. m ≡ start_of config place) }
{
    if place == 0 {
        let machine = StayMachine::new(alloc, config)?;
        return Ok(machine);
    }
    let machine = StayMachine::blind(alloc, config)?;
    Ok(machine)
}

// Has a store begin with this line, where nothing stands in it, and reads the line with which it begins; tells whether there is one.
fn begins_with<S: Store>(
    store: &mut S,
    line: &[u8],
    entry: &mut Vec<u8>,
) -> Result<bool, StoreFault>
    ensures begins { result ≡ Ok true → S.stands store.new 0 entry.new.items }
    ensures keeps { Keeps (S.stands store.old) (S.stands store.new) }
{
    store.put(0, line)?;
    store.get(0, entry)
}

impl<S: Store + Drop> LogHall<S> {
    /// A hall of this config, to which no entry was applied.
    ///
    /// # Errors
    ///
    /// Those of `HallMachine::new`.
    pub fn new(alloc: Global, store: S, config: Config) -> Result<LogHall<S>, Refusal>
        ensures opened { IfOk result (λ l. l.config ≡ config) }
        ensures out_of_range { result ≡ Err Refusal.OutOfRange ↔ (gives_names config.world ≡ false) }
        ensures only { IfErr result (λ why. (why ≡ Refusal.NoMemory) ⊎ (why ≡ Refusal.OutOfRange)) }
    {
        let machine = StayMachine::new(alloc, config)?;
        Ok(LogHall {
            replica: Replica::new(alloc, machine),
            store,
            config,
            from: 0,
        })
    }
}

impl<S: Store> LogHall<S> {
    /// The hall.
    pub fn hall(&self) -> &Hall
        ensures hall { result.now ≡ self.now.replica.machine }
        ensures part { result.now ≡ self.now.stays.machine.hall }
    {
        self.replica.machine().hall()
    }

    /// The stays in its pool, each with the front end that keeps it.
    pub fn kept(&self) -> &[FrontEndStay]
        ensures { result.now ≡ self.now.stays.machine.kept }
    {
        self.replica.machine().kept()
    }

    /// How many entries were applied.
    pub fn place(&self) -> u64
        ensures { result ≡ self.now.replica.place }
    {
        self.replica.place()
    }

    /// What the hall was opened for.
    pub(crate) fn config(&self) -> Config
        ensures { result ≡ self.now.config }
    {
        self.config
    }

    /// Whether nothing is known of the hall, since it started at a later place than the first and has read no compaction whole.
    pub fn is_blind(&self) -> bool
        ensures { result ≡ self.now.stays.machine.blind }
    {
        self.replica.machine().is_blind()
    }

    /// How many entries were applied, those of compactions aside, in 64 bits.
    pub(crate) fn entries(&self) -> u64
        ensures { result ≡ self.now.stays.machine.entries }
    {
        self.replica.machine().entries()
    }

    /// Returns how many entries were applied since the compaction that was read last, or from the first one on.
    pub(crate) fn entries_since_compaction(&self) -> u64
        ensures { result ≡ since_compaction self.now.stays.machine }
    {
        self.replica.machine().entries_since_compaction()
    }

    /// Returns the token and the count of the entry that was read last, if it is one of a compaction that goes on.
    pub(crate) fn under_way(&self) -> Option<[u8; 49]>
        ensures { result ≡ under_way self.now.stays.machine.gathered }
    {
        self.replica.machine().under_way()
    }

    /// Whether a compaction told another hall than the entries before it. Not proved.
    pub(crate) fn differs(&self) -> bool {
        self.replica.machine().differs()
    }

    /// Returns how many compactions were read to their end since it started. Not proved.
    pub(crate) fn compactions(&self) -> u64 {
        self.replica.machine().compactions()
    }

    /// Returns what the entries changed of who holds numbers. Not proved.
    pub(crate) fn changes(&self) -> &Feed {
        self.replica.machine().changes()
    }

    /// Returns the terms of the hall, as the entry told that told some last. Not proved.
    pub(crate) fn terms(&self) -> Option<ToldTerms> {
        self.replica.machine().terms()
    }

    /// Starts at a place of the log, with nothing applied: from the first with a hall with no event, and from a later one
    /// with a blind machine.
    ///
    /// # Errors
    ///
    /// Those of `StayMachine::new`. Nothing has changed.
    pub(crate) fn start_at(&mut self, alloc: Global, place: u64) -> Result<(), Refusal>
        ensures from { OnOk result (self.new.from ≡ place) }
        ensures same { (self.new.store ≡ self.old.store) × (self.new.config ≡ self.old.config) }
    {
        let machine = machine_at(alloc, self.config, place)?;
        self.replica = Replica::at(alloc, machine, place);
        self.from = place;
        Ok(())
    }

    /// Returns the place that is noted in the store, or `None` if there is none or the store did not answer. It is a hint
    /// alone.
    pub(crate) fn hint(&mut self) -> Option<u64>
        ensures moved { HasMovedOn S.stands self.old self.new }
        ensures same { Same (S.stands self.old.store) (S.stands self.new.store) }
    {
        law_of_following::<StayMachine, S>();
        self.store.hint().unwrap_or_default()
    }

    /// Notes a place in the store, if it answers.
    pub(crate) fn put_hint(&mut self, place: u64)
        ensures moved { HasMovedOn S.stands self.old self.new }
        ensures same { Same (S.stands self.old.store) (S.stands self.new.store) }
    {
        law_of_following::<StayMachine, S>();
        let _ = self.store.put_hint(place);
    }

    /// Returns the place below which entries were given up, as the store tells, or 0 if none were or it did not answer. It is a
    /// hint alone.
    pub(crate) fn trimmed(&mut self) -> u64
        ensures moved { HasMovedOn S.stands self.old self.new }
        ensures same { Same (S.stands self.old.store) (S.stands self.new.store) }
    {
        law_of_following::<StayMachine, S>();
        self.store.trimmed().unwrap_or(0)
    }

    /// Gives up some of the entries below a place, but never the first (`Store::trim`). Returns true if more are to be given
    /// up. If the store does not answer, the rest is left.
    pub(crate) fn trim(&mut self, place: u64) -> bool
        ensures moved { HasMovedOn S.stands self.old self.new }
        ensures same { Same (S.stands self.old.store) (S.stands self.new.store) }
    {
        law_of_following::<StayMachine, S>();
        self.store.trim(place) == Ok(false)
    }

    /// Has the log begin with this line, where nothing stands in it, and reads the line with which it begins; tells whether there is one.
    ///
    /// # Errors
    ///
    /// The store's own fault. The line may stand in the log.
    pub fn begin(&mut self, line: &[u8], entry: &mut Vec<u8>) -> Result<bool, StoreFault>
        ensures begins { result ≡ Ok true → S.stands self.new.store 0 entry.new.items }
        ensures same { (self.new.replica ≡ self.old.replica) × (self.new.config ≡ self.old.config) × (self.new.from ≡ self.old.from) }
    {
        law_of_following::<StayMachine, S>();
        begins_with(&mut self.store, line, entry)
    }

    /// Has a batch come to stand in the log, applies all that stands before it and then it, and puts the answers on the queue of replies
    /// (`Replica::serve`).
    ///
    /// # Errors
    ///
    /// Those of `Replica::serve`. The queue of replies is empty.
    pub fn serve(&mut self, batch: &[u8], reply_queue: &mut ReplyQueue) -> Result<(), ServeFault>
        ensures due { OnOk result (IsDueFrom StayApplies (S.stands self.new.store) self.new.from (start_of self.new.config self.new.from) batch.now
            reply_queue.new self.new.stays) }
        ensures at_last { OnOk result ((self.old.replica.poisoned ≡ false) × (self.old.replica.place < self.new.replica.place)) }
        ensures unanswered { OnErr result (reply_queue.new ≡ reply_queue_of []) }
        ensures busy { result ≡ Err (Unknown Busy) → (self.old.replica.place + 333333 ≤ self.new.replica.place) ⊎ Contradicts S.stands S.lacks }
        ensures moved { HasMovedOn S.stands self.old self.new }
        ensures part { self.new.replica ≡ hall_part self.new.stays }
    {
        law_of_following::<StayMachine, S>();
        self.replica.serve(&mut self.store, batch, reply_queue)
    }

    /// Applies what stands in the log, up to so many entries; tells how many they were (`Replica::catch_up`).
    ///
    /// # Errors
    ///
    /// Those of `Replica::catch_up`.
    pub fn catch_up(&mut self, most: u64, reply_queue: &mut ReplyQueue) -> Result<u64, Cause>
        ensures unanswered { reply_queue.new ≡ reply_queue_of [] }
        ensures moved { HasMovedOn S.stands self.old self.new }
        ensures count { IfOk result (λ n. self.new.replica.place ≡ self.old.replica.place + n) }
        ensures stopped { IfOk result (λ n. n < most → IsAtEnd (S.lacks self.new.store) self.new.replica.place) }
    {
        law_of_following::<StayMachine, S>();
        self.replica.catch_up(&mut self.store, most, reply_queue)
    }

    /// Applies what stands in the log, up to so many entries; tells whether all was read that stands.
    pub(crate) fn read(&mut self, most: u64, reply_queue: &mut ReplyQueue) -> Result<bool, Cause>
        ensures read { result ≡ Ok true → HasRead S.lacks (S.stands self.old.store) self.new.config self.new.stays }
        ensures all { result ≡ Ok true → HasAppliedAll S.stands S.lacks self.new }
        ensures moved { HasMovedOn S.stands self.old self.new }
        ensures unanswered { reply_queue.new ≡ reply_queue_of [] }
        ensures same { Same (S.stands self.old.store) (S.stands self.new.store) }
    {
        law_of_following::<StayMachine, S>();
        let passed = self.replica.catch_up(&mut self.store, most, reply_queue)?;
        if passed < most {
            return Ok(true);
        }
        Ok(false)
    }

    /// Offers a batch for the next place, and for no other (`Replica::step`).
    pub(crate) fn offer(
        &mut self,
        batch: &[u8],
        reply_queue: &mut ReplyQueue,
    ) -> Result<Step, Cause>
        ensures adds { Adds (S.stands self.old.store) self.old.stays.place batch.now (S.stands self.new.store) }
        ensures placed { AddsWhereApplied S.stands self.old self.new batch.now }
        ensures moved { HasMovedOn S.stands self.old self.new }
        ensures stood { result ≡ Ok Answered → S.stands self.new.store self.old.stays.place batch.now }
    {
        law_of_following::<StayMachine, S>();
        self.replica.step(&mut self.store, batch, reply_queue)
    }
}
