//! A snapshot object, taken step by step.

ghost use Rattle.std.specs.Prelude.{◌≡◌, ◌≢◌, [], IfOk, IfSome, OnErr, Err, Ok, None, true, false};
ghost use Rattle.std.specs.Option.{option_copied};
ghost use Rattle.model_steps.specs.Locality.{ChangesOnly};
ghost use Rattle.model_steps.specs.Participant.{program_of};
ghost use Rattle.model_steps.specs.Taken.{reported_in};
ghost use Rattle.model_steps.specs.World.{begin_refusal, done_unless};
ghost use Rattle.model_snapshot.specs.SnapWorld.{place_in, after_snap_begin, scan_refusal, update_refusal, after_scan, after_update, clients_over, snap_answer, after_snap_step, may_lack_memory, IsOnWay, AnswersAlike, StaysAlike, reported_of_way};
ghost use Rattle.model_snapshot.specs.Machine.{snapshot, MakesOwnAccess, HasDistinctPlaces, KeepsReported};
ghost use Rattle.model_snapshot.specs.SnapCalls.{fresh_over};
ghost use Rattle.model_steps.specs.Machine.{Reaches, SatisfiesSpec, Extends};
ghost use Rattle.model_snapshot.specs.SnapCalls.SnapCall.{Began, Updated, Scanned, Stepped};

use crate::{Client, Known, MOST_UPDATES, OnWay, PlaceWalker, Places, SnapReply, ToScan, ToUpdate};
use model_steps::{NoMemory, Note, Place, Refusal, World};
use std::alloc::Allocator;
use std::marker::Model;

/// A snapshot object over places, whose participants update and scan step by step (Afek et al. 1993).
#[derive(Drop)]
pub struct SnapWorld<W: Places, A: Allocator> {
    world: World<Client<W::Walker, W::Walk>, W, A>,
}

impl<W: Places, A: Allocator> Model for SnapWorld<W, A> {
    ghost use Rattle.model_steps.specs.WorldState.{WorldState};
    ghost use Rattle.model_snapshot.specs.declared.client.Client.{Client};

    ghost Value = { WorldState W (Client W.Walker W.Walk) };

    ghost view = { λ w. w.world };
}

impl<W: Places, A: Allocator> SnapWorld<W, A> {
    /// Returns the most participants.
    pub fn most(&self) -> usize
        ensures { result ≡ self.now.most }
    {
        self.world.most()
    }

    /// Returns the error that `begin` would return, or `None` if it would succeed.
    pub fn begin_refusal(&self, id: u64) -> Option<Refusal>
        ensures { result ≡ begin_refusal self.now id }
    {
        self.world.begin_refusal(id)
    }

    /// Returns the place of a participant, or `None` if it has not reached one or has not begun.
    pub fn place_of(&self, id: u64) -> Option<Place>
        ensures value { result ≡ place_in ⟦<W as Known>⟧.places self.now id }

        // No two participants have one place. If a step has returned a place, it is that one.
        ensures distinct { HasDistinctPlaces ⟦<W as Known>⟧.places self.now }
        ensures reported { KeepsReported ⟦<W as Known>⟧.places self.now id }
    {
        self.world.program(id)?.walker.place()
    }

    /// Returns a participant, for observers, or `None` if the identity has not begun. Its `next` is its next access.
    pub fn client(&self, id: u64) -> Option<&Client<W::Walker, W::Walk>>
        ensures { option_copied result ≡ program_of id self.now.participants }
    {
        self.world.program(id)
    }

    /// Returns the places with their segments, for observers.
    pub fn places(&self) -> &W
        ensures { result.now ≡ self.now.memory }
    {
        self.world.memory()
    }
}

impl<W: Places + Drop, A: Allocator> SnapWorld<W, A>
where
    W::Walker: Copy,
    W::Walk: Copy,
    W::Value: Drop,
{
    /// Makes a snapshot object over these places, in which no participant has begun.
    ///
    /// # Errors
    ///
    /// `NoMemory`: the allocation of room for the participants failed.
    pub fn new(alloc: A, places: W) -> Result<Self, Refusal>
        ensures fresh { IfOk result (λ w. w ≡ fresh_over ⟦<W as Known>⟧.places places) }
        ensures after { IfOk result (λ w. Reaches (snapshot ⟦<W as Known>⟧.places) places w []) }
        ensures law { IfOk result (λ w. SatisfiesSpec (snapshot ⟦<W as Known>⟧.places) w) }
        ensures no_memory { OnErr result (result ≡ Err Refusal.NoMemory) }
    {
        let most = places.most();
        Ok(SnapWorld {
            world: World::new(alloc, places, most)?,
        })
    }

    /// Adds participant `id`, at the start of its way to a place. This makes no access.
    ///
    /// # Errors
    ///
    /// An error changes nothing. The first that applies is returned:
    ///
    /// - `ZeroIdentity`: `id` is 0.
    /// - `AlreadyBegun`: `id` has begun.
    /// - `Full`: as many participants as the object takes have begun.
    pub fn begin(&mut self, id: u64) -> Result<(), Refusal>
        ensures answer { result ≡ done_unless (begin_refusal self.old id) }
        ensures state { self.new ≡ after_snap_begin ⟦<W as Known>⟧.places self.old id }
        ensures unchanged_on_error { OnErr result (self.new ≡ self.old) }
        ensures no_access { self.new.memory ≡ self.old.memory }
        ensures after { Extends (snapshot ⟦<W as Known>⟧.places) self.old self.new (Began id result) }
        ensures law { SatisfiesSpec (snapshot ⟦<W as Known>⟧.places) self.new }
    {
        let begun = self.world.participants().len();
        let places = self.world.memory();
        let client = Client::new(id, places.walker(begun, id), places.walk());
        self.world.begin(id, client)
    }

    /// Asks for an update of the segment of `id` with `value`, which the next steps make. This makes no access.
    ///
    /// # Errors
    ///
    /// An error changes nothing. The first that applies is returned:
    ///
    /// - `NotBegun`: `id` has not begun.
    /// - `AlreadyBegun`: an operation of `id`, or its way to a place, is pending.
    /// - `Spent`: `id` was asked for 1,000,000 updates.
    pub fn update(&mut self, id: u64, value: u64) -> Result<(), Refusal>
        ensures answer { result ≡ done_unless (update_refusal self.old id) }
        ensures state { self.new ≡ after_update self.old id value }
        ensures unchanged_on_error { OnErr result (self.new ≡ self.old) }
        ensures no_access { self.new.memory ≡ self.old.memory }
        ensures after { Extends (snapshot ⟦<W as Known>⟧.places) self.old self.new (Updated id value result) }
        ensures law { SatisfiesSpec (snapshot ⟦<W as Known>⟧.places) self.new }
    {
        let Some(client) = self.world.program(id) else {
            return Err(Refusal::NotBegun);
        };
        if !client.is_idle() {
            return Err(Refusal::AlreadyBegun);
        }
        if MOST_UPDATES <= client.updates {
            return Err(Refusal::Spent);
        }
        self.world.ask(id, ToUpdate { value })
    }

    /// Asks for a scan of `id`, which the next steps make. This makes no access.
    ///
    /// # Errors
    ///
    /// An error changes nothing. The first that applies is returned:
    ///
    /// - `NotBegun`: `id` has not begun.
    /// - `AlreadyBegun`: an operation of `id`, or its way to a place, is pending.
    pub fn scan(&mut self, id: u64) -> Result<(), Refusal>
        ensures answer { result ≡ done_unless (scan_refusal self.old id) }
        ensures state { self.new ≡ after_scan self.old id }
        ensures unchanged_on_error { OnErr result (self.new ≡ self.old) }
        ensures no_access { self.new.memory ≡ self.old.memory }
        ensures after { Extends (snapshot ⟦<W as Known>⟧.places) self.old self.new (Scanned id result) }
        ensures law { SatisfiesSpec (snapshot ⟦<W as Known>⟧.places) self.new }
    {
        let Some(client) = self.world.program(id) else {
            return Err(Refusal::NotBegun);
        };
        if !client.is_idle() {
            return Err(Refusal::AlreadyBegun);
        }
        self.world.ask(id, ToScan)
    }

    /// Makes the step of participant `id`, without a copy of the segment, if it is a read after which its scan goes on.
    ///
    /// Returns whether it did; the step's reply is then `Quiet`. If not, nothing has changed, and `step` makes the
    /// step.
    #[inline(always)]
    pub fn read_on(&mut self, id: u64) -> bool
        ensures answer { result ≡ true → snap_answer ⟦<W as Known>⟧.places self.old id ≡ Ok SnapReply.Quiet }
        ensures state { result ≡ true → self.new ≡ after_snap_step ⟦<W as Known>⟧.places self.old id }
        ensures kept { result ≡ false → self.new ≡ self.old }
        ensures local { result ≡ true → ChangesOnly (clients_over ⟦<W as Known>⟧.places) W.steps id self.old self.new }
        ensures after { result ≡ true → Extends (snapshot ⟦<W as Known>⟧.places) self.old self.new (Stepped id (Ok SnapReply.Quiet)) }
        ensures law { SatisfiesSpec (snapshot ⟦<W as Known>⟧.places) self.new }
    {
        self.world.read_on(id)
    }

    /// Makes the step of participant `id`, without a copy of a value, if it is one of its way to a place.
    ///
    /// Returns the note of that step, or `None` if it made none. Nothing has changed then, and `step` makes the step.
    ///
    /// # Errors
    ///
    /// `NoMemory`: the access needed memory and the allocation failed. Nothing has changed, and the caller may repeat
    /// the step.
    pub fn walk_on(&mut self, id: u64) -> Result<Option<Note<Place>>, NoMemory>
        ensures answer { IfSome (reported_in result) (λ note. snap_answer ⟦<W as Known>⟧.places self.old id ≡ Ok (reported_of_way note)) }
        ensures state { IfSome (reported_in result) (λ _. self.new ≡ after_snap_step ⟦<W as Known>⟧.places self.old id) }
        ensures kept { reported_in result ≡ None → self.new ≡ self.old }
        ensures no_memory { OnErr result (may_lack_memory ⟦<W as Known>⟧.places self.old id ≡ true) }
        ensures local { IfSome (reported_in result) (λ _. ChangesOnly (clients_over ⟦<W as Known>⟧.places) W.steps id self.old self.new) }
        ensures after { IfSome (reported_in result) (λ note. Extends (snapshot ⟦<W as Known>⟧.places) self.old self.new (Stepped id (Ok (reported_of_way note)))) }
        ensures law { SatisfiesSpec (snapshot ⟦<W as Known>⟧.places) self.new }
    {
        self.world.take::<OnWay>(id)
    }

    /// Makes any other step. It is a function of its own, so that a read of a scan that goes on has no room of a
    /// segment to clear.
    #[inline(never)]
    fn take_step(&mut self, id: u64) -> Result<SnapReply, Refusal>
        ensures answer { result ≢ Err Refusal.NoMemory → result ≡ snap_answer ⟦<W as Known>⟧.places self.old id }
        ensures state { result ≢ Err Refusal.NoMemory → self.new ≡ after_snap_step ⟦<W as Known>⟧.places self.old id }
        ensures unchanged_on_error { OnErr result (self.new ≡ self.old) }
        ensures no_memory { result ≡ Err Refusal.NoMemory → may_lack_memory ⟦<W as Known>⟧.places self.old id ≡ true }
        ensures local { ChangesOnly (clients_over ⟦<W as Known>⟧.places) W.steps id self.old self.new }
        ensures alike { result ≢ Err Refusal.NoMemory → AnswersAlike ⟦<W as Known>⟧.places self.old id result }
    {
        let Some(client) = self.world.program(id) else {
            return Err(Refusal::NotBegun);
        };
        if client.is_idle() {
            return Err(Refusal::Finished);
        }
        match self.world.step(id) {
            Ok(note) => Ok(SnapReply::of_step(note)),
            Err(refusal) => Err(refusal),
        }
    }

    /// Makes one step of participant `id`: one access. Returns what the step completed.
    ///
    /// # Errors
    ///
    /// An error changes nothing. The first that applies is returned:
    ///
    /// - `NotBegun`: `id` has not begun.
    /// - `Finished`: nothing of `id` is pending.
    /// - `NoMemory`: the step is on the way to a place, and an allocation failed. The caller may repeat the step.
    ///
    /// # Steps
    ///
    /// Let b have begun, and a walk over the segments make at most r reads. A scan takes at most (b + 1)r steps, each a
    /// read. An update takes at most one step more, its write. A solo run takes fewer (`law_of_steps_alone`).
    #[inline(always)]
    pub fn step(&mut self, id: u64) -> Result<SnapReply, Refusal>
        ensures answer { result ≢ Err Refusal.NoMemory → result ≡ snap_answer ⟦<W as Known>⟧.places self.old id }
        ensures state { result ≢ Err Refusal.NoMemory → self.new ≡ after_snap_step ⟦<W as Known>⟧.places self.old id }
        ensures unchanged_on_error { OnErr result (self.new ≡ self.old) }
        ensures on_way { result ≡ Err Refusal.NoMemory → IsOnWay ⟦<W as Known>⟧.places self.old id }
        ensures no_memory { result ≡ Err Refusal.NoMemory → may_lack_memory ⟦<W as Known>⟧.places self.old id ≡ true }
        ensures after { Extends (snapshot ⟦<W as Known>⟧.places) self.old self.new (Stepped id result) }
        ensures law { SatisfiesSpec (snapshot ⟦<W as Known>⟧.places) self.new }

        // Nothing of the object changes except this participant and the register that it names. In another object that
        // this participant cannot distinguish, the reply and its new state are the same.
        //
        // Its access is one for what is pending. On the way to a place it is a read, a write or none, and changes no
        // segment. In a scan it is a read, and at the end of an update the write of its own segment.
        ensures local { ChangesOnly (clients_over ⟦<W as Known>⟧.places) W.steps id self.old self.new }
        ensures alike { result ≢ Err Refusal.NoMemory → AnswersAlike ⟦<W as Known>⟧.places self.old id result }
        ensures stands_alike { result ≢ Err Refusal.NoMemory → StaysAlike ⟦<W as Known>⟧.places self.old self.new id }
        ensures own { MakesOwnAccess ⟦<W as Known>⟧.places self.old id }
    {
        if self.read_on(id) {
            return Ok(SnapReply::Quiet);
        }
        if let Some(note) = self.walk_on(id)? {
            return Ok(SnapReply::of_way(note));
        }
        self.take_step(id)
    }
}
