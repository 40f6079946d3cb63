//! A renaming world, taken step by step.

ghost use Rattle.std.specs.Prelude.{◌≡◌, ◌≢◌, ◌<◌, ◌≤◌, ◌⊎◌, ◌↔◌, [], length, vec_capacity, IfOk, IfErr, OnErr, Some, None, Err, false};
ghost use Rattle.model_steps.specs.Participant.{AreDistinct, index_of, program_of};
ghost use Rattle.model_steps.specs.World.{begin_refusal, done_unless};
ghost use Rattle.model_steps.specs.Calls.Call.{Began, Stepped};
ghost use Rattle.model_asked.specs.Config.{is_played_over, most_in};
ghost use Rattle.model_renaming.specs.Locality.{ChangesOnly};
ghost use Rattle.model_renaming.specs.Machine.{renaming, IsFresh, MakesOwnAccess, IsName, IsOwnerOf, IsLastMoment};
ghost use Rattle.model_steps.specs.Machine.{Reaches, SatisfiesSpec, Extends};
ghost use Rattle.model_renaming.specs.Round.{standing_by};
ghost use Rattle.model_renaming.specs.Reply.{outcome_with};
ghost use Rattle.model_renaming.specs.RenameWorld.{fresh_world, step_refusal, refusal_by, name_in, name_by, owner_by, shown_with, shown_by, after_rename_begin, rename_answer, after_rename_step, LacksMemory};

use crate::places::RenamePlaces;
use crate::reply::Reply;
use crate::round::{Round, Wish};
use crate::step::{ask, take};
use model_asked::Config;
use model_snapshot::{Known, SnapWorld};
use model_steps::{Hints, Participant, Refusal, View};
use std::alloc::{AllocError, Allocator};
use std::marker::Model;

/// Participants that get names in `1..=2b - 1` by rounds of proposals, where `b` have begun (Attiya et al. 1990).
#[derive(Drop)]
pub struct RenameWorld<W: RenamePlaces<A>, A: Allocator> {
    snap: SnapWorld<W, A>,
    rounds: Vec<Participant<Round>, A>,
    hints: Hints,
    limit: u64,
}

impl<W: RenamePlaces<A>, A: Allocator> Model for RenameWorld<W, A> {
    ghost use Rattle.std.specs.Prelude.{vec_capacity};
    ghost use Rattle.model_renaming.specs.RenameState.{RenameState, HasRoom};

    ghost Value = { RenameState W W.Walker W.Walk };

    ghost view = { λ w. record { snap = w.snap; rounds = w.rounds.items; limit = w.limit } };

    ghost invariant = { λ w. HasRoom (vec_capacity w.rounds) w.snap w.rounds.items };
}

/// Puts the proposal of a participant into a view, if it has made one.
fn show(view: &mut View, participant: &Participant<Round>)
    requires { length view.old < 64 }
    ensures { view.new ≡ shown_with view.old participant.now.identity (standing_by participant.now.program) }
{
    if let Some(number) = participant.program.standing() {
        view.insert(participant.identity, number);
    }
}

/// Returns the index of the round of `id` if it may take a step, or the error of the step, failed allocations aside.
#[inline(always)]
fn open_round(hints: &Hints, rounds: &[Participant<Round>], id: u64) -> Result<usize, Refusal>
    requires { AreDistinct rounds.now }
    ensures ready { IfOk result (λ i. (Some i ≡ index_of id rounds.now) × (refusal_by (program_of id rounds.now) ≡ None)) }
    ensures inside { IfOk result (λ i. i < length rounds.now) }
    ensures closed { IfErr result (λ why. refusal_by (program_of id rounds.now) ≡ Some why) }
{
    let Some(i) = hints.find(rounds, id) else {
        return Err(Refusal::NotBegun);
    };
    match rounds[i].program.stage.refusal() {
        None => Ok(i),
        Some(refusal) => Err(refusal),
    }
}

/// Returns the name that the round of an identity has ended with.
fn name_among(hints: &Hints, rounds: &[Participant<Round>], id: u64) -> Option<u64>
    requires { AreDistinct rounds.now }
    ensures { result ≡ name_by (program_of id rounds.now) }
{
    let Some(i) = hints.find(rounds, id) else {
        return None;
    };
    rounds[i].program.name()
}

/// Returns the identity whose round has ended with this name.
fn owner_among(rounds: &[Participant<Round>], number: u64) -> Option<u64>
    ensures { result ≡ owner_by number rounds.now }
{
    for participant in rounds {
        if participant.program.has_name(number) {
            return Some(participant.identity);
        }
    }
    None
}

/// Returns the proposals that are in the memory, by the rounds.
fn proposals_among(rounds: &[Participant<Round>]) -> View
    requires { length rounds.now ≤ 64 }
    ensures { result ≡ shown_by [] rounds.now }
{
    let mut view = View::new();
    for participant in rounds {
        show(&mut view, participant);
    }
    view
}

/// A vector with room for this many rounds.
fn room_for<A: Allocator + Clone>(
    alloc: &A,
    most: usize,
) -> Result<Vec<Participant<Round>, A>, AllocError>
    ensures none { IfOk result (λ v. v.items ≡ []) }
    ensures room { IfOk result (λ v. most ≤ vec_capacity v) }
{
    match alloc.clone() {
        Ok(other) => Vec::with_capacity(other, most),
        Err(error) => Err(error),
    }
}

impl<W: RenamePlaces<A>, A: Allocator> RenameWorld<W, A> {
    /// Returns the snapshot object, for observers.
    pub fn snap(&self) -> &SnapWorld<W, A>
        ensures { result.now ≡ self.now.snap }
    {
        &self.snap
    }

    /// Returns the error that `step` would return, failed allocations aside, or `None`.
    pub fn step_refusal(&self, id: u64) -> Option<Refusal>
        ensures { result ≡ step_refusal self.now id }
    {
        open_round(&self.hints, &self.rounds, id).err()
    }

    /// Returns the name of a participant, or `None` if it has none.
    pub fn name_of(&self, id: u64) -> Option<u64>
        ensures value { result ≡ name_in self.now id }

        // It is the name that the replies gave to the identity.
        ensures law { IsName ⟦<W as Known>⟧.places W.world self.now id result }
    {
        name_among(&self.hints, &self.rounds, id)
    }

    /// Returns the identity that has this name, or `None` if no identity has it.
    pub fn owner_of(&self, number: u64) -> Option<u64>
        ensures value { result ≡ owner_by number self.now.rounds }

        // It is the identity to which the replies gave the name.
        ensures law { IsOwnerOf ⟦<W as Known>⟧.places W.world self.now number result }
    {
        owner_among(&self.rounds, number)
    }

    /// Returns the proposal of each identity that has proposed, by rising identity: the present state of the memory.
    pub fn proposals(&self) -> View
        ensures value { result ≡ shown_by [] self.now.rounds }

        // It is the last moment of the history.
        ensures law { IsLastMoment ⟦<W as Known>⟧.places W.world self.now result }
    {
        proposals_among(&self.rounds)
    }

    /// Returns the most participants: at most 64, as many as a view has room for.
    pub fn most(&self) -> u64
        ensures value { result ≡ self.now.snap.most }
        ensures few { result ≤ 64 }
    {
        self.snap.most() as u64
    }

    /// Returns the error that `begin` would return, or `None` if it would succeed.
    pub fn begin_refusal(&self, id: u64) -> Option<Refusal>
        ensures { result ≡ begin_refusal self.now.snap id }
    {
        self.snap.begin_refusal(id)
    }
}

impl<W: RenamePlaces<A> + Drop, A: Allocator> RenameWorld<W, A>
where
    W::Walker: Copy,
    W::Walk: Copy,
    W::Value: Drop,
{
    /// Makes a step, and takes its reply.
    #[inline(always)]
    fn take_step(&mut self, id: u64, view: &mut View) -> Result<Reply<()>, Refusal>
        ensures answer { result ≢ Err Refusal.NoMemory → outcome_with result view.new ≡ rename_answer ⟦<W as Known>⟧.places self.old id }
        ensures state { result ≢ Err Refusal.NoMemory → self.new ≡ after_rename_step ⟦<W as Known>⟧.places self.old id }
        ensures unchanged_on_error { OnErr result (self.new ≡ self.old) }
        ensures no_memory { result ≡ Err Refusal.NoMemory → LacksMemory ⟦<W as Known>⟧.places self.old id }
    {
        match open_round(&self.hints, &self.rounds, id) {
            Ok(at) => take(&mut self.snap, &mut self.rounds[at], self.limit, view),
            Err(refusal) => Err(refusal),
        }
    }

    /// Makes one step of participant `id`: one access to the shared memory.
    ///
    /// Returns what the step completed: `Quiet` (nothing yet), `Placed`, `Proposed`, `Saw` (another participant
    /// proposes the same number), `Named`, or `Spent` (the round limit is reached).
    ///
    /// # Errors
    ///
    /// An error changes nothing. The first that applies is returned:
    ///
    /// - `NotBegun`: `id` has not begun.
    /// - `Finished`: `id` has a name.
    /// - `Spent`: `id` has used up its proposals.
    /// - `NoMemory`: the step makes a node of a tree and the allocation failed. The caller may repeat the step.
    ///
    /// # Steps
    ///
    /// At most `placing(b)` to the place, `scanning(b) + 1` for each proposal, `scanning(b)` for each scan
    /// (`specs/Pace.antt`).
    pub fn step(&mut self, id: u64) -> Result<Reply<View>, Refusal>
        ensures answer { result ≢ Err Refusal.NoMemory → result ≡ rename_answer ⟦<W as Known>⟧.places self.old id }
        ensures state { result ≢ Err Refusal.NoMemory → self.new ≡ after_rename_step ⟦<W as Known>⟧.places self.old id }
        ensures unchanged_on_error { OnErr result (self.new ≡ self.old) }
        ensures no_memory { result ≡ Err Refusal.NoMemory → LacksMemory ⟦<W as Known>⟧.places self.old id }

        // The specification, over every history that leads to this world.
        ensures after { Extends (renaming ⟦<W as Known>⟧.places W.world) self.old self.new (Stepped id result) }
        ensures law { SatisfiesSpec (renaming ⟦<W as Known>⟧.places W.world) self.new }

        // The reply and the new own state are functions of the own state and of the answer, and nothing else changes.
        // After every history the access is one of the participant's stage. On its way to a place it is a read, a write or
        // none, and changes no segment. In a scan it is a read, and at the end of an update the write of its own segment.
        ensures local { ChangesOnly ⟦<W as Known>⟧.places id self.old self.new result }
        ensures own { MakesOwnAccess ⟦<W as Known>⟧.places W.world self.old id }
    {
        let mut view = View::new();
        let outcome = self.step_short(id, &mut view);
        Reply::with_in(outcome, &view)
    }

    /// Makes one step as `step` does, and returns a reply of a few bytes. If the reply has a view, the view is put into
    /// `view`.
    ///
    /// # Errors
    ///
    /// Those of `step`, in that order.
    #[inline(always)]
    pub fn step_short(&mut self, id: u64, view: &mut View) -> Result<Reply<()>, Refusal>
        ensures answer { result ≢ Err Refusal.NoMemory → outcome_with result view.new ≡ rename_answer ⟦<W as Known>⟧.places self.old id }
        ensures state { result ≢ Err Refusal.NoMemory → self.new ≡ after_rename_step ⟦<W as Known>⟧.places self.old id }
        ensures unchanged_on_error { OnErr result (self.new ≡ self.old) }
        ensures no_memory { result ≡ Err Refusal.NoMemory → LacksMemory ⟦<W as Known>⟧.places self.old id }
        ensures after { Extends (renaming ⟦<W as Known>⟧.places W.world) self.old self.new (Stepped id (outcome_with result view.new)) }
        ensures law { SatisfiesSpec (renaming ⟦<W as Known>⟧.places W.world) self.new }
        ensures local { ChangesOnly ⟦<W as Known>⟧.places id self.old self.new (outcome_with result view.new) }
        ensures own { MakesOwnAccess ⟦<W as Known>⟧.places W.world self.old id }
    {
        self.take_step(id, view)
    }

    /// Adds a participant, and begins what it can do at once.
    fn take_begin(&mut self, id: u64) -> Result<(), Refusal>
        ensures answer { result ≡ done_unless (begin_refusal self.old.snap id) }
        ensures state { self.new ≡ after_rename_begin ⟦<W as Known>⟧.places self.old id }
        ensures no_access { self.new.snap.memory ≡ self.old.snap.memory }
    {
        self.snap.begin(id)?;
        let placed = self.snap.place_of(id).is_some();
        ask(&mut self.snap, id, Wish::first(placed));
        self.hints.note(id, self.rounds.len());
        self.rounds.push_reserved(Participant {
            identity: id,
            program: Round::first(placed),
            ended: false,
        });
        Ok(())
    }

    /// Adds participant `id`. This makes no access.
    ///
    /// # Errors
    ///
    /// An error changes nothing. The first that applies is returned:
    ///
    /// - `ZeroIdentity`: `id` is 0.
    /// - `AlreadyBegun`: `id` has begun.
    /// - `Full`: as many participants as the world takes have begun.
    pub fn begin(&mut self, id: u64) -> Result<(), Refusal>
        ensures answer { result ≡ done_unless (begin_refusal self.old.snap id) }
        ensures state { self.new ≡ after_rename_begin ⟦<W as Known>⟧.places self.old id }
        ensures no_access { self.new.snap.memory ≡ self.old.snap.memory }

        // The specification, over every history that leads to this world.
        ensures after { Extends (renaming ⟦<W as Known>⟧.places W.world) self.old self.new (Began id result) }
        ensures law { SatisfiesSpec (renaming ⟦<W as Known>⟧.places W.world) self.new }
    {
        self.take_begin(id)
    }
}

impl<W: RenamePlaces<A> + Drop, A: Allocator + Clone> RenameWorld<W, A>
where
    W::Walker: Copy,
    W::Walk: Copy,
    W::Value: Drop,
{
    /// Makes a world in which no participant has begun. Over a grid and over segments in a row, no other call
    /// allocates. Over a tree, a step that makes a node does.
    ///
    /// # Errors
    ///
    /// The first that applies is returned:
    ///
    /// - `OutOfRange`: the world of `config` gives no names, or exactly one of it and these places is a tree.
    /// - `NoMemory`: an allocation failed.
    pub fn new(alloc: A, config: Config) -> Result<Self, Refusal>
        ensures made { IfOk result (λ w. w ≡ fresh_world (W.empty_for config.m) config.m config.limit) }
        ensures fresh { IfOk result (λ w. IsFresh ⟦<W as Known>⟧.places config.m config.limit w) }
        ensures out_of_range { result ≡ Err Refusal.OutOfRange ↔ (is_played_over config.world W.world ≡ false) }
        ensures only { IfErr result (λ why. (why ≡ Refusal.NoMemory) ⊎ (why ≡ Refusal.OutOfRange)) }
        ensures after { IfOk result (λ w. Reaches (renaming ⟦<W as Known>⟧.places W.world) (W.empty_for config.m, config.limit) w []) }
        ensures law { IfOk result (λ w. SatisfiesSpec (renaming ⟦<W as Known>⟧.places W.world) w) }
    {
        if !config.world.is_played_over(W::world()) {
            return Err(Refusal::OutOfRange);
        }
        Self::with_room(alloc, config.m as usize, config.limit)
    }

    /// A snapshot object over places for `most` participants, in which none has begun; `NoMemory` if an allocation
    /// failed.
    fn empty_snap(alloc: A, most: usize) -> Result<SnapWorld<W, A>, Refusal>
        requires some { 1 ≤ most }
        requires few { most ≤ most_in W.world }
        ensures made { IfOk result (λ s. s ≡ (fresh_world (W.empty_for most) most 0).snap) }
        ensures no_memory { IfErr result (λ why. why ≡ Refusal.NoMemory) }
    {
        let Ok(other) = alloc.clone() else {
            return Err(Refusal::NoMemory);
        };
        match W::empty(other, most) {
            Ok(places) => SnapWorld::new(alloc, places),
            Err(refusal) => Err(refusal),
        }
    }

    /// A world for `most` participants, in which none has begun; `NoMemory` if an allocation failed.
    fn with_room(alloc: A, most: usize, limit: u64) -> Result<Self, Refusal>
        requires some { 1 ≤ most }
        requires few { most ≤ most_in W.world }
        ensures made { IfOk result (λ w. w ≡ fresh_world (W.empty_for most) most limit) }
        ensures no_memory { IfErr result (λ why. why ≡ Refusal.NoMemory) }
    {
        let Ok(rounds) = room_for(&alloc, most) else {
            return Err(Refusal::NoMemory);
        };
        match Self::empty_snap(alloc, most) {
            Ok(snap) => Ok(RenameWorld {
                snap,
                rounds,
                hints: Hints::new(),
                limit,
            }),
            Err(refusal) => Err(refusal),
        }
    }
}
