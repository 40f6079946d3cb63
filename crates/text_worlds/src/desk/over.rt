//! A desk over places of one kind.

ghost use Rattle.std.specs.Prelude.{◌≡◌, ◌≤◌, ◌⊎◌, ◌↔◌, IfOk, IfErr, Err, false, replicate};
ghost use Rattle.model_pool.specs.Pool.{fresh_pool};
ghost use Rattle.text_worlds.specs.desk.Desk.{owner_over};
ghost use Rattle.text_worlds.specs.desk.DeskRules.{fresh_over, rules_over, refusal_over};
ghost use Rattle.text_worlds.specs.desk.Coming.{next_over};
ghost use Rattle.text_worlds.specs.desk.Start.{pool_start};
ghost use Rattle.model_asked.specs.Replies.{with_view};
ghost use Rattle.text_worlds.specs.desk.Rules.{may_by};
ghost use Rattle.model_asked.specs.Config.{is_played_over};
ghost use Rattle.model_snapshot.specs.SnapWorld.{place_in};
ghost use Rattle.model_renaming.specs.RenameWorld.{name_in};

use crate::desk::outcomes::{of_probe, of_seek, of_step};
use model_asked::{Config, Event, Reply};
use model_pool::Pool;
use model_pool::slots::Slots;
use model_renaming::{RenamePlaces, RenameWorld};
use model_snapshot::{Known, Places};
use model_steps::{Access, NoMemory, Place, Refusal, StepProgram, View};
use std::alloc::Allocator;
use std::marker::Model;

/// A renaming world over these places, and slots over a pool.
#[derive(Drop)]
pub(crate) struct DeskOver<W: RenamePlaces<A>, A: Allocator> {
    names: RenameWorld<W, A>,
    pub(crate) slots: Slots<u64, A>,
}

impl<W: RenamePlaces<A>, A: Allocator> Model for DeskOver<W, A> {
    ghost use Rattle.text_worlds.specs.desk.DeskState.{DeskState};

    ghost Value = { DeskState W W.Walker W.Walk };

    ghost view = { λ d. record { names = d.names; slots = d.slots } };
}

/// Slots over a pool of `size` numbers, which may get `most`. Each holds 0. The pool is made last, so that a failed allocation drops
/// the values alone.
fn zero_slots<A: Allocator + Clone>(
    alloc: &A,
    most: u64,
    size: u64,
) -> Result<Slots<u64, A>, Refusal>
    requires some { 1 ≤ size }
    requires few { (size ≤ most) × (most ≤ 65536) }
    ensures made { IfOk result (λ s. s ≡ record { pool = fresh_pool (record { most = most; size = size }); values = replicate size 0 }) }
    ensures no_memory { IfErr result (λ why. why ≡ Refusal.NoMemory) }
{
    let values = Vec::from_elem(alloc.clone()?, 0u64, size as usize)?;
    match Pool::new(alloc.clone()?, most, size) {
        Ok(pool) => match Slots::new(pool, values) {
            Ok(slots) => Ok(slots),
            Err(NoMemory) => Err(Refusal::NoMemory),
        },
        Err(refusal) => Err(refusal),
    }
}

impl<W: RenamePlaces<A> + Drop, A: Allocator + Clone> DeskOver<W, A>
where
    W::Walker: Copy,
    W::Walk: Copy,
    W::Value: Drop,
{
    /// Makes a desk of this configuration, on which nothing was done; each slot holds 0.
    ///
    /// `OutOfRange` if the places are not those of the configuration's world, then `NoMemory` if an allocation failed.
    pub(crate) fn new(alloc: A, config: Config) -> Result<Self, Refusal>
        ensures fresh { IfOk result (λ d. d ≡ fresh_over (W.empty_for config.m) config.m config.limit (pool_start config)) }
        ensures out_of_range { result ≡ Err Refusal.OutOfRange ↔ (is_played_over config.world W.world ≡ false) }
        ensures only { IfErr result (λ why. (why ≡ Refusal.NoMemory) ⊎ (why ≡ Refusal.OutOfRange)) }
    {
        if !config.world.is_played_over(W::world()) {
            return Err(Refusal::OutOfRange);
        }
        let Ok(slots) = zero_slots(&alloc, config.world.most_numbers(), config.k) else {
            return Err(Refusal::NoMemory);
        };
        match RenameWorld::new(alloc, config) {
            Ok(names) => Ok(DeskOver { names, slots }),
            Err(why) => Err(why),
        }
    }
}

impl<W: RenamePlaces<A>, A: Allocator> DeskOver<W, A> {
    /// Returns the name of a participant, or `None` if it has none.
    pub(crate) fn name_of(&self, id: u64) -> Option<u64>
        ensures { result ≡ name_in self.now.names id }
    {
        self.names.name_of(id)
    }

    /// Returns the refusal of an event, failed allocations aside, or `None`.
    pub(crate) fn refusal(&self, event: Event) -> Option<Refusal>
        ensures { result ≡ refusal_over self.now event }
    {
        let pool = self.slots.pool();
        match event {
            Event::Begin(id) => self.names.begin_refusal(id),
            Event::Step(id) => self.names.step_refusal(id),
            Event::Enter(id) => pool.enter_refusal(id),
            Event::Probe(id) | Event::Seek(id) => pool.probe_refusal(id),
            Event::Leave(id) | Event::Put(id, _) | Event::Get(id) => pool.number_of(id).err(),
            Event::Widen(size) => pool.widen_refusal(size),
        }
    }

    /// Returns the memory, for observers.
    pub(crate) fn places(&self) -> &W
        ensures { result.now ≡ self.now.names.snap.memory }
    {
        self.names.snap().places()
    }

    /// Returns the place of a participant, or `None` if it has none.
    pub(crate) fn place_of(&self, id: u64) -> Option<Place>
        ensures { result ≡ place_in ⟦<W as Known>⟧.places self.now.names.snap id }
    {
        self.names.snap().place_of(id)
    }

    /// Returns the identity that has a name, or a refusal if the number is out of range.
    pub(crate) fn owner(&self, number: u64) -> Reply<View>
        ensures { result ≡ owner_over self.now number }
    {
        if number == 0 || 2 * self.names.most() <= number {
            return Reply::Refused(Refusal::OutOfRange);
        }
        Reply::Owner(self.names.owner_of(number))
    }
}

impl<W: RenamePlaces<A> + Drop, A: Allocator> DeskOver<W, A>
where
    W::Walker: Copy,
    W::Walk: Copy,
    W::Value: Drop,
{
    /// Takes one event, makes at most one access, and returns the reply, whose view it puts into `view`.
    #[inline(always)]
    pub(crate) fn apply_short(&mut self, event: Event, view: &mut View) -> Reply<()>
        ensures { may_by (rules_over ⟦<W as Known>⟧.places) self.old event (with_view result view.new) self.new }
    {
        match event {
            Event::Begin(id) => Reply::of_done(self.names.begin(id)),
            Event::Step(id) => of_step(self.names.step_short(id, view)),
            Event::Enter(id) => Reply::of_done(self.slots.enter(id)),
            Event::Probe(id) => of_probe(self.slots.probe(id)),
            Event::Seek(id) => of_seek(self.slots.seek(id)),
            Event::Leave(id) => Reply::of_leave(self.slots.leave(id)),
            Event::Put(id, value) => Reply::of_done(self.slots.put(id, value)),
            Event::Get(id) => Reply::of_value(self.slots.get(id).copied()),
            Event::Widen(size) => Reply::of_done(self.slots.widen(size, 0)),
        }
    }

    /// Returns the access that a participant makes next, or `None` if the identity has not begun.
    pub(crate) fn next_access(&self, id: u64) -> Option<Access<W::Reg, W::Value>>
        ensures { result ≡ next_over ⟦<W as Known>⟧.places self.now id }
    {
        match self.names.snap().client(id) {
            Some(client) => Some(client.next()),
            None => None,
        }
    }
}
