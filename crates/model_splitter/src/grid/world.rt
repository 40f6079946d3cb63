//! A world whose participants walk through one grid.

ghost use Rattle.std.specs.Prelude.{◌≡◌, ℕ, ◌+◌, ◌*◌, [], IfOk, IfErr, IsOk, OnErr, Err, ◌≤◌, ◌<◌, ◌⊎◌, ◌↔◌};
ghost use Rattle.model_splitter.specs.grid.Laws.{StaysAlike};
ghost use Rattle.model_splitter.specs.grid.Door.{IsDoorWithin};
ghost use Rattle.model_splitter.specs.grid.Entered.{WasEntered, ShowsWhatWasEntered, entered_count};
ghost use Rattle.model_splitter.specs.grid.Machine.{GridState, fresh, grid, step_reply, world_after_step, place_in};
ghost use Rattle.model_splitter.specs.grid.Walk.{walk_of, walker_steps};
ghost use Rattle.model_steps.specs.Calls.{outcome_in, outcome_of, begun_in, reply_of};
ghost use Rattle.model_steps.specs.Calls.Call.{Began, Stepped};
ghost use Rattle.model_steps.specs.declared.refusal.Refusal.{Refusal};
ghost use Rattle.model_steps.specs.Locality.{ChangesOnly, Indistinguishable};
ghost use Rattle.model_steps.specs.Machine.{Reaches, OnEveryHistory, SatisfiesSpec, Extends, RefusesWhereDue};
ghost use Rattle.model_steps.specs.Registers.{memory_steps};
ghost use Rattle.model_steps.specs.World.{after_begin, begin_refusal, done_unless};

use crate::grid::door::Door;
use crate::grid::walker::Walker;
use model_steps::{Memory, Note, Place, Refusal, World};
use std::alloc::Allocator;
use std::marker::Model;

/// Participants that walk through one grid, each to a place of its own.
#[derive(Drop)]
pub struct GridWorld<A: Allocator> {
    world: World<Walker, Memory<u64, A>, A>,
    doors: usize,
}

impl<A: Allocator> Model for GridWorld<A> {
    ghost use Rattle.std.specs.Prelude.{◌≡◌, ◌≤◌};
    ghost use Rattle.model_splitter.specs.grid.Machine.{GridState, doors_for};

    ghost Value = { GridState };

    ghost view = { λ w. w.world };

    ghost invariant = { λ w. (w.world.most ≤ 16) × (w.doors ≡ doors_for w.world.most) };
}

impl<A: Allocator + Clone> GridWorld<A> {
    /// Makes a grid that no participant has entered, for at most `most` participants. No other call allocates.
    ///
    /// # Errors
    ///
    /// - `OutOfRange`: `most` is not from 1 to 16.
    /// - `NoMemory`: an allocation failed.
    #[tactic(auto, using(crate::proofs::cited::grid::GridTied::grid_contracts))]
    pub fn new(alloc: A, most: usize) -> Result<Self, Refusal>
        ensures fresh { IfOk result (λ w. w ≡ fresh most) }
        ensures after { IfOk result (λ w. Reaches grid most w []) }
        ensures law { IfOk result (λ w. SatisfiesSpec grid w) }
        ensures range { IsOk result → (1 ≤ most) × (most ≤ 16) }
        ensures out_of_range { result ≡ Err Refusal.OutOfRange ↔ ((most < 1) ⊎ (16 < most)) }
        ensures only { IfErr result (λ r. (r ≡ Refusal.NoMemory) ⊎ (r ≡ Refusal.OutOfRange)) }
    {
        if most < 1 || 16 < most {
            return Err(Refusal::OutOfRange);
        }
        open(alloc, most)
    }

    /// Adds participant `id`, whose walk is at the corner and has made no access.
    ///
    /// # Errors
    ///
    /// An error changes nothing. The first that applies is returned:
    ///
    /// - `ZeroIdentity`: `id` is 0.
    /// - `AlreadyBegun`: `id` has begun.
    /// - `Full`: as many participants as the world takes have begun.
    #[tactic(auto, using(crate::proofs::cited::grid::GridTied::grid_contracts))]
    pub fn begin(&mut self, id: u64) -> Result<(), Refusal>
        ensures answer { result ≡ done_unless (begin_refusal self.old id) }
        ensures state { self.new ≡ after_begin self.old id (walk_of id) }
        ensures unchanged_on_error { OnErr result (self.new ≡ self.old) }

        // The specification, over every history that leads to this world.
        ensures after { Extends grid self.old self.new (Began id result) }
        ensures law { SatisfiesSpec grid self.new }
        ensures due { RefusesWhereDue grid self.new }
    {
        self.world.begin(id, Walker::new(id, Door::corner()))
    }

    /// Makes one step of the walk of `id`: one access. Returns the place if the walk ends with it.
    ///
    /// # Errors
    ///
    /// An error changes nothing. The first that applies is returned:
    ///
    /// - `NotBegun`: `id` has not begun.
    /// - `Finished`: the walk of `id` has ended.
    ///
    /// # Steps
    ///
    /// A walk makes at most `4b`, where `b` participants have begun (Moir and Anderson 1995).
    #[tactic(auto, using(crate::proofs::cited::grid::GridTied::grid_contracts))]
    pub fn step(&mut self, id: u64) -> Result<Option<Place>, Refusal>
        ensures answer { result ≡ step_reply self.old id }
        ensures state { self.new ≡ world_after_step self.old id }
        ensures unchanged_on_error { OnErr result (self.new ≡ self.old) }

        // Nothing of the world changes except this walk and the register that it names. In another world that this walk
        // cannot distinguish, the reply and the new walk are the same.
        ensures local { ChangesOnly walker_steps memory_steps id self.old self.new }
        ensures alike { (other : GridState) → Indistinguishable walker_steps memory_steps id self.old other → result ≡ step_reply other id }
        ensures stands_alike { StaysAlike self.old self.new id }

        // The specification, over every history that leads to this world.
        ensures after { Extends grid self.old self.new (Stepped id result) }
        ensures law { SatisfiesSpec grid self.new }
        ensures due { RefusesWhereDue grid self.new }
    {
        self.world.step(id).map(Note::outcome)
    }

    /// Returns the place of a participant, as `step` returned it, or `None` if its walk has not ended.
    pub fn place_of(&self, id: u64) -> Option<Place>
        ensures value { result ≡ place_in self.now id }
        ensures answered { OnEveryHistory grid (λ most r. result ≡ outcome_of id r) self.now }
    {
        self.world.program(id)?.place()
    }

    /// Returns the number of doors to which a participant has made an access: at most `b(b + 1)/2`, where `b` have
    /// begun.
    ///
    /// This makes no access: it is for observers.
    pub fn doors_entered(&self) -> u64
        ensures count { result ≡ entered_count self.now }

        // Over every history that leads to this world: the doors counted are those that were entered. Where b participants
        // have begun, all of these doors are on the first b diagonals.
        ensures entered { ShowsWhatWasEntered self.now }
        ensures within { OnEveryHistory grid (λ most r. (k : ℕ) → WasEntered most r k → IsDoorWithin (begun_in r) k) self.now }
        ensures few { OnEveryHistory grid (λ most r. 2 * result ≤ begun_in r * (begun_in r + 1)) self.now }
    {
        let memory = self.world.memory();
        let mut entered = 0;
        for k in 0..self.doors {
            if memory.value(2 * k) != 0 {
                entered += 1;
            }
        }
        entered
    }
}

/// A grid that no participant has entered; `NoMemory` if an allocation failed.
fn open<A: Allocator + Clone>(alloc: A, most: usize) -> Result<GridWorld<A>, Refusal>
    requires { most ≤ 16 }
    ensures fresh { IfOk result (λ w. w ≡ fresh most) }
    ensures only { IfErr result (λ r. r ≡ Refusal.NoMemory) }
{
    let registers = most * (most + 1);
    let memory = Memory::new(alloc.clone()?, 0, registers, 0)?;
    let world = World::new(alloc, memory, most)?;
    Ok(GridWorld {
        world,
        doors: registers / 2,
    })
}
