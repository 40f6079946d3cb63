//! A world whose participants visit one splitter.

ghost use Rattle.std.specs.Prelude.{◌≡◌, [], IfOk, IfErr, IsOk, OnErr, Err, ◌≤◌, ◌<◌, ◌⊎◌, ◌↔◌};
ghost use Rattle.model_splitter.specs.Laws.{StaysAlike};
ghost use Rattle.model_splitter.specs.Machine.{SplitterState, fresh, splitter, visit_of, step_reply, world_after_step};
ghost use Rattle.model_splitter.specs.Visitor.{visitor_steps};
ghost use Rattle.model_steps.specs.Calls.Call.{Began, Stepped};
ghost use Rattle.model_steps.specs.Calls.{outcome_in, reply_of};
ghost use Rattle.model_steps.specs.Locality.{ChangesOnly, Indistinguishable};
ghost use Rattle.model_steps.specs.Machine.{Reaches, SatisfiesSpec, Extends, RefusesWhereDue};
ghost use Rattle.model_steps.specs.Registers.{memory_steps};
ghost use Rattle.model_steps.specs.World.{after_begin, begin_refusal, done_unless};

use crate::visitor::Visitor;
use crate::way::Way;
use model_steps::{Memory, Note, Refusal, World};
use std::alloc::Allocator;
use std::marker::Model;

/// Participants that visit one splitter, each once.
#[derive(Drop)]
pub struct SplitterWorld<A: Allocator> {
    world: World<Visitor<usize>, Memory<u64, A>, A>,
}

impl<A: Allocator> Model for SplitterWorld<A> {
    ghost use Rattle.model_splitter.specs.Machine.{SplitterState};

    ghost Value = { SplitterState };

    ghost view = { λ w. w.world };
}

impl<A: Allocator + Clone> SplitterWorld<A> {
    /// Makes a splitter that no participant has entered, for at most `most` participants. No other call allocates.
    ///
    /// # Errors
    ///
    /// - `OutOfRange`: `most` is not from 1 to 16.
    /// - `NoMemory`: an allocation failed.
    #[tactic(auto, using(crate::proofs::cited::SplitterTied::splitter_contracts))]
    pub fn new(alloc: A, most: usize) -> Result<Self, Refusal>
        ensures fresh { IfOk result (λ w. w ≡ fresh most) }
        ensures after { IfOk result (λ w. Reaches splitter most w []) }
        ensures law { IfOk result (λ w. SatisfiesSpec splitter w) }
        ensures range { IsOk result → (1 ≤ most) × (most ≤ 16) }
        ensures out_of_range { result ≡ Err Refusal.OutOfRange ↔ ((most < 1) ⊎ (16 < most)) }
        ensures only { IfErr result (λ r. (r ≡ Refusal.NoMemory) ⊎ (r ≡ Refusal.OutOfRange)) }
    {
        if most < 1 || 16 < most {
            return Err(Refusal::OutOfRange);
        }
        open(alloc, most)
    }

    /// Adds participant `id`, whose visit has made no access.
    ///
    /// # Errors
    ///
    /// An error changes nothing. The first that applies is returned:
    ///
    /// - `ZeroIdentity`: `id` is 0.
    /// - `AlreadyBegun`: `id` has begun.
    /// - `Full`: as many participants as the world takes have begun.
    #[tactic(auto, using(crate::proofs::cited::SplitterTied::splitter_contracts))]
    pub fn begin(&mut self, id: u64) -> Result<(), Refusal>
        ensures answer { result ≡ done_unless (begin_refusal self.old id) }
        ensures state { self.new ≡ after_begin self.old id (visit_of id) }
        ensures unchanged_on_error { OnErr result (self.new ≡ self.old) }

        // The specification, over every history that leads to this world.
        ensures after { Extends splitter self.old self.new (Began id result) }
        ensures law { SatisfiesSpec splitter self.new }
        ensures due { RefusesWhereDue splitter self.new }
    {
        self.world.begin(id, Visitor::new(id, 0, 1))
    }

    /// Makes one step of the visit of `id`: one access. Returns the way if the visit ends with it.
    ///
    /// # Errors
    ///
    /// An error changes nothing. The first that applies is returned:
    ///
    /// - `NotBegun`: `id` has not begun.
    /// - `Finished`: the visit of `id` has ended.
    ///
    /// # Steps
    ///
    /// A visit makes at most 4.
    #[tactic(auto, using(crate::proofs::cited::SplitterTied::splitter_contracts))]
    pub fn step(&mut self, id: u64) -> Result<Option<Way>, Refusal>
        ensures answer { result ≡ step_reply self.old id }
        ensures state { self.new ≡ world_after_step self.old id }
        ensures unchanged_on_error { OnErr result (self.new ≡ self.old) }

        // Nothing of the world changes except this visit and the register that it names. In another world that this visit
        // cannot distinguish, the reply and the new visit are the same.
        ensures local { ChangesOnly visitor_steps memory_steps id self.old self.new }
        ensures alike { (other : SplitterState) → Indistinguishable visitor_steps memory_steps id self.old other → result ≡ step_reply other id }
        ensures stands_alike { StaysAlike self.old self.new id }

        // The specification, over every history that leads to this world.
        ensures after { Extends splitter self.old self.new (Stepped id result) }
        ensures law { SatisfiesSpec splitter self.new }
        ensures due { RefusesWhereDue splitter self.new }
    {
        self.world.step(id).map(Note::outcome)
    }
}

/// A splitter that no participant has entered; `NoMemory` if an allocation failed.
fn open<A: Allocator + Clone>(alloc: A, most: usize) -> Result<SplitterWorld<A>, Refusal>
    ensures fresh { IfOk result (λ w. w ≡ fresh most) }
    ensures only { IfErr result (λ r. r ≡ Refusal.NoMemory) }
{
    let memory = Memory::new(alloc.clone()?, 0, 2, 0)?;
    let world = World::new(alloc, memory, most)?;
    Ok(SplitterWorld { world })
}
