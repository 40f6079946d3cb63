//! A world whose participants walk down one tree, store values at their places, and collect them.

ghost use Rattle.std.specs.Prelude.{◌≡◌, ◌≢◌, [], IfOk, IfErr, IsOk, Err, OnErr, Some, true, ◌≤◌, ◌<◌, ◌⊎◌, ◌↔◌, option_and_then};
ghost use Rattle.model_splitter.specs.tree.WorldLaws.{AnswersPlaceAlike, StaysAlikeOnWay, StaysAlikeCollecting};
ghost use Rattle.model_splitter.specs.tree.Client.{client_steps, is_collecting, is_idle, is_placing};
ghost use Rattle.model_splitter.specs.tree.TreeCalls.TreeCall.{Began, Stepped, Stored, CollectBegan, CollectStepped};
ghost use Rattle.model_splitter.specs.tree.TreeSteps.{tree_steps, empty_tree};
ghost use Rattle.model_splitter.specs.tree.TreeWorld.{after_tree_begin, asking_refusal, refusal_unless, place_answer, after_placing, may_lack_memory, after_store, after_collect_begin, view_answer, after_collecting, ChangesOnlyStore};
ghost use Rattle.model_splitter.specs.tree.PlacesLaw.{way_calls};
ghost use Rattle.model_splitter.specs.tree.Machine.{HasLawfulNodes, TreeWorldState, fresh_over, tree};
ghost use Rattle.model_steps.specs.Machine.{Reaches, OnEveryHistory, SatisfiesSpec, Extends, RefusesWhereDue};
ghost use Rattle.model_splitter.specs.tree.Walk.{place_of};
ghost use Rattle.model_steps.specs.Calls.{outcome_of};
ghost use Rattle.model_steps.specs.Locality.{ChangesOnly, Indistinguishable};
ghost use Rattle.model_steps.specs.Participant.{program_of};
ghost use Rattle.model_steps.specs.World.{begin_refusal, done_unless};

use crate::tree::Tree;
use crate::tree::client::{Client, place_reported, view_reported};
use model_steps::{Place, Refusal, View, World};
use std::alloc::Allocator;
use std::marker::Model;

/// Participants that walk down one tree, each to a place of its own, store values there, and collect what all have
/// stored.
#[derive(Drop)]
pub struct TreeWorld<A: Allocator> {
    world: World<Client, Tree<A>, A>,
}

impl<A: Allocator> Model for TreeWorld<A> {
    ghost use Rattle.model_splitter.specs.tree.Machine.{TreeWorldState};
    ghost use Rattle.model_splitter.specs.contracts.tree.client.Client as client;
    ghost use Rattle.model_splitter.specs.contracts.tree.node_registers.NodeRegisters as registers;
    ghost use Rattle.std.specs.Coded.{coded_ℕ};
    ghost use Rattle.std.specs.FinMap as map;
    ghost use Rattle.model_steps.specs.WorldCode.{world_code};

    ghost Value = { TreeWorldState };

    ghost coded = { world_code (map.code coded_ℕ registers.the_row.coded) client.the_row.coded };

    ghost view = { λ w. w.world };
}

impl<A: Allocator + Clone> TreeWorld<A> {
    /// Makes a tree with no node, for at most `most` participants, and allocates room for the participants.
    ///
    /// # Errors
    ///
    /// - `OutOfRange`: `most` is not from 1 to 64.
    /// - `NoMemory`: an allocation failed.
    #[tactic(auto, using(crate::proofs::tree_lemmas::TreeProved::tree_contracts))]
    pub fn new(alloc: A, most: usize) -> Result<Self, Refusal>
        ensures fresh { IfOk result (λ w. w ≡ fresh_over tree_steps (empty_tree, most)) }
        ensures after { IfOk result (λ w. Reaches tree (empty_tree, most) w []) }
        ensures law { IfOk result (λ w. SatisfiesSpec tree w) }
        ensures range { IsOk result → (1 ≤ most) × (most ≤ 64) }
        ensures out_of_range { result ≡ Err Refusal.OutOfRange ↔ ((most < 1) ⊎ (64 < most)) }
        ensures only { IfErr result (λ r. (r ≡ Refusal.NoMemory) ⊎ (r ≡ Refusal.OutOfRange)) }
    {
        if most < 1 || 64 < most {
            return Err(Refusal::OutOfRange);
        }
        let tree = Tree::new(alloc.clone()?);
        let world = World::new(alloc, tree, most)?;
        Ok(TreeWorld { world })
    }

    /// Adds participant `id`, whose walk has made no access.
    ///
    /// # Errors
    ///
    /// An error changes nothing. The first that applies is returned:
    ///
    /// - `ZeroIdentity`: `id` is 0.
    /// - `AlreadyBegun`: `id` has begun.
    /// - `Full`: as many participants as the world takes have begun.
    #[tactic(auto, using(crate::proofs::tree_lemmas::TreeProved::tree_contracts))]
    pub fn begin(&mut self, id: u64) -> Result<(), Refusal>
        ensures answer { result ≡ done_unless (begin_refusal self.old id) }
        ensures state { self.new ≡ after_tree_begin self.old id }
        ensures unchanged_on_error { OnErr result (self.new ≡ self.old) }
        ensures after { Extends tree self.old self.new (Began id result) }

        // The specification, over every history that leads to this world.
        ensures law { SatisfiesSpec tree self.new }
        ensures due { RefusesWhereDue tree self.new }
        ensures nodes { HasLawfulNodes self.new }
    {
        self.world.begin(id, Client::new(id))
    }

    /// Makes one step of the walk of `id`: one access. Returns the place if the walk ends with it.
    ///
    /// # Errors
    ///
    /// An error changes nothing. The first that applies is returned:
    ///
    /// - `NotBegun`: `id` has not begun.
    /// - `Finished`: `id` has its place.
    /// - `NoMemory`: the step makes a node and the allocation failed. The caller may repeat the step.
    ///
    /// # Steps
    ///
    /// A walk makes at most `5b`, where `b` participants have begun.
    #[tactic(auto, using(crate::proofs::tree_lemmas::TreeProved::tree_contracts))]
    pub fn step(&mut self, id: u64) -> Result<Option<Place>, Refusal>
        ensures answer { result ≢ Err Refusal.NoMemory → result ≡ place_answer tree_steps self.old id }
        ensures state { result ≢ Err Refusal.NoMemory → self.new ≡ after_placing tree_steps self.old id }
        ensures unchanged_on_error { OnErr result (self.new ≡ self.old) }
        ensures no_memory { result ≡ Err Refusal.NoMemory → may_lack_memory tree_steps self.old id ≡ true }
        ensures after { Extends tree self.old self.new (Stepped id result) }
        ensures law { SatisfiesSpec tree self.new }
        ensures due { RefusesWhereDue tree self.new }
        ensures nodes { HasLawfulNodes self.new }

        // Nothing of the world changes except this participant and the register that it names. In another world that this
        // participant cannot distinguish, the reply and the new participant are the same.
        ensures local { ChangesOnly client_steps tree_steps id self.old self.new }
        ensures alike { result ≢ Err Refusal.NoMemory → AnswersPlaceAlike self.old id result }
        ensures stands_alike { result ≢ Err Refusal.NoMemory → StaysAlikeOnWay self.old self.new id }
    {
        self.placing_client(id)?;
        match self.world.step(id) {
            Ok(note) => Ok(place_reported(&note)),
            Err(refusal) => Err(refusal),
        }
    }

    /// Returns the client of `id`, which is on its way to its place.
    fn placing_client(&self, id: u64) -> Result<Client, Refusal>
        ensures fits { IfOk result (λ c. (program_of id self.now.participants ≡ Some c) × (is_placing c.task ≡ true)) }
        ensures refused { IfErr result (λ why. refusal_unless is_placing Refusal.Finished (program_of id self.now.participants) ≡ Some why) }
    {
        match self.world.program(id) {
            Some(client) if client.is_placing() => Ok(*client),
            Some(_) => Err(Refusal::Finished),
            None => Err(Refusal::NotBegun),
        }
    }

    /// Stores a value at the place of `id`, by one write.
    ///
    /// # Errors
    ///
    /// An error changes nothing. The first that applies is returned:
    ///
    /// - `NotBegun`: `id` has not begun.
    /// - `AlreadyBegun`: `id` has no place yet, or a collect of it is under way.
    #[tactic(auto, using(crate::proofs::tree_lemmas::TreeProved::tree_contracts))]
    pub fn store(&mut self, id: u64, value: u64) -> Result<(), Refusal>
        ensures answer { result ≡ done_unless (asking_refusal self.old id) }
        ensures state { self.new ≡ after_store tree_steps self.old id value }
        ensures unchanged_on_error { OnErr result (self.new ≡ self.old) }
        ensures after { Extends tree self.old self.new (Stored id value result) }

        // The specification, over every history that leads to this world.
        ensures law { SatisfiesSpec tree self.new }
        ensures due { RefusesWhereDue tree self.new }

        // Nothing of the world changes except this participant and the segment at its place.
        ensures local { ChangesOnlyStore tree_steps id self.old self.new }
    {
        let client = self.idle_client(id)?.storing(value);
        // This succeeds, since the identity has begun.
        let _ = self.world.set(id, client);
        match self.world.step(id) {
            Ok(_) => Ok(()),
            Err(refusal) => Err(refusal),
        }
    }

    /// Begins a collect of `id`, which the next calls of `collect_step` make. This call makes no access.
    ///
    /// # Errors
    ///
    /// An error changes nothing. The first that applies is returned:
    ///
    /// - `NotBegun`: `id` has not begun.
    /// - `AlreadyBegun`: `id` has no place yet, or a collect of it is under way.
    #[tactic(auto, using(crate::proofs::tree_lemmas::TreeProved::tree_contracts))]
    pub fn collect_begin(&mut self, id: u64) -> Result<(), Refusal>
        ensures answer { result ≡ done_unless (asking_refusal self.old id) }
        ensures state { self.new ≡ after_collect_begin self.old id }
        ensures unchanged_on_error { OnErr result (self.new ≡ self.old) }
        ensures after { Extends tree self.old self.new (CollectBegan id result) }
        ensures law { SatisfiesSpec tree self.new }
        ensures due { RefusesWhereDue tree self.new }
    {
        let client = self.idle_client(id)?.collecting();
        self.world.set(id, client)
    }

    /// Returns the client of `id`, which has its place and nothing to do.
    fn idle_client(&self, id: u64) -> Result<Client, Refusal>
        ensures fits { IfOk result (λ c. (program_of id self.now.participants ≡ Some c) × (is_idle c.task ≡ true)) }
        ensures refused { IfErr result (λ why. refusal_unless is_idle Refusal.AlreadyBegun (program_of id self.now.participants) ≡ Some why) }
    {
        match self.world.program(id) {
            Some(client) if client.is_idle() => Ok(*client),
            Some(_) => Err(Refusal::AlreadyBegun),
            None => Err(Refusal::NotBegun),
        }
    }

    /// Returns the client of `id`, a collect of which is under way.
    fn collecting_client(&self, id: u64) -> Result<Client, Refusal>
        ensures fits { IfOk result (λ c. (program_of id self.now.participants ≡ Some c) × (is_collecting c.task ≡ true)) }
        ensures refused { IfErr result (λ why. refusal_unless is_collecting Refusal.Finished (program_of id self.now.participants) ≡ Some why) }
    {
        match self.world.program(id) {
            Some(client) if client.is_collecting() => Ok(*client),
            Some(_) => Err(Refusal::Finished),
            None => Err(Refusal::NotBegun),
        }
    }

    /// Makes one step of the collect of `id`: one read. Returns the view if the collect ends with it.
    ///
    /// For each identity the view has a value that was its last stored one at some time of the collect. It has every
    /// identity that had stored before the collect began.
    ///
    /// # Errors
    ///
    /// An error changes nothing. The first that applies is returned:
    ///
    /// - `NotBegun`: `id` has not begun.
    /// - `Finished`: no collect of `id` is under way.
    ///
    /// # Steps
    ///
    /// A collect makes at most `6b - 2`, where `b` participants have begun.
    #[tactic(auto, using(crate::proofs::tree_lemmas::TreeProved::tree_contracts))]
    pub fn collect_step(&mut self, id: u64) -> Result<Option<View>, Refusal>
        ensures answer { result ≡ view_answer tree_steps self.old id }
        ensures state { self.new ≡ after_collecting tree_steps self.old id }
        ensures unchanged_on_error { OnErr result (self.new ≡ self.old) }
        ensures after { Extends tree self.old self.new (CollectStepped id result) }
        ensures law { SatisfiesSpec tree self.new }
        ensures due { RefusesWhereDue tree self.new }
        ensures local { ChangesOnly client_steps tree_steps id self.old self.new }
        ensures alike { (other : TreeWorldState) → Indistinguishable client_steps tree_steps id self.old other → result ≡ view_answer tree_steps other id }
        ensures stands_alike { StaysAlikeCollecting self.old self.new id }
    {
        self.collecting_client(id)?;
        match self.world.step(id) {
            Ok(note) => Ok(view_reported(&note)),
            Err(refusal) => Err(refusal),
        }
    }

    /// Returns the place of a participant, as `step` returned it, or `None` if it has none.
    pub fn place_of(&self, id: u64) -> Option<Place>
        ensures value { result ≡ option_and_then (λ c. place_of c.walker) (program_of id self.now.participants) }
        ensures answered { OnEveryHistory tree (λ first r. result ≡ outcome_of id (way_calls r)) self.now }
    {
        self.world.program(id)?.walker.place()
    }

    /// Returns the tree, for observers.
    pub fn tree(&self) -> &Tree<A>
        ensures { result.now ≡ self.now.memory }
    {
        self.world.memory()
    }
}
