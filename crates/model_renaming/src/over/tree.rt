//! Places in a tree that grows.

ghost use Rattle.std.specs.Prelude.{◌≡◌, ◌≤◌, ◌<◌, OnOk, OnErr, IfOk, IfSome, IsOk, Err, true};
ghost use Rattle.model_steps.specs.declared.access.Access.TheVariants.{Read};
ghost use Rattle.model_steps.specs.Steps.{answer_from};
ghost use Rattle.model_renaming.specs.over.Tree.{new_tree, register_in, tree_after, tree_refuses, tree_places_steps, tree_most, tree_walker, tree_walk};
ghost use Rattle.model_renaming.specs.over.TreeTies.{IsNewTree, tree_ties};
ghost use Rattle.model_renaming.specs.lemmas.over.TreeProofs.{tree_others_kept, tree_laws};

use crate::over::tree_walk::TreeWalk;
use crate::over::tree_walker::TreeWalker;
use model_snapshot::{PlaceWalker, Places, SegmentWalk};
use model_splitter::tree::{CollectWalk, Tree, TreeRegister, TreeValue, Walker};
use model_steps::{Access, Answer, NoMemory, Note, Place, Refusal, StepMemory};
use std::alloc::Allocator;
use std::marker::Model;

/// A tree of splitters with a segment at each node. The node at which a participant's walk stops is its place.
///
/// Each node is allocated when a walk first reaches it.
#[derive(Drop)]
pub struct TreePlaces<A: Allocator> {
    tree: Tree<A>,
    most: usize,
}

impl<A: Allocator> Model for TreePlaces<A> {
    ghost use Rattle.std.specs.Coded.{coded_ℕ};
    ghost use Rattle.std.specs.FinMap as map;
    ghost use Rattle.model_splitter.specs.contracts.tree.node_registers.NodeRegisters as registers;
    ghost use Rattle.model_renaming.specs.over.Tree.{TreeState, tree_code};

    ghost Value = { TreeState };

    ghost coded = { tree_code (map.code coded_ℕ registers.the_row.coded) };

    ghost view = { λ t. record { nodes = t.tree; most = t.most } };
}

impl<A: Allocator> TreePlaces<A> {
    /// Makes a tree with no node, for `most` participants. This allocates nothing.
    ///
    /// # Errors
    ///
    /// `OutOfRange`: `most` is not from 1 to 64.
    pub fn new(alloc: A, most: usize) -> Result<Self, Refusal>
        ensures empty { IfOk result (λ t. t ≡ new_tree most) }
        ensures fresh { IfOk result IsNewTree }
        ensures too_few { most < 1 → result ≡ Err Refusal.OutOfRange }
        ensures too_many { 64 < most → result ≡ Err Refusal.OutOfRange }
        ensures in_range { 1 ≤ most → most ≤ 64 → IsOk result }
    {
        if most < 1 || 64 < most {
            return Err(Refusal::OutOfRange);
        }
        Ok(TreePlaces {
            tree: Tree::new(alloc),
            most,
        })
    }

    /// Returns the value of a register. This is no access: it is for observers.
    pub fn value(&self, register: TreeRegister) -> TreeValue
        ensures { result ≡ (register_in self.now register).0 }
    {
        self.tree.read(register)
    }
}

impl<A: Allocator + Clone> StepMemory for TreePlaces<A> {
    type Reg = TreeRegister;

    type Value = TreeValue;

    ghost steps = { tree_places_steps };

    fn access(&mut self, a: Access<TreeRegister, TreeValue>) -> Result<Answer<TreeValue>, NoMemory>
        ensures answer { IfOk result (λ got. got ≡ answer_from (register_in self.old) a) }
        ensures after { OnOk result (self.new ≡ tree_after self.old a) }
        ensures unchanged_on_error { OnErr result (self.new ≡ self.old) }
        ensures no_memory { OnErr result (tree_refuses self.old a ≡ true) }
    {
        self.tree.access(a)
    }

    fn look(&self, register: &TreeRegister) -> Option<&TreeValue>
        ensures value { IfSome result (λ value. value.now ≡ (register_in self.now register.now).0) }
        ensures kept { IfSome result (λ value. tree_after self.now (Read register.now) ≡ self.now) }
    {
        self.tree.look(register)
    }

    ghost others = { tree_others_kept };
}

impl<A: Allocator + Clone> Places for TreePlaces<A> {
    type Walker = TreeWalker;

    type Walk = TreeWalk;

    ghost most_of = { tree_most };

    ghost walker_from = { tree_walker };

    ghost walk_from = { tree_walk };

    ghost ties = { tree_ties };

    fn most(&self) -> usize {
        self.most
    }

    fn walker(&self, _begun: usize, identity: u64) -> TreeWalker {
        TreeWalker {
            walker: Walker::new(identity),
        }
    }

    fn walk(&self) -> TreeWalk {
        TreeWalk {
            walk: CollectWalk::new(),
        }
    }

    fn walk_on(&mut self, walker: &mut TreeWalker) -> Result<Option<Note<Place>>, NoMemory> {
        self.tree.walk_on(&mut walker.walker)
    }

    ghost laws = { tree_laws };
}
