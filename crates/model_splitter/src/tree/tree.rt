//! A tree of nodes as a memory.

ghost use Rattle.std.specs.Prelude.{◌≡◌, ◌||◌, ◌==◌, ◌/◌, OnOk, OnErr, IfOk, IfSome, None, true, false, is_some, option_copied};
ghost use Rattle.std.specs.FinMap as map;
ghost use Rattle.model_splitter.specs.tree.TreeSteps.{tree_steps, empty_tree, value_in, value_of, answer_of, after_access, after_write, fresh_registers, makes_node, may_refuse, number_in};
ghost use Rattle.model_splitter.specs.lemmas.tree.TreeProofs.{others_kept};
ghost use Rattle.model_steps.specs.declared.access.Access.TheVariants.{Read};
ghost use Rattle.model_steps.specs.Taken.{reported_in};
ghost use Rattle.model_splitter.specs.declared.tree.register.TreeValue.TheVariants as value;
ghost use Rattle.model_splitter.specs.tree.Walk.{next_access, walker_after, walker_note};

use crate::tree::node_registers::NodeRegisters;
use crate::tree::register::{MARKED, ROOT, TreeRegister, TreeValue, WrittenValue};
use crate::tree::walker::Walker;
use model_steps::{Access, Answer, NoMemory, Note, Place, StepMemory, StepProgram};
use std::alloc::Allocator;
use std::collections::HashMap;
use std::hash::{BuildHasherDefault, FoldHasher};
use std::marker::Model;

/// A tree of splitters as a memory: the nodes that were made, by their numbers. Contracts see a map from numbers to nodes.
#[derive(Drop)]
pub struct Tree<A: Allocator> {
    nodes: HashMap<Place, NodeRegisters, BuildHasherDefault<FoldHasher>, A>,
    /// The value of a mark that is set, to be lent.
    set: TreeValue,
    /// The value of a mark that is not set.
    clear: TreeValue,
}

impl<A: Allocator> Model for Tree<A> {
    ghost use Rattle.std.specs.Coded.{coded_ℕ};
    ghost use Rattle.std.specs.FinMap as map;
    ghost use Rattle.model_splitter.specs.contracts.tree.node_registers.NodeRegisters as registers;
    ghost use Rattle.model_splitter.specs.tree.TreeSteps.{NodeMap};
    ghost use Rattle.model_splitter.specs.declared.tree.register.TreeValue.TheVariants as value;
    ghost use Rattle.std.specs.Prelude.{◌≡◌};

    ghost Value = { NodeMap };

    ghost coded = { map.code coded_ℕ registers.the_row.coded };

    ghost view = { λ t. map.from_entries t.nodes.entries };

    ghost invariant = { λ t. (t.set ≡ value.Word 1) × (t.clear ≡ value.Word 0) };
}

impl<A: Allocator> Tree<A> {
    /// Makes a tree with no node. This allocates nothing.
    pub fn new(alloc: A) -> Tree<A>
        ensures { result ≡ empty_tree }
    {
        Tree {
            nodes: HashMap::new(alloc),
            set: TreeValue::Word(MARKED),
            clear: TreeValue::Word(0),
        }
    }

    /// Returns the registers of the node with this number, or `None` if it does not exist. This is no access: it is for
    /// observers.
    pub fn registers_at(&self, place: Place) -> Option<&NodeRegisters>
        ensures { option_copied result ≡ map.get self.now place }
    {
        self.nodes.get(&place)
    }

    /// Returns the value of a register. This is no access: it is for observers.
    pub fn read(&self, register: TreeRegister) -> TreeValue
        ensures { result ≡ value_in register (map.get self.now (number_in register)) }
    {
        match self.registers_at(register.node()) {
            Some(registers) => registers.read(register),
            None => match register {
                TreeRegister::Mark(_) => TreeValue::Word(0),
                TreeRegister::X(_) => TreeValue::Word(0),
                TreeRegister::Y(_) => TreeValue::Word(0),
                TreeRegister::Contents(_) => TreeValue::Contents(None),
            },
        }
    }
}

impl<A: Allocator + Clone> Tree<A> {
    /// Whether a node may exist: it is the root, or its parent exists.
    fn may_have(&self, place: Place) -> bool
        ensures { result ≡ ((place == 1) || is_some (map.get self.now (place / 2))) }
    {
        place == ROOT || self.registers_at(place / 2).is_some()
    }

    /// Makes a node that does not exist.
    ///
    /// # Errors
    ///
    /// `NoMemory`: the allocation failed. Nothing has changed.
    fn make(&mut self, place: Place) -> Result<(), NoMemory>
        ensures after { OnOk result (self.new ≡ map.insert self.old place fresh_registers) }
        ensures unchanged_on_error { OnErr result (self.new ≡ self.old) }
    {
        match self.nodes.insert(place, NodeRegisters::new()) {
            Ok(_) => Ok(()),
            Err(_) => Err(NoMemory),
        }
    }

    /// Writes into a register. A write that sets the mark of a node makes the node, if it is the root or its parent exists.
    ///
    /// # Errors
    ///
    /// `NoMemory`: the node would be made and the allocation failed. Nothing has changed.
    fn write(&mut self, register: TreeRegister, value: WrittenValue) -> Result<(), NoMemory>
        ensures after { OnOk result (self.new ≡ after_write self.old register (value_of value.entry)) }
        ensures unchanged_on_error { OnErr result (self.new ≡ self.old) }
        ensures no_memory { OnErr result (makes_node self.old register (value_of value.entry) ≡ true) }
    {
        let place = register.node();
        if let Some(registers) = self.nodes.get_mut(&place) {
            registers.write(register, value);
            return Ok(());
        }
        if !register.is_set_by(value) || !self.may_have(place) {
            return Ok(());
        }
        self.make(place)
    }

    /// Returns the word in a register of a node that exists.
    fn word(&self, register: TreeRegister) -> Option<u64>
        ensures { IfSome result (λ word. value_in register (map.get self.now (number_in register)) ≡ value.Word word) }
    {
        match self.registers_at(register.node()) {
            Some(registers) => registers.word(register),
            None => None,
        }
    }

    /// Takes a step of a visit, as `walk_on` does.
    fn visit_on(&mut self, walker: &mut Walker) -> Result<Option<Note<Place>>, NoMemory>
        requires { walker.old.is_marking ≡ false }
        ensures note { IfSome (reported_in result) (λ note. note ≡ walker_note walker.old (answer_of self.old (next_access walker.old))) }
        ensures after { IfSome (reported_in result) (λ _. walker.new ≡ walker_after walker.old (answer_of self.old (next_access walker.old))) }
        ensures memory { IfSome (reported_in result) (λ _. self.new ≡ after_access self.old (next_access walker.old)) }
        ensures kept { reported_in result ≡ None → walker.new ≡ walker.old }
        ensures memory_kept { reported_in result ≡ None → self.new ≡ self.old }
        ensures no_memory { OnErr result (may_refuse self.old (next_access walker.old) ≡ true) }
    {
        match walker.visitor.next() {
            Access::Read(register) => match self.word(register) {
                Some(word) => Ok(Some(walker.resume_visit(Answer::Value(word)))),
                None => Ok(None),
            },
            Access::Write(register, word) => {
                let written = WrittenValue::Word(word);
                match self.write(register, written) {
                    Ok(()) => Ok(Some(walker.resume_visit(Answer::Done))),
                    Err(refused) => Err(refused),
                }
            }
            Access::TestAndSet(_) | Access::Clear(_) | Access::Nothing => Ok(None),
        }
    }

    /// Takes the next step of a walk in place, so that no segment is copied, and returns the walk's note.
    ///
    /// Returns `None` if it takes no such step. Nothing has then changed.
    ///
    /// # Errors
    ///
    /// `NoMemory`: the step makes a node and the allocation failed. Nothing has changed, and the step is still to be
    /// taken.
    pub fn walk_on(&mut self, walker: &mut Walker) -> Result<Option<Note<Place>>, NoMemory>
        ensures note { IfSome (reported_in result) (λ note. note ≡ walker_note walker.old (answer_of self.old (next_access walker.old))) }
        ensures after { IfSome (reported_in result) (λ _. walker.new ≡ walker_after walker.old (answer_of self.old (next_access walker.old))) }
        ensures memory { IfSome (reported_in result) (λ _. self.new ≡ after_access self.old (next_access walker.old)) }
        ensures kept { reported_in result ≡ None → walker.new ≡ walker.old }
        ensures memory_kept { reported_in result ≡ None → self.new ≡ self.old }
        ensures no_memory { OnErr result (may_refuse self.old (next_access walker.old) ≡ true) }
    {
        if !walker.is_marking {
            return self.visit_on(walker);
        }
        let mark = TreeRegister::Mark(walker.place);
        let marked = WrittenValue::Word(MARKED);
        match self.write(mark, marked) {
            Ok(()) => {
                walker.is_marking = false;
                Ok(Some(Note::Quiet))
            }
            Err(refused) => Err(refused),
        }
    }
}

impl<A: Allocator + Clone> StepMemory for Tree<A> {
    type Reg = TreeRegister;

    type Value = TreeValue;

    ghost steps = { tree_steps };

    fn access(&mut self, a: Access<TreeRegister, TreeValue>) -> Result<Answer<TreeValue>, NoMemory>
        ensures answer { IfOk result (λ got. got ≡ answer_of self.old a) }
        ensures after { OnOk result (self.new ≡ after_access self.old a) }
        ensures unchanged_on_error { OnErr result (self.new ≡ self.old) }
        ensures no_memory { OnErr result (may_refuse self.old a ≡ true) }
    {
        Ok(match a {
            Access::Read(register) => Answer::Value(self.read(register)),
            Access::Write(register, value) => {
                self.write(register, value.to_write())?;
                Answer::Done
            }
            Access::TestAndSet(_) => Answer::WasSet(false),
            Access::Clear(_) => Answer::Done,
            Access::Nothing => Answer::Done,
        })
    }

    fn look(&self, register: &TreeRegister) -> Option<&TreeValue>
        ensures value { IfSome result (λ value. value.now ≡ value_in register.now (map.get self.now (number_in register.now))) }
        ensures kept { IfSome result (λ value. after_access self.now (Read register.now) ≡ self.now) }
    {
        match (*register, self.registers_at(register.node())) {
            (TreeRegister::Mark(_), Some(_)) => Some(&self.set),
            (TreeRegister::Mark(_), None) => Some(&self.clear),
            (TreeRegister::Contents(_), Some(registers)) => Some(registers.segment.value()),
            _ => None,
        }
    }

    ghost others = { others_kept };
}
