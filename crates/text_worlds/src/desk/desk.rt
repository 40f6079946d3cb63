//! A desk of either world.

ghost use Rattle.std.specs.Prelude.{◌≡◌, ◌⊎◌, ◌↔◌, IfOk, IfErr, Err, false};
ghost use Rattle.model_asked.specs.Config.{gives_names};
ghost use Rattle.text_worlds.specs.desk.Desk.{desk_rules, desk_refusal, owner_reply, IsFreshDesk};
ghost use Rattle.text_worlds.specs.desk.Coming.{coming_of};
ghost use Rattle.text_worlds.specs.desk.Held.{held_in, name_on, place_on, slots_of};
ghost use Rattle.text_worlds.specs.desk.Laws.{TellsOwners, RefusesAsSaid};
ghost use Rattle.model_asked.specs.Replies.{with_view};
ghost use Rattle.text_worlds.specs.desk.Rules.{may_by};

use crate::desk::coming::{Coming, Register, coming_in_grid, coming_in_tree};
use crate::desk::held::{held_by_grid, held_by_tree, register_in_grid, register_in_tree};
use crate::desk::over::DeskOver;
use model_asked::{Config, Event, Reply};
use model_pool::slots::Slots;
use model_renaming::over::{Grid, TreePlaces};
use model_steps::{Place, Refusal, View};
use std::alloc::Allocator;
use std::marker::Model;

/// A desk over a grid, or one over a tree.
#[derive(Drop)]
enum Parts<G, T> {
    Grid(G),
    Tree(T),
}

/// One renaming world, over the places of a grid or of a tree, and slots over a pool.
#[derive(Drop)]
pub struct Desk<A: Allocator + Clone> {
    parts: Parts<DeskOver<Grid<A>, A>, DeskOver<TreePlaces<A>, A>>,
}

impl<A: Allocator + Clone> Model for Desk<A> {
    ghost use Rattle.std.specs.Coded.{codes, coded_ℕ};
    ghost use Rattle.std.specs.FinMap as map;
    ghost use Rattle.model_splitter.specs.contracts.tree.node_registers.NodeRegisters as registers;
    ghost use Rattle.model_renaming.specs.over.Tree.{tree_code};
    ghost use Rattle.text_worlds.specs.desk.DeskValue.{DeskValue};

    ghost Value = { DeskValue };

    ghost coded = { Prim.hlevel (codes, tree_code (map.code coded_ℕ registers.the_row.coded)) };

    ghost use Rattle.text_worlds.specs.desk.DeskParts.{value_of};

    ghost view = { λ d. value_of d.parts };
}

impl<A: Allocator + Clone> Desk<A> {
    /// Makes a desk of this configuration, on which nothing was done; each slot holds 0.
    ///
    /// Over a grid, no other call allocates. Over a tree, a step that makes a node does.
    ///
    /// # Errors
    ///
    /// The first that applies is returned:
    ///
    /// - `OutOfRange`: the world of `config` gives no names.
    /// - `NoMemory`: an allocation failed.
    pub fn new(alloc: A, config: Config) -> Result<Self, Refusal>
        ensures fresh { IfOk result (λ d. IsFreshDesk config d) }
        ensures out_of_range { result ≡ Err Refusal.OutOfRange ↔ (gives_names config.world ≡ false) }
        ensures only { IfErr result (λ why. (why ≡ Refusal.NoMemory) ⊎ (why ≡ Refusal.OutOfRange)) }
    {
        if config.world.is_tree() {
            return match DeskOver::new(alloc, config) {
                Ok(desk) => Ok(Desk {
                    parts: Parts::Tree(desk),
                }),
                Err(why) => Err(why),
            };
        }
        match DeskOver::new(alloc, config) {
            Ok(desk) => Ok(Desk {
                parts: Parts::Grid(desk),
            }),
            Err(why) => Err(why),
        }
    }

    /// Takes one event, makes at most one access, and returns the reply.
    ///
    /// A reply `Refused` changes nothing. `Refused(NoMemory)` is returned only if the event is a step that makes a node
    /// of a tree, the allocation failed, and no other refusal applies. The caller may repeat the event.
    pub fn apply(&mut self, event: Event) -> Reply<View>
        ensures { may_by desk_rules self.old event result self.new }
    {
        let mut view = View::new();
        self.apply_short(event, &mut view).with(&view)
    }

    /// Takes one event as `apply` does, and returns a reply of a few bytes. If the reply has a view, the view is put
    /// into `view`.
    #[inline(always)]
    pub fn apply_short(&mut self, event: Event, view: &mut View) -> Reply<()>
        ensures { may_by desk_rules self.old event (with_view result view.new) self.new }
    {
        match &mut self.parts {
            Parts::Grid(desk) => desk.apply_short(event, view),
            Parts::Tree(desk) => desk.apply_short(event, view),
        }
    }

    /// Returns the refusal that `apply` would return for an event, failed allocations aside, or `None`.
    pub fn refusal(&self, event: Event) -> Option<Refusal>
        ensures value { result ≡ desk_refusal self.now event }

        // After every history it is the refusal that `apply` would return.
        ensures reported { RefusesAsSaid self.now event }
    {
        match &self.parts {
            Parts::Grid(desk) => desk.refusal(event),
            Parts::Tree(desk) => desk.refusal(event),
        }
    }

    /// Returns the access that a participant makes next, or `None` if the identity has not begun. This makes no access.
    pub fn coming(&self, id: u64) -> Option<Coming>
        ensures { result ≡ coming_of self.now id }
    {
        match &self.parts {
            Parts::Grid(desk) => match desk.next_access(id) {
                Some(access) => Some(coming_in_grid(access)),
                None => None,
            },
            Parts::Tree(desk) => match desk.next_access(id) {
                Some(access) => Some(coming_in_tree(access)),
                None => None,
            },
        }
    }

    /// Returns what a register holds: the word of X, of Y or of a mark, or the proposal in a segment. This makes no
    /// access.
    ///
    /// Returns `None` if the segment is empty, or if a grid has no such register.
    pub fn held(&self, register: Register) -> Option<u64>
        ensures { result ≡ held_in self.now register }
    {
        match &self.parts {
            Parts::Grid(desk) => match register_in_grid(register) {
                Some(register) => held_by_grid(desk.places().value(register)),
                None => None,
            },
            Parts::Tree(desk) => held_by_tree(desk.places().value(register_in_tree(register))),
        }
    }

    /// Returns the place of a participant, which is the number of its splitter, or `None` if it has none.
    pub fn place_of(&self, id: u64) -> Option<Place>
        ensures { result ≡ place_on self.now id }
    {
        match &self.parts {
            Parts::Grid(desk) => desk.place_of(id),
            Parts::Tree(desk) => desk.place_of(id),
        }
    }

    /// Returns the name of a participant, or `None` if it has none.
    pub fn name_of(&self, id: u64) -> Option<u64>
        ensures { result ≡ name_on self.now id }
    {
        match &self.parts {
            Parts::Grid(desk) => desk.name_of(id),
            Parts::Tree(desk) => desk.name_of(id),
        }
    }

    /// Returns the slots over their pool, for observers.
    pub fn slots(&self) -> &Slots<u64, A>
        ensures { result.now ≡ slots_of self.now }
    {
        match &self.parts {
            Parts::Grid(desk) => &desk.slots,
            Parts::Tree(desk) => &desk.slots,
        }
    }

    /// Returns `Owner`, with the identity that has this name or with `None`, and changes nothing.
    ///
    /// Returns `Refused(OutOfRange)` if the number is not from 1 to `2m - 1`, for at most `m` participants.
    pub fn owner(&self, number: u64) -> Reply<View>
        ensures value { result ≡ owner_reply self.now number }

        // It is the identity that was given the name, in the exchanges so far.
        ensures reported { TellsOwners self.now number result }
    {
        match &self.parts {
            Parts::Grid(desk) => desk.owner(number),
            Parts::Tree(desk) => desk.owner(number),
        }
    }
}
