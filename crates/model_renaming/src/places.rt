//! Places over which names are given.

ghost use Rattle.std.specs.Prelude.{◌≡◌, ◌≤◌, ℕ, IfOk, IfErr, refl};
ghost use Rattle.model_renaming.specs.lemmas.Ample.{fixed_ample, grid_ample};
ghost use Rattle.model_renaming.specs.lemmas.EmptyPlaces.{AreEmptyFor, fixed_empty, grid_empty, tree_empty};
ghost use Rattle.model_asked.specs.declared.kind.WorldKind.{WorldKind};
ghost use Rattle.model_asked.specs.declared.kind.WorldKind.TheVariants as kind;
ghost use Rattle.model_renaming.specs.NamedPlaces.{PlacesAtOnce, GrowsAsTree};
ghost use Rattle.model_asked.specs.Config.{most_in};
ghost use Rattle.model_snapshot.specs.FixedTies.{fresh_row};
ghost use Rattle.model_renaming.specs.over.Grid.{fresh_grid};
ghost use Rattle.model_renaming.specs.over.Tree.{new_tree};

use crate::over::{Grid, TreePlaces};
use model_asked::WorldKind;
use model_snapshot::{Fixed, Known, Places};
use model_steps::Refusal;
use std::alloc::Allocator;

/// Places over which names are given: the world that they serve, and how they are made.
pub trait RenamePlaces<A: Allocator>: Places {
    /// The world that they serve.
    ghost world: { WorldKind };

    /// The places that are made for this many participants.
    ghost empty_for: { ℕ → Self };

    /// Returns the world that they serve.
    fn world() -> WorldKind
        ensures { result ≡ world };

    /// Makes places for `most` participants, in which nothing was written.
    ///
    /// # Errors
    ///
    /// `NoMemory`: an allocation failed.
    fn empty(alloc: A, most: usize) -> Result<Self, Refusal>
        requires some { 1 ≤ most }
        requires few { most ≤ most_in world }
        ensures made { IfOk result (λ s. s ≡ empty_for most) }
        ensures fresh { IfOk result (λ s. Self.ties.IsNew s) }
        ensures most { IfOk result (λ s. Self.most_of s ≡ most) }
        ensures no_memory { IfErr result (λ why. why ≡ Refusal.NoMemory) };

    /// In the places that are made nothing was written.
    ghost are_empty: { AreEmptyFor ⟦<Self as Known>⟧.places world empty_for };

    /// A participant has a place as it begins if and only if no step leads to one.
    ghost at_once: { PlacesAtOnce ⟦<Self as Known>⟧.places };

    /// Only over a tree may a step allocate.
    ghost may_grow: { GrowsAsTree ⟦<Self as Known>⟧.places world };
}

impl<A: Allocator> RenamePlaces<A> for Fixed<A> {
    ghost world = { kind.Rename };

    ghost empty_for = { fresh_row };

    fn world() -> WorldKind {
        WorldKind::Rename
    }

    fn empty(alloc: A, most: usize) -> Result<Self, Refusal> {
        Fixed::new(alloc, most)
    }

    ghost are_empty = { fixed_empty };

    ghost at_once = { λ b q. refl };

    ghost may_grow = { fixed_ample };
}

impl<A: Allocator + Clone> RenamePlaces<A> for Grid<A> {
    ghost world = { kind.Rename };

    ghost empty_for = { fresh_grid };

    fn world() -> WorldKind {
        WorldKind::Rename
    }

    fn empty(alloc: A, most: usize) -> Result<Self, Refusal> {
        Grid::new(alloc, most)
    }

    ghost are_empty = { grid_empty };

    ghost at_once = { λ b q. refl };

    ghost may_grow = { grid_ample };
}

impl<A: Allocator + Clone> RenamePlaces<A> for TreePlaces<A> {
    ghost world = { kind.Tree };

    ghost empty_for = { new_tree };

    fn world() -> WorldKind {
        WorldKind::Tree
    }

    fn empty(alloc: A, most: usize) -> Result<Self, Refusal> {
        TreePlaces::new(alloc, most)
    }

    ghost are_empty = { tree_empty };

    ghost at_once = { λ b q. refl };

    ghost may_grow = { λ s p h. refl };
}
