//! Laws of the snapshot object over a grid and over a tree, which run nothing.

ghost use Rattle.std.specs.Prelude.{◌≡◌, ◌≤◌, ℕ, false};
ghost use Rattle.model_snapshot.specs.Places.{BeginsAlike, BoundsScans};
ghost use Rattle.model_snapshot.specs.Machine.{HasDistinctPlaces, SatisfiesSpecFrom};
ghost use Rattle.model_snapshot.specs.SnapWorld.{may_lack_memory, LacksOnWay};
ghost use Rattle.model_renaming.specs.over.Bounds.{grid_bounds, tree_bounds};
ghost use Rattle.model_renaming.specs.over.Grid.{fresh_grid};
ghost use Rattle.model_renaming.specs.over.GridTies.{grid_places};
ghost use Rattle.model_renaming.specs.over.Made.{IsFromNewTree, KeepsTree, LacksAtNode};
ghost use Rattle.model_renaming.specs.over.Tree.{new_tree};
ghost use Rattle.model_renaming.specs.over.TreeTies.{tree_places};

use crate::over::grid::Grid;
use crate::over::tree::TreePlaces;
use model_snapshot::SnapWorld;
use std::alloc::Allocator;

/// A law of a snapshot object over a new grid with segments, for at most 16 participants.
///
/// - After every list of calls, the calls with their replies are those of the object of the law.
/// - Where b have begun, a place is reached within 4b steps. Over G segments a scan makes at most G(G + 1) steps, and
///   an update one more.
/// - No step allocates. All participants that begin under one identity are alike. In a new grid nothing was written.
pub fn grid_snapshot_law<A: Allocator>(world: &SnapWorld<Grid<A>, A>)
    ensures law { world.now.most ≤ 16 → SatisfiesSpecFrom grid_places (fresh_grid world.now.most) (grid_bounds world.now.most) world.now }
    ensures fits { BoundsScans grid_places world.now.most (grid_bounds world.now.most).scanning }
    ensures distinct { HasDistinctPlaces grid_places world.now }
    ensures ample { (id : ℕ) → may_lack_memory grid_places world.now id ≡ false }
    ensures alike { BeginsAlike grid_places }
    ensures new { (most : ℕ) → most ≤ 16 → grid_places.ties.IsNew (fresh_grid most) }
{
    let _world = world;
}

/// A law of a snapshot object over a new tree, for at most 64 participants.
///
/// - After every list of calls, the calls with their replies are those of the object of the law.
/// - Where b have begun, a place is reached within 5b steps. A scan makes at most (b + 1)(6b - 2) steps, and an update
///   one more.
/// - No two participants have one place, and at most 2b - 1 nodes were made.
/// - Only a step that makes a node may allocate. All participants that begin under one identity are alike. In a new
///   tree nothing was written.
pub fn tree_snapshot_law<A: Allocator + Clone>(world: &SnapWorld<TreePlaces<A>, A>)
    ensures law { world.now.most ≤ 64 → SatisfiesSpecFrom tree_places (new_tree world.now.most) (tree_bounds world.now.most) world.now }
    ensures fits { BoundsScans tree_places world.now.most (tree_bounds world.now.most).scanning }
    ensures distinct { HasDistinctPlaces tree_places world.now }
    ensures nodes { IsFromNewTree world.now → KeepsTree world.now }
    ensures ample { (id : ℕ) → LacksOnWay tree_places world.now id }
    ensures makes { (id : ℕ) → IsFromNewTree world.now → LacksAtNode world.now id }
    ensures alike { BeginsAlike tree_places }
    ensures new { (most : ℕ) → most ≤ 64 → tree_places.ties.IsNew (new_tree most) }
{
    let _world = world;
}
