//! The law of a snapshot object over segments in a row, which runs nothing.

ghost use Rattle.std.specs.Prelude.{◌≡◌, ◌≤◌, ℕ, false};
ghost use Rattle.model_snapshot.specs.Places.{BoundsScans};
ghost use Rattle.model_snapshot.specs.Machine.{SatisfiesSpecFrom};
ghost use Rattle.model_snapshot.specs.SnapWorld.{may_lack_memory};
ghost use Rattle.model_snapshot.specs.FixedTies.{fixed_places, fresh_row, fixed_bounds};

use crate::fixed::Fixed;
use crate::world::SnapWorld;
use std::alloc::Allocator;

/// A law: over at most 16 segments in a row, empty at first, a snapshot object satisfies its specification after every
/// list of calls.
///
/// - A view is a moment: the last one at the scan's first read, or a later one.
/// - Over m segments a scan takes at most m(m + 1) steps, and an update one more.
/// - No participant makes a step to its place, and no step allocates.
/// - A fresh row is one in which nothing was written.
pub fn snapshot_law<A: Allocator>(world: &SnapWorld<Fixed<A>, A>)
    ensures law { world.now.most ≤ 16 → SatisfiesSpecFrom fixed_places (fresh_row world.now.most) (fixed_bounds world.now.most) world.now }
    ensures fits { BoundsScans fixed_places world.now.most (fixed_bounds world.now.most).scanning }
    ensures ample { (id : ℕ) → may_lack_memory fixed_places world.now id ≡ false }
    ensures new { (most : ℕ) → most ≤ 16 → fixed_places.ties.IsNew (fresh_row most) }
{
    let _world = world;
}
