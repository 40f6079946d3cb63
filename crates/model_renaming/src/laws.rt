//! Laws of renaming, which run nothing: of the calls of a world, and over a grid, over a tree and over segments in a row.

ghost use Rattle.std.specs.Prelude.{◌≡◌, ℕ, ◌+◌, ◌-◌, ◌*◌, ◌/◌, ◌^◌, ◌<◌, ◌≤◌, false};
ghost use Rattle.model_snapshot.specs.FixedTies.{fixed_places, fixed_bounds};
ghost use Rattle.model_renaming.specs.over.Bounds.{grid_bounds, tree_bounds};
ghost use Rattle.model_renaming.specs.over.Grid.{segments_for};
ghost use Rattle.model_renaming.specs.over.GridTies.{grid_places};
ghost use Rattle.model_renaming.specs.over.Made.{MakesNode};
ghost use Rattle.model_renaming.specs.over.TreeTies.{tree_places};
ghost use Rattle.model_renaming.specs.Alone.{steps_alone};
ghost use Rattle.model_renaming.specs.Ends.{steps_among};
ghost use Rattle.model_asked.specs.rounds.Rounds.{most_proposals};
ghost use Rattle.model_renaming.specs.Machine.{renaming, KeepsSizes, AnswersUnrefused, SatisfiesSpecWithin, LacksOnly, BeginsTheSame};
ghost use Rattle.model_steps.specs.Machine.{IsProved};
ghost use Rattle.model_renaming.specs.RenameState.{RenameState};
ghost use Rattle.model_renaming.specs.RenameWorld.{may_lack};
ghost use Rattle.model_renaming.specs.Reply.{StepReply};
ghost use Rattle.model_asked.specs.declared.config.Config.{Config};
ghost use Rattle.model_asked.specs.declared.kind.WorldKind.TheVariants as kind;
ghost use Rattle.model_steps.specs.Calls.{Call};

use crate::over::{Grid, TreePlaces};
use crate::places::RenamePlaces;
use crate::world::RenameWorld;
use model_snapshot::{Fixed, Known, Places};
use std::alloc::Allocator;

/// A law: renaming is a machine whose calls extend its history.
///
/// - Each history, with every prefix, satisfies the specification of renaming. Each call's reply is one that the object
///   may give after the calls before it.
/// - A call does not change the world's sizes.
/// - Failed allocations aside, a step fails only if its round has ended or its participant has not begun.
pub fn law_of_renaming_calls<W: RenamePlaces<A>, A: Allocator>()
    ensures machine { IsProved (renaming ⟦<W as Known>⟧.places W.world) }
    ensures kept { (w : RenameState W W.Walker W.Walk) (h : Call StepReply) → KeepsSizes ⟦<W as Known>⟧.places w h }
    ensures answered { (w : RenameState W W.Walker W.Walk) (p : ℕ) → AnswersUnrefused ⟦<W as Known>⟧.places W.world w p }
{}

/// A law: over a grid the calls of a renaming world satisfy the specification of renaming, after every list of calls.
///
/// - Where b have begun, a place is reached within 4b steps. Over G segments a view comes within G(G + 1) steps, and a
///   proposal within one step more.
/// - Among at most m, a participant that runs solo is named within 4m + 11G + 1 steps.
/// - No step allocates. The state of a participant that begins is a function of its identity and of m alone.
pub fn grid_rename_law<A: Allocator + Clone>(world: &RenameWorld<Grid<A>, A>)
    ensures law { SatisfiesSpecWithin grid_places kind.Rename grid_bounds world.now }
    ensures ample { (id : ℕ) → may_lack grid_places world.now id ≡ false }
    ensures alike { (id : ℕ) → BeginsTheSame grid_places kind.Rename id }
{
    let _world = world;
}

/// A law: over a tree the calls of a renaming world satisfy the specification of renaming, after every list of calls.
///
/// - Where b have begun, a place is reached within 5b steps. A view comes within (b + 1)(6b - 2) steps, and a proposal
///   within one step more.
/// - Among at most m, a participant that runs solo is named within 5m + 11(6m - 2) + 1 steps.
/// - Only a step that makes a node may allocate. The state of a participant that begins is a function of its identity
///   and of m alone.
pub fn tree_rename_law<A: Allocator + Clone>(world: &RenameWorld<TreePlaces<A>, A>)
    ensures law { SatisfiesSpecWithin tree_places kind.Tree tree_bounds world.now }
    ensures makes { (id : ℕ) → LacksOnly tree_places kind.Tree world.now id (MakesNode world.now.snap id) }
    ensures alike { (id : ℕ) → BeginsTheSame tree_places kind.Tree id }
{
    let _world = world;
}

/// A law: over m segments in a row the calls of a renaming world satisfy the specification of renaming, after every
/// list of calls.
///
/// No participant makes a step to its place, and a view comes within m(m + 1) steps. No step allocates.
pub fn fixed_rename_law<A: Allocator>(world: &RenameWorld<Fixed<A>, A>)
    ensures law { SatisfiesSpecWithin fixed_places kind.Rename fixed_bounds world.now }
    ensures ample { (id : ℕ) → may_lack fixed_places world.now id ≡ false }
{
    let _world = world;
}

/// A law: the most steps that a participant makes until it is named, if it runs solo among at most m with two proposals
/// left.
///
/// They are 4m + 11G + 1 over a grid of G doors, and 5m + 11(6m - 2) + 1 over a tree: linear in the reads of a collect,
/// where the bounds among others are quadratic.
pub fn law_of_steps_alone()
    ensures grid { (m : ℕ) → steps_alone (grid_bounds m) ≡ 4 * m + 11 * segments_for m + 1 }
    ensures tree { (m : ℕ) → 1 ≤ m → steps_alone (tree_bounds m) ≡ 5 * m + 11 * (6 * m - 2) + 1 }
    ensures few_on_grid { (steps_alone (grid_bounds 1) ≡ 16) × (steps_alone (grid_bounds 2) ≡ 42) × (steps_alone (grid_bounds 3) ≡ 79) }
    ensures few_in_tree { (steps_alone (tree_bounds 1) ≡ 50) × (steps_alone (tree_bounds 2) ≡ 121) × (steps_alone (tree_bounds 3) ≡ 192) }
{}

/// A law: the most accepted steps that a participant makes until it is named, whatever the others do.
///
/// Here b of at most m have begun, and twice the round limit is above S(b) + 2, where S(b) = 3(5^b - 1)/4 is the most
/// proposals of b. The round limit 236 is enough for 4 participants, and 732,423 for 9.
pub fn law_of_steps_among()
    ensures grid { (m b : ℕ) → steps_among (grid_bounds m) b ≡ 4 * b + (most_proposals b / 2 + 2) * (2 * (segments_for m * (segments_for m + 1)) + 1) }
    ensures tree { (m b : ℕ) → steps_among (tree_bounds m) b ≡ 5 * b + (most_proposals b / 2 + 2) * (2 * ((b + 1) * (6 * b - 2)) + 1) }
    ensures proposals { (b : ℕ) → 4 * most_proposals b + 3 ≡ 3 * 5 ^ b }
    ensures four { (b : ℕ) → b ≤ 4 → most_proposals b < 1000 }
    ensures eight { (b : ℕ) → b ≤ 8 → most_proposals b < 292969 }
    ensures four_by_half { (b : ℕ) → b ≤ 4 → most_proposals b + 2 < 2 * 236 }
    ensures nine_by_half { (b : ℕ) → b ≤ 9 → most_proposals b + 2 < 2 * 732423 }
{}

/// A law: under no configuration do more take part than a view has room for.
pub fn law_of_configs()
    ensures { (c : Config) → c.m ≤ 64 }
{}
