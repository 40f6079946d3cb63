//! Laws of the tree, which run nothing: of its registers, of the walks down it and of those over its segments.

ghost use Rattle.std.specs.Prelude.{◌≡◌, ℕ, ◌+◌, ◌*◌, ◌≤◌, Some, Bool};
ghost use Rattle.model_splitter.specs.tree.Laws.{
  TellsItsPlace,
  StandsWhereItReads,
  PathsAreMarked,
  MarksFew,
  IsUpcomingWhenRead,
  AgreesWhenEmpty,
  AgreesWithBeginner,
  AgreesAfterAccess,
  AgreesElsewhere,
  WalksKeepTreeLaw,
  ComesNearer,
  HasAccessesLeft,
  EndsAtPlace,
  WalkKeepsSegments,
  WalkMarksItsNode,
  RefusedAtNewNode,
  ReadsWhatIsAhead,
  KeepsReads,
  CountsOneRead,
  FindsFewNodes,
  PlacesAreAhead,
  ReadsFew,
  WalkAddsMarks,
  WriteAddsMarks,
};
ghost use Rattle.model_splitter.specs.tree.Ahead.{HasGrown, HasRead, marked_in, found_by, IsAhead, IsPathMarked, IsUpcoming, Sees};
ghost use Rattle.model_splitter.specs.tree.CollectWalk.{first_walk, register_read, place_read, walk_resumed};
ghost use Rattle.model_splitter.specs.tree.TreeMemory.{IsTreeMemory, IsEmptyTree};
ghost use Rattle.model_splitter.specs.tree.TreeSteps.{empty_tree, tree_steps};
ghost use Rattle.model_splitter.specs.declared.tree.collect_walk.CollectWalk.{CollectWalk};
ghost use Rattle.model_splitter.specs.declared.tree.register.TreeRegister.{TreeRegister};
ghost use Rattle.model_splitter.specs.declared.tree.register.TreeRegister.TheVariants.{Contents};
ghost use Rattle.model_splitter.specs.declared.tree.register.TreeValue.{TreeValue};
ghost use Rattle.model_steps.specs.Steps.{MemorySteps};

/// A law of the tree as a memory. Walks and collects use this.
///
/// A node is within reach if its parent is marked. A marked node keeps what is written to it. Only an access that marks
/// a node may fail. A new tree has no node.
pub fn law_of_tree_memory()
    ensures memory { IsTreeMemory tree_steps }
    ensures empty { IsEmptyTree tree_steps empty_tree }
{}

/// A law of the nodes of a tree and the walks down it. Structures over the places of a tree use this.
///
/// - A tree of no nodes is consistent with no walks. A participant that begins keeps nodes and walks consistent. So do
///   each access of a walk that does not fail, and whatever leaves the marks, X and Y of the nodes unchanged.
///   Consistent ones keep the law of the tree.
/// - Where b have begun, a walk that has no place yet has made fewer than 5b accesses. Each access brings it nearer to
///   a place. Its note ends it if and only if it reaches a place, and is then that place.
/// - An access leaves all segments unchanged, and all marks but that of the node that it marks. It fails only if that
///   node was not marked.
pub fn law_of_nodes_and_walks<S>()
    ensures fresh { AgreesWhenEmpty S }
    ensures begun { AgreesWithBeginner S }
    ensures gone_on { AgreesAfterAccess S }
    ensures elsewhere { AgreesElsewhere S }
    ensures law { WalksKeepTreeLaw S }
    ensures nearer { ComesNearer S }
    ensures unplaced { HasAccessesLeft S }
    ensures reported { TellsItsPlace }
    ensures ended { EndsAtPlace }
    ensures segments { WalkKeepsSegments S }
    ensures marks { WalkMarksItsNode S }
    ensures refused { RefusedAtNewNode S }
{}

/// A law of collect walks. Collects over the tree use this, and so may any other walk over it.
///
/// A walk reads the segment of every node whose path from the root was marked when it began, and reads no segment
/// twice. If it has found `nodes` nodes marked, it has made at most `3 nodes + 1` reads. It finds no more nodes than
/// are marked.
pub fn law_of_collects()
    ensures first { (marked : ℕ → Bool) (q : ℕ) → IsPathMarked marked q → IsAhead marked first_walk q }
    ensures kept { (marked later : ℕ → Bool) (w : CollectWalk) (q : ℕ) → HasGrown marked later → IsAhead marked w q → IsAhead later w q }
    ensures read { ReadsWhatIsAhead }
    ensures segment { (w : CollectWalk) (q : ℕ) → place_read w ≡ Some q → register_read w ≡ Contents q }
    ensures stands { StandsWhereItReads }
    ensures upcoming { (w : CollectWalk) (got : TreeValue) (q : ℕ) → IsUpcoming (walk_resumed w got) q → IsUpcoming w q }
    ensures once { (w : CollectWalk) (got : TreeValue) (q : ℕ) → place_read w ≡ Some q → IsUpcoming (walk_resumed w got) q → ⊥ }

    ensures here { IsUpcomingWhenRead }

    // The reads.
    ensures none_read { (marked : ℕ → Bool) → HasRead marked first_walk 0 0 }
    ensures reads_kept { KeepsReads }
    ensures one_read { CountsOneRead }
    ensures few_reads { (marked : ℕ → Bool) (w : CollectWalk) (nodes reads : ℕ) → HasRead marked w nodes reads → reads + 1 ≤ 3 * nodes + 1 }
    ensures few_nodes { FindsFewNodes }
{}

/// A law of collect walks over a tree whose nodes are consistent with the walks to places.
///
/// As a collect walk begins, each place is ahead of it, since all nodes from the root to the place are marked. Where b
/// have begun, at most 2b - 1 nodes are marked, so it makes at most 6b - 2 reads. Walks to places and writes of
/// segments clear no mark.
pub fn law_of_collects_at_places<S>()
    ensures paths { PathsAreMarked S }
    ensures ahead { PlacesAreAhead S }
    ensures sees { (memory : MemorySteps S TreeRegister TreeValue) (s : S) (w : CollectWalk) → Sees (marked_in memory s) w (found_by memory s w) }
    ensures marked { MarksFew S }
    ensures few { ReadsFew S }
    ensures gone_on { WalkAddsMarks S }
    ensures written { WriteAddsMarks S }
{}
