//! Laws of the calls of a tree's world, which run nothing.

ghost use Rattle.std.specs.Prelude.{ℕ, ◌≤◌, []};
ghost use Rattle.model_splitter.specs.tree.WorldLaws.{LetsTheFirstIn, TreesAreProved, CollectHasRead, NodesAgreeWithWalks, NodesAreTree, PlacesAreReported, IsOnTheWay, NeverEnds, MarksWhatWasMade, MakesNodesWithin, TellsOnePlace, WritesOwnSegment, StandsAtItsNode};
ghost use Rattle.model_splitter.specs.tree.Client.{client_access};
ghost use Rattle.model_splitter.specs.tree.Machine.{fresh_over, tree};
ghost use Rattle.model_steps.specs.Machine.{Reaches, IsProved};
ghost use Rattle.model_splitter.specs.tree.TreeSteps.{empty_tree, tree_steps};
ghost use Rattle.model_splitter.specs.declared.tree.client.Client.{Client};
ghost use Rattle.model_steps.specs.Steps.{ReadsOrWrites};

/// A law of a collect that is under way over any memory that is a tree: if it has found `nodes` nodes marked, its next
/// step is at most its `3 nodes + 1`-th.
pub fn law_of_collect_calls<S>()
    ensures { CollectHasRead S }
{}

/// A law: the world over any memory that is a tree is a machine whose calls extend its history.
///
/// - Each history, with every prefix, keeps the law of places and that of collects. A call fails if and only if the
///   calls before it make that due.
/// - A view shows of each participant what it had stored last at some moment of the collect. It shows each that had
///   stored before the collect began. Where b have begun, a collect makes at most 6b - 2 steps.
/// - After every list of calls nodes and walks are consistent, so the law of the tree holds of them.
/// - The places that were returned are those at which walks have ended.
/// - A participant is on its way if and only if it has no place, and never ends.
/// - The marked nodes are those that were made. Their depths are below the number of participants that have begun.
pub fn law_of_places<S>()
    ensures machine { TreesAreProved S }
    ensures consistent { NodesAgreeWithWalks S }
    ensures tree { NodesAreTree S }
    ensures places { PlacesAreReported S }
    ensures on_the_way { IsOnTheWay S }
    ensures never_ends { NeverEnds S }
    ensures made { MarksWhatWasMade S }
    ensures made_within { MakesNodesWithin S }
{}

/// A law: a tree is a machine whose calls extend its history.
///
/// - Each history, with every prefix, keeps the law. A call fails if and only if the calls before it make that due.
/// - It may start with no node and with room for at most 64.
/// - A list in which a participant gets a second place does not keep the law of places. A list in which the first to
///   begin is refused fails a call that is not due to fail.
pub fn law_of_tree_calls()
    ensures fresh { (most : ℕ) → most ≤ 64 → Reaches tree (empty_tree, most) (fresh_over tree_steps (empty_tree, most)) [] }
    ensures machine { IsProved tree }
    ensures one_place { TellsOnePlace }
    ensures not_refused { LetsTheFirstIn }
{}

/// A law: an access of a participant reads or writes a register, or accesses none.
///
/// After any calls the visit of each participant is to the registers of the node that its walk is at. A participant of
/// which this is so writes only the segment at its own place.
pub fn law_of_own_accesses()
    ensures own { (c : Client) → ReadsOrWrites (client_access c) }
    ensures segment { WritesOwnSegment }
    ensures stands { StandsAtItsNode }
{}
