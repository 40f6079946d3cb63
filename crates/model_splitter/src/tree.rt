//! A tree of splitters that grows one node at a time, in which each participant gets a place of its own, with a
//! segment.
//!
//! The nodes are splitters (Moir and Anderson 1995). A walk begins at the root, node 1. If it stops at a node, that
//! node is its place. If it goes down from node p it goes on to node 2p, and if it goes right, to node 2p + 1. Before a
//! walk visits a node's splitter it writes the node's mark. That access makes the node if it does not exist. So the
//! size of the tree depends on the crowd alone. Where `b` participants have begun:
//!
//! - At most `2b - 1` nodes were made, and none is deeper than `b - 1`.
//! - No two have the same place.
//! - A walk reaches its place within `5b` steps.
//!
//! If the allocation of a node fails, the step changes nothing and may be repeated.
//!
//! A *collect walk* (`CollectWalk`) reads the mark of a node. If the mark is set, it reads the node's segment and then
//! what lies below, left before right. It makes at most `6b - 2` reads. Walks, places and collect walks are laws here,
//! over any memory that is a tree. (The mark, the order and the counts are this project's own.)
//!
//! A `TreeWorld` is a world (`model_steps`) over one tree. Its participants get places, store values there, and collect
//! what all have stored. For each identity a collect shows a value that was its last stored one at some time of the
//! collect. It shows each identity that had stored before the collect began.
//!
//! From `tests_model/src/tree_tests.rt`:
//!
//! ```text
//! let begun = [world.begin(20), world.begin(10)];
//! let placed = [walked(world, 10, 5), walked(world, 20, 8)];
//! let first = (world.store(10, 7), collected(world, 20, 7));
//! ..
//! begun == [Ok(()), Ok(())]
//!     && placed == [Ok(Some(1)), Ok(Some(3))]
//!     && first == (Ok(()), Ok(Some(view_of(&[(10, 7)]))))
//! ..
//! let world = TreeWorld::new(rt.alloc(), 2);
//! ```
pub mod client;
pub mod collect;
pub mod collect_walk;
pub mod kept_segment;
pub mod laws;
pub mod node_registers;
pub mod register;
pub mod tree;
pub mod walker;
pub mod world;
pub mod world_laws;

pub use client::{Client, Task, TreeReply};
pub use collect::Collect;
pub use collect_walk::CollectWalk;
pub use kept_segment::KeptSegment;
pub use laws::{
    law_of_collects, law_of_collects_at_places, law_of_nodes_and_walks, law_of_tree_memory,
};
pub use node_registers::NodeRegisters;
pub use register::{TreeRegister, TreeValue, WrittenValue};
pub use tree::Tree;
pub use walker::Walker;
pub use world::TreeWorld;
pub use world_laws::{law_of_collect_calls, law_of_own_accesses, law_of_places, law_of_tree_calls};
