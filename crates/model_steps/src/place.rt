//! What a participant gets by walking.

/// A place: the number of a door, a node or a segment. Each participant has a place of its own, whose segment it alone
/// writes.
///
/// Nodes of a tree are numbered like a heap, so a place has 128 bits.
pub type Place = u128;
