//! The ghost state of a seat of a splitter. No value of these types is made: they exist in proofs alone.

use model_splitter::VisitStage;
use std::collections::LinkedList;

/// The visit of a seat.
pub struct Visit {
    /// The number of its seat.
    pub number: u64,
    /// The last access that it made.
    pub stage: VisitStage,
    /// The number of accesses that it has made.
    pub accesses: u64,
    /// The rank of its write to X: greater than that of each visit that wrote X before it. 0 before it has begun.
    pub turn: u64,
    /// The word of the visit that it met, which is that visit's number plus one, or 0.
    ///
    /// A visit that went right met one that had set Y. A visit that went down met the one that it found in X.
    pub met: u64,
}

/// The ghost state of a seat of a splitter. It has one visit, but while seats are dealt and while two of them meet.
pub struct SplitterView {
    /// The number of seats of the splitter.
    pub seats: u64,
    /// The visits that this seat makes or made.
    pub visits: LinkedList<Visit>,
}
