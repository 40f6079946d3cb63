//! The ghost state of a seat of a pool. No value of these types is made: they exist in proofs alone.

use std::collections::LinkedList;

/// What a call does.
pub enum CallStage {
    /// It competes for no number: it has not begun, or has tried a hint alone.
    AtRest,
    /// It walks from number 1 upward.
    Seeking,
    /// It holds its number.
    Holding,
    /// It gave its number back.
    Ended,
}

/// One stay in the pool: from the first access that seeks a number to the one that gives it back.
pub struct Call {
    /// What it does.
    pub stage: CallStage,
    /// The place that it tries next, or that it holds: the number less one.
    pub place: u64,
    /// The places that its walk found held, the newest first.
    pub met: LinkedList<u64>,
    /// The places of hints that it found held before its walk, the newest first.
    pub met_aside: LinkedList<u64>,
    /// The number of accesses that it has made.
    pub accesses: u64,
    /// Whether it got its number by a hint, without a walk.
    pub hinted: bool,
    /// Whether its last access was a load of its walk that found the word 0.
    pub sighted: bool,
    /// The number of races that its walk has lost: swaps that found a word 1 which the load just before had found 0.
    pub lost: u64,
    /// The number of comings and goings of calls before it came.
    pub came: u64,
    /// The same before it took its number.
    pub took: u64,
    /// The same before it went.
    pub went: u64,
    /// In a line, how many calls competed at each moment from its coming to its taking, the newest first.
    pub crowds: LinkedList<u64>,
}

/// The ghost state of a seat of a pool.
pub struct PoolView {
    /// The calls of this seat: none, one, two while two holders meet, or more while tickets are dealt.
    pub calls: LinkedList<Call>,
    /// The calls that have ended.
    pub past: LinkedList<Call>,
}
