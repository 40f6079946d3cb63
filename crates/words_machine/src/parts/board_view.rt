//! The ghost state of a seat of a name board. No value of these types is made: they exist in proofs alone.

use std::collections::LinkedList;

/// A word, from 0, and the identity that it holds and always will.
pub struct BoardClaim {
    /// The number of the word.
    pub word: u64,
    /// The identity that it holds.
    pub identity: u64,
}

/// The ghost state of a seat of a board.
pub struct BoardView {
    /// The claims that are this seat's: none, one, two while two of them meet, or more when a board ends.
    pub claims: LinkedList<BoardClaim>,
    /// The number of accesses that it has made.
    pub accesses: u64,
    /// What its last post or confirm found in the word, or 0.
    pub found: u64,
    /// What it read in one word after another as the board ended, the newest first.
    pub read: LinkedList<u64>,
}
