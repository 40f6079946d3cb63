//! What a seat knows. No value of these types is made: they exist in proofs alone.

use model_steps::Participant;
use std::collections::LinkedList;

/// Where the participant of a number stands.
pub struct Stand<P, O> {
    /// The number of its seat.
    pub number: u64,
    /// The participant, once it has begun.
    pub participant: Option<Participant<P>>,
    /// What its program has ended with.
    pub outcome: Option<O>,
    /// How many accesses it has made.
    pub accesses: u64,
    /// How many had begun at its last access, itself among them.
    pub entered: u64,
}

/// The program of a number has ended with this.
pub struct Ending<O> {
    /// The number of the participant's seat.
    pub number: u64,
    /// What its program has ended with.
    pub outcome: O,
}

/// What a seat knows.
pub struct SeatView<P, O> {
    /// How many seats there are.
    pub most: u64,
    /// The participants that are this seat's to step: one, but where seats are still to be dealt or while two of them meet.
    pub stands: LinkedList<Stand<P, O>>,
    /// The endings that it can tell of.
    pub endings: LinkedList<Ending<O>>,
}
