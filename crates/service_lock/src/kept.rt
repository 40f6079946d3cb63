//! What a caller keeps of an event.

use model_asked::Exchange;

/// An accepted event with its reply and its place in the history.
#[derive(Clone, Copy, Debug, Drop, PartialEq, Eq)]
pub struct Kept {
    /// Its place in the history, from 0.
    pub place: usize,
    /// The event and its reply.
    pub exchange: Exchange,
}
