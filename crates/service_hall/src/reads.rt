//! Whether a history stores reads.

/// Whether a history stores reads. A read is a `get`: it changes nothing of a desk.
#[derive(Clone, Copy, Debug, Drop, PartialEq, Eq)]
pub enum Reads {
    /// A `get` is an event of the history, as all other events are.
    Logged,
    /// A `get` is answered at its place, and stored nowhere.
    Plain,
}
