//! Where a visit ends.

/// How a visit to a splitter ends (Moir and Anderson 1995).
#[derive(Clone, Copy, Debug, Drop, PartialEq, Eq)]
pub enum Way {
    /// The visitor stops: at most one visitor does.
    Stop,
    /// It found Y set. Not all visitors go right.
    Right,
    /// It found another identity in X. Not all visitors go down.
    Down,
}
