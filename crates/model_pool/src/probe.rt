//! What a probe returns.

/// What a probe returns (Moir and Anderson 1995).
#[derive(Clone, Copy, Debug, Drop, PartialEq, Eq)]
pub enum Probe {
    /// The bit was set: another competitor holds its number. The next probe is of the next bit.
    Missed,
    /// The competitor holds this number, from 1 to the size of the pool, and no other does.
    Got(u32),
}
