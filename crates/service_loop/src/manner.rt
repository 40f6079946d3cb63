//! How a server takes numbers for its clients.

/// How a server takes numbers for its clients.
#[derive(Clone, Copy, Debug, Drop, PartialEq, Eq)]
pub struct Manner {
    /// Whether a number is searched for by one `seek`, as in the wide world, and elsewhere by `probe`.
    pub wide: bool,
    /// Whether a client that takes a number is told a token.
    pub tokens: bool,
}
