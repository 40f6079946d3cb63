//! How the program goes on.

use crate::{Hosting, Racing, Serving};

/// What the caller has still to do.
#[derive(Clone, Copy, Drop)]
pub enum Outcome<'a> {
    /// Nothing. This is the status of the program.
    Ended(u8),
    /// To let threads race.
    Race(Racing),
    /// To serve connections.
    Serve(Serving),
    /// To host a hall.
    Host(Hosting<'a>),
    /// To tell who holds numbers by a record.
    Held,
}
