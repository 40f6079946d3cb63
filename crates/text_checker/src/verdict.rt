//! The verdict on a record.

use crate::Reason;

/// The verdict on a record. Lines are numbered from 1, which is the header.
#[derive(Clone, Copy, Debug, Drop, PartialEq, Eq)]
pub enum Verdict {
    /// It is a record of a run.
    Yes,
    /// The line with this number cannot follow those before it, for this reason.
    No(u64, Reason),
    /// The line with this number is no line of a record.
    BadRecord(u64),
    /// An allocation failed.
    NoMemory,
}
