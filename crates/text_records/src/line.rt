//! A line of a record.

use crate::reported::Reported;
use model_asked::Event;

/// A line of a record: an event, and what the record reports of its reply.
#[derive(Debug)]
pub struct Line {
    /// The event.
    pub event: Event,
    /// What the record reports of its reply.
    pub reported: Reported,
}

/// A line as it was read, and what is known of the bytes that were read.
#[derive(Debug, Drop)]
pub struct Row {
    /// The line.
    pub line: Line,
    /// Whether the bytes are those that `put_line` writes of the line, so that they may be copied. If not, nothing is
    /// known.
    pub is_canonical: bool,
}

// By hand, so that the code that drops a line is here alone, and not at each place where one goes out of scope.
impl Drop for Line {
    fn drop(self) {
        let Line {
            event: _,
            reported: _,
        } = self;
    }
}
