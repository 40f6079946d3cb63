//! Where the lines of an audit go.

use std::io::ErrorKind;

/// A log that lines are appended to. Nothing of a service depends on it.
pub trait AuditLog {
    /// Appends lines. Says whether all of them were written; where not, none was.
    fn write(&mut self, lines: &[u8]) -> bool;

    /// Is called about once a second.
    fn tick(&mut self);

    /// Why it could not be written or made anew when that was last tried.
    fn trouble(&self) -> Option<ErrorKind>;
}

// Where there is no log, none is wanted.
impl<L: AuditLog> AuditLog for Option<L> {
    fn write(&mut self, lines: &[u8]) -> bool {
        match self {
            Some(log) => log.write(lines),
            None => true,
        }
    }

    fn tick(&mut self) {
        if let Some(log) = self {
            log.tick();
        }
    }

    fn trouble(&self) -> Option<ErrorKind> {
        match self {
            Some(log) => log.trouble(),
            None => None,
        }
    }
}
