//! State machines.

ghost use Rattle.std.specs.Prelude.{ℕ, List, OnOk};

use std::alloc::AllocError;

/// Why an entry was not applied.
#[derive(Clone, Copy, Debug, Drop, PartialEq, Eq)]
pub enum ApplyFault {
    /// An allocation failed.
    Memory,
    /// The entry is damaged: it tells what no state can follow from.
    Damaged,
}

impl From<AllocError> for ApplyFault {
    fn from(_refused: AllocError) -> ApplyFault {
        ApplyFault::Memory
    }
}

/// A state machine that applies entries, each a list of bytes.
pub trait Machine {
    /// The replies to an entry.
    type Replies;

    /// The relation of the machine, an entry, the replies to it, and the machine after it.
    ghost applies: { Self → List ℕ → Self.Replies → Self → Type 0 };

    /// These are no replies.
    ghost silent: { Self.Replies → Type 0 };

    /// Applies an entry, and stores its replies in place of those before.
    ///
    /// # Errors
    ///
    /// Nothing is known of the machine after either:
    ///
    /// - `Memory`: an allocation failed.
    /// - `Damaged`: the entry is damaged.
    fn apply(&mut self, entry: &[u8], replies: &mut Self::Replies) -> Result<(), ApplyFault>
        ensures { OnOk result (applies self.old entry.now replies.new self.new) };

    /// Replaces the replies by none.
    fn forget(replies: &mut Self::Replies)
        ensures { silent replies.new };
}
