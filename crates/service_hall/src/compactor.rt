//! When a history is compacted.

ghost use Rattle.std.specs.Prelude.{◌≡◌, ◌↔◌, ◌≤◌, true, false, length, IfSome, IfNone};
ghost use Rattle.service_hall.specs.Compactions.{IsCompacted};
ghost use Rattle.service_hall.specs.Dues.{due_after, due_again};

use crate::Hall;
use crate::compacting::compacted;
use crate::hall::MOST_EVENTS;
use std::alloc::Global;

/// The length of a history, in events, at which a compaction is due.
pub const DUE_EVENTS: usize = 900_000;

/// Compacts the history of one hall when it has grown long.
///
/// - The first compaction is due at more than 450,000 events, a later one at 900,000.
/// - After one that left more than 800,000 events, the next is due when half of the remaining room is used up.
/// - If this half is fewer than 10,000 events, none is due any more. The hall is then full of renaming.
#[derive(Drop)]
pub struct Compactor {
    due: usize,
    /// Whether the result of the last compaction could not be stored.
    put_off: bool,
}

/// Returns the length of a history at which the next compaction is due, after one that left `left` events.
fn due_after(left: usize) -> usize
    ensures { result ≡ due_after left }
{
    let room = MOST_EVENTS.saturating_sub(left) / 2;
    if room < 10_000 {
        return usize::MAX;
    }
    DUE_EVENTS.max(left.saturating_add(room))
}

impl Compactor {
    /// Makes a compactor for a hall that was just opened.
    pub fn new() -> Compactor
        ensures due { result.due ≡ 450001 }
        ensures put_off { result.put_off ≡ false }
    {
        Compactor {
            due: DUE_EVENTS / 2 + 1,
            put_off: false,
        }
    }

    /// Makes a compactor whose first compaction is due at so many events.
    pub fn at(events: usize) -> Compactor
        ensures due { result.due ≡ events }
        ensures put_off { result.put_off ≡ false }
    {
        Compactor {
            due: events,
            put_off: false,
        }
    }

    /// Returns true if and only if the hall's history is long enough for a compaction.
    pub fn is_due(&self, hall: &Hall) -> bool
        ensures { result ≡ true ↔ (self.now.due ≤ length hall.now.history) }
    {
        self.due <= hall.len()
    }

    /// Records that the result of a compaction could not be stored. The next is due when another tenth of the room is
    /// used up, and not at each event.
    pub fn put_off(&mut self, hall: &Hall)
        ensures due { self.new.due ≡ due_again (length hall.now.history) }
        ensures put_off { self.new.put_off ≡ true }
    {
        let room = MOST_EVENTS.saturating_sub(hall.len());
        self.due = hall.len().saturating_add(room / 10 + 1);
        self.put_off = true;
    }

    /// Returns true if and only if the result of the last compaction could not be stored.
    pub fn is_put_off(&self) -> bool
        ensures { result ≡ self.now.put_off }
    {
        self.put_off
    }

    /// Returns what `compacted` makes of a hall, and sets when the next compaction is due.
    pub fn compacted(&mut self, alloc: Global, hall: &Hall) -> Option<Hall>
        ensures compacted { IfSome result (λ new. IsCompacted hall.now new) }
        ensures next { IfSome result (λ new. self.new.due ≡ due_after (length new.history)) }
        ensures none { IfNone result (self.new.due ≡ due_after (length hall.now.history)) }
        ensures put_off { self.new.put_off ≡ false }
    {
        let new = compacted(alloc, hall);
        let left = match &new {
            Some(shorter) => shorter.len(),
            None => hall.len(),
        };
        self.due = due_after(left);
        self.put_off = false;
        new
    }
}
