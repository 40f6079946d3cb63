//! Which events of a record a page shows.

ghost use Rattle.std.specs.Prelude.{◌≡◌, ◌+◌, ◌-◌, ◌<◌, ◌≤◌, ◌↔◌, IsTrue, nat_le};

/// Which events of a record a page shows, numbered from 1.
#[derive(Clone, Copy, Debug, Drop, PartialEq, Eq)]
pub struct Stretch {
    /// The number of the first. 0 means 1.
    pub from: u64,
    /// How many they are at most.
    pub count: u64,
}

impl Stretch {
    /// Returns whether the event with `before` events before it is the first that the stretch may have.
    pub fn begins_after(self, before: u64) -> bool
        ensures { IsTrue result ↔ (before ≡ self.from - 1) }
    {
        before == self.from.saturating_sub(1)
    }

    /// Returns whether the stretch has none of the first `seen` events.
    pub fn is_past(self, seen: u64) -> bool
        ensures { result ≡ nat_le seen (self.from - 1) }
    {
        seen <= self.from.saturating_sub(1)
    }

    /// Returns whether the stretch has the event with `before` events before it.
    pub fn has(self, before: u64) -> bool
        ensures { IsTrue result ↔ (self.from - 1 ≤ before) × (before < self.from - 1 + self.count) }
    {
        let first = self.from.saturating_sub(1);
        first <= before && before - first < self.count
    }
}
