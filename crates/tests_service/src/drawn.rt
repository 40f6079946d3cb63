//! Words in a row, and the events that they draw.

use model_asked::Event;

/// Words of a linear congruential generator, of which the upper bits are used (Knuth's multiplier).
#[derive(Drop)]
pub(crate) struct Words {
    state: u64,
}

impl Words {
    /// From this seed on.
    pub(crate) fn new(seed: u64) -> Words {
        Words { state: seed }
    }

    /// A word below a bound, which is not 0; 0 where it is.
    pub(crate) fn below(&mut self, bound: u64) -> u64 {
        self.state = self
            .state
            .wrapping_mul(6_364_136_223_846_793_005)
            .wrapping_add(1_442_695_040_888_963_407);
        (self.state >> 33).checked_rem(bound).unwrap_or(0)
    }

    /// An event of a hall with so many numbers, by one of the identities from 1 to a bound: mostly of the pool and the slots.
    pub(crate) fn event(&mut self, size: u64, bound: u64) -> Event {
        let id = self.below(bound).saturating_add(1);
        match self.below(100) {
            0 => Event::Widen(size.saturating_add(self.below(3))),
            1..=3 => Event::Begin(id),
            4..=15 => Event::Step(id),
            16..=30 => Event::Enter(id),
            31..=70 => Event::Probe(id),
            71..=82 => Event::Leave(id),
            83..=93 => Event::Put(id, self.below(10)),
            _ => Event::Get(id),
        }
    }
}
