//! Stays that end since their front ends are gone, for people.

use crate::front_end_stay::FrontEndStay;
use std::alloc::Global;
use std::marker::Model;

/// The identities whose stays the last entry of a front end ends since their own front ends are gone. No clause speaks of them.
#[derive(Drop)]
pub(crate) struct GoneStays {
    offered: Vec<u64>,
    /// Whether that entry stands.
    stands: bool,
}

impl Model for GoneStays {
    ghost Value = { Unit {0} };

    ghost view = { λ _. tt };
}

impl GoneStays {
    /// There are none.
    pub(crate) fn new(alloc: Global) -> GoneStays {
        GoneStays {
            offered: Vec::new(alloc),
            stands: false,
        }
    }

    /// None were ended.
    pub(crate) fn clear(&mut self) {
        self.offered.clear();
        self.stands = false;
    }

    /// These stays are to end, of which those of other front ends than the one of this token are noted, as far as there is room.
    pub(crate) fn note(&mut self, token: &[u8; 32], kept: &[FrontEndStay], ended: &[u64]) {
        self.clear();
        for stay in kept {
            if stay.token != *token && ended.contains(&stay.identity) {
                let _ = self.offered.push(stay.identity);
            }
        }
    }

    /// The entry that ends them stands.
    pub(crate) fn stand(&mut self) {
        self.stands = true;
    }

    /// Those that were ended.
    pub(crate) fn ended(&self) -> &[u64] {
        if self.stands { &self.offered } else { &[] }
    }
}
