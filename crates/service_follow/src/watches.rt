//! Since when nothing was heard of the front ends that keep stays.

ghost use Rattle.std.specs.Prelude.{◌≡◌, OnOk, OnErr, IfOk, map, []};
ghost use Rattle.service_follow.specs.Watched.{due_of, is_due, is_same_stay, keeps_one, since_of, watched};

use crate::front_end_stay::FrontEndStay;
use std::alloc::{AllocError, Global};

/// A stay, and the first of the ticks in a row at which the log told the same of it: nothing was heard of its front end since.
#[derive(Clone, Copy, Debug, Drop)]
pub struct Watch {
    /// The stay.
    pub stay: FrontEndStay,
    /// The tick.
    pub since: u64,
}

/// The stays in a pool, as they were at a tick.
#[derive(Drop)]
pub(crate) struct Watches {
    alloc: Global,
    pub(crate) watches: Vec<Watch>,
}

// Whether one stay is kept by one front end, of which no entry was applied between.
fn is_same_stay(stay: &FrontEndStay, other: &FrontEndStay) -> bool
    ensures { result ≡ is_same_stay stay.now other.now }
{
    stay.identity == other.identity && stay.last == other.last && stay.token == other.token
}

// The first tick in a row at which a stay was so.
fn since_of(watches: &[Watch], stay: &FrontEndStay, tick: u64) -> u64
    ensures { result ≡ since_of watches.now stay.now tick }
{
    for watch in watches {
        if is_same_stay(&watch.stay, stay) {
            return watch.since;
        }
    }
    tick
}

impl Watch {
    // Whether the stay is to end: one that is kept here if it is among those that nobody keeps any more, and else once nothing was heard of
    // its front end for more than so many ticks.
    fn is_due(&self, token: &[u8; 32], left: &[u64], patience: u64, tick: u64) -> bool
        ensures { result ≡ is_due token.now left.now patience tick self.now }
    {
        if self.stay.token == *token {
            left.contains(&self.stay.identity)
        } else {
            patience < tick.saturating_sub(self.since)
        }
    }
}

impl Watches {
    /// Makes one of no stays.
    pub(crate) fn new(alloc: Global) -> Watches
        ensures { result.watches.items ≡ [] }
    {
        Watches {
            alloc,
            watches: Vec::new(alloc),
        }
    }

    /// Looks at the stays at a tick.
    ///
    /// # Errors
    ///
    /// `AllocError`: an allocation failed. Nothing has changed.
    pub(crate) fn look(&mut self, kept: &[FrontEndStay], tick: u64) -> Result<(), AllocError>
        ensures looked { OnOk result (self.new.watches.items ≡ map (watched tick self.old.watches.items) kept.now) }
        ensures unchanged { OnErr result (self.new.watches.items ≡ self.old.watches.items) }
    {
        let mut watches = Vec::new(self.alloc);
        for stay in kept {
            let watch = Watch {
                stay: *stay,
                since: since_of(&self.watches, stay, tick),
            };
            watches.push(watch)?;
        }
        self.watches = watches;
        Ok(())
    }

    /// Returns whether the front end of this token keeps a stay.
    pub(crate) fn keeps_one(&self, token: &[u8; 32]) -> bool
        ensures { result ≡ keeps_one token.now self.now.watches.items }
    {
        for watch in &self.watches {
            if watch.stay.token == *token {
                return true;
            }
        }
        false
    }

    /// Returns the identities whose stays are to end, in the order in which they entered.
    ///
    /// # Errors
    ///
    /// `AllocError`: an allocation failed.
    pub(crate) fn due(
        &self,
        token: &[u8; 32],
        left: &[u64],
        patience: u64,
        tick: u64,
    ) -> Result<Vec<u64>, AllocError>
        ensures { IfOk result (λ due. due.items ≡ due_of token.now left.now patience tick self.now.watches.items) }
    {
        let mut due = Vec::new(self.alloc);
        for watch in &self.watches {
            if watch.is_due(token, left, patience, tick) {
                due.push(watch.stay.identity)?;
            }
        }
        Ok(due)
    }
}
