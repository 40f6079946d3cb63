//! The last changes of who holds numbers, for those who watch.

ghost use Rattle.std.specs.Prelude.{◌≡◌, ◌≤◌, ◌+◌, ℕ, [], length, drop, option_copied, IfSome};
ghost use Rattle.service_loop.specs.Changes.{GoesOnBy, IsNoted, change_of, changes_from, end_of};

use crate::change::{Change, change_of};
use model_asked::{Event, Reply};
use std::alloc::Global;
use std::marker::Model;

/// So many changes are kept at most. Where one comes behind them, the first half is forgotten.
const MOST_CHANGES: usize = 2_048;

/// No change is noted behind so many.
pub const MOST_POINTS: u64 = 1 << 62;

/// The last changes of who holds numbers, each at a point: how many there were before it.
#[derive(Drop)]
pub struct Feed {
    /// How many changes are forgotten.
    first: u64,
    changes: Vec<Change>,
}

impl Model for Feed {
    ghost use Rattle.std.specs.Prelude.{◌≤◌, ◌+◌, length};
    ghost use Rattle.service_loop.specs.FeedState.{FeedState};
    ghost use Rattle.service_loop.specs.declared.feed.TheConstants.{MOST_POINTS};

    ghost Value = { FeedState };

    ghost view = { λ f. record { first = f.first; changes = f.changes.items } };

    ghost invariant = { λ f. f.first + length f.changes.items ≤ MOST_POINTS };
}

impl Feed {
    /// There was no change.
    pub fn new(alloc: Global) -> Feed
        ensures { result ≡ record { first = 0; changes = [] } }
    {
        Feed {
            first: 0,
            changes: Vec::new(alloc),
        }
    }

    /// Returns the point at which the changes end.
    pub fn end(&self) -> u64
        ensures end { result ≡ end_of self.now }
        ensures most { result ≤ MOST_POINTS }
    {
        self.first + self.changes.len() as u64
    }

    // The first so many are forgotten.
    fn forget(&mut self, count: usize)
        requires { count ≤ length self.old.changes }
        ensures { self.new ≡ record { first = self.old.first + count; changes = drop count self.old.changes } }
    {
        self.first += count as u64;
        self.changes.drain(..count);
    }

    // The first half is forgotten, where so many are kept.
    fn make_room(&mut self)
        ensures { (count : ℕ) × (count ≤ length self.old.changes) ×
            (self.new ≡ record { first = self.old.first + count; changes = drop count self.old.changes }) }
    {
        if MOST_CHANGES <= self.changes.len() {
            self.forget(MOST_CHANGES / 2);
        }
    }

    // Notes a change. Where an allocation fails, all so far are forgotten, and it too.
    fn add(&mut self, change: Change)
        ensures { IsNoted change self.old self.new }
    {
        let end = self.end();
        if end == MOST_POINTS {
            return;
        }
        self.make_room();
        if self.changes.push(change).is_err() {
            self.changes.clear();
            self.first = end + 1;
        }
    }

    /// Notes what an event that was answered so changes of who holds numbers.
    #[inline(always)]
    pub fn note(&mut self, event: Event, reply: &Reply<()>)
        ensures { GoesOnBy (change_of event reply.now) self.old self.new }
    {
        if let Some(change) = change_of(event, reply) {
            self.add(change);
        }
    }

    /// Returns the changes from a point on, or `None` if some of them are forgotten or it is behind their end.
    pub fn from(&self, point: u64) -> Option<&[Change]>
        ensures changes { option_copied result ≡ changes_from self.now point }
        ensures within { IfSome result (λ changes. (point + length changes.now ≡ end_of self.now) × (end_of self.now ≤ MOST_POINTS)) }
    {
        if point < self.first || self.end() < point {
            return None;
        }
        Some(&self.changes[(point - self.first) as usize..])
    }
}
