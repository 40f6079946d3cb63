//! From which number on the points are counted that those who watch are told.

ghost use Rattle.std.specs.Prelude.{◌≡◌, ◌+◌, ◌≤◌, min};
ghost use Rattle.service_loop.specs.declared.feed.TheConstants.{MOST_POINTS};

use crate::feed::MOST_POINTS;
use std::marker::Model;
use std::rt::Clock;
use std::time::{SystemTime, UNIX_EPOCH};

/// No server has more changes in a millisecond.
const POINTS_A_MILLISECOND: u64 = 1_024;

/// The point before the first change: a server that starts later has a greater one, so that no point of an earlier server is taken for one of its own.
#[derive(Drop)]
pub struct FirstPoint {
    point: u64,
}

impl Model for FirstPoint {
    ghost use Rattle.std.specs.Prelude.{◌≤◌, ℕ};
    ghost use Rattle.service_loop.specs.declared.feed.TheConstants.{MOST_POINTS};

    ghost Value = { ℕ };

    ghost view = { λ p. p.point };

    ghost invariant = { λ p. p.point ≤ MOST_POINTS };
}

// The milliseconds since 1970 by the clock of the system; 0 where it tells none.
fn milliseconds<R: Clock>(rt: &R) -> u64 {
    let Ok(now) = SystemTime::now(rt) else {
        return 0;
    };
    match now.duration_since(UNIX_EPOCH) {
        Ok(since) => since
            .as_secs()
            .saturating_mul(1_000)
            .saturating_add(u64::from(since.subsec_millis())),
        Err(_) => 0,
    }
}

impl FirstPoint {
    /// The first point of a server that starts now.
    pub fn at_start<R: Clock>(rt: &R) -> FirstPoint {
        FirstPoint::new(milliseconds(rt).saturating_mul(POINTS_A_MILLISECOND))
    }

    /// This point, or the greatest that there may be.
    pub fn new(point: u64) -> FirstPoint
        ensures { result ≡ min point MOST_POINTS }
    {
        FirstPoint {
            point: point.min(MOST_POINTS),
        }
    }

    /// Returns the point itself.
    pub fn get(&self) -> u64
        ensures point { result ≡ self.now }
        ensures most { result ≤ MOST_POINTS }
    {
        self.point
    }
}
