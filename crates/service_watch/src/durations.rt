//! How long calls took: how many took how long, how long all took together, and how long the last took.
//!
//! From `service_journal/src/file_disk.rt`:
//!
//! ```text
//! times: DurationHistogram::new(),
//! ..
//! self.times.note(took);
//! ```
ghost use Rattle.std.specs.Duration.{as_nanos};
ghost use Rattle.std.specs.Prelude.{◌≡◌, ◌/◌, map};
ghost use Rattle.service_watch.specs.durations.Histogram.{bucket_of, capped, of_no_call, with_call, with_nanos};

use std::time::Duration;

/// How many buckets there are.
pub const BUCKETS: usize = 13;

/// The calls that took no longer than a bound.
#[derive(Clone, Copy, Debug, Drop, PartialEq, Eq)]
pub struct Bucket {
    /// The longest that they took, in microseconds.
    pub bound: u64,
    /// How many there were. It stops at its greatest value.
    pub count: u64,
}

impl Bucket {
    /// No call is in it.
    fn new(bound: u64) -> Bucket
        ensures { result ≡ bucket_of bound }
    {
        Bucket { bound, count: 0 }
    }

    /// Counts a call of so many microseconds, if it took no longer than the bound.
    fn note(&mut self, micros: u64)
        ensures { self.new ≡ with_call micros self.old }
    {
        if micros <= self.bound {
            self.count = self.count.saturating_add(1);
        }
    }
}

/// How long calls took. All sums stop at their greatest value, and do not wrap.
#[derive(Clone, Copy, Debug, Drop, PartialEq, Eq)]
pub struct DurationHistogram {
    /// The calls by their bounds, from a tenth of a millisecond to a second: each bucket has those of the buckets before it too.
    pub buckets: [Bucket; BUCKETS],
    /// How many there were.
    pub count: u64,
    /// How many microseconds they took together.
    pub total: u64,
    /// How many microseconds the last took.
    pub last: u64,
}

/// The whole microseconds of a duration, at most as many as a number of 64 bits says.
fn whole_micros(took: Duration) -> u64
    ensures { result ≡ capped (as_nanos took / 1000) }
{
    took.as_micros().min(u64::MAX as u128) as u64
}

/// Counts a call of so many microseconds in each bucket whose bound it does not pass.
fn note_in_all(buckets: &mut [Bucket], micros: u64)
    ensures { buckets.new ≡ map (with_call micros) buckets.old }
{
    for bucket in buckets.iter_mut() {
        bucket.note(micros);
    }
}

impl DurationHistogram {
    /// No call was noted. The bounds are 1, 2 and 5 times a power of ten, from 100 to 1,000,000 microseconds.
    pub fn new() -> DurationHistogram
        ensures { result ≡ of_no_call }
    {
        DurationHistogram {
            buckets: [
                Bucket::new(100),
                Bucket::new(200),
                Bucket::new(500),
                Bucket::new(1_000),
                Bucket::new(2_000),
                Bucket::new(5_000),
                Bucket::new(10_000),
                Bucket::new(20_000),
                Bucket::new(50_000),
                Bucket::new(100_000),
                Bucket::new(200_000),
                Bucket::new(500_000),
                Bucket::new(1_000_000),
            ],
            count: 0,
            total: 0,
            last: 0,
        }
    }

    /// Notes a call that took so long.
    pub fn note(&mut self, took: Duration)
        ensures { self.new ≡ with_nanos (as_nanos took) self.old }
    {
        let micros = whole_micros(took);
        note_in_all(&mut self.buckets, micros);
        self.count = self.count.saturating_add(1);
        self.total = self.total.saturating_add(micros);
        self.last = micros;
    }
}

#[cfg(test)]
mod tests {
    use super::{BUCKETS, DurationHistogram};
    use std::time::Duration;

    /// How many calls each bucket has.
    fn counts(histogram: &DurationHistogram) -> [u64; BUCKETS] {
        histogram.buckets.map(|bucket| bucket.count)
    }

    #[test]
    fn a_bucket_has_those_of_its_bound_and_below(rt: HostRuntime) {
        let mut histogram = DurationHistogram::new();
        histogram.note(Duration::from_micros(100));
        histogram.note(Duration::from_micros(101));
        histogram.note(Duration::from_millis(1_000));
        histogram.note(Duration::from_micros(1_000_001));
        let wanted = [1, 2, 2, 2, 2, 2, 2, 2, 2, 2, 2, 2, 3];
        assert_eq!(rt; counts(&histogram), wanted);
        assert_eq!(rt; histogram.count, 4);
        assert_eq!(rt; histogram.total, 2_000_202);
        assert_eq!(rt; histogram.last, 1_000_001);
    }

    #[test]
    fn at_first_nothing_is_noted(rt: HostRuntime) {
        let histogram = DurationHistogram::new();
        assert_eq!(rt; counts(&histogram), [0; BUCKETS]);
        assert_eq!(rt; histogram.count, 0);
    }
}
