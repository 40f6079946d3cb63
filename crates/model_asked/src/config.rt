//! The configuration of a run.

ghost use Rattle.std.specs.Prelude.{◌≡◌, ◌<◌, ◌+◌, ◌*◌, ◌↔◌, true, IfOk, IfErr, IsOk};
ghost use Rattle.model_asked.specs.Ranges.{IsConfigRange};
ghost use Rattle.model_asked.specs.rounds.Rounds.{most_proposals};

use crate::kind::WorldKind;
use model_steps::Refusal;

/// The most numbers that the pool of a run may get, but in the wide world.
pub const MOST_NUMBERS: usize = 64;

/// The configuration of a run: its world and its sizes, each in its range.
#[derive(Clone, Copy, Debug, Drop, PartialEq, Eq)]
pub struct Config {
    /// The world.
    pub world: WorldKind,
    /// The most participants: from 1 to 64 if the world is `Tree`, and from 1 to 16 otherwise.
    pub m: u64,
    /// The size of the pool: from 1 to 65,536 if the world is `Wide`, and from 1 to 64 otherwise.
    pub k: u64,
    /// The round limit, from 1 to 1,000,000.
    pub limit: u64,
    ghost in_range: { IsConfigRange world m k limit },
}

impl Config {
    /// Makes a configuration of these values.
    ///
    /// # Errors
    ///
    /// `OutOfRange`: one of them is outside its range.
    pub fn new(world: WorldKind, m: u64, k: u64, limit: u64) -> Result<Config, Refusal>
        ensures ok { IfOk result (λ c. (c.world ≡ world) × (c.m ≡ m) × (c.k ≡ k) × (c.limit ≡ limit)) }
        ensures range { IsOk result ↔ IsConfigRange world m k limit }
        ensures only { IfErr result (λ r. r ≡ Refusal.OutOfRange) }
    {
        if m < 1
            || world.most() < m
            || k < 1
            || world.most_numbers() < k
            || limit < 1
            || 1_000_000 < limit
        {
            return Err(Refusal::OutOfRange);
        }
        Ok(Config { world, m, k, limit })
    }

    /// Whether no participant can use up its rounds: whether twice the round limit is above `S(m) + 2`, where
    /// `S(m) = 3(5^m - 1)/4` is the most proposals that `m` participants make, all together.
    ///
    /// One participant makes at most half of them and one. The least such limits are 3, 11, 48, 236, 1,173, 5,861,
    /// 29,298, 146,486 and 732,423 for `m` from 1 to 9. From `m = 10` on there is none.
    pub fn cannot_spend(&self) -> bool
        ensures { (result ≡ true) ↔ (most_proposals self.now.m + 2 < 2 * self.now.limit) }
    {
        let mut most = 0;
        for begun in 0..self.m {
            let _ = begun;
            most = 5 * most + 3;
            if 2 * self.limit <= most + 2 {
                return false;
            }
        }
        true
    }
}
