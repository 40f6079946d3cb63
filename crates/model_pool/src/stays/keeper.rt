//! Who keeps a stay.

ghost use Rattle.std.specs.Prelude.{◌≡◌};
ghost use Rattle.model_pool.specs.stays.Stays.{after_end, after_quit, is_due, is_kept_by, is_open};

/// Who keeps a stay.
#[derive(Clone, Copy, Debug, Drop, PartialEq, Eq)]
pub enum Keeper {
    /// The keeper of this number, which has not ended.
    Open(u64),
    /// Nobody since this tick, at which the keeper ended.
    Gone(u64),
    /// Nobody, since the keeper said `quit`.
    Quit,
}

impl Keeper {
    /// Returns who keeps the stay after this keeper ended at this tick.
    pub fn after_end(self, keeper: u64, tick: u64) -> Keeper
        ensures { result ≡ after_end keeper tick self }
    {
        match self {
            Keeper::Open(open) if open == keeper => Keeper::Gone(tick),
            other => other,
        }
    }

    /// Returns who keeps the stay after this keeper said `quit`.
    pub fn after_quit(self, keeper: u64) -> Keeper
        ensures { result ≡ after_quit keeper self }
    {
        match self {
            Keeper::Open(open) if open == keeper => Keeper::Quit,
            other => other,
        }
    }

    /// Whether the keeper of this number keeps the stay.
    pub fn is(self, keeper: u64) -> bool
        ensures { result ≡ is_kept_by keeper self }
    {
        match self {
            Keeper::Open(open) => open == keeper,
            Keeper::Gone(_) | Keeper::Quit => false,
        }
    }

    /// Whether it has not ended.
    pub fn is_open(self) -> bool
        ensures { result ≡ is_open self }
    {
        match self {
            Keeper::Open(_) => true,
            Keeper::Gone(_) | Keeper::Quit => false,
        }
    }

    /// Whether the stay is to end at this tick: nobody kept it for more than `grace` ticks, or its keeper said `quit`.
    pub fn is_due(self, grace: u64, tick: u64) -> bool
        ensures { result ≡ is_due grace tick self }
    {
        match self {
            Keeper::Open(_) => false,
            Keeper::Gone(since) => since < tick && grace < tick - since,
            Keeper::Quit => true,
        }
    }
}
