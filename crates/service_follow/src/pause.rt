//! Patience with a store that does not answer.

ghost use Rattle.std.specs.Prelude.{◌≡◌, ℕ, true, false};

/// Patience with a store that does not answer, or answers late.
pub trait Pause {
    /// Patience has ended.
    ghost is_over: { Self → Type 0 } = { λ _. Unit {0} };

    /// It was so before a wait, and is so after it.
    ghost waited: { Self → Self → Type 0 } = { λ _ _. Unit {0} };

    /// Its clock tells this many seconds.
    ghost tells: { Self → ℕ → Type 0 } = { λ _ _. Unit {0} };

    /// Begins to wait for the store anew.
    fn begin(&mut self);

    /// Waits a little, and tells whether patience goes on.
    fn again(&mut self) -> bool
        ensures over { result ≡ false → is_over self.new }
        ensures waited { result ≡ true → waited self.old self.new };

    /// How many seconds its clock has counted since some moment.
    fn seconds(&self) -> u64
        ensures { tells self.now result };
}
