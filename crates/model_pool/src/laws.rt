//! Laws of the pool, which run nothing.

ghost use Rattle.std.specs.Prelude.{◌≡◌, ℕ, ◌≤◌, ◌<◌, None};
ghost use Rattle.model_pool.specs.Machine.{pool};
ghost use Rattle.model_pool.specs.PoolState.{PoolState};
ghost use Rattle.model_pool.specs.Stay.{leave_access, probe_access};
ghost use Rattle.model_pool.specs.Widening.{widen_access, widen_refusal};
ghost use Rattle.model_pool.specs.declared.stay.Stay.{Stay};
ghost use Rattle.model_steps.specs.Machine.{IsProved};
ghost use Rattle.model_steps.specs.Steps.{SetsOrClears};

/// A law: a pool is a machine whose calls extend its history.
///
/// Each history, with every prefix, keeps the law of the pool. Each call's reply is one that the object may give after
/// the calls before it. So a call fails if and only if that is due. Widening makes a pool larger, to the most that it
/// may get.
pub fn law_of_pool_calls()
    ensures machine { IsProved pool }
    ensures wider { (most size more : ℕ) → widen_refusal most size more ≡ None → (size < more) × (more ≤ most) }
{}

/// A law: an access of a competitor tests and sets a bit, clears one, or accesses none. That of a pool that widens
/// tests and sets one, or accesses none.
pub fn law_of_own_accesses()
    ensures probe { (size : ℕ) (stay : Stay) → SetsOrClears (probe_access size stay) }
    ensures leave { (size : ℕ) (stay : Stay) → SetsOrClears (leave_access size stay) }
    ensures widen { (w : PoolState) → SetsOrClears (widen_access w) }
{}
