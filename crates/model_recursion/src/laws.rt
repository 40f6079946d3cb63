//! Laws that run nothing.

ghost use Rattle.std.specs.Prelude.{◌≡◌, ◌≤◌, ◌<◌, ◌+◌, ◌*◌, ℕ};
ghost use Rattle.std.proofs.Common.{suc};
ghost use Rattle.model_steps.specs.Machine.{IsProved};
ghost use Rattle.model_recursion.specs.Levels.{Level, KeepsLocally, Follows, IsSplit, IsRun, HasName, size};
ghost use Rattle.model_recursion.specs.Machine.{naming};

/// A law: what one level does to the next, and what it comes to over all levels, with no memory.
///
/// If at most `k + 1` seats are at each instance of level `k + 1`, and no two of its instances share a name, the same holds of
/// level `k`. So no two seats get one name, and each name is within the range of the seats at the first instance.
pub fn law_of_levels()
    ensures split { (n k : ℕ) (above below : Level) → KeepsLocally n k above → Follows k above below → IsSplit n (suc k) above → IsSplit n k below }
    ensures distinct { (n m : ℕ) (rows : ℕ → Level) → IsRun n m 0 rows → (k j p q name : ℕ) → k < m → j < m → HasName k rows p name → HasName j rows q name →
        p ≡ q }
    ensures within { (n m : ℕ) (rows : ℕ → Level) → IsRun n m 0 rows → (k p name : ℕ) → k < m → HasName k rows p name → (1 ≤ name) ×
        (name + 1 ≤ 2 * size n (rows m) 1) }
{}

/// A law: recursive renaming is a machine whose lists of calls satisfy the specification `NamingSpec`, each with every prefix
/// of it, and return the errors that are due.
pub fn law_of_naming()
    ensures machine { IsProved naming }
{}
