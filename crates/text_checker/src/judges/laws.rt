//! A law of views, which runs nothing. Judges of views use it.

ghost use Rattle.std.specs.Prelude.{◌≡◌, ℕ, ◌∷◌, List, Some};
ghost use Rattle.model_steps.specs.View.{IsRising, value_of};

/// A law: the value in the first pair of a view is the view's. So is the value in each other pair, if the view rises.
pub fn law_of_first_pairs()
    ensures first { (x : ℕ × ℕ) (xs : List (ℕ × ℕ)) → value_of x.0 (x ∷ xs) ≡ Some x.1 }
    ensures further { (x : ℕ × ℕ) (xs : List (ℕ × ℕ)) (q n : ℕ) → IsRising (x ∷ xs) → value_of q xs ≡ Some n → value_of q (x ∷ xs) ≡ Some n }
{}
