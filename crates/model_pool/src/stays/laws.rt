//! What is known of a stay that is due.

ghost use Rattle.std.specs.Prelude.{ℕ, List};
ghost use Rattle.model_pool.specs.declared.stays.kept_stay.KeptStay.{KeptStay};
ghost use Rattle.model_pool.specs.stays.Stays.{Act, Has, IsDue, IsGraced, after_acts};

/// A law, which runs nothing, of each stay that is due after a list of acts.
///
/// A keeper kept it, which has said `quit` or has ended more than the grace time ago, and no keeper has kept it since. Or
/// nobody kept it from the first, for more than the grace time, and no keeper has kept it since.
pub fn law_of_grace()
    ensures { (grace tick : ℕ) (first : List KeptStay) (acts : List Act) (stay : KeptStay) → Has stay (after_acts first acts) →
        IsDue grace tick stay.keeper → IsGraced grace tick first acts stay }
{}
