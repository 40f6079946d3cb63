//! Laws of the grid, which run nothing: of its registers and the walks alone, and of the calls of its world.

ghost use Rattle.std.specs.Prelude.{◌≡◌, ◌↔◌, ℕ, ◌+◌, ◌*◌, ◌/◌, ◌≤◌, ◌<◌, Option, Some, None};
ghost use Rattle.model_splitter.specs.grid.Laws.{AgreesWithBeginner, AgreesAfterAccess, AgreesElsewhere, ComesNearer, HasAccessesLeft, HasBegun, TellsOnePlace, LetsTheFirstIn};
ghost use Rattle.model_splitter.specs.grid.Invariant.{IsConsistent, IsGrid};
ghost use Rattle.model_splitter.specs.grid.Door.{IsDoorWithin};
ghost use Rattle.model_splitter.specs.grid.Machine.{empty_doors, GridState, grid, place_in};
ghost use Rattle.model_splitter.specs.grid.Walk.{next_access, walker_after, walker_note, place_of};
ghost use Rattle.model_splitter.specs.declared.grid.walker.Walker.{Walker};
ghost use Rattle.model_steps.specs.Calls.{outcome_of};
ghost use Rattle.model_steps.specs.Machine.{OnEveryHistory, IsProved};
ghost use Rattle.model_steps.specs.RegisterState.{Registers};
ghost use Rattle.model_steps.specs.Steps.{ReadsOrWrites};
ghost use Rattle.model_steps.specs.declared.access.Answer.{Answer};
ghost use Rattle.model_steps.specs.declared.note.Note.TheVariants.{Ended};

/// A law of the doors of a grid and the walks through them. Structures over the places of a grid use this.
///
/// - The doors of a new grid are consistent with no walks. A participant that begins, each access of a walk, and
///   whatever leaves the doors' registers unchanged keep doors and walks consistent. Consistent ones keep the law of
///   the grid.
/// - Where b have begun, a walk that has no place yet has made fewer than 4b accesses. Each access brings it nearer to
///   a place. Its note ends it if and only if it reaches a place.
/// - A door on one of the first b diagonals has one of the lowest b(b + 1)/2 numbers.
pub fn law_of_doors_and_walks()
    ensures fresh { (most : ℕ) → most ≤ 64 → IsConsistent most 0 (empty_doors most) (λ p. None) }
    ensures begun { AgreesWithBeginner }
    ensures gone_on { AgreesAfterAccess }
    ensures elsewhere { AgreesElsewhere }
    ensures law { (most b : ℕ) (m : Registers ℕ) (walker : ℕ → Option Walker) → IsConsistent most b m walker → IsGrid b m walker }
    ensures nearer { ComesNearer }
    ensures unplaced { HasAccessesLeft }
    ensures some { HasBegun }
    ensures ended { (u : Walker) (got : Answer ℕ) (x : ℕ) → (walker_note u got ≡ Ended x) ↔ (place_of (walker_after u got) ≡ Some x) }
    ensures low { (b k : ℕ) → IsDoorWithin b k → k < b * (b + 1) / 2 }
{}

/// A law: a grid is a machine whose calls extend its history.
///
/// - Each history, with every prefix, keeps the law of the grid. A call fails if and only if the calls before it make
///   that due.
/// - The places that were returned are those at which walks have ended.
/// - An access of a walk reads or writes a register, or accesses none.
/// - A list in which a participant gets a second place does not keep the law. A list in which the first to begin is
///   refused fails a call that is not due to fail.
pub fn law_of_grid_calls()
    ensures machine { IsProved grid }
    ensures own { (u : Walker) → ReadsOrWrites (next_access u) }
    ensures one_place { TellsOnePlace }
    ensures not_refused { LetsTheFirstIn }
    ensures places { (w : GridState) (id : ℕ) → OnEveryHistory grid (λ most r. place_in w id ≡ outcome_of id r) w }
{}
