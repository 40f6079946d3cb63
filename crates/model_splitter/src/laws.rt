//! Laws of the splitter, which run nothing: of one splitter in any structure, and of the calls of its world.

ghost use Rattle.std.specs.Prelude.{◌≡◌, ◌≢◌, ◌↔◌, ℕ, ◌<◌, ◌≤◌, true, length, Some};
ghost use Rattle.model_splitter.specs.Laws.{DoorSpec, GoesOn, TellsPlace, HasOneAtPlace, FourthPlaces, CountsOneMore};
ghost use Rattle.model_splitter.specs.declared.stage.VisitStage.{VisitStage};
ghost use Rattle.model_splitter.specs.declared.visitor.Visitor.{Visitor};
ghost use Rattle.model_splitter.specs.declared.way.Way.{Way};
ghost use Rattle.model_splitter.specs.Invariant.{DoorSatisfiesSpec, IsSplitter};
ghost use Rattle.model_splitter.specs.Machine.{splitter};
ghost use Rattle.model_splitter.specs.Stage.{went_down, went_right};
ghost use Rattle.model_splitter.specs.Visitor.{IsAccessOf, access_of};
ghost use Rattle.model_splitter.specs.Walk.{accesses_at, place_at_door};
ghost use Rattle.model_steps.specs.Calls.{outcome_in};
ghost use Rattle.model_steps.specs.Machine.{IsProved};
ghost use Rattle.model_steps.specs.RegisterState.{Registers};
ghost use Rattle.model_steps.specs.Steps.{ReadsOrWrites};
ghost use Rattle.model_steps.specs.declared.note.Note.{Note};
ghost use Rattle.model_steps.specs.declared.note.Note.TheVariants.{Ended};

/// A law of one splitter. Structures of many splitters use it.
///
/// A splitter that no visitor has entered is consistent, and each access of a visit keeps it consistent. A consistent
/// splitter keeps the law of the splitter.
pub fn law_of_one_door()
    ensures fresh { (x : ℕ) → DoorSatisfiesSpec x 0 (λ p. VisitStage.Outside) }
    ensures kept { DoorSpec }
    ensures law { (x y : ℕ) (stage : ℕ → VisitStage) → DoorSatisfiesSpec x y stage → IsSplitter stage }
{}

/// A law: a visitor that went right has ended that way, and so has one that went down.
pub fn law_of_ways()
    ensures right { (s : VisitStage) → went_right s ≡ true → s ≡ VisitStage.Gone Way.Right }
    ensures down { (s : VisitStage) → went_down s ≡ true → s ≡ VisitStage.Gone Way.Down }
{}

/// A law of walks from door to door, each of which has a splitter.
///
/// - A walk is at its door until its visit there ends right or down.
/// - Its output is the place at which it then is, and places are distinct.
/// - A visit makes at most four accesses. The walk has then left the door, or has its place.
pub fn law_of_walks<W>()
    ensures on { GoesOn W }
    ensures reported { TellsPlace W }
    ensures ended { (note : Note ℕ) (x : ℕ) → (note ≡ Ended x) ↔ (outcome_in note ≡ Some x) }
    ensures place { (k : ℕ) (s : VisitStage) (place : ℕ) → place_at_door k s ≡ Some place → (s ≡ VisitStage.Gone Way.Stop) × (place ≡ k) }
    ensures one { HasOneAtPlace }
    ensures few { (s : VisitStage) → accesses_at s ≤ 4 }
    ensures last { FourthPlaces }
    ensures more { CountsOneMore }
{}

/// A law: an access of a visit reads or writes a register, or accesses none. It says what the access does to registers
/// in a row.
pub fn law_of_one_access()
    ensures own { (v : Visitor ℕ) → ReadsOrWrites (access_of v) }
    ensures access { (m : Registers ℕ) (v : Visitor ℕ) → v.x ≢ v.y → v.x < length m.values → v.y < length m.values → IsAccessOf m v }
{}

/// A law: a splitter is a machine whose calls extend its history. Each history, with every prefix, keeps the law of the
/// splitter. A call fails if and only if the calls before it make that due.
pub fn law_of_splitter_calls()
    ensures { IsProved splitter }
{}
