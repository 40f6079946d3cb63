//! Laws of this crate's definitions, which run nothing. The proofs of worlds use them.

ghost use Rattle.std.specs.Prelude.{◌≡◌, ◌≢◌, ℕ, ◌+◌, ◌<◌, ◌≤◌, [], ◌∷◌, ◌++◌, Bool, true, false, List, Option, Some, None, Err, Result, is_some, length, ◌⊎◌};
ghost use Rattle.model_steps.specs.Laws.{
  TellsNothing,
  TellsOfBeginner,
  TellsOfStep,
  FindsEntry,
  FindsNoEntry,
  FindsWhatIsSeen,
  SeesAdded,
  SeesReplaced,
  KeepsTheFirstOutcome,
  ShowsWhatIsMapped,
  HasWhatWasInserted,
  AreReportedByValues,
  ShowsNoNewcomer,
  FindsNewcomer,
  FindsReplaced,
  BeginsWhereFree,
  AnswersByNote,
  LeavesByAccess,
  StepKeepsMost,
  AnswersWithMemory,
  WorldsAreProved,
  StepExtends,
  CallKeepsMost,
  IsNoLonger,
  CountsBegun,
  HasNoSecondEnd,
  LetsTheFirstIn,
  AnswersAlike,
  StandsAlikeAfter,
  CountsOneMore,
};
ghost use Rattle.model_steps.specs.Count.{count_to};
ghost use Rattle.model_steps.specs.SetAt.{set_at};
ghost use Rattle.model_steps.specs.Participant.{participant_of, with_participant};
ghost use Rattle.model_steps.specs.Steps.{AgreeAt, answer_from};
ghost use Rattle.model_steps.specs.Calls.{Call, steps_of, steps_by, outcome_of, first_of, outcome_in, begun_in, begun_by};
ghost use Rattle.model_steps.specs.Registers.{memory_steps};
ghost use Rattle.model_steps.specs.Due.{RefusesAsDue, EndsOnce, has_ended, TellsTheEnd, GrowsOnly};
ghost use Rattle.model_steps.specs.View.{IsRising, inserted};
ghost use Rattle.model_steps.specs.declared.access.Access.{Access};
ghost use Rattle.model_steps.specs.declared.participant.Participant.{Participant};
ghost use Rattle.model_steps.specs.declared.refusal.Refusal.{Refusal};
ghost use Rattle.model_steps.specs.declared.refusal.Refusal.TheVariants.{NoMemory};

/// A law: `f[p ↦ s]` is `s` at `p` and `f` elsewhere.
pub fn law_of_one_place<X>()
    ensures same { (f : ℕ → X) (p : ℕ) (s : X) → set_at f p s p ≡ s }
    ensures other { (f : ℕ → X) (p : ℕ) (s : X) (q : ℕ) → q ≢ p → set_at f p s q ≡ f q }
    ensures as_is { (f : ℕ → X) (p : ℕ) (s : X) → s ≡ f p → set_at f p s ≡ f }
    ensures is { (f : ℕ → X) (p : ℕ) (s : X) (q : ℕ) (x : X) → set_at f p s q ≡ x → ((q ≡ p) × (s ≡ x)) ⊎ ((q ≢ p) × (f q ≡ x)) }
{}

/// A law: `g ∘ f[p ↦ s] = (g ∘ f)[p ↦ g s]`.
///
/// If `f p` is nothing, and `g` maps nothing and `s` alike, then `g ∘ f[p ↦ s] = g ∘ f`.
pub fn law_of_what_is_seen<X, Y>()
    ensures same { ShowsNoNewcomer X Y }
    ensures changed { (g : X → Y) (f : ℕ → X) (p : ℕ) (s : X) (q : ℕ) → g (set_at f p s q) ≡ set_at (λ u. g (f u)) p (g s) q }
{}

/// A law of entries in a row, each of which has an identity.
///
/// An entry whose index was found is the one seen under its identity. The law also says what each identity sees after
/// an entry was added, or replaced by another of its identity.
pub fn law_of_rosters<X, Y>()
    ensures found { FindsEntry X Y }
    ensures absent { FindsNoEntry X Y }
    ensures any { FindsWhatIsSeen X Y }
    ensures added { SeesAdded X Y }
    ensures replaced { SeesReplaced X Y }
{}

/// A law: the participants that have begun after one was added, and after one was replaced by another of its identity.
pub fn law_of_participants<P>()
    ensures begun { FindsNewcomer P }
    ensures put { FindsReplaced P }
    ensures many { (ps : List (Participant P)) (new : Participant P) → length (with_participant new ps) ≡ length ps }
    ensures identity { (id : ℕ) (ps : List (Participant P)) (v : Participant P) → participant_of id ps ≡ Some v → v.identity ≡ id }
    ensures some { (id : ℕ) (ps : List (Participant P)) (v : Participant P) → participant_of id ps ≡ Some v → 0 < length ps }
{}

/// A law: an identity may begin if it is not 0, has not begun, and there is room.
pub fn law_of_beginners<P, S>()
    ensures { BeginsWhereFree P S }
{}

/// A law: the counts of a list of calls, after one more call.
pub fn law_of_call_counts<X>()
    ensures steps { (p : ℕ) (r : List (Call X)) (h : Call X) → steps_of p (r ++ h ∷ []) ≡ steps_of p r + steps_by p h }
    ensures begun { (r : List (Call X)) (h : Call X) → begun_in (r ++ h ∷ []) ≡ begun_in r + begun_by h }
    ensures outcome { KeepsTheFirstOutcome X }
    ensures no_outcome { (outcome : Option X) → first_of outcome None ≡ outcome }
{}

/// A law: a list of calls determines each participant's outcome and its number of accepted steps. It ties the programs
/// in a world to its calls.
pub fn law_of_reported_outcomes<Z, O>()
    ensures quiet { TellsNothing Z O }
    ensures begun { TellsOfBeginner Z O }
    ensures stepped { TellsOfStep Z O }
{}

/// A law of a step of a participant that has not ended: it returns its program's note, and leaves the world after its
/// access.
///
/// No step makes more room for participants, and no step with this reply lacks memory.
pub fn law_of_steps<P, S, R, V, O, X>()
    ensures answer { AnswersByNote P S R V O }
    ensures after { LeavesByAccess P S R V O }
    ensures most { StepKeepsMost P S R V O }
    ensures lacks_none { AnswersWithMemory P S R V O X }
{}

/// A law: a reply is an allocation failure or it is not. A step's note, of which the outcome alone is kept, is a reply
/// that shows the outcome.
pub fn law_of_replies<X>()
    ensures either { (reply : Result X Refusal) → (reply ≡ Err NoMemory) ⊎ (reply ≢ Err NoMemory) }
    ensures mapped { ShowsWhatIsMapped X }
{}

/// A law: any world is a machine that is proved.
///
/// - It starts with no call, and each call extends its history.
/// - No step is accepted after the end of its program.
/// - A call fails if and only if the calls before it make that due.
/// - A history splits at each of its prefixes, and leads to one world alone.
/// - No call makes more room, and as many take part as have begun.
///
/// `last` says whether the program ended with the reply of an accepted step, and `grows` whether the memory may fail to
/// allocate.
pub fn law_of_worlds<P, S, R, V, O, X>()
    ensures machine { WorldsAreProved P S R V O X }
    ensures stepped { StepExtends P S R V O X }
    ensures most { CallKeepsMost P S R V O X }
    ensures begun { CountsBegun P S R V O X }
{}

/// A law of lists of pairs by rising identity.
///
/// It says what they have after an insertion. Two lists with equal values are equal. A list whose identities are all in
/// another one is no longer than that.
pub fn law_of_views()
    ensures rising { (pairs : List (ℕ × ℕ)) (new : ℕ × ℕ) → IsRising pairs → IsRising (inserted pairs new) }
    ensures value { HasWhatWasInserted }
    ensures length { (pairs : List (ℕ × ℕ)) (new : ℕ × ℕ) → length (inserted pairs new) ≤ length pairs + 1 }
    ensures equal { AreReportedByValues }
    ensures few { IsNoLonger }
{}

/// A law of lists of calls that fail if and only if that is due.
///
/// A participant makes no accepted step after the one that ended its program. The first to begin succeeds.
pub fn law_of_refusals<V, O, X>()
    ensures once { (last : X → Bool) (most : ℕ) (grows : Bool) (r : List (Call X)) → RefusesAsDue last most grows r → EndsOnce last r }
    ensures no_second_end { HasNoSecondEnd X }
    ensures not_first_refused { LetsTheFirstIn X }
    ensures reported { TellsTheEnd {O = O} outcome_in is_some }
    ensures never { GrowsOnly {V = V} memory_steps false }
    ensures outcome { (p : ℕ) (r : List (Call (Option X))) → has_ended is_some p r ≡ is_some (outcome_of p r) }
{}

/// A law: in two worlds that a participant cannot distinguish, its step has the same reply and leaves the same program.
pub fn law_of_locality<P, S, R, V, O>()
    ensures access { (one other : R → V × Bool) (a : Access R V) → AgreeAt one other a → answer_from one a ≡ answer_from other a }
    ensures answer { AnswersAlike P S R V O }
    ensures after { StandsAlikeAfter P S R V O }
{}

/// A law of how many of the first `n` numbers pass a test.
///
/// They are at most `n`, and at most any bound on the numbers that pass. More numbers, or a test that passes more, give
/// no fewer. If one more number passes, there is one more.
pub fn law_of_counts()
    ensures all { (f : ℕ → Bool) (n : ℕ) → count_to f n ≤ n }
    ensures fewer { (f : ℕ → Bool) (n k : ℕ) → k < n → f k ≡ false → count_to f n < n }
    ensures below { (f : ℕ → Bool) (top n : ℕ) → ((k : ℕ) → f k ≡ true → k < top) → count_to f n ≤ top }
    ensures longer { (f : ℕ → Bool) (n m : ℕ) → n ≤ m → count_to f n ≤ count_to f m }
    ensures grown { (f g : ℕ → Bool) (n : ℕ) → ((k : ℕ) → k < n → f k ≡ true → g k ≡ true) → count_to f n ≤ count_to g n }
    ensures gain { CountsOneMore }
    ensures none { (n : ℕ) → count_to (λ k. false) n ≡ 0 }
    ensures more { (f : ℕ → Bool) (p n : ℕ) → f p ≡ false → p < n → count_to (set_at f p true) n ≡ count_to f n + 1 }
    ensures set { (f : ℕ → Bool) (p n : ℕ) → count_to (set_at f p true) n ≤ count_to f n + 1 }
{}
