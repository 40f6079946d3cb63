//! Laws of records and verdicts, which run nothing.

ghost use Rattle.std.specs.Prelude.{◌≡◌, ◌↔◌, ◌∷◌, ◌++◌, ℕ, List, Bool, map};
ghost use Rattle.model_renaming.specs.RenameObject.{RenameTerms};
ghost use Rattle.model_pool.specs.PoolState.{PoolStart};
ghost use Rattle.text_worlds.specs.desk.DeskCalls.{DeskCall, exchange_of};
ghost use Rattle.text_records.specs.declared.line.Line.{Line};
ghost use Rattle.text_records.specs.Lines.{IsLineOf, line_of};
ghost use Rattle.text_checker.specs.ObjectRun.{DeskObject, AllowsCall, after_call, IsObjectRun};
ghost use Rattle.text_checker.specs.Judged.{IsFaultAfter};
ghost use Rattle.text_checker.specs.Lines.{AreLinesOfRun, CanFollow, Follow, after_line};
ghost use Rattle.text_checker.specs.declared.reason.Reason.{Reason};
ghost use Rattle.text_checker.specs.Reasons.{KeepsAll};
ghost use Rattle.model_snapshot.specs.Snapshot.{SnapBounds};
ghost use Rattle.model_asked.specs.declared.config.Config.{Config};
ghost use Rattle.model_asked.specs.declared.exchange.Exchange.{Exchange};
ghost use Rattle.text_worlds.specs.desk.DeskRun.{IsDeskRun};
ghost use Rattle.text_player.specs.Played.{reading, writing};
ghost use Rattle.text_player.specs.Records.{record_of};
ghost use Rattle.text_player.specs.Turns.{Turn, exchanges};
ghost use Rattle.text_checker.specs.Recorded.{HasRecorded, IsShortTranscript, IsYes, RecordsTranscript};
ghost use Rattle.text_records.specs.Records.{IsRecordOf, record_lines};
ghost use Rattle.text_checker.specs.declared.verdict.Verdict.{Verdict};
ghost use Rattle.text_checker.specs.declared.verdict.Verdict.TheVariants.{Yes};
ghost use Rattle.text_checker.specs.Verdict.{IsSaid, IsSaidAfter};

use text_player::{Sink, Source};

/// A law: a line can follow those before it if and only if none of the seven reasons fits.
pub fn law_of_reasons()
    ensures { (terms : RenameTerms) (o : DeskObject) (l : Line) → CanFollow terms o l ↔ KeepsAll terms o l.event l.reported }
{}

/// A law: lines are those of a run if and only if each can follow those before it. The views that are not written may
/// be any.
///
/// If one after these is at fault, they and it are not those of a run, whatever comes after. A call leaves the objects
/// as its line does.
pub fn law_of_followed_lines()
    ensures run { (terms : RenameTerms) (start : PoolStart) (lines : List Line) →
        AreLinesOfRun terms start lines → (o : DeskObject) × Follow terms start lines o }
    ensures follow { (terms : RenameTerms) (start : PoolStart) (lines : List Line) (o : DeskObject) →
        Follow terms start lines o → AreLinesOfRun terms start lines }
    ensures fault { (terms : RenameTerms) (start : PoolStart) (before : List Line) (l : Line) (more : List Line) (why : Reason) →
        IsFaultAfter terms start before l why → AreLinesOfRun terms start (before ++ l ∷ more) → ⊥ }
    ensures call { (terms : RenameTerms) (o : DeskObject) (c : DeskCall) (l : Line) →
        IsLineOf (exchange_of c) l → AllowsCall terms o c → after_call o c ≡ after_line o l }
{}

/// A law: lines are those of a run if and only if each can follow those before it. The views that are not written may
/// be any.
///
/// If one after these is at fault, they and it are not those of a run, whatever comes after. A record with the verdict
/// `Yes` has no other.
pub fn law_of_records()
    ensures run { (terms : RenameTerms) (start : PoolStart) (lines : List Line) →
        AreLinesOfRun terms start lines → (o : DeskObject) × Follow terms start lines o }
    ensures follow { (terms : RenameTerms) (start : PoolStart) (lines : List Line) (o : DeskObject) →
        Follow terms start lines o → AreLinesOfRun terms start lines }
    ensures fault { (terms : RenameTerms) (start : PoolStart) (before : List Line) (l : Line) (more : List Line) (why : Reason) →
        IsFaultAfter terms start before l why → AreLinesOfRun terms start (before ++ l ∷ more) → ⊥ }
    ensures yes { (lines : List (List ℕ)) (v : Verdict) → IsSaidAfter lines Yes → IsSaid lines v → v ≡ Yes }
{}

/// A law: the exchanges of a desk's run, which also keeps its counts of steps, are ones that the objects can make.
///
/// So their lines are those of a run, with the views by which names were given or without them.
pub fn law_of_desk_runs()
    ensures object { (terms : RenameTerms) (bounds : SnapBounds) (start : PoolStart) (r : List Exchange) →
        IsDeskRun terms bounds start r → IsObjectRun terms start r }
    ensures lines { (terms : RenameTerms) (bounds : SnapBounds) (start : PoolStart) (r : List Exchange) →
        IsDeskRun terms bounds start r → (shows : Bool) → AreLinesOfRun terms start (map (line_of shows) r) }
{}

/// A law of the worlds with names, of the record of a transcript with at most a million events.
///
/// It is a header, and for each exchange, in order, its line. Its verdict is `Yes`, and no other if no allocation
/// fails.
pub fn law_of_recorded_transcripts()
    ensures says { (c : Config) (ls : List (List ℕ)) (ts : List Turn) → IsShortTranscript c ls ts → IsRecordOf c (exchanges ts) (record_of c ts) }
    ensures said { (c : Config) (ls : List (List ℕ)) (ts : List Turn) → IsShortTranscript c ls ts → IsSaid (record_lines (record_of c ts)) Yes }
    ensures yes { (c : Config) (ls : List (List ℕ)) (ts : List Turn) → IsShortTranscript c ls ts → IsYes (record_of c ts) }
{}

/// A law of what `record` has written of an input with at most a million events, if it returned `Ok`.
///
/// It is the record of a transcript to the input's lines. `check` returns `Yes` for it, or `NoMemory` if an allocation
/// failed.
pub fn law_of_recording<R: Source, W: Sink>()
    ensures says { (c : Config) (r r' : R) (w w' : W) (input bytes : List ℕ) →
        HasRecorded c (reading R.remaining R.calls R.failed r r') (writing W.contents W.failed w w') input bytes → RecordsTranscript c input bytes }
    ensures yes { (c : Config) (r r' : R) (w w' : W) (input bytes : List ℕ) →
        HasRecorded c (reading R.remaining R.calls R.failed r r') (writing W.contents W.failed w w') input bytes → IsYes bytes }
{}
