//! What a turn of the loop is over a queue of replies that was prefetched of a log.

ghost use Rattle.std.specs.Prelude.{◌≡◌, ◌≢◌, ◌<◌, ◌+◌, ◌^◌, ℕ, List, [], All, Option, Some, false, length};
ghost use Rattle.model_asked.specs.declared.config.Config.{Config};
ghost use Rattle.service_log.specs.Groups.{IsDetermined};
ghost use Rattle.service_log.specs.Places.{stands_in};
ghost use Rattle.service_log.specs.Replicas.{IsReplica, IsReplicaFrom, Leads};
ghost use Rattle.service_log.specs.ReplicaState.{ReplicaState};
ghost use Rattle.service_hall.specs.HallState.{HallState};
ghost use Rattle.service_hall.specs.Halls.{hall_of};
ghost use Rattle.service_loop.specs.Seats.{LoopIteration, Seating};
ghost use Rattle.service_follow.specs.Batches.{batch_by};
ghost use Rattle.service_follow.specs.Desks.{ByDesk, HasItsDesk, lines_in};
ghost use Rattle.service_follow.specs.Entries.{HallApplies, rules_of};
ghost use Rattle.service_follow.specs.Hosted.{IsHostedAtEnd, IsHostedOverLog, IsPrefetched, IsReadAtEnd, IsUsedUp};
ghost use Rattle.service_follow.specs.Leases.{IsUnbroken, Stood, lease_after};
ghost use Rattle.service_follow.specs.Marks.{mark_of};
ghost use Rattle.service_follow.specs.Said.{ReplyQueueReplies};
ghost use Rattle.service_follow.specs.ReplyQueueState.{ReplyQueueState};
ghost use Rattle.service_follow.specs.Stays.{StayApplies, start_of, stays_of};
ghost use Rattle.service_follow.specs.StayState.{StayState};
ghost use Rattle.service_follow.specs.Silence.{IsAmong, Look, WasSo, after_looks};
ghost use Rattle.service_follow.specs.Tellings.{AreStays, IsReadBack};
ghost use Rattle.service_follow.specs.TermsChanges.{AreTerms, IsTermsRead};
ghost use Rattle.service_follow.specs.declared.gathering.Gathering.{Gathering};
ghost use Rattle.service_follow.specs.declared.hall_terms.ToldTerms.{ToldTerms};
ghost use Rattle.service_follow.specs.declared.front_end_stay.FrontEndStay.{FrontEndStay};
ghost use Rattle.service_follow.specs.declared.marks.Mark.TheVariants.{Ordinary};
ghost use Rattle.service_follow.specs.declared.watches.Watch.{Watch};

use crate::machine::HallMachine;
use crate::stay_machine::StayMachine;
use service_hall::Rules;
use service_log::{Store, law_of_agreement};

/// A law, which runs nothing: what a hall says to an entry, and the hall after it, are determined by the entry and the hall before it; so
/// halls of one config that have applied a log up to one place are the same, whichever machines they are on.
pub fn law_of_halls()
    ensures determined { IsDetermined HallApplies }
    ensures states { (config : Config) (log : List (List ℕ)) (a b : ReplicaState HallState) →
        IsReplica HallApplies (stands_in log) (hall_of config []) a → IsReplica HallApplies (stands_in log) (hall_of config []) b →
        a.poisoned ≡ false → b.poisoned ≡ false → a.place ≡ b.place → a.machine ≡ b.machine }
{
    law_of_agreement::<HallMachine>();
}

/// A law, which runs nothing: who keeps the stays in the pool of a hall is determined by the entries of the log up to a place, with the hall; so all front ends
/// that have applied the log up to one place know of the same keepers, each with the same last entry.
pub fn law_of_keepers()
    ensures determined { IsDetermined StayApplies }
    ensures states { (config : Config) (log : List (List ℕ)) (a b : ReplicaState StayState) →
        IsReplica StayApplies (stands_in log) (stays_of config) a → IsReplica StayApplies (stands_in log) (stays_of config) b →
        a.poisoned ≡ false → b.poisoned ≡ false → a.place ≡ b.place → a.machine ≡ b.machine }
{
    law_of_agreement::<StayMachine>();
}

/// A law, which runs nothing, of compactions in a log. A history is full at 1,000,000 events.
///
/// - `each`: where all is known of a hall, lines of commands are answered by it. An entry of a compaction says nothing, and
///   the desk is the same behind it, with the same events of renaming, the same stays and no less room.
/// - `all`: a hall that a log led has the desk and the stays of one that passed over all entries of compactions, as long as
///   that is not full.
/// - `replies`: then it also answers the next lines as that one.
pub fn law_of_compactions()
    ensures each { (w u : StayState) (entry : List ℕ) (reply_queue : ReplyQueueState) → w.blind ≡ false → StayApplies w entry reply_queue u →
        ByDesk (mark_of entry) w entry reply_queue u }
    ensures all { (config : Config) (log : List (List ℕ)) (u v : StayState) → Leads StayApplies (stays_of config) log u →
        Leads StayApplies (stays_of config) (lines_in log) v → length v.hall.history < 1000000 → HasItsDesk v u }
    ensures replies { (config : Config) (log : List (List ℕ)) (u v after beside : StayState) (entry : List ℕ) (said other : ReplyQueueState) →
        Leads StayApplies (stays_of config) log u → Leads StayApplies (stays_of config) (lines_in log) v → mark_of entry ≡ Ordinary →
        StayApplies u entry said after → StayApplies v entry other beside → length beside.hall.history < 1000000 → said ≡ other }
{}

/// A law, which runs nothing: the entries of a compaction that a front end offers (`Tellings.antt`) are read as what they
/// tell, each right behind the one that it names, and so who keeps each stay.
pub fn law_of_tellings()
    ensures { (token : List ℕ) (count : ℕ) (part : Gathering) (lines : List ℕ) (entries : ℕ) (kept : List FrontEndStay) → length token ≡ 32 →
        length part.head ≡ 49 → entries < 2 ^ 64 → length kept < 2 ^ 64 → AreStays kept → IsReadBack token count part lines entries kept }
{}

/// A law, which runs nothing: terms that a front end writes (`Terms.antt`) are read back, whatever clients say. A batch tells none.
pub fn law_of_terms()
    ensures { (token : List ℕ) (count : ℕ) (told : ToldTerms) → All (λ b. b ≢ 10) token → length token ≡ 32 → AreTerms (Some told) →
        IsTermsRead token count told }
{}

/// A law, which runs nothing: a front end that starts at a later place of a log than the first has the hall of one that
/// applied all of it, with the same history and the same stays, as soon as it has read a compaction whole.
pub fn law_of_starts()
    ensures { (config : Config) (log : List (List ℕ)) (from : ℕ) (a b : ReplicaState StayState) →
        IsReplica StayApplies (stands_in log) (stays_of config) a → IsReplicaFrom StayApplies (stands_in log) from (start_of config from) b →
        a.poisoned ≡ false → b.poisoned ≡ false → a.place ≡ b.place → b.machine.blind ≡ false → a.machine ≡ b.machine }
{
    law_of_agreement::<StayMachine>();
}

/// A law, which runs nothing, of a watch that looks at the log came to, one after another: from its tick on the log told the same of its stay at each
/// look.
pub fn law_of_silence()
    ensures { (looks : List Look) (w : Watch) → IsAmong w (after_looks looks) → WasSo w looks }
{}

/// A law, which runs nothing, of the entries of a front end that stood: as long as its lease is the same, each was known to stand less than 20 seconds
/// after the one before was sent. Others end its stays only later than that (`law_of_silence`): that they ended none follows from both, by no clause.
pub fn law_of_leases()
    ensures { (lease sent : ℕ) (entries : List Stood) → lease + length entries < 2 ^ 64 →
        lease_after lease sent entries ≡ lease → IsUnbroken sent entries }
{}

/// A law, which runs nothing, of a turn of the loop (`service_loop::iterate`) over a queue of replies that was prefetched of a log and was used up: it
/// is a turn over the hall of the log, at the place of an entry of just its lines.
pub fn law_of_log_hosting<C, K, S: Store>()
    ensures { (on : Seating C) (s : S) (config : Config) (from place : ℕ) (lines : List ℕ) (reply_queue u : ReplyQueueState)
        (r : ReplicaState StayState) (k l : K) (seats after : List (Option C)) →
        IsPrefetched (S.stands s) config from place lines reply_queue r →
        (t : LoopIteration on ReplyQueueReplies IsUsedUp k reply_queue seats l u after) →
        IsHostedOverLog on (S.stands s) config t.log from place lines r seats after }
{}

/// A law, which runs nothing, of a turn of the loop over a queue of replies to reads that are no entry, which was used up: it is a turn over the hall of the
/// log to which all entries were applied that stood, and leaves that as it is.
pub fn law_of_reads<C, K, S: Store>()
    ensures { (on : Seating C) (s : S) (config : Config) (from place : ℕ) (lines : List ℕ) (reply_queue u : ReplyQueueState)
        (r : ReplicaState StayState) (k l : K) (seats after : List (Option C)) →
        IsReadAtEnd (S.stands s) (S.lacks s) config from place lines reply_queue r →
        (t : LoopIteration on ReplyQueueReplies IsUsedUp k reply_queue seats l u after) →
        IsHostedAtEnd on (S.stands s) (S.lacks s) config t.log from place r seats after }
{}

/// A law, which runs nothing, of the batches of front ends whose tokens are as long.
///
/// - `one`: two batches are the same entry only where token, count, lines and rules are the same.
/// - `rules`: an entry tells its rules.
pub fn law_of_batches()
    ensures one { (rules others : Rules) (token other : List ℕ) (count next : ℕ) (lines more : List ℕ) → length token ≡ length other → count < 2 ^ 64 →
        next < 2 ^ 64 → batch_by rules token count lines ≡ batch_by others other next more → (rules ≡ others) × (token ≡ other) × (count ≡ next) × (lines ≡ more) }
    ensures rules { (rules : Rules) (token : List ℕ) (count : ℕ) (lines : List ℕ) → length token ≡ 32 → rules_of (batch_by rules token count lines) ≡ rules }
{}
