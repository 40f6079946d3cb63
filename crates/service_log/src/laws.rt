//! Laws of replicas, which run nothing.

ghost use Rattle.std.specs.Prelude.{◌≡◌, ◌<◌, ◌≤◌, ℕ, List, length, false};
ghost use Rattle.service_log.specs.Groups.{IsDetermined, IsDueIn, Reported};
ghost use Rattle.service_log.specs.Places.{Contradicts, IsDecidedBelow, Keeps, stands_in};
ghost use Rattle.service_log.specs.Replicas.{IsAnswered, IsDueFrom, IsReplica, IsReplicaFrom};
ghost use Rattle.service_log.specs.ReplicaState.{ReplicaState};
ghost use Rattle.service_log.specs.declared.replica.TheConstants.{MOST_BATCH, MOST_STEPS};
ghost use Rattle.service_log.specs.declared.store.TheConstants.{MOST_PLACES};

use crate::machine::Machine;
use crate::store::Store;

/// A law of deterministic machines (state machine replication: Schneider 1990).
///
/// - `states`: two replicas that started alike, and are at one place of the log, have equal machines, unless one is
///   poisoned.
/// - `replies`: all replicas that answer at one place of the log return the same replies.
pub fn law_of_agreement<M: Machine>()
    ensures states { IsDetermined M.applies → (start : M) (log : List (List ℕ)) (a b : ReplicaState M) →
        IsReplica M.applies (stands_in log) start a → IsReplica M.applies (stands_in log) start b →
        a.poisoned ≡ false → b.poisoned ≡ false → a.place ≡ b.place → a.machine ≡ b.machine }
    ensures replies { IsDetermined M.applies → (start : M) (log : List (List ℕ)) (one other : Reported M.Replies)
        (h : IsDueIn M.applies start log one) (k : IsDueIn M.applies start log other) → length h.before ≡ length k.before → one ≡ other }
{}

/// A law of a replica over a store, before and after a call that keeps all entries of the log.
///
/// - `still`: a replica that the log led from a place on is still one that the log led from there.
/// - `due`: its replies are those due at the place of the batch, after all entries before it from that place on.
pub fn law_of_following<M: Machine, S: Store>()
    ensures still { (from : ℕ) (start : M) (r : ReplicaState M) (s t : S) → Keeps (S.stands s) (S.stands t) →
        IsReplicaFrom M.applies (S.stands s) from start r → IsReplicaFrom M.applies (S.stands t) from start r }
    ensures due { (from : ℕ) (start : M) (old new : ReplicaState M) (batch : List ℕ) (replies : M.Replies) (s t : S) → Keeps (S.stands s) (S.stands t) →
        IsReplicaFrom M.applies (S.stands s) from start old → IsAnswered M.applies (S.stands t) old batch new replies →
        IsDueFrom M.applies (S.stands t) from start batch replies new }
{}

/// A law of a store that never contradicts itself, before and after calls that keep all entries of the log.
///
/// Once entries below a place were given up (`Store::trim`), no put is ever `Written` at a place below it. A put is `Written` only at a place that the
/// store lacks (`Store::put`).
pub fn law_of_trims<S: Store>()
    ensures { (Contradicts S.stands S.lacks → ⊥) → (below place : ℕ) (s t : S) → IsDecidedBelow (S.stands s) below → Keeps (S.stands s) (S.stands t) →
        place < below → S.lacks t place → ⊥ }
{}

/// A law: a log in memory never reports of one place both that it has an entry and that it has none.
pub fn law_of_memory()
    ensures { Contradicts stands_in (λ log place. length log ≤ place) → ⊥ }
{}

/// A law: the number of places of a log, the most bytes of a batch, and the most steps for a batch.
pub fn law_of_limits()
    ensures places { MOST_PLACES ≡ 10000000000000000 }
    ensures batch { MOST_BATCH ≡ 65536 }
    ensures steps { MOST_STEPS ≡ 1000000 }
{}
