//! Rounds of proposals end: a law of Attiya et al. (1990), and no code that runs.
//!
//! Identities choose small numbers over a snapshot object, in rounds. In a round an identity writes a *proposal*, and
//! then scans. If another identity proposes the same number in its view, it goes on to the next round. It then proposes
//! the r-th number that no other identity proposes in that view, where r is its rank among those of the view. Otherwise
//! it makes no more proposals.
//!
//! What is proved (`law_of_rounds`): `b` identities make at most `3(5^b - 1)/4` proposals, all together, and each of them
//! at most half of these and one. Views may be stale, an identity may begin late, and any may crash. A proposal of a
//! crashed identity stays.
//!
//! Why. Take a stretch with no first proposal, and the least identity `p` that writes in it. Once each other identity
//! that writes there has written twice, `p` writes at most twice more: the others' ranks are higher, so their proposals
//! are then above what `p` chooses. So a stretch of `k` writers is cut into five of `k - 1`, with four proposals
//! between them.
//!
//! Fouren (1999) shows that the proposals can grow exponentially. This bound and its proof are this project's own.
ghost use Rattle.std.specs.Prelude.{◌≡◌, ℕ, ◌+◌, ◌*◌, ◌^◌};
ghost use Rattle.model_asked.specs.rounds.Rounds.{RoundsEnd, RoundsAreShared, most_proposals};

/// A law, which runs nothing: `b` identities that propose by the rule make at most `3(5^b - 1)/4` proposals, all
/// together.
///
/// The algorithm is from Attiya et al. (1990), its exponential cost from Fouren (1999). The bound is this project's own.
pub fn law_of_rounds()
    ensures end { RoundsEnd }
    ensures share { RoundsAreShared }
    ensures closed { (b : ℕ) → 4 * most_proposals b + 3 ≡ 3 * 5 ^ b }
    ensures few { (most_proposals 1 ≡ 3) × (most_proposals 2 ≡ 18) × (most_proposals 3 ≡ 93) × (most_proposals 4 ≡ 468) }
    ensures many { (most_proposals 5 ≡ 2343) × (most_proposals 6 ≡ 11718) × (most_proposals 7 ≡ 58593) × (most_proposals 8 ≡ 292968) }
{}
