//! Which number is proposed next.

ghost use Rattle.std.specs.Prelude.{◌≡◌, ℕ, ◌<◌, ◌≤◌, false, get_or, length};
ghost use Rattle.model_asked.specs.rounds.Proposals.{is_taken, rank, nth_free, next_proposal};

use model_steps::View;

/// Whether another identity proposes this number, by these pairs.
fn is_taken_in(pairs: &[(u64, u64)], id: u64, number: u64) -> bool
    ensures { result ≡ is_taken id pairs.now number }
{
    pairs.iter().any(|pair| pair.0 != id && pair.1 == number)
}

/// The number of identities that are at most this one.
fn rank(pairs: &[(u64, u64)], id: u64) -> usize
    ensures { result ≡ rank id pairs.now }
{
    pairs.iter().filter(|pair| pair.0 <= id).count()
}

/// For each number up to 128, whether another identity proposes it, by these pairs. With at most 64 pairs no greater
/// number is proposed next.
fn taken_numbers(pairs: &[(u64, u64)], id: u64) -> [bool; 129]
    ensures { (n : ℕ) → n < 129 → get_or result n false ≡ is_taken id pairs.now n }
{
    let mut taken = [false; 129];
    let mut i = pairs.len();
    while i > 0 {
        i -= 1;
        let (other, number) = pairs[i];
        if other != id && number < 129 {
            taken[number as usize] = true;
        }
    }
    taken
}

/// The `rank`-th positive number that no other identity proposes.
fn nth_free(pairs: &[(u64, u64)], id: u64, rank: usize) -> u64
    requires few { length pairs.now ≤ 64 }
    requires low { rank ≤ 64 }
    ensures { result ≡ nth_free id pairs.now rank }
{
    let taken = taken_numbers(pairs, id);
    let mut left = rank;
    let mut at: u64 = 0;
    while 0 < left {
        at += 1;
        if !taken[at as usize] {
            left -= 1;
        }
    }
    at
}

/// Whether an identity other than `id` proposes this number in a view.
pub fn is_taken(view: &View, id: u64, number: u64) -> bool
    ensures { result ≡ is_taken id view.now number }
{
    is_taken_in(view.pairs(), id, number)
}

/// Returns the next proposal of `id` after a view (Attiya et al. 1990).
///
/// It is the r-th positive number that no other identity proposes in the view, where r is the rank of `id` among its
/// identities.
pub fn next_proposal(view: &View, id: u64) -> u64
    ensures { result ≡ next_proposal id view.now }
{
    let pairs = view.pairs();
    nth_free(pairs, id, rank(pairs, id))
}
