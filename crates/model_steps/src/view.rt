//! What a scan returns.

ghost use Rattle.std.specs.Prelude.{◌≡◌, ◌<◌, ◌≤◌, ◌+◌, ◌↔◌, ◌⊎◌, [], IsSome, length, take, drop, IsTrue, false, if◌then◌else◌};
ghost use Rattle.model_steps.specs.View.{value_of, inserted, IsRising};

use std::marker::Model;

/// A list of pairs of an identity and its value, by strictly rising identity, as a scan returns it.
///
/// It holds at most 64 pairs, in the value itself, so that it allocates nothing. Contracts see the list.
#[derive(Clone, Copy, Debug, Drop)]
pub struct View {
    pairs: [(u64, u64); 64],
    len: usize,
}

impl Model for View {
    ghost use Rattle.std.specs.Prelude.{List, ℕ};

    ghost Value = { List (ℕ × ℕ) };

    ghost use Rattle.std.specs.Prelude.{◌-◌, ◌++◌, length, take, replicate};
    ghost use Rattle.model_steps.specs.lemmas.ViewInside.{IsWellKept, given_back};

    ghost view = { λ v. take v.len v.pairs };

    ghost invariant = { λ v. IsWellKept v.pairs v.len };

    ghost inverse = { λ xs. record { pairs = xs ++ replicate (64 - length xs) (0, 0); len = length xs } };

    ghost inverse_ok = { λ v h i. record { pairs = (given_back v.pairs v.len h).0 i; len = (given_back v.pairs v.len h).1 i } };
}

/// Puts a pair into the first `len` pairs, in order, or replaces the pair of its identity. Returns whether there is one
/// more.
fn put_in(pairs: &mut [(u64, u64)], len: usize, pair: (u64, u64)) -> bool
    requires room { len < length pairs.old }
    requires rising { IsRising (take len pairs.old) }
    ensures pairs { take (len + (if result then 1 else 0)) pairs.new ≡ inserted (take len pairs.old) pair }
    ensures rest { drop (len + 1) pairs.new ≡ drop (len + 1) pairs.old }
    ensures same { result ≡ false → drop len pairs.new ≡ drop len pairs.old }
{
    let mut carried = pair;
    for i in 0..len {
        let here = pairs[i];
        if carried.0 <= here.0 {
            pairs[i] = carried;
            if carried.0 == here.0 {
                return false;
            }
            carried = here;
        }
    }
    pairs[len] = carried;
    true
}

/// Replaces the pair of the same identity, which is present.
fn replace_in(pairs: &mut [(u64, u64)], pair: (u64, u64))
    requires there { IsSome (value_of pair.0 pairs.old) }
    requires rising { IsRising pairs.old }
    ensures { pairs.new ≡ inserted pairs.old pair }
{
    for i in 0..pairs.len() {
        if pairs[i].0 == pair.0 {
            pairs[i] = pair;
            return;
        }
    }
}

/// Returns the value of an identity.
fn find_in(pairs: &[(u64, u64)], identity: u64) -> Option<u64>
    ensures { result ≡ value_of identity pairs.now }
{
    for pair in pairs {
        if pair.0 == identity {
            return Some(pair.1);
        }
    }
    None
}

impl View {
    /// The most pairs.
    pub const ROOM: usize = 64;

    /// Makes a view with no pair.
    pub fn new() -> Self
        ensures { result ≡ [] }
    {
        View {
            pairs: [(0, 0); 64],
            len: 0,
        }
    }

    /// Returns the number of pairs.
    pub fn len(&self) -> usize
        ensures { result ≡ length self.now }
    {
        self.pairs().len()
    }

    /// Whether there is no pair.
    pub fn is_empty(&self) -> bool
        ensures { IsTrue result ↔ (self.now ≡ []) }
    {
        self.len == 0
    }

    /// Whether it holds 64 pairs.
    pub fn is_full(&self) -> bool
        ensures { IsTrue result ↔ (64 ≤ length self.now) }
    {
        64 <= self.len
    }

    /// Returns the pairs, by rising identity.
    pub fn pairs(&self) -> &[(u64, u64)]
        ensures pairs { result.now ≡ self.now }
        ensures rising { IsRising self.now }
        ensures few { length self.now ≤ 64 }
    {
        &self.pairs[..self.len]
    }

    /// Returns the value of an identity, or `None` if it has no pair.
    pub fn get(&self, identity: u64) -> Option<u64>
        ensures { result ≡ value_of identity self.now }
    {
        find_in(self.pairs(), identity)
    }

    /// Adds the pair of an identity and this value, or replaces the identity's pair.
    ///
    /// A view that is full takes only an identity that has a pair.
    pub fn insert(&mut self, identity: u64, value: u64)
        requires { (length self.old < 64) ⊎ IsSome (value_of identity self.old) }
        ensures { self.new ≡ inserted self.old (identity, value) }
    {
        if self.len == View::ROOM {
            replace_in(&mut self.pairs, (identity, value));
            return;
        }
        if put_in(&mut self.pairs, self.len, (identity, value)) {
            self.len += 1;
        }
    }
}

impl PartialEq for View {
    ghost use Rattle.std.specs.Cmp.{partial_equiv_from_equiv};
    ghost use Rattle.model_steps.specs.lemmas.ViewEq.{are_same_pairs, same_pairs_equiv};

    ghost eq = { are_same_pairs };

    ghost laws = { partial_equiv_from_equiv same_pairs_equiv };

    /// Whether both have the same pairs.
    fn eq(&self, other: &View) -> bool
        ensures answer { result ≡ are_same_pairs self.now other.now }
        ensures same { IsTrue result ↔ (self.now ≡ other.now) }
    {
        self.pairs() == other.pairs()
    }
}

impl Eq for View {
    ghost use Rattle.model_steps.specs.lemmas.ViewEq.{same_pairs_equiv};

    ghost laws = { same_pairs_equiv };
}
