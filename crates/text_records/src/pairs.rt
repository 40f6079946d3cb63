//! The pairs of a view, as a record writes them.

ghost use Rattle.std.specs.Prelude.{◌≡◌, ◌≤◌, ◌↔◌, List, ℕ, [], ◌∷◌, ◌++◌, length, nat_le, position, unwrap_or, OnOk, OnErr, IfOk, IsTrue};
ghost use Rattle.model_steps.specs.View.{inserted};
ghost use Rattle.text_records.specs.Pairs.{HasAt};

use std::alloc::{AllocError, Global};
use std::marker::Model;

/// Pairs of an identity and a number, as many as a record has. Contracts see the list.
#[derive(Debug, Drop)]
pub struct Pairs {
    items: Vec<(u64, u64)>,
}

/// The index of the first pair whose identity is at least this one.
fn first_from(pairs: &[(u64, u64)], id: u64) -> Option<usize>
    ensures { result ≡ position (λ pair. nat_le id pair.0) pairs.now }
{
    pairs.iter().position(|pair| id <= pair.0)
}

/// The index at which the pair of an identity is, or would be inserted.
fn place_for(pairs: &[(u64, u64)], id: u64) -> usize
    ensures place { result ≡ unwrap_or (position (λ pair. nat_le id pair.0) pairs.now) (length pairs.now) }
    ensures within { result ≤ length pairs.now }
{
    first_from(pairs, id).unwrap_or(pairs.len())
}

/// Whether the pair at this index has this identity.
fn has_at(pairs: &[(u64, u64)], at: usize, id: u64) -> bool
    ensures { IsTrue result ↔ HasAt pairs.now at id }
{
    if pairs.len() <= at {
        return false;
    }
    pairs[at].0 == id
}

impl Model for Pairs {
    ghost Value = { List (ℕ × ℕ) };

    ghost view = { λ p. p.items.items };
}

impl Pairs {
    /// Makes a list with no pair. This allocates nothing.
    pub fn new(alloc: Global) -> Pairs
        ensures { result ≡ [] }
    {
        Pairs {
            items: Vec::new(alloc),
        }
    }

    /// Appends a pair.
    ///
    /// # Errors
    ///
    /// `AllocError`: the allocation failed. The pairs are unchanged.
    pub fn push(&mut self, id: u64, number: u64) -> Result<(), AllocError>
        ensures pushed { OnOk result (self.new ≡ self.old ++ (id, number) ∷ []) }
        ensures unchanged_on_error { OnErr result (self.new ≡ self.old) }
    {
        self.items.push((id, number)).map_err(AllocError::from)
    }

    /// Adds the pair of an identity in the order of identities, or replaces the identity's pair.
    ///
    /// # Errors
    ///
    /// `AllocError`: the allocation failed. The pairs are unchanged.
    pub fn put(&mut self, id: u64, number: u64) -> Result<(), AllocError>
        ensures put { OnOk result (self.new ≡ inserted self.old (id, number)) }
        ensures unchanged_on_error { OnErr result (self.new ≡ self.old) }
    {
        let at = place_for(&self.items, id);
        if has_at(&self.items, at, id) {
            self.items[at] = (id, number);
            return Ok(());
        }
        self.items.insert(at, (id, number))?;
        Ok(())
    }

    /// Returns a copy of the pairs.
    ///
    /// # Errors
    ///
    /// `AllocError`: the allocation failed.
    pub fn copied(&self) -> Result<Pairs, AllocError>
        ensures { IfOk result (λ copy. copy ≡ self.now) }
    {
        Ok(Pairs {
            items: self.items.clone()?,
        })
    }

    /// Returns the pairs, in their order.
    pub fn as_slice(&self) -> &[(u64, u64)]
        ensures { result.now ≡ self.now }
    {
        &self.items
    }
}
