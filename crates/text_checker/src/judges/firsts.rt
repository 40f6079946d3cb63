//! The first moments in which proposals are alone.

ghost use Rattle.std.specs.Prelude.{◌≡◌, ◌==◌, ℕ, OnOk};
ghost use Rattle.std.specs.List.{list_any};
ghost use Rattle.std.specs.Option.{option_copied};
ghost use Rattle.model_steps.specs.View.{value_of};
ghost use Rattle.model_renaming.specs.RenameObject.{RenameObject, new_object};
ghost use Rattle.text_checker.specs.judges.Firsts.{sole_in, view_at, noted, HoldsFirsts};
ghost use Rattle.text_checker.specs.judges.Standing.{proposed_by};

use std::alloc::{AllocError, Global};
use std::collections::HashMap;
use text_records::Pairs;

/// The last moment of the memory, as a view, and one earlier moment for each participant.
///
/// That is the first moment since its last proposal in which no other participant proposed the same, if there was one.
pub struct Firsts {
    present: Pairs,
    found: HashMap<u64, Pairs>,
}

// By hand, so that the code that drops them is here alone, and not at each place where a migration goes out of scope.
impl Drop for Firsts {
    fn drop(self) {
        let Firsts {
            present: _,
            found: _,
        } = self;
    }
}

/// Whether a number is proposed in these pairs.
fn is_proposed(pairs: &[(u64, u64)], number: u64) -> bool
    ensures { result ≡ list_any (λ pair. pair.1 == number) pairs.now }
{
    pairs.iter().any(|pair| pair.1 == number)
}

/// The identity that alone proposes a number in a view, or `None` if none does or more than one.
fn sole_proposer(pairs: &[(u64, u64)], number: u64) -> Option<u64>
    ensures { result ≡ sole_in number pairs.now }
{
    for i in 0..pairs.len() {
        if pairs[i].1 == number {
            if is_proposed(&pairs[i + 1..], number) {
                return None;
            }
            return Some(pairs[i].0);
        }
    }
    None
}

/// The proposal of an identity in a view.
fn number_of(pairs: &[(u64, u64)], id: u64) -> Option<u64>
    ensures { result ≡ value_of id pairs.now }
{
    for pair in pairs {
        if pair.0 == id {
            return Some(pair.1);
        }
    }
    None
}

impl Firsts {
    /// Makes the state before any proposal. This allocates nothing.
    pub fn new(alloc: Global) -> Firsts
        ensures { HoldsFirsts result new_object }
    {
        Firsts {
            present: Pairs::new(alloc),
            found: HashMap::new(alloc),
        }
    }

    /// Returns the first moment since the last proposal of an identity in which no other proposed the same, or `None`.
    pub fn view_of(&self, id: u64) -> Option<&Pairs>
        ensures { option_copied result ≡ view_at self.now id }
    {
        self.found.get(&id)
    }

    /// Records the present moment for the identity that alone proposes a number in it, if it is the first such moment.
    fn note(&mut self, number: u64) -> Result<(), AllocError>
        ensures present { OnOk result (self.new.present ≡ self.old.present) }
        ensures found { OnOk result ((p : ℕ) → view_at self.new p ≡ noted self.old number p) }
    {
        let Some(id) = sole_proposer(self.present.as_slice(), number) else {
            return Ok(());
        };
        if self.found.contains_key(&id) {
            return Ok(());
        }
        let view = self.present.copied()?;
        self.found.insert(id, view)?;
        Ok(())
    }

    /// Records that an identity proposes a number.
    ///
    /// # Errors
    ///
    /// `AllocError`: the allocation failed. The state is then of no use.
    pub fn propose(&mut self, id: u64, number: u64) -> Result<(), AllocError>
        ensures { OnOk result ((o : RenameObject) → HoldsFirsts self.old o → HoldsFirsts self.new (proposed_by id number o)) }
    {
        let before = number_of(self.present.as_slice(), id);
        self.present.put(id, number)?;
        self.found.remove(&id);
        self.note(number)?;
        if let Some(left) = before {
            self.note(left)?;
        }
        Ok(())
    }
}
