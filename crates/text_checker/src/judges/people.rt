//! Participants in a list, found by their identities.

ghost use Rattle.std.specs.Prelude.{◌≡◌, ◌<◌, ◌^◌, ◌==◌, [], ◌∷◌, ◌++◌, None, OnOk, Some, filter, if◌then◌else◌, is_some, length, nat_le, not};
ghost use Rattle.model_steps.specs.Participant.{beginner, program_of, with_participant};

use model_steps::{Hints, Participant, Refusal};
use std::alloc::{AllocError, Global};
use std::marker::Model;

/// Participants with distinct identities, in the order in which they came, and an index to try first for each. Contracts
/// see the list.
#[derive(Drop)]
pub struct People<P> {
    hints: Hints,
    list: Vec<Participant<P>>,
}

impl<P> Model for People<P> {
    ghost use Rattle.std.specs.Prelude.{List};
    ghost use Rattle.model_steps.specs.declared.participant.Participant.{Participant};
    ghost use Rattle.model_steps.specs.Participant.{AreDistinct};

    ghost Value = { List (Participant P) };

    ghost view = { λ s. s.list.items };

    ghost invariant = { λ s. AreDistinct s.list.items };
}

impl<P> People<P> {
    /// Makes an empty list. This allocates nothing.
    pub fn new(alloc: Global) -> People<P>
        ensures { result ≡ [] }
    {
        People {
            hints: Hints::new(),
            list: Vec::new(alloc),
        }
    }

    /// Returns the number of participants, which is below 2^63.
    pub fn count(&self) -> usize
        ensures count { result ≡ length self.now }
        ensures small { result < 2 ^ 63 }
    {
        self.list.len()
    }

    /// Returns the participants, in the order in which they came.
    pub fn list(&self) -> &[Participant<P>]
        ensures { result.now ≡ self.now }
    {
        &self.list
    }
}

impl<P: Copy + Drop> People<P> {
    /// Returns what is kept of an identity, or `None` if the list does not have it.
    pub fn find(&self, id: u64) -> Option<P>
        ensures { result ≡ program_of id self.now }
    {
        let Some(i) = self.hints.find(&self.list, id) else {
            return None;
        };
        Some(self.list[i].program)
    }

    /// Returns the error that the entry of an identity must return, where at most `most` may be in the list, or `None`.
    pub fn entry_refusal(
        &self,
        id: u64,
        most: u64,
        known: Refusal,
        full: Refusal,
    ) -> Option<Refusal>
        ensures { result ≡ (if id == 0 then Some Refusal.ZeroIdentity
            else if is_some (program_of id self.now) then Some known
            else if nat_le most (length self.now) then Some full else None) }
    {
        if id == 0 {
            Some(Refusal::ZeroIdentity)
        } else if self.find(id).is_some() {
            Some(known)
        } else if most <= self.count() as u64 {
            Some(full)
        } else {
            None
        }
    }

    /// Replaces what is kept of an identity, if the list has it.
    pub fn put(&mut self, id: u64, program: P)
        ensures { self.new ≡ with_participant (beginner id program) self.old }
    {
        let Some(i) = self.hints.find(&self.list, id) else {
            return;
        };
        self.list[i] = Participant {
            identity: id,
            program,
            ended: false,
        };
    }

    /// Adds an identity, if the list does not have it.
    ///
    /// # Errors
    ///
    /// `AllocError`: the allocation failed. Nothing has changed for those in the list.
    pub fn push(&mut self, id: u64, program: P) -> Result<(), AllocError>
        ensures { OnOk result (program_of id self.old ≡ None → self.new ≡ self.old ++ beginner id program ∷ []) }
    {
        if self.find(id).is_some() {
            return Ok(());
        }
        self.hints.note(id, self.list.len());
        self.list.push(Participant {
            identity: id,
            program,
            ended: false,
        })?;
        Ok(())
    }

    /// Removes an identity.
    pub fn remove(&mut self, id: u64)
        ensures { self.new ≡ filter (λ v. not (v.identity == id)) self.old }
    {
        self.list.retain(|participant| participant.identity != id);
    }
}
