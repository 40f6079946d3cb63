//! A log in memory.

ghost use Rattle.std.specs.Prelude.{◌≡◌, ◌<◌, ◌≤◌, [], ◌∷◌, ◌++◌, length, Some, None, Ok, Err, true, false, OnOk, OnErr, IfErr, IfSome, IfNone, ◌↔◌, slice_get};
ghost use Rattle.service_log.specs.Places.{IsDecidedBelow, Same, stands_in};
ghost use Rattle.service_log.specs.Causes.{FailsInMemory};
ghost use Rattle.service_log.specs.declared.store.Put.TheVariants.{Written, Taken};
ghost use Rattle.service_log.specs.declared.store_fault.StoreFault.TheVariants.{Memory, Gap};

use crate::store::{Append, MOST_PLACES, Put, Store};
use crate::store_fault::StoreFault;
use std::alloc::{AllocError, Global};
use std::marker::Model;

/// A log in memory, whose places are written in their order. Contracts see the list of its entries.
#[derive(Drop)]
pub struct MemoryStore {
    alloc: Global,
    entries: Vec<Vec<u8>>,
    hint: Option<u64>,
    /// Entries below this place were given up, but the first. They stay in memory.
    gone: u64,
}

impl Model for MemoryStore {
    ghost use Rattle.std.specs.Prelude.{List, ℕ, map};

    ghost Value = { List (List ℕ) };

    ghost view = { λ s. map (λ e. e.items) s.entries.items };
}

impl MemoryStore {
    /// Makes an empty log.
    pub fn new(alloc: Global) -> MemoryStore
        ensures { result ≡ [] }
    {
        MemoryStore {
            alloc,
            entries: Vec::new(alloc),
            hint: None,
            gone: 0,
        }
    }

    /// Returns the number of entries.
    pub fn len(&self) -> usize
        ensures { result ≡ length self.now }
    {
        self.entries.len()
    }

    // Writes an entry at the first place that is empty.
    fn push(&mut self, entry: &[u8]) -> Result<(), AllocError>
        ensures written { OnOk result (self.new ≡ self.old ++ entry.now ∷ []) }
        ensures unchanged_on_error { OnErr result (self.new ≡ self.old) }
    {
        let entry = Vec::from_slice(self.alloc, entry)?;
        match self.entries.push(entry) {
            Ok(()) => Ok(()),
            Err(_) => Err(AllocError),
        }
    }

    /// Returns the entry at a place, or `None` if the place is empty.
    pub fn entry(&self, place: usize) -> Option<&[u8]>
        ensures some { IfSome result (λ e. slice_get self.now place ≡ Some e.now) }
        ensures none { IfNone result (length self.now ≤ place) }
    {
        match self.entries.get(place) {
            Some(entry) => Some(entry.as_slice()),
            None => None,
        }
    }
}

impl Store for MemoryStore {
    ghost stands = { stands_in };

    ghost lacks = { λ log place. length log ≤ place };

    ghost fails = { FailsInMemory };

    #[tactic(auto, using(crate::proofs::LogPlaces::adds_last, crate::proofs::LogPlaces::stands_last))]
    fn put(&mut self, place: u64, entry: &[u8]) -> Result<Put, StoreFault> {
        let next = self.entries.len() as u64;
        if place < next {
            return Ok(Put::Taken);
        }
        if next < place {
            return Err(StoreFault::Gap);
        }
        match self.push(entry) {
            Ok(()) => Ok(Put::Written),
            Err(_) => Err(StoreFault::Memory),
        }
    }

    #[tactic(auto, using(crate::proofs::Chains::adds_from_none, crate::proofs::Chains::same_self))]
    fn append(&mut self, place: u64, entry: &[u8]) -> Result<Append, StoreFault> {
        let next = self.entries.len() as u64;
        if place > next {
            return Err(StoreFault::Gap);
        }
        if next >= MOST_PLACES || self.push(entry).is_err() {
            return Err(StoreFault::Memory);
        }
        Ok(Append::At(next))
    }

    fn get(&mut self, place: u64, entry: &mut Vec<u8>) -> Result<bool, StoreFault> {
        let Some(next) = self.entries.get(place as usize) else {
            return Ok(false);
        };
        if 0 < place && place < self.gone {
            return Err(StoreFault::Trimmed);
        }
        entry.clear();
        match entry.extend_from_slice(next) {
            Ok(()) => Ok(true),
            Err(_) => Err(StoreFault::Memory),
        }
    }

    fn hint(&mut self) -> Result<Option<u64>, StoreFault> {
        Ok(self.hint)
    }

    fn put_hint(&mut self, place: u64) -> Result<(), StoreFault> {
        self.hint = Some(place);
        Ok(())
    }

    fn trim(&mut self, place: u64) -> Result<bool, StoreFault>
        ensures kept { self.new ≡ self.old }
        ensures same { Same (stands_in self.old) (stands_in self.new) }
        ensures decided { OnOk result (IsDecidedBelow (stands_in self.new) place) }
        ensures fault { IfErr result FailsInMemory }
        ensures gap { result ≡ Err Gap ↔ length self.old < place }
    {
        if (self.entries.len() as u64) < place {
            return Err(StoreFault::Gap);
        }
        self.gone = self.gone.max(place);
        Ok(true)
    }

    fn trimmed(&mut self) -> Result<u64, StoreFault> {
        Ok(self.gone)
    }
}
