//! A small machine, a store that loses answers, patience that ends, and streams that end.

ghost use Rattle.std.specs.Prelude.{◌≡◌, ◌%◌, ◌∷◌, length, OnOk};

use service_follow::Pause;
use service_log::etcd::Dial;
use service_log::{Append, ApplyFault, MOST_PLACES, Machine, MemoryStore, Put, Store, StoreFault};
use std::alloc::{AllocError, Global};
use std::cell::{Cell, RefCell};
use std::io;
use std::io::{Read, Write};

/// Keeps its entries. The replies to one are its place, modulo 256, and its bytes.
#[derive(Drop)]
pub(crate) struct Notebook {
    pub(crate) alloc: Global,
    pub(crate) entries: Vec<Vec<u8>>,
    pub(crate) refusals: u64,
}

impl Notebook {
    // Keeps an entry and answers it.
    fn write(&mut self, entry: &[u8], replies: &mut Vec<u8>) -> Result<(), AllocError>
        ensures { OnOk result (replies.new.items ≡ (length self.old.entries.items % 256) ∷ entry.now) }
    {
        if self.refusals > 0 {
            self.refusals -= 1;
            return Err(AllocError);
        }
        let copy = Vec::from_slice(self.alloc, entry)?;
        let place = (self.entries.len() % 256) as u8;
        replies.clear();
        replies.push(place)?;
        replies.extend_from_slice(entry)?;
        self.entries.push(copy)?;
        Ok(())
    }
}

impl Machine for Notebook {
    ghost use Rattle.std.specs.Prelude.{◌≡◌, ◌%◌, ◌∷◌, [], length};

    type Replies = Vec<u8>;

    ghost applies = { λ m entry replies u. replies.items ≡ (length m.entries.items % 256) ∷ entry };

    ghost silent = { λ replies. replies.items ≡ [] };

    fn apply(&mut self, entry: &[u8], replies: &mut Vec<u8>) -> Result<(), ApplyFault> {
        match self.write(entry, replies) {
            Ok(()) => Ok(()),
            Err(_) => Err(ApplyFault::Memory),
        }
    }

    fn forget(replies: &mut Vec<u8>) {
        replies.clear();
    }
}

/// A store that writes each time, and then loses the answer each so many times; never where that is 0.
#[derive(Drop)]
pub(crate) struct Lossy {
    pub(crate) store: MemoryStore,
    puts: u64,
    pub(crate) every: u64,
}

impl Lossy {
    /// Over a store, as it stands.
    pub(crate) fn new(store: MemoryStore, every: u64) -> Lossy {
        Lossy {
            store,
            puts: 0,
            every,
        }
    }
}

impl Store for Lossy {
    ghost use Rattle.std.specs.Prelude.{⊤, ◌≤◌, length};
    ghost use Rattle.service_log.specs.Places.{stands_in};

    ghost stands = { λ s. stands_in s.store };

    ghost lacks = { λ s place. length s.store ≤ place };

    ghost fails = { λ fault. ⊤ };

    fn put(&mut self, place: u64, entry: &[u8]) -> Result<Put, StoreFault> {
        let answer = self.store.put(place, entry);
        self.puts = self.puts.wrapping_add(1);
        if self.every != 0 && self.puts % self.every == 0 {
            return Err(StoreFault::Lost);
        }
        answer
    }

    fn append(&mut self, place: u64, entry: &[u8]) -> Result<Append, StoreFault> {
        let answer = self.store.append(place, entry);
        self.puts = self.puts.wrapping_add(1);
        if self.every != 0 && self.puts % self.every == 0 {
            return Err(StoreFault::Lost);
        }
        answer
    }

    fn get(&mut self, place: u64, entry: &mut Vec<u8>) -> Result<bool, StoreFault> {
        self.store.get(place, entry)
    }

    fn hint(&mut self) -> Result<Option<u64>, StoreFault> {
        self.store.hint()
    }

    fn put_hint(&mut self, place: u64) -> Result<(), StoreFault> {
        self.store.put_hint(place)
    }

    fn trim(&mut self, place: u64) -> Result<bool, StoreFault> {
        self.store.trim(place)
    }

    fn trimmed(&mut self) -> Result<u64, StoreFault> {
        self.store.trimmed()
    }
}

/// Patience for so many tries.
#[derive(Drop)]
pub(crate) struct Tries {
    pub(crate) most: u64,
    pub(crate) left: u64,
}

impl Pause for Tries {
    fn begin(&mut self) {
        self.left = self.most;
    }

    fn again(&mut self) -> bool {
        if self.left == 0 {
            return false;
        }
        self.left -= 1;
        true
    }

    fn seconds(&self) -> u64 {
        0
    }
}

/// No patience, and a clock that is set by hand.
#[derive(Drop)]
pub(crate) struct HandClock<'a> {
    pub(crate) seconds: &'a Cell<u64>,
}

impl Pause for HandClock<'_> {
    fn begin(&mut self) {}

    fn again(&mut self) -> bool {
        false
    }

    fn seconds(&self) -> u64 {
        self.seconds.get()
    }
}

/// A log that several front ends share. Where an entry of a rival waits, it is written before the next one, which comes so many seconds late.
#[derive(Drop)]
pub(crate) struct SharedLog<'a> {
    pub(crate) log: &'a RefCell<MemoryStore>,
    pub(crate) rival: &'a RefCell<Vec<u8>>,
    pub(crate) late: &'a Cell<u64>,
    pub(crate) seconds: &'a Cell<u64>,
}

impl SharedLog<'_> {
    // So much time passes as the next entry is late.
    fn pass_late(&self) {
        self.seconds
            .set(self.seconds.get().wrapping_add(self.late.get()));
        self.late.set(0);
    }

    // Writes the entry of the rival that waits, if any does. Tells whether the log took it.
    fn let_rival_in(&self, log: &mut MemoryStore, place: u64) -> bool {
        let Ok(mut rival) = self.rival.try_borrow_mut() else {
            return false;
        };
        if rival.is_empty() {
            return true;
        }
        let put = log.put(place, &rival);
        rival.clear();
        put.is_ok()
    }
}

impl Store for SharedLog<'_> {
    ghost use Rattle.std.specs.Prelude.{⊤};

    ghost stands = { λ s place entry. ⊤ };

    ghost lacks = { λ s place. ⊤ };

    ghost fails = { λ fault. ⊤ };

    fn put(&mut self, place: u64, entry: &[u8]) -> Result<Put, StoreFault> {
        let Ok(mut log) = self.log.try_borrow_mut() else {
            return Err(StoreFault::Lost);
        };
        if !self.let_rival_in(&mut log, place) {
            return Err(StoreFault::Lost);
        }
        self.pass_late();
        match log.put(place, entry) {
            Ok(put) => Ok(put),
            Err(_) => Err(StoreFault::Lost),
        }
    }

    fn append(&mut self, place: u64, entry: &[u8]) -> Result<Append, StoreFault> {
        let Ok(mut log) = self.log.try_borrow_mut() else {
            return Err(StoreFault::Lost);
        };
        if !self.let_rival_in(&mut log, place) {
            return Err(StoreFault::Lost);
        }
        self.pass_late();
        match log.append(place, entry) {
            Ok(append) => Ok(append),
            Err(_) => Err(StoreFault::Lost),
        }
    }

    fn get(&mut self, place: u64, entry: &mut Vec<u8>) -> Result<bool, StoreFault> {
        match self.log.try_borrow_mut() {
            Ok(mut log) => log.get(place, entry),
            Err(_) => Err(StoreFault::Lost),
        }
    }

    fn hint(&mut self) -> Result<Option<u64>, StoreFault> {
        match self.log.try_borrow_mut() {
            Ok(mut log) => log.hint(),
            Err(_) => Err(StoreFault::Lost),
        }
    }

    fn put_hint(&mut self, place: u64) -> Result<(), StoreFault> {
        match self.log.try_borrow_mut() {
            Ok(mut log) => log.put_hint(place),
            Err(_) => Err(StoreFault::Lost),
        }
    }

    fn trim(&mut self, place: u64) -> Result<bool, StoreFault> {
        match self.log.try_borrow_mut() {
            Ok(mut log) => log.trim(place),
            Err(_) => Err(StoreFault::Lost),
        }
    }

    fn trimmed(&mut self) -> Result<u64, StoreFault> {
        match self.log.try_borrow_mut() {
            Ok(mut log) => log.trimmed(),
            Err(_) => Err(StoreFault::Lost),
        }
    }
}

/// A log whose first append is written late: its answer is lost, and its entry gets there only when the next entry is offered,
/// before that one.
#[derive(Drop)]
pub(crate) struct Late {
    pub(crate) log: MemoryStore,
    late: Vec<u8>,
    appends: u64,
}

impl Late {
    /// Over a log, as it stands.
    pub(crate) fn new(alloc: Global, log: MemoryStore) -> Late {
        Late {
            log,
            late: Vec::new(alloc),
            appends: 0,
        }
    }

    // Writes the entry that is late, and offers this one for one place. Returns `None` if the log refused either.
    fn offer(&mut self, place: u64, entry: &[u8]) -> Option<Put> {
        if !self.late.is_empty() {
            self.log.append(place, &self.late).ok()?;
            self.late.clear();
        }
        self.log.put(place, entry).ok()
    }
}

impl Store for Late {
    ghost use Rattle.std.specs.Prelude.{⊤};

    ghost stands = { λ s place entry. ⊤ };

    ghost lacks = { λ s place. ⊤ };

    ghost fails = { λ fault. ⊤ };

    fn put(&mut self, place: u64, entry: &[u8]) -> Result<Put, StoreFault> {
        match self.offer(place, entry) {
            Some(put) => Ok(put),
            None => Err(StoreFault::Lost),
        }
    }

    fn append(&mut self, place: u64, entry: &[u8]) -> Result<Append, StoreFault> {
        self.appends = self.appends.wrapping_add(1);
        if self.appends == 1 {
            return match self.late.extend_from_slice(entry) {
                Ok(()) => Err(StoreFault::Lost),
                Err(_) => Err(StoreFault::Memory),
            };
        }
        match self.offer(place, entry) {
            Some(Put::Written) if place < MOST_PLACES => Ok(Append::At(place)),
            Some(_) => Ok(Append::Nowhere),
            None => Err(StoreFault::Lost),
        }
    }

    fn get(&mut self, place: u64, entry: &mut Vec<u8>) -> Result<bool, StoreFault> {
        self.log.get(place, entry)
    }

    fn hint(&mut self) -> Result<Option<u64>, StoreFault> {
        Ok(None)
    }

    fn put_hint(&mut self, _place: u64) -> Result<(), StoreFault> {
        Ok(())
    }

    fn trim(&mut self, _place: u64) -> Result<bool, StoreFault> {
        Ok(true)
    }

    fn trimmed(&mut self) -> Result<u64, StoreFault> {
        Ok(0)
    }
}

/// Streams, of which each gives the next of some texts and ends.
#[derive(Drop)]
pub(crate) struct Script<'a> {
    pub(crate) texts: &'a [&'a [u8]],
    pub(crate) dialed: usize,
}

/// A stream that gives a text and takes what is written.
#[derive(Drop)]
pub(crate) struct Lines<'a> {
    text: &'a [u8],
}

impl Read for Lines<'_> {
    fn read(&mut self, buf: &mut [u8]) -> io::Result<usize> {
        let count = self.text.len().min(buf.len());
        let (given, left) = self.text.split_at(count);
        buf[..count].copy_from_slice(given);
        self.text = left;
        Ok(count)
    }
}

impl Write for Lines<'_> {
    fn write(&mut self, buf: &[u8]) -> io::Result<usize> {
        Ok(buf.len())
    }

    fn flush(&mut self) -> io::Result<()> {
        Ok(())
    }
}

impl<'a> Dial for Script<'a> {
    type Stream = Lines<'a>;

    fn members(&self) -> usize {
        2
    }

    fn dial(&mut self, _member: usize) -> Option<Lines<'a>> {
        let text = *self.texts.get(self.dialed)?;
        self.dialed = self.dialed.wrapping_add(1);
        Some(Lines { text })
    }
}
