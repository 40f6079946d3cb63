//! The front ends that keep stays in the pool, as a log tells.

ghost use Rattle.std.specs.Prelude.{◌≡◌, OnOk, [], map};
ghost use Rattle.service_follow.specs.Batches.{next_count};
ghost use Rattle.service_follow.specs.Kept.{heard, kept_after, kept_behind, with_keeper, without};
ghost use Rattle.service_follow.specs.Said.{said_by};

use crate::front_end_stay::{FrontEndStay, enters, leaves};
use crate::note::{Asked, Note};
use model_asked::Event;
use std::alloc::{AllocError, Global};

/// The stays in the pool, each with the front end that keeps it, and how many entries were applied.
#[derive(Drop)]
pub(crate) struct Keeping {
    pub(crate) kept: Vec<FrontEndStay>,
    pub(crate) entries: u64,
}

/// An entry of a front end was applied behind so many others.
fn hear_all(kept: &mut [FrontEndStay], token: &[u8; 32], place: u64)
    ensures { kept.new ≡ map (heard token.now place) kept.old }
{
    for stay in kept.iter_mut() {
        stay.hear(token, place);
    }
}

impl Keeping {
    /// Makes one of a pool for which nobody competes, with no entry applied.
    pub(crate) fn new(alloc: Global) -> Keeping
        ensures kept { result.kept.items ≡ [] }
        ensures entries { result.entries ≡ 0 }
    {
        Keeping {
            kept: Vec::new(alloc),
            entries: 0,
        }
    }

    // Removes the stay of an identity.
    fn forget(&mut self, id: u64)
        ensures kept { self.new.kept.items ≡ without id self.old.kept.items }
        ensures entries { self.new.entries ≡ self.old.entries }
    {
        self.kept.retain(|stay| stay.identity != id);
    }

    // Notes that an entry of this front end keeps the stay of an identity.
    fn keep(&mut self, token: &[u8; 32], id: u64) -> Result<(), AllocError>
        ensures kept { OnOk result (self.new.kept.items ≡ with_keeper token.now self.old.entries id self.old.kept.items) }
        ensures entries { self.new.entries ≡ self.old.entries }
    {
        self.forget(id);
        let stay = FrontEndStay {
            identity: id,
            token: *token,
            last: self.entries,
        };
        match self.kept.push(stay) {
            Ok(()) => Ok(()),
            Err(_) => Err(AllocError),
        }
    }

    // Notes what was said to a request of an entry of this front end.
    fn note(&mut self, token: &[u8; 32], note: &Note) -> Result<(), AllocError>
        ensures kept { OnOk result (self.new.kept.items ≡ kept_after token.now self.old.entries self.old.kept.items (said_by note.now)) }
        ensures entries { self.new.entries ≡ self.old.entries }
    {
        match note.asked() {
            Asked::ToTake(Event::Enter(id)) => {
                if enters(note.reply()) {
                    return self.keep(token, id);
                }
            }
            Asked::ToTake(Event::Leave(id)) => {
                if leaves(note.reply()) {
                    self.forget(id);
                }
            }
            Asked::ToTake(
                Event::Begin(_)
                | Event::Step(_)
                | Event::Probe(_)
                | Event::Seek(_)
                | Event::Put(_, _)
                | Event::Get(_)
                | Event::Widen(_),
            ) => {}
            Asked::ToTell(_) => {}
        }
        Ok(())
    }

    /// Notes an entry of this front end, and what was said to its requests.
    pub(crate) fn learn(&mut self, token: &[u8; 32], notes: &[Note]) -> Result<(), AllocError>
        ensures kept { OnOk result (self.new.kept.items ≡ kept_behind token.now self.old.entries self.old.kept.items (map said_by notes.now)) }
        ensures entries { OnOk result (self.new.entries ≡ next_count self.old.entries) }
    {
        hear_all(&mut self.kept, token, self.entries);
        for note in notes {
            self.note(token, note)?;
        }
        self.entries = self.entries.wrapping_add(1);
        Ok(())
    }
}
