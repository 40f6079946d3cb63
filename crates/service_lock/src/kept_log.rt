//! What a caller has kept, in order.

ghost use Rattle.std.specs.Prelude.{◌≡◌, ◌++◌, ℕ, List, [], ◌∷◌, length, slice_get, true, IfOk};
ghost use Rattle.text_worlds.specs.desk.DeskCalls.{exchange};
ghost use Rattle.model_asked.specs.Replies.{with_view};
ghost use Rattle.service_lock.specs.KeptLogs.{kept_of};
ghost use Rattle.service_lock.specs.KeptNames.{name_given, name_kept};

use crate::kept::Kept;
use model_asked::{Event, Reply};
use model_steps::{NoMemory, View};
use service_hall::Log;
use std::alloc::Global;
use std::marker::Model;

/// Accepted events in order, with the first name among their replies. An event takes 48 bytes, without its view.
#[derive(Drop)]
pub struct KeptLog {
    places: Vec<usize>,
    log: Log<Global>,
    name: Option<u64>,
}

impl Model for KeptLog {
    ghost use Rattle.std.specs.Prelude.{◌≡◌, ◌&&◌, nat_lt, length, vec_len, vec_capacity};
    ghost use Rattle.service_lock.specs.KeptState.{KeptState};

    ghost Value = { KeptState };

    ghost use Rattle.service_lock.specs.KeptLogs.{kept_log_of, side_by_side};
    ghost use Rattle.service_lock.specs.KeptNames.{name_kept};

    ghost view = { λ l. kept_log_of l.places.items l.log.items (nat_lt (vec_len l.places) (vec_capacity l.places) && l.log.room) };

    ghost invariant = { λ l. (length l.places.items ≡ length l.log.items) × (l.name ≡ name_kept (side_by_side l.places.items l.log.items)) };
}

/// The name that a reply gives.
fn name_given(reply: Reply<()>) -> Option<u64>
    ensures { (view : List (ℕ × ℕ)) → result ≡ name_given (with_view reply view) }
{
    match reply {
        Reply::Named(name, ()) => Some(name),
        _ => None,
    }
}

impl KeptLog {
    /// Makes a list with no event. This allocates nothing.
    pub(crate) fn new(alloc: Global) -> Result<KeptLog, NoMemory>
        ensures { IfOk result (λ l. l.items ≡ []) }
    {
        let log = Log::new(alloc)?;
        Ok(KeptLog {
            places: Vec::new(alloc),
            log,
            name: None,
        })
    }

    /// Returns the number of events.
    pub fn len(&self) -> usize
        ensures { result ≡ length self.now.items }
    {
        self.places.len()
    }

    /// Returns the event with this index, from 0, in order.
    pub fn get(&self, at: usize) -> Option<Kept>
        ensures { result ≡ slice_get self.now.items at }
    {
        let exchange = self.log.get(at)?;
        Some(Kept {
            place: self.places[at],
            exchange,
        })
    }

    /// Returns the first name among the replies.
    pub(crate) fn name(&self) -> Option<u64>
        ensures { result ≡ name_kept self.now.items }
    {
        self.name
    }

    /// Allocates room for one more event, and returns whether there is room.
    pub(crate) fn reserve(&mut self) -> bool
        ensures same { self.new.items ≡ self.old.items }
        ensures room { result ≡ true → self.new.room ≡ true }
    {
        self.places.reserve(1).is_ok() && self.log.reserve()
    }

    /// Appends an event with its place and its reply, for which there is room. The reply's view is `view`.
    pub(crate) fn push_reserved(
        &mut self,
        place: usize,
        event: Event,
        reply: Reply<()>,
        view: &View,
    )
        requires { self.old.room ≡ true }
        ensures { self.new.items ≡ self.old.items ++ kept_of place (exchange event (with_view reply view.now)) ∷ [] }
    {
        self.name = self.name.or(name_given(reply));
        self.places.push_reserved(place);
        self.log.push_reserved(event, reply, view);
    }
}
