//! Exchanges in order, which store their views apart.

ghost use Rattle.std.specs.Prelude.{◌≡◌, ◌<◌, ◌++◌, [], ◌∷◌, length, slice_get, true, IfOk};
ghost use Rattle.text_worlds.specs.desk.DeskCalls.{exchange};
ghost use Rattle.model_asked.specs.Replies.{with_view};
ghost use Rattle.service_hall.specs.Logs.{log_of, all_inside};

use crate::entry::{Entry, shorten, shown};
use model_asked::{Event, Exchange, Reply};
use model_steps::{NoMemory, View};
use std::alloc::Allocator;
use std::marker::Model;

/// Exchanges in order. Each takes 40 bytes, and a kilobyte more if its reply shows a view or is of a rare kind.
#[derive(Drop)]
pub struct Log<A: Allocator> {
    entries: Vec<Entry, A>,
    apart: Vec<Reply<View>, A>,
}

impl<A: Allocator> Model for Log<A> {
    ghost use Rattle.std.specs.Prelude.{◌≡◌, ◌&&◌, nat_lt, true, length, vec_len, vec_capacity};
    ghost use Rattle.service_hall.specs.LogState.{LogState};

    ghost Value = { LogState };

    ghost use Rattle.service_hall.specs.Logs.{log_of, all_inside};

    ghost view = { λ l. log_of l.apart.items l.entries.items
        (nat_lt (vec_len l.entries) (vec_capacity l.entries) && nat_lt (vec_len l.apart) (vec_capacity l.apart)) };

    ghost invariant = { λ l. all_inside (length l.apart.items) l.entries.items ≡ true };
}

impl<A: Allocator + Clone> Log<A> {
    /// Makes a log of no exchange. This allocates nothing.
    ///
    /// # Errors
    ///
    /// `NoMemory`: the allocator could not be cloned.
    pub fn new(alloc: A) -> Result<Log<A>, NoMemory>
        ensures { IfOk result (λ l. l.items ≡ []) }
    {
        let Ok(other) = alloc.clone() else {
            return Err(NoMemory);
        };
        Ok(Log {
            entries: Vec::new(other),
            apart: Vec::new(alloc),
        })
    }
}

impl<A: Allocator> Log<A> {
    /// Returns the number of exchanges.
    pub fn len(&self) -> usize
        ensures { result ≡ length self.now.items }
    {
        self.entries.len()
    }

    /// Returns the exchange at a place, from 0, or `None` if there are fewer.
    pub fn get(&self, place: usize) -> Option<Exchange>
        ensures { result ≡ slice_get self.now.items place }
    {
        let entry = *self.entries.get(place)?;
        Some(Exchange {
            event: entry.event,
            reply: shown(&self.apart, entry.reply),
        })
    }

    /// Makes room for one more exchange, and returns false if the allocation failed. The exchanges stay as they are.
    pub fn reserve(&mut self) -> bool
        ensures same { self.new.items ≡ self.old.items }
        ensures room { result ≡ true → self.new.room ≡ true }
    {
        self.entries.reserve(1).is_ok() && self.apart.reserve(1).is_ok()
    }

    /// Appends an event with its reply, for which there is room. A reply that shows a view shows `view`.
    pub fn push_reserved(&mut self, event: Event, reply: Reply<()>, view: &View)
        requires { self.old.room ≡ true }
        ensures { self.new.items ≡ self.old.items ++ exchange event (with_view reply view.now) ∷ [] }
    {
        let reply = shorten(&mut self.apart, reply, view);
        self.entries.push_reserved(Entry { event, reply });
    }
}
