//! A desk with its history.

ghost use Rattle.std.specs.Prelude.{◌≡◌, ◌≤◌, ◌⊎◌, ◌↔◌, ℕ, List, [], length, slice_get, IfOk, IfErr, Err, false};
ghost use Rattle.model_asked.specs.Config.{gives_names};
ghost use Rattle.model_asked.specs.declared.event.Event.TheVariants.{Get};
ghost use Rattle.text_worlds.specs.desk.Desk.{desk_reply, owner_reply};
ghost use Rattle.text_worlds.specs.desk.Held.{slots_of};
ghost use Rattle.text_worlds.specs.desk.Names.{IsOwnerReply};
ghost use Rattle.model_asked.specs.Replies.{with_view};
ghost use Rattle.service_hall.specs.Halls.{hall_of, desk_of, SatisfiesSpec, hall_refusal, HallMay};
ghost use Rattle.service_hall.specs.Raising.{Raises, held_value, token_above};
ghost use Rattle.service_hall.specs.Reading.{Serves};
ghost use Rattle.service_hall.specs.Serving.{wants_room};
ghost use Rattle.model_asked.specs.Requests.Request.{Take};

use crate::log::Log;
use crate::raising::token_reply;
use crate::rules::{Rules, Way};
use model_asked::{Config, Event, Exchange, Reply};
use model_pool::slots::Slots;
use model_steps::{Refusal, View};
use std::alloc::Global;
use std::marker::Model;
use text_worlds::desk::Desk;

/// The most events of a history.
pub const MOST_EVENTS: usize = 1_000_000;

/// A value that is dropped by what its type says of that, and not by its parts.
#[derive(Drop)]
struct Held<T> {
    desk: T,
}

/// A desk with its history: the list of its accepted events and their replies. It stores no refused event.
pub struct Hall {
    config: Config,
    held: Held<Desk<Global>>,
    history: Log<Global>,
}

// By hand, so that the code that drops a hall is here alone, and not at each place where one goes out of scope.
impl Drop for Hall {
    fn drop(self) {
        let Hall {
            config: _,
            held: _,
            history: _,
        } = self;
    }
}

impl Model for Hall {
    ghost use Rattle.std.specs.Prelude.{◌≡◌};
    ghost use Rattle.service_hall.specs.HallState.{HallState};

    ghost Value = { HallState };

    ghost use Rattle.service_hall.specs.Halls.{hall_of, desk_of, SatisfiesSpec};

    ghost view = { λ h. hall_of h.config h.history.items };

    ghost invariant = { λ h. (h.held.desk ≡ desk_of (hall_of h.config h.history.items)) × SatisfiesSpec (hall_of h.config h.history.items) };
}

impl Hall {
    /// Makes a hall of this config with no event.
    ///
    /// # Errors
    ///
    /// The first that applies is returned:
    ///
    /// - `OutOfRange`: the config's world gives no names.
    /// - `NoMemory`: an allocation failed.
    pub fn new(alloc: Global, config: Config) -> Result<Self, Refusal>
        ensures opened { IfOk result (λ h. h ≡ hall_of config []) }
        ensures out_of_range { result ≡ Err Refusal.OutOfRange ↔ (gives_names config.world ≡ false) }
        ensures only { IfErr result (λ why. (why ≡ Refusal.NoMemory) ⊎ (why ≡ Refusal.OutOfRange)) }
    {
        if !config.world.gives_names() {
            return Err(Refusal::OutOfRange);
        }
        // The desk last, since each later exit has code that takes it apart.
        let history = Log::new(alloc)?;
        let desk = Desk::new(alloc, config)?;
        Ok(Hall {
            config,
            held: Held { desk },
            history,
        })
    }

    /// Returns the config for which the hall was opened.
    pub fn config(&self) -> Config
        ensures config { result ≡ self.now.config }
        ensures lawful { SatisfiesSpec self.now }
    {
        self.config
    }

    /// Returns the number of events in the history: at most 1,000,000.
    pub fn len(&self) -> usize
        ensures count { result ≡ length self.now.history }
        ensures most { result ≤ 1000000 }
        ensures lawful { SatisfiesSpec self.now }
    {
        self.history.len()
    }

    /// Returns the event at a place of the history, from 0, with its reply. Returns `None` if the history is shorter.
    pub fn get(&self, place: usize) -> Option<Exchange>
        ensures { result ≡ slice_get self.now.history place }
    {
        self.history.get(place)
    }

    /// Returns why `apply` would refuse an event, failed allocations aside, or `None` if it would accept it.
    ///
    /// The desk's refusals come first. `HistoryFull` comes last: the history has 1,000,000 events.
    pub fn refusal(&self, event: Event) -> Option<Refusal>
        ensures { result ≡ hall_refusal self.now event }
    {
        if let Some(refusal) = self.held.desk.refusal(event) {
            return Some(refusal);
        }
        if self.history.len() >= MOST_EVENTS {
            Some(Refusal::HistoryFull)
        } else {
            None
        }
    }

    /// Applies one event to the desk, and returns the reply. It stores an accepted event with its reply in the history.
    ///
    /// A refusal changes nothing. The first that applies is returned: one of `refusal`, and then `NoMemory` if an
    /// allocation failed.
    ///
    /// # Steps
    ///
    /// At most one access.
    pub fn apply(&mut self, event: Event) -> Reply<View>
        ensures { HallMay self.old event result self.new }
    {
        let mut view = View::new();
        self.apply_short(event, &mut view).with(&view)
    }

    /// Does what `apply` does, and returns a reply of few bytes. A reply that shows a view shows the one that this call
    /// stores in `view`.
    pub fn apply_short(&mut self, event: Event, view: &mut View) -> Reply<()>
        ensures { HallMay self.old event (with_view result view.new) self.new }
    {
        if let Some(refusal) = self.refusal(event) {
            return Reply::Refused(refusal);
        }
        if !self.history.reserve() {
            return Reply::Refused(Refusal::NoMemory);
        }
        let reply = self.held.desk.apply_short(event, view);
        if !reply.is_refusal() {
            self.history.push_reserved(event, reply, view);
        }
        reply
    }

    /// Returns the reply of the desk to `get` of an identity, and stores nothing: the hall stays as it is.
    ///
    /// It is the reply of `apply` to this event, but it is returned even if the history is full.
    ///
    /// The reply is a refusal if the identity holds no number. The first that applies is returned:
    ///
    /// - `NotCompeting`: the identity does not compete.
    /// - `NotHolding`: it competes and holds no number.
    pub fn read(&self, id: u64) -> Reply<()>
        ensures reply { (view : List (ℕ × ℕ)) → with_view result view ≡ desk_reply (desk_of self.now) (Get id) }
        ensures room { (view : List (ℕ × ℕ)) → wants_room (with_view result view) ≡ false }
    {
        Reply::of_value(self.held.desk.slots().get(id).copied())
    }

    /// Returns the next token of the number that an identity holds: one more than its slot has. It is `None` if the slot has the greatest value.
    ///
    /// Of an identity that holds no number it is 1.
    pub fn next_token(&self, id: u64) -> Option<u64>
        ensures { result ≡ token_above (held_value self.now id) }
    {
        self.held
            .desk
            .slots()
            .get(id)
            .copied()
            .unwrap_or(0)
            .checked_add(1)
    }

    /// Puts the next token into the slot of the number that an identity holds, and returns it (`next_token`).
    ///
    /// The history stores a `put` of that token. The reply is `Value` with the token, or the refusal of the `put`. It is `OutOfRange` if there is no next
    /// token.
    pub fn raise(&mut self, id: u64, view: &mut View) -> Reply<()>
        ensures { Raises self.old id (with_view result view.new) self.new }
    {
        match self.next_token(id) {
            Some(token) => token_reply(token, self.apply_short(Event::Put(id, token), view)),
            None => Reply::Refused(Refusal::OutOfRange),
        }
    }

    /// Takes an event by rules: it does what `read` does if the event is a `get` and reads are plain, what `raise` does if it is a `put` and tokens are
    /// given, and what `apply_short` does if it is another that is admitted. Any other is refused with `OutOfRange`, and changes nothing.
    pub fn serve_short(&mut self, rules: Rules, event: Event, view: &mut View) -> Reply<()>
        ensures { Serves rules self.old (Take event) (with_view result view.new) self.new }
    {
        match rules.way_of(event) {
            Way::Applied => self.apply_short(event, view),
            Way::Read(id) => self.read(id),
            Way::Raised(id) => self.raise(id, view),
            Way::Barred => Reply::Refused(Refusal::OutOfRange),
        }
    }

    /// Returns the pool and its slots, for observers.
    pub fn slots(&self) -> &Slots<u64, Global>
        ensures { result.now ≡ slots_of (desk_of self.now) }
    {
        self.held.desk.slots()
    }

    /// Returns the owner of a name, or that no participant has it. This changes nothing.
    ///
    /// The reply is the refusal `OutOfRange` if the number is not from 1 to `2m - 1`, for m participants.
    pub fn owner(&self, number: u64) -> Reply<View>
        ensures value { result ≡ owner_reply (desk_of self.now) number }

        // The owner is the identity that got the name in the history.
        ensures reported { IsOwnerReply self.now.config.m self.now.history number result }
    {
        self.held.desk.owner(number)
    }
}
