//! A service with the rules for its clients.

ghost use Rattle.std.specs.Prelude.{◌≡◌, true};
ghost use Rattle.model_asked.specs.Replies.{with_view};
ghost use Rattle.service_hall.specs.Raising.{Raises};
ghost use Rattle.service_host.specs.Readings.{HallReads, ReadingServes};
ghost use Rattle.service_host.specs.lemmas.ReadingProofs.{hall_reading_answers, reading_answers};

use model_asked::{Event, Reply};
use model_steps::{Refusal, View};
use service_hall::{Hall, Rules, Way, token_reply};
use service_journal::WriteAhead;
use text_player::Service;

/// A service, and the rules for its clients.
#[derive(Drop)]
pub struct Reading<D> {
    /// The service.
    pub service: D,
    /// Whether the history stores reads, and what clients may ask for.
    pub rules: Rules,
}

// Puts the next token into the slot of the number that an identity holds, and returns it (`Hall::raise`).
fn raise<R>(rt: &R, service: &mut WriteAhead, id: u64, view: &mut View) -> Reply<()>
    ensures raised { Raises service.old.hall id (with_view result view.new) service.new.hall }
    ensures reported { service.new.reported ≡ service.old.reported }
{
    match service.hall().next_token(id) {
        Some(token) => token_reply(token, service.apply(rt, Event::Put(id, token), view)),
        None => Reply::Refused(Refusal::OutOfRange),
    }
}

impl<R> Service<R> for Reading<Hall> {
    ghost knows = { λ q. true };

    ghost may = { HallReads };

    ghost answers = { λ w q known. hall_reading_answers w q };

    fn apply(&mut self, _rt: &R, event: Event, view: &mut View) -> Reply<()> {
        self.service.serve_short(self.rules, event, view)
    }

    fn owner(&mut self, _rt: &R, n: u64) -> Reply<View> {
        self.service.owner(n)
    }
}

impl<R> Service<R> for Reading<WriteAhead> {
    ghost knows = { λ q. true };

    ghost may = { ReadingServes };

    ghost answers = { λ w q known. reading_answers w q };

    fn apply(&mut self, rt: &R, event: Event, view: &mut View) -> Reply<()> {
        match self.rules.way_of(event) {
            Way::Applied => self.service.apply(rt, event, view),
            Way::Read(id) => self.service.hall().read(id),
            Way::Raised(id) => raise(rt, &mut self.service, id, view),
            Way::Barred => Reply::Refused(Refusal::OutOfRange),
        }
    }

    fn owner(&mut self, rt: &R, n: u64) -> Reply<View> {
        self.service.owner(rt, n)
    }
}
