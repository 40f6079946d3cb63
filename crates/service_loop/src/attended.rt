//! A service, and who keeps the stays in its pool.

ghost use Rattle.std.specs.Prelude.{◌≡◌, ◌∷◌, [], true, false, Some, map};
ghost use Rattle.model_pool.specs.stays.Stays.Act.{Entered, Left};
ghost use Rattle.model_asked.specs.Replies.{with_view};
ghost use Rattle.model_asked.specs.Requests.Request.{Take};
ghost use Rattle.service_loop.specs.Attending.{AttendedMay, Hears, act_of_ending, acts_of_lost, heard, keeps_by, gives_back, after_ending};
ghost use Rattle.service_loop.specs.Losing.{lost_act};
ghost use Rattle.service_loop.specs.AttendingProofs.{attended_answers};

use crate::audit::Audit;
use crate::feed::Feed;
use model_asked::{Event, Reply};
use model_pool::stays::Stays;
use model_steps::{Refusal, View};
use std::alloc::Global;
use text_player::Service;

/// The number of no connection. It keeps a stay that may have begun, though no connection may be answered so.
pub const NOBODY: u64 = 0;

/// How a connection ended.
#[derive(Clone, Copy, Debug, Drop, PartialEq, Eq)]
pub struct Ending {
    /// The number of the connection, which no other ever has.
    pub number: u64,
    /// Whether it said `quit`.
    pub by_quit: bool,
}

/// A service, and who keeps the stays in its pool: connections, each by its number.
#[derive(Drop)]
pub struct Attended<D> {
    /// The service.
    pub service: D,
    /// Who keeps each stay.
    pub stays: Stays,
    /// Whether it is noted who keeps a stay.
    pub keeps: bool,
    /// The number of the connection whose turn it is.
    pub speaker: u64,
    /// Whether an allocation failed, so that a stay may lack in the table.
    pub lacks: bool,
    /// What is told of numbers and refusals.
    pub audit: Audit,
    /// What changes of who holds numbers.
    pub changes: Feed,
}

// Whether who said `enter` keeps the stay, by the reply to it.
fn keeps_by(reply: &Reply<()>) -> bool
    ensures { result ≡ keeps_by reply.now }
{
    matches!(reply, Reply::Ok | Reply::Refused(Refusal::AlreadyCompeting))
}

// Whether a stay has ended, by the reply to `leave`.
fn gives_back(reply: &Reply<()>) -> bool
    ensures { result ≡ gives_back reply.now }
{
    matches!(reply, Reply::Left(_))
}

impl<D> Attended<D> {
    /// A service with these stays. Where it does not keep them, they stay as they are.
    pub fn new(alloc: Global, service: D, stays: Stays, keeps: bool, audit: Audit) -> Attended<D>
        ensures opened { (result.service ≡ service) × (result.stays ≡ stays) × (result.keeps ≡ keeps) × (result.lacks ≡ false) }
        ensures changes { result.changes ≡ record { first = 0; changes = [] } }
    {
        Attended {
            service,
            stays,
            keeps,
            speaker: 0,
            lacks: false,
            audit,
            changes: Feed::new(alloc),
        }
    }

    /// From now on the connection of this number has its turn.
    pub fn listen_to(&mut self, number: u64)
        ensures { self.new ≡ record self.old { speaker = number } }
    {
        self.speaker = number;
    }

    /// A connection ended at this tick.
    pub fn end(&mut self, ending: Ending, tick: u64)
        ensures { self.new ≡ record self.old { stays = after_ending self.old.keeps tick ending self.old.stays } }
    {
        self.audit.let_go(ending.number);
        if !self.keeps {
            return;
        }
        if ending.by_quit {
            self.stays.quit(ending.number);
        } else {
            self.stays.ended(ending.number, tick);
        }
    }

    /// These connections ended at this tick, in this order.
    pub fn end_all(&mut self, endings: &[Ending], tick: u64)
        ensures hears { Hears (map (act_of_ending tick) endings.now) self.old self.new }
        ensures same { self.new.service ≡ self.old.service }
    {
        for ending in endings {
            self.end(*ending, tick);
        }
    }

    /// Where an answer was lost, nobody keeps the stays from this tick on that may have begun by it.
    pub fn end_lost(&mut self, lost: bool, tick: u64)
        ensures hears { Hears (acts_of_lost tick lost) self.old self.new }
        ensures same { self.new.service ≡ self.old.service }
    {
        if lost {
            let number = NOBODY;
            self.end(
                Ending {
                    number,
                    by_quit: false,
                },
                tick,
            );
        }
    }

    /// The stay of this identity has ended.
    pub fn forget(&mut self, identity: u64)
        ensures hears { Hears (Left identity ∷ []) self.old self.new }
        ensures same { (self.new.service ≡ self.old.service) × (self.new.speaker ≡ self.old.speaker) × (self.new.changes ≡ self.old.changes) }
    {
        if self.keeps {
            self.stays.left(identity);
        }
    }

    // Who has its turn said `enter` of this identity, and keeps the stay.
    fn note_entered(&mut self, identity: u64)
        requires { self.old.keeps ≡ true }
        ensures hears { Hears (Entered identity self.old.speaker ∷ []) self.old self.new }
        ensures same { (self.new.service ≡ self.old.service) × (self.new.speaker ≡ self.old.speaker) × (self.new.changes ≡ self.old.changes) }
    {
        if self.stays.entered(identity, self.speaker).is_err() {
            self.lacks = true;
        }
    }

    /// An `enter` of this identity may have been applied, and its answer was lost. Unless a connection keeps the stay nobody does (`NOBODY`).
    pub fn note_lost(&mut self, identity: u64)
        ensures hears { Hears (lost_act self.old.stays (Some identity)) self.old self.new }
        ensures same { self.new.service ≡ self.old.service }
    {
        if !self.keeps || self.stays.is_kept(identity) {
            return;
        }
        if self.stays.entered(identity, NOBODY).is_err() {
            self.lacks = true;
        }
    }

    // Notes what an event that was answered by this reply says of stays.
    fn hear(&mut self, event: Event, reply: &Reply<()>)
        ensures hears { Hears (heard self.old.speaker event reply.now) self.old self.new }
        ensures same { (self.new.service ≡ self.old.service) × (self.new.speaker ≡ self.old.speaker) × (self.new.changes ≡ self.old.changes) }
    {
        if !self.keeps {
            return;
        }
        match event {
            Event::Enter(identity) if keeps_by(reply) => self.note_entered(identity),
            Event::Leave(identity) if gives_back(reply) => self.forget(identity),
            _ => {}
        }
    }
}

// An event is applied, and what the reply says of stays is noted.
#[inline(never)]
fn apply_and_hear<R, D: Service<R>>(
    attended: &mut Attended<D>,
    rt: &R,
    event: Event,
    view: &mut View,
) -> Reply<()>
    requires { D.knows (Take event) ≡ true }
    ensures { AttendedMay D.may attended.old (Take event) (with_view result view.new) attended.new }
{
    let reply = attended.service.apply(rt, event, view);
    attended.audit.note(attended.speaker, event, &reply);
    attended.changes.note(event, &reply);
    attended.hear(event, &reply);
    reply
}

impl<R, D: Service<R>> Service<R> for Attended<D> {
    ghost knows = { D.knows };

    ghost may = { AttendedMay D.may };

    ghost answers = { λ w q known. attended_answers D.may w q (D.answers w.service q known) };

    // Where no stay is noted the reply goes on as it is. Each line of clients comes by here, so it is no call of its own.
    #[inline(always)]
    fn apply(&mut self, rt: &R, event: Event, view: &mut View) -> Reply<()> {
        if !self.keeps {
            let reply = self.service.apply(rt, event, view);
            self.audit.note(self.speaker, event, &reply);
            self.changes.note(event, &reply);
            return reply;
        }
        apply_and_hear(self, rt, event, view)
    }

    fn owner(&mut self, rt: &R, n: u64) -> Reply<View> {
        let reply = self.service.owner(rt, n);
        if let Reply::Refused(why) = &reply {
            self.audit.count_refusal(*why);
        }
        reply
    }
}
