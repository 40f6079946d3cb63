//! Reads that are answered with no entry of their own.

ghost use Rattle.std.specs.Prelude.{◌≡◌, ◌&&◌, ◌∷◌, ◌++◌, [], true, false, map, Ok, IfOk, OnOk, IfSome, None};
ghost use Rattle.model_asked.specs.Replies.{with_view};
ghost use Rattle.model_asked.specs.Requests.Request.{Take};
ghost use Rattle.service_follow.specs.Readings.{AskingSays, IsAsked, are_reads, is_read, read_by, read_reply, requested, requests_in};
ghost use Rattle.service_follow.specs.Said.{reply_queue_of, request_of, said_by};
ghost use Rattle.service_follow.specs.lemmas.SaidProofs.{asking_answers};

use crate::machine::play;
use crate::note::{Asked, Note};
use crate::reply_queue::ReplyQueue;
use model_asked::{Event, Reply, WorldKind};
use model_steps::{Refusal, View};
use service_hall::Hall;
use std::alloc::{AllocError, Global};
use std::marker::Model;
use text_player::{Replies, Responder, Service};

/// A request that changes nothing of a hall.
#[derive(Clone, Copy, Debug, Drop, PartialEq, Eq)]
pub(crate) enum Read {
    /// `get ID`.
    Get(u64),
    /// `owner N`.
    Owner(u64),
}

impl Read {
    // The read that an event is, if it is one.
    fn of(event: Event) -> Option<Read>
        ensures some { IfSome result (λ read. requested read ≡ Take event) }
        ensures none { result ≡ None → is_read event ≡ false }
    {
        match event {
            Event::Get(id) => Some(Read::Get(id)),
            Event::Begin(_)
            | Event::Step(_)
            | Event::Enter(_)
            | Event::Probe(_)
            | Event::Seek(_)
            | Event::Leave(_)
            | Event::Put(_, _)
            | Event::Widen(_) => None,
        }
    }

    // What is asked.
    fn asked(self) -> Asked
        ensures { request_of result ≡ requested self }
    {
        match self {
            Read::Get(id) => Asked::ToTake(Event::Get(id)),
            Read::Owner(number) => Asked::ToTell(number),
        }
    }

    // What a hall says to it. A reply that shows a view shows the one that this call stores in `view`.
    fn reply(self, hall: &Hall, view: &mut View) -> Reply<()>
        ensures { with_view result view.new ≡ read_reply hall.now (requested self) }
    {
        match self {
            Read::Get(id) => hall.read(id),
            Read::Owner(number) => hall.owner(number).shorten(view),
        }
    }

    // A note of what a hall says to it.
    fn note(self, alloc: Global, hall: &Hall) -> Result<Note, AllocError>
        ensures { IfOk result (λ note. said_by note ≡ (requested self, read_reply hall.now (requested self))) }
    {
        let mut view = View::new();
        let reply = self.reply(hall, &mut view);
        Note::new(alloc, self.asked(), reply, &view)
    }
}

/// Notes the reads that it is asked for, and answers nothing.
#[derive(Drop)]
struct Asking {
    reads: Vec<Read>,
    /// Whether it was asked for nothing else.
    only: bool,
    /// Whether memory was refused.
    lost: bool,
}

impl Model for Asking {
    ghost use Rattle.std.specs.Prelude.{map};
    ghost use Rattle.service_follow.specs.AskingState.{AskingState};
    ghost use Rattle.service_follow.specs.Readings.{requested};

    ghost Value = { AskingState };

    ghost view = { λ a. record { asked = map requested a.reads.items; only = a.only; lost = a.lost } };
}

impl Asking {
    // It was asked for nothing.
    fn new(alloc: Global) -> Asking
        ensures { result ≡ record { asked = []; only = true; lost = false } }
    {
        Asking {
            reads: Vec::new(alloc),
            only: true,
            lost: false,
        }
    }

    // Notes a read.
    fn note(&mut self, read: Read)
        ensures well { self.new.lost ≡ false → self.old.lost ≡ false }
        ensures only { self.new.only ≡ self.old.only }
        ensures asked { self.new.lost ≡ false → self.new.only ≡ true → self.new.asked ≡ self.old.asked ++ requested read ∷ [] }
    {
        if self.lost || !self.only {
            return;
        }
        self.lost = self.reads.push(read).is_err();
    }

    // It is asked for a read.
    fn ask(&mut self, read: Read)
        ensures { self.new.lost ≡ false → IsAsked self.old (requested read) self.new }
    {
        self.note(read);
    }

    // It is asked to take an event.
    #[tactic(auto, using(crate::proofs::Readings::asked_other))]
    fn take(&mut self, event: Event)
        ensures { self.new.lost ≡ false → IsAsked self.old (Take event) self.new }
    {
        let Some(read) = Read::of(event) else {
            self.only = false;
            return;
        };
        self.ask(read);
    }

    // The reads, if it was asked for nothing else.
    fn reads(self) -> Result<Option<Vec<Read>>, AllocError>
        ensures well { OnOk result (self.lost ≡ false) }
        ensures reads { IfOk result (λ found. IfSome found (λ reads. (self.only ≡ true) × (map requested reads.items ≡ self.asked))) }
        ensures none { result ≡ Ok None → self.only ≡ false }
    {
        let Asking { reads, only, lost } = self;
        if lost {
            return Err(AllocError);
        }
        if !only {
            return Ok(None);
        }
        Ok(Some(reads))
    }
}

impl<R> Service<R> for Asking {
    ghost knows = { λ q. true };

    ghost may = { AskingSays };

    ghost answers = { λ w q known. asking_answers w q };

    fn apply(&mut self, _rt: &R, event: Event, _view: &mut View) -> Reply<()> {
        self.take(event);
        Reply::Refused(Refusal::NoMemory)
    }

    fn owner(&mut self, _rt: &R, n: u64) -> Reply<View> {
        self.ask(Read::Owner(n));
        Reply::Refused(Refusal::NoMemory)
    }
}

/// Returns the reads that lines ask for, in order, if they ask for nothing else, and else `None`.
///
/// # Errors
///
/// `AllocError`: an allocation failed.
pub(crate) fn reads_in(
    alloc: Global,
    kind: WorldKind,
    lines: &[u8],
) -> Result<Option<Vec<Read>>, AllocError>
    ensures reads { IfOk result (λ found. IfSome found (λ reads. (are_reads kind lines.now ≡ true) ×
        (map requested reads.items ≡ requests_in kind lines.now))) }
    ensures none { result ≡ Ok None → are_reads kind lines.now ≡ false }
{
    let Ok(mut responder) = Responder::new(alloc, kind) else {
        return Err(AllocError);
    };
    let Ok(mut replies) = Replies::new(alloc) else {
        return Err(AllocError);
    };
    let mut view = View::new();
    let mut asking = Asking::new(alloc);
    play(&mut asking, &mut responder, &mut view, &mut replies, lines);
    asking.reads()
}

/// Has a queue of replies say what a hall says to reads, in order.
///
/// # Errors
///
/// `AllocError`: an allocation failed. The queue of replies is as it was.
pub(crate) fn put_replies(
    alloc: Global,
    hall: &Hall,
    reads: &[Read],
    reply_queue: &mut ReplyQueue,
) -> Result<(), AllocError>
    ensures { OnOk result (reply_queue.new ≡ reply_queue_of (read_by hall.now (map requested reads.now))) }
{
    let mut notes = Vec::new(alloc);
    for read in reads {
        notes.push(read.note(alloc, hall)?)?;
    }
    reply_queue.take_notes(&mut notes);
    Ok(())
}
