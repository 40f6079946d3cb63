//! A hall of which each answer is noted.

ghost use Rattle.std.specs.Prelude.{◌≡◌, ◌≢◌, ◌⊎◌, ◌↔◌, ◌∷◌, ◌++◌, [], true, false, Err, IfErr, IfOk, OnOk, map};
ghost use Rattle.model_steps.specs.declared.refusal.Refusal.TheVariants as refusal;
ghost use Rattle.model_asked.specs.declared.reply.Reply.TheVariants as replies;
ghost use Rattle.model_asked.specs.Config.{gives_names};
ghost use Rattle.model_asked.specs.Replies.{with_view};
ghost use Rattle.service_hall.specs.Halls.{hall_of};
ghost use Rattle.service_hall.specs.Reading.{all_admitted};
ghost use Rattle.service_hall.specs.declared.reads.Reads.TheVariants.{Logged};
ghost use Rattle.service_follow.specs.Said.{NotingSays, request_of, said_by, reply_queue_of};
ghost use Rattle.service_follow.specs.lemmas.SaidProofs.{noting_answers};

use crate::note::{Asked, Note, lacks_memory};
use crate::reply_queue::ReplyQueue;
use model_asked::{Config, Event, Reply};
use model_steps::{Refusal, View};
use service_hall::{Hall, Reads, Rules};
use std::alloc::{AllocError, Global};
use std::marker::Model;
use text_player::Service;

/// A hall of which each answer is noted, until memory is refused.
#[derive(Drop)]
pub(crate) struct Noting {
    alloc: Global,
    hall: Hall,
    notes: Vec<Note>,
    lost: bool,
    /// By which rules it is asked.
    rules: Rules,
}

impl Model for Noting {
    ghost use Rattle.std.specs.Prelude.{map};
    ghost use Rattle.service_follow.specs.NotingState.{NotingState};

    ghost Value = { NotingState };

    ghost use Rattle.service_follow.specs.Said.{said_by};

    ghost view = { λ n. record { hall = n.hall; said = map said_by n.notes.items; lost = n.lost; rules = n.rules } };
}

impl Noting {
    /// A hall of this config with no event, of which nothing is noted.
    pub(crate) fn new(alloc: Global, config: Config) -> Result<Noting, Refusal>
        ensures opened { IfOk result (λ n. n ≡ record { hall = hall_of config []; said = []; lost = false; rules = all_admitted Logged }) }
        ensures out_of_range { result ≡ Err Refusal.OutOfRange ↔ (gives_names config.world ≡ false) }
        ensures only { IfErr result (λ why. (why ≡ Refusal.NoMemory) ⊎ (why ≡ Refusal.OutOfRange)) }
    {
        let hall = Hall::new(alloc, config)?;
        Ok(Noting {
            alloc,
            hall,
            notes: Vec::new(alloc),
            lost: false,
            rules: Rules::all(Reads::Logged),
        })
    }

    /// The hall.
    pub(crate) fn hall(&self) -> &Hall
        ensures { result.now ≡ self.now.hall }
    {
        &self.hall
    }

    /// Nothing is noted so far, and it is asked by these rules from then on.
    pub(crate) fn begin(&mut self, rules: Rules)
        ensures { self.new ≡ record { hall = self.old.hall; said = []; lost = false; rules = rules } }
    {
        self.notes.clear();
        self.lost = false;
        self.rules = rules;
    }

    /// Has a queue of replies say what was noted; an error where memory was refused.
    pub(crate) fn put_on(&mut self, reply_queue: &mut ReplyQueue) -> Result<(), AllocError>
        ensures reported { OnOk result ((reply_queue.new ≡ reply_queue_of self.old.said) × (self.old.lost ≡ false)) }
        ensures hall { self.new.hall ≡ self.old.hall }
    {
        if self.lost {
            return Err(AllocError);
        }
        reply_queue.take_notes(&mut self.notes);
        Ok(())
    }

    // Notes a request, and the reply to it with the view beside it.
    fn note(&mut self, asked: Asked, reply: Reply<()>, view: &View)
        ensures hall { self.new.hall ≡ self.old.hall }
        ensures rules { self.new.rules ≡ self.old.rules }
        ensures well { self.new.lost ≡ false → self.old.lost ≡ false }
        ensures noted { self.new.lost ≡ false → self.new.said ≡ self.old.said ++ (request_of asked, with_view reply view.now) ∷ [] }
        ensures granted { self.new.lost ≡ false → with_view reply view.now ≢ replies.Refused refusal.NoMemory }
    {
        if self.lost || lacks_memory(reply) {
            self.lost = true;
            return;
        }
        let Ok(note) = Note::new(self.alloc, asked, reply, view) else {
            self.lost = true;
            return;
        };
        self.lost = self.notes.push(note).is_err();
    }
}

impl<R> Service<R> for Noting {
    ghost knows = { λ q. true };

    ghost may = { NotingSays };

    ghost answers = { λ w q known. noting_answers w q };

    fn apply(&mut self, _rt: &R, event: Event, view: &mut View) -> Reply<()> {
        let reply = self.hall.serve_short(self.rules, event, view);
        self.note(Asked::ToTake(event), reply, view);
        reply
    }

    fn owner(&mut self, _rt: &R, n: u64) -> Reply<View> {
        let mut view = View::new();
        let reply = self.hall.owner(n).shorten(&mut view);
        self.note(Asked::ToTell(n), reply, &view);
        reply.with(&view)
    }
}
