//! What was said to requests, and is said again.

ghost use Rattle.std.specs.Prelude.{◌≡◌, ◌↔◌, [], true, map};
ghost use Rattle.model_asked.specs.Replies.{with_view};
ghost use Rattle.service_follow.specs.Said.{ReplyQueueReplies, request_of, said_by, reply_queue_of};
ghost use Rattle.service_follow.specs.lemmas.SaidProofs.{reply_queue_answers};

use crate::note::{Asked, Note};
use model_asked::{Event, Reply};
use model_steps::{Refusal, View};
use std::alloc::Global;
use std::marker::Model;
use text_player::Service;

/// What was said to requests, in order. As a service it says it again, to whoever asks the same in the same order. Where another request is
/// asked than the next, and only then, it is poisoned, and what it says then is to be sent to nobody. Contracts see the requests that are left, with what
/// was said to each.
#[derive(Drop)]
pub struct ReplyQueue {
    notes: Vec<Note>,
    next: usize,
    poisoned: bool,
}

impl Model for ReplyQueue {
    ghost use Rattle.std.specs.Prelude.{drop, map};
    ghost use Rattle.service_follow.specs.ReplyQueueState.{ReplyQueueState};

    ghost Value = { ReplyQueueState };

    ghost use Rattle.service_follow.specs.Said.{said_by};

    ghost view = { λ t. record { left = drop t.next (map said_by t.notes.items); poisoned = t.poisoned } };
}

impl ReplyQueue {
    /// A queue of replies with nothing on it.
    pub fn new(alloc: Global) -> ReplyQueue
        ensures { result ≡ reply_queue_of [] }
    {
        ReplyQueue {
            notes: Vec::new(alloc),
            next: 0,
            poisoned: false,
        }
    }

    /// Whether all that was on it was said again, to just those who asked for it.
    pub fn is_used_up(&self) -> bool
        ensures { result ≡ true ↔ self.now ≡ reply_queue_of [] }
    {
        !self.poisoned && self.next >= self.notes.len()
    }

    /// Returns what it says from now on.
    pub(crate) fn notes(&self) -> &[Note]
        ensures { map said_by result.now ≡ self.now.left }
    {
        if self.notes.len() < self.next {
            return &[];
        }
        &self.notes[self.next..]
    }

    /// Says nothing.
    pub fn clear(&mut self)
        ensures { self.new ≡ reply_queue_of [] }
    {
        self.notes.clear();
        self.next = 0;
        self.poisoned = false;
    }

    /// Says what these notes say from now on, and gives what it had in place of them.
    pub(crate) fn take_notes(&mut self, notes: &mut Vec<Note>)
        ensures { self.new ≡ reply_queue_of (map said_by notes.old.items) }
    {
        std::mem::swap(&mut self.notes, notes);
        self.next = 0;
        self.poisoned = false;
    }

    // Says what was said to the next request, if it is this one.
    fn say(&mut self, asked: Asked, view: &mut View) -> Reply<()>
        ensures { ReplyQueueReplies self.old (request_of asked) (with_view result view.new) self.new }
    {
        let Some(note) = self.notes.get(self.next) else {
            self.poisoned = true;
            return Reply::Refused(Refusal::NoMemory);
        };
        if !note.is_of(asked) {
            self.poisoned = true;
            return Reply::Refused(Refusal::NoMemory);
        }
        self.next += 1;
        note.tell(view)
    }
}

impl<R> Service<R> for ReplyQueue {
    ghost knows = { λ q. true };

    ghost may = { ReplyQueueReplies };

    ghost answers = { λ w q known. reply_queue_answers w q };

    fn apply(&mut self, _rt: &R, event: Event, view: &mut View) -> Reply<()> {
        self.say(Asked::ToTake(event), view)
    }

    fn owner(&mut self, _rt: &R, n: u64) -> Reply<View> {
        let mut view = View::new();
        self.say(Asked::ToTell(n), &mut view).with(&view)
    }
}
