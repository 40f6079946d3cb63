//! A request, with what was said to it.

ghost use Rattle.std.specs.Prelude.{◌≡◌, ◌≢◌, ◌↔◌, ℕ, List, true, false, IfOk};
ghost use Rattle.model_steps.specs.declared.refusal.Refusal.TheVariants as refusal;
ghost use Rattle.model_asked.specs.declared.reply.Reply.TheVariants as replies;
ghost use Rattle.model_asked.specs.Replies.{with_view};
ghost use Rattle.service_follow.specs.Said.{request_of, said_by, seen};

use model_asked::{Event, Reply};
use model_steps::{Refusal, View};
use std::alloc::{AllocError, Global};

/// A request that was asked.
#[derive(Clone, Copy, Debug, Drop)]
pub enum Asked {
    /// To take an event.
    ToTake(Event),
    /// To tell who has the name of this number.
    ToTell(u64),
}

/// Whether a reply shows the view that stands beside it.
fn shows_view(reply: Reply<()>) -> bool
    ensures { result ≡ false → (v w : List (ℕ × ℕ)) → with_view reply v ≡ with_view reply w }
{
    matches!(reply, Reply::Saw(()) | Reply::Named(_, ()))
}

/// Whether a reply says that memory was refused.
pub(crate) fn lacks_memory(reply: Reply<()>) -> bool
    ensures { result ≡ false → (v : List (ℕ × ℕ)) → with_view reply v ≢ replies.Refused refusal.NoMemory }
{
    matches!(reply, Reply::Refused(Refusal::NoMemory))
}

/// The view that is kept of a reply: none where it shows none.
fn kept_view(alloc: Global, reply: Reply<()>, view: &View) -> Result<Option<Box<View>>, AllocError>
    ensures { IfOk result (λ kept. with_view reply (seen kept) ≡ with_view reply view.now) }
{
    if !shows_view(reply) {
        return Ok(None);
    }
    Ok(Some(Box::new(alloc, *view)?))
}

/// A request that was asked, and what was said to it. A view takes a kilobyte, and is kept only where it is shown.
#[derive(Drop)]
pub struct Note {
    asked: Asked,
    reply: Reply<()>,
    view: Option<Box<View>>,
}

impl Note {
    /// A note of a request, and of the reply to it, with the view beside it.
    ///
    /// # Errors
    ///
    /// `AllocError`: the allocation for the view failed.
    pub fn new(
        alloc: Global,
        asked: Asked,
        reply: Reply<()>,
        view: &View,
    ) -> Result<Note, AllocError>
        ensures { IfOk result (λ note. said_by note ≡ (request_of asked, with_view reply view.now)) }
    {
        let view = kept_view(alloc, reply, view)?;
        Ok(Note { asked, reply, view })
    }

    /// Whether it is of this request.
    pub fn is_of(&self, asked: Asked) -> bool
        ensures { result ≡ true ↔ request_of self.now.asked ≡ request_of asked }
    {
        match (self.asked, asked) {
            (Asked::ToTake(event), Asked::ToTake(other)) => event == other,
            (Asked::ToTell(number), Asked::ToTell(other)) => number == other,
            _ => false,
        }
    }

    /// What was asked.
    pub(crate) fn asked(&self) -> Asked
        ensures { request_of result ≡ (said_by self.now).0 }
    {
        self.asked
    }

    /// What was said, without the view that stands beside it.
    pub(crate) fn reply(&self) -> Reply<()>
        ensures { with_view result (seen self.now.view) ≡ (said_by self.now).1 }
    {
        self.reply
    }

    /// What was said, with the view beside it.
    pub fn tell(&self, view: &mut View) -> Reply<()>
        ensures { with_view result view.new ≡ (said_by self.now).1 }
    {
        match &self.view {
            Some(kept) => *view = **kept,
            None => *view = View::new(),
        }
        self.reply
    }
}
