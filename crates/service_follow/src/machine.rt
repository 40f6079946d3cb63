//! A hall to which the entries of a log are applied.

ghost use Rattle.std.specs.Prelude.{◌≡◌, ◌⊎◌, ◌↔◌, ◌+◌, ◌<◌, [], false, IfErr, IfOk, OnOk, Err};
ghost use Rattle.model_asked.specs.Config.{gives_names};
ghost use Rattle.service_hall.specs.Halls.{hall_of};
ghost use Rattle.service_follow.specs.Entries.{HallApplies, TakesBytes, bars, behind_first_line, gives_tokens, reads_of, rules_of};
ghost use Rattle.text_player.specs.Knows.{Knows};
ghost use Rattle.service_follow.specs.Said.{reply_queue_of};

use crate::marks::is_there;
use crate::noting::Noting;
use crate::reply_queue::ReplyQueue;
use model_asked::Config;
use model_steps::{Refusal, View};
use service_hall::{Hall, Reads, Rules};
use service_log::{ApplyFault, Machine};
use std::alloc::{AllocError, Global};
use std::marker::Model;
use text_player::{AsReplies, Replies, Responder, Service};

/// What ends a line.
const LF: u8 = 10;

/// Where it stands in the first line of an entry whether its reads are plain: behind a token, a space and a count.
const MARK: usize = 49;

/// Where it stands behind that what the entry bars: a space, and then the place of `widen`, and that of `begin` and `step`.
const BARS: usize = 55;

/// A hall to which the entries of a log are applied. An entry is a first line, which is passed over, and then lines of commands, each with
/// its LF: they are played over the hall in order, and what it says to them is put on a queue of replies. `quit` ends an entry. Where ` plain`
/// stands behind the token and the count of the first line, the hall stores no read of the entry. Behind that it may tell what the entry bars.
#[derive(Drop)]
pub struct HallMachine {
    alloc: Global,
    noting: Noting,
    view: View,
    replies: Replies<Global>,
}

impl Model for HallMachine {
    ghost use Rattle.service_hall.specs.HallState.{HallState};

    ghost Value = { HallState };

    ghost view = { λ m. m.noting.hall };
}

/// What stands behind the first line of an entry.
pub(crate) fn behind_first_line(entry: &[u8]) -> &[u8]
    ensures { result.now ≡ behind_first_line entry.now }
{
    let mut rest = entry;
    while let Some((first, others)) = rest.split_first() {
        rest = others;
        if *first == LF {
            break;
        }
    }
    rest
}

/// Whether the history stores the reads of an entry, as its first line says.
fn reads_of(entry: &[u8]) -> Reads
    ensures { result ≡ reads_of entry.now }
{
    if is_there(entry, MARK, b' ') && is_there(entry, MARK + 1, b'p') {
        Reads::Plain
    } else {
        Reads::Logged
    }
}

/// Whether an entry bars what this place of its first line tells of.
fn bars(entry: &[u8], place: usize) -> bool
    ensures { result ≡ bars place entry.now }
{
    is_there(entry, MARK, b' ') && is_there(entry, BARS, b' ') && is_there(entry, place, b'-')
}

/// Whether an entry gives tokens, as its first line says.
fn gives_tokens(entry: &[u8]) -> bool
    ensures { result ≡ gives_tokens entry.now }
{
    is_there(entry, MARK, b' ') && is_there(entry, BARS, b' ') && is_there(entry, BARS + 3, b't')
}

/// The rules by which the lines of an entry are played, as its first line says.
fn rules_of(entry: &[u8]) -> Rules
    ensures { result ≡ rules_of entry.now }
{
    Rules {
        reads: reads_of(entry),
        widening: !bars(entry, BARS + 1),
        naming: !bars(entry, BARS + 2),
        tokens: gives_tokens(entry),
    }
}

/// Plays lines over a service that notes what it is asked for. The text of the replies is let go.
pub(crate) fn play<D: Service<()>>(
    service: &mut D,
    responder: &mut Responder<Global, AsReplies>,
    view: &mut View,
    replies: &mut Replies<Global>,
    lines: &[u8],
)
    requires afresh { responder.old.summary.lines ≡ 0 }
    requires knows { Knows D.knows responder.old.kind }
    ensures { TakesBytes D.may service.old responder.old lines.now service.new responder.new }
{
    let mut at = 0;
    while at < lines.len() {
        replies.clear();
        at += responder.take(&(), service, view, &lines[at..], replies);
    }
}

impl HallMachine {
    /// Makes a hall of this config with no event.
    ///
    /// # Errors
    ///
    /// The first that applies is returned:
    ///
    /// - `OutOfRange`: the config's world gives no names.
    /// - `NoMemory`: an allocation failed.
    pub fn new(alloc: Global, config: Config) -> Result<HallMachine, Refusal>
        ensures opened { IfOk result (λ m. m ≡ hall_of config []) }
        ensures out_of_range { result ≡ Err Refusal.OutOfRange ↔ (gives_names config.world ≡ false) }
        ensures only { IfErr result (λ why. (why ≡ Refusal.NoMemory) ⊎ (why ≡ Refusal.OutOfRange)) }
    {
        let noting = Noting::new(alloc, config)?;
        let Ok(replies) = Replies::new(alloc) else {
            return Err(Refusal::NoMemory);
        };
        Ok(HallMachine {
            alloc,
            noting,
            view: View::new(),
            replies,
        })
    }

    /// The hall.
    pub fn hall(&self) -> &Hall
        ensures { result.now ≡ self.now }
    {
        self.noting.hall()
    }

    // Plays the lines of an entry, and has the queue of replies say what was said to them.
    fn play_entry(&mut self, entry: &[u8], reply_queue: &mut ReplyQueue) -> Result<(), AllocError>
        ensures { OnOk result (HallApplies self.old entry.now reply_queue.new self.new) }
    {
        let kind = self.noting.hall().config().world;
        let Ok(mut responder) = Responder::new(self.alloc, kind) else {
            return Err(AllocError);
        };
        self.noting.begin(rules_of(entry));
        play(
            &mut self.noting,
            &mut responder,
            &mut self.view,
            &mut self.replies,
            behind_first_line(entry),
        );
        self.noting.put_on(reply_queue)
    }
}

impl Machine for HallMachine {
    ghost use Rattle.std.specs.Prelude.{◌≡◌, []};
    ghost use Rattle.service_follow.specs.Entries.{HallApplies};
    ghost use Rattle.service_follow.specs.Said.{reply_queue_of};

    type Replies = ReplyQueue;

    ghost applies = { HallApplies };

    ghost silent = { λ reply_queue. reply_queue ≡ reply_queue_of [] };

    fn apply(&mut self, entry: &[u8], reply_queue: &mut ReplyQueue) -> Result<(), ApplyFault> {
        match self.play_entry(entry, reply_queue) {
            Ok(()) => Ok(()),
            Err(_) => Err(ApplyFault::Memory),
        }
    }

    fn forget(reply_queue: &mut ReplyQueue) {
        reply_queue.clear();
    }
}
