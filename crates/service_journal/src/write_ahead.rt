//! A hall, and the lines of its journal that are not written yet.

ghost use Rattle.std.specs.Prelude.{◌≡◌, ◌↔◌, ◌≤◌, ◌<◌, ◌+◌, ◌-◌, ◌++◌, [], ◌∷◌, true, false, length, IfOk, vec_len, vec_capacity};
ghost use Rattle.model_asked.specs.Replies.{is_refusal, with_view};
ghost use Rattle.text_worlds.specs.desk.DeskCalls.{exchange};
ghost use Rattle.service_hall.specs.Halls.{HallMay};
ghost use Rattle.text_player.specs.Records.{exchange_line};
ghost use Rattle.service_hall.specs.Compactions.{IsCompacted};
ghost use Rattle.service_journal.specs.WriteAheads.{WriteAheadServes, write_ahead_of, waiting_of};
ghost use Rattle.service_journal.specs.Compactings.{IsPacedAlone, MayCompact};
ghost use Rattle.service_journal.specs.lemmas.WriteAheadProofs.{write_ahead_answers};

use model_asked::{Event, Reply};
use model_steps::{NoMemory, Refusal, View};
use service_hall::{Compactor, Hall, law_of_serving};
use std::alloc::Global;
use std::marker::Model;
use text_player::{AsRecord, Form, Replies, Service, TURN_ROOM};

/// The most bytes that the pending lines may have.
pub const MOST_WAITING: usize = 1_048_576;

/// A hall that writes each event which it accepts, with its reply, as a line of a record. Its lines are pending until they are committed.
///
/// The header, the committed lines and the pending lines are together the record of the hall's history.
#[derive(Drop)]
pub struct WriteAhead {
    hall: Hall,
    reported: usize,
    lines: Vec<u8>,
    line: Replies<Global>,
}

impl Model for WriteAhead {
    ghost use Rattle.service_journal.specs.WriteAheadState.{WriteAheadState};

    ghost Value = { WriteAheadState };

    ghost use Rattle.std.specs.Prelude.{◌≡◌, ◌≤◌, length};
    ghost use Rattle.service_journal.specs.WriteAheads.{write_ahead_of, waiting_of};

    ghost view = { λ c. write_ahead_of c.hall c.reported };

    ghost invariant = { λ c. (c.lines.items ≡ waiting_of (write_ahead_of c.hall c.reported)) × (c.reported ≤ length c.hall.history) };
}

/// Applies an event to a hall. The hall adds it to its history if it accepts it, and adds nothing else.
pub(crate) fn applied(hall: &mut Hall, event: Event, view: &mut View) -> Reply<()>
    ensures may { HallMay hall.old event (with_view result view.new) hall.new }
    ensures config { hall.new.config ≡ hall.old.config }
    ensures accepted { is_refusal (with_view result view.new) ≡ false →
        hall.new.history ≡ hall.old.history ++ exchange event (with_view result view.new) ∷ [] }
    ensures refused { is_refusal (with_view result view.new) ≡ true → hall.new.history ≡ hall.old.history }
{
    law_of_serving();
    let _ = hall.len();
    hall.apply_short(event, view)
}

/// Appends the line of an event with its reply, and the view beside that, to others, which have room for it.
pub(crate) fn put_line(
    event: Event,
    reply: Reply<()>,
    view: &View,
    line: &mut Replies<Global>,
    lines: &mut Vec<u8>,
)
    requires { vec_len lines.old + TURN_ROOM ≤ vec_capacity lines.old }
    ensures { lines.new.items ≡ lines.old.items ++ exchange_line (exchange event (with_view reply view.now)) }
{
    line.clear();
    AsRecord::put_answered(event, reply, view, line);
    let _ = lines.extend_from_slice(line.as_slice());
}

impl WriteAhead {
    /// Makes a write-ahead hall of a hall whose events are all committed. No line is pending.
    ///
    /// # Errors
    ///
    /// - `NoMemory`: an allocation failed.
    pub fn new(alloc: Global, hall: Hall) -> Result<WriteAhead, NoMemory>
        ensures { IfOk result (λ c. c ≡ write_ahead_of hall (length hall.history)) }
    {
        let reported = hall.len();
        Ok(WriteAhead {
            hall,
            reported,
            lines: Vec::new(alloc),
            line: Replies::new(alloc)?,
        })
    }

    /// Returns the hall.
    pub fn hall(&self) -> &Hall
        ensures { result.now ≡ self.now.hall }
    {
        &self.hall
    }

    /// Returns the pending lines: those of the events that are not committed.
    pub fn waiting(&self) -> &[u8]
        ensures lines { result.now ≡ waiting_of self.now }
        ensures few { self.now.reported ≤ length self.now.hall.history }
    {
        &self.lines
    }

    /// Returns whether a line is pending.
    pub fn has_waiting(&self) -> bool
        ensures some { result ≡ true ↔ (self.now.reported < length self.now.hall.history) }
        ensures none { result ≡ false → self.now.reported ≡ length self.now.hall.history }
        ensures few { self.now.reported ≤ length self.now.hall.history }
    {
        self.reported < self.hall.len()
    }

    /// Returns whether so many bytes are pending that an event is refused for want of room. A commit makes room.
    pub fn is_full(&self) -> bool
        ensures { result ≡ true ↔ (MOST_WAITING - TURN_ROOM < length (waiting_of self.now)) }
    {
        MOST_WAITING - TURN_ROOM < self.lines.len()
    }

    /// Notes that all events are committed: no line is pending any more. The caller has persisted the pending lines.
    pub fn mark_committed(&mut self)
        ensures { self.new ≡ write_ahead_of self.old.hall (length self.old.hall.history) }
    {
        self.lines.clear();
        self.reported = self.hall.len();
    }

    /// Replaces the hall by one that was compacted of it. All events of that are committed, or there is no journal.
    pub fn replace_hall(&mut self, hall: Hall)
        requires { IsCompacted self.old.hall hall }
        ensures { self.new ≡ write_ahead_of hall (length hall.history) }
    {
        self.lines.clear();
        self.reported = hall.len();
        self.hall = hall;
    }

    /// Compacts the hall, if that is due and makes the history shorter. Then no line is pending.
    ///
    /// This is for a write-ahead hall without a journal. With one, `Journal::compact_when_due` compacts both.
    pub fn compact_when_due(&mut self, alloc: Global, compactor: &mut Compactor)
        ensures compacted { MayCompact self.old self.new }
        ensures paced { IsPacedAlone compactor.old self.old compactor.new self.new }
    {
        if !compactor.is_due(&self.hall) {
            return;
        }
        let Some(hall) = compactor.compacted(alloc, &self.hall) else {
            return;
        };
        self.replace_hall(hall);
    }
}

impl<R> Service<R> for WriteAhead {
    ghost knows = { λ q. true };

    ghost may = { WriteAheadServes };

    ghost answers = { λ c q known. write_ahead_answers c q };

    fn apply(&mut self, _rt: &R, event: Event, view: &mut View) -> Reply<()> {
        if self.is_full() || self.lines.reserve(TURN_ROOM).is_err() {
            return Reply::Refused(self.hall.refusal(event).unwrap_or(Refusal::NoMemory));
        }
        let reply = applied(&mut self.hall, event, view);
        if !reply.is_refusal() {
            put_line(event, reply, view, &mut self.line, &mut self.lines);
        }
        reply
    }

    fn owner(&mut self, _rt: &R, n: u64) -> Reply<View> {
        self.hall.owner(n)
    }
}
