//! How a run writes its turns.

ghost use Rattle.std.specs.Prelude.{◌≡◌, ◌≤◌, ◌+◌, ◌++◌, ℕ, List, length};
ghost use Rattle.model_asked.specs.Replies.{with_view};
ghost use Rattle.text_lines.specs.Events.{event_words};
ghost use Rattle.text_player.specs.Turns.{Turn};
ghost use Rattle.text_player.specs.Turns.Turn.{Answered, Reported, Ended, Misread};

use model_asked::{Bad, Event, Reply};
use model_steps::View;
use std::alloc::Allocator;
use text_lines::{EVENT_ROOM, HELD_REPLIES, Replies};

/// The most bytes of the text of a turn: a command, a reply, and a view of 64 pairs.
pub const TURN_ROOM: usize = 5_460;

/// How a run writes its turns. Each text has at most `TURN_ROOM` bytes.
pub trait Form: Drop {
    /// The text of a turn.
    ghost text: { Turn → List ℕ };

    /// Appends the text of an event with its reply. A reply that shows a view shows `view`.
    fn put_answered<A: Allocator>(event: Event, reply: Reply<()>, view: &View, out: &mut Replies<A>)
        requires { length out.old + TURN_ROOM ≤ HELD_REPLIES }
        ensures text { out.new ≡ out.old ++ text (Answered (record { event = event; reply = with_view reply view.now })) }
        ensures short { length out.new ≤ length out.old + TURN_ROOM };

    /// Appends what `put_answered` appends, for the event that `line` asks for. The line has no LF. It can be copied
    /// where the text has the words of the event.
    fn put_asked<A: Allocator>(
        line: &[u8],
        event: Event,
        reply: Reply<()>,
        view: &View,
        out: &mut Replies<A>,
    )
        requires room { length out.old + TURN_ROOM ≤ HELD_REPLIES }
        requires line { line.now ≡ event_words event }
        requires few { length line.now ≤ EVENT_ROOM }
        ensures text { out.new ≡ out.old ++ text (Answered (record { event = event; reply = with_view reply view.now })) }
        ensures short { length out.new ≤ length out.old + TURN_ROOM };

    /// Appends the text of the reply to a question for the owner of name `n`. A reply that shows a view shows `view`.
    fn put_reported<A: Allocator>(n: u64, reply: Reply<()>, view: &View, out: &mut Replies<A>)
        requires { length out.old + TURN_ROOM ≤ HELD_REPLIES }
        ensures text { out.new ≡ out.old ++ text (Reported n (with_view reply view.now)) }
        ensures short { length out.new ≤ length out.old + TURN_ROOM };

    /// Appends the text of `quit`.
    fn put_ended<A: Allocator>(out: &mut Replies<A>)
        requires { length out.old + TURN_ROOM ≤ HELD_REPLIES }
        ensures text { out.new ≡ out.old ++ text Ended }
        ensures short { length out.new ≤ length out.old + TURN_ROOM };

    /// Appends the text of a bad line.
    fn put_misread<A: Allocator>(bad: Bad, out: &mut Replies<A>)
        requires { length out.old + TURN_ROOM ≤ HELD_REPLIES }
        ensures text { out.new ≡ out.old ++ text (Misread bad) }
        ensures short { length out.new ≤ length out.old + TURN_ROOM };
}
