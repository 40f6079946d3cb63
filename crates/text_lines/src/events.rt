//! From events to the lines that ask for them.

ghost use Rattle.std.specs.Prelude.{◌≡◌, ◌≤◌, ◌+◌, ◌++◌, length};
ghost use Rattle.text_lines.specs.Events.{event_words};

use crate::print::put_word;
use crate::replies::{HELD_REPLIES, Replies};
use model_asked::Event;
use std::alloc::Allocator;

/// The most bytes of an event's words.
pub const EVENT_ROOM: usize = 45;

/// Appends the words of the line that asks for an event, without its LF.
pub fn print_event<A: Allocator>(event: Event, out: &mut Replies<A>)
    requires { length out.old + EVENT_ROOM ≤ HELD_REPLIES }
    ensures text { out.new ≡ out.old ++ event_words event }
    ensures short { length out.new ≤ length out.old + EVENT_ROOM }
{
    match event {
        Event::Begin(id) => put_word(b"begin ", id, out),
        Event::Step(id) => put_word(b"step ", id, out),
        Event::Enter(id) => put_word(b"enter ", id, out),
        Event::Probe(id) => put_word(b"probe ", id, out),
        Event::Seek(id) => put_word(b"seek ", id, out),
        Event::Leave(id) => put_word(b"leave ", id, out),
        Event::Put(id, value) => {
            put_word(b"put ", id, out);
            put_word(b" ", value, out);
        }
        Event::Get(id) => put_word(b"get ", id, out),
        Event::Widen(size) => put_word(b"widen ", size, out),
    }
}
