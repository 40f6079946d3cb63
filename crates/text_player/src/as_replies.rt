//! The form of replies.

ghost use Rattle.text_player.specs.Texts.{turn_reply};

use crate::form::Form;
use model_asked::{Bad, Event, Reply};
use model_steps::View;
use std::alloc::Allocator;
use text_lines::{Replies, print_bad, print_reply};

/// The form of replies: each turn has the text of its reply, or of the answer to a bad line.
#[derive(Drop)]
pub struct AsReplies;

impl Form for AsReplies {
    ghost text = { turn_reply };

    #[inline(always)]
    fn put_answered<A: Allocator>(
        _event: Event,
        reply: Reply<()>,
        view: &View,
        out: &mut Replies<A>,
    ) {
        print_reply(reply, view, out);
    }

    #[inline(always)]
    fn put_asked<A: Allocator>(
        _line: &[u8],
        _event: Event,
        reply: Reply<()>,
        view: &View,
        out: &mut Replies<A>,
    ) {
        print_reply(reply, view, out);
    }

    #[inline(always)]
    fn put_reported<A: Allocator>(_n: u64, reply: Reply<()>, view: &View, out: &mut Replies<A>) {
        print_reply(reply, view, out);
    }

    fn put_ended<A: Allocator>(out: &mut Replies<A>) {
        out.put(b"ok\n");
    }

    fn put_misread<A: Allocator>(bad: Bad, out: &mut Replies<A>) {
        print_bad(bad, out);
    }
}
