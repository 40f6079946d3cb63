//! What a history stores of an exchange.

ghost use Rattle.std.specs.Prelude.{◌≡◌, ◌<◌, ◌++◌, List, true, vec_len, vec_capacity};
ghost use Rattle.service_hall.specs.Logs.{reply_shown, is_inside};
ghost use Rattle.model_asked.specs.Replies.{ShownReply};
ghost use Rattle.model_asked.specs.Replies.{with_view};

use model_asked::{Event, Reply};
use model_steps::View;
use std::alloc::Allocator;

/// A reply of few bytes, or the index of one that shows a view or is of a rare kind.
#[derive(Clone, Copy, Drop)]
pub(crate) enum Short {
    Ok,
    Quiet,
    Proposed(u64),
    Missed,
    Got(u32),
    Left(u32),
    Value(u64),
    Apart(usize),
}

/// An event with its reply, in few bytes.
#[derive(Clone, Copy, Drop)]
pub(crate) struct Entry {
    pub(crate) event: Event,
    pub(crate) reply: Short,
}

/// Returns a reply in few bytes. A long one goes with its view to the end of `apart`.
pub(crate) fn shorten<A: Allocator>(
    apart: &mut Vec<Reply<View>, A>,
    reply: Reply<()>,
    view: &View,
) -> Short
    requires { vec_len apart.old < vec_capacity apart.old }
    ensures shown { reply_shown apart.new.items result ≡ with_view reply view.now }
    ensures inside { is_inside (vec_len apart.new) result ≡ true }
    ensures longer { (more : List ShownReply) × (apart.new.items ≡ apart.old.items ++ more) }
{
    match reply {
        Reply::Ok => Short::Ok,
        Reply::Quiet => Short::Quiet,
        Reply::Proposed(number) => Short::Proposed(number),
        Reply::Missed => Short::Missed,
        Reply::Got(number) => Short::Got(number),
        Reply::Left(number) => Short::Left(number),
        Reply::Value(value) => Short::Value(value),
        _ => {
            let at = apart.len();
            apart.push_reserved(reply.with(view));
            Short::Apart(at)
        }
    }
}

/// Returns the reply that `shorten` made short.
pub(crate) fn shown(apart: &[Reply<View>], short: Short) -> Reply<View>
    ensures { result ≡ reply_shown apart.now short }
{
    match short {
        Short::Ok => Reply::Ok,
        Short::Quiet => Reply::Quiet,
        Short::Proposed(number) => Reply::Proposed(number),
        Short::Missed => Reply::Missed,
        Short::Got(number) => Reply::Got(number),
        Short::Left(number) => Reply::Left(number),
        Short::Value(value) => Reply::Value(value),
        Short::Apart(at) => match apart.get(at) {
            Some(reply) => *reply,
            None => Reply::Quiet,
        },
    }
}
