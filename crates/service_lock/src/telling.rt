//! The history of a lock's book, and what its callers have seen of it.
//!
//! Only a lock adds to its book, and a caller has seen the history as it was at the lock's last reply. So an addition extends the
//! history, and the history extends what a caller has seen. A proof knows of the book what its type says, and not that nothing
//! else adds to it. So each call here asks, and waits for ever if it were otherwise, which never happens.

ghost use Rattle.std.specs.Prelude.{◌≡◌, ◌++◌, ◌∷◌, ◌<◌, ◌^◌, [], length};
ghost use mathlib.Core.List.{IsPrefix};
ghost use Rattle.text_worlds.specs.desk.DeskCalls.{exchange};
ghost use Rattle.model_asked.specs.Replies.{with_view};

use crate::parts::LockName;
use crate::{Book, Front};
use logbook::Plain;
use model_asked::{Event, Exchange, Reply};
use model_steps::View;
use std::sync::Wait;

/// An event with its reply, and the reply's view.
#[derive(Drop)]
pub(crate) struct Reported<'a> {
    pub(crate) event: Event,
    pub(crate) reply: Reply<()>,
    pub(crate) view: &'a View,
}

/// The entry of an event: the event with its whole reply.
pub(crate) struct Telling;

impl<'a> Plain<Reported<'a>, Exchange, u64> for Telling {
    ghost use Rattle.std.specs.Prelude.{None};
    ghost use Rattle.text_worlds.specs.desk.DeskCalls.{exchange};
    ghost use Rattle.model_asked.specs.Replies.{with_view};

    ghost ask = { λ t. exchange t.event (with_view t.reply t.view.now) };

    ghost state = { λ t. None };
}

/// Waits for ever. Its callers never reach it: the page above says why, and a proof cannot. So its clause is `⊥`.
fn wait<R: Wait>(rt: &R)
    ensures { ⊥ }
{
    for _ in rt.forever() {}
    unreachable!()
}

/// Appends an event with its reply to the history, and shows a caller all of it.
pub(crate) fn tell<L: LockName, R: Wait>(
    rt: &R,
    book: &Book<L, Exchange>,
    front: &mut Front<L, Exchange>,
    seen: &mut Front<L, Exchange>,
    reported: &Reported<'_>,
)
    requires { length front.old < 2 ^ 62 }
    ensures reported { front.new ≡ front.old ++ exchange reported.now.event (with_view reported.now.reply reported.now.view.now) ∷ [] }
    ensures seen { seen.new ≡ front.new }
{
    if front.add::<Reported<'_>, Telling>(book, reported) {
        *seen = front.again();
        return;
    }
    wait(rt);
}

/// Shows a caller all of the history, which extends what it has seen.
pub(crate) fn show<L: LockName, R: Wait>(
    rt: &R,
    front: &Front<L, Exchange>,
    seen: &mut Front<L, Exchange>,
)
    ensures begins { IsPrefix seen.old front.now }
    ensures seen { seen.new ≡ front.now }
{
    if front.begins_with(seen) {
        *seen = front.again();
        return;
    }
    wait(rt);
}
