//! Changes of who holds numbers.

ghost use Rattle.std.specs.Prelude.{◌≡◌};
ghost use Rattle.service_loop.specs.Changes.{change_of, identity_of};

use model_asked::{Event, Reply};

/// A change of who holds a number.
#[derive(Clone, Copy, Debug, Drop, PartialEq, Eq)]
pub enum Change {
    /// This identity took the number.
    Got(u32, u64),
    /// This identity gave the number back.
    Left(u32, u64),
}

/// Whose event it is; of `widen` the size.
pub(crate) fn identity_of(event: Event) -> u64
    ensures { result ≡ identity_of event }
{
    match event {
        Event::Begin(id)
        | Event::Step(id)
        | Event::Enter(id)
        | Event::Probe(id)
        | Event::Seek(id)
        | Event::Leave(id)
        | Event::Put(id, _)
        | Event::Get(id)
        | Event::Widen(id) => id,
    }
}

/// What an event that was answered so changes of who holds numbers.
pub(crate) fn change_of(event: Event, reply: &Reply<()>) -> Option<Change>
    ensures { result ≡ change_of event reply.now }
{
    match reply {
        Reply::Got(number) => Some(Change::Got(*number, identity_of(event))),
        Reply::Left(number) => Some(Change::Left(*number, identity_of(event))),
        _ => None,
    }
}
