//! What the server says until an identity holds a number: `seek` once in the wide world, elsewhere `probe` as often as it takes.

ghost use Rattle.std.specs.Prelude.{◌≡◌, ◌≤◌};
ghost use Rattle.model_asked.specs.declared.config.TheConstants.{MOST_NUMBERS};
ghost use Rattle.service_loop.specs.Searching.{most_said, searching};

use model_asked::{Event, MOST_NUMBERS};

/// The event by which an identity searches for a number.
pub(crate) fn searching(wide: bool, identity: u64) -> Event
    ensures { result ≡ searching wide identity }
{
    if wide {
        Event::Seek(identity)
    } else {
        Event::Probe(identity)
    }
}

/// How often it is said at most: once in the wide world, elsewhere as often as there are numbers.
pub(crate) fn most_said(wide: bool) -> usize
    ensures exact { result ≡ most_said wide }
    ensures few { result ≤ MOST_NUMBERS }
{
    if wide { 1 } else { MOST_NUMBERS }
}
