//! The invariant of a book of one word.

use logbook::{Gain, Play, Rule};

/// The invariant of a book: its word is the length of the history.
pub struct Entries;

impl<E> Rule<E, u64> for Entries {
    ghost use Rattle.std.specs.Prelude.{[]};
    ghost use base.Fml.{ftrue};
    ghost use Rattle.service_lock.specs.Rules.{IsKept};

    ghost holds = { λ cells log. IsKept cells log };

    ghost first = { [] };

    ghost hinted = { λ n log. Unit {0} };

    ghost shows = { λ log. [] };

    ghost keeps = { λ names log. ftrue };

    ghost moves = { λ ask before after answer. Unit {0} };
}

/// What callers exchange by the book: nothing.
pub struct Nothing;

impl<E> Gain<E, u64> for Nothing {
    ghost use base.Fml.{ftrue};

    ghost after = { λ names about answer. ftrue };
}

/// A step that appends an entry.
pub struct Adding;

impl<E> Play<E, u64> for Adding {
    ghost use Rattle.service_lock.specs.Rules.{Adds};

    ghost then = { Adds };
}
