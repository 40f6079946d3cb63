//! An append-only history, and the prefixes of it that were seen.

ghost use Rattle.std.specs.Prelude.{◌≡◌, ◌+◌, ◌<◌, ◌≤◌, ◌^◌, ◌++◌, ◌∷◌, [], length, true, MatchBool};
ghost use mathlib.Core.List.{IsPrefix};
ghost use Rattle.service_lock.specs.Rules.{head_of, IsLonger};

use crate::rule::{Adding, Entries, Nothing};
use logbook::{Offer, Plain, Seen, Start, Word};
use std::marker::{Brand, Model, PhantomData};

/// The book that a type names. Each call of a program picks one.
pub trait Naming {
    ghost use Rattle.logbook.specs.Pages.{Book};

    ghost book: { Book };
}

impl Naming for Brand {
    ghost book = { record { number = 0; log_name = 0; cells_name = 0 } };
}

/// An append-only history with no entry, which has no name yet.
#[derive(Drop)]
pub struct Opened<E> {
    head: Word<E, u64, Entries>,
    seen: Seen<E, u64, Entries>,
    ghost empty: { seen.log ≡ [] },
    ghost head_is: { head ≡ head_of seen.book },
}

impl<E> Opened<E> {
    /// Opens an append-only history with no entry. Its clauses are the fields `empty` and `head_is`. Not proved:
    /// anything else.
    pub fn new() -> Opened<E> {
        let (seen, mut first, _second) = Seen::open(Start::alone(), 0, 0);
        Opened {
            head: Word::tracked(0, &mut first),
            seen,
        }
    }

    /// Returns the history under its name, and the prefix of it that has no entry.
    pub fn named<N: Naming>(self) -> (Book<N, E>, Front<N, E>)
        requires { self.seen.book ≡ N.book }
        ensures { result.1 ≡ [] }
    {
        let Opened { head, seen } = self;
        (
            Book {
                head,
                of: PhantomData,
            },
            Front {
                count: 0,
                seen,
                of: PhantomData,
            },
        )
    }
}

/// An append-only history that threads share: one atomic word, its length. The entries are ghost state.
#[derive(Drop)]
pub struct Book<N: Naming, E> {
    head: Word<E, u64, Entries>,
    of: PhantomData<N>,
    ghost head_is: { head ≡ head_of N.book },
}

/// A prefix of the history that a thread has seen. It stays one. Contracts see its entries.
#[derive(Drop)]
pub struct Front<N: Naming, E> {
    count: u64,
    seen: Seen<E, u64, Entries>,
    of: PhantomData<N>,
}

impl<N: Naming, E> Model for Front<N, E> {
    ghost use Rattle.std.specs.Prelude.{◌≡◌, List, length};

    ghost Value = { List E };

    ghost view = { λ f. f.seen.log };

    ghost invariant = { λ f. (f.count ≡ length f.seen.log) × (f.seen.book ≡ N.book) };
}

impl<N: Naming, E> Front<N, E> {
    /// Returns the number of entries.
    pub fn len(&self) -> u64
        ensures { result ≡ length self.now }
    {
        self.count
    }

    /// Returns a copy.
    pub fn again(&self) -> Front<N, E>
        ensures { result ≡ self.now }
    {
        Front {
            count: self.count,
            seen: self.seen.again(),
            of: PhantomData,
        }
    }

    /// Returns whether another prefix of the same history is no longer than this one. It is then a prefix of this one.
    pub fn begins_with(&self, other: &Front<N, E>) -> bool
        ensures is { result ≡ true → IsPrefix other.now self.now }
        ensures due { length other.now ≤ length self.now → result ≡ true }
    {
        let mut both = self.seen.again();
        both.learn(&other.seen);
        other.count <= self.count
    }

    /// Appends an entry if this prefix is the whole history, by one compare-exchange, and returns whether it did.
    ///
    /// If not, the history is longer, and this prefix gets longer too.
    pub fn add<X, M: Plain<X, E, u64>>(&mut self, book: &Book<N, E>, entry: &X) -> bool
        requires room { length self.old < 2 ^ 62 }
        ensures { MatchBool result (self.new ≡ self.old ++ M.ask entry.now ∷ []) (IsLonger self.old self.new) }
    {
        let mut offer: Offer<E, u64, Entries, Nothing> = self.seen.plain::<Nothing, X, M>(entry);
        let mut pen = self.seen.no_pen();
        let count = self.count;
        let found = book
            .head
            .compare_exchange::<Adding, Nothing>(
                count,
                count + 1,
                &mut self.seen,
                &mut offer,
                &mut pen,
            );
        self.count = if found == count { count + 1 } else { found };
        found == count
    }
}
