//! What a server says of the ends of stays, and the lines that it answers by itself without a command.

ghost use Rattle.std.specs.Prelude.{◌≡◌, ◌≤◌, ◌+◌, ◌++◌, length};
ghost use Rattle.text_lines.specs.declared.held.telling.TheConstants.{HELD_ROOM};
ghost use Rattle.text_lines.specs.declared.replies.TheConstants.{HELD_REPLIES};
ghost use Rattle.service_loop.specs.Queries.{changes_if, hold_text, query_of, query_text, seconds, terms_text};

use crate::feed::Feed;
use crate::first_point::FirstPoint;
use crate::persist::Persist;
use crate::watch_line::{WatchQuery, put_changes, watch_query};
use std::alloc::Allocator;
use text_lines::held::{HELD_ROOM, HeldQuery, held_query};
use text_lines::words::is_word;
use text_lines::{HELD_REPLIES, Replies, put_number};

/// When a server closes a silent connection, and when it ends the stays of one that is gone.
#[derive(Clone, Copy, Debug, Drop, PartialEq, Eq)]
pub struct Terms {
    /// How many seconds after its connection has ended a stay ends; never, where it is not given.
    pub grace: Option<u64>,
    /// After how many seconds a client that says nothing is closed; never, where it is not given.
    pub idle: Option<u64>,
}

/// What a line asks that a server answers by itself, and that changes nothing.
#[derive(Clone, Copy, Debug, Drop, PartialEq, Eq)]
pub enum Query {
    /// Who holds numbers: `held`, and `held ID`.
    Holders(HeldQuery),
    /// What changes of that: `watch`, and `watch P`.
    Changes(WatchQuery),
    /// The terms of the server: `terms`.
    Terms,
}

/// What a line, without its LF, asks; `None` where the server does not answer it by itself, or where it takes a number.
pub fn query_of(line: &[u8]) -> Option<Query>
    ensures { result ≡ query_of line.now }
{
    if is_word(line, b"terms") {
        return Some(Query::Terms);
    }
    match held_query(line) {
        Some(query) => Some(Query::Holders(query)),
        None => changes_if(watch_query(line)),
    }
}

// Asks for changes, where a line does.
fn changes_if(query: Option<WatchQuery>) -> Option<Query>
    ensures { result ≡ changes_if query }
{
    match query {
        Some(query) => Some(Query::Changes(query)),
        None => None,
    }
}

// So many seconds, or 0 for never.
fn seconds(span: Option<u64>) -> u64
    ensures { result ≡ seconds span }
{
    match span {
        Some(seconds) => seconds,
        None => 0,
    }
}

// Appends how stays are held, by their grace time.
fn put_hold<B: Allocator>(grace: Option<u64>, out: &mut Replies<B>)
    requires { length out.old + 17 ≤ HELD_REPLIES }
    ensures text { out.new ≡ out.old ++ hold_text grace }
    ensures short { length out.new ≤ length out.old + 17 }
{
    match grace {
        Some(_) => out.put(b"terms connection "),
        None => out.put(b"terms forever "),
    }
}

/// Appends the line of terms: `terms HOLD GRACE IDLE`, where HOLD is `forever` or `connection`. GRACE is 0 with `forever`, and IDLE is 0 where no
/// silent client is closed.
pub fn put_terms<B: Allocator>(terms: Terms, out: &mut Replies<B>)
    requires room { length out.old + HELD_ROOM ≤ HELD_REPLIES }
    ensures text { out.new ≡ out.old ++ terms_text terms }
    ensures short { length out.new ≤ length out.old + HELD_ROOM }
{
    put_hold(terms.grace, out);
    put_number(seconds(terms.grace), out);
    out.put(b" ");
    put_number(seconds(terms.idle), out);
    out.put(b"\n");
}

/// Appends the answer to a query: the terms, or who holds numbers, as the persister tells, or what changed of that.
pub fn put_answer<D, K: Persist<D>, B: Allocator>(
    service: &D,
    persister: &K,
    terms: Terms,
    feed: &Feed,
    first: &FirstPoint,
    query: Query,
    out: &mut Replies<B>,
)
    requires room { length out.old + HELD_ROOM ≤ HELD_REPLIES }
    ensures text { out.new ≡ out.old ++ query_text terms (K.holds persister.now service.now) first.now feed.now query }
    ensures short { length out.new ≤ length out.old + HELD_ROOM }
{
    match query {
        Query::Holders(query) => persister.put_held(service, query, out),
        Query::Changes(query) => put_changes(feed, first, query, out),
        Query::Terms => put_terms(terms, out),
    }
}
