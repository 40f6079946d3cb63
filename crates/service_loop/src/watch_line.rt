//! Lines that ask what changes of who holds numbers, and the answers to them.

ghost use Rattle.std.specs.Prelude.{◌≡◌, ◌≤◌, ◌+◌, ◌*◌, ◌++◌, length, min, take};
ghost use Rattle.text_lines.specs.declared.held.telling.TheConstants.{HELD_ROOM, PAGE};
ghost use Rattle.text_lines.specs.declared.replies.TheConstants.{HELD_REPLIES};
ghost use Rattle.service_loop.specs.Changes.{changes_from, end_of};
ghost use Rattle.service_loop.specs.WatchLines.{change_line, change_lines, from_if, lost_line, page_of_changes, point_line, watch_query, watch_text};

use crate::change::Change;
use crate::feed::Feed;
use crate::first_point::FirstPoint;
use std::alloc::Allocator;
use text_lines::held::{HELD_ROOM, PAGE};
use text_lines::words::{is_word, number};
use text_lines::{HELD_REPLIES, Replies, put_number, put_word};

/// What a line asks for that asks what changes of who holds numbers.
#[derive(Clone, Copy, Debug, Drop, PartialEq, Eq)]
pub enum WatchQuery {
    /// `watch`: the point at which the changes end.
    End,
    /// `watch P`: the changes from this point on.
    From(u64),
}

/// Returns what a line, without its LF, asks for, or `None` if it does not ask for changes.
pub fn watch_query(line: &[u8]) -> Option<WatchQuery>
    ensures { result ≡ watch_query line.now }
{
    if is_word(line, b"watch") {
        return Some(WatchQuery::End);
    }
    let front = line.len().min(6);
    if !is_word(&line[..front], b"watch ") {
        return None;
    }
    from_if(number(&line[front..]))
}

// Asks for the changes from a point on, where there is one.
fn from_if(point: Option<u64>) -> Option<WatchQuery>
    ensures { result ≡ from_if point }
{
    match point {
        Some(point) => Some(WatchQuery::From(point)),
        None => None,
    }
}

// Appends the line of a change.
fn put_change<B: Allocator>(change: Change, out: &mut Replies<B>)
    requires { length out.old + 63 ≤ HELD_REPLIES }
    ensures text { out.new ≡ out.old ++ change_line change }
    ensures short { length out.new ≤ length out.old + 63 }
{
    let (number, id) = match change {
        Change::Got(number, id) => {
            out.put(b"got ");
            (number, id)
        }
        Change::Left(number, id) => {
            out.put(b"left ");
            (number, id)
        }
    };
    put_number(u64::from(number), out);
    out.put(b" ");
    put_number(id, out);
    out.put(b"\n");
}

// Appends the lines of changes.
fn put_lines<B: Allocator>(changes: &[Change], out: &mut Replies<B>)
    requires few { length changes.now ≤ PAGE }
    requires room { length out.old + 4032 ≤ HELD_REPLIES }
    ensures text { out.new ≡ out.old ++ change_lines changes.now }
    ensures short { length out.new ≤ length out.old + 4032 }
{
    for change in changes {
        put_change(*change, out);
    }
}

// Appends the point from which on others are to be asked for.
fn put_point<B: Allocator>(point: u64, out: &mut Replies<B>)
    requires { length out.old + 27 ≤ HELD_REPLIES }
    ensures text { out.new ≡ out.old ++ point_line point }
    ensures short { length out.new ≤ length out.old + 27 }
{
    put_word(b"point ", point, out);
    out.put(b"\n");
}

// Appends the same, where some changes before it cannot be told.
fn put_lost<B: Allocator>(point: u64, out: &mut Replies<B>)
    requires { length out.old + 26 ≤ HELD_REPLIES }
    ensures text { out.new ≡ out.old ++ lost_line point }
    ensures short { length out.new ≤ length out.old + 26 }
{
    put_word(b"lost ", point, out);
    out.put(b"\n");
}

// Appends a page of the changes from a point of the feed on.
fn put_page<B: Allocator>(feed: &Feed, first: &FirstPoint, point: u64, out: &mut Replies<B>)
    requires room { length out.old + HELD_ROOM ≤ HELD_REPLIES }
    ensures text { out.new ≡ out.old ++ page_of_changes first.now point (changes_from feed.now point) (end_of feed.now) }
    ensures short { length out.new ≤ length out.old + HELD_ROOM }
{
    let Some(changes) = feed.from(point) else {
        put_lost(end_told(feed, first), out);
        return;
    };
    let count = changes.len().min(PAGE as usize);
    put_lines(&changes[..count], out);
    put_point(first.get() + (point + count as u64), out);
}

/// Returns the point at which the changes end, as those are told who watch.
pub(crate) fn end_told(feed: &Feed, first: &FirstPoint) -> u64
    ensures { result ≡ first.now + end_of feed.now }
{
    first.get() + feed.end()
}

/// Appends the answer to a query: the point at which the changes end, or a page of those from a point on, or that some of them are lost.
pub(crate) fn put_changes<B: Allocator>(
    feed: &Feed,
    first: &FirstPoint,
    query: WatchQuery,
    out: &mut Replies<B>,
)
    requires room { length out.old + HELD_ROOM ≤ HELD_REPLIES }
    ensures text { out.new ≡ out.old ++ watch_text first.now feed.now query }
    ensures short { length out.new ≤ length out.old + HELD_ROOM }
{
    match query {
        WatchQuery::End => put_point(end_told(feed, first), out),
        WatchQuery::From(point) if point < first.get() => put_lost(end_told(feed, first), out),
        WatchQuery::From(point) => put_page(feed, first, point - first.get(), out),
    }
}
