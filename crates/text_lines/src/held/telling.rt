//! The answers to lines that ask for the holders of numbers.

ghost use Rattle.std.specs.Prelude.{◌≡◌, ◌≤◌, ◌+◌, ◌*◌, ◌++◌, length, get_or, if◌then◌else◌, nat_le, codes, decimal};
ghost use Rattle.text_lines.specs.declared.replies.TheConstants.{HELD_REPLIES};
ghost use Rattle.text_lines.specs.held.Held.{held_text, holder_line, line_of_number, lines_behind, page, text_of_one};

use crate::held::query::HeldQuery;
use crate::{HELD_REPLIES, Replies, put_number, put_word};
use model_pool::slots::Slots;
use std::alloc::Allocator;

/// How many numbers a page is of.
pub const PAGE: u64 = 64;

/// The most bytes of an answer: 64 lines of three numbers, and `more` with another.
pub const HELD_ROOM: usize = 4_096;

// Appends the line of a number with its holder and the value of its slot.
fn put_holder<B: Allocator>(number: u64, id: u64, value: u64, out: &mut Replies<B>)
    requires { length out.old + 63 ≤ HELD_REPLIES }
    ensures text { out.new ≡ out.old ++ holder_line number id value }
    ensures short { length out.new ≤ length out.old + 63 }
{
    put_number(number, out);
    out.put(b" ");
    put_number(id, out);
    out.put(b" ");
    put_number(value, out);
    out.put(b"\n");
}

// Returns the value in the slot of number `before + 1`.
fn value_behind(values: &[u64], before: u32) -> u64
    ensures { result ≡ get_or values.now before 0 }
{
    let at = before as usize;
    if at < values.len() { values[at] } else { 0 }
}

// Appends the line of number `before + 1`, if an identity holds it.
fn put_line<A: Allocator, B: Allocator>(slots: &Slots<u64, A>, before: u32, out: &mut Replies<B>)
    requires few { before ≤ 65535 }
    requires room { length out.old + 63 ≤ HELD_REPLIES }
    ensures text { out.new ≡ out.old ++ line_of_number slots.now before }
    ensures short { length out.new ≤ length out.old + 63 }
{
    let number = before + 1;
    if let Some(id) = slots.pool().holder_of(number) {
        put_holder(
            u64::from(number),
            id,
            value_behind(slots.values(), before),
            out,
        );
    }
}

/// Appends the lines of so many numbers behind this one that are held, in rising order: those of a page at most.
pub fn put_lines<A: Allocator, B: Allocator>(
    slots: &Slots<u64, A>,
    before: u32,
    count: u32,
    out: &mut Replies<B>,
)
    requires few { (count ≤ PAGE) × (before + count ≤ 65536) }
    requires room { length out.old + 4032 ≤ HELD_REPLIES }
    ensures text { out.new ≡ out.old ++ lines_behind slots.now before count }
    ensures short { length out.new ≤ length out.old + 4032 }
{
    for at in 0..count {
        put_line(slots, before + at, out);
    }
}

// Appends the number that the next page begins with, or `ok` behind the last page.
fn put_page_end<B: Allocator>(size: u64, before: u64, out: &mut Replies<B>)
    requires room { length out.old + 26 ≤ HELD_REPLIES }
    requires few { size ≤ 65536 }
    ensures text { out.new ≡ out.old ++ (if nat_le size (before + 64) then codes "ok\n" else (codes "more " ++ decimal (before + 65)) ++ codes "\n") }
    ensures short { length out.new ≤ length out.old + 26 }
{
    if size <= before.saturating_add(PAGE) {
        out.put(b"ok\n");
        return;
    }
    put_word(b"more ", before + (PAGE + 1), out);
    out.put(b"\n");
}

// Appends a page of the numbers behind this one.
fn put_page<A: Allocator, B: Allocator>(slots: &Slots<u64, A>, before: u64, out: &mut Replies<B>)
    requires room { length out.old + HELD_ROOM ≤ HELD_REPLIES }
    ensures text { out.new ≡ out.old ++ page slots.now before }
    ensures short { length out.new ≤ length out.old + HELD_ROOM }
{
    let size = slots.pool().size();
    let count = size.saturating_sub(before).min(PAGE);
    if 0 < count {
        put_lines(slots, before as u32, count as u32, out);
    }
    put_page_end(size, before, out);
}

// Appends the line of the number that an identity holds, or `none` if it holds none.
fn put_one<A: Allocator, B: Allocator>(slots: &Slots<u64, A>, id: u64, out: &mut Replies<B>)
    requires room { length out.old + 63 ≤ HELD_REPLIES }
    ensures text { out.new ≡ out.old ++ text_of_one slots.now id }
    ensures short { length out.new ≤ length out.old + 63 }
{
    match slots.pool().number_of(id) {
        Ok(number) => {
            let value = value_behind(slots.values(), number - 1);
            put_holder(u64::from(number), id, value, out);
        }
        Err(_) => out.put(b"none\n"),
    }
}

/// Appends the answer to a query. This changes nothing of the pool.
///
/// - `All`: a line `NUMBER ID VALUE` for each of the first 64 numbers that is held, in rising order. The last line is `ok`; or
///   `more N`, where the pool has more numbers, of which `N` is the first.
/// - `From`: the same, of the 64 numbers from this one on.
/// - `Of`: the line of that identity, or `none` if it holds no number.
pub fn put_held<A: Allocator, B: Allocator>(
    slots: &Slots<u64, A>,
    query: HeldQuery,
    out: &mut Replies<B>,
)
    requires room { length out.old + HELD_ROOM ≤ HELD_REPLIES }
    ensures text { out.new ≡ out.old ++ held_text slots.now query }
    ensures short { length out.new ≤ length out.old + HELD_ROOM }
{
    match query {
        HeldQuery::All => put_page(slots, 0, out),
        HeldQuery::From(first) => put_page(slots, first.saturating_sub(1), out),
        HeldQuery::Of(id) => put_one(slots, id, out),
    }
}
