//! From replies to the text that is written.

ghost use Rattle.std.specs.Prelude.{◌≡◌, ◌≤◌, ◌+◌, ◌-◌, ◌*◌, ◌++◌, ◌∷◌, [], length, codes, decimal};
ghost use Rattle.model_asked.specs.Replies.{with_view};
ghost use Rattle.model_asked.specs.declared.reply.Reply.TheVariants as reply;
ghost use Rattle.text_lines.specs.Replies.{owner_words, pair_word, pair_words, view_words, reply_words, reply_text, bad_text};

use crate::replies::{HELD_REPLIES, Replies};
use itoa::Buffer;
use model_asked::{Bad, Reply};
use model_steps::{Place, Refusal, View};
use std::alloc::Allocator;

/// The most bytes of a reply's text or of the answer to a bad line, its LF included: those of a view of 64 pairs.
pub const REPLY_ROOM: usize = 2_692;

/// The most bytes of a view's pairs, with a space between two.
pub const VIEW_ROOM: usize = 2_687;

/// Appends the text of a reply, one line with its LF. A reply that shows a view shows `view`.
#[inline(always)]
pub fn print_reply<A: Allocator>(reply: Reply<()>, view: &View, out: &mut Replies<A>)
    requires { length out.old + REPLY_ROOM ≤ HELD_REPLIES }
    ensures text { out.new ≡ out.old ++ reply_text (with_view reply view.now) }
    ensures short { length out.new ≤ length out.old + REPLY_ROOM }
{
    match reply {
        Reply::Ok => out.put(b"ok\n"),
        Reply::Quiet => out.put(b"quiet\n"),
        Reply::Refused(refusal) => put_refusal(refusal, out),
        Reply::Missed => out.put(b"missed\n"),
        Reply::Got(number) => put_small(b"got ", number, out),
        Reply::Left(number) => put_small(b"left ", number, out),
        _ => {
            print_words(reply, view, out);
            out.put(b"\n");
        }
    }
}

/// Appends the words of a reply, without an LF. A reply that shows a view shows `view`.
#[inline(never)]
pub fn print_words<A: Allocator>(reply: Reply<()>, view: &View, out: &mut Replies<A>)
    requires { length out.old + (REPLY_ROOM - 1) ≤ HELD_REPLIES }
    ensures text { out.new ≡ out.old ++ reply_words (with_view reply view.now) }
    ensures short { length out.new ≤ length out.old + (REPLY_ROOM - 1) }
{
    match reply {
        Reply::Ok => out.put(b"ok"),
        Reply::Quiet => out.put(b"quiet"),
        Reply::Stop => out.put(b"stop"),
        Reply::Right => out.put(b"right"),
        Reply::Down => out.put(b"down"),
        Reply::Place(place) => put_place(place, out),
        Reply::Proposed(number) => put_word(b"proposed ", number, out),
        Reply::Saw(()) => put_view(view, out),
        Reply::Named(name, ()) => put_word(b"named ", name, out),
        Reply::Spent => out.put(b"spent"),
        Reply::Missed => out.put(b"missed"),
        Reply::Got(number) => put_word(b"got ", u64::from(number), out),
        Reply::Left(number) => put_word(b"left ", u64::from(number), out),
        Reply::Value(value) => put_word(b"value ", value, out),
        Reply::Owner(owner) => put_owner(owner, out),
        Reply::Refused(refusal) => put_word(b"refused ", u64::from(refusal.number()), out),
    }
}

// Appends a word with its space, a small number in decimal, and an LF.
#[inline(always)]
fn put_small<A: Allocator>(word: &[u8], number: u32, out: &mut Replies<A>)
    requires { length out.old + (length word.now + 21) ≤ HELD_REPLIES }
    ensures text { out.new ≡ out.old ++ ((word.now ++ decimal number) ++ 10 ∷ []) }
    ensures len { length out.new ≤ length out.old + (length word.now + 21) }
{
    out.put(word);
    if number < 10 {
        out.put(&[b'0' + number as u8, b'\n']);
    } else if number < 100 {
        out.put(&[
            b'0' + (number / 10) as u8,
            b'0' + (number % 10) as u8,
            b'\n',
        ]);
    } else {
        put_number(u64::from(number), out);
        out.put(b"\n");
    }
}

// Appends the text of a refusal with its LF.
#[inline(always)]
fn put_refusal<A: Allocator>(refusal: Refusal, out: &mut Replies<A>)
    requires { length out.old + 29 ≤ HELD_REPLIES }
    ensures text { out.new ≡ out.old ++ reply_text (reply.Refused refusal) }
    ensures short { length out.new ≤ length out.old + 29 }
{
    put_small(b"refused ", u32::from(refusal.number()), out);
}

/// Appends the answer to a bad line, one line with its LF.
pub fn print_bad<A: Allocator>(bad: Bad, out: &mut Replies<A>)
    requires { length out.old + REPLY_ROOM ≤ HELD_REPLIES }
    ensures text { out.new ≡ out.old ++ bad_text bad }
    ensures short { length out.new ≤ length out.old + REPLY_ROOM }
{
    out.put(&[b'b', b'a', b'd', b' ', b'0' + bad.number(), b'\n']);
}

/// Appends a number in decimal.
#[inline(always)]
#[tactic(auto, using(std::proofs::lemmas::Fmt::decimal_digit))]
pub fn put_number<A: Allocator>(number: u64, out: &mut Replies<A>)
    requires { length out.old + 20 ≤ HELD_REPLIES }
    ensures text { out.new ≡ out.old ++ decimal number }
    ensures len { length out.new ≤ length out.old + 20 }
{
    if number < 10 {
        out.put(&[b'0' + number as u8]);
    } else {
        out.put(Buffer::new().format(number).as_bytes());
    }
}

/// Appends a word with its space, and a number in decimal.
#[inline(always)]
pub fn put_word<A: Allocator>(word: &[u8], number: u64, out: &mut Replies<A>)
    requires { length out.old + (length word.now + 20) ≤ HELD_REPLIES }
    ensures text { out.new ≡ out.old ++ (word.now ++ decimal number) }
    ensures len { length out.new ≤ length out.old + (length word.now + 20) }
{
    out.put(word);
    put_number(number, out);
}

// Appends the words of a place.
fn put_place<A: Allocator>(place: Place, out: &mut Replies<A>)
    requires { length out.old + 46 ≤ HELD_REPLIES }
    ensures text { out.new ≡ out.old ++ (codes "place " ++ decimal place) }
    ensures len { length out.new ≤ length out.old + 46 }
{
    out.put(b"place ");
    out.put(Buffer::new().format(place).as_bytes());
}

// Appends `owner` and the identity that has a name, or `none`.
fn put_owner<A: Allocator>(owner: Option<u64>, out: &mut Replies<A>)
    requires { length out.old + 29 ≤ HELD_REPLIES }
    ensures text { out.new ≡ out.old ++ owner_words owner }
    ensures len { length out.new ≤ length out.old + 29 }
{
    match owner {
        Some(id) => put_word(b"owner ", id, out),
        None => out.put(b"owner none"),
    }
}

// Appends a pair of a view.
fn put_pair<A: Allocator>(pair: (u64, u64), out: &mut Replies<A>)
    requires { length out.old + 41 ≤ HELD_REPLIES }
    ensures text { out.new ≡ out.old ++ pair_word pair }
    ensures len { length out.new ≤ length out.old + 41 }
{
    put_number(pair.0, out);
    out.put(b":");
    put_number(pair.1, out);
}

// Appends pairs of a view, each after a space.
fn put_pairs<A: Allocator>(pairs: &[(u64, u64)], out: &mut Replies<A>)
    requires few { length pairs.now ≤ 64 }
    requires room { length out.old + 42 * length pairs.now ≤ HELD_REPLIES }
    ensures text { out.new ≡ out.old ++ pair_words pairs.now }
    ensures len { length out.new ≤ length out.old + 42 * length pairs.now }
{
    for pair in pairs {
        out.put(b" ");
        put_pair(*pair, out);
    }
}

// Appends the words of a view.
fn put_view<A: Allocator>(view: &View, out: &mut Replies<A>)
    requires { length out.old + (REPLY_ROOM - 1) ≤ HELD_REPLIES }
    ensures text { out.new ≡ out.old ++ (codes "saw" ++ pair_words view.now) }
    ensures len { length out.new ≤ length out.old + (REPLY_ROOM - 1) }
{
    out.put(b"saw");
    put_pairs(view.pairs(), out);
}

/// Appends the pairs of a view, with a space between two.
pub fn put_shown<A: Allocator>(view: &View, out: &mut Replies<A>)
    requires { length out.old + VIEW_ROOM ≤ HELD_REPLIES }
    ensures text { out.new ≡ out.old ++ view_words view.now }
    ensures len { length out.new ≤ length out.old + VIEW_ROOM }
{
    match view.pairs() {
        [] => {}
        [first, more @ ..] => {
            put_pair(*first, out);
            put_pairs(more, out);
        }
    }
}
