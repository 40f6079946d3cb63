//! The texts of replies, and the numbers of faults. Those of bad lines are in `playing_tests`.

use model_asked::Reply;
use model_steps::{Refusal, View};
use std::alloc::Global;
use text_worlds::{Fault, REPLY_ROOM, Replies, print_reply};

/// Replies, most of which no run of the other integration tests has, with a view of two pairs where they have one, and their texts.
const REPLIES: [(Reply<()>, &[u8]); 6] = [
    (
        Reply::Place(u128::MAX),
        b"place 340282366920938463463374607431768211455\n",
    ),
    (
        Reply::Proposed(u64::MAX),
        b"proposed 18446744073709551615\n",
    ),
    (Reply::Saw(()), b"saw 1:1 18446744073709551615:3\n"),
    (Reply::Got(64), b"got 64\n"),
    (Reply::Value(0), b"value 0\n"),
    (Reply::Refused(Refusal::HistoryFull), b"refused 13\n"),
];

/// Whether a reply with this view beside it has this text.
fn is_printed(out: &mut Replies<Global>, reply: Reply<()>, view: &View, want: &[u8]) -> bool {
    out.clear();
    print_reply(reply, view, out);
    out.as_slice() == want
}

/// A view of as many pairs as there may be, each with numbers of the most digits.
fn longest_view() -> View {
    let mut view = View::new();
    for i in 0..64 {
        if !view.is_full() {
            view.insert(u64::MAX - i, u64::MAX);
        }
    }
    view
}

/// Replies have their texts, and the longest has its room; faults have numbers, and their texts are shown by the built program
/// (`tests/program`).
#[test]
fn replies_have_their_texts(rt: HostRuntime) {
    let mut out = Replies::new(rt.alloc()).expect(&rt, "room for a reply");
    let mut view = View::new();
    view.insert(u64::MAX, 3);
    view.insert(1, 1);
    for (reply, want) in &REPLIES {
        assert!(rt; is_printed(&mut out, *reply, &view, want), "{want:?}");
    }
    out.clear();
    print_reply(Reply::Saw(()), &longest_view(), &mut out);
    let faults = (Fault::Read as u8, Fault::Write as u8, Fault::Memory as u8);
    assert!(rt; out.len() == REPLY_ROOM && faults == (1, 2, 3));
}
