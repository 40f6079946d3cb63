//! Visits of a splitter, walks in a grid, and runs of renaming, over a grid's places and a tree's, with a pool and slots.

use crate::growths::growths_refused_in_turn;
use crate::playing_tests::{Case, calls_fail_in_turn, is_run};
use crate::record_tests::record_text;
use std::alloc::{AllocError, Global};
use std::process::Abort;
use text_worlds::{Config, WorldKind};

/// An input and what is written for it: lines, in order, each with how often it comes.
#[derive(Drop)]
pub(crate) struct Row {
    pub(crate) world: WorldKind,
    pub(crate) m: u64,
    pub(crate) k: u64,
    pub(crate) limit: u64,
    pub(crate) asked: &'static str,
    pub(crate) said: &'static str,
    /// The views by which names were given, in order.
    pub(crate) views: &'static str,
}

/// The pool gets more numbers while the last is held.
const WIDENED: &str =
    "enter 5, probe 5, enter 6, probe 6, enter 7, widen 2, widen 4, enter 7, probe 7*2, leave 6, probe 7, \
    enter 8, probe 8*2, enter 9, probe 9*3, enter 10, put 9 5, get 9, widen 65";

const WIDENED_SAID: &str =
    "ok, got 1, ok, got 2, refused 7, refused 14, ok*2, missed*2, left 2, got 3, ok, missed, got 2, ok, \
    missed*2, got 4, refused 7, ok, value 5, refused 14";

const ROWS: [Row; 24] = [
    // Visits of a splitter: one after another, both at once, and refusals.
    Row {
        world: WorldKind::Splitter,
        m: 2,
        k: 4,
        limit: 1000,
        asked: "begin 10, step 10*4, begin 20, step 20*3",
        said: "ok, quiet*3, stop, ok, quiet, right, refused 5",
        views: "",
    },
    Row {
        world: WorldKind::Splitter,
        m: 2,
        k: 4,
        limit: 1000,
        asked: "begin 10, begin 20, step 10, step 20, step 10, step 20, step 10, step 20, step 10, step 20",
        said: "ok*2, quiet*6, down, stop",
        views: "",
    },
    Row {
        world: WorldKind::Splitter,
        m: 2,
        k: 4,
        limit: 1000,
        asked: "enter 5, step 9, begin 0, begin 9, quit, begin 8",
        said: "bad 3, refused 4, refused 1, ok*2",
        views: "",
    },
    Row {
        world: WorldKind::Splitter,
        m: 2,
        k: 4,
        limit: 1000,
        asked: "begin 10, begin 20, begin 0, begin 20, begin 30, step 30",
        said: "ok*2, refused 1, refused 2, refused 3, refused 4",
        views: "",
    },
    // Walks in a grid: of three, of two, and refusals.
    Row {
        world: WorldKind::Grid,
        m: 3,
        k: 4,
        limit: 1000,
        asked: "begin 10, begin 20, begin 30, step 10*4, step 20*6, step 30*9",
        said: "ok*3, quiet*3, place 0, quiet*5, place 1, quiet*7, place 3, refused 5",
        views: "",
    },
    Row {
        world: WorldKind::Grid,
        m: 2,
        k: 4,
        limit: 1000,
        asked: "begin 10, begin 20, step 10*3, step 20*6, step 10*5",
        said: "ok*2, quiet*8, place 1, quiet*4, place 2",
        views: "",
    },
    Row {
        world: WorldKind::Grid,
        m: 1,
        k: 4,
        limit: 1000,
        asked: "step 7, begin 0, begin 7, begin 0, begin 7, begin 8, step 8, step 7*5",
        said: "refused 4, refused 1, ok, refused 1, refused 2, refused 3, refused 4, quiet*3, place 0, refused 5",
        views: "",
    },
    // One alone in a world for one.
    Row {
        world: WorldKind::Rename,
        m: 1,
        k: 4,
        limit: 1000,
        asked: "begin 7, step 7*10, owner 1, owner 2",
        said: "ok, quiet*3, place 0, quiet*2, proposed 1, quiet, named 1, refused 5, owner 7, refused 14",
        views: "7:1",
    },
    // One alone in a world for two.
    Row {
        world: WorldKind::Rename,
        m: 2,
        k: 4,
        limit: 1000,
        asked: "begin 7, step 7*17",
        said: "ok, quiet*3, place 0, quiet*6, proposed 1, quiet*5, named 1",
        views: "7:1",
    },
    // The name 2b - 1 is reached.
    Row {
        world: WorldKind::Rename,
        m: 2,
        k: 4,
        limit: 1000,
        asked: "begin 10, begin 20, step 10, step 20, step 10, step 20, step 10, step 20, step 10, step 20, \
            step 10*10, step 20*6, step 10, step 20, step 10*6, step 20*6, step 10*7, step 20*7, step 10*6, \
            step 20*6",
        said: "ok*2, quiet*7, place 0, quiet*3, place 2, quiet*12, proposed 1*2, quiet*5, saw 10:1 20:1, \
            quiet*5, saw 10:1 20:1, quiet*6, proposed 2, quiet*6, proposed 3, quiet*5, named 2, quiet*5, \
            named 3",
        views: "10:2 20:3, 10:2 20:3",
    },
    // A view is borrowed.
    Row {
        world: WorldKind::Rename,
        m: 2,
        k: 4,
        limit: 1000,
        asked: "begin 10, begin 20, step 10*4, step 20*6, step 10*10, step 20*7, step 10*3, step 20*13, \
            step 10*15, step 20*6",
        said: "ok*2, quiet*3, place 0, quiet*5, place 1, quiet*6, proposed 1, quiet*9, proposed 1, quiet*8, \
            saw 10:1 20:1, quiet*6, proposed 3, quiet, saw 10:1 20:1, quiet*6, proposed 2, quiet*5, \
            named 2, quiet*5, named 3",
        views: "10:2 20:3, 10:2 20:3",
    },
    // The largest identity.
    Row {
        world: WorldKind::Rename,
        m: 2,
        k: 4,
        limit: 1000,
        asked: "begin 18446744073709551615, begin 1, begin 0, step 18446744073709551615*4, step 1*6, \
            step 18446744073709551615*7, step 1*7, step 18446744073709551615*19, step 1*6",
        said: "ok*2, refused 1, quiet*3, place 0, quiet*5, place 1, quiet*6, proposed 1, quiet*6, proposed 1, \
            quiet*5, saw 1:1 18446744073709551615:1, quiet*6, proposed 3, quiet*5, named 3, quiet*5, named 1",
        views: "1:1 18446744073709551615:3, 1:1 18446744073709551615:3",
    },
    // A round limit of 1.
    Row {
        world: WorldKind::Rename,
        m: 2,
        k: 4,
        limit: 1,
        asked: "begin 10, begin 20, step 10*4, step 20*13, step 10*6, step 20*4, step 10*8, step 20*2",
        said: "ok*2, quiet*3, place 0, quiet*5, place 1, quiet*6, proposed 1, quiet*10, proposed 1, quiet*5, \
            spent, refused 6, quiet, named 1",
        views: "20:1",
    },
    // Refusals of renaming.
    Row {
        world: WorldKind::Rename,
        m: 2,
        k: 4,
        limit: 1000,
        asked: "begin 5, step 5, begin 5, step 5*3, begin 6, begin 7, step 7, begin 0, owner 1, owner 4",
        said: "ok, quiet, refused 2, quiet*2, place 0, ok, refused 3, refused 4, refused 1, owner none, \
            refused 14",
        views: "",
    },
    // A pool of one number.
    Row {
        world: WorldKind::Rename,
        m: 4,
        k: 1,
        limit: 1000,
        asked: "enter 5, probe 5, enter 6, enter 5, leave 5, enter 6",
        said: "ok, got 1, refused 7, refused 9, left 1, ok",
        views: "",
    },
    // A bit that is freed behind a prober.
    Row {
        world: WorldKind::Rename,
        m: 4,
        k: 3,
        limit: 1000,
        asked: "enter 5, probe 5, enter 6, probe 6*2, enter 7, probe 7, leave 5, probe 7, enter 8, probe 8, \
            enter 9",
        said: "ok, got 1, ok, missed, got 2, ok, missed, left 1, got 3, ok, got 1, refused 7",
        views: "",
    },
    // Slots keep their values.
    Row {
        world: WorldKind::Rename,
        m: 4,
        k: 2,
        limit: 1000,
        asked: "enter 5, leave 5, probe 5*2, put 5 77, get 5, leave 5, get 5, enter 6, get 6, probe 6, get 6",
        said: "ok, refused 11, got 1, refused 10, ok, value 77, left 1, refused 8, ok, refused 11, got 1, \
            value 77",
        views: "",
    },
    // Refusals of the pool, and a value that the next holder gets.
    Row {
        world: WorldKind::Rename,
        m: 4,
        k: 2,
        limit: 1000,
        asked: "probe 5, enter 0, enter 5, leave 5, probe 5, enter 6, probe 6, put 6 9, leave 6, enter 7, \
            probe 7, get 7",
        said: "refused 8, refused 1, ok, refused 11, got 1, ok, got 2, ok, left 2, ok, got 2, value 9",
        views: "",
    },
    // A pool that widens while its last number is held.
    Row {
        world: WorldKind::Rename,
        m: 4,
        k: 2,
        limit: 1000,
        asked: WIDENED,
        said: WIDENED_SAID,
        views: "",
    },
    Row {
        world: WorldKind::Tree,
        m: 4,
        k: 2,
        limit: 1000,
        asked: WIDENED,
        said: WIDENED_SAID,
        views: "",
    },
    // A pool of one number that widens before it is held.
    Row {
        world: WorldKind::Rename,
        m: 4,
        k: 1,
        limit: 1000,
        asked: "enter 5, widen 2, probe 5, enter 6, probe 6",
        said: "ok*2, got 1, ok, got 2",
        views: "",
    },
    // A pool widens at most to 64 numbers, and each new slot holds 0.
    Row {
        world: WorldKind::Rename,
        m: 4,
        k: 1,
        limit: 1000,
        asked: "widen 0, widen 1, widen 65, widen 64, widen 64, enter 5, probe 5, put 5 9, enter 6, probe 6*2, get 6",
        said: "refused 14*3, ok, refused 14, ok, got 1, ok*2, missed, got 2, value 0",
        views: "",
    },
    // One alone in a tree.
    Row {
        world: WorldKind::Tree,
        m: 2,
        k: 4,
        limit: 1000,
        asked: "begin 7, step 7*23",
        said: "ok, quiet*4, place 1, quiet*8, proposed 1, quiet*7, named 1, refused 5",
        views: "7:1",
    },
    // Two in a tree.
    Row {
        world: WorldKind::Tree,
        m: 2,
        k: 4,
        limit: 1000,
        asked: "begin 10, begin 20, step 10*5, step 20*37, step 10*58",
        said: "ok*2, quiet*4, place 1, quiet*7, place 3, quiet*14, proposed 1, quiet*13, named 1, quiet*14, \
            proposed 1, quiet*13, saw 10:1 20:1, quiet*14, proposed 2, quiet*13, named 2",
        views: "20:1, 10:2 20:1",
    },
];

impl Row {
    /// What the row is a run of.
    pub(crate) fn config(&self, rt: &impl Abort) -> Config {
        Config::new(self.world, self.m, self.k, self.limit).expect(rt, "a config in range")
    }
}

/// Appends a line so often.
fn put_lines(lines: &mut Vec<u8>, line: &[u8], count: usize) -> Result<(), AllocError> {
    for _ in 0..count {
        lines.extend_from_slice(line)?;
        lines.push(b'\n')?;
    }
    Ok(())
}

/// A line, and how often it comes.
fn counted_line<'a>(rt: &impl Abort, piece: &'a str) -> (&'a str, usize) {
    match piece.split_once('*') {
        Some((line, count)) => (line, count.parse::<usize>().expect(rt, "a count")),
        None => (piece, 1),
    }
}

/// The lines that a text of a row stands for.
pub(crate) fn spelled(rt: &impl Abort, alloc: Global, text: &str) -> Vec<u8> {
    let mut lines = Vec::new(alloc);
    for piece in text.split(", ") {
        let (line, count) = counted_line(rt, piece);
        put_lines(&mut lines, line.as_bytes(), count).expect(rt, "room for lines");
    }
    lines
}

/// What is written of a row that is played, or recorded where it is kept.
pub(crate) fn text_of(rt: &impl Abort, alloc: Global, row: &Row, is_kept: bool) -> Vec<u8> {
    let said = spelled(rt, alloc, row.said);
    if is_kept {
        record_text(rt, alloc, row, &said)
    } else {
        said
    }
}

/// Plays a row, or records it, however the bytes are cut, and with each growth refused in turn: where walks are in a tree some
/// line is refused then. A row that is played is played with each read and each write failing in turn, too.
fn row_is_run(rt: &impl Abort, alloc: Global, row: &Row, is_kept: bool) {
    let input = spelled(rt, alloc, row.asked);
    let text = text_of(rt, alloc, row, is_kept);
    let case = Case {
        config: row.config(rt),
        is_kept,
        input: &input,
        text: &text,
    };
    is_run(rt, alloc, &case);
    if !is_kept {
        calls_fail_in_turn(rt, alloc, &case);
    }
    let refused = growths_refused_in_turn(rt, alloc, &case);
    let grows = row.world.is_tree() && row.asked.starts_with("begin");
    assert!(rt; (refused > 0) == grows, "{refused} at {}", row.asked);
}

/// The rows, which stand once in the code that is proved.
fn rows() -> &'static [Row] {
    &ROWS
}

#[test]
fn ways_places_names_numbers_and_values_are_reported(rt: HostRuntime) {
    for row in rows() {
        row_is_run(&rt, rt.alloc(), row, false);
    }
}

#[test]
fn the_record_of_a_row_is_its_events_with_their_replies(rt: HostRuntime) {
    for row in rows() {
        if row.world.gives_names() {
            row_is_run(&rt, rt.alloc(), row, true);
        }
    }
}
