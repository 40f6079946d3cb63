//! Runs in which one growth is refused, each in turn.

use crate::playing_tests::{Case, Played, first_lines, run};
use crate::record_tests::{put_line, put_pieces};
use std::alloc::Global;
use std::process::Abort;
use text_worlds::Fault;

/// No run here makes as many growths.
const MOST_GROWTHS: u64 = 1_000;

/// Lines with one more before the line of this number, counted from 0.
fn with_line(rt: &impl Abort, alloc: Global, lines: &[u8], number: usize, more: &[u8]) -> Vec<u8> {
    let mut all = Vec::new(alloc);
    let head = first_lines(lines, number);
    let tail = lines.get(head.len()..).unwrap_or(&[]);
    put_pieces(&mut all, &[head, more, tail]).expect(rt, "room for one more line");
    all
}

/// The line of this number, counted from 0.
fn line_at(lines: &[u8], number: usize) -> &[u8] {
    let head = first_lines(lines, number);
    first_lines(lines.get(head.len()..).unwrap_or(&[]), 1)
}

/// The line, counted from 0, in which two texts first differ.
fn line_of_difference(one: &[u8], other: &[u8]) -> usize {
    for number in 0..one.len() {
        if line_at(one, number) != line_at(other, number) {
            return number;
        }
    }
    one.len()
}

/// What comes of a run in which the growth of this number is refused, and no other.
fn refusing(alloc: Global, case: &Case<'_>, growth: u64) -> Played {
    run(alloc, case, growth, (64, 0), (64, 0, false))
}

/// The line that tells that a line is refused memory.
fn refused_line(rt: &impl Abort, alloc: Global, line: &[u8], is_kept: bool) -> Vec<u8> {
    let mut reported = Vec::new(alloc);
    let put = if is_kept {
        let event = line.strip_suffix(b"\n").unwrap_or(line);
        put_line(&mut reported, event, b"refused 12", None)
    } else {
        reported.extend_from_slice(b"refused 12\n")
    };
    put.expect(rt, "room for a line");
    reported
}

/// Whether a run writes its text without a fault where the growth of this number is refused.
fn writes_all(alloc: Global, case: &Case<'_>, growth: u64) -> bool {
    let p = refusing(alloc, case, growth);
    p.fault.is_none() && p.text.as_slice() == case.text
}

/// One line was refused, so that this was written: asked again, it is answered as if nothing had been.
fn is_answered_again(rt: &impl Abort, alloc: Global, case: &Case<'_>, growth: u64, text: &[u8]) {
    let header = if case.is_kept { 1 } else { 0 };
    let number = line_of_difference(text, case.text);
    let asked = number.saturating_sub(header);
    let line = line_at(case.input, asked);
    let input = with_line(rt, alloc, case.input, asked, line);
    let refused = refused_line(rt, alloc, line, case.is_kept);
    let text = with_line(rt, alloc, case.text, number, &refused);
    let again = Case {
        input: &input,
        text: &text,
        ..*case
    };
    assert!(rt; writes_all(alloc, &again, growth), "at {growth}");
}

/// What a refused growth comes to.
#[derive(Drop)]
enum Came {
    /// The run did not come to it.
    Nowhere,
    /// It is a fault, before the first read.
    Fault,
    /// A line is refused.
    Refusal,
}

/// What a run came to in which the growth of this number was to be refused: before the first read that is a fault, later one line is
/// refused. None where it ended in another way.
fn came_of(case: &Case<'_>, p: &Played, growth: u64) -> Option<Came> {
    match &p.fault {
        None if p.came_to_it => Some(Came::Refusal),
        None if 1 < growth && p.text.as_slice() == case.text => Some(Came::Nowhere),
        Some(Fault::Memory) if p.came_to_it && (p.reads, p.writes) == (0, 0) => Some(Came::Fault),
        _ => None,
    }
}

/// Runs a case with one growth refused, and where a line was refused then, asks it again.
fn one_growth_is_refused(rt: &impl Abort, alloc: Global, case: &Case<'_>, growth: u64) -> Came {
    let p = refusing(alloc, case, growth);
    let came = came_of(case, &p, growth).expect(rt, "an end that the growth explains");
    if matches!(came, Came::Refusal) {
        is_answered_again(rt, alloc, case, growth, &p.text);
    }
    came
}

/// Runs a case with each growth refused in turn. How many lines were refused so.
pub(crate) fn growths_refused_in_turn(rt: &impl Abort, alloc: Global, case: &Case<'_>) -> usize {
    let mut refused = 0usize;
    for growth in 1..MOST_GROWTHS {
        match one_growth_is_refused(rt, alloc, case, growth) {
            Came::Nowhere => return refused,
            Came::Fault => {}
            Came::Refusal => refused = refused.saturating_add(1),
        }
    }
    panic!(rt; "there are more growths");
}
