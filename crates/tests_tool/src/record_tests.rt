//! Records of runs.

use crate::playing_tests::{Case, calls_fail_in_turn, config, first_lines, is_run};
use crate::worlds_tests::{Row, spelled};
use std::alloc::{AllocError, Global};
use std::process::Abort;
use text_worlds::{Config, WorldKind};

/// Appends these pieces.
pub(crate) fn put_pieces(text: &mut Vec<u8>, pieces: &[&[u8]]) -> Result<(), AllocError> {
    for piece in pieces {
        text.extend_from_slice(piece)?;
    }
    Ok(())
}

/// Appends the line of an event, with the view by which a name was given where it is one.
pub(crate) fn put_line(
    text: &mut Vec<u8>,
    event: &[u8],
    reply: &[u8],
    view: Option<&[u8]>,
) -> Result<(), AllocError> {
    put_pieces(
        text,
        &[b"{\"command\":\"", event, b"\",\"reply\":\"", reply],
    )?;
    match view {
        Some(pairs) => put_pieces(text, &[b"\",\"view\":\"", pairs, b"\"}\n"]),
        None => put_pieces(text, &[b"\"}\n"]),
    }
}

/// Takes the next line of some lines, without its end.
fn next_line<'a>(rest: &mut &'a [u8]) -> &'a [u8] {
    let line = first_lines(rest, 1);
    *rest = rest.get(line.len()..).unwrap_or(&[]);
    line.strip_suffix(b"\n").unwrap_or(line)
}

/// Appends the lines that these lines and the replies to them make, with the views of the names in order, where no line is
/// bad.
fn put_lines(
    text: &mut Vec<u8>,
    mut asked: &[u8],
    mut said: &[u8],
    mut views: &[u8],
) -> Result<(), AllocError> {
    for _ in 0..asked.len() {
        let (line, reply) = (next_line(&mut asked), next_line(&mut said));
        if line.is_empty() || line.starts_with(b"owner") {
            continue;
        }
        let view = if reply.starts_with(b"named ") {
            Some(next_line(&mut views))
        } else {
            None
        };
        put_line(text, line, reply, view)?;
    }
    Ok(())
}

/// The header of a record of this config.
fn header(rt: &impl Abort, alloc: Global, config: Config) -> String {
    let world = if config.world == WorldKind::Tree {
        "tree"
    } else {
        "rename"
    };
    let header = format!(in alloc;
        "{{\"format\":\"slot-record\",\"k\":{},\"limit\":{},\"m\":{},\"version\":2,\"world\":\"{world}\"}}\n",
        config.k, config.limit, config.m
    );
    header.expect(rt, "room for a header")
}

/// The record of a row whose replies are these.
pub(crate) fn record_text(rt: &impl Abort, alloc: Global, row: &Row, said: &[u8]) -> Vec<u8> {
    let asked = spelled(rt, alloc, row.asked);
    let views = spelled(rt, alloc, row.views);
    let mut text = header(rt, alloc, row.config(rt)).into_bytes();
    put_lines(&mut text, &asked, said, &views).expect(rt, "room for a record");
    text
}

/// Lines of each kind, and the record of those that are recorded.
const LINES: &[u8] = b"begin 7\nstep 7\nstep 9\nowner 1\nSTEP 7\n\nenter 7\nquit\nstep 7\n";

const RECORD: &[u8] =
    b"{\"format\":\"slot-record\",\"k\":4,\"limit\":1000,\"m\":2,\"version\":2,\"world\":\"rename\"}
{\"command\":\"begin 7\",\"reply\":\"ok\"}
{\"command\":\"step 7\",\"reply\":\"quiet\"}
{\"command\":\"step 9\",\"reply\":\"refused 4\"}
{\"command\":\"enter 7\",\"reply\":\"ok\"}
";

/// However the bytes are cut, and with each call failing in turn.
#[test]
fn owners_bad_lines_and_quit_are_not_recorded(rt: HostRuntime) {
    let case = Case {
        config: config(&rt, WorldKind::Rename, 2),
        is_kept: true,
        input: LINES,
        text: RECORD,
    };
    is_run(&rt, rt.alloc(), &case);
    calls_fail_in_turn(&rt, rt.alloc(), &case);
    let none = Case {
        input: b"",
        text: first_lines(RECORD, 1),
        ..case
    };
    is_run(&rt, rt.alloc(), &none);
}
