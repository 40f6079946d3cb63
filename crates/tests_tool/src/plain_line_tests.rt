//! Lines that are spelled as records are written, which are read without a reader of JSON.

use model_asked::WorldKind;
use std::alloc::Global;
use text_records::Version;
use text_records::plain_line::plain_line;

/// Lines of a record of version 2 that are read so.
const READ: [&[u8]; 13] = [
    b"{\"command\":\"begin 7\",\"reply\":\"ok\"}",
    b"{\"command\":\"step 18446744073709551615\",\"reply\":\"quiet\"}",
    b"{\"command\":\"step 7\",\"reply\":\"place 3\"}",
    b"{\"command\":\"step 7\",\"reply\":\"proposed 1\"}",
    b"{\"command\":\"step 7\",\"reply\":\"saw 7:1 9:1\"}",
    b"{\"command\":\"step 7\",\"reply\":\"named 1\",\"view\":\"7:1\"}",
    b"{\"command\":\"step 7\",\"reply\":\"spent\"}",
    b"{\"command\":\"step 7\",\"reply\":\"refused 5\"}",
    b"{\"command\":\"probe 7\",\"reply\":\"missed\"}",
    b"{\"command\":\"probe 7\",\"reply\":\"got 16\"}",
    b"{\"command\":\"put 7 0\",\"reply\":\"ok\"}",
    b"{\"command\":\"get 7\",\"reply\":\"value 0\"}",
    b"{\"command\":\"leave 7\",\"reply\":\"left 16\"}",
];

/// Others, which are left to the reader of JSON.
const OTHERS: [&[u8]; 6] = [
    b"{\"command\":\"step 7\", \"reply\":\"quiet\"}",
    b"{\"command\":\"step 7\",\"reply\":\"named 1\"}",
    b"{\"command\":\"step 7\",\"reply\":\"quiet\",\"view\":\"7:1\"}",
    b"{\"command\":\"owner 7\",\"reply\":\"quiet\"}",
    b"{\"command\":\"probe 7\",\"reply\":\"got 16\"",
    b"{\"command\":\"probe 7",
];

/// Whether a line is read so; none where there is no room for it.
fn is_read(alloc: Global, line: &[u8]) -> Option<bool> {
    match plain_line(alloc, WorldKind::Rename, Version::Two, line) {
        Ok(read) => Some(read.is_some()),
        Err(_) => None,
    }
}

/// How many of these lines are read so, or not, up to the first that is other.
fn read(alloc: Global, lines: &[&[u8]], want: bool) -> usize {
    for (i, line) in lines.iter().enumerate() {
        if is_read(alloc, line) != Some(want) {
            return i;
        }
    }
    lines.len()
}

#[test]
fn lines_as_they_are_written_are_read(rt: HostRuntime) {
    let reported = (
        read(rt.alloc(), &READ, true),
        read(rt.alloc(), &OTHERS, false),
    );
    assert!(rt; reported == (13, 6), "{reported:?}");
}
