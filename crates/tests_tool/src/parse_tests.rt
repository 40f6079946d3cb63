//! What lines mean, whole and as they come byte by byte.

use model_asked::Event;
use std::alloc::Global;
use text_worlds::{Bad, Command, LineBuffer, WorldKind, parse_line};

/// A line, and what it means.
type Row = (&'static [u8], Result<Command, Bad>);

/// Lines that mean the same in every world.
const ROWS: [Row; 27] = [
    (b"", Err(Bad::UnknownWord)),
    (
        b"aaaaaaaaaaaaaaaaaaaaaaaaaaaaaaaaaaaaaaaaaaaaaaaaaaaaaaaaaaaaaaaaaaaaaaaaaaaaaaaaaaaaaaaaaaaaaaaaaaaa",
        Err(Bad::UnknownWord),
    ),
    (
        b"aaaaaaaaaaaaaaaaaaaaaaaaaaaaaaaaaaaaaaaaaaaaaaaaaaaaaaaaaaaaaaaaaaaaaaaaaaaaaaaaaaaaaaaaaaaaaaaaaaaaa",
        Err(Bad::TooLong),
    ),
    (b"step", Err(Bad::WrongCount)),
    (b"step 07", Err(Bad::BadNumber)),
    (b"STEP 1", Err(Bad::UnknownWord)),
    (b"step  1", Err(Bad::WrongCount)),
    (b"begin 18446744073709551616", Err(Bad::BadNumber)),
    (b"step 1\r", Err(Bad::NotPrintable)),
    (b"step 1", Ok(Command::Event(Event::Step(1)))),
    (b"step 9", Ok(Command::Event(Event::Step(9)))),
    (b"begin 0", Ok(Command::Event(Event::Begin(0)))),
    (b"begin 9", Ok(Command::Event(Event::Begin(9)))),
    (b"quit", Ok(Command::Quit)),
    (
        b"begin 18446744073709551615",
        Ok(Command::Event(Event::Begin(u64::MAX))),
    ),
    (b"begin 99999999999999999999", Err(Bad::BadNumber)),
    (b"begin 00", Err(Bad::BadNumber)),
    (b"begin +1", Err(Bad::BadNumber)),
    (b"begin 1a", Err(Bad::BadNumber)),
    (b"begin ", Err(Bad::BadNumber)),
    (b"begin 1 ", Err(Bad::WrongCount)),
    (b" begin 1", Err(Bad::UnknownWord)),
    (b"quit 1", Err(Bad::WrongCount)),
    (b"quit ", Err(Bad::WrongCount)),
    (b"~", Err(Bad::UnknownWord)),
    (b"quit\x7f", Err(Bad::NotPrintable)),
    (b"quit\x1f", Err(Bad::NotPrintable)),
];

/// Lines whose words a world of names alone knows.
const OF_NAMES: [Row; 22] = [
    (b"enter 5", Ok(Command::Event(Event::Enter(5)))),
    (b"probe 5", Ok(Command::Event(Event::Probe(5)))),
    (b"leave 5", Ok(Command::Event(Event::Leave(5)))),
    (b"put 5 77", Ok(Command::Event(Event::Put(5, 77)))),
    (b"put 5 0", Ok(Command::Event(Event::Put(5, 0)))),
    (b"get 5", Ok(Command::Event(Event::Get(5)))),
    (b"widen 4", Ok(Command::Event(Event::Widen(4)))),
    (b"widen 0", Ok(Command::Event(Event::Widen(0)))),
    (b"owner 1", Ok(Command::Owner(1))),
    (b"owner 0", Ok(Command::Owner(0))),
    (b"put 5", Err(Bad::WrongCount)),
    (b"put", Err(Bad::WrongCount)),
    (b"put 05", Err(Bad::WrongCount)),
    (b"put 5 7 7", Err(Bad::WrongCount)),
    (b"put 05 7", Err(Bad::BadNumber)),
    (b"put 5 07", Err(Bad::BadNumber)),
    (b"put 5  7", Err(Bad::WrongCount)),
    (b"get 5 7", Err(Bad::WrongCount)),
    (b"widen", Err(Bad::WrongCount)),
    (b"widen 4 5", Err(Bad::WrongCount)),
    (b"widen 04", Err(Bad::BadNumber)),
    (b"owner none", Err(Bad::BadNumber)),
];

/// Whether a line means this in each world: in those of splitters it may be that its word is not known.
fn means(line: &[u8], want: Result<Command, Bad>, is_of_names: bool) -> bool {
    for world in WorldKind::all() {
        let is_known = !is_of_names || world.gives_names();
        let want = if is_known {
            want
        } else {
            Err(Bad::UnknownWord)
        };
        if parse_line(line, world) != want {
            return false;
        }
    }
    true
}

#[test]
fn a_desk_knows_more_words(rt: HostRuntime) {
    for (line, want) in &OF_NAMES {
        assert!(rt; means(line, *want, true), "at {line:?}");
    }
}

/// Whether a line means this that comes byte by byte, where others may have come before.
fn comes(buffer: &mut LineBuffer<Global>, line: &[u8], want: Result<Command, Bad>) -> bool {
    buffer.clear();
    for byte in line {
        buffer.push(*byte);
    }
    let is_so = buffer.meaning(WorldKind::Splitter) == want;
    is_so && buffer.is_empty() == line.is_empty()
}

/// Whether each row means the same whole and as it comes byte by byte.
fn rows_come(buffer: &mut LineBuffer<Global>) -> bool {
    for (line, want) in &ROWS {
        if !means(line, *want, false) || !comes(buffer, line, *want) {
            return false;
        }
    }
    true
}

/// Lines mean the same whole and as they come byte by byte. That the room of a long line does not grow is tried on the built
/// program (`tests/growths`).
#[test]
fn lines_come_byte_by_byte(rt: HostRuntime) {
    let mut buffer = LineBuffer::new(rt.alloc()).expect(&rt, "room for a line");
    assert!(rt; rows_come(&mut buffer));
    let long = vec![in rt.alloc(); b'a'; 1_000_000].expect(&rt, "room for a long line");
    assert!(rt; comes(&mut buffer, &long, Err(Bad::TooLong)));
}
