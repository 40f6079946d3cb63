//! Runs of commands over readers and writers in memory.

ghost use Rattle.std.specs.Prelude.{◌≡◌, ◌<◌, ◌^◌, true};

use crate::toys::Shelf;
use std::alloc::Global;
use std::process::Abort;
use tests_doubles::{FailingAllocator, FaultyReader, FaultyWriter};
use text_worlds::{
    Config, Fault, MOST_READS, READ_BYTES, Sink, Source, Tried, World, WorldKind, play, play_in,
    record,
};

/// A run that is played, or recorded where it is kept: what it is asked, and what is written.
#[derive(Drop)]
pub(crate) struct Case<'a> {
    pub(crate) config: Config,
    pub(crate) is_kept: bool,
    pub(crate) input: &'a [u8],
    pub(crate) text: &'a [u8],
}

/// What comes of a run: its fault, what was written, and how often the reader and the writer were called.
#[derive(Drop)]
pub(crate) struct Played {
    pub(crate) fault: Option<Fault>,
    pub(crate) text: Vec<u8>,
    pub(crate) reads: u64,
    pub(crate) writes: u64,
    /// Whether it came to the growth that is refused.
    pub(crate) came_to_it: bool,
}

/// A config of this world for so many participants.
pub(crate) fn config(rt: &impl Abort, world: WorldKind, m: u64) -> Config
    ensures { result.world ≡ world }
{
    Config::new(world, m, 4, 1000).expect(rt, "a config in range")
}

/// The fault of a case that is run over a heap, over any reader and any writer that were not called too often.
fn fault_of<R: Source, W: Sink>(
    heap: &FailingAllocator<Global>,
    case: &Case<'_>,
    reader: &mut R,
    writer: &mut W,
) -> Option<Fault>
    requires reads { R.calls reader.old < 2 ^ 64 }
    requires writes { W.calls writer.old < 2 ^ 64 }
{
    if case.is_kept && case.config.world.gives_names() {
        record(heap, reader, writer, case.config).err()
    } else {
        play(heap, reader, writer, case.config).err()
    }
}

/// Runs a case: which growth is refused; how many bytes a read gives at most and which fails; the same of the writes, and whether the
/// one that fails takes nothing. None fails where it is 0.
pub(crate) fn run(
    alloc: Global,
    case: &Case<'_>,
    growth: u64,
    (given, bad_read): (usize, u64),
    (taken, bad_write, takes_nothing): (usize, u64, bool),
) -> Played {
    let heap = FailingAllocator::new(alloc, growth);
    let mut reader = Tried::new(FaultyReader::new(case.input, given, bad_read));
    let mut writer = Tried::new(FaultyWriter::new(alloc, taken, bad_write, takes_nothing));
    let fault = fault_of(&heap, case, &mut reader, &mut writer);
    let writer = writer.into_inner();
    Played {
        fault,
        reads: reader.into_inner().calls,
        writes: writer.calls,
        text: writer.taken,
        came_to_it: heap.left() == 0,
    }
}

/// Lines of each kind that is bad, and one that is refused.
const LINES: &[u8] =
    b"\naaaaaaaaaaaaaaaaaaaaaaaaaaaaaaaaaaaaaaaaaaaaaaaaaaaaaaaaaaaaaaaaaaaaaaaaaaaaaaaaaaaaaaaaaaaaaaaaaaaa\naaaaaaaaaaaaaaaaaaaaaaaaaaaaaaaaaaaaaaaaaaaaaaaaaaaaaaaaaaaaaaaaaaaaaaaaaaaaaaaaaaaaaaaaaaaaaaaaaaaaa\nstep\nstep 07\nSTEP 1\nstep  1\nbegin 18446744073709551616\nstep 1\r\nstep 1";

const LINES_TEXT: &[u8] =
    b"bad 3\nbad 3\nbad 1\nbad 4\nbad 5\nbad 3\nbad 4\nbad 5\nbad 2\nrefused 4\n";

/// Inputs that are answered so in every world for two participants. Those of each world are rows of `worlds_tests`.
const INPUTS: [(&[u8], &[u8]); 3] = [
    (b"", b""),
    (b"begin 7\nquit\nbegin 8", b"ok\nok\n"),
    (LINES, LINES_TEXT),
];

/// The same is written however the bytes are cut.
pub(crate) fn is_run(rt: &impl Abort, alloc: Global, case: &Case<'_>) {
    for piece in [1, 3, 7, READ_BYTES] {
        let p = run(alloc, case, 0, (piece, 0), (piece, 0, false));
        let is_so = p.fault.is_none() && p.text.as_slice() == case.text;
        assert!(rt; is_so, "{piece} {:?}", case.input);
    }
}

/// How often a run without a fault calls its reader and its writer.
fn calls_of(
    rt: &impl Abort,
    alloc: Global,
    case: &Case<'_>,
    given: usize,
    taken: usize,
) -> (u64, u64) {
    let p = run(alloc, case, 0, (given, 0), (taken, 0, false));
    assert!(rt; p.fault.is_none());
    (p.reads, p.writes)
}

/// The first lines of a text, so many.
pub(crate) fn first_lines(text: &[u8], count: usize) -> &[u8] {
    let mut seen = 0usize;
    for (at, byte) in text.iter().enumerate() {
        if seen == count {
            return &text[..at];
        }
        if *byte == b'\n' {
            seen = seen.saturating_add(1);
        }
    }
    text
}

/// Whether this is written where the read of this number fails: the replies to the whole lines before it, or whole lines of a
/// record.
fn is_left_by_read(case: &Case<'_>, text: &[u8], at: u64) -> bool {
    if case.is_kept {
        return case.text.starts_with(text) && text.ends_with(b"}\n");
    }
    let given = (at as usize).saturating_sub(1).saturating_mul(4);
    let read = case.input.iter().take(given);
    let lines = read.filter(|byte| **byte == b'\n').count();
    text == first_lines(case.text, lines)
}

/// Whether this is left where the write of this number fails: a prefix of the text, before a read where it is less than the
/// header of a record.
fn is_left_by_write(case: &Case<'_>, p: &Played, at: u64) -> bool {
    let header = if case.is_kept { 1 } else { 0 };
    let before = first_lines(case.text, header).len().div_ceil(3) as u64;
    let is_part = case.text.starts_with(&p.text) && p.text.len() < case.text.len();
    is_part && (p.reads == 0) == (at <= before)
}

/// One read of a run fails.
fn one_read_fails(rt: &impl Abort, alloc: Global, case: &Case<'_>, at: u64) {
    let p = run(alloc, case, 0, (4, at), (3, 0, false));
    let is_so = p.fault == Some(Fault::Read) && is_left_by_read(case, &p.text, at);
    assert!(rt; is_so, "at {at}");
}

/// One write of a run fails, by an error or by taking nothing.
fn one_write_fails(rt: &impl Abort, alloc: Global, case: &Case<'_>, at: u64, takes_nothing: bool) {
    let p = run(alloc, case, 0, (4, 0), (3, at, takes_nothing));
    let is_so = p.fault == Some(Fault::Write) && is_left_by_write(case, &p, at);
    assert!(rt; is_so, "at {at}");
}

/// Each read of a run fails in turn, and each write.
pub(crate) fn calls_fail_in_turn(rt: &impl Abort, alloc: Global, case: &Case<'_>) {
    let (reads, writes) = calls_of(rt, alloc, case, 4, 3);
    for at in 1..=reads {
        one_read_fails(rt, alloc, case, at);
    }
    for at in 1..=writes {
        one_write_fails(rt, alloc, case, at, false);
        one_write_fails(rt, alloc, case, at, true);
    }
}

/// Plays the inputs in a world however the bytes are cut, and then with each call failing in turn.
fn are_played(rt: &impl Abort, alloc: Global, config: Config) {
    for (input, text) in &INPUTS {
        let case = Case {
            config,
            is_kept: false,
            input,
            text,
        };
        is_run(rt, alloc, &case);
        calls_fail_in_turn(rt, alloc, &case);
    }
}

/// Inputs, how many bytes of them a read gives, and how often their run reads and writes.
const CALLS: [(&[u8], usize, (u64, u64)); 7] = [
    (b"", 4, (1, 0)),
    (b"step 70\nstep 7\n", 4, (5, 2)),
    (b"step 70\nstep 77", 4, (5, 2)),
    (b"begin 7\nquit\nbegin 8\nbegin 9\n", 4, (4, 2)),
    (SEVEN, READ_BYTES, (1, 1)),
    (SEVEN, 8, (6, 6)),
    (SEVEN, 1, (41, 6)),
];

/// One that visits, and leaves one more unheard.
const SEVEN: &[u8] = b"begin 7\nstep 7\nstep 7\nstep 7\nstep 7\nquit\nbegin 8\n";

/// Compares how often a run in a world reads and writes: nothing is read after the end or after `quit`.
fn calls_are_few(rt: &impl Abort, alloc: Global, config: Config) {
    for (input, given, calls) in &CALLS {
        let case = Case {
            config,
            is_kept: false,
            input,
            text: b"",
        };
        let found = calls_of(rt, alloc, &case, *given, READ_BYTES);
        assert!(rt; found == *calls, "{input:?}: {found:?}");
    }
}

#[test]
fn inputs_are_answered_so_in_every_world(rt: HostRuntime) {
    for world in WorldKind::all() {
        let config = config(&rt, world, 2);
        are_played(&rt, rt.alloc(), config);
        calls_are_few(&rt, rt.alloc(), config);
    }
    assert!(rt; (READ_BYTES, MOST_READS) == (65_536, 1 << 40));
}

/// Plays a shelf over any reader and any writer: how many events it accepts and how many it refuses.
fn counted<R: Source, W: Sink>(
    alloc: Global,
    config: Config,
    reader: &mut R,
    writer: &mut W,
) -> Option<(u64, u64)>
    requires world { config.world ≡ WorldKind.Splitter }
    requires reads { R.calls reader.old < 2 ^ 64 }
    requires writes { W.calls writer.old < 2 ^ 64 }
{
    match play_in::<Shelf, _, _, R, W>(alloc, &(), reader, writer, config) {
        Ok(summary) => Some((summary.accepted, summary.refused)),
        Err(_) => None,
    }
}

/// Whether a shelf accepts five of seven events, and is asked again where it refused two.
fn shelf_is_played(alloc: Global, config: Config) -> bool
    requires { config.world ≡ WorldKind.Splitter }
{
    let lines = b"begin 1\nbegin 2\nbegin 3\nbegin 3\nstep 9\nstep 9\nquit\n";
    let mut reader = Tried::new(lines.as_slice());
    let mut writer = Tried::new(Vec::new(alloc));
    let is_counted = counted(alloc, config, &mut reader, &mut writer) == Some((5, 2));
    let said = b"ok\nok\nrefused 12\nok\nok\nrefused 12\nok\n";
    writer.into_inner().as_slice() == said.as_slice() && is_counted
}

#[test]
fn a_world_that_refuses_growths_takes_the_event_when_asked_again(rt: HostRuntime) {
    let config = config(&rt, WorldKind::Splitter, 4);
    assert!(rt; shelf_is_played(rt.alloc(), config));
}
