//! The command language over a hall, whose reader or writer fails at one call, and through a clerk of a lock.

ghost use Rattle.std.specs.Prelude.{◌≡◌, ◌<◌, ◌^◌};

use crate::opening::{Opening, opened};
use crate::server_tests::has_just;
use model_asked::Reply;
use model_steps::Refusal;
use service_hall::Hall;
use service_lock::server::serve_one;
use service_lock::{HallLock, LockName, ServingClerk};
use std::alloc::Global;
use std::marker::Brand;
use std::process::Abort;
use std::sync::Wait;
use tests_doubles::{FaultyReader, FaultyWriter};
use text_player::{Config, Event, Fault, Sink, Source, Summary, Tried, WorldKind};

/// A hall for one participant and four numbers.
fn hall_for_one(rt: &impl Abort, alloc: Global) -> Hall {
    let config = Config::new(WorldKind::Rename, 1, 4, 1000).expect(rt, "a config in range");
    Hall::new(alloc, config).expect(rt, "room for a hall")
}

/// A run over a hall for one participant: what it is asked, how many bytes a read gives at most and which read fails, the
/// same of the writes; and its fault, what went out, and the events of the history.
#[derive(Drop)]
struct Ending {
    asked: &'static [u8],
    reads: (usize, u64),
    writes: (usize, u64),
    fault: Option<Fault>,
    text: &'static [u8],
    events: &'static [Event],
}

/// Serves a hall over any reader and any writer that were not called too often.
fn served<R, I: Source, O: Sink>(
    rt: &R,
    alloc: Global,
    reader: &mut I,
    writer: &mut O,
    hall: &mut Hall,
) -> Result<Summary, Fault>
    requires reads { I.calls reader.old < 2 ^ 64 }
    requires writes { O.calls writer.old < 2 ^ 64 }
{
    serve_one(rt, alloc, reader, writer, hall)
}

/// Whether a run over a hall ends so.
fn ends_so(rt: &impl Abort, alloc: Global, hall: &mut Hall, ending: &Ending) -> bool {
    let (piece, at) = ending.reads;
    let mut reader = Tried::new(FaultyReader::new(ending.asked, piece, at));
    let (piece, at) = ending.writes;
    let mut writer = Tried::new(FaultyWriter::new(alloc, piece, at, false));
    let fault = served(rt, alloc, &mut reader, &mut writer, hall).err();
    let is_written = writer.into_inner().taken.as_slice() == ending.text;
    fault == ending.fault && is_written && has_just(hall, ending.events)
}

/// What a run is asked, with no LF at its end, and with one.
const ASKED: &[u8] = b"begin 7\nstep 7";

const ENDED: &[u8] = b"begin 7\nstep 7\n";

/// The events of these.
const BOTH: &[Event] = &[Event::Begin(7), Event::Step(7)];

const FIRST: &[Event] = &[Event::Begin(7)];

/// Writes of which none fails.
const ALL: (usize, u64) = (1000, 0);

/// Reads that fail, and that end in their place; and a write that fails.
const ENDINGS: [Ending; 7] = [
    Ending {
        asked: ASKED,
        reads: (1, 15),
        writes: ALL,
        fault: Some(Fault::Read),
        text: b"ok\n",
        events: FIRST,
    },
    Ending {
        asked: ASKED,
        reads: (1, 0),
        writes: ALL,
        fault: None,
        text: b"ok\nquiet\n",
        events: BOTH,
    },
    Ending {
        asked: ASKED,
        reads: (2, 8),
        writes: ALL,
        fault: Some(Fault::Read),
        text: b"ok\n",
        events: FIRST,
    },
    Ending {
        asked: ASKED,
        reads: (2, 0),
        writes: ALL,
        fault: None,
        text: b"ok\nquiet\n",
        events: BOTH,
    },
    Ending {
        asked: ASKED,
        reads: (100, 2),
        writes: ALL,
        fault: Some(Fault::Read),
        text: b"ok\n",
        events: FIRST,
    },
    Ending {
        asked: ASKED,
        reads: (100, 0),
        writes: ALL,
        fault: None,
        text: b"ok\nquiet\n",
        events: BOTH,
    },
    Ending {
        asked: ENDED,
        reads: (100, 0),
        writes: (3, 2),
        fault: Some(Fault::Write),
        text: b"ok\n",
        events: BOTH,
    },
];

/// A read fault: the whole lines before it are answered, and stand in the history. An end in its place is the end of a line.
/// A write fault: what went out is a prefix of the text, and what was answered stands in the history.
#[test]
fn a_fault_over_a_hall(rt: HostRuntime) {
    for (row, ending) in ENDINGS.iter().enumerate() {
        let mut hall = hall_for_one(&rt, rt.alloc());
        assert!(rt; ends_so(&rt, rt.alloc(), &mut hall, ending), "row {row}");
    }
}

/// What a clerk of a lock, of whom nobody competes yet, answers to these lines, and how many of its events were accepted.
fn by_clerk<L: LockName, R: Abort + Wait>(
    rt: &R,
    alloc: Global,
    lock: &HallLock<L>,
    input: &[u8],
) -> (Vec<u8>, usize) {
    let mut clerk = lock.clerk(rt, alloc).expect(rt, "room for a clerk");
    let refused = lock.apply(rt, &mut clerk, Event::Get(5));
    let mut service = ServingClerk::new(lock, clerk);
    let mut reader = Tried::new(input);
    let mut writer = Tried::new(Vec::new(alloc));
    let outcome = serve_one(rt, alloc, &mut reader, &mut writer, &mut service);
    assert!(rt; outcome.is_ok() && refused == Reply::Refused(Refusal::NotCompeting));
    (writer.into_inner(), service.into_clerk().count())
}

/// Whether a clerk of a new lock answers these lines so, and accepts so many of their events.
fn clerk_answers<L: LockName, R: Abort + Wait>(
    rt: &R,
    alloc: Global,
    opening: Opening,
    input: &[u8],
    text: &[u8],
    count: usize,
) -> bool
    requires name { (opening.blank.name ≡ L.name) × (opening.blank.parts ≡ L.parts) }
    requires book { opening.history.seen.book ≡ L.book }
    requires config { opening.config ≡ L.config }
{
    let lock = opened::<L>(rt, alloc, opening);
    let (written, kept) = by_clerk(rt, alloc, &lock, input);
    written.as_slice() == text && kept == count
}

/// The numbers of a pool, lines of one participant, of the pool and of the slots, the replies, and how many events are accepted.
const ROWS: [(u64, &[u8], &[u8], usize); 5] = [
    (
        4,
        b"begin 7\nstep 7\nstep 7\nstep 7\nstep 7\nstep 7\nstep 7\nstep 7\nstep 7\nstep 7\nstep 7\nowner 1\nowner 2\n",
        b"ok\nquiet\nquiet\nquiet\nplace 0\nquiet\nquiet\nproposed 1\nquiet\nnamed 1\nrefused 5\nowner 7\nrefused 14\n",
        10,
    ),
    (
        1,
        b"enter 5\nprobe 5\nenter 6\nenter 5\nleave 5\nenter 6\n",
        b"ok\ngot 1\nrefused 7\nrefused 9\nleft 1\nok\n",
        4,
    ),
    (
        3,
        b"enter 5\nprobe 5\nenter 6\nprobe 6\nprobe 6\nenter 7\nprobe 7\nleave 5\nprobe 7\nenter 8\nprobe 8\nenter 9\n",
        b"ok\ngot 1\nok\nmissed\ngot 2\nok\nmissed\nleft 1\ngot 3\nok\ngot 1\nrefused 7\n",
        11,
    ),
    (
        2,
        b"enter 5\nleave 5\nprobe 5\nprobe 5\nput 5 77\nget 5\nleave 5\nget 5\nenter 6\nget 6\nprobe 6\nget 6\n",
        b"ok\nrefused 11\ngot 1\nrefused 10\nok\nvalue 77\nleft 1\nrefused 8\nok\nrefused 11\ngot 1\nvalue 77\n",
        8,
    ),
    (
        1,
        b"enter 5\nwiden 2\nprobe 5\nenter 6\nprobe 6\nwiden 2\n",
        b"ok\nok\ngot 1\nok\ngot 2\nrefused 14\n",
        5,
    ),
];

/// A clerk answers each row as it is due.
#[test]
fn rows_through_a_clerk(rt: HostRuntime) {
    for (k, input, text, count) in ROWS {
        let is_so = clerk_answers::<Brand, _>(
            &rt,
            rt.alloc(),
            Opening::new(&rt, WorldKind::Rename, 1, k),
            input,
            text,
            count,
        );
        assert!(rt; is_so, "{input:?}");
    }
}
