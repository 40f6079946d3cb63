//! How the program ends where a read or a write fails, and what it shows meanwhile. What it does for words where nothing
//! fails, and which status and text each failure has, is tried on the built program, by `tests/program`; what comes of a
//! refused growth, by `tests/growths`.

ghost use Rattle.std.specs.Prelude.{◌<◌, ◌^◌};

use std::alloc::Global;
use std::io;
use std::sync::atomic::{AtomicBool, AtomicU64, Ordering};
use std::thread::Threads;
use std::time::{Clock, Duration};
use tests_doubles::{FaultyReader, FaultyWriter};
use text_worlds::{Sink, Source, Tried};
use tool_work::program::program;
use tool_work::progress::tell_until;
use tool_work::{Outcome, may_take_long};

// Words, the input, how much each read gives at most and which fails, the same of the writes, the status with which the
// program ends, or 100 where it is left to serve, and what it writes and tells on the standard error.
#[derive(Drop)]
struct Ending {
    words: &'static [&'static str],
    input: &'static [u8],
    reads: (usize, u64),
    writes: (usize, u64),
    status: u8,
    text: &'static [u8],
    reported: &'static [u8],
}

// The status of the program for these words, over any reader and any writer that were not called too often.
fn status<T: Threads + Sync, R: Source, W: Sink>(
    threads: &T,
    alloc: Global,
    words: &[&str],
    reader: &mut R,
    writer: &mut W,
    errors: &mut Vec<u8>,
) -> u8
    requires reads { R.calls reader.old < 2 ^ 64 }
    requires writes { W.calls writer.old < 2 ^ 64 }
{
    status_of(&program(threads, alloc, words, reader, writer, errors))
}

// Whether the program ends so.
fn ends<T: Threads + Sync>(threads: &T, alloc: Global, ending: &Ending) -> bool {
    let (most, at) = ending.reads;
    let mut reader = Tried::new(FaultyReader::new(ending.input, most, at));
    let (most, at) = ending.writes;
    let mut writer = Tried::new(FaultyWriter::new(alloc, most, at, false));
    let mut errors = Vec::new(alloc);
    let status = status(
        threads,
        alloc,
        ending.words,
        &mut reader,
        &mut writer,
        &mut errors,
    );
    let is_reported = errors.as_slice() == ending.reported;
    writer.into_inner().taken.as_slice() == ending.text && is_reported && status == ending.status
}

// The status of an outcome, or 100 where the caller is left to race, to serve or to host.
fn status_of(outcome: &Outcome<'_>) -> u8 {
    match outcome {
        Outcome::Ended(status) => *status,
        Outcome::Race(_) | Outcome::Serve(_) | Outcome::Host(_) | Outcome::Held => 100,
    }
}

// Reads that give all, and writes that take all.
const ALL: (usize, u64) = (100_000, 0);

const READ_FAULT: &[u8] = b"slotctl: read fault\n";

const WRITE_FAULT: &[u8] = b"slotctl: write fault\n";

const HEADER: &[u8] =
    b"{\"format\":\"slot-record\",\"k\":4,\"limit\":1000,\"m\":2,\"version\":1,\"world\":\"rename\"}\n";

// Where nothing fails work ends well. A record that can't be read to its end is neither judged nor migrated, and
// one that can't be written is cut. To serve and to host are left to the caller, with nothing read or written.
const ENDINGS: [Ending; 11] = [
    Ending {
        words: &["slotctl", "play"],
        input: b"begin 7\nstep 7",
        reads: ALL,
        writes: ALL,
        status: 0,
        text: b"ok\nquiet\n",
        reported: b"",
    },
    Ending {
        words: &[
            "slotctl", "draw", "--seed", "7", "--ids", "1", "--steps", "1",
        ],
        input: b"",
        reads: ALL,
        writes: ALL,
        status: 0,
        text: b"begin 1\nstep 1\n",
        reported: b"",
    },
    Ending {
        words: &["slotctl", "check"],
        input: HEADER,
        reads: ALL,
        writes: ALL,
        status: 0,
        text: b"yes\n",
        reported: b"",
    },
    Ending {
        words: &["slotctl", "show"],
        input: HEADER,
        reads: ALL,
        writes: (7, 2),
        status: 3,
        text: b"<!docty",
        reported: WRITE_FAULT,
    },
    Ending {
        words: &["slotctl", "serve", "--m", "1"],
        input: b"begin 7\n",
        reads: ALL,
        writes: ALL,
        status: 100,
        text: b"",
        reported: b"",
    },
    Ending {
        words: &["slotctl", "host", "--journal", "a"],
        input: b"begin 7\n",
        reads: ALL,
        writes: ALL,
        status: 100,
        text: b"",
        reported: b"",
    },
    Ending {
        words: &["slotctl", "play", "--world", "splitter"],
        input: b"begin 7\nstep 7\nstep 7",
        reads: (1, 22),
        writes: ALL,
        status: 3,
        text: b"ok\nquiet\n",
        reported: READ_FAULT,
    },
    Ending {
        words: &["slotctl", "play", "--world", "splitter"],
        input: b"begin 7\nstep 7\nstep 7",
        reads: (100, 0),
        writes: (7, 2),
        status: 3,
        text: b"ok\nquie",
        reported: WRITE_FAULT,
    },
    Ending {
        words: &["slotctl", "--help"],
        input: b"begin 7\nstep 7\nstep 7",
        reads: (100, 0),
        writes: (7, 2),
        status: 3,
        text: b"Plays s",
        reported: WRITE_FAULT,
    },
    Ending {
        words: &["slotctl", "check"],
        input: HEADER,
        reads: (16, 5),
        writes: (7, 0),
        status: 3,
        text: b"",
        reported: READ_FAULT,
    },
    Ending {
        words: &["slotctl", "migrate"],
        input: HEADER,
        reads: (16, 0),
        writes: (7, 3),
        status: 3,
        text: b"{\"format\":\"slo",
        reported: WRITE_FAULT,
    },
];

#[test]
fn statuses_and_texts_are_those_of_the_protocol(rt: HostRuntime) {
    for (row, ending) in ENDINGS.iter().enumerate() {
        assert!(rt; ends(&rt, rt.alloc(), ending), "row {row}");
    }
}

// A clock by which work is done after so many sleeps.
#[derive(Drop)]
struct Work {
    left: AtomicU64,
    done: AtomicBool,
}

impl Clock for Work {
    fn monotonic(&self) -> io::Result<Duration> {
        Ok(Duration::from_secs(0))
    }

    fn since_1970(&self) -> io::Result<Duration> {
        Ok(Duration::from_secs(0))
    }

    fn sleep(&self, _duration: Duration) {
        if self.left.fetch_sub(1, Ordering::SeqCst) <= 1 {
            self.done.store(true, Ordering::SeqCst);
        }
    }
}

// What is reported while work takes so many sleeps.
fn reported_of(alloc: Global, sleeps: u64) -> Vec<u8> {
    let work = Work {
        left: AtomicU64::new(sleeps),
        done: AtomicBool::new(false),
    };
    let mut errors = Vec::new(alloc);
    tell_until(&work, &work.done, &mut errors);
    errors
}

// Sleeps, and what is reported.
const TOLD: [(u64, &[u8]); 5] = [
    (1, b""),
    (19, b""),
    (20, b".\n"),
    (59, b"..\n"),
    (60, b"...\n"),
];

#[test]
fn long_work_shows_that_it_goes_on(rt: HostRuntime) {
    for (sleeps, text) in &TOLD {
        let reported = reported_of(rt.alloc(), *sleeps);
        assert!(rt; reported.as_slice() == *text, "after {sleeps}");
    }
}

// Words, and whether what they ask for may take long.
const LONG: [(&[&str], bool); 8] = [
    (&["slotctl", "check"], true),
    (&["slotctl", "migrate"], true),
    (&["slotctl", "show"], true),
    (&["slotctl", "draw", "--seed", "7"], true),
    (&["slotctl", "play", "check"], false),
    (&["slotctl", "serve"], false),
    (&["slotctl"], false),
    (&[], false),
];

#[test]
fn checks_migrations_and_drawings_may_take_long(rt: HostRuntime) {
    for (words, want) in &LONG {
        assert!(rt; may_take_long(words) == *want, "{words:?}");
    }
}
