//! Connections over a service that knows before what it is asked.

use crate::turn_doubles::{Piped, Reported, Teller};
use model_asked::WorldKind;
use model_pool::stays::Stays;
use service_loop::{
    Attended, Audit, Batch, Buffers, Called, Connection, ConnectionStage, SharedBuffers,
    iterate_prefetched,
};
use std::alloc::{AllocError, Global};
use std::process::Abort;

/// How many turns an integration test has at most.
const MOST_TURNS: usize = 20_000;

/// Lines that connections send, good, bad, long and at their end.
const LINES: [&[u8]; 12] = [
    b"begin 1\n",
    b"step 1\n",
    b"owner 3\n",
    b"enter 18446744073709551615\n",
    b"put 4 5\n",
    b"\n",
    b"fly 7\n",
    b"step 01\n",
    b"begin 1 \n",
    b"probe 12\r\n",
    b"aaaaaaaaaaaaaaaaaaaaaaaaaaaaaaaaaaaaaaaaaaaaaaaaaaaaaaaaaaaaaaaaaaaaaaaaaaaaaaaaaaaaaaaaaaaaaaaaaaaaaaaaaaa\n",
    b"leave 9\n",
];

/// Numbers that look drawn.
#[derive(Drop)]
struct Draws {
    state: u64,
}

impl Draws {
    // The next number below a bound.
    fn below(&mut self, bound: u64) -> u64 {
        self.state = self
            .state
            .wrapping_mul(6364136223846793005)
            .wrapping_add(1442695040888963407);
        if bound == 0 {
            0
        } else {
            (self.state >> 33) % bound
        }
    }
}

// So many drawn lines, and then bytes of one more, which is cut.
fn drawn_lines(
    alloc: Global,
    draws: &mut Draws,
    count: usize,
    quits: bool,
) -> Result<Vec<u8>, AllocError> {
    let mut bytes = Vec::new(alloc);
    for at in 0..count {
        bytes.extend_from_slice(LINES[(draws.below(12) % 12) as usize])?;
        if quits && at == count / 2 {
            bytes.extend_from_slice(b"quit\n")?;
        }
    }
    bytes.extend_from_slice(b"get 5")?;
    Ok(bytes)
}

// How many lines a text has.
fn count_lines(text: &[u8]) -> usize {
    text.iter().filter(|byte| **byte == b'\n').count()
}

/// Connections, each with a seat.
type Seats = Vec<Option<Connection<Piped, Global>>>;

// Whether a connection has something to do: then it is due, and may be read.
fn is_made_due(connection: &mut Connection<Piped, Global>) -> bool {
    if connection.is_done() {
        return false;
    }
    connection.readable = true;
    connection.writable = true;
    connection.stage = ConnectionStage::Queued;
    true
}

// Those that have something to do are due.
fn make_due(seats: &mut Seats, ready: &mut Vec<usize>) -> Result<(), &'static str> {
    ready.clear();
    for key in 0..seats.len() {
        if let Some(Some(connection)) = seats.get_mut(key) {
            if is_made_due(connection) && ready.push(key).is_err() {
                return Err("no memory");
            }
        }
    }
    Ok(())
}

// Turns until all connections are at their end: how many there were.
fn run(alloc: Global, teller: &mut Teller, seats: &mut Seats) -> Result<usize, &'static str> {
    let reported = Reported::new(alloc, WorldKind::Rename);
    let stays = Stays::new(alloc);
    let mut attended = Attended::new(alloc, reported, stays, false, Audit::new(alloc, false));
    let mut batch = Batch::new(alloc, WorldKind::Rename, teller.most);
    let Ok(mut room) = SharedBuffers::new(alloc) else {
        return Err("no memory");
    };
    let mut ready = Vec::new(alloc);
    for turns in 0..MOST_TURNS {
        make_due(seats, &mut ready)?;
        if ready.is_empty() {
            return Ok(turns);
        }
        match iterate_prefetched(
            &(),
            &mut attended,
            teller,
            &mut batch,
            &mut room,
            seats,
            &[],
            &ready,
        )? {
            Called::Served(called) | Called::Unserved(called) => {
                if called == 0 {
                    return Err("nobody was called");
                }
            }
        }
    }
    Err("it does not come to its end")
}

/// What connections send: how many there are, how many lines of each, drawn from this state, and in what pieces; whether `quit`
/// stands among them, and whether a fault stands in the place of the end.
#[derive(Clone, Copy, Drop)]
struct Sent {
    state: u64,
    connections: u64,
    lines: usize,
    piece: usize,
    quits: bool,
    fails: bool,
}

/// Forty lines of one connection.
const OF_ONE: Sent = Sent {
    state: 5,
    connections: 1,
    lines: 40,
    piece: 100,
    quits: false,
    fails: false,
};

// A connection that sends its lines so.
fn connection(
    rt: &impl Abort,
    alloc: Global,
    draws: &mut Draws,
    sent: &Sent,
) -> Connection<Piped, Global> {
    let bytes = drawn_lines(alloc, draws, sent.lines, sent.quits).expect(rt, "room for lines");
    let mut piped = Piped::new(alloc, bytes, sent.piece);
    piped.fails = sent.fails;
    let buffers = Buffers::new(alloc, WorldKind::Rename).ok();
    Connection::new(piped, buffers.expect(rt, "room for a wire"), 0)
}

// Connections that send so, each with a seat.
fn seats_of(rt: &impl Abort, alloc: Global, sent: &Sent) -> Seats {
    let mut draws = Draws { state: sent.state };
    let mut seats = Vec::new(alloc);
    for _ in 0..sent.connections {
        let seat = Some(connection(rt, alloc, &mut draws, sent));
        seats.push(seat).ok().expect(rt, "room for a seat");
    }
    seats
}

// How many lines a connection is answered at least and at most, and whether one is at fault.
type Answered = (usize, usize, bool);

// What connections are answered that are at their end.
fn answered(seats: &Seats) -> Answered {
    let mut reported = (usize::MAX, 0, false);
    for seat in seats {
        if let Some(connection) = seat {
            let lines = count_lines(&connection.stream.taken);
            let is_broken = reported.2 || connection.buffers.is_broken();
            reported = (reported.0.min(lines), reported.1.max(lines), is_broken);
        }
    }
    reported
}

// What connections that send so are answered, where a batch has so many bytes, and the batch of this number is lost.
fn reported_of(rt: &impl Abort, alloc: Global, sent: &Sent, most: usize, loses: u64) -> Answered {
    let mut seats = seats_of(rt, alloc, sent);
    let mut teller = Teller {
        most,
        loses,
        reported: 0,
    };
    let fault = run(alloc, &mut teller, &mut seats).err();
    assert!(rt; fault.is_none(), "{fault:?}");
    answered(&seats)
}

/// What three connections send whose bytes come in such pieces.
fn of_three(piece: usize, lines: usize) -> Sent {
    Sent {
        state: piece as u64,
        connections: 3,
        lines,
        piece,
        ..OF_ONE
    }
}

/// Each line that came whole is answered, where bytes come in pieces and a batch has so many bytes; the cut one at the end is not.
#[test]
fn what_is_reported_is_what_is_asked(rt: HostRuntime) {
    for piece in [1, 2, 7, 50, 1000, 70_000] {
        for most in [101, 300, 60_000] {
            let reported = reported_of(&rt, rt.alloc(), &of_three(piece, 40), most, 0);
            assert!(rt; reported == (40, 40, false), "{piece} {most}: {reported:?}");
        }
    }
    let reported = reported_of(&rt, rt.alloc(), &of_three(70_000, 6_000), 65_000, 0);
    assert!(rt;
        reported == (6_000, 6_000, false),
        "many lines: {reported:?}"
    );
}

/// Nothing is answered behind `quit`, nor where the batch is lost; and some where a later one is, or where a stream ends in a fault while
/// lines of it wait.
#[test]
fn what_is_lost_is_not_answered(rt: HostRuntime) {
    let quits = Sent {
        quits: true,
        ..OF_ONE
    };
    let fails = Sent {
        state: 7,
        piece: 1_000,
        fails: true,
        ..OF_ONE
    };
    let behind = reported_of(&rt, rt.alloc(), &quits, 60_000, 0);
    let lost = reported_of(&rt, rt.alloc(), &OF_ONE, 60_000, 1);
    assert!(rt;
        [behind, lost] == [(22, 22, false), (0, 0, true)],
        "{behind:?} {lost:?}"
    );
    let later = reported_of(&rt, rt.alloc(), &OF_ONE, 60_000, 3);
    let cut = reported_of(&rt, rt.alloc(), &fails, 101, 0);
    let are_part = 0 < later.0 && later.1 < 40 && 0 < cut.0 && cut.1 < 40;
    assert!(rt; later.2 && are_part, "{later:?} {cut:?}");
}
