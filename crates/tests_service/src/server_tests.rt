//! Connections over sockets, of which one is held. Clients that are slow, silent or broken are tried by `tests/serve`.

ghost use Rattle.std.specs.Prelude.{◌≡◌};

use crate::opening::{Opening, opened};
use model_asked::Reply;
use model_steps::Refusal;
use service_hall::Hall;
use service_lock::server::{Gate, Served, serve_many};
use service_lock::{Clerk, HallLock, LockName};
use std::alloc::Global;
use std::io::{Read, Write};
use std::marker::Brand;
use std::net::{Net, Shutdown, TcpListener, TcpStream};
use std::process::Abort;
use std::sync::Wait;
use std::sync::atomic::{AtomicU64, Ordering};
use std::thread;
use std::thread::Threads;
use text_player::{Event, WorldKind};

/// Whether the history of a hall has just these events.
pub(crate) fn has_just(hall: &Hall, events: &[Event]) -> bool {
    if hall.len() != events.len() {
        return false;
    }
    for at in 0..events.len() {
        match hall.get(at) {
            Some(exchange) if exchange.event == events[at] => {}
            _ => return false,
        }
    }
    true
}

/// Counts what it hears of, and keeps connection 0 until it hears of a reply, for so many looks at most.
#[derive(Drop)]
struct Holding {
    read: AtomicU64,
    answered: AtomicU64,
    gave_up: AtomicU64,
}

impl<R> Gate<R> for Holding {
    fn read(&self, _rt: &R, connection: u64) {
        self.read.fetch_add(1, Ordering::SeqCst);
        if connection != 0 {
            return;
        }
        for _ in 0..10_000_000 {
            if self.answered.load(Ordering::SeqCst) > 0 {
                return;
            }
            thread::yield_now();
        }
        self.gave_up.fetch_add(1, Ordering::SeqCst);
    }

    fn answered(&self, _rt: &R, _connection: u64) {
        self.answered.fetch_add(1, Ordering::SeqCst);
    }
}

impl Holding {
    /// How many lines and replies it heard of, and how often it gave up.
    fn reported(&self) -> (u64, u64, u64) {
        (
            self.read.load(Ordering::SeqCst),
            self.answered.load(Ordering::SeqCst),
            self.gave_up.load(Ordering::SeqCst),
        )
    }
}

/// A client that is connected, and has sent a line and that no more come.
fn client<R: Net<Stream = TcpStream>>(rt: &R, port: u16, line: &[u8]) -> Option<TcpStream> {
    let stream = TcpStream::connect(rt, ("127.0.0.1", port)).ok()?;
    let is_sent = (&mut &stream).write_all(line).is_ok();
    (is_sent && stream.shutdown(Shutdown::Write).is_ok()).then_some(stream)
}

/// Whether all that comes, to the end, is `ok`.
fn is_ok(alloc: Global, stream: &TcpStream) -> bool {
    let mut text = Vec::new(alloc);
    let read = (&mut &*stream).read_to_end(&mut text);
    read.is_ok() && text.as_slice() == b"ok\n".as_slice()
}

/// Whether two clients, of which the first connects first and the second is answered first, are both answered `ok`.
fn two_clients<R: Net<Stream = TcpStream>>(rt: &R, alloc: Global, port: u16) -> bool {
    let first = client(rt, port, b"begin 7\n");
    let second = client(rt, port, b"enter 5\n");
    match (&first, &second) {
        (Some(first), Some(second)) => is_ok(alloc, second) && is_ok(alloc, first),
        _ => false,
    }
}

/// Two clerks of a lock, of which nobody competes yet; fewer where memory is refused.
fn two_clerks<L: LockName, R: Wait>(rt: &R, alloc: Global, lock: &HallLock<L>) -> Vec<Clerk<L>> {
    let mut clerks = Vec::new(alloc);
    for _ in 0..2 {
        if let Ok(mut clerk) = lock.clerk(rt, alloc) {
            if lock.apply(rt, &mut clerk, Event::Get(5)) == Reply::Refused(Refusal::NotCompeting) {
                let _ = clerks.push(clerk);
            }
        }
    }
    clerks
}

/// Whether both clients of a listener at this port are answered and served, with a gate that holds the first connection, and the
/// second's event comes first in the closed history.
fn held<L, R>(
    rt: &R,
    alloc: Global,
    opening: Opening,
    gate: &Holding,
    listener: &TcpListener,
    port: u16,
) -> bool
where
    L: LockName + Send + Sync,
    R: Abort + Threads + Wait + Sync + Net<Listener = TcpListener, Stream = TcpStream>,
    requires name { (opening.blank.name ≡ L.name) × (opening.blank.parts ≡ L.parts) }
    requires book { opening.history.seen.book ≡ L.book }
    requires config { opening.config ≡ L.config }
{
    let lock = opened::<L>(rt, alloc, opening);
    let clerks = two_clerks(rt, alloc, &lock);
    let shared = &lock;
    let (are_ok, served) = thread::join(
        rt,
        move || two_clients(rt, alloc, port),
        move || serve_many(rt, alloc, listener, shared, gate, clerks, 2),
    );
    let Served {
        connections: _,
        served,
        clerks,
        fault,
    } = served;
    let is_served = are_ok && served == 2 && fault.is_none();
    match lock.close(Vec::new(alloc), clerks) {
        Ok(closed) => is_served && has_just(&closed.hall, &[Event::Enter(5), Event::Begin(7)]),
        Err(_) => false,
    }
}

/// A connection that is held does not hold another: the second is answered first.
#[test]
fn a_held_connection_holds_no_other(rt: HostRuntime) {
    let gate = Holding {
        read: AtomicU64::new(0),
        answered: AtomicU64::new(0),
        gave_up: AtomicU64::new(0),
    };
    let listener = TcpListener::bind(&rt, ("127.0.0.1", 0u16)).expect(&rt, "a port");
    let address = listener.local_addr().expect(&rt, "a bound listener");
    let is_so = held::<Brand, _>(
        &rt,
        rt.alloc(),
        Opening::new(&rt, WorldKind::Rename, 1, 4),
        &gate,
        &listener,
        address.port(),
    );
    assert!(rt; is_so && gate.reported() == (2, 2, 0));
}
