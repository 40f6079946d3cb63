//! A stream, a service and its persister that watch what a turn does.

ghost use Rattle.std.specs.Prelude.{None, true, ⊤, []};
ghost use Rattle.model_asked.specs.declared.reply.Reply.TheVariants.{Ok as Accepted};

use model_asked::{Command, Event, Reply, WorldKind};
use model_steps::View;
use service_loop::{Persist, Prefetch, Stream, Tally};
use std::alloc::{Allocator, Global};
use std::io;
use std::io::{Error, ErrorKind};
use text_lines::held::HeldQuery;
use text_player::{Replies, Service, parse_line};

/// A stream that gives bytes in pieces, with a pause after each, and takes some at each write.
#[derive(Drop)]
pub struct Piped {
    bytes: Vec<u8>,
    at: usize,
    piece: usize,
    pauses: bool,
    /// Whether a fault stands in the place of the end.
    pub fails: bool,
    pub taken: Vec<u8>,
}

impl Piped {
    /// It gives these bytes, so many at each read and so many to each write.
    pub fn new(alloc: Global, bytes: Vec<u8>, piece: usize) -> Piped {
        Piped {
            bytes,
            at: 0,
            piece,
            pauses: false,
            fails: false,
            taken: Vec::new(alloc),
        }
    }
}

impl Stream for Piped {
    ghost left = { λ s. None };

    ghost gone = { λ s. None };

    fn read_some(&mut self, buf: &mut [u8]) -> io::Result<usize> {
        self.pauses = !self.pauses && self.at < self.bytes.len();
        if self.pauses {
            return Err(Error::from(ErrorKind::WouldBlock));
        }
        let rest = self.bytes.get(self.at..).unwrap_or(&[]);
        if self.fails && rest.is_empty() {
            return Err(Error::from(ErrorKind::ConnectionReset));
        }
        let count = rest.len().min(self.piece).min(buf.len());
        buf[..count].copy_from_slice(&rest[..count]);
        self.at += count;
        Ok(count)
    }

    fn write_some(&mut self, buf: &[u8]) -> io::Result<usize> {
        let count = buf.len().min(self.piece);
        if self.taken.extend_from_slice(&buf[..count]).is_err() {
            return Err(Error::from(ErrorKind::OutOfMemory));
        }
        Ok(count)
    }
}

/// A service that has what it will be asked, and says `ok` to it. What else it is asked makes it astray.
#[derive(Drop)]
pub struct Reported {
    lines: Vec<u8>,
    at: usize,
    kind: WorldKind,
    astray: bool,
}

impl Reported {
    /// It has nothing.
    pub fn new(alloc: Global, kind: WorldKind) -> Reported {
        Reported {
            lines: Vec::new(alloc),
            at: 0,
            kind,
            astray: false,
        }
    }

    // The next line that it has, without its LF.
    fn next_line(&mut self) -> &[u8] {
        let rest = self.lines.get(self.at..).unwrap_or(&[]);
        let end = rest
            .iter()
            .position(|byte| *byte == b'\n')
            .unwrap_or(rest.len());
        self.at = self.at.saturating_add(end).saturating_add(1);
        &rest[..end]
    }

    // It is asked this.
    fn ask(&mut self, command: Command) {
        let kind = self.kind;
        let is_reported = parse_line(self.next_line(), kind) == Ok(command);
        self.astray = self.astray || !is_reported;
    }
}

impl<R> Service<R> for Reported {
    ghost knows = { λ q. true };

    ghost may = { λ w q r u. ⊤ };

    ghost answers = { λ w q h. (Accepted, w, tt) };

    fn apply(&mut self, _rt: &R, event: Event, _view: &mut View) -> Reply<()> {
        self.ask(Command::Event(event));
        Reply::Ok
    }

    fn owner(&mut self, _rt: &R, n: u64) -> Reply<View> {
        self.ask(Command::Owner(n));
        Reply::Ok
    }
}

/// A persister that tells its service the lines, and refuses to keep what is not all of them. It loses some batches.
#[derive(Drop)]
pub struct Teller {
    pub most: usize,
    pub loses: u64,
    pub reported: u64,
}

impl Persist<Reported> for Teller {
    type Fault = &'static str;

    ghost persists = { λ k w l u. ⊤ };

    ghost prefetches = { λ k w lines l u. ⊤ };

    ghost waits = { λ k w l u. ⊤ };

    ghost shares = { λ k. true };

    ghost may_answer = { λ k lease. ⊤ };

    ghost holds = { λ k w. record {
      pool = record { most = 0; size = 0; bits = record { first = tt; values = []; bits = [] }; competitors = [] };
      values = [];
    } };

    fn put_held<B: Allocator>(&self, _service: &Reported, query: HeldQuery, out: &mut Replies<B>) {
        match query {
            HeldQuery::All | HeldQuery::From(_) => out.put(b"ok\n"),
            HeldQuery::Of(_) => out.put(b"none\n"),
        }
    }

    fn room(&self, _service: &Reported) -> u64 {
        0
    }

    fn is_full(&self, _service: &Reported) -> bool {
        false
    }

    fn persist(&mut self, service: &mut Reported) -> Result<(), &'static str> {
        if service.astray {
            return Err("it was asked what it was not told");
        }
        if service.at < service.lines.len() {
            return Err("it was told what it was not asked");
        }
        Ok(())
    }

    fn most_prefetched(&self) -> Option<usize> {
        Some(self.most)
    }

    fn prefetch(&mut self, service: &mut Reported, lines: &[u8]) -> Result<Prefetch, &'static str> {
        self.reported = self.reported.saturating_add(1);
        service.at = 0;
        service.lines.clear();
        if self.reported == self.loses {
            return Ok(Prefetch::Lost);
        }
        if service.lines.extend_from_slice(lines).is_err() {
            return Err("no memory");
        }
        Ok(Prefetch::Known)
    }

    fn tick(&mut self, _service: &mut Reported) -> Result<(), &'static str> {
        Ok(())
    }

    fn shares_stays(&self) -> bool {
        true
    }

    fn end_stays(&mut self, _service: &mut Reported, _due: &[u64]) -> Result<(), &'static str> {
        Ok(())
    }

    fn has_stay(&self, _service: &Reported, _identity: u64) -> bool {
        false
    }

    fn lease(&self) -> u64 {
        0
    }

    fn may_answer_stays(&self, _lease: u64) -> bool {
        true
    }

    fn trouble(&self) -> Option<&'static str> {
        None
    }

    fn lasting_tenths(&self) -> u8 {
        0
    }

    fn tally(&self, _service: &Reported) -> Tally {
        Tally::of_events(0)
    }
}
