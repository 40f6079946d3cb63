//! What is under a lock, and what a caller owns.

ghost use Rattle.std.specs.Prelude.{◌≡◌, ◌+◌, ◌≤◌, length, false, replicate};

use crate::kept_log::KeptLog;
use crate::{Book, Front, Naming};
use model_asked::Exchange;
use service_hall::Hall;
use std::marker::{Brand, Model};
use std::sync::ledger::{Book as Count, Ledger, Share};

/// The most callers of a lock.
pub const MOST_CALLERS: u64 = 1_000_000;

/// The lock that a type names: its ledger of kept events, its book and its configuration. A call picks all three, by
/// `Brand`.
pub trait LockName: Ledger + Naming {
    ghost use Rattle.model_asked.specs.declared.config.Config.{Config};

    ghost config: { Config };
}

impl LockName for Brand {
    ghost use Rattle.service_lock.specs.Configs.{some_config};

    ghost config = { some_config };
}

/// A hall with the count of its events, and the shares of that count for callers that may still be opened.
///
/// For each event there is a mark, with which `close` compares the history. A mark's room is allocated with its event,
/// so that the end of a lock allocates nothing. The history is that of the lock's book, which only grows.
#[derive(Drop)]
pub struct Locked<L: LockName> {
    pub(crate) hall: Hall,
    pub(crate) marks: Vec<bool>,
    pub(crate) count: Count<L>,
    pub(crate) rest: Share<L>,
    pub(crate) opened: u64,
    pub(crate) book: Book<L, Exchange>,
    pub(crate) front: Front<L, Exchange>,
    ghost counted: { length hall.history ≡ count.total },
    ghost clear: { marks.items ≡ replicate (length hall.history) false },
    ghost parts: { rest.parts + opened ≡ 1000001 },
    ghost few: { opened ≤ 1000000 },
    ghost none: { rest.amount ≡ 0 },
    ghost config: { hall.config ≡ L.config },
    ghost whole: { front ≡ hall.history },
}

/// One caller of a lock: its accepted events in order, and the history as the lock's last reply showed it.
///
/// Contracts see these two. Its share counts its events in the lock's ledger.
#[derive(Drop)]
pub struct Clerk<L: LockName> {
    pub(crate) kept: KeptLog,
    pub(crate) next: usize,
    pub(crate) share: Share<L>,
    pub(crate) seen: Front<L, Exchange>,
}

impl<L: LockName> Model for Clerk<L> {
    ghost use Rattle.service_lock.specs.CallerState.{CallerState};

    ghost Value = { CallerState };

    ghost use Rattle.service_lock.specs.CallerState.{caller_of};
    ghost use Rattle.service_lock.specs.Kepts.{IsClerk};

    ghost view = { λ c. caller_of c.kept.items c.seen };

    ghost invariant = { λ c. IsClerk L.config c.share.parts c.share.amount c.kept.items c.next c.seen };
}

/// One participant of a lock, with its accepted events.
#[derive(Drop)]
pub struct Session<L: LockName> {
    pub(crate) id: u64,
    pub(crate) clerk: Clerk<L>,
}
