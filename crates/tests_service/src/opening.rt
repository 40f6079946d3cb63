//! What a lock is opened with.

ghost use Rattle.std.specs.Prelude.{◌≡◌};

use model_asked::{Config, Exchange, WorldKind};
use service_lock::{HallLock, LockName, Opened};
use std::alloc::Global;
use std::process::Abort;
use std::sync::ledger::Blank;

/// A config, with the blank and the book of a lock for it.
#[derive(Drop)]
pub(crate) struct Opening {
    pub(crate) config: Config,
    pub(crate) blank: Blank,
    pub(crate) history: Opened<Exchange>,
    ghost parts: { blank.parts ≡ 1000001 },
}

impl Opening {
    /// For a hall of this world, for so many participants and numbers.
    pub(crate) fn new(rt: &impl Abort, world: WorldKind, m: u64, k: u64) -> Opening {
        Opening {
            config: Config::new(world, m, k, 1000).expect(rt, "a config in range"),
            blank: Blank::new(1_000_001),
            history: Opened::new(),
        }
    }
}

/// A lock that is opened so.
pub(crate) fn opened<L: LockName>(rt: &impl Abort, alloc: Global, opening: Opening) -> HallLock<L>
    requires name { (opening.blank.name ≡ L.name) × (opening.blank.parts ≡ L.parts) }
    requires book { opening.history.seen.book ≡ L.book }
    requires config { opening.config ≡ L.config }
{
    let Opening {
        config,
        blank,
        history,
    } = opening;
    HallLock::<L>::new(alloc, config, blank, history).expect(rt, "room for a hall")
}
