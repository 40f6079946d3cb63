//! A compaction of which not all was read.

ghost use Rattle.std.specs.Prelude.{◌≡◌, [], IfOk, OnOk};
ghost use Rattle.service_hall.specs.Halls.{hall_of};
ghost use Rattle.service_follow.specs.Marks.{head_at};
ghost use Rattle.service_follow.specs.Said.{reply_queue_of};
ghost use Rattle.service_follow.specs.Stays.{Gathers};

use crate::machine::HallMachine;
use crate::marks::head_at;
use crate::reply_queue::ReplyQueue;
use model_asked::Config;
use service_log::{ApplyFault, Machine};
use std::alloc::{AllocError, Global};

/// The hall to which the entries of a compaction that were read lead, and the token and the count of the last of them.
#[derive(Drop)]
pub(crate) struct Gathering {
    pub(crate) halls: HallMachine,
    pub(crate) head: [u8; 49],
}

impl Gathering {
    /// Makes one with a hall with no event, behind this entry.
    pub(crate) fn new(alloc: Global, config: Config, entry: &[u8]) -> Result<Gathering, AllocError>
        ensures { IfOk result (λ g. g.halls ≡ hall_of config []) }
    {
        let Ok(halls) = HallMachine::new(alloc, config) else {
            return Err(AllocError);
        };
        Ok(Gathering {
            halls,
            head: head_at(entry, 0),
        })
    }

    /// Takes one more entry, and says nothing.
    pub(crate) fn take(
        &mut self,
        entry: &[u8],
        reply_queue: &mut ReplyQueue,
    ) -> Result<(), ApplyFault>
        ensures gathers { OnOk result (Gathers self.old.halls entry.now self.new) }
        ensures silent { OnOk result (reply_queue.new ≡ reply_queue_of []) }
    {
        self.halls.apply(entry, reply_queue)?;
        reply_queue.clear();
        self.head = head_at(entry, 0);
        Ok(())
    }
}
