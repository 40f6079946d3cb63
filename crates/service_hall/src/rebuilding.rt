//! A hall under construction.

ghost use Rattle.std.specs.Prelude.{◌≡◌, [], false, IfOk, OnOk};
ghost use Rattle.service_hall.specs.Halls.{hall_of};
ghost use Rattle.service_hall.specs.DeskParts.{is_renaming};
ghost use Rattle.service_hall.specs.Rebuilt.{IsCopied, HasTaken, GoesOn};

use crate::Hall;
use crate::slots_copy::SlotsCopy;
use crate::stuck::Stuck;
use model_asked::{Config, Event, Reply};
use model_steps::View;
use std::alloc::Global;

/// A hall, with a copy of its pool and slots.
#[derive(Drop)]
pub(crate) struct Rebuilding {
    pub(crate) hall: Hall,
    pub(crate) slots: SlotsCopy,
    view: View,
}

impl Rebuilding {
    /// Makes a hall of this config with no event.
    pub(crate) fn new(alloc: Global, config: Config) -> Result<Rebuilding, Stuck>
        ensures hall { IfOk result (λ r. r.hall ≡ hall_of config []) }
        ensures copied { IfOk result (λ r. IsCopied r.hall r.slots) }
    {
        Ok(Rebuilding {
            hall: Hall::new(alloc, config)?,
            slots: SlotsCopy::new(alloc, config.world.most_numbers(), config.k)?,
            view: View::new(),
        })
    }

    /// Applies an event, and returns the reply. The error is `Stuck` if the hall refuses it.
    pub(crate) fn take(&mut self, event: Event) -> Result<Reply<()>, Stuck>
        ensures taken { OnOk result (HasTaken self.old event self.new) }

        // An event of the pool or the slots leaves renaming as it was.
        ensures pool { OnOk result (is_renaming event ≡ false → GoesOn self.old self.new) }
    {
        let reply = self.hall.apply_short(event, &mut self.view);
        if reply.is_refusal() {
            return Err(Stuck);
        }
        self.slots.follow(event)?;
        Ok(reply)
    }
}
