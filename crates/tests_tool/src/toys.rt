//! A small world for tests, which refuses a growth now and then.

ghost use Rattle.std.specs.Prelude.{ℕ, ◌≡◌};
ghost use Rattle.std.proofs.Common.{refl};
ghost use Rattle.model_asked.specs.Config.{is_kind};
ghost use Rattle.model_asked.specs.declared.kind.WorldKind.TheVariants.{Splitter};
ghost use Rattle.text_worlds.specs.lemmas.VisitProofs.{kind_meant};
ghost use Rattle.tests_tool.specs.Toys.{ShelfMay, IsShelfRun};
ghost use Rattle.tests_tool.specs.ToyProofs.{shelf_answers, shelf_lawful, shelf_tells, one_shelf_fresh, one_shelf_reply};
ghost use Rattle.text_worlds.specs.Visits.{knows_visits};

use model_asked::{Config, Event, Reply};
use model_steps::{Refusal, View};
use std::marker::Model;
use text_worlds::{Service, World};

/// Counts its events, and wants memory for each, which is refused at every third asking.
#[derive(Drop)]
pub struct Shelf {
    /// How many events were taken.
    pub taken: u64,
    asked: u64,
}

impl Model for Shelf {
    ghost Value = { ℕ };

    ghost view = { λ s. s.taken };
}

impl<R> Service<R> for Shelf {
    ghost knows = { knows_visits };

    ghost may = { ShelfMay };

    ghost answers = { shelf_answers };

    fn apply(&mut self, _rt: &R, _event: Event, _view: &mut View) -> Reply<()> {
        self.asked = self.asked.wrapping_add(1);
        if self.asked % 3 == 0 || self.taken == u64::MAX {
            return Reply::Refused(Refusal::NoMemory);
        }
        self.taken += 1;
        Reply::Ok
    }

    fn owner(&mut self, _rt: &R, _n: u64) -> Reply<View> {
        Reply::Refused(Refusal::OutOfRange)
    }
}

impl<A: Drop, R> World<A, R> for Shelf {
    ghost serves = { λ kind. is_kind kind Splitter };

    ghost fresh = { λ c w. w ≡ 0 };

    ghost IsRunIn = { λ c. IsShelfRun };

    fn open(_alloc: A, _config: Config) -> Result<Self, Refusal> {
        Ok(Shelf { taken: 0, asked: 0 })
    }

    ghost meant = { kind_meant Splitter refl };

    ghost lawful = { λ c w u ts fresh. shelf_lawful w u ts };

    ghost tells = { λ c w u ts fresh. shelf_tells c.m w u ts };

    ghost one_fresh = { λ c. one_shelf_fresh };

    ghost one_reply = { one_shelf_reply };
}
