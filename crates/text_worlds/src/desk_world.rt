//! A desk as a world: it answers events, and returns the identity that has a name.

ghost use Rattle.std.specs.Prelude.{true};
ghost use Rattle.model_asked.specs.Config.{gives_names};
ghost use Rattle.text_worlds.specs.desk.Desk.{IsFreshDesk};
ghost use Rattle.text_worlds.specs.desk.DeskRun.{IsDeskRunOf};
ghost use Rattle.text_worlds.specs.DeskWorld.{DeskWorldMay};
ghost use Rattle.text_worlds.specs.lemmas.DeskWorldProofs.{desk_answers, desk_lawful, desk_tells, one_desk_fresh, one_desk_reply};
ghost use Rattle.std.proofs.Common.{refl};

use crate::desk::Desk;
use crate::world::{Unshared, World};
use model_asked::{Config, Event, Reply};
use model_steps::{Refusal, View};
use std::alloc::Allocator;
use text_player::Service;

impl<A: Allocator + Clone> Service<Unshared> for Desk<A> {
    ghost knows = { λ q. true };

    ghost may = { DeskWorldMay };

    ghost answers = { λ w q known. desk_answers w q };

    #[inline(always)]
    fn apply(&mut self, _rt: &Unshared, event: Event, view: &mut View) -> Reply<()> {
        self.apply_short(event, view)
    }

    fn owner(&mut self, _rt: &Unshared, n: u64) -> Reply<View> {
        Desk::owner(self, n)
    }
}

impl<A: Allocator + Clone> World<A, Unshared> for Desk<A> {
    ghost serves = { gives_names };

    ghost fresh = { IsFreshDesk };

    ghost IsRunIn = { IsDeskRunOf };

    fn open(alloc: A, config: Config) -> Result<Self, Refusal> {
        Desk::new(alloc, config)
    }

    ghost meant = { λ kind serves line q is. refl };

    ghost lawful = { desk_lawful };

    ghost tells = { desk_tells };

    ghost one_fresh = { one_desk_fresh };

    ghost one_reply = { one_desk_reply };
}
