//! A grid as a world: it answers events.

ghost use Rattle.std.proofs.Common.{refl};
ghost use Rattle.model_asked.specs.Config.{is_kind};
ghost use Rattle.model_asked.specs.declared.kind.WorldKind.TheVariants.{Grid};
ghost use Rattle.model_splitter.proofs.cited.grid.GridTied.{grid_proved};
ghost use Rattle.model_splitter.specs.grid.Machine.{grid_parts};
ghost use Rattle.text_worlds.specs.lemmas.WorldRuns.{world_lawful};
ghost use Rattle.text_worlds.specs.Visits.{visit_may, knows_visits};
ghost use Rattle.text_worlds.specs.lemmas.VisitProofs.{kind_meant, visit_answers, one_visit, visits_tell};
ghost use Rattle.text_worlds.specs.GridWorld.{grid_rules, place_reply, IsGridRun, grid_fresh, one_grid_fresh, fits_grid};

use crate::outcomes::walk_reply;
use crate::world::{Unshared, World};
use model_asked::{Config, Event, Reply};
use model_splitter::grid::GridWorld;
use model_steps::{Refusal, View};
use std::alloc::Allocator;
use text_player::Service;

impl<A: Allocator + Clone> Service<Unshared> for GridWorld<A> {
    ghost knows = { knows_visits };

    ghost may = { visit_may grid_rules };

    ghost answers = { visit_answers grid_rules };

    #[inline(always)]
    fn apply(&mut self, _rt: &Unshared, event: Event, _view: &mut View) -> Reply<()> {
        match event {
            Event::Begin(id) => Reply::of_done(self.begin(id)),
            Event::Step(id) => walk_reply(self.step(id)),
            Event::Enter(_)
            | Event::Probe(_)
            | Event::Seek(_)
            | Event::Leave(_)
            | Event::Put(_, _)
            | Event::Get(_)
            | Event::Widen(_) => unreachable!(),
        }
    }

    #[tactic(auto, using(crate::specs::lemmas::VisitProofs::no_name))]
    fn owner(&mut self, _rt: &Unshared, _n: u64) -> Reply<View> {
        Reply::Refused(Refusal::OutOfRange)
    }
}

impl<A: Allocator + Clone> World<A, Unshared> for GridWorld<A> {
    ghost serves = { λ kind. is_kind kind Grid };

    ghost fresh = { grid_fresh };

    ghost IsRunIn = { λ c. IsGridRun };

    #[tactic(auto, using(model_asked::specs::lemmas::KindProofs::one_kind))]
    fn open(alloc: A, config: Config) -> Result<Self, Refusal> {
        GridWorld::new(alloc, config.m as usize)
    }

    ghost meant = { kind_meant Grid refl };

    ghost lawful = { λ c w u ts fresh. world_lawful grid_parts place_reply grid_proved c.m w u (fits_grid c fresh.0) fresh.1 ts };

    ghost tells = { λ c w u ts fresh. visits_tell grid_rules c.m w u ts };

    ghost one_fresh = { one_grid_fresh };

    ghost one_reply = { one_visit grid_rules };
}
