//! A hall as a service.

ghost use Rattle.std.specs.Prelude.{true};
ghost use Rattle.service_hall.specs.Serving.{HallServes};
ghost use Rattle.service_hall.specs.lemmas.ServingProofs.{hall_answers};

use crate::hall::Hall;
use model_asked::{Event, Reply};
use model_steps::View;
use text_player::Service;

impl<R> Service<R> for Hall {
    ghost knows = { λ q. true };

    ghost may = { HallServes };

    ghost answers = { λ h q known. hall_answers h q };

    fn apply(&mut self, _rt: &R, event: Event, view: &mut View) -> Reply<()> {
        self.apply_short(event, view)
    }

    fn owner(&mut self, _rt: &R, n: u64) -> Reply<View> {
        Hall::owner(self, n)
    }
}
