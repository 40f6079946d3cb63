//! Who competes in a hall once stays were released.

ghost use Rattle.std.specs.Prelude.{Bool};
ghost use Rattle.service_hall.specs.HallState.{HallState};
ghost use Rattle.service_journal.specs.WriteAheadState.{WriteAheadState};
ghost use Rattle.service_host.specs.declared.reading.Reading.{Reading};
ghost use Rattle.service_host.specs.Freeing.{FreesAll, ReleasesAsHall};
ghost use Rattle.service_host.specs.Readings.{HallReads, ReadingServes};

use service_loop::law_of_releases;
use text_player::Service;

/// A law, which runs nothing, of the stays that `service_loop::host` releases over a hall: once what was due is released, none of the due competes, unless
/// one of its own events was refused, since an allocation failed or the history was full. Then it is due again.
pub fn law_of_freed_stays<R, D: Service<R>>()
    ensures { (wide : Bool) (hall : D → HallState) → ReleasesAsHall hall D.may → FreesAll wide hall D.may }
{
    law_of_releases::<R, D>();
}

/// A law, which runs nothing: a hall that is hosted, without a journal or with one, answers `leave`, `probe` and `seek` as the hall may, by whatever rules. So
/// `law_of_freed_stays` is true of both.
pub fn law_of_hosted_releases()
    ensures alone { ReleasesAsHall (λ (w : Reading HallState). w.service) HallReads }
    ensures journaled { ReleasesAsHall (λ (w : Reading WriteAheadState). w.service.hall) ReadingServes }
{}
