//! Who keeps the stays of a hall at the start of its server.

ghost use Rattle.std.specs.Prelude.{◌≡◌, IfOk};
ghost use Rattle.model_pool.specs.Competitors.{identities};
ghost use Rattle.service_host.specs.Keepers.{stays_at_start};

use crate::failure::HostFailure;
use model_pool::Competitor;
use model_pool::stays::Stays;
use service_hall::Hall;
use std::alloc::{AllocError, Global};

/// The tick at which a server starts.
const START: u64 = 0;

// The identities of competitors.
fn identities_of(alloc: Global, competitors: &[Competitor]) -> Result<Vec<u64>, AllocError>
    ensures { IfOk result (λ ids. ids.items ≡ identities competitors.now) }
{
    let mut ids = Vec::new(alloc);
    for competitor in competitors {
        ids.push(competitor.identity)?;
    }
    Ok(ids)
}

/// The stays of a hall as its server starts: those of all that compete are kept by nobody since then, where stays are to end, and else none is noted.
///
/// # Errors
///
/// `Memory`: an allocation failed.
pub fn stays_at_start(alloc: Global, hall: &Hall, grace: Option<u64>) -> Result<Stays, HostFailure>
    ensures { IfOk result (λ stays. stays ≡ stays_at_start hall.now grace) }
{
    if grace.is_none() {
        return Ok(Stays::new(alloc));
    }
    let competitors = hall.slots().pool().competitors(alloc)?;
    let ids = identities_of(alloc, &competitors)?;
    Ok(Stays::all_gone(alloc, &ids, START)?)
}
