//! Laws of what a connection takes, and of stays that a server ends.

ghost use Rattle.std.specs.Prelude.{ℕ, Bool, Option};
ghost use Rattle.service_loop.specs.declared.manner.Manner.{Manner};
ghost use Rattle.service_loop.specs.Attendance.{KeepsGrace};
ghost use Rattle.service_loop.specs.ConnectionBuffers.{NeedsLf};
ghost use Rattle.service_loop.specs.OwnerLines.{GoAsOwned};
ghost use Rattle.service_loop.specs.Sendings.{hosted};
ghost use Rattle.service_loop.specs.TakeQueue.{IsInTurn};

use crate::persist::Persist;
use model_pool::stays::law_of_grace;
use text_player::Service;

/// A law, which runs nothing, of what a connection takes (`Takes`), and so of each iteration of the loop (`LoopIteration`): by bytes with no LF among them
/// there is no turn, at the end of what comes neither. So no event of an iteration is of a line that no LF ended.
pub fn law_of_cut_lines()
    ensures { NeedsLf }
{}

/// A law, which runs nothing, of those who wait for numbers (`TakeQueue::call`): first come, first served.
///
/// While more may hold a number, those who are called came before all others who wait. Who does not wait is called only where nobody waits, or no more may
/// hold one.
pub fn law_of_the_queue()
    ensures { IsInTurn }
{}

/// A law, which runs nothing, of clients that own their identities (`OwnerLines::add`): of whole lines of at most 200 bytes each goes to the service as
/// `owned_line` says, in order, however their bytes were cut.
pub fn law_of_owner_lines()
    ensures { GoAsOwned }
{}

/// A law, which runs nothing, of the stays that a server ends (`WasAttended`, of `host`).
///
/// A stay that is due has been graced: among all that was heard since the start, its keeper said `quit`, or ended at a tick more than the grace time
/// before, and nobody has kept it since. Or nobody kept it at the start, and it was due by the table that was there then.
pub fn law_of_hosted_grace<R, D: Service<R>, K: Persist<D>>()
    ensures { (manner : Manner) (grace : Option ℕ) → KeepsGrace hosted manner D.may K.prefetches K.persists K.waits K.shares K.holds grace }
{
    law_of_grace();
}
