//! How a hall gets more numbers before it is served.

ghost use Rattle.std.specs.Prelude.{◌≡◌, ◌≤◌, ◌<◌, ◌⊎◌, true, false, ℕ, IfErr, IfOk, IfSome, OnOk};
ghost use Rattle.model_asked.specs.Requests.Request.{Take};
ghost use Rattle.model_asked.specs.Replies.{ShownReply, is_refusal};
ghost use Rattle.model_asked.specs.declared.event.Event.{Event};
ghost use Rattle.service_hall.specs.HallState.{HallState};
ghost use Rattle.service_hall.specs.Halls.{HallMay};
ghost use Rattle.service_host.specs.Sizes.{most_of, size_of, sizing_of};
ghost use Rattle.service_host.specs.declared.sizes.Sizing.TheVariants.{Exceeds, Fits, Widens};
ghost use Rattle.service_host.specs.Widened.{IsAskedFor, IsWider, widen_line};

use crate::failure::HostFailure;
use crate::persisters::Recorded;
use crate::reading::Reading;
use crate::sizes::{Sizing, choose_sizing, size_of};
use model_asked::{Event, Reply};
use model_steps::{Refusal, View};
use service_follow::{LogFault, LogPersister, Pause, ReplyQueue};
use service_hall::Hall;
use service_journal::{Disk, WriteAhead};
use service_log::{Store, StoreFault};
use service_loop::{Persist, Prefetch};
use std::alloc::Global;
use std::io::Write;
use text_player::{Replies, Service, print_event};

/// How often a pool in a log is widened, at most, where another front end comes first each time: a pool is widened 63 times at most.
const MOST_TRIES: u32 = 64;

/// What is asked for by a server that starts.
#[derive(Clone, Copy, Debug, Drop)]
pub struct SizeAsked {
    /// How many numbers the pool is to have.
    pub size: u64,
    /// Whether clients may widen the pool.
    pub by_clients: bool,
}

/// Returns an error if the pool of a hall has more numbers than are asked for, or may not get as many.
///
/// # Errors
///
/// - `Wider`: it has more.
/// - `AtMost`: it may not get as many.
pub(crate) fn check_size(hall: &Hall, asked: SizeAsked) -> Result<(), HostFailure>
    ensures taken { OnOk result ((sizing_of hall.now asked.size asked.by_clients ≡ Fits) ⊎
        ((sizing_of hall.now asked.size asked.by_clients ≡ Widens) × (asked.size ≤ most_of hall.now))) }
    ensures refused { IfErr result (λ why. ((why ≡ HostFailure.Wider (size_of hall.now)) × (sizing_of hall.now asked.size asked.by_clients ≡ Exceeds)) ⊎
        ((why ≡ HostFailure.AtMost (most_of hall.now)) × (sizing_of hall.now asked.size asked.by_clients ≡ Widens) × (most_of hall.now < asked.size))) }
{
    match choose_sizing(hall, asked.size, asked.by_clients) {
        Sizing::Fits => Ok(()),
        Sizing::Widens => {
            let most = hall.slots().pool().most();
            if most < asked.size {
                return Err(HostFailure::AtMost(most));
            }
            Ok(())
        }
        Sizing::Exceeds => Err(HostFailure::Wider(size_of(hall))),
    }
}

// The line of `widen`.
fn widen_line(alloc: Global, size: u64) -> Result<Replies<Global>, HostFailure>
    ensures { IfOk result (λ line. line ≡ widen_line size) }
{
    let mut line = Replies::new(alloc)?;
    print_event(Event::Widen(size), &mut line);
    line.put(b"\n");
    Ok(line)
}

/// Has a service widen its pool, by this line, and its persister keep that, before anybody is served. Returns the reply, or `None` if it was not prefetched in
/// time.
///
/// # Errors
///
/// Those of the persister.
pub(crate) fn ask_to_widen<R, D: Service<R>, K: Persist<D>>(
    rt: &R,
    service: &mut D,
    persister: &mut K,
    size: u64,
    line: &[u8],
) -> Result<Option<Reply<()>>, K::Fault>
    requires known { D.knows (Take (Event.Widen size)) ≡ true }
    ensures { IfOk result (λ o. IfSome o (λ reply. IsAskedFor K.prefetches D.may K.persists size line.now persister.old service.old reply
        persister.new service.new)) }
{
    let mut view = View::new();
    match persister.prefetch(service, line)? {
        Prefetch::Known => {
            let reply = service.apply(rt, Event::Widen(size), &mut view);
            persister.persist(service)?;
            Ok(Some(reply))
        }
        Prefetch::Lost => Ok(None),
    }
}

// Says on standard error that a pool was widened, or tells why it was not.
fn tell_wider<E: Write>(
    reply: Reply<()>,
    was: u64,
    size: u64,
    errors: &mut E,
) -> Result<(), HostFailure> {
    match reply {
        Reply::Ok => {
            // A standard error that takes no text changes nothing.
            let _ = write!(
                errors,
                "slotctl: the pool is widened to {size} numbers, from {was}\n"
            );
            Ok(())
        }
        Reply::Refused(Refusal::NoMemory) => Err(HostFailure::Memory),
        _ => Err(HostFailure::NotWidened),
    }
}

/// Widens the pool of a hall with a journal, if it has fewer numbers than are asked for, and says so.
///
/// # Errors
///
/// - `Wider`: the pool has more numbers. `AtMost`: it may not get as many. Nothing changed.
/// - `NotWidened`: the history is full. Nothing changed.
/// - Those of the journal, and `Memory`.
pub(crate) fn widen_recorded<R, D: Disk, E: Write>(
    rt: &R,
    alloc: Global,
    asked: SizeAsked,
    reading: &mut Reading<WriteAhead>,
    persister: &mut Recorded<D>,
    errors: &mut E,
) -> Result<(), HostFailure> {
    check_size(reading.service.hall(), asked)?;
    let size = size_of(reading.service.hall());
    match choose_sizing(reading.service.hall(), asked.size, asked.by_clients) {
        Sizing::Fits => return Ok(()),
        Sizing::Exceeds => return Err(HostFailure::Wider(size)),
        Sizing::Widens => {}
    }
    let line = widen_line(alloc, asked.size)?;
    match ask_to_widen(rt, reading, persister, asked.size, line.as_slice()) {
        Ok(Some(reply)) => tell_wider(reply, size, asked.size, errors),
        Ok(None) => Err(HostFailure::NotWidened),
        Err(fault) => Err(HostFailure::from(fault)),
    }
}

/// Widens the pool of a hall in a log, if it has fewer numbers than are asked for, and says so. If another front end comes first, it looks again.
///
/// # Errors
///
/// - `Wider`: the pool has more numbers. `AtMost`: it may not get as many. Nothing changed.
/// - `NotWidened`: the history is full. Nothing changed.
/// - Those of the log, and `Memory`.
pub(crate) fn widen_followed<R, S: Store, P: Pause, E: Write>(
    rt: &R,
    alloc: Global,
    asked: SizeAsked,
    reply_queue: &mut ReplyQueue,
    persister: &mut LogPersister<S, P>,
    errors: &mut E,
) -> Result<(), HostFailure> {
    check_size(persister.hall(), asked)?;
    let line = widen_line(alloc, asked.size)?;
    for _ in 0..MOST_TRIES {
        let size = size_of(persister.hall());
        match choose_sizing(persister.hall(), asked.size, asked.by_clients) {
            Sizing::Fits => return Ok(()),
            Sizing::Exceeds => return Err(HostFailure::Wider(size)),
            Sizing::Widens => {}
        }
        match ask_to_widen(rt, reply_queue, persister, asked.size, line.as_slice()) {
            Ok(Some(Reply::Refused(Refusal::OutOfRange))) => {}
            Ok(Some(reply)) => return tell_wider(reply, size, asked.size, errors),
            Ok(None) => return Err(HostFailure::Log(LogFault::Store(StoreFault::Lost))),
            Err(fault) => return Err(HostFailure::from(fault)),
        }
    }
    Err(HostFailure::NotWidened)
}

/// A law, which runs nothing, of the hall that accepts `widen`: its pool has just so many numbers then, and they are more than before. Who competes and what is
/// held is as before, and its history has gained that event alone.
pub fn law_of_widening()
    ensures { (h u : HallState) (size : ℕ) (r : ShownReply) → HallMay h (Event.Widen size) r u → is_refusal r ≡ false → IsWider h size u }
{}
