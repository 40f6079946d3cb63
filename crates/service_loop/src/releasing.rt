//! Stays that a server ends.

ghost use Rattle.std.specs.Prelude.{◌≡◌, ◌∷◌, [], Bool, List, true, OnOk};
ghost use Rattle.model_asked.specs.Replies.{ShownReply, with_view};
ghost use Rattle.model_asked.specs.Requests.{Request};
ghost use Rattle.model_asked.specs.Requests.Request.{Take};
ghost use Rattle.model_asked.specs.declared.event.Event.TheVariants as event;
ghost use Rattle.text_player.specs.Runs.{Runs};
ghost use Rattle.text_player.specs.Turns.{Turn};
ghost use Rattle.service_loop.specs.Attending.{Hears};
ghost use Rattle.service_loop.specs.Releasing.{AreProbes, EndsDue, Forgot, Released, ReleasesFree, freed_by, is_missed, lacks_number};
ghost use Rattle.model_pool.specs.stays.Stays.{all_due};

use crate::attended::Attended;
use crate::audit::{Asker, Audit};
use crate::host_fault::HostFault;
use crate::persist::Persist;
use crate::searching::{most_said, searching};
use model_asked::{Event, Reply};
use model_steps::{Refusal, View};
use std::alloc::Global;
use text_player::Service;

// Whether a `probe` was missed, by the reply to it.
fn is_missed(reply: &Reply<()>) -> bool
    ensures { result ≡ is_missed reply.now }
{
    matches!(reply, Reply::Missed)
}

// Whether the identity competes and holds no number, by the reply to `leave`.
fn lacks_number(reply: &Reply<()>) -> bool
    ensures { result ≡ lacks_number reply.now }
{
    matches!(reply, Reply::Refused(Refusal::NotHolding))
}

// Searches for a number of an identity: says `seek` once in the wide world, elsewhere `probe` as often as it takes to hold one, and no more often than
// there are numbers.
fn search_to_number<R, D: Service<R>>(
    rt: &R,
    service: &mut Attended<D>,
    view: &mut View,
    identity: u64,
    wide: bool,
)
    requires { (q : Request) → D.knows q ≡ true }
    ensures { (turns : List Turn) × AreProbes wide identity turns × Runs D.may service.old.service turns service.new.service ×
        Hears [] service.old service.new }
{
    for _tries in 0..most_said(wide) {
        let reply = service.apply(rt, searching(wide, identity), view);
        if !is_missed(&reply) {
            break;
        }
    }
}

// Says `leave` of an identity. Where it does not compete its stay is forgotten.
fn say_leave<R, D: Service<R>>(
    rt: &R,
    service: &mut Attended<D>,
    view: &mut View,
    identity: u64,
) -> Reply<()>
    requires { (q : Request) → D.knows q ≡ true }
    ensures said { D.may service.old.service (Take (event.Leave identity)) (with_view result view.new) service.new.service }
    ensures hears { Hears (freed_by (event.Leave identity) result) service.old service.new }
{
    let reply = service.apply(rt, Event::Leave(identity), view);
    if let Reply::Refused(Refusal::NotCompeting) = reply {
        service.forget(identity);
    }
    reply
}

/// Ends the stay of an identity by events of the service: `leave`; or, where it competes and holds no number, in the wide world one `seek`, elsewhere
/// `probe` until it holds one, and then `leave`. Where `leave` is refused since an allocation failed or the history is full, the stay goes on.
pub fn release<R, D: Service<R>>(
    rt: &R,
    service: &mut Attended<D>,
    view: &mut View,
    identity: u64,
    wide: bool,
)
    requires { (q : Request) → D.knows q ≡ true }
    ensures { Released wide D.may (identity ∷ []) service.old service.new }
{
    let reply = say_leave(rt, service, view, identity);
    if lacks_number(&reply) {
        search_to_number(rt, service, view, identity, wide);
        say_leave(rt, service, view, identity);
    }
}

/// Ends the stays of these identities (`release`), one after another.
pub fn release_all<R, D: Service<R>>(
    rt: &R,
    service: &mut Attended<D>,
    view: &mut View,
    due: &[u64],
    wide: bool,
)
    requires { (q : Request) → D.knows q ≡ true }
    ensures { Released wide D.may due.now service.old service.new }
{
    for identity in due {
        release(rt, service, view, *identity, wide);
    }
}

// Forgets the stay of an identity, if it does not compete any more.
fn forget_one<D, K: Persist<D>>(service: &mut Attended<D>, persister: &K, identity: u64)
    ensures { Forgot (K.holds persister.now service.old.service) (identity ∷ []) service.old service.new }
{
    if !persister.has_stay(&service.service, identity) {
        service.audit.note_ended(identity);
        service.forget(identity);
    }
}

// Forgets the stays of those of these identities that do not compete any more.
fn forget_ended<D, K: Persist<D>>(service: &mut Attended<D>, persister: &K, due: &[u64])
    ensures { Forgot (K.holds persister.now service.old.service) due.now service.old service.new }
{
    for identity in due {
        forget_one(service, persister, *identity);
    }
}

// Tells an audit which of these identities compete.
fn note_due<D, K: Persist<D>>(audit: &mut Audit, service: &D, persister: &K, due: &[u64]) {
    audit.clear_due();
    for identity in due {
        if persister.has_stay(service, *identity) {
            audit.note_due(*identity);
        }
    }
}

// Ends the stays of these identities: by events of the service (`release_all`), which are kept like all that it tells; or by the persister, where other
// servers share the stays.
fn end_these<R, D: Service<R>, K: Persist<D>>(
    rt: &R,
    service: &mut Attended<D>,
    persister: &mut K,
    view: &mut View,
    due: &[u64],
    wide: bool,
) -> Result<(), K::Fault>
    requires { (q : Request) → D.knows q ≡ true }
    ensures { OnOk result (EndsDue wide D.may K.persists K.waits K.shares K.holds due.now persister.old service.old persister.new service.new) }
{
    if persister.shares_stays() {
        note_due(&mut service.audit, &service.service, persister, due);
        persister.end_stays(&mut service.service, due)?;
        service.audit.note_gone(persister.ended_of_gone());
        forget_ended(service, persister, due);
        return Ok(());
    }
    if due.is_empty() {
        return Ok(());
    }
    service.audit.listen_to(Asker::Grace);
    release_all(rt, service, view, due, wide);
    service.audit.listen_to(Asker::Client);
    persister.persist(&mut service.service)
}

/// Ends the stays that are due at this tick, and no others: by events of the service (`release_all`), which are kept like all that it tells; or by the
/// persister, where other servers share the stays.
///
/// # Errors
///
/// - `Memory`: an allocation failed, and nothing was ended.
/// - `Persist`: the fault of what keeps.
pub fn end_due<R, D: Service<R>, K: Persist<D>>(
    rt: &R,
    alloc: Global,
    service: &mut Attended<D>,
    persister: &mut K,
    view: &mut View,
    wide: bool,
    grace: u64,
    tick: u64,
) -> Result<(), HostFault<K::Fault>>
    requires { (q : Request) → D.knows q ≡ true }
    ensures { OnOk result (EndsDue wide D.may K.persists K.waits K.shares K.holds
        (all_due grace tick service.old.stays) persister.old service.old persister.new service.new) }
{
    let Ok(due) = service.stays.due(alloc, grace, tick) else {
        return Err(HostFault::Memory);
    };
    match end_these(rt, service, persister, view, &due, wide) {
        Ok(()) => Ok(()),
        Err(fault) => Err(HostFault::Persist(fault)),
    }
}

/// A law, which runs nothing, of stays that are released (`release`, `release_all`, and `end_due` where they are not shared).
///
/// Of each service that frees whoever its replies to `leave` say is free, and by whose `leave`, `probe` and `seek` nobody enters: once identities
/// were released, each of them does not compete, unless its own release ended in a `leave` whose reply frees nobody.
pub fn law_of_releases<R, D: Service<R>>()
    ensures { (wide : Bool) → ReleasesFree wide D.may }
{}
