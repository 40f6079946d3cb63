//! Runs of drawn schedules.

ghost use Rattle.std.specs.Prelude.{◌≡◌, ◌<◌, ◌≤◌, ◌+◌, ◌^◌, [], ◌∷◌, ◌++◌, ℕ, List, Option, length, true, slice_index_or, IfOk, IfErr, OnOk, OnErr};
ghost use Rattle.std.specs.Io.KnownBytes.{Appends};
ghost use Rattle.model_asked.specs.declared.config.Config.{Config};
ghost use Rattle.model_asked.specs.declared.exchange.Exchange.{Exchange};
ghost use Rattle.model_asked.specs.Config.{gives_names};
ghost use Rattle.text_player.specs.Played.{writing};
ghost use Rattle.text_worlds.specs.desk.Desk.{IsFreshDesk};
ghost use Rattle.tool_work.specs.drawn.Schedule.{begins_from, opened, steps_drawn};
ghost use Rattle.tool_work.specs.drawn.Runs.{AreReported, HasDrawn, HasDrawnInto, HasDrawnPart, IsDrawnRun, IsReportedOf, MayBeDrawn, PlaysFrom, TellsWrites, numbers_line};
ghost use Rattle.tool_work.specs.drawn.Tally.{IsTallyOf};
ghost use Rattle.tool_work.specs.declared.drawn.tally.Tally.{Tally};

use crate::drawn::schedule::{Schedule, draw_one, generator};
use crate::drawn::tally::Tally;
use bumpalo::Bump;
use model_asked::{Config, Event, Reply};
use model_steps::{Refusal, View};
use std::alloc::Allocator;
use text_player::{Fault, HELD_REPLIES, Replies, Sink, put_word};
use text_worlds::desk::Desk;

/// The most bytes of a run's line, its LF included.
const LINE_ROOM: usize = 106;

/// Takes one event and counts it; `Memory` if an allocation failed.
#[inline(always)]
fn take<A: Allocator + Clone>(
    desk: &mut Desk<A>,
    event: Event,
    view: &mut View,
    tally: &mut Tally,
) -> Result<(), Fault>
    requires begun { tally.old.begun + 1 < 2 ^ 64 }
    requires named { tally.old.named + 1 < 2 ^ 64 }
    requires spent { tally.old.spent + 1 < 2 ^ 64 }
    ensures on { OnOk result (PlaysFrom (event ∷ []) desk.old tally.old [] desk.new tally.new) }
    ensures only { IfErr result (λ fault. fault ≡ Fault.Memory) }
    ensures begun { tally.new.begun ≤ tally.old.begun + 1 }
    ensures named { tally.new.named ≤ tally.old.named + 1 }
    ensures spent { tally.new.spent ≤ tally.old.spent + 1 }
{
    let reply = desk.apply_short(event, view);
    if reply == Reply::Refused(Refusal::NoMemory) {
        return Err(Fault::Memory);
    }
    tally.count(event, reply);
    Ok(())
}

/// The identities from 1 to `ids` begin. It is a function of its own, so that a step clears no room for a participant.
#[inline(never)]
fn take_begins<A: Allocator + Clone>(
    desk: &mut Desk<A>,
    ids: u64,
    tally: &mut Tally,
) -> Result<(), Fault>
    requires few { ids ≤ 64 }
    requires begun { tally.old.begun + ids < 2 ^ 64 }
    requires named { tally.old.named + ids < 2 ^ 64 }
    requires spent { tally.old.spent + ids < 2 ^ 64 }
    ensures on { OnOk result (PlaysFrom (begins_from 1 ids) desk.old tally.old [] desk.new tally.new) }
    ensures only { IfErr result (λ fault. fault ≡ Fault.Memory) }
    ensures begun { tally.new.begun ≤ tally.old.begun + ids }
    ensures named { tally.new.named ≤ tally.old.named + ids }
    ensures spent { tally.new.spent ≤ tally.old.spent + ids }
{
    let mut view = View::new();
    for before in 0..ids {
        take(desk, Event::Begin(before + 1), &mut view, tally)?;
    }
    Ok(())
}

/// Takes the steps, as the generator's words say.
fn take_steps<A: Allocator + Clone>(
    desk: &mut Desk<A>,
    plan: Schedule,
    tally: &mut Tally,
) -> Result<(), Fault>
    requires begun { tally.old.begun + plan.steps < 2 ^ 64 }
    requires named { tally.old.named + plan.steps < 2 ^ 64 }
    requires spent { tally.old.spent + plan.steps < 2 ^ 64 }
    ensures on { OnOk result (PlaysFrom (steps_drawn plan.ids plan.steps (opened plan.seed)) desk.old tally.old [] desk.new tally.new) }
    ensures only { IfErr result (λ fault. fault ≡ Fault.Memory) }
{
    let mut words = generator(plan.seed);
    let mut view = View::new();
    for _done in 0..plan.steps {
        take(
            desk,
            Event::Step(draw_one(&mut words, plan.ids)),
            &mut view,
            tally,
        )?;
    }
    Ok(())
}

/// Plays a schedule on a fresh desk. It is a function of its own, since each way out of a desk's owner drops the desk.
fn play_on<A: Allocator + Clone>(desk: &mut Desk<A>, plan: Schedule) -> Result<Tally, Fault>
    requires steps { plan.steps + 64 < 2 ^ 64 }
    ensures drawn { (config : Config) → IsFreshDesk config desk.old →
        IfOk result (λ t. (r : List Exchange) × IsDrawnRun config plan.seed plan.ids plan.steps r × IsTallyOf r t) }
    ensures only { IfErr result (λ fault. fault ≡ Fault.Memory) }
{
    let mut tally = Tally::new();
    take_begins(desk, plan.ids, &mut tally)?;
    take_steps(desk, plan, &mut tally)?;
    Ok(tally)
}

/// Plays a schedule on a fresh desk in this memory.
fn play_one<A: Allocator + Clone>(alloc: A, plan: Schedule, config: Config) -> Result<Tally, Fault>
    requires names { gives_names config.world ≡ true }
    requires steps { plan.steps + 64 < 2 ^ 64 }
    ensures drawn { IfOk result (λ t. (r : List Exchange) × IsDrawnRun config plan.seed plan.ids plan.steps r × IsTallyOf r t) }
    ensures only { IfErr result (λ fault. fault ≡ Fault.Memory) }
{
    let Ok(mut desk) = Desk::new(alloc, config) else {
        return Err(Fault::Memory);
    };
    let tally = play_on(&mut desk, plan);
    drop(desk);
    tally
}

/// Plays a schedule as `play_one` does, in an arena, and resets the arena.
fn play_in_arena<A: Allocator>(
    arena: &mut Bump<A>,
    plan: Schedule,
    config: Config,
) -> Result<Tally, Fault>
    requires names { gives_names config.world ≡ true }
    requires steps { plan.steps + 64 < 2 ^ 64 }
    ensures drawn { IfOk result (λ t. (r : List Exchange) × IsDrawnRun config plan.seed plan.ids plan.steps r × IsTallyOf r t) }
    ensures only { IfErr result (λ fault. fault ≡ Fault.Memory) }
{
    let tally = play_one(&*arena, plan, config)?;
    match arena.reset() {
        Ok(()) => Ok(tally),
        Err(_) => Err(Fault::Memory),
    }
}

/// Appends the line of a run.
fn put_run<A: Allocator>(run: u64, tally: Tally, held: &mut Replies<A>)
    requires { length held.old + LINE_ROOM ≤ HELD_REPLIES }
    ensures text { held.new ≡ held.old ++ numbers_line run tally.begun tally.named tally.spent }
    ensures short { length held.new ≤ length held.old + LINE_ROOM }
{
    put_word(b"run ", run, held);
    put_word(b" begun ", tally.begun, held);
    put_word(b" named ", tally.named, held);
    put_word(b" spent ", tally.spent, held);
    held.put(b"\n");
}

/// Plays drawn schedules, each on a fresh desk, and writes a line for each run: `run J begun B named N spent S`.
///
/// Run `J`, from 0, has the seed `plan.seed + J` modulo 2^64. `B` participants have begun, `N` were named and `S` were
/// spent. The memory of a run is given back before the next.
///
/// # Errors
///
/// - `Memory`: an allocation failed. No write failed.
/// - `Write`: a write failed or took no byte. A prefix of the lines is written.
pub fn play_schedules<A: Allocator + Clone, W: Sink>(
    alloc: A,
    plan: Schedule,
    runs: u64,
    config: Config,
    writer: &mut W,
) -> Result<(), Fault>
    requires { MayBeDrawn config plan.steps (W.calls writer.old) }
    ensures { HasDrawnInto config plan.seed plan.ids plan.steps runs (writing W.contents W.failed writer.old writer.new) result }
{
    let Ok(other) = alloc.clone() else {
        return Err(Fault::Memory);
    };
    let Ok(mut held) = Replies::new(other) else {
        return Err(Fault::Memory);
    };
    let mut arena = Bump::new(alloc);
    for run in 0..runs {
        let next = Schedule {
            seed: plan.seed.wrapping_add(run),
            ids: plan.ids,
            steps: plan.steps,
        };
        let tally = play_in_arena(&mut arena, next, config)?;
        held.make_room(LINE_ROOM, writer)?;
        put_run(run, tally, &mut held);
    }
    held.send(writer)
}

/// Plays a share of the schedules, from number `first` on, and puts the numbers of each run into its place.
///
/// The place of a run is `None` if an allocation failed.
pub(crate) fn play_share<A: Allocator + Clone>(
    alloc: A,
    plan: Schedule,
    config: Config,
    first: u64,
    tallies: &mut [Option<Tally>],
)
    requires names { gives_names config.world ≡ true }
    requires steps { plan.steps + 64 < 2 ^ 64 }
    requires last { first + length tallies.old < 2 ^ 64 }
    ensures { (i : ℕ) (d : Option Tally) → i < length tallies.old →
        IsReportedOf config plan.seed plan.ids plan.steps (first + i) (slice_index_or tallies.new i d) }
{
    let mut arena = Bump::new(alloc);
    for i in 0..tallies.len() {
        let next = Schedule {
            seed: plan.seed.wrapping_add(first + i as u64),
            ids: plan.ids,
            steps: plan.steps,
        };
        tallies[i] = play_in_arena(&mut arena, next, config).ok();
    }
}

/// Writes the line of each run from number 0 on, as `play_schedules` does.
///
/// `Memory` if a run has no numbers, `Write` if a write failed or took no byte: then a prefix of the lines is written.
pub(crate) fn write_tallies<A: Allocator, W: Sink>(
    alloc: A,
    tallies: &[Option<Tally>],
    writer: &mut W,
) -> Result<(), Fault>
    requires writes { W.calls writer.old < 2 ^ 64 }
    ensures ok { OnOk result ((config : Config) (seed ids n : ℕ) → AreReported config seed ids n tallies.now →
        HasDrawn config seed ids n (length tallies.now) (Appends (W.contents writer.old) (W.contents writer.new))) }
    ensures part { OnErr result ((config : Config) (seed ids n : ℕ) → AreReported config seed ids n tallies.now →
        HasDrawnPart config seed ids n (length tallies.now) (W.contents writer.old) (W.contents writer.new)) }
    ensures told { TellsWrites (W.failed writer.old) (W.failed writer.new) result }
{
    let Ok(mut held) = Replies::new(alloc) else {
        return Err(Fault::Memory);
    };
    for run in 0..tallies.len() {
        let Some(tally) = tallies[run] else {
            return Err(Fault::Memory);
        };
        held.make_room(LINE_ROOM, writer)?;
        put_run(run as u64, tally, &mut held);
    }
    held.send(writer)
}
