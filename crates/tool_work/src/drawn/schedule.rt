//! Schedules that are drawn.

ghost use Rattle.std.specs.Prelude.{◌≡◌, ◌<◌, ◌≤◌, ◌+◌, ◌*◌, ◌%◌, ◌^◌, ◌⊎◌, [], ◌∷◌, ◌++◌, Err, length, IfErr, OnOk, OnErr};
ghost use Rattle.std.specs.Io.KnownBytes.{Appends};
ghost use Rattle.rand_pcg.specs.Pcg.{pcg32};
ghost use Rattle.tool_work.specs.drawn.Schedule.{begins_from, opened, schedule, steps_drawn};
ghost use Rattle.text_lines.specs.Events.{event_lines, event_words};
ghost use Rattle.text_lines.specs.UnderWay.{GoesPast, StopsWithin};
ghost use Rattle.text_lines.specs.Written.{HasPartOf};

use model_asked::Event;
use rand_core::SeedableRng;
use rand_core::utils::NextWord;
use rand_pcg::Lcg64Xsh32;
use std::alloc::Allocator;
use text_player::{EVENT_ROOM, Fault, Replies, Sink, print_event};

/// The most bytes of an event's line, its LF included.
const LINE_ROOM: usize = EVENT_ROOM + 1;

/// A drawn schedule: the identities from 1 to `ids` begin, and then `steps` steps are taken.
///
/// Each step is that of the identity which the next word of the seed's generator gives.
#[derive(Clone, Copy, Debug, Drop, PartialEq, Eq)]
pub struct Schedule {
    /// The seed of the generator.
    pub seed: u64,
    /// The number of identities that begin, from 1 to 64.
    pub ids: u64,
    /// The number of steps.
    pub steps: u64,
    ghost some: { 1 ≤ ids },
    ghost few: { ids ≤ 64 },
}

/// The generator of a seed.
pub(crate) fn generator(seed: u64) -> Lcg64Xsh32
    ensures { result ≡ opened seed }
{
    Lcg64Xsh32::seed_from_u64(seed)
}

/// The identity that steps next, by the generator's next word.
pub(crate) fn draw_one(words: &mut Lcg64Xsh32, ids: u64) -> u64
    requires some { 1 ≤ ids }
    requires few { ids ≤ 64 }
    ensures word { result ≡ 1 + (pcg32 words.old).0 % ids }
    ensures step { words.new ≡ (pcg32 words.old).1 }
    ensures most { result ≤ ids }
{
    1 + u64::from(words.next_word()) % ids
}

/// Appends the line of an event. If it has no room, what is held is written first.
fn put_line<A: Allocator, W: Sink>(
    event: Event,
    held: &mut Replies<A>,
    writer: &mut W,
) -> Result<(), Fault>
    requires { W.calls writer.old + length held.old ≤ 2 ^ 100 }
    ensures on { OnOk result (GoesPast (event_words event ++ 10 ∷ []) (W.contents writer.old) held.old (W.contents writer.new) held.new) }
    ensures within { OnErr result (StopsWithin (event_words event ++ 10 ∷ []) (W.contents writer.old) held.old (W.contents writer.new)) }
    ensures only { IfErr result (λ fault. fault ≡ Fault.Write) }
    ensures failed { OnErr result (W.failed writer.old < W.failed writer.new) }
    ensures unfailed { OnOk result (W.failed writer.new ≡ W.failed writer.old) }
    ensures calls { OnOk result (W.calls writer.new + length held.new ≤ W.calls writer.old + length held.old + LINE_ROOM) }
{
    held.make_room(LINE_ROOM, writer)?;
    print_event(event, held);
    held.put(b"\n");
    Ok(())
}

/// Appends the lines of the participants that begin.
fn draw_begins<A: Allocator, W: Sink>(
    ids: u64,
    held: &mut Replies<A>,
    writer: &mut W,
) -> Result<(), Fault>
    requires few { ids ≤ 64 }
    requires calls { W.calls writer.old + length held.old + LINE_ROOM * ids ≤ 2 ^ 100 }
    ensures on { OnOk result (GoesPast (event_lines (begins_from 1 ids)) (W.contents writer.old) held.old (W.contents writer.new) held.new) }
    ensures within { OnErr result (StopsWithin (event_lines (begins_from 1 ids)) (W.contents writer.old) held.old (W.contents writer.new)) }
    ensures only { IfErr result (λ fault. fault ≡ Fault.Write) }
    ensures failed { OnErr result (W.failed writer.old < W.failed writer.new) }
    ensures unfailed { OnOk result (W.failed writer.new ≡ W.failed writer.old) }
    ensures calls { OnOk result (W.calls writer.new + length held.new ≤ W.calls writer.old + length held.old + LINE_ROOM * ids) }
{
    for before in 0..ids {
        put_line(Event::Begin(before + 1), held, writer)?;
    }
    Ok(())
}

/// Appends the lines of the steps.
fn draw_steps<A: Allocator, W: Sink>(
    plan: Schedule,
    held: &mut Replies<A>,
    writer: &mut W,
) -> Result<(), Fault>
    requires calls { W.calls writer.old + length held.old + LINE_ROOM * plan.steps ≤ 2 ^ 100 }
    ensures on { OnOk result (GoesPast (event_lines (steps_drawn plan.ids plan.steps (opened plan.seed)))
        (W.contents writer.old) held.old (W.contents writer.new) held.new) }
    ensures within { OnErr result (StopsWithin (event_lines (steps_drawn plan.ids plan.steps (opened plan.seed)))
        (W.contents writer.old) held.old (W.contents writer.new)) }
    ensures only { IfErr result (λ fault. fault ≡ Fault.Write) }
    ensures failed { OnErr result (W.failed writer.old < W.failed writer.new) }
    ensures unfailed { OnOk result (W.failed writer.new ≡ W.failed writer.old) }
    ensures calls { OnOk result (W.calls writer.new + length held.new ≤ W.calls writer.old + length held.old + LINE_ROOM * plan.steps) }
{
    let mut words = generator(plan.seed);
    for _done in 0..plan.steps {
        put_line(Event::Step(draw_one(&mut words, plan.ids)), held, writer)?;
    }
    Ok(())
}

/// Writes a schedule: `begin 1` to `begin ids`, and then `steps` lines `step I`.
///
/// `I` is one more than the next word of the generator `Lcg64Xsh32` of the seed, modulo `ids`.
///
/// # Errors
///
/// - `Memory`: an allocation failed. Nothing was written.
/// - `Write`: a write failed or took no byte. A prefix of the text is written.
pub fn draw_schedule<A: Allocator, W: Sink>(
    alloc: A,
    plan: Schedule,
    writer: &mut W,
) -> Result<(), Fault>
    requires writes { W.calls writer.old < 2 ^ 64 }
    ensures ok { OnOk result (Appends (W.contents writer.old) (W.contents writer.new) (event_lines (schedule plan.seed plan.ids plan.steps))) }
    ensures unfailed { OnOk result (W.failed writer.new ≡ W.failed writer.old) }
    ensures part { result ≡ Err Fault.Write →
        HasPartOf (W.contents writer.old) (W.contents writer.new) (event_lines (schedule plan.seed plan.ids plan.steps)) }
    ensures failed { result ≡ Err Fault.Write → W.failed writer.old < W.failed writer.new }
    ensures memory { result ≡ Err Fault.Memory → writer.new ≡ writer.old }
    ensures only { IfErr result (λ fault. (fault ≡ Fault.Write) ⊎ (fault ≡ Fault.Memory)) }
{
    let Ok(mut held) = Replies::new(alloc) else {
        return Err(Fault::Memory);
    };
    draw_begins(plan.ids, &mut held, writer)?;
    draw_steps(plan, &mut held, writer)?;
    held.send(writer)
}
