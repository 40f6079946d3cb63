//! Schedules and runs by plain numbers, for callers that have no `Schedule`.

ghost use Rattle.std.specs.Prelude.{◌≡◌, ◌<◌, ◌≤◌, ◌+◌, ◌^◌, ◌⊎◌, true, Err, IfErr, OnOk};
ghost use Rattle.std.specs.Io.KnownBytes.{Appends};
ghost use Rattle.text_lines.specs.Events.{event_lines};
ghost use Rattle.text_lines.specs.Written.{HasPartOf};
ghost use Rattle.text_player.specs.Played.{writing};
ghost use Rattle.tool_work.specs.drawn.Runs.{HasDrawnInto, MayBeDrawn};
ghost use Rattle.tool_work.specs.drawn.Schedule.{schedule};

use crate::drawn::runs::play_schedules;
use crate::drawn::schedule::{Schedule, draw_schedule};
use model_asked::Config;
use std::alloc::Allocator;
use text_player::{Fault, Sink};

/// Writes the schedule of a seed as lines, as `draw_schedule` does: `ids` identities begin, and then `steps` steps are
/// taken.
///
/// # Errors
///
/// - `Memory`: an allocation failed. Nothing was written.
/// - `Write`: a write failed or took no byte. A prefix of the text is written.
pub fn draw<A: Allocator, W: Sink>(
    alloc: A,
    seed: u64,
    ids: u64,
    steps: u64,
    writer: &mut W,
) -> Result<(), Fault>
    requires ids { (1 ≤ ids) × (ids ≤ 64) }
    requires writes { W.calls writer.old < 2 ^ 64 }
    ensures ok { OnOk result (Appends (W.contents writer.old) (W.contents writer.new) (event_lines (schedule seed ids steps))) }
    ensures unfailed { OnOk result (W.failed writer.new ≡ W.failed writer.old) }
    ensures part { result ≡ Err Fault.Write → HasPartOf (W.contents writer.old) (W.contents writer.new) (event_lines (schedule seed ids steps)) }
    ensures failed { result ≡ Err Fault.Write → W.failed writer.old < W.failed writer.new }
    ensures memory { result ≡ Err Fault.Memory → writer.new ≡ writer.old }
    ensures only { IfErr result (λ fault. (fault ≡ Fault.Write) ⊎ (fault ≡ Fault.Memory)) }
{
    draw_schedule(alloc, Schedule { seed, ids, steps }, writer)
}

/// Plays the schedules of `runs` seeds, from `seed` on, and writes a line for each run, as `play_schedules` does.
///
/// # Errors
///
/// - `Memory`: an allocation failed, or the reset of the arena did. No write failed.
/// - `Write`: a write failed or took no byte. A prefix of the lines is written.
pub fn play_drawn<A: Allocator + Clone, W: Sink>(
    alloc: A,
    seed: u64,
    ids: u64,
    steps: u64,
    runs: u64,
    config: Config,
    writer: &mut W,
) -> Result<(), Fault>
    requires ids { (1 ≤ ids) × (ids ≤ 64) }
    requires drawn { MayBeDrawn config steps (W.calls writer.old) }
    ensures { HasDrawnInto config seed ids steps runs (writing W.contents W.failed writer.old writer.new) result }
{
    play_schedules(alloc, Schedule { seed, ids, steps }, runs, config, writer)
}
