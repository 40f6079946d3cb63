//! What is drawn of a seed, to any writer.

ghost use Rattle.std.specs.Prelude.{◌<◌, ◌^◌};
ghost use Rattle.text_player.specs.Played.{writing};
ghost use Rattle.tool_work.specs.Done.{IsDrawnBy};

use crate::Drawing;
use crate::drawn::{Schedule, draw_schedule, play_drawn_by};
use std::alloc::Global;
use std::thread::Threads;
use text_player::{Fault, Sink};

/// Writes what is drawn, and returns 0. It is a schedule, or the lines of runs, which threads share.
///
/// # Errors
///
/// An error leaves a prefix of the drawing written.
///
/// - `Write`: the writer failed or took no byte.
/// - `Memory`: an allocation failed.
pub fn draw_for<T: Threads + Sync, W: Sink>(
    rt: &T,
    alloc: Global,
    drawing: Drawing,
    writer: &mut W,
) -> Result<u8, Fault>
    requires { W.calls writer.old < 2 ^ 64 }
    ensures { IsDrawnBy drawing (writing W.contents W.failed writer.old writer.new) result }
{
    let Drawing {
        seed,
        ids,
        steps,
        runs,
        jobs,
        config,
    } = drawing;
    let plan = Schedule { seed, ids, steps };
    if runs == 0 {
        draw_schedule(alloc, plan, writer)?;
    } else {
        play_drawn_by(rt, alloc, jobs, plan, runs, config, writer)?;
    }
    Ok(0)
}
