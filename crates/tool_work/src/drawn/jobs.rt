//! Drawn runs by many threads.

ghost use Rattle.std.specs.Prelude.{◌≡◌, ◌<◌, ◌≤◌, ◌+◌, ◌^◌, ℕ, Option, true, length, slice_index_or};
ghost use Rattle.model_asked.specs.Config.{gives_names};
ghost use Rattle.text_player.specs.Played.{writing};
ghost use Rattle.tool_work.specs.drawn.Runs.{HasDrawnInto, IsReportedOf, MayBeDrawn};
ghost use Rattle.tool_work.specs.declared.drawn.tally.Tally.{Tally};

use crate::drawn::runs::{play_schedules, play_share, write_tallies};
use crate::drawn::schedule::Schedule;
use crate::drawn::tally::Tally;
use model_asked::Config;
use std::alloc::Global;
use std::thread;
use std::thread::Threads;
use text_player::{Fault, Sink};

/// The most threads.
pub const MOST_JOBS: u64 = 64;

// The number of threads for `asked`: if that is 0, as many as processors, or one if their number is not known.
fn jobs_for<R: Threads>(rt: &R, asked: u64) -> u64
    ensures { (1 ≤ result) × (result ≤ 64) }
{
    let jobs = match asked {
        0 => match thread::available_parallelism(rt) {
            Ok(count) => count.get() as u64,
            Err(_) => 1,
        },
        _ => asked,
    };
    jobs.min(MOST_JOBS)
}

// Plays drawn schedules, one for each of these places, and puts the numbers of each into its place. Each thread has `share` places in a row.
fn play_shares<R: Threads + Sync>(
    rt: &R,
    alloc: Global,
    share: usize,
    plan: Schedule,
    config: Config,
    tallies: &mut [Option<Tally>],
)
    requires share { 0 < share }
    requires names { gives_names config.world ≡ true }
    requires steps { plan.steps + 64 < 2 ^ 64 }
    requires long { length tallies.old < 2 ^ 64 }
    ensures reported { (i : ℕ) (d : Option Tally) → i < length tallies.old →
        IsReportedOf config plan.seed plan.ids plan.steps i (slice_index_or tallies.new i d) }
    ensures len { length tallies.new ≡ length tallies.old }
{
    thread::for_each_chunk_mut(
        rt,
        tallies,
        share,
        &|first, part| play_share(alloc, plan, config, first as u64, part),
    );
}

/// Plays drawn schedules and writes their lines, as `play_schedules` does, with the runs shared among `jobs` threads.
///
/// There are at most 64 threads. If `jobs` is 0, there are as many as processors. Each thread plays consecutive runs in
/// memory of its own. Not proved: how many threads there are, and that they run at the same time.
///
/// # Errors
///
/// - `Memory`: an allocation failed. No write failed.
/// - `Write`: a write failed or took no byte. A prefix of the lines is written.
pub fn play_drawn_by<R: Threads + Sync, W: Sink>(
    rt: &R,
    alloc: Global,
    jobs: u64,
    plan: Schedule,
    runs: u64,
    config: Config,
    writer: &mut W,
) -> Result<(), Fault>
    requires { MayBeDrawn config plan.steps (W.calls writer.old) }
    ensures { HasDrawnInto config plan.seed plan.ids plan.steps runs (writing W.contents W.failed writer.old writer.new) result }
{
    let jobs = jobs_for(rt, jobs);
    if jobs == 1 {
        return play_schedules(alloc, plan, runs, config, writer);
    }
    let Ok(mut tallies) = Vec::from_elem(alloc, None, runs as usize) else {
        return Err(Fault::Memory);
    };
    let share = (runs.saturating_sub(1) / jobs) as usize + 1;
    play_shares(rt, alloc, share, plan, config, tallies.as_mut_slice());
    write_tallies(alloc, tallies.as_slice(), writer)
}
