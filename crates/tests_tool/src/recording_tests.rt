//! A run whose record is written and checked. Crowds of many sizes are tried on the built program (`tests/records`).

ghost use Rattle.std.specs.Prelude.{◌≡◌, ◌≤◌, ◌⊎◌, true, IfOk};
ghost use Rattle.model_asked.specs.Config.{gives_names};
ghost use Rattle.text_checker.specs.Recorded.{events_in};

use model_asked::{Config, WorldKind};
use std::alloc::Global;
use std::process::Abort;
use text_checker::{Verdict, check, law_of_recording};
use text_worlds::{Fault, Tried, record};

/// The verdict on the record of the run of an input: `Yes` where it asks for at most a million events and memory is given.
fn checked_record(alloc: Global, config: Config, input: &[u8]) -> Result<Verdict, Fault>
    requires { gives_names config.world ≡ true }
    ensures { events_in config.world input.now ≤ 1000000 → IfOk result (λ v. (v ≡ Verdict.Yes) ⊎ (v ≡ Verdict.NoMemory)) }
{
    law_of_recording::<Tried<&[u8]>, Tried<Vec<u8>>>();
    let mut reader = Tried::new(input);
    let mut writer = Tried::new(Vec::new(alloc));
    record(alloc, &mut reader, &mut writer, config)?;
    let bytes = writer.into_inner();
    Ok(check(alloc, &bytes))
}

/// The run of an input, with so many numbers in the pool.
#[derive(Drop)]
struct Run {
    k: u64,
    input: &'static [u8],
}

/// Runs, of which the last two have a pool that gets more numbers, the last of which is held or free.
const RUNS: [Run; 3] = [
    Run {
        k: 4,
        input: b"begin 1\nbegin 20\nstep 1\nstep 3\nenter 20\nprobe 20\nput 20 5\nget 20\nowner 1\nno\nleave 20\nquit\nstep 1\n",
    },
    Run {
        k: 2,
        input: b"enter 5\nprobe 5\nenter 6\nprobe 6\nenter 7\nwiden 2\nwiden 4\nenter 7\nprobe 7\nprobe 7\nleave 6\nprobe 7\n\
                 enter 8\nprobe 8\nprobe 8\nenter 9\nprobe 9\nprobe 9\nprobe 9\nenter 10\nput 9 5\nget 9\nwiden 65\n",
    },
    Run {
        k: 1,
        input: b"enter 5\nwiden 2\nprobe 5\nenter 6\nprobe 6\n",
    },
];

/// The record of a run in this world is checked yes.
fn is_checked_yes(rt: &impl Abort, alloc: Global, world: WorldKind, run: &Run)
    requires { gives_names world ≡ true }
{
    let config = Config::new(world, 2, run.k, 1000).expect(rt, "a config");
    let verdict = checked_record(alloc, config, run.input);
    assert!(rt; verdict == Ok(Verdict::Yes), "{verdict:?}: {:?}", run.input);
}

#[test]
fn recorded_runs_are_checked_yes(rt: HostRuntime) {
    for run in &RUNS {
        is_checked_yes(&rt, rt.alloc(), WorldKind::Rename, run);
        is_checked_yes(&rt, rt.alloc(), WorldKind::Tree, run);
    }
}
