//! Worlds of every size over segments in a row, and two participants there. Those over a grid and over a tree are tried where they are
//! played as lines, in `tests_tool` and by `tests/program`.

use crate::common::{Reported, holds, lent, same, view_of};
use model_asked::{Config, WorldKind};
use model_renaming::{RenameWorld, next_proposal};
use model_snapshot::Fixed;
use model_steps::Refusal;
use std::alloc::Global;

/// A world over segments in a row.
type Row = RenameWorld<Fixed<Global>, Global>;

/// A new world for so many.
fn world_for(alloc: Global, most: u64) -> Result<Row, Refusal> {
    let config = Config::new(WorldKind::Rename, most, 4, 2)?;
    RenameWorld::new(alloc, config)
}

/// Takes so many steps.
fn take_steps(world: &mut Row, id: u64, steps: u64) {
    for _ in 0..steps {
        let _ = world.step(id);
    }
}

/// Who makes so many steps: each proposes 1, sees that the other does, proposes another number, and is named.
const TURNS: [(u64, u64); 10] = [
    (10, 4),
    (20, 4),
    (10, 1),
    (20, 1),
    (10, 4),
    (20, 4),
    (10, 5),
    (20, 5),
    (10, 4),
    (20, 4),
];

/// Whether two, of whom the second to begin steps first, have names by what they proposed last.
fn two_go(world: &mut Row) -> bool {
    let begun = [world.begin(20), world.begin(10)];
    for (id, steps) in &TURNS {
        take_steps(world, *id, *steps);
    }
    let names = [world.name_of(10), world.name_of(20)];
    let is_proposed = world.proposals() == view_of(&[(10, 2), (20, 3)]);
    begun == [Ok(()), Ok(())] && names == [Some(2), Some(3)] && is_proposed
}

#[test]
fn two_over_segments_in_a_row(rt: HostRuntime) {
    same(&rt, 2, lent(world_for(rt.alloc(), 2), two_go), Ok(true));
}

#[test]
fn worlds_of_every_size(rt: HostRuntime) {
    for most in 0..18u64 {
        let due = if most == 0 || most == 17 {
            Err(Refusal::OutOfRange)
        } else {
            Ok(true)
        };
        let reported = lent(world_for(rt.alloc(), most), |world| world.begin(7).is_ok());
        same(&rt, most as usize, reported, due);
    }
}

#[test]
fn the_next_proposal_of_each_rank(rt: HostRuntime) {
    let view = view_of(&[(10, 1), (20, 1), (30, 4)]);
    for (i, id) in [10, 20, 30].iter().enumerate() {
        holds(&rt, i, next_proposal(&view, *id) == 2 + i as u64);
    }
}

/// The least round limits under which nobody of so many participants can be spent, from 1 on.
const LEAST_LIMITS: [u64; 9] = [3, 11, 48, 236, 1_173, 5_861, 29_298, 146_486, 732_423];

/// Whether nobody of so many can be spent under a round limit.
fn cannot_spend(most: u64, limit: u64) -> Reported {
    let config = Config::new(WorldKind::Rename, most, 4, limit)?;
    Ok(config.cannot_spend())
}

#[test]
fn limits_under_which_nobody_is_spent(rt: HostRuntime) {
    for (i, least) in LEAST_LIMITS.iter().enumerate() {
        same(&rt, i, cannot_spend(i as u64 + 1, *least), Ok(true));
        same(
            &rt,
            i,
            cannot_spend(i as u64 + 1, least.saturating_sub(1)),
            Ok(false),
        );
    }
    same(&rt, 9, cannot_spend(10, 1_000_000), Ok(false));
}
