//! How the doors of a grid are numbered, walks one after another, and a walk as a program. Walks of several participants are tried
//! where they are played as lines, in `tests_tool`.

use crate::common::{holds, lent, same};
use model_splitter::grid::{Door, GridWorld, Walker};
use model_steps::{Access, Answer, Note, StepProgram};
use std::alloc::Global;

/// The place of one who begins and takes 64 steps, which are enough for any; none where it has none.
fn place_of_next(world: &mut GridWorld<Global>, id: u64) -> Option<u128> {
    let _ = world.begin(id);
    for _ in 0..64 {
        let _ = world.step(id);
    }
    world.place_of(id)
}

/// Whether each of 16 has the place of one who comes when all before it had theirs.
fn all_go(world: &mut GridWorld<Global>) -> bool {
    for id in 1..17u64 {
        if place_of_next(world, id) != Some(u128::from(id * (id - 1) / 2)) {
            return false;
        }
    }
    world.doors_entered() == 16
}

#[test]
fn sixteen_one_after_another(rt: HostRuntime) {
    let world = GridWorld::new(rt.alloc(), 16);
    same(&rt, 16, lent(world, all_go), Ok(true));
}

#[test]
fn doors_are_numbered_by_diagonals(rt: HostRuntime) {
    let right = Door::corner().right();
    let down = Door::corner().down();
    let doors = [
        (0, Door::corner()),
        (1, right),
        (2, down),
        (3, right.right()),
        (4, right.down()),
        (4, down.right()),
        (5, down.down()),
    ];
    for (k, door) in doors {
        let is_numbered = usize::from(door.number()) == k;
        holds(
            &rt,
            k,
            is_numbered && door.x() == 2 * k && door.y() == 2 * k + 1,
        );
    }
}

#[test]
fn a_walk_as_a_program(rt: HostRuntime) {
    let mut walker = Walker::new(9, Door::corner());
    let reported = [
        (walker.next(), walker.resume(Answer::Done)),
        (walker.next(), walker.resume(Answer::Value(1))),
    ];
    let due = [
        (Access::Write(0, 9), Note::Quiet),
        (Access::Read(1), Note::Quiet),
    ];
    holds(
        &rt,
        2,
        reported == due && walker.next() == Access::Write(2, 9),
    );
}
