//! Walks down a tree, collects of what was stored there, and how deep it goes.

use crate::common::{holds, lent, same, view_of};
use model_splitter::tree::{Tree, TreeRegister, TreeValue, TreeWorld};
use model_steps::{Access, Place, Refusal, StepMemory, View};
use std::alloc::Global;

/// Takes so many steps of a walk: what the last answers.
fn walked(world: &mut TreeWorld<Global>, id: u64, steps: u64) -> Result<Option<Place>, Refusal> {
    for _ in 1..steps {
        let _ = world.step(id);
    }
    world.step(id)
}

/// Begins a collect and takes so many steps of it: what the last answers.
fn collected(world: &mut TreeWorld<Global>, id: u64, steps: u64) -> Result<Option<View>, Refusal> {
    world.collect_begin(id)?;
    for _ in 1..steps {
        let _ = world.collect_step(id);
    }
    world.collect_step(id)
}

/// Whether two come to their places, and each collects what was stored before.
fn two_collect(world: &mut TreeWorld<Global>) -> bool {
    let begun = [world.begin(20), world.begin(10)];
    let placed = [walked(world, 10, 5), walked(world, 20, 8)];
    let first = (world.store(10, 7), collected(world, 20, 7));
    let second = (world.store(20, 8), collected(world, 10, 7));
    begun == [Ok(()), Ok(())]
        && placed == [Ok(Some(1)), Ok(Some(3))]
        && first == (Ok(()), Ok(Some(view_of(&[(10, 7)]))))
        && second == (Ok(()), Ok(Some(view_of(&[(10, 7), (20, 8)]))))
}

#[test]
fn two_collect_what_was_stored(rt: HostRuntime) {
    let world = TreeWorld::new(rt.alloc(), 2);
    same(&rt, 2, lent(world, two_collect), Ok(true));
}

/// Whether one alone collects what it stored in four steps, and a fifth is refused.
fn collects_alone(world: &mut TreeWorld<Global>) -> bool {
    let asked = [world.store(10, 5), world.collect_begin(10)];
    let quiet = [
        world.collect_step(10),
        world.collect_step(10),
        world.collect_step(10),
    ];
    let shown = world.collect_step(10);
    asked == [Ok(()), Ok(())]
        && quiet == [Ok(None), Ok(None), Ok(None)]
        && shown == Ok(Some(view_of(&[(10, 5)])))
        && world.collect_step(10) == Err(Refusal::Finished)
}

/// Whether one on its way, and one that has not begun, neither store nor collect.
fn are_refused(world: &mut TreeWorld<Global>) -> bool {
    let on_its_way = [world.store(20, 1), world.collect_begin(20)];
    let not_begun = [world.store(30, 1), world.collect_begin(30)];
    on_its_way == [Err(Refusal::AlreadyBegun), Err(Refusal::AlreadyBegun)]
        && not_begun == [Err(Refusal::NotBegun), Err(Refusal::NotBegun)]
}

/// Whether one alone has a place within five steps, and then collects, beside another that only begins.
fn one_collects(world: &mut TreeWorld<Global>) -> bool {
    let begun = [world.begin(10), world.begin(20)];
    begun == [Ok(()), Ok(())]
        && walked(world, 10, 5) == Ok(Some(1))
        && collects_alone(world)
        && are_refused(world)
}

#[test]
fn one_alone_collects_in_four_steps(rt: HostRuntime) {
    let world = TreeWorld::new(rt.alloc(), 2);
    same(&rt, 1, lent(world, one_collects), Ok(true));
}

/// Whether each goes right of those before it, from node 1 to node 2^64 - 1, and no further.
fn go_right(world: &mut TreeWorld<Global>) -> bool {
    for passed in 0..64u64 {
        let id = passed.saturating_add(1);
        let _ = world.begin(id);
        let place = Place::from(u64::MAX >> (63 - passed));
        let reported = walked(world, id, passed.saturating_mul(3).saturating_add(5));
        if reported != Ok(Some(place)) || world.step(id) != Err(Refusal::Finished) {
            return false;
        }
    }
    true
}

#[test]
fn sixty_four_down_the_deepest_walk(rt: HostRuntime) {
    let world = TreeWorld::new(rt.alloc(), 64);
    same(&rt, 64, lent(world, go_right), Ok(true));
}

#[test]
fn as_deep_as_numbers_go(rt: HostRuntime) {
    let mut tree = Tree::new(rt.alloc());
    let mut are_marked = true;
    for depth in 0..128u32 {
        let access = Access::Write(TreeRegister::Mark(1 << depth), TreeValue::Word(1));
        are_marked = tree.access(access).is_ok() && are_marked;
    }
    let deepest = 1u128 << 127;
    let is_there = tree.registers_at(deepest).is_some();
    holds(
        &rt,
        128,
        are_marked && is_there && tree.registers_at(deepest + 1).is_none(),
    );
}
