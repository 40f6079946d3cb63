//! Trees whose heap is full when a node is to be made: the growth is refused, and the same step is served later. The nodes of a tree lie in a
//! table that grows for the first node and for the tenth.

use crate::common::holds;
use linked_list_allocator::LocalHeap;
use model_asked::{Config, WorldKind};
use model_renaming::RenameWorld;
use model_renaming::over::TreePlaces;
use model_splitter::tree::TreeWorld;
use model_steps::{Place, Refusal};
use std::alloc::{AllocError, Global};

/// Boxes of 16 bytes that take what a heap has left.
fn filling(alloc: Global, heap: &LocalHeap) -> Result<Vec<Box<[u64; 2], &LocalHeap>>, AllocError> {
    let mut boxes = Vec::new(alloc);
    for _ in 0..8_192 {
        if let Ok(filled) = Box::new(heap, [0u64; 2]) {
            boxes.push(filled)?;
        }
    }
    Ok(boxes)
}

/// A walk behind those of others: to the right at so many nodes, and then to this place.
#[derive(Clone, Copy)]
struct Walk {
    id: u64,
    rights: u64,
    place: Place,
}

impl Walk {
    /// How many steps it takes to the right: three a node.
    fn steps_right(self) -> u64 {
        self.rights.saturating_mul(3)
    }

    /// Whether the table grows for its node.
    fn grows(self) -> bool {
        self.rights == 0 || self.rights == 9
    }
}

/// How many of so many steps end no walk.
fn quiet<'a>(world: &mut TreeWorld<&'a LocalHeap>, id: u64, steps: u64) -> u64 {
    let mut quiet = 0u64;
    for _ in 0..steps {
        quiet = quiet.saturating_add(u64::from(world.step(id) == Ok(None)));
    }
    quiet
}

/// Whether a walk goes right, and is refused its node twice while the heap is full.
fn is_refused<'a>(
    alloc: Global,
    heap: &'a LocalHeap,
    world: &mut TreeWorld<&'a LocalHeap>,
    walk: Walk,
) -> Result<bool, AllocError> {
    let boxes = filling(alloc, heap)?;
    let has_gone = quiet(world, walk.id, walk.steps_right()) == walk.steps_right();
    let refused = [world.step(walk.id), world.step(walk.id)];
    let is_there = world.tree().registers_at(walk.place).is_some();
    drop(boxes);
    Ok(has_gone && refused == [Err(Refusal::NoMemory), Err(Refusal::NoMemory)] && !is_there)
}

/// Whether a walk goes to its place, and is refused its node before where the table grows.
fn goes<'a>(
    alloc: Global,
    heap: &'a LocalHeap,
    world: &mut TreeWorld<&'a LocalHeap>,
    walk: Walk,
) -> Result<bool, AllocError> {
    let has_gone = if walk.grows() {
        is_refused(alloc, heap, world, walk)?
    } else {
        quiet(world, walk.id, walk.steps_right()) == walk.steps_right()
    };
    Ok(
        has_gone
            && quiet(world, walk.id, 4) == 4
            && world.step(walk.id) == Ok(Some(walk.place))
            && world.tree().registers_at(walk.place).is_some(),
    )
}

#[test]
fn a_node_of_a_tree_that_was_refused_is_made_later(rt: HostRuntime) -> Result<(), Refusal> {
    let heap = LocalHeap::new(rt.alloc(), 131_072)?;
    let mut world = TreeWorld::new(&heap, 10)?;
    let mut place: Place = 1;
    for rights in 0..10u64 {
        let walk = Walk {
            id: rights.saturating_add(1),
            rights,
            place,
        };
        world.begin(walk.id)?;
        holds(
            &rt,
            rights as usize,
            goes(rt.alloc(), &heap, &mut world, walk) == Ok(true),
        );
        place = place.saturating_mul(2).saturating_add(1);
    }
    Ok(())
}

/// Names over a tree whose nodes are in a heap.
type Names<'a> = RenameWorld<TreePlaces<&'a LocalHeap>, &'a LocalHeap>;

/// Those who are named one after the other: the identity, how many steps it takes, and its name.
const NAMED: [(u64, u64, u64); 10] = [
    (1, 22, 1),
    (2, 66, 3),
    (3, 93, 5),
    (4, 120, 7),
    (5, 147, 9),
    (6, 174, 11),
    (7, 201, 13),
    (8, 228, 15),
    (9, 255, 17),
    (10, 282, 19),
];

/// How many of so many steps are accepted.
fn accepted<'a>(world: &mut Names<'a>, id: u64, steps: u64) -> u64 {
    let mut accepted = 0u64;
    for _ in 0..steps {
        accepted = accepted.saturating_add(u64::from(world.step(id).is_ok()));
    }
    accepted
}

/// Whether `id` takes so many steps, and is refused a node twice while the heap is full.
fn step_is_refused<'a>(
    alloc: Global,
    heap: &'a LocalHeap,
    world: &mut Names<'a>,
    id: u64,
    steps: u64,
) -> Result<bool, AllocError> {
    let boxes = filling(alloc, heap)?;
    let quiet = accepted(world, id, steps);
    let refused = [world.step(id).err(), world.step(id).err()];
    drop(boxes);
    Ok(quiet == steps && refused == [Some(Refusal::NoMemory), Some(Refusal::NoMemory)])
}

/// The name that `id` has by so many steps, or `None` if it is named sooner or is refused one.
fn named<'a>(world: &mut Names<'a>, id: u64, steps: u64) -> Option<u64> {
    let before = steps.saturating_sub(1);
    if accepted(world, id, before) != before || world.name_of(id).is_some() {
        return None;
    }
    match world.step(id) {
        Ok(_) => world.name_of(id),
        Err(_) => None,
    }
}

#[test]
fn names_over_a_tree_wait_for_a_node(rt: HostRuntime) -> Result<(), Refusal> {
    let heap = LocalHeap::new(rt.alloc(), 131_072)?;
    let config = Config::new(WorldKind::Tree, 10, 4, 1000)?;
    let mut world = Names::new(&heap, config)?;
    for (id, steps, name) in NAMED.iter().copied() {
        world.begin(id)?;
        let walk = Walk {
            id,
            rights: id.saturating_sub(1),
            place: 0,
        };
        let taken = if walk.grows() { walk.steps_right() } else { 0 };
        let has_waited = !walk.grows()
            || step_is_refused(rt.alloc(), &heap, &mut world, id, taken) == Ok(true);
        let is_named = named(&mut world, id, steps.saturating_sub(taken)) == Some(name);
        holds(&rt, id as usize, has_waited && is_named);
    }
    Ok(())
}
