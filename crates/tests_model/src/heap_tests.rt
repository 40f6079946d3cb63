//! Objects that are made in heaps with more and more room: each allocation failure is reported.

use crate::common::holds;
use linked_list_allocator::LocalHeap;
use model_splitter::SplitterWorld;
use model_steps::Refusal;
use std::alloc::{AllocError, Global};
use words_machine::grid::WordGrid;
use words_machine::parts::RawSplitter;

/// The bytes of a heap in which each of these objects finds room.
const ROOM: usize = 1_600;

/// Whether an object is made, or else an allocation failure is reported; in the whole heap it is made, and with no room it is not.
fn is_reported<T: Drop>(made: Result<T, Refusal>, taken: usize) -> bool {
    match made {
        Ok(_) => taken < ROOM,
        Err(refusal) => 0 < taken && refusal == Refusal::NoMemory,
    }
}

/// Whether each is made or told of in a heap of which so much is taken.
fn are_reported(heap: &LocalHeap, taken: usize) -> bool {
    is_reported(SplitterWorld::new(heap, 16), taken)
        && is_reported(RawSplitter::new(heap, 64), taken)
        && is_reported(RawSplitter::pair(heap), taken)
        && is_reported(WordGrid::new(heap, 3), taken)
}

/// The same of a heap of its own.
fn are_reported_in_one(alloc: Global, taken: usize) -> Result<bool, AllocError> {
    let heap = LocalHeap::new(alloc, ROOM)?;
    let others = Vec::<u8, &LocalHeap>::with_capacity(&heap, taken)?;
    let reported = are_reported(&heap, taken);
    drop(others);
    Ok(reported)
}

/// A heap gives a growth at least 16 bytes, so each growth in turn is the first that finds no room.
#[test]
fn each_want_of_memory_is_reported(rt: HostRuntime) {
    for blocks in 0..=100usize {
        holds(
            &rt,
            blocks,
            are_reported_in_one(rt.alloc(), 16 * blocks) == Ok(true),
        );
    }
}
