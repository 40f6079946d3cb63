//! An allocator that fails at one allocation.

use std::alloc::{AllocError, Allocator};
use std::cell::Cell;

/// Passes each call on to another allocator, except for one allocation, which fails.
pub struct FailingAllocator<B: Allocator> {
    inner: B,
    left: Cell<u64>,
}

impl<B: Allocator> FailingAllocator<B> {
    /// Makes an allocator whose `refused`-th allocation fails, from 1. None fails if `refused` is 0. Only tested: which
    /// one fails.
    pub fn new(inner: B, refused: u64) -> FailingAllocator<B> {
        FailingAllocator {
            inner,
            left: Cell::new(refused),
        }
    }

    /// Returns how many allocations are left up to the one that fails, with that one. It is 0 after that. Only tested.
    pub fn left(&self) -> u64 {
        self.left.get()
    }
}

impl<B: Allocator> Drop for FailingAllocator<B> {
    fn drop(self) {
        let Self { inner: _, left: _ } = self;
    }
}

/// Counts one allocation, and returns true if it is the one that fails. Only tested.
fn is_refused(left: &Cell<u64>) -> bool {
    let before = left.get();
    if before > 0 {
        left.set(before - 1);
    }
    before == 1
}

unsafe impl<B: Allocator> Allocator for FailingAllocator<B> {
    ghost dealloc_token = { λ heap ty ptr. B.dealloc_token heap.inner ty ptr };

    fn allocate(&self, size: usize, align: usize) -> Result<*mut u8, AllocError> {
        if is_refused(&self.left) {
            return Err(AllocError);
        }
        self.inner.allocate(size, align)
    }

    unsafe fn deallocate(&self, ptr: *mut u8, size: usize, align: usize) {
        self.inner.deallocate(ptr, size, align);
    }
}
