//! An allocator that refuses every request after the first few. Its proof by hand, 423 lines below
//! `proofs/tests/requests/limited`, is the only one in the words of the logic itself. Delete both
//! when the gate can make an allocation fail, as `rt try --test --fail-alloc N` does.

use std::alloc::{AllocError, Allocator};
use std::cell::Cell;

/// Passes `left` requests to the inner allocator, and refuses all later ones.
pub struct Limited<B: Allocator> {
    inner: B,
    left: Cell<u64>,
}

impl<B: Allocator> Limited<B> {
    pub fn new(inner: B, requests: u64) -> Limited<B> {
        Limited {
            inner,
            left: Cell::new(requests),
        }
    }
}

impl<B: Allocator> Drop for Limited<B> {
    fn drop(self) {
        let Self { inner: _, left: _ } = self;
    }
}

fn refuses(left: &Cell<u64>) -> bool {
    let n = left.get();
    if n == 0 {
        return true;
    }
    left.set(n - 1);
    false
}

unsafe impl<B: Allocator> Allocator for Limited<B> {
    ghost dealloc_token = { λ heap ty ptr. B.dealloc_token heap.inner ty ptr };

    fn allocate(&self, size: usize, align: usize) -> Result<*mut u8, AllocError> {
        if refuses(&self.left) {
            return Err(AllocError);
        }
        self.inner.allocate(size, align)
    }

    unsafe fn deallocate(&self, ptr: *mut u8, size: usize, align: usize) {
        self.inner.deallocate(ptr, size, align);
    }
}
