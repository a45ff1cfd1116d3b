//! An allocator for tests, which grants some requests for memory and refuses each later one, and counts what is held.
use std::alloc::{AllocError, Allocator};
use std::cell::Cell;

// What a fuse counts.
#[derive(Clone, Copy)]
struct Counts {
    // The requests that are left to grant.
    left: u64,
    // The requests for memory that were granted.
    granted: u64,
    // The blocks that were granted and the cells that were made, without those that were given back or dropped.
    held: u64,
}

/// An allocator that passes requests on to another one, as long as it has requests left to grant. It counts the blocks
/// that were granted and not given back, as far as the other one grants them too.
///
/// A vector or a grid takes it by reference, as `Vec<T, &Fuse<Global>>`. Memory may be given back at any time.
pub struct Fuse<B: Allocator> {
    inner: B,
    counts: Cell<Counts>,
}

impl<B: Allocator> Fuse<B> {
    /// Returns an allocator that grants this many requests, and refuses each later one.
    pub fn new(inner: B, left: u64) -> Fuse<B> {
        Fuse {
            inner,
            counts: Cell::new(Counts {
                left,
                granted: 0,
                held: 0,
            }),
        }
    }

    /// Grants this many requests from now on, however many were left, and counts anew those that it grants.
    pub fn grant(&self, left: u64) {
        let held = self.held();
        self.counts.set(Counts {
            left,
            granted: 0,
            held,
        });
    }

    /// Returns the number of requests that are left to grant.
    pub fn left(&self) -> u64 {
        self.counts.get().left
    }

    /// Returns the number of requests for memory that were granted since it was last told how many to grant.
    pub fn granted(&self) -> u64 {
        self.counts.get().granted
    }

    /// Returns how many blocks and cells are held: granted or made, and neither given back nor dropped.
    pub fn held(&self) -> u64 {
        self.counts.get().held
    }

    /// Counts a cell that was made.
    pub fn hold(&self) {
        let mut counts = self.counts.get();
        counts.held = counts.held.wrapping_add(1);
        self.counts.set(counts);
    }

    /// Counts a cell that was dropped.
    pub fn release(&self) {
        give_back(&self.counts);
    }

    /// Counts a clone of a cell as a request and as a cell, and returns whether it is granted. It isn't memory.
    pub fn allows_clone(&self) -> bool {
        let granted = self.granted();
        let allowed = spend(&self.counts);
        let mut counts = self.counts.get();
        counts.granted = granted;
        self.counts.set(counts);
        allowed
    }
}

impl<B: Allocator> Drop for Fuse<B> {
    fn drop(self) {
        let Self {
            inner: _,
            counts: _,
        } = self;
    }
}

// Takes one from what is left, and says whether there was one. What it grants is held.
fn spend(counts: &Cell<Counts>) -> bool {
    let Counts {
        left,
        granted,
        held,
    } = counts.get();
    match left.checked_sub(1) {
        Some(left) => {
            counts.set(Counts {
                left,
                granted: granted.wrapping_add(1),
                held: held.wrapping_add(1),
            });
            true
        }
        None => false,
    }
}

// Takes one from what is held.
fn give_back(counts: &Cell<Counts>) {
    let mut now = counts.get();
    now.held = now.held.wrapping_sub(1);
    counts.set(now);
}

unsafe impl<B: Allocator> Allocator for Fuse<B> {
    ghost dealloc_token = { λ heap ty ptr. B.dealloc_token heap.inner ty ptr };

    fn allocate(&self, size: usize, align: usize) -> Result<*mut u8, AllocError> {
        if spend(&self.counts) {
            return self.inner.allocate(size, align);
        }
        Err(AllocError)
    }

    unsafe fn deallocate(&self, ptr: *mut u8, size: usize, align: usize) {
        give_back(&self.counts);
        self.inner.deallocate(ptr, size, align);
    }
}
