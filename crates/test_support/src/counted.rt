//! A cell that its heap counts from when it is made until it is dropped.
ghost use Rattle.std.specs.Prelude.{◌≡◌};

use crate::fixtures::Heap;
use std::alloc::AllocError;

// A number that its heap counts. A clone is a request, which the heap may refuse. A default has no heap, and isn't
// counted.
#[derive(Default)]
pub struct Counted<'a> {
    value: u32,
    heap: Option<&'a Heap>,
}

impl<'a> Counted<'a> {
    pub fn new(heap: &'a Heap, value: u32) -> Counted<'a> {
        heap.hold();
        Counted {
            value,
            heap: Some(heap),
        }
    }

    // A cell that is a request, as a clone is.
    pub fn try_new(heap: &'a Heap, value: u32) -> Result<Counted<'a>, AllocError> {
        if heap.allows_clone() {
            Ok(Counted {
                value,
                heap: Some(heap),
            })
        } else {
            Err(AllocError)
        }
    }

    pub fn value(&self) -> u32 {
        self.value
    }
}

impl Drop for Counted<'_> {
    fn drop(self) {
        let Self { value: _, heap } = self;
        if let Some(heap) = heap {
            heap.release();
        }
    }
}

impl Clone for Counted<'_> {
    ghost is_clone = { λ x y. y ≡ x };

    fn clone(&self) -> Result<Self, AllocError> {
        if let Some(heap) = self.heap {
            if !heap.allows_clone() {
                return Err(AllocError);
            }
        }
        Ok(Counted {
            value: self.value,
            heap: self.heap,
        })
    }
}
