//! The iterator over a row or a column, for writing.
ghost use Rattle.std.specs.Prelude.{◌≡◌, ◌-◌, ◌<◌, ◌≤◌, length, take, drop, slice_get, IfSome, Some};
ghost use Rattle.std.specs.Borrow.{sem};
ghost use Rattle.std.specs.Iterator.{item_count, UpTo, at_most};
ghost use Rattle.std.specs.Iterator.SizeHint.{IsWithinCount};
ghost use Rattle.grid_base.specs.Strides.{strided};

use super::Flat;
use std::alloc::Allocator;
use std::{mem, slice};

impl<T, A: Allocator> Flat<T, A> {
    ghost use Rattle.grid_base.specs.FlatLends.{lends_line};
    ghost use Rattle.grid_base.specs.GridLineIterMut.{line_mut_rest, line_mut_cells};

    // Returns an iterator over the cells from `start` on and before `end`, each `stride` places after the one before
    // it, for writing.
    pub(super) fn line_mut(
        &mut self,
        start: usize,
        end: usize,
        stride: usize,
    ) -> GridLineIterMut<'_, T>
        requires ordered { start ≤ end }
        requires within { end ≤ length self.old }
        requires steps { 0 < stride }
        ensures* writes_back { sem 𝓛 (lends_line T.row A.row A.Allocator self.entry start result) }
        ensures rest { line_mut_rest result ≡ strided start end stride self.old }
        ensures cells { line_mut_cells result ≡ take (end - start) (drop start self.old) }
    {
        GridLineIterMut {
            passed: Default::default(),
            rest: self.cells.slice_mut(start..end),
            stride,
        }
    }
}

/// An iterator over a row or a column, for writing. Each step takes the same time.
#[derive(Drop)]
pub struct GridLineIterMut<'a, T> {
    // The cells that the last step passed over, for reading: no later step writes them.
    passed: &'a [T],
    rest: &'a mut [T],
    stride: usize,
    ghost steps: { 0 < stride },
}

impl<'a, T> Iterator for GridLineIterMut<'a, T> {
    ghost use Rattle.grid_base.specs.GridLineIterMut.{line_mut_rest, steps_along};

    type Item = &'a mut T;

    ghost next_gives = { steps_along };

    ghost remaining = { item_count line_mut_rest };

    fn next(&mut self) -> Option<&'a mut T> {
        let rest = mem::take(&mut self.rest);
        if rest.is_empty() {
            return None;
        }
        let (cell, passed, others) = step_along(rest, self.stride);
        self.passed = passed;
        self.rest = others;
        Some(cell)
    }

    fn size_hint(&self) -> (usize, Option<usize>)
        ensures lower { IsWithinCount result.0 (at_most (length (line_mut_rest self.now))) }
        ensures upper { IfSome result.1 (UpTo (at_most (length (line_mut_rest self.now)))) }
        ensures exact { result
            ≡ (length (line_mut_rest self.now), Some (length (line_mut_rest self.now))) }
    {
        let len = self.rest.len().div_ceil(self.stride);
        (len, Some(len))
    }
}

// The first cell, for writing; those that a stride passes over, for reading, so that nothing writes them any more; and
// the cells that are left after it.
fn step_along<T>(cells: &mut [T], stride: usize) -> (&mut T, &[T], &mut [T])
    requires some { 0 < length cells.old }
    requires steps { 0 < stride }
    ensures first { slice_get cells.old 0 ≡ Some result.0.now }
    ensures passed { result.1.now ≡ drop 1 (take stride cells.old) }
    ensures rest { result.2.now ≡ drop stride cells.old }
{
    let step = stride.min(cells.len());
    let (front, rest) = cells.split_at_mut(step);
    let (first, passed) = front.split_at_mut(1);
    (&mut first[0], passed, rest)
}
