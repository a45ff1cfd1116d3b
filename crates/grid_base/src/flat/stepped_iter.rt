//! An iterator over cells whose places are a step apart, forward or back.
ghost use Rattle.std.specs.Prelude.{◌≡◌, ◌<◌, ◌≤◌, ◌+◌, ◌-◌, ◌*◌, ⊤, [], length, drop};
ghost use Rattle.grid_base.specs.Prelude.{line_cells, YieldsFirstRef, YieldsLastRef, item_count};

use std::alloc::AllocError;
use std::marker::Model;

/// An iterator over cells whose places are a step apart, from both ends. A step back is a step forward modulo 2^64, so
/// no step tests which way it goes.
#[derive(Drop)]
pub struct SteppedIter<'a, T> {
    cells: &'a [T],
    // The place of the first cell that is left, from there to the next, and how many are left.
    place: usize,
    step: usize,
    left: usize,
}

impl<'a, T> Model for SteppedIter<'a, T> {
    ghost use Rattle.std.specs.Prelude.{List, length};
    ghost use Rattle.grid_base.specs.Stepped.{stepped_cells, AreStepped};

    ghost Value = { List T };

    ghost view = { λ a. stepped_cells a.place a.step a.left a.cells.now };

    ghost invariant = { λ a. AreStepped a.place a.step a.left (length a.cells.now) };
}

impl<'a, T> SteppedIter<'a, T> {
    /// Returns an iterator over `count` cells that are `stride` places apart, the first of them at place `start`; the
    /// last comes first where it goes backwards.
    ///
    ///     [1, 2, 3, 4, 5]   over(0, 3, 2, true)   5, 3, 1
    ///
    /// Requires: `count` and `stride` are not 0, and the cells are within the slice.
    pub fn over(
        cells: &'a [T],
        start: usize,
        count: usize,
        stride: usize,
        backwards: bool,
    ) -> SteppedIter<'a, T>
        requires some { 0 < count }
        requires steps { 0 < stride }
        requires within { start + (count - 1) * stride < length cells.now }
        ensures { result ≡ line_cells start count stride backwards cells.now }
    {
        let first = if backwards {
            let last = start + (count - 1) * stride;
            (last, stride.wrapping_neg())
        } else {
            (start, stride)
        };
        SteppedIter {
            cells,
            place: first.0,
            step: first.1,
            left: count,
        }
    }

    /// Returns an iterator over no cells of a slice.
    pub fn none(cells: &'a [T]) -> SteppedIter<'a, T>
        ensures { result ≡ [] }
    {
        SteppedIter {
            cells,
            place: 0,
            step: 0,
            left: 0,
        }
    }

    // Skips `n` of the cells that are left.
    pub(super) fn pass(&mut self, n: usize)
        requires { n ≤ length self.old }
        ensures { self.new ≡ drop n self.old }
    {
        self.place = self.place.wrapping_add(n.wrapping_mul(self.step));
        self.left -= n;
    }
}

impl<'a, T> Iterator for SteppedIter<'a, T> {
    type Item = &'a T;

    ghost next_gives = { YieldsFirstRef (λ rest. rest) };

    ghost remaining = { item_count (λ rest. rest) };

    fn next(&mut self) -> Option<&'a T> {
        if self.left == 0 {
            return None;
        }
        let cell = &self.cells[self.place];
        self.place = self.place.wrapping_add(self.step);
        self.left -= 1;
        Some(cell)
    }
}

impl<'a, T> DoubleEndedIterator for SteppedIter<'a, T> {
    ghost next_back_gives = { YieldsLastRef (λ rest. rest) };

    fn next_back(&mut self) -> Option<&'a T> {
        if self.left == 0 {
            return None;
        }
        self.left -= 1;
        let last = self.place.wrapping_add(self.left.wrapping_mul(self.step));
        Some(&self.cells[last])
    }
}

impl<'a, T> ExactSizeIterator for SteppedIter<'a, T> {
    fn len(&self) -> usize {
        self.left
    }
}

/// Returns an iterator over the same remaining cells.
///
/// Cost: constant; it is always `Ok`, and takes no memory.
impl<'a, T> Clone for SteppedIter<'a, T> {
    ghost is_clone = { λ it copy. copy ≡ it };

    ghost is_infallible = { λ _. ⊤ };

    fn clone(&self) -> Result<Self, AllocError> {
        Ok(SteppedIter {
            cells: self.cells,
            place: self.place,
            step: self.step,
            left: self.left,
        })
    }
}
