//! An iterator over a row or a column, and clones of its cells.
ghost use Rattle.std.specs.Prelude.{◌≡◌, ◌+◌, ◌-◌, ◌*◌, ◌<◌, ⊤, [], length, drop, slice_get, IfOk, IfSome, Some, option_copied};
ghost use Rattle.std.specs.List.{AllZip};
ghost use Rattle.grid_base.specs.LineCells.{cells_left};
ghost use Rattle.grid_base.specs.Prelude.{ClonesAreEqual, line_cells, GivesLine, YieldsFirstRef, YieldsLastRef, item_count, UpTo, at_most, IsWithinCount};

use super::stepped_iter::SteppedIter;
use std::alloc::{AllocError, Allocator};
use std::iter::FusedIterator;
use std::marker::Model;
use std::slice;

/// An iterator over a row or a column, from both ends. Each step takes the same time.
#[derive(Drop)]
pub struct GridLineIter<'a, T> {
    cells: Cells<'a, T>,
}

// The cells that are left. Where they are side by side, a loop over them is as fast as one over a slice.
#[derive(Drop)]
enum Cells<'a, T> {
    Together(slice::Iter<'a, T>),
    // The last of the slice comes first.
    Reversed(slice::Iter<'a, T>),
    Apart(SteppedIter<'a, T>),
}

impl<'a, T> Cells<'a, T> {
    // Returns the `count` cells that are `stride` places apart, the first of them at place `start`; the last first
    // where they go backwards.
    #[inline(always)]
    fn over(
        cells: &'a [T],
        start: usize,
        count: usize,
        stride: usize,
        backwards: bool,
    ) -> Cells<'a, T>
        requires some { 0 < count }
        requires steps { 0 < stride }
        requires within { start + (count - 1) * stride < length cells.now }
        ensures { cells_left result ≡ line_cells start count stride backwards cells.now }
    {
        if count == 1 {
            // the count is a constant here, so that a loop over such lines has no inner loop
            Cells::Together(cells[start..start + 1].iter())
        } else if stride != 1 {
            Cells::Apart(SteppedIter::over(cells, start, count, stride, backwards))
        } else if backwards {
            Cells::Reversed(cells[start..start + count].iter())
        } else {
            Cells::Together(cells[start..start + count].iter())
        }
    }
}

impl<'a, T> Model for GridLineIter<'a, T> {
    ghost use Rattle.std.specs.Prelude.{List, length, ◌<◌, ◌^◌};

    ghost Value = { List T };

    ghost use Rattle.grid_base.specs.LineCells.{cells_left};

    ghost view = { λ a. cells_left a.cells };

    // known of each line, so that a caller may count what is left of any
    ghost invariant = { λ a. length (cells_left a.cells) < 2 ^ 64 };
}

impl<'a, T> GridLineIter<'a, T> {
    /// Returns an iterator over `count` cells that are `stride` places apart, the first of them at place `start`; the
    /// last comes first where it goes backwards.
    ///
    ///     [1, 2, 3, 4, 5]   over(0, 3, 2, false)   1, 3, 5
    ///     [1, 2, 3, 4, 5]   over(0, 3, 2, true)    5, 3, 1
    ///
    /// Requires: `count` and `stride` are not 0, and the cells are within the slice.
    #[inline(always)]
    pub fn over(
        cells: &'a [T],
        start: usize,
        count: usize,
        stride: usize,
        backwards: bool,
    ) -> GridLineIter<'a, T>
        requires some { 0 < count }
        requires steps { 0 < stride }
        requires within { start + (count - 1) * stride < length cells.now }
        ensures { GivesLine (line_cells start count stride backwards cells.now) result }
    {
        GridLineIter {
            cells: Cells::over(cells, start, count, stride, backwards),
        }
    }

    /// Returns an iterator over no cells of a slice.
    ///
    ///     [1, 2, 3]   none()   nothing
    pub fn none(cells: &'a [T]) -> GridLineIter<'a, T>
        ensures { GivesLine [] result }
    {
        GridLineIter {
            cells: Cells::Together(cells[..0].iter()),
        }
    }

    /// Skips `n` cells and returns the next, or `None` if fewer remain.
    ///
    /// Cost: the same time at every `n`.
    pub fn nth(&mut self, n: usize) -> Option<&'a T>
        ensures item { option_copied result ≡ slice_get self.old n }
        ensures rest { self.new ≡ drop (n + 1) self.old }
    {
        let passed = n.min(self.len());
        match &mut self.cells {
            Cells::Together(cells) => *cells = cells.as_slice()[passed..].iter(),
            Cells::Reversed(cells) => {
                let left = cells.as_slice();
                *cells = left[..left.len() - passed].iter();
            }
            Cells::Apart(cells) => cells.pass(passed),
        }
        self.next()
    }
}

impl<'a, T> Iterator for GridLineIter<'a, T> {
    type Item = &'a T;

    ghost next_gives = { YieldsFirstRef (λ rest. rest) };

    ghost remaining = { item_count (λ rest. rest) };

    fn next(&mut self) -> Option<&'a T> {
        match &mut self.cells {
            Cells::Together(cells) => cells.next(),
            Cells::Reversed(cells) => cells.next_back(),
            Cells::Apart(cells) => cells.next(),
        }
    }

    fn size_hint(&self) -> (usize, Option<usize>)
        ensures lower { IsWithinCount result.0 (at_most (length self.now)) }
        ensures upper { IfSome result.1 (UpTo (at_most (length self.now))) }
        ensures exact { result ≡ (length self.now, Some (length self.now)) }
    {
        let len = self.len();
        (len, Some(len))
    }
}

impl<'a, T> DoubleEndedIterator for GridLineIter<'a, T> {
    ghost next_back_gives = { YieldsLastRef (λ rest. rest) };

    fn next_back(&mut self) -> Option<&'a T> {
        match &mut self.cells {
            Cells::Together(cells) => cells.next_back(),
            Cells::Reversed(cells) => cells.next(),
            Cells::Apart(cells) => cells.next_back(),
        }
    }
}

impl<'a, T> ExactSizeIterator for GridLineIter<'a, T> {
    fn len(&self) -> usize {
        match &self.cells {
            Cells::Together(cells) => cells.len(),
            Cells::Reversed(cells) => cells.len(),
            Cells::Apart(cells) => cells.len(),
        }
    }
}

impl<'a, T> FusedIterator for GridLineIter<'a, T> {}

/// Returns an iterator over the same remaining cells.
///
/// Cost: constant; it is always `Ok`, and takes no memory.
impl<'a, T> Clone for GridLineIter<'a, T> {
    ghost is_clone = { λ it copy. copy ≡ it };

    ghost is_infallible = { λ _. ⊤ };

    fn clone(&self) -> Result<Self, AllocError> {
        let cells = match &self.cells {
            Cells::Together(cells) => Cells::Together(cells.clone()?),
            Cells::Reversed(cells) => Cells::Reversed(cells.clone()?),
            Cells::Apart(cells) => Cells::Apart(cells.clone()?),
        };
        Ok(GridLineIter { cells })
    }
}

/// Returns clones of the cells that a line has left, in order.
///
/// Fails: if allocation or a clone fails.
/// Cost: one clone for each cell; one allocation, and those of the clones.
pub fn clones_of_line<T: Clone, A: Allocator>(
    alloc: A,
    line: GridLineIter<'_, T>,
) -> Result<Vec<T, A>, AllocError>
    ensures each { IfOk result (λ copies. AllZip T.is_clone line.entry copies.items) }
    ensures equal { IfOk result (λ copies. ClonesAreEqual T.is_clone
        → copies.items ≡ line.entry) }
{
    let mut copies = Vec::with_capacity(alloc, line.len())?;
    for cell in line {
        let copy = cell.clone()?;
        copies.push_reserved(copy);
    }
    Ok(copies)
}
