//! The cells from a position on in a direction.
ghost use Rattle.std.specs.Prelude.{◌≡◌, ◌<◌, ◌+◌, ◌^◌, ⊤, length, IfSome, Some};
ghost use Rattle.std.specs.Iterator.{YieldsFirstBy, item_count, UpTo, at_most};
ghost use Rattle.std.specs.Iterator.SizeHint.{IsWithinCount};
ghost use Rattle.grid.specs.Prelude.{row_count, col_count};
ghost use Rattle.grid_near.specs.Neighbors.{placed};
ghost use Rattle.grid_rays.specs.Rays.{GivesRay, IsRay};

use crate::ways::{step_of, steps_to_edge};
use grid::{Grid, GridView};
use grid_near::Direction;
use std::alloc::{AllocError, Allocator};
use std::iter::FusedIterator;
use std::marker::Model;

/// An iterator over the cells from a position on in a direction, each with its row and its column, seen as the list of
/// those that remain.
#[derive(Drop)]
pub struct RayIter<'a, T> {
    view: GridView<'a, T>,
    // A step goes from (1, 1) to this position.
    step: (usize, usize),
    // The position of the cell that was given last, and the number of those that remain.
    at: (usize, usize),
    left: usize,
}

impl<'a, T> Model for RayIter<'a, T> {
    ghost use Rattle.std.specs.Prelude.{ℕ, List};
    ghost use Rattle.grid_base.specs.Table.{row_count, col_count};
    ghost use Rattle.grid_rays.specs.Steps.{cells_ahead, HasSteps};

    ghost Value = { List ((ℕ × ℕ) × T) };

    ghost view = { λ a. cells_ahead a.view.rows a.step a.at a.left };

    ghost invariant = { λ a. HasSteps (row_count a.view.rows, col_count a.view.rows)
        a.step a.at a.left };
}

/// Returns an iterator over the cells beyond a position in a direction, up to the edge, each with its row and its
/// column.
///
///     [[1, 2, 3], [4, 5, 6], [7, 8, 9]]   ray((1, 0), Right)     ((1, 1), 5), ((1, 2), 6)
///     [[1, 2, 3], [4, 5, 6], [7, 8, 9]]   ray((2, 0), UpRight)   ((1, 1), 5), ((0, 2), 3)
///
/// From a cell of the edge on, it is a row, a column or a diagonal without its first cell. From a position out of range
/// it gives none.
///
/// Cost: constant for each cell, in either order; no memory.
pub fn ray<T, A: Allocator>(grid: &Grid<T, A>, at: (usize, usize), way: Direction) -> RayIter<'_, T>
    ensures gives { GivesRay grid.now.rows way at result }
    ensures ray { IsRay grid.now.rows way at result }
    ensures small { length result < 2 ^ 63 }
{
    ray_of(grid.view(), grid.size(), at, way)
}

// The same, of a view of this size.
pub(crate) fn ray_of<T>(
    view: GridView<'_, T>,
    size: (usize, usize),
    at: (usize, usize),
    way: Direction,
) -> RayIter<'_, T>
    requires rows { size.0 ≡ row_count view.rows }
    requires cols { size.1 ≡ col_count view.rows }
    ensures gives { GivesRay view.entry.rows way at result }
    ensures ray { IsRay view.entry.rows way at result }
    ensures small { size.0 < 2 ^ 63 → size.1 < 2 ^ 63 → length result < 2 ^ 63 }
    ensures below { length result < 2 ^ 64 }
{
    RayIter {
        view,
        step: step_of(way),
        at,
        left: steps_to_edge(size, at, way),
    }
}

impl<'a, T> Iterator for RayIter<'a, T> {
    type Item = ((usize, usize), &'a T);

    ghost next_gives = { YieldsFirstBy placed (λ rest. rest) };

    ghost remaining = { item_count (λ rest. rest) };

    fn next(&mut self) -> Option<((usize, usize), &'a T)> {
        if self.left == 0 {
            return None;
        }
        self.left -= 1;
        let at = (self.at.0 + self.step.0 - 1, self.at.1 + self.step.1 - 1);
        self.at = at;
        Some((at, self.view.get_unchecked(at.0, at.1)))
    }

    fn size_hint(&self) -> (usize, Option<usize>)
        ensures lower { IsWithinCount result.0 (at_most (length self.now)) }
        ensures upper { IfSome result.1 (UpTo (at_most (length self.now))) }
        ensures exact { result ≡ (length self.now, Some (length self.now)) }
    {
        let left = self.len();
        (left, Some(left))
    }
}

impl<'a, T> ExactSizeIterator for RayIter<'a, T> {
    fn len(&self) -> usize {
        self.left
    }
}

impl<'a, T> FusedIterator for RayIter<'a, T> {}

/// Returns an iterator over the same remaining cells.
///
/// Cost: constant; it is always `Ok`, and takes no memory.
impl<'a, T> Clone for RayIter<'a, T> {
    ghost is_clone = { λ it copy. copy ≡ it };

    ghost is_infallible = { λ _. ⊤ };

    fn clone(&self) -> Result<Self, AllocError> {
        Ok(RayIter {
            view: self.view.view(),
            ..*self
        })
    }
}
