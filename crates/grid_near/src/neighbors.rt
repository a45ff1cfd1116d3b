//! Iterators over the cells around a cell, of a table with edges or of one whose edges meet.
ghost use Rattle.std.specs.Prelude.{◌≡◌, ◌*◌, ◌<◌, ◌≤◌, ⊤, length, min, IfSome, Some};
ghost use Rattle.grid_base.specs.Prelude.{table_of, IsSize};
ghost use Rattle.std.specs.Iterator.{YieldsFirstBy, UpTo, at_most};
ghost use Rattle.std.specs.Iterator.SizeHint.{IsWithinCount};
ghost use Rattle.grid_near.specs.Around.{HoldsCells, FindsFirst, IsFirst, cell_by, by_steps, strided_table, start_of};
ghost use Rattle.grid_near.specs.Neighbors.{step_count, placed, around_of, GivesNear};
ghost use Rattle.grid_near.specs.declared.board.Edges.TheVariants.{Joined};

use crate::board::Edges;
use crate::steps::{Connectivity, around, count_from, first_from, is_inner, offset, step_count};
use crate::strided::{Strided, place_from};
use grid_base::{Layout, strides_of};
use std::alloc::AllocError;
use std::iter::FusedIterator;
use std::marker::Model;

/// An iterator over the cells around a cell, each with its row and its column, seen as the list of those that remain.
///
/// Away from the edges all of them are there, and each step is one read; at an edge, a step looks for the next that is
/// in the table, or goes to the other edge, where they meet. A loop over it ends at a fixed number of steps, so that a
/// short one is unrolled.
#[derive(Drop)]
pub struct Neighbors<'a, T> {
    table: Strided<'a, T>,
    at: (usize, usize),
    connectivity: Connectivity,
    edges: Edges,
    // Whether none of the cells around this one is past an edge; if so, the place of the first of its box of nine.
    inner: bool,
    first: usize,
    // The number of steps that are done, and, at an edge that is open, of the positions that are passed.
    passed: usize,
    tried: usize,
}

/// An iterator over the cells around a cell of a table whose edges meet.
pub type WrappedNeighbors<'a, T> = Neighbors<'a, T>;

impl<'a, T> Model for Neighbors<'a, T> {
    ghost use Rattle.std.specs.Prelude.{◌≡◌, ℕ, List};
    ghost use Rattle.grid_near.specs.Around.{cell_by, by_steps, cells_from, next_step, IsAround};

    ghost Value = { List ((ℕ × ℕ) × T) };

    ghost view = { λ a. cells_from
        (cell_by a.table.cells.now a.table.size (by_steps a.table.start a.table.strides))
        a.edges a.table.size a.connectivity a.at (next_step a.edges a.inner a.passed a.tried) };

    ghost invariant = { λ a. IsAround a.table.cells.now a.table.size a.table.start
        a.table.strides a.at a.connectivity a.edges a.first a.inner a.passed a.tried };
}

/// Returns an iterator over the cells around cell `at` of the table that a slice stores, row by row, each with its row
/// and its column.
///
///     [1, 2, 3, 4, 5, 6] of 2 rows   (0, 2), Sides, Open    ((0, 1), 2), ((1, 2), 6)
///     [1, 2, 3, 4, 5, 6] of 2 rows   (0, 2), All, Open      ((0, 1), 2), ((1, 1), 5), ((1, 2), 6)
///     [1, 2, 3, 4] of 1 row          (0, 0), Sides, Joined  1, 4, 2, 1, with their positions
///     [1, 2, 3, 4] of 1 row          (0, 0), All, Joined    4, 1, 2, 4, 2, 4, 1, 2, with their positions
///
/// Where edges meet, these are four cells or eight, some of them more than once in a table of one or two rows or
/// columns. Around a position out of range it gives the cells of the table that touch it, or none where edges meet.
///
/// Requires: the slice has as many cells as the layout.
/// Cost: each step takes the same time, in either order; no memory.
#[inline(always)]
pub fn neighbors_of<T>(
    cells: &[T],
    layout: Layout,
    at: (usize, usize),
    connectivity: Connectivity,
    edges: Edges,
) -> Neighbors<'_, T>
    requires filled { length cells.now ≡ layout.rows * layout.cols }
    ensures gives { GivesNear (around_of connectivity edges
        (table_of layout.order layout.rows layout.cols cells.now) at.0 at.1) result }
    ensures count { edges ≡ Joined → at.0 < layout.rows → at.1 < layout.cols
        → length result ≡ step_count connectivity }
    ensures at_most { length result ≤ step_count connectivity }
{
    let size = (layout.rows, layout.cols);
    let table = Strided {
        cells,
        size,
        start: 0,
        strides: strides_of(layout.order, size),
    };
    neighbors_in(table, at, connectivity, edges)
}

/// Same as [`neighbors_of`], of a table whose cells are at even distances.
///
/// Requires: there are rows exactly if there are columns, and the cells are within the slice.
#[inline(always)]
pub fn neighbors_in<T>(
    table: Strided<'_, T>,
    at: (usize, usize),
    connectivity: Connectivity,
    edges: Edges,
) -> Neighbors<'_, T>
    requires size { IsSize table.size.0 table.size.1 }
    requires holds { HoldsCells table.cells.now table.size (by_steps table.start table.strides) }
    ensures gives { GivesNear (around_of connectivity edges (strided_table
        table.entry.cells.now table.entry.size table.entry.start table.entry.strides) at.0 at.1)
        result }
    ensures count { edges ≡ Joined → at.0 < table.entry.size.0 → at.1 < table.entry.size.1
        → length result ≡ step_count connectivity }
    ensures at_most { length result ≤ step_count connectivity }
{
    let passed = done_at_start(table.size, at, connectivity, edges);
    let inner = is_inner(table.size, at);
    let first = if inner {
        place_from(table.start, table.strides, at.0 - 1, at.1 - 1)
    } else {
        0
    };
    Neighbors {
        table,
        at,
        connectivity,
        edges,
        inner,
        first,
        passed,
        tried: passed,
    }
}

impl<'a, T> Iterator for Neighbors<'a, T> {
    type Item = ((usize, usize), &'a T);

    ghost next_gives = { YieldsFirstBy placed (λ rest. rest) };

    ghost remaining = { λ rest. at_most (min (length rest) 8) };

    // Its callers know the connectivity and the edges, so that half of it is compiled away there.
    #[inline(always)]
    fn next(&mut self) -> Option<((usize, usize), &'a T)> {
        let k = self.passed;
        if k >= step_count(self.connectivity) {
            return None;
        }
        self.passed = k + 1;
        if self.inner {
            let (i, j) = offset(self.connectivity, k);
            let at = (self.at.0 + i - 1, self.at.1 + j - 1);
            let place = place_from(self.first, self.table.strides, i, j);
            return Some((at, &self.table.cells[place]));
        }
        match self.edges {
            Edges::Open => {
                let (tried, found) = find_from(self.table, self.at, self.connectivity, self.tried);
                self.tried = tried;
                found
            }
            Edges::Joined => Some(joined_cell(self.table, self.at, self.connectivity, k)),
        }
    }

    fn size_hint(&self) -> (usize, Option<usize>)
        ensures lower { IsWithinCount result.0 (at_most (min (length self.now) 8)) }
        ensures upper { IfSome result.1 (UpTo (at_most (min (length self.now) 8))) }
        ensures exact { result ≡ (length self.now, Some (length self.now)) }
    {
        let len = self.len();
        (len, Some(len))
    }
}

impl<'a, T> ExactSizeIterator for Neighbors<'a, T> {
    fn len(&self) -> usize
        ensures value { result ≡ min (length self.now) 8 }
        ensures exact { result ≡ length self.now }
    {
        match self.edges {
            Edges::Open => {
                let from = if self.inner { self.passed } else { self.tried };
                count_from(self.table.size, self.at, self.connectivity, from)
            }
            Edges::Joined => step_count(self.connectivity).saturating_sub(self.passed),
        }
    }
}

impl<'a, T> FusedIterator for Neighbors<'a, T> {}

/// Returns an iterator over the same remaining cells.
///
/// Cost: constant; it is always `Ok`, and takes no memory.
impl<'a, T> Clone for Neighbors<'a, T> {
    ghost is_clone = { λ it copy. copy ≡ it };

    ghost is_infallible = { λ _. ⊤ };

    fn clone(&self) -> Result<Self, AllocError> {
        Ok(Neighbors { ..*self })
    }
}

// How many steps are done at the start: all, where edges meet, around a position out of range.
fn done_at_start(
    size: (usize, usize),
    at: (usize, usize),
    connectivity: Connectivity,
    edges: Edges,
) -> usize
    ensures { result ≡ start_of edges size connectivity at }
{
    match edges {
        Edges::Open => 0,
        Edges::Joined => if at.0 < size.0 && at.1 < size.1 {
            0
        } else {
            step_count(connectivity)
        },
    }
}

// Finds the first cell that is in the table at step `from` or later, and the index of the step after it.
#[inline(always)]
fn find_from<T>(
    table: Strided<'_, T>,
    at: (usize, usize),
    connectivity: Connectivity,
    from: usize,
) -> (usize, Option<((usize, usize), &T)>)
    requires holds { HoldsCells table.cells.now table.size (by_steps table.start table.strides) }
    ensures found { FindsFirst (cell_by table.entry.cells.now table.entry.size
        (by_steps table.entry.start table.entry.strides)) table.entry.size connectivity at from
        result }
    ensures keeps { from ≤ result.0 }
    ensures on { from < step_count connectivity → from < result.0 }
{
    let Strided {
        cells,
        size,
        start,
        strides,
    } = table;
    let k = first_from(size, at, connectivity, from);
    if k >= step_count(connectivity) {
        return (k, None);
    }
    let (i, j) = offset(connectivity, k);
    let row = at.0 + i - 1;
    let col = at.1 + j - 1;
    let cell = &cells[place_from(start, strides, row, col)];
    (k + 1, Some(((row, col), cell)))
}

// The cell of step `k`, where edges meet.
#[inline(always)]
fn joined_cell<T>(
    table: Strided<'_, T>,
    at: (usize, usize),
    connectivity: Connectivity,
    k: usize,
) -> ((usize, usize), &T)
    requires holds { HoldsCells table.cells.now table.size (by_steps table.start table.strides) }
    requires step { k < step_count connectivity }
    requires row { at.0 < table.size.0 }
    requires col { at.1 < table.size.1 }
    ensures { IsFirst (cell_by table.entry.cells.now table.entry.size
        (by_steps table.entry.start table.entry.strides)) table.entry.size connectivity at k
        result }
{
    let (i, j) = offset(connectivity, k);
    let row = around(table.size.0, at.0, i);
    let col = around(table.size.1, at.1, j);
    let place = place_from(table.start, table.strides, row, col);
    ((row, col), &table.cells[place])
}
