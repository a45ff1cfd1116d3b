//! The constructor from an array of rows.
ghost use Rattle.std.specs.Prelude.{◌≡◌, ◌≢◌, ◌<◌, Some, None, IsTrue, IfOk, OnErr, slice_get, slice_set};
ghost use Rattle.grid.specs.Prelude.{cell, with_cell, IsMade, FailsBySize, by_order, are_full, AreTaken};

use super::cell_count;
use crate::{Grid, GridError};
use grid_base::Order;
use std::alloc::Allocator;

// Returns the outer index and the inner one: row and column, or column and row.
fn by_order(order: Order, i: usize, j: usize) -> (usize, usize)
    ensures { result ≡ by_order order i j }
{
    match order {
        Order::RowMajor => (i, j),
        Order::ColumnMajor => (j, i),
    }
}

// Takes the cell out of one slot of a row.
fn take_slot<T, const C: usize>(row: &mut [Option<T>; C], col: usize) -> T
    requires within { col < C }
    requires full { slice_get row.old col ≢ Some None }
    ensures cell { slice_get row.old col ≡ Some (Some result) }
    ensures emptied { row.new ≡ slice_set row.old col None }
{
    match row[col].take() {
        Some(cell) => cell,
        None => unreachable!(),
    }
}

// Takes the cell out of one slot.
fn take_cell<T, const R: usize, const C: usize>(
    cells: &mut [[Option<T>; C]; R],
    row: usize,
    col: usize,
) -> T
    requires row_in { row < R }
    requires col_in { col < C }
    requires full { cell cells.old row col ≢ Some None }
    ensures cell { cell cells.old row col ≡ Some (Some result) }
    ensures emptied { cells.new ≡ with_cell cells.old row col None }
{
    take_slot(&mut cells[row], col)
}

impl<T, A: Allocator> Grid<T, A> {
    /// Returns the grid in this order whose row i has the cells of row i of the slots, and leaves every slot `None`.
    /// Without rows or without columns it is the empty grid. [`grid!`](crate::grid) and [`grid_cm!`](crate::grid_cm)
    /// call it: a grid that is written out is made by one of these.
    ///
    ///     from_arrays(alloc, RowMajor, [[Some(1), Some(2)], [Some(3), Some(4)]])   [[1, 2], [3, 4]]
    ///
    /// Requires: every slot holds a cell.
    /// Fails: `TooLarge` where `R * C` exceeds `usize::MAX`, else `Memory`; all slots are unchanged. Without rows or
    /// without columns it takes no memory and never fails.
    /// Cost: each cell is moved once; one allocation.
    pub fn from_arrays<const R: usize, const C: usize>(
        alloc: A,
        order: Order,
        cells: &mut [[Option<T>; C]; R],
    ) -> Result<Grid<T, A>, GridError>
        requires { IsTrue (are_full cells.old) }
        ensures made { IfOk result (IsMade order R C) }
        ensures cells { IfOk result (λ g. AreTaken R C cells.old cells.new g.rows) }
        ensures kept { OnErr result (cells.new ≡ cells.old) }
        ensures fails { FailsBySize R C result }
    {
        let count = cell_count(R, C)?;
        if count == 0 {
            return Ok(Grid::empty_with_order(alloc, order));
        }
        let mut taken = Vec::with_capacity(alloc, count)?;
        let (lines, len) = by_order(order, R, C);
        for i in 0..lines {
            for j in 0..len {
                let (row, col) = by_order(order, i, j);
                let cell = take_cell(cells, row, col);
                taken.push_reserved(cell);
            }
        }
        Ok(Grid::from_vec_with_order(taken, C, order))
    }
}
