//! Rows and columns that are written as a whole.
ghost use Rattle.std.specs.Prelude.{◌≡◌, ◌<◌, length, slice_set};
ghost use Rattle.grid_lines.specs.Prelude.{row_count, col_count, transposed};

use grid::Grid;
use std::alloc::Allocator;

/// Writes these cells into row `r`. The order of the grid stays.
///
///     [[1, 2], [3, 4]]   set_row(grid, 1, &[8, 9])   [[1, 2], [8, 9]]
///
/// Requires: there is such a row, and there are as many cells as columns.
/// Cost: one write for each cell of the row; no memory.
pub fn set_row<T: Copy + Drop, A: Allocator>(grid: &mut Grid<T, A>, r: usize, cells: &[T])
    requires row_in { r < row_count grid.old.rows }
    requires fits { length cells.now ≡ col_count grid.old.rows }
    ensures rows { grid.new.rows ≡ slice_set grid.old.rows r cells.now }
    ensures row_count { row_count grid.new.rows ≡ row_count grid.old.rows }
    ensures col_count { col_count grid.new.rows ≡ col_count grid.old.rows }
    ensures order { grid.new.order ≡ grid.old.order }
{
    let cols = cells.len();
    for col in 0..cols {
        grid.set(r, col, cells[col]);
    }
}

/// Writes these cells into column `c`. The order of the grid stays.
///
///     [[1, 2], [3, 4]]   set_col(grid, 1, &[8, 9])   [[1, 8], [3, 9]]
///
/// Requires: there is such a column, and there are as many cells as rows.
/// Cost: one write for each cell of the column; no memory.
pub fn set_col<T: Copy + Drop, A: Allocator>(grid: &mut Grid<T, A>, c: usize, cells: &[T])
    requires col_in { c < col_count grid.old.rows }
    requires fits { length cells.now ≡ row_count grid.old.rows }
    ensures cols { transposed grid.new.rows ≡ slice_set (transposed grid.old.rows) c cells.now }
    ensures row_count { row_count grid.new.rows ≡ row_count grid.old.rows }
    ensures col_count { col_count grid.new.rows ≡ col_count grid.old.rows }
    ensures order { grid.new.order ≡ grid.old.order }
{
    grid.transpose();
    set_row(grid, c, cells);
    grid.transpose();
}
