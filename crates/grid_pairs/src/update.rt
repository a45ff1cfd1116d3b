//! A board whose cells a closure replaces, by them and the cells of another board.
ghost use Rattle.std.specs.Prelude.{◌≡◌, ◌<◌, ◌≤◌, ◌+◌, ◌*◌, length};
ghost use Rattle.grid_pairs.specs.Prelude.{row, row_count, col_count, SameSizeAndOrder, CallableAtPairs, JoinedBy};
ghost use Rattle.grid_pairs.specs.Answered.{Replaced, RowsReplaced, ColReplaced, CallableAtRows, CallableAtRow, CallableAtCol};

use grid::{Grid, Order};
use grid_view::{AsView, GridView};
use std::alloc::Allocator;

// Rows of fewer cells are gone through column by column: of three columns of 333,333 cells, across the storage of the
// other board, in 0.5 ms instead of 1.5 on bytes, and in 0.7 instead of 1.6 on 4-byte cells.
const FEW_COLS: usize = 4;

/// Replaces each cell by what the closure returns for references to it and to the cell of another board there. The size
/// and the order stay.
///
///     [[1, 2], [3, 4]]   update_with(grid, [[10, 20], [30, 40]], |x, y| *x + *y)   [[11, 22], [33, 44]]
///
/// Requires: the board has as many rows and as many columns as the grid, as `grid.size() == other.size()` tells; the
/// closure can be called at each two cells.
/// Cost: one call for each cell, along the storage of the grid, but across it where its lines have fewer than four
/// cells; in vector code where the board is stored so too; no memory.
pub fn update_with<T: Drop, U, V: AsView<U>, A: Allocator, F: Fn(&T, &U) -> T>(
    grid: &mut Grid<T, A>,
    other: &V,
    f: F,
)
    requires rows { row_count (V.rows other.now) ≡ row_count grid.old.rows }
    requires cols { col_count (V.rows other.now) ≡ col_count grid.old.rows }
    requires calls { CallableAtPairs F.pre f grid.old.rows (V.rows other.now) }
    ensures cells { JoinedBy F.post f grid.old.rows (V.rows other.now) grid.new.rows }
    ensures same { SameSizeAndOrder grid.old grid.new }
{
    update_by(grid, &other.as_view(), &f);
}

// Replaces each cell by what the closure returns at it and the cell of a view there.
fn update_by<T: Drop, U, A: Allocator, F: Fn(&T, &U) -> T>(
    grid: &mut Grid<T, A>,
    other: &GridView<'_, U>,
    f: &F,
)
    requires rows { row_count other.now.rows ≡ row_count grid.old.rows }
    requires cols { col_count other.now.rows ≡ col_count grid.old.rows }
    requires calls { CallableAtPairs F.pre f.now grid.old.rows other.now.rows }
    ensures cells { JoinedBy F.post f.now grid.old.rows other.now.rows grid.new.rows }
    ensures same { SameSizeAndOrder grid.old grid.new }
{
    match grid.order() {
        Order::RowMajor => update_rows(grid.as_mut_slice(), other, f),
        Order::ColumnMajor => update_rows(grid.as_mut_slice(), &other.transposed(), f),
    }
}

// Replaces each item by what the closure returns at it and the cell of a board that comes there, row by row.
fn update_rows<T: Drop, U, F: Fn(&T, &U) -> T>(cells: &mut [T], other: &GridView<'_, U>, f: &F)
    requires len { length cells.old ≡ row_count other.now.rows * col_count other.now.rows }
    requires calls { CallableAtRows F.pre f.now cells.old other.now.rows }
    ensures { RowsReplaced F.post f.now (row_count other.now.rows) other.now.rows
        cells.old cells.new }
{
    if let Some(others) = other.as_slice() {
        update_stored(cells, 0, others, f);
        return;
    }
    // a copy that no write to the cells can change, so that it stays in registers
    let seen = other.view();
    if seen.cols() < FEW_COLS {
        update_cols(cells, &seen, f);
        return;
    }
    for r in 0..seen.rows() {
        update_row(cells, &seen, r, f);
    }
}

// Replaces the same, column by column.
fn update_cols<T: Drop, U, F: Fn(&T, &U) -> T>(cells: &mut [T], other: &GridView<'_, U>, f: &F)
    requires len { length cells.old ≡ row_count other.now.rows * col_count other.now.rows }
    requires calls { CallableAtRows F.pre f.now cells.old other.now.rows }
    ensures { RowsReplaced F.post f.now (row_count other.now.rows) other.now.rows
        cells.old cells.new }
{
    for c in 0..other.cols() {
        update_col(cells, other, c, f);
    }
}

// Replaces the items at which column `c` of a board comes, row by row.
fn update_col<T: Drop, U, F: Fn(&T, &U) -> T>(
    cells: &mut [T],
    other: &GridView<'_, U>,
    c: usize,
    f: &F,
)
    requires col_in { c < col_count other.now.rows }
    requires len { length cells.old ≡ row_count other.now.rows * col_count other.now.rows }
    requires calls { CallableAtCol F.pre f.now c cells.old other.now.rows }
    ensures { ColReplaced F.post f.now (row_count other.now.rows) c other.now.rows
        cells.old cells.new }
{
    let cols = other.cols();
    for r in 0..other.rows() {
        let place = r * cols + c;
        cells[place] = f(&cells[place], other.get_unchecked(r, c));
    }
}

// Replaces the items at which row `r` of a board comes, in the same way.
fn update_row<T: Drop, U, F: Fn(&T, &U) -> T>(
    cells: &mut [T],
    other: &GridView<'_, U>,
    r: usize,
    f: &F,
)
    requires row_in { r < row_count other.now.rows }
    requires len { length cells.old ≡ row_count other.now.rows * col_count other.now.rows }
    requires calls { CallableAtRow F.pre f.now
        (r * col_count other.now.rows) cells.old (row other.now.rows r) }
    ensures { Replaced F.post f.now (r * col_count other.now.rows) (col_count other.now.rows)
        (row other.now.rows r) cells.old cells.new }
{
    let start = r * other.cols();
    match other.row_slice(r) {
        Some(line) => update_stored(cells, start, line, f),
        None => update_seen(cells, start, other, r, f),
    }
}

// Replaces the items from place `start` on by what the closure returns at them and those of a slice, in a loop that is
// vectorized.
fn update_stored<T: Drop, U, F: Fn(&T, &U) -> T>(cells: &mut [T], start: usize, others: &[U], f: &F)
    requires within { start + length others.now ≤ length cells.old }
    requires calls { CallableAtRow F.pre f.now start cells.old others.now }
    ensures { Replaced F.post f.now start (length others.now) others.now cells.old cells.new }
{
    for k in 0..others.len() {
        cells[start + k] = f(&cells[start + k], &others[k]);
    }
}

// Replaces the same, by the cells of row `r` of a board.
fn update_seen<T: Drop, U, F: Fn(&T, &U) -> T>(
    cells: &mut [T],
    start: usize,
    other: &GridView<'_, U>,
    r: usize,
    f: &F,
)
    requires row_in { r < row_count other.now.rows }
    requires within { start + col_count other.now.rows ≤ length cells.old }
    requires calls { CallableAtRow F.pre f.now start cells.old (row other.now.rows r) }
    ensures { Replaced F.post f.now start (col_count other.now.rows) (row other.now.rows r)
        cells.old cells.new }
{
    for col in 0..other.cols() {
        cells[start + col] = f(&cells[start + col], other.get_unchecked(r, col));
    }
}
