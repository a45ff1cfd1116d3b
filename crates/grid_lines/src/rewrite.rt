//! Rows and columns that a closure rewrites, each as a slice.
ghost use Rattle.std.specs.Prelude.{◌≡◌, ◌<◌, ◌*◌, List, length, map};
ghost use Rattle.grid.specs.Prelude.{HoldsSize, table_of, row_count, col_count, transposed};
ghost use Rattle.grid_lines.specs.Prelude.{brought, taken_back, AreRewritten, RewritesBy};
ghost use Rattle.grid_base.specs.declared.order.Order.TheVariants.{RowMajor, ColumnMajor};

use crate::across::is_worth_laying_out;
use grid::{Grid, Order};
use std::alloc::Allocator;

/// Calls the closure with each row as a slice, from the first on, and leaves in the grid what it leaves there. The size
/// and the order stay.
///
///     [[3, 1, 2], [6, 5, 4]]   rewrite_rows(grid, |row| row.reverse())   [[2, 1, 3], [4, 5, 6]]
///
/// Requires: the closure can always be called.
/// Cost: one call for each row; no memory. In a column-major grid also two swaps for each cell, by which each row comes
/// to the front of the storage and goes back, or, of 64 rows and columns or more, two times [`lay_out`](Grid::lay_out).
pub fn rewrite_rows<T, A: Allocator, F: FnMut(&mut [T])>(grid: &mut Grid<T, A>, f: F)
    requires { F.IsAlwaysCallable f }
    ensures rows { AreRewritten F.FnMut f grid.old.rows grid.new.rows }
    ensures pure { (change : List T → List T) → RewritesBy F.step f change
        → grid.new.rows ≡ map change grid.old.rows }
    ensures row_count { row_count grid.new.rows ≡ row_count grid.old.rows }
    ensures col_count { col_count grid.new.rows ≡ col_count grid.old.rows }
    ensures order { grid.new.order ≡ grid.old.order }
{
    if is_worth_laying_out(grid) {
        grid.lay_out(Order::RowMajor);
        rewrite_stored(grid, f);
        grid.lay_out(Order::ColumnMajor);
    } else {
        rewrite_stored(grid, f);
    }
}

/// Calls the closure with each column as a slice, from the first on, and leaves in the grid what it leaves there. The
/// size and the order stay.
///
///     [[3, 1], [2, 5], [1, 4]]   rewrite_cols(grid, |col| col.reverse())   [[1, 4], [2, 5], [3, 1]]
///
/// Requires: the closure can always be called.
/// Cost: that of [`rewrite_rows`], with the orders and the words row and column exchanged.
pub fn rewrite_cols<T, A: Allocator, F: FnMut(&mut [T])>(grid: &mut Grid<T, A>, f: F)
    requires { F.IsAlwaysCallable f }
    ensures cols { AreRewritten F.FnMut f (transposed grid.old.rows) (transposed grid.new.rows) }
    ensures pure { (change : List T → List T) → RewritesBy F.step f change
        → transposed grid.new.rows ≡ map change (transposed grid.old.rows) }
    ensures row_count { row_count grid.new.rows ≡ row_count grid.old.rows }
    ensures col_count { col_count grid.new.rows ≡ col_count grid.old.rows }
    ensures order { grid.new.order ≡ grid.old.order }
{
    grid.transpose();
    rewrite_rows(grid, f);
    grid.transpose();
}

// Rewrites the rows where they are.
fn rewrite_stored<T, A: Allocator, F: FnMut(&mut [T])>(grid: &mut Grid<T, A>, f: F)
    requires { F.IsAlwaysCallable f }
    ensures rows { AreRewritten F.FnMut f grid.old.rows grid.new.rows }
    ensures pure { (change : List T → List T) → RewritesBy F.step f change
        → grid.new.rows ≡ map change grid.old.rows }
    ensures row_count { row_count grid.new.rows ≡ row_count grid.old.rows }
    ensures col_count { col_count grid.new.rows ≡ col_count grid.old.rows }
    ensures order { grid.new.order ≡ grid.old.order }
{
    let (rows, cols) = grid.size();
    match grid.order() {
        Order::RowMajor => rewrite_along(grid.as_mut_slice(), rows, cols, f),
        Order::ColumnMajor => rewrite_across(grid.as_mut_slice(), rows, cols, f),
    }
}

// Rewrites the rows of a row-major table, which are one after another.
fn rewrite_along<T, F: FnMut(&mut [T])>(cells: &mut [T], rows: usize, cols: usize, mut f: F)
    requires size { HoldsSize rows cols (length cells.old) }
    requires callable { F.IsAlwaysCallable f }
    ensures { AreRewritten F.FnMut f
        (table_of RowMajor rows cols cells.old) (table_of RowMajor rows cols cells.new) }
{
    for row in 0..rows {
        let start = row * cols;
        f(&mut cells[start..start + cols]);
    }
}

// Rewrites the rows of a column-major table, each at the front of the storage.
fn rewrite_across<T, F: FnMut(&mut [T])>(cells: &mut [T], rows: usize, cols: usize, mut f: F)
    requires size { HoldsSize rows cols (length cells.old) }
    requires callable { F.IsAlwaysCallable f }
    ensures { AreRewritten F.FnMut f
        (table_of ColumnMajor rows cols cells.old) (table_of ColumnMajor rows cols cells.new) }
{
    for row in 0..rows {
        bring(cells, rows, cols, row);
        f(&mut cells[..cols]);
        take_back(cells, rows, cols, row);
    }
}

// Brings the cells of a row of a column-major table to the front of the storage, one after another.
fn bring<T>(cells: &mut [T], rows: usize, cols: usize, row: usize)
    requires cells { length cells.old ≡ rows * cols }
    requires row_in { row < rows }
    ensures { cells.new ≡ brought rows row cols cells.old }
{
    for col in 0..cols {
        cells.swap(col, col * rows + row);
    }
}

// Takes them back, from the last one on.
fn take_back<T>(cells: &mut [T], rows: usize, cols: usize, row: usize)
    requires cells { length cells.old ≡ rows * cols }
    requires row_in { row < rows }
    ensures { cells.new ≡ taken_back rows row cols cells.old }
{
    for col in (0..cols).rev() {
        cells.swap(col, col * rows + row);
    }
}
