//! Parts of two grids of one order that change places, parts that the cells of another grid are moved into, and parts
//! that take the cells of a view.
ghost use Rattle.std.specs.Prelude.{◌≡◌, ◌+◌, ◌-◌, ◌<◌, ◌≤◌, length, take, vec_len};
ghost use Rattle.grid.specs.Prelude.{BlockTaken, row, row_count, col_count, InRow, InRows, PartTaken, RowTaken, held};
ghost use Rattle.grid_base.specs.declared.order.Order.TheVariants.{RowMajor};

use crate::Grid;
use grid_base::{Order, move_last};
use grid_view::GridView;
use std::alloc::Allocator;

// Exchanges the first `size.0` rows and `size.1` columns of `from` with as many of `to` from position `at` on.
pub(crate) fn exchange_part<T, A: Allocator>(
    to: &mut Grid<T, A>,
    from: &mut Grid<T, A>,
    at: (usize, usize),
    size: (usize, usize),
)
    requires orders { from.old.order ≡ to.old.order }
    requires to_rows { at.0 + size.0 ≤ row_count to.old.rows }
    requires to_cols { at.1 + size.1 ≤ col_count to.old.rows }
    requires from_rows { size.0 ≤ row_count from.old.rows }
    requires from_cols { size.1 ≤ col_count from.old.rows }
    ensures { PartTaken (InRows size.0 size.1) at to.old from.old to.new from.new }
{
    match to.order {
        Order::RowMajor => exchange_rows(to, from, at, size),
        Order::ColumnMajor => {
            to.transpose();
            from.transpose();
            exchange_rows(to, from, (at.1, at.0), (size.1, size.0));
            to.transpose();
            from.transpose();
        }
    }
}

// The same in row-major order.
fn exchange_rows<T, A: Allocator>(
    to: &mut Grid<T, A>,
    from: &mut Grid<T, A>,
    at: (usize, usize),
    size: (usize, usize),
)
    requires order { to.old.order ≡ RowMajor }
    requires from_order { from.old.order ≡ RowMajor }
    requires to_rows { at.0 + size.0 ≤ row_count to.old.rows }
    requires to_cols { at.1 + size.1 ≤ col_count to.old.rows }
    requires from_rows { size.0 ≤ row_count from.old.rows }
    requires from_cols { size.1 ≤ col_count from.old.rows }
    ensures { PartTaken (InRows size.0 size.1) at to.old from.old to.new from.new }
{
    for row in 0..size.0 {
        exchange_row(to, from, at, row, size.1);
    }
}

// Exchanges the first `cols` cells of a row of `from`, which are side by side, with as many of `to`.
fn exchange_row<T, A: Allocator>(
    to: &mut Grid<T, A>,
    from: &mut Grid<T, A>,
    at: (usize, usize),
    row: usize,
    cols: usize,
)
    requires order { to.old.order ≡ RowMajor }
    requires from_order { from.old.order ≡ RowMajor }
    requires to_row { at.0 + row < row_count to.old.rows }
    requires to_cols { at.1 + cols ≤ col_count to.old.rows }
    requires from_row { row < row_count from.old.rows }
    requires from_cols { cols ≤ col_count from.old.rows }
    ensures { PartTaken (InRow row cols) at to.old from.old to.new from.new }
{
    let (width, from_width) = (to.col_count, from.col_count);
    let start = (at.0 + row) * width + at.1;
    to.flat
        .swap_with(start, &mut from.flat, row * from_width, cols);
}

// Moves the cells of `from` over those of `to` from position `at` on, which are dropped.
pub(crate) fn move_part<T: Drop, A: Allocator>(
    to: &mut Grid<T, A>,
    mut from: Grid<T, A>,
    at: (usize, usize),
)
    requires orders { from.order ≡ to.old.order }
    requires to_rows { at.0 + row_count from.rows ≤ row_count to.old.rows }
    requires to_cols { at.1 + col_count from.rows ≤ col_count to.old.rows }
    ensures { PartTaken (InRows (row_count from.rows) (col_count from.rows)) at
        to.old from to.new from }
{
    match to.order {
        Order::RowMajor => move_rows(to, from, at),
        Order::ColumnMajor => {
            to.transpose();
            from.transpose();
            move_rows(to, from, (at.1, at.0));
            to.transpose();
        }
    }
}

// The same in row-major order. The rows leave the end of the vector, the last one first.
fn move_rows<T: Drop, A: Allocator>(to: &mut Grid<T, A>, from: Grid<T, A>, at: (usize, usize))
    requires order { to.old.order ≡ RowMajor }
    requires from_order { from.order ≡ RowMajor }
    requires to_rows { at.0 + row_count from.rows ≤ row_count to.old.rows }
    requires to_cols { at.1 + col_count from.rows ≤ col_count to.old.rows }
    ensures { PartTaken (InRows (row_count from.rows) (col_count from.rows)) at
        to.old from to.new from }
{
    let (rows, cols) = from.size();
    let mut cells = from.into_vec();
    for row in (0..rows).rev() {
        cells = move_row(to, cells, at, row, cols);
    }
}

// Moves the last `cols` cells of a vector over those of a row of `to`, which are side by side, and returns the vector.
fn move_row<T: Drop, A: Allocator>(
    to: &mut Grid<T, A>,
    cells: Vec<T, A>,
    at: (usize, usize),
    row: usize,
    cols: usize,
) -> Vec<T, A>
    requires order { to.old.order ≡ RowMajor }
    requires to_row { at.0 + row < row_count to.old.rows }
    requires to_cols { at.1 + cols ≤ col_count to.old.rows }
    requires enough { cols ≤ vec_len cells }
    ensures taken { RowTaken row (vec_len cells - cols) cols cells.items at to.old to.new }
    ensures rest { result.items ≡ take (vec_len cells - cols) cells.items }
{
    let start = (at.0 + row) * to.col_count + at.1;
    move_last(to.flat.as_mut_slice(), start, cells, cols)
}

// Writes copies of the cells of a view over those of `to` from position `at` on.
pub(crate) fn copy_part<T: Copy, A: Allocator>(
    to: &mut Grid<T, A>,
    at: (usize, usize),
    view: &GridView<'_, T>,
)
    requires to_rows { at.0 + row_count view.now.rows ≤ row_count to.old.rows }
    requires to_cols { at.1 + col_count view.now.rows ≤ col_count to.old.rows }
    ensures { PartTaken (InRows (row_count view.now.rows) (col_count view.now.rows)) at
        to.old (held view.now) to.new (held view.now) }
{
    match to.order {
        Order::RowMajor => copy_rows(to, at, view),
        Order::ColumnMajor => {
            to.transpose();
            copy_rows(to, (at.1, at.0), &view.transposed());
            to.transpose();
        }
    }
}

// The same in row-major order.
fn copy_rows<T: Copy, A: Allocator>(to: &mut Grid<T, A>, at: (usize, usize), view: &GridView<'_, T>)
    requires order { to.old.order ≡ RowMajor }
    requires to_rows { at.0 + row_count view.now.rows ≤ row_count to.old.rows }
    requires to_cols { at.1 + col_count view.now.rows ≤ col_count to.old.rows }
    ensures { PartTaken (InRows (row_count view.now.rows) (col_count view.now.rows)) at
        to.old (held view.now) to.new (held view.now) }
{
    for row in 0..view.rows() {
        copy_row(to, at, view, row);
    }
}

// Writes copies of the cells of a row of a view over those of `to`, which are side by side.
fn copy_row<T: Copy, A: Allocator>(
    to: &mut Grid<T, A>,
    at: (usize, usize),
    view: &GridView<'_, T>,
    row: usize,
)
    requires order { to.old.order ≡ RowMajor }
    requires to_row { at.0 + row < row_count to.old.rows }
    requires to_cols { at.1 + col_count view.now.rows ≤ col_count to.old.rows }
    requires row_in { row < row_count view.now.rows }
    ensures { PartTaken (InRow row (col_count view.now.rows)) at
        to.old (held view.now) to.new (held view.now) }
{
    let start = (at.0 + row) * to.col_count + at.1;
    copy_line(to.flat.as_mut_slice(), start, view, row);
}

// Writes copies of the cells of a row of a view over those of a slice, from place `start` on.
fn copy_line<T: Copy>(cells: &mut [T], start: usize, view: &GridView<'_, T>, line: usize)
    requires line_in { line < row_count view.now.rows }
    requires within { start + col_count view.now.rows ≤ length cells.old }
    ensures { BlockTaken start 0 (col_count view.now.rows)
        cells.old (row view.now.rows line) cells.new }
{
    let end = start + view.cols();
    view.copy_row(line, &mut cells[start..end]);
}
