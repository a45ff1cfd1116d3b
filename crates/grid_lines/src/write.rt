//! Rows and columns that are written from an iterator, as far as its items go.
ghost use Rattle.std.specs.Prelude.{◌≡◌};
ghost use Rattle.std.specs.Iterator.Runs.{SomeRun};
ghost use Rattle.grid_lines.specs.Prelude.{row_count, col_count, transposed, InRange, WritesLine, WritesNext};

use grid::Grid;
use std::alloc::Allocator;

/// Writes the items of an iterator into row `r`, from the first cell on, up to the end of the row or of the iterator,
/// and returns how many. The other cells stay, and so does the order of the grid. Out of range it returns 0: no item is
/// drawn.
///
///     [[1, 2], [3, 4]]   write_row(grid, 1, 8..)         2   [[1, 2], [8, 9]]
///     [[1, 2], [3, 4]]   write_row(grid, 1, once(8))     1   [[1, 2], [8, 4]]
///     [[1, 2], [3, 4]]   write_row(grid, 2, once(8))     0   [[1, 2], [3, 4]]
///
/// Once the row is full, no further item is drawn: after `write_row(grid, r, &mut items)`, `items` goes on with the
/// next.
///
/// Requires: `next` of the iterator can be called, which those of std and of a grid need nothing for.
/// Cost: a write for each item, and a call of `next` for each, and one more where the iterator ends first; no memory.
pub fn write_row<T: Drop, A: Allocator, I: Iterator<Item = T>>(
    grid: &mut Grid<T, A>,
    r: usize,
    mut items: I,
) -> usize
    requires { I.can_next items }
    ensures rows { SomeRun I.next_gives items (WritesLine grid.old.rows r grid.new.rows result) }
    ensures row_count { row_count grid.new.rows ≡ row_count grid.old.rows }
    ensures col_count { col_count grid.new.rows ≡ col_count grid.old.rows }
    ensures order { grid.new.order ≡ grid.old.order }
{
    let (rows, cols) = grid.size();
    if rows <= r {
        return 0;
    }
    for col in 0..cols {
        if !write_next(grid, (r, col), &mut items) {
            return col;
        }
    }
    cols
}

// Writes the next item of an iterator into a cell, and returns whether there was one.
fn write_next<T: Drop, A: Allocator, I: Iterator<Item = T>>(
    grid: &mut Grid<T, A>,
    at: (usize, usize),
    items: &mut I,
) -> bool
    requires can { I.can_next items.old }
    requires in_range { InRange grid.old.rows at.0 at.1 }
    ensures item { WritesNext I.can_next I.next_gives items.old items.new at
        grid.old.rows grid.new.rows result }
    ensures row_count { row_count grid.new.rows ≡ row_count grid.old.rows }
    ensures col_count { col_count grid.new.rows ≡ col_count grid.old.rows }
    ensures order { grid.new.order ≡ grid.old.order }
{
    match items.next() {
        Some(item) => {
            grid.set(at.0, at.1, item);
            true
        }
        None => false,
    }
}

/// Writes the items of an iterator into column `c`, from the first cell on, up to the end of the column or of the
/// iterator, and returns how many. The other cells stay, and so does the order of the grid. Out of range it returns 0:
/// no item is drawn.
///
///     [[1, 2], [3, 4]]   write_col(grid, 1, 8..)        2   [[1, 8], [3, 9]]
///     [[1, 2], [3, 4]]   write_col(grid, 1, once(8))    1   [[1, 8], [3, 4]]
///
/// Requires: as [`write_row`].
/// Cost: that of [`write_row`].
pub fn write_col<T: Drop, A: Allocator, I: Iterator<Item = T>>(
    grid: &mut Grid<T, A>,
    c: usize,
    items: I,
) -> usize
    requires { I.can_next items }
    ensures cols { SomeRun I.next_gives items
        (WritesLine (transposed grid.old.rows) c (transposed grid.new.rows) result) }
    ensures row_count { row_count grid.new.rows ≡ row_count grid.old.rows }
    ensures col_count { col_count grid.new.rows ≡ col_count grid.old.rows }
    ensures order { grid.new.order ≡ grid.old.order }
{
    grid.transpose();
    let count = write_row(grid, c, items);
    grid.transpose();
    count
}
