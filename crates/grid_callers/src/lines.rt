//! Callers of `grid_lines`, of which only `sort_cells` has a proof file.
ghost use Rattle.std.specs.Prelude.{◌≡◌, ◌<◌, ℕ, nat_lt, not, count_by, filter, map, reverse, slice_index_or, OnOk, OnErr, IfOk, IsPermutation};
ghost use Rattle.grid.specs.Prelude.{row, row_count, col_count};
ghost use Rattle.std.specs.Ordering.{nat_cmp};
ghost use Rattle.grid_callers.specs.Score.{full_rows};
ghost use Rattle.grid_lines.specs.SortedLines.{AscendBy, AscendByKey};
ghost use Rattle.grid_lines.specs.Written.{with_first_cells};

use grid::{Grid, GridLineIter};
use grid_lines::{
    into_rows, retain_rows, rewrite_rows, sort_cols_by, sort_rows_by, sort_rows_by_key, to_rows,
    write_row,
};
use std::alloc::{AllocError, Allocator};
use std::cmp::Ordering;

/// Drops the rows that are full, as a board game does: keeps those that have a free cell.
pub fn clear_full_rows<A: Allocator>(grid: &mut Grid<bool, A>)
    ensures { grid.new.rows ≡ filter (λ row. nat_lt 0 (count_by (λ x. not x) row)) grid.old.rows }
{
    retain_rows(grid, |row| 0 < row.filter(|cell| !**cell).count());
}

/// Returns how many rows are full.
pub fn count_full(grid: &Grid<u8>) -> usize
    ensures { result ≡ full_rows grid.now.rows }
{
    grid.iter_rows()
        .map(|row| row.filter(|x| **x == 0).count())
        .filter(|empty| *empty == 0)
        .count()
}

/// Sorts the rows of a sheet by their second cell, or 0 where there is none. Rows with the same one stay in their
/// order.
///
///     [[1, 9], [2, 5], [3, 9]]   sort_by_second()   [[2, 5], [1, 9], [3, 9]]
///
/// Fails: if allocation fails; the sheet is unchanged.
pub fn sort_by_second<A: Allocator + Clone>(sheet: &mut Grid<u32, A>) -> Result<(), AllocError>
    ensures permutation { IsPermutation sheet.old.rows sheet.new.rows }
    ensures sorted { OnOk result
        (AscendByKey nat_cmp (λ row. slice_index_or row 1 0) sheet.new.rows) }
    ensures err { OnErr result (sheet.new ≡ sheet.old) }
{
    sort_rows_by_key(sheet, |mut row| row.nth(1).copied().unwrap_or(0))
}

// Compares two lines by their first cell, or 0 where there is none.
fn by_first(a: GridLineIter<'_, u32>, b: GridLineIter<'_, u32>) -> Ordering
    ensures { result ≡ nat_cmp (slice_index_or a.entry 0 0) (slice_index_or b.entry 0 0) }
{
    let (mut a, mut b) = (a, b);
    let x = a.next().copied().unwrap_or(0);
    let y = b.next().copied().unwrap_or(0);
    x.cmp(&y)
}

/// Sorts the rows of a sheet by their first cell, or 0 where there is none.
///
/// Fails: if allocation fails; the sheet is unchanged.
pub fn compare_by_first<A: Allocator + Clone>(sheet: &mut Grid<u32, A>) -> Result<(), AllocError>
    ensures sorted { OnOk result (AscendBy (λ row. slice_index_or row 0 0) sheet.new.rows) }
    ensures err { OnErr result (sheet.new ≡ sheet.old) }
{
    sort_rows_by(sheet, by_first)
}

/// Sorts the columns of a sheet by their first cell, and marks the first one. A sheet without cells stays as it is.
///
///     [[3, 2], [1, 4]]   sort_and_mark()   [[9, 3], [4, 1]]
///
/// Fails: if allocation fails; the sheet is unchanged.
pub fn sort_and_mark<A: Allocator + Clone>(sheet: &mut Grid<u32, A>) -> Result<(), AllocError> {
    if !sheet.is_empty() {
        sort_cols_by(sheet, by_first)?;
        sheet[(0, 0)] = 9;
    }
    Ok(())
}

// Reverses a line.
fn reversed<T>(line: &mut [T])
    ensures { line.new ≡ reverse line.old }
{
    line.reverse();
}

/// Reverses each row.
pub fn mirror<T, A: Allocator>(board: &mut Grid<T, A>)
    ensures { board.new.rows ≡ map reverse board.old.rows }
{
    rewrite_rows(board, reversed);
}

// Sorts a line.
fn sorted(line: &mut [u32])
    ensures { IsPermutation line.old line.new }
{
    line.sort_unstable();
}

/// Sorts within each row.
pub fn sort_cells<A: Allocator>(board: &mut Grid<u32, A>)
    ensures { (r : ℕ) → r < row_count board.old.rows
        → IsPermutation (row board.old.rows r) (row board.new.rows r) }
{
    rewrite_rows(board, sorted);
}

/// Writes cells into the first row, as far as it goes, and returns how many. Where they are fewer than the columns,
/// they are all written.
///
///     [[1, 2, 3], [4, 5, 6]]   put_first([8, 9])   2   [[8, 9, 3], [4, 5, 6]]
pub fn put_first<A: Allocator>(board: &mut Grid<u8, A>, cells: Vec<u8>) -> usize
    ensures { result < col_count board.old.rows
        → board.new.rows ≡ with_first_cells board.old.rows 0 cells.items }
{
    write_row(board, 0, cells.into_iter())
}

/// Returns the rows as vectors, or the board if allocation fails.
pub fn unpack<A: Allocator + Clone>(board: Grid<u8, A>) -> Result<Vec<Vec<u8, A>, A>, Grid<u8, A>>
    ensures { IfOk result (λ rows. map (λ row. row.items) rows.items ≡ board.rows) }
{
    into_rows(board)
}

/// Returns a copy of the rows as vectors.
pub fn rows_of<A: Allocator + Clone>(
    alloc: A,
    board: &Grid<u8, A>,
) -> Result<Vec<Vec<u8, A>, A>, AllocError>
    ensures { IfOk result (λ rows. map (λ row. row.items) rows.items ≡ board.now.rows) }
{
    to_rows(alloc, board)
}
