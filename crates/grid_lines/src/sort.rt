//! Rows and columns that are sorted, by a comparison or by a key of each, stably and by swaps.
ghost use Rattle.std.specs.Prelude.{◌≡◌, ℕ, List, OnOk, OnErr, IsPermutation, map};
ghost use Rattle.grid_lines.specs.Prelude.{range_with_len, LinesInOrder, row, row_count, col_count, transposed, AnswersBy, AlwaysComparesNumbers, AreSortedLines, AreStableLines, AscendBy, ComparesNumbers, AreSortedByKey, AreStableByKey, AscendByKey};

use crate::across::is_worth_laying_out;
use crate::indices::{row_indices, sorted_indices_by, sorted_indices_by_key};
use grid::{Grid, GridLineIter, Order};
use std::alloc::{AllocError, Allocator};
use std::cmp::Ordering;

/// Sorts the rows by what the closure returns for two of them. Rows that tie stay in their order. The order of the
/// storage stays.
///
///     [[3, 1], [2, 2], [3, 0]]   sort_rows_by(grid, |mut a, mut b| a.next().cmp(&b.next()))   [[2, 2], [3, 1], [3, 0]]
///
/// If the comparison is no strict weak order, the order of the rows is unspecified.
///
/// Requires: the closure can always be called.
/// Fails: if allocation fails; the grid is unchanged.
/// Cost: `rows * log(rows)` calls, at most `rows * cols` swaps, and memory for four indices for each row. A
/// column-major grid of 64 rows and columns or more is laid out row by row for the swaps, and back.
pub fn sort_rows_by<T, A: Allocator + Clone, F>(
    grid: &mut Grid<T, A>,
    compare: F,
) -> Result<(), AllocError>
where
    F: FnMut(GridLineIter<'_, T>, GridLineIter<'_, T>) -> Ordering,
    requires { F.IsAlwaysCallable compare }
    ensures permutation { IsPermutation grid.old.rows grid.new.rows }
    ensures sorted { OnOk result (AreSortedLines F.FnMut compare grid.new.rows) }
    ensures by_number { (n : List T → ℕ) → ComparesNumbers F.step compare n
        → OnOk result (AscendBy n grid.new.rows) }
    ensures always { (n : List T → ℕ) → AlwaysComparesNumbers F.step n
        → OnOk result (AscendBy n grid.new.rows) }
    ensures stable { AreStableLines F.FnMut compare grid.old.rows grid.new.rows }
    ensures err { OnErr result (grid.new ≡ grid.old) }
    ensures along { LinesInOrder T }
    ensures row_count { row_count grid.new.rows ≡ row_count grid.old.rows }
    ensures col_count { col_count grid.new.rows ≡ col_count grid.old.rows }
    ensures order { grid.new.order ≡ grid.old.order }
{
    let wanted = sorted_indices_by(grid, compare)?;
    put_in_order(grid, &wanted)?;
    Ok(())
}

/// Sorts the columns by what the closure returns for two of them. Columns that tie stay in their order. The order of
/// the storage stays.
///
///     [[3, 2, 3], [1, 2, 0]]   sort_cols_by(grid, |mut a, mut b| a.next().cmp(&b.next()))   [[2, 3, 3], [2, 1, 0]]
///
/// If the comparison is no strict weak order, the order of the columns is unspecified.
///
/// Requires: the closure can always be called.
/// Fails: if allocation fails; the grid is unchanged.
/// Cost: that of [`sort_rows_by`], with the orders and the words row and column exchanged.
pub fn sort_cols_by<T, A: Allocator + Clone, F>(
    grid: &mut Grid<T, A>,
    compare: F,
) -> Result<(), AllocError>
where
    F: FnMut(GridLineIter<'_, T>, GridLineIter<'_, T>) -> Ordering,
    requires { F.IsAlwaysCallable compare }
    ensures permutation { IsPermutation (transposed grid.old.rows) (transposed grid.new.rows) }
    ensures sorted { OnOk result (AreSortedLines F.FnMut compare (transposed grid.new.rows)) }
    ensures by_number { (n : List T → ℕ) → ComparesNumbers F.step compare n
        → OnOk result (AscendBy n (transposed grid.new.rows)) }
    ensures always { (n : List T → ℕ) → AlwaysComparesNumbers F.step n
        → OnOk result (AscendBy n (transposed grid.new.rows)) }
    ensures stable { AreStableLines F.FnMut compare
        (transposed grid.old.rows) (transposed grid.new.rows) }
    ensures err { OnErr result (grid.new ≡ grid.old) }
    ensures along { LinesInOrder T }
    ensures row_count { row_count grid.new.rows ≡ row_count grid.old.rows }
    ensures col_count { col_count grid.new.rows ≡ col_count grid.old.rows }
    ensures order { grid.new.order ≡ grid.old.order }
{
    grid.transpose();
    let sorted = sort_rows_by(grid, compare);
    grid.transpose();
    sorted
}

/// Sorts the rows by the key that the closure returns for each. It is called once for each row, if there are two or
/// more. Rows whose keys tie stay in their order. The order of the storage stays.
///
///     [[3, 1], [2, 2], [3, 0]]   sort_rows_by_key(grid, |row| row.copied().sum::<u32>())   [[3, 0], [3, 1], [2, 2]]
///
/// If the keys are not a function of the row, the order of the rows is unspecified.
///
/// Requires: the closure can always be called.
/// Fails: if allocation fails; the grid is unchanged.
/// Cost: `rows` calls, `rows * log(rows)` comparisons, at most `rows * cols` swaps, and memory for a key and four
/// indices for each row. A column-major grid of 64 rows and columns or more is laid out row by row for the swaps, and
/// back.
pub fn sort_rows_by_key<T, K: Ord + Drop, A: Allocator + Clone, F>(
    grid: &mut Grid<T, A>,
    key: F,
) -> Result<(), AllocError>
where
    F: FnMut(GridLineIter<'_, T>) -> K,
    requires { F.IsAlwaysCallable key }
    ensures permutation { IsPermutation grid.old.rows grid.new.rows }
    ensures sorted { OnOk result (AreSortedByKey F.FnMut K.cmp key grid.new.rows) }
    ensures by_key { (given : List T → K) → AnswersBy F.step key given
        → OnOk result (AscendByKey K.cmp given grid.new.rows) }
    ensures stable { AreStableByKey F.FnMut K.cmp key grid.old.rows grid.new.rows }
    ensures err { OnErr result (grid.new ≡ grid.old) }
    ensures along { LinesInOrder T }
    ensures row_count { row_count grid.new.rows ≡ row_count grid.old.rows }
    ensures col_count { col_count grid.new.rows ≡ col_count grid.old.rows }
    ensures order { grid.new.order ≡ grid.old.order }
{
    let wanted = sorted_indices_by_key(grid, key)?;
    put_in_order(grid, &wanted)?;
    Ok(())
}

/// Sorts the columns by the key that the closure returns for each. It is called once for each column, if there are two
/// or more. Columns whose keys tie stay in their order. The order of the storage stays.
///
///     [[3, 2, 3], [1, 2, 0]]   sort_cols_by_key(grid, |col| col.copied().sum::<u32>())   [[3, 3, 2], [0, 1, 2]]
///
/// If the keys are not a function of the column, the order of the columns is unspecified.
///
/// Requires: the closure can always be called.
/// Fails: if allocation fails; the grid is unchanged.
/// Cost: that of [`sort_rows_by_key`], with the orders and the words row and column exchanged.
pub fn sort_cols_by_key<T, K: Ord + Drop, A: Allocator + Clone, F>(
    grid: &mut Grid<T, A>,
    key: F,
) -> Result<(), AllocError>
where
    F: FnMut(GridLineIter<'_, T>) -> K,
    requires { F.IsAlwaysCallable key }
    ensures permutation { IsPermutation (transposed grid.old.rows) (transposed grid.new.rows) }
    ensures sorted { OnOk result (AreSortedByKey F.FnMut K.cmp key (transposed grid.new.rows)) }
    ensures by_key { (given : List T → K) → AnswersBy F.step key given
        → OnOk result (AscendByKey K.cmp given (transposed grid.new.rows)) }
    ensures stable { AreStableByKey F.FnMut K.cmp key
        (transposed grid.old.rows) (transposed grid.new.rows) }
    ensures err { OnErr result (grid.new ≡ grid.old) }
    ensures along { LinesInOrder T }
    ensures row_count { row_count grid.new.rows ≡ row_count grid.old.rows }
    ensures col_count { col_count grid.new.rows ≡ col_count grid.old.rows }
    ensures order { grid.new.order ≡ grid.old.order }
{
    grid.transpose();
    let sorted = sort_rows_by_key(grid, key);
    grid.transpose();
    sorted
}

// Puts the rows into the wanted order: row `wanted[0]` first, and so on. If allocation fails, the grid is unchanged.
fn put_in_order<T, A: Allocator + Clone>(
    grid: &mut Grid<T, A>,
    wanted: &[usize],
) -> Result<(), AllocError>
    requires { IsPermutation (range_with_len 0 (row_count grid.old.rows)) wanted.now }
    ensures rows { OnOk result (grid.new.rows ≡ map (row grid.old.rows) wanted.now) }
    ensures err { OnErr result (grid.new ≡ grid.old) }
    ensures row_count { row_count grid.new.rows ≡ row_count grid.old.rows }
    ensures col_count { col_count grid.new.rows ≡ col_count grid.old.rows }
    ensures order { grid.new.order ≡ grid.old.order }
{
    let mut holds = row_indices(grid)?;
    let mut places = row_indices(grid)?;
    if is_worth_laying_out(grid) {
        grid.lay_out(Order::RowMajor);
        arrange(grid, wanted, &mut holds, &mut places);
        grid.lay_out(Order::ColumnMajor);
        return Ok(());
    }
    arrange(grid, wanted, &mut holds, &mut places);
    Ok(())
}

// Puts the rows into the wanted order by swaps. Row `p` now is the old row `holds[p]`, and the old row `r` is now at
// `places[r]`; both are the identity at the start.
fn arrange<T, A: Allocator>(
    grid: &mut Grid<T, A>,
    wanted: &[usize],
    holds: &mut [usize],
    places: &mut [usize],
)
    requires wanted { IsPermutation (range_with_len 0 (row_count grid.old.rows)) wanted.now }
    requires holds { holds.old ≡ range_with_len 0 (row_count grid.old.rows) }
    requires places { places.old ≡ range_with_len 0 (row_count grid.old.rows) }
    ensures rows { grid.new.rows ≡ map (row grid.old.rows) wanted.now }
    ensures row_count { row_count grid.new.rows ≡ row_count grid.old.rows }
    ensures col_count { col_count grid.new.rows ≡ col_count grid.old.rows }
    ensures order { grid.new.order ≡ grid.old.order }
{
    for i in 0..wanted.len() {
        let row = wanted[i];
        let place = places[row];
        places.swap(row, holds[i]);
        holds.swap(i, place);
        grid.swap_rows(i, place);
    }
}
