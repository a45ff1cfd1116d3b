//! Rows and columns that are rolled: the first ones go to the end.
ghost use Rattle.std.specs.Prelude.{◌≡◌, ◌<◌, ◌≤◌, ◌+◌, ◌^◌, ◌++◌, take, drop};
ghost use Rattle.grid.specs.Prelude.{row_count, col_count, transposed, PartReversed};

use grid::Grid;
use std::alloc::Allocator;

/// Moves each row up by `count`, and the first `count` rows to the end. The order stays.
///
///     [[1, 2], [3, 4], [5, 6]]   roll_rows(grid, 1)   [[3, 4], [5, 6], [1, 2]]
///
/// To move the rows down by `count`, roll them by the number of rows less `count`.
///
/// Requires: `count` is at most the number of rows.
/// Cost: at most two swaps for each cell; no memory.
pub fn roll_rows<T, A: Allocator>(grid: &mut Grid<T, A>, count: usize)
    requires { count ≤ row_count grid.old.rows }
    ensures rows { grid.new.rows ≡ drop count grid.old.rows ++ take count grid.old.rows }
    ensures row_count { row_count grid.new.rows ≡ row_count grid.old.rows }
    ensures col_count { col_count grid.new.rows ≡ col_count grid.old.rows }
    ensures order { grid.new.order ≡ grid.old.order }
{
    let rows = grid.rows();
    if count != 0 && count != rows {
        reverse_rows(grid, 0, count);
        reverse_rows(grid, count, rows - count);
        reverse_rows(grid, 0, rows);
    }
}

/// Moves each column left by `count`, and the first `count` columns to the end. The order stays.
///
///     [[1, 2, 3], [4, 5, 6]]   roll_cols(grid, 1)   [[2, 3, 1], [5, 6, 4]]
///
/// Requires: `count` is at most the number of columns.
/// Cost: at most two swaps for each cell; no memory.
pub fn roll_cols<T, A: Allocator>(grid: &mut Grid<T, A>, count: usize)
    requires { count ≤ col_count grid.old.rows }
    ensures cols { transposed grid.new.rows
        ≡ drop count (transposed grid.old.rows) ++ take count (transposed grid.old.rows) }
    ensures row_count { row_count grid.new.rows ≡ row_count grid.old.rows }
    ensures col_count { col_count grid.new.rows ≡ col_count grid.old.rows }
    ensures order { grid.new.order ≡ grid.old.order }
{
    grid.transpose();
    roll_rows(grid, count);
    grid.transpose();
}

// Reverses the `n` rows from row `start` on.
#[tactic(auto, using(grid_base::proofs::PartLemmas::turning_none, grid_base::proofs::PartLemmas::turning_more, grid_base::proofs::PartLemmas::turning_all))]
fn reverse_rows<T, A: Allocator>(grid: &mut Grid<T, A>, start: usize, n: usize)
    requires within { start + n ≤ row_count grid.old.rows }
    requires fits { start + n < 2 ^ 64 }
    ensures rows { PartReversed start n grid.old.rows grid.new.rows }
    ensures row_count { row_count grid.new.rows ≡ row_count grid.old.rows }
    ensures col_count { col_count grid.new.rows ≡ col_count grid.old.rows }
    ensures order { grid.new.order ≡ grid.old.order }
{
    for i in 0..n / 2 {
        grid.swap_rows(start + i, start + (n - 1 - i));
    }
}
