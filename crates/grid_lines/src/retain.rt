//! Rows and columns that are kept where a test says so.
ghost use Rattle.std.specs.Prelude.{◌≡◌, Bool, List, filter};
ghost use Rattle.grid_lines.specs.Prelude.{IsFiltered, transposed, LinesInOrder, AnswersAlways, AnswersBy};

use grid::{Grid, GridLineIter};
use std::alloc::Allocator;

/// Keeps the rows for which the closure returns true, in their order, and drops the others. It is called once for each
/// row, from the first on. With no row left the size is (0, 0). The order stays.
///
///     [[1, 1], [1, 0], [0, 0]]   retain_rows(grid, |mut row| row.any(|x| *x == 0))   [[1, 0], [0, 0]]
///
/// Requires: the closure can always be called.
/// Cost: one call for each row, one swap for each cell of a row that is kept after one that isn't; no memory. In a
/// column-major grid also that of [`delete_rows`](Grid::delete_rows).
pub fn retain_rows<T: Drop, A: Allocator, F: FnMut(GridLineIter<'_, T>) -> bool>(
    grid: &mut Grid<T, A>,
    mut f: F,
)
    requires { F.IsAlwaysCallable f }
    ensures rows { IsFiltered F.step f grid.old.rows grid.new.rows }
    ensures pure { (test : List T → Bool) → AnswersBy F.step f test
        → grid.new.rows ≡ filter test grid.old.rows }
    ensures always { (test : List T → Bool) → AnswersAlways F.step test
        → grid.new.rows ≡ filter test grid.old.rows }
    ensures along { LinesInOrder T }
    ensures order { grid.new.order ≡ grid.old.order }
{
    let rows = grid.rows();
    let mut kept = 0usize;
    for row in 0..rows {
        if f(grid.iter_row(row)) {
            if kept != row {
                grid.swap_rows(kept, row);
            }
            kept += 1;
        }
    }
    grid.delete_rows(kept, rows - kept);
}

/// Keeps the columns for which the closure returns true, in their order, and drops the others. It is called once for
/// each column, from the first on. With no column left the size is (0, 0). The order stays.
///
///     [[1, 2, 3], [4, 5, 6]]   retain_cols(grid, |mut col| col.all(|x| *x != 5))   [[1, 3], [4, 6]]
///
/// Requires: the closure can always be called.
/// Cost: one call for each column, one swap for each cell of a column that is kept after one that isn't; no memory. In
/// a row-major grid also that of [`delete_cols`](Grid::delete_cols).
pub fn retain_cols<T: Drop, A: Allocator, F: FnMut(GridLineIter<'_, T>) -> bool>(
    grid: &mut Grid<T, A>,
    f: F,
)
    requires { F.IsAlwaysCallable f }
    ensures cols { IsFiltered F.step f (transposed grid.old.rows) (transposed grid.new.rows) }
    ensures pure { (test : List T → Bool) → AnswersBy F.step f test
        → transposed grid.new.rows ≡ filter test (transposed grid.old.rows) }
    ensures always { (test : List T → Bool) → AnswersAlways F.step test
        → transposed grid.new.rows ≡ filter test (transposed grid.old.rows) }
    ensures along { LinesInOrder T }
    ensures order { grid.new.order ≡ grid.old.order }
{
    grid.transpose();
    retain_rows(grid, f);
    grid.transpose();
}
