//! Small boards made large, to be seen.
ghost use Rattle.std.specs.Prelude.{◌≡◌, ◌*◌, IfOk};
ghost use Rattle.grid.specs.Prelude.{row_count, col_count, FailsBySize};
ghost use Rattle.grid_pnm.specs.Prelude.{enlarged};

use grid::{AsView, Grid, GridError, GridView, Order};
use std::alloc::Allocator;

/// Returns the row-major grid in which each cell fills a square of `scale` rows and columns.
///
///     [[1, 2]]   enlarged(alloc, board, 2)   [[1, 1, 2, 2], [1, 1, 2, 2]]
///
/// Fails: `TooLarge` where the cells exceed `usize::MAX`, else `Memory`.
/// Cost: one copy for each cell of the new grid; one allocation.
pub fn enlarged<T: Copy, V: AsView<T>, A: Allocator>(
    alloc: A,
    board: &V,
    scale: usize,
) -> Result<Grid<T, A>, GridError>
    ensures rows { IfOk result (λ g. g.rows ≡ enlarged scale (V.rows board.now)) }
    ensures order { IfOk result (λ g. g.order ≡ Order.RowMajor) }
    ensures fails { FailsBySize (row_count (V.rows board.now) * scale)
        (col_count (V.rows board.now) * scale) result }
{
    enlarged_view(alloc, &board.as_view(), scale)
}

// The same, of a view.
fn enlarged_view<T: Copy, A: Allocator>(
    alloc: A,
    board: &GridView<'_, T>,
    scale: usize,
) -> Result<Grid<T, A>, GridError>
    ensures rows { IfOk result (λ g. g.rows ≡ enlarged scale board.now.rows) }
    ensures order { IfOk result (λ g. g.order ≡ Order.RowMajor) }
    ensures fails { FailsBySize (row_count board.now.rows * scale)
        (col_count board.now.rows * scale) result }
{
    let (rows, cols) = board.size();
    let (Some(rows), Some(cols)) = (rows.checked_mul(scale), cols.checked_mul(scale)) else {
        return Err(GridError::TooLarge);
    };
    Grid::from_fn(
        alloc,
        rows,
        cols,
        |(row, col)| *board.get_unchecked(row / scale, col / scale),
    )
}
