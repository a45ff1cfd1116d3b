//! Parts of a board, and lines that change places, with no proof file.
ghost use Rattle.std.specs.Prelude.{◌≡◌, ◌-◌, IfSome, swap};
ghost use Rattle.grid.specs.Prelude.{row_count, InRange, sub_table};

use grid::{Grid, GridView, Order, Symmetry};

/// Returns the upper left corner of two rows and three columns, or `None` where the board is smaller, or if allocation
/// fails.
///
///     [[1, 2, 3, 4], [5, 6, 7, 8]]   corner()   Some([[1, 2, 3], [5, 6, 7]])
pub fn corner(grid: &Grid<u8>) -> Option<Grid<u8>>
    ensures rows { IfSome result (λ part. part.rows ≡ sub_table grid.now.rows (0, 0) (2, 3)) }
    ensures last { IfSome result (λ part. InRange part.rows 1 2) }
    ensures order { IfSome result (λ part. part.order ≡ grid.now.order) }
{
    if grid.rows() < 2 || grid.cols() < 3 {
        return None;
    }
    grid.sub_grid((0, 0), (2, 3)).ok()
}

/// Exchanges the first row with another, and then the first two columns, and returns the first cell. Where a line isn't
/// there, nothing changes.
pub fn bring_up(grid: &mut Grid<u8>, row: usize) -> Option<u8> {
    if row < grid.rows() && 1 < grid.cols() {
        grid.swap_rows(0, row);
        grid.swap_cols(0, 1);
        return Some(grid[(0, 0)]);
    }
    None
}

/// Moves the last row to the top and the first to the end, if there are rows.
///
///     [[1, 2], [3, 4], [5, 6]]   swap_ends()   [[5, 6], [3, 4], [1, 2]]
pub fn swap_ends(grid: &mut Grid<u8>)
    ensures { grid.new.rows ≡ swap grid.old.rows 0 (row_count grid.old.rows - 1) }
{
    if !grid.is_empty() {
        grid.swap_rows(0, grid.rows() - 1);
    }
}

/// Returns how many cells of a window are free, or `None` where it isn't within the board. An index within the size
/// that was asked for needs no test.
pub fn free_in_window(
    board: &Grid<bool>,
    at: (usize, usize),
    size: (usize, usize),
) -> Option<usize> {
    let window = board.get_part(at, size)?;
    let mut count = 0usize;
    for row in 0..size.0 {
        for col in 0..size.1 {
            if window[(row, col)] {
                count = count.saturating_add(1);
            }
        }
    }
    Some(count)
}

/// Returns the cell that is in the lower right corner of a window of three rows and four columns once it is turned to
/// the left.
///
///     [[1, 2, 3, 4], [5, 6, 7, 8], [9, 0, 1, 2]]   corner_turned((0, 0))   Some(9)
pub fn corner_turned(board: &Grid<u8>, at: (usize, usize)) -> Option<u8> {
    let window = board.get_part(at, (3, 4))?;
    Some(window.turned(Symmetry::RotateLeft)[(3, 2)])
}

/// Returns the first cell of a buffer that holds rows of eight, once these are turned to the right; `None` where they
/// aren't whole.
pub fn first_turned(buffer: &[u8]) -> Option<u8> {
    let board = GridView::from_slice(buffer, Order::RowMajor, 8)?;
    board.turned(Symmetry::RotateRight).get(0, 0).copied()
}
