//! Boards that are joined, split and resized, then written by index, with no proof file: each call says the size that
//! it leaves.
ghost use Rattle.std.specs.Prelude.{◌≡◌, OnOk};

use grid::{Grid, GridError};
use std::alloc::{AllocError, Allocator};

/// Puts a board under another, and marks its first cell there. The error is returned by `?`.
///
///     [[1, 2]]   stack([[3, 4]])   [[1, 2], [9, 4]]
pub fn stack<A: Allocator>(board: &mut Grid<u8, A>, under: Grid<u8, A>) -> Result<bool, GridError> {
    if under.is_empty() || !board.fits_row(under.cols()) {
        return Ok(false);
    }
    let row = board.rows();
    board.append_rows(under)?;
    board[(row, 0)] = 9;
    Ok(true)
}

/// Puts a board next to another, and marks its last cell there; the board comes back if allocation fails.
///
///     [[1], [2]]   extend([[3], [4]])   [[1, 3], [2, 9]]
pub fn extend<A: Allocator>(
    board: &mut Grid<u8, A>,
    right: Grid<u8, A>,
) -> Result<(), Grid<u8, A>> {
    if right.is_empty() || !board.fits_col(right.rows()) {
        return Err(right);
    }
    match board.append_cols(right) {
        Ok(()) => {
            let (rows, cols) = board.size();
            board[(rows - 1, cols - 1)] = 9;
            Ok(())
        }
        Err(refused) => Err(refused.grid),
    }
}

/// Takes the lower half of a board out, and marks the last cell of what is left and the first of what was taken.
///
///     [[1, 2], [3, 4]]   lower_half()   [[9, 4]]   [[1, 9]]
pub fn lower_half<A: Allocator + Clone>(
    board: &mut Grid<u8, A>,
) -> Result<Grid<u8, A>, AllocError> {
    let (rows, cols) = board.size();
    let half = rows / 2;
    let mut lower = board.split_off_rows(half)?;
    if 0 < half {
        board[(half - 1, cols - 1)] = 9;
        lower[(0, 0)] = 9;
    }
    Ok(lower)
}

/// Splits a board, and appends what was split off: the board is what it was.
pub fn split_and_join<T: Drop, A: Allocator + Clone>(
    board: &mut Grid<T, A>,
    at: usize,
) -> Result<(), GridError>
    ensures { OnOk result (board.new.rows ≡ board.old.rows) }
{
    if 0 < at && at < board.rows() {
        let tail = board.split_off_rows(at)?;
        board.append_rows(tail)?;
    }
    Ok(())
}

/// Brings a board to four rows and four columns, and marks its last cell.
pub fn four_by_four<A: Allocator + Clone>(board: &mut Grid<u8, A>) -> Result<(), GridError> {
    board.resize(4, 4)?;
    board[(3, 3)] = 9;
    Ok(())
}

/// Keeps the first row and column of a board that has two of each, and returns whether it has: this allocates nothing,
/// so the error can't occur.
pub fn keep_first_cell<A: Allocator + Clone>(board: &mut Grid<u8, A>) -> bool {
    if 1 < board.rows() && 1 < board.cols() {
        match board.resize(1, 1) {
            Ok(()) => board[(0, 0)] = 9,
            Err(_) => unreachable!(),
        }
        return true;
    }
    false
}
