//! Places along a line, as rows and columns.
use grid::Grid;
use std::alloc::AllocError;

/// Returns where a disc lands in a column, or `None` where the column is full or isn't there.
pub fn landing(board: &mut Grid<u8>, col: usize, disc: u8) -> Option<usize> {
    let row = board.get_col(col)?.rposition(|x| *x == 0)?;
    board[(row, col)] = disc;
    Some(row)
}

/// Returns whether a row, a column and a block of three by three have no cell `x`.
pub fn clear_of(board: &Grid<u8>, row: usize, col: usize, x: u8) -> bool {
    let (Some(mut line), Some(mut column)) = (board.get_row(row), board.get_col(col)) else {
        return false;
    };
    line.all(|y| *y != x) && column.all(|y| *y != x)
}

/// Returns the largest cell of the first row that has no 0.
pub fn highest(board: &Grid<u8>) -> Option<u8> {
    let row = board
        .iter_rows()
        .position(|mut line| line.all(|x| *x != 0))?;
    board.iter_row(row).copied().max()
}

/// Returns the largest cell, by rows and columns that are counted along.
pub fn widest_row(board: &Grid<u8>) -> u8 {
    let mut most = 0;
    for (row, line) in board.iter_rows().enumerate() {
        for (col, _) in line.enumerate() {
            most = most.max(board[(row, col)]);
        }
    }
    most
}

/// Returns the largest cell of a row of a board that was made anew so many times.
pub fn after_steps(board: &Grid<u8>, steps: usize, row: usize) -> Result<Option<u8>, AllocError> {
    let mut now = board.clone()?;
    for _ in 0..steps {
        now = now.map_ref(|x| *x / 2)?;
    }
    Ok(now.get_row(row).and_then(|line| line.copied().max()))
}
