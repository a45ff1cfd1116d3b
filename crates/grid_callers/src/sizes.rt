//! Boards that are turned and edited, then written by index, with no proof file: each call says the size that it
//! leaves.

use grid::{Grid, Symmetry};

/// Turns the board left, and writes the cell that was at the end of the first row. It is the first cell now.
///
///     [[1, 2], [3, 4]]   turn_and_mark()   [[9, 4], [1, 3]]
pub fn turn_and_mark(grid: &mut Grid<u8>) {
    if !grid.is_empty() {
        grid.rotate_left();
        grid[(0, 0)] = 9;
    }
}

/// Turns the board upside down, flips it, and writes a cell: these keep the size.
pub fn flip_and_mark(grid: &mut Grid<u8>, row: usize, col: usize) {
    if row < grid.rows() && col < grid.cols() {
        grid.apply(Symmetry::RotateHalf);
        grid.flip_rows();
        grid[(row, col)] = 9;
    }
}

/// Adds a column at the end and writes a cell of it, and returns whether it was added. The column must fit and have a
/// cell in this row.
///
///     [[1, 2], [3, 4]]   widen([5, 6], 1)   [[1, 2, 5], [3, 4, 9]]
pub fn widen(grid: &mut Grid<u8>, line: Vec<u8>, row: usize) -> bool {
    let cols = grid.cols();
    if row < line.len() && grid.fits_col(line.len()) && grid.push_col(line).is_ok() {
        grid[(row, cols)] = 9;
        return true;
    }
    false
}

/// Deletes columns, and writes a cell that is left where there were more.
pub fn narrow(grid: &mut Grid<u8>, start: usize, count: usize) {
    if count < grid.cols() && grid.delete_cols(start, count) {
        grid[(0, 0)] = 9;
    }
}
