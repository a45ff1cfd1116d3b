//! Sizes, sums, and parts.
use grid::Grid;

/// Returns the size with a frame of one cell.
pub fn framed(board: &Grid<u8>) -> (usize, usize) {
    let (rows, cols) = board.size();
    (rows + 2, cols + 2)
}

/// Returns how far a position is from the middle: rows down, and columns to the right.
pub fn from_middle(board: &Grid<u8>, at: (usize, usize)) -> Option<(isize, isize)> {
    let (rows, cols) = board.size();
    if at.0 < rows && at.1 < cols {
        return Some((
            at.0 as isize - (rows / 2) as isize,
            at.1 as isize - (cols / 2) as isize,
        ));
    }
    None
}

/// Returns whether the block of three by three from a position on has a cell `x`.
pub fn block_has(board: &Grid<u8>, at: (usize, usize), x: u8) -> bool {
    board
        .get_part(at, (3, 3))
        .is_some_and(|part| part.iter().any(|y| *y == x))
}
