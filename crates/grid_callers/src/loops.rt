//! Loops over a board: what proves with no proof file, and the one loop, [`paint`], that wants lines of its own.
ghost use Rattle.std.specs.Prelude.{◌≡◌, IfSome, Some};
ghost use Rattle.grid.specs.Prelude.{row_count, col_count, cell};

use grid::Grid;
use std::alloc::{AllocError, Global};

/// Replaces a cell that is `old`: where `get` finds a cell, its position is in range.
pub fn replace(grid: &mut Grid<u8>, row: usize, col: usize, old: u8, new: u8) {
    if grid.get(row, col) == Some(&old) {
        grid[(row, col)] = new;
    }
}

/// Returns how many cells equal the other board's cell of the same position, or 0 where the sizes differ: the positions
/// of one board index another of its size.
pub fn count_alike(grid: &Grid<u8>, other: &Grid<u8>) -> usize {
    let mut count = 0usize;
    if grid.size() == other.size() {
        for (at, cell) in grid.indexed_iter() {
            if other[at] == *cell {
                count = count.saturating_add(1);
            }
        }
    }
    count
}

/// Copies a board over another of its size, cell by cell.
pub fn copy_over(from: &Grid<u8>, to: &mut Grid<u8>) {
    if from.size() == to.size() {
        for (at, cell) in to.indexed_iter_mut() {
            *cell = from[at];
        }
    }
}

/// Returns the position of a cell that is `x`, found by a loop.
pub fn position_of(grid: &Grid<u8>, x: u8) -> Option<(usize, usize)>
    ensures { IfSome result (λ at. cell grid.now.rows at.0 at.1 ≡ Some x) }
{
    for (at, cell) in grid.indexed_iter() {
        if *cell == x {
            return Some(at);
        }
    }
    None
}

// Whether a cell is in the first row and not 0.
fn is_set_above(((row, _), cell): &((usize, usize), &u8)) -> bool {
    *row == 0 && **cell != 0
}

/// Clears a cell of the first row that isn't 0, and returns how many there were: a position that a chain found is in
/// range.
pub fn clear_one(grid: &mut Grid<u8>) -> usize {
    let count = grid.indexed_iter().filter(is_set_above).count();
    if let Some((at, _)) = grid.indexed_iter().find(is_set_above) {
        grid[at] = 0;
    }
    count
}

// Whether a cell is off the diagonal and not 0.
fn is_off(((row, col), cell): ((usize, usize), &u8)) -> bool {
    row != col && *cell != 0
}

/// Returns which cell in storage order is the first off the diagonal that isn't 0, and whether all are such.
pub fn first_off_diagonal(grid: &Grid<u8>) -> (Option<usize>, bool) {
    let first = grid.indexed_iter().position(is_off);
    (first, grid.indexed_iter().all(is_off))
}

/// Writes every cell by its index. A loop forgets what its calls leave of the size, so this one has a proof file: two
/// invariants, in nine lines.
pub fn paint(grid: &mut Grid<u8>, x: u8) {
    for row in 0..grid.rows() {
        for col in 0..grid.cols() {
            grid[(row, col)] = x;
        }
    }
}

/// Clears the cells that are `x`, by index through a value that holds the slice, and returns how many there were. The
/// size of the board stays.
pub fn clear_equal(board: &mut Grid<u8>, x: u8) -> usize
    ensures rows { row_count board.new.rows ≡ row_count board.old.rows }
    ensures cols { col_count board.new.rows ≡ col_count board.old.rows }
{
    let mut all = board.view_mut();
    let (rows, cols) = all.size();
    let mut count = 0usize;
    for row in 0..rows {
        for col in 0..cols {
            if let Some(old) = all.get(row, col).copied() {
                if old == x {
                    all.set(row, col, 0);
                    count = count.saturating_add(1);
                }
            }
        }
    }
    count
}

/// Returns the board of these lines, or `None` where a line has no cells or another length, or if allocation fails: the
/// tests of the conditions are in the loop.
pub fn stacked(alloc: Global, lines: Vec<Vec<u8>>) -> Option<Grid<u8>> {
    let mut grid = Grid::empty(alloc);
    for line in lines {
        if line.is_empty() || !grid.fits_row(line.len()) {
            return None;
        }
        if grid.push_row(line).is_err() {
            return None;
        }
    }
    Some(grid)
}

/// Fills the cells that are the same as a cell and joined to it by sides with `x`. The positions to visit are a stack;
/// each cell is filled once and puts at most four on it, so a bound ends the loop.
///
///     [[1, 1, 2], [2, 1, 1]]   flood((0, 0), 7)   [[7, 7, 2], [2, 7, 7]]
pub fn flood(
    alloc: Global,
    grid: &mut Grid<u8>,
    at: (usize, usize),
    x: u8,
) -> Result<(), AllocError> {
    let old = match grid.get(at.0, at.1) {
        Some(old) if *old != x => *old,
        _ => return Ok(()),
    };
    let mut stack = vec![in alloc; at]?;
    let bound = grid.rows().saturating_mul(grid.cols()).saturating_mul(4);
    for _ in 0..bound.saturating_add(1) {
        if let Some((row, col)) = stack.pop() {
            if grid.get(row, col) == Some(&old) {
                for (near, _) in grid.neighbors4((row, col)) {
                    stack.push(near)?;
                }
                grid.set(row, col, x);
            }
        }
    }
    Ok(())
}
