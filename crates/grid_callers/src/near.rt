//! The cells around a cell: chains and loops over them, and counts, with no proof file.
ghost use Rattle.std.specs.Prelude.{◌≡◌, ◌<◌, ◌≤◌, ◌+◌, ◌==◌, ◌&&◌, ◌||◌, IsTrue, IfOk, All, Any, Some, count_by, fold, map, min, option_map};
ghost use Rattle.grid.specs.Prelude.{row_count, col_count, cell, tabulate, nearest_below, neighbors4, neighbors8, wrapped_neighbors4, wrapped_neighbors8};

use grid::{Direction, Grid};
use std::alloc::{AllocError, Global};

/// Returns how many of the cells that touch a cell are `x`, and how many on a board whose edges meet.
///
///     [[1, 2, 1], [1, 1, 2]]   count_around(1, 1, 1)   (3, 5)
pub fn count_around(grid: &Grid<u8>, row: usize, col: usize, x: u8) -> (usize, usize)
    ensures open { result.0 ≡ count_by (λ near. near.1 == x) (neighbors8 grid.now.rows row col) }
    ensures joined { result.1
        ≡ count_by (λ near. near.1 == x) (wrapped_neighbors8 grid.now.rows row col) }
{
    let is_x = |cell: &u8| *cell == x;
    let open = grid.count_neighbors8((row, col), is_x);
    let joined = grid.count_wrapped_neighbors8((row, col), is_x);
    (open, joined)
}

/// Same as [`count_around`], of the cells that share a side, by a chain.
pub fn count_beside(grid: &Grid<u8>, row: usize, col: usize, x: u8) -> usize
    ensures { result ≡ count_by (λ near. near.1 == x) (neighbors4 grid.now.rows row col) }
{
    grid.neighbors4((row, col))
        .filter(|(_, cell)| **cell == x)
        .count()
}

// Whether a cell next to another isn't 0.
fn is_set((_, cell): &((usize, usize), &u8)) -> bool {
    **cell != 0
}

/// Clears a cell that isn't 0 and shares a side with a cell: the position that a search finds is in range.
pub fn clear_beside(grid: &mut Grid<u8>, row: usize, col: usize) {
    if let Some((at, _)) = grid.neighbors4((row, col)).find(is_set) {
        grid[at] = 0;
    }
}

/// Returns whether all cells that touch a cell are below this height: where it returns true, they are. And whether one
/// that shares a side with it is, on a board whose edges meet: none is missed.
pub fn are_below(grid: &Grid<u8>, row: usize, col: usize, height: u8) -> (bool, bool)
    ensures all { IsTrue result.0
        → All (λ near. near.1 < height) (neighbors8 grid.now.rows row col) }
    ensures any { Any (λ near. near.1 < height) (wrapped_neighbors4 grid.now.rows row col)
        → IsTrue result.1 }
{
    let is_below = |(_, cell): ((usize, usize), &u8)| *cell < height;
    (
        grid.neighbors8((row, col)).all(is_below),
        grid.wrapped_neighbors4((row, col)).any(is_below),
    )
}

/// Returns the positions around a position.
///
///     [[1, 2, 3], [4, 5, 6]]   positions_around(0, 0)   [(0, 1), (1, 0), (1, 1)]
pub fn positions_around(
    alloc: Global,
    grid: &Grid<u8>,
    row: usize,
    col: usize,
) -> Result<Vec<(usize, usize)>, AllocError>
    ensures { IfOk result (λ around.
        around.items ≡ map (λ near. near.0) (neighbors8 grid.now.rows row col)) }
{
    grid.neighbors8((row, col)).map(|(at, _)| at).collect(alloc)
}

// Adds a cell to a sum, which stays within a `u32`.
fn plus(total: u32, near: ((usize, usize), &u32)) -> u32
    ensures { result ≡ min (total + near.entry.1.now) u32.MAX }
{
    total.saturating_add(*near.1)
}

/// Returns the sum of the cells around a cell, on a board whose edges meet.
pub fn sum_around(grid: &Grid<u32>, row: usize, col: usize) -> u32
    ensures { result ≡ fold (λ total near. min (total + near.1) u32.MAX) 0
        (wrapped_neighbors8 grid.now.rows row col) }
{
    grid.wrapped_neighbors8((row, col)).fold(0, plus)
}

/// Returns how many cells of the board are peaks, by loops alone.
pub fn count_peaks(grid: &Grid<u8>) -> usize {
    let mut peaks = 0usize;
    for ((row, col), cell) in grid.indexed_iter() {
        let mut highest = 0;
        for (_, near) in grid.neighbors8((row, col)) {
            highest = highest.max(*near);
        }
        if highest < *cell {
            peaks = peaks.saturating_add(1);
        }
    }
    peaks
}

/// Returns the next generation of Life: a cell lives with three live cells around it, or with two if it lives now.
///
///     [[true, true], [true, false]]   next_life()   [[true, true], [true, true]]
pub fn next_life(grid: &Grid<bool>) -> Result<Grid<bool>, AllocError>
    ensures { IfOk result (λ new. new.rows
        ≡ tabulate (row_count grid.now.rows) (col_count grid.now.rows)
        (λ r c. option_map (λ live.
        (count_by (λ near. near.1) (neighbors8 grid.now.rows r c) == 3)
        || (live && (count_by (λ near. near.1) (neighbors8 grid.now.rows r c) == 2)))
        (cell grid.now.rows r c))) }
{
    grid.map_indexed(|at, live| {
        let near = grid.count_neighbors8(at, |cell| *cell);
        near == 3 || (*live && near == 2)
    })
}

/// Returns the board in which each cell is the ninth part of the cell and those that touch it, rounded down.
///
///     [[0, 9], [0, 9]]   mean_of_nine()   [[2, 2], [2, 2]]
pub fn mean_of_nine(grid: &Grid<u8>) -> Result<Grid<u8>, AllocError> {
    grid.map_sums8(
        |cell| *cell,
        |cell, sum|
            requires { sum ≤ 2040 }
        { ((u16::from(*cell) + sum) / 9) as u8 },
    )
}

/// Returns how far apart the cells to the left and to the right of each cell are. At an edge the cell itself stands for
/// the one that is missing.
///
///     [[1, 4, 9]]   contrasts()   [[3, 8, 5]]
pub fn contrasts(grid: &Grid<u8>) -> Result<Grid<u8>, AllocError> {
    grid.map_indexed(|(row, col), cell| {
        let (row, col) = (row.cast_signed(), col.cast_signed());
        let (before, after) = (col.saturating_sub(1), col.saturating_add(1));
        let left = grid.get_clamped((row, before)).unwrap_or(cell);
        let right = grid.get_clamped((row, after)).unwrap_or(cell);
        left.abs_diff(*right)
    })
}

/// Returns the cell nearest to a signed position, of a board that has cells.
pub fn nearest_cell(grid: &Grid<u8>, at: (isize, isize)) -> u8
    requires { 0 < row_count grid.now.rows }
    ensures { cell grid.now.rows (nearest_below at.0 (row_count grid.now.rows))
        (nearest_below at.1 (col_count grid.now.rows)) ≡ Some result }
{
    *grid.get_clamped(at).unwrap()
}

// The cell itself.
fn same<T: Copy>(cell: &T) -> T {
    *cell
}

// The sum or the count that was found around a cell.
fn found<T, N>(_cell: &T, number: N) -> N {
    number
}

/// Returns what the cells that share a side with each cell come to, and the same on a board whose edges meet.
///
///     [[1, 2, 3]]   sums_beside()   [[2, 4, 2]]   [[7, 8, 9]]
pub fn sums_beside(grid: &Grid<u8>) -> Result<(Grid<u16>, Grid<u16>), AllocError> {
    let open = grid.map_sums4(same, found)?;
    let joined = grid.map_wrapped_sums4(same, found)?;
    Ok((open, joined))
}

/// Returns how many walls share a side with each cell, and the same on a board whose edges meet.
///
///     [[true, false, false]]   walls_beside()   [[0, 1, 0]]   [[2, 1, 1]]
pub fn walls_beside(walls: &Grid<bool>) -> Result<(Grid<u8>, Grid<u8>), AllocError> {
    let open = walls.map_counts4(same, found)?;
    let joined = walls.map_wrapped_counts4(same, found)?;
    Ok((open, joined))
}

/// Returns the position next to one on a board of this size, without the board.
///
///     ahead((2, 3), (0, 1), Down)   Some((1, 1))
pub fn ahead(size: (usize, usize), at: (usize, usize), way: Direction) -> Option<(usize, usize)> {
    way.step(size, at)
}
