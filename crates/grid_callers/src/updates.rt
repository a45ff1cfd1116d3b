//! Whole boards at once, with their rows in the contract and no proof file.
ghost use Rattle.std.specs.Prelude.{◌≡◌, ◌<◌, ◌/◌, ◌%◌, ◌==◌, nat_lt, IfOk, Some, option_map};
ghost use Rattle.grid.specs.Prelude.{row_count, col_count, cell, tabulate};

use grid::{Grid, GridError};
use std::alloc::{AllocError, Global};

/// Returns which cells are above `x`.
///
///     [[1, 2], [3, 4]]   above(2)   [[false, false], [true, true]]
pub fn above(grid: &Grid<u8>, x: u8) -> Result<Grid<bool>, AllocError>
    ensures { IfOk result (λ new. new.rows
        ≡ tabulate (row_count grid.now.rows) (col_count grid.now.rows)
        (λ r c. option_map (λ y. nat_lt x y) (cell grid.now.rows r c))) }
{
    grid.map_indexed(|_, cell| x < *cell)
}

/// Halves every cell in place.
///
///     [[1, 2], [3, 4]]   halve()   [[0, 1], [1, 2]]
pub fn halve(grid: &mut Grid<u8>)
    ensures { grid.new.rows ≡ tabulate (row_count grid.old.rows) (col_count grid.old.rows)
        (λ r c. option_map (λ y. y / 2) (cell grid.old.rows r c)) }
{
    grid.update(|_, cell| *cell / 2);
}

/// Returns the board of this size whose cells are true where row and column are both even or both odd.
///
///     chessboard(alloc, 2, 3)   [[true, false, true], [false, true, false]]
pub fn chessboard(alloc: Global, rows: usize, cols: usize) -> Result<Grid<bool>, GridError>
    ensures { IfOk result (λ new. 0 < rows → 0 < cols
        → new.rows ≡ tabulate rows cols (λ r c. Some (r % 2 == c % 2))) }
{
    Grid::from_fn(alloc, rows, cols, |(row, col)| row % 2 == col % 2)
}
