//! Errors that `?` propagates.
ghost use Rattle.std.specs.Prelude.{◌≡◌, ◌↔◌, ◌+◌, ◌<◌, IsErrOf, IfErr, IfOk, OnOk, OnErr, Some, length, codes, insert};
ghost use Rattle.grid.specs.Prelude.{row_count, col_count, FitsRow, ExceedsMax};
ghost use Rattle.anyhow.specs.Error.{HasMessage};

use grid::{Command, Grid, GridError, Tally, run};
use std::alloc::{Allocator, Global};
use std::fmt::Debug;

/// Adds a row. The contract says which error comes.
pub fn push<T: Drop, A: Allocator>(board: &mut Grid<T, A>, line: Vec<T, A>) -> Result<(), GridError>
    requires nonempty { 0 < length line.items }
    requires fits { FitsRow board.old.rows (length line.items) }
    ensures rows { OnOk result
        (board.new.rows ≡ insert board.old.rows (row_count board.old.rows) line.items) }
    ensures too_large { IsErrOf result GridError.TooLarge
        ↔ ExceedsMax (row_count board.old.rows + 1) (length line.items) }
    ensures unchanged { OnErr result (board.new ≡ board.old) }
{
    board.push_row(line)?;
    Ok(())
}

/// Adds a row; the error is text, which the contract states.
pub fn push_or_say<T: Debug + Drop, A: Allocator>(
    board: &mut Grid<T, A>,
    line: Vec<T, A>,
) -> anyhow::Result<()>
    requires nonempty { 0 < length line.items }
    requires fits { FitsRow board.old.rows (length line.items) }
    ensures rows { OnOk result
        (board.new.rows ≡ insert board.old.rows (row_count board.old.rows) line.items) }
    ensures text { ExceedsMax (row_count board.old.rows + 1) (length line.items)
        → IfErr result (λ e. HasMessage (Some (codes "too many cells")) e) }
    ensures unchanged { OnErr result (board.new ≡ board.old) }
{
    board.push_row(line)?;
    Ok(())
}

/// Makes a board, adds rows to it and runs commands; any error is text.
pub fn play(
    alloc: Global,
    rows: Vec<Vec<u32>>,
    commands: Vec<Command<u32>>,
) -> anyhow::Result<usize> {
    let mut board: Grid<u32> = Grid::new(alloc, 2, 2)?;
    for row in rows {
        if !row.is_empty() && board.fits_row(row.len()) {
            board.push_row(row)?;
        }
    }
    let replies = run(alloc, &mut board, commands, &mut Tally::new())?;
    Ok(replies.len())
}

/// Makes a grid of strings, cells that take memory: either failed allocation is the library's error.
pub fn names(alloc: Global, rows: usize, cols: usize) -> Result<Grid<String>, GridError> {
    let grid = Grid::try_from_fn(alloc, rows, cols, |_at| String::from_str(alloc, "cell"))??;
    Ok(grid)
}

// Returns the double of a cell, or the error where it doesn't fit.
fn double(_at: (usize, usize), cell: &u8) -> Result<u8, GridError> {
    cell.checked_mul(2).ok_or(GridError::TooLarge)
}

/// Doubles each cell. One whose double doesn't fit is an error, and no grid is made.
pub fn doubled(board: &Grid<u8>) -> Result<Grid<u8>, GridError>
    ensures rows { IfOk result (λ made. row_count made.rows ≡ row_count board.now.rows) }
    ensures cols { IfOk result (λ made. col_count made.rows ≡ col_count board.now.rows) }
    ensures order { IfOk result (λ made. made.order ≡ board.now.order) }
{
    let made = board.try_map_indexed(double)??;
    Ok(made)
}

/// Makes a line, pushes it and runs commands, all by `?` in one error type of the library.
pub fn all_in_one(alloc: Global, commands: Vec<Command<u32>>) -> Result<usize, GridError> {
    let mut board: Grid<u32> = Grid::new(alloc, 2, 2)?;
    let mut line = Vec::new(alloc);
    line.push(5)?;
    line.push(6)?;
    if board.fits_row(line.len()) {
        board.push_row(line)?;
    }
    let replies = run(alloc, &mut board, commands, &mut Tally::new())?;
    Ok(replies.len())
}
