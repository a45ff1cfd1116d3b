//! Callers of `grid_rows`, with no proof file.
ghost use Rattle.std.specs.Prelude.{◌≡◌, [], ◌∷◌, IfOk};

use anyhow::Result;
use grid::{Grid, ShapeError};
use grid_rows::RowsBuilder;
use std::alloc::{Allocator, Global};

/// Reads a board of a format of its own: a bar between two rows, a semicolon between two cells.
///
///     from_bars(alloc, "1;2|3;4")   [[1, 2], [3, 4]]
pub fn from_bars(alloc: Global, text: &str) -> Result<Grid<i64>> {
    let mut rows = RowsBuilder::new(alloc);
    for line in text.split('|') {
        for word in line.split(';') {
            rows.push(word.parse::<i64>()?)?;
        }
        rows.end_row()?;
    }
    Ok(rows.into_grid())
}

/// Returns the board of a pair.
pub fn of_pair<A: Allocator>(alloc: A, first: i64, second: i64) -> Result<Grid<i64, A>, ShapeError>
    ensures { IfOk result (λ board. board.rows ≡ (first ∷ second ∷ []) ∷ []) }
{
    let mut rows = RowsBuilder::new(alloc);
    rows.push(first)?;
    rows.push(second)?;
    rows.end_row()?;
    Ok(rows.into_grid())
}
