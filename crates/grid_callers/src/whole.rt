//! Callers of `grid` on whole boards: rows that become one, and padding.
ghost use Rattle.std.specs.Prelude.{◌≡◌, IfSome, OnOk, OnErr, map};
ghost use Rattle.grid.specs.Prelude.{equal_rows, expanded_rows};

use grid::{Grid, GridError};
use std::alloc::Allocator;
use std::convert::TryFrom;

/// Returns the grid of these rows, or `None` where they are not all of one length, or if allocation fails.
///
///     of_rows([[1, 2], [3, 4]])   Some([[1, 2], [3, 4]])      of_rows([[1, 2], [3]])   None
pub fn of_rows<T: Drop, A: Allocator + Clone>(rows: Vec<Vec<T, A>, A>) -> Option<Grid<T, A>>
    ensures rows { IfSome result (λ grid.
        grid.rows ≡ equal_rows (map (λ row. row.items) rows.items)) }
{
    Grid::try_from(rows).ok()
}

/// Adds a row of zeros at the end.
///
/// Fails: where the cells would be too many, or if allocation fails; the grid is unchanged.
pub fn add_blank_row<A: Allocator + Clone>(grid: &mut Grid<u32, A>) -> Result<(), GridError>
    ensures rows { OnOk result (grid.new.rows ≡ expanded_rows 1 0 grid.old.rows) }
    ensures err { OnErr result (grid.new ≡ grid.old) }
{
    grid.expand_rows(1)
}
