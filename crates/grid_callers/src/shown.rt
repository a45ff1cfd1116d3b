//! A caller of `grid_deferred`.
ghost use Rattle.std.specs.Prelude.{◌≡◌, IfOk, nat_lt};
ghost use Rattle.grid.specs.Prelude.{row_count, cell, act};
ghost use Rattle.grid_deferred.specs.Deferred.{lender, shown};

use grid::{Command, Grid, Reply, Symmetry, Tally};
use grid_deferred::Deferred;
use std::alloc::{AllocError, Allocator};

/// Returns the cell that a symmetry brings to a position, and leaves the grid as it was. No cell moves.
///
///     [[1, 2]]   cell_through(FlipCols, 0, 0)   Some(2)
pub fn cell_through<A: Allocator + Clone>(
    grid: &mut Grid<u32, A>,
    symmetry: Symmetry,
    row: usize,
    col: usize,
) -> Option<u32>
    ensures cell { result ≡ cell (act symmetry grid.old.rows) row col }
    ensures same { grid.new ≡ grid.old }
{
    let mut deferred = Deferred::over(grid);
    let _ = deferred.step(Command::Apply(symmetry), &mut Tally::new());
    let found = deferred.get(row, col).copied();
    deferred.release();
    found
}

/// Drops a row of the shown grid, and returns whether there was one. It is known of cells of any type.
///
///     [["a", "b"]] with Transpose pending   drop_shown(1)   true      shown [["a"]]
///
/// Fails: never.
#[tactic(auto, unfolding(grid::specs::Step::step_reply))]
pub fn drop_shown<T, A>(
    deferred: &mut Deferred<'_, T, A>,
    at: usize,
    tally: &mut Tally,
) -> Result<bool, AllocError>
where
    T: Clone + Default + Drop,
    A: Allocator + Clone,
    ensures same_reference { lender deferred.new ≡ lender deferred.old }
    ensures found { IfOk result (λ found. found ≡ nat_lt at (row_count (shown deferred.old))) }
{
    match deferred.step(Command::DeleteRow(at), tally)? {
        Reply::Flag(found) => Ok(found),
        _ => Ok(false),
    }
}
