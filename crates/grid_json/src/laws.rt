//! A law of JSON values as a public call.
ghost use Rattle.std.specs.Prelude.{◌≡◌, IfOk, IfErr};
ghost use Rattle.grid_json.specs.Prelude.{contents};
ghost use Rattle.grid_json.specs.declared.error.ReadError.TheVariants.{Memory};

use crate::{Cell, ReadError, from_value, to_value};
use grid::Grid;
use std::alloc::{Allocator, Global};

/// Writes a grid as a JSON value, and returns the grid that is read from it: one of the same contents and order.
///
/// Fails: `Memory`, and no other error.
pub fn written_and_read<T: Cell, A: Allocator>(
    alloc: Global,
    grid: &Grid<T, A>,
) -> Result<Grid<T>, ReadError>
    ensures ok { IfOk result (λ again. contents T.content again ≡ contents T.content grid.now) }
    ensures err { IfErr result (λ e. e ≡ Memory) }
{
    let value = to_value(alloc, grid)?;
    from_value(alloc, &value)
}
