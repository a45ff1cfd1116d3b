//! Callers of `grid_json`.
ghost use Rattle.std.specs.Prelude.{IfOk};
ghost use Rattle.serde_json.specs.Data.{number};
ghost use Rattle.serde_json.specs.Find.{of_integer};
ghost use Rattle.serde_json.specs.View.{view};
ghost use Rattle.grid_json.specs.Rows.{IsRows};

use grid::Grid;
use grid_json::{RowsError, rows_from_value, rows_to_value};
use serde_json::Value;
use std::alloc::{AllocError, Allocator, Global};

/// Reads an array of arrays of integers.
pub fn numbers(alloc: Global, value: &Value) -> Result<Grid<i64>, RowsError> {
    rows_from_value(alloc, value, |item| Ok(item.as_i64()))
}

/// Writes an array of arrays of integers.
pub fn numbers_value<A: Allocator>(alloc: Global, grid: &Grid<i64, A>) -> Result<Value, AllocError>
    ensures { IfOk result
        (λ value. IsRows (λ x. number (of_integer x)) grid.now.rows (view value)) }
{
    rows_to_value(alloc, grid, |cell| Ok(Value::from(*cell)))
}
