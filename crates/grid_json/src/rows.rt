//! Rows as JSON that other programs read: an array of arrays.
ghost use Rattle.std.specs.Prelude.{Option, IfOk, MatchResult};
ghost use Rattle.grid_json.specs.Prelude.{Data, view, AddsRow, AnswersCell, AnswersItem, IsMemoryOrBad, IsRead, IsRows, MayBeRow, MayBeRows, MayRead, ReadsBy, WritesBy};

use crate::RowsError;
use crate::write::array_of;
use grid::{Grid, ShapeError};
use grid_rows::RowsBuilder;
use grid_view::{AsView, ViewLineIter};
use serde_json::Value;
use std::alloc::{AllocError, Global};

/// Returns an array of an array for each row of a grid or of a view, of the values that `write` returns at its cells.
/// No rows are `[]`.
///
///     [[1, 2], [3, 4]]   rows_to_value(alloc, board, |cell| Ok(Value::from(*cell)))   [[1,2],[3,4]]
///
/// Requires: `write` can be called at every cell.
/// Fails: if allocation fails, also in `write`.
/// Cost: one call for each cell.
pub fn rows_to_value<T, V: AsView<T>, F>(
    alloc: Global,
    board: &V,
    write: F,
) -> Result<Value, AllocError>
where
    F: Fn(&T) -> Result<Value, AllocError>,
    requires { F.IsAlwaysCallable write }
    ensures value { (h : T → Data) → WritesBy F.post write h
        → IfOk result (λ value. IsRows h (V.rows board.now) (view value)) }
    ensures answers { IfOk result (λ value.
        MayBeRows (AnswersCell F.post write) (V.rows board.now) (view value)) }
{
    let mut list = Vec::new(alloc);
    for row in board.as_view().iter_rows() {
        list.push(row_to_value(alloc, row, &write)?)?;
    }
    Ok(array_of(list))
}

// An array of the values of the cells of a row.
fn row_to_value<T, F>(
    alloc: Global,
    row: ViewLineIter<'_, T>,
    write: &F,
) -> Result<Value, AllocError>
where
    F: Fn(&T) -> Result<Value, AllocError>,
    requires { F.IsAlwaysCallable write.now }
    ensures { IfOk result
        (λ value. MayBeRow (AnswersCell F.post write.now) row.entry (view value)) }
{
    let mut list = Vec::new(alloc);
    for cell in row {
        list.push(write(cell)?)?;
    }
    Ok(array_of(list))
}

/// Returns the row-major grid of an array of arrays: each is a row, and `read` says which cell a value is, or `None`
/// where it isn't one. Rows without cells give the empty grid.
///
///     [[1,2],[3,4]]   rows_from_value(alloc, value, |item| Ok(item.as_i64()))   [[1, 2], [3, 4]]
///
/// Requires: `read` can be called at every value.
/// Fails: `NotRows`, or `NotRow`, `BadCell` or `Ragged` of the first item that isn't a row. `Memory` if allocation
/// fails, also in `read`.
/// Cost: one call for each item of a row.
pub fn rows_from_value<T: Drop, F>(
    alloc: Global,
    value: &Value,
    read: F,
) -> Result<Grid<T>, RowsError>
where
    F: Fn(&Value) -> Result<Option<T>, AllocError>,
    requires { F.IsAlwaysCallable read }
    ensures reads { (h : Data → Option T) → ReadsBy F.post read h
        → IsRead h (view value.now) result }
    ensures answers { MayRead (AnswersItem F.post read) (view value.now) result }
{
    read_rows(alloc, value, &read)
}

// The grid of an array of arrays.
fn read_rows<T: Drop, F>(alloc: Global, value: &Value, read: &F) -> Result<Grid<T>, RowsError>
where
    F: Fn(&Value) -> Result<Option<T>, AllocError>,
    requires { F.IsAlwaysCallable read.now }
    ensures { MayRead (AnswersItem F.post read.now) (view value.now) result }
{
    let Some(items) = value.as_array() else {
        return Err(RowsError::NotRows);
    };
    let mut rows = RowsBuilder::new(alloc);
    for (row, item) in items.iter().enumerate() {
        push_row(&mut rows, row, item, read)?;
        match rows.end_row() {
            Ok(()) => {}
            Err(ShapeError::Ragged { len, cols, .. }) => {
                return Err(RowsError::Ragged { row, len, cols });
            }
            Err(_) => return Err(RowsError::Memory),
        }
    }
    Ok(rows.into_grid())
}

// Adds the cells of a row to the open row.
fn push_row<T: Drop, F>(
    rows: &mut RowsBuilder<T>,
    row: usize,
    item: &Value,
    read: &F,
) -> Result<(), RowsError>
where
    F: Fn(&Value) -> Result<Option<T>, AllocError>,
    requires { F.IsAlwaysCallable read.now }
    ensures { MatchResult result
        (λ _. AddsRow (AnswersItem F.post read.now) (view item.now) rows.old rows.new)
        (λ e. IsMemoryOrBad (AnswersItem F.post read.now) row (view item.now) e) }
{
    let Some(list) = item.as_array() else {
        return Err(RowsError::NotRow { row });
    };
    for (col, value) in list.iter().enumerate() {
        match read(value)? {
            Some(cell) => rows.push(cell)?,
            None => return Err(RowsError::BadCell { row, col }),
        }
    }
    Ok(())
}
