//! Reads JSON as a grid, and writes the grid and reads it again.
//!
//! A case is a line `== CELLS JSON => EXPECTED`: a type of cells, a text, and what it is as a grid of such cells that
//! was read, written and read again (its size, its order, its storage and its text), or why it is none.
use crate::case::{Case, CaseError};
use crate::shown::text;
use grid::Grid;
use grid_json::laws::written_and_read;
use grid_json::{Cell, ReadError, from_value, to_value};
use serde_json::Value;
use std::alloc::{AllocError, Global};
use std::fmt::Debug;

// The grid that a value is read as, written and read again.
fn read_again<T: Cell>(alloc: Global, value: &Value) -> Result<Grid<T>, ReadError> {
    let grid = from_value::<T>(alloc, value)?;
    written_and_read(alloc, &grid)
}

// What a grid is: its size, its order, its cells as they are stored, and its text.
fn shown_grid<T: Cell + Debug>(alloc: Global, grid: &Grid<T>) -> Result<String, AllocError> {
    let json = to_value(alloc, grid)?.to_string(alloc)?;
    format!(in alloc;
        "{:?} {:?} {:?} {json}",
        grid.size(),
        grid.order(),
        grid.flatten()
    )
}

// What a value is as a grid of such cells, or why it is none.
fn grid_for<T: Cell + Debug>(alloc: Global, value: &Value) -> Result<String, CaseError> {
    match read_again::<T>(alloc, value) {
        Ok(grid) => Ok(shown_grid(alloc, &grid)?),
        Err(ReadError::Memory) => Err(CaseError::Memory),
        Err(error) => Ok(format!(in alloc; "{error:?}: {error}")?),
    }
}

// The same of the cells of this name.
fn grid_of(alloc: Global, cells: &str, value: &Value) -> Result<String, CaseError> {
    match cells {
        "u8" => grid_for::<u8>(alloc, value),
        "u16" => grid_for::<u16>(alloc, value),
        "u32" => grid_for::<u32>(alloc, value),
        "u64" => grid_for::<u64>(alloc, value),
        "i8" => grid_for::<i8>(alloc, value),
        "i16" => grid_for::<i16>(alloc, value),
        "i32" => grid_for::<i32>(alloc, value),
        "i64" => grid_for::<i64>(alloc, value),
        "bool" => grid_for::<bool>(alloc, value),
        "String" => grid_for::<String>(alloc, value),
        _ => Err(CaseError::UnknownCall),
    }
}

/// Returns what the text of a case is as a grid of its cells, or why it is none.
pub fn actual(alloc: Global, case: Case<'_>) -> Result<String, CaseError> {
    let (cells, json) = case.call();
    match Value::from_str(alloc, json) {
        Ok(value) => grid_of(alloc, cells, &value),
        Err(error) if error.is_memory() => Err(CaseError::Memory),
        Err(_) => text(alloc, "no JSON"),
    }
}
