//! Short texts: the numbers in them, and a text as a field.
use super::sheets::put;
use anyhow::Result;
use grid::Grid;
use grid_csv::{from_csv, from_csv_with_header, to_csv};
use grid_json::rows_from_value;
use serde_json::Value;
use std::alloc::{AllocError, Global};
use std::fmt::Display;

// A field as a cell, if it is a number.
fn number(field: &str) -> Result<Option<u8>, AllocError> {
    Ok(field.parse::<u8>().ok())
}

// The same of a value of JSON.
fn number_of(item: &Value) -> Result<Option<u8>, AllocError> {
    match item.as_u64() {
        Some(number) if number < 256 => Ok(Some(number as u8)),
        _ => Ok(None),
    }
}

// The string of a grid, or what is wrong.
fn described<E: Display + Drop>(alloc: Global, read: Result<Grid<u8>, E>) -> Result<String> {
    match read {
        Ok(grid) => Ok(format!(in alloc; "{grid:?}\n")?),
        Err(error) => Ok(format!(in alloc; "{error}\n")?),
    }
}

/// Returns the numbers of a sheet.
pub fn numbers(alloc: Global, bytes: &[u8]) -> Result<String> {
    described(alloc, from_csv(alloc, bytes, number))
}

/// Returns the header and the numbers of a sheet.
pub fn headed_numbers(alloc: Global, bytes: &[u8]) -> Result<String> {
    match from_csv_with_header(alloc, bytes, number) {
        Ok((header, grid)) => Ok(format!(in alloc; "{header:?} {grid:?}\n")?),
        Err(error) => Ok(format!(in alloc; "{error}\n")?),
    }
}

/// Returns the numbers of a text of JSON.
pub fn values(alloc: Global, bytes: &[u8]) -> Result<String> {
    let value = Value::from_str(alloc, str::from_utf8(bytes).unwrap_or(""))?;
    described(alloc, rows_from_value(alloc, &value, number_of))
}

/// Returns the sheet of a text as its only field, as a string of JSON.
pub fn field(alloc: Global, bytes: &[u8]) -> Result<String> {
    let text = String::from_str(alloc, str::from_utf8(bytes).unwrap_or(""))?;
    let grid = Grid::from_vec(vec![in alloc; text]?, 1);
    let sheet = Value::String(to_csv(alloc, &grid, put)?);
    Ok(format!(in alloc; "{}\n", sheet.to_string(alloc)?)?)
}
