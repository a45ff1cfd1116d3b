//! Sheets: their rows as JSON, and the sheets that are written of these.
use anyhow::{Result, bail};
use grid::Grid;
use grid_csv::laws::written_and_read;
use grid_csv::{CsvError, from_csv, from_csv_with_header, to_csv, to_csv_with_header};
use grid_json::{rows_from_value, rows_to_value};
use serde_json::Value;
use std::alloc::{AllocError, Global};

/// Writes a cell as a field.
pub fn put(cell: &String, text: &mut String) -> Result<(), AllocError> {
    text.push_str(cell.as_str())
}

fn to_json(cell: &String) -> Result<Value, AllocError> {
    Ok(Value::String(cell.clone()?))
}

fn from_json(item: &Value) -> Result<Option<String>, AllocError> {
    match item {
        Value::String(text) => Ok(Some(text.clone()?)),
        _ => Ok(None),
    }
}

// The header of a sheet, if it is said to have one, and the rows.
fn read(
    alloc: Global,
    bytes: &[u8],
    is_headed: bool,
) -> Result<(Vec<String>, Grid<String>), CsvError> {
    let cell = |field: &str| Ok(Some(String::from_str(alloc, field)?));
    if is_headed {
        from_csv_with_header(alloc, bytes, cell)
    } else {
        Ok((Vec::new(alloc), from_csv(alloc, bytes, cell)?))
    }
}

// The rows of a sheet.
fn rows(alloc: Global, bytes: &[u8]) -> Result<Grid<String>, CsvError> {
    let (_, grid) = read(alloc, bytes, false)?;
    Ok(grid)
}

// The rows must be those that are read back from their CSV.
fn check_csv(alloc: Global, grid: &Grid<String>) -> Result<()> {
    let again = written_and_read(
        alloc,
        grid,
        put,
        |field| Ok(Some(String::from_str(alloc, field)?)),
    )?;
    if again != *grid {
        bail!("the rows are not read back from their CSV");
    }
    Ok(())
}

// The same from their JSON.
fn check_json(alloc: Global, grid: &Grid<String>, value: &Value) -> Result<()> {
    if rows_from_value(alloc, value, from_json)? != *grid {
        bail!("the rows are not read back from their JSON");
    }
    Ok(())
}

// The rows as JSON, which are read back.
fn described(alloc: Global, grid: &Grid<String>) -> Result<String> {
    check_csv(alloc, grid)?;
    let value = rows_to_value(alloc, grid, to_json)?;
    check_json(alloc, grid, &value)?;
    Ok(format!(in alloc; "{}\n", value.to_string(alloc)?)?)
}

/// Returns the rows of a sheet, or what is wrong with it.
pub fn sheet(alloc: Global, bytes: &[u8]) -> Result<String> {
    match rows(alloc, bytes) {
        Ok(grid) => described(alloc, &grid),
        Err(error) => Ok(format!(in alloc; "{error}\n")?),
    }
}

fn with_header(alloc: Global, header: &Vec<String>, grid: &Grid<String>) -> Result<String> {
    let rows = described(alloc, grid)?;
    Ok(format!(in alloc; "{header:?}\n{rows}")?)
}

/// Returns the header and the rows of a sheet that has one, or what is wrong with it.
pub fn headed(alloc: Global, bytes: &[u8]) -> Result<String> {
    match read(alloc, bytes, true) {
        Ok((header, grid)) => with_header(alloc, &header, &grid),
        Err(error) => Ok(format!(in alloc; "{error}\n")?),
    }
}

/// Returns the sheet of the rows of a sheet.
pub fn sheet_again(alloc: Global, bytes: &[u8]) -> Result<Vec<u8>> {
    let grid = rows(alloc, bytes)?;
    let text = to_csv(alloc, &grid, put)?;
    Ok(text.into_bytes())
}

/// Returns the sheet of the header and the rows of a sheet.
pub fn headed_again(alloc: Global, bytes: &[u8]) -> Result<Vec<u8>> {
    let (header, grid) = read(alloc, bytes, true)?;
    let text = to_csv_with_header(alloc, &header, &grid, put)?;
    Ok(text.into_bytes())
}

/// Returns the sheet of the columns of a sheet.
pub fn sheet_transposed(alloc: Global, bytes: &[u8]) -> Result<Vec<u8>> {
    let mut grid = rows(alloc, bytes)?;
    grid.transpose();
    let text = to_csv(alloc, &grid, put)?;
    Ok(text.into_bytes())
}

/// Returns the columns of a sheet.
pub fn transposed(alloc: Global, bytes: &[u8]) -> Result<String> {
    let mut grid = rows(alloc, bytes)?;
    grid.transpose();
    described(alloc, &grid)
}
