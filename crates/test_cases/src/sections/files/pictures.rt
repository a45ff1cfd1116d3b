//! Pictures: their rows, and what calls make of them.
use crate::case::CaseError;
use anyhow::{Result, bail};
use grid::{Grid, GridError};
use grid_csv::to_csv;
use grid_pnm::laws::{pgm_written_and_read, ppm_written_and_read};
use grid_pnm::{enlarged, from_pgm, from_ppm, read_header, to_pgm, to_ppm};
use std::alloc::{AllocError, Global};

fn same<T: Copy>(cell: &T) -> T {
    *cell
}

fn put_gray(cell: &u8, text: &mut String) -> Result<(), AllocError> {
    write!(text, "{cell}")
}

fn put_color([red, green, blue]: &[u8; 3], text: &mut String) -> Result<(), AllocError> {
    write!(text, "{red} {green} {blue}")
}

// The size and the white of a picture, and its rows.
fn described(alloc: Global, bytes: &[u8], size: (usize, usize), rows: &str) -> Result<String> {
    let white = read_header(bytes)?.max;
    Ok(format!(in alloc;
        "{} rows, {} columns, white is {white}\n{rows}",
        size.0, size.1
    )?)
}

// The rows of a gray picture, which must be those that are read back.
fn gray_rows(alloc: Global, grid: &Grid<u8>) -> Result<String> {
    if pgm_written_and_read(alloc, grid, same)? != *grid {
        bail!("the rows are not read back");
    }
    Ok(to_csv(alloc, grid, put_gray)?)
}

fn described_gray(alloc: Global, bytes: &[u8], grid: &Grid<u8>) -> Result<String> {
    let rows = gray_rows(alloc, grid)?;
    described(alloc, bytes, grid.size(), rows.as_str())
}

/// Returns the rows of a gray picture, or what is wrong with it.
pub fn gray(alloc: Global, bytes: &[u8]) -> Result<String> {
    match from_pgm(alloc, bytes) {
        Ok(grid) => described_gray(alloc, bytes, &grid),
        Err(error) => Ok(format!(in alloc; "{error}\n")?),
    }
}

// The rows of a colored picture, which must be those that are read back.
fn colored_rows(alloc: Global, grid: &Grid<[u8; 3]>) -> Result<String> {
    if ppm_written_and_read(alloc, grid, same)? != *grid {
        bail!("the rows are not read back");
    }
    Ok(to_csv(alloc, grid, put_color)?)
}

fn described_colored(alloc: Global, bytes: &[u8], grid: &Grid<[u8; 3]>) -> Result<String> {
    let rows = colored_rows(alloc, grid)?;
    described(alloc, bytes, grid.size(), rows.as_str())
}

/// Returns the rows of a colored picture, or what is wrong with it.
pub fn colored(alloc: Global, bytes: &[u8]) -> Result<String> {
    match from_ppm(alloc, bytes) {
        Ok(grid) => described_colored(alloc, bytes, &grid),
        Err(error) => Ok(format!(in alloc; "{error}\n")?),
    }
}

// The part of 3 rows and 4 columns from row 1 and column 2 on, or the whole of a smaller board.
fn cut(grid: Grid<u8>) -> Result<Grid<u8>, GridError> {
    let (rows, cols) = grid.size();
    if rows < 4 || cols < 6 {
        return Ok(grid);
    }
    let part = grid.sub_grid((1, 2), (3, 4))?;
    Ok(part)
}

// Turns a board.
fn turn<T>(call: &str, grid: &mut Grid<T>) -> Result<(), CaseError> {
    match call {
        "copied" => {}
        "rotate_right" => grid.rotate_right(),
        "rotate_left" => grid.rotate_left(),
        "rotate_half" => grid.rotate_half(),
        "flip_rows" => grid.flip_rows(),
        "flip_cols" => grid.flip_cols(),
        "transpose" => grid.transpose(),
        _ => return Err(CaseError::UnknownCall),
    }
    Ok(())
}

// What a call makes of a board.
fn turned<T: Copy>(alloc: Global, call: &str, mut grid: Grid<T>) -> Result<Grid<T>> {
    match call {
        "enlarged_0" => Ok(enlarged(alloc, &grid, 0)?),
        "enlarged_3" => Ok(enlarged(alloc, &grid, 3)?),
        _ => {
            turn(call, &mut grid)?;
            Ok(grid)
        }
    }
}

/// Returns the gray picture that a call makes of one.
pub fn gray_turned(alloc: Global, call: &str, bytes: &[u8]) -> Result<Vec<u8>> {
    let board = from_pgm(alloc, bytes)?;
    let grid = match call {
        "cut" => cut(board)?,
        _ => turned(alloc, call, board)?,
    };
    Ok(to_pgm(alloc, &grid, same)?)
}

/// Returns the colored picture that a call makes of one.
pub fn colored_turned(alloc: Global, call: &str, bytes: &[u8]) -> Result<Vec<u8>> {
    let grid = turned(alloc, call, from_ppm(alloc, bytes)?)?;
    Ok(to_ppm(alloc, &grid, same)?)
}

/// Returns what is wrong with a gray picture enlarged past what a board can be.
pub fn too_large(alloc: Global, bytes: &[u8]) -> Result<String> {
    match enlarged(alloc, &from_pgm(alloc, bytes)?, usize::MAX) {
        Ok(grid) => Ok(format!(in alloc; "{:?}\n", grid.size())?),
        Err(error) => Ok(format!(in alloc; "{error}\n")?),
    }
}
