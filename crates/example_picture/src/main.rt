//! Blurs the gray picture on standard input, cuts its edge off, turns it to the right, and writes it raw.
//!
//! What is wrong with a picture is said in a line in place of one, and the status is 2 then.
#![tactic(auto)]

use anyhow::{Result, bail};
use grid::Grid;
use grid_pnm::{from_pgm, read_header, to_pgm};
use std::alloc::{AllocError, Global};
use std::io;
use std::io::{Read, Write};
use std::process::ExitCode;

// Each cell becomes the mean of itself, counted 8 times, and of the 8 cells that touch it.
fn blurred(picture: &Grid<u8>) -> Result<Grid<u8>, AllocError> {
    picture.map_sums8(
        |cell| *cell,
        |cell, sum| (sum.saturating_add(8 * u16::from(*cell)) / 16).min(255) as u8,
    )
}

// The picture without the cells at its edge, which touch fewer.
fn inside(picture: &Grid<u8>) -> Result<Grid<u8>> {
    let (rows, cols) = picture.size();
    if rows < 3 || cols < 3 {
        bail!("a picture of {rows} rows and {cols} columns is all edge");
    }
    Ok(picture.sub_grid((1, 1), (rows - 2, cols - 2))?)
}

fn developed(alloc: Global, bytes: &[u8]) -> Result<Vec<u8>> {
    let white = u16::from(read_header(bytes)?.max);
    let mut picture = inside(&blurred(&from_pgm(alloc, bytes)?)?)?;
    picture.rotate_right();
    let bytes = to_pgm(
        alloc,
        &picture,
        |cell| (u16::from(*cell) * 255 / white).min(255) as u8,
    )?;
    Ok(bytes)
}

// Whether the picture was right.
fn develop<R: Input + Print + AllocGlobal>(rt: &R) -> io::Result<bool> {
    let mut bytes = Vec::new(rt.alloc());
    rt.reader().read_to_end(&mut bytes)?;
    match developed(rt.alloc(), bytes.as_slice()) {
        Ok(picture) => {
            io::writer(rt).write_all(picture.as_slice())?;
            Ok(true)
        }
        Err(fault) => {
            println!(rt; "{fault}")?;
            Ok(false)
        }
    }
}

fn main(rt: HostRuntime) -> ExitCode {
    match develop(&rt) {
        Ok(true) => ExitCode::SUCCESS,
        Ok(false) => ExitCode::from(2),
        Err(_) => ExitCode::FAILURE,
    }
}
