//! Box blur: each cell of the gray picture on standard input becomes the mean of the cells at most a radius away, down
//! and across. From sums of the picture a mean takes the same time at every radius; the plain way adds up all those
//! cells. Writes the pictures that the first way makes, and whether the second makes them too. A picture that can't be
//! read ends it with status 2.
#![tactic(auto)]

ghost use Rattle.std.specs.Prelude.{◌+◌, ◌<◌, ◌≤◌};

use anyhow::Result;
use grid::{Grid, GridView};
use grid_pnm::from_pgm;
use grid_sums::Sums;
use std::alloc::AllocError;
use std::io::Read;
use std::process::ExitCode;

const RADII: [usize; 3] = [1, 2, 20];

// A stretch of a line: where it starts, and how many cells it has.
#[derive(Clone, Copy)]
struct Stretch {
    start: usize,
    len: usize,
}

// The cells of a line that are at most `radius` away from one.
fn around(at: usize, radius: usize, len: usize) -> Stretch
    requires { at < len }
    ensures { result.start + result.len ≤ len }
{
    let start = at.saturating_sub(radius);
    let end = len.min(at.saturating_add(radius).saturating_add(1));
    Stretch {
        start,
        len: end - start,
    }
}

// The blurred picture, by its sums; the picture itself where they are those of another size.
fn blurred(picture: &Grid<u8>, sums: &Sums, radius: usize) -> Result<Grid<u8>, AllocError> {
    let (rows, cols) = picture.size();
    if sums.size() != (rows, cols) {
        return picture.clone();
    }
    picture.map_indexed(|(row, col), cell| {
        let (down, across) = (around(row, radius, rows), around(col, radius, cols));
        let mean = sums.mean((down.start, across.start), (down.len, across.len));
        mean.map_or(*cell, |mean| mean.clamp(0, 255) as u8)
    })
}

// The mean of the cells of a part, one after another.
fn mean(part: &GridView<'_, u8>) -> Option<u8> {
    let sum = part
        .iter()
        .fold(0u64, |sum, cell| sum.saturating_add(u64::from(*cell)));
    let count = part.rows().saturating_mul(part.cols()) as u64;
    Some(sum.checked_div(count)?.min(255) as u8)
}

// The blurred picture, cell by cell.
fn plainly_blurred(picture: &Grid<u8>, radius: usize) -> Result<Grid<u8>, AllocError> {
    let (rows, cols) = picture.size();
    picture.map_indexed(|(row, col), cell| {
        let (down, across) = (around(row, radius, rows), around(col, radius, cols));
        let part = picture.part((down.start, across.start), (down.len, across.len));
        mean(&part).unwrap_or(*cell)
    })
}

fn run<R: Input + Print + AllocGlobal>(rt: &R) -> Result<()> {
    let mut bytes = Vec::new(rt.alloc());
    rt.reader().read_to_end(&mut bytes)?;
    let picture = from_pgm(rt.alloc(), bytes.as_slice())?;
    let sums = Sums::of(rt.alloc(), &picture)?;
    for radius in RADII {
        let blurred = blurred(&picture, &sums, radius)?;
        let agrees = blurred == plainly_blurred(&picture, radius)?;
        let text = blurred.pretty(rt.alloc(), Some(2))?;
        println!(rt; "radius {radius}, both ways alike: {agrees}\n{text}")?;
    }
    Ok(())
}

fn main(rt: HostRuntime) -> ExitCode {
    match run(&rt) {
        Ok(()) => ExitCode::from(0),
        Err(error) => {
            let _ = eprintln!(rt; "{error}");
            ExitCode::from(2)
        }
    }
}
