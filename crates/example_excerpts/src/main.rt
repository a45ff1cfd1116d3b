//! Excerpts of a map and of a sheet: a part, a part that is turned, and a board whose turn is deferred, each written as
//! a text, as CSV or as a picture. No board is copied before it is written.
#![tactic(auto)]

use anyhow::{Result, bail};
use grid::{Command, Grid, Symmetry, Tally, grid};
use grid_csv::to_csv;
use grid_deferred::Deferred;
use grid_pnm::to_pgm;
use grid_text::{to_text, to_words};
use std::alloc::{AllocError, Global};

fn ground((row, col): (usize, usize)) -> char {
    match row.wrapping_mul(5).wrapping_add(col.wrapping_mul(3)) % 11 {
        0..=5 => '.',
        6..=8 => 'o',
        _ => '#',
    }
}

fn print_map<R: Print + AllocGlobal>(rt: &R) -> Result<()> {
    let map = Grid::from_fn(rt.alloc(), 6, 12, ground)?;
    let Some(part) = map.get_part((1, 2), (3, 5)) else {
        bail!("the map has no such part");
    };
    println!(rt; "the map\n{}", to_text(rt.alloc(), &map, |cell| *cell)?)?;
    println!(rt;
        "a part of it\n{}",
        to_text(rt.alloc(), &part, |cell| *cell)?
    )?;
    let turned = part.turned(Symmetry::RotateLeft);
    println!(rt;
        "turned to the left\n{}",
        to_text(rt.alloc(), &turned, |cell| *cell)?
    )?;
    let picture = to_pgm(
        rt.alloc(),
        &turned,
        |cell| if *cell == '#' { 0 } else { 255 },
    )?;
    println!(rt; "{} bytes as a picture\n", picture.len())?;
    Ok(())
}

fn put(cell: &i64, text: &mut String) -> Result<(), AllocError> {
    write!(text, "{cell}")
}

fn print_sheet<R: Print + AllocGlobal>(rt: &R) -> Result<()> {
    let alloc = rt.alloc();
    let mut sheet = grid!(alloc; [1, 250, 12] [2, -75, 4] [3, 990, 1])?;
    let Some(columns) = sheet.get_part((0, 1), (3, 2)) else {
        bail!("the sheet has no such columns");
    };
    println!(rt; "two columns\n{}", to_csv(alloc, &columns, put)?)?;
    println!(rt;
        "all rows as columns\n{}",
        to_csv(alloc, &sheet.view().transposed(), put)?
    )?;
    println!(rt;
        "from the last row, with no swap\n{}",
        last_first(alloc, &mut sheet)?
    )?;
    Ok(())
}

// Returns the words of a sheet from its last row on. The sheet stays as it is.
fn last_first(alloc: Global, sheet: &mut Grid<i64>) -> Result<String, AllocError> {
    let mut deferred = Deferred::over(sheet);
    let turn = deferred.step(Command::Apply(Symmetry::FlipRows), &mut Tally::new());
    let text = to_words(alloc, &deferred);
    deferred.release();
    turn?;
    text
}

fn main(rt: HostRuntime) -> Result<()> {
    print_map(&rt)?;
    print_sheet(&rt)
}
