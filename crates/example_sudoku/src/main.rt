//! Sudoku: reads a puzzle and its solution from standard input, nine rows each, `.` where a cell is free. Says which
//! givens the solution changes, and which of its rows, columns and boxes lack a digit. Two boards that can't be read
//! end it with status 2.
#![tactic(auto)]

use anyhow::{Result, bail};
use grid::{GridView, Order};
use grid_pairs::{fold_cols, fold_rows, tiles, zip_with};
use grid_text::from_text;
use std::io;
use std::process::ExitCode;

// The bits of the digits 1 to 9.
const ALL: u16 = 0b11_1111_1110;

// A digit as its bit, and a free cell as none.
fn bit(character: char) -> Option<u16> {
    match character {
        '.' => Some(0),
        '0' => None,
        _ => Some(1 << character.to_digit(10)?),
    }
}

// Prints which lines lack a digit.
fn report<R: Print>(rt: &R, name: &str, digits: &[u16]) -> Result<()> {
    for (number, digits) in digits.iter().enumerate() {
        if *digits != ALL {
            println!(rt; "{name} {number} lacks a digit")?;
        }
    }
    Ok(())
}

// Prints which rows, columns and boxes of a solution lack a digit.
fn check<R: Print + AllocGlobal>(rt: &R, solution: &GridView<'_, u16>) -> Result<()> {
    let rows = fold_rows(rt.alloc(), solution, 0u16, |digits, cell| digits | *cell)?;
    report(rt, "row", rows.as_slice())?;
    let cols = fold_cols(rt.alloc(), solution, 0u16, |digits, cell| digits | *cell)?;
    report(rt, "column", cols.as_slice())?;
    let mut boxes = Vec::new(rt.alloc());
    for tile in tiles(solution, 3, 3) {
        boxes.push(tile.iter().fold(0u16, |digits, cell| digits | *cell))?;
    }
    report(rt, "box", boxes.as_slice())
}

fn run<R: Input + Print + AllocGlobal>(rt: &R) -> Result<()> {
    let text = io::read_to_string(rt.alloc(), rt.reader())?;
    let boards = from_text(rt.alloc(), text.as_str(), bit)?;
    if boards.size() != (18, 9) {
        bail!("there are not eighteen rows of nine cells");
    }
    let puzzle = boards.part((0, 0), (9, 9));
    let solution = boards.part((9, 0), (9, 9));
    if puzzle.size() != solution.size() {
        bail!("the boards differ in size");
    }
    let kept = zip_with(
        rt.alloc(),
        Order::RowMajor,
        &puzzle,
        &solution,
        |given, cell| { *given == 0 || given == cell },
    )?;
    for ((row, col), kept) in kept.indexed_iter() {
        if !*kept {
            println!(rt; "the given in row {row}, column {col} is changed")?;
        }
    }
    check(rt, &solution)
}

fn main(rt: HostRuntime) -> ExitCode {
    match run(&rt) {
        Ok(()) => ExitCode::from(0),
        Err(error) => {
            let _ = eprintln!(rt; "{error}");
            ExitCode::from(2)
        }
    }
}
