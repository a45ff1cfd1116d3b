//! Plays Minesweeper: reads a field of mines and moves on standard input, and draws the field after each move.
//!
//! A field is lines of `*` (a mine) and `.`. After a line `--` each line is a move: `open 2 3` or `flag 2 3`, with a
//! row and a column.
#![tactic(auto)]

use anyhow::{Result, bail};
use grid::Grid;
use grid_paths::{Connectivity, Enter, flood};
use grid_text::{from_text, to_text};
use std::alloc::{AllocError, Global};
use std::io;
use text_lines::{Words, parse_index};

#[derive(Clone, Copy, PartialEq)]
enum Shown {
    Nothing,
    Flag,
    Count,
}

#[derive(Clone, Copy)]
struct Cell {
    is_mine: bool,
    near: u8,
    shown: Shown,
}

// Whether a character is a mine, if it is a cell.
fn mine(character: char) -> Option<bool> {
    match character {
        '*' => Some(true),
        '.' => Some(false),
        _ => None,
    }
}

// A cell that isn't opened yet.
fn hidden(is_mine: &bool, near: u8) -> Cell {
    Cell {
        is_mine: *is_mine,
        near,
        shown: Shown::Nothing,
    }
}

// The field of these mines, each cell with the number of mines that touch it.
fn field(alloc: Global, text: &str) -> Result<Grid<Cell>> {
    let mines = from_text(alloc, text, mine)?;
    Ok(mines.map_counts8(|is_mine| *is_mine, hidden)?)
}

// The word of a move, and its position.
fn read_move(line: &str) -> Option<(&str, (usize, usize))> {
    let mut words = Words::of(line.as_bytes())?;
    let word = words.next()?;
    Some((
        word,
        (parse_index(words.next()?)?, parse_index(words.next()?)?),
    ))
}

// Opens a cell, and around each that no mine touches all others, as far as these lead.
fn open(field: &mut Grid<Cell>, at: (usize, usize)) -> Result<(), AllocError> {
    let opened = flood(field, &[at], Connectivity::Eight, |cell| match cell.near {
        _ if cell.shown == Shown::Flag => Enter::No,
        0 if !cell.is_mine => Enter::On,
        _ => Enter::Stop,
    })?;
    for at in opened.iter() {
        if let Some(cell) = field.get_mut_at(*at) {
            cell.shown = Shown::Count;
        }
    }
    Ok(())
}

// Makes the move of a line.
fn play(field: &mut Grid<Cell>, line: &str) -> Result<()> {
    match read_move(line) {
        Some(("open", at)) => open(field, at)?,
        Some(("flag", at)) => {
            if let Some(cell) = field.get_mut_at(at) {
                cell.shown = Shown::Flag;
            }
        }
        _ => bail!("{line:?} is no move"),
    }
    Ok(())
}

fn drawn(cell: &Cell) -> char {
    match cell.shown {
        Shown::Nothing => '#',
        Shown::Flag => '!',
        Shown::Count if cell.is_mine => '*',
        Shown::Count if cell.near == 0 => ' ',
        Shown::Count => char::from(b'0'.saturating_add(cell.near)),
    }
}

fn main(rt: HostRuntime) -> Result<()> {
    let alloc = rt.alloc();
    let text = io::read_to_string(alloc, rt.reader())?;
    let Some((map, moves)) = text.split_once("--\n") else {
        bail!("there is no line --");
    };
    let mut field = field(alloc, map)?;
    for line in moves.lines() {
        play(&mut field, line)?;
        println!(rt; "{line}\n{}", to_text(alloc, &field, drawn)?)?;
    }
    Ok(())
}
