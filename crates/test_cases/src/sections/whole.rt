//! Calls on a whole board: its cells by closures, its clone, whether another is equal, and its texts.
//!
//! A board that a call makes is in the line of the call.
use crate::ask::{Ask, board_of};
use crate::case::CaseError;
use crate::shown::{shown, shown_board, shown_made};
use grid::Grid;
use std::alloc::Global;
use std::collections::HashSet;
use std::hash::{DefaultHasher, Hash, Hasher};
use std::mem;

// A cell, and 10 more below the first row, and 1 more after the first column.
fn by_place((row, col): (usize, usize), cell: &i64) -> i64 {
    let below = if row == 0 { 0 } else { 10 };
    let after = if col == 0 { 0 } else { 1 };
    cell.wrapping_add(below).wrapping_add(after)
}

// Adds 10 to the first cell that the closure is called with, 20 to the second, and so on.
fn map_by_tens(alloc: Global, board: &mut Grid<i64>) -> Result<String, CaseError> {
    let mut step = 0i64;
    let mapped = mem::replace(board, Grid::empty(alloc)).map(|cell| {
        step = step.wrapping_add(10);
        cell.wrapping_add(step)
    });
    match mapped {
        Ok(made) => shown_board(alloc, &made),
        Err(_) => Err(CaseError::Memory),
    }
}

// Maps each cell to its name, which the closure reads in a table that it holds.
fn map_to_names(alloc: Global, board: &Grid<i64>) -> Result<String, CaseError> {
    let names = ["none", "one", "two", "three", "four"];
    shown_made(
        alloc,
        board.map_ref(|cell| match usize::try_from(*cell) {
            Ok(number) => match names.get(number) {
                Some(name) => *name,
                None => "many",
            },
            Err(_) => "less",
        }),
    )
}

// Fills with 1, 2, 3, .. and says how many cells were filled.
fn fill_by_counting(board: &mut Grid<i64>) -> i64 {
    let mut count = 0i64;
    board.fill_with(|| {
        count = count.wrapping_add(1);
        count
    });
    count
}

// The clone of a board that is then cleared.
fn clone_and_clear(alloc: Global, board: &mut Grid<i64>) -> Result<String, CaseError> {
    let copy = board.clone()?;
    board.clear();
    shown_board(alloc, &copy)
}

fn hash_of(board: &Grid<i64>) -> u64 {
    let mut hasher = DefaultHasher::new();
    board.hash(&mut hasher);
    hasher.finish()
}

// Whether a board equals another, the other this one, and whether both hash alike.
fn compared(alloc: Global, board: &Grid<i64>, other: &str) -> Result<String, CaseError> {
    let other = board_of(alloc, other)?;
    let equal = *board == other;
    let equals = other == *board;
    let alike = hash_of(board) == hash_of(&other);
    Ok(format!(in alloc; "equal {equal} {equals}, hashed alike {alike}")?)
}

// Whether a board and another are new in a set in turn, and how many members it then has.
fn in_one_set(alloc: Global, board: &Grid<i64>, other: &str) -> Result<String, CaseError> {
    let mut set = HashSet::new(alloc);
    let first = set.insert(board.clone()?)?;
    let second = set.insert(board_of(alloc, other)?)?;
    Ok(format!(in alloc; "new {first} {second}, {} in the set", set.len())?)
}

// The text of the rows, in the width that is asked for, if any.
fn pretty(alloc: Global, board: &Grid<i64>, ask: Ask<'_>) -> Result<String, CaseError> {
    match ask.word(0).parse::<usize>() {
        Ok(width) => Ok(board.pretty(alloc, Some(width))?),
        Err(_) => Ok(board.pretty(alloc, None)?),
    }
}

/// Returns what a call on the whole board returned.
pub fn actual(alloc: Global, board: &mut Grid<i64>, ask: Ask<'_>) -> Result<String, CaseError> {
    match ask.call {
        "map" => map_by_tens(alloc, board),
        "map_ref" => map_to_names(alloc, board),
        "map_indexed" => shown_made(alloc, board.map_indexed(by_place)),
        "update" => shown(alloc, board.update(by_place)),
        "fill_with" => shown(alloc, fill_by_counting(board)),
        "clone" => clone_and_clear(alloc, board),
        "equals" => compared(alloc, board, ask.rest),
        "in_one_set" => in_one_set(alloc, board, ask.rest),
        "debug" => shown(alloc, &*board),
        "pretty" => pretty(alloc, board, ask),
        _ => Err(CaseError::UnknownCall),
    }
}
