//! Cells that are read, written and found, one by one.
use crate::ask::Ask;
use crate::case::CaseError;
use crate::shown::{shown, text};
use grid::Grid;
use std::alloc::Global;

// The calls that want a position in range. The number is written by those that write.
fn in_range(
    alloc: Global,
    board: &mut Grid<i64>,
    call: &str,
    (row, col): (usize, usize),
    number: i64,
) -> Result<String, CaseError> {
    if !board.contains((row, col)) {
        return text(alloc, "out of range");
    }
    match call {
        "index" => return shown(alloc, board[(row, col)]),
        "get_unchecked" => return shown(alloc, *board.get_unchecked(row, col)),
        "index_mut" => board[(row, col)] = number,
        "get_unchecked_mut" => *board.get_unchecked_mut(row, col) = number,
        _ => return Err(CaseError::UnknownCall),
    }
    shown(alloc, ())
}

// Writes to a cell that is there.
fn written(cell: Option<&mut i64>, number: i64) -> bool {
    match cell {
        Some(cell) => {
            *cell = number;
            true
        }
        None => false,
    }
}

fn write(alloc: Global, board: &mut Grid<i64>, ask: Ask<'_>) -> Result<String, CaseError> {
    let (row, col) = ask.position(0);
    let number = ask.cell(2);
    match ask.call {
        "set" => shown(alloc, board.set(row, col, number)),
        "set_at" => shown(alloc, board.set_at((row, col), number)),
        "as_mut_slice" => {
            let cell = board.as_mut_slice().get_mut(row);
            shown(alloc, written(cell, ask.cell(1)))
        }
        "get_mut" => shown(alloc, written(board.get_mut(row, col), number)),
        "get_mut_at" => shown(alloc, written(board.get_mut_at((row, col)), number)),
        _ => in_range(alloc, board, ask.call, (row, col), number),
    }
}

/// Returns what a call on one cell returned.
pub fn actual(alloc: Global, board: &mut Grid<i64>, ask: Ask<'_>) -> Result<String, CaseError> {
    let (row, col) = ask.position(0);
    match ask.call {
        "get" => shown(alloc, board.get(row, col)),
        "get_at" => shown(alloc, board.get_at((row, col))),
        "get_clamped" => shown(alloc, board.get_clamped((ask.signed(0), ask.signed(1)))),
        "beside" => shown(alloc, board.beside((row, col), ask.direction(2)?)),
        "wrapped_beside" => shown(alloc, board.wrapped_beside((row, col), ask.direction(2)?)),
        "wrapped_step" => shown(
            alloc,
            ask.direction(2)?.wrapped_step(board.size(), (row, col)),
        ),
        _ => write(alloc, board, ask),
    }
}
