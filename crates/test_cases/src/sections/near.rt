//! The cells around a cell, and lines that change places.
use crate::ask::Ask;
use crate::case::CaseError;
use crate::shown::{shown, shown_made, shown_ok};
use grid::{Grid, Neighbors, WrappedNeighbors};
use std::alloc::Global;

type Near<'a> = Vec<((usize, usize), &'a i64)>;

fn listed(alloc: Global, board: &Grid<i64>, ask: Ask<'_>) -> Result<String, CaseError> {
    let at = ask.position(0);
    match ask.call {
        "neighbors4" => shown_ok(alloc, board.neighbors4(at).collect::<Near<'_>>(alloc)),
        "neighbors8" => shown_ok(alloc, board.neighbors8(at).collect::<Near<'_>>(alloc)),
        "wrapped_neighbors4" => shown_ok(
            alloc,
            board.wrapped_neighbors4(at).collect::<Near<'_>>(alloc),
        ),
        "wrapped_neighbors8" => shown_ok(
            alloc,
            board.wrapped_neighbors8(at).collect::<Near<'_>>(alloc),
        ),
        _ => Err(CaseError::UnknownCall),
    }
}

fn count_of(_: &i64, count: u8) -> i64 {
    i64::from(count)
}

// How many cells around a position are above a number.
fn counted(alloc: Global, board: &Grid<i64>, ask: Ask<'_>) -> Result<String, CaseError> {
    let at = ask.position(0);
    let number = ask.cell(2);
    let is_above = |cell: &i64| number < *cell;
    match ask.call {
        "count_neighbors4" => shown(alloc, board.count_neighbors4(at, is_above)),
        "count_neighbors8" => shown(alloc, board.count_neighbors8(at, is_above)),
        "count_wrapped_neighbors4" => shown(alloc, board.count_wrapped_neighbors4(at, is_above)),
        "count_wrapped_neighbors8" => shown(alloc, board.count_wrapped_neighbors8(at, is_above)),
        _ => listed(alloc, board, ask),
    }
}

// How many cells around each one are above a number.
fn map_counts(alloc: Global, board: &Grid<i64>, ask: Ask<'_>) -> Result<String, CaseError> {
    let number = ask.cell(0);
    let is_above = |cell: &i64| number < *cell;
    let made = match ask.call {
        "map_counts4" => board.map_counts4(is_above, count_of),
        "map_counts8" => board.map_counts8(is_above, count_of),
        "map_wrapped_counts4" => board.map_wrapped_counts4(is_above, count_of),
        "map_wrapped_counts8" => board.map_wrapped_counts8(is_above, count_of),
        _ => return counted(alloc, board, ask),
    };
    shown_made(alloc, made)
}

// The sum of a cell and those around it.
fn sum(_: (usize, usize), cell: &i64, near: Neighbors<'_, i64>) -> i64 {
    let mut sum = *cell;
    for (_, cell) in near {
        sum = sum.wrapping_add(*cell);
    }
    sum
}

fn wrapped_sum(_: (usize, usize), cell: &i64, near: WrappedNeighbors<'_, i64>) -> i64 {
    let mut sum = *cell;
    for (_, cell) in near {
        sum = sum.wrapping_add(*cell);
    }
    sum
}

// The sums of each cell and those around it.
fn mapped(alloc: Global, board: &Grid<i64>, ask: Ask<'_>) -> Result<String, CaseError> {
    let made = match ask.call {
        "map_neighbors4" => board.map_neighbors4(sum),
        "map_neighbors8" => board.map_neighbors8(sum),
        "map_wrapped_neighbors4" => board.map_wrapped_neighbors4(wrapped_sum),
        "map_wrapped_neighbors8" => board.map_wrapped_neighbors8(wrapped_sum),
        _ => return map_counts(alloc, board, ask),
    };
    shown_made(alloc, made)
}

// A cell as a byte, the largest where it is none.
fn weight(cell: &i64) -> u8 {
    u8::try_from(*cell).unwrap_or(u8::MAX)
}

fn added(cell: &i64, sum: u16) -> i64 {
    cell.wrapping_add(i64::from(sum))
}

// The sums of each cell and of those around it, as bytes.
fn map_sums(alloc: Global, board: &Grid<i64>, ask: Ask<'_>) -> Result<String, CaseError> {
    let made = match ask.call {
        "map_sums4" => board.map_sums4(weight, added),
        "map_sums8" => board.map_sums8(weight, added),
        "map_wrapped_sums4" => board.map_wrapped_sums4(weight, added),
        "map_wrapped_sums8" => board.map_wrapped_sums8(weight, added),
        _ => return mapped(alloc, board, ask),
    };
    shown_made(alloc, made)
}

fn swap_lines(board: &mut Grid<i64>, call: &str, (a, b): (usize, usize)) -> bool {
    let (rows, cols) = board.size();
    if call == "swap_rows" && a < rows && b < rows {
        board.swap_rows(a, b);
        return true;
    }
    if call == "swap_cols" && a < cols && b < cols {
        board.swap_cols(a, b);
        return true;
    }
    false
}

/// Returns what a call on cells around others or on two lines returned.
pub fn actual(alloc: Global, board: &mut Grid<i64>, ask: Ask<'_>) -> Result<String, CaseError> {
    match ask.call {
        "swap_rows" | "swap_cols" => shown(alloc, swap_lines(board, ask.call, ask.position(0))),
        _ => map_sums(alloc, board, ask),
    }
}
