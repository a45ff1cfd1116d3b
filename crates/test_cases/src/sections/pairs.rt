//! Two boards at once, the parts of a board in turn, a value for each line, and where a pattern stands.
use crate::ask::Ask;
use crate::case::CaseError;
use crate::sections::views::stamp;
use crate::shown::{shown, shown_made, shown_ok, text};
use grid::{Grid, GridView};
use grid_pairs::{
    IntoView, PartIter, find, fold_cells, fold_cols, fold_rows, tiles, update_with, windows,
    zip_with,
};
use std::alloc::Global;

// The two cells as the digits of a number.
fn joined(first: &i64, second: &i64) -> i64 {
    first.wrapping_mul(10).wrapping_add(*second)
}

fn digits(so_far: i64, cell: &i64) -> i64 {
    joined(&so_far, cell)
}

// All parts from the start or from the end, or the one after some others.
fn parts(alloc: Global, mut parts: PartIter<'_, i64>, ask: Ask<'_>) -> Result<String, CaseError> {
    match ask.word(2) {
        "" => shown_ok(alloc, parts.collect::<Vec<GridView<'_, i64>>>(alloc)),
        "rev" => shown_ok(alloc, parts.rev().collect::<Vec<GridView<'_, i64>>>(alloc)),
        _ => {
            let part = parts.nth(ask.number(2));
            Ok(format!(in alloc; "{part:?}, {} left", parts.len())?)
        }
    }
}

// The tiles of a board without its edge, whose view isn't kept.
fn inner_tiles(alloc: Global, board: &Grid<i64>) -> Result<String, CaseError> {
    let (rows, cols) = board.size();
    if rows < 2 || cols < 2 {
        return text(alloc, "no inside");
    }
    let inner = tiles(board.part((1, 1), (rows - 2, cols - 2)), 2, 2);
    shown_ok(alloc, inner.collect::<Vec<GridView<'_, i64>>>(alloc))
}

// What a call on a board alone returned.
fn alone(alloc: Global, board: &Grid<i64>, ask: Ask<'_>) -> Result<String, CaseError> {
    let (rows, cols) = ask.position(0);
    match ask.call {
        "fold_rows" => shown_ok(alloc, fold_rows(alloc, board, 0i64, digits)),
        "fold_cols" => shown_ok(alloc, fold_cols(alloc, board, 0i64, digits)),
        "fold_cells" => shown(alloc, fold_cells(board, 0i64, digits)),
        "fold_cells_turned" => shown(alloc, fold_cells(&board.view().transposed(), 0i64, digits)),
        "row_slice" if rows < board.rows() => shown(alloc, board.view().row_slice(rows)),
        "into_view" => shown(alloc, board.into_view()),
        "inner_tiles" => inner_tiles(alloc, board),
        "tiles" if 0 < rows && 0 < cols => parts(alloc, tiles(board, rows, cols), ask),
        "windows" if 0 < rows && 0 < cols => parts(alloc, windows(board.view(), rows, cols), ask),
        _ => Err(CaseError::UnknownCall),
    }
}

// What a call on two boards of one size returned.
fn together(
    alloc: Global,
    board: &mut Grid<i64>,
    other: &Grid<i64>,
    ask: Ask<'_>,
) -> Result<String, CaseError> {
    if board.size() != other.size() {
        return text(alloc, "different sizes");
    }
    if ask.call == "update_with" {
        return shown(alloc, update_with(board, other, joined));
    }
    shown_made(
        alloc,
        zip_with(alloc, ask.order(1), &board.view(), other, joined),
    )
}

/// Returns what a call on a board and another in an order returned, or on the board alone.
pub fn actual(alloc: Global, board: &mut Grid<i64>, ask: Ask<'_>) -> Result<String, CaseError> {
    match ask.call {
        "zip_with" | "update_with" => together(alloc, board, &stamp(alloc, ask, 0)?, ask),
        "find" => shown(alloc, find(&board.view(), &stamp(alloc, ask, 0)?)),
        _ => alone(alloc, board, ask),
    }
}
