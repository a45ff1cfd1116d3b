//! Lines that are put, taken, padded and deleted, each by its own call.
use crate::ask::Ask;
use crate::case::CaseError;
use crate::shown::{shown, shown_ok};
use grid::Grid;
use std::alloc::Global;
use test_support::line_edits::{LineAt, insert, insert_several, push_col, push_row};

// Puts a line.
fn put_line(
    alloc: Global,
    board: &mut Grid<i64>,
    ask: Ask<'_>,
    line: Vec<i64>,
) -> Result<String, CaseError> {
    let at = ask.number(0);
    match ask.call {
        "push_row" => shown(alloc, push_row(board, line)),
        "push_col" => shown(alloc, push_col(board, line)),
        "insert_row" => shown(alloc, insert(board, LineAt::Row(at), line)),
        "insert_col" => shown(alloc, insert(board, LineAt::Col(at), line)),
        _ => Err(CaseError::UnknownCall),
    }
}

// Puts several lines.
fn put_lines(alloc: Global, board: &mut Grid<i64>, ask: Ask<'_>) -> Result<String, CaseError> {
    let lines = ask.lines(alloc)?;
    let at = ask.number(0);
    if ask.call == "insert_rows" {
        shown(alloc, insert_several(board, LineAt::Row(at), lines))
    } else {
        shown(alloc, insert_several(board, LineAt::Col(at), lines))
    }
}

fn take(alloc: Global, board: &mut Grid<i64>, ask: Ask<'_>) -> Result<String, CaseError> {
    let at = ask.number(0);
    match ask.call {
        "pop_row" => shown_ok(alloc, board.pop_row()),
        "pop_col" => shown_ok(alloc, board.pop_col()),
        "remove_row" => shown_ok(alloc, board.remove_row(at)),
        "remove_col" => shown_ok(alloc, board.remove_col(at)),
        "insert_rows" | "insert_cols" => put_lines(alloc, board, ask),
        _ => put_line(alloc, board, ask, ask.line(alloc)?),
    }
}

fn pad(alloc: Global, board: &mut Grid<i64>, ask: Ask<'_>) -> Result<String, CaseError> {
    let count = ask.number(0);
    match ask.call {
        "expand_rows" => shown(alloc, board.expand_rows(count)),
        "expand_cols" => shown(alloc, board.expand_cols(count)),
        "prepend_rows" => shown(alloc, board.prepend_rows(count)),
        "prepend_cols" => shown(alloc, board.prepend_cols(count)),
        _ => take(alloc, board, ask),
    }
}

/// Returns what an edit returned.
pub fn actual(alloc: Global, board: &mut Grid<i64>, ask: Ask<'_>) -> Result<String, CaseError> {
    let (at, count) = ask.position(0);
    match ask.call {
        "delete_row" => shown(alloc, board.delete_row(at)),
        "delete_col" => shown(alloc, board.delete_col(at)),
        "delete_rows" => shown(alloc, board.delete_rows(at, count)),
        "delete_cols" => shown(alloc, board.delete_cols(at, count)),
        "fits_row" => shown(alloc, board.fits_row(at)),
        "fits_col" => shown(alloc, board.fits_col(at)),
        "clear" => shown(alloc, board.clear()),
        _ => pad(alloc, board, ask),
    }
}
