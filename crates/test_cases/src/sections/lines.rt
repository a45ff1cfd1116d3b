//! Iterators over cells, rows and columns.
use crate::ask::Ask;
use crate::case::CaseError;
use crate::shown::{shown, text};
use grid::{Grid, GridColIter, GridLineIter, GridRowIter};
use std::alloc::{AllocError, Global};

// Adds a line that was handed out, or that there was none, and how many are left.
fn add_line(
    alloc: Global,
    text: &mut String,
    line: Option<GridLineIter<'_, i64>>,
    left: usize,
) -> Result<(), AllocError> {
    if !text.is_empty() {
        text.push_str("; ")?;
    }
    match line {
        Some(line) => {
            let cells = line.collect::<Vec<&i64>>(alloc)?;
            write!(text, "{cells:?} {left} left")
        }
        None => write!(text, "none {left} left"),
    }
}

// The lines that an iterator hands out at these ends, or after as many others as a number says, and how many are left
// each time.
fn handed(alloc: Global, mut lines: GridRowIter<'_, i64>, ends: &str) -> Result<String, CaseError> {
    let mut lines_text = String::new(alloc);
    for end in ends.split_whitespace() {
        let line = match end {
            "front" => lines.next(),
            "back" => lines.next_back(),
            skipped => lines.nth(skipped.parse::<usize>().unwrap_or(usize::MAX)),
        };
        add_line(alloc, &mut lines_text, line, lines.len())?;
    }
    Ok(lines_text)
}

// The cells in storage order, each with its position.
fn indexed(alloc: Global, board: &Grid<i64>) -> Result<String, CaseError> {
    shown(
        alloc,
        board
            .indexed_iter()
            .collect::<Vec<((usize, usize), &i64)>>(alloc)?,
    )
}

fn row(alloc: Global, board: &Grid<i64>, at: usize) -> Result<String, CaseError> {
    if at < board.rows() {
        shown(alloc, board.iter_row(at).collect::<Vec<&i64>>(alloc)?)
    } else {
        text(alloc, "no such row")
    }
}

fn col(alloc: Global, board: &Grid<i64>, at: usize) -> Result<String, CaseError> {
    if at < board.cols() {
        shown(alloc, board.iter_col(at).collect::<Vec<&i64>>(alloc)?)
    } else {
        text(alloc, "no such column")
    }
}

// The cell that an iterator over a row hands out after some others.
fn nth_in_row(board: &Grid<i64>, (at, skipped): (usize, usize)) -> Option<i64> {
    if at < board.rows() {
        board.iter_row(at).nth(skipped).copied()
    } else {
        None
    }
}

/// Returns what an iterator hands out.
pub fn actual(alloc: Global, board: &mut Grid<i64>, ask: Ask<'_>) -> Result<String, CaseError> {
    match ask.call {
        "iter_rows" => handed(alloc, board.iter_rows(), ask.rest),
        "iter_cols" => {
            let cols: GridColIter<'_, i64> = board.iter_cols();
            handed(alloc, cols, ask.rest)
        }
        "indexed_iter" => indexed(alloc, board),
        "iter_row" => row(alloc, board, ask.number(0)),
        "iter_col" => col(alloc, board, ask.number(0)),
        "iter_row_nth" => shown(alloc, nth_in_row(board, ask.position(0))),
        _ => Err(CaseError::UnknownCall),
    }
}
