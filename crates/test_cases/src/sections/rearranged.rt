//! Lines that are kept, rolled, written, rewritten, sorted and taken out.
use crate::ask::Ask;
use crate::case::CaseError;
use crate::shown::{shown, shown_ok};
use grid::{Grid, GridLineIter};
use grid_lines::{
    into_rows, retain_cols, retain_rows, rewrite_cols, rewrite_rows, roll_cols, roll_rows, set_col,
    set_row, sort_cols_by, sort_cols_by_key, sort_rows_by, sort_rows_by_key, to_rows, write_col,
    write_row,
};
use std::alloc::Global;
use std::cmp::Ordering;

fn has_one_of(row: GridLineIter<'_, i64>, (one, other): (i64, i64)) -> bool {
    for cell in row {
        if *cell == one || *cell == other {
            return true;
        }
    }
    false
}

// Keeps the rows that have one of two cells, and returns how many were looked at.
fn rows_kept(alloc: Global, board: &mut Grid<i64>, cells: (i64, i64)) -> Result<String, CaseError> {
    let mut seen = 0u32;
    retain_rows(board, |row| {
        seen = seen.wrapping_add(1);
        has_one_of(row, cells)
    });
    shown(alloc, seen)
}

fn has_no_seven(col: GridLineIter<'_, i64>) -> bool {
    for cell in col {
        if *cell == 7 {
            return false;
        }
    }
    true
}

// Changes lines. A line that the board doesn't have is a bad argument.
fn changed(board: &mut Grid<i64>, ask: Ask<'_>, cells: &[i64]) -> Result<(), CaseError> {
    let (at, (rows, cols)) = (ask.number(0), board.size());
    match ask.call {
        "roll_rows" if at <= rows => roll_rows(board, at),
        "roll_cols" if at <= cols => roll_cols(board, at),
        "set_row" if at < rows && cells.len() == cols => set_row(board, at, cells),
        "set_col" if at < cols && cells.len() == rows => set_col(board, at, cells),
        "retain_cols" => retain_cols(board, has_no_seven),
        "rewrite_rows" => rewrite_rows(board, <[i64]>::reverse),
        "rewrite_cols" => rewrite_cols(board, <[i64]>::sort_unstable),
        _ => return Err(CaseError::UnknownCall),
    }
    Ok(())
}

// Writes cells into each row in turn, and returns those that are left.
fn written_in_turn(
    alloc: Global,
    board: &mut Grid<i64>,
    cells: &[i64],
) -> Result<String, CaseError> {
    let mut items = cells.iter().copied();
    for row in 0..board.rows() {
        write_row(board, row, &mut items);
    }
    shown(alloc, items.collect::<Vec<i64>>(alloc)?)
}

// Writes cells into a line, as far as they go, and returns how many; or into each row in turn.
fn written(
    alloc: Global,
    board: &mut Grid<i64>,
    ask: Ask<'_>,
    cells: &[i64],
) -> Result<String, CaseError> {
    match ask.call {
        "write_row" => shown(
            alloc,
            write_row(board, ask.number(0), cells.iter().copied()),
        ),
        "write_col" => shown(
            alloc,
            write_col(board, ask.number(0), cells.iter().copied()),
        ),
        "write_rows_in_turn" => written_in_turn(alloc, board, cells),
        _ => Err(CaseError::UnknownCall),
    }
}

fn by_first(mut one: GridLineIter<'_, i64>, mut other: GridLineIter<'_, i64>) -> Ordering {
    one.next().cmp(&other.next())
}

fn by_first_down(one: GridLineIter<'_, i64>, other: GridLineIter<'_, i64>) -> Ordering {
    by_first(other, one)
}

fn by_all(one: GridLineIter<'_, i64>, other: GridLineIter<'_, i64>) -> Ordering {
    one.cmp(other)
}

fn by_all_down(one: GridLineIter<'_, i64>, other: GridLineIter<'_, i64>) -> Ordering {
    other.cmp(one)
}

fn sum(row: GridLineIter<'_, i64>) -> i64 {
    let mut sum = 0i64;
    for cell in row {
        sum = sum.wrapping_add(*cell);
    }
    sum
}

fn last(mut col: GridLineIter<'_, i64>) -> Option<i64> {
    col.next_back().copied()
}

// Sorts lines by their first cells, rows upwards and columns downwards, or by all cells, or rows by their sums and
// columns by their last cells.
fn sorted(board: &mut Grid<i64>, call: &str) -> Result<(), CaseError> {
    let sorted = match call {
        "sort_rows_by" => sort_rows_by(board, by_first),
        "sort_cols_by" => sort_cols_by(board, by_first_down),
        "sort_rows_by_all_cells" => sort_rows_by(board, by_all),
        "sort_cols_by_all_cells" => sort_cols_by(board, by_all_down),
        "sort_rows_by_key" => sort_rows_by_key(board, sum),
        "sort_cols_by_key" => sort_cols_by_key(board, last),
        _ => return Err(CaseError::UnknownCall),
    };
    Ok(sorted?)
}

// The rows by value, from a board that is empty afterwards.
fn taken(alloc: Global, board: &mut Grid<i64>) -> Result<String, CaseError> {
    match into_rows(std::mem::replace(board, Grid::empty(alloc))) {
        Ok(rows) => shown(alloc, rows),
        Err(_) => Err(CaseError::Memory),
    }
}

/// Returns what a call on whole lines returned.
pub fn actual(alloc: Global, board: &mut Grid<i64>, ask: Ask<'_>) -> Result<String, CaseError> {
    match ask.call {
        "retain_rows" => rows_kept(alloc, board, (ask.cell(0), ask.cell(1))),
        "to_rows" => shown_ok(alloc, to_rows(alloc, board)),
        "into_rows" => taken(alloc, board),
        call if call.starts_with("write_") => {
            written(alloc, board, ask, ask.line(alloc)?.as_slice())
        }
        call if call.starts_with("sort_") => shown(alloc, sorted(board, call)?),
        _ => shown(alloc, changed(board, ask, ask.line(alloc)?.as_slice())?),
    }
}
