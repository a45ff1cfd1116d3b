//! Edits of lines, padding, boards joined and split, and another size.
use crate::state::{Answer, Board, Call, Start, board_came, came, fitting, line_came, lines_came};
use std::alloc::AllocError;
use test_support::line_edits::{LineAt, insert, insert_several, push_col, push_row};

pub const CALLS: [Call; 19] = [
    Call("Grid::push_row", 1, None, None),
    Call("Grid::push_col", 1, None, None),
    Call("Grid::insert_row", 4, None, None),
    Call("Grid::insert_col", 4, None, None),
    Call("Grid::insert_rows", 9, None, None),
    Call("Grid::insert_cols", 9, None, None),
    Call("Grid::pop_row", 1, Some(1), None),
    Call("Grid::pop_col", 1, Some(1), None),
    Call("Grid::remove_row", 9, None, None),
    Call("Grid::remove_col", 9, None, None),
    Call("Grid::expand_rows", 3, None, None),
    Call("Grid::expand_cols", 3, None, None),
    Call("Grid::prepend_rows", 3, None, None),
    Call("Grid::prepend_cols", 3, None, None),
    Call("Grid::append_rows", 4, None, None),
    Call("Grid::append_cols", 4, None, None),
    Call("Grid::split_off_rows", 9, None, None),
    Call("Grid::split_off_cols", 9, None, None),
    Call("Grid::resize", 9, None, None),
];

// A line that fits, put where the call of this name puts it.
fn line_put<'a>(start: &'a Start, board: &mut Board<'a>, name: &str) -> Result<Answer, AllocError> {
    let (rows, cols) = start.size;
    let len = match name {
        "Grid::push_row" | "Grid::insert_row" => fitting(cols),
        _ => fitting(rows),
    };
    let line = start.line(len)?;
    start.ready();
    let put = match name {
        "Grid::push_row" => push_row(board, line),
        "Grid::push_col" => push_col(board, line),
        "Grid::insert_row" => insert(board, LineAt::Row(start.case.min(rows)), line),
        _ => insert(board, LineAt::Col(start.case.min(cols)), line),
    };
    Ok(line_came(put, len))
}

// No line that fits, one or two, put before the first line, after the last, or between.
fn several_put<'a>(
    start: &'a Start,
    board: &mut Board<'a>,
    name: &str,
) -> Result<Answer, AllocError> {
    let (rows, cols) = start.size;
    let (row, col) = match start.case / 3 {
        0 => (0, 0),
        1 => start.size,
        _ => (rows / 2, cols / 2),
    };
    let (at, len) = match name {
        "Grid::insert_rows" => (LineAt::Row(row), fitting(cols)),
        _ => (LineAt::Col(col), fitting(rows)),
    };
    let count = start.case % 3;
    let lines = start.lines(count, len)?;
    start.ready();
    let put = insert_several(board, at, lines);
    Ok(lines_came(put, count, len))
}

// Another board of two lines, or of one, after the last line: in the same order, in the other order, or empty.
fn joined<'a>(start: &'a Start, board: &mut Board<'a>, name: &str) -> Result<Answer, AllocError> {
    let by_rows = name == "Grid::append_rows";
    let count = if start.case == 2 { 1 } else { 2 };
    let (rows, cols) = start.size;
    let size = match start.case {
        3 => (0, 0),
        _ if by_rows => (count, fitting(cols)),
        _ => (fitting(rows), count),
    };
    let order = if start.case == 0 {
        start.order
    } else {
        start.order.flipped()
    };
    let other = start.board(size, order)?;
    if by_rows {
        if !other.is_empty() && !board.fits_row(other.cols()) {
            return Ok(Answer::Wrong);
        }
        start.ready();
        return Ok(board_came(board.append_rows(other), size, order));
    }
    if !other.is_empty() && !board.fits_col(other.rows()) {
        return Ok(Answer::Wrong);
    }
    start.ready();
    Ok(board_came(board.append_cols(other), size, order))
}

fn split_off<'a>(start: &'a Start, board: &mut Board<'a>, name: &str) -> Answer {
    if name == "Grid::split_off_rows" {
        if start.case > board.rows() {
            return Answer::Skipped;
        }
        return came(board.split_off_rows(start.case));
    }
    if start.case > board.cols() {
        return Answer::Skipped;
    }
    came(board.split_off_cols(start.case))
}

fn resized<'a>(start: &'a Start, board: &mut Board<'a>) -> Answer {
    let (rows, cols) = match start.case {
        0 => (0, 0),
        1 => (1, 1),
        2 => (2, 2),
        3 => (3, 3),
        4 => (4, 1),
        5 => (1, 4),
        6 => start.size,
        7 => (start.size.0.saturating_add(1), start.size.1),
        _ => (start.size.0, start.size.1.saturating_add(1)),
    };
    came(board.resize(rows, cols))
}

fn padded_or_taken<'a>(start: &'a Start, board: &mut Board<'a>, name: &str) -> Answer {
    match name {
        "Grid::expand_rows" => came(board.expand_rows(start.case)),
        "Grid::expand_cols" => came(board.expand_cols(start.case)),
        "Grid::prepend_rows" => came(board.prepend_rows(start.case)),
        "Grid::prepend_cols" => came(board.prepend_cols(start.case)),
        "Grid::pop_row" => came(board.pop_row()),
        "Grid::pop_col" => came(board.pop_col()),
        "Grid::remove_row" => came(board.remove_row(start.case)),
        "Grid::remove_col" => came(board.remove_col(start.case)),
        _ => Answer::Wrong,
    }
}

pub fn call<'a>(start: &'a Start, board: &mut Board<'a>, name: &str) -> Result<Answer, AllocError> {
    match name {
        "Grid::push_row" | "Grid::push_col" | "Grid::insert_row" | "Grid::insert_col" => {
            return line_put(start, board, name);
        }
        "Grid::insert_rows" | "Grid::insert_cols" => return several_put(start, board, name),
        "Grid::append_rows" | "Grid::append_cols" => return joined(start, board, name),
        _ => start.ready(),
    }
    Ok(match name {
        "Grid::split_off_rows" | "Grid::split_off_cols" => split_off(start, board, name),
        "Grid::resize" => resized(start, board),
        name => padded_or_taken(start, board, name),
    })
}
