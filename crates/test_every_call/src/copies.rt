//! Calls that copy cells of a board, and calls that write cells over.
use crate::state::{Answer, Board, Call, Start, came};
use grid::{Grid, GridError, Order};
use std::alloc::AllocError;
use std::cell::Cell;
use test_support::counted::Counted;
use test_support::fixtures::SYMMETRIES;

pub const CALLS: [Call; 13] = [
    Call("Grid::clone", 1, Some(1), None),
    Call("Clone::clone of a grid", 1, Some(1), None),
    Call("Grid::sub_grid", 5, None, None),
    Call("GridView::to_vec", 8, Some(1), None),
    Call("Grid::fill", 1, Some(0), None),
    Call("Grid::fill_part", 4, None, None),
    Call("Grid::paste", 5, None, None),
    Call("Grid::paste_clipped", 7, None, None),
    Call("Grid::fill_with", 1, Some(0), Some(1)),
    Call("Grid::update", 1, Some(0), Some(1)),
    Call("Grid::update_part", 1, Some(0), Some(1)),
    Call("Grid::set", 1, Some(0), Some(1)),
    Call("Grid::map", 3, Some(1), Some(1)),
];

// A part of the board: nothing, its first row, its first column, its last cell, all; where there is one.
fn part(start: &Start) -> Option<((usize, usize), (usize, usize))> {
    let (rows, cols) = start.size;
    match start.case {
        0 => Some(((rows, cols), (0, 0))),
        1 if rows > 0 => Some(((0, 0), (1, cols))),
        2 if rows > 0 => Some(((0, 0), (rows, 1))),
        3 if rows > 0 => Some(((rows - 1, cols.saturating_sub(1)), (1, 1))),
        4 => Some(((0, 0), (rows, cols))),
        _ => None,
    }
}

fn sub_grid(start: &Start, board: &Board<'_>) -> Answer {
    let Some((at, size)) = part(start) else {
        return Answer::Skipped;
    };
    if size.0 > board.rows() || at.0 > board.rows() - size.0 {
        return Answer::Wrong;
    }
    if size.1 > board.cols() || at.1 > board.cols() - size.1 {
        return Answer::Wrong;
    }
    let answer = came(board.sub_grid(at, size));
    let cells = size.0.wrapping_mul(size.1).min(1) as u64;
    if answer == Answer::Done && start.heap.granted() != cells {
        return Answer::Wrong;
    }
    answer
}

fn fill_part<'a>(start: &'a Start, board: &mut Board<'a>) -> Answer {
    let Some((at, size)) = part(start) else {
        return Answer::Skipped;
    };
    let (rows, cols) = board.size();
    if size.0 > rows || at.0 > rows - size.0 || size.1 > cols || at.1 > cols - size.1 {
        return Answer::Wrong;
    }
    came(board.fill_part(at, size, start.given(9)))
}

// Pastes nothing, a cell, the board, its first column or its first row at the first cell.
fn paste<'a>(start: &'a Start, board: &mut Board<'a>) -> Result<Answer, AllocError> {
    let (rows, cols) = board.size();
    let (high, wide) = match start.case {
        0 => (0, 0),
        1 => (rows.min(1), cols.min(1)),
        3 => (rows, cols.min(1)),
        4 => (rows.min(1), cols),
        _ => (rows, cols),
    };
    let pasted = start.board((high, wide), Order::RowMajor)?;
    start.ready();
    let view = pasted.view();
    if view.rows() > board.rows() || view.cols() > board.cols() {
        return Ok(Answer::Wrong);
    }
    Ok(came(board.paste((0, 0), &view)))
}

// Pastes two rows of two cells within, over each corner, and outside.
fn paste_clipped<'a>(start: &'a Start, board: &mut Board<'a>) -> Result<Answer, AllocError> {
    let at = match start.case {
        0 => (0, 0),
        1 => (-1, -1),
        2 => (1, 1),
        3 => (-1, 1),
        4 => (1, -1),
        5 => (isize::MIN, isize::MIN),
        _ => (-5, 7),
    };
    let pasted = start.board((2, 2), Order::ColumnMajor)?;
    start.ready();
    Ok(came(board.paste_clipped(at, &pasted.view())))
}

// Updates all cells, or all as a part, which go row by row in either order.
pub fn updated<'a>(start: &'a Start, board: &mut Board<'a>, name: &str) -> Answer {
    let next = Cell::new((0usize, 0usize));
    let in_turn = Cell::new(true);
    let (rows, cols) = board.size();
    let update = |at: (usize, usize), cell: &Counted<'_>| {
        in_turn.set(in_turn.get() && at == next.get());
        next.set(if at.1.saturating_add(1) < cols {
            (at.0, at.1.saturating_add(1))
        } else {
            (at.0.saturating_add(1), 0)
        });
        start.cell(cell.value().wrapping_add(1))
    };
    if name == "Grid::update" {
        board.update(update);
        return Answer::Done;
    }
    board.update_part((0, 0), (rows, cols), update);
    if in_turn.get() {
        Answer::Done
    } else {
        Answer::Wrong
    }
}

fn set<'a>(start: &'a Start, board: &mut Board<'a>) -> Answer {
    for row in 0..start.size.0 {
        for col in 0..start.size.1 {
            if board.set(row, col, start.cell(3)).is_none() {
                return Answer::Wrong;
            }
        }
    }
    if board.set(start.size.0, 0, start.given(3)).is_some() {
        return Answer::Wrong;
    }
    Answer::Done
}

// Maps the board by value. Where the call is refused, the board comes back, and is dropped where it becomes the error.
fn map<'a>(start: &'a Start, board: &mut Board<'a>) -> Answer {
    let moved = std::mem::replace(board, Grid::empty(&start.heap));
    match moved.map(|cell| start.cell(cell.value().wrapping_add(1))) {
        Ok(mapped) => {
            *board = mapped;
            Answer::Done
        }
        Err(back) if start.case == 0 => {
            *board = back;
            Answer::Refused
        }
        Err(back) if start.case == 1 => {
            let _fault = GridError::from(back);
            Answer::Stopped
        }
        Err(back) => {
            let _fault = AllocError::from(back);
            Answer::Stopped
        }
    }
}

// Clones of the board through each symmetry.
fn to_vec<'a>(start: &'a Start, board: &Board<'a>) -> Answer {
    let Some(symmetry) = SYMMETRIES.get(start.case) else {
        return Answer::Skipped;
    };
    came(
        board
            .view()
            .turned(*symmetry)
            .to_vec(&start.heap, start.order),
    )
}

fn copied<'a>(start: &'a Start, board: &mut Board<'a>, name: &str) -> Answer {
    match name {
        "Grid::clone" => came(board.clone()),
        "Clone::clone of a grid" => came(Clone::clone(board)),
        "Grid::sub_grid" => sub_grid(start, board),
        "GridView::to_vec" => to_vec(start, board),
        "Grid::fill" => came(board.fill(start.given(9))),
        "Grid::fill_part" => fill_part(start, board),
        "Grid::fill_with" => {
            board.fill_with(|| start.cell(8));
            Answer::Done
        }
        "Grid::update" | "Grid::update_part" => updated(start, board, name),
        "Grid::set" => set(start, board),
        "Grid::map" => map(start, board),
        _ => Answer::Wrong,
    }
}

pub fn call<'a>(start: &'a Start, board: &mut Board<'a>, name: &str) -> Result<Answer, AllocError> {
    match name {
        "Grid::paste" => paste(start, board),
        "Grid::paste_clipped" => paste_clipped(start, board),
        name => {
            start.ready();
            Ok(copied(start, board, name))
        }
    }
}
