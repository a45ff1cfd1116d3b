//! Sorts of lines, and the rows of a board as vectors.
use crate::state::{Answer, Board, Call, Start, came};
use grid::{Grid, GridLineIter};
use grid_lines::{
    into_rows, sort_cols_by, sort_cols_by_key, sort_rows_by, sort_rows_by_key, to_rows,
};
use std::alloc::AllocError;
use std::cmp::Ordering;
use test_support::counted::Counted;
use test_support::fixtures::Heap;

pub const CALLS: [Call; 6] = [
    Call("grid_lines::sort_rows_by", 3, None, None),
    Call("grid_lines::sort_cols_by", 3, None, None),
    Call("grid_lines::sort_rows_by_key", 2, None, None),
    Call("grid_lines::sort_cols_by_key", 2, None, None),
    Call("grid_lines::into_rows", 1, None, None),
    Call("grid_lines::to_rows", 1, None, None),
];

// The number of the first cell of a line.
fn first(mut line: GridLineIter<'_, Counted<'_>>) -> Option<u32> {
    Some(line.next()?.value())
}

// How often a sort of these many lines may compare two of them: few as often as there are lines, times the logarithm;
// more at most each two.
fn most_compared(lines: usize) -> u64 {
    match lines {
        0 | 1 => 0,
        2 => 2,
        3 => 4,
        5 => 10,
        _ => 28,
    }
}

// Compares as it is sorted, backwards, or as if all were equal.
fn compared(
    start: &Start,
    a: GridLineIter<'_, Counted<'_>>,
    b: GridLineIter<'_, Counted<'_>>,
) -> Ordering {
    start.called();
    match start.case {
        0 => first(a).cmp(&first(b)),
        1 => first(b).cmp(&first(a)),
        _ => Ordering::Equal,
    }
}

fn sort_by<'a>(start: &'a Start, board: &mut Board<'a>, by_rows: bool) -> Answer {
    let compare = |a: GridLineIter<'_, Counted<'_>>, b: GridLineIter<'_, Counted<'_>>| {
        compared(start, a, b)
    };
    let (sorted, lines) = if by_rows {
        (sort_rows_by(board, compare), start.size.0)
    } else {
        (sort_cols_by(board, compare), start.size.1)
    };
    if start.calls.get() > most_compared(lines) {
        return Answer::Wrong;
    }
    came(sorted)
}

// A key on the heap: a number that goes down, or in case 1 nothing.
fn key<'a>(start: &'a Start, line: GridLineIter<'_, Counted<'_>>) -> Vec<u32, &'a Heap> {
    start.called();
    let mut key = Vec::new(&start.heap);
    if start.case == 0 {
        let _refused = key.push(100u32.saturating_sub(first(line).unwrap_or(0)));
    }
    key
}

// Sorts by a key, which is asked once of each line.
fn sort_by_key<'a>(start: &'a Start, board: &mut Board<'a>, by_rows: bool) -> Answer {
    let ask = |line: GridLineIter<'_, Counted<'_>>| key(start, line);
    let (sorted, lines) = if by_rows {
        (sort_rows_by_key(board, ask), start.size.0)
    } else {
        (sort_cols_by_key(board, ask), start.size.1)
    };
    let answer = came(sorted);
    if answer == Answer::Done && lines != 1 && start.calls.get() != lines as u64 {
        return Answer::Wrong;
    }
    answer
}

// The rows by value. Where the call is refused, the board comes back.
fn moved(board: &mut Board<'_>) -> Answer {
    let none = Grid::empty(*board.allocator());
    match into_rows(std::mem::replace(board, none)) {
        Ok(_) => Answer::Done,
        Err(back) => {
            *board = back;
            Answer::Refused
        }
    }
}

pub fn call<'a>(start: &'a Start, board: &mut Board<'a>, name: &str) -> Result<Answer, AllocError> {
    start.ready();
    Ok(match name {
        "grid_lines::sort_rows_by" => sort_by(start, board, true),
        "grid_lines::sort_cols_by" => sort_by(start, board, false),
        "grid_lines::sort_rows_by_key" => sort_by_key(start, board, true),
        "grid_lines::sort_cols_by_key" => sort_by_key(start, board, false),
        "grid_lines::into_rows" => moved(board),
        "grid_lines::to_rows" => came(to_rows(&start.heap, board)),
        _ => Answer::Wrong,
    })
}
