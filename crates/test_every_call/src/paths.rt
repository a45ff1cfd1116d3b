//! Paths and regions, on boards of numbers that are copied.
use crate::state::{Answer, Call, Numbers, Start, are_numbers, came, number};
use grid_paths::{
    Connectivity, Enter, cheapest, cheapest_path, distances, distances_from, fill_region, flood,
    regions, shortest_path,
};
use std::alloc::AllocError;

pub const CALLS: [Call; 8] = [
    Call("grid_paths::distances", 3, None, Some(1)),
    Call("grid_paths::distances_from", 4, None, Some(1)),
    Call("grid_paths::shortest_path", 5, None, None),
    Call("grid_paths::cheapest", 3, None, Some(1)),
    Call("grid_paths::cheapest_path", 5, None, None),
    Call("grid_paths::regions", 3, None, None),
    Call("grid_paths::flood", 5, None, Some(1)),
    Call("grid_paths::fill_region", 6, None, None),
];

// The steps of a case: to the sides, or to the corners too.
fn steps(start: &Start) -> Connectivity {
    if start.case % 2 == 0 {
        Connectivity::Four
    } else {
        Connectivity::Eight
    }
}

// No position; the first cell; the first one twice and the last cell, and one that is out of range.
const STARTS: [&[(usize, usize)]; 3] = [&[], &[(0, 0)], &[(0, 0), (2, 2), (0, 0), (9, 9)]];

// The positions of a case; from case 3 on the last ones.
fn starts(start: &Start) -> &'static [(usize, usize)] {
    STARTS.get(start.case.min(2)).copied().unwrap_or(&[])
}

// The last cell, or in case 4 a position out of range.
fn end(start: &Start) -> (usize, usize) {
    let (rows, cols) = start.size;
    if start.case == 4 {
        return (rows, cols);
    }
    (rows.saturating_sub(1), cols.saturating_sub(1))
}

// Whether a cell is free. For a path all are; none is; or the first and the last alone, between which no path leads on
// three columns. For other searches all are, or in the last case none.
fn is_free(start: &Start, name: &str, cell: u32) -> bool {
    start.called();
    match name {
        "grid_paths::distances" | "grid_paths::cheapest" => start.case < 2,
        "grid_paths::distances_from" => start.case < 3,
        _ if start.case == 3 => cell == number((0, 0)) || cell == number(end(start)),
        _ => start.case != 2,
    }
}

// What it costs to enter a cell: its number, or in an odd case so much that two exceed `u32::MAX`.
fn cost_of(start: &Start, cell: u32) -> u32 {
    if start.case % 2 == 0 {
        cell
    } else {
        u32::MAX.wrapping_sub(cell)
    }
}

// From the first cell, or from those of the case, to all cells or to the last one.
fn searched(start: &Start, board: &Numbers<'_>, name: &str) -> Answer {
    let free = |cell: &u32| is_free(start, name, *cell);
    let cost = |cell: &u32| {
        if is_free(start, name, *cell) {
            Some(cost_of(start, *cell))
        } else {
            None
        }
    };
    let (from, to) = ((0, 0), end(start));
    let answer = match name {
        "grid_paths::distances" => came(distances(board, from, steps(start), free)),
        "grid_paths::distances_from" => {
            came(distances_from(board, starts(start), Connectivity::Eight, free))
        }
        "grid_paths::cheapest" => came(cheapest(board, from, steps(start), cost)),
        "grid_paths::shortest_path" => came(shortest_path(board, from, to, steps(start), free)),
        _ => came(cheapest_path(board, from, to, steps(start), cost)),
    };
    // (it may call its closure once for each cell)
    if start.calls.get() > start.size.0.wrapping_mul(start.size.1) as u64 {
        return Answer::Wrong;
    }
    answer
}

// It goes on, stops or stays out everywhere.
fn flooded(start: &Start, board: &Numbers<'_>) -> Answer {
    came(flood(board, starts(start), steps(start), |_| {
        start.called();
        match start.case {
            3 => Enter::Stop,
            4 => Enter::No,
            _ => Enter::On,
        }
    }))
}

// The number of each cell of a board that is one region.
fn one() -> u32 {
    1
}

// Fills the region of the first cell with another number, or with its own. In case 3 the region is the board; in case 4
// there is none; in case 5 it is the board but for the last cell.
fn filled(start: &Start, board: &mut Numbers<'_>) -> Answer {
    let is_level = start.case == 3 || start.case == 5;
    if is_level {
        board.fill_with(one);
    }
    if start.case == 5 {
        let (row, col) = end(start);
        board.set(row, col, 2);
    }
    let value = if start.case == 2 { 1 } else { 99 };
    let at = if start.case == 4 { start.size } else { (0, 0) };
    let answer = came(fill_region(board, at, steps(start), value));
    if answer != Answer::Refused {
        return answer;
    }
    if !is_level && !are_numbers(board, start.size, start.order) {
        return Answer::Wrong;
    }
    for cell in board.iter() {
        if is_level && *cell > 2 {
            return Answer::Wrong;
        }
    }
    answer
}

pub fn call(start: &Start, name: &str) -> Result<Answer, AllocError> {
    let mut board = start.numbers()?;
    start.ready();
    Ok(match name {
        "grid_paths::regions" => {
            // (each cell is a region, or in case 2 the board is one)
            if start.case == 2 {
                board.fill_with(one);
            }
            came(regions(&board, steps(start)))
        }
        "grid_paths::flood" => flooded(start, &board),
        "grid_paths::fill_region" => filled(start, &mut board),
        name => searched(start, &board, name),
    })
}
