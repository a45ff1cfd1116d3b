//! Maps of a whole board, with what is around each cell or of two boards, the positions of cells, what is seen from
//! one, and a value for each line.
use crate::state::{Answer, Board, Call, Start, both_came, came};
use grid::{Grid, GridView, Neighbors, Order, WrappedNeighbors};
use grid_pairs::{fold_cols, fold_rows, zip_with};
use grid_rays::field_of_view;
use grid_sums::Sums;
use std::alloc::AllocError;
use std::cell::Cell;
use test_support::counted::Counted;

pub const CALLS: [Call; 24] = [
    Call("Grid::map_ref", 1, Some(1), Some(1)),
    Call("Grid::map_indexed", 1, Some(1), Some(1)),
    Call("Grid::try_map_indexed", 1, Some(1), Some(1)),
    Call("Grid::map_view", 2, Some(1), Some(1)),
    Call("Grid::map_neighbors4", 1, Some(1), Some(1)),
    Call("Grid::map_neighbors8", 1, Some(1), Some(1)),
    Call("Grid::map_wrapped_neighbors4", 1, Some(1), Some(1)),
    Call("Grid::map_wrapped_neighbors8", 1, Some(1), Some(1)),
    Call("Grid::map_counts4", 1, Some(4), Some(1)),
    Call("Grid::map_counts8", 1, Some(4), Some(1)),
    Call("Grid::map_sums4", 1, Some(4), Some(1)),
    Call("Grid::map_sums8", 1, Some(4), Some(1)),
    Call("Grid::map_wrapped_counts4", 1, Some(4), Some(1)),
    Call("Grid::map_wrapped_counts8", 1, Some(4), Some(1)),
    Call("Grid::map_wrapped_sums4", 1, Some(4), Some(1)),
    Call("Grid::map_wrapped_sums8", 1, Some(4), Some(1)),
    Call("Grid::positions", 4, None, Some(1)),
    Call("GridView::positions", 4, None, Some(1)),
    Call("grid_rays::field_of_view", 3, Some(1), None),
    Call("grid_pairs::zip_with", 2, Some(1), Some(1)),
    Call("grid_pairs::fold_rows", 1, Some(1), Some(1)),
    Call("grid_pairs::fold_cols", 1, Some(1), Some(1)),
    // One request on the empty board too, for the one corner that it has.
    Call("Sums::of", 1, None, None),
    Call("Sums::of_by", 1, None, Some(1)),
];

fn is_odd(cell: &Counted<'_>) -> bool {
    cell.value() % 2 == 1
}

fn low(cell: &Counted<'_>) -> u8 {
    (cell.value() % 200) as u8
}

// Whether a test is called as often as is promised: once for each cell, and where the edges are joined at most once
// more at those of the first line along the storage and of the last, but never where the call is refused.
fn keeps_tests(start: &Start, name: &str, answer: Answer, tests: u64) -> bool {
    let (lines, width) = match start.order {
        Order::RowMajor => start.size,
        Order::ColumnMajor => (start.size.1, start.size.0),
    };
    match answer {
        Answer::Refused => tests == 0,
        _ if name.contains("wrapped") => {
            tests <= lines.saturating_add(2).wrapping_mul(width) as u64
        }
        _ => tests == lines.wrapping_mul(width) as u64,
    }
}

fn counted<'a>(start: &'a Start, board: &Board<'a>, name: &str) -> Answer {
    let tests = Cell::new(0u64);
    let odd = |cell: &Counted<'_>| {
        tests.set(tests.get().wrapping_add(1));
        is_odd(cell)
    };
    let few = |cell: &Counted<'_>| {
        tests.set(tests.get().wrapping_add(1));
        low(cell)
    };
    let of_count = |_: &Counted<'_>, count: u8| start.cell(count.into());
    let of_sum = |_: &Counted<'_>, sum: u16| start.cell(sum.into());
    let answer = match name {
        "Grid::map_counts4" => came(board.map_counts4(odd, of_count)),
        "Grid::map_counts8" => came(board.map_counts8(odd, of_count)),
        "Grid::map_wrapped_counts4" => came(board.map_wrapped_counts4(odd, of_count)),
        "Grid::map_wrapped_counts8" => came(board.map_wrapped_counts8(odd, of_count)),
        "Grid::map_sums4" => came(board.map_sums4(few, of_sum)),
        "Grid::map_sums8" => came(board.map_sums8(few, of_sum)),
        "Grid::map_wrapped_sums4" => came(board.map_wrapped_sums4(few, of_sum)),
        "Grid::map_wrapped_sums8" => came(board.map_wrapped_sums8(few, of_sum)),
        _ => Answer::Wrong,
    };
    if keeps_tests(start, name, answer, tests.get()) {
        answer
    } else {
        Answer::Wrong
    }
}

// The positions of all cells, of none, of those that are odd, or of the last, by the case.
fn positions<'a>(start: &'a Start, board: &Board<'a>, name: &str) -> Answer {
    let cells = start.size.0.wrapping_mul(start.size.1) as u64;
    let test = |cell: &Counted<'_>| {
        start.called();
        start.visited(Order::RowMajor, cell.value());
        match start.case {
            0 => true,
            1 => false,
            2 => is_odd(cell),
            _ => start.calls.get() == cells,
        }
    };
    match name {
        "Grid::positions" => came(board.positions(&start.heap, test)),
        _ => came(board.view().positions(&start.heap, test)),
    }
}

// The board mapped into either order.
fn map_view<'a>(start: &'a Start, board: &Board<'a>) -> Answer {
    let order = if start.case == 0 {
        Order::RowMajor
    } else {
        Order::ColumnMajor
    };
    came(Grid::map_view(&start.heap, order, board, |_, cell: &Counted<'_>| {
        start.visited(order, cell.value());
        start.cell(cell.value())
    }))
}

// What is seen from the first cell where the odd ones are clear: all, up to two steps away, or nothing, from out of
// range.
fn seen<'a>(start: &'a Start, board: &Board<'a>) -> Answer {
    let from = if start.case == 2 { start.size } else { (0, 0) };
    let radius = if start.case == 1 { Some(2) } else { None };
    came(field_of_view(board, from, radius, |cell| {
        start.called();
        is_odd(cell)
    }))
}

// The board joined with itself, in either order.
fn joined<'a>(start: &'a Start, board: &Board<'a>) -> Answer {
    let order = if start.case == 0 {
        Order::RowMajor
    } else {
        Order::ColumnMajor
    };
    let other = board.view();
    came(zip_with(&start.heap, order, board, &other, |cell, other| {
        start.visited(order, cell.value());
        start.cell(cell.value().wrapping_add(other.value()))
    }))
}

// A sum for each line.
fn folded<'a>(start: &'a Start, board: &Board<'a>, name: &str) -> Answer {
    let add = |sum: u32, cell: &Counted<'_>| {
        start.called();
        sum.wrapping_add(cell.value())
    };
    match name {
        "grid_pairs::fold_rows" => came(fold_rows(&start.heap, board, 0, add)),
        _ => came(fold_cols(&start.heap, board, 0, add)),
    }
}

// Cells that are copied.
const SMALL: [i32; 6] = [1, -2, 3, -4, 5, -6];

// The sums of numbers that the closure returns for the cells of the board, or of cells that are copied.
fn summed<'a>(start: &'a Start, board: &Board<'a>, name: &str) -> Answer {
    match name {
        "Sums::of" => came(Sums::of(&start.heap, &GridView::over(&SMALL, start.order, 2, 3))),
        _ => came(Sums::of_by(&start.heap, board, |cell| {
            start.called();
            i64::from(cell.value())
        })),
    }
}

fn round<'a>(start: &'a Start, board: &Board<'a>, name: &str) -> Answer {
    let open = |_: (usize, usize), cell: &Counted<'_>, _: Neighbors<'_, Counted<'_>>| {
        start.visit(cell.value())
    };
    let joined = |_: (usize, usize), cell: &Counted<'_>, _: WrappedNeighbors<'_, Counted<'_>>| {
        start.visit(cell.value())
    };
    match name {
        "Grid::map_neighbors4" => came(board.map_neighbors4(open)),
        "Grid::map_neighbors8" => came(board.map_neighbors8(open)),
        "Grid::map_wrapped_neighbors4" => came(board.map_wrapped_neighbors4(joined)),
        "Grid::map_wrapped_neighbors8" => came(board.map_wrapped_neighbors8(joined)),
        name => counted(start, board, name),
    }
}

pub fn call<'a>(start: &'a Start, board: &mut Board<'a>, name: &str) -> Result<Answer, AllocError> {
    start.ready();
    Ok(match name {
        "Grid::map_ref" => came(board.map_ref(|cell| start.visit(cell.value()))),
        "Grid::map_indexed" => came(board.map_indexed(|_, cell| start.visit(cell.value()))),
        "Grid::try_map_indexed" => {
            both_came(board.try_map_indexed(|_, cell| {
                start.visited(start.order, cell.value());
                start.try_cell(cell.value())
            }))
        }
        "Grid::map_view" => map_view(start, board),
        "Grid::positions" | "GridView::positions" => positions(start, board, name),
        "grid_rays::field_of_view" => seen(start, board),
        "grid_pairs::zip_with" => joined(start, board),
        "grid_pairs::fold_rows" | "grid_pairs::fold_cols" => folded(start, board, name),
        "Sums::of" | "Sums::of_by" => summed(start, board, name),
        name => round(start, board, name),
    })
}
