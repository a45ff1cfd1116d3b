//! Calls that make a board of a size and an order: of defaults, clones, what a closure makes, a vector, rows or a view.
use crate::state::{Answer, Board, Call, Line, Start, both_came, came, came_of, is_board, number};
use grid::{Grid, GridError, GridView, Order, ShapeError};
use grid_rows::RowsBuilder;
use std::alloc::AllocError;
use std::convert::TryFrom;
use test_support::counted::Counted;
use test_support::fixtures::{Heap, SYMMETRIES};

pub const CALLS: [Call; 22] = [
    Call("Grid::new", 1, Some(1), None),
    Call("Grid::new_with_order", 1, Some(1), None),
    Call("Grid::init", 1, Some(1), None),
    Call("Grid::init_with_order", 1, Some(1), None),
    Call("Grid::from_fn", 1, Some(1), Some(1)),
    Call("Grid::from_fn_with_order", 1, Some(1), Some(1)),
    Call("Grid::try_from_fn", 1, Some(1), Some(1)),
    Call("Grid::try_from_fn_with_order", 1, Some(1), Some(1)),
    Call("Grid::with_capacity", 1, Some(1), None),
    Call("Grid::with_capacity_and_order", 1, Some(1), None),
    Call("Grid::from_arrays", 2, None, None),
    Call("Grid::from_view", 16, Some(1), None),
    Call("Grid::try_from of a vector lent", 2, Some(1), None),
    Call("Grid::try_from of rows", 1, Some(1), None),
    Call("Grid::try_from of rows of no cells", 2, Some(0), None),
    Call("Grid::try_from of a list lent", 1, Some(1), None),
    Call("Grid::try_from of rows lent", 1, Some(1), None),
    Call("Grid::new of too many cells", 5, None, None),
    Call("Grid::try_from of what is no table", 3, Some(0), None),
    Call("Grid::new of no cells", 6, Some(0), None),
    Call("RowsBuilder::push", 1, None, None),
    Call("RowsBuilder::end_row", 1, Some(0), None),
];

// The order in which the call of this name makes its cells.
fn order_of(start: &Start, name: &str) -> Order {
    match name {
        "Grid::from_fn" | "Grid::try_from_fn" => Order::RowMajor,
        _ => start.order,
    }
}

// A board of this size of what a closure makes, by the call of this name.
pub fn of_cells<'a>(
    start: &'a Start,
    name: &str,
    (rows, cols): (usize, usize),
) -> Result<Board<'a>, GridError> {
    let order = order_of(start, name);
    let cell = |at: (usize, usize)| {
        start.visited(order, number(at));
        start.cell(number(at))
    };
    if name == "Grid::from_fn" {
        Board::from_fn(&start.heap, rows, cols, cell)
    } else {
        Board::from_fn_with_order(&start.heap, rows, cols, order, cell)
    }
}

// The same of a closure that may be refused.
fn try_from_fn<'a>(start: &'a Start, name: &str) -> Answer {
    let (rows, cols) = start.size;
    let order = order_of(start, name);
    let cell = |at: (usize, usize)| {
        start.visited(order, number(at));
        start.try_cell(number(at))
    };
    if name == "Grid::try_from_fn" {
        both_came(Board::try_from_fn(&start.heap, rows, cols, cell))
    } else {
        both_came(Board::try_from_fn_with_order(&start.heap, rows, cols, order, cell))
    }
}

// Whether a board without cells has room for those of the size.
fn has_room<'a>(start: &'a Start, made: Result<Board<'a>, GridError>) -> Answer {
    let cells = start.size.0.wrapping_mul(start.size.1);
    match made {
        Ok(board) if board.flatten().capacity() < cells => Answer::Wrong,
        made => came(made),
    }
}

fn sized<'a>(start: &'a Start, name: &str) -> Answer {
    let (heap, order) = (&start.heap, start.order);
    let (rows, cols) = start.size;
    match name {
        "Grid::new" => came(Board::new(heap, rows, cols)),
        "Grid::new_with_order" => came(Board::new_with_order(heap, rows, cols, order)),
        "Grid::init" => came(Board::init(heap, rows, cols, start.given(1))),
        "Grid::init_with_order" => {
            came(Board::init_with_order(heap, rows, cols, order, start.given(1)))
        }
        "Grid::with_capacity" => has_room(start, Board::with_capacity(heap, rows, cols)),
        "Grid::with_capacity_and_order" => {
            has_room(
                start,
                Board::with_capacity_and_order(heap, rows, cols, order),
            )
        }
        "Grid::from_fn" | "Grid::from_fn_with_order" => came(of_cells(start, name, start.size)),
        name => try_from_fn(start, name),
    }
}

// Two rows of three slots, or of one.
fn from_arrays(start: &Start) -> Answer {
    let (heap, order) = (&start.heap, start.order);
    if start.case == 1 {
        let mut slots = [[Some(start.given(1))], [Some(start.given(2))]];
        return came(Grid::from_arrays(heap, order, &mut slots));
    }
    let mut slots = [
        [
            Some(start.given(1)),
            Some(start.given(2)),
            Some(start.given(3)),
        ],
        [
            Some(start.given(4)),
            Some(start.given(5)),
            Some(start.given(6)),
        ],
    ];
    came(Grid::from_arrays(heap, order, &mut slots))
}

// Of a view of the board through each symmetry, or, in the other order than that of the board, of its last column.
fn from_view(start: &Start, view: &GridView<'_, Counted<'_>>) -> Answer {
    let Some(symmetry) = SYMMETRIES.get(start.case % 8) else {
        return Answer::Skipped;
    };
    if start.case < 8 {
        return came(Grid::from_view(&start.heap, start.order, &view.turned(*symmetry)));
    }
    let (rows, cols) = view.size();
    if cols == 0 {
        return Answer::Skipped;
    }
    let last = view.part((0, cols - 1), (rows, 1));
    came(Grid::from_view(&start.heap, start.order.flipped(), &last.turned(*symmetry)))
}

// Of the vector of a board, lent.
fn of_vector(start: &Start, board: &Board<'_>) -> Answer {
    let cols = board.cols();
    if start.case == 0 {
        came(Board::try_from((board.flatten(), cols)))
    } else {
        came(Board::try_from((board.flatten(), &cols)))
    }
}

// Of the rows of a board of this size.
fn of_rows<'a>(start: &'a Start, name: &str) -> Result<Answer, AllocError> {
    let rows = start.lines(start.size.0, start.size.1)?;
    if name == "Grid::try_from of rows" {
        start.ready();
        return Ok(came(Board::try_from(rows)));
    }
    of_list(start, name, &rows)
}

fn of_list<'a>(
    start: &'a Start,
    name: &str,
    rows: &Vec<Line<'a>, &'a Heap>,
) -> Result<Answer, AllocError> {
    if name == "Grid::try_from of a list lent" {
        start.ready();
        return Ok(came(Board::try_from(rows)));
    }
    let lent: Vec<&Line<'a>, &'a Heap> = rows.iter().collect(&start.heap)?;
    start.ready();
    Ok(came(Board::try_from(&lent)))
}

// Of as many rows as the board has, without cells, moved or lent.
fn of_empty_rows(start: &Start) -> Result<Answer, AllocError> {
    let rows = start.lines(start.size.0, 0)?;
    start.ready();
    let made = if start.case == 0 {
        Board::try_from(rows)
    } else {
        Board::try_from(&rows)
    };
    Ok(match made {
        Ok(board) if !board.is_empty() => Answer::Wrong,
        made => came(made),
    })
}

// Vectors that are no table, which are dropped: a line to be cut into rows of none, and rows of two lengths, also lent.
fn no_table(start: &Start) -> Result<Answer, AllocError> {
    start.prepare();
    let line = start.line(1)?;
    let mut rows = start.lines(2, 2)?;
    rows.push(start.line(1)?)?;
    start.ready();
    let made = match start.case {
        0 => Board::try_from((line, 0usize)),
        1 => Board::try_from(rows),
        _ => Board::try_from(&rows),
    };
    Ok(match made {
        Err(ShapeError::Shape { .. } | ShapeError::Ragged { .. }) => Answer::Done,
        _ => Answer::Wrong,
    })
}

// Sizes whose number of cells exceeds `usize::MAX`.
fn too_many(start: &Start) -> Answer {
    let (heap, order) = (&start.heap, start.order);
    let made = match start.case {
        0 => Board::new(heap, usize::MAX, 2),
        1 => Board::init_with_order(heap, 2, usize::MAX, order, start.given(1)),
        2 => of_cells(start, "Grid::from_fn", (usize::MAX, usize::MAX)),
        3 => Board::with_capacity(heap, usize::MAX, 3),
        _ => Board::init(heap, usize::MAX, 2, start.given(1)),
    };
    match made {
        Err(GridError::TooLarge) => Answer::Done,
        _ => Answer::Wrong,
    }
}

// Sizes with no rows alone, and with no columns; and the vector of one row, moved.
fn none_or_moved<'a>(start: &'a Start) -> Result<Answer, AllocError> {
    let (heap, order) = (&start.heap, start.order);
    let line = start.line(start.size.1)?;
    start.ready();
    let made = match start.case {
        0 => Board::new_with_order(heap, 0, 3, order),
        1 => Board::init_with_order(heap, 3, 0, order, start.given(1)),
        2 => Board::init(heap, 0, 3, start.given(1)),
        3 => of_cells(start, "Grid::from_fn", (3, 0)),
        4 => Board::with_capacity(heap, 3, 0),
        _ => return Ok(came(Board::try_from((line, start.size.1)))),
    };
    Ok(match made {
        Ok(board) if !board.is_empty() => Answer::Wrong,
        made => came(made),
    })
}

// Adds a row of the board to a builder, cell by cell.
fn push_row<'a>(
    start: &'a Start,
    rows: &mut RowsBuilder<Counted<'a>, &'a Heap>,
    row: usize,
) -> Result<(), ShapeError> {
    for col in 0..start.size.1 {
        rows.push(start.cell(number((row, col))))?;
    }
    rows.end_row()
}

// The board, row by row.
fn row_by_row(start: &Start) -> Answer {
    let mut rows = RowsBuilder::new(&start.heap);
    for row in 0..start.size.0 {
        if let Err(fault) = push_row(start, &mut rows, row) {
            return came_of(fault);
        }
    }
    if is_board(&rows.into_grid(), start.size, Order::RowMajor) {
        Answer::Done
    } else {
        Answer::Wrong
    }
}

// A row without cells below the first row of the board.
fn ragged_row(start: &Start) -> Answer {
    start.prepare();
    let mut rows = RowsBuilder::new(&start.heap);
    if let Err(fault) = push_row(start, &mut rows, 0) {
        return came_of(fault);
    }
    start.ready();
    let cols = start.size.1;
    match rows.end_row() {
        Err(
            ShapeError::Ragged {
                row: 1,
                len: 0,
                cols: found,
            },
        ) if found == cols && cols > 0 => Answer::Done,
        Ok(()) if cols == 0 => Answer::Done,
        _ => Answer::Wrong,
    }
}

pub fn call<'a>(start: &'a Start, board: &mut Board<'a>, name: &str) -> Result<Answer, AllocError> {
    start.ready();
    match name {
        "Grid::from_arrays" => Ok(from_arrays(start)),
        "RowsBuilder::push" => Ok(row_by_row(start)),
        "RowsBuilder::end_row" => Ok(ragged_row(start)),
        "Grid::from_view" => Ok(from_view(start, &board.view())),
        "Grid::try_from of a vector lent" => Ok(of_vector(start, board)),
        "Grid::new of too many cells" => Ok(too_many(start)),
        "Grid::try_from of what is no table" => no_table(start),
        "Grid::new of no cells" => {
            start.prepare();
            none_or_moved(start)
        }
        "Grid::try_from of rows of no cells" => {
            start.prepare();
            of_empty_rows(start)
        }
        "Grid::try_from of rows"
        | "Grid::try_from of a list lent"
        | "Grid::try_from of rows lent" => {
            start.prepare();
            of_rows(start, name)
        }
        name => Ok(sized(start, name)),
    }
}
