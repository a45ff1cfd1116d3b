//! Constructors.
use crate::ask::Ask;
use crate::case::CaseError;
use crate::shown::{shown, shown_board, shown_made, text};
use grid::{Grid, GridError, Order, can_cut};
use std::alloc::Global;
use std::convert::identity;
use test_support::fixtures::cut;

// Fails at (0, 2) and at (1, 1).
fn seven(at: (usize, usize)) -> Result<u32, (usize, usize)> {
    if at == (0, 2) || at == (1, 1) {
        Err(at)
    } else {
        Ok(7)
    }
}

fn try_from_fn(
    alloc: Global,
    (rows, cols): (usize, usize),
    order: Order,
) -> Result<String, CaseError> {
    let made = Grid::try_from_fn_with_order(alloc, rows, cols, order, seven);
    match made {
        Ok(made) => shown_made(alloc, made),
        Err(error) => shown(alloc, error),
    }
}

fn from_vec(alloc: Global, cells: Vec<i64>, cols: usize) -> Result<String, CaseError> {
    if can_cut(cells.len(), cols) {
        shown_board(alloc, &Grid::from_vec(cells, cols))
    } else {
        text(alloc, "no rows of this length")
    }
}

// Those in row-major order.
fn by_rows(alloc: Global, ask: Ask<'_>) -> Result<String, CaseError> {
    let (rows, cols) = ask.position(0);
    match ask.call {
        "new" => shown_made(alloc, Grid::<i64>::new(alloc, rows, cols)),
        "init" => shown_made(alloc, Grid::init(alloc, rows, cols, 7i64)),
        "from_fn" => shown_made(alloc, Grid::from_fn(alloc, rows, cols, identity)),
        "with_capacity" => shown_made(alloc, Grid::<i64>::with_capacity(alloc, rows, cols)),
        "from_vec" => from_vec(alloc, ask.line(alloc)?, rows),
        "empty" => shown_made::<_, GridError>(alloc, Ok(Grid::<i64>::empty(alloc))),
        _ => Err(CaseError::UnknownCall),
    }
}

/// Returns what a constructor made.
pub fn actual(alloc: Global, ask: Ask<'_>) -> Result<String, CaseError> {
    let (rows, cols) = ask.position(0);
    let order = ask.order(2);
    match ask.call {
        "new_with_order" => {
            shown_made(alloc, Grid::<i64>::new_with_order(alloc, rows, cols, order))
        }
        "init_with_order" => {
            shown_made(alloc, Grid::init_with_order(alloc, rows, cols, order, 7i64))
        }
        "from_fn_with_order" => shown_made(
            alloc,
            Grid::from_fn_with_order(alloc, rows, cols, order, identity),
        ),
        "try_from_fn_with_order" => try_from_fn(alloc, (rows, cols), order),
        "with_capacity_and_order" => shown_made(
            alloc,
            Grid::<i64>::with_capacity_and_order(alloc, rows, cols, order),
        ),
        "from_vec_with_order" => shown_made(alloc, cut(ask.line(alloc)?, rows, ask.order(1))),
        _ => by_rows(alloc, ask),
    }
}
