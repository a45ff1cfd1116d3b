//! Comparisons that end a test.
use grid::{Grid, Order, ShapeError};
use std::alloc::{Allocator, Global};
use std::fmt::Debug;
use std::process::Abort;
use std::test::Fail;
use test_support::fixtures::{grid_of, is_stored, shows, table_of};

/// Rows that are written out.
pub type Rows = &'static [&'static [u32]];

// The grid of these rows, stored in an order.
pub fn grid_with(alloc: Global, rows: &[&[u32]], order: Order) -> Result<Grid<u32>, ShapeError> {
    let table = table_of(alloc, rows)?;
    grid_of(alloc, &table, order)
}

// A grid shows these rows, by its size and each cell, and has stored them in this order.
pub fn assert_rows<A: Allocator>(
    rt: &impl Abort,
    alloc: Global,
    grid: &Grid<u32, A>,
    rows: &[&[u32]],
    order: Order,
) -> Result<(), Fail> {
    let table = table_of(alloc, rows)?;
    let met = shows(grid, &table, order);
    assert!(rt; met, "{:?} is not {rows:?} in {order:?}", grid.flatten());
    Ok(())
}

// A grid has this size, and has stored these cells in this order.
pub fn assert_stored<T: Debug + PartialEq, A: Allocator>(
    rt: &impl Abort,
    grid: &Grid<T, A>,
    size: (usize, usize),
    order: Order,
    cells: &[T],
) {
    let met = is_stored(grid, size, order, cells);
    assert!(rt;
        met,
        "{:?} is not {cells:?} of {size:?} in {order:?}",
        grid.flatten()
    );
}

// A call made a grid, which has this size and has stored these cells in this order.
pub fn assert_made<T: Debug + PartialEq + Drop, E: Debug + Drop>(
    rt: &impl Abort,
    made: Result<Grid<T>, E>,
    size: (usize, usize),
    order: Order,
    cells: &[T],
) {
    match made {
        Ok(grid) => assert_stored(rt, &grid, size, order, cells),
        Err(fault) => panic!(rt; "{fault:?} in place of {cells:?}"),
    }
}

// A call made no grid, for this reason.
pub fn assert_refused<T: Drop, E: Debug + PartialEq + Drop>(
    rt: &impl Abort,
    made: Result<Grid<T>, E>,
    want: E,
) {
    match made {
        Ok(grid) => panic!(rt; "a grid of {:?} in place of {want:?}", grid.size()),
        Err(met) => assert_eq!(rt; met, want),
    }
}
