//! Iterators for writing, on all small boards and some larger ones in both orders: what they write, also where they are
//! dropped early, and that nothing else changes. No clause says
//! what a board holds after a loop that wrote through one.
use grid::{Grid, Order};
use std::alloc::Global;
use std::process::Abort;
use std::test::Fail;
use test_support::fixtures::{ORDERS, SIZES};

// Boards whose lines across the storage have several cells of other lines between theirs, and long ones.
const LARGER: [(usize, usize); 3] = [(5, 8), (1, 40), (40, 1)];

// How many cells of a line are written: some, or all.
const COUNTS: [usize; 5] = [0, 1, 2, 3, 50];

// The number at a position, another at each.
fn number((row, col): (usize, usize)) -> u32 {
    (row % 50 * 50 + col % 50) as u32
}

// The number at a position once the first `rows` rows and the first `cols` columns are written, `count` cells of each.
fn written(at: (usize, usize), (rows, cols): (usize, usize), count: usize) -> u32 {
    let by_row = if at.0 < rows && at.1 < count {
        10_000
    } else {
        0
    };
    let by_col = if at.1 < cols && at.0 < count {
        1_000_000
    } else {
        0
    };
    number(at).wrapping_add(by_row).wrapping_add(by_col)
}

// Whether a board of this size has those numbers.
fn holds(grid: &Grid<u32>, size: (usize, usize), lines: (usize, usize), count: usize) -> bool {
    for row in 0..size.0 {
        for col in 0..size.1 {
            if grid.get(row, col) != Some(&written((row, col), lines, count)) {
                return false;
            }
        }
    }
    grid.size() == size
}

// Adds 10,000 to the first `count` cells of a row.
fn write_row(grid: &mut Grid<u32>, row: usize, count: usize) {
    if row < grid.rows() {
        for cell in grid.iter_row_mut(row).take(count) {
            *cell = cell.wrapping_add(10_000);
        }
    }
}

// Adds 1,000,000 to the first `count` cells of a column.
fn write_col(grid: &mut Grid<u32>, col: usize, count: usize) {
    if col < grid.cols() {
        for cell in grid.iter_col_mut(col).take(count) {
            *cell = cell.wrapping_add(1_000_000);
        }
    }
}

// Writes row by row, then column by column.
fn are_written(grid: &mut Grid<u32>, (rows, cols): (usize, usize), count: usize) -> bool {
    let mut held = true;
    for row in 0..rows {
        write_row(grid, row, count);
        held = held && holds(grid, (rows, cols), (row.saturating_add(1), 0), count);
    }
    for col in 0..cols {
        write_col(grid, col, count);
        held = held && holds(grid, (rows, cols), (rows, col.saturating_add(1)), count);
    }
    held
}

// Numbers the cells in storage order, by the call and by reference.
fn are_numbered(grid: &mut Grid<u32>) -> bool {
    let mut next = 100u32;
    for cell in grid.iter_mut() {
        *cell = next;
        next = next.wrapping_add(1);
    }
    for cell in &mut *grid {
        *cell = cell.wrapping_mul(7);
    }
    let mut want = 100u32;
    for cell in grid.flatten() {
        if *cell != want.wrapping_mul(7) {
            return false;
        }
        want = want.wrapping_add(1);
    }
    true
}

fn check(rt: &impl Abort, alloc: Global, size: (usize, usize), order: Order) -> Result<(), Fail> {
    for count in COUNTS {
        let mut grid = Grid::from_fn_with_order(alloc, size.0, size.1, order, |at| number(at))?;
        let lines = are_written(&mut grid, size, count);
        let all = are_numbered(&mut grid);
        for (at, cell) in grid.indexed_iter_mut() {
            *cell = number(at);
        }
        let again = holds(&grid, size, (0, 0), 0);
        assert!(rt; lines && all && again, "{count} of {size:?} in {order:?}");
    }
    Ok(())
}

fn check_orders(rt: &impl Abort, alloc: Global, size: (usize, usize)) -> Result<(), Fail> {
    for order in ORDERS {
        check(rt, alloc, size, order)?;
    }
    Ok(())
}

#[test]
fn writes_nothing_else(rt: HostRuntime) -> Result<(), Fail> {
    for size in SIZES {
        check_orders(&rt, rt.alloc(), size)?;
    }
    for size in LARGER {
        check_orders(&rt, rt.alloc(), size)?;
    }
    Ok(())
}
