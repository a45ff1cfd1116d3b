//! What the tests share: all small tables, whether a grid shows one, and memory that is refused.

use crate::fuse::Fuse;
use crate::plain;
use grid::{Grid, Move, Order, ShapeError, Symmetry, can_cut};
use std::alloc::{AllocError, Allocator, Global};

// Memory that a test can refuse.
pub type Heap = Fuse<Global>;

pub const SIZES: [(usize, usize); 10] = [
    (0, 0),
    (1, 1),
    (1, 2),
    (1, 3),
    (2, 1),
    (2, 2),
    (2, 3),
    (3, 1),
    (3, 2),
    (3, 3),
];

pub const ORDERS: [Order; 2] = [Order::RowMajor, Order::ColumnMajor];

pub const SYMMETRIES: [Symmetry; 8] = [
    Symmetry::Identity,
    Symmetry::FlipCols,
    Symmetry::FlipRows,
    Symmetry::RotateHalf,
    Symmetry::Transpose,
    Symmetry::RotateLeft,
    Symmetry::RotateRight,
    Symmetry::AntiTranspose,
];

// Rows and columns in range of a table, and some past its end.
pub const INDICES: [usize; 6] = [0, 1, 2, 3, 4, usize::MAX];

// A line of `len` numbers, each one more than the one before it.
fn next_line<A: Allocator>(
    alloc: A,
    next: &mut u32,
    len: usize,
) -> Result<Vec<u32, A>, AllocError> {
    let mut line = Vec::with_capacity(alloc, len)?;
    for _ in 0..len {
        line.push(*next)?;
        *next = next.wrapping_add(1);
    }
    Ok(line)
}

// A line of `len` numbers, from the first on.
pub fn line_from<A: Allocator>(
    alloc: A,
    first: u32,
    len: usize,
) -> Result<Vec<u32, A>, AllocError> {
    let mut next = first;
    next_line(alloc, &mut next, len)
}

// `count` lines of `len` numbers, which go on from line to line.
pub fn lines_from<A: Allocator + Copy>(
    alloc: A,
    first: u32,
    count: usize,
    len: usize,
) -> Result<Vec<Vec<u32, A>, A>, AllocError> {
    let mut lines = Vec::with_capacity(alloc, count)?;
    let mut next = first;
    for _ in 0..count {
        lines.push(next_line(alloc, &mut next, len)?)?;
    }
    Ok(lines)
}

// The table of this size with the cells 1, 2, 3, ..
pub fn numbered(alloc: Global, rows: usize, cols: usize) -> Result<Vec<Vec<u32>>, AllocError> {
    lines_from(alloc, 1, rows, cols)
}

// A table of rows that are written out.
pub fn table_of(alloc: Global, rows: &[&[u32]]) -> Result<Vec<Vec<u32>>, AllocError> {
    let mut table = Vec::new(alloc);
    for row in rows {
        table.push(Vec::from_slice(alloc, *row)?)?;
    }
    Ok(table)
}

// A grid of cells in storage order, in rows of `cols`.
pub fn cut<T: Drop, A: Allocator>(
    cells: Vec<T, A>,
    cols: usize,
    order: Order,
) -> Result<Grid<T, A>, ShapeError> {
    let len = cells.len();
    if can_cut(len, cols) {
        Ok(Grid::from_vec_with_order(cells, cols, order))
    } else {
        Err(ShapeError::Shape { len, cols })
    }
}

// A grid of written cells in storage order, in rows of `cols`.
pub fn stored(
    alloc: Global,
    cells: &[u32],
    cols: usize,
    order: Order,
) -> Result<Grid<u32>, ShapeError> {
    cut(Vec::from_slice(alloc, cells)?, cols, order)
}

// The grid of a table, stored in an order.
pub fn grid_of(
    alloc: Global,
    table: &Vec<Vec<u32>>,
    order: Order,
) -> Result<Grid<u32>, ShapeError> {
    let (_, cols) = plain::size(table);
    cut(plain::storage(alloc, order, table)?, cols, order)
}

// Whether a grid has the cells of a table, in range and past its ends.
fn has_cells<A: Allocator>(grid: &Grid<u32, A>, table: &Vec<Vec<u32>>) -> bool {
    for row in INDICES {
        for col in INDICES {
            if grid.get(row, col).copied() != plain::get(table, row, col) {
                return false;
            }
        }
    }
    true
}

// Whether these are the cells of a table, row by row.
fn is_joined(cells: &[u32], table: &Vec<Vec<u32>>) -> bool {
    let mut left = cells.iter();
    for row in table {
        for cell in row {
            if left.next() != Some(cell) {
                return false;
            }
        }
    }
    left.next().is_none()
}

// Whether these are the cells of a table, column by column.
fn is_joined_across(cells: &[u32], table: &Vec<Vec<u32>>) -> bool {
    let (_, cols) = plain::size(table);
    let mut left = cells.iter();
    for col in 0..cols {
        for row in table {
            if left.next() != row.get(col) {
                return false;
            }
        }
    }
    left.next().is_none()
}

// Whether each call that tells of its size or its order says that a grid has these.
fn has_size<A: Allocator>(grid: &Grid<u32, A>, (rows, cols): (usize, usize), order: Order) -> bool {
    let by_each = grid.size() == (rows, cols) && grid.rows() == rows && grid.cols() == cols;
    by_each && grid.order() == order && grid.is_empty() == (rows == 0)
}

// Whether a grid shows this table, by its size and each cell, and has stored it in this order.
pub fn shows<A: Allocator>(grid: &Grid<u32, A>, table: &Vec<Vec<u32>>, order: Order) -> bool {
    let (rows, cols) = plain::size(table);
    let stored = match order {
        Order::RowMajor => is_joined(grid.flatten(), table),
        Order::ColumnMajor => is_joined_across(grid.flatten(), table),
    };
    stored && has_size(grid, (rows, cols), order) && has_cells(grid, table)
}

// Whether a grid has this size, and has stored these cells in this order.
pub fn is_stored<T: PartialEq, A: Allocator>(
    grid: &Grid<T, A>,
    size: (usize, usize),
    order: Order,
    cells: &[T],
) -> bool {
    grid.size() == size && grid.order() == order && grid.flatten().as_slice() == cells
}

// Does a move by the call of its name.
pub fn call<A: Allocator>(grid: &mut Grid<u32, A>, step: Move) {
    match step {
        Move::Transpose => grid.transpose(),
        Move::FlipCols => grid.flip_cols(),
        Move::FlipRows => grid.flip_rows(),
        Move::RotateLeft => grid.rotate_left(),
        Move::RotateRight => grid.rotate_right(),
        Move::RotateHalf => grid.rotate_half(),
    }
}

// The order of a grid on which a symmetry has acted.
pub fn order_after(symmetry: Symmetry, order: Order) -> Order {
    let transposes = match symmetry {
        Symmetry::Transpose
        | Symmetry::RotateLeft
        | Symmetry::RotateRight
        | Symmetry::AntiTranspose => true,
        Symmetry::Identity | Symmetry::FlipCols | Symmetry::FlipRows | Symmetry::RotateHalf => {
            false
        }
    };
    match (transposes, order) {
        (false, same) => same,
        (true, Order::RowMajor) => Order::ColumnMajor,
        (true, Order::ColumnMajor) => Order::RowMajor,
    }
}

fn letters_in(alloc: Global, stored: [&str; 6]) -> Result<Vec<String>, AllocError> {
    let mut cells = Vec::new(alloc);
    for letter in stored {
        cells.push(String::from_str(alloc, letter)?)?;
    }
    Ok(cells)
}

// The grid of the rows a b c and d e f, stored in an order.
pub fn letters(alloc: Global, order: Order) -> Result<Grid<String>, ShapeError> {
    let stored = match order {
        Order::RowMajor => ["a", "b", "c", "d", "e", "f"],
        Order::ColumnMajor => ["a", "d", "b", "e", "c", "f"],
    };
    cut(letters_in(alloc, stored)?, 3, order)
}

// The texts of a grid's vector, joined.
pub fn joined_texts(alloc: Global, grid: &Grid<String>) -> Result<String, AllocError> {
    let mut text = String::new(alloc);
    for cell in grid.flatten() {
        text.push_str(cell.as_str())?;
    }
    Ok(text)
}

// Whether a grid has stored these texts in this order.
pub fn has_texts(grid: &Grid<String>, order: Order, texts: &[&str]) -> bool {
    let mut left = texts.iter();
    for cell in grid.flatten() {
        match left.next() {
            Some(text) if cell.as_str() == *text => {}
            _ => return false,
        }
    }
    grid.order() == order && left.next().is_none()
}
