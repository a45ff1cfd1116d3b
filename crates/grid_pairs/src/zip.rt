//! A board of what a closure makes of each two cells of two boards.
ghost use Rattle.std.specs.Prelude.{◌≡◌, ◌<◌, ◌≤◌, ◌+◌, ◌*◌, length, vec_len, vec_capacity, IfOk};
ghost use Rattle.grid_pairs.specs.Prelude.{row, row_count, col_count, CallableAtPairs, JoinedBy};
ghost use Rattle.grid_pairs.specs.Answered.{Appended, RowsJoined, Placed, CallableAtRow};

use grid::{Grid, Order};
use grid_view::{AsView, GridView};
use std::alloc::{AllocError, Allocator};

/// Returns the grid, in an order, of what the closure returns for references to each two cells of two boards of one
/// size.
///
///     zip_with(alloc, RowMajor, [[1, 2], [3, 4]], [[10, 20], [30, 40]], |x, y| *x + *y)   [[11, 22], [33, 44]]
///
/// Requires: the boards have as many rows and as many columns, as `board.size() == other.size()` tells; the closure can
/// be called at each two cells.
/// Fails: if allocation fails; the closure wasn't called.
/// Cost: one call for each cell, line by line along the order, in vector code where both boards are stored in it; one
/// allocation, before the first call.
pub fn zip_with<T, U, V, P: AsView<T>, Q: AsView<U>, A: Allocator, F: Fn(&T, &U) -> V>(
    alloc: A,
    order: Order,
    board: &P,
    other: &Q,
    f: F,
) -> Result<Grid<V, A>, AllocError>
    requires rows { row_count (Q.rows other.now) ≡ row_count (P.rows board.now) }
    requires cols { col_count (Q.rows other.now) ≡ col_count (P.rows board.now) }
    requires calls { CallableAtPairs F.pre f (P.rows board.now) (Q.rows other.now) }
    ensures cells { IfOk result (λ made.
        JoinedBy F.post f (P.rows board.now) (Q.rows other.now) made.rows) }
    ensures order { IfOk result (λ made. made.order ≡ order) }
{
    zipped(alloc, order, &board.as_view(), &other.as_view(), &f)
}

// Returns the grid of what the closure returns at each two cells of two views.
fn zipped<T, U, V, A: Allocator, F: Fn(&T, &U) -> V>(
    alloc: A,
    order: Order,
    board: &GridView<'_, T>,
    other: &GridView<'_, U>,
    f: &F,
) -> Result<Grid<V, A>, AllocError>
    requires rows { row_count other.now.rows ≡ row_count board.now.rows }
    requires cols { col_count other.now.rows ≡ col_count board.now.rows }
    requires calls { CallableAtPairs F.pre f.now board.now.rows other.now.rows }
    ensures cells { IfOk result (λ made.
        JoinedBy F.post f.now board.now.rows other.now.rows made.rows) }
    ensures order { IfOk result (λ made. made.order ≡ order) }
{
    let cells = joined_cells(alloc, order, board, other, f)?;
    Ok(Grid::from_vec_with_order(cells, board.cols(), order))
}

// Returns what the closure returns at each two cells, in the order in which a grid of that order stores them.
fn joined_cells<T, U, V, A: Allocator, F: Fn(&T, &U) -> V>(
    alloc: A,
    order: Order,
    board: &GridView<'_, T>,
    other: &GridView<'_, U>,
    f: &F,
) -> Result<Vec<V, A>, AllocError>
    requires rows { row_count other.now.rows ≡ row_count board.now.rows }
    requires cols { col_count other.now.rows ≡ col_count board.now.rows }
    requires calls { CallableAtPairs F.pre f.now board.now.rows other.now.rows }
    ensures { IfOk result (λ cells. Placed F.post f.now order board.now.rows other.now.rows
        cells.items) }
{
    match order {
        Order::RowMajor => joined_rows(alloc, board, other, f),
        Order::ColumnMajor => joined_rows(alloc, &board.transposed(), &other.transposed(), f),
    }
}

// Returns what the closure returns at each two cells, row by row.
fn joined_rows<T, U, V, A: Allocator, F: Fn(&T, &U) -> V>(
    alloc: A,
    board: &GridView<'_, T>,
    other: &GridView<'_, U>,
    f: &F,
) -> Result<Vec<V, A>, AllocError>
    requires rows { row_count other.now.rows ≡ row_count board.now.rows }
    requires cols { col_count other.now.rows ≡ col_count board.now.rows }
    requires calls { CallableAtPairs F.pre f.now board.now.rows other.now.rows }
    ensures { IfOk result (λ cells. RowsJoined F.post f.now (row_count board.now.rows)
        board.now.rows other.now.rows cells.items) }
{
    let (rows, cols) = board.size();
    let mut cells = Vec::with_capacity(alloc, rows * cols)?;
    if let (Some(all), Some(others)) = (board.as_slice(), other.as_slice()) {
        return Ok(push_stored(cells, all, others, f));
    }
    for r in 0..rows {
        // rows of one to three cells, whose count is a constant, become one loop
        cells = match cols {
            1 => push_seen(cells, board, other, r, 1, f),
            2 => push_seen(cells, board, other, r, 2, f),
            3 => push_seen(cells, board, other, r, 3, f),
            _ => push_row(cells, board, other, r, f),
        };
    }
    Ok(cells)
}

// Appends what the closure returns at each two cells of a row.
fn push_row<T, U, V, A: Allocator, F: Fn(&T, &U) -> V>(
    made: Vec<V, A>,
    board: &GridView<'_, T>,
    other: &GridView<'_, U>,
    r: usize,
    f: &F,
) -> Vec<V, A>
    requires row_in { r < row_count board.now.rows }
    requires rows { row_count other.now.rows ≡ row_count board.now.rows }
    requires cols { col_count other.now.rows ≡ col_count board.now.rows }
    requires calls { CallableAtPairs F.pre f.now board.now.rows other.now.rows }
    requires room { vec_len made + col_count board.now.rows ≤ vec_capacity made }
    ensures room { vec_capacity result ≡ vec_capacity made }
    ensures items { Appended F.post f.now (col_count board.now.rows)
        (row board.now.rows r) (row other.now.rows r) made.items result.items }
{
    match (board.row_slice(r), other.row_slice(r)) {
        (Some(cells), Some(others)) => push_stored(made, cells, others, f),
        (Some(cells), None) => push_with_slice(made, cells, other, r, f),
        (None, Some(others)) => push_beside_slice(made, board, r, others, f),
        (None, None) => push_seen(made, board, other, r, board.cols(), f),
    }
}

// Appends what the closure returns at each two items of two slices, in a loop that is vectorized.
fn push_stored<T, U, V, A: Allocator, F: Fn(&T, &U) -> V>(
    mut made: Vec<V, A>,
    cells: &[T],
    others: &[U],
    f: &F,
) -> Vec<V, A>
    requires len { length others.now ≡ length cells.now }
    requires calls { CallableAtRow F.pre f.now 0 cells.now others.now }
    requires room { vec_len made + length cells.now ≤ vec_capacity made }
    ensures room { vec_capacity result ≡ vec_capacity made }
    ensures items { Appended F.post f.now (length cells.now)
        cells.now others.now made.items result.items }
{
    for k in 0..cells.len() {
        made.push_reserved(f(&cells[k], &others[k]));
    }
    made
}

// Appends the same, of a slice and a row of a board.
fn push_with_slice<T, U, V, A: Allocator, F: Fn(&T, &U) -> V>(
    mut made: Vec<V, A>,
    cells: &[T],
    other: &GridView<'_, U>,
    r: usize,
    f: &F,
) -> Vec<V, A>
    requires row_in { r < row_count other.now.rows }
    requires len { length cells.now ≡ col_count other.now.rows }
    requires calls { CallableAtRow F.pre f.now 0 cells.now (row other.now.rows r) }
    requires room { vec_len made + length cells.now ≤ vec_capacity made }
    ensures room { vec_capacity result ≡ vec_capacity made }
    ensures items { Appended F.post f.now (length cells.now)
        cells.now (row other.now.rows r) made.items result.items }
{
    for col in 0..cells.len() {
        made.push_reserved(f(&cells[col], other.get_unchecked(r, col)));
    }
    made
}

// Appends the same, of a row of a board and a slice.
fn push_beside_slice<T, U, V, A: Allocator, F: Fn(&T, &U) -> V>(
    mut made: Vec<V, A>,
    board: &GridView<'_, T>,
    r: usize,
    others: &[U],
    f: &F,
) -> Vec<V, A>
    requires row_in { r < row_count board.now.rows }
    requires len { length others.now ≡ col_count board.now.rows }
    requires calls { CallableAtRow F.pre f.now 0 (row board.now.rows r) others.now }
    requires room { vec_len made + length others.now ≤ vec_capacity made }
    ensures room { vec_capacity result ≡ vec_capacity made }
    ensures items { Appended F.post f.now (length others.now)
        (row board.now.rows r) others.now made.items result.items }
{
    for col in 0..others.len() {
        made.push_reserved(f(board.get_unchecked(r, col), &others[col]));
    }
    made
}

// Appends the same, of a row of two boards, whose number of columns is handed over.
fn push_seen<T, U, V, A: Allocator, F: Fn(&T, &U) -> V>(
    mut made: Vec<V, A>,
    board: &GridView<'_, T>,
    other: &GridView<'_, U>,
    r: usize,
    cols: usize,
    f: &F,
) -> Vec<V, A>
    requires row_in { r < row_count board.now.rows }
    requires wide { cols ≡ col_count board.now.rows }
    requires rows { row_count other.now.rows ≡ row_count board.now.rows }
    requires cols { col_count other.now.rows ≡ col_count board.now.rows }
    requires calls { CallableAtPairs F.pre f.now board.now.rows other.now.rows }
    requires room { vec_len made + col_count board.now.rows ≤ vec_capacity made }
    ensures room { vec_capacity result ≡ vec_capacity made }
    ensures items { Appended F.post f.now (col_count board.now.rows)
        (row board.now.rows r) (row other.now.rows r) made.items result.items }
{
    for col in 0..cols {
        made.push_reserved(f(board.get_unchecked(r, col), other.get_unchecked(r, col)));
    }
    made
}
