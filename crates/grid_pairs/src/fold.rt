//! One value for each row of a board, for each column, or for the whole board, folded from its cells.
ghost use Rattle.std.specs.Prelude.{◌≡◌, ◌<◌, length, IfOk};
ghost use Rattle.grid_pairs.specs.Prelude.{row, row_count, col_count, transposed, CallableInRows, CallableInCells, AreFolds, IsFold};
ghost use Rattle.grid_pairs.specs.Folded.{AreCopies, FoldsOver, FoldsMore, CallableInRow, CallableAtCol};

use grid_view::{AsView, GridView};
use std::alloc::{AllocError, Allocator};

// A line at a time, fewer values are faster than all at once: of three columns of 333,333 cells, 0.5 instead of 1.2 ms
// on 4-byte cells.
const FEW_VALUES: usize = 4;

/// Returns a value for each row: what the closure comes to from `init` on, called with the value so far and a reference
/// to each cell of the row, from the first on.
///
///     [[1, 2], [3, 4]]   fold_rows(alloc, board, 0, |sum, x| sum + *x)   [3, 7]
///
/// Requires: the closure can be called at each cell, and a value that it comes to over the cells before it in the row.
/// Fails: if allocation fails; the closure wasn't called.
/// Cost: one call for each cell, along the storage in either order, but row by row where there are fewer than four
/// rows; one allocation, before the first call.
pub fn fold_rows<T, V: AsView<T>, S: Copy, A: Allocator, F: Fn(S, &T) -> S>(
    alloc: A,
    board: &V,
    init: S,
    f: F,
) -> Result<Vec<S, A>, AllocError>
    requires calls { CallableInRows F.pre F.post f init (V.rows board.now) }
    ensures folds { IfOk result (λ folds. AreFolds F.post f init (V.rows board.now) folds.items) }
{
    folded(alloc, &board.as_view(), init, &f)
}

/// Returns a value for each column, as [`fold_rows`] does for each row.
///
///     [[1, 2], [3, 4]]   fold_cols(alloc, board, 0, |sum, x| sum + *x)   [4, 6]
///
/// Requires: the closure can be called at each cell, and a value that it comes to over the cells before it in the
/// column.
/// Fails: if allocation fails; the closure wasn't called.
/// Cost: one call for each cell, along the storage in either order, but column by column where there are fewer than
/// four columns; one allocation, before the first call.
pub fn fold_cols<T, V: AsView<T>, S: Copy, A: Allocator, F: Fn(S, &T) -> S>(
    alloc: A,
    board: &V,
    init: S,
    f: F,
) -> Result<Vec<S, A>, AllocError>
    requires calls { CallableInRows F.pre F.post f init (transposed (V.rows board.now)) }
    ensures folds { IfOk result (λ folds.
        AreFolds F.post f init (transposed (V.rows board.now)) folds.items) }
{
    folded(alloc, &board.as_view().transposed(), init, &f)
}

/// Returns what the closure comes to from `init` on, called with the value so far and a reference to each cell of the
/// board, row by row.
///
///     [[1, 2], [3, 4]]   fold_cells(board, 0, |sum, x| sum + *x)   10
///
/// A sum, a count or a maximum over a large part is as fast by it as by a loop over slices of its rows.
///
/// Requires: the closure can be called at each cell, and a value that it comes to over the cells before it.
/// Cost: one call for each cell, each row as a slice where it is one in the storage; no memory.
pub fn fold_cells<T, V: AsView<T>, S: Copy, F: Fn(S, &T) -> S>(board: &V, init: S, f: F) -> S
    requires calls { CallableInCells F.pre F.post f init (V.rows board.now) }
    ensures fold { IsFold F.post f init (V.rows board.now) result }
{
    fold_view(&board.as_view(), init, &f)
}

// The same, of a view.
fn fold_view<T, S: Copy, F: Fn(S, &T) -> S>(board: &GridView<'_, T>, init: S, f: &F) -> S
    requires calls { CallableInCells F.pre F.post f.now init board.now.rows }
    ensures fold { IsFold F.post f.now init board.now.rows result }
{
    let mut folded = init;
    for r in 0..board.rows() {
        folded = fold_row(board, r, folded, f);
    }
    folded
}

// Returns a value for each row of a view.
fn folded<T, S: Copy, A: Allocator, F: Fn(S, &T) -> S>(
    alloc: A,
    board: &GridView<'_, T>,
    init: S,
    f: &F,
) -> Result<Vec<S, A>, AllocError>
    requires calls { CallableInRows F.pre F.post f.now init board.now.rows }
    ensures folds { IfOk result (λ folds. AreFolds F.post f.now init board.now.rows folds.items) }
{
    if runs_across(board) {
        fold_across(alloc, board, init, f)
    } else {
        fold_along(alloc, board, init, f)
    }
}

// Whether the rows run across the storage, and the columns along it, and whether there are enough rows.
fn runs_across<T>(board: &GridView<'_, T>) -> bool {
    if board.rows() < FEW_VALUES {
        return false;
    }
    let across = board.transposed();
    !across.is_empty() && across.row_slice(0).is_some() && board.row_slice(0).is_none()
}

// Returns a value for each row, one row after another.
fn fold_along<T, S: Copy, A: Allocator, F: Fn(S, &T) -> S>(
    alloc: A,
    board: &GridView<'_, T>,
    init: S,
    f: &F,
) -> Result<Vec<S, A>, AllocError>
    requires calls { CallableInRows F.pre F.post f.now init board.now.rows }
    ensures folds { IfOk result (λ folds. AreFolds F.post f.now init board.now.rows folds.items) }
{
    // a copy that no write to the values can change, so that it stays in registers
    let seen = board.view();
    let rows = seen.rows();
    let mut folds = Vec::with_capacity(alloc, rows)?;
    for r in 0..rows {
        let folded = fold_row(&seen, r, init, f);
        folds.push_reserved(folded);
    }
    Ok(folds)
}

// Returns the value of a row.
fn fold_row<T, S: Copy, F: Fn(S, &T) -> S>(board: &GridView<'_, T>, r: usize, init: S, f: &F) -> S
    requires row_in { r < row_count board.now.rows }
    requires calls { CallableInRow F.pre F.post f.now init (row board.now.rows r) }
    ensures { FoldsOver F.post f.now init (row board.now.rows r) result }
{
    match board.row_slice(r) {
        Some(cells) => fold_stored(cells, init, f),
        None => fold_seen(board, r, init, f),
    }
}

// Returns the value of the cells of a slice.
fn fold_stored<T, S: Copy, F: Fn(S, &T) -> S>(cells: &[T], init: S, f: &F) -> S
    requires calls { CallableInRow F.pre F.post f.now init cells.now }
    ensures { FoldsOver F.post f.now init cells.now result }
{
    let mut folded = init;
    for k in 0..cells.len() {
        folded = f(folded, &cells[k]);
    }
    folded
}

// Returns the value of a row, cell by cell.
fn fold_seen<T, S: Copy, F: Fn(S, &T) -> S>(board: &GridView<'_, T>, r: usize, init: S, f: &F) -> S
    requires row_in { r < row_count board.now.rows }
    requires calls { CallableInRow F.pre F.post f.now init (row board.now.rows r) }
    ensures { FoldsOver F.post f.now init (row board.now.rows r) result }
{
    let mut folded = init;
    for col in 0..board.cols() {
        folded = f(folded, board.get_unchecked(r, col));
    }
    folded
}

// Returns a value for each row, one column after another.
fn fold_across<T, S: Copy, A: Allocator, F: Fn(S, &T) -> S>(
    alloc: A,
    board: &GridView<'_, T>,
    init: S,
    f: &F,
) -> Result<Vec<S, A>, AllocError>
    requires calls { CallableInRows F.pre F.post f.now init board.now.rows }
    ensures folds { IfOk result (λ folds. AreFolds F.post f.now init board.now.rows folds.items) }
{
    let (rows, cols) = board.size();
    let mut folds = copies_of(alloc, init, rows)?;
    let across = board.transposed();
    for c in 0..cols {
        add_row(folds.as_mut_slice(), &across, c, f);
    }
    Ok(folds)
}

// Returns a vector of `count` copies of a value.
fn copies_of<S: Copy, A: Allocator>(
    alloc: A,
    value: S,
    count: usize,
) -> Result<Vec<S, A>, AllocError>
    ensures { IfOk result (λ copies. AreCopies value count copies.items) }
{
    let mut copies = Vec::with_capacity(alloc, count)?;
    for _ in 0..count {
        copies.push_reserved(value);
    }
    Ok(copies)
}

// Goes on from each value to that of the cell of row `r` of a board which comes there.
fn add_row<T, S: Copy, F: Fn(S, &T) -> S>(folds: &mut [S], board: &GridView<'_, T>, r: usize, f: &F)
    requires row_in { r < row_count board.now.rows }
    requires len { col_count board.now.rows ≡ length folds.old }
    requires calls { CallableAtCol F.pre f.now folds.old (row board.now.rows r) }
    ensures { FoldsMore F.post f.now (row board.now.rows r) folds.old folds.new }
{
    match board.row_slice(r) {
        Some(cells) => add_stored(folds, cells, f),
        None => add_seen(folds, board, r, f),
    }
}

// Does so by the cells of a slice, in a loop that is vectorized.
fn add_stored<T, S: Copy, F: Fn(S, &T) -> S>(folds: &mut [S], cells: &[T], f: &F)
    requires len { length cells.now ≡ length folds.old }
    requires calls { CallableAtCol F.pre f.now folds.old cells.now }
    ensures { FoldsMore F.post f.now cells.now folds.old folds.new }
{
    for k in 0..folds.len() {
        folds[k] = f(folds[k], &cells[k]);
    }
}

// Does so by the cells of row `r`, one by one.
fn add_seen<T, S: Copy, F: Fn(S, &T) -> S>(
    folds: &mut [S],
    board: &GridView<'_, T>,
    r: usize,
    f: &F,
)
    requires row_in { r < row_count board.now.rows }
    requires len { col_count board.now.rows ≡ length folds.old }
    requires calls { CallableAtCol F.pre f.now folds.old (row board.now.rows r) }
    ensures { FoldsMore F.post f.now (row board.now.rows r) folds.old folds.new }
{
    for col in 0..board.cols() {
        folds[col] = f(folds[col], board.get_unchecked(r, col));
    }
}
