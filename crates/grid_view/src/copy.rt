//! Clones of the cells of a view.
ghost use Rattle.std.specs.Prelude.{◌≡◌, ◌+◌, ◌*◌, ◌<◌, ◌≤◌, ◌++◌, length, IfOk, IfSome, IsSome, OnOk, vec_len, vec_capacity};
ghost use Rattle.grid_view.specs.Prelude.{ClonesAreEqual, row, row_count, col_count, concat_rows, storage};

use crate::cells::ViewIter;
use crate::lines::ViewLineIter;
use crate::view::{GridView, row_start};
use grid_base::{Flat, Order};
use std::alloc::{AllocError, Allocator};

// Adds clones of the cells of a line to a vector that has room for them.
fn push_line<T: Clone, A: Allocator>(
    copies: &mut Vec<T, A>,
    line: ViewLineIter<'_, T>,
) -> Result<(), AllocError>
    requires clones { ClonesAreEqual T.is_clone }
    requires room { vec_len copies.old + length line ≤ vec_capacity copies.old }
    ensures items { OnOk result (copies.new.items ≡ copies.old.items ++ line.entry) }
    ensures capacity { vec_capacity copies.new ≡ vec_capacity copies.old }
{
    for cell in line {
        let copy = cell.clone()?;
        copies.push_reserved(copy);
    }
    Ok(())
}

// Returns the vector, which has room for them, with clones of these cells at its end.
fn with_clones<T: Clone, A: Allocator>(
    mut copies: Vec<T, A>,
    cells: ViewIter<'_, T>,
) -> Result<Vec<T, A>, AllocError>
    requires clones { ClonesAreEqual T.is_clone }
    requires room { vec_len copies + length cells ≤ vec_capacity copies }
    ensures { IfOk result (λ made. made.items ≡ copies.items ++ cells.entry) }
{
    for cell in cells {
        let copy = cell.clone()?;
        copies.push_reserved(copy);
    }
    Ok(copies)
}

// Adds clones of the cells of row `r` to a vector that has room for them, at once where they are side by side.
fn push_row<T: Clone, A: Allocator>(
    copies: &mut Vec<T, A>,
    view: &GridView<'_, T>,
    r: usize,
) -> Result<(), AllocError>
    requires clones { ClonesAreEqual T.is_clone }
    requires row_in { r < row_count view.now.rows }
    requires room { vec_len copies.old + length (row view.now.rows r) ≤ vec_capacity copies.old }
    ensures items { OnOk result (copies.new.items ≡ copies.old.items ++ row view.now.rows r) }
    ensures capacity { vec_capacity copies.old ≤ vec_capacity copies.new }
{
    match view.row_slice(r) {
        Some(line) => copies.extend_with_clones(line),
        None => push_line(copies, view.iter_row(r)),
    }
}

// Writes copies of the cells of row `r` over those of a slice, one after another.
fn copy_cells<T: Copy>(view: &GridView<'_, T>, r: usize, to: &mut [T])
    requires row_in { r < row_count view.now.rows }
    requires len { length to.old ≡ col_count view.now.rows }
    ensures { to.new ≡ row view.now.rows r }
{
    for col in 0..to.len() {
        to[col] = *view.get_unchecked(r, col);
    }
}

// Shorter rows across the storage are cloned one by one. A square board, one by one and along the storage: 256 by 256
// 95 and 99 us on 8-byte cells, 77 and 58 us on bytes; 512 by 512 1.2 and 0.7 ms, 0.31 and 0.24 ms; 2048 by 2048 101
// and 45 ms, 19 and 7 ms.
const LONG_ACROSS: usize = 512;

// Shorter rows are cloned in one loop over all cells. 8,192 cells, in one loop and row by row: in rows of 8 7.1 and 7.7
// us on 8-byte cells, 8.4 and 9.3 us on bytes; in rows of 16 6.9 and 4.6 us, 8.1 and 6.1 us.
const SHORT_ROW: usize = 16;

// Returns clones of the cells of a view, row by row, and reads it in that order.
fn clones_in_turn<T: Clone, A: Allocator>(
    alloc: A,
    view: &GridView<'_, T>,
) -> Result<Vec<T, A>, AllocError>
    requires { ClonesAreEqual T.is_clone }
    ensures { IfOk result (λ copies. copies.items ≡ concat_rows view.now.rows) }
{
    let (rows, cols) = view.size();
    let mut copies = Vec::with_capacity(alloc, rows * cols)?;
    if cols < SHORT_ROW {
        return with_clones(copies, view.iter());
    }
    for r in 0..rows {
        push_row(&mut copies, view, r)?;
    }
    Ok(copies)
}

// Returns clones of the cells of a view, row by row. Where long rows run across the storage, each cell of them would be
// fetched from memory by itself; so the cells are cloned along the storage, and then transposed in place.
fn clones_of<T: Clone, A: Allocator>(
    alloc: A,
    view: &GridView<'_, T>,
) -> Result<Vec<T, A>, AllocError>
    requires { ClonesAreEqual T.is_clone }
    ensures { IfOk result (λ copies. copies.items ≡ concat_rows view.now.rows) }
{
    if !view.has_long_rows_across() {
        return clones_in_turn(alloc, view);
    }
    let (rows, cols) = view.size();
    let mut flat = Flat::from_vec(clones_in_turn(alloc, &view.transposed())?);
    flat.transpose_in_place(cols, rows);
    Ok(flat.into_vec())
}

impl<'a, T> GridView<'a, T> {
    // Whether long rows run across the storage, and the columns are long too.
    fn has_long_rows_across(&self) -> bool {
        self.rows.stride == 1
            && self.cols.stride != 1
            && LONG_ACROSS <= self.rows.count
            && LONG_ACROSS <= self.cols.count
    }

    /// Returns the cells of row `r` as a slice, or `None` where they aren't side by side and in order in the storage.
    ///
    ///     [[1, 2], [3, 4]], of a row-major grid      row_slice(1)   Some([3, 4])
    ///     [[1, 2], [3, 4]], of a column-major grid   row_slice(1)   None
    ///     [[1], [2]], of any grid, turned or not     row_slice(1)   Some([2])
    ///
    /// It is `Some` for a view of a row-major grid and for its parts, also upside down, and for views that lie in
    /// memory as these do, as the transposed view of a column-major grid; and wherever there is one column. Elsewhere
    /// it is `None`: all rows of a view have the same answer. Of this the contract says the case of one column: a
    /// contract sees the rows of a view, and not where they lie.
    ///
    /// Requires: there is such a row.
    /// Cost: constant; no cell is copied, and no memory is taken.
    pub fn row_slice(&self, r: usize) -> Option<&'a [T]>
        requires { r < row_count self.now.rows }
        ensures cells { IfSome result (λ line. line.now ≡ row self.now.rows r) }
        ensures narrow { col_count self.now.rows ≤ 1 → IsSome result }
    {
        if !self.cols.steps_by(1) {
            return None;
        }
        let start = row_start(self.rows, self.cols, self.cells.len(), r);
        Some(&self.cells[start..start + self.cols.count])
    }

    /// Returns clones of the cells, in the order in which a grid of that order stores them.
    ///
    ///     [[1, 2], [3, 4]]   to_vec(ColumnMajor)   [1, 3, 2, 4]
    ///
    /// Requires: clones of the cell type equal their source.
    /// Fails: if allocation fails, for the vector or in a clone.
    /// Cost: one clone for each cell; one allocation, before the first clone.
    pub fn to_vec<A: Allocator>(&self, alloc: A, order: Order) -> Result<Vec<T, A>, AllocError>
    where
        T: Clone,
        requires { ClonesAreEqual T.is_clone }
        ensures { IfOk result (λ cells. cells.items ≡ storage order self.now.rows) }
    {
        match order {
            Order::RowMajor => clones_of(alloc, self),
            Order::ColumnMajor => clones_of(alloc, &self.transposed()),
        }
    }

    /// Writes copies of the cells of row `r` over those of a slice.
    ///
    ///     [[1, 2], [3, 4]]   copy_row(1, [0, 0])   [3, 4]
    ///
    /// Requires: there is such a row, and the slice has a cell for each column.
    /// Cost: one copy for each cell, all at once where they are side by side in the storage; no memory.
    pub fn copy_row(&self, r: usize, to: &mut [T])
    where
        T: Copy,
        requires row_in { r < row_count self.now.rows }
        requires len { length to.old ≡ col_count self.now.rows }
        ensures { to.new ≡ row self.now.rows r }
    {
        match self.row_slice(r) {
            Some(line) => to.copy_from_slice(line),
            None => copy_cells(self, r, to),
        }
    }
}
