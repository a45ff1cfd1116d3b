//! Rows and columns that are popped and removed: the call returns the line, and no tally counts its moves.
ghost use Rattle.std.specs.Prelude.{[], ◌≡◌, ◌+◌, ◌-◌, ◌<◌, ◌≤◌, take, drop, remove, slice_get, Some, OnOk, OnErr, IfOk, MatchOption};
ghost use Rattle.grid.specs.Prelude.{row_count, col_count, transposed, storage, without_rows, without_cols};

use super::{cols_if_rows, row_groups};
use crate::Grid;
use std::alloc::{AllocError, Allocator};

impl<T, A: Allocator> Grid<T, A> {
    /// Removes the last row and returns it, or `None` from an empty grid. The order stays. Taking the only row
    /// leaves the size (0, 0).
    ///
    ///     [[1, 2], [3, 4]]   pop_row()   Some([3, 4])   [[1, 2]]
    ///
    /// Fails: if the allocation of the line fails; the grid is unchanged. `None` takes no memory.
    /// Cost: row-major, time in the length of the line; column-major, as [`remove_row`](Grid::remove_row).
    pub fn pop_row(&mut self) -> Result<Option<Vec<T, A>>, AllocError>
    where
        A: Clone,
        ensures rows { OnOk result
            (self.new.rows ≡ remove self.old.rows (row_count self.old.rows - 1)) }
        ensures line { IfOk result (λ taken. MatchOption taken (self.old.rows ≡ [])
            (λ line. slice_get self.old.rows (row_count self.old.rows - 1) ≡ Some line.items)) }
        ensures order { self.new.order ≡ self.old.order }
        ensures err { OnErr result (self.new ≡ self.old) }
        ensures err_found { OnErr result (0 < row_count self.old.rows) }
    {
        match self.rows() {
            0 => Ok(None),
            rows => self.remove_row(rows - 1),
        }
    }

    /// Removes the last column and returns it, or `None` from an empty grid. The order stays. Taking the only column
    /// leaves the size (0, 0).
    ///
    ///     [[1, 2], [3, 4]]   pop_col()   Some([2, 4])   [[1], [3]]
    ///
    /// Fails: if the allocation of the line fails; the grid is unchanged. `None` takes no memory.
    /// Cost: column-major, time in the length of the line; row-major, as [`remove_col`](Grid::remove_col).
    pub fn pop_col(&mut self) -> Result<Option<Vec<T, A>>, AllocError>
    where
        A: Clone,
        ensures rows { OnOk result
            (self.new.rows ≡ without_cols (col_count self.old.rows - 1) 1 self.old.rows) }
        ensures line { IfOk result (λ taken. MatchOption taken (self.old.rows ≡ []) (λ line.
            slice_get (transposed self.old.rows) (col_count self.old.rows - 1) ≡ Some line.items)) }
        ensures row_count { OnOk result
            (0 < col_count self.new.rows → row_count self.new.rows ≡ row_count self.old.rows) }
        ensures col_count { OnOk result (col_count self.new.rows ≡ col_count self.old.rows - 1) }
        ensures order { self.new.order ≡ self.old.order }
        ensures err { OnErr result (self.new ≡ self.old) }
        ensures err_found { OnErr result (0 < col_count self.old.rows) }
    {
        match self.cols() {
            0 => Ok(None),
            cols => self.remove_col(cols - 1),
        }
    }

    /// Removes row `at` and returns it, or `None` where there is none. The order stays. Taking the only row leaves
    /// the size (0, 0).
    ///
    ///     [[1, 2], [3, 4]]   remove_row(0)   Some([1, 2])   [[3, 4]]
    ///
    /// Fails: if the allocation of the line fails; the grid is unchanged. `None` takes no memory.
    /// Cost: row-major, time in the number of cells; column-major, that times log2(columns) + 1 at most.
    pub fn remove_row(&mut self, at: usize) -> Result<Option<Vec<T, A>>, AllocError>
    where
        A: Clone,
        ensures rows { OnOk result (self.new.rows ≡ remove self.old.rows at) }
        ensures line { IfOk result (λ taken. MatchOption taken
            (row_count self.old.rows ≤ at) (λ line. slice_get self.old.rows at ≡ Some line.items)) }
        ensures order { self.new.order ≡ self.old.order }
        ensures err { OnErr result (self.new ≡ self.old) }
        ensures err_found { OnErr result (at < row_count self.old.rows) }
    {
        if at >= self.rows() {
            return Ok(None);
        }
        let line = self.take_rows(at, 1)?;
        Ok(Some(line))
    }

    /// Removes column `at` and returns it, or `None` where there is none. The order stays. Taking the only column
    /// leaves the size (0, 0).
    ///
    ///     [[1, 2], [3, 4]]   remove_col(0)   Some([1, 3])   [[2], [4]]
    ///
    /// Fails: if the allocation of the line fails; the grid is unchanged. `None` takes no memory.
    /// Cost: column-major, time in the number of cells; row-major, that times log2(rows) + 1 at most.
    pub fn remove_col(&mut self, at: usize) -> Result<Option<Vec<T, A>>, AllocError>
    where
        A: Clone,
        ensures rows { OnOk result (self.new.rows ≡ without_cols at 1 self.old.rows) }
        ensures line { IfOk result (λ taken. MatchOption taken (col_count self.old.rows ≤ at)
            (λ line. slice_get (transposed self.old.rows) at ≡ Some line.items)) }
        ensures row_count { OnOk result
            (0 < col_count self.new.rows → row_count self.new.rows ≡ row_count self.old.rows) }
        ensures col_count { IfOk result (λ taken. MatchOption taken
            (col_count self.new.rows ≡ col_count self.old.rows)
            (λ _. col_count self.new.rows ≡ col_count self.old.rows - 1)) }
        ensures order { self.new.order ≡ self.old.order }
        ensures err { OnErr result (self.new ≡ self.old) }
        ensures err_found { OnErr result (at < col_count self.old.rows) }
    {
        self.transpose();
        let removed = self.remove_row(at);
        self.transpose();
        removed
    }

    // Takes `count` rows from row `at` on out, all in range, and returns their cells in storage order.
    pub(super) fn take_rows(&mut self, at: usize, count: usize) -> Result<Vec<T, A>, AllocError>
    where
        A: Clone,
        requires within { at + count ≤ row_count self.old.rows }
        ensures rows { OnOk result (self.new.rows ≡ without_rows at count self.old.rows) }
        ensures cells { IfOk result (λ cells.
            cells.items ≡ storage self.old.order (take count (drop at self.old.rows))) }
        ensures order { self.new.order ≡ self.old.order }
        ensures err { OnErr result (self.new ≡ self.old) }
    {
        let rest = self.row_count - count;
        let groups = row_groups(self.order, rest, self.col_count, at, count);
        let cells = self.flat.take_out(groups)?;
        self.row_count = rest;
        self.col_count = cols_if_rows(rest, self.col_count);
        Ok(cells)
    }
}
