//! Rows and columns that are split off, as a grid of their own.
ghost use Rattle.std.specs.Prelude.{◌≡◌, ◌-◌, ◌<◌, ◌≤◌, take, drop, OnOk, OnErr, IfOk};
ghost use Rattle.grid.specs.Prelude.{row_count, col_count, without_cols};

use crate::Grid;
use std::alloc::{AllocError, Allocator};

impl<T, A: Allocator> Grid<T, A> {
    /// Takes the rows from row `at` on out, and returns them as a grid of the same order. The order stays. Where `at`
    /// is the number of rows, that is the empty grid; where it is 0, the empty grid is left.
    ///
    ///     [[1, 2], [3, 4], [5, 6]]   split_off_rows(1)   [[3, 4], [5, 6]]   [[1, 2]]
    ///
    /// Requires: `at` is at most the number of rows.
    /// Fails: if the allocation of the cells, which comes first, fails; the grid is unchanged.
    /// Cost: row-major, time in the cells that are taken; column-major, time in the number of cells times
    /// log2(columns) + 1 at most.
    pub fn split_off_rows(&mut self, at: usize) -> Result<Grid<T, A>, AllocError>
    where
        A: Clone,
        requires point { at ≤ row_count self.old.rows }
        ensures rows { OnOk result (self.new.rows ≡ take at self.old.rows) }
        ensures row_count { OnOk result (row_count self.new.rows ≡ at) }
        ensures col_count { OnOk result
            (0 < at → col_count self.new.rows ≡ col_count self.old.rows) }
        ensures order { self.new.order ≡ self.old.order }
        ensures tail { IfOk result (λ tail. tail.rows ≡ drop at self.old.rows) }
        ensures tail_rows { IfOk result
            (λ tail. row_count tail.rows ≡ row_count self.old.rows - at) }
        ensures tail_cols { IfOk result (λ tail. at < row_count self.old.rows
            → col_count tail.rows ≡ col_count self.old.rows) }
        ensures tail_order { IfOk result (λ tail. tail.order ≡ self.old.order) }
        ensures err { OnErr result (self.new ≡ self.old) }
    {
        let (rows, cols) = self.size();
        let cells = self.take_rows(at, rows - at)?;
        Ok(Grid::from_vec_with_order(cells, cols, self.order))
    }

    /// Takes the columns from column `at` on out, and returns them as a grid of the same order. The order stays. Where
    /// `at` is the number of columns, that is the empty grid; where it is 0, the empty grid is left.
    ///
    ///     [[1, 2, 3], [4, 5, 6]]   split_off_cols(1)   [[2, 3], [5, 6]]   [[1], [4]]
    ///
    /// Requires: `at` is at most the number of columns.
    /// Fails: if the allocation of the cells, which comes first, fails; the grid is unchanged.
    /// Cost: column-major, time in the cells that are taken; row-major, time in the number of cells times log2(rows) +
    /// 1 at most.
    pub fn split_off_cols(&mut self, at: usize) -> Result<Grid<T, A>, AllocError>
    where
        A: Clone,
        requires point { at ≤ col_count self.old.rows }
        ensures rows { OnOk result
            (self.new.rows ≡ without_cols at (col_count self.old.rows - at) self.old.rows) }
        ensures row_count { OnOk result
            (0 < at → row_count self.new.rows ≡ row_count self.old.rows) }
        ensures col_count { OnOk result (col_count self.new.rows ≡ at) }
        ensures order { self.new.order ≡ self.old.order }
        ensures tail { IfOk result (λ tail. tail.rows ≡ without_cols 0 at self.old.rows) }
        ensures tail_rows { IfOk result (λ tail. at < col_count self.old.rows
            → row_count tail.rows ≡ row_count self.old.rows) }
        ensures tail_cols { IfOk result
            (λ tail. col_count tail.rows ≡ col_count self.old.rows - at) }
        ensures tail_order { IfOk result (λ tail. tail.order ≡ self.old.order) }
        ensures err { OnErr result (self.new ≡ self.old) }
    {
        self.transpose();
        let split = self.split_off_rows(at);
        self.transpose();
        let mut tail = split?;
        tail.transpose();
        Ok(tail)
    }
}
