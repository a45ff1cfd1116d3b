//! Grids that are brought to another size.
ghost use Rattle.std.specs.Prelude.{◌≡◌, ◌<◌, ◌≤◌, IsOk, OnOk, OnErr};
ghost use Rattle.grid.specs.Prelude.{row_count, col_count, FailsBySize, IsCorner, IsResized, ResizesTo};

use super::fits_usize;
use crate::exchange::exchange_part;
use crate::{Grid, GridError};
use std::alloc::Allocator;

impl<T, A: Allocator> Grid<T, A> {
    /// Brings the grid to `rows` rows and `cols` columns. The cells at positions that stay in range stay there, those
    /// that are no longer in range are dropped, and new ones are defaults. The order stays. Without rows or without
    /// columns it becomes the empty grid.
    ///
    ///     [[1, 2], [3, 4]]   resize(3, 1)   [[1], [3], [0]]
    ///
    /// Fails: `TooLarge` where `rows * cols` exceeds `usize::MAX`, else `Memory`, before the first change; the grid is
    /// unchanged. Where neither count grows, and without rows or without columns, it takes no memory and never fails.
    /// Cost: where neither count grows, that of [`delete_rows`](Grid::delete_rows) and
    /// [`delete_cols`](Grid::delete_cols). Else one default for each cell, one swap for each cell that stays, and one
    /// allocation, of a second vector.
    pub fn resize(&mut self, rows: usize, cols: usize) -> Result<(), GridError>
    where
        T: Default + Drop,
        A: Clone,
        ensures resized { OnOk result
            (ResizesTo T.is_default rows cols self.old.rows self.new.rows) }
        ensures order { self.new.order ≡ self.old.order }
        ensures fails { FailsBySize rows cols result }
        ensures shrinks { rows ≤ row_count self.old.rows → cols ≤ col_count self.old.rows
            → IsOk result }
        ensures unchanged { OnErr result (self.new ≡ self.old) }
    {
        if rows == 0 || cols == 0 {
            self.clear();
            return Ok(());
        }
        let (old_rows, old_cols) = self.size();
        if rows <= old_rows && cols <= old_cols {
            self.shrink(rows, cols);
            return Ok(());
        }
        self.resize_anew(rows, cols)
    }

    // As `resize`, into a second vector.
    fn resize_anew(&mut self, rows: usize, cols: usize) -> Result<(), GridError>
    where
        T: Default + Drop,
        A: Clone,
        requires some_rows { 0 < rows }
        requires some_cols { 0 < cols }
        ensures resized { OnOk result
            (IsResized T.is_default rows cols self.old.rows self.new.rows) }
        ensures order { self.new.order ≡ self.old.order }
        ensures fails { FailsBySize rows cols result }
        ensures unchanged { OnErr result (self.new ≡ self.old) }
    {
        if !fits_usize(0, rows, cols) {
            return Err(GridError::TooLarge);
        }
        let alloc = self.flat.allocator().clone()?;
        let mut grid = Grid::new_with_order(alloc, rows, cols, self.order())?;
        let (old_rows, old_cols) = self.size();
        let size = (rows.min(old_rows), cols.min(old_cols));
        exchange_part(&mut grid, self, (0, 0), size);
        *self = grid;
        Ok(())
    }

    // Keeps the first `rows` rows and `cols` columns.
    fn shrink(&mut self, rows: usize, cols: usize)
    where
        T: Drop,
        requires some_rows { 0 < rows }
        requires some_cols { 0 < cols }
        requires in_rows { rows ≤ row_count self.old.rows }
        requires in_cols { cols ≤ col_count self.old.rows }
        ensures corner { IsCorner rows cols self.old.rows self.new.rows }
        ensures order { self.new.order ≡ self.old.order }
    {
        self.keep_rows(rows);
        self.transpose();
        self.keep_rows(cols);
        self.transpose();
    }

    // Keeps the first `count` rows.
    fn keep_rows(&mut self, count: usize)
    where
        T: Drop,
        requires some { 0 < count }
        requires within { count ≤ row_count self.old.rows }
        ensures corner { IsCorner count (col_count self.old.rows) self.old.rows self.new.rows }
        ensures order { self.new.order ≡ self.old.order }
    {
        let rest = self.rows() - count;
        self.delete_rows(count, rest);
    }
}
