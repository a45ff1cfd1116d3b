//! Padding: rows and columns of defaults at the end or at the beginning, by counted passes.
ghost use Rattle.std.specs.Prelude.{◌≡◌, ◌≤◌, OnOk, OnErr};
ghost use Rattle.grid.specs.Prelude.{row_count, col_count, saturating_count, PadsRows, PadsCols, PaddingFails, rows_added_shift};

use super::{fits_usize, row_groups};
use crate::{Grid, GridError};
use grid_base::Tally;
use std::alloc::Allocator;

impl<T, A: Allocator> Grid<T, A> {
    /// Adds `count` rows of defaults at the end. The order stays. An empty grid stays empty.
    ///
    ///     [[1, 2]]   expand_rows(1)   [[1, 2], [0, 0]]
    ///
    /// Fails: `TooLarge` where the cells would exceed `usize::MAX`, else `Memory`; the grid is unchanged. On an empty
    /// grid, or where `count` is 0, it takes no memory and never fails.
    /// Cost: row-major, time in the new cells, not counting a reallocation; column-major, time in all cells: each one
    /// is swapped once, but for those of the first column.
    pub fn expand_rows(&mut self, count: usize) -> Result<(), GridError>
    where
        T: Default,
        A: Clone,
        ensures padded { OnOk result (PadsRows T.is_default (row_count self.old.rows) count
            self.old.rows self.new.rows) }
        ensures order { self.new.order ≡ self.old.order }
        ensures fails { PaddingFails (row_count self.old.rows) (col_count self.old.rows) count
            self.old self.new result }
    {
        let end = self.rows();
        self.pad_rows_counted(end, count, &mut Tally::new())
    }

    /// Adds `count` columns of defaults at the end. The order stays. An empty grid stays empty.
    ///
    ///     [[1], [2]]   expand_cols(2)   [[1, 0, 0], [2, 0, 0]]
    ///
    /// Fails: `TooLarge` where the cells would exceed `usize::MAX`, else `Memory`; the grid is unchanged. On an empty
    /// grid, or where `count` is 0, it takes no memory and never fails.
    /// Cost: column-major, time in the new cells, not counting a reallocation; row-major, time in all cells: each one
    /// is swapped once, but for those of the first row.
    pub fn expand_cols(&mut self, count: usize) -> Result<(), GridError>
    where
        T: Default,
        A: Clone,
        ensures padded { OnOk result (PadsCols T.is_default (col_count self.old.rows) count
            self.old.rows self.new.rows) }
        ensures order { self.new.order ≡ self.old.order }
        ensures fails { PaddingFails (col_count self.old.rows) (row_count self.old.rows) count
            self.old self.new result }
    {
        let end = self.cols();
        self.pad_cols(end, count)
    }

    /// Adds `count` rows of defaults at the beginning. The order stays. An empty grid stays empty.
    ///
    ///     [[1, 2]]   prepend_rows(1)   [[0, 0], [1, 2]]
    ///
    /// Fails: exactly where [`expand_rows`](Grid::expand_rows) does, and leaves the grid unchanged then.
    /// Cost: time in the number of cells; each old one is swapped once.
    pub fn prepend_rows(&mut self, count: usize) -> Result<(), GridError>
    where
        T: Default,
        A: Clone,
        ensures padded { OnOk result (PadsRows T.is_default 0 count self.old.rows self.new.rows) }
        ensures order { self.new.order ≡ self.old.order }
        ensures fails { PaddingFails (row_count self.old.rows) (col_count self.old.rows) count
            self.old self.new result }
    {
        self.pad_rows_counted(0, count, &mut Tally::new())
    }

    /// Adds `count` columns of defaults at the beginning. The order stays. An empty grid stays empty.
    ///
    ///     [[1], [2]]   prepend_cols(2)   [[0, 0, 1], [0, 0, 2]]
    ///
    /// Fails: exactly where [`expand_cols`](Grid::expand_cols) does, and leaves the grid unchanged then.
    /// Cost: time in the number of cells; each old one is swapped once.
    pub fn prepend_cols(&mut self, count: usize) -> Result<(), GridError>
    where
        T: Default,
        A: Clone,
        ensures padded { OnOk result (PadsCols T.is_default 0 count self.old.rows self.new.rows) }
        ensures order { self.new.order ≡ self.old.order }
        ensures fails { PaddingFails (col_count self.old.rows) (row_count self.old.rows) count
            self.old self.new result }
    {
        self.pad_cols(0, count)
    }

    // Adds `count` rows of defaults before row `at`, and none to an empty grid. Adds the cells that move to the shift
    // count of the tally.
    pub(crate) fn pad_rows_counted(
        &mut self,
        at: usize,
        count: usize,
        tally: &mut Tally,
    ) -> Result<(), GridError>
    where
        T: Default,
        A: Clone,
        requires point { at ≤ row_count self.old.rows }
        ensures padded { OnOk result (PadsRows T.is_default at count self.old.rows self.new.rows) }
        ensures fails { PaddingFails (row_count self.old.rows) (col_count self.old.rows) count
            self.old self.new result }
        ensures order { self.new.order ≡ self.old.order }
        ensures shift { OnOk result
            (tally.new.shift ≡ saturating_count tally.old.shift (rows_added_shift self.old.order
            (row_count self.old.rows) (col_count self.old.rows) at count)) }
        ensures symmetry { tally.new.symmetry ≡ tally.old.symmetry }
        ensures err_shift { OnErr result (tally.new.shift ≡ tally.old.shift) }
    {
        let (rows, cols) = self.size();
        if count == 0 || rows == 0 {
            return Ok(());
        }
        if !fits_usize(rows, count, cols) {
            return Err(GridError::TooLarge);
        }
        self.flat.append_defaults(count * cols)?;
        let groups = row_groups(self.order, rows, cols, at, count);
        self.flat.open(groups, tally);
        self.row_count += count;
        Ok(())
    }

    // Adds `count` columns of defaults before column `at`, and none to an empty grid.
    fn pad_cols(&mut self, at: usize, count: usize) -> Result<(), GridError>
    where
        T: Default,
        A: Clone,
        requires point { at ≤ col_count self.old.rows }
        ensures padded { OnOk result (PadsCols T.is_default at count self.old.rows self.new.rows) }
        ensures fails { PaddingFails (col_count self.old.rows) (row_count self.old.rows) count
            self.old self.new result }
        ensures order { self.new.order ≡ self.old.order }
    {
        self.transpose();
        let padded = self.pad_rows_counted(at, count, &mut Tally::new());
        self.transpose();
        padded
    }
}
