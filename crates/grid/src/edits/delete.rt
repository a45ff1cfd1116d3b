//! Rows and columns that are deleted, one or several: the lines are dropped, and a command counts the moves.
ghost use Rattle.std.specs.Prelude.{◌≡◌, ◌↔◌, ◌+◌, ◌-◌, ◌<◌, ◌≤◌, remove, IsTrue, if◌then◌else◌};
ghost use Rattle.grid.specs.Prelude.{row_count, col_count, saturating_count, without_rows, without_cols, rows_taken_shift, delete_rows_shift};

use super::{cols_if_rows, row_groups};
use crate::Grid;
use grid_base::{Tally, has_lines};
use std::alloc::Allocator;

impl<T, A: Allocator> Grid<T, A> {
    /// Drops row `at`, and returns whether there was one; if not, nothing changes. The order stays. Deleting the only
    /// row leaves the size (0, 0).
    ///
    ///     [[1, 2], [3, 4]]   delete_row(0)   true   [[3, 4]]
    ///
    /// Cost: one pass over the cells that move; no memory.
    pub fn delete_row(&mut self, at: usize) -> bool
    where
        T: Drop,
        ensures found { IsTrue result ↔ (at < row_count self.old.rows) }
        ensures rows { self.new.rows ≡ (if result then remove self.old.rows at else self.old.rows) }
        ensures order { self.new.order ≡ self.old.order }
    {
        self.delete_rows(at, 1)
    }

    /// Drops column `at`, and returns whether there was one; if not, nothing changes. The order stays. Deleting the
    /// only column leaves the size (0, 0).
    ///
    ///     [[1, 2], [3, 4]]   delete_col(0)   true   [[2], [4]]
    ///
    /// Cost: one pass over the cells that move; no memory.
    pub fn delete_col(&mut self, at: usize) -> bool
    where
        T: Drop,
        ensures found { IsTrue result ↔ (at < col_count self.old.rows) }
        ensures rows { self.new.rows
            ≡ (if result then without_cols at 1 self.old.rows else self.old.rows) }
        ensures row_count { 0 < col_count self.new.rows
            → row_count self.new.rows ≡ row_count self.old.rows }
        ensures col_count { col_count self.new.rows
            ≡ (if result then col_count self.old.rows - 1 else col_count self.old.rows) }
        ensures order { self.new.order ≡ self.old.order }
    {
        self.delete_cols(at, 1)
    }

    /// Drops `count` rows from row `start` on, and returns whether they were all there; if not, nothing changes. The
    /// order stays. Deleting all rows leaves the size (0, 0).
    ///
    ///     [[1, 2], [3, 4], [5, 6]]   delete_rows(0, 2)   true   [[5, 6]]
    ///
    /// Cost: one pass over the cells that move; no memory.
    pub fn delete_rows(&mut self, start: usize, count: usize) -> bool
    where
        T: Drop,
        ensures found { IsTrue result ↔ (start + count ≤ row_count self.old.rows) }
        ensures rows { self.new.rows
            ≡ (if result then without_rows start count self.old.rows else self.old.rows) }
        ensures order { self.new.order ≡ self.old.order }
    {
        let rows = self.rows();
        let found = has_lines(rows, start, count);
        if found && count != 0 {
            self.drop_rows(start, count);
        }
        found
    }

    /// Drops `count` columns from column `start` on, and returns whether they were all there; if not, nothing changes.
    /// The order stays. Deleting all columns leaves the size (0, 0).
    ///
    ///     [[1, 2, 3], [4, 5, 6]]   delete_cols(0, 2)   true   [[3], [6]]
    ///
    /// Cost: one pass over the cells that move; no memory.
    pub fn delete_cols(&mut self, start: usize, count: usize) -> bool
    where
        T: Drop,
        ensures found { IsTrue result ↔ (start + count ≤ col_count self.old.rows) }
        ensures rows { self.new.rows
            ≡ (if result then without_cols start count self.old.rows else self.old.rows) }
        ensures row_count { 0 < col_count self.new.rows
            → row_count self.new.rows ≡ row_count self.old.rows }
        ensures col_count { col_count self.new.rows
            ≡ (if result then col_count self.old.rows - count else col_count self.old.rows) }
        ensures order { self.new.order ≡ self.old.order }
    {
        self.transpose();
        let found = self.delete_rows(start, count);
        self.transpose();
        found
    }

    // As `delete_rows`, and adds the cells that stay and move to the shift count of the tally.
    pub(crate) fn delete_rows_counted(
        &mut self,
        start: usize,
        count: usize,
        tally: &mut Tally,
    ) -> bool
    where
        T: Drop,
        ensures found { IsTrue result ↔ (start + count ≤ row_count self.old.rows) }
        ensures rows { self.new.rows
            ≡ (if result then without_rows start count self.old.rows else self.old.rows) }
        ensures order { self.new.order ≡ self.old.order }
        ensures shift { tally.new.shift ≡ saturating_count tally.old.shift (delete_rows_shift
            self.old.order (row_count self.old.rows) (col_count self.old.rows) start count) }
        ensures symmetry { tally.new.symmetry ≡ tally.old.symmetry }
    {
        let rows = self.rows();
        let found = has_lines(rows, start, count);
        if found && count != 0 {
            self.drop_rows_counted(start, count, tally);
        }
        found
    }

    // Drops `count` rows, at least one, from row `start` on; all are in range.
    fn drop_rows(&mut self, start: usize, count: usize)
    where
        T: Drop,
        requires within { start + count ≤ row_count self.old.rows }
        requires some { 0 < count }
        ensures rows { self.new.rows ≡ without_rows start count self.old.rows }
        ensures order { self.new.order ≡ self.old.order }
    {
        let rest = self.row_count - count;
        let groups = row_groups(self.order, rest, self.col_count, start, count);
        self.flat.drop_groups(groups);
        self.row_count = rest;
        self.col_count = cols_if_rows(rest, self.col_count);
    }

    // As `drop_rows`, and adds the cells that stay and move to the shift count of the tally.
    fn drop_rows_counted(&mut self, start: usize, count: usize, tally: &mut Tally)
    where
        T: Drop,
        requires within { start + count ≤ row_count self.old.rows }
        requires some { 0 < count }
        ensures rows { self.new.rows ≡ without_rows start count self.old.rows }
        ensures order { self.new.order ≡ self.old.order }
        ensures shift { tally.new.shift ≡ saturating_count tally.old.shift (rows_taken_shift
            self.old.order (row_count self.old.rows) (col_count self.old.rows) start count) }
        ensures symmetry { tally.new.symmetry ≡ tally.old.symmetry }
    {
        let rest = self.row_count - count;
        let groups = row_groups(self.order, rest, self.col_count, start, count);
        self.flat.close_up(groups, tally);
        self.row_count = rest;
        self.col_count = cols_if_rows(rest, self.col_count);
    }
}
