//! Rows and columns that are pushed and inserted, one or several.
ghost use Rattle.std.specs.Prelude.{◌≡◌, ◌↔◌, ◌+◌, ◌*◌, ◌<◌, ◌≤◌, [], length, insert, All, OnOk, OnErr, IsErrOf, IsErrAnd};
ghost use Rattle.grid.specs.Prelude.{row_count, col_count, IsTable, items_of_each, table_of, FitsRow, FitsCol, insert_col, insert_rows, insert_cols, LineFails, LinesFail, ExceedsMax};

use super::{fits_usize, row_groups};
use crate::{Grid, GridError, LineRefused, LinesRefused};
use grid_commands::first_len;
use std::alloc::Allocator;

// Frees lines that have no cells left.
fn free_empty<T, A: Allocator>(lines: Vec<Vec<T, A>, A>)
    requires { All (λ line. line.items ≡ []) lines.items }
{
    let mut lines = lines;
    for _ in 0..lines.len() {
        if let Some(line) = lines.pop() {
            line.destroy_empty();
        }
    }
    lines.destroy_empty();
}

// Returns the error of a line that comes back. Out of line, so that a call that succeeds doesn't write one.
#[inline(never)]
fn refused_line<T, A: Allocator>(line: Vec<T, A>, fault: GridError) -> Result<(), LineRefused<T, A>>
    ensures { IsErrAnd result (λ refused.
        (refused.fault ≡ fault) × (refused.line.items ≡ line.items)) }
{
    Err(LineRefused { line, fault })
}

impl<T, A: Allocator> Grid<T, A> {
    /// Adds a row at the end. The order stays.
    ///
    ///     [[1, 2], [3, 4]]   push_row([5, 6])   [[1, 2], [3, 4], [5, 6]]
    ///
    /// Requires: the line is not empty, and has one cell for each column; into an empty grid any length fits.
    /// Fails: `TooLarge` where the cells would exceed `usize::MAX`, else `Memory`. The line comes back, and the grid is
    /// unchanged.
    /// Cost: row-major, time in the length of the line, not counting a reallocation; column-major, as
    /// [`insert_row`](Grid::insert_row).
    pub fn push_row(&mut self, line: Vec<T, A>) -> Result<(), LineRefused<T, A>>
        requires nonempty { 0 < length line.items }
        requires fits { FitsRow self.old.rows (length line.items) }
        ensures rows { OnOk result
            (self.new.rows ≡ insert self.old.rows (row_count self.old.rows) line.items) }
        ensures order { self.new.order ≡ self.old.order }
        ensures fails { LineFails (row_count self.old.rows) line.items self.old self.new result }
    {
        let at = self.rows();
        self.insert_row(at, line)
    }

    /// Adds a column at the end. The order stays.
    ///
    ///     [[1, 2], [3, 4]]   push_col([5, 6])   [[1, 2, 5], [3, 4, 6]]
    ///
    /// Requires: the line is not empty, and has one cell for each row; into an empty grid any length fits.
    /// Fails: `TooLarge` where the cells would exceed `usize::MAX`, else `Memory`. The line comes back, and the grid is
    /// unchanged.
    /// Cost: column-major, time in the length of the line, not counting a reallocation; row-major, as
    /// [`insert_col`](Grid::insert_col).
    pub fn push_col(&mut self, line: Vec<T, A>) -> Result<(), LineRefused<T, A>>
        requires nonempty { 0 < length line.items }
        requires fits { FitsCol self.old.rows (length line.items) }
        ensures rows { OnOk result
            (self.new.rows ≡ insert_col (col_count self.old.rows) line.items self.old.rows) }
        ensures row_count { OnOk result (row_count self.new.rows ≡ length line.items) }
        ensures col_count { OnOk result (col_count self.new.rows ≡ col_count self.old.rows + 1) }
        ensures order { self.new.order ≡ self.old.order }
        ensures fails { LineFails (col_count self.old.rows) line.items self.old self.new result }
    {
        let at = self.cols();
        self.insert_col(at, line)
    }

    /// Inserts a row before row `at`; at the end where `at` is the number of rows. The order stays.
    ///
    ///     [[1, 2], [3, 4]]   insert_row(1, [8, 9])   [[1, 2], [8, 9], [3, 4]]
    ///
    /// Requires: the line is not empty, and has one cell for each column; into an empty grid any length fits. `at`
    /// is at most the number of rows.
    /// Fails: `TooLarge` where the cells would exceed `usize::MAX`, else `Memory`. The line comes back, and the grid is
    /// unchanged.
    /// Cost: row-major, time in the number of cells; column-major, that times log2(columns) + 1 at most.
    pub fn insert_row(&mut self, at: usize, line: Vec<T, A>) -> Result<(), LineRefused<T, A>>
        requires nonempty { 0 < length line.items }
        requires fits { FitsRow self.old.rows (length line.items) }
        requires point { at ≤ row_count self.old.rows }
        ensures rows { OnOk result (self.new.rows ≡ insert self.old.rows at line.items) }
        ensures order { self.new.order ≡ self.old.order }
        ensures fails { LineFails (row_count self.old.rows) line.items self.old self.new result }
    {
        let mut line = line;
        let width = line.len();
        match self.put_rows(at, 1, width, &mut line) {
            Ok(()) => {
                line.destroy_empty();
                Ok(())
            }
            Err(fault) => refused_line(line, fault),
        }
    }

    /// Inserts a column before column `at`; at the end where `at` is the number of columns. The order stays.
    ///
    ///     [[1, 2], [3, 4]]   insert_col(1, [8, 9])   [[1, 8, 2], [3, 9, 4]]
    ///
    /// Requires: the line is not empty, and has one cell for each row; into an empty grid any length fits. `at` is
    /// at most the number of columns.
    /// Fails: `TooLarge` where the cells would exceed `usize::MAX`, else `Memory`. The line comes back, and the grid is
    /// unchanged.
    /// Cost: column-major, time in the number of cells; row-major, that times log2(rows) + 1 at most.
    pub fn insert_col(&mut self, at: usize, line: Vec<T, A>) -> Result<(), LineRefused<T, A>>
        requires nonempty { 0 < length line.items }
        requires fits { FitsCol self.old.rows (length line.items) }
        requires point { at ≤ col_count self.old.rows }
        ensures rows { OnOk result (self.new.rows ≡ insert_col at line.items self.old.rows) }
        ensures row_count { OnOk result (row_count self.new.rows ≡ length line.items) }
        ensures col_count { OnOk result (col_count self.new.rows ≡ col_count self.old.rows + 1) }
        ensures order { self.new.order ≡ self.old.order }
        ensures fails { LineFails (col_count self.old.rows) line.items self.old self.new result }
    {
        self.transpose();
        let inserted = self.insert_row(at, line);
        self.transpose();
        inserted
    }

    /// Inserts several rows before row `at`, in their order; at the end where `at` is the number of rows. The order of
    /// the grid stays.
    ///
    ///     [[1, 2], [3, 4]]   insert_rows(1, [[5, 6], [7, 8]])   [[1, 2], [5, 6], [7, 8], [3, 4]]
    ///
    /// An empty list changes nothing and takes no memory. Into an empty grid the lines become its rows.
    ///
    /// Requires: no line is empty, and each has one cell for each column; into an empty grid all have one length.
    /// `at` is at most the number of rows.
    /// Fails: `TooLarge` where the cells would exceed `usize::MAX`, else `Memory`, before the first change. The lines
    /// come back, and the grid is unchanged.
    /// Cost: row-major, time in the number of cells; column-major, that times log2(columns) + 1 at most.
    pub fn insert_rows(
        &mut self,
        at: usize,
        lines: Vec<Vec<T, A>, A>,
    ) -> Result<(), LinesRefused<T, A>>
        requires table { IsTable (items_of_each lines.items) }
        requires fits { 0 < length lines.items
            → FitsRow self.old.rows (col_count (items_of_each lines.items)) }
        requires point { at ≤ row_count self.old.rows }
        ensures rows { OnOk result
            (self.new.rows ≡ insert_rows at (items_of_each lines.items) self.old.rows) }
        ensures order { self.new.order ≡ self.old.order }
        ensures fails { LinesFail (row_count self.old.rows) lines.items self.old self.new result }
    {
        let mut lines = lines;
        let count = lines.len();
        if count == 0 {
            lines.destroy_empty();
            return Ok(());
        }
        let width = first_len(lines.as_slice());
        if !fits_usize(self.row_count, count, width) {
            return Err(LinesRefused {
                lines,
                fault: GridError::TooLarge,
            });
        }
        match self
            .flat
            .append_rows(self.order, width, lines.as_mut_slice())
        {
            Ok(()) => {
                free_empty(lines);
                let groups = row_groups(self.order, self.row_count, width, at, count);
                grid_base::weave(self.flat.as_mut_slice(), groups);
                self.row_count += count;
                self.col_count = width;
                Ok(())
            }
            Err(_) => Err(LinesRefused {
                lines,
                fault: GridError::Memory,
            }),
        }
    }

    /// Inserts several columns before column `at`, in their order; at the end where `at` is the number of columns. The
    /// order of the grid stays.
    ///
    ///     [[1, 2], [3, 4]]   insert_cols(1, [[5, 6], [7, 8]])   [[1, 5, 7, 2], [3, 6, 8, 4]]
    ///
    /// An empty list changes nothing and takes no memory. Into an empty grid the lines become its columns.
    ///
    /// Requires: no line is empty, and each has one cell for each row; into an empty grid all have one length.
    /// `at` is at most the number of columns.
    /// Fails: `TooLarge` where the cells would exceed `usize::MAX`, else `Memory`, before the first change. The lines
    /// come back, and the grid is unchanged.
    /// Cost: column-major, time in the number of cells; row-major, that times log2(rows) + 1 at most.
    pub fn insert_cols(
        &mut self,
        at: usize,
        lines: Vec<Vec<T, A>, A>,
    ) -> Result<(), LinesRefused<T, A>>
        requires table { IsTable (items_of_each lines.items) }
        requires fits { 0 < length lines.items
            → FitsCol self.old.rows (col_count (items_of_each lines.items)) }
        requires point { at ≤ col_count self.old.rows }
        ensures rows { OnOk result
            (self.new.rows ≡ insert_cols at (items_of_each lines.items) self.old.rows) }
        ensures row_count { OnOk result
            (0 < row_count self.old.rows → row_count self.new.rows ≡ row_count self.old.rows) }
        ensures col_count { OnOk result
            (col_count self.new.rows ≡ col_count self.old.rows + length lines.items) }
        ensures order { self.new.order ≡ self.old.order }
        ensures fails { LinesFail (col_count self.old.rows) lines.items self.old self.new result }
    {
        self.transpose();
        let inserted = self.insert_rows(at, lines);
        self.transpose();
        inserted
    }

    // Puts `count` rows of `width` cells before row `at`, which takes the cells. They come in storage order.
    pub(super) fn put_rows(
        &mut self,
        at: usize,
        count: usize,
        width: usize,
        cells: &mut Vec<T, A>,
    ) -> Result<(), GridError>
        requires point { at ≤ row_count self.old.rows }
        requires fits { FitsRow self.old.rows width }
        requires some { 0 < count }
        requires wide { 0 < width }
        requires cells { length cells.old.items ≡ count * width }
        ensures rows { OnOk result (self.new.rows ≡ insert_rows at
            (table_of self.old.order count width cells.old.items) self.old.rows) }
        ensures order { self.new.order ≡ self.old.order }
        ensures taken { OnOk result (cells.new.items ≡ []) }
        ensures too_large { IsErrOf result GridError.TooLarge
            ↔ ExceedsMax (row_count self.old.rows + count) width }
        ensures unchanged { OnErr result (self.new ≡ self.old) }
        ensures cells_stay { OnErr result (cells.new.items ≡ cells.old.items) }
    {
        if !fits_usize(self.row_count, count, width) {
            return Err(GridError::TooLarge);
        }
        self.flat.append(cells)?;
        let groups = row_groups(self.order, self.row_count, width, at, count);
        grid_base::weave(self.flat.as_mut_slice(), groups);
        self.row_count += count;
        self.col_count = width;
        Ok(())
    }
}
