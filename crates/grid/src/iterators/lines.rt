//! Iterators over one row or column, and over the rows and the columns. Those that only read are a view's.
ghost use Rattle.std.specs.Prelude.{◌≡◌, ◌<◌, ◌≤◌, length, IfSome, MatchOption};
ghost use Rattle.std.specs.List.{All};
ghost use Rattle.grid.specs.Prelude.{row, row_count, col_count, transposed, GivesLine, GivesLines, line_mut_rest, sem};

use crate::Grid;
use grid_base::{GridLineIter, GridLineIterMut, Layout};
use grid_view::ViewRowIter;
use std::alloc::Allocator;

/// An iterator over the rows of a grid, from both ends, seen as the list of the rows that remain.
pub type GridRowIter<'a, T> = ViewRowIter<'a, T>;

/// An iterator over the columns of a grid, from both ends, seen as the list of the columns that remain.
pub type GridColIter<'a, T> = GridRowIter<'a, T>;

impl<T, A: Allocator> Grid<T, A> {
    ghost use Rattle.grid.specs.Iterators.{lends_row, lends_col, KeepsSizeFrom, HoldsRowsFrom};

    /// Returns an iterator over the cells of row `r`, from both ends.
    ///
    ///     [[1, 2], [3, 4]]   iter_row(1)   3, 4
    ///
    /// Requires: `r` is in range.
    /// Cost: each step takes the same time, in either order.
    pub fn iter_row(&self, r: usize) -> GridLineIter<'_, T>
        requires { r < row_count self.now.rows }
        ensures gives { GivesLine (row self.now.rows r) result }
        ensures len { length result ≡ col_count self.now.rows }
    {
        self.view().iter_row(r)
    }

    /// Returns an iterator over the cells of column `c`, from both ends.
    ///
    ///     [[1, 2], [3, 4]]   iter_col(1)   2, 4
    ///
    /// Requires: `c` is in range.
    /// Cost: each step takes the same time, in either order.
    pub fn iter_col(&self, c: usize) -> GridLineIter<'_, T>
        requires { c < col_count self.now.rows }
        ensures gives { GivesLine (row (transposed self.now.rows) c) result }
        ensures len { length result ≡ row_count self.now.rows }
    {
        self.view().iter_col(c)
    }

    /// Same as [`iter_row`](Grid::iter_row), or `None` out of range.
    ///
    ///     [[1, 2], [3, 4]]   get_row(1)   Some of 3, 4
    ///     [[1, 2], [3, 4]]   get_row(2)   None
    pub fn get_row(&self, r: usize) -> Option<GridLineIter<'_, T>>
        ensures in_range { MatchOption result (row_count self.now.rows ≤ r)
            (λ _. r < row_count self.now.rows) }
        ensures gives { IfSome result (GivesLine (row self.now.rows r)) }
        ensures len { IfSome result (λ line. length line ≡ col_count self.now.rows) }
    {
        if r < self.rows() {
            Some(self.iter_row(r))
        } else {
            None
        }
    }

    /// Same as [`iter_col`](Grid::iter_col), or `None` out of range.
    ///
    ///     [[1, 2], [3, 4]]   get_col(1)   Some of 2, 4
    ///     [[1, 2], [3, 4]]   get_col(2)   None
    pub fn get_col(&self, c: usize) -> Option<GridLineIter<'_, T>>
        ensures in_range { MatchOption result (col_count self.now.rows ≤ c)
            (λ _. c < col_count self.now.rows) }
        ensures gives { IfSome result (GivesLine (row (transposed self.now.rows) c)) }
        ensures len { IfSome result (λ line. length line ≡ row_count self.now.rows) }
    {
        if c < self.cols() {
            Some(self.iter_col(c))
        } else {
            None
        }
    }

    /// Returns an iterator over the cells of row `r`, for writing. The size and the order stay.
    ///
    ///     [[1, 2], [3, 4]]   for cell in iter_row_mut(1) { *cell = 0 }   [[1, 2], [0, 0]]
    ///
    /// Requires: `r` is in range.
    /// Cost: each step takes the same time, in either order.
    pub fn iter_row_mut(&mut self, r: usize) -> GridLineIterMut<'_, T>
        requires { r < row_count self.old.rows }
        ensures* writes_back { sem 𝓛 (lends_row T.row A.row A.Allocator self.entry r result) }
        ensures keeps { KeepsSizeFrom self.old r 0 }
        ensures rest { line_mut_rest result ≡ row self.old.rows r }
        ensures cells { HoldsRowsFrom self.old r 0 result }
    {
        let (order, rows, cols) = (self.order, self.row_count, self.col_count);
        self.flat.row_mut(Layout { order, rows, cols }, r)
    }

    /// Returns an iterator over the cells of column `c`, for writing. The size and the order stay.
    ///
    ///     [[1, 2], [3, 4]]   for cell in iter_col_mut(1) { *cell = 0 }   [[1, 0], [3, 0]]
    ///
    /// Requires: `c` is in range.
    /// Cost: each step takes the same time, in either order.
    pub fn iter_col_mut(&mut self, c: usize) -> GridLineIterMut<'_, T>
        requires { c < col_count self.old.rows }
        ensures* writes_back { sem 𝓛 (lends_col T.row A.row A.Allocator self.entry c result) }
        ensures keeps { KeepsSizeFrom self.old 0 c }
        ensures rest { line_mut_rest result ≡ row (transposed self.old.rows) c }
        ensures cells { HoldsRowsFrom self.old 0 c result }
    {
        let (order, rows, cols) = (self.order.flipped(), self.col_count, self.row_count);
        self.flat.row_mut(Layout { order, rows, cols }, c)
    }

    /// Returns an iterator over the rows, from both ends, each as [`iter_row`](Grid::iter_row) gives it.
    ///
    ///     [[1, 2], [3, 4]]   iter_rows()   1, 2; then 3, 4
    pub fn iter_rows(&self) -> GridRowIter<'_, T>
        ensures gives { GivesLines self.now.rows result }
        ensures widths { All (λ line. length line ≡ col_count self.now.rows) result }
    {
        self.view().iter_rows()
    }

    /// Returns an iterator over the columns, from both ends, each as [`iter_col`](Grid::iter_col) gives it.
    ///
    ///     [[1, 2], [3, 4]]   iter_cols()   1, 3; then 2, 4
    pub fn iter_cols(&self) -> GridColIter<'_, T>
        ensures gives { GivesLines (transposed self.now.rows) result }
        ensures heights { All (λ line. length line ≡ row_count self.now.rows) result }
    {
        self.view().iter_cols()
    }
}
