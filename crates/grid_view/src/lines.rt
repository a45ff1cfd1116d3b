//! Iterators over a row or a column of a view, and over its rows and columns.
ghost use Rattle.std.specs.Prelude.{◌≡◌, ◌+◌, ◌<◌, ◌≤◌, ⊤, length, drop, slice_get, IfSome, MatchOption, Some, List};
ghost use Rattle.std.specs.List.{All};
ghost use Rattle.grid_base.specs.Prelude.{row, row_count, col_count, transposed, concat_rows, GivesLine, GivesLines};
ghost use Rattle.grid_base.specs.Remaining.{remaining, IsRemaining};
ghost use Rattle.grid_view.specs.Folded.{CallableOver, GoesOver};
ghost use Rattle.std.specs.Iterator.{YieldsFirst, YieldsLast, item_count, UpTo, at_most};
ghost use Rattle.std.specs.Iterator.SizeHint.{IsWithinCount};

use crate::fold::fold_row;
use crate::view::{GridView, row_start};
use grid_base::{GridLineIter, SteppedIter};
use std::alloc::AllocError;
use std::iter::FusedIterator;
use std::marker::Model;
use std::ops::Range;

/// An iterator over a row or a column of a view, from both ends. Each step takes the same time.
pub type ViewLineIter<'a, T> = GridLineIter<'a, T>;

impl<'a, T> GridView<'a, T> {
    /// Returns an iterator over the cells of row `r`, from both ends.
    ///
    ///     [[1, 2], [3, 4]]   iter_row(1)   3, 4
    ///
    /// Requires: `r` is in range.
    /// Cost: each step takes the same time; no memory.
    pub fn iter_row(&self, r: usize) -> ViewLineIter<'a, T>
        requires { r < row_count self.now.rows }
        ensures gives { GivesLine (row self.now.rows r) result }
        ensures len { length result ≡ col_count self.now.rows }
    {
        let start = row_start(self.rows, self.cols, self.cells.len(), r);
        let cols = self.cols;
        GridLineIter::over(self.cells, start, cols.count, cols.stride, cols.backwards)
    }

    // As `iter_row`, but a step tests only whether cells are left.
    pub(crate) fn step_row(&self, r: usize) -> SteppedIter<'a, T>
        requires { r < row_count self.now.rows }
        ensures { result ≡ row self.now.rows r }
    {
        let start = row_start(self.rows, self.cols, self.cells.len(), r);
        let cols = self.cols;
        SteppedIter::over(self.cells, start, cols.count, cols.stride, cols.backwards)
    }

    /// Returns an iterator over the cells of column `c`, from both ends.
    ///
    ///     [[1, 2], [3, 4]]   iter_col(1)   2, 4
    ///
    /// Requires: `c` is in range.
    /// Cost: each step takes the same time; no memory.
    pub fn iter_col(&self, c: usize) -> ViewLineIter<'a, T>
        requires { c < col_count self.now.rows }
        ensures gives { GivesLine (row (transposed self.now.rows) c) result }
        ensures len { length result ≡ row_count self.now.rows }
    {
        self.transposed().iter_row(c)
    }

    /// Same as [`iter_row`](GridView::iter_row), or `None` out of range.
    ///
    ///     [[1, 2], [3, 4]]   get_row(1)   Some of 3, 4
    ///     [[1, 2], [3, 4]]   get_row(2)   None
    pub fn get_row(&self, r: usize) -> Option<ViewLineIter<'a, T>>
        ensures in_range { MatchOption result (row_count self.now.rows ≤ r)
            (λ _. r < row_count self.now.rows) }
        ensures gives { IfSome result (GivesLine (row self.now.rows r)) }
        ensures len { IfSome result (λ line. length line ≡ col_count self.now.rows) }
    {
        if r < self.rows() {
            Some(self.iter_row(r))
        } else {
            None
        }
    }

    /// Same as [`iter_col`](GridView::iter_col), or `None` out of range.
    ///
    ///     [[1, 2], [3, 4]]   get_col(1)   Some of 2, 4
    ///     [[1, 2], [3, 4]]   get_col(2)   None
    pub fn get_col(&self, c: usize) -> Option<ViewLineIter<'a, T>>
        ensures in_range { MatchOption result (col_count self.now.rows ≤ c)
            (λ _. c < col_count self.now.rows) }
        ensures gives { IfSome result (GivesLine (row (transposed self.now.rows) c)) }
        ensures len { IfSome result (λ line. length line ≡ row_count self.now.rows) }
    {
        if c < self.cols() {
            Some(self.iter_col(c))
        } else {
            None
        }
    }

    /// Returns an iterator over the rows, from both ends, each as [`iter_row`](GridView::iter_row) gives it.
    ///
    ///     [[1, 2], [3, 4]]   iter_rows()   1, 2; then 3, 4
    pub fn iter_rows(&self) -> ViewRowIter<'a, T>
        ensures gives { GivesLines self.now.rows result }
        ensures widths { All (λ line. length line ≡ col_count self.now.rows) result }
    {
        ViewRowIter {
            view: self.view(),
            ahead: 0..self.rows.count,
        }
    }

    /// Returns an iterator over the columns, from both ends, each as [`iter_col`](GridView::iter_col) gives it.
    ///
    ///     [[1, 2], [3, 4]]   iter_cols()   1, 3; then 2, 4
    pub fn iter_cols(&self) -> ViewRowIter<'a, T>
        ensures gives { GivesLines (transposed self.now.rows) result }
        ensures heights { All (λ line. length line ≡ row_count self.now.rows) result }
    {
        self.transposed().iter_rows()
    }
}

/// An iterator over the rows of a view, from both ends, seen as the list of the rows that remain.
#[derive(Drop)]
pub struct ViewRowIter<'a, T> {
    view: GridView<'a, T>,
    // The indices of the rows that are left.
    ahead: Range<usize>,
}

impl<'a, T> Model for ViewRowIter<'a, T> {
    ghost Value = { List (List T) };

    ghost view = { λ a. remaining a.ahead.start a.ahead.end a.view.rows };

    ghost invariant = { λ a. IsRemaining a.ahead.start a.ahead.end (length a.view.rows) };
}

impl<'a, T> ViewRowIter<'a, T> {
    /// Skips `n` rows and returns the next, or `None` if fewer remain.
    ///
    ///     [[1, 2], [3, 4], [5, 6]]   iter_rows(), then nth(1)   3, 4; and 5, 6 remains
    ///
    /// Cost: the same time at every `n`.
    pub fn nth(&mut self, n: usize) -> Option<ViewLineIter<'a, T>>
        ensures item { result ≡ slice_get self.old n }
        ensures rest { self.new ≡ drop (n + 1) self.old }
    {
        let left = self.len().saturating_sub(n);
        self.ahead.start = self.ahead.end - left;
        self.next()
    }

    // As `next`, but a step along the row tests only whether cells are left.
    pub(crate) fn next_stepped(&mut self) -> Option<SteppedIter<'a, T>>
        ensures { YieldsFirst (λ rest. rest) self.old result self.new }
    {
        let number = self.ahead.next()?;
        Some(self.view.step_row(number))
    }

    // Returns the closure, and what it comes to from `init` on over the cells that are left, row by row.
    pub(crate) fn fold_cells<B, F: FnMut(B, &'a T) -> B>(self, init: B, f: F) -> (F, B)
        requires calls { CallableOver F.FnMut (f, init) (concat_rows self) }
        ensures { GoesOver F.FnMut (f, init) (concat_rows self.entry) (result.0, result.1) }
    {
        let ViewRowIter { view, ahead } = self;
        let mut at = (f, init);
        for r in ahead {
            at = fold_row(&view, r, at.1, at.0);
        }
        at
    }

    // As `next_back`, but a step along the row tests only whether cells are left.
    pub(crate) fn next_back_stepped(&mut self) -> Option<SteppedIter<'a, T>>
        ensures { YieldsLast (λ rest. rest) self.old result self.new }
    {
        let number = self.ahead.next_back()?;
        Some(self.view.step_row(number))
    }
}

impl<'a, T> Iterator for ViewRowIter<'a, T> {
    type Item = ViewLineIter<'a, T>;

    ghost next_gives = { YieldsFirst (λ rest. rest) };

    ghost remaining = { item_count (λ rest. rest) };

    fn next(&mut self) -> Option<ViewLineIter<'a, T>> {
        let r = self.ahead.next()?;
        Some(self.view.iter_row(r))
    }

    fn size_hint(&self) -> (usize, Option<usize>)
        ensures lower { IsWithinCount result.0 (at_most (length self.now)) }
        ensures upper { IfSome result.1 (UpTo (at_most (length self.now))) }
        ensures exact { result ≡ (length self.now, Some (length self.now)) }
    {
        let rows = self.len();
        (rows, Some(rows))
    }
}

impl<'a, T> DoubleEndedIterator for ViewRowIter<'a, T> {
    ghost next_back_gives = { YieldsLast (λ rest. rest) };

    fn next_back(&mut self) -> Option<ViewLineIter<'a, T>> {
        let r = self.ahead.next_back()?;
        Some(self.view.iter_row(r))
    }
}

impl<'a, T> ExactSizeIterator for ViewRowIter<'a, T> {
    fn len(&self) -> usize {
        self.ahead.len()
    }
}

impl<'a, T> FusedIterator for ViewRowIter<'a, T> {}

/// Returns an iterator over the same remaining rows.
///
/// Cost: constant; it is always `Ok`, and takes no memory.
impl<'a, T> Clone for ViewRowIter<'a, T> {
    ghost is_clone = { λ it copy. copy ≡ it };

    ghost is_infallible = { λ _. ⊤ };

    fn clone(&self) -> Result<Self, AllocError> {
        Ok(ViewRowIter {
            view: self.view.view(),
            ahead: self.ahead.start..self.ahead.end,
        })
    }
}
