//! A part of a board for writing, over the slice that stores the board.
ghost use Rattle.std.specs.Prelude.{◌≡◌, ◌+◌, ◌*◌, ◌<◌, ◌≤◌, ◌⊎◌, length, IfSome, MatchOption, option_copied};
ghost use Rattle.grid_base.specs.Prelude.{row_count, col_count, cell, with_cell, InRange, place, table_of};
ghost use Rattle.grid_view.specs.Part.{IsPart};

use crate::as_view::AsView;
use crate::view::GridView;
use grid_base::Layout;
use std::mem;

/// A part of a board, for writing, without a copy of its cells.
///
/// It holds the slice of the cells, the size and the order of the board, and the position and the size of the part, by
/// value. What was written is in the board once the value ends.
// It has no model, and a `drop` that says what it leaves, so that a contract can follow the loan.
pub struct GridViewMut<'a, T> {
    cells: &'a mut [T],
    board: Layout,
    at: (usize, usize),
    size: (usize, usize),
    ghost stored: { length cells.now ≡ board.rows * board.cols },
    ghost within: { IsPart board.rows board.cols at size },
}

impl<'a, T> GridViewMut<'a, T> {
    ghost use Rattle.grid_view.specs.ViewMut.{lender, board_cells, board_layout, board_rows, part_at, part_size, part_rows, IsSamePart};

    /// Returns the part of `size.0` rows and `size.1` columns, from position `at` on, of the board that a slice stores
    /// in this layout. Without rows or without columns it is empty.
    ///
    ///     [1, 2, 3, 4, 5, 6]   over(RowMajor, 2 by 3, (0, 1), (2, 2))   [[2, 3], [5, 6]]
    ///
    /// Requires: the slice has as many cells as the layout, and the part is within the board.
    /// Cost: constant; no memory.
    pub fn over(
        cells: &'a mut [T],
        board: Layout,
        at: (usize, usize),
        size: (usize, usize),
    ) -> GridViewMut<'a, T>
        requires stored { length cells.old ≡ board.rows * board.cols }
        requires rows_in { at.0 + size.0 ≤ board.rows }
        requires cols_in { at.1 + size.1 ≤ board.cols }
        ensures same_reference { lender result ≡ cells.entry.ghost_name }
        ensures cells { board_cells result ≡ cells.old }
        ensures board { board_rows result ≡ table_of board.order board.rows board.cols cells.old }
        ensures layout { board_layout result ≡ board }
        ensures at { part_at result ≡ at }
        ensures some { 0 < size.0 → 0 < size.1 → part_size result ≡ size }
        ensures none { (size.0 ≡ 0) ⊎ (size.1 ≡ 0) → part_size result ≡ (0, 0) }
    {
        let size = if size.0 == 0 || size.1 == 0 {
            (0, 0)
        } else {
            size
        };
        GridViewMut {
            cells,
            board,
            at,
            size,
        }
    }

    /// Returns the number of rows and the number of columns.
    ///
    ///     [[1, 2, 3], [4, 5, 6]]   size()   (2, 3)
    pub fn size(&self) -> (usize, usize)
        ensures size { result ≡ part_size self.now }
        ensures rows { result.0 ≡ row_count (part_rows self.now) }
        ensures cols { result.1 ≡ col_count (part_rows self.now) }
    {
        (self.size.0, self.size.1)
    }

    // Returns the place of the cell in a row and a column of the part.
    fn place(&self, row: usize, col: usize) -> usize
        requires row_in { row < self.now.size.0 }
        requires col_in { col < self.now.size.1 }
        ensures place { result ≡ place self.now.board.order self.now.board.rows self.now.board.cols
            (self.now.at.0 + row) (self.now.at.1 + col) }
        ensures within { result < length self.now.cells.now }
    {
        let board = self.board;
        board
            .order
            .place(board.rows, board.cols, self.at.0 + row, self.at.1 + col)
    }

    /// Returns the cell in a row and a column, or `None` out of range.
    ///
    ///     [[1, 2], [3, 4]]   get(0, 1)   Some(2)
    ///
    /// Cost: constant.
    pub fn get(&self, row: usize, col: usize) -> Option<&T>
        ensures cell { option_copied result ≡ cell (part_rows self.now) row col }
        ensures in_range { IfSome result (λ _. InRange (part_rows self.now) row col) }
    {
        if row < self.size.0 && col < self.size.1 {
            let place = self.place(row, col);
            let cells = &*self.cells;
            Some(&cells[place])
        } else {
            None
        }
    }

    /// Writes a cell, and returns the one that was there. Returns `None` exactly out of range, where nothing changes
    /// and the value is dropped.
    ///
    ///     [[1, 2], [3, 4]]   set(1, 0, 9)   Some(3)   [[1, 2], [9, 4]]
    ///     [[1, 2], [3, 4]]   set(2, 0, 9)   None      [[1, 2], [3, 4]]
    ///
    /// Cost: constant; no memory.
    pub fn set(&mut self, row: usize, col: usize, value: T) -> Option<T>
    where
        T: Drop,
        ensures cell { result ≡ cell (part_rows self.old) row col }
        ensures in_range { MatchOption result (InRange (part_rows self.old) row col → ⊥)
            (λ _. InRange (part_rows self.old) row col) }
        ensures rows { MatchOption result (part_rows self.new ≡ part_rows self.old)
            (λ _. part_rows self.new ≡ with_cell (part_rows self.old) row col value) }
        ensures board { MatchOption result (board_rows self.new ≡ board_rows self.old)
            (λ _. board_rows self.new ≡ with_cell (board_rows self.old)
            ((part_at self.old).0 + row) ((part_at self.old).1 + col) value) }
        ensures same_reference { lender self.new ≡ lender self.old }
        ensures same { IsSamePart self.old self.new }
    {
        if row < self.size.0 && col < self.size.1 {
            let place = self.place(row, col);
            let cells = &mut *self.cells;
            Some(mem::replace(&mut cells[place], value))
        } else {
            None
        }
    }

    /// Same as [`set`](GridViewMut::set), at a position.
    ///
    ///     [[1, 2], [3, 4]]   set_at((1, 0), 9)   Some(3)   [[1, 2], [9, 4]]
    pub fn set_at(&mut self, at: (usize, usize), value: T) -> Option<T>
    where
        T: Drop,
        ensures cell { result ≡ cell (part_rows self.old) at.0 at.1 }
        ensures in_range { MatchOption result (InRange (part_rows self.old) at.0 at.1 → ⊥)
            (λ _. InRange (part_rows self.old) at.0 at.1) }
        ensures rows { MatchOption result (part_rows self.new ≡ part_rows self.old)
            (λ _. part_rows self.new ≡ with_cell (part_rows self.old) at.0 at.1 value) }
        ensures board { MatchOption result (board_rows self.new ≡ board_rows self.old)
            (λ _. board_rows self.new ≡ with_cell (board_rows self.old)
            ((part_at self.old).0 + at.0) ((part_at self.old).1 + at.1) value) }
        ensures same_reference { lender self.new ≡ lender self.old }
        ensures same { IsSamePart self.old self.new }
    {
        self.set(at.0, at.1, value)
    }

    /// Returns a view of the part, for reading.
    ///
    /// Cost: constant; no cell is copied, and no memory is taken.
    pub fn view(&self) -> GridView<'_, T>
        ensures { result.rows ≡ part_rows self.now }
    {
        let board = self.board;
        let all = GridView::over(self.cells, board.order, board.rows, board.cols);
        all.part(self.at, self.size)
    }
}

/// The cells stay as they are.
impl<'a, T> Drop for GridViewMut<'a, T> {
    ghost use Rattle.grid_view.specs.ViewMut.{board_cells};

    fn drop(self)
        ensures { self.exit.0.now ≡ board_cells self.entry }
    {
        let GridViewMut {
            cells: _,
            board: _,
            at: _,
            size: _,
        } = self;
    }
}

/// A part for writing lends its rows.
impl<'a, T> AsView<T> for GridViewMut<'a, T> {
    ghost use Rattle.grid_view.specs.ViewMut.{part_rows};
    ghost use Rattle.grid_view.specs.Part.{IsTable-shown};

    ghost rows = { part_rows };

    ghost table = { λ v. IsTable-shown v.board v.cells.now v.stored v.at v.size v.within };

    fn as_view(&self) -> GridView<'_, T> {
        self.view()
    }
}
