//! The positions of a table's cells, one after another.
ghost use Rattle.std.specs.Prelude.{◌≡◌, ◌+◌, ◌<◌, ◌∷◌, length, min, slice_get, IfSome, Some};
ghost use Rattle.grid_base.specs.Prelude.{YieldsFirst, item_count, UpTo, at_most, IsWithinCount, positions_of, place, StandsAt};

use crate::{Layout, Order};
use std::marker::Model;

/// The rows and columns of a table's cells, in storage order, seen as the list of those that remain.
#[derive(Drop)]
pub struct Positions {
    layout: Layout,
    // The next cell.
    row: usize,
    col: usize,
}

impl Model for Positions {
    ghost use Rattle.std.specs.Prelude.{ℕ, List, drop};
    ghost use Rattle.grid_base.specs.Order.{place};
    ghost use Rattle.grid_base.specs.Positions.{StandsAt};
    ghost use Rattle.grid_base.specs.Layout.{positions_of};

    ghost Value = { List (ℕ × ℕ) };

    ghost view = { λ a. drop (place a.layout.order a.layout.rows a.layout.cols a.row a.col)
        (positions_of a.layout) };

    ghost invariant = { λ a. StandsAt a.layout.order a.layout.rows a.layout.cols a.row a.col };
}

// Returns the row and the column of the cell that is stored after that at a position. Nothing is divided, since a
// division would be most of a step.
fn place_after(layout: Layout, at: (usize, usize)) -> (usize, usize)
    requires row_in { at.0 < layout.rows }
    requires col_in { at.1 < layout.cols }
    ensures stands { StandsAt layout.order layout.rows layout.cols result.0 result.1 }
    ensures after { place layout.order layout.rows layout.cols result.0 result.1
        ≡ place layout.order layout.rows layout.cols at.0 at.1 + 1 }
{
    let (row, col) = at;
    match layout.order {
        Order::RowMajor if col + 1 < layout.cols => (row, col + 1),
        Order::RowMajor => (row + 1, 0),
        Order::ColumnMajor if row + 1 < layout.rows => (row + 1, col),
        Order::ColumnMajor => (0, col + 1),
    }
}

impl Positions {
    /// Returns the positions of the cells of a layout.
    ///
    ///     new(RowMajor, 2 by 2)   (0, 0), (0, 1), (1, 0), (1, 1)
    pub fn new(layout: Layout) -> Positions
        ensures { result ≡ positions_of layout }
    {
        Positions {
            layout,
            row: 0,
            col: 0,
        }
    }

    // Advances past the next position, without a test whether there is one. A loop that asks no more than this is
    // vectorised where nothing looks at the position.
    pub(super) fn pass(&mut self) -> (usize, usize)
        requires { 0 < length self.old }
        ensures { self.old ≡ result ∷ self.new }
    {
        let at = (self.row, self.col);
        let (row, col) = place_after(self.layout, at);
        self.row = row;
        self.col = col;
        at
    }

    // Returns the position that comes after the next `n`.
    pub(super) fn ahead(&self, n: usize) -> (usize, usize)
        requires { n < length self.now }
        ensures { slice_get self.now n ≡ Some result }
    {
        let (_, width) = self.layout.lines();
        let number = self.layout.len() - (self.len() - n);
        self.layout.at(number / width, number % width)
    }

    // Returns the positions that remain, once more.
    pub(super) fn again(&self) -> Positions
        ensures { result ≡ self.now }
    {
        Positions {
            layout: self.layout,
            row: self.row,
            col: self.col,
        }
    }

    /// Returns how many remain.
    pub fn len(&self) -> usize
        ensures { result ≡ length self.now }
    {
        let layout = self.layout;
        let passed = match layout.order {
            Order::RowMajor => self.row * layout.cols + self.col,
            Order::ColumnMajor => self.col * layout.rows + self.row,
        };
        layout.len() - passed
    }

    /// Returns the exact size hint of an iterator over these positions, each with one of `cells` cells.
    pub fn hint(&self, cells: usize) -> (usize, Option<usize>)
        ensures { result ≡ (min (length self.now) cells, Some (min (length self.now) cells)) }
    {
        let len = self.len().min(cells);
        (len, Some(len))
    }
}

impl Iterator for Positions {
    type Item = (usize, usize);

    ghost next_gives = { YieldsFirst (λ rest. rest) };

    ghost remaining = { item_count (λ rest. rest) };

    fn next(&mut self) -> Option<(usize, usize)> {
        if self.row < self.layout.rows && self.col < self.layout.cols {
            Some(self.pass())
        } else {
            None
        }
    }

    fn size_hint(&self) -> (usize, Option<usize>)
        ensures lower { IsWithinCount result.0 (at_most (length self.now)) }
        ensures upper { IfSome result.1 (UpTo (at_most (length self.now))) }
        ensures exact { result ≡ (length self.now, Some (length self.now)) }
    {
        let len = self.len();
        (len, Some(len))
    }
}
