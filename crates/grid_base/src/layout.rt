//! How a slice stores the cells of a table.
ghost use Rattle.std.specs.Prelude.{◌≡◌, ◌+◌, ◌*◌, ◌^◌, ◌<◌, ◌≤◌, ◌↔◌, IsTrue};
ghost use Rattle.grid_base.specs.Positions.{along};
ghost use Rattle.grid_base.specs.Strides.{strides_of};
ghost use Rattle.grid_base.specs.Table.{IsSize};

use crate::Order;

/// A table's size and the order in which a slice stores its cells.
///
/// There are rows exactly if there are columns, and at most `usize::MAX` cells.
#[derive(Clone, Copy)]
pub struct Layout {
    pub order: Order,
    pub rows: usize,
    pub cols: usize,
    pub ghost fits: { rows * cols < 2 ^ 64 },
    pub ghost size: { IsSize rows cols },
}

impl Layout {
    /// Returns the number of cells.
    pub fn len(self) -> usize
        ensures { result ≡ self.rows * self.cols }
    {
        self.rows * self.cols
    }

    /// Returns the number of lines along the storage, rows or columns, and their length.
    pub fn lines(self) -> (usize, usize)
        ensures { result ≡ along self.order self.rows self.cols }
    {
        match self.order {
            Order::RowMajor => (self.rows, self.cols),
            Order::ColumnMajor => (self.cols, self.rows),
        }
    }

    /// Returns the row and the column of a place in a line along the storage.
    pub fn at(self, line: usize, place: usize) -> (usize, usize)
        ensures { result ≡ along self.order line place }
    {
        match self.order {
            Order::RowMajor => (line, place),
            Order::ColumnMajor => (place, line),
        }
    }
}

/// Returns how far apart in its storage the cells of a column are, and those of a row, in a table of this size.
pub fn strides_of(order: Order, size: (usize, usize)) -> (usize, usize)
    ensures { result ≡ strides_of order size }
{
    match order {
        Order::RowMajor => (size.1, 1),
        Order::ColumnMajor => (1, size.0),
    }
}

/// Returns whether `count` lines from line `start` on are all among the first `lines`.
pub fn has_lines(lines: usize, start: usize, count: usize) -> bool
    ensures { IsTrue result ↔ (start + count ≤ lines) }
{
    start <= lines && count <= lines - start
}
