//! The two orders in which a grid keeps its cells.
ghost use Rattle.std.specs.Prelude.{◌≡◌, ◌*◌, ◌^◌, ◌<◌};

/// The order of the cells in a grid's vector.
#[derive(Clone, Copy, Debug, Default, PartialEq, Eq, Hash)]
pub enum Order {
    /// Row by row: cell (r, c) is at `r * cols + c`.
    #[default]
    RowMajor,
    /// Column by column: cell (r, c) is at `c * rows + r`.
    ColumnMajor,
}

impl Order {
    ghost use Rattle.grid_base.specs.Order.{flipped, place};

    /// Returns the other order. In it the same vector stores the transposed table.
    pub fn flipped(self) -> Order
        ensures { result ≡ flipped self }
    {
        match self {
            Order::RowMajor => Order::ColumnMajor,
            Order::ColumnMajor => Order::RowMajor,
        }
    }

    /// Returns where the storage of a table of `rows` rows and `cols` columns has the cell in a row and a column.
    ///
    /// Requires: the position is in range, and the table has at most `usize::MAX` cells.
    pub fn place(self, rows: usize, cols: usize, row: usize, col: usize) -> usize
        requires fits { rows * cols < 2 ^ 64 }
        requires row_in { row < rows }
        requires col_in { col < cols }
        ensures { result ≡ place self rows cols row col }
    {
        match self {
            Order::RowMajor => row * cols + col,
            Order::ColumnMajor => col * rows + row,
        }
    }
}
