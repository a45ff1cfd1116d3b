//! Grids that are appended to one another.
ghost use Rattle.std.specs.Prelude.{◌≡◌, ◌+◌, ◌<◌, ◌++◌, OnOk, Some};
ghost use Rattle.grid.specs.Prelude.{row_count, col_count, transposed, FitsRow, FitsCol, insert_cols, GridFails, fault_text};

use crate::{Grid, GridError};
use std::alloc::{Allocator, Global};
use std::fmt;

/// The error of a call that appends a grid: that grid, which comes back, and why. The grid to which it was to be
/// appended is unchanged.
#[derive(Drop)]
#[derive_where(Debug, PartialEq; T)]
pub struct GridRefused<T, A: Allocator = Global> {
    /// The grid, unchanged.
    pub grid: Grid<T, A>,
    /// Why it was refused.
    pub fault: GridError,
}

/// Writes the fault, and nothing of the grid.
impl<T, A: Allocator> fmt::Display for GridRefused<T, A> {
    ghost output = { λ refused. Some (fault_text refused.fault) };

    fn fmt<W: fmt::Write>(&self, f: &mut fmt::Formatter<W>) -> fmt::Result {
        fmt::Display::fmt(&self.fault, f)
    }
}

impl<T: fmt::Debug + Drop, A: Allocator> std::error::Error for GridRefused<T, A> {}

/// Returns the fault. The grid is dropped.
impl<T: Drop, A: Allocator> From<GridRefused<T, A>> for GridError {
    ghost from_gives = { λ refused e. e ≡ refused.fault };

    fn from(refused: GridRefused<T, A>) -> GridError {
        refused.fault
    }
}

impl<T, A: Allocator> Grid<T, A> {
    /// Appends the rows of another grid, of either order, after the last row. The order stays.
    ///
    ///     [[1, 2]]   append_rows([[3, 4], [5, 6]])   [[1, 2], [3, 4], [5, 6]]
    ///
    /// An empty grid changes nothing and takes no memory. Where this grid is empty, the rows become its rows.
    ///
    /// Requires: both have the same number of columns, or one is empty.
    /// Fails: `TooLarge` where the cells would exceed `usize::MAX`, else `Memory`, before the first change of this
    /// grid. The other comes back, and both are unchanged.
    /// Cost: row-major, time in the cells of the other, not counting a reallocation; column-major, time in the number
    /// of cells times log2(columns) + 1 at most. Where the orders differ, that of [`lay_out`](Grid::lay_out) of the
    /// other is added, twice where it is refused.
    pub fn append_rows(&mut self, other: Grid<T, A>) -> Result<(), GridRefused<T, A>>
        requires fits { 0 < row_count other.rows → FitsRow self.old.rows (col_count other.rows) }
        ensures rows { OnOk result (self.new.rows ≡ self.old.rows ++ other.rows) }
        ensures row_count { OnOk result
            (row_count self.new.rows ≡ row_count self.old.rows + row_count other.rows) }
        ensures col_count { OnOk result
            (0 < row_count self.old.rows → col_count self.new.rows ≡ col_count self.old.rows) }
        ensures other_cols { OnOk result
            (0 < row_count other.rows → col_count self.new.rows ≡ col_count other.rows) }
        ensures order { self.new.order ≡ self.old.order }
        ensures fails { GridFails (row_count self.old.rows + row_count other.rows)
            (col_count other.rows) other self.old self.new result }
    {
        let mut other = other;
        if other.is_empty() {
            other.into_vec().destroy_empty();
            return Ok(());
        }
        let order = other.order();
        other.lay_out(self.order());
        let end = self.rows();
        let (count, cols) = other.size();
        let mut cells = other.into_vec();
        match self.put_rows(end, count, cols, &mut cells) {
            Ok(()) => {
                cells.destroy_empty();
                Ok(())
            }
            Err(fault) => {
                let mut grid = Grid::from_vec_with_order(cells, cols, self.order());
                grid.lay_out(order);
                Err(GridRefused { grid, fault })
            }
        }
    }

    /// Appends the columns of another grid, of either order, after the last column. The order stays.
    ///
    ///     [[1], [2]]   append_cols([[3, 4], [5, 6]])   [[1, 3, 4], [2, 5, 6]]
    ///
    /// An empty grid changes nothing and takes no memory. Where this grid is empty, the columns become its columns.
    ///
    /// Requires: both have the same number of rows, or one is empty.
    /// Fails: as [`append_rows`](Grid::append_rows).
    /// Cost: that of [`append_rows`](Grid::append_rows), with the orders and the words row and column exchanged.
    pub fn append_cols(&mut self, other: Grid<T, A>) -> Result<(), GridRefused<T, A>>
        requires fits { 0 < col_count other.rows → FitsCol self.old.rows (row_count other.rows) }
        ensures rows { OnOk result (self.new.rows
            ≡ insert_cols (col_count self.old.rows) (transposed other.rows) self.old.rows) }
        ensures row_count { OnOk result
            (0 < col_count self.old.rows → row_count self.new.rows ≡ row_count self.old.rows) }
        ensures other_rows { OnOk result
            (0 < col_count other.rows → row_count self.new.rows ≡ row_count other.rows) }
        ensures col_count { OnOk result
            (col_count self.new.rows ≡ col_count self.old.rows + col_count other.rows) }
        ensures order { self.new.order ≡ self.old.order }
        ensures fails { GridFails (col_count self.old.rows + col_count other.rows)
            (row_count other.rows) other self.old self.new result }
    {
        let mut other = other;
        self.transpose();
        other.transpose();
        let appended = self.append_rows(other);
        self.transpose();
        match appended {
            Ok(()) => Ok(()),
            Err(mut refused) => {
                refused.grid.transpose();
                Err(refused)
            }
        }
    }
}
