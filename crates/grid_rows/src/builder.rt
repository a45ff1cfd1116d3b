//! The builder of rows.
ghost use Rattle.std.specs.Prelude.{◌≡◌, ◌++◌, [], ◌∷◌, IfOk, IfErr, None, Some};
ghost use Rattle.grid.specs.Prelude.{concat_rows, equal_rows};
ghost use Rattle.grid_rows.specs.Builder.{EndsRow, with_cells};

use grid::{Grid, Order, ShapeError};
use std::alloc::{AllocError, Allocator, Global};
use std::marker::Model;

/// Rows that are read cell by cell: [`push`](RowsBuilder::push) adds a cell to the open row,
/// [`end_row`](RowsBuilder::end_row) ends it and opens the next, [`into_grid`](RowsBuilder::into_grid) makes the grid.
///
///     push(1), push(2), end_row(), push(3), push(4), end_row(), into_grid()   [[1, 2], [3, 4]]
///
/// A contract sees the rows that were ended, the cells of the open row, and how many cells each row has to have, once
/// that is known.
#[derive(Drop)]
pub struct RowsBuilder<T, A: Allocator = Global> {
    // Row after row, and the open row last.
    cells: Vec<T, A>,
    // How many rows were ended, and where the open row starts.
    row_count: usize,
    start: usize,
    cols: Option<usize>,
}

impl<T, A: Allocator> Model for RowsBuilder<T, A> {
    ghost use Rattle.grid_rows.specs.Rows.{RowsValue, Stands, rows_value};

    ghost Value = { RowsValue T };

    ghost view = { λ b. rows_value b.cols b.row_count b.start b.cells.items };

    ghost invariant = { λ b. Stands b.cols b.row_count b.start b.cells.items };
}

impl<T, A: Allocator> RowsBuilder<T, A> {
    /// Returns a builder without rows. The first row says how many cells each has to have.
    ///
    /// Cost: constant; no memory.
    pub fn new(alloc: A) -> RowsBuilder<T, A>
        ensures { result ≡ record { cols = None; rows = []; cells = [] } }
    {
        RowsBuilder {
            cells: Vec::new(alloc),
            row_count: 0,
            start: 0,
            cols: None,
        }
    }

    /// Same as [`new`](RowsBuilder::new), but each row has to have `cols` cells, also the first: of records below a
    /// header.
    pub fn with_cols(alloc: A, cols: usize) -> RowsBuilder<T, A>
        ensures { result ≡ record { cols = Some cols; rows = []; cells = [] } }
    {
        RowsBuilder {
            cells: Vec::new(alloc),
            row_count: 0,
            start: 0,
            cols: Some(cols),
        }
    }

    /// Adds a cell to the open row.
    ///
    /// Fails: if allocation fails; the builder is unchanged, and the cell is dropped.
    /// Cost: that of `Vec::push`.
    pub fn push(&mut self, cell: T) -> Result<(), AllocError>
    where
        T: Drop,
        ensures pushed { IfOk result (λ _. self.new ≡ with_cells self.old (cell ∷ [])) }
        ensures unchanged { IfErr result (λ _. self.new ≡ self.old) }
    {
        self.cells.push(cell)?;
        Ok(())
    }

    /// Ends the open row, and opens the next.
    ///
    ///     [[1, 2]], open [3, 4]   end_row()   Ok, [[1, 2], [3, 4]], open []
    ///     [[1, 2]], open [3]      end_row()   Ragged { row: 1, len: 1, cols: 2 }
    ///
    /// Fails: `Ragged` where the row has not as many cells as it has to; else `TooLarge` where `usize::MAX` rows were
    /// ended, possible only of rows without cells. No other error comes. The builder is unchanged: the row stays open.
    /// Cost: constant; no memory.
    pub fn end_row(&mut self) -> Result<(), ShapeError>
        ensures { EndsRow self.old self.new result }
    {
        let len = self.cells.len() - self.start;
        let cols = self.cols.unwrap_or(len);
        if cols != len {
            return Err(ShapeError::Ragged {
                row: self.row_count,
                len,
                cols,
            });
        }
        if self.row_count == usize::MAX {
            return Err(ShapeError::TooLarge);
        }
        self.row_count += 1;
        self.start += len;
        self.cols = Some(len);
        Ok(())
    }

    /// Returns the row-major grid of the rows that were ended. Cells of the open row are dropped. Rows without cells
    /// give the empty grid.
    ///
    ///     [[1, 2], [3, 4]], open [5]   into_grid()   [[1, 2], [3, 4]]
    ///
    /// Cost: that of dropping the cells of the open row; the vector is kept, and no memory is taken.
    pub fn into_grid(self) -> Grid<T, A>
    where
        T: Drop,
        ensures rows { result.rows ≡ equal_rows self.rows }
        ensures order { result.order ≡ Order.RowMajor }
    {
        let cols = self.cols.unwrap_or(0);
        let mut cells = self.cells;
        cells.truncate(self.start);
        Grid::from_vec(cells, cols)
    }

    /// Returns the vector of all cells, row after row, and those of the open row last.
    ///
    ///     [[1, 2]], open [3]   into_vec()   [1, 2, 3]
    ///
    /// Cost: constant; no memory.
    pub fn into_vec(self) -> Vec<T, A>
        ensures { result.items ≡ concat_rows self.rows ++ self.cells }
    {
        let RowsBuilder { cells, .. } = self;
        cells
    }
}
