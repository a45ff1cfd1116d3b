//! A part of a grid as a new grid, and rows or columns that change places.
ghost use Rattle.std.specs.Prelude.{◌≡◌, ◌<◌, ◌≤◌, ◌+◌, ◌*◌, ◌^◌, IfOk, length, swap};
ghost use Rattle.grid.specs.Parts.{sub_table};
ghost use Rattle.grid.specs.Prelude.{BlocksSwapped, ClonesAreEqual, SameSizeAndOrder, row_count, col_count, IsMade, cols_swapped};

use crate::Grid;
use grid_base::{Flat, Order};
use std::alloc::{AllocError, Allocator};

impl<T, A: Allocator> Grid<T, A> {
    /// Returns the grid of clones of the `size.0` rows and `size.1` columns from position `at` on. The order is the
    /// same. Without rows or without columns it is the empty grid.
    ///
    ///     [[1, 2, 3], [4, 5, 6]]   sub_grid((0, 1), (2, 2))   [[2, 3], [5, 6]]
    ///
    /// Requires: clones of the cell type equal their source; the part is within the grid.
    /// Fails: if allocation fails, for the vector or in a clone.
    /// Cost: one clone for each cell of the part; one allocation, before the first clone.
    pub fn sub_grid(
        &self,
        at: (usize, usize),
        size: (usize, usize),
    ) -> Result<Grid<T, A>, AllocError>
    where
        T: Clone,
        A: Clone,
        requires clones { ClonesAreEqual T.is_clone }
        requires rows_in { at.0 + size.0 ≤ row_count self.now.rows }
        requires cols_in { at.1 + size.1 ≤ col_count self.now.rows }
        ensures made { IfOk result (IsMade self.now.order size.0 size.1) }
        ensures rows { IfOk result (λ part. 0 < size.0 → 0 < size.1
            → part.rows ≡ sub_table self.now.rows at size) }
    {
        let alloc = self.flat.allocator().clone()?;
        Grid::from_view(alloc, self.order, &self.part(at, size))
    }

    /// Exchanges two rows. No tally counts it.
    ///
    ///     [[1, 2], [3, 4], [5, 6]]   swap_rows(0, 2)   [[5, 6], [3, 4], [1, 2]]
    ///
    /// Requires: both are in range.
    /// Cost: one swap for each column, in vector code along the storage; no memory.
    pub fn swap_rows(&mut self, a: usize, b: usize)
        requires a_in { a < row_count self.old.rows }
        requires b_in { b < row_count self.old.rows }
        ensures rows { self.new.rows ≡ swap self.old.rows a b }
        ensures same { SameSizeAndOrder self.old self.new }
    {
        match self.order {
            Order::RowMajor => swap_lines(&mut self.flat, self.col_count, a, b),
            Order::ColumnMajor => self.swap_cells_of_rows(a, b),
        }
    }

    // Exchanges two rows cell by cell.
    fn swap_cells_of_rows(&mut self, a: usize, b: usize)
        requires a_in { a < row_count self.old.rows }
        requires b_in { b < row_count self.old.rows }
        ensures rows { self.new.rows ≡ swap self.old.rows a b }
        ensures same { SameSizeAndOrder self.old self.new }
    {
        for col in 0..self.cols() {
            self.swap((a, col), (b, col));
        }
    }

    /// Exchanges two columns. No tally counts it.
    ///
    ///     [[1, 2, 3], [4, 5, 6]]   swap_cols(0, 2)   [[3, 2, 1], [6, 5, 4]]
    ///
    /// Requires: both are in range.
    /// Cost: one swap for each row, in vector code along the storage; no memory.
    pub fn swap_cols(&mut self, a: usize, b: usize)
        requires a_in { a < col_count self.old.rows }
        requires b_in { b < col_count self.old.rows }
        ensures rows { self.new.rows ≡ cols_swapped a b self.old.rows }
        ensures same { SameSizeAndOrder self.old self.new }
    {
        self.transpose();
        self.swap_rows(a, b);
        self.transpose();
    }
}

// Exchanges two lines of `len` cells.
fn swap_lines<T, A: Allocator>(flat: &mut Flat<T, A>, width: usize, a: usize, b: usize)
    requires a_in { a * width + width ≤ length flat.old }
    requires b_in { b * width + width ≤ length flat.old }
    requires fits { length flat.old < 2 ^ 64 }
    ensures { BlocksSwapped (a * width) (b * width) width flat.old flat.new }
{
    if a < b {
        flat.swap_blocks(a * width, b * width, width);
    }
    if b < a {
        flat.swap_blocks(b * width, a * width, width);
    }
}
