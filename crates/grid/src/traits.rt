//! Clones of grids; and their equality, hash and debug text, which speak of the rows and not of the order.
ghost use Rattle.std.specs.Prelude.{◌≡◌, ◌<◌, IfOk, flat_map, fold};
ghost use Rattle.grid.specs.Prelude.{ClonesAreEqual, row, row_count, IsGridClone, same_cells, same_cells_per, same_cells_equiv, table_feed, table_feed_respects};
ghost use Rattle.grid.specs.Prelude.{table_text};

use crate::Grid;
use grid_base::Flat;
use std::alloc::{AllocError, Allocator};
use std::fmt;
use std::hash::{Hash, Hasher};

impl<T: Clone, A: Allocator + Clone> Grid<T, A> {
    /// Returns a grid of clones of the cells, with the same rows and the same order.
    ///
    /// Requires: clones of the cell type equal their source.
    /// Fails: if allocation fails, for the vector or in a clone.
    /// Cost: one clone for each cell.
    pub fn clone(&self) -> Result<Grid<T, A>, AllocError>
        requires clones { ClonesAreEqual T.is_clone }
        ensures { IfOk result (λ copy. copy ≡ self.now) }
    {
        let flat = self.flat.clone()?;
        Ok(Grid {
            flat,
            row_count: self.row_count,
            col_count: self.col_count,
            order: self.order,
        })
    }
}

/// Returns a grid of clones of the cells, with the same order. This is what `T: Clone` and `#[derive(Clone)]` call; of
/// a grid, `grid.clone()` is the inherent [`clone`](Grid::clone), which requires that clones equal their source.
///
/// Fails: if allocation fails, for the vector or in a clone.
/// Cost: one clone for each cell.
impl<T: Clone, A: Allocator + Clone> Clone for Grid<T, A> {
    ghost is_clone = { IsGridClone T.is_clone };

    fn clone(&self) -> Result<Self, AllocError> {
        let cells = self.flat.as_vec().clone()?;
        let order = self.order;
        Ok(Grid {
            flat: Flat::from_vec(cells),
            row_count: self.row_count,
            col_count: self.col_count,
            order,
        })
    }
}

/// `==` returns whether the sizes and all cells are equal. The orders don't matter.
///
///     row-major [1, 2, 3, 4] == column-major [1, 3, 2, 4]   true, both with two columns
///
/// Cost: the sizes are compared first. Where the orders agree, the storages are compared then; else each cell is read
/// once at most from either grid, part by part, so that both storages are read a cache line at a time.
impl<T: PartialEq, A: Allocator> PartialEq for Grid<T, A> {
    ghost eq = { same_cells T.eq };

    ghost laws = { same_cells_per T.laws };

    fn eq(&self, other: &Self) -> bool {
        let (rows, cols) = self.size();
        let (other_rows, other_cols) = other.size();
        if rows != other_rows || cols != other_cols {
            return false;
        }
        if self.order() == other.order() {
            return self.flatten() == other.flatten();
        }
        self.view() == other.view()
    }
}

impl<T: Eq, A: Allocator> Eq for Grid<T, A> {
    ghost laws = { same_cells_equiv T.Eq.laws };
}

impl<T: Hash, A: Allocator> Grid<T, A> {
    // Feeds the cells of row `r`, which is in range.
    fn hash_row<H: Hasher>(&self, r: usize, state: &mut H)
        requires { r < row_count self.now.rows }
        ensures { state.new ≡ fold H.write state.old (flat_map T.hash_input (row self.now.rows r)) }
    {
        let (_, cols) = self.size();
        for col in 0..cols {
            self.get_unchecked(r, col).hash(state);
        }
    }
}

/// Feeds a hasher the number of rows, the number of columns, then the cells row by row. So equal grids feed the same.
///
/// Cost: each cell is fed once.
impl<T: Hash, A: Allocator> Hash for Grid<T, A> {
    ghost hash_input = { table_feed T.hash_input };

    ghost respects_eq = { table_feed_respects T.respects_eq };

    fn hash<H: Hasher>(&self, state: &mut H) {
        let (rows, cols) = self.size();
        rows.hash(state);
        cols.hash(state);
        for row in 0..rows {
            self.hash_row(row, state);
        }
    }
}

/// Writes `[`, each row as a debug list with nothing between two, and `]`. The text is the same in either order.
///
///     [[1, 2], [3, 4]]   {:?}   "[[1, 2][3, 4]]"
///     []                 {:?}   "[]"
impl<T: fmt::Debug, A: Allocator> fmt::Debug for Grid<T, A> {
    ghost debug_output = { λ grid. table_text T.debug_output grid.rows };

    fn fmt<W: fmt::Write>(&self, f: &mut fmt::Formatter<W>) -> fmt::Result {
        fmt::Debug::fmt(&self.view(), f)
    }
}
