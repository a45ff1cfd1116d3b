//! The positions of cells that pass a test.
ghost use Rattle.std.specs.Prelude.{IfOk};
ghost use Rattle.std.specs.List.{All};
ghost use Rattle.grid_base.specs.Prelude.{InRange};
ghost use Rattle.grid_view.specs.Prelude.{CallableAtCells, FoundFirst, FoundAll};

use crate::view::GridView;
use std::alloc::{AllocError, Allocator};

impl<'a, T> GridView<'a, T> {
    /// Returns the position of the first cell, row by row, for which the closure returns true.
    ///
    ///     [[1, 2], [3, 2]]   position(|x| *x == 2)   Some((0, 1))
    ///
    /// It is a position of the view: of a part that begins at `at`, add `at` for the position in the grid.
    ///
    /// Requires: the closure can be called at a reference to each cell.
    /// Cost: one call for each cell up to the first, row by row; no memory.
    pub fn position<F: Fn(&T) -> bool>(&self, test: F) -> Option<(usize, usize)>
        requires { CallableAtCells F.pre test self.now.rows }
        ensures { FoundFirst F.post test self.now.rows result }
    {
        let (rows, cols) = self.size();
        for row in 0..rows {
            for col in 0..cols {
                if test(self.get_unchecked(row, col)) {
                    return Some((row, col));
                }
            }
        }
        None
    }

    /// Returns the positions of the cells for which the closure returns true, row by row.
    ///
    ///     [[1, 2], [2, 3]]   positions(alloc, |x| *x == 2)   [(0, 1), (1, 0)]
    ///
    /// Requires: the closure can be called at a reference to each cell.
    /// Fails: if allocation fails.
    /// Cost: one call for each cell, row by row; the vector grows as it is filled.
    pub fn positions<B: Allocator, F: Fn(&T) -> bool>(
        &self,
        alloc: B,
        test: F,
    ) -> Result<Vec<(usize, usize), B>, AllocError>
        requires { CallableAtCells F.pre test self.now.rows }
        ensures found { IfOk result (λ found. FoundAll F.post test self.now.rows found.items) }
        ensures in_range { IfOk result (λ found.
            All (λ at. InRange self.now.rows at.0 at.1) found.items) }
    {
        let mut found = Vec::new(alloc);
        let (rows, cols) = self.size();
        for row in 0..rows {
            for col in 0..cols {
                if test(self.get_unchecked(row, col)) {
                    found.push((row, col))?;
                }
            }
        }
        Ok(found)
    }
}
