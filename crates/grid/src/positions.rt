//! Positions as pairs: whether there is a cell, access, a step to the side, and the positions of cells that pass a
//! test.
ghost use Rattle.std.specs.Prelude.{◌≡◌, ◌↔◌, ◌<◌, IsTrue, IfOk, IfSome, IsSome, MatchOption, is_some, Some, option_copied};
ghost use Rattle.grid.specs.Prelude.{row_count, col_count, cell, nearest_below, with_cell, InRange, SameSizeAndOrder, sem, CallableAtCells, FoundFirst, FoundAll, IsBeside, IsOffset, GivesIndices, wrapped_beside};
ghost use Rattle.std.specs.List.{All};

use crate::Grid;
use grid_base::{Layout, Order, Positions};
use grid_near::Direction;
use std::alloc::{AllocError, Allocator};

impl<T, A: Allocator> Grid<T, A> {
    ghost use Rattle.grid.specs.Grid.{lends_cell_if};

    /// Returns whether there is a cell at this position.
    ///
    ///     [[1, 2, 3], [4, 5, 6]]   contains((1, 2))   true
    ///     [[1, 2, 3], [4, 5, 6]]   contains((2, 0))   false
    pub fn contains(&self, at: (usize, usize)) -> bool
        ensures { IsTrue result ↔ InRange self.now.rows at.0 at.1 }
    {
        at.0 < self.rows() && at.1 < self.cols()
    }

    /// Same as [`get`](Grid::get), at a position.
    ///
    ///     [[1, 2], [3, 4]]   get_at((0, 1))   Some(2)
    pub fn get_at(&self, at: (usize, usize)) -> Option<&T>
        ensures cell { option_copied result ≡ cell self.now.rows at.0 at.1 }
        ensures in_range { IfSome result (λ _. InRange self.now.rows at.0 at.1) }
    {
        self.get(at.0, at.1)
    }

    /// Returns the cell at a signed position, or, where an index is out of range, at the nearest one in range: 0 in
    /// place of a negative one, the last in place of one that is too large. It is `None` exactly where there are no
    /// cells.
    ///
    ///     [[1, 2], [3, 4]]   get_clamped((0, 1))    Some(2)
    ///     [[1, 2], [3, 4]]   get_clamped((-1, 5))   Some(2)
    ///
    /// Cost: constant.
    pub fn get_clamped(&self, at: (isize, isize)) -> Option<&T>
        ensures cell { option_copied result ≡ cell self.now.rows
            (nearest_below at.0 (row_count self.now.rows))
            (nearest_below at.1 (col_count self.now.rows)) }
        ensures some { IsSome result ↔ (0 < row_count self.now.rows) }
    {
        self.view().get_clamped(at)
    }

    /// Same as [`get_mut`](Grid::get_mut), at a position.
    ///
    ///     [[1, 2], [3, 4]]   *get_mut_at((0, 1))? = 9   [[1, 9], [3, 4]]
    pub fn get_mut_at(&mut self, at: (usize, usize)) -> Option<&mut T>
        ensures* writes_back { sem 𝓛
            (lends_cell_if T.row A.row A.Allocator self.entry at.0 at.1 result) }
        ensures variant { is_some result ≡ is_some (cell self.old.rows at.0 at.1) }
        ensures item { IfSome result (λ x. cell self.old.rows at.0 at.1 ≡ Some x.now) }
        ensures in_range { IfSome result (λ _. InRange self.old.rows at.0 at.1) }
    {
        self.get_mut(at.0, at.1)
    }

    /// Same as [`set`](Grid::set), at a position.
    ///
    ///     [[1, 2], [3, 4]]   set_at((1, 0), 9)   Some(3)   [[1, 2], [9, 4]]
    pub fn set_at(&mut self, at: (usize, usize), value: T) -> Option<T>
    where
        T: Drop,
        ensures cell { result ≡ cell self.old.rows at.0 at.1 }
        ensures in_range { MatchOption result
            (InRange self.old.rows at.0 at.1 → ⊥) (λ _. InRange self.old.rows at.0 at.1) }
        ensures rows { MatchOption result (self.new.rows ≡ self.old.rows)
            (λ _. self.new.rows ≡ with_cell self.old.rows at.0 at.1 value) }
        ensures same { SameSizeAndOrder self.old self.new }
    {
        self.set(at.0, at.1, value)
    }

    /// Returns the position that is one step from `at`, if there is a cell.
    ///
    ///     [[1, 2, 3], [4, 5, 6]]   beside((0, 1), Down)   Some((1, 1))
    ///     [[1, 2, 3], [4, 5, 6]]   beside((0, 1), Up)     None
    ///
    /// Cost: constant.
    pub fn beside(&self, at: (usize, usize), way: Direction) -> Option<(usize, usize)>
        ensures { MatchOption result
            ((to : _) → IsBeside way at to → InRange self.now.rows to.0 to.1 → ⊥)
            (λ to. IsBeside way at to × InRange self.now.rows to.0 to.1) }
    {
        way.step(self.size(), at)
    }

    /// Returns the position that is one step from `at` on a board whose edges meet: the first row comes after the last,
    /// and so do the columns. Returns `None` exactly where `at` is out of range.
    ///
    ///     [[1, 2, 3], [4, 5, 6]]   wrapped_beside((0, 2), Right)    Some((0, 0))
    ///     [[1, 2, 3], [4, 5, 6]]   wrapped_beside((0, 0), UpLeft)   Some((1, 2))
    ///
    /// Cost: constant; no division.
    pub fn wrapped_beside(&self, at: (usize, usize), way: Direction) -> Option<(usize, usize)>
        ensures to { MatchOption result (InRange self.now.rows at.0 at.1 → ⊥)
            (λ to. InRange self.now.rows at.0 at.1 × (to ≡ wrapped_beside way
            (row_count self.now.rows, col_count self.now.rows) at)) }
        ensures in_range { IfSome result (λ to. InRange self.now.rows to.0 to.1) }
    {
        way.wrapped_step(self.size(), at)
    }

    /// Returns the position that is `by.0` rows down and `by.1` columns to the right of `at`, if there is a cell.
    /// Negative offsets go up and to the left.
    ///
    ///     [[1, 2, 3], [4, 5, 6]]   offset((0, 0), (1, 2))    Some((1, 2))
    ///     [[1, 2, 3], [4, 5, 6]]   offset((0, 0), (1, -1))   None
    ///
    /// Cost: constant.
    pub fn offset(&self, at: (usize, usize), by: (isize, isize)) -> Option<(usize, usize)>
        ensures { MatchOption result
            ((to : _) → IsOffset at by to → InRange self.now.rows to.0 to.1 → ⊥)
            (λ to. IsOffset at by to × InRange self.now.rows to.0 to.1) }
    {
        let to = (
            at.0.checked_add_signed(by.0)?,
            at.1.checked_add_signed(by.1)?,
        );
        if self.contains(to) { Some(to) } else { None }
    }

    /// Returns an iterator over all positions, row by row.
    ///
    ///     [[1, 2], [3, 4]]   indices()   (0, 0), (0, 1), (1, 0), (1, 1)
    ///
    /// It doesn't borrow the grid, which may be written while it runs.
    ///
    /// Cost: constant; no memory.
    pub fn indices(&self) -> Positions
        ensures gives { GivesIndices self.now.rows result }
    {
        let (rows, cols) = self.size();
        Positions::new(Layout {
            order: Order::RowMajor,
            rows,
            cols,
        })
    }

    /// Returns the position of the first cell, row by row, for which the closure returns true.
    ///
    ///     [[1, 2], [3, 2]]   position(|x| *x == 2)   Some((0, 1))
    ///
    /// Requires: the closure can be called at a reference to each cell.
    /// Cost: one call for each cell up to the first, row by row in either order; no memory.
    pub fn position<F: Fn(&T) -> bool>(&self, test: F) -> Option<(usize, usize)>
        requires { CallableAtCells F.pre test self.now.rows }
        ensures { FoundFirst F.post test self.now.rows result }
    {
        let (rows, cols) = self.size();
        for row in 0..rows {
            for col in 0..cols {
                if test(self.get_unchecked(row, col)) {
                    return Some((row, col));
                }
            }
        }
        None
    }

    /// Returns the positions of the cells for which the closure returns true, row by row.
    ///
    ///     [[1, 2], [2, 3]]   positions(alloc, |x| *x == 2)   [(0, 1), (1, 0)]
    ///
    /// Requires: the closure can be called at a reference to each cell.
    /// Fails: if allocation fails.
    /// Cost: one call for each cell, row by row in either order; the vector grows as it is filled.
    pub fn positions<B: Allocator, F: Fn(&T) -> bool>(
        &self,
        alloc: B,
        test: F,
    ) -> Result<Vec<(usize, usize), B>, AllocError>
        requires { CallableAtCells F.pre test self.now.rows }
        ensures found { IfOk result (λ found. FoundAll F.post test self.now.rows found.items) }
        ensures in_range { IfOk result (λ found.
            All (λ at. InRange self.now.rows at.0 at.1) found.items) }
    {
        let mut found = Vec::new(alloc);
        let (rows, cols) = self.size();
        for row in 0..rows {
            for col in 0..cols {
                if test(self.get_unchecked(row, col)) {
                    found.push((row, col))?;
                }
            }
        }
        Ok(found)
    }
}
