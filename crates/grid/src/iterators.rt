//! Iterators over the cells of a grid, over one row or column, and over the rows and the columns. No iterator takes
//! memory, and each may be dropped early.
ghost use Rattle.grid.specs.Prelude.{storage, GivesRefs, GivesMutRefs, GivesOwned, GivesIndexed, GivesMutIndexed, GivesOwnedIndexed, sem};

mod lines;

use crate::Grid;
use grid_base::{IndexedIntoIter, IndexedIter, IndexedIterMut, Layout};
pub use lines::{GridColIter, GridRowIter};
use std::alloc::Allocator;
use std::{slice, vec};

impl<T, A: Allocator> Grid<T, A> {
    ghost use Rattle.grid.specs.Iterators.{lends_cells, lends_indexed, KeepsSize};

    /// Returns an iterator over the cells in storage order, from both ends.
    ///
    ///     [[1, 2], [3, 4]]   iter()   row-major 1, 2, 3, 4, column-major 1, 3, 2, 4
    pub fn iter(&self) -> slice::Iter<'_, T>
        ensures gives { GivesRefs (storage self.now.order self.now.rows) result }
    {
        self.flat.as_slice().iter()
    }

    /// Returns an iterator over the cells in storage order, for writing, from both ends. The size and the order stay.
    ///
    ///     [[1, 2], [3, 4]]   for cell in iter_mut() { *cell += 1 }   [[2, 3], [4, 5]]
    pub fn iter_mut(&mut self) -> slice::IterMut<'_, T>
        ensures* writes_back { sem 𝓛 (lends_cells T.row A.row A.Allocator self.entry result) }
        ensures keeps { KeepsSize self.old }
        ensures gives { GivesMutRefs (storage self.old.order self.old.rows) result }
    {
        self.flat.iter_mut()
    }

    /// Returns an iterator over the cells in storage order, each with its row and its column.
    ///
    ///     [[1, 2], [3, 4]]   indexed_iter()   row-major ((0, 0), 1), ((0, 1), 2), ((1, 0), 3), ((1, 1), 4)
    pub fn indexed_iter(&self) -> IndexedIter<'_, T>
        ensures gives { GivesIndexed self.now.order self.now.rows result }
    {
        let (order, rows, cols) = (self.order, self.row_count, self.col_count);
        self.flat.indexed_iter(Layout { order, rows, cols })
    }

    /// Returns an iterator over the cells in storage order, for writing, each with its row and its column. The size and
    /// the order stay.
    ///
    ///     [[1, 2], [3, 4]]   for ((row, _), cell) in indexed_iter_mut() { *cell *= row }   [[0, 0], [3, 4]]
    pub fn indexed_iter_mut(&mut self) -> IndexedIterMut<'_, T>
        ensures* writes_back { sem 𝓛 (lends_indexed T.row A.row A.Allocator self.entry result) }
        ensures keeps { KeepsSize self.old }
        ensures gives { GivesMutIndexed self.old.order self.old.rows result }
    {
        let (order, rows, cols) = (self.order, self.row_count, self.col_count);
        self.flat.indexed_iter_mut(Layout { order, rows, cols })
    }

    /// Returns an iterator over the cells in storage order, by value, each with its row and its column.
    ///
    ///     [[1, 2], [3, 4]]   indexed_into_iter()   row-major ((0, 0), 1), ((0, 1), 2), ((1, 0), 3), ((1, 1), 4)
    pub fn indexed_into_iter(self) -> IndexedIntoIter<T, A>
        ensures gives { GivesOwnedIndexed self.order self.rows result }
    {
        let (order, rows, cols) = (self.order, self.row_count, self.col_count);
        self.flat.indexed_into_iter(Layout { order, rows, cols })
    }
}

/// Iterates over the cells in storage order, by value, from both ends.
///
/// Cost: constant; the vector is kept, and no memory is taken.
impl<T: Drop, A: Allocator> IntoIterator for Grid<T, A> {
    type Item = T;

    type IntoIter = vec::IntoIter<T, A>;

    ghost into_iter_gives = { λ grid it. GivesOwned (storage grid.order grid.rows) it };

    fn into_iter(self) -> vec::IntoIter<T, A> {
        self.into_vec().into_iter()
    }
}

/// Iterates over the cells in storage order, as [`iter`](Grid::iter) does.
impl<'a, T, A: Allocator> IntoIterator for &'a Grid<T, A> {
    type Item = &'a T;

    type IntoIter = slice::Iter<'a, T>;

    ghost into_iter_gives = { λ grid it. GivesRefs (storage grid.now.order grid.now.rows) it };

    fn into_iter(self) -> slice::Iter<'a, T> {
        self.iter()
    }
}

/// Iterates over the cells in storage order, for writing, as [`iter_mut`](Grid::iter_mut) does.
impl<'a, T, A: Allocator> IntoIterator for &'a mut Grid<T, A> {
    ghost use Rattle.grid.specs.Iterators.{lends_cells, KeepsSize};

    type Item = &'a mut T;

    type IntoIter = slice::IterMut<'a, T>;

    ghost into_iter_gives = { λ grid it. GivesMutRefs (storage grid.now.order grid.now.rows) it };

    fn into_iter(self) -> slice::IterMut<'a, T>
        ensures* writes_back { sem 𝓛 (lends_cells T.row A.row A.Allocator self.entry result) }
        ensures keeps { KeepsSize self.old }
        ensures into_iter_gives { GivesMutRefs (storage self.old.order self.old.rows) result }
    {
        self.iter_mut()
    }
}
