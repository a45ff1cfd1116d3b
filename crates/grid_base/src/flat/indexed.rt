//! Iterators over all cells with their rows and columns, in storage order: by reference, for writing, and by value.
ghost use Rattle.std.specs.Prelude.{◌≡◌, ◌*◌, ⊤, length, zip, IfSome, Some, ℕ, ◌≤◌, List};
ghost use Rattle.grid_base.specs.Prelude.{sem, YieldsFirst, YieldsFirstBy, YieldsLastBy, item_count, UpTo, at_most, IsWithinCount, iter_rest, into_iter_items, indexed_mut_rest, positions_of};

use super::Flat;
use super::positions::Positions;
use crate::Layout;
use std::alloc::{AllocError, Allocator, Global};
use std::iter::FusedIterator;
use std::marker::Model;
use std::{slice, vec};

impl<T, A: Allocator> Flat<T, A> {
    ghost use Rattle.grid_base.specs.FlatLends.{lends_indexed};

    /// Returns an iterator over the cells, each with its row and its column.
    ///
    /// Requires: the vector has as many cells as the layout.
    pub fn indexed_iter(&self, layout: Layout) -> IndexedIter<'_, T>
        requires { length self.now ≡ layout.rows * layout.cols }
        ensures { result ≡ zip (positions_of layout) self.now }
    {
        IndexedIter {
            positions: Positions::new(layout),
            cells: self.cells.as_slice().iter(),
        }
    }

    /// Returns an iterator over the cells, for writing, each with its row and its column.
    ///
    /// Requires: the vector has as many cells as the layout.
    pub fn indexed_iter_mut(&mut self, layout: Layout) -> IndexedIterMut<'_, T>
        requires { length self.old ≡ layout.rows * layout.cols }
        ensures* writes_back { sem 𝓛 (lends_indexed T.row A.row A.Allocator self.entry result) }
        ensures rest { indexed_mut_rest result ≡ zip (positions_of layout) self.old }
    {
        IndexedIterMut {
            positions: Positions::new(layout),
            lent: self.cells.as_mut_slice().iter_mut(),
        }
    }

    /// Returns an iterator over the cells, by value, each with its row and its column.
    ///
    /// Requires: the vector has as many cells as the layout.
    pub fn indexed_into_iter(self, layout: Layout) -> IndexedIntoIter<T, A>
        requires { length self ≡ layout.rows * layout.cols }
        ensures { result ≡ zip (positions_of layout) self }
    {
        let Flat { cells } = self;
        IndexedIntoIter {
            positions: Positions::new(layout),
            owned: cells.into_iter(),
        }
    }
}

/// An iterator over cells, each with its row and its column, from both ends. A step from the back takes a division.
#[derive(Drop)]
pub struct IndexedIter<'a, T> {
    positions: Positions,
    cells: slice::Iter<'a, T>,
}

impl<'a, T> Model for IndexedIter<'a, T> {
    ghost Value = { List ((ℕ × ℕ) × T) };

    ghost view = { λ a. zip a.positions (iter_rest a.cells) };

    ghost invariant = { λ a. length (iter_rest a.cells) ≤ length a.positions };
}

#[tactic(auto, using(crate::proofs::PlacedCellLemmas::placed_cells))]
impl<'a, T> Iterator for IndexedIter<'a, T> {
    type Item = ((usize, usize), &'a T);

    ghost next_gives = { YieldsFirstBy (λ item. (item.0, item.1.now)) (λ rest. rest) };

    ghost remaining = { item_count (λ rest. rest) };

    fn next(&mut self) -> Option<((usize, usize), &'a T)> {
        let at = self.positions.next()?;
        let cell = self.cells.next()?;
        Some((at, cell))
    }

    fn size_hint(&self) -> (usize, Option<usize>)
        ensures lower { IsWithinCount result.0 (at_most (length self.now)) }
        ensures upper { IfSome result.1 (UpTo (at_most (length self.now))) }
        ensures exact { result ≡ (length self.now, Some (length self.now)) }
    {
        self.positions.hint(self.cells.len())
    }
}

#[tactic(auto, using(crate::proofs::PlacedCellLemmas::placed_cells, crate::proofs::PlacedCellLemmas::zip_last))]
impl<'a, T> DoubleEndedIterator for IndexedIter<'a, T> {
    ghost next_back_gives = { YieldsLastBy (λ item. (item.0, item.1.now)) (λ rest. rest) };

    fn next_back(&mut self) -> Option<((usize, usize), &'a T)> {
        let cell = self.cells.next_back()?;
        Some((self.positions.ahead(self.cells.len()), cell))
    }
}

#[tactic(auto, using(crate::proofs::PlacedCellLemmas::placed_cells))]
impl<'a, T> ExactSizeIterator for IndexedIter<'a, T> {
    fn len(&self) -> usize {
        self.positions.len().min(self.cells.len())
    }
}

impl<'a, T> FusedIterator for IndexedIter<'a, T> {}

// Returns an iterator over the same remaining cells.
impl<'a, T> Clone for IndexedIter<'a, T> {
    ghost is_clone = { λ it copy. copy ≡ it };

    ghost is_infallible = { λ _. ⊤ };

    fn clone(&self) -> Result<Self, AllocError> {
        Ok(IndexedIter {
            positions: self.positions.again(),
            cells: self.cells.clone()?,
        })
    }
}

/// An iterator over cells, for writing, each with its row and its column.
// It has no model, so that a contract can follow the loan.
#[derive(Drop)]
pub struct IndexedIterMut<'a, T> {
    positions: Positions,
    lent: slice::IterMut<'a, T>,
}

#[tactic(auto, using(crate::proofs::PlacedCellLemmas::placed_cells))]
impl<'a, T> Iterator for IndexedIterMut<'a, T> {
    type Item = ((usize, usize), &'a mut T);

    ghost next_gives = { YieldsFirstBy (λ item. (item.0, item.1.now)) indexed_mut_rest };

    ghost remaining = { item_count indexed_mut_rest };

    fn next(&mut self) -> Option<((usize, usize), &'a mut T)> {
        let at = self.positions.next()?;
        let cell = self.lent.next()?;
        Some((at, cell))
    }

    fn size_hint(&self) -> (usize, Option<usize>)
        ensures lower { IsWithinCount result.0 (at_most (length (indexed_mut_rest self.now))) }
        ensures upper { IfSome result.1 (UpTo (at_most (length (indexed_mut_rest self.now)))) }
        ensures exact { result
            ≡ (length (indexed_mut_rest self.now), Some (length (indexed_mut_rest self.now))) }
    {
        self.positions.hint(self.lent.len())
    }
}

/// An iterator over cells, by value, each with its row and its column.
#[derive(Drop)]
pub struct IndexedIntoIter<T, A: Allocator = Global> {
    positions: Positions,
    owned: vec::IntoIter<T, A>,
}

impl<T, A: Allocator> Model for IndexedIntoIter<T, A> {
    ghost Value = { List ((ℕ × ℕ) × T) };

    ghost view = { λ a. zip a.positions (into_iter_items a.owned) };
}

#[tactic(auto, using(crate::proofs::PlacedCellLemmas::placed_cells))]
impl<T: Drop, A: Allocator> Iterator for IndexedIntoIter<T, A> {
    type Item = ((usize, usize), T);

    ghost next_gives = { YieldsFirst (λ rest. rest) };

    ghost remaining = { item_count (λ rest. rest) };

    fn next(&mut self) -> Option<((usize, usize), T)> {
        let at = self.positions.next()?;
        let cell = self.owned.next()?;
        Some((at, cell))
    }

    fn size_hint(&self) -> (usize, Option<usize>)
        ensures lower { IsWithinCount result.0 (at_most (length self.now)) }
        ensures upper { IfSome result.1 (UpTo (at_most (length self.now))) }
        ensures exact { result ≡ (length self.now, Some (length self.now)) }
    {
        self.positions.hint(self.owned.len())
    }
}
