//! A grid, its constructors from a vector, and access to its cells.
ghost use Rattle.std.specs.Prelude.{◌≡◌, ◌≢◌, ◌↔◌, ◌<◌, ◌^◌, [], length, IsTrue, IfSome, MatchOption, Some, is_some, option_copied};
ghost use Rattle.grid_base.specs.Prelude.{row_count, col_count, cell, with_cell, exchanged, InRange, HoldsSize, SameSizeAndOrder, storage, place, CanCut};
ghost use Rattle.std.specs.Borrow.{sem};
ghost use Rattle.grid.specs.Edits.{FitsRow, FitsCol};

mod make;

use grid_base::{Flat, Order};
use std::alloc::{Allocator, Global};
use std::marker::Model;
use std::mem;
use std::ops::{Index, IndexMut};

/// A table of cells in one vector, seen as its rows and its order.
///
/// There are rows exactly if there are columns, and the vector holds rows times columns cells.
#[derive(Drop)]
pub struct Grid<T, A: Allocator = Global> {
    // Before the counts: a byte at the end would be moved with its padding through memory, which takes 4 ns.
    pub(crate) order: Order,
    pub(crate) flat: Flat<T, A>,
    pub(crate) row_count: usize,
    pub(crate) col_count: usize,
    ghost fits: { HoldsSize row_count col_count (length flat) },
}

impl<T, A: Allocator> Model for Grid<T, A> {
    ghost use Rattle.grid_base.specs.GridValue.{GridValue};
    ghost use Rattle.grid.specs.View.{grid_value};

    ghost Value = { GridValue T };

    ghost view = { λ g. grid_value g.order g.row_count g.col_count g.flat g.fits };
}

// How many rows and columns there are of `len` cells that are cut into rows of `cols`.
fn size_of_cut(len: usize, cols: usize) -> (usize, usize)
    requires { CanCut len cols }
    ensures holds { HoldsSize result.0 result.1 len }
    ensures cols { len ≢ 0 → result.1 ≡ cols }
{
    if len == 0 { (0, 0) } else { (len / cols, cols) }
}

impl<T, A: Allocator> Grid<T, A> {
    ghost use Rattle.grid.specs.Grid.{lends_cell, lends_cell_if};
    ghost use Rattle.grid.specs.Iterators.{lends_slice, KeepsSize};

    /// Returns the empty grid, row-major.
    ///
    /// Cost: constant; no memory.
    pub fn empty(alloc: A) -> Grid<T, A>
        ensures rows { result.rows ≡ [] }
        ensures order { result.order ≡ Order.RowMajor }
    {
        Grid::from_vec(Vec::new(alloc), 0)
    }

    /// Returns the row-major grid of the vector's cells, cut into rows of `cols`. An empty vector gives the empty grid.
    ///
    ///     from_vec([1, 2, 3, 4, 5, 6], 3)   [[1, 2, 3], [4, 5, 6]]
    ///
    /// Requires: the vector is empty, or `cols` is not 0 and divides its length.
    /// Cost: constant; the vector is kept, and no memory is taken.
    pub fn from_vec(vec: Vec<T, A>, cols: usize) -> Grid<T, A>
        requires { CanCut (length vec.items) cols }
        ensures order { result.order ≡ Order.RowMajor }
        ensures storage { storage Order.RowMajor result.rows ≡ vec.items }
        ensures cols { length vec.items ≢ 0 → col_count result.rows ≡ cols }
    {
        Grid::from_vec_with_order(vec, cols, Order::RowMajor)
    }

    /// Same as [`from_vec`](Grid::from_vec), but the vector is the storage in this order.
    ///
    ///     from_vec_with_order([1, 4, 2, 5, 3, 6], 3, ColumnMajor)   [[1, 2, 3], [4, 5, 6]]
    pub fn from_vec_with_order(vec: Vec<T, A>, cols: usize, order: Order) -> Grid<T, A>
        requires { CanCut (length vec.items) cols }
        ensures order { result.order ≡ order }
        ensures storage { storage order result.rows ≡ vec.items }
        ensures cols { length vec.items ≢ 0 → col_count result.rows ≡ cols }
    {
        let (row_count, col_count) = size_of_cut(vec.len(), cols);
        Grid {
            flat: Flat::from_vec(vec),
            row_count,
            col_count,
            order,
        }
    }

    /// Returns the number of rows and the number of columns.
    ///
    ///     [[1, 2, 3], [4, 5, 6]]   size()   (2, 3)
    pub fn size(&self) -> (usize, usize)
        ensures rows { result.0 ≡ row_count self.now.rows }
        ensures cols { result.1 ≡ col_count self.now.rows }
        ensures small { (result.0 < 2 ^ 63) × (result.1 < 2 ^ 63) }
    {
        // For the proof: a vector has fewer than 2^63 cells.
        let _len = self.flat.as_vec().len();
        (self.row_count, self.col_count)
    }

    /// Returns the allocator of the vector.
    pub fn allocator(&self) -> &A {
        self.flat.allocator()
    }

    /// Returns the number of rows.
    ///
    ///     [[1, 2, 3], [4, 5, 6]]   rows()   2
    pub fn rows(&self) -> usize
        ensures rows { result ≡ row_count self.now.rows }
        ensures small { result < 2 ^ 63 }
    {
        self.size().0
    }

    /// Returns the number of columns.
    ///
    ///     [[1, 2, 3], [4, 5, 6]]   cols()   3
    pub fn cols(&self) -> usize
        ensures cols { result ≡ col_count self.now.rows }
        ensures small { result < 2 ^ 63 }
    {
        self.size().1
    }

    /// Returns whether a row of this length fits: as many cells as there are columns, or any number in an empty grid.
    ///
    ///     [[1, 2], [3, 4]]   fits_row(2)   true
    pub fn fits_row(&self, len: usize) -> bool
        ensures { IsTrue result ↔ FitsRow self.now.rows len }
    {
        self.is_empty() || len == self.cols()
    }

    /// Returns whether a column of this length fits: as many cells as there are rows, or any number in an empty grid.
    ///
    ///     [[1, 2], [3, 4]]   fits_col(3)   false
    pub fn fits_col(&self, len: usize) -> bool
        ensures { IsTrue result ↔ FitsCol self.now.rows len }
    {
        self.is_empty() || len == self.rows()
    }

    /// Returns the order in which the vector holds the cells.
    pub fn order(&self) -> Order
        ensures { result ≡ self.now.order }
    {
        self.order
    }

    /// Returns whether there are no cells.
    pub fn is_empty(&self) -> bool
        ensures { IsTrue result ↔ (self.now.rows ≡ []) }
    {
        self.row_count == 0
    }

    /// Returns the cell in a row and a column, or `None` out of range.
    ///
    ///     [[1, 2], [3, 4]]   get(0, 1)   Some(2)
    pub fn get(&self, row: usize, col: usize) -> Option<&T>
        ensures cell { option_copied result ≡ cell self.now.rows row col }
        ensures in_range { IfSome result (λ _. InRange self.now.rows row col) }
    {
        let (rows, cols) = self.size();
        if row < rows && col < cols {
            Some(self.get_unchecked(row, col))
        } else {
            None
        }
    }

    /// Returns the cell in a row and a column, for writing, or `None` out of range. The other cells stay.
    ///
    ///     [[1, 2], [3, 4]]   *get_mut(0, 1)? = 9   [[1, 9], [3, 4]]
    pub fn get_mut(&mut self, row: usize, col: usize) -> Option<&mut T>
        ensures* writes_back { sem 𝓛
            (lends_cell_if T.row A.row A.Allocator self.entry row col result) }
        ensures variant { is_some result ≡ is_some (cell self.old.rows row col) }
        ensures item { IfSome result (λ x. cell self.old.rows row col ≡ Some x.now) }
        ensures in_range { IfSome result (λ _. InRange self.old.rows row col) }
    {
        let (rows, cols) = self.size();
        if row < rows && col < cols {
            Some(self.get_unchecked_mut(row, col))
        } else {
            None
        }
    }

    /// Returns the cell in a row and a column.
    ///
    ///     [[1, 2], [3, 4]]   get_unchecked(0, 1)   2
    ///
    /// Requires: both are in range.
    /// Cost: constant; nothing is checked at run time.
    pub fn get_unchecked(&self, row: usize, col: usize) -> &T
        requires { InRange self.now.rows row col }
        ensures { cell self.now.rows row col ≡ Some result.now }
    {
        let place = self.order.place(self.row_count, self.col_count, row, col);
        self.flat.at(place)
    }

    /// Returns the cell in a row and a column, for writing. The other cells stay.
    ///
    ///     [[1, 2], [3, 4]]   *get_unchecked_mut(0, 1) = 9   [[1, 9], [3, 4]]
    ///
    /// Requires: both are in range.
    /// Cost: constant; nothing is checked at run time.
    pub fn get_unchecked_mut(&mut self, row: usize, col: usize) -> &mut T
        requires { InRange self.old.rows row col }
        ensures* writes_back { sem 𝓛
            (lends_cell T.row A.row A.Allocator self.entry row col result) }
        ensures item { cell self.old.rows row col ≡ Some result.now }
    {
        let place = self.order.place(self.row_count, self.col_count, row, col);
        self.flat.at_mut(place)
    }

    /// Writes a cell, and returns the one that was there. Returns `None` exactly out of range, where nothing changes
    /// and the value is dropped.
    ///
    ///     [[1, 2], [3, 4]]   set(1, 0, 9)   Some(3)   [[1, 2], [9, 4]]
    ///     [[1, 2], [3, 4]]   set(2, 0, 9)   None      [[1, 2], [3, 4]]
    ///
    /// Cost: constant; no memory.
    pub fn set(&mut self, row: usize, col: usize, value: T) -> Option<T>
    where
        T: Drop,
        ensures cell { result ≡ cell self.old.rows row col }
        ensures in_range { MatchOption result
            (InRange self.old.rows row col → ⊥) (λ _. InRange self.old.rows row col) }
        ensures rows { MatchOption result (self.new.rows ≡ self.old.rows)
            (λ _. self.new.rows ≡ with_cell self.old.rows row col value) }
        ensures same { SameSizeAndOrder self.old self.new }
    {
        let (rows, cols) = self.size();
        if row < rows && col < cols {
            Some(mem::replace(self.get_unchecked_mut(row, col), value))
        } else {
            None
        }
    }

    /// Exchanges two cells. No tally counts it.
    ///
    ///     [[1, 2], [3, 4]]   swap((0, 0), (1, 1))   [[4, 2], [3, 1]]
    ///
    /// Requires: both are in range.
    /// Cost: constant.
    pub fn swap(&mut self, a: (usize, usize), b: (usize, usize))
        requires a_in { InRange self.old.rows a.0 a.1 }
        requires b_in { InRange self.old.rows b.0 b.1 }
        ensures rows { self.new.rows ≡ exchanged self.old.rows a b }
        ensures same { SameSizeAndOrder self.old self.new }
    {
        let i = self.order.place(self.row_count, self.col_count, a.0, a.1);
        let j = self.order.place(self.row_count, self.col_count, b.0, b.1);
        self.flat.swap(i, j);
    }

    /// Drops all cells, which leaves the size (0, 0). The order stays.
    ///
    ///     [[1, 2], [3, 4]]   clear()   []
    pub fn clear(&mut self)
    where
        T: Drop,
        ensures rows { self.new.rows ≡ [] }
        ensures order { self.new.order ≡ self.old.order }
    {
        self.flat.clear();
        self.row_count = 0;
        self.col_count = 0;
    }

    /// Returns the vector of the cells, in storage order.
    ///
    ///     [[1, 2, 3], [4, 5, 6]]   flatten()   row-major [1, 2, 3, 4, 5, 6], column-major [1, 4, 2, 5, 3, 6]
    ///
    /// Cost: constant.
    pub fn flatten(&self) -> &Vec<T, A>
        ensures { result.now.items ≡ storage self.now.order self.now.rows }
    {
        self.flat.as_vec()
    }

    /// Returns the slice of the cells, in storage order.
    ///
    ///     [[1, 2, 3], [4, 5, 6]]   as_slice()   row-major [1, 2, 3, 4, 5, 6], column-major [1, 4, 2, 5, 3, 6]
    ///
    /// Cost: constant.
    pub fn as_slice(&self) -> &[T]
        ensures { result.now ≡ storage self.now.order self.now.rows }
    {
        self.flat.as_slice()
    }

    /// Returns the slice of the cells, in storage order, for writing. The size and the order stay.
    ///
    ///     [[1, 2], [3, 4]]   as_mut_slice()[1] = 9   row-major [[1, 9], [3, 4]], column-major [[1, 2], [9, 4]]
    ///
    /// Cost: constant.
    pub fn as_mut_slice(&mut self) -> &mut [T]
        ensures* writes_back { sem 𝓛 (lends_slice T.row A.row A.Allocator self.entry result) }
        ensures keeps { KeepsSize self.old }
        ensures cells { result.now ≡ storage self.old.order self.old.rows }
    {
        self.flat.as_mut_slice()
    }

    /// Returns the vector of the cells, in storage order.
    ///
    ///     [[1, 2, 3], [4, 5, 6]]   into_vec()   row-major [1, 2, 3, 4, 5, 6], column-major [1, 4, 2, 5, 3, 6]
    ///
    /// Cost: constant; takes no memory and clones nothing.
    pub fn into_vec(self) -> Vec<T, A>
        ensures { result.items ≡ storage self.order self.rows }
    {
        self.flat.into_vec()
    }
}

/// `grid[(row, col)]` is the cell in a row and a column.
///
///     [[1, 2], [3, 4]]   grid[(1, 0)]   3
///
/// Requires: both are in range.
impl<T, A: Allocator> Index<(usize, usize)> for Grid<T, A> {
    type Output = T;

    ghost can_index = { λ grid at. InRange grid.rows at.0 at.1 };

    ghost index_gives = { λ grid at x. cell grid.rows at.0 at.1 ≡ Some x };

    fn index(&self, at: (usize, usize)) -> &T {
        self.get_unchecked(at.0, at.1)
    }
}

/// `grid[(row, col)] = x` writes a cell. The other cells stay.
///
///     [[1, 2], [3, 4]]   grid[(1, 0)] = 9   [[1, 2], [9, 4]]
///
/// Requires: both are in range.
impl<T, A: Allocator> IndexMut<(usize, usize)> for Grid<T, A> {
    ghost use Rattle.grid.specs.Grid.{lends_cell};

    fn index_mut(&mut self, at: (usize, usize)) -> &mut T
        requires { InRange self.old.rows at.0 at.1 }
        ensures* writes_back { sem 𝓛
            (lends_cell T.row A.row A.Allocator self.entry at.0 at.1 result) }
        ensures item { cell self.old.rows at.0 at.1 ≡ Some result.now }
    {
        self.get_unchecked_mut(at.0, at.1)
    }
}
