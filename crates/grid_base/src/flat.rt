//! The vector of a grid's cells.
ghost use Rattle.std.specs.Prelude.{◌≡◌, ◌<◌, ◌≤◌, ◌+◌, [], length, swap, slice_get, Some, IfOk, List};
ghost use Rattle.grid_base.specs.Prelude.{sem, YieldsMutRefsInOrder, YieldsMutRefsInReverse, iter_mut_rest, iter_mut_steps, iter_mut_steps_back, BlocksSwapped, BlockTaken, ClonesAreEqual};

mod all_cells;
mod counted;
mod ends;
mod gather;
mod groups;
mod indexed;
mod line_iter;
mod line_iter_mut;
mod positions;
mod refill;
mod room;
mod rotations;
mod row_mut;
mod span;
mod square;
mod stepped_iter;
mod transpose;

pub(crate) use counted::Swaps;
pub use ends::move_last;
pub use groups::{Groups, weave};
pub use indexed::{IndexedIntoIter, IndexedIter, IndexedIterMut};
pub use line_iter::{GridLineIter, clones_of_line};
pub use line_iter_mut::GridLineIterMut;
pub use positions::Positions;
use std::alloc::{AllocError, Allocator, Global};
use std::marker::Model;
use std::slice;
pub use stepped_iter::SteppedIter;

/// The only holder of a grid's vector, seen as the list of its cells.
#[derive(Drop)]
pub struct Flat<T, A: Allocator = Global> {
    cells: Vec<T, A>,
}

impl<T, A: Allocator> Model for Flat<T, A> {
    ghost Value = { List T };

    ghost view = { λ f. f.cells.items };
}

impl<T, A: Allocator> Flat<T, A> {
    ghost use Rattle.grid_base.specs.Flat.{lends_place};
    ghost use Rattle.grid_base.specs.FlatLends.{lends_cells, lends_slice};

    /// Returns the `Flat` of the cells of a vector.
    pub fn from_vec(cells: Vec<T, A>) -> Flat<T, A>
        ensures { result ≡ cells.items }
    {
        Flat { cells }
    }

    /// Returns the vector.
    pub fn into_vec(self) -> Vec<T, A>
        ensures { result.items ≡ self }
    {
        let Flat { cells } = self;
        cells
    }

    /// Returns the number of cells.
    pub fn len(&self) -> usize
        ensures { result ≡ length self.now }
    {
        self.cells.len()
    }

    /// Returns the vector, to read.
    pub fn as_vec(&self) -> &Vec<T, A>
        ensures { result.now.items ≡ self.now }
    {
        &self.cells
    }

    /// Returns the cells.
    pub fn as_slice(&self) -> &[T]
        ensures { result.now ≡ self.now }
    {
        self.cells.as_slice()
    }

    /// Returns the cells, for writing.
    pub fn as_mut_slice(&mut self) -> &mut [T]
        ensures* writes_back { sem 𝓛 (lends_slice T.row A.row A.Allocator self.entry result) }
        ensures cells { result.now ≡ self.old }
    {
        self.cells.as_mut()
    }

    /// Returns an iterator over the cells in order, for writing.
    pub fn iter_mut(&mut self) -> slice::IterMut<'_, T>
        ensures* writes_back { sem 𝓛 (lends_cells T.row A.row A.Allocator self.entry result) }
        ensures rest { iter_mut_rest result ≡ self.old }
        ensures runs { YieldsMutRefsInOrder (iter_mut_steps {A = T}) iter_mut_rest }
        ensures runs_back { YieldsMutRefsInReverse (iter_mut_steps_back {A = T}) iter_mut_rest }
    {
        self.cells.as_mut_slice().iter_mut()
    }

    /// Returns the cell at a place.
    ///
    /// Requires: the place is in range.
    pub fn at(&self, place: usize) -> &T
        requires { place < length self.now }
        ensures { slice_get self.now place ≡ Some result.now }
    {
        &self.cells[place]
    }

    /// Returns the cell at a place, for writing. The other cells stay.
    ///
    /// Requires: the place is in range.
    pub fn at_mut(&mut self, place: usize) -> &mut T
        requires { place < length self.old }
        ensures* writes_back { sem 𝓛 (lends_place T.row A.row A.Allocator self.entry place result) }
        ensures item { slice_get self.old place ≡ Some result.now }
    {
        &mut self.cells[place]
    }

    /// Exchanges two cells. No tally counts it.
    ///
    /// Requires: both places are in range.
    pub fn swap(&mut self, i: usize, j: usize)
        requires i_in { i < length self.old }
        requires j_in { j < length self.old }
        ensures { self.new ≡ swap self.old i j }
    {
        self.cells.swap(i, j);
    }

    /// Exchanges the `n` cells from `i` on with those from `j` on, in vector code. No tally counts it.
    ///
    ///     [1, 2, 3, 4, 5]   swap_blocks(0, 3, 2)   [4, 5, 3, 1, 2]
    ///
    /// Requires: both blocks are in range, and the second begins after the first.
    pub fn swap_blocks(&mut self, i: usize, j: usize, n: usize)
        requires apart { i + n ≤ j }
        requires within { j + n ≤ length self.old }
        ensures { BlocksSwapped i j n self.old self.new }
    {
        let (front, back) = self.cells.as_mut_slice().split_at_mut(j);
        front[i..i + n].swap_with_slice(&mut back[..n]);
    }

    /// Exchanges the `n` cells from `i` on with those of another vector from `j` on, in vector code. No tally counts
    /// it.
    ///
    ///     [1, 2, 3, 4]   swap_with(1, [5, 6], 0, 2)   [1, 5, 6, 4], and [2, 3]
    ///
    /// Requires: both blocks are in range.
    pub fn swap_with(&mut self, i: usize, other: &mut Flat<T, A>, j: usize, n: usize)
        requires within { i + n ≤ length self.old }
        requires within_other { j + n ≤ length other.old }
        ensures taken { BlockTaken i j n self.old other.old self.new }
        ensures given { BlockTaken j i n other.old self.old other.new }
    {
        let (cells, others) = (self.cells.as_mut_slice(), other.cells.as_mut_slice());
        rotations::swap_parts(cells, i, others, j, n);
    }

    /// Drops all cells.
    pub fn clear(&mut self)
    where
        T: Drop,
        ensures { self.new ≡ [] }
    {
        self.cells.clear();
    }
}

impl<T: Clone, A: Allocator + Clone> Flat<T, A> {
    /// Returns clones of the cells, in a vector of their own.
    ///
    /// Requires: clones of the cell type equal their source.
    /// Fails: if allocation fails, for the vector or in a clone.
    /// Cost: one clone for each cell.
    pub fn clone(&self) -> Result<Flat<T, A>, AllocError>
        requires clones { ClonesAreEqual T.is_clone }
        ensures { IfOk result (λ copy. copy ≡ self.now) }
    {
        let cells = self.cells.clone()?;
        Ok(Flat { cells })
    }
}
