//! Iterators over the cells around a cell, on the grid as it is or with its edges joined.
ghost use Rattle.std.specs.Prelude.{◌≡◌, ◌≤◌, length, IfOk};
ghost use Rattle.grid.specs.Prelude.{InRange, SameSizeAndOrder, storage, CallableAtRefs, GivesCells, CallableAround, ReachesAround, MapAround, CallableCounted, MapCounts, CallableSummed, MapSums, CallableNear, CountsNear, neighbors4, neighbors8, wrapped_neighbors4, wrapped_neighbors8, around_of, step_count, GivesNear};
ghost use Rattle.grid_near.specs.declared.board.Edges.TheVariants.{Joined};

use crate::Grid;
use grid_base::{Flat, Layout};
use grid_near::{Board, Connectivity, Edges, Neighbors, WrappedNeighbors};
use std::alloc::{AllocError, Allocator};

impl<T, A: Allocator> Grid<T, A> {
    /// Returns an iterator over the cells that share a side with the cell at this position, row by row, each with its
    /// position.
    ///
    ///     [[1, 2, 3], [4, 5, 6]]   neighbors4((0, 2))   ((0, 1), 2), ((1, 2), 6)
    ///
    /// Cost: each step takes the same time, in either order; no memory.
    pub fn neighbors4(&self, at: (usize, usize)) -> Neighbors<'_, T>
        ensures gives { GivesNear (neighbors4 self.now.rows at.0 at.1) result }
        ensures count { length result ≤ 4 }
        ensures cells { GivesCells self.now.rows result }
    {
        self.cells_around(at, Connectivity::Four, Edges::Open)
    }

    /// Returns an iterator over the cells that touch the cell at this position, at a side or a corner, row by row, each
    /// with its position.
    ///
    ///     [[1, 2, 3], [4, 5, 6]]   neighbors8((0, 2))   ((0, 1), 2), ((1, 1), 5), ((1, 2), 6)
    ///
    /// Cost: each step takes the same time, in either order; no memory.
    pub fn neighbors8(&self, at: (usize, usize)) -> Neighbors<'_, T>
        ensures gives { GivesNear (neighbors8 self.now.rows at.0 at.1) result }
        ensures count { length result ≤ 8 }
        ensures cells { GivesCells self.now.rows result }
    {
        self.cells_around(at, Connectivity::Eight, Edges::Open)
    }

    /// Same as [`neighbors4`](Grid::neighbors4), on a grid whose edges meet: the last row is above the first, and the
    /// last column left of the first. It gives exactly four cells; with one row or column, or two, some of them come
    /// twice. Out of range it gives none.
    ///
    ///     [[1, 2, 3], [4, 5, 6]]   wrapped_neighbors4((0, 2))   ((1, 2), 6), ((0, 1), 2), ((0, 0), 1), ((1, 2), 6)
    ///
    /// Cost: each step takes the same time, in either order; no memory.
    pub fn wrapped_neighbors4(&self, at: (usize, usize)) -> WrappedNeighbors<'_, T>
        ensures gives { GivesNear (wrapped_neighbors4 self.now.rows at.0 at.1) result }
        ensures count { InRange self.now.rows at.0 at.1 → length result ≡ 4 }
        ensures at_most { length result ≤ 4 }
        ensures cells { GivesCells self.now.rows result }
    {
        self.cells_around(at, Connectivity::Four, Edges::Joined)
    }

    /// Same as [`neighbors8`](Grid::neighbors8), on a grid whose edges meet: the last row is above the first, and the
    /// last column left of the first. It gives exactly eight cells; with one row or column, or two, some of them come
    /// more than once, and the cell itself can be one of them. Out of range it gives none.
    ///
    ///     [[1, 2, 3], [4, 5, 6], [7, 8, 9]]   wrapped_neighbors8((0, 0))
    ///         9, 7, 8, 3, 2, 6, 4, 5, each with its position
    ///
    /// Cost: each step takes the same time, in either order; no memory.
    pub fn wrapped_neighbors8(&self, at: (usize, usize)) -> WrappedNeighbors<'_, T>
        ensures gives { GivesNear (wrapped_neighbors8 self.now.rows at.0 at.1) result }
        ensures count { InRange self.now.rows at.0 at.1 → length result ≡ 8 }
        ensures at_most { length result ≤ 8 }
        ensures cells { GivesCells self.now.rows result }
    {
        self.cells_around(at, Connectivity::Eight, Edges::Joined)
    }

    /// Same as [`map_neighbors8`](Grid::map_neighbors8), with the iterator that [`neighbors4`](Grid::neighbors4) gives.
    pub fn map_neighbors4<U, F: Fn((usize, usize), &T, Neighbors<'_, T>) -> U>(
        &self,
        f: F,
    ) -> Result<Grid<U, A>, AllocError>
    where
        A: Clone,
        requires { CallableAround neighbors4 F.pre f self.now.rows }
        ensures same { IfOk result (SameSizeAndOrder self.now) }
        ensures cells { MapAround neighbors4 F.post f self.now.rows result }
    {
        self.map_around(Connectivity::Four, Edges::Open, f)
    }

    /// Returns the grid of what the closure, called in storage order, returns for each position, a reference to the
    /// cell there, and the iterator that [`neighbors8`](Grid::neighbors8) gives. The size and the order are the same.
    ///
    ///     [[1, 2, 3], [4, 5, 6]]   map_neighbors8(|_, x, near| near.fold(*x, |sum, (_, y)| sum + *y))
    ///                              [[12, 21, 16], [12, 21, 16]]
    ///
    /// Requires: the closure can be called at each position, a reference to the cell there, and the cells around it.
    /// Fails: if allocation fails; the closure wasn't called.
    /// Cost: one call for each cell; one allocation, before the first call.
    pub fn map_neighbors8<U, F: Fn((usize, usize), &T, Neighbors<'_, T>) -> U>(
        &self,
        f: F,
    ) -> Result<Grid<U, A>, AllocError>
    where
        A: Clone,
        requires { CallableAround neighbors8 F.pre f self.now.rows }
        ensures same { IfOk result (SameSizeAndOrder self.now) }
        ensures cells { MapAround neighbors8 F.post f self.now.rows result }
    {
        self.map_around(Connectivity::Eight, Edges::Open, f)
    }

    /// Same as [`map_neighbors8`](Grid::map_neighbors8), with the iterator that
    /// [`wrapped_neighbors4`](Grid::wrapped_neighbors4) gives.
    pub fn map_wrapped_neighbors4<U, F: Fn((usize, usize), &T, WrappedNeighbors<'_, T>) -> U>(
        &self,
        f: F,
    ) -> Result<Grid<U, A>, AllocError>
    where
        A: Clone,
        requires { CallableAround wrapped_neighbors4 F.pre f self.now.rows }
        ensures same { IfOk result (SameSizeAndOrder self.now) }
        ensures cells { MapAround wrapped_neighbors4 F.post f self.now.rows result }
    {
        self.map_around(Connectivity::Four, Edges::Joined, f)
    }

    /// Same as [`map_neighbors8`](Grid::map_neighbors8), with the iterator that
    /// [`wrapped_neighbors8`](Grid::wrapped_neighbors8) gives.
    pub fn map_wrapped_neighbors8<U, F: Fn((usize, usize), &T, WrappedNeighbors<'_, T>) -> U>(
        &self,
        f: F,
    ) -> Result<Grid<U, A>, AllocError>
    where
        A: Clone,
        requires { CallableAround wrapped_neighbors8 F.pre f self.now.rows }
        ensures same { IfOk result (SameSizeAndOrder self.now) }
        ensures cells { MapAround wrapped_neighbors8 F.post f self.now.rows result }
    {
        self.map_around(Connectivity::Eight, Edges::Joined, f)
    }

    /// Same as [`count_neighbors8`](Grid::count_neighbors8), of the cells of [`neighbors4`](Grid::neighbors4).
    ///
    ///     [[1, 2, 3], [4, 5, 6]]   count_neighbors4((0, 2), |cell| 4 < *cell)   1: the cell 6
    ///
    /// Requires: the closure can be called at a reference to each of these cells.
    /// Cost: one call for each of the cells, at most four; no memory.
    pub fn count_neighbors4<F: Fn(&T) -> bool>(&self, at: (usize, usize), test: F) -> usize
        requires callable { CallableNear F.pre test (neighbors4 self.now.rows at.0 at.1) }
        ensures count { CountsNear F.post test (neighbors4 self.now.rows at.0 at.1) result }
        ensures at_most { result ≤ 4 }
    {
        grid_near::count_near(self.neighbors4(at), test)
    }

    /// Returns for how many of the cells that touch the cell at this position the closure returns `true`. It counts as
    /// fast as a loop over [`neighbors8`](Grid::neighbors8), where `filter` and `count` do not.
    ///
    ///     [[1, 2, 3], [4, 5, 6]]   count_neighbors8((0, 2), |cell| 4 < *cell)   2: the cells 5 and 6
    ///
    /// Requires: the closure can be called at a reference to each of these cells.
    /// Cost: one call for each of the cells, at most eight; no memory.
    pub fn count_neighbors8<F: Fn(&T) -> bool>(&self, at: (usize, usize), test: F) -> usize
        requires callable { CallableNear F.pre test (neighbors8 self.now.rows at.0 at.1) }
        ensures count { CountsNear F.post test (neighbors8 self.now.rows at.0 at.1) result }
        ensures at_most { result ≤ 8 }
    {
        grid_near::count_near(self.neighbors8(at), test)
    }

    /// Same as [`count_neighbors8`](Grid::count_neighbors8), of the four cells of
    /// [`wrapped_neighbors4`](Grid::wrapped_neighbors4).
    ///
    ///     [[1, 2, 3], [4, 5, 6], [7, 8, 9]]   count_wrapped_neighbors4((0, 0), |cell| 3 < *cell)   2: 7, 4
    ///
    /// Requires: the closure can be called at a reference to each of these cells.
    /// Cost: four calls; no memory.
    pub fn count_wrapped_neighbors4<F: Fn(&T) -> bool>(&self, at: (usize, usize), test: F) -> usize
        requires callable { CallableNear F.pre test (wrapped_neighbors4 self.now.rows at.0 at.1) }
        ensures count { CountsNear F.post test (wrapped_neighbors4 self.now.rows at.0 at.1) result }
        ensures at_most { result ≤ 4 }
    {
        grid_near::count_near(self.wrapped_neighbors4(at), test)
    }

    /// Same as [`count_neighbors8`](Grid::count_neighbors8), of the eight cells of
    /// [`wrapped_neighbors8`](Grid::wrapped_neighbors8).
    ///
    ///     [[1, 2, 3], [4, 5, 6], [7, 8, 9]]   count_wrapped_neighbors8((0, 0), |cell| 4 < *cell)   5: 5, 6, 7, 8, 9
    ///
    /// Requires: the closure can be called at a reference to each of these cells.
    /// Cost: eight calls; no memory.
    pub fn count_wrapped_neighbors8<F: Fn(&T) -> bool>(&self, at: (usize, usize), test: F) -> usize
        requires callable { CallableNear F.pre test (wrapped_neighbors8 self.now.rows at.0 at.1) }
        ensures count { CountsNear F.post test (wrapped_neighbors8 self.now.rows at.0 at.1) result }
        ensures at_most { result ≤ 8 }
    {
        grid_near::count_near(self.wrapped_neighbors8(at), test)
    }

    /// Returns the grid of what the closure `rule` returns for a reference to each cell and how many of the cells
    /// that touch it, at a side or a corner, for which the closure `test` returns `true`. The size and the order are
    /// the same.
    ///
    ///     [[1, 2, 3], [4, 5, 6]]   map_counts8(|x| 4 < *x, |_, n| n)   [[1, 2, 2], [1, 1, 1]]
    ///
    /// It takes a tenth of the time of [`map_indexed`](Grid::map_indexed) with
    /// [`count_neighbors8`](Grid::count_neighbors8), or less, where `rule` has no branch: write `|` and `&` in it, and
    /// not `||` and `&&`.
    ///
    /// Requires: the closures can be called with these arguments.
    /// Fails: if allocation fails; neither closure was called.
    /// Cost: one call of each closure for each cell; one allocation, and three of a line of `bool`s, before the first
    /// call.
    pub fn map_counts8<U, F: Fn(&T) -> bool, G: Fn(&T, u8) -> U>(
        &self,
        test: F,
        rule: G,
    ) -> Result<Grid<U, A>, AllocError>
    where
        A: Clone,
        requires tests { CallableAtRefs F.pre test (storage self.now.order self.now.rows) }
        requires calls { CallableCounted neighbors8 F.post test G.pre rule self.now.rows }
        ensures same { IfOk result (SameSizeAndOrder self.now) }
        ensures cells { MapCounts neighbors8 F.post test G.post rule self.now.rows result }
    {
        self.counts_around(Connectivity::Eight, Edges::Open, test, rule)
    }

    /// Same as [`map_counts8`](Grid::map_counts8), on a grid whose edges meet, as
    /// [`count_wrapped_neighbors8`](Grid::count_wrapped_neighbors8) counts.
    ///
    ///     [[1, 2, 3], [4, 5, 6], [7, 8, 9]]   map_wrapped_counts8(|x| 4 < *x, |_, n| n)
    ///         [[5, 5, 5], [5, 4, 4], [4, 4, 4]]
    ///
    /// Requires: the closures can be called with these arguments.
    /// Fails: if allocation fails; neither closure was called.
    /// Cost: one call of each closure for each cell, and one more of `test` for each cell of two lines; one allocation,
    /// and three of a line of `bool`s, before the first call.
    pub fn map_wrapped_counts8<U, F: Fn(&T) -> bool, G: Fn(&T, u8) -> U>(
        &self,
        test: F,
        rule: G,
    ) -> Result<Grid<U, A>, AllocError>
    where
        A: Clone,
        requires tests { CallableAtRefs F.pre test (storage self.now.order self.now.rows) }
        requires calls { CallableCounted wrapped_neighbors8 F.post test G.pre rule self.now.rows }
        ensures same { IfOk result (SameSizeAndOrder self.now) }
        ensures cells { MapCounts wrapped_neighbors8 F.post test G.post rule self.now.rows result }
    {
        self.counts_around(Connectivity::Eight, Edges::Joined, test, rule)
    }

    /// Same as [`map_counts8`](Grid::map_counts8), with the sum of what the closure `weight` returns at the cells that
    /// touch a cell in place of the number of those that pass, as for a blur.
    ///
    ///     [[1, 2, 3], [4, 5, 6]]   map_sums8(|x| *x, |x, sum| sum + u16::from(*x))   [[12, 21, 16], [12, 21, 16]]
    ///
    /// Requires: the closures can be called with these arguments.
    /// Fails: if allocation fails; neither closure was called.
    /// Cost: one call of each closure for each cell; one allocation, and three of a line of `u8`s, before the first
    /// call.
    pub fn map_sums8<U, F: Fn(&T) -> u8, G: Fn(&T, u16) -> U>(
        &self,
        weight: F,
        rule: G,
    ) -> Result<Grid<U, A>, AllocError>
    where
        A: Clone,
        requires weights { CallableAtRefs F.pre weight (storage self.now.order self.now.rows) }
        requires calls { CallableSummed neighbors8 F.post weight G.pre rule self.now.rows }
        ensures same { IfOk result (SameSizeAndOrder self.now) }
        ensures cells { MapSums neighbors8 F.post weight G.post rule self.now.rows result }
    {
        self.sums_around(Connectivity::Eight, Edges::Open, weight, rule)
    }

    /// Same as [`map_sums8`](Grid::map_sums8), on a grid whose edges meet.
    ///
    ///     [[1, 2, 3], [4, 5, 6], [7, 8, 9]]   map_wrapped_sums8(|x| *x, |_, sum| sum)
    ///         [[44, 43, 42], [41, 40, 39], [38, 37, 36]]
    ///
    /// Requires: the closures can be called with these arguments.
    /// Fails: if allocation fails; neither closure was called.
    /// Cost: one call of each closure for each cell, and one more of `weight` for each cell of two lines; one
    /// allocation, and three of a line of `u8`s, before the first call.
    pub fn map_wrapped_sums8<U, F: Fn(&T) -> u8, G: Fn(&T, u16) -> U>(
        &self,
        weight: F,
        rule: G,
    ) -> Result<Grid<U, A>, AllocError>
    where
        A: Clone,
        requires weights { CallableAtRefs F.pre weight (storage self.now.order self.now.rows) }
        requires calls { CallableSummed wrapped_neighbors8 F.post weight G.pre rule self.now.rows }
        ensures same { IfOk result (SameSizeAndOrder self.now) }
        ensures cells { MapSums wrapped_neighbors8 F.post weight G.post rule self.now.rows result }
    {
        self.sums_around(Connectivity::Eight, Edges::Joined, weight, rule)
    }

    /// Same as [`map_counts8`](Grid::map_counts8), of the four cells that share a side with a cell.
    pub fn map_counts4<U, F: Fn(&T) -> bool, G: Fn(&T, u8) -> U>(
        &self,
        test: F,
        rule: G,
    ) -> Result<Grid<U, A>, AllocError>
    where
        A: Clone,
        requires tests { CallableAtRefs F.pre test (storage self.now.order self.now.rows) }
        requires calls { CallableCounted neighbors4 F.post test G.pre rule self.now.rows }
        ensures same { IfOk result (SameSizeAndOrder self.now) }
        ensures cells { MapCounts neighbors4 F.post test G.post rule self.now.rows result }
    {
        self.counts_around(Connectivity::Four, Edges::Open, test, rule)
    }

    /// Same as [`map_wrapped_counts8`](Grid::map_wrapped_counts8), of the four cells that share a side with a cell.
    pub fn map_wrapped_counts4<U, F: Fn(&T) -> bool, G: Fn(&T, u8) -> U>(
        &self,
        test: F,
        rule: G,
    ) -> Result<Grid<U, A>, AllocError>
    where
        A: Clone,
        requires tests { CallableAtRefs F.pre test (storage self.now.order self.now.rows) }
        requires calls { CallableCounted wrapped_neighbors4 F.post test G.pre rule self.now.rows }
        ensures same { IfOk result (SameSizeAndOrder self.now) }
        ensures cells { MapCounts wrapped_neighbors4 F.post test G.post rule self.now.rows result }
    {
        self.counts_around(Connectivity::Four, Edges::Joined, test, rule)
    }

    /// Same as [`map_sums8`](Grid::map_sums8), of the four cells that share a side with a cell.
    pub fn map_sums4<U, F: Fn(&T) -> u8, G: Fn(&T, u16) -> U>(
        &self,
        weight: F,
        rule: G,
    ) -> Result<Grid<U, A>, AllocError>
    where
        A: Clone,
        requires weights { CallableAtRefs F.pre weight (storage self.now.order self.now.rows) }
        requires calls { CallableSummed neighbors4 F.post weight G.pre rule self.now.rows }
        ensures same { IfOk result (SameSizeAndOrder self.now) }
        ensures cells { MapSums neighbors4 F.post weight G.post rule self.now.rows result }
    {
        self.sums_around(Connectivity::Four, Edges::Open, weight, rule)
    }

    /// Same as [`map_wrapped_sums8`](Grid::map_wrapped_sums8), of the four cells that share a side with a cell.
    pub fn map_wrapped_sums4<U, F: Fn(&T) -> u8, G: Fn(&T, u16) -> U>(
        &self,
        weight: F,
        rule: G,
    ) -> Result<Grid<U, A>, AllocError>
    where
        A: Clone,
        requires weights { CallableAtRefs F.pre weight (storage self.now.order self.now.rows) }
        requires calls { CallableSummed wrapped_neighbors4 F.post weight G.pre rule self.now.rows }
        ensures same { IfOk result (SameSizeAndOrder self.now) }
        ensures cells { MapSums wrapped_neighbors4 F.post weight G.post rule self.now.rows result }
    {
        self.sums_around(Connectivity::Four, Edges::Joined, weight, rule)
    }

    // The cells around a cell, by their connectivity and by what the edges do.
    #[inline(always)]
    fn cells_around(
        &self,
        at: (usize, usize),
        connectivity: Connectivity,
        edges: Edges,
    ) -> Neighbors<'_, T>
        ensures gives { GivesNear (around_of connectivity edges self.now.rows at.0 at.1) result }
        ensures count { edges ≡ Joined → InRange self.now.rows at.0 at.1
            → length result ≡ step_count connectivity }
        ensures at_most { length result ≤ step_count connectivity }
        ensures cells { GivesCells self.now.rows result }
    {
        let (order, rows, cols) = (self.order, self.row_count, self.col_count);
        let layout = Layout { order, rows, cols };
        grid_near::neighbors_of(self.flat.as_slice(), layout, at, connectivity, edges)
    }

    // What the closure returns at each cell and the cells around it.
    fn map_around<U, F: Fn((usize, usize), &T, Neighbors<'_, T>) -> U>(
        &self,
        connectivity: Connectivity,
        edges: Edges,
        f: F,
    ) -> Result<Grid<U, A>, AllocError>
    where
        A: Clone,
        requires { CallableAround (around_of connectivity edges) F.pre f self.now.rows }
        ensures same { IfOk result (SameSizeAndOrder self.now) }
        ensures cells { MapAround (around_of connectivity edges) F.post f self.now.rows result }
    {
        self.map_indexed(
            |at, cell|
                requires { ReachesAround (around_of connectivity edges) F.pre f self.now.rows at
                    cell }
            { f(at, cell, self.cells_around(at, connectivity, edges)) },
        )
    }

    // What the closure returns at each cell and how many of the cells around it pass.
    fn counts_around<U, F: Fn(&T) -> bool, G: Fn(&T, u8) -> U>(
        &self,
        connectivity: Connectivity,
        edges: Edges,
        test: F,
        rule: G,
    ) -> Result<Grid<U, A>, AllocError>
    where
        A: Clone,
        requires tests { CallableAtRefs F.pre test (storage self.now.order self.now.rows) }
        requires calls { CallableCounted (around_of connectivity edges) F.post test G.pre rule
            self.now.rows }
        ensures same { IfOk result (SameSizeAndOrder self.now) }
        ensures cells { MapCounts (around_of connectivity edges) F.post test G.post rule
            self.now.rows result }
    {
        let (order, rows, cols) = (self.order, self.row_count, self.col_count);
        let alloc = self.allocator().clone()?;
        let cells = self.flat.as_slice();
        let board = Board {
            cells,
            layout: Layout { order, rows, cols },
            edges,
            connectivity,
            mark: &test,
        };
        let made = grid_near::map_counts(alloc, &board, rule)?;
        Ok(Grid {
            flat: Flat::from_vec(made),
            row_count: rows,
            col_count: cols,
            order,
        })
    }

    // What the closure returns at each cell and the sum of those around it.
    fn sums_around<U, F: Fn(&T) -> u8, G: Fn(&T, u16) -> U>(
        &self,
        connectivity: Connectivity,
        edges: Edges,
        weight: F,
        rule: G,
    ) -> Result<Grid<U, A>, AllocError>
    where
        A: Clone,
        requires weights { CallableAtRefs F.pre weight (storage self.now.order self.now.rows) }
        requires calls { CallableSummed (around_of connectivity edges) F.post weight G.pre rule
            self.now.rows }
        ensures same { IfOk result (SameSizeAndOrder self.now) }
        ensures cells { MapSums (around_of connectivity edges) F.post weight G.post rule
            self.now.rows result }
    {
        let (order, rows, cols) = (self.order, self.row_count, self.col_count);
        let alloc = self.allocator().clone()?;
        let cells = self.flat.as_slice();
        let board = Board {
            cells,
            layout: Layout { order, rows, cols },
            edges,
            connectivity,
            mark: &weight,
        };
        let made = grid_near::map_sums(alloc, &board, rule)?;
        Ok(Grid {
            flat: Flat::from_vec(made),
            row_count: rows,
            col_count: cols,
            order,
        })
    }
}
