//! Iterators over the cells around a cell of a view, and counts of them. They are those of a grid.
ghost use Rattle.std.specs.Prelude.{◌≡◌, ◌≤◌, length};
ghost use Rattle.grid_base.specs.Prelude.{InRange, IsSize, GivesCells, row_count, col_count};
ghost use Rattle.grid_near.specs.Around.{HoldsCells, by_steps, strided_table};
ghost use Rattle.grid_near.specs.NearCounts.{CallableNear, CountsNear};
ghost use Rattle.grid_near.specs.Neighbors.{neighbors4, neighbors8, wrapped_neighbors4, wrapped_neighbors8, around_of, step_count, GivesNear};
ghost use Rattle.grid_near.specs.declared.board.Edges.TheVariants.{Joined};

use crate::view::GridView;
use grid_near::{
    Connectivity, Edges, Neighbors, Strided, WrappedNeighbors, count_near, neighbors_in,
};

impl<'a, T> GridView<'a, T> {
    /// Returns an iterator over the cells that share a side with the cell at this position, row by row, each with its
    /// position.
    ///
    ///     [[1, 2, 3], [4, 5, 6]]   neighbors4((0, 2))   ((0, 1), 2), ((1, 2), 6)
    ///
    /// Cost: each step takes the same time; no memory.
    pub fn neighbors4(&self, at: (usize, usize)) -> Neighbors<'a, T>
        ensures gives { GivesNear (neighbors4 self.now.rows at.0 at.1) result }
        ensures count { length result ≤ 4 }
        ensures cells { GivesCells self.now.rows result }
    {
        self.cells_around(at, Connectivity::Four, Edges::Open)
    }

    /// Returns an iterator over the cells that touch the cell at this position, at a side or a corner, row by row, each
    /// with its position.
    ///
    ///     [[1, 2, 3], [4, 5, 6]]   neighbors8((0, 2))   ((0, 1), 2), ((1, 1), 5), ((1, 2), 6)
    ///
    /// Cost: each step takes the same time; no memory.
    pub fn neighbors8(&self, at: (usize, usize)) -> Neighbors<'a, T>
        ensures gives { GivesNear (neighbors8 self.now.rows at.0 at.1) result }
        ensures count { length result ≤ 8 }
        ensures cells { GivesCells self.now.rows result }
    {
        self.cells_around(at, Connectivity::Eight, Edges::Open)
    }

    /// Same as [`neighbors4`](GridView::neighbors4), on a view whose edges meet: the last row is above the first, and
    /// the last column left of the first. It gives exactly four cells; with one row or column, or two, some of them
    /// come twice. Out of range it gives none.
    ///
    ///     [[1, 2, 3], [4, 5, 6]]   wrapped_neighbors4((0, 2))   ((1, 2), 6), ((0, 1), 2), ((0, 0), 1), ((1, 2), 6)
    ///
    /// Cost: each step takes the same time; no memory.
    pub fn wrapped_neighbors4(&self, at: (usize, usize)) -> WrappedNeighbors<'a, T>
        ensures gives { GivesNear (wrapped_neighbors4 self.now.rows at.0 at.1) result }
        ensures count { InRange self.now.rows at.0 at.1 → length result ≡ 4 }
        ensures at_most { length result ≤ 4 }
        ensures cells { GivesCells self.now.rows result }
    {
        self.cells_around(at, Connectivity::Four, Edges::Joined)
    }

    /// Same as [`neighbors8`](GridView::neighbors8), on a view whose edges meet. It gives exactly eight cells; with one
    /// row or column, or two, some of them come more than once, and the cell itself can be one of them. Out of range it
    /// gives none.
    ///
    ///     [[1, 2, 3], [4, 5, 6], [7, 8, 9]]   wrapped_neighbors8((0, 0))
    ///         9, 7, 8, 3, 2, 6, 4, 5, each with its position
    ///
    /// Cost: each step takes the same time; no memory.
    pub fn wrapped_neighbors8(&self, at: (usize, usize)) -> WrappedNeighbors<'a, T>
        ensures gives { GivesNear (wrapped_neighbors8 self.now.rows at.0 at.1) result }
        ensures count { InRange self.now.rows at.0 at.1 → length result ≡ 8 }
        ensures at_most { length result ≤ 8 }
        ensures cells { GivesCells self.now.rows result }
    {
        self.cells_around(at, Connectivity::Eight, Edges::Joined)
    }

    /// Same as [`count_neighbors8`](GridView::count_neighbors8), of the cells of [`neighbors4`](GridView::neighbors4).
    ///
    ///     [[1, 2, 3], [4, 5, 6]]   count_neighbors4((0, 2), |cell| 4 < *cell)   1: the cell 6
    ///
    /// Requires: the closure can be called at a reference to each of these cells.
    /// Cost: one call for each of the cells, at most four; no memory.
    pub fn count_neighbors4<F: Fn(&T) -> bool>(&self, at: (usize, usize), test: F) -> usize
        requires callable { CallableNear F.pre test (neighbors4 self.now.rows at.0 at.1) }
        ensures count { CountsNear F.post test (neighbors4 self.now.rows at.0 at.1) result }
        ensures at_most { result ≤ 4 }
    {
        count_near(self.neighbors4(at), test)
    }

    /// Returns for how many of the cells that touch the cell at this position the closure returns `true`.
    ///
    ///     [[1, 2, 3], [4, 5, 6]]   count_neighbors8((0, 2), |cell| 4 < *cell)   2: the cells 5 and 6
    ///
    /// Requires: the closure can be called at a reference to each of these cells.
    /// Cost: one call for each of the cells, at most eight; no memory.
    pub fn count_neighbors8<F: Fn(&T) -> bool>(&self, at: (usize, usize), test: F) -> usize
        requires callable { CallableNear F.pre test (neighbors8 self.now.rows at.0 at.1) }
        ensures count { CountsNear F.post test (neighbors8 self.now.rows at.0 at.1) result }
        ensures at_most { result ≤ 8 }
    {
        count_near(self.neighbors8(at), test)
    }

    /// Same as [`count_neighbors8`](GridView::count_neighbors8), of the four cells of
    /// [`wrapped_neighbors4`](GridView::wrapped_neighbors4).
    ///
    ///     [[1, 2, 3], [4, 5, 6], [7, 8, 9]]   count_wrapped_neighbors4((0, 0), |cell| 3 < *cell)   2: 7, 4
    ///
    /// Requires: the closure can be called at a reference to each of these cells.
    /// Cost: four calls; no memory.
    pub fn count_wrapped_neighbors4<F: Fn(&T) -> bool>(&self, at: (usize, usize), test: F) -> usize
        requires callable { CallableNear F.pre test (wrapped_neighbors4 self.now.rows at.0 at.1) }
        ensures count { CountsNear F.post test (wrapped_neighbors4 self.now.rows at.0 at.1) result }
        ensures at_most { result ≤ 4 }
    {
        count_near(self.wrapped_neighbors4(at), test)
    }

    /// Same as [`count_neighbors8`](GridView::count_neighbors8), of the eight cells of
    /// [`wrapped_neighbors8`](GridView::wrapped_neighbors8).
    ///
    ///     [[1, 2, 3], [4, 5, 6], [7, 8, 9]]   count_wrapped_neighbors8((0, 0), |cell| 4 < *cell)   5: 5, 6, 7, 8, 9
    ///
    /// Requires: the closure can be called at a reference to each of these cells.
    /// Cost: eight calls; no memory.
    pub fn count_wrapped_neighbors8<F: Fn(&T) -> bool>(&self, at: (usize, usize), test: F) -> usize
        requires callable { CallableNear F.pre test (wrapped_neighbors8 self.now.rows at.0 at.1) }
        ensures count { CountsNear F.post test (wrapped_neighbors8 self.now.rows at.0 at.1) result }
        ensures at_most { result ≤ 8 }
    {
        count_near(self.wrapped_neighbors8(at), test)
    }

    // The cells around a cell, by their connectivity and by what the edges do.
    #[inline(always)]
    fn cells_around(
        &self,
        at: (usize, usize),
        connectivity: Connectivity,
        edges: Edges,
    ) -> Neighbors<'a, T>
        ensures gives { GivesNear (around_of connectivity edges self.now.rows at.0 at.1) result }
        ensures count { edges ≡ Joined → InRange self.now.rows at.0 at.1
            → length result ≡ step_count connectivity }
        ensures at_most { length result ≤ step_count connectivity }
        ensures cells { GivesCells self.now.rows result }
    {
        neighbors_in(self.strided(), at, connectivity, edges)
    }

    // The table by the steps between its cells, where a step back is one modulo 2^64.
    fn strided(&self) -> Strided<'a, T>
        ensures size { IsSize result.size.0 result.size.1 }
        ensures rows { result.size.0 ≡ row_count self.now.rows }
        ensures cols { result.size.1 ≡ col_count self.now.rows }
        ensures holds { HoldsCells result.cells.now result.size
            (by_steps result.start result.strides) }
        ensures table { strided_table result.cells.now result.size result.start result.strides
            ≡ self.now.rows }
    {
        let size = self.size();
        if size.0 == 0 {
            return Strided {
                cells: self.cells,
                size,
                start: 0,
                strides: (1, 1),
            };
        }
        let (top, down) = self.rows.steps();
        let (left, right) = self.cols.steps();
        Strided {
            cells: self.cells,
            size,
            start: top + left,
            strides: (down, right),
        }
    }
}
