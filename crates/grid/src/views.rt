//! Views of a grid and of its parts, and grids of the cells of a view.
ghost use Rattle.std.specs.Prelude.{◌≡◌, ◌+◌, ◌<◌, ◌≤◌, ◌⊎◌, ◌==◌, if◌then◌else◌, [], IfOk, IfSome, MatchOption};
ghost use Rattle.grid.specs.Prelude.{ClonesAreEqual, row_count, col_count, sub_table, CallableAtPositions, MappedBy, ReachesThere, ReturnsThere};

use crate::{Grid, Order};
use grid_view::{AsView, GridView};
use std::alloc::{AllocError, Allocator};

impl<T, A: Allocator> Grid<T, A> {
    /// Returns a view of the grid.
    ///
    /// Cost: constant; no cell is copied, and no memory is taken.
    pub fn view(&self) -> GridView<'_, T>
        ensures { result.rows ≡ self.now.rows }
    {
        GridView::over(
            self.flat.as_slice(),
            self.order,
            self.row_count,
            self.col_count,
        )
    }

    /// Returns a view of the `size.0` rows and `size.1` columns from position `at` on. Without rows or without columns
    /// it is empty.
    ///
    ///     [[1, 2, 3], [4, 5, 6]]   part((0, 1), (2, 2))   [[2, 3], [5, 6]]
    ///
    /// Requires: the part is within the grid.
    /// Cost: constant; no cell is copied, and no memory is taken.
    pub fn part(&self, at: (usize, usize), size: (usize, usize)) -> GridView<'_, T>
        requires rows_in { at.0 + size.0 ≤ row_count self.now.rows }
        requires cols_in { at.1 + size.1 ≤ col_count self.now.rows }
        ensures rows { 0 < size.0 → 0 < size.1 → result.rows ≡ sub_table self.now.rows at size }
        ensures none { (size.0 ≡ 0) ⊎ (size.1 ≡ 0) → result.rows ≡ [] }
        ensures row_count { row_count result.rows ≡ (if size.1 == 0 then 0 else size.0) }
        ensures col_count { col_count result.rows ≡ (if size.0 == 0 then 0 else size.1) }
    {
        self.view().part(at, size)
    }

    /// Same as [`part`](Grid::part), or `None` where the part isn't within the grid.
    ///
    ///     [[1, 2, 3], [4, 5, 6]]   get_part((0, 1), (2, 2))   Some([[2, 3], [5, 6]])
    ///     [[1, 2, 3], [4, 5, 6]]   get_part((0, 2), (2, 2))   None
    pub fn get_part(&self, at: (usize, usize), size: (usize, usize)) -> Option<GridView<'_, T>>
        ensures in_range { MatchOption result
            (at.0 + size.0 ≤ row_count self.now.rows → at.1 + size.1 ≤ col_count self.now.rows → ⊥)
            (λ _. (at.0 + size.0 ≤ row_count self.now.rows)
            × (at.1 + size.1 ≤ col_count self.now.rows)) }
        ensures rows { IfSome result (λ view. 0 < size.0 → 0 < size.1
            → view.rows ≡ sub_table self.now.rows at size) }
        ensures none { IfSome result (λ view. (size.0 ≡ 0) ⊎ (size.1 ≡ 0) → view.rows ≡ []) }
        ensures row_count { IfSome result
            (λ view. row_count view.rows ≡ (if size.1 == 0 then 0 else size.0)) }
        ensures col_count { IfSome result
            (λ view. col_count view.rows ≡ (if size.0 == 0 then 0 else size.1)) }
    {
        self.view().get_part(at, size)
    }

    /// Returns the grid of clones of the cells of a view, in an order.
    ///
    ///     from_view(ColumnMajor, [[1, 2], [3, 4]])   [[1, 2], [3, 4]]
    ///
    /// Requires: clones of the cell type equal their source.
    /// Fails: if allocation fails, for the vector or in a clone.
    /// Cost: one clone for each cell; one allocation, before the first clone.
    pub fn from_view(
        alloc: A,
        order: Order,
        view: &GridView<'_, T>,
    ) -> Result<Grid<T, A>, AllocError>
    where
        T: Clone,
        requires { ClonesAreEqual T.is_clone }
        ensures rows { IfOk result (λ grid. grid.rows ≡ view.now.rows) }
        ensures order { IfOk result (λ grid. grid.order ≡ order) }
    {
        let cells = view.to_vec(alloc, order)?;
        Ok(Grid::from_vec_with_order(cells, view.cols(), order))
    }

    /// Returns the grid, in an order, of what the closure, called in storage order, returns for each position of a
    /// board and a reference to the cell there. The board is a grid, a part, a turned or a deferred one; it is not
    /// copied.
    ///
    ///     map_view(ColumnMajor, [[1, 2], [3, 4]], |(row, col), x| row * 10 + col + *x)   [[1, 3], [13, 15]]
    ///
    /// It is for any board what [`map_indexed`](Grid::map_indexed) is for a grid. A search over a part begins with it:
    /// make the grid of what the search asks of each cell, and hand it that.
    ///
    /// Requires: the closure can be called at each position and a reference to the cell there.
    /// Fails: if allocation fails; the closure wasn't called.
    /// Cost: one call for each cell; one allocation, before the first call.
    pub fn map_view<U, V: AsView<U>, F: Fn((usize, usize), &U) -> T>(
        alloc: A,
        order: Order,
        board: &V,
        f: F,
    ) -> Result<Grid<T, A>, AllocError>
        requires { CallableAtPositions F.pre f (V.rows board.now) }
        ensures rows { IfOk result (λ g. row_count g.rows ≡ row_count (V.rows board.now)) }
        ensures cols { IfOk result (λ g. col_count g.rows ≡ col_count (V.rows board.now)) }
        ensures order { IfOk result (λ g. g.order ≡ order) }
        ensures cells { IfOk result (λ g. MappedBy F.post f (V.rows board.now) g.rows) }
    {
        Grid::map_cells(alloc, order, &board.as_view(), f)
    }

    // Returns the grid of what the closure returns for each position of a view and the cell there.
    fn map_cells<U, F: Fn((usize, usize), &U) -> T>(
        alloc: A,
        order: Order,
        view: &GridView<'_, U>,
        f: F,
    ) -> Result<Grid<T, A>, AllocError>
        requires { CallableAtPositions F.pre f view.now.rows }
        ensures rows { IfOk result (λ g. row_count g.rows ≡ row_count view.now.rows) }
        ensures cols { IfOk result (λ g. col_count g.rows ≡ col_count view.now.rows) }
        ensures order { IfOk result (λ g. g.order ≡ order) }
        ensures cells { IfOk result (λ g. MappedBy F.post f view.now.rows g.rows) }
    {
        let (rows, cols) = view.size();
        let made = Grid::from_fn_with_order(
            alloc,
            rows,
            cols,
            order,
            |at|
                requires { ReachesThere F.pre f view.now.rows at }
                ensures { ReturnsThere F.post f view.entry.now.rows at result }
            { f(at, view.get_unchecked(at.0, at.1)) },
        );
        match made {
            Ok(made) => Ok(made),
            Err(_) => Err(AllocError),
        }
    }
}

/// A grid lends its rows, in either order.
impl<T, A: Allocator> AsView<T> for Grid<T, A> {
    ghost rows = { λ grid. grid.rows };

    ghost table = { λ grid. grid.table };

    fn as_view(&self) -> GridView<'_, T> {
        self.view()
    }
}
