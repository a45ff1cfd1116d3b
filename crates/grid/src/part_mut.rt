//! Parts of a grid for writing, as values of their own.
ghost use Rattle.std.specs.Prelude.{◌≡◌, ◌+◌, ◌<◌, ◌≤◌, ◌⊎◌, []};
ghost use Rattle.grid.specs.Prelude.{row_count, col_count, sub_table, sem};

use crate::Grid;
use grid_base::Layout;
use grid_view::GridViewMut;
use std::alloc::Allocator;

impl<T, A: Allocator> Grid<T, A> {
    ghost use Rattle.grid.specs.Iterators.{KeepsSize};
    ghost use Rattle.grid.specs.PartMut.{lends_part, GivesBack};
    ghost use Rattle.grid_view.specs.ViewMut.{board_rows, part_at, part_rows};

    /// Returns the grid for writing, as a value of its own. The size and the order stay.
    ///
    ///     [[1, 2], [3, 4]]   view_mut().set(1, 0, 9)   [[1, 2], [9, 4]]
    ///
    /// Cost: constant; no cell is copied, and no memory is taken.
    pub fn view_mut(&mut self) -> GridViewMut<'_, T>
        ensures* writes_back { sem 𝓛 (lends_part T.row A.row A.Allocator self.entry result) }
        ensures gives_back { GivesBack self.old result }
        ensures keeps { KeepsSize self.old }
        ensures board { board_rows result ≡ self.old.rows }
        ensures at { part_at result ≡ (0, 0) }
        ensures rows { part_rows result ≡ self.old.rows }
    {
        let size = (self.row_count, self.col_count);
        self.part_mut((0, 0), size)
    }

    /// Returns the `size.0` rows and `size.1` columns from position `at` on, for writing, as a value of its own.
    /// Without rows or without columns it is empty. The other cells stay, and so do the size and the order.
    ///
    ///     [[1, 2, 3], [4, 5, 6]]   part_mut((0, 1), (2, 2)).set(1, 0, 9)   [[1, 2, 3], [4, 9, 6]]
    ///
    /// Requires: the part is within the grid.
    /// Cost: constant; no cell is copied, and no memory is taken.
    pub fn part_mut(&mut self, at: (usize, usize), size: (usize, usize)) -> GridViewMut<'_, T>
        requires rows_in { at.0 + size.0 ≤ row_count self.old.rows }
        requires cols_in { at.1 + size.1 ≤ col_count self.old.rows }
        ensures* writes_back { sem 𝓛 (lends_part T.row A.row A.Allocator self.entry result) }
        ensures gives_back { GivesBack self.old result }
        ensures keeps { KeepsSize self.old }
        ensures board { board_rows result ≡ self.old.rows }
        ensures at { part_at result ≡ at }
        ensures rows { 0 < size.0 → 0 < size.1
            → part_rows result ≡ sub_table self.old.rows at size }
        ensures none { (size.0 ≡ 0) ⊎ (size.1 ≡ 0) → part_rows result ≡ [] }
    {
        let (order, rows, cols) = (self.order, self.row_count, self.col_count);
        let board = Layout { order, rows, cols };
        GridViewMut::over(self.flat.as_mut_slice(), board, at, size)
    }
}
