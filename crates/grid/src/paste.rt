//! Parts of a grid that are written: by the cells of a view, and by a value.
ghost use Rattle.std.specs.Prelude.{◌≡◌, ◌+◌, ◌<◌, ◌≤◌, pos, OnOk, OnErr};
ghost use Rattle.grid.specs.Prelude.{ClonesAreEqual, row_count, col_count, InRange, SameSizeAndOrder, overlaid, part_filled, IsClipped, IsWithin, CallableInPart, CallableInRow, PartUpdated, CellsUpdated};

use crate::Grid;
use crate::exchange::{copy_part, move_part};
use grid_view::GridView;
use std::alloc::{AllocError, Allocator};

// Clips a line of `len` cells that begins at a signed index to `0..limit`: how many cells are cut off before, the index
// of the first that is left, and how many are left.
fn clipped(at: isize, len: usize, limit: usize) -> (usize, usize, usize)
    ensures { IsClipped at len limit result.0 result.1 result.2 }
{
    if at < 0 {
        let skipped = at.unsigned_abs().min(len);
        (skipped, 0, limit.min(len - skipped))
    } else {
        let start = (at as usize).min(limit);
        (0, start, len.min(limit - start))
    }
}

impl<T, A: Allocator> Grid<T, A> {
    /// Writes clones of the cells of a view over the cells from position `at` on.
    ///
    ///     [[1, 2, 3], [4, 5, 6]]   paste((0, 1), [[7, 8]])   [[1, 7, 8], [4, 5, 6]]
    ///
    /// Requires: clones of the cell type equal their source; the cells are within the grid.
    /// Fails: if allocation fails, for the clones or in a clone; the grid is unchanged.
    /// Cost: one clone and one move for each cell of the view, all clones before the first change; one allocation.
    pub fn paste(&mut self, at: (usize, usize), view: &GridView<'_, T>) -> Result<(), AllocError>
    where
        T: Clone,
        A: Clone,
        requires clones { ClonesAreEqual T.is_clone }
        requires rows_in { at.0 + row_count view.now.rows ≤ row_count self.old.rows }
        requires cols_in { at.1 + col_count view.now.rows ≤ col_count self.old.rows }
        ensures rows { OnOk result
            (self.new.rows ≡ overlaid (pos at.0, pos at.1) view.now.rows self.old.rows) }
        ensures same { SameSizeAndOrder self.old self.new }
        ensures err { OnErr result (self.new ≡ self.old) }
    {
        let alloc = self.flat.allocator().clone()?;
        let copies = Grid::from_view(alloc, self.order, view)?;
        move_part(self, copies, at);
        Ok(())
    }

    /// Writes copies of the cells of a view over the cells from position `at` on, of cells that are `Copy`. The call
    /// can't fail: [`paste`](Grid::paste) makes all clones before its first change.
    ///
    ///     [[1, 2, 3], [4, 5, 6]]   paste_copied((0, 1), [[7, 8]])   [[1, 7, 8], [4, 5, 6]]
    ///
    /// Requires: the cells are within the grid.
    /// Cost: one copy for each cell of the view, a line at once where its cells are side by side in both; no memory.
    pub fn paste_copied(&mut self, at: (usize, usize), view: &GridView<'_, T>)
    where
        T: Copy,
        requires rows_in { at.0 + row_count view.now.rows ≤ row_count self.old.rows }
        requires cols_in { at.1 + col_count view.now.rows ≤ col_count self.old.rows }
        ensures rows { self.new.rows ≡ overlaid (pos at.0, pos at.1) view.now.rows self.old.rows }
        ensures same { SameSizeAndOrder self.old self.new }
    {
        copy_part(self, at, view);
    }

    /// Writes clones of the cells of a view over the cells of the grid that it covers, where its first cell is over the
    /// signed row and column of `at`. Its cells outside of the grid are left out.
    ///
    ///     [[1, 2], [3, 4]]   paste_clipped((-1, 1), [[5, 6], [7, 8]])   [[1, 7], [3, 4]]
    ///
    /// Requires: clones of the cell type equal their source.
    /// Fails: if allocation fails, for the clones or in a clone; the grid is unchanged.
    /// Cost: one clone and one move for each cell that is written, all clones before the first change; one allocation.
    pub fn paste_clipped(
        &mut self,
        at: (isize, isize),
        view: &GridView<'_, T>,
    ) -> Result<(), AllocError>
    where
        T: Clone,
        A: Clone,
        requires { ClonesAreEqual T.is_clone }
        ensures rows { OnOk result
            (self.new.rows ≡ overlaid at view.now.rows self.old.rows) }
        ensures same { SameSizeAndOrder self.old self.new }
        ensures err { OnErr result (self.new ≡ self.old) }
    {
        let (rows, cols) = self.size();
        let (view_rows, view_cols) = view.size();
        let (skipped_rows, row, row_count) = clipped(at.0, view_rows, rows);
        let (skipped_cols, col, col_count) = clipped(at.1, view_cols, cols);
        let part = view.part((skipped_rows, skipped_cols), (row_count, col_count));
        self.paste((row, col), &part)
    }

    /// Makes every cell of a part the value: of the `size.0` rows and `size.1` columns from position `at` on.
    ///
    ///     [[1, 2, 3], [4, 5, 6]]   fill_part((0, 1), (2, 1), 7)   [[1, 7, 3], [4, 7, 6]]
    ///
    /// Requires: clones of the cell type equal their source; the part is within the grid.
    /// Fails: if allocation fails, for the clones or in a clone; the grid is unchanged, and the value is dropped.
    /// Cost: one clone for each cell of the part but the last, all before the first change, and one move for each; one
    /// allocation.
    pub fn fill_part(
        &mut self,
        at: (usize, usize),
        size: (usize, usize),
        value: T,
    ) -> Result<(), AllocError>
    where
        T: Clone,
        A: Clone,
        requires clones { ClonesAreEqual T.is_clone }
        requires rows_in { at.0 + size.0 ≤ row_count self.old.rows }
        requires cols_in { at.1 + size.1 ≤ col_count self.old.rows }
        ensures rows { OnOk result (self.new.rows ≡ part_filled at size value self.old.rows) }
        ensures same { SameSizeAndOrder self.old self.new }
        ensures err { OnErr result (self.new ≡ self.old) }
    {
        let alloc = self.flat.allocator().clone()?;
        let Ok(copies) = Grid::init_with_order(alloc, size.0, size.1, self.order, value) else {
            return Err(AllocError);
        };
        move_part(self, copies, at);
        Ok(())
    }

    /// Replaces each cell of a part by what the closure returns at its position in the grid and a reference to it, row
    /// by row: the `size.0` rows and `size.1` columns from position `at` on.
    ///
    ///     [[1, 2, 3], [4, 5, 6]]   update_part((0, 1), (2, 1), |_, x| *x * 10)   [[1, 20, 3], [4, 50, 6]]
    ///
    /// Requires: the part is within the grid; the closure can be called at each of its positions and a reference to the
    /// cell there.
    /// Cost: one call for each cell of the part; no memory.
    pub fn update_part<F: Fn((usize, usize), &T) -> T>(
        &mut self,
        at: (usize, usize),
        size: (usize, usize),
        f: F,
    )
    where
        T: Drop,
        requires rows_in { at.0 + size.0 ≤ row_count self.old.rows }
        requires cols_in { at.1 + size.1 ≤ col_count self.old.rows }
        requires calls { CallableInPart f at size self.old.rows F.pre }
        ensures same { SameSizeAndOrder self.old self.new }
        ensures cells { PartUpdated f at size self.old.rows F.post self.new.rows }
        ensures answers { CellsUpdated (IsWithin at.0 (at.0 + size.0) at.1 (at.1 + size.1))
            (F.post f) self.old self.new }
    {
        for row in at.0..at.0 + size.0 {
            self.update_in_row(row, at.1, at.1 + size.1, &f);
        }
    }

    // Replaces the cells of a row from column `from` on and before `end`, in the same way.
    fn update_in_row<F: Fn((usize, usize), &T) -> T>(
        &mut self,
        row: usize,
        from: usize,
        end: usize,
        f: &F,
    )
    where
        T: Drop,
        requires row_in { row < row_count self.old.rows }
        requires ordered { from ≤ end }
        requires cols_in { end ≤ col_count self.old.rows }
        requires calls { CallableInRow f.now row from end self.old.rows F.pre }
        ensures { CellsUpdated (IsWithin row (row + 1) from end) (F.post f.now) self.old self.new }
    {
        for col in from..end {
            self.update_cell(row, col, f);
        }
    }

    // Replaces a cell in the same way.
    fn update_cell<F: Fn((usize, usize), &T) -> T>(&mut self, row: usize, col: usize, f: &F)
    where
        T: Drop,
        requires in_range { InRange self.old.rows row col }
        requires calls { CallableInRow f.now row col (col + 1) self.old.rows F.pre }
        ensures { CellsUpdated
            (IsWithin row (row + 1) col (col + 1)) (F.post f.now) self.old self.new }
    {
        let new = f((row, col), self.get_unchecked(row, col));
        let _ = self.set(row, col, new);
    }
}
