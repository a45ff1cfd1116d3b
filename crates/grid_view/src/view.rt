//! A part of a table that a slice stores, seen through a symmetry.
ghost use Rattle.std.specs.Prelude.{◌≡◌, ◌≢◌, ◌+◌, ◌-◌, ◌*◌, ◌<◌, ◌≤◌, IsTrue, ⊤, ◌↔◌, ◌⊎◌, ◌==◌, if◌then◌else◌, IfSome, IsSome, MatchOption, Some, [], length, option_copied};
ghost use Rattle.grid_base.specs.Prelude.{row_count, col_count, cell, concat_rows, transposed, InRange, table_of, HoldsSize, HasImageSize, CanCut, act, storage};
ghost use Rattle.grid_view.specs.View.{offset, sub_table, HoldsView};
ghost use Rattle.grid_view.specs.Nearest.{nearest_below};

use crate::axis::{ViewAxis, crossed};
use grid_base::{Order, Symmetry, has_lines, strides_of};
use std::alloc::AllocError;
use std::marker::Model;
use std::ops::Index;

/// A part of a grid, seen through a symmetry, without a copy of its cells. It is seen as its rows.
#[derive(Drop)]
pub struct GridView<'a, T> {
    // From the first cell of the part on, as the storage has them.
    pub(crate) cells: &'a [T],
    pub(crate) rows: ViewAxis,
    pub(crate) cols: ViewAxis,
    ghost fits: { HoldsView rows cols (length cells.now) },
}

impl<'a, T> Model for GridView<'a, T> {
    ghost use Rattle.grid_view.specs.Value.{ViewValue, view_value};

    ghost Value = { ViewValue T };

    ghost view = { λ v. view_value v.rows v.cols v.cells.now v.fits };
}

// Returns the place of the cell in a row and a column.
#[inline(always)]
fn place(rows: ViewAxis, cols: ViewAxis, len: usize, r: usize, c: usize) -> usize
    requires holds { HoldsView rows cols len }
    requires row_in { r < rows.count }
    requires col_in { c < cols.count }
    ensures place { result ≡ offset rows r + offset cols c }
    ensures within { result < len }
{
    rows.number(r) * rows.stride + cols.number(c) * cols.stride
}

// Returns the place of the first cell of a row, as the storage has them.
pub(crate) fn row_start(rows: ViewAxis, cols: ViewAxis, len: usize, r: usize) -> usize
    requires holds { HoldsView rows cols len }
    requires row_in { r < rows.count }
    ensures start { result ≡ offset rows r }
    ensures some { 0 < cols.count }
    ensures steps { 0 < cols.stride }
    ensures within { result + (cols.count - 1) * cols.stride < len }
{
    rows.number(r) * rows.stride
}

impl<'a, T> GridView<'a, T> {
    /// Returns the view of the table of `rows` rows and `cols` columns that a slice stores in an order.
    ///
    ///     [1, 2, 3, 4, 5, 6]   over(ColumnMajor, 2, 3)   [[1, 3, 5], [2, 4, 6]]
    ///
    /// Requires: the slice has `rows * cols` cells, and there are rows exactly if there are columns.
    /// Cost: constant; no memory.
    pub fn over(cells: &'a [T], order: Order, rows: usize, cols: usize) -> GridView<'a, T>
        requires { HoldsSize rows cols (length cells.now) }
        ensures { result.rows ≡ table_of order rows cols cells.now }
    {
        let strides = strides_of(order, (rows, cols));
        GridView {
            cells,
            rows: ViewAxis {
                count: rows,
                stride: strides.0,
                backwards: false,
            },
            cols: ViewAxis {
                count: cols,
                stride: strides.1,
                backwards: false,
            },
        }
    }

    /// Returns the view of a slice's cells, cut into rows of `cols`, where the slice is the storage in an order; or
    /// `None` where they can't be cut so. An empty slice gives an empty view.
    ///
    ///     from_slice([1, 2, 3, 4, 5, 6], RowMajor, 3)      Some([[1, 2, 3], [4, 5, 6]])
    ///     from_slice([1, 2, 3, 4, 5, 6], ColumnMajor, 3)   Some([[1, 3, 5], [2, 4, 6]])
    ///     from_slice([1, 2, 3, 4, 5, 6], RowMajor, 4)      None
    ///
    /// Cost: constant; no cell is copied, and no memory is taken.
    pub fn from_slice(cells: &'a [T], order: Order, cols: usize) -> Option<GridView<'a, T>>
        ensures fits { MatchOption result
            (CanCut (length cells.now) cols → ⊥) (λ _. CanCut (length cells.now) cols) }
        ensures storage { IfSome result (λ view. storage order view.rows ≡ cells.now) }
        ensures cols { IfSome result
            (λ view. length cells.now ≢ 0 → col_count view.rows ≡ cols) }
    {
        if cells.is_empty() {
            return Some(GridView::over(cells, order, 0, 0));
        }
        if cols == 0 || cells.len() % cols != 0 {
            return None;
        }
        Some(GridView::over(cells, order, cells.len() / cols, cols))
    }

    /// Returns the number of rows and the number of columns.
    ///
    ///     [[1, 2, 3], [4, 5, 6]]   size()   (2, 3)
    pub fn size(&self) -> (usize, usize)
        ensures rows { result.0 ≡ row_count self.now.rows }
        ensures cols { result.1 ≡ col_count self.now.rows }
    {
        (self.rows.count, self.cols.count)
    }

    /// Returns the number of rows.
    ///
    ///     [[1, 2, 3], [4, 5, 6]]   rows()   2
    pub fn rows(&self) -> usize
        ensures { result ≡ row_count self.now.rows }
    {
        self.size().0
    }

    /// Returns the number of columns.
    ///
    ///     [[1, 2, 3], [4, 5, 6]]   cols()   3
    pub fn cols(&self) -> usize
        ensures { result ≡ col_count self.now.rows }
    {
        self.size().1
    }

    /// Returns whether there are no cells.
    pub fn is_empty(&self) -> bool
        ensures { IsTrue result ↔ (self.now.rows ≡ []) }
    {
        self.rows.count == 0
    }

    /// Returns the same view.
    pub fn view(&self) -> GridView<'a, T>
        ensures { result ≡ self.now }
    {
        GridView {
            cells: self.cells,
            rows: self.rows,
            cols: self.cols,
        }
    }

    /// Returns the cell in a row and a column, or `None` out of range.
    ///
    ///     [[1, 2], [3, 4]]   get(0, 1)   Some(2)
    pub fn get(&self, row: usize, col: usize) -> Option<&'a T>
        ensures cell { option_copied result ≡ cell self.now.rows row col }
        ensures in_range { IfSome result (λ _. InRange self.now.rows row col) }
    {
        if row < self.rows.count && col < self.cols.count {
            Some(self.get_unchecked(row, col))
        } else {
            None
        }
    }

    /// Returns the cell in a row and a column.
    ///
    ///     [[1, 2], [3, 4]]   get_unchecked(0, 1)   2
    ///
    /// Requires: both are in range.
    /// Cost: constant; nothing is checked at run time.
    pub fn get_unchecked(&self, row: usize, col: usize) -> &'a T
        requires { InRange self.now.rows row col }
        ensures { cell self.now.rows row col ≡ Some result.now }
    {
        let at = place(self.rows, self.cols, self.cells.len(), row, col);
        &self.cells[at]
    }

    /// Returns the cell at a signed position, or, where an index is out of range, at the nearest one in range: 0 in
    /// place of a negative one, the last in place of one that is too large. It is `None` exactly where there are no
    /// cells.
    ///
    ///     [[1, 2], [3, 4]]   get_clamped((0, 1))    Some(2)
    ///     [[1, 2], [3, 4]]   get_clamped((-1, 5))   Some(2)
    ///
    /// Cost: constant.
    pub fn get_clamped(&self, at: (isize, isize)) -> Option<&'a T>
        ensures cell { option_copied result ≡ cell self.now.rows
            (nearest_below at.0 (row_count self.now.rows))
            (nearest_below at.1 (col_count self.now.rows)) }
        ensures some { IsSome result ↔ (0 < row_count self.now.rows) }
    {
        if self.is_empty() {
            return None;
        }
        let nearest = (self.rows.nearest(at.0), self.cols.nearest(at.1));
        Some(self.get_unchecked(nearest.0, nearest.1))
    }

    /// Returns the cells row by row as one slice, or `None` where they don't lie so in the storage.
    ///
    ///     [[1, 2], [3, 4]], of a row-major grid      as_slice()   Some([1, 2, 3, 4])
    ///     [[1, 2], [3, 4]], of a column-major grid   as_slice()   None
    ///
    /// It is `Some` for the view of a row-major grid, for whole rows of it side by side, for a part of one row, and for
    /// views that lie in memory as these do, as the transposed view of a column-major grid. The contract doesn't say
    /// so: a contract sees the rows of a view, and not where they lie.
    ///
    /// Cost: constant; no cell is copied.
    pub fn as_slice(&self) -> Option<&'a [T]>
        ensures { IfSome result (λ cells. cells.now ≡ concat_rows self.now.rows) }
    {
        if self.rows.steps_by(self.cols.count) && self.cols.steps_by(1) {
            Some(&self.cells[..self.rows.count * self.cols.count])
        } else {
            None
        }
    }

    /// Returns the view of the `size.0` rows and `size.1` columns from position `at` on. Without rows or without
    /// columns it is empty.
    ///
    ///     [[1, 2, 3], [4, 5, 6]]   part((0, 1), (2, 2))   [[2, 3], [5, 6]]
    ///
    /// Requires: the part is within the view.
    /// Cost: constant; no cell is copied.
    pub fn part(&self, at: (usize, usize), size: (usize, usize)) -> GridView<'a, T>
        requires rows_in { at.0 + size.0 ≤ row_count self.now.rows }
        requires cols_in { at.1 + size.1 ≤ col_count self.now.rows }
        ensures rows { 0 < size.0 → 0 < size.1 → result.rows ≡ sub_table self.now.rows at size }
        ensures none { (size.0 ≡ 0) ⊎ (size.1 ≡ 0) → result.rows ≡ [] }
        ensures row_count { row_count result.rows ≡ (if size.1 == 0 then 0 else size.0) }
        ensures col_count { col_count result.rows ≡ (if size.0 == 0 then 0 else size.1) }
    {
        if size.0 == 0 || size.1 == 0 {
            GridView {
                cells: self.cells,
                rows: self.rows.cut(0),
                cols: self.cols.cut(0),
            }
        } else {
            let row = self.rows.first_of(at.0, size.0);
            let col = self.cols.first_of(at.1, size.1);
            let start = row * self.rows.stride + col * self.cols.stride;
            GridView {
                cells: &self.cells[start..],
                rows: self.rows.cut(size.0),
                cols: self.cols.cut(size.1),
            }
        }
    }

    /// Same as [`part`](GridView::part), or `None` where the part isn't within the view.
    ///
    ///     [[1, 2, 3], [4, 5, 6]]   get_part((0, 1), (2, 2))   Some([[2, 3], [5, 6]])
    ///     [[1, 2, 3], [4, 5, 6]]   get_part((0, 2), (2, 2))   None
    pub fn get_part(&self, at: (usize, usize), size: (usize, usize)) -> Option<GridView<'a, T>>
        ensures in_range { MatchOption result
            (at.0 + size.0 ≤ row_count self.now.rows → at.1 + size.1 ≤ col_count self.now.rows → ⊥)
            (λ _. (at.0 + size.0 ≤ row_count self.now.rows)
            × (at.1 + size.1 ≤ col_count self.now.rows)) }
        ensures rows { IfSome result (λ view. 0 < size.0 → 0 < size.1
            → view.rows ≡ sub_table self.now.rows at size) }
        ensures none { IfSome result (λ view. (size.0 ≡ 0) ⊎ (size.1 ≡ 0) → view.rows ≡ []) }
        ensures row_count { IfSome result
            (λ view. row_count view.rows ≡ (if size.1 == 0 then 0 else size.0)) }
        ensures col_count { IfSome result
            (λ view. col_count view.rows ≡ (if size.0 == 0 then 0 else size.1)) }
    {
        let (rows, cols) = self.size();
        if has_lines(rows, at.0, size.0) && has_lines(cols, at.1, size.1) {
            Some(self.part(at, size))
        } else {
            None
        }
    }

    /// Returns the view through a symmetry.
    ///
    ///     [[1, 2], [3, 4]]   turned(RotateLeft)   [[2, 4], [1, 3]]
    ///
    /// Cost: constant; no cell moves.
    pub fn turned(&self, symmetry: Symmetry) -> GridView<'a, T>
        ensures rows { result.rows ≡ act symmetry self.now.rows }
        ensures size { HasImageSize symmetry self.now.rows result.rows }
    {
        let (transposes, flips_rows, flips_cols) = symmetry.flags();
        let (rows, cols) = crossed(transposes, self.rows, self.cols);
        GridView {
            cells: self.cells,
            rows: rows.turned(flips_rows),
            cols: cols.turned(flips_cols),
        }
    }

    /// Returns the view whose rows are the columns.
    ///
    ///     [[1, 2, 3], [4, 5, 6]]   transposed()   [[1, 4], [2, 5], [3, 6]]
    ///
    /// Cost: constant; no cell moves.
    pub fn transposed(&self) -> GridView<'a, T>
        ensures rows { result.rows ≡ transposed self.now.rows }
        ensures act { result.rows ≡ act Symmetry.Transpose self.now.rows }
        ensures size { HasImageSize Symmetry.Transpose self.now.rows result.rows }
    {
        GridView {
            cells: self.cells,
            rows: self.cols,
            cols: self.rows,
        }
    }
}

/// Returns the same view, as [`view`](GridView::view) does.
///
/// Cost: constant; it is always `Ok`, and takes no memory.
impl<'a, T> Clone for GridView<'a, T> {
    ghost is_clone = { λ view copy. copy ≡ view };

    ghost is_infallible = { λ _. ⊤ };

    fn clone(&self) -> Result<Self, AllocError> {
        Ok(self.view())
    }
}

/// `view[(row, col)]` is the cell in a row and a column.
///
///     [[1, 2], [3, 4]]   view[(1, 0)]   3
///
/// Requires: both are in range.
impl<'a, T> Index<(usize, usize)> for GridView<'a, T> {
    type Output = T;

    ghost can_index = { λ view at. InRange view.rows at.0 at.1 };

    ghost index_gives = { λ view at x. cell view.rows at.0 at.1 ≡ Some x };

    fn index(&self, at: (usize, usize)) -> &T {
        self.get_unchecked(at.0, at.1)
    }
}
