//! Equality of views.
ghost use Rattle.std.specs.Prelude.{◌≡◌, ◌+◌, ◌<◌, ◌≤◌, ◌↔◌, IsTrue};
ghost use Rattle.grid_view.specs.Prelude.{row_count, col_count, AreSame, same_rows, same_view, same_view_per, same_view_equiv};

use crate::as_view::AsView;
use crate::view::GridView;

// A part of at most this many rows and columns is compared cell by cell. Where one view runs along the storage and the
// other across it, the cells of a small part stay in the cache until the lines next to them are read. Boards of 4096 by
// 4096, as in `bench/beside orders`, take twice as long by parts of 8 or of 32.
const COMPARE_BLOCK: usize = 16;

// Whether the cells of row `r` are the same in two views, in the columns from the first index to before the second.
fn has_same_cells<T: PartialEq>(
    view: &GridView<'_, T>,
    other: &GridView<'_, T>,
    r: usize,
    cols: (usize, usize),
) -> bool
    requires here { r < row_count view.now.rows }
    requires there { r < row_count other.now.rows }
    requires cols_here { cols.1 ≤ col_count view.now.rows }
    requires cols_there { cols.1 ≤ col_count other.now.rows }
    ensures { IsTrue result ↔ AreSame T.eq view.now.rows other.now.rows (r, r + 1) cols }
{
    for col in cols.0..cols.1 {
        if view.get_unchecked(r, col) != other.get_unchecked(r, col) {
            return false;
        }
    }
    true
}

// Whether the cells of a part are the same in two views. The part has the rows from the first index to before the
// second, and such columns.
fn has_same_rows<T: PartialEq>(
    view: &GridView<'_, T>,
    other: &GridView<'_, T>,
    rows: (usize, usize),
    cols: (usize, usize),
) -> bool
    requires here { rows.1 ≤ row_count view.now.rows }
    requires there { rows.1 ≤ row_count other.now.rows }
    requires cols_here { cols.1 ≤ col_count view.now.rows }
    requires cols_there { cols.1 ≤ col_count other.now.rows }
    ensures { IsTrue result ↔ AreSame T.eq view.now.rows other.now.rows rows cols }
{
    for row in rows.0..rows.1 {
        if !has_same_cells(view, other, row, cols) {
            return false;
        }
    }
    true
}

// The same, in halves: both views go through a small part before they go on.
fn has_same_halves<T: PartialEq>(
    view: &GridView<'_, T>,
    other: &GridView<'_, T>,
    rows: (usize, usize),
    cols: (usize, usize),
) -> bool
    requires from_row { rows.0 ≤ rows.1 }
    requires from_col { cols.0 ≤ cols.1 }
    requires here { rows.1 ≤ row_count view.now.rows }
    requires there { rows.1 ≤ row_count other.now.rows }
    requires cols_here { cols.1 ≤ col_count view.now.rows }
    requires cols_there { cols.1 ≤ col_count other.now.rows }
    ensures { IsTrue result ↔ AreSame T.eq view.now.rows other.now.rows rows cols }
{
    let height = rows.1 - rows.0;
    let width = cols.1 - cols.0;
    if height <= COMPARE_BLOCK && width <= COMPARE_BLOCK {
        return has_same_rows(view, other, rows, cols);
    }
    if height < width {
        let mid = cols.0 + width / 2;
        return has_same_halves(view, other, rows, (cols.0, mid))
            && has_same_halves(view, other, rows, (mid, cols.1));
    }
    let mid = rows.0 + height / 2;
    has_same_halves(view, other, (rows.0, mid), cols)
        && has_same_halves(view, other, (mid, rows.1), cols)
}

// Whether all cells are the same in two views of `size.0` rows and `size.1` columns.
fn has_same_table<T: PartialEq>(
    view: &GridView<'_, T>,
    other: &GridView<'_, T>,
    size: (usize, usize),
) -> bool
    requires rows_here { size.0 ≡ row_count view.now.rows }
    requires rows_there { size.0 ≡ row_count other.now.rows }
    requires cols_here { size.1 ≡ col_count view.now.rows }
    requires cols_there { size.1 ≡ col_count other.now.rows }
    ensures { result ≡ same_view T.eq view.now other.now }
{
    if view.cols.stride == 1 && other.cols.stride == 1 {
        has_same_rows(view, other, (0, size.0), (0, size.1))
    } else {
        has_same_halves(view, other, (0, size.0), (0, size.1))
    }
}

/// Two views are equal if they have the same rows; the orders of their storages don't matter.
impl<'a, T: PartialEq> PartialEq for GridView<'a, T> {
    ghost eq = { same_view T.eq };

    ghost laws = { same_view_per T.laws };

    fn eq(&self, other: &Self) -> bool {
        let size = self.size();
        if size != other.size() {
            return false;
        }
        has_same_table(self, other, size)
    }
}

impl<'a, T: Eq> Eq for GridView<'a, T> {
    ghost laws = { same_view_equiv T.Eq.laws };
}

/// Returns whether two boards have the same rows, whatever they are: a grid, a part, a turned or a deferred one. `==`
/// does so of two of one type.
///
///     same_cells(&[[1, 2], [3, 4]], &[[1, 3], [2, 4]] transposed)   true
///
/// Cost: the sizes are compared first; then each cell is read once at most from either board. No memory.
pub fn same_cells<T: PartialEq, P: AsView<T>, Q: AsView<T>>(board: &P, other: &Q) -> bool
    ensures { result ≡ same_rows T.eq (P.rows board.now) (Q.rows other.now) }
{
    board.as_view() == other.as_view()
}
