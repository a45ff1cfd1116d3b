//! The order of boards.
ghost use Rattle.std.specs.Prelude.{◌≡◌, ◌<◌};
ghost use Rattle.std.specs.Cmp.Lexicographic.{slice_cmp};
ghost use Rattle.grid_base.specs.Table.{row, row_count, col_count};
ghost use Rattle.grid_images.specs.Prelude.{IsTotalOrder, is_eq, same_table, table_cmp};

use grid_view::{AsView, GridView};
use std::cmp::Ordering;

/// Compares two boards: the one with fewer rows is less; of as many rows, the one with fewer columns; of one size, the
/// one with the lesser cell where they first differ, row by row. They are equal exactly if `==` holds.
///
///     [[1, 2], [3, 4]]   compare(it, [[1, 3], [0, 0]])   Less
///
/// It is a total order, so a closure that calls it sorts boards.
///
/// Cost: constant, where the sizes differ; else a comparison for each cell up to the first that differs; no memory.
pub fn compare<T: Ord, V: AsView<T>, W: AsView<T>>(board: &V, other: &W) -> Ordering
    ensures ordering { result ≡ table_cmp T.cmp (V.rows board.now) (W.rows other.now) }
    ensures equal { is_eq result ≡ same_table T.eq (V.rows board.now) (W.rows other.now) }
    ensures total { IsTotalOrder (table_cmp T.cmp) }
{
    compare_views(&board.as_view(), &other.as_view())
}

// Compares two views.
pub(crate) fn compare_views<T: Ord>(board: &GridView<'_, T>, other: &GridView<'_, T>) -> Ordering
    ensures ordering { result ≡ table_cmp T.cmp board.now.rows other.now.rows }
    ensures equal { is_eq result ≡ same_table T.eq board.now.rows other.now.rows }
    ensures total { IsTotalOrder (table_cmp T.cmp) }
{
    let sizes = board.size().cmp(&other.size());
    if sizes.is_ne() {
        return sizes;
    }
    let (rows, cols) = board.size();
    for r in 0..rows {
        let ordering = compare_rows(board, other, r, cols);
        if ordering.is_ne() {
            return ordering;
        }
    }
    Ordering::Equal
}

// Compares row `r` of two views of so many columns.
fn compare_rows<T: Ord>(
    board: &GridView<'_, T>,
    other: &GridView<'_, T>,
    r: usize,
    cols: usize,
) -> Ordering
    requires here { r < row_count board.now.rows }
    requires there { r < row_count other.now.rows }
    requires cols_here { cols ≡ col_count board.now.rows }
    requires cols_there { cols ≡ col_count other.now.rows }
    ensures { result ≡ slice_cmp T.cmp (row board.now.rows r) (row other.now.rows r) }
{
    for c in 0..cols {
        let ordering = board.get_unchecked(r, c).cmp(other.get_unchecked(r, c));
        if ordering.is_ne() {
            return ordering;
        }
    }
    Ordering::Equal
}
