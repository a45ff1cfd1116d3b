//! A square of cells that is transposed in place, part by part, so that the cells of a part stay in the cache. No tally
//! counts it.
ghost use Rattle.std.specs.Prelude.{◌≡◌, ◌+◌, ◌*◌, ◌^◌, ◌<◌, ◌≤◌, length};
ghost use Rattle.grid_base.specs.Prelude.{Mirrored, Transposed};

// A part of at most this many rows and columns is swapped cell by cell. The lines of a board of 4096 by 4096 are a
// page apart, so those of a larger part evict each other from the cache.
const SWAP_BLOCK: usize = 8;

// Transposes the square of the rows and columns from `from` to before `to`: its two halves on the diagonal, and the
// part above the diagonal with the one below.
pub(super) fn transpose_within<T>(cells: &mut [T], side: usize, from: usize, to: usize)
    requires cells { length cells.old ≡ side * side }
    requires fits { side * side < 2 ^ 64 }
    requires from { from ≤ to }
    requires to { to ≤ side }
    ensures { Transposed side from to cells.old cells.new }
{
    if to - from < 2 {
        return;
    }
    let mid = from + (to - from) / 2;
    transpose_within(cells, side, from, mid);
    transpose_within(cells, side, mid, to);
    swap_across(cells, side, (from, mid), (mid, to));
}

// Swaps each cell of a part above the diagonal with the one across it. The part has the rows from the first index to
// before the second, and such columns.
fn swap_across<T>(cells: &mut [T], side: usize, rows: (usize, usize), cols: (usize, usize))
    requires cells { length cells.old ≡ side * side }
    requires fits { side * side < 2 ^ 64 }
    requires rows { rows.0 ≤ rows.1 }
    requires above { rows.1 ≤ cols.0 }
    requires cols { cols.0 ≤ cols.1 }
    requires within { cols.1 ≤ side }
    ensures { Mirrored side rows.0 rows.1 cols.0 cols.1 cells.old cells.new }
{
    let height = rows.1 - rows.0;
    let width = cols.1 - cols.0;
    if height <= SWAP_BLOCK && width <= SWAP_BLOCK {
        for row in rows.0..rows.1 {
            swap_row_across(cells, side, row, cols);
        }
    } else if height < width {
        let mid = cols.0 + width / 2;
        swap_across(cells, side, rows, (cols.0, mid));
        swap_across(cells, side, rows, (mid, cols.1));
    } else {
        let mid = rows.0 + height / 2;
        swap_across(cells, side, (rows.0, mid), cols);
        swap_across(cells, side, (mid, rows.1), cols);
    }
}

// Swaps the cells of a row above the diagonal, in the columns from the first index to before the second, with those
// across it.
#[inline(always)]
fn swap_row_across<T>(cells: &mut [T], side: usize, row: usize, cols: (usize, usize))
    requires cells { length cells.old ≡ side * side }
    requires fits { side * side < 2 ^ 64 }
    requires above { row < cols.0 }
    requires cols { cols.0 ≤ cols.1 }
    requires within { cols.1 ≤ side }
    ensures { Mirrored side row (row + 1) cols.0 cols.1 cells.old cells.new }
{
    for col in cols.0..cols.1 {
        cells.swap(row * side + col, col * side + row);
    }
}
