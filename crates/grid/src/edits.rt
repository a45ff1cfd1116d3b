//! Edits of lines: rows and columns that are inserted and removed, and padding. All keep the order.
//!
//! A row edit sees the vector as lines of cells. A column edit is the row edit between two transposes, which move no
//! cell.
ghost use Rattle.std.specs.Prelude.{◌≡◌, ◌+◌, ◌-◌, ◌*◌, ◌^◌, ◌<◌, ◌≤◌, ◌↔◌, IsTrue};
ghost use Rattle.grid.specs.Prelude.{RowGroups, cols_if_rows, rows_added_shift};

mod append;
mod delete;
mod insert;
mod layout;
mod pad;
mod remove;
mod resize;
mod split;

pub use append::GridRefused;
use grid_base::{Groups, Order};

// Returns the groups that are `count` rows before row `at` of a table. Row-major the table is one line, column-major
// each column is one:
//
//     [[1, 2], [3, 4]], one row before row 1     row-major     [1 2 | 5 6 | 3 4]
//                                                column-major  [1 | 5 | 3] [2 | 6 | 4]
fn row_groups(order: Order, rows: usize, cols: usize, at: usize, count: usize) -> Groups
    requires fits { (rows + count) * cols < 2 ^ 64 }
    requires point { at ≤ rows }
    ensures groups { RowGroups
        order rows cols at count result.lines result.width result.at result.count }
    ensures cells { result.lines * (result.width + result.count) ≡ (rows + count) * cols }
    ensures has_lines { 0 < cols → 0 < result.lines }
    ensures has_width { 0 < rows * cols → 0 < result.width }
    ensures has_count { 0 < count * cols → 0 < result.count }
    ensures shift { 0 < count
        → result.lines * result.width - result.at ≡ rows_added_shift order rows cols at count }
{
    match order {
        Order::RowMajor => Groups {
            lines: 1,
            width: rows * cols,
            at: at * cols,
            count: count * cols,
        },
        Order::ColumnMajor => Groups {
            lines: cols,
            width: rows,
            at,
            count,
        },
    }
}

// Whether a `usize` can count the cells of `rows` rows and `count` more, each of `width` cells.
fn fits_usize(rows: usize, count: usize, width: usize) -> bool
    requires { 0 < width }
    ensures { IsTrue result ↔ ((rows + count) * width < 2 ^ 64) }
{
    match rows.checked_add(count) {
        Some(more) => more.checked_mul(width).is_some(),
        None => false,
    }
}

// The number of columns of a grid with `rest` rows: 0 where there is no row.
fn cols_if_rows(rest: usize, cols: usize) -> usize
    ensures { result ≡ cols_if_rows rest cols }
{
    if rest == 0 { 0 } else { cols }
}
