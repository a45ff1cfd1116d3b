//! What commands cost in counted swaps, by formulas on the size of the table.
ghost use Rattle.std.specs.Prelude.{◌≡◌, ◌*◌, nat_eq, if◌then◌else◌, is_none};
ghost use Rattle.grid.specs.Prelude.{flipped, price, command_value, pad_refusal, step_shift, rows_added_shift, delete_rows_shift};

use crate::plain::refusals::pad_refusal;
use grid::{Command, Order, Symmetry};

// The number of cells of `lines` lines of this width.
fn cells_of(lines: usize, width: usize) -> u128
    ensures { result ≡ lines * width }
{
    lines as u128 * width as u128
}

/// Returns how many swaps a symmetry costs at a table of `rows` rows and `cols` columns.
///
///     FlipCols     at 2 rows, 3 columns   2
///     RotateHalf   at 3 rows, 3 columns   4
///     Transpose    at any size            0
pub fn price(symmetry: Symmetry, rows: usize, cols: usize) -> u128
    ensures { result ≡ price symmetry rows cols }
{
    match symmetry {
        Symmetry::Identity | Symmetry::Transpose => 0,
        Symmetry::FlipCols | Symmetry::RotateLeft => cells_of(rows, cols / 2),
        Symmetry::FlipRows => cells_of(rows / 2, cols),
        Symmetry::RotateRight => cells_of(cols, rows / 2),
        Symmetry::RotateHalf | Symmetry::AntiTranspose => cells_of(rows, cols) / 2,
    }
}

// The other order.
fn flipped(order: Order) -> Order
    ensures { result ≡ flipped order }
{
    match order {
        Order::RowMajor => Order::ColumnMajor,
        Order::ColumnMajor => Order::RowMajor,
    }
}

// How many cells stay and move where `more` rows of defaults come before row `at`.
fn pad_shift(order: Order, rows: usize, cols: usize, at: usize, more: usize) -> u128
    ensures { result ≡ (if is_none (pad_refusal rows cols more)
        then (if nat_eq rows 0 then 0 else rows_added_shift order rows cols at more) else 0) }
{
    if rows == 0 || more == 0 || pad_refusal(rows, cols, more).is_some() {
        return 0;
    }
    match order {
        Order::RowMajor => cells_of(rows.saturating_sub(at), cols),
        Order::ColumnMajor => cells_of(cols, rows).saturating_sub(at as u128),
    }
}

// How many cells stay and move where rows go, `count` of them from row `start` on.
fn delete_shift(order: Order, rows: usize, cols: usize, start: usize, count: usize) -> u128
    ensures { result ≡ delete_rows_shift order rows cols start count }
{
    if count == 0 || start as u128 + count as u128 > rows as u128 {
        return 0;
    }
    match order {
        Order::RowMajor => cells_of(rows - start - count, cols),
        Order::ColumnMajor => cells_of(cols, rows - count).saturating_sub(start as u128),
    }
}

/// Returns how many cells stay at a command and change their place in the storage, at a table of `rows` rows and `cols`
/// columns in an order.
///
///     row-major      PrependRows(1)   at 2 rows, 3 columns   6
///     column-major   PrependRows(1)   at 2 rows, 3 columns   6
///     column-major   DeleteRow(0)     at 2 rows, 3 columns   3
pub fn shift<T>(order: Order, command: &Command<T>, rows: usize, cols: usize) -> u128
    ensures { result ≡ step_shift (command_value command.now) order rows cols }
{
    let across = flipped(order);
    match command {
        Command::DeleteRow(at) => delete_shift(order, rows, cols, *at, 1),
        Command::DeleteCol(at) => delete_shift(across, cols, rows, *at, 1),
        Command::DeleteRows(start, count) => delete_shift(order, rows, cols, *start, *count),
        Command::DeleteCols(start, count) => delete_shift(across, cols, rows, *start, *count),
        Command::ExpandRows(count) => pad_shift(order, rows, cols, rows, *count),
        Command::ExpandCols(count) => pad_shift(across, cols, rows, cols, *count),
        Command::PrependRows(count) => pad_shift(order, rows, cols, 0, *count),
        Command::PrependCols(count) => pad_shift(across, cols, rows, 0, *count),
        Command::Size
        | Command::Get(_, _)
        | Command::Row(_)
        | Command::Col(_)
        | Command::Set(_, _, _)
        | Command::Swap(_, _)
        | Command::PushRow(_)
        | Command::PushCol(_)
        | Command::InsertRow(_, _)
        | Command::InsertCol(_, _)
        | Command::InsertRows(_, _)
        | Command::InsertCols(_, _)
        | Command::PopRow
        | Command::PopCol
        | Command::RemoveRow(_)
        | Command::RemoveCol(_)
        | Command::Fill(_)
        | Command::Clear
        | Command::Apply(_) => 0,
    }
}
