//! A plain program to compare the library with: tables as vectors of rows, written from the definitions with no care
//! for speed. It shares no code with the library, whose tests compare the two.
ghost use Rattle.std.specs.Prelude.{◌≡◌, ◌<◌, OnOk, OnErr, IfOk, map, slice_get, option_map};
ghost use Rattle.grid.specs.Prelude.{row_count, col_count, cell, cells_by, concat_rows, transposed, storage, act, image_rows, image_cols, source_row, source_col, reply_value, command_value, rows_after, reply_to, step_rows, step_reply, run_rows, run_replies};
ghost use Rattle.test_support.specs.Plain.{items_of_each, AfterSome};

mod cells;
mod cols;
mod costs;
mod refusals;
mod rows;

use cells::{exchanged, filled, with_cell};
use cols::{delete_cols, expand_cols, insert_col, insert_cols, prepend_cols};
pub use costs::{price, shift};
use grid::{Command, Order, Reply, Symmetry};
pub use refusals::refusal;
use rows::{
    copied, delete_rows, expand_rows, has_lines, insert_row, insert_rows, line_at, prepend_rows,
};
use std::alloc::{AllocError, Global};

/// Returns the number of rows, and the number of cells in the first row.
pub fn size<T>(table: &Vec<Vec<T>>) -> (usize, usize)
    ensures rows { result.0 ≡ row_count (items_of_each table.now) }
    ensures cols { result.1 ≡ col_count (items_of_each table.now) }
{
    let cols = match table.first() {
        Some(row) => row.len(),
        None => 0,
    };
    (table.len(), cols)
}

/// Returns the cell in a row and a column, or `None` where there is none.
pub fn get<T: Copy>(table: &Vec<Vec<T>>, row: usize, col: usize) -> Option<T>
    ensures { result ≡ cell (items_of_each table.now) row col }
{
    match table.get(row) {
        Some(cells) => cells.get(col).copied(),
        None => None,
    }
}

// The size of the image of a table of this size.
fn image_size(symmetry: Symmetry, rows: usize, cols: usize) -> (usize, usize)
    ensures rows { result.0 ≡ image_rows symmetry rows cols }
    ensures cols { result.1 ≡ image_cols symmetry rows cols }
{
    match symmetry {
        Symmetry::Identity | Symmetry::FlipCols | Symmetry::FlipRows | Symmetry::RotateHalf => {
            (rows, cols)
        }
        Symmetry::Transpose
        | Symmetry::RotateLeft
        | Symmetry::RotateRight
        | Symmetry::AntiTranspose => (cols, rows),
    }
}

// Where a cell of the image comes from.
fn source(symmetry: Symmetry, rows: usize, cols: usize, row: usize, col: usize) -> (usize, usize)
    requires row_in { row < image_rows symmetry rows cols }
    requires col_in { col < image_cols symmetry rows cols }
    ensures row { result.0 ≡ source_row symmetry rows cols row col }
    ensures col { result.1 ≡ source_col symmetry rows cols row col }
{
    match symmetry {
        Symmetry::Identity => (row, col),
        Symmetry::FlipCols => (row, cols - 1 - col),
        Symmetry::FlipRows => (rows - 1 - row, col),
        Symmetry::RotateHalf => (rows - 1 - row, cols - 1 - col),
        Symmetry::Transpose => (col, row),
        Symmetry::RotateLeft => (col, cols - 1 - row),
        Symmetry::RotateRight => (rows - 1 - col, row),
        Symmetry::AntiTranspose => (rows - 1 - col, cols - 1 - row),
    }
}

// A row of the image. Cells that are missing in the table are left out.
fn image_row<T: Copy>(
    alloc: Global,
    symmetry: Symmetry,
    table: &Vec<Vec<T>>,
    row: usize,
) -> Result<Vec<T>, AllocError>
    requires { row < image_rows symmetry
        (row_count (items_of_each table.now)) (col_count (items_of_each table.now)) }
    ensures { let t = items_of_each table.now in IfOk result
        (λ cells. cells.items ≡ cells_by (image_cols symmetry (row_count t) (col_count t))
        (λ col. cell t (source_row symmetry (row_count t) (col_count t) row col)
        (source_col symmetry (row_count t) (col_count t) row col))) }
{
    let (rows, cols) = size(table);
    let (_, width) = image_size(symmetry, rows, cols);
    let mut cells = Vec::new(alloc);
    for col in 0..width {
        let (from_row, from_col) = source(symmetry, rows, cols, row, col);
        if let Some(cell) = get(table, from_row, from_col) {
            cells.push(cell)?;
        }
    }
    Ok(cells)
}

/// Returns the image of a table under a symmetry.
pub fn act<T: Copy>(
    alloc: Global,
    symmetry: Symmetry,
    table: &Vec<Vec<T>>,
) -> Result<Vec<Vec<T>>, AllocError>
    ensures { IfOk result (λ image. items_of_each image ≡ act symmetry (items_of_each table.now)) }
{
    let (rows, cols) = size(table);
    let (height, _) = image_size(symmetry, rows, cols);
    let mut image = Vec::new(alloc);
    for row in 0..height {
        image.push(image_row(alloc, symmetry, table, row)?)?;
    }
    Ok(image)
}

// The cells of all rows, one row after another.
fn joined_rows<T: Copy>(alloc: Global, table: &Vec<Vec<T>>) -> Result<Vec<T>, AllocError>
    ensures { IfOk result (λ cells. cells.items ≡ concat_rows (items_of_each table.now)) }
{
    let mut cells = Vec::new(alloc);
    for row in table {
        cells.extend_from_slice(row.as_slice())?;
    }
    Ok(cells)
}

/// Returns the cells of a table in an order: the rows joined, or the columns joined.
pub fn storage<T: Copy>(
    alloc: Global,
    order: Order,
    table: &Vec<Vec<T>>,
) -> Result<Vec<T>, AllocError>
    ensures { IfOk result (λ cells. cells.items ≡ storage order (items_of_each table.now)) }
{
    match order {
        Order::RowMajor => joined_rows(alloc, table),
        Order::ColumnMajor => {
            let columns = act(alloc, Symmetry::Transpose, table)?;
            joined_rows(alloc, &columns)
        }
    }
}

// The table after a command that is not refused.
fn rows_after<T: Copy>(
    alloc: Global,
    default: T,
    command: &Command<T>,
    table: &Vec<Vec<T>>,
) -> Result<Vec<Vec<T>>, AllocError>
    ensures { IfOk result (λ after. items_of_each after
        ≡ rows_after default (command_value command.now) (items_of_each table.now)) }
{
    let (rows, cols) = size(table);
    match command {
        Command::Size | Command::Get(_, _) | Command::Row(_) | Command::Col(_) => {
            copied(alloc, table)
        }
        Command::Set(row, col, value) => with_cell(alloc, table, *row, *col, *value),
        Command::Swap(a, b) => exchanged(alloc, table, *a, *b),
        Command::PushRow(line) => insert_row(alloc, table, rows, line.as_slice()),
        Command::PushCol(line) => insert_col(alloc, table, cols, line.as_slice()),
        Command::InsertRow(at, line) => insert_row(alloc, table, *at, line.as_slice()),
        Command::InsertCol(at, line) => insert_col(alloc, table, *at, line.as_slice()),
        Command::InsertRows(at, lines) => insert_rows(alloc, table, *at, lines.as_slice()),
        Command::InsertCols(at, lines) => insert_cols(alloc, table, *at, lines.as_slice()),
        Command::PopRow => delete_rows(alloc, table, rows.saturating_sub(1), 1),
        Command::PopCol => delete_cols(alloc, table, cols, cols.saturating_sub(1), 1),
        Command::RemoveRow(at) | Command::DeleteRow(at) => delete_rows(alloc, table, *at, 1),
        Command::RemoveCol(at) | Command::DeleteCol(at) => {
            delete_cols(alloc, table, cols, *at, 1)
        }
        Command::DeleteRows(start, count) => delete_rows(alloc, table, *start, *count),
        Command::DeleteCols(start, count) => delete_cols(alloc, table, cols, *start, *count),
        Command::ExpandRows(count) => expand_rows(alloc, default, table, *count),
        Command::ExpandCols(count) => expand_cols(alloc, default, table, *count),
        Command::PrependRows(count) => prepend_rows(alloc, default, table, *count),
        Command::PrependCols(count) => prepend_cols(alloc, default, table, *count),
        Command::Fill(value) => filled(alloc, table, *value),
        Command::Clear => Ok(Vec::new(alloc)),
        Command::Apply(symmetry) => act(alloc, *symmetry, table),
    }
}

// A copy of a column, if there is one at the place.
fn col_at<T: Copy>(
    alloc: Global,
    table: &Vec<Vec<T>>,
    at: usize,
) -> Result<Option<Vec<T>>, AllocError>
    ensures { IfOk result (λ line. option_map (λ l. l.items) line
        ≡ slice_get (transposed (items_of_each table.now)) at) }
{
    let turned = act(alloc, Symmetry::Transpose, table)?;
    line_at(alloc, &turned, at)
}

// The reply to a command that is not refused.
fn reply_to<T: Copy>(
    alloc: Global,
    command: &Command<T>,
    table: &Vec<Vec<T>>,
) -> Result<Reply<T>, AllocError>
    ensures { IfOk result (λ reply.
        reply_value reply ≡ reply_to (command_value command.now) (items_of_each table.now)) }
{
    let (rows, cols) = size(table);
    let reply = match command {
        Command::Size => Reply::Size(rows, cols),
        Command::Get(row, col) => Reply::Cell(get(table, *row, *col)),
        Command::Row(at) | Command::RemoveRow(at) => Reply::Line(line_at(alloc, table, *at)?),
        Command::Col(at) | Command::RemoveCol(at) => Reply::Line(col_at(alloc, table, *at)?),
        Command::PopRow => Reply::Line(line_at(alloc, table, rows.saturating_sub(1))?),
        Command::PopCol => Reply::Line(col_at(alloc, table, cols.saturating_sub(1))?),
        Command::DeleteRow(at) => Reply::Flag(*at < rows),
        Command::DeleteCol(at) => Reply::Flag(*at < cols),
        Command::DeleteRows(start, count) => Reply::Flag(has_lines(rows, *start, *count)),
        Command::DeleteCols(start, count) => Reply::Flag(has_lines(cols, *start, *count)),
        Command::Set(_, _, _)
        | Command::Swap(_, _)
        | Command::PushRow(_)
        | Command::PushCol(_)
        | Command::InsertRow(_, _)
        | Command::InsertCol(_, _)
        | Command::InsertRows(_, _)
        | Command::InsertCols(_, _)
        | Command::ExpandRows(_)
        | Command::ExpandCols(_)
        | Command::PrependRows(_)
        | Command::PrependCols(_)
        | Command::Fill(_)
        | Command::Clear
        | Command::Apply(_) => Reply::Done,
    };
    Ok(reply)
}

#[tactic(auto, unfolding(grid::specs::Step::step_rows, grid::specs::Step::step_reply))]
/// Does a command, where `default` is the cells' default, and returns its reply.
///
///     [[1, 2]]   step(PushRow([3, 4]))   Done                [[1, 2], [3, 4]]
///     [[1, 2]]   step(PushRow([3]))      Refused(Length)     [[1, 2]]
///
/// Fails: if allocation fails; the table is unchanged.
pub fn step<T: Copy>(
    alloc: Global,
    default: T,
    command: &Command<T>,
    table: &mut Vec<Vec<T>>,
) -> Result<Reply<T>, AllocError>
    ensures rows { OnOk result
        (items_of_each table.new
        ≡ step_rows default (command_value command.now) (items_of_each table.old)) }
    ensures reply { IfOk result
        (λ reply. reply_value reply
        ≡ step_reply (command_value command.now) (items_of_each table.old)) }
    ensures err { OnErr result (table.new ≡ table.old) }
{
    let (rows, cols) = size(table);
    if let Some(reason) = refusal(command, rows, cols) {
        return Ok(Reply::Refused(reason));
    }
    let reply = reply_to(alloc, command, table)?;
    *table = rows_after(alloc, default, command, table)?;
    Ok(reply)
}

/// Does commands one after another, and returns their replies.
///
/// Fails: if allocation fails; the table is as after some of the commands.
pub fn run<T: Copy>(
    alloc: Global,
    default: T,
    commands: &[Command<T>],
    table: &mut Vec<Vec<T>>,
) -> Result<Vec<Reply<T>>, AllocError>
    ensures rows { OnOk result
        (items_of_each table.new
        ≡ run_rows default (map command_value commands.now) (items_of_each table.old)) }
    ensures replies { IfOk result
        (λ replies. map reply_value replies.items
        ≡ run_replies default (map command_value commands.now) (items_of_each table.old)) }
    ensures err { OnErr result
        (AfterSome default (map command_value commands.now)
        (items_of_each table.old) (items_of_each table.new)) }
{
    let mut replies = Vec::new(alloc);
    for command in commands {
        replies.push(step(alloc, default, command, table)?)?;
    }
    Ok(replies)
}
