//! Commands carried from the image of a grid to the grid itself.
//!
//! Each symmetry is a word of transposes and flips of the rows, so a command is carried by these two.
ghost use Rattle.std.specs.Prelude.{◌≡◌, map, reverse};
ghost use Rattle.grid.specs.Prelude.{items_of_each, command_value, reply_value};
ghost use Rattle.grid_deferred.specs.Prelude.{turned_reply, reverses_cells, mirrored_line, mirrored_insertion, mirrored_start, transposed_command, flipped_command, Carries, is_apply, carried};

use grid::{Axis, Command, Reply};
use grid_base::Symmetry;
use std::alloc::Allocator;

/// Returns the command on a grid of `size.0` rows and `size.1` columns that does what the given one does on the grid's
/// image under a symmetry: the same rows and, by [`carry_reply`], the same reply. It takes memory exactly where the
/// given one does, and moves as many counted cells as the given one does through the symmetry.
///
///     carry(FlipCols, (2, 3), PushRow([7, 8, 9]))   PushRow([9, 8, 7])
///     carry(RotateLeft, (2, 3), ExpandRows(1))      PrependCols(1)
///
/// It is an `Apply` only where the given one is. Places out of range stay out of range.
///
/// Cost: that of reversing the lines of the command, in place; it takes no memory.
#[tactic(auto, using(crate::proofs::CarryLemmas::carries, crate::proofs::CarryLemmas::applies))]
pub fn carry<T, A: Allocator>(
    symmetry: Symmetry,
    size: (usize, usize),
    command: Command<T, A>,
) -> Command<T, A>
    ensures carries { Carries symmetry size.0 size.1
        (command_value result) (command_value command) }
    ensures still { is_apply (command_value result) ≡ is_apply (command_value command) }
{
    carried(symmetry, size.0, size.1, command)
}

// Each symmetry is a word of transposes and flips of the rows.
pub(crate) fn carried<T, A: Allocator>(
    symmetry: Symmetry,
    rows: usize,
    cols: usize,
    command: Command<T, A>,
) -> Command<T, A>
    ensures { command_value result ≡ carried symmetry rows cols (command_value command) }
{
    match symmetry {
        Symmetry::Identity => command,
        Symmetry::Transpose => transposed_command(command),
        Symmetry::FlipRows => flipped_command(rows, command),
        Symmetry::RotateLeft => transposed_command(flipped_command(cols, command)),
        Symmetry::RotateRight => flipped_command(rows, transposed_command(command)),
        Symmetry::FlipCols => transposed_command(flipped_command(
            cols,
            transposed_command(command),
        )),
        Symmetry::AntiTranspose => flipped_command(
            rows,
            transposed_command(flipped_command(cols, command)),
        ),
        Symmetry::RotateHalf => transposed_command(flipped_command(
            cols,
            transposed_command(flipped_command(rows, command)),
        )),
    }
}

// The same command on the transposed table.
fn transposed_command<T, A: Allocator>(command: Command<T, A>) -> Command<T, A>
    ensures { command_value result ≡ transposed_command (command_value command) }
{
    match command {
        Command::Size => Command::Size,
        Command::Get(row, col) => Command::Get(col, row),
        Command::Row(at) => Command::Col(at),
        Command::Col(at) => Command::Row(at),
        Command::Set(row, col, cell) => Command::Set(col, row, cell),
        Command::Swap(a, b) => Command::Swap((a.1, a.0), (b.1, b.0)),
        Command::PushRow(line) => Command::PushCol(line),
        Command::PushCol(line) => Command::PushRow(line),
        Command::InsertRow(at, line) => Command::InsertCol(at, line),
        Command::InsertCol(at, line) => Command::InsertRow(at, line),
        Command::InsertRows(at, lines) => Command::InsertCols(at, lines),
        Command::InsertCols(at, lines) => Command::InsertRows(at, lines),
        Command::PopRow => Command::PopCol,
        Command::PopCol => Command::PopRow,
        Command::RemoveRow(at) => Command::RemoveCol(at),
        Command::RemoveCol(at) => Command::RemoveRow(at),
        Command::DeleteRow(at) => Command::DeleteCol(at),
        Command::DeleteCol(at) => Command::DeleteRow(at),
        Command::DeleteRows(start, count) => Command::DeleteCols(start, count),
        Command::DeleteCols(start, count) => Command::DeleteRows(start, count),
        Command::ExpandRows(count) => Command::ExpandCols(count),
        Command::ExpandCols(count) => Command::ExpandRows(count),
        Command::PrependRows(count) => Command::PrependCols(count),
        Command::PrependCols(count) => Command::PrependRows(count),
        Command::Fill(cell) => Command::Fill(cell),
        Command::Clear => Command::Clear,
        Command::Apply(next) => {
            Command::Apply(Symmetry::Transpose.then(next).then(Symmetry::Transpose))
        }
    }
}

// The same command on a table of `rows` rows in the reversed order.
fn flipped_command<T, A: Allocator>(rows: usize, command: Command<T, A>) -> Command<T, A>
    ensures { command_value result ≡ flipped_command rows (command_value command) }
{
    match command {
        Command::Size => Command::Size,
        Command::Get(row, col) => Command::Get(mirrored_line(rows, row), col),
        Command::Row(at) => Command::Row(mirrored_line(rows, at)),
        Command::Col(at) => Command::Col(at),
        Command::Set(row, col, cell) => Command::Set(mirrored_line(rows, row), col, cell),
        Command::Swap(a, b) => Command::Swap(
            (mirrored_line(rows, a.0), a.1),
            (mirrored_line(rows, b.0), b.1),
        ),
        Command::PushRow(line) => Command::InsertRow(0, line),
        Command::PushCol(line) => Command::PushCol(reversed(line)),
        Command::InsertRow(at, line) => Command::InsertRow(mirrored_insertion(rows, at), line),
        Command::InsertCol(at, line) => Command::InsertCol(at, reversed(line)),
        Command::InsertRows(at, lines) => Command::InsertRows(
            mirrored_insertion(rows, at),
            reversed(lines),
        ),
        Command::InsertCols(at, lines) => Command::InsertCols(at, each_reversed(lines)),
        Command::PopRow => Command::RemoveRow(0),
        Command::PopCol => Command::PopCol,
        Command::RemoveRow(at) => Command::RemoveRow(mirrored_line(rows, at)),
        Command::RemoveCol(at) => Command::RemoveCol(at),
        Command::DeleteRow(at) => Command::DeleteRow(mirrored_line(rows, at)),
        Command::DeleteCol(at) => Command::DeleteCol(at),
        Command::DeleteRows(from, count) => Command::DeleteRows(
            mirrored_start(rows, from, count),
            count,
        ),
        Command::DeleteCols(from, count) => Command::DeleteCols(from, count),
        Command::ExpandRows(count) => Command::PrependRows(count),
        Command::ExpandCols(count) => Command::ExpandCols(count),
        Command::PrependRows(count) => Command::ExpandRows(count),
        Command::PrependCols(count) => Command::PrependCols(count),
        Command::Fill(cell) => Command::Fill(cell),
        Command::Clear => Command::Clear,
        Command::Apply(next) => {
            Command::Apply(Symmetry::FlipRows.then(next).then(Symmetry::FlipRows))
        }
    }
}

// Where a line is, counted from the other end; past the end it stays.
pub(crate) fn mirrored_line(count: usize, at: usize) -> usize
    ensures { result ≡ mirrored_line count at }
{
    if at < count { count - 1 - at } else { at }
}

// Where a line is put, counted from the other end; past the end it stays.
fn mirrored_insertion(count: usize, at: usize) -> usize
    ensures { result ≡ mirrored_insertion count at }
{
    if count < at { at } else { count - at }
}

// Where a range of lines starts, counted from the other end; past the end it stays.
fn mirrored_start(count: usize, from: usize, len: usize) -> usize
    ensures { result ≡ mirrored_start count from len }
{
    if from > count || len > count - from {
        from
    } else {
        count - from - len
    }
}

fn reversed<T, A: Allocator>(mut line: Vec<T, A>) -> Vec<T, A>
    ensures { result.items ≡ reverse line.items }
{
    line.reverse();
    line
}

fn each_reversed<T, A: Allocator>(lines: Vec<Vec<T, A>, A>) -> Vec<Vec<T, A>, A>
    ensures { items_of_each result.items ≡ map reverse (items_of_each lines.items) }
{
    let mut lines = lines;
    for line in lines.iter_mut() {
        line.reverse();
    }
    lines
}

/// Returns the reply to a command on the image under a symmetry, from the reply to the carried command; the axis is
/// that of the command on the image, as [`Command::axis`] returns it.
///
///     carry_reply(FlipCols, Row, Line([3, 2, 1]))   Line([1, 2, 3])
///     carry_reply(Transpose, Row, Size(2, 3))       Size(3, 2)
///
/// Cost: that of reversing the line of the reply, in place; it takes no memory.
pub fn carry_reply<T, A: Allocator>(
    symmetry: Symmetry,
    axis: Axis,
    reply: Reply<T, A>,
) -> Reply<T, A>
    ensures { reply_value result ≡ turned_reply symmetry axis (reply_value reply) }
{
    match reply {
        Reply::Size(rows, cols) if symmetry.flags().0 => Reply::Size(cols, rows),
        Reply::Line(Some(line)) if reverses_cells(symmetry, axis) => {
            Reply::Line(Some(reversed(line)))
        }
        other => other,
    }
}

// Whether each line of an axis of the image is reversed.
fn reverses_cells(symmetry: Symmetry, axis: Axis) -> bool
    ensures { result ≡ reverses_cells symmetry axis }
{
    let (_, flips_rows, flips_cols) = symmetry.flags();
    match axis {
        Axis::Row => flips_cols,
        Axis::Col => flips_rows,
    }
}
