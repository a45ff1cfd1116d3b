//! Commands as they are read: those on lines are one, with its axis.
ghost use Rattle.std.specs.Prelude.{◌≡◌};
ghost use Rattle.grid_commands.specs.Command.{command_value};
ghost use Rattle.grid_commands.specs.LineEdit.{request_value};

use crate::command::{Axis, Command};
use grid_base::Symmetry;
use std::alloc::Allocator;

/// An edit of the lines of one axis.
#[derive(Drop)]
pub enum LineEdit<T, A: Allocator> {
    /// The cells of a line.
    Read(usize),
    /// Adds a line at the end.
    Push(Vec<T, A>),
    /// Inserts a line before one.
    Insert(usize, Vec<T, A>),
    /// Inserts lines before one.
    InsertAll(usize, Vec<Vec<T, A>, A>),
    /// Removes the last line.
    Pop,
    /// Removes a line.
    Remove(usize),
    /// Drops a line.
    Delete(usize),
    /// Drops a number of lines, from one on.
    DeleteRange(usize, usize),
    /// Adds lines of defaults at the end.
    Expand(usize),
    /// Adds lines of defaults at the beginning.
    Prepend(usize),
}

/// A command as it is read: the commands on lines are one, with its axis.
#[derive(Drop)]
pub enum Request<T, A: Allocator> {
    /// The number of rows and of columns.
    Size,
    /// The cell in a row and a column.
    Get(usize, usize),
    /// Writes the cell in a row and a column.
    Set(usize, usize, T),
    /// Exchanges two cells.
    Swap((usize, usize), (usize, usize)),
    /// An edit of the rows, or of the columns.
    Lines(Axis, LineEdit<T, A>),
    /// Makes every cell the value.
    Fill(T),
    /// Drops all cells.
    Clear,
    /// Applies a symmetry.
    Apply(Symmetry),
}

/// Returns the command as it is read.
///
///     PushCol([3, 4])   Lines(Col, Push([3, 4]))        Size   Size
///
/// Cost: constant; a line is moved, and not its cells.
pub fn request_of<T, A: Allocator>(command: Command<T, A>) -> Request<T, A>
    ensures { request_value result ≡ command_value command }
{
    match command {
        Command::Size => Request::Size,
        Command::Get(row, col) => Request::Get(row, col),
        Command::Row(at) => Request::Lines(Axis::Row, LineEdit::Read(at)),
        Command::Col(at) => Request::Lines(Axis::Col, LineEdit::Read(at)),
        Command::Set(row, col, value) => Request::Set(row, col, value),
        Command::Swap(a, b) => Request::Swap(a, b),
        Command::PushRow(line) => Request::Lines(Axis::Row, LineEdit::Push(line)),
        Command::PushCol(line) => Request::Lines(Axis::Col, LineEdit::Push(line)),
        Command::InsertRow(at, line) => Request::Lines(Axis::Row, LineEdit::Insert(at, line)),
        Command::InsertCol(at, line) => Request::Lines(Axis::Col, LineEdit::Insert(at, line)),
        Command::InsertRows(at, lines) => Request::Lines(Axis::Row, LineEdit::InsertAll(at, lines)),
        Command::InsertCols(at, lines) => Request::Lines(Axis::Col, LineEdit::InsertAll(at, lines)),
        Command::PopRow => Request::Lines(Axis::Row, LineEdit::Pop),
        Command::PopCol => Request::Lines(Axis::Col, LineEdit::Pop),
        Command::RemoveRow(at) => Request::Lines(Axis::Row, LineEdit::Remove(at)),
        Command::RemoveCol(at) => Request::Lines(Axis::Col, LineEdit::Remove(at)),
        Command::DeleteRow(at) => Request::Lines(Axis::Row, LineEdit::Delete(at)),
        Command::DeleteCol(at) => Request::Lines(Axis::Col, LineEdit::Delete(at)),
        Command::DeleteRows(start, count) => {
            Request::Lines(Axis::Row, LineEdit::DeleteRange(start, count))
        }
        Command::DeleteCols(start, count) => {
            Request::Lines(Axis::Col, LineEdit::DeleteRange(start, count))
        }
        Command::ExpandRows(count) => Request::Lines(Axis::Row, LineEdit::Expand(count)),
        Command::ExpandCols(count) => Request::Lines(Axis::Col, LineEdit::Expand(count)),
        Command::PrependRows(count) => Request::Lines(Axis::Row, LineEdit::Prepend(count)),
        Command::PrependCols(count) => Request::Lines(Axis::Col, LineEdit::Prepend(count)),
        Command::Fill(value) => Request::Fill(value),
        Command::Clear => Request::Clear,
        Command::Apply(symmetry) => Request::Apply(symmetry),
    }
}
