//! Commands, refusals and replies as data.
//!
//! A command is read once, by `command_value`; every other definition and all steps use what it says.
ghost use Rattle.std.specs.Prelude.{◌≡◌};
ghost use Rattle.grid_commands.specs.Command.{command_value, axis_of};

use crate::error::GridError;
use grid_base::Symmetry;
use std::alloc::{Allocator, Global};
use std::fmt;

/// What can be asked of a grid, as data.
///
/// A refused command changes nothing. It is refused for the first reason that holds, in the order of [`Refusal`]; which
/// one is a function of the command and of the size of the grid. A command without a line 'Refused' never is.
#[derive(Drop)]
#[derive_where(Debug, PartialEq; T)]
pub enum Command<T, A: Allocator = Global> {
    /// The number of rows and of columns. Replies `Size`.
    Size,
    /// The cell in a row and a column. Replies `Cell`; takes memory where there is such a cell.
    Get(usize, usize),
    /// The cells of a row. Replies `Line`; takes memory where there is such a row.
    Row(usize),
    /// The cells of a column. Replies `Line`; takes memory where there is such a column.
    Col(usize),
    /// Writes the cell in a row and a column; the old cell is dropped. Replies `Done`.
    ///
    /// Refused: `Index` where there is no such cell.
    Set(usize, usize, T),
    /// Exchanges two cells. Replies `Done`.
    ///
    /// Refused: `Index` where there is no cell at one of the positions.
    Swap((usize, usize), (usize, usize)),
    /// Adds a row at the end. Replies `Done`; takes memory unless it is refused.
    ///
    /// Refused: `EmptyLine` of no cells; `Length` on a grid that isn't empty, where it is not as long as its rows;
    /// `TooLarge`.
    PushRow(Vec<T, A>),
    /// Adds a column at the end. Replies `Done`; takes memory unless it is refused.
    ///
    /// Refused: as [`PushRow`](Command::PushRow), of columns.
    PushCol(Vec<T, A>),
    /// Inserts a row before a row, or at the end. Replies `Done`; takes memory unless it is refused.
    ///
    /// Refused: as [`PushRow`](Command::PushRow), and before `TooLarge` by `Index` where the insertion point is past
    /// the end.
    InsertRow(usize, Vec<T, A>),
    /// Inserts a column before a column, or at the end. Replies `Done`; takes memory unless it is refused.
    ///
    /// Refused: as [`InsertRow`](Command::InsertRow), of columns.
    InsertCol(usize, Vec<T, A>),
    /// Inserts rows before a row, or at the end, in their order. Replies `Done`; takes memory unless it is refused or
    /// has no lines.
    ///
    /// Refused: `EmptyLine` where one has no cells; `Length` where one is not as long as the rows of the grid, or, into
    /// an empty grid, where two have different lengths; `Index` where the insertion point is past the end, also without
    /// lines; `TooLarge`.
    InsertRows(usize, Vec<Vec<T, A>, A>),
    /// Inserts columns before a column, or at the end, in their order. Replies `Done`; takes memory unless it is
    /// refused or has no lines.
    ///
    /// Refused: as [`InsertRows`](Command::InsertRows), of columns.
    InsertCols(usize, Vec<Vec<T, A>, A>),
    /// Removes the last row. Replies `Line`; takes memory where there is a row.
    PopRow,
    /// Removes the last column. Replies `Line`; takes memory where there is a column.
    PopCol,
    /// Removes a row. Replies `Line`; takes memory where there is such a row.
    RemoveRow(usize),
    /// Removes a column. Replies `Line`; takes memory where there is such a column.
    RemoveCol(usize),
    /// Drops a row. Replies `Flag`: whether there was such a row.
    DeleteRow(usize),
    /// Drops a column. Replies `Flag`: whether there was such a column.
    DeleteCol(usize),
    /// Drops a number of rows, from a row on. Replies `Flag`: whether they were all there; if not, nothing changes.
    DeleteRows(usize, usize),
    /// Drops a number of columns, from a column on. Replies `Flag`: whether they were all there; if not, nothing
    /// changes.
    DeleteCols(usize, usize),
    /// Adds rows of defaults at the end; an empty grid stays empty. Replies `Done`; takes memory where it adds rows.
    ///
    /// Refused: `TooLarge`, on a grid that isn't empty and where the number is not 0.
    ExpandRows(usize),
    /// Adds columns of defaults at the end; an empty grid stays empty. Replies `Done`; takes memory where it adds
    /// columns.
    ///
    /// Refused: as [`ExpandRows`](Command::ExpandRows).
    ExpandCols(usize),
    /// Adds rows of defaults at the beginning; an empty grid stays empty. Replies `Done`; takes memory where it adds
    /// rows.
    ///
    /// Refused: as [`ExpandRows`](Command::ExpandRows).
    PrependRows(usize),
    /// Adds columns of defaults at the beginning; an empty grid stays empty. Replies `Done`; takes memory where it adds
    /// columns.
    ///
    /// Refused: as [`ExpandRows`](Command::ExpandRows).
    PrependCols(usize),
    /// Makes every cell the value. Replies `Done`; takes memory on a grid that is not empty.
    Fill(T),
    /// Drops all cells. Replies `Done`.
    Clear,
    /// Applies a symmetry. Replies `Done`.
    Apply(Symmetry),
}

/// Why a command was refused. The reasons are tested in this order.
#[derive(Clone, Copy, Debug, PartialEq, Eq)]
pub enum Refusal {
    /// A line has no cells.
    EmptyLine,
    /// A line is not as long as those of the grid; or, into an empty grid, two lines have different lengths.
    Length,
    /// A row, a column or an insertion point is out of range.
    Index,
    /// The number of cells would exceed `usize::MAX`.
    TooLarge,
}

/// The two kinds of lines of a grid.
#[derive(Clone, Copy, Debug, PartialEq, Eq)]
pub enum Axis {
    /// The rows.
    Row,
    /// The columns.
    Col,
}

/// What a command replies.
#[derive(Drop)]
#[derive_where(Debug, PartialEq; T)]
pub enum Reply<T, A: Allocator = Global> {
    /// It was done.
    Done,
    /// The number of rows and of columns.
    Size(usize, usize),
    /// A clone of the cell, or `None` where there is no such cell.
    Cell(Option<T>),
    /// Clones of the cells of a line, or the line that was removed, or `None` where there is no such line.
    Line(Option<Vec<T, A>>),
    /// Whether there were such lines.
    Flag(bool),
    /// It was refused, and nothing changed.
    Refused(Refusal),
}

/// A run that stopped because allocation failed.
///
/// The grid has the rows after the first `done` commands, and `replies` are theirs.
#[derive(Drop)]
#[derive_where(Debug, PartialEq; T)]
pub struct RunStopped<T, A: Allocator = Global> {
    /// How many commands were done.
    pub done: usize,
    /// Their replies.
    pub replies: Vec<Reply<T, A>, A>,
}

/// Writes `out of memory after 3 commands`, and nothing of the replies.
impl<T, A: Allocator> fmt::Display for RunStopped<T, A> {
    ghost use Rattle.std.specs.Prelude.{Some};
    ghost use Rattle.grid_commands.specs.Errors.{stopped_text};

    ghost output = { λ stopped. Some (stopped_text stopped.done) };

    fn fmt<W: fmt::Write>(&self, f: &mut fmt::Formatter<W>) -> fmt::Result {
        write!(f, "out of memory after {} commands", self.done)
    }
}

impl<T: fmt::Debug + Drop, A: Allocator> std::error::Error for RunStopped<T, A> {}

/// Returns `GridError::Memory`. The replies are dropped.
impl<T: Drop, A: Allocator> From<RunStopped<T, A>> for GridError {
    ghost use Rattle.grid_commands.specs.declared.error.GridError.TheVariants.{Memory};

    ghost from_gives = { λ _ e. e ≡ Memory };

    fn from(_stopped: RunStopped<T, A>) -> GridError {
        GridError::Memory
    }
}

impl<T, A: Allocator> Command<T, A> {
    /// Returns the axis of the lines that the command speaks of: `Col` where its name ends in `Col` or `Cols`, `Row`
    /// for every other.
    pub fn axis(&self) -> Axis
        ensures { result ≡ axis_of (command_value self.now) }
    {
        match self {
            Command::Col(_)
            | Command::PushCol(_)
            | Command::InsertCol(_, _)
            | Command::InsertCols(_, _)
            | Command::PopCol
            | Command::RemoveCol(_)
            | Command::DeleteCol(_)
            | Command::DeleteCols(_, _)
            | Command::ExpandCols(_)
            | Command::PrependCols(_) => Axis::Col,
            _ => Axis::Row,
        }
    }
}
