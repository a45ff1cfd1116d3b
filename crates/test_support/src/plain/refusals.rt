//! Why a command is refused, from its definition.
ghost use Rattle.std.specs.Prelude.{◌≡◌, ◌+◌, ◌*◌, length, nat_eq, [], ◌∷◌, if◌then◌else◌};
ghost use Rattle.grid.specs.Prelude.{items_of_each, command_value, exceeds, in_range, fitting_width, lines_refusal, pad_refusal, command_refusal};
ghost use Rattle.std.specs.List.{list_any, list_all};

use grid::{Command, Refusal};

// Whether `count + more` lines of `width` cells exceed `usize::MAX`.
fn exceeds(count: usize, more: usize, width: usize) -> bool
    ensures { result ≡ exceeds ((count + more) * width) }
{
    match (count as u128 + more as u128).checked_mul(width as u128) {
        Some(cells) => cells > usize::MAX as u128,
        None => true,
    }
}

// Whether one of the lines has this length.
fn any_of_length<T>(lines: &[Vec<T>], len: usize) -> bool
    ensures { result ≡ list_any (λ l. nat_eq (length l) len) (items_of_each lines.now) }
{
    lines.iter().any(|line| line.len() == len)
}

// Whether all lines have this length.
fn all_of_length<T>(lines: &[Vec<T>], len: usize) -> bool
    ensures { result ≡ list_all (λ l. nat_eq (length l) len) (items_of_each lines.now) }
{
    lines.iter().all(|line| line.len() == len)
}

// The length that lines must have: that of the table's lines, or of the first line where there are none.
fn fitting_width<T>(count: usize, width: usize, lines: &[Vec<T>]) -> usize
    ensures { result ≡ fitting_width count width (items_of_each lines.now) }
{
    if count != 0 {
        return width;
    }
    match lines.first() {
        Some(line) => line.len(),
        None => 0,
    }
}

// Why lines can't be put before one of `count` lines of `width` cells.
fn lines_refusal<T>(count: usize, width: usize, at: usize, lines: &[Vec<T>]) -> Option<Refusal>
    ensures { result ≡ lines_refusal count width at (items_of_each lines.now) }
{
    let fitting = fitting_width(count, width, lines);
    if any_of_length(lines, 0) {
        Some(Refusal::EmptyLine)
    } else if !all_of_length(lines, fitting) {
        Some(Refusal::Length)
    } else if at > count {
        Some(Refusal::Index)
    } else if exceeds(count, lines.len(), fitting) {
        Some(Refusal::TooLarge)
    } else {
        None
    }
}

// Why a line can't be put before one of `count` lines of `width` cells.
fn line_refusal<T>(count: usize, width: usize, at: usize, line: &[T]) -> Option<Refusal>
    ensures { result ≡ lines_refusal count width at (line.now ∷ []) }
{
    if line.is_empty() {
        Some(Refusal::EmptyLine)
    } else if count != 0 && line.len() != width {
        Some(Refusal::Length)
    } else if at > count {
        Some(Refusal::Index)
    } else if exceeds(count, 1, line.len()) {
        Some(Refusal::TooLarge)
    } else {
        None
    }
}

// Why `count` lines of `width` cells can't be padded by `more` of them.
pub(crate) fn pad_refusal(count: usize, width: usize, more: usize) -> Option<Refusal>
    ensures { result ≡ pad_refusal count width more }
{
    if count != 0 && more != 0 && exceeds(count, more, width) {
        Some(Refusal::TooLarge)
    } else {
        None
    }
}

// Why a position can't be written in a table of this size.
fn place_refusal(place: (usize, usize), rows: usize, cols: usize) -> Option<Refusal>
    ensures { result ≡ (if in_range rows cols place then None else Some Refusal.Index) }
{
    if place.0 < rows && place.1 < cols {
        None
    } else {
        Some(Refusal::Index)
    }
}

/// Returns why a command is refused at a table of `rows` rows and `cols` columns, or `None` where it is not.
///
///     PushRow([])       at 1 row, 2 columns   Some(EmptyLine)
///     Set(1, 0, 5)      at 1 row, 2 columns   Some(Index)
///     DeleteRows(0, 9)  at 1 row, 2 columns   None
pub fn refusal<T>(command: &Command<T>, rows: usize, cols: usize) -> Option<Refusal>
    ensures { result ≡ command_refusal (command_value command.now) rows cols }
{
    match command {
        Command::Set(row, col, _) => place_refusal((*row, *col), rows, cols),
        Command::Swap(a, b) => match place_refusal(*a, rows, cols) {
            Some(reason) => Some(reason),
            None => place_refusal(*b, rows, cols),
        },
        Command::PushRow(line) => line_refusal(rows, cols, rows, line.as_slice()),
        Command::PushCol(line) => line_refusal(cols, rows, cols, line.as_slice()),
        Command::InsertRow(at, line) => line_refusal(rows, cols, *at, line.as_slice()),
        Command::InsertCol(at, line) => line_refusal(cols, rows, *at, line.as_slice()),
        Command::InsertRows(at, lines) => lines_refusal(rows, cols, *at, lines.as_slice()),
        Command::InsertCols(at, lines) => lines_refusal(cols, rows, *at, lines.as_slice()),
        Command::ExpandRows(count) | Command::PrependRows(count) => {
            pad_refusal(rows, cols, *count)
        }
        Command::ExpandCols(count) | Command::PrependCols(count) => {
            pad_refusal(cols, rows, *count)
        }
        Command::Size
        | Command::Get(_, _)
        | Command::Row(_)
        | Command::Col(_)
        | Command::PopRow
        | Command::PopCol
        | Command::RemoveRow(_)
        | Command::RemoveCol(_)
        | Command::DeleteRow(_)
        | Command::DeleteCol(_)
        | Command::DeleteRows(_, _)
        | Command::DeleteCols(_, _)
        | Command::Fill(_)
        | Command::Clear
        | Command::Apply(_) => None,
    }
}
