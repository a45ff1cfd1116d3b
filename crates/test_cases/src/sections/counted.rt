//! What a command is, and what it counts on a board that is too large to be shown.
use crate::ask::Ask;
use crate::case::{CaseError, shape_error};
use crate::shown::shown;
use grid::{Axis, Command, Grid, Order, Tally};
use std::alloc::Global;
use test_support::fixtures::cut;

// The axis of a command of this name.
fn axis_of(name: &str) -> Result<Axis, CaseError> {
    match name {
        "row" => Ok(Command::<i64>::Row(0).axis()),
        "delete_cols" => Ok(Command::<i64>::DeleteCols(0, 1).axis()),
        "expand_rows" => Ok(Command::<i64>::ExpandRows(1).axis()),
        "size" => Ok(Command::<i64>::Size.axis()),
        _ => Err(CaseError::BadArgument),
    }
}

// The board of the line of a call.
fn board_of(alloc: Global, ask: Ask<'_>) -> Result<Grid<i64>, CaseError> {
    match cut(ask.line(alloc)?, ask.number(1), Order::RowMajor) {
        Ok(board) => Ok(board),
        Err(error) => Err(shape_error(error, CaseError::BadBoard)),
    }
}

// What a step replied that adds columns to a board of such rows, the size then, and the swaps for shifts.
fn expanded(alloc: Global, ask: Ask<'_>) -> Result<String, CaseError> {
    let mut board = board_of(alloc, ask)?;
    let mut tally = Tally::new();
    let reply = board.step(Command::ExpandCols(ask.number(0)), &mut tally);
    Ok(format!(in alloc; "{reply:?} {:?} {}", board.size(), tally.shift())?)
}

/// Returns the axis of a command, or what a step counted.
pub fn actual(alloc: Global, ask: Ask<'_>) -> Result<String, CaseError> {
    match ask.call {
        "axis" => shown(alloc, axis_of(ask.word(0))?),
        "expand_cols" => expanded(alloc, ask),
        _ => Err(CaseError::UnknownCall),
    }
}
