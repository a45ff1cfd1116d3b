//! Calls that test whether there is such a line, part or position before they take it, and all positions.
use crate::ask::Ask;
use crate::case::CaseError;
use crate::shown::{shown, shown_ok, text};
use grid::{Grid, GridLineIter, Positions};
use std::alloc::Global;

// The cells of a line, if there is one.
fn line_of(alloc: Global, line: Option<GridLineIter<'_, i64>>) -> Result<String, CaseError> {
    match line {
        Some(line) => shown_ok(alloc, line.collect::<Vec<&i64>>(alloc)),
        None => text(alloc, "None"),
    }
}

// Positions, and how many there are.
fn listed(alloc: Global, positions: Positions) -> Result<String, CaseError> {
    let count = positions.len();
    let positions = positions.collect::<Vec<(usize, usize)>>(alloc)?;
    Ok(format!(in alloc; "{count}: {positions:?}")?)
}

/// Returns what a call that tests first returned.
pub fn actual(alloc: Global, board: &mut Grid<i64>, ask: Ask<'_>) -> Result<String, CaseError> {
    match ask.call {
        "get_row" => line_of(alloc, board.get_row(ask.number(0))),
        "get_col" => line_of(alloc, board.get_col(ask.number(0))),
        "get_part" => shown(alloc, board.get_part(ask.position(0), ask.position(2))),
        "offset" => shown(
            alloc,
            board.offset(ask.position(0), (ask.signed(2), ask.signed(3))),
        ),
        "indices" => listed(alloc, board.indices()),
        _ => Err(CaseError::UnknownCall),
    }
}
