//! Cheapest paths and their sums, over boards of costs, of which those below 0 can't be entered.
use crate::ask::Ask;
use crate::case::CaseError;
use crate::shown::shown_ok;
use grid::Grid;
use grid_paths::{Connectivity, cheapest, cheapest_path};
use std::alloc::Global;

fn cost(cell: &i64) -> Option<u32> {
    u32::try_from(*cell).ok()
}

/// Returns what a search returned, by the steps and the positions after its name.
pub fn actual(alloc: Global, board: &mut Grid<i64>, ask: Ask<'_>) -> Result<String, CaseError> {
    let (from, to) = (ask.position(1), ask.position(3));
    let steps = match ask.word(0) {
        "Eight" => Connectivity::Eight,
        _ => Connectivity::Four,
    };
    match ask.call {
        "cheapest" => shown_ok(alloc, cheapest(board, from, steps, cost)),
        "cheapest_path" => shown_ok(alloc, cheapest_path(board, from, to, steps, cost)),
        _ => Err(CaseError::UnknownCall),
    }
}
