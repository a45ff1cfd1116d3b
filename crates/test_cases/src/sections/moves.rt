//! The six moves by name, and the eight symmetries.
use crate::ask::Ask;
use crate::case::CaseError;
use crate::shown::shown;
use grid::{Grid, Tally};
use std::alloc::Global;

// The swaps that a symmetry counts: for symmetries and for shifts.
fn apply_counted(board: &mut Grid<i64>, ask: Ask<'_>) -> (u128, u128) {
    let mut tally = Tally::new();
    board.apply_counted(ask.symmetry(0), &mut tally);
    (tally.symmetry(), tally.shift())
}

/// Returns what a move returned.
pub fn actual(alloc: Global, board: &mut Grid<i64>, ask: Ask<'_>) -> Result<String, CaseError> {
    match ask.call {
        "transpose" => shown(alloc, board.transpose()),
        "flip_cols" => shown(alloc, board.flip_cols()),
        "flip_rows" => shown(alloc, board.flip_rows()),
        "rotate_left" => shown(alloc, board.rotate_left()),
        "rotate_right" => shown(alloc, board.rotate_right()),
        "rotate_half" => shown(alloc, board.rotate_half()),
        "apply" => shown(alloc, board.apply(ask.symmetry(0))),
        "apply_counted" => shown(alloc, apply_counted(board, ask)),
        _ => Err(CaseError::UnknownCall),
    }
}
