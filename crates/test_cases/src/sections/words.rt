//! Words of moves, symmetries and directions.
use crate::ask::{Ask, move_of};
use crate::case::CaseError;
use crate::shown::shown;
use grid::{Direction, Order, reduce};
use std::alloc::Global;

// The symmetry of a word of moves.
fn reduced(alloc: Global, words: &str) -> Result<String, CaseError> {
    let mut moves = Vec::new(alloc);
    for word in words.split_whitespace() {
        moves.push(move_of(word).ok_or(CaseError::BadArgument)?)?;
    }
    shown(alloc, reduce(moves.as_slice()))
}

// Where an order stores a cell.
fn placed(order: Order, ask: Ask<'_>) -> Option<usize> {
    let ((rows, cols), (row, col)) = (ask.position(1), ask.position(3));
    match rows.checked_mul(cols) {
        Some(_) if row < rows && col < cols => Some(order.place(rows, cols, row, col)),
        _ => None,
    }
}

/// Returns what a call on moves returned.
pub fn actual(alloc: Global, ask: Ask<'_>) -> Result<String, CaseError> {
    match ask.call {
        "reduce" => reduced(alloc, ask.rest),
        "of" => shown(alloc, ask.symmetry(0)),
        "place" => shown(alloc, placed(ask.order(0), ask)),
        "place_flipped" => shown(alloc, placed(ask.order(0).flipped(), ask)),
        "then" => shown(alloc, ask.symmetry(0).then(ask.symmetry(1))),
        "inverse" => shown(alloc, ask.symmetry(0).inverse()),
        "flags" => shown(alloc, ask.symmetry(0).flags()),
        "right_in" => shown(
            alloc,
            Direction::Right.step(ask.position(0), ask.position(2)),
        ),
        _ => Err(CaseError::UnknownCall),
    }
}
