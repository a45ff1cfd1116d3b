//! Boards up to symmetry.
use crate::ask::Ask;
use crate::case::{CaseError, shape_error};
use crate::shown::shown;
use grid::Grid;
use grid_images::laws::least_images_agree;
use grid_images::{canonicalize, compare, images, least_image, symmetries, symmetry_between};
use std::alloc::Global;
use std::convert::TryFrom;

// What a call on two boards returned.
fn compared(
    alloc: Global,
    board: &Grid<i64>,
    other: &Grid<i64>,
    ask: Ask<'_>,
) -> Result<String, CaseError> {
    let (board, other) = (board.view(), other.view());
    match ask.call {
        "compare" => shown(alloc, compare(&board, &other)),
        "symmetry_between" => shown(alloc, symmetry_between(&board, &other)),
        "least_images_agree" => shown(alloc, least_images_agree(&board, &other)),
        "same_symmetries" => shown(alloc, symmetries(&board) == symmetries(&other)),
        _ => Err(CaseError::UnknownCall),
    }
}

/// Returns what a call on a board up to symmetry returned.
pub fn actual(alloc: Global, board: &mut Grid<i64>, ask: Ask<'_>) -> Result<String, CaseError> {
    match ask.call {
        "least_image" => shown(alloc, least_image(board)),
        "canonicalize" => shown(alloc, canonicalize(board)),
        "symmetries" => shown(alloc, symmetries(board)),
        "images" => shown(alloc, images(board).as_slice()),
        "count" => shown(alloc, symmetries(board).len()),
        "is_empty" => shown(alloc, symmetries(board).is_empty()),
        "contains" => shown(alloc, symmetries(board).contains(ask.symmetry(0))),
        _ => match Grid::try_from(ask.lines(alloc)?) {
            Ok(other) => compared(alloc, board, &other, ask),
            Err(error) => Err(shape_error(error, CaseError::BadArgument)),
        },
    }
}
