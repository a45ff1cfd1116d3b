//! Sums and means of parts, of the cells or of how many are odd.
use crate::ask::Ask;
use crate::case::CaseError;
use crate::shown::shown;
use grid::Grid;
use grid_sums::Sums;
use std::alloc::Global;

// What a call on sums returned, of the part whose position and size come after its name.
fn asked(alloc: Global, sums: &Sums, ask: Ask<'_>) -> Result<String, CaseError> {
    let (at, part) = (ask.position(0), ask.position(2));
    let (rows, cols) = sums.size();
    let fits = at.0 <= rows && part.0 <= rows - at.0 && at.1 <= cols && part.1 <= cols - at.1;
    match ask.call {
        "size" => shown(alloc, sums.size()),
        "total" | "odd" => shown(alloc, sums.total()),
        "get_sum" => shown(alloc, sums.get_sum(at, part)),
        "sum" if fits => shown(alloc, sums.sum(at, part)),
        "mean" if fits => shown(alloc, sums.mean(at, part)),
        _ => Err(CaseError::UnknownCall),
    }
}

/// Returns what a call on the sums of a board returned.
pub fn actual(alloc: Global, board: &mut Grid<i64>, ask: Ask<'_>) -> Result<String, CaseError> {
    let sums = match ask.call {
        "odd" => Sums::of_by(alloc, board, |cell| i64::from(*cell % 2 != 0))?,
        _ => Sums::of(alloc, &board.view())?,
    };
    asked(alloc, &sums, ask)
}
