//! Rays, straight lines and what can be seen. A cell of 0 is clear.
use crate::ask::Ask;
use crate::case::CaseError;
use crate::shown::{shown, shown_made, shown_ok};
use grid::Grid;
use grid_rays::{alike_along, field_of_view, first_along, has_run, ray, sees, segment};
use std::alloc::Global;

fn is_clear(cell: &i64) -> bool {
    *cell == 0
}

// What a call along a direction returned.
fn along(alloc: Global, board: &Grid<i64>, ask: Ask<'_>) -> Result<String, CaseError> {
    let (at, way) = (ask.position(0), ask.direction(2)?);
    match ask.call {
        "ray" => shown_ok(
            alloc,
            ray(board, at, way).collect::<Vec<((usize, usize), &i64)>>(alloc),
        ),
        "first_along" => {
            let wanted = ask.cell(3);
            shown(alloc, first_along(board, at, way, |cell| *cell == wanted))
        }
        "alike_along" => shown(alloc, alike_along(board, at, way)),
        _ => Err(CaseError::UnknownCall),
    }
}

/// Returns what a call on lines of cells returned.
pub fn actual(alloc: Global, board: &mut Grid<i64>, ask: Ask<'_>) -> Result<String, CaseError> {
    let at = ask.position(0);
    match ask.call {
        "has_run" => shown(alloc, has_run(board, at, ask.number(2))),
        "sees" => shown(alloc, sees(board, at, ask.position(2), is_clear)),
        "field_of_view" => {
            let radius = ask.word(2).parse::<usize>().ok();
            shown_made(alloc, field_of_view(board, at, radius, is_clear))
        }
        _ => along(alloc, board, ask),
    }
}

/// Returns what a call on a direction or on two positions returned.
pub fn actual_alone(alloc: Global, ask: Ask<'_>) -> Result<String, CaseError> {
    match ask.call {
        "opposite" => shown(alloc, ask.direction(0)?.opposite()),
        "turned" => shown(alloc, ask.direction(0)?.turned(ask.number(1))),
        "segment" => shown_ok(
            alloc,
            segment(ask.position(0), ask.position(2))
                .take(9)
                .collect::<Vec<(usize, usize)>>(alloc),
        ),
        _ => Err(CaseError::UnknownCall),
    }
}
