//! Calls on a part that is seen through a symmetry: the positions of cells, its parts and lines, the cells around one,
//! and maps.
use crate::ask::Ask;
use crate::case::CaseError;
use crate::sections::views::{by_place, is_within, stamp};
use crate::shown::{shown, shown_made, shown_ok, text};
use grid::{Grid, GridView, Neighbors, Symmetry, ViewLineIter, same_cells};
use grid_lines::to_rows;
use std::alloc::Global;

// The cells of a line, if there is one.
fn line_of(alloc: Global, line: Option<ViewLineIter<'_, i64>>) -> Result<String, CaseError> {
    match line {
        Some(line) => shown_ok(alloc, line.collect::<Vec<&i64>>(alloc)),
        None => text(alloc, "None"),
    }
}

// The positions of the cells that are a number.
fn found(alloc: Global, view: &GridView<'_, i64>, ask: Ask<'_>) -> Result<String, CaseError> {
    let number = ask.cell(5);
    let is_number = |cell: &i64| *cell == number;
    match ask.call {
        "position" => shown(alloc, view.position(is_number)),
        _ => shown_ok(alloc, view.positions(alloc, is_number)),
    }
}

fn listed(alloc: Global, near: Neighbors<'_, i64>) -> Result<String, CaseError> {
    shown_ok(alloc, near.collect::<Vec<((usize, usize), &i64)>>(alloc))
}

// The text of a view: as lines, or with its numbers below one another in a width.
fn written(alloc: Global, view: &GridView<'_, i64>, ask: Ask<'_>) -> Result<String, CaseError> {
    match ask.call {
        "display" => shown(alloc, format!(in alloc; "{view}")?),
        _ => shown_ok(alloc, view.pretty(alloc, ask.word(5).parse::<usize>().ok())),
    }
}

// Whether a view has the cells of another board, or those of it turned to the left.
fn compared(alloc: Global, view: &GridView<'_, i64>, ask: Ask<'_>) -> Result<String, CaseError> {
    let other = stamp(alloc, ask, 5)?;
    let turned = other.view().turned(Symmetry::RotateLeft);
    let (same, same_turned) = (same_cells(view, &other), same_cells(&turned, view));
    shown(alloc, (same, same_turned))
}

// The cells of a board as a slice, cut in an order into rows of a number of cells.
fn cut(alloc: Global, board: &Grid<i64>, ask: Ask<'_>) -> Result<String, CaseError> {
    let cells = board.flatten();
    shown(
        alloc,
        GridView::from_slice(cells, ask.order(0), ask.number(1)),
    )
}

// The cells around a position.
fn near(alloc: Global, view: &GridView<'_, i64>, ask: Ask<'_>) -> Result<String, CaseError> {
    let at = ask.position(5);
    match ask.call {
        "neighbors4" => listed(alloc, view.neighbors4(at)),
        "neighbors8" => listed(alloc, view.neighbors8(at)),
        "wrapped_neighbors4" => listed(alloc, view.wrapped_neighbors4(at)),
        "wrapped_neighbors8" => listed(alloc, view.wrapped_neighbors8(at)),
        _ => Err(CaseError::UnknownCall),
    }
}

// How many cells around a position are above a number.
fn counted(alloc: Global, view: &GridView<'_, i64>, ask: Ask<'_>) -> Result<String, CaseError> {
    let at = ask.position(5);
    let number = ask.cell(7);
    let is_above = |cell: &i64| number < *cell;
    match ask.call {
        "count_neighbors4" => shown(alloc, view.count_neighbors4(at, is_above)),
        "count_neighbors8" => shown(alloc, view.count_neighbors8(at, is_above)),
        "count_wrapped_neighbors4" => shown(alloc, view.count_wrapped_neighbors4(at, is_above)),
        "count_wrapped_neighbors8" => shown(alloc, view.count_wrapped_neighbors8(at, is_above)),
        _ => near(alloc, view, ask),
    }
}

// What a call on a part through a symmetry returned.
fn of_part(alloc: Global, board: &Grid<i64>, ask: Ask<'_>) -> Result<String, CaseError> {
    let (at, size) = (ask.position(0), ask.position(2));
    if !is_within(board, at, size) {
        return text(alloc, "out of range");
    }
    let view = board.part(at, size).turned(ask.symmetry(4));
    match ask.call {
        "get_part" => shown(alloc, view.get_part(ask.position(5), ask.position(7))),
        "get_clamped" => shown(alloc, view.get_clamped((ask.signed(5), ask.signed(6)))),
        "get_row" => line_of(alloc, view.get_row(ask.number(5))),
        "get_col" => line_of(alloc, view.get_col(ask.number(5))),
        "position" | "positions" => found(alloc, &view, ask),
        "display" | "pretty" => written(alloc, &view, ask),
        "same_cells" => compared(alloc, &view, ask),
        "to_rows" => shown_ok(alloc, to_rows(alloc, &view)),
        "map_view" => shown_made(alloc, Grid::map_view(alloc, ask.order(5), &view, by_place)),
        "map_whole" => shown_made(alloc, Grid::map_view(alloc, ask.order(5), board, by_place)),
        _ => counted(alloc, &view, ask),
    }
}

/// Returns what a call on a part through a symmetry returned, or on the cells of the board as a slice.
pub fn actual(alloc: Global, board: &mut Grid<i64>, ask: Ask<'_>) -> Result<String, CaseError> {
    match ask.call {
        "from_slice" => cut(alloc, board, ask),
        _ => of_part(alloc, board, ask),
    }
}
