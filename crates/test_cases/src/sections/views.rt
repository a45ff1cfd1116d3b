//! Views of a part that is seen through a symmetry, and parts that are copied or written.
ghost use Rattle.std.specs.Prelude.{◌+◌, ◌≤◌, IsTrue};
ghost use Rattle.grid_base.specs.Table.{row_count, col_count};

use crate::ask::Ask;
use crate::case::{CaseError, shape_error};
use crate::shown::{shown, shown_made, shown_ok, text};
use grid::{AsView, Grid, GridView, GridViewMut, ViewLineIter, ViewRowIter};
use std::alloc::{AllocError, Global};
use std::convert::TryFrom;

/// Returns whether a board has `size.0` rows and `size.1` columns from a position on.
pub fn is_within(board: &Grid<i64>, at: (usize, usize), size: (usize, usize)) -> bool
    ensures { IsTrue result → at.0 + size.0 ≤ row_count board.now.rows
        × at.1 + size.1 ≤ col_count board.now.rows }
{
    let (rows, cols) = board.size();
    at.0 <= rows && size.0 <= rows - at.0 && at.1 <= cols && size.1 <= cols - at.1
}

/// Returns the board of the lines of a call, in an order.
pub fn stamp(alloc: Global, ask: Ask<'_>, at: usize) -> Result<Grid<i64>, CaseError> {
    match Grid::try_from(ask.lines(alloc)?) {
        Ok(mut stamp) => {
            stamp.lay_out(ask.order(at));
            Ok(stamp)
        }
        Err(error) => Err(shape_error(error, CaseError::BadArgument)),
    }
}

// A view through the symmetry of this word.
fn turned<'a>(view: &GridView<'a, i64>, ask: Ask<'_>, at: usize) -> GridView<'a, i64> {
    match ask.word(at) {
        "Transpose" => view.transposed(),
        _ => view.turned(ask.symmetry(at)),
    }
}

fn cell_of(view: &GridView<'_, i64>, (row, col): (usize, usize)) -> Option<i64> {
    if row < view.rows() && col < view.cols() {
        Some(*view.get_unchecked(row, col))
    } else {
        None
    }
}

// The cells of a row of a view, copied over those of a line, or the line as it was where there is no such row.
fn copied(alloc: Global, view: &GridView<'_, i64>, r: usize) -> Result<Vec<i64>, AllocError> {
    let mut line = vec![in alloc; 0; view.cols()]?;
    if r < view.rows() && line.len() == view.cols() {
        view.copy_row(r, &mut line);
    }
    Ok(line)
}

fn cell_after(mut line: ViewLineIter<'_, i64>, skipped: usize) -> Option<i64> {
    line.nth(skipped).copied()
}

// A cell after some others, in a line after some others.
fn nth(
    alloc: Global,
    mut lines: ViewRowIter<'_, i64>,
    (skipped, cell): (usize, usize),
) -> Result<String, CaseError> {
    match lines.nth(skipped) {
        Some(line) => shown(alloc, cell_after(line, cell)),
        None => text(alloc, "no such line"),
    }
}

// The cells that the iterators of a view give.
fn iterated(alloc: Global, view: &GridView<'_, i64>, ask: Ask<'_>) -> Result<String, CaseError> {
    let at = ask.number(5);
    match ask.call {
        "iter_row" if at < view.rows() => {
            shown_ok(alloc, view.iter_row(at).collect::<Vec<&i64>>(alloc))
        }
        "iter_col" if at < view.cols() => {
            shown_ok(alloc, view.iter_col(at).collect::<Vec<&i64>>(alloc))
        }
        "nth_of_rows" => nth(alloc, view.iter_rows(), ask.position(5)),
        "nth_of_cols" => nth(alloc, view.iter_cols(), ask.position(5)),
        "indexed_iter" => shown_ok(
            alloc,
            view.indexed_iter()
                .collect::<Vec<((usize, usize), &i64)>>(alloc),
        ),
        _ => Err(CaseError::UnknownCall),
    }
}

// The part of a board that the first four words say, through the symmetry of the fifth.
fn read(alloc: Global, board: &Grid<i64>, ask: Ask<'_>) -> Result<String, CaseError> {
    let (at, size) = (ask.position(0), ask.position(2));
    if !is_within(board, at, size) {
        return text(alloc, "out of range");
    }
    let view = board.part(at, size).turned(ask.symmetry(4));
    match ask.call {
        "sub_grid" => shown_made(alloc, board.sub_grid(at, size)),
        "from_view" => shown_made(alloc, Grid::from_view(alloc, ask.order(5), &view)),
        "to_vec" => shown_ok(alloc, view.to_vec(alloc, ask.order(5))),
        "as_slice" => shown(alloc, view.as_slice()),
        "copy_row" => shown_ok(alloc, copied(alloc, &view, ask.number(5))),
        "get_unchecked" => shown(alloc, cell_of(&view, ask.position(5))),
        _ => iterated(alloc, &view, ask),
    }
}

// How two views compare, and the text of the other.
fn compared_views(
    alloc: Global,
    view: &GridView<'_, i64>,
    other: &GridView<'_, i64>,
) -> Result<String, CaseError> {
    let (equal, different) = (*view == *other, *view != *other);
    Ok(format!(in alloc; "equal {equal}, different {different}, {other:?}")?)
}

// The same of a board and of another through a symmetry.
fn compared(alloc: Global, board: &Grid<i64>, ask: Ask<'_>) -> Result<String, CaseError> {
    let other = stamp(alloc, ask, 0)?;
    compared_views(alloc, &board.view(), &turned(&other.view(), ask, 1))
}

// Pastes a view. `paste_copied` returns nothing.
fn paste_view(
    alloc: Global,
    board: &mut Grid<i64>,
    ask: Ask<'_>,
    view: &GridView<'_, i64>,
) -> Result<String, CaseError> {
    let at = ask.position(0);
    if !is_within(board, at, view.size()) {
        return text(alloc, "out of range");
    }
    if ask.call == "paste_copied" {
        board.paste_copied(at, view);
        return text(alloc, "copied");
    }
    shown(alloc, board.paste(at, view))
}

fn paste(alloc: Global, board: &mut Grid<i64>, ask: Ask<'_>) -> Result<String, CaseError> {
    let stamp = stamp(alloc, ask, 2)?;
    paste_view(alloc, board, ask, &turned(&stamp.view(), ask, 3))
}

fn paste_clipped(alloc: Global, board: &mut Grid<i64>, ask: Ask<'_>) -> Result<String, CaseError> {
    let stamp = stamp(alloc, ask, 2)?;
    shown(
        alloc,
        board.paste_clipped((ask.signed(0), ask.signed(1)), &stamp.view()),
    )
}

/// Returns ten times a cell, and 1 more above the diagonal.
pub fn by_place((row, col): (usize, usize), cell: &i64) -> i64 {
    let above = if row < col { 1 } else { 0 };
    cell.wrapping_mul(10).wrapping_add(above)
}

// What a part for writing shows, and a cell of it before a write, after it, and before another.
fn written(
    alloc: Global,
    part: &GridViewMut<'_, i64>,
    cells: [Option<i64>; 3],
) -> Result<String, CaseError> {
    let ([old, new, again], size, rows) = (cells, part.size(), part.view());
    Ok(format!(in alloc; "{old:?} is {new:?} and {again:?}, {size:?} {rows:?}")?)
}

fn write_whole(alloc: Global, board: &mut Grid<i64>, ask: Ask<'_>) -> Result<String, CaseError> {
    let ((row, col), cell) = (ask.position(0), ask.cell(2));
    let mut whole = board.view_mut();
    let old = whole.set_at((row, col), cell);
    let new = whole.get(row, col).copied();
    let again = whole.set(row, col, cell);
    written(alloc, &whole, [old, new, again])
}

fn write_part(alloc: Global, board: &mut Grid<i64>, ask: Ask<'_>) -> Result<String, CaseError> {
    let (at, size) = (ask.position(0), ask.position(2));
    if !is_within(board, at, size) {
        return text(alloc, "out of range");
    }
    let ((row, col), cell) = (ask.position(4), ask.cell(6));
    let mut part = board.part_mut(at, size);
    let old = part.set_at((row, col), cell);
    let new = part.get(row, col).copied();
    let again = part.set(row, col, cell);
    written(alloc, &part, [old, new, again])
}

fn write(alloc: Global, board: &mut Grid<i64>, ask: Ask<'_>) -> Result<String, CaseError> {
    let (at, size) = (ask.position(0), ask.position(2));
    if !is_within(board, at, size) {
        return text(alloc, "out of range");
    }
    match ask.call {
        "fill_part" => shown(alloc, board.fill_part(at, size, ask.cell(4))),
        "update_part" => shown(alloc, board.update_part(at, size, by_place)),
        "part_mut" => write_part(alloc, board, ask),
        _ => read(alloc, board, ask),
    }
}

/// Returns what a call on a part returned.
pub fn actual(alloc: Global, board: &mut Grid<i64>, ask: Ask<'_>) -> Result<String, CaseError> {
    match ask.call {
        "as_view" => shown(alloc, board.as_view()),
        "view_mut" => write_whole(alloc, board, ask),
        "compare" => compared(alloc, board, ask),
        "paste" | "paste_copied" => paste(alloc, board, ask),
        "paste_clipped" => paste_clipped(alloc, board, ask),
        _ => write(alloc, board, ask),
    }
}
