//! Views: what a caller's contract says by the rows that are seen, with no proof file.
ghost use Rattle.std.specs.Prelude.{◌≡◌, ◌<◌, ◌≤◌, ◌==◌, ◌↔◌, IsTrue, IfSome, OnOk, OnErr, Some, Any, max, sum, count_by};
ghost use Rattle.std.specs.List.{fold};
ghost use Rattle.grid.specs.Prelude.{row, row_count, col_count, concat_rows, transposed, cell, act, sub_table, overlaid, neighbors8};

use grid::{Grid, GridView, Symmetry};
use std::alloc::{AllocError, Global};

/// Returns how many cells of row `r` are `x`, and whether a cell of column `c` is.
pub fn found_in_lines(view: &GridView<'_, u32>, r: usize, c: usize, x: u32) -> (usize, bool)
    requires row { r < row_count view.now.rows }
    requires col { c < col_count view.now.rows }
    ensures count { result.0 ≡ count_by (λ y. y == x) (row view.now.rows r) }
    ensures any { IsTrue result.1 ↔ Any (λ y. y ≡ x) (row (transposed view.now.rows) c) }
{
    let is_x = |y: &u32| *y == x;
    (
        view.iter_row(r).copied().filter(is_x).count(),
        view.iter_col(c).any(is_x),
    )
}

/// Returns a position of a cell that is `x`, found by a chain.
pub fn position_of(view: &GridView<'_, u32>, x: u32) -> Option<(usize, usize)>
    ensures { IfSome result (λ at. cell view.now.rows at.0 at.1 ≡ Some x) }
{
    let (at, _) = view.indexed_iter().find(|(_, cell)| **cell == x)?;
    Some(at)
}

/// Returns the largest cell, or 0 where there are none.
pub fn largest(view: &GridView<'_, u32>) -> u32
    ensures { result ≡ fold (λ most x. max most x) 0 (concat_rows view.now.rows) }
{
    view.iter().fold(0u32, |most, x| most.max(*x))
}

/// Returns how many of the cells that touch a cell of a part are `x`, and where the first of them is in the part.
pub fn count_in_part(
    part: &GridView<'_, u8>,
    at: (usize, usize),
    x: u8,
) -> (usize, Option<(usize, usize)>)
    ensures count { result.0
        ≡ count_by (λ near. near.1 == x) (neighbors8 part.now.rows at.0 at.1) }
    ensures first { IfSome result.1 (λ at. cell part.now.rows at.0 at.1 ≡ Some x) }
{
    let is_x = |cell: &u8| *cell == x;
    (part.count_neighbors8(at, is_x), part.position(is_x))
}

/// Returns the part of two rows and two columns, seen with its columns flipped.
pub fn corner_flipped<'a>(view: &GridView<'a, u32>) -> GridView<'a, u32>
    requires rows { 2 ≤ row_count view.now.rows }
    requires cols { 2 ≤ col_count view.now.rows }
    ensures { result.rows ≡ act Symmetry.FlipCols (sub_table view.now.rows (0, 0) (2, 2)) }
{
    view.part((0, 0), (2, 2)).turned(Symmetry::FlipCols)
}

/// Returns the sum of the cells of a window, or `None` where the window isn't within the board.
///
///     [[1, 2, 3], [4, 5, 6]]   window_sum((0, 1), (2, 2))   Some(16)
pub fn window_sum(grid: &Grid<u8>, at: (usize, usize), size: (usize, usize)) -> Option<u64> {
    let (rows, cols) = grid.size();
    if rows < size.0 || rows - size.0 < at.0 || cols < size.1 || cols - size.1 < at.1 {
        return None;
    }
    let mut sum = 0u64;
    for cell in grid.part(at, size).iter() {
        sum = sum.saturating_add(u64::from(*cell));
    }
    Some(sum)
}

/// Returns whether a piece fits over a part of a board: where the piece has a cell, the board's is free. Both have one
/// size.
///
///     piece [[true, false]]   board [[false, true]]   fits   true
pub fn fits(piece: &GridView<'_, bool>, board: &GridView<'_, bool>) -> bool {
    let (rows, cols) = piece.size();
    if board.size() != (rows, cols) {
        return false;
    }
    for row in 0..rows {
        for col in 0..cols {
            if piece[(row, col)] && board[(row, col)] {
                return false;
            }
        }
    }
    true
}

/// Returns whether a piece, turned, fits on a board at a position.
pub fn fits_at(
    piece: &GridView<'_, bool>,
    symmetry: Symmetry,
    board: &Grid<bool>,
    at: (usize, usize),
) -> bool {
    let turned = piece.turned(symmetry);
    let size = turned.size();
    let (rows, cols) = board.size();
    if rows < size.0 || rows - size.0 < at.0 || cols < size.1 || cols - size.1 < at.1 {
        return false;
    }
    fits(&turned, &board.part(at, size))
}

/// Returns whether two boards have the same cells where both have one, in the upper left corner.
pub fn alike_in_corner(a: &Grid<u8>, b: &Grid<u8>) -> bool {
    let size = (a.rows().min(b.rows()), a.cols().min(b.cols()));
    a.part((0, 0), size) == b.part((0, 0), size)
}

/// Lays a board over another, from a signed position on.
pub fn stamp(board: &mut Grid<u8>, at: (isize, isize), stamp: &Grid<u8>) -> Result<(), AllocError>
    ensures rows { OnOk result (board.new.rows ≡ overlaid at stamp.now.rows board.old.rows) }
    ensures err { OnErr result (board.new ≡ board.old) }
{
    board.paste_clipped(at, &stamp.view())
}

/// Clears the first row, if there is one.
pub fn clear_first_row(board: &mut Grid<u8>) -> Result<(), AllocError> {
    if board.is_empty() {
        return Ok(());
    }
    let cols = board.cols();
    board.fill_part((0, 0), (1, cols), 0)
}
