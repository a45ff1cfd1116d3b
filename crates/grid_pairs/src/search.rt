//! Where a pattern stands in a board.
ghost use Rattle.std.specs.Prelude.{◌≡◌, ◌+◌, ◌<◌, ◌≤◌, ◌↔◌, ℕ, IsTrue, IfSome, MatchOption, Some};
ghost use Rattle.grid_pairs.specs.Prelude.{cell, row, row_count, col_count, InRange, FoundFirst};
ghost use Rattle.grid_pairs.specs.Found.{StandsIn, StandsFirstIn};

use grid_view::{AsView, GridView};

/// Returns the row and the column of the first part of a board, row by row, that is the pattern, or `None` where none
/// is. The empty pattern is found at (0, 0). There the part fits, so that `board.part(at, pattern.size())` needs
/// no test, and where the pattern has cells, neither does `board[at]`.
///
///     [[1, 2, 1], [2, 1, 2]]   find(board, [[2, 1]])   Some((0, 1))
///     [[1, 2, 1], [2, 1, 2]]   find(board, [[2, 2]])   None
///
/// Cost: at each position, comparisons of cells up to the first two that differ; no memory.
pub fn find<T: PartialEq, V: AsView<T>, P: AsView<T>>(
    board: &V,
    pattern: &P,
) -> Option<(usize, usize)>
    ensures first { FoundFirst T.eq (V.rows board.now) (P.rows pattern.now) result }
    ensures fits { IfSome result (λ at.
        (at.0 + row_count (P.rows pattern.now) ≤ row_count (V.rows board.now))
        × (at.1 + col_count (P.rows pattern.now) ≤ col_count (V.rows board.now))) }
    ensures in_range { IfSome result (λ at. 0 < row_count (P.rows pattern.now)
        → InRange (V.rows board.now) at.0 at.1) }
{
    found(&board.as_view(), &pattern.as_view())
}

// Returns the position of the first part of a view that is the pattern.
fn found<T: PartialEq>(board: &GridView<'_, T>, pattern: &GridView<'_, T>) -> Option<(usize, usize)>
    ensures first { FoundFirst T.eq board.now.rows pattern.now.rows result }
    ensures fits { IfSome result (λ at.
        (at.0 + row_count pattern.now.rows ≤ row_count board.now.rows)
        × (at.1 + col_count pattern.now.rows ≤ col_count board.now.rows)) }
    ensures in_range { IfSome result (λ at. 0 < row_count pattern.now.rows
        → InRange board.now.rows at.0 at.1) }
{
    if pattern.is_empty() {
        return Some((0, 0));
    }
    let (rows, cols) = board.size();
    let (height, width) = pattern.size();
    if rows < height || cols < width {
        return None;
    }
    for row in 0..rows - height + 1 {
        if let Some(col) = find_in_row(board, pattern, row) {
            return Some((row, col));
        }
    }
    None
}

// Returns the first column of a row where the pattern stands in the board.
fn find_in_row<T: PartialEq>(
    board: &GridView<'_, T>,
    pattern: &GridView<'_, T>,
    r: usize,
) -> Option<usize>
    requires some { 0 < col_count pattern.now.rows }
    requires rows_in { r + row_count pattern.now.rows ≤ row_count board.now.rows }
    requires cols_in { col_count pattern.now.rows ≤ col_count board.now.rows }
    ensures { MatchOption result
        ((c : ℕ) → StandsIn T.eq board.now.rows pattern.now.rows r c → ⊥)
        (StandsFirstIn T.eq board.now.rows pattern.now.rows r) }
{
    match board.row_slice(r) {
        Some(line) => find_in_line(board, pattern, r, line),
        None => find_across(board, pattern, r),
    }
}

// The same of a row whose cells are side by side.
fn find_in_line<T: PartialEq>(
    board: &GridView<'_, T>,
    pattern: &GridView<'_, T>,
    r: usize,
    line: &[T],
) -> Option<usize>
    requires some { 0 < col_count pattern.now.rows }
    requires rows_in { r + row_count pattern.now.rows ≤ row_count board.now.rows }
    requires cols_in { col_count pattern.now.rows ≤ col_count board.now.rows }
    requires line { line.now ≡ row board.now.rows r }
    ensures { MatchOption result
        ((c : ℕ) → StandsIn T.eq board.now.rows pattern.now.rows r c → ⊥)
        (StandsFirstIn T.eq board.now.rows pattern.now.rows r) }
{
    for col in 0..board.cols() - pattern.cols() + 1 {
        if stands_at(board, pattern, r, col, &line[col]) {
            return Some(col);
        }
    }
    None
}

// The same of any row.
fn find_across<T: PartialEq>(
    board: &GridView<'_, T>,
    pattern: &GridView<'_, T>,
    r: usize,
) -> Option<usize>
    requires some { 0 < col_count pattern.now.rows }
    requires rows_in { r + row_count pattern.now.rows ≤ row_count board.now.rows }
    requires cols_in { col_count pattern.now.rows ≤ col_count board.now.rows }
    ensures { MatchOption result
        ((c : ℕ) → StandsIn T.eq board.now.rows pattern.now.rows r c → ⊥)
        (StandsFirstIn T.eq board.now.rows pattern.now.rows r) }
{
    for col in 0..board.cols() - pattern.cols() + 1 {
        if stands_at(board, pattern, r, col, board.get_unchecked(r, col)) {
            return Some(col);
        }
    }
    None
}

// Whether the pattern stands at a position of a board, whose cell there is `first`. Most positions differ in that cell,
// and no part is made of them.
#[inline(always)]
fn stands_at<T: PartialEq>(
    board: &GridView<'_, T>,
    pattern: &GridView<'_, T>,
    r: usize,
    col: usize,
    first: &T,
) -> bool
    requires some { 0 < col_count pattern.now.rows }
    requires rows_in { r + row_count pattern.now.rows ≤ row_count board.now.rows }
    requires cols_in { col + col_count pattern.now.rows ≤ col_count board.now.rows }
    requires first { cell board.now.rows r col ≡ Some first.now }
    ensures { IsTrue result ↔ StandsIn T.eq board.now.rows pattern.now.rows r col }
{
    first == pattern.get_unchecked(0, 0) && board.part((r, col), pattern.size()) == *pattern
}
