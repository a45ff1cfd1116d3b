//! What is found along a ray: the first cell that passes a test, cells alike, and rows of them.
ghost use Rattle.std.specs.Prelude.{◌≡◌, ◌↔◌, ◌^◌, ◌<◌, IsTrue};
ghost use Rattle.grid.specs.Prelude.{CallableAtCells, InRange, row_count, col_count};
ghost use Rattle.grid_rays.specs.Along.{FoundAlong, AreAlikeAlong, AreAlikeUpTo, HasRun, HasRunAlong};

use crate::rays::ray_of;
use crate::ways::{step_of, steps_to_edge};
use grid::{AsView, Direction, Grid, GridView};
use std::alloc::Allocator;

/// Returns the position of the first cell beyond a position in a direction for which the closure returns true.
///
///     [[0, 0, 7, 7]]   first_along((0, 0), Right, |x| *x == 7)   Some((0, 2))
///     [[0, 0, 7, 7]]   first_along((0, 2), Left, |x| *x == 7)    None
///
/// Requires: the closure can be called at a reference to each cell.
/// Cost: one call for each cell up to the first; no memory.
pub fn first_along<T, V: AsView<T>, F: Fn(&T) -> bool>(
    board: &V,
    at: (usize, usize),
    way: Direction,
    test: F,
) -> Option<(usize, usize)>
    requires { CallableAtCells F.pre test (V.rows board.now) }
    ensures { FoundAlong F.post test (V.rows board.now) way at result }
{
    first_in(&board.as_view(), at, way, &test)
}

// The same, of a view.
fn first_in<T, F: Fn(&T) -> bool>(
    board: &GridView<'_, T>,
    at: (usize, usize),
    way: Direction,
    test: &F,
) -> Option<(usize, usize)>
    requires { CallableAtCells F.pre test.now board.now.rows }
    ensures { FoundAlong F.post test.now board.now.rows way at result }
{
    for (to, cell) in ray_of(board.view(), board.size(), at, way) {
        if test(cell) {
            return Some(to);
        }
    }
    None
}

/// Returns how many cells next to each other beyond a position in a direction equal the cell there. It isn't counted
/// itself.
///
///     [[7, 7, 7, 1, 7]]   alike_along((0, 0), Right)   2
///     [[7, 7, 7, 1, 7]]   alike_along((0, 1), Left)    1
///
/// Cost: one comparison for each of them, and one; no memory.
pub fn alike_along<T: PartialEq, A: Allocator>(
    grid: &Grid<T, A>,
    at: (usize, usize),
    way: Direction,
) -> usize
    ensures alike { AreAlikeAlong T.eq grid.now.rows at way result }
    ensures small { result < 2 ^ 63 }
{
    alike_in(&grid.view(), grid.size(), at, way, usize::MAX)
}

// The same, of a view of this size, up to a limit.
#[inline(always)]
fn alike_in<T: PartialEq>(
    board: &GridView<'_, T>,
    size: (usize, usize),
    at: (usize, usize),
    way: Direction,
    most: usize,
) -> usize
    requires rows { size.0 ≡ row_count board.now.rows }
    requires cols { size.1 ≡ col_count board.now.rows }
    ensures alike { AreAlikeUpTo T.eq board.now.rows at most way result }
    ensures small { size.0 < 2 ^ 63 → size.1 < 2 ^ 63 → result < 2 ^ 63 }
{
    let Some(here) = board.get(at.0, at.1) else {
        return 0;
    };
    let (down, right) = step_of(way);
    let left = steps_to_edge(size, at, way).min(most);
    let (mut row, mut col) = at;
    for count in 0..left {
        row = row + down - 1;
        col = col + right - 1;
        if *board.get_unchecked(row, col) != *here {
            return count;
        }
    }
    left
}

/// Returns whether the cell at a position is one of `n` equal cells next to each other, in a row, a column or a
/// diagonal. It can be any of them. Where `n` is 0, and out of range, it is `false`.
///
///     [[1, 2, 1], [2, 1, 2], [1, 2, 2]]   has_run((1, 1), 3)   true: (0, 2), (1, 1), (2, 0)
///     [[1, 2, 1], [2, 1, 2], [1, 2, 2]]   has_run((0, 0), 3)   false
///
/// Cost: one comparison for each cell that is equal, and eight; no memory.
pub fn has_run<T: PartialEq, V: AsView<T>>(board: &V, at: (usize, usize), n: usize) -> bool
    ensures { IsTrue result ↔ HasRun T.eq (V.rows board.now) at n }
{
    has_run_in(&board.as_view(), at, n)
}

// The same, of a view.
fn has_run_in<T: PartialEq>(board: &GridView<'_, T>, at: (usize, usize), n: usize) -> bool
    ensures { IsTrue result ↔ HasRun T.eq board.now.rows at n }
{
    if n == 0 || !contains(board, at) {
        return false;
    }
    has_run_along(board, at, Direction::Right, n)
        || has_run_along(board, at, Direction::DownRight, n)
        || has_run_along(board, at, Direction::Down, n)
        || has_run_along(board, at, Direction::DownLeft, n)
}

// Whether there are `n` in a row in a direction and the opposite one together.
#[inline(always)]
fn has_run_along<T: PartialEq>(
    board: &GridView<'_, T>,
    at: (usize, usize),
    way: Direction,
    n: usize,
) -> bool
    requires inside { InRange board.now.rows at.0 at.1 }
    requires some { 0 < n }
    ensures { IsTrue result ↔ HasRunAlong T.eq board.now.rows at way n }
{
    let (back, most) = (way.opposite(), n - 1);
    let ahead = alike_in(board, board.size(), at, way, most);
    if ahead == most {
        return true;
    }
    let behind = alike_in(board, board.size(), at, back, most - ahead);
    most <= ahead + behind
}

// Whether a view has a cell at a position.
pub(crate) fn contains<T>(board: &GridView<'_, T>, at: (usize, usize)) -> bool
    ensures { IsTrue result ↔ InRange board.now.rows at.0 at.1 }
{
    let (rows, cols) = board.size();
    at.0 < rows && at.1 < cols
}
