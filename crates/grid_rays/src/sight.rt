//! Which cells are seen from a cell.
ghost use Rattle.std.specs.Prelude.{◌≡◌, ◌↔◌, ℕ, IsTrue, IfOk, Some, true};
ghost use Rattle.grid.specs.Prelude.{CallableAtCells, SameSizeAndOrder, cell};
ghost use Rattle.grid_rays.specs.Sight.{Sees, IsTest, TellsSeen, IsNearby, TellsInView};

use crate::along::contains;
use crate::straight::{Course, steps_between};
use grid::{AsView, Grid, GridView};
use std::alloc::{AllocError, Allocator};

/// Returns whether one cell is seen from another: the closure returns true for each cell strictly between the two on
/// the straight line of [`segment`]. Both have to be in range; their own cells don't matter. What sees is seen: the two
/// can be exchanged.
///
///     [[0, 0, 1, 0]]   sees((0, 0), (0, 2), |x| *x == 0)   true
///     [[0, 0, 1, 0]]   sees((0, 0), (0, 3), |x| *x == 0)   false
///
/// Requires: the closure can be called at a reference to each cell.
/// Cost: at most one call for each cell between; no memory.
pub fn sees<T, V: AsView<T>, F: Fn(&T) -> bool>(
    board: &V,
    from: (usize, usize),
    to: (usize, usize),
    is_clear: F,
) -> bool
    requires { CallableAtCells F.pre is_clear (V.rows board.now) }
    ensures tells { TellsSeen F.post is_clear (V.rows board.now) from to result }
    ensures seen { (p : _) → IsTest F.post is_clear p
        → IsTrue result ↔ Sees p (V.rows board.now) from to }
    ensures back { (p : _) → IsTest F.post is_clear p
        → IsTrue result ↔ Sees p (V.rows board.now) to from }
{
    clear_between(&board.as_view(), from, to, &is_clear)
}

// Whether both positions are in range and the closure returns true for each cell strictly between.
fn clear_between<T, F: Fn(&T) -> bool>(
    board: &GridView<'_, T>,
    from: (usize, usize),
    to: (usize, usize),
    is_clear: &F,
) -> bool
    requires { CallableAtCells F.pre is_clear.now board.now.rows }
    ensures { TellsSeen F.post is_clear.now board.now.rows from to result }
{
    if !contains(board, from) || !contains(board, to) {
        return false;
    }
    let steps = steps_between(from, to);
    let mut rows = Course::new(from.0, to.0, steps);
    let mut cols = Course::new(from.1, to.1, steps);
    for done in 0..steps.saturating_sub(1) {
        rows = rows.stepped(done, steps - done);
        cols = cols.stepped(done, steps - done);
        if !is_clear(board.get_unchecked(rows.at, cols.at)) {
            return false;
        }
    }
    true
}

// Whether a position is at most so many steps from another, if there is a limit.
fn is_nearby(radius: Option<usize>, from: (usize, usize), to: (usize, usize)) -> bool
    ensures { IsTrue result ↔ IsNearby radius from to }
{
    match radius {
        Some(radius) => from.0.abs_diff(to.0) <= radius && from.1.abs_diff(to.1) <= radius,
        None => true,
    }
}

/// Returns the grid that has `true` at each cell that is seen from a position, as [`sees`] finds, and is at most
/// `radius` steps away, if there is one, where a step goes to any cell that touches. The size and the order are the
/// same. A cell that isn't clear is seen too, as the walls of a room are. From a position out of range nothing is seen.
///
///     [[0, 1, 0], [0, 0, 0]]   field_of_view((0, 0), None, |x| *x == 0)
///                              [[true, true, false], [true, true, true]]
///     [[0, 1, 0], [0, 0, 0]]   field_of_view((0, 0), Some(1), |x| *x == 0)
///                              [[true, true, false], [true, true, false]]
///
/// Requires: the closure can be called at a reference to each cell.
/// Fails: if allocation fails; the closure wasn't called.
/// Cost: for each cell within the radius, one call for each cell between, at most; one allocation, before the first
/// call.
pub fn field_of_view<T, A: Allocator + Clone, F: Fn(&T) -> bool>(
    grid: &Grid<T, A>,
    from: (usize, usize),
    radius: Option<usize>,
    is_clear: F,
) -> Result<Grid<bool, A>, AllocError>
    requires { CallableAtCells F.pre is_clear grid.now.rows }
    ensures same { IfOk result (SameSizeAndOrder grid.now) }
    ensures tells { IfOk result (λ view. (at : ℕ × ℕ) (y : _) → cell view.rows at.0 at.1 ≡ Some y
        → TellsInView F.post is_clear grid.now.rows radius from at y) }
    ensures seen { (p : _) → IsTest F.post is_clear p
        → IfOk result (λ view. (at : ℕ × ℕ) → (cell view.rows at.0 at.1 ≡ Some true)
        ↔ (IsNearby radius from at × Sees p grid.now.rows from at)) }
{
    let board = grid.view();
    grid.map_indexed(
        |at, _|
            requires { CallableAtCells F.pre is_clear board.rows }
        { is_in_view(&board, from, radius, at, &is_clear) },
    )
}

// Whether a position is near enough and seen.
fn is_in_view<T, F: Fn(&T) -> bool>(
    board: &GridView<'_, T>,
    from: (usize, usize),
    radius: Option<usize>,
    at: (usize, usize),
    is_clear: &F,
) -> bool
    requires { CallableAtCells F.pre is_clear.now board.now.rows }
    ensures { TellsInView F.post is_clear.now board.now.rows radius from at result }
{
    is_nearby(radius, from, at) && clear_between(board, from, at, is_clear)
}
