//! A shortest path between two cells.
ghost use Rattle.std.specs.Prelude.{◌≡◌, Bool, List, ◌+◌, ℕ, IfOk, IfSome, MatchOption, Contains, length};
ghost use Rattle.std.specs.List.{All};
ghost use Rattle.grid_paths.specs.Prelude.{InRange, IsStep, IsPath, Walk, IsShortestPath, HoldsOfAnswers, IsMarked, HasLeastUpTo};
ghost use Rattle.grid_near.specs.declared.steps.Connectivity.{Connectivity};

use super::answers::answers_of;
use super::around::around;
use super::search::search_from;
use grid::Grid;
use grid_near::Connectivity;
use std::alloc::{AllocError, Allocator};

// The first of these positions that has this step count.
fn first_with<A: Allocator>(
    steps: &Grid<Option<usize>, A>,
    at: &[(usize, usize)],
    count: usize,
) -> Option<(usize, usize)>
    ensures { MatchOption result
        ((b : ℕ × ℕ) → Contains at.now b → IsMarked steps.now.rows b count → ⊥)
        (λ b. Contains at.now b × IsMarked steps.now.rows b count) }
{
    for near in at {
        if steps.get(near.0, near.1) == Some(&Some(count)) {
            return Some(*near);
        }
    }
    None
}

// A position that a step from this one leads to and that has this step count, if there is one.
fn next_with<A: Allocator>(
    steps: &Grid<Option<usize>, A>,
    at: (usize, usize),
    count: usize,
) -> (usize, usize)
    requires { InRange steps.now.rows at.0 at.1 }
    ensures { (connectivity : Connectivity) (b : ℕ × ℕ) → IsStep connectivity at b
        → IsMarked steps.now.rows b count
        → IsStep connectivity at result × IsMarked steps.now.rows result count }
{
    let near = around(at.0, at.1);
    if let Some(side) = first_with(steps, &near[..4], count) {
        return side;
    }
    first_with(steps, &near, count).unwrap_or(at)
}

// The path from a position down the step counts to the one with 0: each position has one step less.
fn follow<A: Allocator + Clone>(
    steps: &Grid<Option<usize>, A>,
    from: (usize, usize),
    count: usize,
) -> Result<Vec<(usize, usize), A>, AllocError>
    requires least { (connectivity : Connectivity) × (mask : List (List Bool)) × (to : ℕ × ℕ)
        × HasLeastUpTo connectivity mask to steps.now.rows count }
    requires mark { IsMarked steps.now.rows from count }
    ensures path { IfOk result (λ path. (connectivity : Connectivity) (mask : List (List Bool))
        (to : ℕ × ℕ)
        → HasLeastUpTo connectivity mask to steps.now.rows count
        → IsPath connectivity mask from to path.items) }
    ensures len { IfOk result (λ path. length path.items ≡ count + 1) }
{
    let cells = steps.rows().saturating_mul(steps.cols());
    let len = count.saturating_add(1).min(cells);
    let mut path = Vec::with_capacity(steps.allocator().clone()?, len)?;
    path.push(from)?;
    let mut at = from;
    let mut left = count;
    while left > 0 {
        left -= 1;
        at = next_with(steps, at, left);
        path.push(at)?;
    }
    Ok(path)
}

/// Returns a shortest path from one position to another. Each cell on a path passes the test, the first and the last
/// too. Returns `None` exactly where no path leads.
///
///     [[1, 1, 0], [0, 1, 1]]   shortest_path((0, 0), (1, 2), Connectivity::Four, |x| *x == 1)
///         [(0, 0), (0, 1), (1, 1), (1, 2)]
///     [[1, 1, 0], [0, 1, 1]]   shortest_path((0, 0), (1, 2), Connectivity::Eight, |x| *x == 1)
///         [(0, 0), (0, 1), (1, 2)]
///
/// Requires: the test can be called at every cell.
/// Fails: if allocation fails.
/// Cost: at most that of `distances`, whose search stops here once it reaches the start; then a constant number of
/// steps for each cell of the path, and one allocation.
pub fn shortest_path<T, A: Allocator + Clone, F: Fn(&T) -> bool>(
    grid: &Grid<T, A>,
    from: (usize, usize),
    to: (usize, usize),
    connectivity: Connectivity,
    passable: F,
) -> Result<Option<Vec<(usize, usize), A>>, AllocError>
    requires { F.IsAlwaysCallable passable }
    ensures shortest { IfOk result (λ found. MatchOption found
        (HoldsOfAnswers F.post passable grid.now.rows (λ mask.
        (n : ℕ) → Walk connectivity mask from to n → ⊥))
        (λ path. HoldsOfAnswers F.post passable grid.now.rows (λ mask.
        IsShortestPath connectivity mask from to path.items))) }
    ensures in_range { IfOk result (λ found. IfSome found (λ path.
        All (λ at. InRange grid.now.rows at.0 at.1) path.items)) }
{
    let mask = answers_of(grid, passable)?;
    // found from its end
    let steps = search_from(connectivity, mask, &[to], Some(from))?;
    match steps.get(from.0, from.1).copied().flatten() {
        Some(count) => Ok(Some(follow(&steps, from, count)?)),
        None => Ok(None),
    }
}
