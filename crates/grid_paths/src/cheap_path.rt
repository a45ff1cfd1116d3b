//! A cheapest path between two cells.
ghost use Rattle.std.specs.Prelude.{◌≡◌, ◌+◌, ◌-◌, ◌↔◌, ℕ, IfOk, IfSome, IsTrue, MatchOption, Some, length, slice_get};
ghost use Rattle.std.specs.List.{All};
ghost use Rattle.grid_paths.specs.Kept.{trail_of};
ghost use Rattle.grid_paths.specs.Prelude.{InRange, HoldsOfAnswers, IsStep, CostWalk, IsCheapestPath, IsCostPath, IsTrail, HasRoom};

use super::answers::answers_of;
use super::costs::{Frontier, Kept, Settled, begun, is_small};
use super::width::Width;
use grid::Grid;
use grid_near::Connectivity;
use std::alloc::{AllocError, Allocator};

// Whether a step leads from one position to another.
fn is_step(connectivity: Connectivity, from: (usize, usize), to: (usize, usize)) -> bool
    ensures { IsTrue result ↔ IsStep connectivity from to }
{
    let rows = from.0.abs_diff(to.0);
    let cols = from.1.abs_diff(to.1);
    match connectivity {
        Connectivity::Four => (rows == 0 && cols == 1) || (rows == 1 && cols == 0),
        Connectivity::Eight => rows <= 1 && cols <= 1 && (rows == 1 || cols == 1),
    }
}

// Whether the sum of a position can come from that of another.
fn comes_from(connectivity: Connectivity, here: Settled, before: Settled) -> bool
    ensures { IsTrue result ↔ (IsStep connectivity before.at here.at
        × (here.sum ≡ before.sum + here.cost)) }
{
    is_step(connectivity, before.at, here.at)
        && before.sum <= here.sum
        && here.sum - before.sum == here.cost as u128
}

// The path to the last of the settled positions, found from its end: each sum comes from that of a position which
// was settled before.
fn follow<N: Width, A: Allocator + Clone>(
    connectivity: Connectivity,
    trail: &Vec<Kept<N>, A>,
    last: Settled,
) -> Result<Vec<(usize, usize), A>, AllocError>
    requires { slice_get (trail_of N.reads trail.now.items) (length trail.now.items - 1)
        ≡ Some last }
    ensures { IfOk result (λ path. (costs : _) (from : ℕ × ℕ)
        → IsTrail connectivity from costs (trail_of N.reads trail.now.items)
        → IsCostPath connectivity costs from last.at path.items last.sum) }
{
    let mut path = Vec::new(trail.allocator().clone()?);
    path.push(last.at)?;
    let mut here = last;
    let mut left = trail.len();
    while left > 0 {
        left -= 1;
        let before = trail[left].settled();
        if comes_from(connectivity, here, before) {
            path.push(before.at)?;
            here = before;
        }
    }
    path.reverse();
    Ok(path)
}

// A cheapest path over positions with a cost, and its sum, in integers of one width. The search stops once it settles
// the end.
fn path_by<N: Width, A: Allocator + Clone>(
    connectivity: Connectivity,
    costs: Grid<Option<u32>, A>,
    from: (usize, usize),
    to: (usize, usize),
) -> Result<Option<(Vec<(usize, usize), A>, u128)>, AllocError>
    requires { HasRoom N.reads costs.rows }
    ensures { IfOk result (λ found. MatchOption found
        ((n sum : ℕ) → CostWalk connectivity costs.rows from to n sum → ⊥)
        (λ path. IsCheapestPath connectivity costs.rows from to path.0.items path.1)) }
{
    let mut trail: Vec<Kept<N>, A> = Vec::new(costs.allocator().clone()?);
    let mut search: Frontier<N, A> = begun(costs, from)?;
    while let Some(here) = search.next() {
        trail.push(search.keep(here))?;
        if here.at == to {
            return Ok(Some((follow(connectivity, &trail, here)?, here.sum)));
        }
        search.relax_around(connectivity, here)?;
    }
    Ok(None)
}

// A cheapest path over positions with a cost, and its sum.
fn path_over<A: Allocator + Clone>(
    connectivity: Connectivity,
    costs: Grid<Option<u32>, A>,
    from: (usize, usize),
    to: (usize, usize),
) -> Result<Option<(Vec<(usize, usize), A>, u128)>, AllocError>
    ensures { IfOk result (λ found. MatchOption found
        ((n sum : ℕ) → CostWalk connectivity costs.rows from to n sum → ⊥)
        (λ path. IsCheapestPath connectivity costs.rows from to path.0.items path.1)) }
{
    if is_small(&costs) {
        path_by::<u64, A>(connectivity, costs, from, to)
    } else {
        path_by::<u128, A>(connectivity, costs, from, to)
    }
}

/// Returns a cheapest path from one position to another, and the sum of its costs: of the cells that it enters, as
/// [`cheapest`](super::cheapest) counts them. No position is in it twice. Returns `None` exactly where no path leads.
///
///     [[1, 9, 1], [1, 1, 1]]   cheapest_path((0, 0), (0, 2), Connectivity::Four, |x| Some(*x))
///         ([(0, 0), (1, 0), (1, 1), (1, 2), (0, 2)], 4)
///
/// Requires: the closure can be called at every cell.
/// Fails: if allocation fails.
/// Cost: at most that of `cheapest`, whose search stops here once it settles the end; then a constant number of steps
/// for each settled cell, and memory for it.
pub fn cheapest_path<T, A: Allocator + Clone, F: Fn(&T) -> Option<u32>>(
    grid: &Grid<T, A>,
    from: (usize, usize),
    to: (usize, usize),
    connectivity: Connectivity,
    cost: F,
) -> Result<Option<(Vec<(usize, usize), A>, u128)>, AllocError>
    requires { F.IsAlwaysCallable cost }
    ensures cheapest { IfOk result (λ found. MatchOption found
        (HoldsOfAnswers F.post cost grid.now.rows (λ costs.
        (n sum : ℕ) → CostWalk connectivity costs from to n sum → ⊥))
        (λ path. HoldsOfAnswers F.post cost grid.now.rows (λ costs.
        IsCheapestPath connectivity costs from to path.0.items path.1))) }
    ensures in_range { IfOk result (λ found. IfSome found (λ path.
        All (λ at. InRange grid.now.rows at.0 at.1) path.0.items)) }
{
    let costs = answers_of(grid, cost)?;
    path_over(connectivity, costs, from, to)
}
