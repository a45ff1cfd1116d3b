//! The least number of steps to each cell, by a breadth-first search.
ghost use Rattle.std.specs.Prelude.{◌≡◌, ◌<◌, ◌≤◌, ◌+◌, ◌^◌, List, ℕ, [], ◌∷◌, ◌++◌, length, IfOk, OnOk, Some, None};
ghost use Rattle.grid_paths.specs.Prelude.{InRange, IsStep, HasLeastSteps, HasLeastFrom, HoldsOfAnswers, HaveOneSize, IsMarked, IsSettled, CanReach, Reaches};

use super::answers::answers_of;
use super::around::{Visit, visit_around, visit_each};
use super::bfs::{Bfs, QUEUE_ROOM, new_bfs};
use grid::Grid;
use grid_near::Connectivity;
use std::alloc::{AllocError, Allocator};

// Compact the queue once its read prefix is this long. It is half of the room that a queue has from the start, so that
// the queue doesn't grow while no more than so many positions wait.
const COMPACT_AT: usize = QUEUE_ROOM / 2;

// The state of the search: the open positions that aren't reached yet, and the step counts of the others.
#[derive(Drop)]
pub(crate) struct Search<A: Allocator> {
    left: Grid<bool, A>,
    steps: Bfs<A>,
}

impl<A: Allocator> Visit<usize> for Search<A> {
    ghost can_visit = { λ count s. CanReach s };

    ghost visits = { λ count at r s s'. OnOk r (Reaches (λ b. at ≡ b) count s s') };

    // Reaches a position by `count` steps, if it is left.
    #[inline(always)]
    fn visit(&mut self, at: (usize, usize), count: usize) -> Result<(), AllocError> {
        let is_left = self.left.get(at.0, at.1) == Some(&true);
        if is_left {
            self.left[at] = false;
            self.steps.mark(at, count)?;
        }
        Ok(())
    }

    ghost again = { λ count at s s' can reaches. (can.0, (reaches can.0 can.1).1) };
}

impl<A: Allocator> Search<A> {
    // Reaches the positions that a step from one that is reached leads to, each by one step more.
    #[inline(always)]
    fn reach_around(
        &mut self,
        connectivity: Connectivity,
        at: (usize, usize),
    ) -> Result<(), AllocError>
        requires inside { InRange self.old.left.rows at.0 at.1 }
        requires left { CanReach self.old }
        requires marked { (m : ℕ) × IsMarked self.old.steps.numbers.rows at m × (m + 1 < 2 ^ 64) }
        ensures { OnOk result ((m : ℕ) → IsMarked self.old.steps.numbers.rows at m
            → Reaches (IsStep connectivity at) (m + 1) self.old self.new) }
    {
        match self.steps.numbers[at] {
            Some(count) => visit_around(self, connectivity, at, count + 1),
            None => Ok(()),
        }
    }
}

// Compacts the queue: drops the positions before `next` once they are many, and no fewer than the others; returns the
// index that `next` has then. So the queue stays short, and no more positions are moved than were read.
fn trim<A: Allocator>(queue: &mut Vec<(usize, usize), A>, next: usize) -> usize
    requires { next ≤ length queue.old.items }
    ensures { (front : List (ℕ × ℕ)) × (queue.old.items ≡ front ++ queue.new.items)
        × (next ≡ length front + result) }
{
    let len = queue.len();
    if next < COMPACT_AT || next < len - next {
        return next;
    }
    queue.copy_within(next..len, 0);
    queue.truncate(len - next);
    0
}

// The least number of steps to each open position, from the nearest of several; with a goal the search stops once it
// goes on from it.
pub(crate) fn search_from<A: Allocator + Clone>(
    connectivity: Connectivity,
    mask: Grid<bool, A>,
    starts: &[(usize, usize)],
    goal: Option<(usize, usize)>,
) -> Result<Grid<Option<usize>, A>, AllocError>
    ensures order { IfOk result (λ steps. steps.order ≡ mask.order) }
    ensures size { IfOk result (λ steps. HaveOneSize steps.rows mask.rows) }
    ensures least { IfOk result (λ steps.
        goal ≡ None → HasLeastFrom connectivity mask.rows starts.now steps.rows) }
    ensures settled { IfOk result (λ steps. (from to : ℕ × ℕ)
        → starts.now ≡ from ∷ [] → goal ≡ Some to
        → IsSettled connectivity mask.rows from to steps.rows) }
{
    let steps = new_bfs(&mask)?;
    let mut search = Search { left: mask, steps };
    visit_each(&mut search, starts, 0)?;
    let mut next = 0;
    while next < search.steps.queue.len() {
        let at = search.steps.queue[next];
        if goal == Some(at) {
            let steps = search.steps;
            return Ok(steps.numbers);
        }
        search.reach_around(connectivity, at)?;
        next = trim(&mut search.steps.queue, next + 1);
    }
    let steps = search.steps;
    Ok(steps.numbers)
}

/// Returns, for each cell, the least number of steps from a position. Each cell on a path passes the test, the first
/// and the last too. A cell gets `None` exactly where no path leads to it.
///
///     [[1, 1, 0], [0, 1, 1]]   distances((0, 0), Connectivity::Four, |x| *x == 1)
///         [[Some(0), Some(1), None], [None, Some(2), Some(3)]]
///     [[1, 1, 0], [0, 1, 1]]   distances((0, 0), Connectivity::Eight, |x| *x == 1)
///         [[Some(0), Some(1), None], [None, Some(1), Some(2)]]
///
/// Requires: the test can be called at every cell.
/// Fails: if allocation fails.
/// Cost: one call for each cell; a constant number of steps for each cell; three allocations, and those of the queue
/// where more than 2,048 positions wait.
pub fn distances<T, A: Allocator + Clone, F: Fn(&T) -> bool>(
    grid: &Grid<T, A>,
    from: (usize, usize),
    connectivity: Connectivity,
    passable: F,
) -> Result<Grid<Option<usize>, A>, AllocError>
    requires { F.IsAlwaysCallable passable }
    ensures order { IfOk result (λ steps. steps.order ≡ grid.now.order) }
    ensures size { IfOk result (λ steps. HaveOneSize steps.rows grid.now.rows) }
    ensures least { IfOk result (λ steps. HoldsOfAnswers F.post passable grid.now.rows (λ mask.
        HasLeastSteps connectivity mask from steps.rows)) }
{
    let mask = answers_of(grid, passable)?;
    search_from(connectivity, mask, &[from], None)
}

/// Returns, for each cell, the least number of steps from the nearest of several positions, as [`distances`] counts
/// them. Positions out of range and those whose cell does not pass the test are ignored; one that comes twice
/// counts once.
///
///     [[1, 1, 0], [1, 1, 1]]   distances_from(&[(0, 0), (1, 2)], Connectivity::Four, |x| *x == 1)
///         [[Some(0), Some(1), None], [Some(1), Some(1), Some(0)]]
///
/// Requires: the test can be called at every cell.
/// Fails: if allocation fails.
/// Cost: one call for each cell; a constant number of steps for each cell and each of the positions; allocations as at
/// [`distances`].
pub fn distances_from<T, A: Allocator + Clone, F: Fn(&T) -> bool>(
    grid: &Grid<T, A>,
    starts: &[(usize, usize)],
    connectivity: Connectivity,
    passable: F,
) -> Result<Grid<Option<usize>, A>, AllocError>
    requires { F.IsAlwaysCallable passable }
    ensures order { IfOk result (λ steps. steps.order ≡ grid.now.order) }
    ensures size { IfOk result (λ steps. HaveOneSize steps.rows grid.now.rows) }
    ensures least { IfOk result (λ steps. HoldsOfAnswers F.post passable grid.now.rows (λ mask.
        HasLeastFrom connectivity mask starts.now steps.rows)) }
{
    let mask = answers_of(grid, passable)?;
    search_from(connectivity, mask, starts, None)
}
