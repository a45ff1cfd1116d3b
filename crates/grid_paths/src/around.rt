//! The positions around one, and the loop over them that all searches share.
ghost use Rattle.std.specs.Prelude.{◌≡◌, ◌<◌, ◌+◌, ◌^◌, ℕ, List, Ok, length, take};
ghost use Rattle.grid_paths.specs.Prelude.{AreSteps, Outcome, VisitsEach};
ghost use Rattle.grid_near.specs.declared.steps.Connectivity.TheVariants.{Four, Eight};

use grid_near::Connectivity;
use std::alloc::AllocError;

// The positions that share a side with this one, and then those that share a corner. Below the first row or column the
// index wraps to one that no grid has.
#[inline(always)]
pub(crate) fn around(row: usize, col: usize) -> [(usize, usize); 8]
    requires row_in { row + 1 < 2 ^ 64 }
    requires col_in { col + 1 < 2 ^ 64 }
    ensures len { length result ≡ 8 }
    ensures sides { AreSteps Four (row, col) (take 4 result) }
    ensures all { AreSteps Eight (row, col) result }
{
    let (up, left) = (row.wrapping_sub(1), col.wrapping_sub(1));
    [
        (up, col),
        (row, left),
        (row, col + 1),
        (row + 1, col),
        (up, left),
        (up, col + 1),
        (row + 1, left),
        (row + 1, col + 1),
    ]
}

// A search that visits positions. `S` is what a visit is given: in a breadth-first search, the step count.
pub(crate) trait Visit<S: Copy> {
    // It can make a visit that is given this.
    ghost can_visit: { S → Self → Type 0 };

    // What a visit of a position does.
    ghost visits: { S → ℕ × ℕ → Outcome → Self → Self → Type 0 };

    // Visits a position.
    fn visit(&mut self, at: (usize, usize), with: S) -> Result<(), AllocError>
        requires { can_visit with self.old }
        ensures { visits with at result self.old self.new };

    // After a visit it can make the next one.
    ghost again: { (with : S) (at : ℕ × ℕ) (s s' : Self) → can_visit with s
        → visits with at (Ok tt) s s' → can_visit with s' };
}

// Visits each of these positions, up to one where that fails.
#[inline(always)]
pub(crate) fn visit_each<S: Copy, V: Visit<S>>(
    search: &mut V,
    at: &[(usize, usize)],
    with: S,
) -> Result<(), AllocError>
    requires { V.can_visit with search.old }
    ensures { VisitsEach (V.visits with) at.now result search.old search.new }
{
    for near in at {
        search.visit(*near, with)?;
    }
    Ok(())
}

// Visits the positions that a step from one leads to. Each connectivity has a loop of its own, of a fixed number of
// steps, so that it can be unrolled.
#[inline(always)]
pub(crate) fn visit_around<S: Copy, V: Visit<S>>(
    search: &mut V,
    connectivity: Connectivity,
    at: (usize, usize),
    with: S,
) -> Result<(), AllocError>
    requires can { V.can_visit with search.old }
    requires row_in { at.0 + 1 < 2 ^ 64 }
    requires col_in { at.1 + 1 < 2 ^ 64 }
    ensures { (near : List (ℕ × ℕ)) × AreSteps connectivity at near
        × VisitsEach (V.visits with) near result search.old search.new }
{
    let near = around(at.0, at.1);
    match connectivity {
        Connectivity::Four => visit_each(search, &near[..4], with),
        Connectivity::Eight => visit_each(search, &near, with),
    }
}
