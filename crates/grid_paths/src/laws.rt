//! Laws of steps, as calls.
ghost use Rattle.std.specs.Prelude.{◌≡◌, ◌↔◌, ℕ, Some, Contains};
ghost use Rattle.grid.specs.Prelude.{cell, neighbors4, neighbors8, GivesNear};
ghost use Rattle.grid_paths.specs.Prelude.{IsStep};
ghost use Rattle.grid_near.specs.declared.steps.Connectivity.TheVariants.{Four, Eight};

use grid::Grid;
use grid_near::Neighbors;
use std::alloc::Allocator;

/// The cells that a step by [`Connectivity::Four`](super::Connectivity::Four) leads to are those of `neighbors4`, which
/// gives them in order, each once.
pub fn sides_are_neighbors4<T, A: Allocator>(
    grid: &Grid<T, A>,
    from: (usize, usize),
) -> Neighbors<'_, T>
    ensures gives { GivesNear (neighbors4 grid.now.rows from.0 from.1) result }
    ensures law { (at : ℕ × ℕ) (x : T) → cell grid.now.rows at.0 at.1 ≡ Some x
        → (IsStep Four from at ↔ Contains result (at, x)) }
{
    grid.neighbors4(from)
}

/// The cells that a step by [`Connectivity::Eight`](super::Connectivity::Eight) leads to are those of `neighbors8`,
/// which gives them in order, each once.
pub fn all_are_neighbors8<T, A: Allocator>(
    grid: &Grid<T, A>,
    from: (usize, usize),
) -> Neighbors<'_, T>
    ensures gives { GivesNear (neighbors8 grid.now.rows from.0 from.1) result }
    ensures law { (at : ℕ × ℕ) (x : T) → cell grid.now.rows at.0 at.1 ≡ Some x
        → (IsStep Eight from at ↔ Contains result (at, x)) }
{
    grid.neighbors8(from)
}
