//! Grids of the same size and order as another: of what a closure returns at its cells, and blank ones.
ghost use Rattle.std.specs.Prelude.{◌≡◌, ℕ, IfOk};
ghost use Rattle.grid_paths.specs.Prelude.{answers_by, IsAnswer, AreAnswers, HaveOneSize, Holds, numbers};

use super::width::Width;
use grid::Grid;
use std::alloc::{AllocError, Allocator};

// What the closure returns at each cell.
pub(crate) fn answers_of<T, U, A: Allocator + Clone, F: Fn(&T) -> U>(
    grid: &Grid<T, A>,
    f: F,
) -> Result<Grid<U, A>, AllocError>
    requires { F.IsAlwaysCallable f }
    ensures order { IfOk result (λ made. made.order ≡ grid.now.order) }
    ensures size { IfOk result (λ made. HaveOneSize made.rows grid.now.rows) }
    ensures answers { IfOk result (λ made. AreAnswers F.post f grid.now.rows made.rows) }
    ensures cells { IfOk result (λ made. (p : _) → IsAnswer F.post f p
        → made.rows ≡ answers_by p grid.now.rows) }
{
    grid.map_indexed(|_, cell| f(cell))
}

// No sum at each cell yet.
pub(crate) fn no_sums<T, N: Width, A: Allocator + Clone>(
    grid: &Grid<T, A>,
) -> Result<Grid<N, A>, AllocError>
    ensures order { IfOk result (λ made. made.order ≡ grid.now.order) }
    ensures size { IfOk result (λ made. HaveOneSize made.rows grid.now.rows) }
    ensures none { IfOk result (λ made. (a : ℕ × ℕ) (k : ℕ)
        → Holds (numbers N.reads made.rows) a k → ⊥) }
{
    let none = N::of_none();
    grid.map_indexed(|_, _| none)
}

// The sums that these integers stand for.
pub(crate) fn all_sums<N: Width, A: Allocator + Clone>(
    sums: &Grid<N, A>,
) -> Result<Grid<Option<u128>, A>, AllocError>
    ensures order { IfOk result (λ made. made.order ≡ sums.now.order) }
    ensures size { IfOk result (λ made. HaveOneSize made.rows sums.now.rows) }
    ensures cells { IfOk result (λ made. made.rows ≡ numbers N.reads sums.now.rows) }
{
    sums.map_indexed(|_, number| number.sum())
}
