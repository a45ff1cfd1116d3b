//! The least image of a board, and the canonical form of a grid.
ghost use Rattle.std.specs.Prelude.{◌≡◌, ◌↔◌, IsTrue, List};
ghost use Rattle.grid_images.specs.Prelude.{AreAlike, IsLeastImage, IsTable, act, order_after, same_table};
ghost use Rattle.grid_base.specs.declared.words.Symmetry.TheVariants.{Identity};

use crate::order::compare_views;
use grid::{Grid, Symmetry};
use grid_view::AsView;
use std::alloc::Allocator;

/// Returns the symmetry under which the image of a board is the least of the eight, by [`compare`](crate::compare).
/// Where several give it, it is the first of them in [`Symmetry::ALL`].
///
///     [[3, 4], [1, 2]]   least_image(it)   FlipRows
///
/// `board.turned(symmetry)` then shows the least image. Two boards have the same one exactly if one is an image of the
/// other.
///
/// Cost: seven comparisons of boards, each up to the first cell that differs; no memory, and no cell is copied.
pub fn least_image<T: Ord, V: AsView<T>>(board: &V) -> Symmetry
    ensures { IsLeastImage T.cmp (V.rows board.now) result }
{
    let view = board.as_view();
    let mut least = Symmetry::Identity;
    let mut least_view = view.view();
    for i in 1..8usize {
        let symmetry = Symmetry::ALL[i];
        let image = view.turned(symmetry);
        if compare_views(&image, &least_view).is_lt() {
            least = symmetry;
            least_view = image;
        }
    }
    least
}

/// Turns a grid into its canonical form, the least of its eight images, and returns the symmetry that it applied:
/// [`least_image`]. The order of the storage flips exactly if the symmetry transposes.
///
///     [[3, 4], [1, 2]]   canonicalize(grid)   FlipRows; the grid is [[1, 2], [3, 4]]
///
/// A canonical form is its own, and two grids have the same one, by `==` and by `Hash`, exactly if one is an image of
/// the other.
///
/// Cost: that of [`least_image`], and of [`Grid::apply`]: at most half as many swaps as there are cells.
pub fn canonicalize<T: Ord, A: Allocator>(grid: &mut Grid<T, A>) -> Symmetry
    ensures least { IsLeastImage T.cmp grid.old.rows result }
    ensures rows { grid.new.rows ≡ act result grid.old.rows }
    ensures order { grid.new.order ≡ order_after result grid.old.order }
    ensures own { IsLeastImage T.cmp grid.new.rows Identity }
    // equal to another canonical form exactly if that is an image of the grid
    ensures key { (form : List (List T)) → IsTable form → IsLeastImage T.cmp form Identity
        → IsTrue (same_table T.eq grid.new.rows form) ↔ AreAlike T.eq grid.old.rows form }
{
    let symmetry = least_image(grid);
    grid.apply(symmetry);
    symmetry
}
