//! What takes one board to another.
ghost use Rattle.std.specs.Prelude.{◌≡◌, ◌↔◌, IsTrue, IsSome, IfSome};
ghost use Rattle.grid_images.specs.Prelude.{AreAlike, first_taking, takes};

use crate::same::are_same;
use grid::Symmetry;
use grid_view::AsView;

/// Returns the first symmetry, in [`Symmetry::ALL`], under which the image of a board equals another, or `None` if no
/// image does.
///
///     [[1, 2], [3, 4]]   symmetry_between(it, [[2, 4], [1, 3]])   Some(RotateLeft)
///
/// Cost: at most eight comparisons of boards, of their first rows and then by `==`; no memory.
pub fn symmetry_between<T, V, W>(board: &V, other: &W) -> Option<Symmetry>
where
    T: PartialEq,
    V: AsView<T>,
    W: AsView<T>,
    ensures first { result ≡ first_taking T.eq (V.rows board.now) (W.rows other.now) }
    ensures takes { IfSome result
        (λ s. IsTrue (takes T.eq (V.rows board.now) (W.rows other.now) s)) }
    ensures some { IsSome result ↔ AreAlike T.eq (V.rows board.now) (W.rows other.now) }
{
    let view = board.as_view();
    let other_view = other.as_view();
    for symmetry in &Symmetry::ALL {
        if are_same(&view.turned(*symmetry), &other_view) {
            return Some(*symmetry);
        }
    }
    None
}
