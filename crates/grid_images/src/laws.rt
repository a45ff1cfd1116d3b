//! The laws of canonical forms as public calls.
//!
//! A law is the clause of that name; the other clauses say what a call returns.
ghost use Rattle.std.specs.Prelude.{◌↔◌, IsTrue, List};
ghost use Rattle.grid_images.specs.Prelude.{AreAlike, IsLeastImage, IsTable, act, same_table};
ghost use Rattle.grid_base.specs.declared.words.Symmetry.{Symmetry};

use crate::least::least_image;
use grid_view::AsView;

/// Returns whether the least images of two boards are equal: exactly if one board is an image of the other.
pub fn least_images_agree<T: Ord, V: AsView<T>, W: AsView<T>>(board: &V, other: &W) -> bool
    ensures alike { IsTrue result ↔ AreAlike T.eq (V.rows board.now) (W.rows other.now) }
    ensures law { (t u : List (List T)) → IsTable t → IsTable u
        → (s v : Symmetry) → IsLeastImage T.cmp t s → IsLeastImage T.cmp u v
        → IsTrue (same_table T.eq (act s t) (act v u)) ↔ AreAlike T.eq t u }
{
    let view = board.as_view();
    let other_view = other.as_view();
    view.turned(least_image(board)) == other_view.turned(least_image(other))
}
