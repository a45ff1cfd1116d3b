//! The symmetries of a board, and its different images.
ghost use Rattle.std.specs.Prelude.{◌≡◌, ℕ, ◌*◌, ◌<◌, ◌↔◌, IsTrue, Contains, length};
ghost use Rattle.grid_images.specs.Prelude.{DiffersBy, GivesEachImageOnce, IsGroup, first_images, fixing, symmetry_at, takes};
ghost use Rattle.grid_base.specs.declared.words.Symmetry.{Symmetry};

use crate::same::are_same;
use crate::set::SymmetrySet;
use grid::Symmetry;
use grid_base::laws::stands_in_all;
use grid_view::AsView;

/// Returns the symmetries that leave a board as it is, its stabilizer: those under which it equals its image.
/// `Identity` is one; so are the inverse of each, and any two joined.
///
///     [[1, 2], [1, 2]]   symmetries(it)   Identity, FlipRows
///
/// Cost: seven comparisons of boards, of their first rows and then by `==`; no memory.
pub fn symmetries<T: Eq, V: AsView<T>>(board: &V) -> SymmetrySet
    ensures members { result ≡ fixing T.eq (V.rows board.now) }
    ensures each { (s : Symmetry)
        → Contains result s ↔ IsTrue (takes T.eq (V.rows board.now) (V.rows board.now) s) }
    ensures group { IsGroup result }
    ensures some { 0 < length result }
{
    let view = board.as_view();
    let mut fixing = SymmetrySet::new();
    fixing.push(Symmetry::Identity);
    for i in 1..8usize {
        let symmetry = Symmetry::ALL[i];
        if are_same(&view.turned(symmetry), &view) {
            fixing.push(symmetry);
        }
    }
    fixing
}

/// Returns the different images of a board, its orbit: of each image the first symmetry in [`Symmetry::ALL`] that gives
/// it. There are eight divided by the number of the board's [`symmetries`].
///
///     [[1, 2], [1, 2]]   images(it)   Identity, FlipCols, Transpose, RotateLeft
///
/// `board.turned(symmetry)` then shows the image, and [`Grid::apply`](grid::Grid::apply) makes it.
///
/// Cost: that of [`symmetries`], seven comparisons of boards: two symmetries give the same image exactly if the one,
/// and then the inverse of the other, leaves the board as it is. No memory.
pub fn images<T: Eq, V: AsView<T>>(board: &V) -> SymmetrySet
    ensures members { result ≡ first_images T.eq (V.rows board.now) }
    ensures each { GivesEachImageOnce T.eq (V.rows board.now) result }
    ensures count { length result * length (fixing T.eq (V.rows board.now)) ≡ 8 }
    ensures some { 0 < length result }
{
    let fixing = symmetries(board);
    if fixing.len() == 1 {
        return SymmetrySet::all();
    }
    let mut found = SymmetrySet::new();
    for i in 0..8usize {
        if !comes_before(&fixing, i) {
            found.push(Symmetry::ALL[i]);
        }
    }
    found
}

// Whether the symmetry after the first `i` differs from one of these by a symmetry of a set.
fn comes_before(fixing: &SymmetrySet, i: usize) -> bool
    requires { i < 8 }
    ensures { IsTrue result ↔
        ((k : ℕ) × (k < i) × DiffersBy fixing.now (symmetry_at i) (symmetry_at k)) }
{
    let symmetry = Symmetry::ALL[i];
    for member in fixing.as_slice() {
        if stands_in_all(member.inverse().then(symmetry)) < i {
            return true;
        }
    }
    false
}
