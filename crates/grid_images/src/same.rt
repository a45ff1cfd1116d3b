//! Whether two views are the same.
ghost use Rattle.std.specs.Prelude.{◌≡◌, IsTrue};
ghost use Rattle.grid_images.specs.Prelude.{same_table};

use grid_view::GridView;

// Whether the first rows are the same, as far as both go. Of images that differ they are seldom.
fn start_same<T: PartialEq>(view: &GridView<'_, T>, other: &GridView<'_, T>) -> bool
    ensures { IsTrue (same_table T.eq view.now.rows other.now.rows) → IsTrue result }
{
    if view.rows() == 0 || other.rows() == 0 {
        return true;
    }
    for c in 0..view.cols().min(other.cols()) {
        if *view.get_unchecked(0, c) != *other.get_unchecked(0, c) {
            return false;
        }
    }
    true
}

// Whether the rows of two views are the same, as `==` tells.
pub(crate) fn are_same<T: PartialEq>(view: &GridView<'_, T>, other: &GridView<'_, T>) -> bool
    ensures { result ≡ same_table T.eq view.now.rows other.now.rows }
{
    start_same(view, other) && *view == *other
}
