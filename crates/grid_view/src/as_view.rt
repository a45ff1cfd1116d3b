//! What is read as a table of rows: a grid, a part of one, a board that is turned, or one whose symmetry is deferred.
//! A function that reads a board takes a `&V` with `V: AsView<T>`, and callers hand it any of these, by reference.
ghost use Rattle.std.specs.Prelude.{◌≡◌, List};
ghost use Rattle.grid_base.specs.Prelude.{IsTable};

use crate::GridView;

/// What lends itself as a view, as [`AsSlice`](std::convert::AsSlice) is what lends itself as a slice.
pub trait AsView<T> {
    // The rows that are lent.
    ghost rows: { Self → List (List T) };

    /// Returns a view of the rows.
    ///
    /// Cost: constant; no cell is copied, and no memory is taken.
    fn as_view(&self) -> GridView<'_, T>
        ensures { result.rows ≡ rows self.now };

    // They are a table.
    ghost table: { (board : Self) → IsTable (rows board) };
}

/// A view lends the rows that it shows.
impl<'a, T> AsView<T> for GridView<'a, T> {
    ghost rows = { λ view. view.rows };

    ghost table = { λ view. view.table };

    fn as_view(&self) -> GridView<'_, T> {
        self.view()
    }
}

/// A reference lends the rows of what it refers to.
impl<T, V: AsView<T>> AsView<T> for &V {
    ghost rows = { λ board. V.rows board.now };

    ghost table = { λ board. V.table board.now };

    fn as_view(&self) -> GridView<'_, T> {
        V::as_view(*self)
    }
}
