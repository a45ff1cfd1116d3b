//! The text of a grid as lines.
ghost use Rattle.grid.specs.Prelude.{lines_text};

use crate::Grid;
use std::alloc::Allocator;
use std::fmt;

/// Writes each row as a line: the text of each cell, with a space between two. There is no line end after the last
/// row, and the empty grid writes nothing. The text is the same in either order.
///
///     [[1, 20], [3, 4]]   {}   "1 20\n3 4"
impl<T: fmt::Display, A: Allocator> fmt::Display for Grid<T, A> {
    ghost output = { λ grid. lines_text T.output grid.rows };

    fn fmt<W: fmt::Write>(&self, f: &mut fmt::Formatter<W>) -> fmt::Result {
        fmt::Display::fmt(&self.view(), f)
    }
}
