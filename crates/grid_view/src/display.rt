//! The text of a view as lines.
ghost use Rattle.std.specs.Prelude.{◌<◌, [], codes, Some};
ghost use Rattle.std.specs.Fmt.{◌++?◌};
ghost use Rattle.grid_view.specs.Prelude.{DisplaysOnOk, row, row_count, items_text, lines_text};

use crate::pretty::separator_before;
use crate::view::GridView;
use std::fmt;

impl<'a, T: fmt::Display> GridView<'a, T> {
    // Writes what comes before row `r`, which is in range, and its cells, with a space between two.
    fn display_row<W: fmt::Write>(
        &self,
        before: &str,
        r: usize,
        f: &mut fmt::Formatter<W>,
    ) -> fmt::Result
        requires { r < row_count self.now.rows }
        ensures { DisplaysOnOk W.write_str_gives f.old result (Some before.now
            ++? items_text T.output (codes " ") [] (row self.now.rows r)) f.new }
    {
        let (_, cols) = self.size();
        write!(f, "{before}")?;
        for col in 0..cols {
            let space = separator_before(col, " ");
            let cell = self.get_unchecked(r, col);
            write!(f, "{space}{cell}")?;
        }
        Ok(())
    }
}

/// Writes each row as a line: the text of each cell, with a space between two. There is no line end after the last row,
/// and an empty view writes nothing.
///
///     [[1, 20], [3, 4]]   {}   "1 20\n3 4"
impl<'a, T: fmt::Display> fmt::Display for GridView<'a, T> {
    ghost output = { λ view. lines_text T.output view.rows };

    fn fmt<W: fmt::Write>(&self, f: &mut fmt::Formatter<W>) -> fmt::Result {
        let (rows, _) = self.size();
        for row in 0..rows {
            let before = separator_before(row, "\n");
            self.display_row(before, row, f)?;
        }
        Ok(())
    }
}
