//! The debug text of a view.
ghost use Rattle.std.specs.Prelude.{◌≡◌, ◌<◌, [], nat_lt, if◌then◌else◌};
ghost use Rattle.grid_view.specs.Prelude.{DisplaysOnOk, comma_space, debug_list, row, row_count, table_text};

use crate::view::GridView;
use std::fmt;

// Returns what comes before the cell of a column.
fn separator_before(col: usize) -> &'static str
    ensures { result.now ≡ (if nat_lt 0 col then comma_space else []) }
{
    if col > 0 { ", " } else { "" }
}

// Writes row `r`, which is in range, as a debug list.
fn write_row<T: fmt::Debug, W: fmt::Write>(
    view: &GridView<'_, T>,
    r: usize,
    f: &mut fmt::Formatter<W>,
) -> fmt::Result
    requires { r < row_count view.now.rows }
    ensures { DisplaysOnOk W.write_str_gives f.old result
        (debug_list T.debug_output (row view.now.rows r)) f.new }
{
    let (_, cols) = view.size();
    write!(f, "[")?;
    for col in 0..cols {
        let comma = separator_before(col);
        let cell = view.get_unchecked(r, col);
        write!(f, "{comma}{cell:?}")?;
    }
    write!(f, "]")
}

/// Writes `[`, each row as a debug list with nothing between two, and `]`: the text of a grid of the same rows.
///
///     [[1, 2], [3, 4]]   {:?}   "[[1, 2][3, 4]]"
///     []                 {:?}   "[]"
impl<'a, T: fmt::Debug> fmt::Debug for GridView<'a, T> {
    ghost debug_output = { λ view. table_text T.debug_output view.rows };

    fn fmt<W: fmt::Write>(&self, f: &mut fmt::Formatter<W>) -> fmt::Result {
        let (rows, _) = self.size();
        write!(f, "[")?;
        for row in 0..rows {
            write_row(self, row, f)?;
        }
        write!(f, "]")
    }
}
