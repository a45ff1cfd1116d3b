//! An iterator over a row of a table that a vector stores, for writing.
ghost use Rattle.std.specs.Prelude.{◌≡◌, ◌*◌, ◌<◌, length};
ghost use Rattle.grid_base.specs.Prelude.{sem, line_mut_rest, place, table_of, row};

use super::span::row_span;
use super::{Flat, GridLineIterMut};
use crate::Layout;
use std::alloc::Allocator;

impl<T, A: Allocator> Flat<T, A> {
    ghost use Rattle.grid_base.specs.FlatLends.{lends_line, HoldsFrom};

    /// Returns an iterator over the cells of row `r` of the table that the vector stores, for writing.
    ///
    ///     [1, 2, 3, 4, 5, 6]   row_mut(ColumnMajor, 2 by 3, 1)   2, 4, 6
    ///
    /// Requires: the vector has as many cells as the layout, and `r` is in range.
    /// Cost: each step takes the same time, in either order.
    pub fn row_mut(&mut self, layout: Layout, r: usize) -> GridLineIterMut<'_, T>
        requires cells { length self.old ≡ layout.rows * layout.cols }
        requires row_in { r < layout.rows }
        ensures* writes_back { sem 𝓛 (lends_line T.row A.row A.Allocator self.entry
            (place layout.order layout.rows layout.cols r 0) result) }
        ensures rest { line_mut_rest result
            ≡ row (table_of layout.order layout.rows layout.cols self.old) r }
        ensures cells { HoldsFrom (place layout.order layout.rows layout.cols r 0) self.old result }
    {
        let span = row_span(layout, r);
        self.line_mut(span.start, span.end, span.stride)
    }
}
