//! Rows that run across the storage.
ghost use Rattle.std.specs.Prelude.{◌≡◌, IsTrue};
ghost use Rattle.grid_base.specs.declared.order.Order.TheVariants.{ColumnMajor};

use grid::{Grid, Order};
use std::alloc::Allocator;

// Boards of fewer rows or columns are left as they are. A square board whose rows are rewritten across the storage, as
// it is and laid out twice: 64 by 64 8.2 and 6.5 us on 8-byte cells, 7.2 and 7.9 us on bytes; 128 by 128 57 and 24 us,
// 32 and 29 us.
const LAID_OUT_FROM: usize = 64;

// Whether the rows run across the storage, and there are so many rows and columns that it is faster to lay the board
// out row by row first, and back in the end.
pub(crate) fn is_worth_laying_out<T, A: Allocator>(grid: &Grid<T, A>) -> bool
    ensures { IsTrue result → grid.now.order ≡ ColumnMajor }
{
    grid.order() == Order::ColumnMajor
        && LAID_OUT_FROM <= grid.rows()
        && LAID_OUT_FROM <= grid.cols()
}
