//! The order of a grid, which changes while the rows stay.
ghost use Rattle.std.specs.Prelude.{◌≡◌, ◌*◌, ◌^◌, ◌<◌, length};
ghost use Rattle.grid.specs.Prelude.{flipped, table_of};

use crate::Grid;
use grid_base::{Flat, Order};
use std::alloc::Allocator;

// Lays the cells of a table out in the other order.
fn transpose_storage<T, A: Allocator>(flat: &mut Flat<T, A>, order: Order, rows: usize, cols: usize)
    requires cells { length flat.old ≡ rows * cols }
    requires fits { rows * cols < 2 ^ 64 }
    ensures len { length flat.new ≡ rows * cols }
    ensures table { table_of (flipped order) rows cols flat.new
        ≡ table_of order rows cols flat.old }
{
    match order {
        Order::RowMajor => flat.transpose_in_place(rows, cols),
        Order::ColumnMajor => flat.transpose_in_place(cols, rows),
    }
}

impl<T, A: Allocator> Grid<T, A> {
    /// Lays the cells out in this order. The rows stay. A grid that already has this order is unchanged.
    ///
    ///     [[1, 2, 3], [4, 5, 6]]   lay_out(ColumnMajor)   the vector is [1, 4, 2, 5, 3, 6]
    ///
    /// Cost: each cell of a square board is swapped once at most; else time in the number of cells times
    /// (log2(rows) + 1) * (log2(columns) + 1) at most. No memory.
    pub fn lay_out(&mut self, order: Order)
        ensures rows { self.new.rows ≡ self.old.rows }
        ensures order { self.new.order ≡ order }
    {
        match (self.order, order) {
            (Order::RowMajor, Order::ColumnMajor) | (Order::ColumnMajor, Order::RowMajor) => {
                self.lay_out_anew();
            }
            _ => {}
        }
    }

    // Lays the cells out in the other order.
    fn lay_out_anew(&mut self)
        ensures rows { self.new.rows ≡ self.old.rows }
        ensures order { self.new.order ≡ flipped self.old.order }
    {
        transpose_storage(&mut self.flat, self.order, self.row_count, self.col_count);
        self.order = self.order.flipped();
    }
}
