//! The six moves of a grid, and the eight symmetries.
ghost use Rattle.std.specs.Prelude.{◌≡◌, ◌*◌, false, length};
ghost use Rattle.grid.specs.Prelude.{row_count, col_count, flipped, storage, table_of, SameSizeAndOrder, act, order_after, price, HasImageSize, IsImageByWords, from_flags, saturating_count};
ghost use Rattle.grid_base.specs.declared.words.Symmetry.TheVariants.{FlipRows, FlipCols, RotateHalf, Transpose, RotateLeft, RotateRight};

mod passes;

use crate::Grid;
use grid_base::{Flat, Layout, Order, Symmetry, Tally};
use passes::{reverse_each_line, reverse_lines};
use std::alloc::Allocator;
use std::mem;

impl<T, A: Allocator> Grid<T, A> {
    /// Exchanges rows with columns. Flips the order; the storage stays.
    ///
    ///     [[1, 2, 3], [4, 5, 6]]   transpose()   [[1, 4], [2, 5], [3, 6]]
    ///
    /// Cost: constant; no cell moves.
    pub fn transpose(&mut self)
        ensures rows { self.new.rows ≡ act Transpose self.old.rows }
        ensures row_count { row_count self.new.rows ≡ col_count self.old.rows }
        ensures col_count { col_count self.new.rows ≡ row_count self.old.rows }
        ensures order { self.new.order ≡ flipped self.old.order }
        ensures storage { storage self.new.order self.new.rows
            ≡ storage self.old.order self.old.rows }
    {
        mem::swap(&mut self.row_count, &mut self.col_count);
        self.order = self.order.flipped();
    }

    /// Reverses the order of the rows. The order of the storage stays.
    ///
    ///     [[1, 2, 3], [4, 5, 6]]   flip_rows()   [[4, 5, 6], [1, 2, 3]]
    ///
    /// Cost: `(rows / 2) * cols` swaps.
    pub fn flip_rows(&mut self)
        ensures rows { self.new.rows ≡ act FlipRows self.old.rows }
        ensures same { SameSizeAndOrder self.old self.new }
    {
        self.apply(Symmetry::FlipRows);
    }

    /// Reverses each row. The order of the storage stays.
    ///
    ///     [[1, 2, 3], [4, 5, 6]]   flip_cols()   [[3, 2, 1], [6, 5, 4]]
    ///
    /// Cost: `rows * (cols / 2)` swaps.
    pub fn flip_cols(&mut self)
        ensures rows { self.new.rows ≡ act FlipCols self.old.rows }
        ensures same { SameSizeAndOrder self.old self.new }
    {
        self.apply(Symmetry::FlipCols);
    }

    /// Rotates the grid a quarter turn counterclockwise: a transpose, then a flip of the rows. Flips the order.
    ///
    ///     [[1, 2, 3], [4, 5, 6]]   rotate_left()   [[3, 6], [2, 5], [1, 4]]
    ///
    /// Cost: `rows * (cols / 2)` swaps.
    pub fn rotate_left(&mut self)
        ensures rows { self.new.rows ≡ act RotateLeft self.old.rows }
        ensures row_count { row_count self.new.rows ≡ col_count self.old.rows }
        ensures col_count { col_count self.new.rows ≡ row_count self.old.rows }
        ensures order { self.new.order ≡ flipped self.old.order }
    {
        self.apply(Symmetry::RotateLeft);
    }

    /// Rotates the grid a quarter turn clockwise: a transpose, then a flip of the columns. Flips the order.
    ///
    ///     [[1, 2, 3], [4, 5, 6]]   rotate_right()   [[4, 1], [5, 2], [6, 3]]
    ///
    /// Cost: `cols * (rows / 2)` swaps.
    pub fn rotate_right(&mut self)
        ensures rows { self.new.rows ≡ act RotateRight self.old.rows }
        ensures row_count { row_count self.new.rows ≡ col_count self.old.rows }
        ensures col_count { col_count self.new.rows ≡ row_count self.old.rows }
        ensures order { self.new.order ≡ flipped self.old.order }
    {
        self.apply(Symmetry::RotateRight);
    }

    /// Rotates the grid a half turn. The order stays.
    ///
    ///     [[1, 2, 3], [4, 5, 6]]   rotate_half()   [[6, 5, 4], [3, 2, 1]]
    ///
    /// Cost: `(rows * cols) / 2` swaps.
    pub fn rotate_half(&mut self)
        ensures rows { self.new.rows ≡ act RotateHalf self.old.rows }
        ensures same { SameSizeAndOrder self.old self.new }
    {
        self.apply(Symmetry::RotateHalf);
    }

    /// Applies a symmetry: the rows become their image under it, which is their image under every word of moves that
    /// reduces to it. Flips the order exactly if the symmetry transposes.
    ///
    ///     [[1, 2, 3], [4, 5, 6]]   apply(AntiTranspose)   [[6, 3], [5, 2], [4, 1]]
    ///
    /// Cost: the swaps of its flips, at most half as many as there are cells, however long the word was.
    pub fn apply(&mut self, symmetry: Symmetry)
        ensures rows { self.new.rows ≡ act symmetry self.old.rows }
        ensures words { IsImageByWords symmetry self.old.rows self.new.rows }
        ensures size { HasImageSize symmetry self.old.rows self.new.rows }
        ensures order { self.new.order ≡ order_after symmetry self.old.order }
    {
        let mut tally = Tally::new();
        self.apply_counted(symmetry, &mut tally);
    }

    /// Same as [`apply`](Grid::apply), and adds the swaps that it makes to the symmetry count of the tally.
    ///
    ///     [[1, 2, 3], [4, 5, 6]]   apply_counted(FlipCols, tally)   [[3, 2, 1], [6, 5, 4]], and 2 swaps counted
    ///
    /// Cost: the swaps of its flips, each counted once.
    pub fn apply_counted(&mut self, symmetry: Symmetry, tally: &mut Tally)
        ensures rows { self.new.rows ≡ act symmetry self.old.rows }
        ensures size { HasImageSize symmetry self.old.rows self.new.rows }
        ensures order { self.new.order ≡ order_after symmetry self.old.order }
        ensures symmetry { tally.new.symmetry ≡ saturating_count tally.old.symmetry
            (price symmetry (row_count self.old.rows) (col_count self.old.rows)) }
        ensures shift { tally.new.shift ≡ tally.old.shift }
    {
        let (transposes, rows, cols) = symmetry.flags();
        if transposes {
            self.transpose();
        }
        self.flip_counted(rows, cols, tally);
    }

    // Flips the rows, the columns, or both in one pass. Columns are the rows of the transposed table, which the same
    // vector stores in the other order.
    fn flip_counted(&mut self, rows: bool, cols: bool, tally: &mut Tally)
        ensures rows { self.new.rows ≡ act (from_flags false rows cols) self.old.rows }
        ensures order { self.new.order ≡ self.old.order }
        ensures symmetry { tally.new.symmetry ≡ saturating_count tally.old.symmetry (price
            (from_flags false rows cols) (row_count self.old.rows) (col_count self.old.rows)) }
        ensures shift { tally.new.shift ≡ tally.old.shift }
    {
        match (rows, cols) {
            (false, false) => {}
            (true, false) => {
                let (order, rows, cols) = (self.order, self.row_count, self.col_count);
                flip_stored(&mut self.flat, Layout { order, rows, cols }, tally);
            }
            (false, true) => {
                let (order, rows, cols) = (self.order.flipped(), self.col_count, self.row_count);
                flip_stored(&mut self.flat, Layout { order, rows, cols }, tally);
            }
            (true, true) => {
                let len = self.row_count * self.col_count;
                self.flat.reverse_for_symmetry(0, len, tally);
            }
        }
    }
}

// Reverses the rows of the table that a vector stores.
fn flip_stored<T, A: Allocator>(flat: &mut Flat<T, A>, layout: Layout, tally: &mut Tally)
    requires { length flat.old ≡ layout.rows * layout.cols }
    ensures cells { length flat.new ≡ length flat.old }
    ensures rows { table_of layout.order layout.rows layout.cols flat.new
        ≡ act FlipRows (table_of layout.order layout.rows layout.cols flat.old) }
    ensures symmetry { tally.new.symmetry
        ≡ saturating_count tally.old.symmetry (price FlipRows layout.rows layout.cols) }
    ensures shift { tally.new.shift ≡ tally.old.shift }
{
    let (rows, cols) = (layout.rows, layout.cols);
    match layout.order {
        Order::RowMajor => reverse_lines(flat, rows, cols, tally),
        Order::ColumnMajor => reverse_each_line(flat, cols, rows, tally),
    }
}
