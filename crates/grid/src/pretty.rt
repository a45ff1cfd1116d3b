//! The text of a grid of integers.
ghost use Rattle.std.specs.Prelude.{◌≡◌, IfOk, string_bytes};
ghost use Rattle.grid.specs.Prelude.{numbers, pretty_text};

use crate::Grid;
use grid_base::Whole;
use std::alloc::{AllocError, Allocator};

impl<T: Whole, A: Allocator> Grid<T, A> {
    /// Returns the text of the rows, each in a line of its own, each number right-aligned in the width. Without a width
    /// it is the length of the longest number. A longer number is written in full. The text is the same in either
    /// order.
    ///
    ///     [[1, 20], [3, 4]]   pretty(alloc, None)   [
    ///                                                   [  1, 20]
    ///                                                   [  3,  4]
    ///                                               ]
    ///     []                  pretty(alloc, None)   []
    ///
    /// There is no line end after the last bracket.
    /// Fails: if allocation fails.
    /// Cost: each number is written once, and without a width once more to be measured.
    pub fn pretty<B: Allocator>(
        &self,
        alloc: B,
        width: Option<usize>,
    ) -> Result<String<B>, AllocError>
        ensures { IfOk result
            (λ text. string_bytes text ≡ pretty_text width (numbers T.whole self.now.rows)) }
    {
        self.view().pretty(alloc, width)
    }
}
