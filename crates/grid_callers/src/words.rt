//! A caller of `grid_base`, and of `Grid::apply`.
ghost use Rattle.std.specs.Prelude.{◌≡◌};
ghost use Rattle.grid.specs.Prelude.{word_image};

use grid::{Grid, Move, reduce};
use std::alloc::Allocator;

/// Does the moves of a word, from left to right, with the swaps of one symmetry.
///
///     [[1, 2], [3, 4]]   apply_word([RotateLeft, FlipCols, FlipCols])   [[2, 4], [1, 3]]
pub fn apply_word<A: Allocator>(grid: &mut Grid<u32, A>, word: &[Move])
    ensures { grid.new.rows ≡ word_image word.now grid.old.rows }
{
    grid.apply(reduce(word));
}
