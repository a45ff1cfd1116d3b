//! Passes of counted swaps over lines of cells, which are contiguous in the vector.
ghost use Rattle.std.specs.Prelude.{◌≡◌, ◌*◌, ◌/◌, ◌^◌, ◌<◌, length};
ghost use Rattle.grid.specs.Prelude.{saturating_count, LinesReversed, EachLineReversed};

use grid_base::{Flat, Tally};
use std::alloc::Allocator;

// Reverses the order of the lines. Lines of one cell are reversed as one part.
pub(super) fn reverse_lines<T, A: Allocator>(
    flat: &mut Flat<T, A>,
    lines: usize,
    width: usize,
    tally: &mut Tally,
)
    requires cells { length flat.old ≡ lines * width }
    requires fits { lines * width < 2 ^ 64 }
    ensures moved { LinesReversed lines width flat.old flat.new }
    ensures symmetry { tally.new.symmetry
        ≡ saturating_count tally.old.symmetry (lines / 2 * width) }
    ensures shift { tally.new.shift ≡ tally.old.shift }
{
    if width == 1 {
        flat.reverse_for_symmetry(0, lines, tally);
        return;
    }
    for line in 0..lines / 2 {
        flat.swap_blocks_for_symmetry(line * width, (lines - 1 - line) * width, width, tally);
    }
}

// Reverses each line. A line of one cell stays.
pub(super) fn reverse_each_line<T, A: Allocator>(
    flat: &mut Flat<T, A>,
    lines: usize,
    width: usize,
    tally: &mut Tally,
)
    requires cells { length flat.old ≡ lines * width }
    requires fits { lines * width < 2 ^ 64 }
    ensures moved { EachLineReversed lines width flat.old flat.new }
    ensures symmetry { tally.new.symmetry
        ≡ saturating_count tally.old.symmetry (lines * (width / 2)) }
    ensures shift { tally.new.shift ≡ tally.old.shift }
{
    if width < 2 {
        return;
    }
    for line in 0..lines {
        flat.reverse_for_symmetry(line * width, width, tally);
    }
}
