//! Transposition in place: the lines of a vector become its columns.
ghost use Rattle.std.specs.Prelude.{◌≡◌, ◌*◌, ◌^◌, ◌<◌, length};
ghost use Rattle.grid_base.specs.Prelude.{TransposedInPlace};

use super::groups::{unweave, weave};
use super::square::transpose_within;
use super::{Flat, Groups};
use std::alloc::Allocator;

impl<T, A: Allocator> Flat<T, A> {
    /// Transposes in place the matrix of `lines` lines of `width` cells.
    ///
    ///     [1, 2, 3, 4, 5, 6]   transpose_in_place(2, 3)   [1, 4, 2, 5, 3, 6]
    ///
    /// Requires: the vector has the cells of these lines.
    /// Cost: each cell of a square is swapped once at most; else time in the number of cells times
    /// (log2(lines) + 1) * (log2(width) + 1) at most, by rotations. No memory.
    pub fn transpose_in_place(&mut self, lines: usize, width: usize)
        requires cells { length self.old ≡ lines * width }
        requires fits { lines * width < 2 ^ 64 }
        ensures { TransposedInPlace lines width self.old self.new }
    {
        transpose_cells(self.cells.as_mut_slice(), lines, width);
    }
}

// How many lines to transpose first: a square where it is more than half of them, else half.
fn first_part(lines: usize, width: usize) -> usize
    requires more { width < lines }
    requires some { 1 < width }
    ensures some { 0 < result }
    ensures less { result < lines }
{
    if lines / 2 < width { width } else { lines / 2 }
}

// A square is transposed as such. Of more lines than columns, the first part and the rest are transposed, and then the
// lines of the rest are woven into those of the first part. Fewer lines take the reverse steps.
fn transpose_cells<T>(cells: &mut [T], lines: usize, width: usize)
    requires cells { length cells.old ≡ lines * width }
    requires fits { lines * width < 2 ^ 64 }
    ensures { TransposedInPlace lines width cells.old cells.new }
{
    if lines < 2 || width < 2 {
        return;
    }
    if lines == width {
        transpose_within(cells, lines, 0, lines);
    } else if width < lines {
        let part = first_part(lines, width);
        let rest = lines - part;
        let (front, back) = cells.split_at_mut(part * width);
        transpose_cells(front, part, width);
        transpose_cells(back, rest, width);
        let groups = Groups {
            lines: width,
            width: part,
            at: part,
            count: rest,
        };
        weave(cells, groups);
    } else {
        let part = first_part(width, lines);
        let rest = width - part;
        let groups = Groups {
            lines,
            width: part,
            at: part,
            count: rest,
        };
        unweave(cells, groups);
        let (front, back) = cells.split_at_mut(lines * part);
        transpose_cells(front, lines, part);
        transpose_cells(back, lines, rest);
    }
}
