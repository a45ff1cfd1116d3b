//! Tables whose cells are at even distances in a slice.
ghost use Rattle.std.specs.Prelude.{◌≡◌};
ghost use Rattle.grid_near.specs.Around.{by_steps};

/// A table of `size.0` rows and `size.1` columns in a slice: the place of its first cell, how far the cells of a column
/// are apart, `strides.0`, and those of a row, `strides.1`. Places are taken modulo 2^64, so that a stride may go back.
#[derive_where(Clone, Copy)]
pub struct Strided<'a, T> {
    pub cells: &'a [T],
    pub size: (usize, usize),
    pub start: usize,
    pub strides: (usize, usize),
}

// Returns the place that is so many rows and columns after a place.
#[inline(always)]
pub(crate) fn place_from(start: usize, strides: (usize, usize), down: usize, right: usize) -> usize
    ensures { result ≡ by_steps start strides down right }
{
    start
        .wrapping_add(down.wrapping_mul(strides.0))
        .wrapping_add(right.wrapping_mul(strides.1))
}
