//! Cells that come some places forward or back, by counted swaps.
ghost use Rattle.std.specs.Prelude.{◌≡◌, ◌<◌, ◌*◌, length};
ghost use Rattle.grid_base.specs.Prelude.{CanShift, HasShifted, swapped_back, swapped_forward};

use super::swaps::{Swaps, swap_for_shift};
use std::mem;

// Shorter shifts go in one plain loop. 4,096 cells, by that loop and block by block: at 10 places 3.4 and 4.0 us on
// 8-byte cells, 3.0 and 4.0 us on bytes; at 12 places 3.4 and 2.9 us, 2.9 and 2.0 us.
const SHORT_SHIFT: usize = 12;

// At a distance known at compile time this many swaps are unrolled.
const SWAPS_AT_ONCE: usize = 32;

// The bytes of a vector register that each x86-64 and each ARM64 has.
const VECTOR: usize = 16;

// Moves the `n` cells that are `shift` places after `start` to `start`, first to last, by `n` swaps for a shift, which
// are added to the run.
//
//     [1, 2, 3, 4, 5]   move_forward(0, 2, 3)   [3, 4, 5, 2, 1]   3 swaps
//
// Requires: these cells are in range, `shift` is not 0, and the run has fewer than 2^64 swaps then.
pub(in crate::flat) fn move_forward<T>(
    cells: &mut [T],
    start: usize,
    shift: usize,
    n: usize,
    swaps: Swaps,
) -> Swaps
    requires { CanShift start shift n (length cells.old) swaps }
    ensures cells { cells.new ≡ swapped_forward start shift n cells.old }
    ensures counted { HasShifted n swaps result }
{
    match shift {
        1 => swap_forward_by::<1, T>(cells, start, n, swaps),
        2 => swap_forward_by::<2, T>(cells, start, n, swaps),
        _ if shift < SHORT_SHIFT => swap_forward_by_block(cells, start, shift, n, swaps),
        _ => swap_forward(cells, start, shift, n, swaps),
    }
}

// As `swap_forward`. The distance and how many swaps are done at once are known at compile time, so that a cell goes
// from swap to swap in a register, and the cells between are read and written as vectors.
#[tactic(auto, using(crate::proofs::ShiftLemmas::forward_start, crate::proofs::ShiftLemmas::forward_swap))]
fn swap_forward_by<const SHIFT: usize, T>(
    cells: &mut [T],
    start: usize,
    n: usize,
    mut swaps: Swaps,
) -> Swaps
    requires { CanShift start SHIFT n (length cells.old) swaps }
    ensures cells { cells.new ≡ swapped_forward start SHIFT n cells.old }
    ensures counted { HasShifted n swaps result }
{
    let mut done = 0;
    while SWAPS_AT_ONCE <= n - done {
        for k in 0..SWAPS_AT_ONCE {
            let at = start + (done + k);
            swap_for_shift(cells, at, at + SHIFT, &mut swaps);
        }
        done += SWAPS_AT_ONCE;
    }
    for k in done..n {
        swap_for_shift(cells, start + k, start + k + SHIFT, &mut swaps);
    }
    swaps
}

// Swaps three blocks of `shift` cells at once while there are as many, and the rest block by block. Only bytes gain:
// the compiler can't tell for wider cells that their places differ. Out of line, so that short shifts stay as fast.
#[inline(never)]
#[tactic(auto, using(crate::proofs::ShiftLemmas::forward_start, crate::proofs::ShiftLemmas::forward_after))]
fn swap_forward<T>(cells: &mut [T], start: usize, shift: usize, n: usize, mut swaps: Swaps) -> Swaps
    requires { CanShift start shift n (length cells.old) swaps }
    ensures cells { cells.new ≡ swapped_forward start shift n cells.old }
    ensures counted { HasShifted n swaps result }
{
    let mut done = 0;
    // as many as cells, where a cell is one byte
    let bytes = shift * mem::size_of::<T>();
    while bytes == shift && shift <= (n - done) / 3 {
        swaps = swap_three_blocks(cells, start + done, shift, swaps);
        done += 3 * shift;
    }
    swap_forward_by_block(cells, start + done, shift, n - done, swaps)
}

// As `swap_forward` with `3 * shift` swaps: three blocks of `shift` cells come before the one at `start`. Each place
// takes three swaps, one after another, so that a cell of the middle blocks is read and written once. Each place is
// computed from the one before it, so that the compiler sees that they differ.
#[inline(never)]
#[tactic(auto, using(crate::proofs::ShiftLemmas::three_none, crate::proofs::ShiftLemmas::three_all))]
fn swap_three_blocks<T>(cells: &mut [T], start: usize, shift: usize, mut swaps: Swaps) -> Swaps
    requires { CanShift start shift (3 * shift) (length cells.old) swaps }
    ensures cells { cells.new ≡ swapped_forward start shift (3 * shift) cells.old }
    ensures counted { HasShifted (3 * shift) swaps result }
{
    for k in 0..shift {
        let first = start + k;
        let second = first + shift;
        let third = second + shift;
        swap_for_shift(cells, first, second, &mut swaps);
        swap_for_shift(cells, second, third, &mut swaps);
        swap_for_shift(cells, third, third + shift, &mut swaps);
    }
    swaps
}

// As `swap_forward`, one block after another.
#[tactic(auto, using(crate::proofs::ShiftLemmas::forward_start, crate::proofs::ShiftLemmas::forward_swap))]
fn swap_forward_by_block<T>(
    cells: &mut [T],
    start: usize,
    shift: usize,
    n: usize,
    mut swaps: Swaps,
) -> Swaps
    requires { CanShift start shift n (length cells.old) swaps }
    ensures cells { cells.new ≡ swapped_forward start shift n cells.old }
    ensures counted { HasShifted n swaps result }
{
    let block = block_of(shift, n);
    let mut done = 0;
    while done < n {
        let end = done + block.min(n - done);
        for k in done..end {
            swap_for_shift(cells, start + k, start + k + shift, &mut swaps);
        }
        done = end;
    }
    swaps
}

// Moves the `n` cells from `start` on by `shift` places to the back, last to first, by `n` swaps for a shift, which are
// added to the run.
//
//     [1, 2, 3, 4, 5]   move_back(0, 2, 3)   [5, 4, 1, 2, 3]   3 swaps
//
// Requires: the places that they come to are in range, `shift` is not 0, and the run has fewer than 2^64 swaps then.
pub(in crate::flat) fn move_back<T>(
    cells: &mut [T],
    start: usize,
    shift: usize,
    n: usize,
    swaps: Swaps,
) -> Swaps
    requires { CanShift start shift n (length cells.old) swaps }
    ensures cells { cells.new ≡ swapped_back start shift n cells.old }
    ensures counted { HasShifted n swaps result }
{
    match shift {
        _ if n == 0 => swaps,
        1 => swap_back_by::<1, T>(cells, start, n, swaps),
        2 => swap_back_by::<2, T>(cells, start, n, swaps),
        8 => swap_back_by::<8, T>(cells, start, n, swaps),
        _ => swap_back_by_block(cells, start, shift, n, swaps),
    }
}

// As `move_back`, with constants as in `swap_forward_by`. Out of line, since the loop over the lines would keep
// its many running indices in memory otherwise.
#[inline(never)]
#[tactic(auto, using(crate::proofs::ShiftLemmas::back_end, crate::proofs::ShiftLemmas::back_swap))]
fn swap_back_by<const SHIFT: usize, T>(
    cells: &mut [T],
    start: usize,
    n: usize,
    mut swaps: Swaps,
) -> Swaps
    requires { CanShift start SHIFT n (length cells.old) swaps }
    ensures cells { cells.new ≡ swapped_back start SHIFT n cells.old }
    ensures counted { HasShifted n swaps result }
{
    let mut left = n;
    while SWAPS_AT_ONCE <= left {
        for k in 0..SWAPS_AT_ONCE {
            let at = start + (left - 1 - k);
            swap_for_shift(cells, at, at + SHIFT, &mut swaps);
        }
        left -= SWAPS_AT_ONCE;
    }
    swap_back_by_block(cells, start, SHIFT, left, swaps)
}

// As `move_back`, one block after another. Out of line for the same reason.
#[inline(never)]
#[tactic(auto, using(crate::proofs::ShiftLemmas::back_end, crate::proofs::ShiftLemmas::back_swap))]
fn swap_back_by_block<T>(
    cells: &mut [T],
    start: usize,
    shift: usize,
    n: usize,
    mut swaps: Swaps,
) -> Swaps
    requires { CanShift start shift n (length cells.old) swaps }
    ensures cells { cells.new ≡ swapped_back start shift n cells.old }
    ensures counted { HasShifted n swaps result }
{
    let block = block_of(shift, n);
    let mut left = n;
    while 0 < left {
        let stretch = block.min(left);
        for k in 0..stretch {
            let at = start + (left - 1 - k);
            swap_for_shift(cells, at, at + shift, &mut swaps);
        }
        left -= stretch;
    }
    swaps
}

// How many cells are swapped as one block: no more than the distance, so that the block and the places that it goes to
// don't overlap and the loop is vector code; and of bytes whole vectors, where it is longer than one.
fn block_of(shift: usize, n: usize) -> usize
    requires moves { 0 < shift }
    ensures some { 0 < n → 0 < result }
{
    if shift < SHORT_SHIFT {
        n
    } else if shift < VECTOR {
        shift
    } else {
        shift - shift % VECTOR
    }
}
