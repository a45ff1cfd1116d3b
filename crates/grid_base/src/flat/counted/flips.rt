//! Cells that are reversed, and blocks that change places, by counted swaps.
ghost use Rattle.std.specs.Prelude.{◌≡◌, ◌<◌, ◌≤◌, ◌+◌, ◌/◌, ◌^◌, ◌++◌, length};
ghost use Rattle.grid_base.specs.Prelude.{BlocksSwapped, PartReversed, saturating_count};

use super::swaps::{Swaps, swap_for_symmetry};
use crate::{Flat, Tally};
use std::alloc::Allocator;

impl<T, A: Allocator> Flat<T, A> {
    /// Reverses the `n` cells from `start` on, by `n / 2` swaps for a symmetry.
    ///
    ///     [1, 2, 3, 4]   reverse_for_symmetry(1, 3)   [1, 4, 3, 2]   1 swap
    ///
    /// Requires: these cells are in range.
    pub fn reverse_for_symmetry(&mut self, start: usize, n: usize, tally: &mut Tally)
        requires within { start + n ≤ length self.old }
        requires fits { start + n < 2 ^ 64 }
        ensures cells { PartReversed start n self.old self.new }
        ensures symmetry { tally.new.symmetry ≡ saturating_count tally.old.symmetry (n / 2) }
        ensures shift { tally.new.shift ≡ tally.old.shift }
    {
        let (_, rest) = self.cells.as_mut_slice().split_at_mut(start);
        let (front, back) = rest.split_at_mut(n - n / 2);
        let swaps = swap_mirrored(front, back, n / 2);
        tally.take(swaps);
    }

    /// Exchanges the `n` cells from `i` on with those from `j` on, by `n` swaps for a symmetry.
    ///
    ///     [1, 2, 3, 4, 5]   swap_blocks_for_symmetry(0, 3, 2)   [4, 5, 3, 1, 2]   2 swaps
    ///
    /// Requires: both blocks are in range, and the second begins after the first.
    pub fn swap_blocks_for_symmetry(&mut self, i: usize, j: usize, n: usize, tally: &mut Tally)
        requires apart { i + n ≤ j }
        requires within { j + n ≤ length self.old }
        requires fits { j + n < 2 ^ 64 }
        ensures cells { BlocksSwapped i j n self.old self.new }
        ensures symmetry { tally.new.symmetry ≡ saturating_count tally.old.symmetry n }
        ensures shift { tally.new.shift ≡ tally.old.shift }
    {
        let (_, rest) = self.cells.as_mut_slice().split_at_mut(i);
        let (front, back) = rest.split_at_mut(j - i);
        let swaps = swap_blocks(front, back, n);
        tally.take(swaps);
    }
}

// Exchanges the first `n` cells of two parts. Out of line they are two slices to the compiler, which then makes vector
// code of the loop. Each part begins with its first cell to exchange, so that few checks come before that code.
#[inline(never)]
#[tactic(auto, using(crate::proofs::PartLemmas::blocks_none))]
fn swap_blocks<T>(front: &mut [T], back: &mut [T], n: usize) -> Swaps
    requires front_in { n ≤ length front.old }
    requires within { n ≤ length back.old }
    ensures cells { BlocksSwapped 0 (length front.old) n (front.old ++ back.old)
        (front.new ++ back.new) }
    ensures symmetry { result.for_symmetry ≡ n }
    ensures shift { result.for_shift ≡ 0 }
{
    let mut swaps = Swaps::none();
    for k in 0..n {
        swap_for_symmetry(front, k, back, k, &mut swaps);
    }
    swaps
}

// Exchanges the first cell with the last, the second with the last but one, and so on, where the last `half` of these
// cells are at the start of the back part. Out of line for the same reason.
#[inline(never)]
#[tactic(auto, using(crate::proofs::PartLemmas::turning_none, crate::proofs::PartLemmas::turning_all))]
fn swap_mirrored<T>(front: &mut [T], back: &mut [T], half: usize) -> Swaps
    requires parts { half ≤ length front.old }
    requires middle { length front.old ≤ half + 1 }
    requires within { half ≤ length back.old }
    ensures cells { PartReversed 0 (length front.old + half) (front.old ++ back.old)
        (front.new ++ back.new) }
    ensures symmetry { result.for_symmetry ≡ half }
    ensures shift { result.for_shift ≡ 0 }
{
    let mut swaps = Swaps::none();
    for k in 0..half {
        swap_for_symmetry(front, k, back, half - 1 - k, &mut swaps);
    }
    swaps
}
