//! The two counted swaps, and the runs that they add to.
//!
//! The rule: a counted swap exchanges the cells of two different places and adds one. Nothing else adds to a count.
//!
//! - `swap_for_symmetry` and `swap_for_shift` are the only counted swaps. Each adds its one to a run, `Swaps`. They can
//!   be called in this module's parent alone, by the passes of `flips.rt` and `shifts.rt`, which call them on cells of
//!   a `Flat`.
//! - A run starts empty (`Swaps::none`) and can't be dropped. `Tally::take` ends it (`Swaps::end`) and adds its counts
//!   to the tally's two counts.
//! - The fields of `Swaps` are private to this module, so no other code can write a count.
//!
//! Flips, half turns, expand, prepend, and deletes by a command move cells by these two swaps alone. Push, insert, pop,
//! remove and the other deletes are not counted, and may move cells in any way.
ghost use Rattle.std.specs.Prelude.{◌≡◌, ◌<◌, ◌+◌, ◌-◌, ◌^◌, ◌++◌, length, swap};

use std::mem;

// The swaps of one run so far. A run has fewer than 2^64 swaps, so its counts never saturate. They are held by value
// and not through the tally's reference, so that the compiler makes vector code of the loop.
pub(crate) struct Swaps {
    for_symmetry: usize,
    for_shift: usize,
}

impl Swaps {
    // Starts a run: no swaps yet.
    pub(crate) fn none() -> Swaps
        ensures symmetry { result.for_symmetry ≡ 0 }
        ensures shift { result.for_shift ≡ 0 }
    {
        Swaps {
            for_symmetry: 0,
            for_shift: 0,
        }
    }

    // Ends a run: its swaps for symmetries and those for shifts.
    pub(crate) fn end(self) -> (usize, usize)
        ensures symmetry { result.0 ≡ self.for_symmetry }
        ensures shift { result.1 ≡ self.for_shift }
    {
        let Swaps {
            for_symmetry,
            for_shift,
        } = self;
        (for_symmetry, for_shift)
    }
}

// Exchanges cell `i` of the front part of a slice with cell `j` of the rest, and counts one swap for a symmetry.
#[tactic(auto, using(crate::proofs::SwapLemmas::swap_parts))]
pub(super) fn swap_for_symmetry<T>(
    front: &mut [T],
    i: usize,
    back: &mut [T],
    j: usize,
    swaps: &mut Swaps,
)
    requires i_in { i < length front.old }
    requires j_in { j < length back.old }
    requires room { swaps.old.for_symmetry < 2 ^ 64 - 1 }
    ensures cells { front.new ++ back.new
        ≡ swap (front.old ++ back.old) i (length front.old + j) }
    ensures front_len { length front.new ≡ length front.old }
    ensures back_len { length back.new ≡ length back.old }
    ensures symmetry { swaps.new.for_symmetry ≡ swaps.old.for_symmetry + 1 }
    ensures shift { swaps.new.for_shift ≡ swaps.old.for_shift }
{
    mem::swap(&mut front[i], &mut back[j]);
    swaps.for_symmetry += 1;
}

// Exchanges cell `i` with the later cell `j`, and counts one swap for a shift.
#[tactic(auto, using(crate::proofs::SwapLemmas::swap_parts))]
pub(super) fn swap_for_shift<T>(cells: &mut [T], i: usize, j: usize, swaps: &mut Swaps)
    requires apart { i < j }
    requires j_in { j < length cells.old }
    requires room { swaps.old.for_shift < 2 ^ 64 - 1 }
    ensures cells { cells.new ≡ swap cells.old i j }
    ensures symmetry { swaps.new.for_symmetry ≡ swaps.old.for_symmetry }
    ensures shift { swaps.new.for_shift ≡ swaps.old.for_shift + 1 }
{
    let (front, back) = cells.split_at_mut(j);
    mem::swap(&mut front[i], &mut back[0]);
    swaps.for_shift += 1;
}
