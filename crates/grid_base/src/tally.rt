//! The two counts of swaps.
//!
//! A count is raised by `Tally::take` alone, which consumes a run of counted swaps, `Swaps`, and adds its counts. The
//! two counts stop at `u128::MAX`. The fields of `Tally` are private to this module, so no other code can write a
//! count. `flat/counted/swaps.rt` has the swaps and says who can call them.
ghost use Rattle.std.specs.Prelude.{◌≡◌};
ghost use Rattle.grid_base.specs.Tally.{saturating_count};

use crate::flat::Swaps;
use std::marker::Model;

/// How many swaps were done: for symmetries, and for shifts in expand, prepend and delete.
///
/// Only the two counted swaps of a [`Flat`](crate::Flat)'s cells raise a count, by one for each pair of cells that is
/// exchanged. A count stops at `u128::MAX`, and no call lowers it.
#[derive(Drop)]
pub struct Tally {
    for_symmetry: u128,
    for_shift: u128,
}

impl Model for Tally {
    ghost use Rattle.grid_base.specs.Tally.{Counts};

    ghost Value = { Counts };

    ghost view = { λ t. record { symmetry = t.for_symmetry; shift = t.for_shift } };
}

impl Tally {
    /// Returns a tally with both counts 0.
    pub fn new() -> Tally
        ensures symmetry { result.symmetry ≡ 0 }
        ensures shift { result.shift ≡ 0 }
    {
        Tally {
            for_symmetry: 0,
            for_shift: 0,
        }
    }

    /// Returns the number of swaps that were done for symmetries.
    pub fn symmetry(&self) -> u128
        ensures { result ≡ self.now.symmetry }
    {
        self.for_symmetry
    }

    /// Returns the number of swaps that were done for shifts.
    pub fn shift(&self) -> u128
        ensures { result ≡ self.now.shift }
    {
        self.for_shift
    }

    // Takes the swaps of a run and adds them to the counts. Only here does a count stop at `u128::MAX`.
    pub(crate) fn take(&mut self, swaps: Swaps)
        ensures symmetry { self.new.symmetry
            ≡ saturating_count self.old.symmetry swaps.for_symmetry }
        ensures shift { self.new.shift ≡ saturating_count self.old.shift swaps.for_shift }
    {
        let (for_symmetry, for_shift) = swaps.end();
        self.for_symmetry = self.for_symmetry.saturating_add(for_symmetry as u128);
        self.for_shift = self.for_shift.saturating_add(for_shift as u128);
    }
}
