//! Cells that come to the end of a vector, or leave it there.
ghost use Rattle.std.specs.Prelude.{◌≡◌, ◌+◌, ◌-◌, ◌≤◌, [], ◌++◌, length, take, drop, OnOk, OnErr, vec_len, vec_capacity};
ghost use Rattle.grid_base.specs.Prelude.{AppendsEach, BlockTaken};

use super::Flat;
use std::alloc::{AllocError, Allocator};
use std::mem::replace;

impl<T, A: Allocator> Flat<T, A> {
    /// Returns the allocator of the vector.
    pub fn allocator(&self) -> &A {
        self.cells.allocator()
    }

    /// Moves the cells of `line` to the end.
    ///
    /// Fails: if allocation fails; both vectors are unchanged.
    pub fn append(&mut self, line: &mut Vec<T, A>) -> Result<(), AllocError>
        ensures ok { OnOk result (self.new ≡ self.old ++ line.old.items) }
        ensures moved { OnOk result (line.new.items ≡ []) }
        ensures err { OnErr result (self.new ≡ self.old) }
        ensures stays { OnErr result (line.new.items ≡ line.old.items) }
    {
        self.cells.append(line)
    }

    /// Puts `count` default cells at the end.
    ///
    /// Fails: if the allocation, which comes first, fails; the cells are unchanged.
    pub fn append_defaults(&mut self, count: usize) -> Result<(), AllocError>
    where
        T: Default,
        A: Clone,
        ensures ok { OnOk result (AppendsEach T.is_default count self.old self.new) }
        ensures err { OnErr result (self.new ≡ self.old) }
    {
        self.cells.reserve(count)?;
        let alloc = self.cells.allocator().clone()?;
        let cells = replace(&mut self.cells, Vec::new(alloc));
        replace(&mut self.cells, with_defaults(cells, count)).destroy_empty();
        Ok(())
    }
}

// The cells before `at`, and the vector that takes the others to its end. Both are taken by value, as in
// `with_defaults`.
pub(super) fn without_tail<T, A: Allocator>(
    mut cells: Vec<T, A>,
    to: (Vec<T, A>, usize),
) -> (Vec<T, A>, Vec<T, A>)
    requires within { to.1 ≤ vec_len cells }
    requires room { vec_len to.0 + (vec_len cells - to.1) ≤ vec_capacity to.0 }
    ensures cells { result.0.items ≡ take to.1 cells.items }
    ensures tail { result.1.items ≡ to.0.items ++ drop to.1 cells.items }
{
    let (mut into, at) = to;
    let start = into.len();
    for _ in at..cells.len() {
        into.push_reserved(cells.take_last());
    }
    into.as_mut_slice()[start..].reverse();
    (cells, into)
}

/// Moves the last `n` cells of a vector over those of a slice from place `start` on, which are dropped, and returns the
/// vector.
///
///     [1, 2, 3, 4]   move_last(1, [5, 6, 7], 2)   [1, 6, 7, 4], and [5]
///
/// Requires: the slice has the places, and the vector as many cells.
/// Cost: one move for each of these cells.
pub fn move_last<T: Drop, A: Allocator>(
    cells: &mut [T],
    start: usize,
    mut line: Vec<T, A>,
    n: usize,
) -> Vec<T, A>
    requires within { start + n ≤ length cells.old }
    requires enough { n ≤ vec_len line }
    ensures taken { BlockTaken start (vec_len line - n) n cells.old line.items cells.new }
    ensures rest { result.items ≡ take (vec_len line - n) line.items }
{
    // By value, as in `with_defaults`. Counted up: a loop over the places by `rev` takes twice as long on bytes.
    for moved in 0..n {
        cells[start + (n - 1 - moved)] = line.take_last();
    }
    line
}

// The vector with `count` default cells at its end, for which it has room. By value, so that its length stays in a
// register, and the loop becomes vector code.
#[tactic(auto, using(crate::proofs::AppendLemmas::fresh_none, crate::proofs::AppendLemmas::fresh_more))]
fn with_defaults<T: Default, A: Allocator>(mut cells: Vec<T, A>, count: usize) -> Vec<T, A>
    requires room { vec_len cells + count ≤ vec_capacity cells }
    ensures { AppendsEach T.is_default count cells.items result.items }
{
    for _ in 0..count {
        cells.push_reserved(T::default());
    }
    cells
}
