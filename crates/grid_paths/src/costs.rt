//! The least sum of costs to each cell, by Dijkstra's search.
ghost use Rattle.std.specs.Prelude.{◌≡◌, ◌<◌, ◌≤◌, ◌+◌, ◌^◌, ◌↔◌, ℕ, IfOk, IsTrue, MatchOption, OnOk, Some};
ghost use Rattle.grid_paths.specs.Kept.{settled_of};
ghost use Rattle.grid_paths.specs.Prelude.{InRange, cell, HoldsOfAnswers, IsStep, HaveOneSize, Holds, HasLeastCosts, sums_of, Puts, Pops, IsEmptied, IsFrontier, Enters, IsReady, IsNext, IsOver, IsSearching, HasRoom, narrow, limit_of, side_of};

use super::answers::{all_sums, answers_of, no_sums};
use super::around::{Visit, visit_around};
use super::width::Width;
use grid::Grid;
use grid_near::Connectivity;
use std::alloc::{AllocError, Allocator};
use std::cmp::Reverse;
use std::collections::BinaryHeap;

// How many positions a heap has room for from the start. It weighs the memory that a short search takes too, 16 KB in
// 64 bits, against how often the heap of a long one grows.
const HEAP_ROOM: usize = 1024;

// Below so many cells, 2^32 - 1, 64-bit sums can't overflow: a cheapest path enters each cell at most once, and each
// costs less than 2^32.
const NARROW_BELOW: usize = 4294967295;

// A settled position: its sum is the least; and what it costs to enter it.
#[derive(Clone, Copy)]
pub(crate) struct Settled {
    pub(crate) at: (usize, usize),
    pub(crate) cost: u32,
    pub(crate) sum: u128,
}

// A settled position as a path keeps it, in integers of one width.
#[derive(Clone, Copy)]
pub(crate) struct Kept<N: Width> {
    sum: N,
    place: N,
    cost: u32,
}

impl<N: Width> Kept<N> {
    // The settled position.
    #[inline(always)]
    pub(crate) fn settled(self) -> Settled
        ensures { result ≡ settled_of N.reads self }
    {
        Settled {
            at: self.place.position(),
            cost: self.cost,
            sum: self.sum.value(),
        }
    }
}

// The state of the search.
#[derive(Drop)]
pub(crate) struct Frontier<N: Width, A: Allocator> {
    // The costs of the positions that aren't settled yet.
    left: Grid<Option<u32>, A>,
    // The least sums that were found.
    sums: Grid<N, A>,
    // The positions that wait, keyed by their sums.
    heap: BinaryHeap<Reverse<(N, N)>, A>,
}

impl<N: Width, A: Allocator> Frontier<N, A> {
    // What it costs to enter a position, if it is left.
    #[inline(always)]
    fn cost_of(&self, at: (usize, usize)) -> Option<u32>
        ensures { (k : ℕ) → (result ≡ Some k) ↔ Holds self.now.left.rows at k }
    {
        match self.left.get(at.0, at.1) {
            Some(cost) => *cost,
            None => None,
        }
    }

    // The least sum that was found to a position.
    #[inline(always)]
    fn number_at(&self, at: (usize, usize)) -> Option<u128>
        requires { InRange self.now.sums.rows at.0 at.1 }
        ensures { cell (sums_of N.reads self.now) at.0 at.1 ≡ Some result }
    {
        self.sums[at].sum()
    }

    // Whether a sum is less than the one at a position, or there is none.
    #[inline(always)]
    fn is_less(&self, at: (usize, usize), sum: u128) -> bool
        requires { InRange self.now.sums.rows at.0 at.1 }
        ensures { IsTrue result ↔ ((m : ℕ) → Holds (sums_of N.reads self.now) at m → sum < m) }
    {
        match self.number_at(at) {
            Some(old) => sum < old,
            None => true,
        }
    }

    // Gives a position this sum, and puts it into the heap.
    #[inline(always)]
    fn put(&mut self, at: (usize, usize), sum: u128) -> Result<(), AllocError>
        requires inside { InRange self.old.sums.rows at.0 at.1 }
        requires row { at.0 < side_of N.reads }
        requires col { at.1 < side_of N.reads }
        requires small { sum < limit_of N.reads }
        ensures { OnOk result (Puts N.cmp N.reads at sum self.old self.new) }
    {
        let number = N::of_sum(sum);
        self.sums[at] = number;
        self.heap.push(Reverse((number, N::of_position(at))))?;
        Ok(())
    }

    // Pops the least sum off the heap, with its position.
    #[inline(always)]
    fn pop(&mut self) -> Option<(u128, (usize, usize))>
        ensures { MatchOption result (IsEmptied N.reads self.old self.new)
            (λ first. Pops N.cmp N.reads first self.old self.new) }
    {
        match self.heap.pop() {
            Some(first) => {
                let Reverse((number, place)) = first;
                Some((number.value(), place.position()))
            }
            None => None,
        }
    }

    // A settled position as it is kept.
    #[inline(always)]
    pub(crate) fn keep(&self, here: Settled) -> Kept<N>
        requires { IsReady N.cmp N.reads self.now here }
        ensures { settled_of N.reads result ≡ here }
    {
        Kept {
            sum: N::of_sum(here.sum),
            place: N::of_position(here.at),
            cost: here.cost,
        }
    }

    // Enters the positions that a step from a settled one leads to.
    pub(crate) fn relax_around(
        &mut self,
        connectivity: Connectivity,
        from: Settled,
    ) -> Result<(), AllocError>
        requires { IsReady N.cmp N.reads self.old from }
        ensures { OnOk result (Enters N.cmp N.reads (IsStep connectivity from.at) from.sum self.old
            self.new) }
    {
        visit_around(self, connectivity, from.at, from.sum)
    }

    // Settles the position with the least sum of those in the heap that aren't settled. A position may be in the heap
    // several times: it is settled when it first comes out, with its least sum.
    pub(crate) fn next(&mut self) -> Option<Settled>
        requires { IsFrontier N.cmp N.reads self.old }
        ensures { MatchOption result (IsOver N.reads self.old self.new)
            (λ here. IsNext N.cmp N.reads self.old self.new here) }
    {
        while let Some(first) = self.pop() {
            let (sum, at) = first;
            if let Some(cost) = self.cost_of(at) {
                self.left[at] = None;
                return Some(Settled { at, cost, sum });
            }
        }
        None
    }
}

impl<N: Width, A: Allocator> Visit<u128> for Frontier<N, A> {
    ghost can_visit = { λ sum f. (sum + 2 ^ 32 ≤ 2 ^ 128) × (sum + 2 ^ 32 ≤ limit_of N.reads)
        × IsFrontier N.cmp N.reads f };

    ghost visits = { λ sum at r f f'. OnOk r (Enters N.cmp N.reads (λ b. at ≡ b) sum f f') };

    // Enters a position, if it is left, from another of this sum: a lesser sum than before is written, and the
    // position goes into the heap with it.
    #[inline(always)]
    fn visit(&mut self, at: (usize, usize), sum: u128) -> Result<(), AllocError> {
        if let Some(cost) = self.cost_of(at) {
            let next = sum + cost as u128;
            if self.is_less(at, next) {
                self.put(at, next)?;
            }
        }
        Ok(())
    }

    ghost again = { λ sum at f f' can enters. (can.0, can.1, enters.whole) };
}

// The search at the start: the first position has the sum 0, and is in the heap, if it can be entered.
pub(crate) fn begun<N: Width, A: Allocator + Clone>(
    costs: Grid<Option<u32>, A>,
    from: (usize, usize),
) -> Result<Frontier<N, A>, AllocError>
    requires { HasRoom N.reads costs.rows }
    ensures left { IfOk result (λ search. search.left ≡ costs) }
    ensures search { IfOk result (λ search.
        (connectivity : Connectivity) → IsSearching N.cmp N.reads connectivity costs from search) }
{
    let sums = no_sums(&costs)?;
    let cells = costs.flatten().len();
    let heap = BinaryHeap::with_capacity(costs.allocator().clone()?, cells.min(HEAP_ROOM))?;
    let mut search = Frontier {
        left: costs,
        sums,
        heap,
    };
    if let Some(_) = search.cost_of(from) {
        search.put(from, 0)?;
    }
    Ok(search)
}

// Whether 64 bits suffice for a board: no sum of the costs of its cells overflows them.
pub(crate) fn is_small<A: Allocator>(costs: &Grid<Option<u32>, A>) -> bool
    ensures { IsTrue result → HasRoom narrow costs.now.rows }
{
    costs.flatten().len() < NARROW_BELOW
}

// The least sum of costs to each position, in integers of one width.
fn search_by<N: Width, A: Allocator + Clone>(
    connectivity: Connectivity,
    costs: Grid<Option<u32>, A>,
    from: (usize, usize),
) -> Result<Grid<Option<u128>, A>, AllocError>
    requires { HasRoom N.reads costs.rows }
    ensures order { IfOk result (λ sums. sums.order ≡ costs.order) }
    ensures size { IfOk result (λ sums. HaveOneSize sums.rows costs.rows) }
    ensures least { IfOk result (λ sums. HasLeastCosts connectivity costs.rows from sums.rows) }
{
    let mut search: Frontier<N, A> = begun(costs, from)?;
    while let Some(here) = search.next() {
        search.relax_around(connectivity, here)?;
    }
    all_sums(&search.sums)
}

// The least sum of costs to each position.
fn search<A: Allocator + Clone>(
    connectivity: Connectivity,
    costs: Grid<Option<u32>, A>,
    from: (usize, usize),
) -> Result<Grid<Option<u128>, A>, AllocError>
    ensures order { IfOk result (λ sums. sums.order ≡ costs.order) }
    ensures size { IfOk result (λ sums. HaveOneSize sums.rows costs.rows) }
    ensures least { IfOk result (λ sums. HasLeastCosts connectivity costs.rows from sums.rows) }
{
    if is_small(&costs) {
        search_by::<u64, A>(connectivity, costs, from)
    } else {
        search_by::<u128, A>(connectivity, costs, from)
    }
}

/// Returns, for each cell, the least sum of costs of a path from a position. `cost` says what it costs to enter a cell,
/// 0 too, or `None` for a cell that can't be entered. The first cell's own cost doesn't count, but it has to have one.
/// A cell gets `None` exactly where no path leads to it.
///
///     [[1, 9, 1], [1, 1, 1]]   cheapest((0, 0), Connectivity::Four, |x| Some(*x))
///         [[Some(0), Some(9), Some(4)], [Some(1), Some(2), Some(3)]]
///     [[1, 9, 1], [1, 1, 1]]   cheapest((0, 0), Connectivity::Eight, |x| Some(*x))
///         [[Some(0), Some(9), Some(2)], [Some(1), Some(1), Some(2)]]
///
/// Requires: the closure can be called at every cell.
/// Fails: if allocation fails.
/// Cost: one call for each cell; a number of steps for each cell that grows as the logarithm of the number of cells;
/// four allocations, and those of the heap where more than 1,024 positions wait, each at most once for each step to it.
/// The search takes 16 bytes for each cell, and 16 for each position that waits; from 2^32 - 1 cells on 24, and 32.
pub fn cheapest<T, A: Allocator + Clone, F: Fn(&T) -> Option<u32>>(
    grid: &Grid<T, A>,
    from: (usize, usize),
    connectivity: Connectivity,
    cost: F,
) -> Result<Grid<Option<u128>, A>, AllocError>
    requires { F.IsAlwaysCallable cost }
    ensures order { IfOk result (λ sums. sums.order ≡ grid.now.order) }
    ensures size { IfOk result (λ sums. HaveOneSize sums.rows grid.now.rows) }
    ensures least { IfOk result (λ sums. HoldsOfAnswers F.post cost grid.now.rows (λ costs.
        HasLeastCosts connectivity costs from sums.rows)) }
{
    let costs = answers_of(grid, cost)?;
    search(connectivity, costs, from)
}
