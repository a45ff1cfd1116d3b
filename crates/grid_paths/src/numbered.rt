//! The regions of equal cells, labeled: connected components.
ghost use Rattle.std.specs.Prelude.{◌≡◌, ◌<◌, ◌≤◌, ◌+◌, ◌↔◌, ℕ, IfOk, OnOk, IsTrue, None, Some, option_map, unwrap_or};
ghost use Rattle.std.proofs.Common.{◌∙◌};
ghost use Rattle.grid.specs.Prelude.{SameSizeAndOrder};
ghost use Rattle.grid_paths.specs.Prelude.{IsEquivalence, row_count, col_count, cell, tabulate, InRange, IsOpen, HaveOneSize, IsMarked, unreached, AreRegions, AreNumbers, IsNumbered, IsScanned, IsCounting, Numbers, mask_of};

use super::around::{Visit, visit_around};
use super::bfs::{Bfs, new_bfs};
use grid::Grid;
use grid_near::Connectivity;
use std::alloc::{AllocError, Allocator};

// A region: the cells of a board that equal one, their connectivity, and the label that they get.
#[derive(Drop)]
struct Region<'a, T, A: Allocator> {
    connectivity: Connectivity,
    grid: &'a Grid<T, A>,
    first: &'a T,
    number: usize,
}

impl<T: PartialEq, A: Allocator> Region<'_, T, A> {
    // Whether there is a cell at a position that equals the region's.
    fn has(&self, at: (usize, usize)) -> bool
        ensures equal { IsTrue result ↔ IsOpen (mask_of T.eq self.now) at }
        ensures inside { IsTrue result → InRange self.now.grid.now.rows at.0 at.1 }
    {
        match self.grid.get(at.0, at.1) {
            Some(cell) => *cell == *self.first,
            None => false,
        }
    }

    // Labels the region of a position, which has no label yet. The queue is that of this region alone.
    fn number_region(&self, at: (usize, usize), bfs: &mut Bfs<A>) -> Result<(), AllocError>
        requires size { HaveOneSize bfs.old.numbers.rows self.now.grid.now.rows }
        requires at { cell bfs.old.numbers.rows at.0 at.1 ≡ Some None }
        requires below { (a : ℕ × ℕ) (m : ℕ) → IsMarked bfs.old.numbers.rows a m
            → m < self.now.number }
        ensures same { OnOk result (SameSizeAndOrder bfs.old.numbers bfs.new.numbers) }
        ensures numbered { OnOk result (IsNumbered self.now.connectivity (mask_of T.eq self.now) at
            self.now.number bfs.old.numbers.rows bfs.new.numbers.rows) }
        ensures fewer { OnOk result (unreached bfs.new.numbers.rows + 1
            ≤ unreached bfs.old.numbers.rows) }
    {
        let mut next = 0;
        bfs.queue.clear();
        bfs.mark(at, self.number)?;
        while next < bfs.queue.len() {
            let from = bfs.queue[next];
            visit_around(bfs, self.connectivity, from, self)?;
            next += 1;
        }
        Ok(())
    }
}

impl<T: PartialEq, A: Allocator> Visit<&Region<'_, T, A>> for Bfs<A> {
    ghost can_visit = { λ region s. HaveOneSize s.numbers.rows region.now.grid.now.rows };

    ghost visits = { λ region at r s s'. OnOk r (Numbers T.eq (λ b. at ≡ b) region.now s s') };

    // Labels a position, if its cell is in the region and has no label yet.
    fn visit(&mut self, at: (usize, usize), region: &Region<'_, T, A>) -> Result<(), AllocError> {
        if region.has(at) {
            if let None = self.numbers[at] {
                self.mark(at, region.number)?;
            }
        }
        Ok(())
    }

    ghost again = { λ region at s s' can did. record {
      rows = did.same.rows ∙ can.rows;
      cols = did.same.cols ∙ can.cols;
    } };
}

// Gives the next label to the region of a position, if it has none yet, and returns the next label then.
fn number_cell<T: PartialEq, A: Allocator>(
    connectivity: Connectivity,
    grid: &Grid<T, A>,
    at: (usize, usize),
    count: usize,
    bfs: &mut Bfs<A>,
) -> Result<usize, AllocError>
    requires at { InRange grid.now.rows at.0 at.1 }
    requires counting { IsCounting connectivity T.eq grid.now bfs.old count at }
    ensures { IfOk result (λ n. IsCounting connectivity T.eq grid.now bfs.new n (at.0, at.1 + 1)) }
{
    match bfs.numbers[at] {
        Some(_) => Ok(count),
        None => {
            let region = Region {
                connectivity,
                grid,
                first: &grid[at],
                number: count,
            };
            region.number_region(at, bfs)?;
            Ok(count + 1)
        }
    }
}

// The labels of all regions, and how many there are.
fn number_all<T: PartialEq, A: Allocator + Clone>(
    connectivity: Connectivity,
    grid: &Grid<T, A>,
) -> Result<(Grid<Option<usize>, A>, usize), AllocError>
    ensures order { IfOk result (λ found. found.0.order ≡ grid.now.order) }
    ensures size { IfOk result (λ found. HaveOneSize found.0.rows grid.now.rows) }
    ensures scanned { IfOk result (λ found. IsScanned connectivity T.eq grid.now.rows
        found.0.rows found.1 (row_count grid.now.rows, 0)) }
{
    let mut bfs = new_bfs(grid)?;
    let mut count = 0;
    for row in 0..grid.rows() {
        for col in 0..grid.cols() {
            count = number_cell(connectivity, grid, (row, col), count, &mut bfs)?;
        }
    }
    Ok((bfs.numbers, count))
}

// The labels alone, where all cells have one.
fn all_numbers<A: Allocator + Clone>(
    numbers: &Grid<Option<usize>, A>,
) -> Result<Grid<usize, A>, AllocError>
    ensures order { IfOk result (λ plain. plain.order ≡ numbers.now.order) }
    ensures size { IfOk result (λ plain. HaveOneSize plain.rows numbers.now.rows) }
    ensures cells { IfOk result (λ plain. plain.rows
        ≡ tabulate (row_count numbers.now.rows) (col_count numbers.now.rows)
        (λ r c. option_map (λ number. unwrap_or number 0) (cell numbers.now.rows r c))) }
{
    numbers.map_indexed(|_, number| number.unwrap_or(0))
}

/// Returns the label of each cell's region, and how many regions there are. Regions are connected components: two cells
/// have one label exactly if a walk over cells equal to the first joins them. The labels are the numbers below the
/// count, in the order of the regions' first cells, row by row, whatever the storage order.
///
///     [[7, 7, 8], [8, 7, 7]]   regions(Connectivity::Four)    ([[0, 0, 1], [2, 0, 0]], 3)
///     [[7, 8], [8, 7]]         regions(Connectivity::Eight)   ([[0, 1], [1, 0]], 2)
///
/// That the labels are the regions is said where `==` is an equivalence, as at integers (not at floats, where `NaN` is
/// unequal to itself).
///
/// Fails: if allocation fails.
/// Cost: at most four comparisons, or eight by `Connectivity::Eight`, and a constant number of steps for each cell;
/// three allocations, and those of the queue where a region has more than 4,096 cells.
pub fn regions<T: PartialEq, A: Allocator + Clone>(
    grid: &Grid<T, A>,
    connectivity: Connectivity,
) -> Result<(Grid<usize, A>, usize), AllocError>
    ensures order { IfOk result (λ found. found.0.order ≡ grid.now.order) }
    ensures size { IfOk result (λ found. HaveOneSize found.0.rows grid.now.rows) }
    ensures numbers { IfOk result (λ found. AreNumbers found.0.rows found.1) }
    ensures regions { IfOk result (λ found.
        IsEquivalence T.eq → AreRegions connectivity T.eq grid.now.rows found.0.rows) }
{
    let (numbers, count) = number_all(connectivity, grid)?;
    let plain = all_numbers(&numbers)?;
    Ok((plain, count))
}
