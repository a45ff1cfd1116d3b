//! The indices of the rows in sorted order: an argsort.
ghost use Rattle.std.specs.Prelude.{◌≡◌, Bool, List, IfOk, IsPermutation, IsSortedBy, map};
ghost use Rattle.grid_lines.specs.Prelude.{IsStrictWeakOrder, range_with_len, IsStableBy, IsSortedByKey, IsStableByKey, row, row_count, ComparesLinesAs, GivesLineKey};

use grid::{Grid, GridLineIter};
use std::alloc::{AllocError, Allocator};
use std::cmp::Ordering;

// Returns the indices of the rows, from 0 on.
pub(crate) fn row_indices<T, A: Allocator + Clone>(
    grid: &Grid<T, A>,
) -> Result<Vec<usize, A>, AllocError>
    ensures { IfOk result (λ indices.
        indices.items ≡ range_with_len 0 (row_count grid.now.rows)) }
{
    (0..grid.rows()).collect(grid.allocator().clone()?)
}

// Returns an iterator over row `r`, and over no cells where there is no such row.
fn line<T, A: Allocator>(grid: &Grid<T, A>, r: usize) -> GridLineIter<'_, T>
    ensures { result ≡ row grid.now.rows r }
{
    if r < grid.rows() {
        grid.iter_row(r)
    } else {
        GridLineIter::none(&[])
    }
}

// Returns the indices of the rows, stably sorted by what `compare` returns for the rows.
pub(crate) fn sorted_indices_by<T, A: Allocator + Clone, F>(
    grid: &Grid<T, A>,
    mut compare: F,
) -> Result<Vec<usize, A>, AllocError>
where
    F: FnMut(GridLineIter<'_, T>, GridLineIter<'_, T>) -> Ordering,
    requires { F.IsAlwaysCallable compare }
    ensures permutation { IfOk result (λ indices.
        IsPermutation (range_with_len 0 (row_count grid.now.rows)) indices.items) }
    ensures ordered { IfOk result (λ indices. (lt : List T → List T → Bool)
        → IsStrictWeakOrder lt → ComparesLinesAs F.FnMut lt compare
        → IsSortedBy lt (map (row grid.now.rows) indices.items)
        × IsStableBy lt grid.now.rows (map (row grid.now.rows) indices.items)) }
{
    let mut indices = row_indices(grid)?;
    indices.sort_by(
        |a: &usize, b: &usize| -> Ordering
            requires { F.IsAlwaysCallable compare }
            ensures { F.step compare.entry (row grid.entry.now.rows a.now)
                (row grid.entry.now.rows b.now) result compare.exit }
        { compare(line(grid, *a), line(grid, *b)) },
    )?;
    Ok(indices)
}

// Returns the indices of the rows, stably sorted by the keys that `key` returns for the rows; it is called once for
// each.
pub(crate) fn sorted_indices_by_key<T, K: Ord + Drop, A: Allocator + Clone, F>(
    grid: &Grid<T, A>,
    mut key: F,
) -> Result<Vec<usize, A>, AllocError>
where
    F: FnMut(GridLineIter<'_, T>) -> K,
    requires { F.IsAlwaysCallable key }
    ensures permutation { IfOk result (λ indices.
        IsPermutation (range_with_len 0 (row_count grid.now.rows)) indices.items) }
    ensures ordered { IfOk result (λ indices. (given : List T → K)
        → GivesLineKey F.FnMut given key
        → IsSortedByKey given K.cmp (map (row grid.now.rows) indices.items)
        × IsStableByKey given K.cmp grid.now.rows (map (row grid.now.rows) indices.items)) }
{
    let mut indices = row_indices(grid)?;
    indices.sort_by_cached_key(
        |a: &usize| -> K
            requires { F.IsAlwaysCallable key }
            ensures { F.step key.entry (row grid.entry.now.rows a.now) result key.exit }
        { key(line(grid, *a)) },
    )?;
    Ok(indices)
}
