//! A region of equal cells, filled.
ghost use Rattle.std.specs.Prelude.{◌≡◌, ◌<◌, ◌≤◌, ◌+◌, ℕ, [], ◌∷◌, false, IfOk, OnOk, OnErr, None, Some, MatchOption, Contains};
ghost use Rattle.grid.specs.Prelude.{col_count, cell, InRange, SameSizeAndOrder};
ghost use Rattle.grid_paths.specs.Prelude.{IsOpen, IsFilled, alike, answers_by, IsFlood, way_of, places, undone, IsWritten};

use super::taken::{Cells, Taking};
use grid::Grid;
use grid_near::Connectivity;
use std::alloc::{AllocError, Allocator};

// The index at place `i` of the order `from`, `from - 1`, .., 0, `from + 1`, `from + 2`, ..
fn outward(from: usize, i: usize) -> usize
    ensures down { i ≤ from → result + i ≡ from }
    ensures up { from < i → result ≡ i }
{
    if i <= from { from - i } else { i }
}

// The first cell of a row that doesn't equal this one, from a column outward.
fn other_in_row<T: Copy + PartialEq, A: Allocator>(
    grid: &Grid<T, A>,
    first: T,
    row: usize,
    from: usize,
) -> Option<T>
    requires { InRange grid.now.rows row from }
    ensures { MatchOption result
        ((col : ℕ) → col < col_count grid.now.rows
        → IsOpen (alike T.eq first grid.now.rows) (row, col))
        (λ x. T.eq x first ≡ false) }
{
    for i in 0..grid.cols() {
        let cell = grid[(row, outward(from, i))];
        if !(cell == first) {
            return Some(cell);
        }
    }
    None
}

// A cell of the board that doesn't equal the one at a position. All that are looked at before it are connected with the
// position, so it is found in no more steps than there are cells in the region.
fn other_than<T: Copy + PartialEq, A: Allocator>(
    grid: &Grid<T, A>,
    at: (usize, usize),
    first: T,
) -> Option<T>
    requires { InRange grid.now.rows at.0 at.1 }
    ensures { MatchOption result
        ((a : ℕ × ℕ) → InRange grid.now.rows a.0 a.1 → IsOpen (alike T.eq first grid.now.rows) a)
        (λ x. T.eq x first ≡ false) }
{
    for i in 0..grid.rows() {
        if let Some(other) = other_in_row(grid, first, outward(at.0, i), at.1) {
            return Some(other);
        }
    }
    None
}

// Puts the cells back where they were taken, the last first.
fn put_back<T: Copy + Drop, A: Allocator>(
    grid: &mut Grid<T, A>,
    mut taken: Vec<((usize, usize), T), A>,
)
    ensures same { SameSizeAndOrder grid.old grid.new }
    ensures rows { grid.new.rows ≡ undone taken.items grid.old.rows }
{
    while let Some(x) = taken.pop() {
        grid.set(x.0.0, x.0.1, x.1);
    }
}

// Replaces the cells that were taken.
fn fill_all<T: Copy + Drop, A: Allocator>(
    grid: &mut Grid<T, A>,
    taken: &[((usize, usize), T)],
    value: T,
)
    requires { (a : ℕ × ℕ) → Contains (places taken.now) a → InRange grid.old.rows a.0 a.1 }
    ensures same { SameSizeAndOrder grid.old grid.new }
    ensures written { IsWritten value (λ a. Contains (places taken.now) a)
        grid.old.rows grid.new.rows }
{
    for x in taken {
        grid[x.0] = value;
    }
}

// Writes a mark, which doesn't equal the first cell of a region, to all its cells, and returns these.
fn mark_region<T: Copy + PartialEq + Drop, A: Allocator + Clone>(
    grid: &mut Grid<T, A>,
    at: (usize, usize),
    connectivity: Connectivity,
    first: T,
    mark: T,
) -> Result<Vec<((usize, usize), T), A>, AllocError>
    requires { T.eq mark first ≡ false }
    ensures same { SameSizeAndOrder grid.old grid.new }
    ensures flood { IfOk result (λ taken. IsFlood connectivity
        (answers_by (way_of T.eq first None) grid.old.rows) (at ∷ []) (places taken.items)) }
    ensures written { IfOk result (λ taken. IsWritten mark (λ a. Contains (places taken.items) a)
        grid.old.rows grid.new.rows) }
    ensures err { OnErr result (grid.new ≡ grid.old) }
{
    let cells = Cells {
        on: first,
        stop: None,
        mark,
    };
    let taken = Vec::new(grid.allocator().clone()?);
    let mut search = Taking { grid, taken };
    let outcome = search.take_region(connectivity, &[at], cells);
    let Taking { grid, taken } = search;
    match outcome {
        Ok(()) => Ok(taken),
        Err(refused) => {
            put_back(grid, taken);
            Err(refused)
        }
    }
}

/// Replaces the cell at a position, and those that a walk over cells equal to it leads to, by a value. The other cells
/// stay; out of range nothing changes.
///
///     [[1, 1, 2], [2, 1, 1]]   fill_region((0, 0), Connectivity::Four, 7)   [[7, 7, 2], [2, 7, 7]]
///
/// Fails: if allocation fails; the grid is unchanged.
/// Cost: at most seven comparisons, or eleven by `Connectivity::Eight`, and a constant number of steps for each cell of
/// the region; memory for these cells and their positions, unless they are the whole board. The rest of the board costs
/// nothing.
pub fn fill_region<T: Copy + PartialEq + Drop, A: Allocator + Clone>(
    grid: &mut Grid<T, A>,
    at: (usize, usize),
    connectivity: Connectivity,
    value: T,
) -> Result<(), AllocError>
    ensures same { SameSizeAndOrder grid.old grid.new }
    ensures filled { OnOk result ((x : T) → cell grid.old.rows at.0 at.1 ≡ Some x
        → IsFilled connectivity (alike T.eq x grid.old.rows) at value grid.old.rows grid.new.rows) }
    ensures outside { (InRange grid.old.rows at.0 at.1 → ⊥) → grid.new ≡ grid.old }
    ensures err { OnErr result (grid.new ≡ grid.old) }
{
    let first = match grid.get(at.0, at.1) {
        Some(first) => *first,
        None => return Ok(()),
    };
    match other_than(grid, at, first) {
        // the region is the board
        None => grid.update(|_, _| value),
        // the value can't mark the cells that it equals
        Some(other) if value == first => {
            let taken = mark_region(grid, at, connectivity, first, other)?;
            fill_all(grid, &taken, value);
        }
        Some(_) => {
            let _taken = mark_region(grid, at, connectivity, first, value)?;
        }
    }
    Ok(())
}
