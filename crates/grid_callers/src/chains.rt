//! Callers of the library, whose contracts say what they return by the rows of a grid or by the list of its cells:
//! chains over a row or a column, calls on all cells, symmetries and commands on texts, and grids that are written out.
//!
//! A row `r` or a column `c` is required to be in range.
ghost use Rattle.std.specs.Prelude.{ℕ, ◌≡◌, ◌^◌, ◌<◌, ◌≤◌, ◌==◌, ◌↔◌, IsTrue, IfOk, MatchOption, Any, All, length, map, reverse, sum, count_by, filter, ◌*◌, [], ◌∷◌, ◌-◌, slice_get};
ghost use Rattle.grid.specs.Prelude.{row, row_count, col_count, transposed, storage, act};
ghost use Rattle.std.specs.List.{range_with_len};
ghost use Rattle.grid_base.specs.Strides.{EachLineInOrder, LinesInOrder};
ghost use Rattle.grid_base.specs.declared.order.Order.TheVariants.{RowMajor, ColumnMajor};

use grid::{Command, Grid, GridColIter, GridError, GridLineIter, Symmetry, Tally, grid, grid_cm};
use grid_base::laws as symmetry_laws;
use std::alloc::{AllocError, Allocator, Global};

/// Returns how many cells of row `r` are `x`, whether all of them are, and whether a cell of column `c` is.
pub fn found_in_lines<A: Allocator>(
    grid: &Grid<u32, A>,
    r: usize,
    c: usize,
    x: u32,
) -> (usize, bool, bool)
    requires row { r < row_count grid.now.rows }
    requires col { c < col_count grid.now.rows }
    ensures count { result.0 ≡ count_by (λ y. y == x) (row grid.now.rows r) }
    ensures all { IsTrue result.1 ↔ All (λ y. y ≡ x) (row grid.now.rows r) }
    ensures any { IsTrue result.2 ↔ Any (λ y. y ≡ x) (row (transposed grid.now.rows) c) }
{
    let is_x = |y: &u32| *y == x;
    (
        grid.iter_row(r).copied().filter(is_x).count(),
        grid.iter_row(r).all(is_x),
        grid.iter_col(c).any(is_x),
    )
}

/// Returns the sum of row `r`.
///
/// Requires: the sum fits a `u32`.
pub fn row_sum<A: Allocator>(grid: &Grid<u32, A>, r: usize) -> u32
    requires in_range { r < row_count grid.now.rows }
    requires fits { sum (row grid.now.rows r) < 2 ^ 32 }
    ensures { result ≡ sum (row grid.now.rows r) }
{
    grid.iter_row(r).sum()
}

/// Returns the cells of column `c`.
pub fn column<T: Copy, A: Allocator>(
    alloc: Global,
    grid: &Grid<T, A>,
    c: usize,
) -> Result<Vec<T>, AllocError>
    requires { c < col_count grid.now.rows }
    ensures { IfOk result (λ cells. cells.items ≡ row (transposed grid.now.rows) c) }
{
    grid.iter_col(c).copied().collect(alloc)
}

/// Returns the cells of column `c`, last first.
pub fn column_reversed<T: Copy, A: Allocator>(
    alloc: Global,
    grid: &Grid<T, A>,
    c: usize,
) -> Result<Vec<T>, AllocError>
    requires { c < col_count grid.now.rows }
    ensures { IfOk result (λ cells. cells.items ≡ reverse (row (transposed grid.now.rows) c)) }
{
    grid.iter_col(c).rev().copied().collect(alloc)
}

/// Returns the largest cell of row `r`.
pub fn row_max<A: Allocator>(grid: &Grid<u32, A>, r: usize) -> Option<u32>
    requires { r < row_count grid.now.rows }
    ensures { MatchOption result (row grid.now.rows r ≡ []) (λ most.
        All (λ y. y ≤ most) (row grid.now.rows r) × Any (λ y. y ≡ most) (row grid.now.rows r)) }
{
    grid.iter_row(r).copied().max()
}

/// Returns the last cell of row `r`, if there is one.
pub fn last_in_row<A: Allocator>(grid: &Grid<u32, A>, r: usize) -> Option<u32>
    requires { r < row_count grid.now.rows }
    ensures { result ≡ slice_get (row grid.now.rows r) (length (row grid.now.rows r) - 1) }
{
    grid.iter_row(r).next_back().copied()
}

/// Returns cell `k` of column `c`, if there is one.
pub fn cell_of_column<A: Allocator>(grid: &Grid<u32, A>, c: usize, k: usize) -> Option<u32>
    requires { c < col_count grid.now.rows }
    ensures { result ≡ slice_get (row (transposed grid.now.rows) c) k }
{
    grid.iter_col(c).nth(k).copied()
}

// Returns, for each of these columns, how many of its cells are `x`.
fn counts_in(alloc: Global, columns: GridColIter<'_, u32>, x: u32) -> Result<Vec<usize>, AllocError>
    requires each { EachLineInOrder ℕ }
    requires along { LinesInOrder ℕ }
    ensures { IfOk result (λ counts.
        counts.items ≡ map (λ line. count_by (λ y. y == x) line) columns.entry) }
{
    columns
        .map(
            |line: GridLineIter<'_, u32>| -> usize
                ensures { result ≡ count_by (λ y. y == x) line.entry }
            { line.filter(|y| **y == x).count() },
        )
        .collect(alloc)
}

/// Returns, for each column, how many of its cells are `x`.
pub fn count_in_columns<A: Allocator>(
    alloc: Global,
    grid: &Grid<u32, A>,
    x: u32,
) -> Result<Vec<usize>, AllocError>
    ensures { IfOk result (λ counts.
        counts.items ≡ map (λ line. count_by (λ y. y == x) line) (transposed grid.now.rows)) }
{
    counts_in(alloc, grid.iter_cols(), x)
}

/// Returns the number of rows.
pub fn count_rows<A: Allocator>(grid: &Grid<u32, A>) -> usize
    ensures { result ≡ length grid.now.rows }
{
    grid.iter_rows().count()
}

// Returns what a number lacks to ten. It can't be called at a larger one.
fn lack(y: u32) -> u32
    requires { y ≤ 10 }
    ensures { result ≡ 10 - y }
{
    10 - y
}

/// Returns what each cell lacks to ten.
///
/// Requires: every cell is at most ten.
#[tactic(auto, using(grid_base::proofs::ClosureLemmas::answers_pure))]
pub fn lacking<A: Allocator + Clone>(grid: Grid<u32, A>) -> Result<Grid<u32, A>, AllocError>
    requires { All (λ y. y ≤ 10) (storage grid.order grid.rows) }
    ensures order { IfOk result (λ lacking. lacking.order ≡ grid.order) }
    ensures rows { IfOk result (λ lacking. row_count lacking.rows ≡ row_count grid.rows) }
    ensures cols { IfOk result (λ lacking. col_count lacking.rows ≡ col_count grid.rows) }
    ensures cells { IfOk result (λ lacking.
        storage lacking.order lacking.rows ≡ map (λ y. 10 - y) (storage grid.order grid.rows)) }
{
    match grid.map(lack) {
        Ok(lacking) => Ok(lacking),
        Err(_) => Err(AllocError),
    }
}

/// Same as [`lacking`], of a grid that stays.
#[tactic(auto, using(grid_base::proofs::ClosureLemmas::pairs_pure))]
pub fn lacking_in<A: Allocator + Clone>(grid: &Grid<u32, A>) -> Result<Grid<u32, A>, AllocError>
    requires { All (λ y. y ≤ 10) (storage grid.now.order grid.now.rows) }
    ensures order { IfOk result (λ lacking. lacking.order ≡ grid.now.order) }
    ensures rows { IfOk result (λ lacking. row_count lacking.rows ≡ row_count grid.now.rows) }
    ensures cols { IfOk result (λ lacking. col_count lacking.rows ≡ col_count grid.now.rows) }
    ensures cells { IfOk result (λ lacking. storage lacking.order lacking.rows
        ≡ map (λ y. 10 - y) (storage grid.now.order grid.now.rows)) }
{
    let lacking = grid.map_ref(|y| 10 - *y)?;
    Ok(lacking)
}

/// Numbers the cells in storage order, from 1 on. The closure can't be called more than 255 times.
///
/// Requires: there are at most 255 cells.
pub fn number_cells<A: Allocator>(grid: &mut Grid<u8, A>)
    requires { length (storage grid.old.order grid.old.rows) < 2 ^ 8 }
    ensures order { grid.new.order ≡ grid.old.order }
    ensures rows { row_count grid.new.rows ≡ row_count grid.old.rows }
    ensures cols { col_count grid.new.rows ≡ col_count grid.old.rows }
    ensures cells { storage grid.new.order grid.new.rows
        ≡ range_with_len 1 (row_count grid.old.rows * col_count grid.old.rows) }
{
    let mut count = 0u8;
    grid.fill_with(
        ||
            requires { count < 255 }
        {
            count += 1;
            count
        },
    );
}

/// Applies two symmetries joined into one. The clones of texts aren't known to equal them.
pub fn apply_to_texts<A: Allocator>(grid: &mut Grid<String, A>, first: Symmetry, second: Symmetry)
    ensures { grid.new.rows ≡ act second (act first grid.old.rows) }
{
    let _ = symmetry_laws::then_acts::<String>(first, second);
    grid.apply(first.then(second));
}

/// Applies a symmetry to texts, and then its inverse.
pub fn turn_texts_back<A: Allocator>(grid: &mut Grid<String, A>, symmetry: Symmetry)
    ensures { grid.new ≡ grid.old }
{
    grid_laws::apply_then_inverse(grid, symmetry);
}

/// Runs one symmetry as a command on texts.
pub fn run_on_texts<A: Allocator + Clone>(
    grid: &mut Grid<Option<String>, A>,
    symmetry: Symmetry,
    tally: &mut Tally,
)
    ensures { grid.new.rows ≡ act symmetry grid.old.rows }
{
    let _ = grid.step(Command::Apply(symmetry), tally);
}

/// Returns two rows that are written out, row-major.
pub fn written_by_rows(alloc: Global) -> Result<Grid<u32>, GridError>
    ensures rows { IfOk result (λ g. g.rows ≡ (1 ∷ 2 ∷ 3 ∷ []) ∷ (4 ∷ 5 ∷ 6 ∷ []) ∷ []) }
    ensures order { IfOk result (λ g. g.order ≡ RowMajor) }
{
    grid!(alloc; [1, 2, 3] [4, 5, 6])
}

/// Returns the same rows, column-major.
pub fn written_by_columns(alloc: Global) -> Result<Grid<u32>, GridError>
    ensures rows { IfOk result (λ g. g.rows ≡ (1 ∷ 2 ∷ 3 ∷ []) ∷ (4 ∷ 5 ∷ 6 ∷ []) ∷ []) }
    ensures order { IfOk result (λ g. g.order ≡ ColumnMajor) }
{
    grid_cm!(alloc; [1, 2, 3] [4, 5, 6])
}
