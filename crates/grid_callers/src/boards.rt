//! Callers of `grid`.
ghost use Rattle.std.specs.Prelude.{◌≡◌, ◌↔◌, IsTrue, IsSome, IfSome, IfOk, IfErr, OnOk, OnErr, insert, length, nat_lt, option_map, remove, slice_get};
ghost use Rattle.grid.specs.Prelude.{row_count, col_count, exchanged, InRange, storage, CanCut, lines, push, insert_at, command_refusal, step_rows};
ghost use Rattle.grid_commands.specs.declared.command.Axis.TheVariants.{Row};

use grid::{Command, Grid, Order, Refusal, Reply, Tally, can_cut};
use grid_commands::line_refusal;
use std::alloc::{AllocError, Allocator};

/// Returns the grid of these cells, cut into rows of `cols`, or `None` where they can't be cut so.
///
///     cut([1, 2, 3, 4, 5, 6], 3)   Some([[1, 2, 3], [4, 5, 6]])      cut([1, 2, 3, 4, 5, 6], 4)   None
pub fn cut<T: Drop, A: Allocator>(cells: Vec<T, A>, cols: usize) -> Option<Grid<T, A>>
    ensures some { IsSome result ↔ CanCut (length cells.items) cols }
    ensures cells { IfSome result (λ grid. storage Order.RowMajor grid.rows ≡ cells.items) }
{
    if can_cut(cells.len(), cols) {
        Some(Grid::from_vec(cells, cols))
    } else {
        None
    }
}

/// Exchanges two cells, and returns whether both are in range; where not, the grid is unchanged.
pub fn exchange<T, A: Allocator>(
    grid: &mut Grid<T, A>,
    a: (usize, usize),
    b: (usize, usize),
) -> bool
    ensures there { IsTrue result
        ↔ (InRange grid.old.rows a.0 a.1 × InRange grid.old.rows b.0 b.1) }
    ensures rows { IsTrue result → grid.new.rows ≡ exchanged grid.old.rows a b }
{
    let (rows, cols) = grid.size();
    if a.0 < rows && a.1 < cols && b.0 < rows && b.1 < cols {
        grid.swap(a, b);
        true
    } else {
        false
    }
}

/// Adds a row at the end. The line comes back where it has no cells, where it doesn't fit, and if allocation fails; the
/// grid is unchanged then.
pub fn push<T: Drop, A: Allocator>(grid: &mut Grid<T, A>, line: Vec<T, A>) -> Result<(), Vec<T, A>>
    ensures rows { OnOk result
        (grid.new.rows ≡ insert grid.old.rows (row_count grid.old.rows) line.items) }
    ensures err { OnErr result (grid.new ≡ grid.old) }
    ensures back { IfErr result (λ back. back.items ≡ line.items) }
{
    if line.is_empty() || !grid.fits_row(line.len()) {
        return Err(line);
    }
    match grid.push_row(line) {
        Ok(()) => Ok(()),
        Err(refused) => Err(refused.line),
    }
}

/// Removes the first row and returns it, or `None` where there is no row.
///
/// Fails: if the allocation of the line fails; the grid is unchanged.
pub fn take_first<T, A: Allocator + Clone>(
    grid: &mut Grid<T, A>,
) -> Result<Option<Vec<T, A>>, AllocError>
    ensures rows { OnOk result (grid.new.rows ≡ remove grid.old.rows 0) }
    ensures err { OnErr result (grid.new ≡ grid.old) }
{
    grid.remove_row(0)
}

/// Adds a row at the end by a command, and returns why it was refused, or `None` where it was done.
///
/// Fails: if allocation fails; the grid is unchanged.
pub fn push_by_command<T, A>(
    grid: &mut Grid<T, A>,
    line: Vec<T, A>,
    tally: &mut Tally,
) -> Result<Option<Refusal>, AllocError>
where
    T: Clone + Default + Drop,
    A: Allocator + Clone,
    ensures rows { OnOk result ((d : T)
        → grid.new.rows ≡ step_rows d (lines Row (push line.items)) grid.old.rows) }
    ensures err { OnErr result (grid.new ≡ grid.old) }
{
    match grid.step(Command::PushRow(line), tally)? {
        Reply::Refused(refusal) => Ok(Some(refusal)),
        _ => Ok(None),
    }
}

/// Takes out a row by a command, and returns it, or `None` where there is no such row. Its cells are moved, so it is
/// known of cells of any type.
///
///     [[1, 2], [3, 4]]   take_by_command(0)   Some([1, 2])      [[3, 4]]
///
/// Fails: if the allocation of the line fails; the grid is unchanged.
#[tactic(auto, unfolding(grid::specs::Step::step_reply))]
pub fn take_by_command<T, A>(
    grid: &mut Grid<T, A>,
    at: usize,
    tally: &mut Tally,
) -> Result<Option<Vec<T, A>>, AllocError>
where
    T: Clone + Default + Drop,
    A: Allocator + Clone,
    ensures row { IfOk result (λ row. option_map (λ line. line.items) row
        ≡ slice_get grid.old.rows at) }
    ensures err { OnErr result (grid.new ≡ grid.old) }
{
    match grid.step(Command::RemoveRow(at), tally)? {
        Reply::Line(row) => Ok(row),
        _ => Ok(None),
    }
}

/// Drops a row of texts by a command, and returns whether there is such a row.
///
///     [["a"], ["b"]]   drop_by_command(1)   true       [["a"]]
///
/// Fails: never.
#[tactic(auto, unfolding(grid::specs::Step::step_reply))]
pub fn drop_by_command<A: Allocator + Clone>(
    grid: &mut Grid<Option<String>, A>,
    at: usize,
    tally: &mut Tally,
) -> Result<bool, AllocError>
    ensures found { IfOk result (λ found. found ≡ nat_lt at (row_count grid.old.rows)) }
{
    match grid.step(Command::DeleteRow(at), tally)? {
        Reply::Flag(found) => Ok(found),
        _ => Ok(false),
    }
}

/// Returns why a command that inserts this row before row `at` would be refused, or `None` where it wouldn't be.
///
///     [[1, 2], [3, 4]]   why_not_inserted(3, [5, 6])   Some(Index)        why_not_inserted(2, [5, 6])   None
pub fn why_not_inserted<T, A: Allocator>(
    grid: &Grid<T, A>,
    at: usize,
    line: &Vec<T, A>,
) -> Option<Refusal>
    ensures { result ≡ command_refusal (lines Row (insert_at at line.now.items))
        (row_count grid.now.rows) (col_count grid.now.rows) }
{
    let (rows, cols) = grid.size();
    line_refusal(rows, cols, at, line)
}
