//! Changes of a grid, each of which gives the one that takes it back. Cells are moved, and never cloned.
ghost use Rattle.std.specs.Prelude.{◌≡◌, ℕ, ◌+◌, ◌≤◌, ◌<◌, take, drop, OnOk, OnErr, IfOk, IfErr, IsTrue};
ghost use Rattle.grid.specs.Prelude.{row_count, col_count, FitsRow, insert_rows, without_rows, InRange, with_cell};
ghost use Rattle.grid_changes.specs.Change.{Fits, after, is_of_lines, Inverts, FitsLines, HasLines, with_lines, less_lines};
ghost use Rattle.grid_changes.specs.Timeline.{board_of};
ghost use Rattle.grid_changes.specs.declared.change.Change.TheVariants.{Write};

use grid::{Axis, Grid, Symmetry};
use grid_lines::roll_rows;
use std::alloc::{AllocError, Allocator};
use std::mem;

// What leads from one board to the next.
#[derive(Drop)]
pub(crate) enum Change<T, A: Allocator> {
    // Writes the cell in a row and a column.
    Write(usize, usize, T),
    // Exchanges two cells.
    Exchange((usize, usize), (usize, usize)),
    // Puts lines before one; they are the rows of a grid, which isn't empty.
    Put(Axis, usize, Grid<T, A>),
    // Takes a number of lines out, from one on; it isn't 0.
    Take(Axis, usize, usize),
    // Applies a symmetry.
    Turn(Symmetry),
    // Leaves this board.
    Replace(Grid<T, A>),
}

// Writes a cell, and returns the one that was there. A write of that one takes it back.
#[inline(always)]
pub(crate) fn write<T, A: Allocator>(grid: &mut Grid<T, A>, row: usize, col: usize, value: T) -> T
    requires within { InRange grid.old.rows row col }
    ensures rows { grid.new.rows ≡ with_cell grid.old.rows row col value }
    ensures order { grid.new.order ≡ grid.old.order }
    ensures inverse { Inverts {A = A}
        (Write row col result) (board_of grid.new) (board_of grid.old) }
{
    mem::replace(grid.get_unchecked_mut(row, col), value)
}

// Makes a change the write of a cell. Where it was a write, only its parts are written: a change is larger.
#[inline(always)]
pub(crate) fn make_write<T, A: Allocator>(
    change: &mut Change<T, A>,
    row: usize,
    col: usize,
    value: T,
)
where
    T: Drop,
    ensures { change.new ≡ Write row col value }
{
    if let Change::Write(old_row, old_col, old_value) = change {
        *old_row = row;
        *old_col = col;
        *old_value = value;
    } else {
        *change = Change::Write(row, col, value);
    }
}

// Does a change, and makes it the one that takes it back. If memory is refused, which comes only where lines are put in
// or taken out, the grid and the change are as they were. A write, as a search of a game makes and takes back, is done
// without a call.
#[inline(always)]
pub(crate) fn make<T, A: Allocator>(
    grid: &mut Grid<T, A>,
    change: &mut Change<T, A>,
) -> Result<(), AllocError>
where
    T: Drop,
    A: Clone,
    requires fits { Fits change.old (board_of grid.old) }
    ensures made { OnOk result (board_of grid.new ≡ after change.old (board_of grid.old)) }
    ensures inverse { OnOk result (Inverts change.new (board_of grid.new) (board_of grid.old)) }
    ensures same { OnErr result (change.new ≡ change.old) }
    ensures unchanged { OnErr result (grid.new ≡ grid.old) }
    ensures err_lines { OnErr result (IsTrue (is_of_lines change.old)) }
{
    if let Change::Write(row, col, value) = change {
        mem::swap(grid.get_unchecked_mut(*row, *col), value);
        return Ok(());
    }
    make_other(grid, change)
}

// As `make`, where no cell is written.
#[inline(never)]
fn make_other<T, A: Allocator>(
    grid: &mut Grid<T, A>,
    change: &mut Change<T, A>,
) -> Result<(), AllocError>
where
    T: Drop,
    A: Clone,
    requires fits { Fits change.old (board_of grid.old) }
    requires other { (row col : ℕ) (value : T) → change.old ≡ Write row col value → ⊥ }
    ensures made { OnOk result (board_of grid.new ≡ after change.old (board_of grid.old)) }
    ensures inverse { OnOk result (Inverts change.new (board_of grid.new) (board_of grid.old)) }
    ensures same { OnErr result (change.new ≡ change.old) }
    ensures unchanged { OnErr result (grid.new ≡ grid.old) }
    ensures err_lines { OnErr result (IsTrue (is_of_lines change.old)) }
{
    match change {
        Change::Exchange(a, b) => {
            grid.swap(*a, *b);
            Ok(())
        }
        Change::Turn(symmetry) => {
            grid.apply(*symmetry);
            *symmetry = symmetry.inverse();
            Ok(())
        }
        Change::Replace(board) => {
            mem::swap(grid, board);
            Ok(())
        }
        _ => make_lines(grid, change),
    }
}

// As `make`, where lines are put in or taken out.
fn make_lines<T, A: Allocator>(
    grid: &mut Grid<T, A>,
    change: &mut Change<T, A>,
) -> Result<(), AllocError>
where
    T: Drop,
    A: Clone,
    requires fits { Fits change.old (board_of grid.old) }
    requires lines { IsTrue (is_of_lines change.old) }
    ensures made { OnOk result (board_of grid.new ≡ after change.old (board_of grid.old)) }
    ensures inverse { OnOk result (Inverts change.new (board_of grid.new) (board_of grid.old)) }
    ensures same { OnErr result (change.new ≡ change.old) }
    ensures unchanged { OnErr result (grid.new ≡ grid.old) }
{
    match mem::replace(change, Change::Turn(Symmetry::Identity)) {
        Change::Put(axis, at, lines) => {
            let count = lines.rows();
            match put_lines(grid, axis, at, lines) {
                Ok(()) => {
                    *change = Change::Take(axis, at, count);
                    Ok(())
                }
                Err(lines) => {
                    *change = Change::Put(axis, at, lines);
                    Err(AllocError)
                }
            }
        }
        Change::Take(axis, at, count) => match take_lines(grid, axis, at, count) {
            Ok(lines) => {
                *change = Change::Put(axis, at, lines);
                Ok(())
            }
            Err(_) => {
                *change = Change::Take(axis, at, count);
                Err(AllocError)
            }
        },
        _ => unreachable!(),
    }
}

// Puts the rows of a grid as lines before line `at` of an axis.
fn put_lines<T, A: Allocator>(
    grid: &mut Grid<T, A>,
    axis: Axis,
    at: usize,
    lines: Grid<T, A>,
) -> Result<(), Grid<T, A>>
    requires { FitsLines axis at lines.rows grid.old.rows }
    ensures rows { OnOk result (grid.new.rows ≡ with_lines axis at lines.rows grid.old.rows) }
    ensures order { grid.new.order ≡ grid.old.order }
    ensures lines_back { IfErr result (λ same. same ≡ lines) }
    ensures unchanged { OnErr result (grid.new ≡ grid.old) }
{
    match axis {
        Axis::Row => put_rows(grid, at, lines),
        Axis::Col => {
            grid.transpose();
            let put = put_rows(grid, at, lines);
            grid.transpose();
            put
        }
    }
}

// Puts the rows of another grid before row `at`: the rows from there on go to the front, the others come to the end,
// and all go back.
fn put_rows<T, A: Allocator>(
    grid: &mut Grid<T, A>,
    at: usize,
    lines: Grid<T, A>,
) -> Result<(), Grid<T, A>>
    requires point { at ≤ row_count grid.old.rows }
    requires fits { 0 < row_count lines.rows → FitsRow grid.old.rows (col_count lines.rows) }
    ensures rows { OnOk result (grid.new.rows ≡ insert_rows at lines.rows grid.old.rows) }
    ensures order { grid.new.order ≡ grid.old.order }
    ensures lines_back { IfErr result (λ same. same ≡ lines) }
    ensures unchanged { OnErr result (grid.new ≡ grid.old) }
{
    let behind = grid.rows() - at;
    roll_rows(grid, at);
    let put = grid.append_rows(lines);
    roll_rows(grid, behind);
    match put {
        Ok(()) => Ok(()),
        Err(refused) => Err(refused.grid),
    }
}

// Takes `count` lines of an axis out, from line `at` on, and returns them as the rows of a grid.
fn take_lines<T, A: Allocator>(
    grid: &mut Grid<T, A>,
    axis: Axis,
    at: usize,
    count: usize,
) -> Result<Grid<T, A>, AllocError>
where
    A: Clone,
    requires { HasLines axis at count grid.old.rows }
    ensures rows { OnOk result (grid.new.rows ≡ less_lines axis at count grid.old.rows) }
    ensures lines { IfOk result (λ lines. FitsLines axis at lines.rows grid.new.rows) }
    ensures back { IfOk result (λ lines.
        with_lines axis at lines.rows grid.new.rows ≡ grid.old.rows) }
    ensures order { grid.new.order ≡ grid.old.order }
    ensures unchanged { OnErr result (grid.new ≡ grid.old) }
{
    match axis {
        Axis::Row => take_rows(grid, at, count),
        Axis::Col => {
            grid.transpose();
            let taken = take_rows(grid, at, count);
            grid.transpose();
            taken
        }
    }
}

// Takes `count` rows out, from row `at` on: they come to the end, are split off, and the others go back.
fn take_rows<T, A: Allocator>(
    grid: &mut Grid<T, A>,
    at: usize,
    count: usize,
) -> Result<Grid<T, A>, AllocError>
where
    A: Clone,
    requires { at + count ≤ row_count grid.old.rows }
    ensures rows { OnOk result (grid.new.rows ≡ without_rows at count grid.old.rows) }
    ensures lines { IfOk result (λ lines. lines.rows ≡ take count (drop at grid.old.rows)) }
    ensures order { grid.new.order ≡ grid.old.order }
    ensures unchanged { OnErr result (grid.new ≡ grid.old) }
{
    let rest = grid.rows() - count;
    roll_rows(grid, at + count);
    let taken = grid.split_off_rows(rest);
    roll_rows(grid, rest - at);
    taken
}
