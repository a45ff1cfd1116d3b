//! The step of a grid: one command.
ghost use Rattle.std.specs.Prelude.{◌≡◌, ◌+◌, ◌≤◌, OnOk, OnErr, IfOk, IsTrue, nat_lt};
ghost use Rattle.grid.specs.Prelude.{row_count, col_count, act, order_after, half, ClonesAreEqual, command_value, get, set_cell, swap_cells, fill, apply, reply_value, in_range, step_rows, step_reply, Stepped, StepCounted, command_symmetry};
ghost use Rattle.grid_base.specs.declared.words.Symmetry.{Symmetry};

use super::lines::{edit_cols, edit_rows};
use crate::Grid;
use grid_base::Tally;
use grid_commands::{Axis, Command, Refusal, Reply, Request, request_of};
use std::alloc::{AllocError, Allocator};

// Whether there is a cell in a row and a column.
fn has_cell<T, A: Allocator>(grid: &Grid<T, A>, at: (usize, usize)) -> bool
    ensures { result ≡ in_range (row_count grid.now.rows) (col_count grid.now.rows) at }
{
    let (rows, cols) = grid.size();
    at.0 < rows && at.1 < cols
}

// Reads a cell.
#[tactic(auto, unfolding(crate::specs::Step::step_reply))]
fn read_cell<T, A: Allocator>(
    grid: &Grid<T, A>,
    row: usize,
    col: usize,
) -> Result<Reply<T, A>, AllocError>
where
    T: Clone + Drop,
    ensures reply { IfOk result (λ reply. ClonesAreEqual T.is_clone
        → reply_value reply ≡ step_reply (get row col) grid.now.rows) }
    ensures err_memory { OnErr result
        (IsTrue (in_range (row_count grid.now.rows) (col_count grid.now.rows) (row, col))) }
{
    if !has_cell(grid, (row, col)) {
        return Ok(Reply::Cell(None));
    }
    let copy = grid.get_unchecked(row, col).clone()?;
    Ok(Reply::Cell(Some(copy)))
}

// Writes a cell.
#[tactic(auto, unfolding(crate::specs::Step::step_rows, crate::specs::Step::step_reply))]
fn write_cell<T: Drop, A: Allocator>(
    grid: &mut Grid<T, A>,
    row: usize,
    col: usize,
    value: T,
) -> Reply<T, A>
    ensures rows { (d : T) → grid.new.rows ≡ step_rows d (set_cell row col value) grid.old.rows }
    ensures reply { reply_value result ≡ step_reply (set_cell row col value) grid.old.rows }
    ensures order { grid.new.order ≡ grid.old.order }
{
    let written = has_cell(grid, (row, col));
    if written {
        *grid.get_unchecked_mut(row, col) = value;
    }
    if written {
        Reply::Done
    } else {
        Reply::Refused(Refusal::Index)
    }
}

// Exchanges two cells.
#[tactic(auto, unfolding(crate::specs::Step::step_rows, crate::specs::Step::step_reply))]
fn exchange_cells<T, A: Allocator>(
    grid: &mut Grid<T, A>,
    a: (usize, usize),
    b: (usize, usize),
) -> Reply<T, A>
    ensures rows { (d : T) → grid.new.rows ≡ step_rows d (swap_cells a b) grid.old.rows }
    ensures reply { reply_value result ≡ step_reply (swap_cells a b) grid.old.rows }
    ensures order { grid.new.order ≡ grid.old.order }
{
    if has_cell(grid, a) && has_cell(grid, b) {
        grid.swap(a, b);
        Reply::Done
    } else {
        Reply::Refused(Refusal::Index)
    }
}

// Makes every cell the value.
#[tactic(auto, unfolding(crate::specs::Step::step_rows, crate::specs::Step::step_reply))]
fn fill_cells<T, A: Allocator>(grid: &mut Grid<T, A>, value: T) -> Result<Reply<T, A>, AllocError>
where
    T: Clone,
    A: Clone,
    ensures rows { OnOk result ((d : T) → ClonesAreEqual T.is_clone
        → grid.new.rows ≡ step_rows d (fill value) grid.old.rows) }
    ensures reply { IfOk result (λ reply.
        reply_value reply ≡ step_reply (fill value) grid.old.rows) }
    ensures order { grid.new.order ≡ grid.old.order }
    ensures err_grid { OnErr result (grid.new ≡ grid.old) }
    ensures err_memory { OnErr result (IsTrue (nat_lt 0 (row_count grid.old.rows))) }
{
    grid.fill_clones(value)?;
    Ok(Reply::Done)
}

impl<T, A: Allocator> Grid<T, A> {
    /// Executes a command, and returns its reply.
    ///
    ///     [[1, 2]]   step(PushRow([3, 4]))   Done                [[1, 2], [3, 4]]
    ///     [[1, 2]]   step(PushRow([3]))      Refused(Length)     [[1, 2]]
    ///
    /// Adds the swaps of a symmetry to the symmetry count of the tally, and the cells that an expand, a prepend or a
    /// delete moves to the shift count.
    ///
    /// Fails: if allocation fails; this comes only at a command that takes memory. The grid and the tally are
    /// unchanged, and the command is dropped.
    /// Cost: that of the call of the same name; a command on columns is that on rows between two transposes.
    #[tactic(auto, unfolding(crate::specs::Step::step_rows, crate::specs::Step::step_reply))]
    pub fn step(
        &mut self,
        command: Command<T, A>,
        tally: &mut Tally,
    ) -> Result<Reply<T, A>, AllocError>
    where
        T: Clone + Default + Drop,
        A: Clone,
        ensures stepped { Stepped T.is_default T.is_clone
            (command_value command) self.old.rows self.new.rows result }
        ensures applied { OnOk result ((s : Symmetry)
            → command_value command ≡ apply s → self.new.rows ≡ act s self.old.rows) }
        ensures order { OnOk result (self.new.order
            ≡ order_after (command_symmetry (command_value command)) self.old.order) }
        ensures counted { StepCounted
            (command_value command) self.old tally.old tally.new result }

        // No command costs more swaps for symmetries than half of the cells.
        ensures half { tally.new.symmetry
            ≤ tally.old.symmetry + half (row_count self.old.rows) (col_count self.old.rows) }
        ensures err { OnErr result (self.new ≡ self.old) }
    {
        match request_of(command) {
            Request::Size => {
                let (rows, cols) = self.size();
                Ok(Reply::Size(rows, cols))
            }
            Request::Get(row, col) => read_cell(self, row, col),
            Request::Set(row, col, value) => Ok(write_cell(self, row, col, value)),
            Request::Swap(a, b) => Ok(exchange_cells(self, a, b)),
            Request::Lines(Axis::Row, edit) => edit_rows(self, edit, tally),
            Request::Lines(Axis::Col, edit) => edit_cols(self, edit, tally),
            Request::Fill(value) => fill_cells(self, value),
            Request::Clear => {
                self.clear();
                Ok(Reply::Done)
            }
            Request::Apply(symmetry) => {
                self.apply_counted(symmetry, tally);
                Ok(Reply::Done)
            }
        }
    }
}
