//! A grid with the boards before it and those undone.
ghost use Rattle.std.specs.Prelude.{◌≡◌, ◌<◌, ◌≤◌, ◌-◌, ℕ, [], ◌∷◌, ◌++◌, length, vec_len, vec_capacity, take, slice_get, OnOk, OnErr, IfOk, IsSomeAnd, MatchBool, IsTrue, ◌↔◌};
ghost use Rattle.grid.specs.Prelude.{act, order_after, ClonesAreEqual, command_value, command_symmetry, apply, reply_value, step_rows, step_reply, RowsAreKnown, InRange, with_cell, set_cell};
ghost use Rattle.grid_changes.specs.Timeline.{board_of, FirstHasOtherCount, IsBackBy, IsStepOn, IsStepBack, Recorded};
ghost use Rattle.grid_changes.specs.Change.{Fits, after, is_of_lines};
ghost use Rattle.grid_changes.specs.declared.change.Change.TheVariants.{Write};
ghost use Rattle.grid_changes.specs.Entry.{wants_memory, is_step};
ghost use Rattle.grid_changes.specs.Asked.{HasStepped};
ghost use Rattle.grid_changes.specs.Steps.{FitsAt, HasTurned};
ghost use Rattle.grid_changes.specs.Entry.{AnswerIsKnown};
ghost use Rattle.grid_base.specs.declared.words.Symmetry.{Symmetry};

use crate::asked::{Asked, asked_of};
use crate::change::{Change, make, make_write, write};
use grid::{Command, Grid, Refusal, Reply};
use std::alloc::{AllocError, Allocator, Global};
use std::marker::Model;

/// A grid that takes back what its commands did, and does it again: the grid as it is, the boards before it, and those
/// that were undone.
///
/// It keeps no boards, but what takes each step back: the cell that was written over, the lines that were taken out.
/// Only a `Fill`, a `Clear` and [`step_to`](History::step_to) leave the board that was there. Cells are moved and never
/// cloned, so a board that comes back is exactly the one that was, also of cells whose clones may differ.
#[derive(Drop)]
pub struct History<T, A: Allocator = Global> {
    grid: Grid<T, A>,
    // What takes the steps back that were done, the oldest first; after these, what does those again that were undone,
    // the last undone first.
    steps: Vec<Change<T, A>, A>,
    done: usize,
}

impl<T, A: Allocator> Model for History<T, A> {
    ghost use Rattle.grid_changes.specs.Timeline.{Timeline};

    ghost Value = { Timeline T };

    ghost use Rattle.grid_changes.specs.Steps.{timeline_of, AreSteps};

    ghost view = { λ h. timeline_of h.grid h.steps.items h.done };

    ghost invariant = { λ h. AreSteps h.grid h.steps.items h.done };
}

// Does the step at a place of a list, and leaves there what takes it back.
#[inline(always)]
fn turn<T, A: Allocator>(
    grid: &mut Grid<T, A>,
    steps: &mut Vec<Change<T, A>, A>,
    at: usize,
) -> Result<(), AllocError>
where
    T: Drop,
    A: Clone,
    requires within { at < length steps.old.items }
    requires fits { FitsAt steps.old.items at grid.old }
    ensures turned { OnOk result (HasTurned at grid.old steps.old.items grid.new steps.new.items) }
    ensures steps { OnErr result (steps.new.items ≡ steps.old.items) }
    ensures grid { OnErr result (grid.new ≡ grid.old) }
    ensures err_lines { OnErr result (IsSomeAnd (slice_get steps.old.items at)
        (λ change. IsTrue (is_of_lines change))) }
{
    make(grid, &mut steps[at])
}

// Keeps what takes a step back after the first `done`, in place of those that were undone.
#[inline(always)]
fn keep_step<T, A: Allocator>(steps: &mut Vec<Change<T, A>, A>, done: usize, back: Change<T, A>)
where
    T: Drop,
    requires within { done ≤ vec_len steps.old }
    requires room { done ≡ vec_len steps.old → vec_len steps.old < vec_capacity steps.old }
    ensures { steps.new.items ≡ take done steps.old.items ++ back ∷ [] }
{
    if done < steps.len() {
        steps[done] = back;
        steps.truncate(done + 1);
    } else {
        steps.push_reserved(back);
    }
}

// Keeps the write that takes one back, in place of the first step that was undone; the others are dropped.
#[inline(always)]
fn keep_write<T, A: Allocator>(
    steps: &mut Vec<Change<T, A>, A>,
    done: usize,
    row: usize,
    col: usize,
    value: T,
)
where
    T: Drop,
    requires within { done < vec_len steps.old }
    ensures { steps.new.items ≡ take done steps.old.items ++ Write row col value ∷ [] }
{
    make_write(&mut steps[done], row, col, value);
    if done + 1 < steps.len() {
        drop_after(steps, done + 1);
    }
}

// Drops the steps after the first `count`. Out of line, so that a write that drops none stays short.
#[inline(never)]
fn drop_after<T, A: Allocator>(steps: &mut Vec<Change<T, A>, A>, count: usize)
where
    T: Drop,
    ensures { steps.new.items ≡ take count steps.old.items }
{
    steps.truncate(count);
}

impl<T, A: Allocator> History<T, A> {
    /// Returns the history of a grid to which nothing was done. The allocator is that of the list of steps.
    ///
    ///     [[1, 2]]   over(alloc, grid)   undo_count() 0, redo_count() 0
    ///
    /// Cost: constant; no memory.
    pub fn over(alloc: A, grid: Grid<T, A>) -> History<T, A>
        ensures grid { result.grid ≡ grid }
        ensures past { result.past ≡ [] }
        ensures future { result.future ≡ [] }
    {
        History {
            grid,
            steps: Vec::new(alloc),
            done: 0,
        }
    }

    /// Returns the grid as it is now.
    ///
    ///     over(alloc, [[1, 2]]), then step(Set(0, 0, 5))   grid()   [[5, 2]]
    pub fn grid(&self) -> &Grid<T, A>
        ensures { result.now ≡ self.now.grid }
    {
        &self.grid
    }

    /// Returns the grid as it is now. What takes the steps back, and does those undone again, is dropped.
    ///
    ///     over(alloc, [[1, 2]]), then step(Set(0, 0, 5))   into_grid()   [[5, 2]]
    ///
    /// Cost: one drop for each step, and for each cell that it keeps; no memory.
    pub fn into_grid(self) -> Grid<T, A>
    where
        T: Drop,
        ensures { result ≡ self.grid }
    {
        let History { grid, .. } = self;
        grid
    }

    /// Returns how many steps can be taken back.
    ///
    ///     over(alloc, [[1, 2]]), then step(Clear) and step(Size)   undo_count()   1
    pub fn undo_count(&self) -> usize
        ensures { result ≡ length self.now.past }
    {
        self.done
    }

    /// Returns how many of the steps that were taken back can be done again.
    ///
    ///     over(alloc, [[1, 2]]), then step(Clear) and undo()   redo_count()   1
    pub fn redo_count(&self) -> usize
        ensures { result ≡ length self.now.future }
    {
        self.steps.len() - self.done
    }

    /// Executes a command, and returns its reply, both as [`Grid::step`] does.
    ///
    ///     [[1, 2]]   step(PushRow([3, 4]))   Done             [[1, 2], [3, 4]], a step
    ///     [[1, 2]]   step(PushRow([3]))      Refused(Length)  [[1, 2]], no step
    ///
    /// A command is a step if it isn't refused and writes cells, applies a symmetry, or puts lines in or takes lines
    /// out, also where the board happens to be as before; then the board that was is the first of the past, and what
    /// was undone can't be done again. Any other command, as a read, leaves the history as it was. So do a removal and
    /// a delete of lines that aren't there, padding that adds none, and a list of no lines.
    ///
    /// Fails: if allocation fails, which comes only at a step, and at a read of a cell or of a line that is there; the
    /// history is unchanged, and the command is dropped.
    /// Cost: an edit of lines in the middle, up to four swaps for each cell; at the end, row-major, time in the line,
    /// as for columns, column-major. A removed line is cloned for the reply. A `Fill` makes a new board. The others as
    /// `Grid::step`. What is kept: a cell of a `Set`, the lines that were taken out, the board before a `Fill` or a
    /// `Clear`.
    #[inline(always)]
    #[tactic(auto, using(crate::proofs::AskedLemmas::answer_known))]
    pub fn step(&mut self, command: Command<T, A>) -> Result<Reply<T, A>, AllocError>
    where
        T: Clone + Default + Drop,
        A: Clone,
        ensures rows { OnOk result ((d : T)
            → RowsAreKnown T.is_default T.is_clone d (command_value command)
            → self.new.grid.rows ≡ step_rows d (command_value command) self.old.grid.rows) }
        ensures reply { IfOk result (λ reply. AnswerIsKnown T.is_clone (command_value command)
            → reply_value reply ≡ step_reply (command_value command) self.old.grid.rows) }
        ensures reply_by_clones { IfOk result (λ reply. ClonesAreEqual T.is_clone
            → reply_value reply ≡ step_reply (command_value command) self.old.grid.rows) }
        ensures applied { OnOk result ((s : Symmetry) → command_value command ≡ apply s
            → self.new.grid.rows ≡ act s self.old.grid.rows) }
        ensures order { OnOk result (self.new.grid.order
            ≡ order_after (command_symmetry (command_value command)) self.old.grid.order) }
        ensures recorded { OnOk result (Recorded (command_value command) self.old self.new) }
        ensures err { OnErr result (self.new ≡ self.old) }
        ensures err_memory { OnErr result
            (IsTrue (wants_memory (command_value command) self.old.grid.rows)) }
    {
        match command {
            Command::Set(row, col, value) => self.step_set(row, col, value),
            other => self.step_any(other),
        }
    }

    // As `step`, a command that writes a cell.
    #[inline(always)]
    fn step_set(&mut self, row: usize, col: usize, value: T) -> Result<Reply<T, A>, AllocError>
    where
        T: Clone + Default + Drop,
        A: Clone,
        ensures stepped { IfOk result (HasStepped T.is_default T.is_clone
            (set_cell row col value) self.old self.new) }
        ensures err { OnErr result (self.new ≡ self.old) }
        ensures err_memory { OnErr result
            (IsTrue (is_step (set_cell row col value) self.old.grid.rows)) }
    {
        if !self.grid.contains((row, col)) {
            return Ok(Reply::Refused(Refusal::Index));
        }
        self.record_write(row, col, value)?;
        Ok(Reply::Done)
    }

    // As `step`, any command.
    fn step_any(&mut self, command: Command<T, A>) -> Result<Reply<T, A>, AllocError>
    where
        T: Clone + Default + Drop,
        A: Clone,
        ensures stepped { IfOk result (HasStepped T.is_default T.is_clone
            (command_value command) self.old self.new) }
        ensures err { OnErr result (self.new ≡ self.old) }
        ensures err_memory { OnErr result
            (IsTrue (wants_memory (command_value command) self.old.grid.rows)) }
    {
        match asked_of(&self.grid, command)? {
            Asked::Answer(reply) => Ok(reply),
            Asked::Making(change, reply) => {
                self.record(change)?;
                Ok(reply)
            }
        }
    }

    /// Makes another board the grid: a step, which keeps the board that was. So any edit of the grid is recorded: the
    /// caller edits a copy of it, and hands that in.
    ///
    ///     over(alloc, [[1, 2]])   step_to([[5], [6]])   [[5], [6]]; then undo()   true   [[1, 2]]
    ///
    /// Fails: if allocation fails; the history is unchanged, and the board is dropped.
    /// Cost: constant.
    pub fn step_to(&mut self, board: Grid<T, A>) -> Result<(), AllocError>
    where
        T: Drop,
        A: Clone,
        ensures grid { OnOk result (self.new.grid ≡ board) }
        ensures recorded { OnOk result (IsStepOn self.old self.new) }
        ensures err { OnErr result (self.new ≡ self.old) }
    {
        self.record(Change::Replace(board))
    }

    // Does a change, in place of those that were undone. Out of line, so that `record_write` stays short.
    #[inline(never)]
    fn record(&mut self, change: Change<T, A>) -> Result<(), AllocError>
    where
        T: Drop,
        A: Clone,
        requires fits { Fits change (board_of self.old.grid) }
        ensures made { OnOk result
            (board_of self.new.grid ≡ after change (board_of self.old.grid)) }
        ensures recorded { OnOk result (IsStepOn self.old self.new) }
        ensures err { OnErr result (self.new ≡ self.old) }
    {
        if self.done == self.steps.len() {
            self.steps.reserve(1)?;
        }
        let mut step = change;
        make(&mut self.grid, &mut step)?;
        keep_step(&mut self.steps, self.done, step);
        self.done += 1;
        Ok(())
    }

    // Writes a cell, in place of what was undone. A search of a game makes and takes back moves without a call.
    #[inline(always)]
    fn record_write(&mut self, row: usize, col: usize, value: T) -> Result<(), AllocError>
    where
        T: Drop,
        A: Clone,
        requires within { InRange self.old.grid.rows row col }
        ensures rows { OnOk result
            (self.new.grid.rows ≡ with_cell self.old.grid.rows row col value) }
        ensures order { OnOk result (self.new.grid.order ≡ self.old.grid.order) }
        ensures recorded { OnOk result (IsStepOn self.old self.new) }
        ensures err { OnErr result (self.new ≡ self.old) }
    {
        let done = self.done;
        if done < self.steps.len() {
            let old = write(&mut self.grid, row, col, value);
            keep_write(&mut self.steps, done, row, col, old);
            self.done = done + 1;
            return Ok(());
        }
        self.record(Change::Write(row, col, value))
    }

    /// Takes the last step back, and returns whether there was one. The board is exactly the one before it.
    ///
    ///     over(alloc, [[1, 2]]), then step(Set(0, 0, 5))   undo()   true   [[1, 2]]
    ///
    /// Fails: if allocation fails, which comes only where lines come back or are taken out, so only where the board
    /// that comes back has another number of cells; the history is unchanged.
    /// Cost: constant for a cell, two cells, a `Fill` and a `Clear`; a symmetry, its swaps; lines, as
    /// [`step`](History::step). No cell is cloned.
    pub fn undo(&mut self) -> Result<bool, AllocError>
    where
        T: Drop,
        A: Clone,
        ensures found { IfOk result (λ found. IsTrue found ↔ (0 < length self.old.past)) }
        ensures back { IfOk result
            (λ found. MatchBool found (IsStepBack self.old self.new) (self.new ≡ self.old)) }
        ensures err { OnErr result (self.new ≡ self.old) }
        ensures err_memory { OnErr result
            (FirstHasOtherCount self.old.past (board_of self.old.grid)) }
    {
        if self.done == 0 {
            return Ok(false);
        }
        let at = self.done - 1;
        turn(&mut self.grid, &mut self.steps, at)?;
        self.done = at;
        Ok(true)
    }

    /// Takes steps back until no more than `count` are left to take back, and returns how many it took back. So a move
    /// of several commands is taken back whole, by the [`undo_count`](History::undo_count) from before it, also where
    /// some of the commands were no steps.
    ///
    ///     over(alloc, [[1, 2]]), then step(Set(0, 0, 5)), step(Size) and step(Clear)   undo_to(0)   2   [[1, 2]]
    ///
    /// Fails: if allocation fails, at a step that [`undo`](History::undo) can't take back; those after it are taken
    /// back, and can be done again, and the others stay.
    /// Cost: that of an `undo` for each step that is taken back.
    pub fn undo_to(&mut self, count: usize) -> Result<usize, AllocError>
    where
        T: Drop,
        A: Clone,
        ensures steps { IfOk result (λ steps. steps ≡ length self.old.past - count) }
        ensures back { IfOk result (λ steps. IsBackBy steps self.old self.new) }
        ensures kept { OnOk result (length self.old.past ≤ count → self.new ≡ self.old) }
        ensures err { OnErr result ((steps : ℕ) × (steps < length self.old.past - count)
            × IsBackBy steps self.old self.new) }
        ensures err_memory { OnErr result
            (FirstHasOtherCount self.new.past (board_of self.new.grid)) }
    {
        let steps = self.undo_count().saturating_sub(count);
        for _taken in 0..steps {
            self.undo()?;
        }
        Ok(steps)
    }

    /// Does the step again that was taken back last, and returns whether there was one. The board is exactly the one
    /// after it.
    ///
    ///     over(alloc, [[1, 2]]), then step(Set(0, 0, 5)) and undo()   redo()   true   [[5, 2]]
    ///
    /// Fails: as [`undo`](History::undo).
    /// Cost: as `undo`.
    pub fn redo(&mut self) -> Result<bool, AllocError>
    where
        T: Drop,
        A: Clone,
        ensures found { IfOk result (λ found. IsTrue found ↔ (0 < length self.old.future)) }
        ensures ahead { IfOk result
            (λ found. MatchBool found (IsStepBack self.new self.old) (self.new ≡ self.old)) }
        ensures err { OnErr result (self.new ≡ self.old) }
        ensures err_memory { OnErr result
            (FirstHasOtherCount self.old.future (board_of self.old.grid)) }
    {
        if self.done == self.steps.len() {
            return Ok(false);
        }
        let at = self.done;
        turn(&mut self.grid, &mut self.steps, at)?;
        self.done = at + 1;
        Ok(true)
    }

    /// Drops what takes the older steps back, so that no more than the last `count` can be taken back. The grid stays,
    /// and so does what was undone. It sets no limit for later steps: a caller that wants one calls it after each step.
    ///
    ///     over(alloc, [[1, 2]]), then step(Set(0, 0, 5)) and step(Clear)   keep(1)   undo_count() 1
    ///
    /// Cost: one drop for each step that is dropped, and for each cell that it keeps; where one is dropped, time in the
    /// number of steps that stay.
    pub fn keep(&mut self, count: usize)
    where
        T: Drop,
        ensures grid { self.new.grid ≡ self.old.grid }
        ensures past { self.new.past ≡ take count self.old.past }
        ensures future { self.new.future ≡ self.old.future }
    {
        let dropped = self.done.saturating_sub(count);
        self.steps.drain(..dropped);
        self.done -= dropped;
    }

    /// Drops what takes steps back or does them again. The grid stays.
    ///
    ///     over(alloc, [[1, 2]]), then step(Clear)   forget()   undo_count() 0, redo_count() 0
    ///
    /// Cost: one drop for each step, and for each cell that it keeps.
    pub fn forget(&mut self)
    where
        T: Drop,
        ensures grid { self.new.grid ≡ self.old.grid }
        ensures past { self.new.past ≡ [] }
        ensures future { self.new.future ≡ [] }
    {
        self.steps.clear();
        self.done = 0;
    }
}
