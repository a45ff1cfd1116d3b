//! A grid seen through a symmetry that isn't applied yet.
ghost use Rattle.std.specs.Prelude.{◌≡◌, ◌<◌, OnOk, OnErr, IfOk, IsTrue, false, nat_lt, option_copied};
ghost use Rattle.grid.specs.Prelude.{row, row_count, col_count, cell, transposed, IsTable, act, order_after, price, saturating_count, ClonesAreEqual, command_value, get, lines, read, apply, line_count, reply_value, in_range, step_reply, Stepped};
ghost use Rattle.grid_deferred.specs.Prelude.{LinesInOrder, shift_through_at, is_apply, pending_after, along};
ghost use Rattle.grid_base.specs.declared.words.Symmetry.{Symmetry};
ghost use Rattle.grid_base.specs.declared.words.Symmetry.TheVariants.{Identity};
ghost use Rattle.grid_commands.specs.declared.command.Axis.TheVariants.{Row, Col};

use crate::carrying::{carried, carry_reply};
use grid::{Axis, Command, Grid, Reply, Tally};
use grid_base::{Symmetry, clones_of_line};
use grid_view::{AsView, GridView, ViewLineIter};
use std::alloc::{AllocError, Allocator, Global};

/// An iterator over a row or a column of a grid as seen through a pending symmetry. Each step takes the same time.
pub type DeferredLineIter<'a, T> = ViewLineIter<'a, T>;

// Does on a base what a command, which isn't an Apply, does on the base's image.
#[tactic(auto, using(crate::proofs::PendingLemmas::carried_known, crate::proofs::PendingLemmas::carried_still))]
fn step_through<T, A: Allocator>(
    base: &mut Grid<T, A>,
    symmetry: Symmetry,
    size: (usize, usize),
    command: Command<T, A>,
    tally: &mut Tally,
) -> Result<Reply<T, A>, AllocError>
where
    T: Clone + Default + Drop,
    A: Clone,
    requires rows { size.0 ≡ row_count base.old.rows }
    requires cols { size.1 ≡ col_count base.old.rows }
    requires still { is_apply (command_value command) ≡ false }
    ensures stepped { Stepped T.is_default T.is_clone (command_value command)
        (act symmetry base.old.rows) (act symmetry base.new.rows) result }
    ensures order { base.new.order ≡ base.old.order }
    ensures symmetry { tally.new.symmetry ≡ tally.old.symmetry }
    ensures shift { OnOk result (tally.new.shift ≡ saturating_count tally.old.shift
        (shift_through_at symmetry (command_value command) base.old.order base.old.rows)) }
    ensures err_shift { OnErr result (tally.new.shift ≡ tally.old.shift) }
    ensures err_base { OnErr result (base.new ≡ base.old) }
{
    let axis = command.axis();
    let carried = carried(symmetry, size.0, size.1, command);
    match base.step(carried, tally) {
        Ok(reply) => Ok(carry_reply(symmetry, axis, reply)),
        Err(refused) => Err(refused),
    }
}

/// A grid with a symmetry that isn't applied to it yet, shown as if it were.
///
/// A symmetry as a command costs no swap here: it joins the pending one. The value must be spent, by
/// [`settle`](Deferred::settle) or by [`release`](Deferred::release).
pub struct Deferred<'a, T, A: Allocator = Global> {
    base: &'a mut Grid<T, A>,
    pending: Symmetry,
}

impl<'a, T, A: Allocator> Deferred<'a, T, A> {
    ghost use Rattle.grid_deferred.specs.Deferred.{base, lender, pending, shown};

    /// Returns the grid with nothing pending. The grid stays as it is.
    ///
    ///     [[1, 2]]   over()   pending Identity, shown [[1, 2]]
    pub fn over(grid: &'a mut Grid<T, A>) -> Deferred<'a, T, A>
        ensures same_reference { lender result ≡ grid.entry.ghost_name }
        ensures base { base result ≡ grid.old }
        ensures pending { pending result ≡ Identity }
    {
        Deferred {
            base: grid,
            pending: Symmetry::Identity,
        }
    }

    /// Returns the symmetry that isn't applied yet.
    ///
    ///     over([[1, 2]])   step(Apply(FlipCols)), then pending()   FlipCols
    pub fn pending(&self) -> Symmetry
        ensures { result ≡ pending self.now }
    {
        let Deferred { pending, .. } = self;
        *pending
    }

    /// Returns a view of the grid as seen through the pending symmetry.
    ///
    ///     [[1, 2]] with FlipCols pending   view()   [[2, 1]]
    ///
    /// Cost: constant; no cell moves or is copied, and no memory is taken.
    pub fn view(&self) -> GridView<'_, T>
        ensures { result.rows ≡ shown self.now }
    {
        self.base.view().turned(self.pending)
    }

    /// Returns the number of rows and of columns as seen through the pending symmetry.
    ///
    ///     [[1, 2]] with Transpose pending   size()   (2, 1)
    pub fn size(&self) -> (usize, usize)
        ensures size { result ≡ (row_count (shown self.now), col_count (shown self.now)) }
        ensures table { IsTable (shown self.now) }
    {
        self.view().size()
    }

    /// Returns the cell in a row and a column as seen through the pending symmetry, or `None` where there is none.
    ///
    ///     [[1, 2]] with FlipCols pending   get(0, 0)   Some(2)
    ///
    /// Cost: constant; no cell moves.
    pub fn get(&self, row: usize, col: usize) -> Option<&T>
        ensures { option_copied result ≡ cell (shown self.now) row col }
    {
        self.view().get(row, col)
    }

    /// Returns an iterator over the cells of row `r` as seen through the pending symmetry.
    ///
    ///     [[1, 2], [3, 4]] with FlipCols pending   iter_row(1)   4, 3
    ///
    /// Requires: `r` is in the range of [`size`](Deferred::size).
    /// Cost: each step takes the same time; no cell moves or is copied, and no memory is taken.
    pub fn iter_row(&self, r: usize) -> DeferredLineIter<'_, T>
        requires { r < row_count (shown self.now) }
        ensures rest { result ≡ row (shown self.now) r }
        ensures runs { LinesInOrder T }
    {
        self.view().iter_row(r)
    }

    /// Returns an iterator over the cells of column `c` as seen through the pending symmetry.
    ///
    ///     [[1, 2], [3, 4]] with FlipCols pending   iter_col(1)   1, 3
    ///
    /// Requires: `c` is in the range of [`size`](Deferred::size).
    /// Cost: each step takes the same time; no cell moves or is copied, and no memory is taken.
    pub fn iter_col(&self, c: usize) -> DeferredLineIter<'_, T>
        requires { c < col_count (shown self.now) }
        ensures rest { result ≡ row (transposed (shown self.now)) c }
        ensures runs { LinesInOrder T }
    {
        self.view().iter_col(c)
    }

    // Reads a cell.
    #[tactic(auto, unfolding(grid::specs::Step::step_reply))]
    fn read_cell(&self, row: usize, col: usize) -> Result<Reply<T, A>, AllocError>
    where
        T: Clone + Drop,
        ensures reply { IfOk result (λ reply. ClonesAreEqual T.is_clone
            → reply_value reply ≡ step_reply (get row col) (shown self.now)) }
        ensures err_memory { OnErr result (IsTrue
            (in_range (row_count (shown self.now)) (col_count (shown self.now)) (row, col))) }
    {
        match self.get(row, col) {
            Some(cell) => {
                let copy = cell.clone()?;
                Ok(Reply::Cell(Some(copy)))
            }
            None => Ok(Reply::Cell(None)),
        }
    }

    // The view whose rows are the lines of an axis.
    fn along(&self, axis: Axis) -> GridView<'_, T>
        ensures { result.rows ≡ along axis (shown self.now) }
    {
        match axis {
            Axis::Row => self.view(),
            Axis::Col => self.view().turned(Symmetry::Transpose),
        }
    }

    // Reads a row or a column.
    fn read_line(&self, axis: Axis, at: usize) -> Result<Reply<T, A>, AllocError>
    where
        T: Clone + Drop,
        A: Clone,
        ensures reply { IfOk result (λ reply. ClonesAreEqual T.is_clone
            → reply_value reply ≡ step_reply (lines axis (read at)) (shown self.now)) }
        ensures err_memory { OnErr result (IsTrue (nat_lt at
            (line_count axis (row_count (shown self.now)) (col_count (shown self.now))))) }
    {
        let view = self.along(axis);
        if at >= view.size().0 {
            return Ok(Reply::Line(None));
        }
        let alloc = self.base.allocator().clone()?;
        let line = clones_of_line(alloc, view.iter_row(at))?;
        Ok(Reply::Line(Some(line)))
    }

    /// Executes a command on the shown grid, and returns its reply.
    ///
    ///     over([[1, 2]])   step(Apply(FlipCols))     Done   base [[1, 2]], shown [[2, 1]]
    ///                      step(PushRow([3, 4]))     Done   base [[1, 2], [4, 3]], shown [[2, 1], [3, 4]]
    ///
    /// A symmetry joins the pending one, and no cell moves. A read goes by the pending symmetry. Every other command is
    /// carried to the base and its reply back; an expand, a prepend or a delete adds the cells that it moves there to
    /// the shift count of the tally. Nothing is added to the symmetry count.
    ///
    /// Fails: if allocation fails; this comes only at a command that takes memory. The base, what is pending and the
    /// tally are unchanged, and the command is dropped.
    /// Cost: that of the carried command.
    pub fn step(
        &mut self,
        command: Command<T, A>,
        tally: &mut Tally,
    ) -> Result<Reply<T, A>, AllocError>
    where
        T: Clone + Default + Drop,
        A: Clone,
        ensures same_reference { lender self.new ≡ lender self.old }
        ensures stepped { Stepped T.is_default T.is_clone
            (command_value command) (shown self.old) (shown self.new) result }
        ensures applied { OnOk result ((s : Symmetry)
            → command_value command ≡ apply s → base self.new ≡ base self.old) }
        ensures pending { OnOk result
            (pending self.new ≡ pending_after (command_value command) (pending self.old)) }
        ensures order { (base self.new).order ≡ (base self.old).order }
        ensures symmetry { tally.new.symmetry ≡ tally.old.symmetry }
        ensures shift { OnOk result (tally.new.shift ≡ saturating_count tally.old.shift
            (shift_through_at (pending self.old) (command_value command)
            (base self.old).order (base self.old).rows)) }

        // An error changes nothing.
        ensures err_shift { OnErr result (tally.new.shift ≡ tally.old.shift) }
        ensures err_base { OnErr result (base self.new ≡ base self.old) }
        ensures err_pending { OnErr result (pending self.new ≡ pending self.old) }
    {
        let size = self.base.size();
        match command {
            Command::Apply(symmetry) => {
                self.pending = self.pending.then(symmetry);
                Ok(Reply::Done)
            }
            Command::Get(row, col) => self.read_cell(row, col),
            Command::Row(at) => self.read_line(Axis::Row, at),
            Command::Col(at) => self.read_line(Axis::Col, at),
            other => step_through(self.base, self.pending, size, other, tally),
        }
    }

    /// Applies the pending symmetry to the base, and adds its swaps to the symmetry count of the tally.
    ///
    ///     [[1, 2]] with FlipCols pending   settle(tally)   the base is [[2, 1]], and 1 swap is counted
    ///
    /// Cost: the swaps of the symmetry's flips, at most half of the cells.
    pub fn settle(self, tally: &mut Tally)
        ensures rows { self.exit.0.now.rows ≡ shown self.entry }
        ensures order { self.exit.0.now.order
            ≡ order_after (pending self.entry) (base self.entry).order }
        ensures symmetry { tally.new.symmetry ≡ saturating_count tally.old.symmetry
            (price (pending self.entry) (row_count (base self.entry).rows)
            (col_count (base self.entry).rows)) }
        ensures shift { tally.new.shift ≡ tally.old.shift }
    {
        let Deferred { base, pending } = self;
        base.apply_counted(pending, tally);
    }

    /// Returns the symmetry that isn't applied yet, and leaves the base without it.
    ///
    ///     [[1, 2]] with FlipCols pending   release()   FlipCols, and the base is [[1, 2]]
    pub fn release(self) -> Symmetry
        ensures base { self.exit.0.now ≡ base self.entry }
        ensures pending { result ≡ pending self.entry }
    {
        let Deferred { base: _, pending } = self;
        pending
    }
}

/// A deferred grid lends its rows as seen through the pending symmetry.
impl<'a, T, A: Allocator> AsView<T> for Deferred<'a, T, A> {
    ghost use Rattle.grid_base.proofs.ActLemmas.{IsTable-act};
    ghost use Rattle.grid_deferred.specs.Deferred.{shown, base, pending};

    ghost rows = { shown };

    ghost table = { λ board. IsTable-act (pending board) (base board).rows (base board).table };

    fn as_view(&self) -> GridView<'_, T> {
        self.view()
    }
}
