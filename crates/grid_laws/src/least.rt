//! The swaps that are counted are the least: no fewer do what a command does to the storage, where the cells differ.
//!
//! Each law makes the call that its name says. Its clauses `symmetry`, `shift` and `least` say of that call that a
//! count grew by the least number of swaps of two places. Those called `_law` say it of every table.
ghost use Rattle.std.specs.Prelude.{◌≤◌, List, IfOk, IfErr, OnOk, length, map, take};
ghost use Rattle.grid.specs.Prelude.{IsTable, storage, act, order_after, IsInverse, command_value, command_symmetry, list_symmetry, price_at, shift_at, RowsAreKnown, step_rows};
ghost use Rattle.grid_base.specs.declared.order.Order.{Order};
ghost use Rattle.grid_base.specs.declared.words.Symmetry.{Symmetry};
ghost use Rattle.grid_deferred.specs.Run.{DeferredRunGives};
ghost use Rattle.grid_laws.specs.StepGives.{StepGives};
ghost use Rattle.grid_laws.specs.Least.{HasDifferentCells, IsLeast, Shifts, filled_up, GrewByLeast};

use grid::{Command, Grid, Reply, RunStopped};
use grid_base::Tally;
use grid_deferred::run_deferred;
use std::alloc::{AllocError, Allocator};

/// Executes a command, as [`Grid::step`] does. Where no two cells are the same, what it adds to the two counts is the
/// least number of swaps of two places of the storage that do as much.
///
///     [[1, 2, 3], [4, 5, 6]]   step_by_least(Apply(FlipCols))   [[3, 2, 1], [6, 5, 4]]         2 for the symmetry
///     [[1, 2, 3], [4, 5, 6]]   step_by_least(DeleteCols(0, 1))  [[2, 3], [5, 6]]               4 shifted
///     [[1, 2], [3, 4]]         step_by_least(PrependCols(1))    [[0, 1, 2], [0, 3, 4]]         4 shifted
///
/// The symmetry count grows by the least that make the storage of the image of that of the table; a command that
/// applies no symmetry takes none. At a delete the shift count grows by the least that bring every cell that stays to
/// its place. At an expand or a prepend the swaps begin with the new cells after the old ones, and bring each to its
/// place; the new cells may be the same, but none of the old ones.
///
/// The clauses `price_law` and `shift_law` say it of every table with different cells, in both orders: what the command
/// would count there is the least.
///
/// Fails: if allocation fails, as `step` does. The grid and the tally are unchanged.
/// Cost: that of `step`.
pub fn step_by_least<T, A: Allocator>(
    grid: &mut Grid<T, A>,
    command: Command<T, A>,
    tally: &mut Tally,
) -> Result<Reply<T, A>, AllocError>
where
    T: Clone + Default + Drop,
    A: Clone,
    ensures gives { StepGives T.is_default T.is_clone
        (command_value command) grid.old grid.new tally.old tally.new result }
    ensures symmetry { OnOk result (HasDifferentCells grid.old.rows
        → GrewByLeast tally.old.symmetry tally.new.symmetry
        (storage grid.old.order grid.old.rows)
        (storage grid.new.order
        (act (command_symmetry (command_value command)) grid.old.rows))) }
    ensures shift { OnOk result ((d : T)
        → RowsAreKnown T.is_default T.is_clone d (command_value command)
        → HasDifferentCells grid.old.rows
        → Shifts d grid.old.rows (command_value command)
        → GrewByLeast tally.old.shift tally.new.shift
        (filled_up d (length (storage grid.new.order grid.new.rows))
        (storage grid.old.order grid.old.rows))
        (storage grid.new.order grid.new.rows)) }
    ensures symmetry_grows { tally.old.symmetry ≤ tally.new.symmetry }
    ensures shift_grows { tally.old.shift ≤ tally.new.shift }
    ensures price_law { (t : List (List T)) (o : Order) → IsTable t → HasDifferentCells t
        → IsLeast (price_at (command_value command) t) (storage o t)
        (storage (order_after (command_symmetry (command_value command)) o)
        (act (command_symmetry (command_value command)) t)) }
    ensures shift_law { (d : T) (t : List (List T)) (o : Order) → IsTable t → HasDifferentCells t
        → Shifts d t (command_value command)
        → IsLeast (shift_at (command_value command) o t)
        (filled_up d (length (storage o (step_rows d (command_value command) t))) (storage o t))
        (storage o (step_rows d (command_value command) t)) }
{
    grid.step(command, tally)
}

/// Runs a list of commands deferred, as [`run_deferred`] does. Where no two cells of the rows after are the same, the
/// swaps counted for symmetries are the least that make the storage after of that of the base: of the rows after,
/// turned back by the inverse of the symmetry of the list, in the order before.
///
///     [[1, 2, 3], [4, 5, 6]]   run_deferred_by_least([Apply(FlipCols), Apply(FlipRows)])
///                              [[6, 5, 4], [3, 2, 1]]   3 for the symmetry
///
/// Fails: as `run_deferred` does, and says the same of the commands that were done.
/// Cost: that of `run_deferred`.
pub fn run_deferred_by_least<T, A: Allocator>(
    alloc: A,
    grid: &mut Grid<T, A>,
    commands: Vec<Command<T, A>, A>,
    tally: &mut Tally,
) -> Result<Vec<Reply<T, A>, A>, RunStopped<T, A>>
where
    T: Clone + Default + Drop,
    A: Clone,
    ensures gives { DeferredRunGives T.is_clone T.is_default
        (map command_value commands.items) grid.old grid.new tally.old tally.new result }
    ensures least { IfOk result (λ _. (v : Symmetry)
        → IsInverse (list_symmetry (map command_value commands.items)) v
        → HasDifferentCells grid.new.rows
        → GrewByLeast tally.old.symmetry tally.new.symmetry
        (storage grid.old.order (act v grid.new.rows)) (storage grid.new.order grid.new.rows)) }
    ensures stopped_least { IfErr result (λ stop. (v : Symmetry)
        → IsInverse (list_symmetry (take stop.done (map command_value commands.items))) v
        → HasDifferentCells grid.new.rows
        → GrewByLeast tally.old.symmetry tally.new.symmetry
        (storage grid.old.order (act v grid.new.rows)) (storage grid.new.order grid.new.rows)) }
    ensures symmetry_grows { tally.old.symmetry ≤ tally.new.symmetry }
    ensures shift_grows { tally.old.shift ≤ tally.new.shift }
{
    run_deferred(alloc, grid, commands, tally)
}
