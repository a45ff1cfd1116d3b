//! Laws of deferred runs as public calls: each makes the calls that its name says, and ensures what they leave.
ghost use Rattle.std.specs.Prelude.{◌≡◌, IfOk, OnOk, List, map};
ghost use Rattle.grid.specs.Prelude.{ClonesAreEqual, CommandValue, command_value, ReplyValue, reply_value, Ran, RunGives, AreKnown, GridValue, Counts};
ghost use Rattle.grid_deferred.specs.Prelude.{RanDeferred, DeferredRunGives};

use crate::run_deferred;
use grid::{Command, Grid, Reply, RunStopped, Tally, run};
use std::alloc::Allocator;

/// Runs a list of commands at once on one grid and deferred on another, and returns both results. The grids may be
/// stored in different orders.
///
///     [[1, 2]], [[1, 2]]   run_at_once_and_deferred([Apply(FlipCols), Get(0, 0)], the same)   [Done, Cell(2)] twice
///
/// Requires: the grids have the same rows, and the lists the same commands.
/// Fails: each of the two as its run does, and says the same of the commands that were done.
/// Cost: that of both runs.
pub fn run_at_once_and_deferred<T, A: Allocator>(
    allocs: (A, A),
    grid: &mut Grid<T, A>,
    other: &mut Grid<T, A>,
    commands: Vec<Command<T, A>, A>,
    same: Vec<Command<T, A>, A>,
    tally: &mut Tally,
    other_tally: &mut Tally,
) -> (
    Result<Vec<Reply<T, A>, A>, RunStopped<T, A>>,
    Result<Vec<Reply<T, A>, A>, RunStopped<T, A>>,
)
where
    T: Clone + Default + Drop,
    A: Clone,
    requires rows { grid.old.rows ≡ other.old.rows }
    requires commands { map command_value commands.items ≡ map command_value same.items }
    ensures gives { RunGives T.is_clone T.is_default
        (map command_value commands.items) grid.old grid.new tally.old tally.new result.0 }
    ensures deferred_gives { DeferredRunGives T.is_clone T.is_default
        (map command_value same.items)
        other.old other.new other_tally.old other_tally.new result.1 }
    ensures same_rows { OnOk result.0 (OnOk result.1 ((d : T)
        → AreKnown T.is_default T.is_clone d (map command_value commands.items)
        → grid.new.rows ≡ other.new.rows)) }
    ensures same_order { OnOk result.0 (OnOk result.1
        (grid.old.order ≡ other.old.order → grid.new.order ≡ other.new.order)) }
    ensures same_replies { IfOk result.0 (λ replies. IfOk result.1 (λ others. (d : T)
        → AreKnown T.is_default T.is_clone d (map command_value commands.items)
        → ClonesAreEqual T.is_clone
        → map reply_value replies.items ≡ map reply_value others.items)) }
    ensures law { (d : T) (xs : List (CommandValue T)) (old other_old new other_new : GridValue T)
        (first last other_first other_last : Counts) (answers others : List (ReplyValue T))
        → Ran T.is_clone T.is_default xs old new first last answers
        → RanDeferred T.is_clone T.is_default
        xs other_old other_new other_first other_last others
        → old.rows ≡ other_old.rows → AreKnown T.is_default T.is_clone d xs
        → (new.rows ≡ other_new.rows) × (ClonesAreEqual T.is_clone → answers ≡ others) }
{
    let at_once = run(allocs.0, grid, commands, tally);
    let deferred = run_deferred(allocs.1, other, same, other_tally);
    (at_once, deferred)
}
