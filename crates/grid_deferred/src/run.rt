//! A run that defers its symmetries.
ghost use Rattle.std.specs.Prelude.{◌≤◌, map};
ghost use Rattle.grid_deferred.specs.Prelude.{command_value, DeferredRunGives};

use crate::Deferred;
use grid::{Command, Grid, Reply, RunStopped, Tally};
use std::alloc::Allocator;

/// Executes a list of commands in turn, each as [`Deferred::step`] does it, applies what is pending then, and returns
/// their replies: those of [`grid::run`], with the same rows and order. The symmetries cost what the one that they join
/// to costs, at most half of the final cells in swaps.
///
///     [[1, 2]]   run_deferred([Apply(FlipCols), PushRow([3, 4]), Size])   [Done, Done, Size(2, 2)]   [[2, 1], [3, 4]]
///
/// The list of replies is reserved before the first command.
///
/// Fails: if allocation fails, at a command that takes memory, or before the first command of a list that isn't empty.
/// What is pending is applied first: the grid has the rows after the commands that were done, and their replies come
/// with the error; the commands that remain are dropped.
/// Cost: that of the carried commands, and of one symmetry.
pub fn run_deferred<T, A: Allocator>(
    alloc: A,
    grid: &mut Grid<T, A>,
    commands: Vec<Command<T, A>, A>,
    tally: &mut Tally,
) -> Result<Vec<Reply<T, A>, A>, RunStopped<T, A>>
where
    T: Clone + Default + Drop,
    A: Clone,
    ensures gives { DeferredRunGives T.is_clone T.is_default
        (map command_value commands.items) grid.old grid.new tally.old tally.new result }
    ensures symmetry_grows { tally.old.symmetry ≤ tally.new.symmetry }
    ensures shift_grows { tally.old.shift ≤ tally.new.shift }
{
    let mut replies = Vec::new(alloc);
    if replies.reserve_exact(commands.len()).is_err() {
        return Err(RunStopped { done: 0, replies });
    }
    let mut deferred = Deferred::over(grid);
    for command in commands {
        match deferred.step(command, tally) {
            Ok(reply) => replies.push_reserved(reply),
            Err(_) => {
                deferred.settle(tally);
                let done = replies.len();
                return Err(RunStopped { done, replies });
            }
        }
    }
    deferred.settle(tally);
    Ok(replies)
}
