//! Runs of commands.
ghost use Rattle.std.specs.Prelude.{◌≤◌, map};
ghost use Rattle.grid.specs.Prelude.{command_value, RunGives};

use crate::Grid;
use grid_base::Tally;
use grid_commands::{Command, Reply, RunStopped};
use std::alloc::Allocator;

/// Executes a list of commands in turn, each as [`Grid::step`] does it, and returns their replies.
///
///     [[1, 2]]   run([Apply(FlipCols), PushRow([3, 4]), Size])   [Done, Done, Size(2, 2)]   [[2, 1], [3, 4]]
///
/// The list of replies is reserved before the first command.
///
/// Fails: if allocation fails, at a command that takes memory, or before the first command of a list that isn't empty.
/// The grid has the rows after the commands that were done, and their replies come with the error; the commands that
/// remain are dropped.
/// Cost: that of the commands.
pub fn run<T, A: Allocator>(
    alloc: A,
    grid: &mut Grid<T, A>,
    commands: Vec<Command<T, A>, A>,
    tally: &mut Tally,
) -> Result<Vec<Reply<T, A>, A>, RunStopped<T, A>>
where
    T: Clone + Default + Drop,
    A: Clone,
    ensures gives { RunGives T.is_clone T.is_default
        (map command_value commands.items) grid.old grid.new tally.old tally.new result }
    ensures symmetry_grows { tally.old.symmetry ≤ tally.new.symmetry }
    ensures shift_grows { tally.old.shift ≤ tally.new.shift }
{
    let mut replies = Vec::new(alloc);
    if replies.reserve_exact(commands.len()).is_err() {
        return Err(RunStopped { done: 0, replies });
    }
    for command in commands {
        match grid.step(command, tally) {
            Ok(reply) => replies.push_reserved(reply),
            Err(_) => {
                let done = replies.len();
                return Err(RunStopped { done, replies });
            }
        }
    }
    Ok(replies)
}
