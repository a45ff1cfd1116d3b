//! The law of both kinds of run: the same list on grids of the same rows, in different orders.
ghost use Rattle.std.specs.Prelude.{◌≡◌, [], ◌∷◌, map, IfOk};
ghost use Rattle.grid.specs.Prelude.{command_value, lines, push, size, apply};
ghost use Rattle.grid_base.specs.declared.words.Symmetry.TheVariants.{RotateLeft};
ghost use Rattle.grid_commands.specs.declared.command.Axis.TheVariants.{Row};

use grid::{Command, Grid, Order, Reply, RunStopped, Symmetry, Tally};
use grid_deferred::laws::run_at_once_and_deferred;
use std::alloc::{AllocError, Global};
use std::process::Abort;
use std::test::Fail;

// A row is pushed, the grid is turned, and its size is asked for.
fn push_and_turn(alloc: Global) -> Result<Vec<Command<u32>>, AllocError>
    ensures { IfOk result (λ list. map command_value list.items
        ≡ lines Row (push (1 ∷ 2 ∷ [])) ∷ apply RotateLeft ∷ size ∷ []) }
{
    let line = vec![in alloc; 1, 2]?;
    Ok(vec![in alloc;
        Command::PushRow(line),
        Command::Apply(Symmetry::RotateLeft),
        Command::Size,
    ]?)
}

fn is_due(replies: &Vec<Reply<u32>>) -> bool {
    replies.as_slice() == [Reply::Done, Reply::Done, Reply::Size(2, 1)].as_slice()
}

fn went(ran: &Result<Vec<Reply<u32>>, RunStopped<u32>>) -> bool {
    match ran {
        Ok(replies) => is_due(replies),
        Err(_) => false,
    }
}

// Whether the grid has the rows 2 and 1.
fn is_turned(grid: &Grid<u32>) -> bool {
    grid.size() == (2, 1) && grid.flatten().as_slice() == [2, 1].as_slice()
}

// Both grids are turned, and stored in different orders.
fn are_turned(grid: &Grid<u32>, other: &Grid<u32>) -> bool {
    is_turned(grid) && is_turned(other) && grid.order() != other.order()
}

fn check_at_once_and_deferred(
    rt: &impl Abort,
    alloc: Global,
    grid: &mut Grid<u32>,
    other: &mut Grid<u32>,
) -> Result<(), AllocError>
    requires { grid.old.rows ≡ other.old.rows }
{
    let first = push_and_turn(alloc)?;
    let second = push_and_turn(alloc)?;
    let (mut tally, mut other_tally) = (Tally::new(), Tally::new());
    let (at_once, deferred) = run_at_once_and_deferred(
        (alloc, alloc),
        grid,
        other,
        first,
        second,
        &mut tally,
        &mut other_tally,
    );
    assert!(rt; went(&at_once) && went(&deferred));
    Ok(())
}

#[test]
fn runs_at_once_and_deferred(rt: HostRuntime) -> Result<(), Fail> {
    let alloc = rt.alloc();
    let mut grid = Grid::empty(alloc);
    let mut other = Grid::with_capacity_and_order(alloc, 0, 0, Order::ColumnMajor)?;
    check_at_once_and_deferred(&rt, alloc, &mut grid, &mut other)?;
    assert!(rt; are_turned(&grid, &other));
    Ok(())
}
