//! Makes each call with no request for memory granted, then with one, with two, and so on until it is done.
//!
//! A case is a line `== CALL NAME`, a script, a line `--`, and what the call comes to in turn, each line once. Below
//! `run` and `run_deferred` the commands of the script are run on its grid: the outcome, the swaps for symmetries and
//! for shifts, and the grid then. Below `from_arrays` two rows of three slots become a grid of the order of the
//! script's: the grid, or the error, and what the slots have then.
use crate::case::{Case, CaseError, shape_error};
use grid::{Command, Grid, Order, Tally, run};
use grid_deferred::run_deferred;
use grid_play::{Script, ScriptFault};
use std::alloc::{AllocError, Allocator, Global};
use std::fmt::Debug;
use test_support::fixtures::{Heap, cut};
use test_support::fuse::Fuse;

// How many requests are granted at most.
const REQUESTS: u64 = 64;

type Starved<'a> = Grid<i64, &'a Heap>;

// What an attempt came to: whether the call was done, and a line with all that is left of it.
#[derive(Drop)]
struct Attempt {
    done: bool,
    line: String,
}

fn outcome_of<T: Debug + Drop, E: Debug + Drop>(
    alloc: Global,
    outcome: Result<T, E>,
) -> Result<Attempt, AllocError> {
    let done = outcome.is_ok();
    let line = format!(in alloc; "{outcome:?}")?;
    Ok(Attempt { done, line })
}

// Adds a grid: its size, its order and its storage.
fn with_grid<A: Allocator>(attempt: Attempt, grid: &Grid<i64, A>) -> Result<Attempt, AllocError> {
    let Attempt { done, mut line } = attempt;
    let (size, order, stored) = (grid.size(), grid.order(), grid.flatten());
    write!(&mut line, " {size:?} {order:?} {stored:?}")?;
    Ok(Attempt { done, line })
}

fn parsed<A: Allocator + Clone>(alloc: A, script: &str) -> Result<Script<A>, CaseError> {
    match Script::parse(alloc, script.as_bytes()) {
        Ok(script) => Ok(script),
        Err(ScriptFault::Memory) => Err(CaseError::Memory),
        Err(_) => Err(CaseError::BadScript),
    }
}

// The same grid, whose vector has no room to spare.
fn exact<'a>(grid: &Starved<'a>) -> Result<Starved<'a>, CaseError> {
    let cells = Vec::from_slice(*grid.allocator(), grid.flatten().as_slice())?;
    match cut(cells, grid.cols(), grid.order()) {
        Ok(grid) => Ok(grid),
        Err(error) => Err(shape_error(error, CaseError::BadBoard)),
    }
}

// The grid of a script, whose vector has no room to spare, and its commands.
fn started<'a>(heap: &'a Heap, script: &str) -> Result<Script<&'a Heap>, CaseError> {
    heap.grant(u64::MAX);
    let Script { grid, commands } = parsed(heap, script)?;
    let grid = exact(&grid)?;
    Ok(Script { grid, commands })
}

// Adds the swaps of a run.
fn with_swaps(attempt: Attempt, tally: &Tally) -> Result<Attempt, AllocError> {
    let Attempt { done, mut line } = attempt;
    let swaps = (tally.symmetry(), tally.shift());
    write!(&mut line, " swaps {swaps:?}")?;
    Ok(Attempt { done, line })
}

// What a run on a grid comes to.
fn run_on<'a>(
    alloc: Global,
    heap: &'a Heap,
    grid: &mut Starved<'a>,
    commands: Vec<Command<i64, &'a Heap>, &'a Heap>,
    deferred: bool,
) -> Result<Attempt, AllocError> {
    let mut tally = Tally::new();
    let ran = if deferred {
        run_deferred(heap, grid, commands, &mut tally)
    } else {
        run(heap, grid, commands, &mut tally)
    };
    with_grid(with_swaps(outcome_of(alloc, ran)?, &tally)?, grid)
}

fn try_run(
    alloc: Global,
    script: &str,
    granted: u64,
    deferred: bool,
) -> Result<Attempt, CaseError> {
    let heap = Fuse::new(alloc, 0);
    let Script { mut grid, commands } = started(&heap, script)?;
    heap.grant(granted);
    Ok(run_on(alloc, &heap, &mut grid, commands, deferred)?)
}

// The grid that a call made, or why there is none.
fn made<A: Allocator, E: Debug + Drop>(
    alloc: Global,
    returned: Result<Grid<i64, A>, E>,
) -> Result<Attempt, AllocError> {
    match returned {
        Ok(grid) => with_grid(outcome_of::<(), E>(alloc, Ok(()))?, &grid),
        Err(fault) => outcome_of::<(), E>(alloc, Err(fault)),
    }
}

fn from_arrays(alloc: Global, heap: &Heap, order: Order) -> Result<Attempt, AllocError> {
    let mut slots = [[Some(1i64), Some(2), Some(3)], [Some(4), Some(5), Some(6)]];
    let Attempt { done, mut line } = made(alloc, Starved::from_arrays(heap, order, &mut slots))?;
    write!(&mut line, " from {slots:?}")?;
    Ok(Attempt { done, line })
}

fn try_arrays(alloc: Global, script: &str, granted: u64) -> Result<Attempt, CaseError> {
    let order = parsed(alloc, script)?.grid.order();
    let heap = Fuse::new(alloc, granted);
    Ok(from_arrays(alloc, &heap, order)?)
}

fn try_call(alloc: Global, case: Case<'_>, granted: u64) -> Result<Attempt, CaseError> {
    let (call, _) = case.call();
    match call {
        "run" => try_run(alloc, case.given, granted, false),
        "run_deferred" => try_run(alloc, case.given, granted, true),
        "from_arrays" => try_arrays(alloc, case.given, granted),
        _ => Err(CaseError::UnknownCall),
    }
}

// Adds a line, unless it is the last one.
fn add_line(lines: &mut String, line: &str) -> Result<(), AllocError> {
    if lines.lines().last() == Some(line) {
        return Ok(());
    }
    lines.push_str(line)?;
    lines.push('\n')
}

/// Returns the lines that a call comes to in turn, each once where several attempts come to the same.
pub fn actual(alloc: Global, case: Case<'_>) -> Result<String, CaseError> {
    let mut lines = String::new(alloc);
    for granted in 0..REQUESTS {
        let Attempt { done, line } = try_call(alloc, case, granted)?;
        add_line(&mut lines, line.as_str())?;
        if done {
            return Ok(lines);
        }
    }
    add_line(&mut lines, "never done")?;
    Ok(lines)
}
