//! Runs each script of the cases at once and deferred: its swaps and the grid after it are the expected lines.
//!
//! A case is a line `== NAME`, a script, a line `--`, and a line for each kind of run: the swaps for symmetries and for
//! shifts, the size, the order and the storage. Below a name that begins with `carry`, the script is a grid, a symmetry
//! and a command, and the line is the command that `carry` makes of it.
use crate::case::{Case, CaseError};
use grid::{Command, Grid, Tally, run};
use grid_deferred::{carry, run_deferred};
use grid_play::{Script, ScriptFault};
use std::alloc::{AllocError, Global};

// The text of the swaps of a run, and of the grid after it.
fn counted(alloc: Global, grid: &Grid<i64>, tally: &Tally) -> Result<String, AllocError> {
    let counts = (tally.symmetry(), tally.shift());
    format!(in alloc;
        "{counts:?} {:?} {:?} {:?}\n",
        grid.size(),
        grid.order(),
        grid.flatten()
    )
}

// Runs a script. A run stops only where there is no memory.
fn ran(alloc: Global, script: Script, deferred: bool) -> Result<String, AllocError> {
    let Script { mut grid, commands } = script;
    let mut tally = Tally::new();
    let stopped = if deferred {
        run_deferred(alloc, &mut grid, commands, &mut tally).is_err()
    } else {
        run(alloc, &mut grid, commands, &mut tally).is_err()
    };
    if stopped {
        return Err(AllocError);
    }
    counted(alloc, &grid, &tally)
}

// The command that is carried through the symmetry before it.
fn carried(alloc: Global, script: Script) -> Result<String, AllocError> {
    let Script { grid, mut commands } = script;
    let command = commands.pop();
    match (commands.pop(), command) {
        (Some(Command::Apply(symmetry)), Some(command)) => {
            let carried = carry(symmetry, grid.size(), command);
            format!(in alloc; "{carried:?}\n")
        }
        _ => String::from_str(alloc, "no symmetry before a command\n"),
    }
}

fn parsed(alloc: Global, text: &str) -> Result<Script, CaseError> {
    match Script::parse(alloc, text.as_bytes()) {
        Ok(script) => Ok(script),
        Err(ScriptFault::Memory) => Err(CaseError::Memory),
        Err(_) => Err(CaseError::BadScript),
    }
}

// The line of one kind of run.
fn line_of(alloc: Global, script: &str, deferred: bool) -> Result<String, CaseError> {
    Ok(ran(alloc, parsed(alloc, script)?, deferred)?)
}

/// Returns the lines of both kinds of run, or that of the command that is carried.
pub fn actual(alloc: Global, case: Case<'_>) -> Result<String, CaseError> {
    if case.title.starts_with("carry") {
        return Ok(carried(alloc, parsed(alloc, case.given)?)?);
    }
    let mut lines = line_of(alloc, case.given, false)?;
    lines.push_str(line_of(alloc, case.given, true)?.as_str())?;
    Ok(lines)
}
