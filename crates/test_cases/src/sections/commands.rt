//! Lists of lines that no script can write, inserted by a command in both kinds of run.
use crate::ask::Ask;
use crate::case::CaseError;
use crate::shown::shown;
use grid::{Command, Grid, Tally, run};
use grid_deferred::run_deferred;
use std::alloc::Global;

// A symmetry, and lines that are inserted at a row.
fn insertion(alloc: Global, ask: Ask<'_>) -> Result<Vec<Command<i64>>, CaseError> {
    let mut commands = vec![in alloc; Command::Apply(ask.symmetry(0))]?;
    commands.push(Command::InsertRows(ask.number(1), ask.lines(alloc)?))?;
    Ok(commands)
}

/// Returns what a run replied.
pub fn actual(alloc: Global, board: &mut Grid<i64>, ask: Ask<'_>) -> Result<String, CaseError> {
    let commands = insertion(alloc, ask)?;
    let mut tally = Tally::new();
    match ask.call {
        "run_insert_rows" => shown(alloc, run(alloc, board, commands, &mut tally)),
        "run_deferred_insert_rows" => shown(
            alloc,
            run_deferred(alloc, board, commands, &mut tally),
        ),
        _ => Err(CaseError::UnknownCall),
    }
}
