//! What changed between two boards, and boards that take steps back.
use crate::ask::Ask;
use crate::case::{CaseError, shape_error};
use crate::shown::{shown, shown_ok, text};
use grid::{Command, Grid, Symmetry};
use grid_changes::{History, change_commands, changes};
use std::alloc::Global;
use std::convert::TryFrom;
use std::mem;

// The command of this name.
fn command_of(alloc: Global, name: &str, ask: Ask<'_>) -> Result<Command<i64>, CaseError> {
    Ok(match name {
        "size" => Command::Size,
        "get" => Command::Get(0, 1),
        "set" => Command::Set(0, 1, 9),
        "set_outside" => Command::Set(9, 9, 9),
        "swap" => Command::Swap((0, 0), (0, 1)),
        "push_row" => Command::PushRow(ask.line(alloc)?),
        "push_col" => Command::PushCol(ask.line(alloc)?),
        "insert_rows" => Command::InsertRows(1, ask.lines(alloc)?),
        "insert_cols" => Command::InsertCols(1, ask.lines(alloc)?),
        "remove_row" => Command::RemoveRow(0),
        "pop_col" => Command::PopCol,
        "delete_rows" => Command::DeleteRows(0, 2),
        "delete_cols" => Command::DeleteCols(1, 2),
        "expand_rows" => Command::ExpandRows(1),
        "prepend_cols" => Command::PrependCols(2),
        "fill" => Command::Fill(7),
        "turn" => Command::Apply(Symmetry::RotateLeft),
        "clear" => Command::Clear,
        _ => return Err(CaseError::BadArgument),
    })
}

// Keeps the last steps of a history.
fn kept(alloc: Global, history: &mut History<i64>, count: usize) -> Result<String, CaseError> {
    history.keep(count);
    text(alloc, "kept")
}

// What one step of a history returned: a reply, or whether there was a step to undo or to redo.
fn step(
    alloc: Global,
    history: &mut History<i64>,
    name: &str,
    ask: Ask<'_>,
) -> Result<String, CaseError> {
    match name {
        "undo" => shown_ok(alloc, history.undo()),
        "redo" => shown_ok(alloc, history.redo()),
        "forget" => {
            history.forget();
            text(alloc, "forgotten")
        }
        "undo_to_0" => shown_ok(alloc, history.undo_to(0)),
        "undo_to_1" => shown_ok(alloc, history.undo_to(1)),
        "undo_to_2" => shown_ok(alloc, history.undo_to(2)),
        "undo_to_3" => shown_ok(alloc, history.undo_to(3)),
        "undo_to_5" => shown_ok(alloc, history.undo_to(5)),
        "keep_0" => kept(alloc, history, 0),
        "keep_1" => kept(alloc, history, 1),
        "keep_2" => kept(alloc, history, 2),
        "keep_5" => kept(alloc, history, 5),
        "step_to" => {
            let cells = vec![in alloc; 8]?;
            shown_ok(alloc, history.step_to(Grid::from_vec(cells, 1)))
        }
        _ => shown_ok(alloc, history.step(command_of(alloc, name, ask)?)),
    }
}

// What each step of a history returned, and how many can be undone and redone.
fn steps(alloc: Global, history: &mut History<i64>, ask: Ask<'_>) -> Result<String, CaseError> {
    let mut shown = String::new(alloc);
    for name in ask.rest.split_whitespace() {
        let returned = step(alloc, history, name, ask)?;
        shown.push_str(returned.as_str())?;
        shown.push_str(", ")?;
    }
    let (undo, redo) = (history.undo_count(), history.redo_count());
    let counts = format!(in alloc; "{undo} to undo, {redo} to redo")?;
    shown.push_str(counts.as_str())?;
    Ok(shown)
}

// The same of a history of the board, which is then what the history leaves.
fn history(alloc: Global, board: &mut Grid<i64>, ask: Ask<'_>) -> Result<String, CaseError> {
    let mut history = History::over(alloc, mem::replace(board, Grid::empty(alloc)));
    let shown = steps(alloc, &mut history, ask)?;
    *board = history.into_grid();
    Ok(shown)
}

// What changed from a board to another.
fn differences(
    alloc: Global,
    old: &Grid<i64>,
    new: &Grid<i64>,
    ask: Ask<'_>,
) -> Result<String, CaseError> {
    match ask.call {
        "changes" => shown_ok(
            alloc,
            changes(old, new).collect::<Vec<((usize, usize), &i64)>>(alloc),
        ),
        "change_commands" => shown_ok(alloc, change_commands(alloc, old, new)),
        _ => Err(CaseError::UnknownCall),
    }
}

/// Returns what a call on a history or on two boards returned.
pub fn actual(alloc: Global, board: &mut Grid<i64>, ask: Ask<'_>) -> Result<String, CaseError> {
    if ask.call == "history" {
        return history(alloc, board, ask);
    }
    match Grid::try_from(ask.lines(alloc)?) {
        Ok(other) => differences(alloc, board, &other, ask),
        Err(error) => Err(shape_error(error, CaseError::BadArgument)),
    }
}
