//! A board that is seen through a symmetry, which stays pending or is settled.
use crate::ask::{Ask, symmetry_of};
use crate::case::CaseError;
use crate::shown::{shown, shown_ok, text};
use grid::{Axis, Command, Grid, Reply, Tally};
use grid_deferred::{Deferred, carry_reply};
use std::alloc::{AllocError, Global};

// The cells of a row or a column.
fn line(alloc: Global, deferred: &Deferred<'_, i64>, ask: Ask<'_>) -> Result<String, CaseError> {
    let (at, (rows, cols)) = (ask.number(1), deferred.size());
    match ask.call {
        "iter_row" if at < rows => {
            shown_ok(alloc, deferred.iter_row(at).collect::<Vec<&i64>>(alloc))
        }
        "iter_col" if at < cols => {
            shown_ok(alloc, deferred.iter_col(at).collect::<Vec<&i64>>(alloc))
        }
        _ => text(alloc, "no such line"),
    }
}

fn seen(alloc: Global, deferred: &Deferred<'_, i64>, ask: Ask<'_>) -> Result<String, CaseError> {
    match ask.call {
        "size" => shown(alloc, deferred.size()),
        "get" => shown(alloc, deferred.get(ask.number(1), ask.number(2))),
        "view" => shown(alloc, deferred.view()),
        "pending" => shown(alloc, deferred.pending()),
        _ => line(alloc, deferred, ask),
    }
}

// Applies the symmetries of the first word, between which a plus sign stands, in turn.
fn turn(deferred: &mut Deferred<'_, i64>, ask: Ask<'_>) -> Result<(), AllocError> {
    for name in ask.word(0).split('+') {
        deferred.step(Command::Apply(symmetry_of(name)), &mut Tally::new())?;
    }
    Ok(())
}

// The reply to a command, and the symmetry that is pending after it.
fn stepped(
    alloc: Global,
    deferred: &mut Deferred<'_, i64>,
    command: Command<i64>,
) -> Result<String, CaseError> {
    let reply = deferred.step(command, &mut Tally::new())?;
    Ok(format!(in alloc; "{reply:?}, {:?} is pending", deferred.pending())?)
}

// What is seen through a symmetry, or what a command replies.
fn seen_or_stepped(
    alloc: Global,
    deferred: &mut Deferred<'_, i64>,
    ask: Ask<'_>,
) -> Result<String, CaseError> {
    match ask.call {
        "step_push_row" => stepped(alloc, deferred, Command::PushRow(ask.line(alloc)?)),
        "step_row" => stepped(alloc, deferred, Command::Row(ask.number(1))),
        _ => seen(alloc, deferred, ask),
    }
}

// The same of a board whose symmetry isn't applied in the end.
fn released(alloc: Global, board: &mut Grid<i64>, ask: Ask<'_>) -> Result<String, CaseError> {
    let mut deferred = Deferred::over(board);
    let turned = turn(&mut deferred, ask);
    let text = seen_or_stepped(alloc, &mut deferred, ask);
    deferred.release();
    match turned {
        Ok(()) => text,
        Err(error) => Err(error.into()),
    }
}

// The swaps for which a symmetry is settled.
fn settled(alloc: Global, board: &mut Grid<i64>, ask: Ask<'_>) -> Result<String, CaseError> {
    let mut tally = Tally::new();
    let mut deferred = Deferred::over(board);
    let turned = deferred.step(Command::Apply(ask.symmetry(0)), &mut tally);
    deferred.settle(&mut tally);
    match turned {
        Ok(_) => shown(alloc, (tally.symmetry(), tally.shift())),
        Err(error) => Err(error.into()),
    }
}

// A reply of a row, or of a size.
fn carried(alloc: Global, ask: Ask<'_>) -> Result<String, CaseError> {
    let reply = match ask.call {
        "carry_row" => Reply::Line(Some(ask.line(alloc)?)),
        _ => Reply::Size(ask.number(1), ask.number(2)),
    };
    shown(alloc, carry_reply(ask.symmetry(0), Axis::Row, reply))
}

/// Returns what a call through a symmetry returned.
pub fn actual(alloc: Global, board: &mut Grid<i64>, ask: Ask<'_>) -> Result<String, CaseError> {
    match ask.call {
        "settle" => settled(alloc, board, ask),
        "carry_row" | "carry_size" => carried(alloc, ask),
        _ => released(alloc, board, ask),
    }
}
