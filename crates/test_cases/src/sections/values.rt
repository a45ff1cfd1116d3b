//! What values print, and how they compare.
use crate::ask::{Ask, move_of};
use crate::case::CaseError;
use crate::shown::{shown, shown_ok};
use grid::{
    Command, GridError, LineRefused, LinesRefused, Move, Order, Reply, RunStopped, ShapeError,
};
use std::alloc::{AllocError, Global};
use std::fmt::{Debug, Display};
use std::hash::{DefaultHasher, Hash, Hasher};

fn printed<T: Display + Drop>(alloc: Global, value: T) -> Result<String, CaseError> {
    Ok(format!(in alloc; "{value}")?)
}

fn grid_error(word: &str) -> GridError {
    match word {
        "TooLarge" => GridError::TooLarge,
        _ => GridError::Memory,
    }
}

fn shape_error(ask: Ask<'_>) -> ShapeError {
    match ask.word(0) {
        "TooLarge" => ShapeError::TooLarge,
        "Shape" => ShapeError::Shape {
            len: ask.number(1),
            cols: ask.number(2),
        },
        "Ragged" => ShapeError::Ragged {
            row: ask.number(1),
            len: ask.number(2),
            cols: ask.number(3),
        },
        _ => ShapeError::Memory,
    }
}

fn line_refused(alloc: Global, ask: Ask<'_>) -> Result<LineRefused<i64>, CaseError> {
    Ok(LineRefused {
        line: ask.line(alloc)?,
        fault: grid_error(ask.word(0)),
    })
}

fn lines_refused(alloc: Global, ask: Ask<'_>) -> Result<LinesRefused<i64>, CaseError> {
    Ok(LinesRefused {
        lines: ask.lines(alloc)?,
        fault: grid_error(ask.word(0)),
    })
}

// A run that stopped after one command, which replied this size.
fn stopped(alloc: Global, (rows, cols): (usize, usize)) -> Result<RunStopped<i64>, AllocError> {
    Ok(RunStopped {
        done: 1,
        replies: vec![in alloc; Reply::Size(rows, cols)]?,
    })
}

// A run that stopped after `done` commands, whose replies are left out.
fn stopped_after(alloc: Global, done: usize) -> RunStopped<i64> {
    RunStopped {
        done,
        replies: Vec::new(alloc),
    }
}

fn shown_owner<T: Debug + Drop>(
    alloc: Global,
    value: Result<T, CaseError>,
) -> Result<String, CaseError> {
    shown(alloc, value?)
}

fn printed_owner<T: Display + Drop>(
    alloc: Global,
    value: Result<T, CaseError>,
) -> Result<String, CaseError> {
    printed(alloc, value?)
}

// The texts for users of values that own memory.
fn printed_owners(alloc: Global, ask: Ask<'_>) -> Result<String, CaseError> {
    match ask.call {
        "line_refused_text" => printed_owner(alloc, line_refused(alloc, ask)),
        "lines_refused_text" => printed_owner(alloc, lines_refused(alloc, ask)),
        "run_stopped_text" => printed(alloc, stopped_after(alloc, ask.number(0))),
        _ => Err(CaseError::UnknownCall),
    }
}

// A command that gets a cell.
fn get_command(ask: Ask<'_>, at: usize) -> Command<i64> {
    let (row, col) = ask.position(at);
    Command::Get(row, col)
}

// The texts for programmers of values that own memory.
fn shown_owners(alloc: Global, ask: Ask<'_>) -> Result<String, CaseError> {
    match ask.call {
        "line_refused" => shown_owner(alloc, line_refused(alloc, ask)),
        "lines_refused" => shown_owner(alloc, lines_refused(alloc, ask)),
        "run_stopped" => shown_ok(alloc, stopped(alloc, ask.position(0))),
        "command_get" => shown(alloc, get_command(ask, 0)),
        "reply_cell" => shown(alloc, Reply::<i64>::Cell(Some(ask.cell(0)))),
        _ => printed_owners(alloc, ask),
    }
}

fn hash_of(order: Order) -> u64 {
    let mut hasher = DefaultHasher::new();
    order.hash(&mut hasher);
    hasher.finish()
}

// Whether two values are equal, and whether they differ.
fn compared<T: PartialEq + Drop>(alloc: Global, one: T, other: T) -> Result<String, CaseError> {
    let (equal, different) = (one == other, one != other);
    Ok(format!(in alloc; "equal {equal}, different {different}")?)
}

fn compared_replies(alloc: Global, ask: Ask<'_>) -> Result<String, CaseError> {
    let cell = Reply::<i64>::Cell(Some(ask.cell(0)));
    match ask.word(1) {
        "done" => compared(alloc, cell, Reply::Done),
        _ => compared(alloc, cell, Reply::Cell(Some(ask.cell(1)))),
    }
}

// Two runs that stopped after one command.
fn compared_stopped(alloc: Global, ask: Ask<'_>) -> Result<String, CaseError> {
    let run = stopped(alloc, ask.position(0))?;
    compared(alloc, run, stopped(alloc, ask.position(2))?)
}

fn compared_owners(alloc: Global, ask: Ask<'_>) -> Result<String, CaseError> {
    match ask.call {
        "compare_gets" => compared(alloc, get_command(ask, 0), get_command(ask, 2)),
        "compare_size_with" => compared(
            alloc,
            Command::<i64>::Size,
            Command::Apply(ask.symmetry(0)),
        ),
        "compare_replies" => compared_replies(alloc, ask),
        "compare_stopped" => compared_stopped(alloc, ask),
        _ => shown_owners(alloc, ask),
    }
}

fn step(ask: Ask<'_>, at: usize) -> Result<Move, CaseError> {
    move_of(ask.word(at)).ok_or(CaseError::BadArgument)
}

fn compared_moves(
    alloc: Global,
    one: Result<Move, CaseError>,
    other: Result<Move, CaseError>,
) -> Result<String, CaseError> {
    compared(alloc, one?, other?)
}

// Of two names: how the values compare.
fn compared_names(alloc: Global, ask: Ask<'_>) -> Result<String, CaseError> {
    match ask.call {
        "compare_orders" => compared(alloc, ask.order(0), ask.order(1)),
        "compare_symmetries" => compared(alloc, ask.symmetry(0), ask.symmetry(1)),
        "compare_moves" => compared_moves(alloc, step(ask, 0), step(ask, 1)),
        "hash_orders" => shown(alloc, hash_of(ask.order(0)) == hash_of(ask.order(1))),
        _ => compared_owners(alloc, ask),
    }
}

/// Returns what a value prints, or how two compare.
pub fn actual(alloc: Global, ask: Ask<'_>) -> Result<String, CaseError> {
    match ask.call {
        "grid_error" => printed(alloc, grid_error(ask.word(0))),
        "shape_error" => printed(alloc, shape_error(ask)),
        "order" => shown_ok(alloc, ask.order(0).clone()),
        "default_order" => shown(alloc, Order::default()),
        "symmetry" => shown_ok(alloc, ask.symmetry(0).clone()),
        "move" => shown_ok(alloc, step(ask, 0)?.clone()),
        _ => compared_names(alloc, ask),
    }
}
