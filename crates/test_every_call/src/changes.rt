//! Boards that take back what a command did, and the commands that make one board another.
use crate::commands::{COMMANDS, command};
use crate::state::{Answer, Board, Call, Start, came, is_board};
use grid::Grid;
use grid_changes::{History, change_commands};
use std::alloc::AllocError;
use std::mem;
use test_support::counted::Counted;
use test_support::fixtures::Heap;

pub const CALLS: [Call; 6] = [
    Call("History::step", COMMANDS, None, None),
    Call("History::step_to", 1, None, None),
    Call("History::undo", COMMANDS, None, None),
    Call("History::undo_to", COMMANDS, None, None),
    Call("History::redo", COMMANDS, None, None),
    Call("grid_changes::change_commands", 3, None, None),
];

type Past<'a> = History<Counted<'a>, &'a Heap>;

// The history of the board, of which an empty one is left.
fn over<'a>(start: &'a Start, board: &mut Board<'a>) -> Past<'a> {
    let none = Grid::empty(*board.allocator());
    History::over(&start.heap, mem::replace(board, none))
}

// A step, which leaves all as it was where it is refused.
fn stepped<'a>(start: &'a Start, board: &mut Board<'a>) -> Result<Answer, AllocError> {
    let command = command(start, start.size)?;
    let mut history = over(start, board);
    start.ready();
    let answer = came(history.step(command));
    let kept = history.undo_count();
    *board = history.into_grid();
    Ok(if answer == Answer::Refused && kept != 0 {
        Answer::Wrong
    } else {
        answer
    })
}

// A step to another board, which leaves all as it was where it is refused.
fn stepped_to<'a>(start: &'a Start, board: &mut Board<'a>) -> Result<Answer, AllocError> {
    let other = board.clone()?;
    let mut history = over(start, board);
    start.ready();
    let answer = came(history.step_to(other));
    let kept = history.undo_count();
    *board = history.into_grid();
    Ok(if answer == Answer::Refused && kept != 0 {
        Answer::Wrong
    } else {
        answer
    })
}

// The history of the board after a step.
fn after_step<'a>(start: &'a Start, board: &mut Board<'a>) -> Result<Past<'a>, AllocError> {
    let command = command(start, start.size)?;
    let mut history = over(start, board);
    history.step(command)?;
    Ok(history)
}

// Takes the last step back by one of two calls.
fn take_back(history: &mut Past<'_>, name: &str) -> Answer {
    if name == "History::undo" {
        came(history.undo())
    } else {
        came(history.undo_to(0))
    }
}

// A step is taken back, and the board is the one before. Where that is refused the step is still there, and is taken
// back once there is memory.
fn undone<'a>(start: &'a Start, board: &mut Board<'a>, name: &str) -> Result<Answer, AllocError> {
    let mut history = after_step(start, board)?;
    let steps = history.undo_count();
    start.ready();
    let answer = take_back(&mut history, name);
    let left = history.undo_count();
    if answer == Answer::Refused {
        start.prepare();
        history.undo()?;
    }
    *board = history.into_grid();
    let is_kept = left == if answer == Answer::Refused { steps } else { 0 };
    Ok(if is_kept && is_board(board, start.size, start.order) {
        answer
    } else {
        Answer::Wrong
    })
}

// A step that was taken back is done again. Where that is refused, it can still be.
fn redone<'a>(start: &'a Start, board: &mut Board<'a>) -> Result<Answer, AllocError> {
    let mut history = after_step(start, board)?;
    let steps = history.undo_count();
    history.undo()?;
    start.ready();
    let answer = came(history.redo());
    let left = history.redo_count();
    *board = history.into_grid();
    let is_kept = left == if answer == Answer::Refused { steps } else { 0 };
    Ok(if is_kept { answer } else { Answer::Wrong })
}

// The commands that lead to a board that is the same, to one without a cell that is, or to one whose first cell isn't.
fn changed(start: &Start) -> Result<Answer, AllocError> {
    let (board, mut other) = (start.numbers()?, start.numbers()?);
    match start.case {
        0 => {}
        1 => other.fill_with(one_hundred),
        _ => {
            other.set(0, 0, 100);
        }
    }
    start.ready();
    Ok(came(change_commands(&start.heap, &board, &other)))
}

// A number that no cell of a board of numbers has.
fn one_hundred() -> u32 {
    100
}

pub fn call<'a>(start: &'a Start, board: &mut Board<'a>, name: &str) -> Result<Answer, AllocError> {
    match name {
        "History::step" => stepped(start, board),
        "History::step_to" => stepped_to(start, board),
        "History::undo" | "History::undo_to" => undone(start, board, name),
        "History::redo" => redone(start, board),
        _ => changed(start),
    }
}
