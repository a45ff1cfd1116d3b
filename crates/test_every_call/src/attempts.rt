//! A call on all small boards, with all memory and with each request refused in turn.
use crate::state::{Answer, Board, Call, Start, is_board, made as made_of};
use crate::{
    changes, commands, copies, csv, edits, json, lines, makers, maps, paths, pictures, texts,
};
use grid::Order;
use std::alloc::{AllocError, Global};
use std::io;
use test_support::fixtures::{ORDERS, SIZES};
use test_support::line_edits::push_row;

// The modules that make the calls.
#[derive(Clone, Copy)]
pub enum Group {
    Changes,
    Commands,
    Copies,
    Csv,
    Edits,
    Json,
    Lines,
    Makers,
    Maps,
    Paths,
    Pictures,
    Texts,
}

// A call on a board: its group, its name, which of its cases; the size and the order of the board.
#[derive(Clone, Copy)]
struct Trial {
    group: Group,
    call: Call,
    case: usize,
    size: (usize, usize),
    order: Order,
}

// What an attempt came to: how many requests it took, clones among them, how many were for memory, how often it called
// its closure, how often the closure was refused, how often it was called out of storage order, and how many blocks and
// cells were held in the end.
#[derive(Clone, Copy)]
struct Seen {
    answer: Answer,
    taken: u64,
    blocks: u64,
    calls: u64,
    refusals: u64,
    strays: u64,
    held: u64,
}

// Gives the vector of a board in column-major order room to spare, where the board is empty or has memory for all: by a
// row that is pushed and deleted.
fn give_room<'a>(start: &'a Start, board: &mut Board<'a>) -> Result<(), AllocError> {
    let (rows, cols) = start.size;
    if start.order == Order::RowMajor || (rows > 0 && is_refused_on(start.size)) {
        return Ok(());
    }
    made_of(push_row(board, start.line(cols.max(1))?))?;
    board.delete_rows(rows, 1);
    Ok(())
}

fn called<'a>(
    start: &'a Start,
    board: &mut Board<'a>,
    group: Group,
    name: &str,
) -> Result<Answer, AllocError> {
    match group {
        Group::Changes => changes::call(start, board, name),
        Group::Commands => commands::call(start, board, name),
        Group::Copies => copies::call(start, board, name),
        Group::Csv => csv::call(start, name),
        Group::Edits => edits::call(start, board, name),
        Group::Json => json::call(start, name),
        Group::Lines => lines::call(start, board, name),
        Group::Makers => makers::call(start, board, name),
        Group::Maps => maps::call(start, board, name),
        Group::Paths => paths::call(start, name),
        Group::Pictures => pictures::call(start, name),
        Group::Texts => texts::call(start, name),
    }
}

// Makes the call on a new board, which is then dropped.
fn made(start: &Start, group: Group, name: &str) -> Result<Answer, AllocError> {
    start.prepare();
    let mut board = start.board(start.size, start.order)?;
    give_room(start, &mut board)?;
    let answer = called(start, &mut board, group, name)?;
    if answer == Answer::Refused && !is_board(&board, start.size, start.order) {
        return Ok(Answer::Wrong);
    }
    Ok(answer)
}

// An attempt whose preparation finds no memory is wrong too.
fn attempt(alloc: Global, trial: Trial, granted: u64) -> Seen {
    let start = Start::new(alloc, trial.size, trial.order, trial.case, granted);
    let answer = made(&start, trial.group, trial.call.0);
    Seen {
        answer: answer.unwrap_or(Answer::Wrong),
        taken: granted.wrapping_sub(start.heap.left()),
        blocks: start.heap.granted(),
        calls: start.calls.get(),
        refusals: start.refusals.get(),
        strays: start.strays.get(),
        held: start.heap.held(),
    }
}

// Whether a number is the promised one for each of `each`.
fn keeps(promise: Option<u64>, found: u64, each: usize) -> bool {
    match promise {
        Some(promised) => found == promised.wrapping_mul(each as u64),
        None => true,
    }
}

// What is wrong with an attempt that has memory for all, or nothing.
fn fault_with_all(trial: Trial, seen: Seen) -> Option<&'static str> {
    let cells = trial.size.0.wrapping_mul(trial.size.1);
    match seen.answer {
        Answer::Skipped => None,
        Answer::Refused | Answer::Stopped => Some("is refused with memory for all"),
        Answer::Wrong => Some("answers something else"),
        Answer::Done if seen.strays != 0 => Some("visits the cells in another order"),
        Answer::Done if !keeps(trial.call.2, seen.blocks, cells.min(1)) => {
            Some("makes another number of requests")
        }
        Answer::Done if !keeps(trial.call.3, seen.calls, cells) => {
            Some("calls its closure another number of times")
        }
        Answer::Done if seen.held != 0 => Some("leaks"),
        Answer::Done => None,
    }
}

// What is wrong with an attempt that has some requests, or nothing.
fn fault_with_some(trial: Trial, seen: Seen) -> Option<&'static str> {
    // (such a call asks for all its memory before it calls its closure)
    let asks_for_more = match (trial.call.2, trial.call.3) {
        (Some(promised), Some(_)) => seen.blocks < promised,
        _ => false,
    };
    match seen.answer {
        Answer::Wrong => Some("answers something else, or leaves the board changed"),
        Answer::Refused if seen.calls != 0 && asks_for_more => {
            Some("calls its closure before it asks for memory")
        }
        _ if seen.refusals > 1 => Some("calls its closure again after that was refused"),
        _ if seen.held != 0 => Some("leaks"),
        _ => None,
    }
}

// Prints a fault, if there is one, and returns how many there are.
fn printed<R: Print>(
    rt: &R,
    trial: Trial,
    granted: u64,
    fault: Option<&'static str>,
) -> io::Result<u64> {
    let Some(fault) = fault else {
        return Ok(0);
    };
    let Trial {
        call,
        case,
        size,
        order,
        ..
    } = trial;
    println!(rt;
        "FAILED {} case {case} on {size:?} {order:?}, {granted} granted: it {fault}",
        call.0
    )?;
    Ok(1)
}

// A board on which sizes show that no small one has. It has memory for all.
const LARGE: (usize, usize) = (5, 8);

// Whether requests are refused on a board of this size: one of at most two rows, on which a vector grows twice. Larger
// boards have memory for all.
fn is_refused_on((rows, _): (usize, usize)) -> bool {
    rows <= 2
}

// Whether the requests of a trial are refused: on boards of three rows too where a call makes a vector for each line.
fn is_refused(trial: Trial) -> bool {
    is_refused_on(trial.size) || (matches!(trial.group, Group::Lines) && trial.size != LARGE)
}

// Makes a call with memory for all, and on a small board with each smaller number of requests. Returns how often it was
// made.
fn try_case<R: Print + AllocGlobal>(rt: &R, trial: Trial) -> io::Result<u64> {
    let all = attempt(rt.alloc(), trial, u64::MAX);
    if all.answer == Answer::Skipped {
        return Ok(0);
    }
    printed(rt, trial, u64::MAX, fault_with_all(trial, all))?;
    if !is_refused(trial) {
        return Ok(1);
    }
    for granted in 0..all.taken {
        let seen = attempt(rt.alloc(), trial, granted);
        printed(rt, trial, granted, fault_with_some(trial, seen))?;
    }
    Ok(all.taken.saturating_add(1))
}

// Tries a call on the boards of a size. Returns how many attempts there were.
fn try_size<R: Print + AllocGlobal>(
    rt: &R,
    group: Group,
    call: Call,
    size: (usize, usize),
) -> io::Result<u64> {
    let mut attempts = 0u64;
    for order in ORDERS {
        for case in 0..call.1 {
            let trial = Trial {
                group,
                call,
                case,
                size,
                order,
            };
            attempts = attempts.saturating_add(try_case(rt, trial)?);
        }
    }
    Ok(attempts)
}

// Tries each call of a group on all boards, and prints how many attempts there were.
pub fn try_all<R: Print + AllocGlobal>(rt: &R, group: Group, calls: &[Call]) -> io::Result<()> {
    for call in calls {
        let mut attempts = try_size(rt, group, *call, LARGE)?;
        for size in SIZES {
            attempts = attempts.saturating_add(try_size(rt, group, *call, size)?);
        }
        println!(rt; "{}: {attempts} attempts", call.0)?;
    }
    Ok(())
}
