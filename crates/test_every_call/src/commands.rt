//! Commands, one by one and in runs, at once and deferred, and scripts.
use crate::state::{
    Answer, Board, Call, Start, came, came_of, fitting, is_board, line_came, run_came,
};
use grid::{Command, Order, Symmetry, Tally, run};
use grid_deferred::{Deferred, run_deferred};
use grid_laws::{
    insert_col_or_row_across, push_row_then_pop_row, run_deferred_by_least, run_in_either_order,
    step_by_least,
};
use grid_play::laws::plays_alike;
use grid_play::{Script, ScriptFault, play};
use std::alloc::AllocError;
use test_support::counted::Counted;
use test_support::fixtures::{Heap, SYMMETRIES};

// How many commands are tried.
pub const COMMANDS: usize = 16;

pub const CALLS: [Call; 12] = [
    Call("Grid::step", COMMANDS, None, None),
    Call("Deferred::step", 8 * COMMANDS, None, None),
    Call("grid_laws::step_by_least", COMMANDS, None, None),
    Call("grid::run", 1, None, None),
    Call("grid_deferred::run_deferred", 1, None, None),
    Call("grid_laws::run_deferred_by_least", 1, None, None),
    Call("grid_laws::push_row_then_pop_row", 1, None, None),
    Call("grid_laws::insert_col_or_row_across", 1, None, None),
    Call("grid_laws::run_in_either_order", 1, None, None),
    Call("Script::parse", 9, None, None),
    Call("grid_play::play", 10, None, None),
    Call("grid_play::plays_alike", 5, None, None),
];

pub type Given<'a> = Command<Counted<'a>, &'a Heap>;

// The command of a case, for a board of this size. `test_command_lists` has all commands, with memory for all.
pub fn command<'a>(
    start: &'a Start,
    (rows, cols): (usize, usize),
) -> Result<Given<'a>, AllocError> {
    Ok(match start.case % COMMANDS {
        0 => Command::Fill(start.given(7)),
        1 => Command::PushRow(start.line(fitting(cols))?),
        2 => Command::InsertCols(0, start.lines(2, fitting(rows))?),
        3 => Command::Row(0),
        4 => Command::RemoveCol(0),
        5 => Command::ExpandRows(2),
        6 => Command::Get(0, 0),
        // (too long, and out of range)
        7 => Command::PushRow(start.line(fitting(cols).saturating_add(1))?),
        8 => Command::Set(rows, cols, start.given(7)),
        // (no lines, in a list with room)
        9 => Command::InsertRows(0, Vec::with_capacity(&start.heap, 1)?),
        10 => Command::Set(0, 0, start.given(7)),
        11 => Command::Col(0),
        12 => Command::InsertRow(rows, start.line(fitting(cols))?),
        13 => Command::Row(rows.saturating_sub(2)),
        14 => Command::Col(cols.saturating_sub(2)),
        // (too long)
        _ => Command::InsertCols(0, start.lines(2, fitting(rows).saturating_add(1))?),
    })
}

fn stepped<'a>(start: &'a Start, board: &mut Board<'a>, name: &str) -> Result<Answer, AllocError> {
    let command = command(start, start.size)?;
    start.ready();
    let mut tally = Tally::new();
    Ok(if name == "Grid::step" {
        came(board.step(command, &mut tally))
    } else {
        came(step_by_least(board, command, &mut tally))
    })
}

// On the board through a symmetry, which isn't applied in the end. The last four exchange rows and columns.
fn stepped_deferred<'a>(start: &'a Start, board: &mut Board<'a>) -> Result<Answer, AllocError> {
    let number = start.case / COMMANDS;
    let symmetry = SYMMETRIES
        .get(number)
        .copied()
        .unwrap_or(Symmetry::Identity);
    let size = if number < 4 {
        start.size
    } else {
        (start.size.1, start.size.0)
    };
    let command = command(start, size)?;
    start.ready();
    let mut tally = Tally::new();
    let mut deferred = Deferred::over(board);
    let turned = came(deferred.step(Command::Apply(symmetry), &mut tally));
    let answer = came(deferred.step(command, &mut tally));
    let pending = deferred.release();
    if turned != Answer::Done || pending != symmetry {
        return Ok(Answer::Wrong);
    }
    Ok(answer)
}

fn commands<'a>(start: &'a Start) -> Result<Vec<Given<'a>, &'a Heap>, AllocError> {
    let (rows, cols) = start.size;
    let mut list = Vec::new(&start.heap);
    list.push(Command::PushRow(start.line(fitting(cols))?))?;
    list.push(Command::Apply(Symmetry::RotateLeft))?;
    list.push(Command::Row(0))?;
    list.push(Command::PushRow(start.line(rows.saturating_add(1))?))?;
    list.push(Command::Fill(start.given(7)))?;
    list.push(Command::PopCol)?;
    Ok(list)
}

// A run that is refused has done some commands.
fn ran<'a>(start: &'a Start, board: &mut Board<'a>, name: &str) -> Result<Answer, AllocError> {
    let list = commands(start)?;
    start.ready();
    let mut tally = Tally::new();
    let outcome = match name {
        "grid::run" => run(&start.heap, board, list, &mut tally),
        "grid_deferred::run_deferred" => run_deferred(&start.heap, board, list, &mut tally),
        _ => run_deferred_by_least(&start.heap, board, list, &mut tally),
    };
    Ok(match run_came(outcome) {
        Answer::Refused => Answer::Stopped,
        answer => answer,
    })
}

// Scripts of all commands, one without any, and one whose commands are refused.
const SCRIPTS: [&[u8]; 5] = [
    b"ColumnMajor 2 1 3 2 4\n\npush_row 5 6\nrotate_left\nrow 0\nfill 7\npop_col\ninsert_rows 0 2 8 8 9 9\n",
    b"RowMajor 1 5\n",
    b"RowMajor 0\nsize\npush_col 1 2 3\ninsert_cols 1 3 4 5 6 7 8 9\nremove_row 1\nremove_col 0\nexpand_cols 2\nprepend_rows 1\nset 0 0 -9\nget 0 0\nswap 0 0 1 1\ncol 0\nrow 1\ndelete_row 0\ndelete_cols 0 1\ninsert_rows 0 1 5\n",
    b"ColumnMajor 3 1 2 3 4 5 6\nidentity\nflip_cols\nflip_rows\nrotate_half\ntranspose\nrotate_right\nanti_transpose\npop_row\nexpand_rows 1\nprepend_cols 2\npush_col 1 2\ninsert_row 1 7 7 7\ninsert_col 0 8 8\ndelete_rows 0 1\ndelete_col 0\nclear\nsize\n",
    b"RowMajor 1 5\nget 9 9\nset 9 9 1\nrow 9\npush_row 1 2\nremove_row 9\npop_row\npop_row\n",
];

// Scripts with a fault after something that was read: a line that isn't a command, one whose cells can't be cut, a cell
// that isn't a number, and cells that can't be cut into rows.
const BAD_SCRIPTS: [(&[u8], ScriptFault); 4] = [
    (
        b"RowMajor 1 5\npush_row 6\nno_command\n",
        ScriptFault::BadCommand(3),
    ),
    (
        b"RowMajor 1 5\ninsert_rows 0 2 8 8 9\n",
        ScriptFault::BadCommand(2),
    ),
    (b"RowMajor 1 5 x\n", ScriptFault::BadGrid),
    (b"RowMajor 2 1 2 3\n", ScriptFault::BadGrid),
];

fn bad_parsed(start: &Start) -> Answer {
    let Some((script, wanted)) = BAD_SCRIPTS.get(start.case.wrapping_sub(5)) else {
        return Answer::Wrong;
    };
    match Script::parse(&start.heap, *script) {
        Err(fault) if fault == *wanted => Answer::Done,
        Ok(_) => Answer::Wrong,
        Err(fault) => came_of(fault),
    }
}

fn script(number: usize) -> &'static [u8] {
    SCRIPTS.get(number).copied().unwrap_or(b"")
}

fn played(start: &Start, name: &str) -> Answer {
    if start.size != (1, 1) || start.order == Order::ColumnMajor {
        return Answer::Skipped;
    }
    match name {
        "Script::parse" if start.case > 4 => bad_parsed(start),
        "Script::parse" => came(Script::parse(&start.heap, script(start.case))),
        "grid_play::play" => came(play(&start.heap, script(start.case / 2), start.case % 2 == 1)),
        _ => played_alike(start),
    }
}

fn played_alike(start: &Start) -> Answer {
    let (at_once, deferred) = plays_alike((&start.heap, &start.heap), script(start.case));
    match came(at_once) {
        Answer::Done => came(deferred),
        answer => answer,
    }
}

// A row is pushed and popped. Where the push is refused, the line comes back; where the pop is, the row stays.
fn pushed_and_popped<'a>(start: &'a Start, board: &mut Board<'a>) -> Result<Answer, AllocError> {
    let len = fitting(start.size.1);
    let line = start.line(len)?;
    if line.is_empty() || !board.fits_row(line.len()) {
        return Ok(Answer::Wrong);
    }
    start.ready();
    let popped = match push_row_then_pop_row(board, line) {
        Ok(popped) => popped,
        Err(refused) => return Ok(line_came(Err(refused), len)),
    };
    Ok(match popped {
        Ok(_) => Answer::Done,
        Err(_) => Answer::Stopped,
    })
}

// What came of a call on the board and of the same on another one, which is as it was where that was refused.
fn both_of<'a>(start: &'a Start, first: Answer, other: &Board<'a>, second: Answer) -> Answer {
    match (first, second) {
        (Answer::Wrong, _) | (_, Answer::Wrong) => Answer::Wrong,
        (_, Answer::Refused) if !is_board(other, start.size, start.order) => Answer::Wrong,
        (Answer::Done, Answer::Done) => Answer::Done,
        (Answer::Refused, _) => Answer::Refused,
        _ => Answer::Stopped,
    }
}

// A column is put into the board, and as a row across into another that is alike.
fn put_across<'a>(start: &'a Start, board: &mut Board<'a>) -> Result<Answer, AllocError> {
    let len = fitting(start.size.0);
    let line = start.line(len)?;
    if line.is_empty() || !board.fits_col(line.len()) {
        return Ok(Answer::Wrong);
    }
    let other_line = line.clone()?;
    let mut other = board.clone()?;
    start.ready();
    let (as_col, as_row) = insert_col_or_row_across(board, &mut other, 0, line, other_line);
    Ok(both_of(
        start,
        line_came(as_col, len),
        &other,
        line_came(as_row, len),
    ))
}

// The same two commands on the board and on another that is alike.
fn ran_on_both<'a>(start: &'a Start, board: &mut Board<'a>) -> Result<Answer, AllocError> {
    let mut other = board.clone()?;
    let mut list: Vec<Given<'a>, &'a Heap> = Vec::new(&start.heap);
    list.push(Command::Row(0))?;
    list.push(Command::PopRow)?;
    let mut other_list: Vec<Given<'a>, &'a Heap> = Vec::new(&start.heap);
    other_list.push(Command::Row(0))?;
    other_list.push(Command::PopRow)?;
    start.ready();
    let (mut tally, mut other_tally) = (Tally::new(), Tally::new());
    let (first, second) = run_in_either_order(
        (&start.heap, &start.heap),
        board,
        &mut other,
        list,
        other_list,
        &mut tally,
        &mut other_tally,
    );
    Ok(both_of(start, run_came(first), &other, run_came(second)))
}

pub fn call<'a>(start: &'a Start, board: &mut Board<'a>, name: &str) -> Result<Answer, AllocError> {
    match name {
        "Grid::step" | "grid_laws::step_by_least" => stepped(start, board, name),
        "Deferred::step" => stepped_deferred(start, board),
        "grid_laws::push_row_then_pop_row" => pushed_and_popped(start, board),
        "grid_laws::insert_col_or_row_across" => put_across(start, board),
        "grid_laws::run_in_either_order" => ran_on_both(start, board),
        "Script::parse" | "grid_play::play" | "grid_play::plays_alike" => {
            start.ready();
            Ok(played(start, name))
        }
        name => ran(start, board, name),
    }
}
