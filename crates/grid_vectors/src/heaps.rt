//! A grid keeps its allocator: its vector is on its own heap, also after a call that was given a line, lines or a board
//! of another. What a call makes with an allocator that it is given is on that one's heap. No clause says either.
use grid::{Command, Grid, Order, ShapeError, Tally, run};
use grid_deferred::run_deferred;
use std::alloc::AllocError;
use std::process::Abort;
use std::test::Fail;
use test_support::fixtures::{Heap, cut, line_from, lines_from};
use test_support::fuse::Fuse;
use test_support::line_edits::{LineAt, insert, insert_several, push_col, push_row};

type Board<'a> = Grid<u32, &'a Heap>;

// A grid of two rows and two columns, or the empty grid.
fn board_on(heap: &Heap, is_empty: bool) -> Result<Board<'_>, ShapeError> {
    let len = if is_empty { 0 } else { 4 };
    cut(line_from(heap, 1, len)?, 2, Order::RowMajor)
}

// Puts a line of two cells, and returns whether it was put.
fn put_line<'a>(board: &mut Board<'a>, line: Vec<u32, &'a Heap>, call: usize) -> bool {
    match call {
        0 => push_row(board, line).is_ok(),
        1 => push_col(board, line).is_ok(),
        2 => insert(board, LineAt::Row(0), line).is_ok(),
        _ => insert(board, LineAt::Col(0), line).is_ok(),
    }
}

// Puts two lines of two cells, and returns whether they were put.
fn put_lines<'a>(
    board: &mut Board<'a>,
    lines: Vec<Vec<u32, &'a Heap>, &'a Heap>,
    call: usize,
) -> bool {
    match call {
        4 => insert_several(board, LineAt::Row(0), lines).is_ok(),
        _ => insert_several(board, LineAt::Col(0), lines).is_ok(),
    }
}

// Puts a board after the last line, and returns whether it was put.
fn put_board<'a>(board: &mut Board<'a>, other: Board<'a>, call: usize) -> bool {
    if call == 6 {
        board.fits_row(other.cols()) && board.append_rows(other).is_ok()
    } else {
        board.fits_col(other.rows()) && board.append_cols(other).is_ok()
    }
}

// Whether a grid on one heap keeps it, where the line, the lines or the board that are put are on the other.
fn keeps<'a>(
    heap: &'a Heap,
    other: &'a Heap,
    call: usize,
    is_empty: bool,
) -> Result<bool, ShapeError> {
    let mut board = board_on(heap, is_empty)?;
    let put = match call {
        0..=3 => put_line(&mut board, line_from(other, 5, 2)?, call),
        4..=5 => put_lines(&mut board, lines_from(other, 5, 2, 2)?, call),
        _ => put_board(&mut board, board_on(other, false)?, call),
    };
    Ok(put && (heap.held(), other.held()) == (1, 0))
}

#[test]
fn keeps_its_heap(rt: HostRuntime) -> Result<(), Fail> {
    let heap = Fuse::new(rt.alloc(), u64::MAX);
    let other = Fuse::new(rt.alloc(), u64::MAX);
    for call in 0..8 {
        for is_empty in [false, true] {
            let kept = keeps(&heap, &other, call, is_empty)?;
            assert!(rt; kept, "call {call}, an empty grid: {is_empty}");
        }
    }
    Ok(())
}

// A list of one command.
fn one_command(heap: &Heap) -> Result<Vec<Command<u32, &Heap>, &Heap>, AllocError> {
    let mut commands = Vec::new(heap);
    commands.push(Command::Size)?;
    Ok(commands)
}

// Runs one command, at once or deferred, with a list of replies on the other heap, and returns whether it is there.
fn replies_on<'a>(heap: &'a Heap, other: &'a Heap, is_deferred: bool) -> Result<bool, ShapeError> {
    let mut board = board_on(heap, false)?;
    let commands = one_command(heap)?;
    let mut tally = Tally::new();
    let ran = if is_deferred {
        run_deferred(other, &mut board, commands, &mut tally)
    } else {
        run(other, &mut board, commands, &mut tally)
    };
    Ok(ran.is_ok() && (heap.held(), other.held()) == (1, 1))
}

#[test]
fn replies_are_on_the_heap_that_is_given(rt: HostRuntime) -> Result<(), Fail> {
    let heap = Fuse::new(rt.alloc(), u64::MAX);
    let other = Fuse::new(rt.alloc(), u64::MAX);
    let at_once = replies_on(&heap, &other, false)?;
    let deferred = replies_on(&heap, &other, true)?;
    assert!(rt; at_once && deferred);
    Ok(())
}

// Whether the positions of all cells, and the text, are on the heap that is given.
fn made_on<'a>(heap: &'a Heap, other: &'a Heap) -> Result<bool, ShapeError> {
    let board = board_on(heap, false)?;
    let found = board.positions(other, |_| true)?;
    let text = board.pretty(other, None)?;
    Ok(found.len() == 4 && text.len() > 4 && (heap.held(), other.held()) == (1, 2))
}

#[test]
fn what_is_made_is_on_the_heap_that_is_given(rt: HostRuntime) -> Result<(), Fail> {
    let heap = Fuse::new(rt.alloc(), u64::MAX);
    let other = Fuse::new(rt.alloc(), u64::MAX);
    let made = made_on(&heap, &other)?;
    assert!(rt; made);
    Ok(())
}
