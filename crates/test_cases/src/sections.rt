//! The sections: what each case of one returns, as text.
//!
//! A section has a file of cases, a module, and an arm in one of three functions: of calls on a board, of calls without
//! one, or of cases of its own form, which the head of its module has.
//!
//! A case on a board has a title; below it the board, as the first line of a script has it, and a call on each line;
//! and the expected lines: what each call returned, and the board then, its size, its order and its storage. A case
//! without a board is one line, `CALL => EXPECTED`. `ask` reads a call.

mod cells;
mod changes;
mod commands;
mod convert;
mod counted;
mod counts;
mod edits;
mod files;
mod images;
mod integers;
mod json;
mod lines;
mod macros;
mod make;
mod moves;
mod near;
mod pairs;
mod path_calls;
mod paths;
mod pending;
mod rays;
mod rearranged;
mod refused;
mod scripts;
mod seen;
mod sums;
mod tested;
mod texts;
mod values;
mod views;
mod whole;
mod words;

use crate::ask::{Ask, board_of};
use crate::case::{Case, CaseError};
use crate::shown::{shown_actual, shown_board};
use grid::Grid;
use std::alloc::{AllocError, Global};
use std::rt::Files;

fn add_line(lines: &mut String, line: &str) -> Result<(), AllocError> {
    lines.push_str(line)?;
    lines.push('\n')
}

// What each call on a board returned, a line each.
fn in_turn<F: Fn(Global, &mut Grid<i64>, Ask<'_>) -> Result<String, CaseError>>(
    alloc: Global,
    board: &mut Grid<i64>,
    calls: &str,
    make: F,
) -> Result<String, AllocError>
    requires { F.IsAlwaysCallable make }
{
    let mut lines = String::new(alloc);
    for call in calls.lines() {
        let line = shown_actual(alloc, make(alloc, board, Ask::of(call)))?;
        add_line(&mut lines, line.as_str())?;
    }
    Ok(lines)
}

// The lines, and a board.
fn with_board(alloc: Global, mut lines: String, board: &Grid<i64>) -> Result<String, CaseError> {
    add_line(&mut lines, shown_board(alloc, board)?.as_str())?;
    Ok(lines)
}

// The same of a board that is read first, and the board then.
fn on_board<F: Fn(Global, &mut Grid<i64>, Ask<'_>) -> Result<String, CaseError>>(
    alloc: Global,
    case: Case<'_>,
    make: F,
) -> Result<String, CaseError>
    requires { F.IsAlwaysCallable make }
{
    let (board, calls) = case.given.split_once("\n").unwrap_or((case.given, ""));
    let mut board = board_of(alloc, board)?;
    let lines = in_turn(alloc, &mut board, calls, make)?;
    with_board(alloc, lines, &board)
}

// The sections whose calls have a board.
fn actual_on_board(alloc: Global, section: &str, case: Case<'_>) -> Result<String, CaseError> {
    match section {
        "edits" => on_board(alloc, case, edits::actual),
        "cells" => on_board(alloc, case, cells::actual),
        "whole" => on_board(alloc, case, whole::actual),
        "near" => on_board(alloc, case, near::actual),
        "views" => on_board(alloc, case, views::actual),
        "seen" => on_board(alloc, case, seen::actual),
        "lines" => on_board(alloc, case, lines::actual),
        "moves" => on_board(alloc, case, moves::actual),
        "commands" => on_board(alloc, case, commands::actual),
        "rearranged" => on_board(alloc, case, rearranged::actual),
        "pending" => on_board(alloc, case, pending::actual),
        "path_calls" => on_board(alloc, case, path_calls::actual),
        "images" => on_board(alloc, case, images::actual),
        "rays" => on_board(alloc, case, rays::actual),
        "changes" => on_board(alloc, case, changes::actual),
        "pairs" => on_board(alloc, case, pairs::actual),
        "sums" => on_board(alloc, case, sums::actual),
        "tested" => on_board(alloc, case, tested::actual),
        _ => Err(CaseError::UnknownSection),
    }
}

// The sections whose calls have no board.
fn actual_alone(alloc: Global, section: &str, case: Case<'_>) -> Result<String, CaseError> {
    let ask = Ask::of(case.title);
    match section {
        "words" => words::actual(alloc, ask),
        "directions" => rays::actual_alone(alloc, ask),
        "make" => make::actual(alloc, ask),
        "convert" => convert::actual(alloc, ask),
        "values" => values::actual(alloc, ask),
        "integers" => integers::actual(alloc, ask),
        "macros" => macros::actual(alloc, ask),
        "counted" => counted::actual(alloc, ask),
        _ => actual_on_board(alloc, section, case),
    }
}

/// Returns the actual text of a case.
pub fn actual<R: Files + AllocGlobal>(
    rt: &R,
    section: &str,
    case: Case<'_>,
) -> Result<String, CaseError> {
    let alloc = rt.alloc();
    match section {
        "scripts" => scripts::actual(alloc, case),
        "counts" => counts::actual(alloc, case),
        "texts" => texts::actual(alloc, case),
        "refused" => refused::actual(alloc, case),
        "json" => json::actual(alloc, case),
        "paths" => paths::actual(alloc, case),
        "files" => files::actual(rt, case),
        _ => actual_alone(alloc, section, case),
    }
}
