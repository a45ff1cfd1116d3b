//! Makes each call that can refuse on all boards of up to three rows and columns, and on one of 5 by 8, in both orders,
//! with memory for all; and on those of up to two rows, with no request granted, with one, with two, and so on up to
//! what it took. The call must be done where there is memory for all; where it is refused, the board is as it was, and
//! what was handed over comes back; closures are called as often, and in the order, that is promised; and each block
//! and each cell is given back in the end. What doesn't hold is printed, and each call with the number of its attempts.
//!
//! A call is a `Call` in the table of its module, and an arm below it. `tools/called` holds the tables for the public
//! calls.
#![tactic(auto)]

mod attempts;
mod changes;
mod commands;
mod copies;
mod csv;
mod edits;
mod json;
mod large;
mod lines;
mod makers;
mod maps;
mod paths;
mod pictures;
mod state;
mod texts;

use attempts::Group;
use std::io;
use std::process::ExitCode;

fn run<R: Print + AllocGlobal>(rt: &R) -> io::Result<()> {
    attempts::try_all(rt, Group::Changes, changes::CALLS.as_slice())?;
    attempts::try_all(rt, Group::Commands, commands::CALLS.as_slice())?;
    attempts::try_all(rt, Group::Copies, copies::CALLS.as_slice())?;
    attempts::try_all(rt, Group::Csv, csv::CALLS.as_slice())?;
    attempts::try_all(rt, Group::Edits, edits::CALLS.as_slice())?;
    attempts::try_all(rt, Group::Json, json::CALLS.as_slice())?;
    attempts::try_all(rt, Group::Lines, lines::CALLS.as_slice())?;
    attempts::try_all(rt, Group::Makers, makers::CALLS.as_slice())?;
    attempts::try_all(rt, Group::Maps, maps::CALLS.as_slice())?;
    attempts::try_all(rt, Group::Paths, paths::CALLS.as_slice())?;
    attempts::try_all(rt, Group::Pictures, pictures::CALLS.as_slice())?;
    attempts::try_all(rt, Group::Texts, texts::CALLS.as_slice())?;
    large::try_all(rt)
}

fn main(rt: HostRuntime) -> ExitCode {
    match run(&rt) {
        Ok(()) => ExitCode::SUCCESS,
        Err(_) => ExitCode::FAILURE,
    }
}
