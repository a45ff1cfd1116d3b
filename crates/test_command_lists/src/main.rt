//! Runs every list of up to two commands after each of the eight symmetries, over small tables in both orders, at once,
//! deferred and step by step, against the plain program. Counts the lists on which all agree, and names the others.
//! Then it runs lists of all commands, which begin at one of them and go on with the first after the last, over larger
//! tables too.
//!
//! With 172 commands there are 1 + 172 + 172 * 172 lists after a symmetry, 476112 at a size with its two orders.
#![tactic(auto)]

mod agreement;
mod commands;
mod costs;

use agreement::{Start, differing_way};
use commands::{all_commands, all_from, list_of};
use grid::{Command, Order, Symmetry};
use std::io;
use std::process::ExitCode;
use test_support::fixtures::{ORDERS, SIZES, SYMMETRIES};

// How many lists agreed, and how many did not.
#[derive(Drop)]
struct Counts {
    agreed: u64,
    differed: u64,
}

// Checks one list: a symmetry, and the commands after it. Where a way to run it differs, writes the list and the way.
fn check_list<R: Print + AllocGlobal>(
    rt: &R,
    start: Start,
    symmetry: Symmetry,
    after: &[&Command<u32>],
    counts: &mut Counts,
) -> io::Result<()> {
    let list = list_of(rt.alloc(), symmetry, after)?;
    match differing_way(rt.alloc(), start, list.as_slice())? {
        None => counts.agreed = counts.agreed.saturating_add(1),
        Some(way) => {
            counts.differed = counts.differed.saturating_add(1);
            let (rows, cols) = start.size;
            println!(rt;
                "{rows} x {cols}, {:?}, {way:?} differs: {list:?}",
                start.order
            )?;
        }
    }
    Ok(())
}

// Checks all lists that begin with a symmetry.
fn check_symmetry<R: Print + AllocGlobal>(
    rt: &R,
    start: Start,
    symmetry: Symmetry,
    commands: &[Command<u32>],
    counts: &mut Counts,
) -> io::Result<()> {
    check_list(rt, start, symmetry, [].as_slice(), counts)?;
    for first in commands {
        check_list(rt, start, symmetry, [first].as_slice(), counts)?;
        for second in commands {
            check_list(rt, start, symmetry, [first, second].as_slice(), counts)?;
        }
    }
    Ok(())
}

// Checks all lists at the tables of a size.
fn check_size<R: Print + AllocGlobal>(
    rt: &R,
    size: (usize, usize),
    commands: &[Command<u32>],
    counts: &mut Counts,
) -> io::Result<()> {
    for order in ORDERS {
        for symmetry in SYMMETRIES {
            check_symmetry(rt, Start { size, order }, symmetry, commands, counts)?;
        }
    }
    Ok(())
}

// The sizes of the tables for lists of all commands, and how far apart the commands are at which these begin.
const LONG: [((usize, usize), usize); 4] = [
    ((2, 3), 1),
    ((5, 8), 1),
    ((1, 40), 4),
    ((100, 100), 43),
];

// Checks the list of all commands that begins at one of them.
fn check_all_from<R: Print + AllocGlobal>(
    rt: &R,
    start: Start,
    commands: &[Command<u32>],
    first: usize,
    counts: &mut Counts,
) -> io::Result<()> {
    let list = all_from(rt.alloc(), commands, first)?;
    match differing_way(rt.alloc(), start, list.as_slice())? {
        None => counts.agreed = counts.agreed.saturating_add(1),
        Some(way) => {
            counts.differed = counts.differed.saturating_add(1);
            let (rows, cols) = start.size;
            println!(rt;
                "{rows} x {cols}, {:?}, {way:?} differs: all commands from number {first}",
                start.order
            )?;
        }
    }
    Ok(())
}

// Checks the lists of all commands at the tables of a size.
fn check_long<R: Print + AllocGlobal>(
    rt: &R,
    size: (usize, usize),
    apart: usize,
    commands: &[Command<u32>],
    counts: &mut Counts,
) -> io::Result<()> {
    for order in ORDERS {
        for first in (0..commands.len()).filter(|first| first.is_multiple_of(apart)) {
            check_all_from(rt, Start { size, order }, commands, first, counts)?;
        }
    }
    Ok(())
}

// Checks the lists of all commands, and returns how many differ.
fn run_long<R: Print + AllocGlobal>(rt: &R, commands: &[Command<u32>]) -> io::Result<u64> {
    let mut differed = 0u64;
    for ((rows, cols), apart) in LONG {
        let mut counts = Counts {
            agreed: 0,
            differed: 0,
        };
        check_long(rt, (rows, cols), apart, commands, &mut counts)?;
        println!(rt;
            "{rows} x {cols}: {} lists of {} commands agree",
            counts.agreed,
            commands.len()
        )?;
        differed = differed.saturating_add(counts.differed);
    }
    Ok(differed)
}

// Checks all lists, and returns how many differ.
fn run<R: Print + AllocGlobal>(rt: &R) -> io::Result<u64> {
    let commands = all_commands(rt.alloc())?;
    let mut differed = run_long(rt, commands.as_slice())?;
    for (rows, cols) in SIZES {
        let mut counts = Counts {
            agreed: 0,
            differed: 0,
        };
        check_size(rt, (rows, cols), commands.as_slice(), &mut counts)?;
        println!(rt; "{rows} x {cols}: {} lists agree", counts.agreed)?;
        differed = differed.saturating_add(counts.differed);
    }
    Ok(differed)
}

fn main(rt: HostRuntime) -> ExitCode {
    match run(&rt) {
        Ok(0) => ExitCode::SUCCESS,
        _ => ExitCode::FAILURE,
    }
}
