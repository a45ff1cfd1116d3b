//! A text screen driven by commands, run at once and deferred, with the swaps that either takes.
//!
//! The commands frame the text: each side is put in as the top row, and the screen turned on. Then the text scrolls by
//! a line, and at last the screen is set on end. Deferred, the turns join to one, and only that one moves cells.
#![tactic(auto)]

use anyhow::Result;
use grid::{Command, Grid, Reply, Symmetry, Tally, grid, run};
use grid_deferred::run_deferred;
use std::alloc::{AllocError, Global};

fn line(alloc: Global, text: &str) -> Result<Vec<char>, AllocError> {
    text.chars().collect(alloc)
}

fn frame_scroll_turn(alloc: Global) -> Result<Vec<Command<char>>, AllocError> {
    let mut commands = Vec::new(alloc);
    for side in ["#####", "###", "######", "####"] {
        commands.push(Command::InsertRow(0, line(alloc, side)?))?;
        commands.push(Command::Apply(Symmetry::RotateLeft))?;
    }
    commands.push(Command::DeleteRow(1))?;
    commands.push(Command::InsertRow(2, line(alloc, "#again#")?))?;
    commands.push(Command::Apply(Symmetry::RotateRight))?;
    Ok(commands)
}

// A screen after a run, with the replies to the commands and the swaps that it took.
#[derive(Drop)]
struct Ran {
    screen: Grid<char>,
    replies: Vec<Reply<char>>,
    tally: Tally,
}

// Runs the commands on a screen of two words.
fn run_on_words(alloc: Global, deferred: bool) -> Result<Ran> {
    let mut screen = words(alloc)?;
    let commands = frame_scroll_turn(alloc)?;
    let mut tally = Tally::new();
    let replies = if deferred {
        run_deferred(alloc, &mut screen, commands, &mut tally)?
    } else {
        run(alloc, &mut screen, commands, &mut tally)?
    };
    Ok(Ran {
        screen,
        replies,
        tally,
    })
}

fn words(alloc: Global) -> Result<Grid<char>> {
    Ok(grid!(alloc; ['h', 'e', 'l', 'l', 'o'] ['w', 'o', 'r', 'l', 'd'])?)
}

fn print_screen<R: Print + AllocGlobal>(rt: &R, screen: &Grid<char>) -> Result<()> {
    for row in screen.iter_rows() {
        let text: String = row.copied().collect(rt.alloc())?;
        println!(rt; "{text}")?;
    }
    println!(rt;)?;
    Ok(())
}

fn print_swaps(rt: &impl Print, at_once: &Tally, deferred: &Tally) -> Result<()> {
    println!(rt; "swaps        at once   deferred")?;
    let (turns, joined) = (at_once.symmetry(), deferred.symmetry());
    println!(rt; "to turn    {turns:>9}  {joined:>9}")?;
    let (shifts, carried) = (at_once.shift(), deferred.shift());
    println!(rt; "to scroll  {shifts:>9}  {carried:>9}")?;
    Ok(())
}

fn run_both<R: Print + AllocGlobal>(rt: &R) -> Result<()> {
    print_screen(rt, &words(rt.alloc())?)?;
    let at_once = run_on_words(rt.alloc(), false)?;
    let deferred = run_on_words(rt.alloc(), true)?;
    print_screen(rt, &deferred.screen)?;
    print_swaps(rt, &at_once.tally, &deferred.tally)?;
    let same = at_once.screen == deferred.screen && at_once.replies == deferred.replies;
    println!(rt; "the same screen and replies: {same}")?;
    Ok(())
}

fn main(rt: HostRuntime) -> Result<()> {
    run_both(&rt)
}
