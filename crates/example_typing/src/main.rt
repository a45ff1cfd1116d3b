//! A line that is typed, and what a screen has to draw after each key: only the characters that changed.
//!
//! The keys are on standard input: `<` takes the last one back and `>` does it again, `-` deletes the last character,
//! `!` turns the line around, `*` blinks, and any other character is typed.
#![tactic(auto)]

ghost use Rattle.std.specs.Prelude.{◌≡◌, OnOk};

use anyhow::Result;
use grid::{Command, Grid, Symmetry};
use grid_changes::{History, change_commands, changes};
use std::alloc::{AllocError, Global};
use std::io;

// Does what a key says.
fn press(alloc: Global, history: &mut History<char>, key: char) -> Result<()> {
    match key {
        '<' => {
            history.undo()?;
        }
        '>' => {
            history.redo()?;
        }
        '-' => {
            history.step(Command::PopCol)?;
        }
        '*' => blink(history)?,
        '!' => {
            history.step(Command::Apply(Symmetry::FlipCols))?;
        }
        _ => {
            let typed = vec![in alloc; key]?;
            history.step(Command::PushCol(typed))?;
        }
    }
    Ok(())
}

// Blanks the line and brings it back, as for a bell: the line is the one it was.
fn blink(history: &mut History<char>) -> Result<(), AllocError>
    ensures { OnOk result (history.new.grid.rows ≡ history.old.grid.rows) }
{
    history.step(Command::Fill(' '))?;
    history.undo()?;
    Ok(())
}

// The text of the line.
fn text_of(alloc: Global, line: &Grid<char>) -> Result<String> {
    let mut text = String::new(alloc);
    for character in line.iter() {
        text.push(*character)?;
    }
    Ok(text)
}

// The columns to draw, each with its character.
fn drawn(alloc: Global, shown: &Grid<char>, line: &Grid<char>) -> Result<String> {
    let mut text = String::new(alloc);
    for (at, character) in changes(shown, line) {
        let one = format!(in alloc; " {}{}", at.1, character)?;
        text.push_str(one.as_str())?;
    }
    Ok(text)
}

fn main(rt: HostRuntime) -> Result<()> {
    let alloc = rt.alloc();
    let keys = io::read_to_string(alloc, rt.reader())?;
    let mut history = History::over(alloc, Grid::empty(alloc));
    for key in keys.trim_end().chars() {
        let shown = history.grid().clone()?;
        press(alloc, &mut history, key)?;
        let line = history.grid();
        let text = text_of(alloc, line)?;
        let cells = drawn(alloc, &shown, line)?;
        println!(rt; "{key} {text}:{cells}")?;
    }
    let typed = history.grid().clone()?;
    for _ in 2..history.undo_count() {
        history.undo()?;
    }
    let writes = change_commands(alloc, &typed, history.grid())?;
    println!(rt;
        "back at 2 steps, {} ahead: {writes:?}",
        history.redo_count()
    )?;
    Ok(())
}
