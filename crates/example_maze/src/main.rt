//! Draws a shortest path through each maze on standard input.
//!
//! A maze is lines of `#` (a wall), `.` (a free cell), `S` (the start) and `G` (the goal); a line `--` comes between
//! two mazes. Each is written with a shortest path from the start to the goal drawn as `o`, and the number of its
//! steps. What is wrong with a maze is named by its line and column, and the status is 2 then.
#![tactic(auto)]

use anyhow::{Result, bail};
use grid::Grid;
use grid_paths::{Connectivity, shortest_path};
use grid_text::{from_text, to_text};
use std::alloc::Global;
use std::io::Read;
use std::process::ExitCode;

// A cell of a maze, if the character is one.
fn cell(character: char) -> Option<char> {
    match character {
        '#' | '.' | 'S' | 'G' => Some(character),
        _ => None,
    }
}

// The one position of a mark.
fn find(maze: &Grid<char>, mark: char) -> Result<(usize, usize)> {
    let mut found = None;
    for (at, cell) in maze.indexed_iter() {
        if *cell == mark {
            if found.is_some() {
                let (line, column) = (at.0.saturating_add(1), at.1.saturating_add(1));
                bail!("line {line}, column {column}: a second {mark:?}");
            }
            found = Some(at);
        }
    }
    match found {
        Some(at) => Ok(at),
        None => bail!("there is no {mark:?}"),
    }
}

// Draws a path on the free cells.
fn draw(maze: &mut Grid<char>, path: &[(usize, usize)]) {
    for at in path {
        if let Some('.') = maze.get(at.0, at.1) {
            maze.set(at.0, at.1, 'o');
        }
    }
}

// Draws a shortest path, and returns the number of its steps in words.
fn solve(alloc: Global, maze: &mut Grid<char>) -> Result<String> {
    let start = find(maze, 'S')?;
    let goal = find(maze, 'G')?;
    match shortest_path(maze, start, goal, Connectivity::Four, |cell| *cell != '#')? {
        Some(path) => {
            draw(maze, path.as_slice());
            Ok(format!(in alloc; "steps: {}", path.len().saturating_sub(1))?)
        }
        None => Ok(String::from_str(alloc, "no way")?),
    }
}

// A maze with a shortest path drawn, and the number of its steps.
fn solved(alloc: Global, text: &str) -> Result<String> {
    let mut maze = from_text(alloc, text, cell)?;
    let steps = solve(alloc, &mut maze)?;
    let drawn = to_text(alloc, &maze, |cell| *cell)?;
    Ok(format!(in alloc; "{drawn}{steps}\n")?)
}

// Whether each maze was right.
fn solve_all<R: Input + Print + AllocGlobal>(rt: &R) -> Result<bool> {
    let mut text = String::new(rt.alloc());
    rt.reader().read_to_string(&mut text)?;
    let mut right = true;
    for maze in text.split("--\n") {
        match solved(rt.alloc(), maze) {
            Ok(drawn) => println!(rt; "{drawn}")?,
            Err(fault) => {
                println!(rt; "{fault}\n")?;
                right = false;
            }
        }
    }
    Ok(right)
}

fn main(rt: HostRuntime) -> ExitCode {
    match solve_all(&rt) {
        Ok(true) => ExitCode::SUCCESS,
        Ok(false) => ExitCode::from(2),
        Err(_) => ExitCode::FAILURE,
    }
}
