//! Plays Sokoban: reads a level and moves on standard input, and draws the level after them.
//!
//! A level is lines of `#` (a wall), `-` (a floor), `.` (a goal), `@` (the man) and `$` (a box); on a goal the man is
//! `+` and a box `*`. After a line `--` come the moves `u`, `r`, `d` and `l`; `z` takes one back.
#![tactic(auto)]

use anyhow::{Result, bail};
use grid::{Direction, Grid};
use grid_text::{from_text, to_text};
use std::alloc::{AllocError, Global};
use std::io;

// Two positions whose pieces are exchanged.
type Swap = ((usize, usize), (usize, usize));

// A move: a box and the floor before it, if the man pushes one, and then he and the floor before him.
type Move = (Option<Swap>, Swap);

// Whether a mark has a goal.
fn goal(mark: char) -> Option<bool> {
    Some(matches!(mark, '.' | '+' | '*'))
}

// The piece of a mark without its goal, or a floor.
fn piece(mark: char) -> Option<char> {
    match mark {
        '#' | '-' | '@' | '$' => Some(mark),
        '.' => Some('-'),
        '+' => Some('@'),
        '*' => Some('$'),
        _ => None,
    }
}

// What a move of the man does, if he can make it.
fn ahead(pieces: &Grid<char>, way: Direction) -> Option<Move> {
    let man = pieces.position(|piece| *piece == '@')?;
    let to = pieces.beside(man, way)?;
    match pieces[to] {
        '-' => Some((None, (man, to))),
        '$' => match pieces.beside(to, way) {
            Some(behind) if pieces[behind] == '-' => Some((Some((to, behind)), (man, to))),
            _ => None,
        },
        _ => None,
    }
}

fn exchange(pieces: &mut Grid<char>, swap: Option<Swap>) {
    if let Some((one, other)) = swap {
        if pieces.contains(one) && pieces.contains(other) {
            pieces.swap(one, other);
        }
    }
}

// Makes the moves that these keys say, and takes back those that they take back; returns how many stay.
fn play(pieces: &mut Grid<char>, keys: &str, alloc: Global) -> Result<usize> {
    let mut made = Vec::new(alloc);
    for key in keys.trim_end().chars() {
        let way = match key {
            'u' => Direction::Up,
            'r' => Direction::Right,
            'd' => Direction::Down,
            'l' => Direction::Left,
            'z' => {
                if let Some((pushed, walked)) = made.pop() {
                    exchange(pieces, Some(walked));
                    exchange(pieces, pushed);
                }
                continue;
            }
            _ => bail!("{key:?} is no move"),
        };
        if let Some((pushed, walked)) = ahead(pieces, way) {
            exchange(pieces, pushed);
            exchange(pieces, Some(walked));
            made.push((pushed, walked))?;
        }
    }
    Ok(made.len())
}

// The text of a level.
fn drawn(alloc: Global, pieces: &Grid<char>, goals: &Grid<bool>) -> Result<String, AllocError> {
    let shown = pieces.map_indexed(|at, piece| match (*piece, goals.get_at(at)) {
        ('-', Some(true)) => '.',
        ('@', Some(true)) => '+',
        ('$', Some(true)) => '*',
        _ => *piece,
    })?;
    to_text(alloc, &shown, |character| *character)
}

// The level after these moves, and how many stay.
fn played(alloc: Global, level: &str, keys: &str) -> Result<String> {
    let goals = from_text(alloc, level, goal)?;
    let mut pieces = from_text(alloc, level, piece)?;
    let moves = play(&mut pieces, keys, alloc)?;
    let level = drawn(alloc, &pieces, &goals)?;
    Ok(format!(in alloc; "{level}moves: {moves}")?)
}

fn main(rt: HostRuntime) -> Result<()> {
    let alloc = rt.alloc();
    let text = io::read_to_string(alloc, rt.reader())?;
    let Some((level, keys)) = text.split_once("--\n") else {
        bail!("there is no line --");
    };
    println!(rt; "{}", played(alloc, level, keys)?)?;
    Ok(())
}
