//! Plays Reversi: reads moves on standard input, and draws the board after each, with the legal moves as stars.
//!
//! A move is a line with a column from `a` and a row from `1`, as `d3`. Black, `x`, begins. Where the other player has
//! no legal move, the same one goes on.
#![tactic(auto)]

use anyhow::{Result, bail};
use grid::{Direction, Grid};
use grid_rays::{first_along, segment};
use std::alloc::AllocError;

// The other player.
fn other(player: char) -> char {
    if player == 'x' { 'o' } else { 'x' }
}

// The end of the discs that a move turns in one direction: a disc of the player, after some of the other one's.
fn turned_to(
    board: &Grid<char>,
    at: (usize, usize),
    way: Direction,
    player: char,
) -> Option<(usize, usize)> {
    let theirs = other(player);
    let end = first_along(board, at, way, |disc| *disc != theirs)?;
    let turns = board.get_at(end) == Some(&player) && board.beside(at, way) != Some(end);
    if turns { Some(end) } else { None }
}

// Whether a move is legal: it turns some discs.
fn is_legal(board: &Grid<char>, at: (usize, usize), player: char) -> bool {
    board.get_at(at) == Some(&'.')
        && Direction::ALL
            .iter()
            .any(|way| turned_to(board, at, *way, player).is_some())
}

// Puts a disc on the board, and turns those between it and others of the player.
fn play(board: &mut Grid<char>, at: (usize, usize), player: char) {
    for way in Direction::ALL {
        if let Some(end) = turned_to(board, at, way, player) {
            for turned in segment(at, end) {
                board.set_at(turned, player);
            }
        }
    }
}

// The board with the legal moves of a player.
fn shown(board: &Grid<char>, player: char) -> Result<Grid<char>, AllocError> {
    board.map_indexed(|at, disc| if is_legal(board, at, player) {
        '*'
    } else {
        *disc
    })
}

// The position that a move says.
fn position(word: &str) -> Option<(usize, usize)> {
    match word.as_bytes() {
        [col @ b'a'..=b'h', row @ b'1'..=b'8'] => {
            Some((usize::from(*row - b'1'), usize::from(*col - b'a')))
        }
        _ => None,
    }
}

fn main(rt: HostRuntime) -> Result<()> {
    let mut board = Grid::from_fn(rt.alloc(), 8, 8, |at| match at {
        (3, 3) | (4, 4) => 'o',
        (3, 4) | (4, 3) => 'x',
        _ => '.',
    })?;
    let mut player = 'x';
    println!(rt; "{}", shown(&board, player)?)?;
    for line in rt.lines(rt.alloc()) {
        let line = line?;
        match position(line.as_str()) {
            Some(at) if is_legal(&board, at, player) => play(&mut board, at, player),
            _ => bail!("{line} is no legal move"),
        }
        let next = shown(&board, other(player))?;
        if next.position(|cell| *cell == '*').is_some() {
            player = other(player);
        }
        println!(rt; "\n{}", shown(&board, player)?)?;
    }
    Ok(())
}
