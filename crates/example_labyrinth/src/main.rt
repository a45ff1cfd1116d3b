//! Digs a maze, finds a shortest path between its two rooms that are farthest apart, and draws it as a colored picture.
#![tactic(auto)]

use anyhow::Result;
use grid::{Direction, Grid, GridError};
use grid_paths::{Connectivity, distances, shortest_path};
use grid_pnm::{enlarged, to_ppm};
use std::alloc::{AllocError, Global};
use std::io::{self, Write};

type At = (usize, usize);

// How many rooms there are in a column and in a row.
const ROOMS: At = (8, 20);

#[derive(Clone, Copy, Default, PartialEq)]
enum Cell {
    #[default]
    Wall,
    Floor,
    Path,
}

// The random numbers of Marsaglia's xorshift.
fn next(random: &mut u32) -> usize {
    *random ^= *random << 13;
    *random ^= *random >> 17;
    *random ^= *random << 5;
    *random as usize
}

// The cell next to a room, and the room past it, if that isn't dug yet.
fn beyond(maze: &Grid<Cell>, at: At, way: Direction) -> Option<(At, At)> {
    let door = maze.beside(at, way)?;
    let room = maze.beside(door, way)?;
    (maze[room] == Cell::Wall).then_some((door, room))
}

// The first of the four rooms around, in turn from a number on, that isn't dug yet, and the door to it.
fn ahead(maze: &Grid<Cell>, at: At, first: usize) -> Option<(At, At)> {
    for turn in 0..4 {
        let found = beyond(maze, at, Direction::SIDES[(first % 4 + turn) % 4]);
        if found.is_some() {
            return found;
        }
    }
    None
}

// A maze: from each room it goes on to one that isn't dug yet, and back where there is none.
fn dug(alloc: Global, mut random: u32) -> Result<Grid<Cell>, GridError> {
    let mut maze: Grid<Cell> = Grid::new(alloc, 2 * ROOMS.0 + 1, 2 * ROOMS.1 + 1)?;
    let mut trail = vec![in alloc; (1, 1)]?;
    maze.set_at((1, 1), Cell::Floor);
    for _ in 0..2 * ROOMS.0 * ROOMS.1 {
        let Some(&at) = trail.last() else {
            break;
        };
        match ahead(&maze, at, next(&mut random)) {
            Some((door, room)) => {
                maze.set_at(door, Cell::Floor);
                maze.set_at(room, Cell::Floor);
                trail.push(room)?;
            }
            None => drop(trail.pop()),
        }
    }
    Ok(maze)
}

// The first room that is farthest from a position.
fn farthest(maze: &Grid<Cell>, from: At) -> Result<At, AllocError> {
    let steps = distances(maze, from, Connectivity::Four, |cell| *cell != Cell::Wall)?;
    let mut best = (from, 0);
    for (at, count) in steps.indexed_iter() {
        let count = count.unwrap_or(0);
        if best.1 < count {
            best = (at, count);
        }
    }
    Ok(best.0)
}

fn color(cell: &Cell) -> [u8; 3] {
    match cell {
        Cell::Wall => [31, 35, 40],
        Cell::Floor => [235, 238, 241],
        Cell::Path => [232, 145, 45],
    }
}

// Marks a shortest path between the two rooms that are farthest apart.
fn mark_path(maze: &mut Grid<Cell>) -> Result<(), AllocError> {
    let from = farthest(maze, (1, 1))?;
    let to = farthest(maze, from)?;
    let path = shortest_path(
        maze,
        from,
        to,
        Connectivity::Four,
        |cell| *cell != Cell::Wall,
    )?;
    for at in path.iter().flatten() {
        maze.set_at(*at, Cell::Path);
    }
    Ok(())
}

fn main(rt: HostRuntime) -> Result<()> {
    let alloc = rt.alloc();
    let mut maze = dug(alloc, 2463534242)?;
    mark_path(&mut maze)?;
    let picture = to_ppm(alloc, &enlarged(alloc, &maze, 5)?, color)?;
    io::writer(&rt).write_all(picture.as_slice())?;
    Ok(())
}
