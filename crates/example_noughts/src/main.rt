//! Noughts and crosses, solved. Boards that a turn or a flip takes to one another are one, so a table of canonical
//! forms has 765 boards instead of 5,478.
#![tactic(auto)]

use anyhow::Result;
use grid::{Command, Grid};
use grid_changes::History;
use grid_images::canonicalize;
use grid_rays::has_run;
use std::alloc::Global;
use std::collections::{HashMap, HashSet};

#[derive(Clone, Copy, Debug, Default, Hash, PartialEq, Eq, PartialOrd, Ord)]
enum Mark {
    #[default]
    Empty,
    Cross,
    Nought,
}

type Board = Grid<Mark>;

// Whether who moved last has won.
fn has_three(board: &Board) -> bool {
    board
        .indexed_iter()
        .any(|(at, cell)| *cell != Mark::Empty && has_run(board, at, 3))
}

// The canonical form of the board after a move, which is made and taken back.
fn after_move(game: &mut History<Mark>, at: (usize, usize), mark: Mark) -> Result<Board> {
    let before = game.undo_count();
    game.step(Command::Set(at.0, at.1, mark))?;
    let mut board = game.grid().clone()?;
    canonicalize(&mut board);
    game.undo_to(before)?;
    Ok(board)
}

// The canonical forms of the boards after each move at a board with `n` marks; none where the game is over.
fn moves(alloc: Global, board: &Board, n: usize) -> Result<HashSet<Board>> {
    let mut boards = HashSet::new(alloc);
    let mut game = History::over(alloc, board.clone()?);
    let mark = [Mark::Cross, Mark::Nought][n % 2];
    for (at, cell) in board.indexed_iter() {
        if *cell == Mark::Empty && !has_three(board) {
            boards.insert(after_move(&mut game, at, mark)?)?;
        }
    }
    Ok(boards)
}

// The boards with 0 marks, with 1, and so on to 9.
fn layers(alloc: Global) -> Result<Vec<HashSet<Board>>> {
    let mut layers = Vec::new(alloc);
    let mut boards = HashSet::new(alloc);
    boards.insert(Grid::new(alloc, 3, 3)?)?;
    for n in 0..9usize {
        let mut next = HashSet::new(alloc);
        for board in &boards {
            for after in moves(alloc, board, n)? {
                next.insert(after)?;
            }
        }
        layers.push(boards)?;
        boards = next;
    }
    layers.push(boards)?;
    Ok(layers)
}

// What a board with `n` marks is worth to who moves next: 1 if won, 0 if drawn, -1 if lost. The table has the boards
// after each move.
fn worth(alloc: Global, board: &Board, n: usize, table: &HashMap<Board, i8>) -> Result<i8> {
    let boards = moves(alloc, board, n)?;
    if boards.is_empty() {
        return Ok(if has_three(board) { -1 } else { 0 });
    }
    let mut best = -1;
    for after in &boards {
        best = match table.get(after) {
            Some(-1) => 1,
            Some(0) => best.max(0),
            _ => best,
        };
    }
    Ok(best)
}

fn count(boards: &HashSet<Board>, table: &HashMap<Board, i8>, worth: i8) -> usize {
    boards
        .iter()
        .filter(|board| table.get(*board) == Some(&worth))
        .count()
}

fn run<R: Print + AllocGlobal>(rt: &R) -> Result<()> {
    println!(rt; "marks  boards  won  drawn  lost")?;
    let mut table = HashMap::new(rt.alloc());
    for (n, boards) in layers(rt.alloc())?.iter().enumerate().rev() {
        for board in boards {
            let worth = worth(rt.alloc(), board, n, &table)?;
            table.insert(board.clone()?, worth)?;
        }
        let won = count(boards, &table, 1);
        let drawn = count(boards, &table, 0);
        let lost = count(boards, &table, -1);
        println!(rt; "{n:5} {:7} {won:4} {drawn:6} {lost:5}", boards.len())?;
    }
    println!(rt; "{} boards", table.len())?;
    Ok(())
}

fn main(rt: HostRuntime) -> Result<()> {
    run(&rt)
}
