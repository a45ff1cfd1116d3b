//! Positions that a call returned, as indexes.
use grid::{Direction, Grid};
use std::alloc::{AllocError, Global};
use std::iter;

/// Returns the positions of the cells above 5, of those above 3.
pub fn high(alloc: Global, board: &Grid<u8>) -> Result<Vec<(usize, usize)>, AllocError> {
    let mut high = Vec::new(alloc);
    for at in board.positions(alloc, |x| *x > 3)? {
        if board[at] > 5 {
            high.push(at)?;
        }
    }
    Ok(high)
}

/// Returns the largest cell above 3, or 0.
pub fn top_of(alloc: Global, board: &Grid<u8>) -> Result<u8, AllocError> {
    let found = board.positions(alloc, |x| *x > 3)?;
    let mut top = 0;
    for at in &found {
        top = top.max(board[*at]);
    }
    Ok(top)
}

/// Returns the sum of the neighbors that aren't 0, which are kept first. By value, as `for near in near`, it is not
/// proved.
pub fn near_sum(alloc: Global, board: &Grid<u8>, at: (usize, usize)) -> Result<u64, AllocError> {
    let near: Vec<(usize, usize)> = board
        .neighbors4(at)
        .filter(|(_, x)| **x != 0)
        .map(|(near, _)| near)
        .collect(alloc)?;
    let mut sum = 0u64;
    for near in &near {
        sum = sum.saturating_add(u64::from(board[*near]));
    }
    Ok(sum)
}

/// Returns the positions of the cells that are larger than the one below them.
pub fn falls(alloc: Global, board: &Grid<u8>) -> Result<Vec<(usize, usize)>, AllocError> {
    let mut falls = Vec::new(alloc);
    for at in board.indices() {
        if let Some(below) = board.beside(at, Direction::Down) {
            if board[below] < board[at] {
                falls.push(at)?;
            }
        }
    }
    Ok(falls)
}

/// Returns where a knight can go that stands at a position: free cells, and how many cells it would take.
pub fn knight_moves(board: &Grid<u8>, at: (usize, usize)) -> (usize, u8) {
    let mut free = 0usize;
    let mut most = 0;
    for by in [
        (1, 2),
        (2, 1),
        (2, -1),
        (1, -2),
        (-1, -2),
        (-2, -1),
        (-2, 1),
        (-1, 2),
    ] {
        if let Some(to) = board.offset(at, by) {
            if board[to] == 0 {
                free = free.saturating_add(1);
            }
            most = most.max(board[to]);
        }
    }
    (free, most)
}

/// Returns for how many directions both the cell there and the one opposite pass a limit.
pub fn sides_at(board: &Grid<u8>, at: (usize, usize), limit: u8) -> usize {
    Direction::DIAGONALS
        .iter()
        .filter(|way| match (board.beside(at, **way), board.beside(at, way.opposite())) {
            (Some(a), Some(b)) => board[a] > limit && board[b] > limit,
            _ => false,
        })
        .count()
}

/// Returns the largest cell on the way from a position, at most so many steps on, or 0.
pub fn top_on_way(board: &Grid<u8>, from: (usize, usize), way: Direction, steps: usize) -> u8 {
    let mut top = 0;
    for at in iter::successors(board.beside(from, way), |at| board.beside(*at, way)).take(steps) {
        top = top.max(board[at]);
    }
    top
}
