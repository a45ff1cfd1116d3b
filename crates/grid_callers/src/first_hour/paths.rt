//! Floods and paths, as indexes.
use grid::Grid;
use grid_near::Connectivity;
use grid_paths::{Enter, cheapest_path, flood, shortest_path};
use std::alloc::AllocError;

/// Returns the largest cell that steps from a position lead to over cells that aren't 0.
pub fn largest_near(board: &Grid<u8>, at: (usize, usize)) -> Result<u8, AllocError> {
    let mut most = 0;
    for near in flood(
        board,
        &[at],
        Connectivity::Four,
        |x| if *x == 0 { Enter::No } else { Enter::On },
    )? {
        most = most.max(board[near]);
    }
    Ok(most)
}

/// Returns the largest cell of a shortest path over cells that aren't 0, or `None` where there is none.
pub fn path_top(
    board: &Grid<u8>,
    from: (usize, usize),
    to: (usize, usize),
) -> Result<Option<u8>, AllocError> {
    let Some(path) = shortest_path(board, from, to, Connectivity::Four, |x| *x != 0)? else {
        return Ok(None);
    };
    Ok(path.iter().map(|at| board[*at]).max())
}

/// Marks a cheapest path by 0, and returns its cost.
pub fn cost_of(
    board: &Grid<u8>,
    from: (usize, usize),
    to: (usize, usize),
) -> Result<u64, AllocError> {
    let mut cost = 0u64;
    if let Some((path, _)) = cheapest_path(
        board,
        from,
        to,
        Connectivity::Four,
        |x| Some(u32::from(*x)),
    )? {
        for at in path {
            cost = cost.saturating_add(u64::from(board[at]));
        }
    }
    Ok(cost)
}
