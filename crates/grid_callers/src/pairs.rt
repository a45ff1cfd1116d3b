//! Two boards at once, the parts of a board in turn, and runs of equal cells.
use grid::{Direction, Grid, GridView, Order, can_cut};
use grid_pairs::{find, fold_cells, tiles, windows, zip_with};
use grid_rays::alike_along;
use std::alloc::{AllocError, Global};

/// Returns the higher of two boards at each cell, if they have one size.
pub fn higher(
    alloc: Global,
    before: &Grid<u8>,
    after: &Grid<u8>,
) -> Result<Option<Grid<u8>>, AllocError> {
    if before.size() != after.size() {
        return Ok(None);
    }
    let highest = zip_with(
        alloc,
        Order::RowMajor,
        before,
        after,
        |old, new| *old.max(new),
    )?;
    Ok(Some(highest))
}

/// Returns where two boards differ in a window, or `None` where it isn't within both. Two parts of one size need no
/// test.
pub fn changed_in(
    alloc: Global,
    (before, after): (&Grid<u8>, &Grid<u8>),
    at: (usize, usize),
    size: (usize, usize),
) -> Result<Option<Grid<bool>>, AllocError> {
    let (Some(old), Some(new)) = (before.get_part(at, size), after.get_part(at, size)) else {
        return Ok(None);
    };
    let changed = zip_with(alloc, Order::RowMajor, &old, &new, |old, new| old != new)?;
    Ok(Some(changed))
}

/// Returns how many windows of two by two have a lower first cell than last. An index in them needs no test.
pub fn rising(heights: &Grid<u8>) -> usize {
    let mut count = 0usize;
    for window in windows(heights, 2, 2) {
        if window[(0, 0)] < window[(1, 1)] {
            count = count.saturating_add(1);
        }
    }
    count
}

/// Returns the first cell of each tile of eight by eight, which has one.
pub fn corners(alloc: Global, board: &Grid<u8>) -> Result<Vec<u8>, AllocError> {
    let mut corners = Vec::new(alloc);
    for tile in tiles(board, 8, 8) {
        corners.push(tile[(0, 0)])?;
    }
    Ok(corners)
}

/// Returns the highest cell of a part of a board, at least 0, or `None` where the part isn't within it.
pub fn highest_in(heights: &Grid<u8>, at: (usize, usize), size: (usize, usize)) -> Option<u8> {
    let part = heights.get_part(at, size)?;
    Some(fold_cells(&part, 0u8, |highest, cell| highest.max(*cell)))
}

/// Returns the cell of a board where a pattern stands first, if it has cells. The position is in range.
pub fn first_of(board: &Grid<char>, pattern: &Grid<char>) -> Option<char> {
    if pattern.rows() == 0 {
        return None;
    }
    let at = find(board, pattern)?;
    Some(board[at])
}

/// Returns how many cells of the part where a pattern stands are blank. The part fits.
pub fn blanks_where(board: &Grid<char>, pattern: &Grid<char>) -> Option<usize> {
    let at = find(board, pattern)?;
    let part = board.part(at, pattern.size());
    Some(part.iter().filter(|cell| **cell == ' ').count())
}

/// Returns the tiles of two by two of a board without its edge, as views that last as long as the board is lent.
pub fn inner_tiles(alloc: Global, board: &Grid<u8>) -> Result<Vec<GridView<'_, u8>>, AllocError> {
    let (rows, cols) = board.size();
    if rows < 2 || cols < 2 {
        return Ok(Vec::new(alloc));
    }
    let tiles = tiles(board.part((1, 1), (rows - 2, cols - 2)), 2, 2);
    tiles.collect(alloc)
}

fn highest(window: &GridView<'_, u8>) -> u8 {
    window.iter().copied().max().unwrap_or(0)
}

/// Returns the highest cell of each window of three by three, as a board, or `None` where it has no columns. What is
/// done with a window is a function of its own: with its chain inside the closure, the check takes minutes.
pub fn maxima(alloc: Global, heights: &Grid<u8>) -> Result<Option<Grid<u8>>, AllocError> {
    let most: Vec<u8> = windows(heights, 3, 3)
        .map(|window| highest(&window))
        .collect(alloc)?;
    let cols = heights.cols().saturating_sub(2);
    if !can_cut(most.len(), cols) {
        return Ok(None);
    }
    Ok(Some(Grid::from_vec(most, cols)))
}

/// Returns how many equal cells next to each other the cell at a position is one of, there and back in a direction. The
/// sum fits.
pub fn run_through(board: &Grid<char>, at: (usize, usize), way: Direction) -> usize {
    alike_along(board, at, way) + alike_along(board, at, way.opposite()) + 1
}
