//! What an application writes first: code without contracts, with no proof file.
ghost use Rattle.grid.specs.Prelude.{InRange};

use grid::{Direction, Grid, GridError, GridLineIter};
use std::alloc::{AllocError, Global};

/// Returns the sum of all cells, read by index in nested loops.
pub fn total(board: &Grid<u32>) -> u64 {
    let mut sum = 0u64;
    for row in 0..board.rows() {
        for col in 0..board.cols() {
            sum = sum.saturating_add(u64::from(board[(row, col)]));
        }
    }
    sum
}

/// Sets every cell above a limit to it.
pub fn clip(board: &mut Grid<u8>, limit: u8) {
    for cell in board.iter_mut() {
        *cell = limit.min(*cell);
    }
}

/// Puts a piece on a free cell of the board; returns whether there is one at this position.
pub fn put(board: &mut Grid<Piece>, at: (usize, usize), piece: Piece) -> bool {
    if board.contains(at) && board[at] == Piece::Free {
        board[at] = piece;
        return true;
    }
    false
}

/// Adds 1 to the counter at a position, if there is one.
pub fn count_up(counters: &mut Grid<u32>, at: (usize, usize)) {
    if let Some(counter) = counters.get_mut_at(at) {
        *counter = counter.saturating_add(1);
    }
}

/// Takes the piece off a square and returns it: `None` where there is none, and out of range.
pub fn take_off(board: &mut Grid<Option<Piece>>, at: (usize, usize)) -> Option<Piece> {
    board.set_at(at, None).flatten()
}

/// Sets the trees next to a cell on fire. Their positions are collected first, since the loop writes to the board.
pub fn spread(alloc: Global, wood: &mut Grid<char>, at: (usize, usize)) -> Result<(), AllocError> {
    let near: Vec<(usize, usize)> = wood.neighbors4(at).map(|(to, _)| to).collect(alloc)?;
    for to in near {
        if wood.get_at(to) == Some(&'T') {
            wood.set_at(to, '*');
        }
    }
    Ok(())
}

/// Moves the player, `@`, by one step, if the cell there is free; returns whether it was.
pub fn walk(level: &mut Grid<char>, way: Direction) -> bool {
    let Some(at) = level.position(|cell| *cell == '@') else {
        return false;
    };
    match level.beside(at, way) {
        Some(to) if level[to] == '.' => {
            level[at] = '.';
            level[to] = '@';
            true
        }
        _ => false,
    }
}

/// Draws a line from a position in one direction, up to the edge or to a cell that isn't free.
pub fn shoot(board: &mut Grid<char>, from: (usize, usize), way: Direction) {
    let mut at = from;
    for _ in 0..board.rows().max(board.cols()) {
        match board.beside(at, way) {
            Some(next) if board.get_at(next) == Some(&'.') => {
                board.set_at(next, '*');
                at = next;
            }
            _ => return,
        }
    }
}

/// Langton's ant, on a board whose edges meet: turns by the color of its cell, flips it and goes a step, so many times.
/// Returns where it is then.
pub fn ant(black: &mut Grid<bool>, from: (usize, usize), steps: usize) -> (usize, usize) {
    let (mut at, mut way) = (from, Direction::Up);
    for _ in 0..steps {
        let is_black = black.get_at(at) == Some(&true);
        way = way.turned(if is_black { 6 } else { 2 });
        black.set_at(at, !is_black);
        at = black.wrapped_beside(at, way).unwrap_or(at);
    }
    at
}

/// A level: its walls, and in a second board what lies on its floor.
#[derive(Drop)]
pub struct Level {
    pub walls: Grid<bool>,
    pub items: Grid<Option<char>>,
}

/// Takes what lies on the cells of a level that are walls, and returns how many had something.
pub fn clear_walls(level: &mut Level) -> usize {
    let mut found = 0usize;
    for at in level.walls.indices() {
        if level.walls.get_at(at) == Some(&true)
            && level.items.set_at(at, None).flatten().is_some()
        {
            found = found.saturating_add(1);
        }
    }
    found
}

/// Lets what is full fall, in one pass: swaps each full cell with an empty one below it.
pub fn fall(board: &mut Grid<bool>) {
    for (row, col) in board.indices() {
        let (here, below) = ((row, col), (row.saturating_add(1), col));
        if board.get_at(here) == Some(&true) && board.get_at(below) == Some(&false) {
            board.swap(here, below);
        }
    }
}

/// Returns the next generation of Life.
pub fn life(board: &Grid<bool>) -> Result<Grid<bool>, AllocError> {
    board.map_counts8(
        |cell| *cell,
        |live, near| (near == 3) | (*live & (near == 2)),
    )
}

/// Returns the map of Minesweeper: a mine, or how many mines touch the cell.
pub fn mine_map(mines: &Grid<bool>) -> Result<Grid<char>, AllocError> {
    mines.map_counts8(
        |mine| *mine,
        |mine, near| if *mine { '*' } else { char::from(b'0' + near) },
    )
}

/// Returns the largest cell of each cell's surroundings.
pub fn highest_around(board: &Grid<u8>) -> Result<Grid<u8>, AllocError> {
    board.map_neighbors8(|_, cell, near| near.fold(*cell, |most, (_, x)| most.max(*x)))
}

/// Returns the board in which each row is written backwards.
pub fn backwards(board: &Grid<u8>) -> Result<Grid<u8>, AllocError> {
    board.map_indexed(|(row, col), _| board[(row, board.cols() - 1 - col)])
}

/// Returns the board at half the size, each cell one of four.
pub fn halved(alloc: Global, board: &Grid<u8>) -> Result<Grid<u8>, GridError> {
    let (rows, cols) = board.size();
    Grid::from_fn(
        alloc,
        rows / 2,
        cols / 2,
        |(row, col)| board[(2 * row, 2 * col)],
    )
}

/// Returns for each cell the sum of those before it in its row.
pub fn running_sums(board: &Grid<u32>) -> Result<Grid<u32>, AllocError> {
    board.map_indexed(
        |(row, col), _|
            requires { InRange board.now.rows row col }
        {
            let mut sum = 0u32;
            for at in 0..col {
                sum = sum.saturating_add(board[(row, at)]);
            }
            sum
        },
    )
}

/// Same as [`running_sums`], of a board that is a local variable.
pub fn running_sums_of(board: Grid<u32>) -> Result<Grid<u32>, AllocError> {
    board.map_indexed(
        |(row, col), _|
            requires { InRange board.rows row col }
        {
            let mut sum = 0u32;
            for at in 0..col {
                sum = sum.saturating_add(board[(row, at)]);
            }
            sum
        },
    )
}

/// Returns the product of the cells of a line that aren't 0.
pub fn product(line: GridLineIter<'_, u32>) -> u32 {
    line.fold(1u32, |product, x| product.saturating_mul((*x).max(1)))
}

/// Returns the largest product of a row.
pub fn best_row(board: &Grid<u32>) -> Option<u32> {
    board.iter_rows().map(product).max()
}

// The total of a line, or `u32::MAX` where it is more.
fn line_total(line: GridLineIter<'_, u32>) -> u32 {
    line.copied().fold(0, u32::saturating_add)
}

/// Adds a row with the totals of the columns, and then a column with those of the rows.
///
///     [[1, 2], [3, 4]]   add_totals()   [[1, 2, 3], [3, 4, 7], [4, 6, 10]]
pub fn add_totals(alloc: Global, sheet: &mut Grid<u32>) -> Result<(), GridError> {
    let totals: Vec<u32> = sheet.iter_cols().map(line_total).collect(alloc)?;
    if !totals.is_empty() && sheet.fits_row(totals.len()) {
        sheet.push_row(totals)?;
    }
    let totals: Vec<u32> = sheet.iter_rows().map(line_total).collect(alloc)?;
    if !totals.is_empty() && sheet.fits_col(totals.len()) {
        sheet.push_col(totals)?;
    }
    Ok(())
}

/// Returns the text of a sheet and its totals, each number as wide as the longest.
///
///     [[1, 20], [3, 4]]   totals_text()   [
///                                             [  1, 20, 21]
///                                             [  3,  4,  7]
///                                             [  4, 24, 28]
///                                         ]
pub fn totals_text(alloc: Global, mut sheet: Grid<u32>) -> Result<String, GridError> {
    add_totals(alloc, &mut sheet)?;
    let text = sheet.pretty(alloc, None)?;
    Ok(text)
}

/// A cell of an own type.
#[derive(Clone, Copy, Debug, Default, PartialEq)]
pub enum Piece {
    #[default]
    Free,
    Man(u8),
    King(u8),
}

/// A cell that owns memory.
#[derive(Clone, Debug, Drop)]
pub struct Field {
    pub name: String,
    pub price: Option<u32>,
}

/// Returns a row of fields of these names.
pub fn fields(alloc: Global, names: &[&str]) -> Result<Grid<Field>, GridError> {
    let made = Grid::try_from_fn(alloc, 1, names.len(), |(_, col)| match names.get(col) {
        Some(name) => Ok(Field {
            name: String::from_str(alloc, *name)?,
            price: None,
        }),
        None => Err(AllocError),
    })??;
    Ok(made)
}
