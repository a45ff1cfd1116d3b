//! Distances and regions, with no proof file.
ghost use Rattle.std.specs.Prelude.{◌≡◌, ◌==◌, ℕ, IfOk, OnOk, Some};
ghost use Rattle.grid.specs.Prelude.{cell, InRange};
ghost use Rattle.grid_near.specs.declared.steps.Connectivity.TheVariants.{Four, Eight};
ghost use Rattle.grid_paths.specs.Walks.{HasLeastSteps, HasLeastFrom, IsFilled, passing};
ghost use Rattle.grid_paths.specs.Regions.{AreNumbers};

use grid::{Grid, Order};
use grid_paths::{
    Connectivity, cheapest_path, distances, distances_from, fill_region, regions, shortest_path,
};
use std::alloc::{AllocError, Global};

/// Returns the least number of steps from a position to each free cell, `.`, of a maze.
pub fn steps_from(maze: &Grid<u8>, from: (usize, usize)) -> Result<Grid<Option<usize>>, AllocError>
    ensures { IfOk result (λ steps.
        HasLeastSteps Four (passing (λ x. x == 46) maze.now.rows) from steps.rows) }
{
    distances(maze, from, Connectivity::Four, |cell| *cell == b'.')
}

/// Returns the least number of steps from a position of a room to each free cell, `.`, of it, or `None` where the room
/// isn't within the map. A room is a part of the map, which isn't copied; its walls are its edges too.
pub fn steps_in_room(
    alloc: Global,
    map: &Grid<u8>,
    (at, size): ((usize, usize), (usize, usize)),
    from: (usize, usize),
) -> Result<Option<Grid<Option<usize>>>, AllocError> {
    let Some(room) = map.get_part(at, size) else {
        return Ok(None);
    };
    let floor = Grid::map_view(alloc, Order::RowMajor, &room, |_, cell| *cell == b'.')?;
    Ok(Some(distances(&floor, from, Connectivity::Four, |free| *free)?))
}

// Whether a cell of a board is free.
fn is_free(cell: &bool) -> bool
    ensures { result ≡ cell.now }
{
    *cell
}

/// Returns the steps of a king to each free cell of a board from the nearest of several, and those to one cell.
pub fn steps_of_kings(
    board: &Grid<bool>,
    kings: &[(usize, usize)],
    at: (usize, usize),
) -> Result<(Grid<Option<usize>>, Option<usize>), AllocError>
    requires { InRange board.now.rows at.0 at.1 }
    ensures least { IfOk result (λ found.
        HasLeastFrom Eight (passing (λ x. x) board.now.rows) kings.now found.0.rows) }
    ensures at { IfOk result (λ found. cell found.0.rows at.0 at.1 ≡ Some found.1) }
{
    let steps = distances_from(board, kings, Connectivity::Eight, is_free)?;
    let here = steps[at];
    Ok((steps, here))
}

/// Paints a cell and what is connected with it, and returns what another cell is then.
pub fn paint(
    picture: &mut Grid<u8>,
    at: (usize, usize),
    color: u8,
    other: (usize, usize),
) -> Result<u8, AllocError>
    requires { InRange picture.old.rows other.0 other.1 }
    ensures { OnOk result ((x : ℕ) → cell picture.old.rows at.0 at.1 ≡ Some x
        → IsFilled Four (passing (λ y. y == x) picture.old.rows) at color
        picture.old.rows picture.new.rows) }
{
    fill_region(picture, at, Connectivity::Four, color)?;
    Ok(picture[other])
}

/// Returns the labels of the regions of a picture, and that of one cell.
pub fn region_of(picture: &Grid<u8>, at: (usize, usize)) -> Result<(Grid<usize>, usize), AllocError>
    requires { InRange picture.now.rows at.0 at.1 }
    ensures numbers { IfOk result (λ found. (count : ℕ) × AreNumbers found.0.rows count) }
    ensures at { IfOk result (λ found. cell found.0.rows at.0 at.1 ≡ Some found.1) }
{
    let (numbers, _) = regions(picture, Connectivity::Four)?;
    let number = numbers[at];
    Ok((numbers, number))
}

/// Draws a shortest path through a maze, whose walls are `#`, and returns the number of its steps, or `None` where
/// there is no path.
///
///     ["..#", "#..", "#.."]   draw_way((0, 0), (2, 2))   Some(4)   ["oo#", "#oo", "#.o"]
pub fn draw_way(
    maze: &mut Grid<char>,
    from: (usize, usize),
    to: (usize, usize),
) -> Result<Option<usize>, AllocError> {
    let Some(path) = shortest_path(maze, from, to, Connectivity::Four, |cell| *cell != '#')? else {
        return Ok(None);
    };
    for at in path.as_slice() {
        maze.set_at(*at, 'o');
    }
    Ok(Some(path.len().saturating_sub(1)))
}

// What a step to this height costs, if it can be climbed.
fn cost(height: &u8) -> Option<u32> {
    if *height == 9 {
        None
    } else {
        Some(u32::from(*height))
    }
}

/// Returns what the cheapest path over a map of heights costs, and where it goes. A step costs the height that it leads
/// to; 9 can't be climbed.
///
///     [[1, 8, 1], [1, 1, 1]]   cheapest_way((0, 0), (0, 2))   Some(([(0, 0), (1, 0), (1, 1), (1, 2), (0, 2)], 4))
pub fn cheapest_way(
    map: &Grid<u8>,
    from: (usize, usize),
    to: (usize, usize),
) -> Result<Option<(Vec<(usize, usize)>, u128)>, AllocError> {
    cheapest_path(map, from, to, Connectivity::Four, cost)
}

/// Returns how many cells each region of equal cells has, in the order of the regions' labels.
///
///     [[7, 7, 8], [8, 7, 7]]   sizes_of_regions()   [4, 1, 1]
pub fn sizes_of_regions(alloc: Global, picture: &Grid<u8>) -> Result<Vec<usize>, AllocError> {
    let (numbers, count) = regions(picture, Connectivity::Four)?;
    let mut sizes = vec![in alloc; 0usize; count]?;
    for number in numbers.iter() {
        if let Some(size) = sizes.get_mut(*number) {
            *size = size.saturating_add(1);
        }
    }
    Ok(sizes)
}

/// Returns how far the farthest free cell is from the nearest of several wells, if one can be reached.
///
///     ["..#.", "...."]   farthest_from([(0, 0)])   Some(5)
pub fn farthest_from(
    map: &Grid<char>,
    wells: &[(usize, usize)],
) -> Result<Option<usize>, AllocError> {
    let steps = distances_from(map, wells, Connectivity::Four, |cell| *cell == '.')?;
    Ok(steps.iter().copied().max().flatten())
}
