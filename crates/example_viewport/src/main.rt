//! A window of a large map on a text screen. It scrolls, and a piece is on the map, turned once more in each picture.
//!
//! The window and the turned piece are views: neither is copied before it is drawn. Of the piece what is outside of the
//! window is left out.
#![tactic(auto)]

use anyhow::{Result, bail};
use grid::{Grid, GridView, Order, Symmetry, grid};

const MAP: (usize, usize) = (40, 100);

const WINDOW: (usize, usize) = (8, 20);

// Where the piece is on the map.
const PIECE: (usize, usize) = (17, 40);

// The upper left corner of the window, and the turn of the piece.
const PICTURES: [((usize, usize), Symmetry); 5] = [
    ((12, 30), Symmetry::Identity),
    ((14, 36), Symmetry::RotateLeft),
    ((18, 41), Symmetry::RotateHalf),
    ((10, 22), Symmetry::RotateRight),
    ((99, 99), Symmetry::FlipCols),
];

fn ground((row, col): (usize, usize)) -> char {
    let height = row
        .wrapping_mul(row)
        .wrapping_add(col.wrapping_mul(3))
        .wrapping_add(row.wrapping_mul(col) / 9);
    match height % 17 {
        0..=9 => '.',
        10..=13 => ',',
        14 | 15 => 'o',
        _ => '^',
    }
}

// How far a place is past another; less than 0 if it comes before.
fn distance(place: usize, from: usize) -> isize {
    let behind = isize::try_from(place).unwrap_or(isize::MAX);
    behind.saturating_sub(isize::try_from(from).unwrap_or(isize::MAX))
}

// Returns the window from a corner on, or from the last corner at which it is within the map.
fn window<'a>(
    map: &'a Grid<char>,
    at: (usize, usize),
) -> Option<((usize, usize), GridView<'a, char>)> {
    let (rows, cols) = map.size();
    if rows < WINDOW.0 || cols < WINDOW.1 {
        return None;
    }
    let at = (at.0.min(rows - WINDOW.0), at.1.min(cols - WINDOW.1));
    Some((at, map.part(at, WINDOW)))
}

fn print_view<R: Print + AllocGlobal>(rt: &R, view: &GridView<'_, char>) -> Result<()> {
    for line in view.iter_rows() {
        let text: String = line.copied().collect(rt.alloc())?;
        println!(rt; "{text}")?;
    }
    Ok(())
}

fn print_picture<R: Print + AllocGlobal>(
    rt: &R,
    map: &Grid<char>,
    piece: &GridView<'_, char>,
    at: (usize, usize),
) -> Result<()> {
    let Some((at, part)) = window(map, at) else {
        bail!("the map is smaller than the window");
    };
    let mut screen = Grid::from_view(rt.alloc(), Order::RowMajor, &part)?;
    screen.paste_clipped((distance(PIECE.0, at.0), distance(PIECE.1, at.1)), piece)?;
    println!(rt; "from {}, {}", at.0, at.1)?;
    print_view(rt, &screen.view())
}

fn main(rt: HostRuntime) -> Result<()> {
    let map = Grid::from_fn(rt.alloc(), MAP.0, MAP.1, ground)?;
    let piece = grid!(rt.alloc(); ['#', ' '] ['#', ' '] ['#', '#'] ['#', '@'])?;
    for (at, symmetry) in PICTURES {
        print_picture(&rt, &map, &piece.view().turned(symmetry), at)?;
    }
    Ok(())
}
