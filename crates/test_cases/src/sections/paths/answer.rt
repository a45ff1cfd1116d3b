//! What the calls return, as text.
use crate::case::CaseError;
use crate::shown::text;
use grid::Grid;
use grid_paths::{
    Connectivity, Enter, cheapest, distances, distances_from, fill_region, flood, regions,
    shortest_path,
};
use grid_text::to_text;
use std::alloc::{AllocError, Allocator, Global};
use std::fmt::Display;

/// A call, and its arguments after the map.
#[derive(Drop)]
pub struct Search<'a> {
    pub call: &'a str,
    pub steps: Connectivity,
    pub at: Vec<(usize, usize)>,
}

fn is_free(cell: &char) -> bool {
    *cell == '.'
}

fn cost(cell: &char) -> Option<u32> {
    cell.to_digit(10)
}

// A point is gone on from, a letter stopped at.
fn enter(cell: &char) -> Enter {
    match *cell {
        '#' => Enter::No,
        '.' => Enter::On,
        _ => Enter::Stop,
    }
}

fn same(cell: &char) -> char {
    *cell
}

fn some(number: &usize) -> Option<usize> {
    Some(*number)
}

// A line for each row, with its numbers.
fn numbers_text<N: Display, A: Allocator>(
    alloc: Global,
    grid: &Grid<Option<N>, A>,
) -> Result<String, AllocError> {
    let mut text = String::new(alloc);
    for row in grid.iter_rows() {
        for number in row {
            match number {
                Some(number) => write!(&mut text, "{number},")?,
                None => text.push_str(".,")?,
            }
        }
        text.push('\n')?;
    }
    Ok(text)
}

// The same of what a call returned.
fn table<N: Display + Drop, A: Allocator>(
    alloc: Global,
    found: Result<Grid<Option<N>, A>, AllocError>,
) -> Result<String, CaseError> {
    Ok(numbers_text(alloc, &found?)?)
}

fn regions_text<A: Allocator + Clone>(
    alloc: Global,
    map: &Grid<char, A>,
    steps: Connectivity,
) -> Result<String, CaseError> {
    let (numbers, count) = regions(map, steps)?;
    let text = numbers_text(alloc, &numbers.map_ref(some)?)?;
    Ok(format!(in alloc; "{count}\n{text}")?)
}

fn path_text<A: Allocator + Clone>(
    alloc: Global,
    map: &Grid<char, A>,
    ends: &[(usize, usize)],
    steps: Connectivity,
) -> Result<String, CaseError> {
    match ends {
        [from, to, ..] => match shortest_path(map, *from, *to, steps, is_free)? {
            Some(path) => Ok(format!(in alloc; "{}\n", path.len().saturating_sub(1))?),
            None => text(alloc, ".\n"),
        },
        _ => Err(CaseError::BadArgument),
    }
}

fn filled_text<A: Allocator + Clone>(
    alloc: Global,
    map: &mut Grid<char, A>,
    at: (usize, usize),
    steps: Connectivity,
) -> Result<String, CaseError> {
    fill_region(map, at, steps, 'x')?;
    Ok(to_text(alloc, map, same)?)
}

// How many positions a flood enters, and the map with a mark at each.
fn flooded_text<A: Allocator + Clone>(
    alloc: Global,
    map: &mut Grid<char, A>,
    starts: &[(usize, usize)],
    steps: Connectivity,
) -> Result<String, CaseError> {
    let found = flood(map, starts, steps, enter)?;
    for at in &found {
        map.set(at.0, at.1, 'x');
    }
    let count = found.len();
    let text = to_text(alloc, map, same)?;
    Ok(format!(in alloc; "{count}\n{text}")?)
}

/// What a call returns.
pub fn answer<A: Allocator + Clone>(
    alloc: Global,
    map: &mut Grid<char, A>,
    search: &Search<'_>,
) -> Result<String, CaseError> {
    let (steps, at) = (search.steps, search.at.as_slice());
    let first = match at {
        [first, ..] => *first,
        [] => (usize::MAX, 0),
    };
    match search.call {
        "distances" => table(alloc, distances(map, first, steps, is_free)),
        "distances_from" => table(alloc, distances_from(map, at, steps, is_free)),
        "cheapest" => table(alloc, cheapest(map, first, steps, cost)),
        "shortest_path" => path_text(alloc, map, at, steps),
        "fill_region" => filled_text(alloc, map, first, steps),
        "flood" => flooded_text(alloc, map, at, steps),
        "regions" => regions_text(alloc, map, steps),
        _ => Err(CaseError::UnknownCall),
    }
}
