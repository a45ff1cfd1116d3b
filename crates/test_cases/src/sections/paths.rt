//! Makes each call of `grid_paths` for the cases, on maps stored by rows and by columns: it returns the expected text.
//! Each request of a call for memory is refused once: then the map stays as it was.
//!
//! A case is a line `== CALL CONNECTIVITY NUMBERS`, where the numbers are rows and columns of positions; the map, in
//! which `.` may be walked on, or at `cheapest` a digit is the cost; a line `--`; and the expected text: a line of
//! numbers for each row (`.` where there is none), or of cells. Below `regions` and `flood` the count comes first;
//! below `shortest_path` only the number of steps. `paths.py` made the cases.

mod answer;

use crate::case::{Case, CaseError};
use crate::shown::text;
use answer::{Search, answer};
use grid::{Grid, Order};
use grid_paths::Connectivity;
use grid_text::{TextError, from_text};
use std::alloc::{AllocError, Global};
use test_support::fixtures::Heap;
use test_support::fuse::Fuse;

// What a call returns that is refused memory and leaves the map as it was.
const REFUSED: &str = "refused";

// The positions whose rows and columns are the numbers of a line.
fn positions(alloc: Global, numbers: &str) -> Result<Vec<(usize, usize)>, AllocError> {
    let mut found = Vec::new(alloc);
    let mut row = None;
    for word in numbers.split(' ') {
        let number = word.parse::<usize>().unwrap_or(usize::MAX);
        match row {
            Some(row_number) => {
                found.push((row_number, number))?;
                row = None;
            }
            None => row = Some(number),
        }
    }
    Ok(found)
}

// The call of a case.
fn search_of<'a>(alloc: Global, case: Case<'a>) -> Result<Search<'a>, AllocError> {
    let (call, rest) = case.call();
    let (steps, numbers) = rest.split_once(" ").unwrap_or((rest, ""));
    Ok(Search {
        call,
        steps: if steps == "Eight" {
            Connectivity::Eight
        } else {
            Connectivity::Four
        },
        at: positions(alloc, numbers)?,
    })
}

// How many requests for memory are made for a vector of `len` positions, each time that it is full.
fn growths(len: usize) -> u64 {
    let full: [usize; 7] = [0, 4, 8, 16, 32, 64, 128];
    let mut count = 0u64;
    for room in full {
        if room < len {
            count = count.saturating_add(1);
        }
    }
    count
}

// How many requests for memory are made: for which cells may be walked on or entered, for the numbers, and for the
// queue; for a path, if there is one; for sums of costs, as they are returned; and for the text of regions. What is
// taken takes more as it grows.
fn requests(call: &str, expected: &str) -> u64 {
    let (mut marks, mut others) = (0usize, 0usize);
    for letter in expected.chars() {
        match letter {
            'x' => marks = marks.saturating_add(1),
            '\n' => {}
            _ => others = others.saturating_add(1),
        }
    }
    match call {
        "shortest_path" if expected != ".\n" => 4,
        "cheapest" => 4,
        "regions" => 4,
        // (the region is the board)
        "fill_region" if others == 0 => 0,
        "fill_region" => growths(marks),
        "flood" if marks > 0 => growths(marks).saturating_add(2),
        "flood" => 1,
        _ => 3,
    }
}

// Whether a map has the cells of another.
fn is_same(map: &Grid<char, &Heap>, other: &Grid<char>) -> bool {
    for ((row, col), cell) in other.indexed_iter() {
        if map.get(row, col) != Some(cell) {
            return false;
        }
    }
    map.size() == other.size()
}

// A map in this order, on a heap that grants nothing more.
fn stored<'a>(
    heap: &'a Heap,
    map: &Grid<char>,
    order: Order,
) -> Result<Grid<char, &'a Heap>, AllocError> {
    heap.grant(1);
    let stored = Grid::from_view(heap, order, &map.view());
    heap.grant(0);
    stored
}

// What a call with this many requests granted returns: a call that is refused one must leave the map as it was.
fn returned(
    alloc: Global,
    granted: u64,
    map: &Grid<char>,
    order: Order,
    search: &Search<'_>,
) -> Result<String, CaseError> {
    let heap = Fuse::new(alloc, 0);
    let mut searched = stored(&heap, map, order)?;
    heap.grant(granted);
    match answer(alloc, &mut searched, search) {
        Err(CaseError::Memory) if is_same(&searched, map) => text(alloc, REFUSED),
        Err(CaseError::Memory) => text(alloc, "refused, and the map changed"),
        returned => returned,
    }
}

// The first text in an order that isn't the expected one, with the run that it is of.
fn mismatch(
    alloc: Global,
    map: &Grid<char>,
    order: Order,
    search: &Search<'_>,
    expected: &str,
) -> Result<Option<String>, CaseError> {
    let needed = requests(search.call, expected);
    for granted in 0..needed.saturating_add(2) {
        let actual = returned(alloc, granted, map, order, search)?;
        let expected = if granted < needed { REFUSED } else { expected };
        if actual.as_str() != expected {
            let run = format!(in alloc; "{order:?}, {granted} requests granted:\n{actual}")?;
            return Ok(Some(run));
        }
    }
    Ok(None)
}

// The expected text, if each run on a map in each order returns it, or the first that differs.
fn actual_on(
    alloc: Global,
    map: &Grid<char>,
    search: &Search<'_>,
    expected: &str,
) -> Result<String, CaseError> {
    for order in [Order::RowMajor, Order::ColumnMajor] {
        if let Some(actual) = mismatch(alloc, map, order, search, expected)? {
            return Ok(actual);
        }
    }
    text(alloc, expected)
}

/// Returns what the call of a case returns.
pub fn actual(alloc: Global, case: Case<'_>) -> Result<String, CaseError> {
    let search = search_of(alloc, case)?;
    match from_text(alloc, case.given, Some) {
        Ok(map) => actual_on(alloc, &map, &search, case.expected),
        Err(TextError::Memory) => Err(CaseError::Memory),
        Err(_) => Err(CaseError::BadBoard),
    }
}
