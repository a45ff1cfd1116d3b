//! Calls that put lines. Each tests what the call asks of its caller, and hands a line that does not fit back as too
//! large.
ghost use Rattle.std.specs.Prelude.{◌≡◌, IsTrue, All, IfSome, length};
ghost use Rattle.grid.specs.Prelude.{col_count, IsTable, items_of_each};

use grid::{Grid, GridError, LineRefused, LinesRefused};
use std::alloc::Allocator;

// A place among the rows of a table, or among its columns.
#[derive(Clone, Copy)]
pub enum LineAt {
    Row(usize),
    Col(usize),
}

fn misfit<T, A: Allocator>(line: Vec<T, A>) -> LineRefused<T, A> {
    LineRefused {
        line,
        fault: GridError::TooLarge,
    }
}

// Inserts a line at a place.
pub fn insert<T: Drop, A: Allocator>(
    grid: &mut Grid<T, A>,
    place: LineAt,
    line: Vec<T, A>,
) -> Result<(), LineRefused<T, A>> {
    let (rows, cols) = grid.size();
    let len = line.len();
    match place {
        LineAt::Row(at) if len != 0 && at <= rows && grid.fits_row(len) => {
            grid.insert_row(at, line)
        }
        LineAt::Col(at) if len != 0 && at <= cols && grid.fits_col(len) => {
            grid.insert_col(at, line)
        }
        _ => Err(misfit(line)),
    }
}

// Pushes a row.
pub fn push_row<T: Drop, A: Allocator>(
    grid: &mut Grid<T, A>,
    line: Vec<T, A>,
) -> Result<(), LineRefused<T, A>> {
    if line.is_empty() || !grid.fits_row(line.len()) {
        return Err(misfit(line));
    }
    grid.push_row(line)
}

// Pushes a column.
pub fn push_col<T: Drop, A: Allocator>(
    grid: &mut Grid<T, A>,
    line: Vec<T, A>,
) -> Result<(), LineRefused<T, A>> {
    if line.is_empty() || !grid.fits_col(line.len()) {
        return Err(misfit(line));
    }
    grid.push_col(line)
}

fn all_of_length<T, A: Allocator>(lines: &[Vec<T, A>], width: usize) -> bool
    ensures { IsTrue result → All (λ line. length line.items ≡ width) lines.now }
{
    lines.iter().all(|line| line.len() == width)
}

// The length of the lines of a table, 0 if it has none; nothing if some line is empty or they differ in length.
fn width_of<T, A: Allocator>(lines: &[Vec<T, A>]) -> Option<usize>
    ensures { IfSome result (λ width. IsTable (items_of_each lines.now)
        × (col_count (items_of_each lines.now) ≡ width)) }
{
    let width = match lines.first() {
        Some(line) => line.len(),
        None => return Some(0),
    };
    if width != 0 && all_of_length(lines, width) {
        Some(width)
    } else {
        None
    }
}

// Inserts several lines from a place on.
pub fn insert_several<T: Drop, A: Allocator>(
    grid: &mut Grid<T, A>,
    place: LineAt,
    lines: Vec<Vec<T, A>, A>,
) -> Result<(), LinesRefused<T, A>> {
    let (rows, cols) = grid.size();
    let none = lines.is_empty();
    match (width_of(lines.as_slice()), place) {
        (Some(width), LineAt::Row(at)) if at <= rows && (none || grid.fits_row(width)) => {
            grid.insert_rows(at, lines)
        }
        (Some(width), LineAt::Col(at)) if at <= cols && (none || grid.fits_col(width)) => {
            grid.insert_cols(at, lines)
        }
        _ => Err(LinesRefused {
            lines,
            fault: GridError::TooLarge,
        }),
    }
}
