//! Callers of `grid_text`, with no proof file.
ghost use Rattle.std.specs.Prelude.{◌≡◌, ◌==◌, ◌+◌, ◌<◌, ◌≤◌, Some, None, true, false, IfOk, if◌then◌else◌, string_bytes};
ghost use Rattle.grid.specs.Prelude.{act, row_count, col_count, sub_table};
ghost use Rattle.text_lines.specs.Lines.{lines_of};
ghost use Rattle.text_lines.specs.Numbers.{cell_of};
ghost use Rattle.grid_text.specs.Reading.{IsOrMemory, reading, reading_words};
ghost use Rattle.grid_text.specs.Writing.{table_text};
ghost use Rattle.grid_deferred.specs.Deferred.{shown};

use grid::{Grid, Symmetry};
use grid_deferred::Deferred;
use grid_text::{TextError, from_text, from_words, to_text, try_from_words};
use std::alloc::{AllocError, Allocator, Global};
use text_lines::parse_cell;

/// Reads a map of walls, `#`, and free cells, `.`.
pub fn walls(alloc: Global, text: &str) -> Result<Grid<bool>, TextError>
    ensures { IsOrMemory (reading
        (λ c. if c == 35 then Some true else (if c == 46 then Some false else None))
        (lines_of text.now)) result }
{
    from_text(alloc, text, |c| match c {
        '#' => Some(true),
        '.' => Some(false),
        _ => None,
    })
}

/// Writes such a map.
pub fn walls_text<A: Allocator>(alloc: Global, walls: &Grid<bool, A>) -> Result<String, AllocError>
    ensures { IfOk result (λ text. string_bytes text
        ≡ table_text (λ wall. if wall then 35 else 46) walls.now.rows) }
{
    to_text(alloc, walls, |wall| if *wall { '#' } else { '.' })
}

/// Writes a part of such a map, turned to the left; neither is copied.
///
///     [[#, ., #], [., ., #]]   window_text((0, 1), (2, 2))   "##\n..\n"
pub fn window_text<A: Allocator>(
    alloc: Global,
    walls: &Grid<bool, A>,
    at: (usize, usize),
    size: (usize, usize),
) -> Result<String, AllocError>
    requires rows_in { at.0 + size.0 ≤ row_count walls.now.rows }
    requires cols_in { at.1 + size.1 ≤ col_count walls.now.rows }
    ensures { 0 < size.0 → 0 < size.1 → IfOk result (λ text. string_bytes text ≡ table_text
        (λ wall. if wall then 35 else 46)
        (act Symmetry.RotateLeft (sub_table walls.now.rows at size))) }
{
    let window = walls.part(at, size).turned(Symmetry::RotateLeft);
    to_text(alloc, &window, |wall| if *wall { '#' } else { '.' })
}

/// Writes such a map as seen through the symmetry that isn't applied yet.
pub fn shown_text<A: Allocator>(
    alloc: Global,
    walls: &Deferred<'_, bool, A>,
) -> Result<String, AllocError>
    ensures { IfOk result (λ text. string_bytes text
        ≡ table_text (λ wall. if wall then 35 else 46) (shown walls.now)) }
{
    to_text(alloc, walls, |wall| if *wall { '#' } else { '.' })
}

/// Reads a sheet of integers.
pub fn sheet(alloc: Global, text: &str) -> Result<Grid<i64>, TextError>
    ensures { IsOrMemory (reading_words cell_of (lines_of text.now)) result }
{
    from_words(alloc, text, |word| parse_cell(word))
}

/// Reads a sheet of names: cells that take memory.
///
///     names("ann bob\ncat dan\n")   [["ann", "bob"], ["cat", "dan"]]
pub fn names(alloc: Global, text: &str) -> Result<Grid<String>, TextError> {
    try_from_words(alloc, text, |word| Ok(Some(String::from_str(alloc, word)?)))
}
