//! Commands on lines: an edit of rows, and an edit of columns as that of rows between two transposes.
//!
//! A refusal is decided before anything is allocated.
ghost use Rattle.std.specs.Prelude.{◌<◌};
ghost use Rattle.grid.specs.Prelude.{items_of_each, read, insert_at, insert_all, edit_value, pad_edit, Edited, EditCounted};
ghost use Rattle.grid_commands.specs.declared.command.Axis.TheVariants.{Row, Col};

use crate::Grid;
use grid_base::{Tally, clones_of_line};
use grid_commands::{LineEdit, Reply, line_refusal, lines_refusal, pad_refusal};
use std::alloc::{AllocError, Allocator};

// Reads a row.
fn read_row<T, A: Allocator>(grid: &Grid<T, A>, at: usize) -> Result<Reply<T, A>, AllocError>
where
    T: Clone + Default + Drop,
    A: Clone,
    ensures { Edited T.is_default T.is_clone Row (read at) grid.now grid.now result }
{
    if at >= grid.rows() {
        return Ok(Reply::Line(None));
    }
    let alloc = grid.flat.allocator().clone()?;
    let line = clones_of_line(alloc, grid.iter_row(at))?;
    Ok(Reply::Line(Some(line)))
}

// Inserts a row before one.
#[tactic(auto, using(crate::proofs::LineEditLemmas::insert_done, crate::proofs::LineEditLemmas::insert_replied))]
fn insert_line<T, A: Allocator>(
    grid: &mut Grid<T, A>,
    at: usize,
    line: Vec<T, A>,
) -> Result<Reply<T, A>, AllocError>
where
    T: Clone + Default + Drop,
    ensures { Edited
        T.is_default T.is_clone Row (insert_at at line.items) grid.old grid.new result }
{
    let (rows, cols) = grid.size();
    if let Some(refusal) = line_refusal(rows, cols, at, &line) {
        return Ok(Reply::Refused(refusal));
    }
    match grid.insert_row(at, line) {
        Ok(()) => Ok(Reply::Done),
        Err(_) => Err(AllocError),
    }
}

// Inserts several rows before one.
fn insert_lines<T, A: Allocator>(
    grid: &mut Grid<T, A>,
    at: usize,
    several: Vec<Vec<T, A>, A>,
) -> Result<Reply<T, A>, AllocError>
where
    T: Clone + Default + Drop,
    ensures { Edited T.is_default T.is_clone Row
        (insert_all at (items_of_each several.items)) grid.old grid.new result }
{
    let (rows, cols) = grid.size();
    if let Some(refusal) = lines_refusal(rows, cols, at, several.as_slice()) {
        return Ok(Reply::Refused(refusal));
    }
    match grid.insert_rows(at, several) {
        Ok(()) => Ok(Reply::Done),
        Err(_) => Err(AllocError),
    }
}

// Adds rows of defaults at the end, or at the beginning.
fn pad_lines<T, A: Allocator>(
    grid: &mut Grid<T, A>,
    at_end: bool,
    count: usize,
    tally: &mut Tally,
) -> Result<Reply<T, A>, AllocError>
where
    T: Clone + Default,
    A: Clone,
    ensures edited { Edited
        T.is_default T.is_clone Row (pad_edit at_end count) grid.old grid.new result }
    ensures counted { EditCounted Row (pad_edit at_end count) grid.old tally.old tally.new result }
{
    let (rows, cols) = grid.size();
    if let Some(refusal) = pad_refusal(rows, cols, count) {
        return Ok(Reply::Refused(refusal));
    }
    let at = if at_end { rows } else { 0 };
    match grid.pad_rows_counted(at, count, tally) {
        Ok(()) => Ok(Reply::Done),
        Err(_) => Err(AllocError),
    }
}

// Edits the rows.
pub(crate) fn edit_rows<T, A: Allocator>(
    grid: &mut Grid<T, A>,
    edit: LineEdit<T, A>,
    tally: &mut Tally,
) -> Result<Reply<T, A>, AllocError>
where
    T: Clone + Default + Drop,
    A: Clone,
    ensures edited { Edited T.is_default T.is_clone Row (edit_value edit) grid.old grid.new result }
    ensures counted { EditCounted Row (edit_value edit) grid.old tally.old tally.new result }
{
    let (rows, _) = grid.size();
    match edit {
        LineEdit::Read(at) => read_row(grid, at),
        LineEdit::Push(line) => insert_line(grid, rows, line),
        LineEdit::Insert(at, line) => insert_line(grid, at, line),
        LineEdit::InsertAll(at, several) => insert_lines(grid, at, several),
        LineEdit::Pop => Ok(Reply::Line(grid.pop_row()?)),
        LineEdit::Remove(at) => Ok(Reply::Line(grid.remove_row(at)?)),
        LineEdit::Delete(at) => Ok(Reply::Flag(grid.delete_rows_counted(at, 1, tally))),
        LineEdit::DeleteRange(start, count) => {
            Ok(Reply::Flag(grid.delete_rows_counted(start, count, tally)))
        }
        LineEdit::Expand(count) => pad_lines(grid, true, count, tally),
        LineEdit::Prepend(count) => pad_lines(grid, false, count, tally),
    }
}

// Edits the columns: the rows between two transposes.
pub(crate) fn edit_cols<T, A: Allocator>(
    grid: &mut Grid<T, A>,
    edit: LineEdit<T, A>,
    tally: &mut Tally,
) -> Result<Reply<T, A>, AllocError>
where
    T: Clone + Default + Drop,
    A: Clone,
    ensures edited { Edited T.is_default T.is_clone Col (edit_value edit) grid.old grid.new result }
    ensures counted { EditCounted Col (edit_value edit) grid.old tally.old tally.new result }
{
    grid.transpose();
    let edited = edit_rows(grid, edit, tally);
    grid.transpose();
    edited
}
