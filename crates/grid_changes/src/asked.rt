//! Commands as a history reads them: an answer, or a change with its reply.
ghost use Rattle.std.specs.Prelude.{◌≡◌, ◌<◌, ◌+◌, IsTrue, IfOk, OnErr};
ghost use Rattle.grid.specs.Prelude.{row_count, col_count, ClonesAreEqual, filled, items_of_each, command_value, reply_value, lines, edit_value, pad_edit, insert_at, insert_all, remove_at, delete_range, line_is, line_at, line_count, line_width};
ghost use Rattle.grid_changes.specs.Asked.{IsAsked};
ghost use Rattle.grid_changes.specs.Entry.{wants_memory};
ghost use Rattle.grid_changes.specs.Timeline.{board_of};

use crate::change::Change;
use grid::{Axis, Command, Grid, Order, Refusal, Reply, Symmetry, Tally};
use grid_base::{clones_of_line, has_lines};
use grid_commands::{LineEdit, Request, line_refusal, lines_refusal, pad_refusal, request_of};
use std::alloc::{AllocError, Allocator};
use std::convert::TryFrom;

// What a command comes to at a board.
pub(crate) enum Asked<T, A: Allocator> {
    // Only a reply.
    Answer(Reply<T, A>),
    // A change, and the reply once it is made.
    Making(Change<T, A>, Reply<T, A>),
}

// How many lines of an axis there are, and how long they are.
fn measure<T, A: Allocator>(grid: &Grid<T, A>, axis: Axis) -> (usize, usize)
    ensures count { result.0 ≡ line_count axis (row_count grid.now.rows) (col_count grid.now.rows) }
    ensures width { result.1 ≡ line_width axis (row_count grid.now.rows) (col_count grid.now.rows) }
{
    let (rows, cols) = grid.size();
    match axis {
        Axis::Row => (rows, cols),
        Axis::Col => (cols, rows),
    }
}

// The reply to a read of a line.
fn read_line<T, A: Allocator>(
    grid: &Grid<T, A>,
    axis: Axis,
    at: usize,
) -> Result<Reply<T, A>, AllocError>
where
    T: Clone + Drop,
    A: Clone,
    ensures reply { IfOk result (λ reply. ClonesAreEqual T.is_clone
        → reply_value reply ≡ line_is (line_at axis at grid.now.rows)) }
    ensures err_memory { OnErr result
        (at < line_count axis (row_count grid.now.rows) (col_count grid.now.rows)) }
{
    let (count, _) = measure(grid, axis);
    if at >= count {
        return Ok(Reply::Line(None));
    }
    let alloc = grid.allocator().clone()?;
    let line = match axis {
        Axis::Row => grid.iter_row(at),
        Axis::Col => grid.iter_col(at),
    };
    let cells = clones_of_line(alloc, line)?;
    Ok(Reply::Line(Some(cells)))
}

// A line that is put before one.
fn put_line<T, A: Allocator>(
    grid: &Grid<T, A>,
    axis: Axis,
    at: usize,
    line: Vec<T, A>,
) -> Asked<T, A>
where
    T: Clone + Default + Drop,
    ensures { IsAsked T.is_default T.is_clone
        (lines axis (insert_at at line.items)) (board_of grid.now) result }
{
    let (count, width) = measure(grid, axis);
    match line_refusal(count, width, at, &line) {
        Some(refusal) => Asked::Answer(Reply::Refused(refusal)),
        None => {
            let len = line.len();
            Asked::Making(
                Change::Put(axis, at, Grid::from_vec(line, len)),
                Reply::Done,
            )
        }
    }
}

// Lines that are put before one.
fn put_several<T, A: Allocator>(
    grid: &Grid<T, A>,
    axis: Axis,
    at: usize,
    several: Vec<Vec<T, A>, A>,
) -> Result<Asked<T, A>, AllocError>
where
    T: Clone + Default + Drop,
    A: Clone,
    ensures asked { IfOk result (IsAsked T.is_default T.is_clone
        (lines axis (insert_all at (items_of_each several.items))) (board_of grid.now)) }
    ensures err_memory { OnErr result (IsTrue (wants_memory
        (lines axis (insert_all at (items_of_each several.items))) grid.now.rows)) }
{
    let (count, width) = measure(grid, axis);
    if let Some(refusal) = lines_refusal(count, width, at, several.as_slice()) {
        return Ok(Asked::Answer(Reply::Refused(refusal)));
    }
    if several.len() == 0 {
        return Ok(Asked::Answer(Reply::Done));
    }
    match Grid::try_from(several) {
        Ok(lines) => Ok(Asked::Making(Change::Put(axis, at, lines), Reply::Done)),
        Err(_) => Err(AllocError),
    }
}

// Lines of defaults, at the end or at the beginning.
fn put_defaults<T, A: Allocator>(
    grid: &Grid<T, A>,
    axis: Axis,
    at_end: bool,
    more: usize,
) -> Result<Asked<T, A>, AllocError>
where
    T: Clone + Default + Drop,
    A: Clone,
    ensures asked { IfOk result (IsAsked T.is_default T.is_clone
        (lines axis (pad_edit at_end more)) (board_of grid.now)) }
    ensures err_memory { OnErr result (IsTrue (wants_memory
        (lines axis (pad_edit at_end more)) grid.now.rows)) }
{
    let (count, width) = measure(grid, axis);
    if let Some(refusal) = pad_refusal(count, width, more) {
        return Ok(Asked::Answer(Reply::Refused(refusal)));
    }
    if count == 0 || more == 0 {
        return Ok(Asked::Answer(Reply::Done));
    }
    let at = if at_end { count } else { 0 };
    let alloc = grid.allocator().clone()?;
    match Grid::new(alloc, more, width) {
        Ok(lines) => Ok(Asked::Making(Change::Put(axis, at, lines), Reply::Done)),
        Err(_) => Err(AllocError),
    }
}

// A line that is taken out; a clone of it is the reply.
fn take_line<T, A: Allocator>(
    grid: &Grid<T, A>,
    axis: Axis,
    at: usize,
) -> Result<Asked<T, A>, AllocError>
where
    T: Clone + Default + Drop,
    A: Clone,
    ensures asked { IfOk result (IsAsked T.is_default T.is_clone
        (lines axis (remove_at at)) (board_of grid.now)) }
    ensures err_memory { OnErr result (IsTrue (wants_memory
        (lines axis (remove_at at)) grid.now.rows)) }
{
    let reply = read_line(grid, axis, at)?;
    if at < measure(grid, axis).0 {
        Ok(Asked::Making(Change::Take(axis, at, 1), reply))
    } else {
        Ok(Asked::Answer(reply))
    }
}

// Lines that are dropped, from one on; the reply is whether they are there.
fn drop_lines<T, A: Allocator>(
    grid: &Grid<T, A>,
    axis: Axis,
    start: usize,
    several: usize,
) -> Asked<T, A>
where
    T: Clone + Default,
    ensures { IsAsked T.is_default T.is_clone
        (lines axis (delete_range start several)) (board_of grid.now) result }
{
    let (count, _) = measure(grid, axis);
    let found = has_lines(count, start, several);
    if !found || several == 0 {
        return Asked::Answer(Reply::Flag(found));
    }
    Asked::Making(Change::Take(axis, start, several), Reply::Flag(true))
}

// What an edit of lines comes to.
fn asked_of_lines<T, A: Allocator>(
    grid: &Grid<T, A>,
    axis: Axis,
    edit: LineEdit<T, A>,
) -> Result<Asked<T, A>, AllocError>
where
    T: Clone + Default + Drop,
    A: Clone,
    ensures asked { IfOk result (IsAsked T.is_default T.is_clone
        (lines axis (edit_value edit)) (board_of grid.now)) }
    ensures err_memory { OnErr result (IsTrue (wants_memory
        (lines axis (edit_value edit)) grid.now.rows)) }
{
    let (count, _) = measure(grid, axis);
    match edit {
        LineEdit::Read(at) => Ok(Asked::Answer(read_line(grid, axis, at)?)),
        LineEdit::Push(line) => Ok(put_line(grid, axis, count, line)),
        LineEdit::Insert(at, line) => Ok(put_line(grid, axis, at, line)),
        LineEdit::InsertAll(at, several) => put_several(grid, axis, at, several),
        LineEdit::Pop => take_line(grid, axis, count.saturating_sub(1)),
        LineEdit::Remove(at) => take_line(grid, axis, at),
        LineEdit::Delete(at) => Ok(drop_lines(grid, axis, at, 1)),
        LineEdit::DeleteRange(start, several) => Ok(drop_lines(grid, axis, start, several)),
        LineEdit::Expand(more) => put_defaults(grid, axis, true, more),
        LineEdit::Prepend(more) => put_defaults(grid, axis, false, more),
    }
}

// A board of the same size and order, every cell of which is the value.
fn filled_like<T, A: Allocator>(grid: &Grid<T, A>, value: T) -> Result<Grid<T, A>, AllocError>
where
    T: Clone + Default + Drop,
    A: Clone,
    ensures rows { IfOk result (λ g. ClonesAreEqual T.is_clone
        → g.rows ≡ filled value grid.now.rows) }
    ensures order { IfOk result (λ g. g.order ≡ grid.now.order) }
{
    let (rows, cols) = grid.size();
    let alloc = grid.allocator().clone()?;
    let Ok(mut filled) = Grid::new_with_order(alloc, rows, cols, grid.order()) else {
        return Err(AllocError);
    };
    match filled.step(Command::Fill(value), &mut Tally::new()) {
        Ok(_) => Ok(filled),
        Err(_) => Err(AllocError),
    }
}

// What a command comes to.
pub(crate) fn asked_of<T, A: Allocator>(
    grid: &Grid<T, A>,
    command: Command<T, A>,
) -> Result<Asked<T, A>, AllocError>
where
    T: Clone + Default + Drop,
    A: Clone,
    ensures asked { IfOk result (IsAsked T.is_default T.is_clone
        (command_value command) (board_of grid.now)) }
    ensures err_memory { OnErr result (IsTrue (wants_memory
        (command_value command) grid.now.rows)) }
{
    match request_of(command) {
        Request::Size => {
            let (rows, cols) = grid.size();
            Ok(Asked::Answer(Reply::Size(rows, cols)))
        }
        Request::Get(row, col) => match grid.get(row, col) {
            Some(cell) => {
                let copy = cell.clone()?;
                Ok(Asked::Answer(Reply::Cell(Some(copy))))
            }
            None => Ok(Asked::Answer(Reply::Cell(None))),
        },
        Request::Set(row, col, value) => {
            if grid.contains((row, col)) {
                Ok(Asked::Making(Change::Write(row, col, value), Reply::Done))
            } else {
                Ok(Asked::Answer(Reply::Refused(Refusal::Index)))
            }
        }
        Request::Swap(a, b) => {
            if grid.contains(a) && grid.contains(b) {
                Ok(Asked::Making(Change::Exchange(a, b), Reply::Done))
            } else {
                Ok(Asked::Answer(Reply::Refused(Refusal::Index)))
            }
        }
        Request::Lines(axis, edit) => asked_of_lines(grid, axis, edit),
        Request::Fill(value) => {
            let filled = filled_like(grid, value)?;
            Ok(Asked::Making(Change::Replace(filled), Reply::Done))
        }
        Request::Clear => {
            let alloc = grid.allocator().clone()?;
            let empty = Grid::from_vec_with_order(Vec::new(alloc), 0, grid.order());
            Ok(Asked::Making(Change::Replace(empty), Reply::Done))
        }
        Request::Apply(symmetry) => Ok(Asked::Making(Change::Turn(symmetry), Reply::Done)),
    }
}
