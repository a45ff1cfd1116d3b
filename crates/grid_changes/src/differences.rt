//! The cells in which one board differs from another.
ghost use Rattle.std.specs.Prelude.{◌≡◌, ◌<◌, ◌≤◌, length, map, IfOk};
ghost use Rattle.std.specs.Iterator.{YieldsFirstBy, item_count};
ghost use Rattle.grid.specs.Prelude.{row, row_count, col_count, cell, GivesCells, ClonesAreEqual, command_value, run_rows};
ghost use Rattle.grid_changes.specs.Differences.{is_cell, changed_cells, writes, SameAreEqual, WritesClone, IsNextChange};
ghost use Rattle.std.specs.List.{AllZip};

use grid::{AsView, Command, GridView};
use std::alloc::{AllocError, Allocator};
use std::marker::Model;

/// An iterator over the cells of a board that another board doesn't have at their positions, row by row, each with its
/// row and its column. It is seen as the list of those that remain.
#[derive(Drop)]
pub struct ChangeIter<'a, T: PartialEq> {
    old: GridView<'a, T>,
    new: GridView<'a, T>,
    // The row and the column from which on cells are still to be compared.
    row: usize,
    col: usize,
}

impl<'a, T: PartialEq> Model for ChangeIter<'a, T> {
    ghost use Rattle.std.specs.Prelude.{ℕ, List, ◌≤◌};
    ghost use Rattle.grid.specs.Prelude.{col_count};
    ghost use Rattle.grid_changes.specs.Differences.{cells_left};

    ghost Value = { List ((ℕ × ℕ) × T) };

    ghost view = { λ a. cells_left T.eq a.old.rows a.new.rows a.row a.col };

    ghost invariant = { λ a. a.col ≤ col_count a.new.rows };
}

/// Returns an iterator over the cells of `new` that differ from the cells of `old` at their positions, row by row.
///
///     changes([[1, 2], [3, 4]], [[1, 7], [3, 4]])   ((0, 1), 7)
///     changes([[1]], [[1, 2]])                      ((0, 1), 2)
///
/// Where `old` has no cell at a position, the cell of `new` is a change. What only `old` has isn't listed.
///
/// Cost: constant; no memory. The iterator compares each cell of `new` once.
pub fn changes<'a, T, V, W>(old: &'a V, new: &'a W) -> ChangeIter<'a, T>
where
    T: PartialEq,
    V: AsView<T>,
    W: AsView<T>,
    ensures cells { result ≡ changed_cells T.eq (V.rows old.now) (W.rows new.now) }
    ensures gives { GivesCells (W.rows new.now) result }
{
    ChangeIter {
        old: old.as_view(),
        new: new.as_view(),
        row: 0,
        col: 0,
    }
}

// Whether a view has a cell at a position, and it is the same as this one.
fn has_cell<T: PartialEq>(view: &GridView<'_, T>, at: (usize, usize), value: &T) -> bool
    ensures { result ≡ is_cell T.eq (cell view.now.rows at.0 at.1) value.now }
{
    match view.get(at.0, at.1) {
        Some(there) => there == value,
        None => false,
    }
}

// The first column, from one on, in which a row has a cell that an old row doesn't have there; the end of the row where
// there is none.
fn next_in_slices<T: PartialEq>(old: &[T], new: &[T], from: usize) -> usize
    requires { from ≤ length new.now }
    ensures { IsNextChange T.eq old.now new.now from result }
{
    let both = old.len().min(new.len());
    for col in from..both {
        if old[col] != new[col] {
            return col;
        }
    }
    from.max(both)
}

// The same of row `r` of two views, cell by cell.
fn next_in_cells<T: PartialEq>(
    old: &GridView<'_, T>,
    new: &GridView<'_, T>,
    r: usize,
    from: usize,
) -> usize
    requires row_in { r < row_count new.now.rows }
    requires col_in { from ≤ col_count new.now.rows }
    ensures { IsNextChange T.eq (row old.now.rows r) (row new.now.rows r) from result }
{
    let cols = new.cols();
    for col in from..cols {
        if !has_cell(old, (r, col), new.get_unchecked(r, col)) {
            return col;
        }
    }
    cols
}

// The same, by slices where the cells of both rows are side by side.
fn next_change<T: PartialEq>(
    old: &GridView<'_, T>,
    new: &GridView<'_, T>,
    r: usize,
    from: usize,
) -> usize
    requires row_in { r < row_count new.now.rows }
    requires col_in { from ≤ col_count new.now.rows }
    ensures { IsNextChange T.eq (row old.now.rows r) (row new.now.rows r) from result }
{
    if r < old.rows() {
        if let Some(olds) = old.row_slice(r) {
            if let Some(news) = new.row_slice(r) {
                return next_in_slices(olds, news, from);
            }
        }
    }
    next_in_cells(old, new, r, from)
}

impl<'a, T: PartialEq> Iterator for ChangeIter<'a, T> {
    type Item = ((usize, usize), &'a T);

    ghost next_gives = { YieldsFirstBy (λ item. (item.0, item.1.now)) (λ rest. rest) };

    ghost remaining = { item_count (λ rest. rest) };

    fn next(&mut self) -> Option<((usize, usize), &'a T)> {
        while self.row < self.new.rows() {
            let col = next_change(&self.old, &self.new, self.row, self.col);
            if col < self.new.cols() {
                self.col = col + 1;
                return Some(((self.row, col), self.new.get_unchecked(self.row, col)));
            }
            self.row += 1;
            self.col = 0;
        }
        None
    }
}

/// Returns the commands that write the cells of `new` that differ from those of `old` at their positions: a `Set` for
/// each of [`changes`], row by row.
///
///     change_commands([[1, 2], [3, 4]], [[1, 7], [3, 4]])   [Set(0, 1, 7)]
///
/// Where both have one size, running them on the one makes it the other.
///
/// Fails: if allocation fails, for the list or in a clone.
/// Cost: one comparison for each cell of `new`, one clone for each command.
pub fn change_commands<T, A: Allocator, V, W>(
    alloc: A,
    old: &V,
    new: &W,
) -> Result<Vec<Command<T, A>, A>, AllocError>
where
    T: PartialEq + Clone + Drop,
    V: AsView<T>,
    W: AsView<T>,
    ensures clones { IfOk result (λ commands. AllZip (WritesClone T.is_clone)
        (changed_cells T.eq (V.rows old.now) (W.rows new.now)) commands.items) }
    ensures commands { IfOk result (λ commands. ClonesAreEqual T.is_clone → map command_value
        commands.items ≡ writes (changed_cells T.eq (V.rows old.now) (W.rows new.now))) }
    ensures runs { IfOk result (λ commands. (d : T) → ClonesAreEqual T.is_clone
        → SameAreEqual T.eq → row_count (V.rows old.now) ≡ row_count (W.rows new.now)
        → col_count (V.rows old.now) ≡ col_count (W.rows new.now)
        → run_rows d (map command_value commands.items) (V.rows old.now) ≡ W.rows new.now) }
{
    sets_of(alloc, changes(old, new))
}

// A `Set` for each cell that an iterator gives.
fn sets_of<T, A: Allocator>(
    alloc: A,
    cells: ChangeIter<'_, T>,
) -> Result<Vec<Command<T, A>, A>, AllocError>
where
    T: PartialEq + Clone + Drop,
    ensures clones { IfOk result (λ commands.
        AllZip (WritesClone T.is_clone) cells.entry commands.items) }
    ensures commands { IfOk result (λ commands. ClonesAreEqual T.is_clone
        → map command_value commands.items ≡ writes cells.entry) }
{
    let mut commands = Vec::new(alloc);
    for (at, cell) in cells {
        let copy = cell.clone()?;
        commands.push(Command::Set(at.0, at.1, copy))?;
    }
    Ok(commands)
}
