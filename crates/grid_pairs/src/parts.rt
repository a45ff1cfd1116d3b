//! Iterators over the tiles of a board, and over its windows.
ghost use Rattle.std.specs.Prelude.{◌≡◌, ◌+◌, ◌-◌, ◌*◌, ◌^◌, ◌<◌, ◌≤◌, ⊤, IsTrue, min, List, length, drop, slice_get, IfSome, MatchOption, Some};
ghost use Rattle.std.specs.Iterator.{YieldsFirstBy, YieldsLastBy, item_count, UpTo, at_most};
ghost use Rattle.std.specs.Iterator.SizeHint.{IsWithinCount};
ghost use Rattle.grid_pairs.specs.Prelude.{row_count, col_count, tiles, windows, GivesParts, GivesSize, GivesUpTo};
ghost use Rattle.grid_pairs.specs.Parts.{part_of};

use grid_view::{AsView, GridView};
use std::alloc::AllocError;
use std::iter::FusedIterator;
use std::marker::Model;

/// What lends a view for as long as its cells are lent: a reference to what lends itself as a view, or a view by value.
/// So the parts of a view that is made on the spot may be kept: `tiles(board.part(at, size), 2, 2)`.
pub trait IntoView<'a, T> {
    // The rows that are lent.
    ghost rows: { Self → List (List T) };

    /// Returns the view.
    ///
    /// Cost: constant; no cell is copied, and no memory is taken.
    fn into_view(self) -> GridView<'a, T>
        ensures { result.rows ≡ rows self };
}

/// A reference lends the rows of what it refers to.
impl<'a, T, V: AsView<T>> IntoView<'a, T> for &'a V {
    ghost rows = { λ board. V.rows board.now };

    fn into_view(self) -> GridView<'a, T> {
        self.as_view()
    }
}

/// A view lends the rows that it shows.
impl<'a, T> IntoView<'a, T> for GridView<'a, T> {
    ghost rows = { λ view. view.rows };

    fn into_view(self) -> GridView<'a, T> {
        self
    }
}

/// Returns an iterator over the tiles of this size, row by row, from both ends, each as a view: the parts into which
/// the board is cut from its first corner on. Those at its end are smaller where the size doesn't divide that of the
/// board.
///
///     [[1, 2, 3], [4, 5, 6]]   tiles(board, 2, 2)   [[1, 2], [4, 5]]; then [[3], [6]]
///
/// Requires: `rows` and `cols` aren't 0.
/// Cost: each step takes the same time; no cell is copied, and no memory is taken.
pub fn tiles<'a, T, V: IntoView<'a, T>>(board: V, rows: usize, cols: usize) -> PartIter<'a, T>
    requires tall { 0 < rows }
    requires wide { 0 < cols }
    ensures gives { GivesParts (tiles (V.rows board) rows cols) result }
    ensures sizes { GivesUpTo rows cols result }
{
    let board = board.into_view();
    let (row_count, col_count) = board.size();
    let count = (row_count.div_ceil(rows), col_count.div_ceil(cols));
    PartIter {
        board,
        step: (rows, cols),
        size: (rows, cols),
        whole: false,
        count,
        row: 0,
        col: 0,
        left: count.0 * count.1,
    }
}

/// Returns an iterator over the windows of this size, row by row, from both ends, each as a view: every part of the
/// board that has this size.
///
///     [[1, 2, 3], [4, 5, 6]]   windows(board, 2, 2)   [[1, 2], [4, 5]]; then [[2, 3], [5, 6]]
///
/// Requires: `rows` and `cols` aren't 0.
/// Cost: each step takes the same time; no cell is copied, and no memory is taken.
pub fn windows<'a, T, V: IntoView<'a, T>>(board: V, rows: usize, cols: usize) -> PartIter<'a, T>
    requires tall { 0 < rows }
    requires wide { 0 < cols }
    ensures gives { GivesParts (windows (V.rows board) rows cols) result }
    ensures sizes { GivesSize rows cols result }
{
    let board = board.into_view();
    let (row_count, col_count) = board.size();
    let count = (starts(row_count, rows), starts(col_count, cols));
    PartIter {
        board,
        step: (1, 1),
        size: (rows, cols),
        whole: true,
        count,
        row: 0,
        col: 0,
        left: count.0 * count.1,
    }
}

// Returns at how many places of a line of `len` cells a stretch of `size` cells begins.
fn starts(len: usize, size: usize) -> usize
    requires { 0 < size }
    ensures { result ≡ len + 1 - size }
{
    if size <= len { len - size + 1 } else { 0 }
}

/// An iterator over parts of a board, row by row, from both ends, seen as the list of the rows of each that remains. A
/// step from the back takes a division.
#[derive(Drop)]
pub struct PartIter<'a, T> {
    board: GridView<'a, T>,
    // How far the first corners are apart, and the size of a part that isn't at the end.
    step: (usize, usize),
    size: (usize, usize),
    // Whether each part has that size. Where this and the size are known, a loop over the cells of a part is unrolled.
    whole: bool,
    // How many parts come below one another, and side by side.
    count: (usize, usize),
    // Which of them comes next, and how many are left.
    row: usize,
    col: usize,
    left: usize,
}

impl<'a, T> Model for PartIter<'a, T> {
    ghost use Rattle.std.specs.Prelude.{List};
    ghost use Rattle.grid_pairs.specs.Parts.{parts_from, ArePartsLeft};

    ghost Value = { List (List (List T)) };

    ghost view = { λ a. parts_from a.board.rows a.step a.size a.count a.row a.col a.left };

    ghost invariant = { λ a. ArePartsLeft a.board.rows a.step a.size a.whole a.count
        a.row a.col a.left };
}

// Returns the size of a part from a position on: this one, or as much of it as there is.
fn size_from<T>(
    board: &GridView<'_, T>,
    at: (usize, usize),
    size: (usize, usize),
    whole: bool,
) -> (usize, usize)
    requires row_in { at.0 < row_count board.now.rows }
    requires col_in { at.1 < col_count board.now.rows }
    requires fits { IsTrue whole → (at.0 + size.0 ≤ row_count board.now.rows)
        × (at.1 + size.1 ≤ col_count board.now.rows) }
    ensures { result ≡ (
      min size.0 (row_count board.now.rows - at.0),
      min size.1 (col_count board.now.rows - at.1),
    ) }
{
    if whole {
        return size;
    }
    let (rows, cols) = board.size();
    (size.0.min(rows - at.0), size.1.min(cols - at.1))
}

// Returns the part from a position on, of this size or as much of it as there is.
fn part_from<'a, T>(
    board: &GridView<'a, T>,
    at: (usize, usize),
    size: (usize, usize),
    whole: bool,
) -> GridView<'a, T>
    requires tall { 0 < size.0 }
    requires wide { 0 < size.1 }
    requires row_in { at.0 < row_count board.now.rows }
    requires col_in { at.1 < col_count board.now.rows }
    requires fits { IsTrue whole → (at.0 + size.0 ≤ row_count board.now.rows)
        × (at.1 + size.1 ≤ col_count board.now.rows) }
    ensures { result.rows ≡ part_of board.now.rows at size }
{
    board.part(at, size_from(board, at, size, whole))
}

impl<'a, T> PartIter<'a, T> {
    /// Skips `n` parts and returns the next, or `None` if fewer remain.
    ///
    ///     [[1, 2, 3], [4, 5, 6]]   tiles(board, 1, 2), then nth(1)   [[3]]; and [[4, 5]], [[6]] remain
    ///
    /// Cost: the same time at every `n`.
    pub fn nth(&mut self, n: usize) -> Option<GridView<'a, T>>
        ensures item { MatchOption result (length self.old ≤ n)
            (λ part. slice_get self.old n ≡ Some part.rows) }
        ensures rest { self.new ≡ drop (n + 1) self.old }
    {
        self.skip(n);
        self.next()
    }

    // Skips `n` parts, or all where fewer remain.
    fn skip(&mut self, n: usize)
        ensures { self.new ≡ drop n self.old }
    {
        if self.left <= n {
            self.left = 0;
            return;
        }
        let number = self.row * self.count.1 + self.col + n;
        self.row = number / self.count.1;
        self.col = number % self.count.1;
        self.left -= n;
    }
}

// Returns the row and the column of the part that comes after one, where there are `cols` side by side.
fn place_after(cols: usize, row: usize, col: usize) -> (usize, usize)
    requires col_in { col < cols }
    requires fits { row * cols + col + 1 < 2 ^ 64 }
    ensures col_in { result.1 < cols }
    ensures after { result.0 * cols + result.1 ≡ row * cols + col + 1 }
{
    if col + 1 < cols {
        (row, col + 1)
    } else {
        (row + 1, 0)
    }
}

impl<'a, T> Iterator for PartIter<'a, T> {
    type Item = GridView<'a, T>;

    ghost next_gives = { YieldsFirstBy (λ part. part.rows) (λ rest. rest) };

    ghost remaining = { item_count (λ rest. rest) };

    fn next(&mut self) -> Option<GridView<'a, T>> {
        if self.left == 0 {
            return None;
        }
        let at = (self.row * self.step.0, self.col * self.step.1);
        let part = part_from(&self.board, at, self.size, self.whole);
        let (row, col) = place_after(self.count.1, self.row, self.col);
        self.row = row;
        self.col = col;
        self.left -= 1;
        Some(part)
    }

    fn size_hint(&self) -> (usize, Option<usize>)
        ensures lower { IsWithinCount result.0 (at_most (length self.now)) }
        ensures upper { IfSome result.1 (UpTo (at_most (length self.now))) }
        ensures exact { result ≡ (length self.now, Some (length self.now)) }
    {
        let left = self.len();
        (left, Some(left))
    }
}

impl<'a, T> DoubleEndedIterator for PartIter<'a, T> {
    ghost next_back_gives = { YieldsLastBy (λ part. part.rows) (λ rest. rest) };

    fn next_back(&mut self) -> Option<GridView<'a, T>> {
        if self.left == 0 {
            return None;
        }
        self.left -= 1;
        let number = self.row * self.count.1 + self.col + self.left;
        let at = (
            number / self.count.1 * self.step.0,
            number % self.count.1 * self.step.1,
        );
        Some(part_from(&self.board, at, self.size, self.whole))
    }
}

impl<'a, T> ExactSizeIterator for PartIter<'a, T> {
    fn len(&self) -> usize {
        self.left
    }
}

impl<'a, T> FusedIterator for PartIter<'a, T> {}

/// Returns an iterator over the same remaining parts.
///
/// Cost: constant; it is always `Ok`, and takes no memory.
impl<'a, T> Clone for PartIter<'a, T> {
    ghost is_clone = { λ it copy. copy ≡ it };

    ghost is_infallible = { λ _. ⊤ };

    fn clone(&self) -> Result<Self, AllocError> {
        Ok(PartIter {
            board: self.board.view(),
            step: self.step,
            size: self.size,
            whole: self.whole,
            count: self.count,
            row: self.row,
            col: self.col,
            left: self.left,
        })
    }
}
