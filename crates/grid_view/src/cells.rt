//! An iterator over all cells of a view, row by row.
ghost use Rattle.std.specs.Prelude.{◌≡◌, ◌+◌, ◌*◌, ◌^◌, ◌<◌, ⊤, length, IfSome, Some};
ghost use Rattle.grid_base.specs.Prelude.{concat_rows, IsSize, StandsAt, GivesLine, GivesIndexed};
ghost use Rattle.std.specs.Iterator.{YieldsFirstRef, YieldsLastRef, YieldsFirstBy, YieldsLastBy, item_count, UpTo, at_most};
ghost use Rattle.std.specs.Iterator.{ActsAsOnTwo, CallableInFold, FoldsItems};
ghost use Rattle.std.specs.Iterator.Runs.{WholeRun};
ghost use Rattle.std.specs.Iterator.SizeHint.{IsWithinCount};
ghost use Rattle.std.specs.List.{fold};
ghost use denote.Ref.{Bor};
ghost use Rattle.grid_base.specs.declared.order.Order.TheVariants.{RowMajor};

use crate::fold::fold_line;
use crate::lines::ViewRowIter;
use crate::view::GridView;
use grid_base::SteppedIter;
use std::alloc::AllocError;
use std::iter::FusedIterator;
use std::marker::Model;

impl<'a, T> GridView<'a, T> {
    /// Returns an iterator over the cells, row by row, from both ends.
    ///
    ///     [[1, 2], [3, 4]]   iter()   1, 2, 3, 4
    pub fn iter(&self) -> ViewIter<'a, T>
        ensures gives { GivesLine (concat_rows self.now.rows) result }
    {
        ViewIter {
            line: SteppedIter::none(self.cells),
            rows: self.iter_rows(),
            last: SteppedIter::none(self.cells),
            width: self.cols.count,
        }
    }

    /// Returns an iterator over the cells, row by row, each with its row and its column, from both ends.
    ///
    ///     [[1, 2], [3, 4]]   indexed_iter()   ((0, 0), 1), ((0, 1), 2), ((1, 0), 3), ((1, 1), 4)
    pub fn indexed_iter(&self) -> ViewIndexedIter<'a, T>
        ensures gives { GivesIndexed RowMajor self.now.rows result }
    {
        let (rows, cols) = self.size();
        ViewIndexedIter {
            cells: self.iter(),
            rows,
            cols,
            row: 0,
            col: 0,
        }
    }
}

/// An iterator over all cells of a view, row by row, from both ends, seen as the list of those that remain.
#[derive(Drop)]
pub struct ViewIter<'a, T> {
    // What is left of the row that is begun, the rows that aren't, and what is left of the row begun from its end.
    line: SteppedIter<'a, T>,
    rows: ViewRowIter<'a, T>,
    last: SteppedIter<'a, T>,
    width: usize,
}

impl<'a, T> Model for ViewIter<'a, T> {
    ghost use Rattle.std.specs.Prelude.{List, ◌++◌};
    ghost use Rattle.grid_base.specs.Table.{concat_rows};
    ghost use Rattle.grid_view.specs.Cells.{AreCellsLeft};

    ghost Value = { List T };

    ghost view = { λ a. a.line ++ (concat_rows a.rows ++ a.last) };

    ghost invariant = { λ a. AreCellsLeft a.width a.line a.rows a.last };
}

impl<'a, T> ViewIter<'a, T> {
    /// Returns what a closure comes to from `init` on, called with the value so far and each remaining cell, row by
    /// row.
    ///
    ///     [[1, 2], [3, 4]]   iter(), then fold(0, |sum, x| sum + *x)   10
    ///
    /// It is called in place of `Iterator::fold`, with the same contract. A row whose cells are contiguous is read as a
    /// slice.
    ///
    /// Requires: the closure can be called at each remaining cell, and the value that it comes to over those before it.
    /// Cost: one call for each remaining cell; no memory.
    pub fn fold<B, F: FnMut(B, &'a T) -> B>(self, init: B, f: F) -> B
        requires callable { CallableInFold (YieldsFirstRef (λ rest. rest)) F.FnMut self f init }
        ensures ran { FoldsItems (YieldsFirstRef (λ rest. rest)) F.FnMut self.entry f init result }
        ensures runs { WholeRun (YieldsFirstRef (λ rest. rest)) self.entry (λ run.
            (h : B → Bor T → B) → ActsAsOnTwo F.FnMut f h → result ≡ fold h init run.items) }
    {
        let ViewIter {
            line,
            rows,
            last,
            ..
        } = self;
        let (f, folded) = fold_line(line, init, f);
        let (f, folded) = rows.fold_cells(folded, f);
        fold_line(last, folded, f).1
    }
}

impl<'a, T> Iterator for ViewIter<'a, T> {
    type Item = &'a T;

    ghost next_gives = { YieldsFirstRef (λ rest. rest) };

    ghost remaining = { item_count (λ rest. rest) };

    fn next(&mut self) -> Option<&'a T> {
        match self.line.next() {
            Some(cell) => Some(cell),
            None => match self.rows.next_stepped() {
                Some(line) => {
                    self.line = line;
                    self.line.next()
                }
                None => self.last.next(),
            },
        }
    }

    fn size_hint(&self) -> (usize, Option<usize>)
        ensures lower { IsWithinCount result.0 (at_most (length self.now)) }
        ensures upper { IfSome result.1 (UpTo (at_most (length self.now))) }
        ensures exact { result ≡ (length self.now, Some (length self.now)) }
    {
        let len = self.len();
        (len, Some(len))
    }
}

impl<'a, T> DoubleEndedIterator for ViewIter<'a, T> {
    ghost next_back_gives = { YieldsLastRef (λ rest. rest) };

    fn next_back(&mut self) -> Option<&'a T> {
        match self.last.next_back() {
            Some(cell) => Some(cell),
            None => match self.rows.next_back_stepped() {
                Some(line) => {
                    self.last = line;
                    self.last.next_back()
                }
                None => self.line.next_back(),
            },
        }
    }
}

impl<'a, T> ExactSizeIterator for ViewIter<'a, T> {
    fn len(&self) -> usize {
        self.line.len() + self.rows.len() * self.width + self.last.len()
    }
}

impl<'a, T> FusedIterator for ViewIter<'a, T> {}

/// Returns an iterator over the same remaining cells.
///
/// Cost: constant; it is always `Ok`, and takes no memory.
impl<'a, T> Clone for ViewIter<'a, T> {
    ghost is_clone = { λ it copy. copy ≡ it };

    ghost is_infallible = { λ _. ⊤ };

    fn clone(&self) -> Result<Self, AllocError> {
        let line = self.line.clone()?;
        let rows = self.rows.clone()?;
        let last = self.last.clone()?;
        Ok(ViewIter {
            line,
            rows,
            last,
            width: self.width,
        })
    }
}

/// An iterator over all cells of a view, row by row, each with its row and its column, from both ends. A step from the
/// back takes a division.
#[derive(Drop)]
pub struct ViewIndexedIter<'a, T> {
    cells: ViewIter<'a, T>,
    rows: usize,
    cols: usize,
    // The row and the column of the next cell.
    row: usize,
    col: usize,
}

impl<'a, T> Model for ViewIndexedIter<'a, T> {
    ghost use Rattle.std.specs.Prelude.{ℕ, List, length, zip};
    ghost use Rattle.grid_view.specs.Cells.{ArePlaced, positions_from};

    ghost Value = { List ((ℕ × ℕ) × T) };

    ghost view = { λ a. zip (positions_from a.rows a.cols a.row a.col) a.cells };

    ghost invariant = { λ a. ArePlaced a.rows a.cols a.row a.col (length a.cells) };
}

// Returns the row and the column of the cell that comes after cell (row, col), row by row.
fn place_after(rows: usize, cols: usize, row: usize, col: usize) -> (usize, usize)
    requires fits { rows * cols < 2 ^ 64 }
    requires size { IsSize rows cols }
    requires row_in { row < rows }
    requires col_in { col < cols }
    ensures stands { StandsAt RowMajor rows cols result.0 result.1 }
    ensures after { result.0 * cols + result.1 ≡ row * cols + col + 1 }
{
    if col + 1 < cols {
        (row, col + 1)
    } else {
        (row + 1, 0)
    }
}

#[tactic(auto, using(grid_base::proofs::PlacedCellLemmas::placed_cells))]
impl<'a, T> Iterator for ViewIndexedIter<'a, T> {
    type Item = ((usize, usize), &'a T);

    ghost next_gives = { YieldsFirstBy (λ item. (item.0, item.1.now)) (λ rest. rest) };

    ghost remaining = { item_count (λ rest. rest) };

    fn next(&mut self) -> Option<((usize, usize), &'a T)> {
        let cell = self.cells.next()?;
        let at = (self.row, self.col);
        let (row, col) = place_after(self.rows, self.cols, at.0, at.1);
        self.row = row;
        self.col = col;
        Some((at, cell))
    }

    fn size_hint(&self) -> (usize, Option<usize>)
        ensures lower { IsWithinCount result.0 (at_most (length self.now)) }
        ensures upper { IfSome result.1 (UpTo (at_most (length self.now))) }
        ensures exact { result ≡ (length self.now, Some (length self.now)) }
    {
        let left = self.len();
        (left, Some(left))
    }
}

#[tactic(auto, using(grid_base::proofs::PlacedCellLemmas::placed_cells))]
impl<'a, T> DoubleEndedIterator for ViewIndexedIter<'a, T> {
    ghost next_back_gives = { YieldsLastBy (λ item. (item.0, item.1.now)) (λ rest. rest) };

    fn next_back(&mut self) -> Option<((usize, usize), &'a T)> {
        let cell = self.cells.next_back()?;
        let number = self.row * self.cols + self.col + self.cells.len();
        Some(((number / self.cols, number % self.cols), cell))
    }
}

impl<'a, T> ExactSizeIterator for ViewIndexedIter<'a, T> {
    fn len(&self) -> usize {
        self.cells.len()
    }
}

impl<'a, T> FusedIterator for ViewIndexedIter<'a, T> {}

/// Returns an iterator over the same remaining cells.
///
/// Cost: constant; it is always `Ok`, and takes no memory.
impl<'a, T> Clone for ViewIndexedIter<'a, T> {
    ghost is_clone = { λ it copy. copy ≡ it };

    ghost is_infallible = { λ _. ⊤ };

    fn clone(&self) -> Result<Self, AllocError> {
        let cells = self.cells.clone()?;
        Ok(ViewIndexedIter {
            cells,
            rows: self.rows,
            cols: self.cols,
            row: self.row,
            col: self.col,
        })
    }
}
