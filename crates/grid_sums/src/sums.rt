//! A board of whole numbers, of which the sum of any part takes four reads.
ghost use Rattle.std.specs.Prelude.{◌≡◌, ◌+◌, ◌*◌, ◌^◌, ◌<◌, ◌≤◌, ◌⊎◌, IfOk, IfSome, MatchOption, vec_capacity, vec_len, length};
ghost use Rattle.grid_sums.specs.Prelude.{row_count, col_count, sub_table, table_sum, IsMean, AreNumbers, ReturnsFor, CallableAtCells};
ghost use Rattle.grid_sums.specs.Corners.{at, numbers_of, IsWithin, HoldsSums, RowsSummed};

use grid_base::has_lines;
use grid_view::{AsView, GridView};
use std::alloc::{AllocError, Allocator, Global};
use std::marker::Model;

// How many sums a vector can hold: one of at most `isize::MAX` bytes.
const MOST: usize = isize::MAX as usize / size_of::<i128>();

/// The sums of a board of whole numbers, from which that of any part comes in four reads. It is seen as the table of
/// the numbers.
#[derive(Drop)]
pub struct Sums<A: Allocator = Global> {
    rows: usize,
    cols: usize,
    // For each corner of a cell the sum of the numbers above it and to its left, row by row.
    corners: Vec<i128, A>,
}

impl<A: Allocator> Model for Sums<A> {
    ghost use Rattle.std.specs.Prelude.{ℤ, List};
    ghost use Rattle.grid_sums.specs.Corners.{numbers_of, HoldsSums};

    ghost Value = { List (List ℤ) };

    ghost view = { λ s. numbers_of s.rows s.cols s.corners.items };

    ghost invariant = { λ s. HoldsSums s.rows s.cols s.corners.items };
}

// Returns the sum above and to the left of a corner, of those of a board of this size.
fn corner(corners: &[i128], size: (usize, usize), row: usize, col: usize) -> i128
    requires holds { HoldsSums size.0 size.1 corners.now }
    requires row_in { row ≤ size.0 }
    requires col_in { col ≤ size.1 }
    ensures value { result ≡ at (size.1 + 1) corners.now row col }
    ensures within { IsWithin result (2 ^ 60) }
{
    corners[row * (size.1 + 1) + col]
}

// Returns the sum of the numbers of a part of a board of this size.
fn part_sum(
    corners: &[i128],
    board: (usize, usize),
    at: (usize, usize),
    size: (usize, usize),
) -> i128
    requires holds { HoldsSums board.0 board.1 corners.now }
    requires rows_in { at.0 + size.0 ≤ board.0 }
    requires cols_in { at.1 + size.1 ≤ board.1 }
    ensures value { result
        ≡ table_sum (sub_table (numbers_of board.0 board.1 corners.now) at size) }
    ensures within { IsWithin result (size.0 * size.1) }
{
    let (top, left) = at;
    let bottom = top + size.0;
    let right = left + size.1;
    let up_to_right = corner(corners, board, bottom, right) - corner(corners, board, top, right);
    let up_to_left = corner(corners, board, bottom, left) - corner(corners, board, top, left);
    up_to_right - up_to_left
}

// Returns how many corners a board of this size has, if a vector can hold their sums.
fn corner_count(rows: usize, cols: usize) -> Option<usize>
    ensures { IfSome result (λ n. (n ≡ (rows + 1) * (cols + 1)) × (n < 2 ^ 60)) }
{
    let count = rows.checked_add(1)?.checked_mul(cols.checked_add(1)?)?;
    if count <= MOST { Some(count) } else { None }
}

// Returns the sums at the corners of a board, row by row.
fn corner_sums<T, A: Allocator, F: Fn(&T) -> i64>(
    alloc: A,
    board: &GridView<'_, T>,
    f: &F,
) -> Result<Vec<i128, A>, AllocError>
    requires calls { CallableAtCells F.pre f.now board.now.rows }
    ensures sums { IfOk result (λ sums. RowsSummed F.post f.now (row_count board.now.rows)
        board.now.rows sums.items) }
    ensures below { IfOk result (λ sums. length sums.items < 2 ^ 60) }
{
    let (rows, cols) = board.size();
    let Some(count) = corner_count(rows, cols) else {
        return Err(AllocError);
    };
    let mut sums = Vec::with_capacity(alloc, count)?;
    for _ in 0..cols + 1 {
        sums.push_reserved(0);
    }
    for row in 0..rows {
        sums = push_row(sums, board, row, f);
    }
    Ok(sums)
}

// Appends the sums at the corners below a row.
fn push_row<T, A: Allocator, F: Fn(&T) -> i64>(
    mut sums: Vec<i128, A>,
    board: &GridView<'_, T>,
    row: usize,
    f: &F,
) -> Vec<i128, A>
    requires row_in { row < row_count board.now.rows }
    requires calls { CallableAtCells F.pre f.now board.now.rows }
    requires sums { RowsSummed F.post f.now row board.now.rows sums.items }
    requires room { vec_len sums + col_count board.now.rows + 1 ≤ vec_capacity sums }
    requires below { vec_len sums + col_count board.now.rows + 1 < 2 ^ 60 }
    ensures room { vec_capacity result ≡ vec_capacity sums }
    ensures sums { RowsSummed F.post f.now (row + 1) board.now.rows result.items }
{
    let cols = board.cols();
    let above = row * (cols + 1) + 1;
    sums.push_reserved(0);
    let mut sum = 0;
    for col in 0..cols {
        sum += i128::from(f(board.get_unchecked(row, col)));
        let sum_above = sums[above + col];
        sums.push_reserved(sum_above + sum);
    }
    sums
}

// Returns the sums of the numbers that a closure returns for the cells of a view.
fn sums_of<T, A: Allocator, F: Fn(&T) -> i64>(
    alloc: A,
    board: &GridView<'_, T>,
    f: &F,
) -> Result<Sums<A>, AllocError>
    requires calls { CallableAtCells F.pre f.now board.now.rows }
    ensures { IfOk result (λ sums. AreNumbers (ReturnsFor F.post f.now) board.now.rows sums) }
{
    let corners = corner_sums(alloc, board, f)?;
    let (rows, cols) = board.size();
    Ok(Sums {
        rows,
        cols,
        corners,
    })
}

// Returns the mean of `count` numbers with this sum, rounded down.
fn mean_of(sum: i128, count: usize) -> i64
    requires some { 0 < count }
    requires within { IsWithin sum count }
    requires below { count < 2 ^ 60 }
    ensures { IsMean sum count result }
{
    sum.div_euclid(count as i128) as i64
}

impl<A: Allocator> Sums<A> {
    /// Returns the sums of a board whose cells convert to `i64` without loss, as `u8`, `u32`, `i64` and `bool`.
    ///
    ///     of(alloc, [[1, 2, 3], [4, 5, 6]]), then sum((0, 1), (2, 2))   16
    ///
    /// Fails: if allocation fails.
    /// Cost: a few additions for each cell, and one allocation, of 16 bytes for each cell and for one more row and
    /// column.
    pub fn of<T: Copy + Into<i64>, V: AsView<T>>(alloc: A, board: &V) -> Result<Sums<A>, AllocError>
        ensures { IfOk result (λ sums. AreNumbers T.converts (V.rows board.now) sums) }
    {
        let sums = Sums::of_by(alloc, board, |cell| (*cell).into())?;
        Ok(sums)
    }

    /// Returns the sums of the numbers that the closure returns for a reference to each cell.
    ///
    ///     of_by(alloc, [["a", "b"], ["b", "b"]], |cell| i64::from(*cell == "b")), then total()   3
    ///
    /// Requires: the closure can be called at each cell.
    /// Fails: if allocation fails; the closure wasn't called.
    /// Cost: as [`of`](Sums::of), and one call for each cell, row by row.
    pub fn of_by<T, V: AsView<T>, F: Fn(&T) -> i64>(
        alloc: A,
        board: &V,
        f: F,
    ) -> Result<Sums<A>, AllocError>
        requires calls { CallableAtCells F.pre f (V.rows board.now) }
        ensures { IfOk result (λ sums.
            AreNumbers (ReturnsFor F.post f) (V.rows board.now) sums) }
    {
        sums_of(alloc, &board.as_view(), &f)
    }

    /// Returns the number of rows and the number of columns of the board.
    pub fn size(&self) -> (usize, usize)
        ensures rows { result.0 ≡ row_count self.now }
        ensures cols { result.1 ≡ col_count self.now }
    {
        (self.rows, self.cols)
    }

    /// Returns the sum of the numbers of the `size.0` rows and `size.1` columns from position `at` on.
    ///
    ///     of [[1, 2, 3], [4, 5, 6]]   sum((0, 1), (2, 2))   16
    ///
    /// Requires: the part is within the board.
    /// Cost: four reads.
    pub fn sum(&self, at: (usize, usize), size: (usize, usize)) -> i128
        requires rows_in { at.0 + size.0 ≤ row_count self.now }
        requires cols_in { at.1 + size.1 ≤ col_count self.now }
        ensures { result ≡ table_sum (sub_table self.now at size) }
    {
        let board = (self.rows, self.cols);
        part_sum(self.corners.as_slice(), board, at, size)
    }

    /// Same as [`sum`](Sums::sum), or `None` where the part isn't within the board.
    ///
    ///     of [[1, 2, 3], [4, 5, 6]]   get_sum((0, 1), (2, 2))   Some(16)
    ///     of [[1, 2, 3], [4, 5, 6]]   get_sum((0, 2), (2, 2))   None
    pub fn get_sum(&self, at: (usize, usize), size: (usize, usize)) -> Option<i128>
        ensures in_range { MatchOption result
            (at.0 + size.0 ≤ row_count self.now → at.1 + size.1 ≤ col_count self.now → ⊥)
            (λ _. (at.0 + size.0 ≤ row_count self.now) × (at.1 + size.1 ≤ col_count self.now)) }
        ensures value { IfSome result (λ z. z ≡ table_sum (sub_table self.now at size)) }
    {
        let (rows, cols) = self.size();
        if has_lines(rows, at.0, size.0) && has_lines(cols, at.1, size.1) {
            Some(self.sum(at, size))
        } else {
            None
        }
    }

    /// Returns the sum of all numbers.
    ///
    ///     of [[1, 2, 3], [4, 5, 6]]   total()   21
    pub fn total(&self) -> i128
        ensures { result ≡ table_sum self.now }
    {
        let board = (self.rows, self.cols);
        part_sum(self.corners.as_slice(), board, (0, 0), board)
    }

    /// Returns the mean of the numbers of a part, rounded down, or `None` where the part has none.
    ///
    ///     of [[1, 2, 3], [4, 5, 6]]      mean((0, 1), (2, 1))   Some(3)
    ///     of [[-1, -2, -3], [0, 0, 0]]   mean((0, 0), (1, 2))   Some(-2)
    ///
    /// Requires: the part is within the board.
    /// Cost: four reads and one division.
    pub fn mean(&self, at: (usize, usize), size: (usize, usize)) -> Option<i64>
        requires rows_in { at.0 + size.0 ≤ row_count self.now }
        requires cols_in { at.1 + size.1 ≤ col_count self.now }
        ensures { MatchOption result ((size.0 ≡ 0) ⊎ (size.1 ≡ 0))
            (λ m. IsMean (table_sum (sub_table self.now at size)) (size.0 * size.1) m) }
    {
        if size.0 == 0 || size.1 == 0 {
            return None;
        }
        let board = (self.rows, self.cols);
        let sum = part_sum(self.corners.as_slice(), board, at, size);
        Some(mean_of(sum, size.0 * size.1))
    }
}
