//! Conversions of vectors into row-major grids: the six `TryFrom`.
ghost use Rattle.std.specs.Prelude.{◌≡◌, ◌≢◌, ◌↔◌, length, map, IsTrue, MatchResult, IfOk};
ghost use Rattle.grid.specs.Prelude.{col_count, concat_rows, CanCut, equal_rows, AreClones, AreClonedRows, CanJoin, RowsFault, RowsAnswer, CutAnswer};

use crate::Grid;
use grid_commands::{ShapeError, first_len};
use std::alloc::{AllocError, Allocator};
use std::convert::{AsSlice, TryFrom};

/// Returns whether `len` cells can be cut into rows of `cols`: there are no cells, or `cols` is not 0 and divides their
/// number.
///
///     can_cut(6, 3)   true        can_cut(6, 4)   false        can_cut(0, 0)   true
pub fn can_cut(len: usize, cols: usize) -> bool
    ensures { IsTrue result ↔ CanCut len cols }
{
    len == 0 || (cols != 0 && len % cols == 0)
}

/// Returns the row-major grid of the vector's cells, cut into rows of this length.
///
///     try_from(([1, 2, 3, 4], 2))   [[1, 2], [3, 4]]
///
/// Fails: `Shape` where the vector is not empty, and the length is 0 or does not divide the number of cells; the vector
/// is dropped. No other error comes.
/// Cost: constant; the vector is kept, and no memory is taken.
impl<T: Drop, A: Allocator> TryFrom<(Vec<T, A>, usize)> for Grid<T, A> {
    type Error = ShapeError;

    ghost try_from_gives = { λ pair r.
        CutAnswer ⊥ pair.0.items pair.1 (λ cells. cells ≡ pair.0.items) r };

    fn try_from((cells, cols): (Vec<T, A>, usize)) -> Result<Grid<T, A>, ShapeError> {
        let len = cells.len();
        if can_cut(len, cols) {
            Ok(Grid::from_vec(cells, cols))
        } else {
            Err(ShapeError::Shape { len, cols })
        }
    }
}

// What the two borrowed pairs share.
fn cut_clones<T: Clone, A: Allocator + Clone>(
    cells: &Vec<T, A>,
    cols: usize,
) -> Result<Grid<T, A>, ShapeError>
    ensures { CutAnswer (CanCut (length cells.now.items) cols) cells.now.items cols
        (AreClones T.is_clone cells.now.items) result }
{
    let len = cells.len();
    if can_cut(len, cols) {
        let copies = cells.clone()?;
        Ok(Grid::from_vec(copies, cols))
    } else {
        Err(ShapeError::Shape { len, cols })
    }
}

/// Returns the row-major grid of clones of the vector's cells, cut into rows of this length. Where clones equal their
/// source, the cells are those of the vector.
///
///     try_from((&[1, 2, 3, 4], 2))   [[1, 2], [3, 4]]
///
/// Fails: `Shape` where the vector is not empty, and the length is 0 or does not divide the number of cells; else
/// `Memory`, from the vector's allocator or a clone. No other error comes.
/// Cost: one clone for each cell; nothing is allocated before the shape is tested.
impl<T: Clone, A: Allocator + Clone> TryFrom<(&Vec<T, A>, usize)> for Grid<T, A> {
    type Error = ShapeError;

    ghost try_from_gives = { λ pair r.
        CutAnswer (CanCut (length pair.0.now.items) pair.1) pair.0.now.items pair.1
        (AreClones T.is_clone pair.0.now.items) r };

    fn try_from(pair: (&Vec<T, A>, usize)) -> Result<Grid<T, A>, ShapeError> {
        cut_clones(pair.0, pair.1)
    }
}

/// Same as for `(&Vec<T, A>, usize)`, with the length by reference.
impl<T: Clone, A: Allocator + Clone> TryFrom<(&Vec<T, A>, &usize)> for Grid<T, A> {
    type Error = ShapeError;

    ghost try_from_gives = { λ pair r.
        CutAnswer (CanCut (length pair.0.now.items) pair.1.now) pair.0.now.items pair.1.now
        (AreClones T.is_clone pair.0.now.items) r };

    fn try_from(pair: (&Vec<T, A>, &usize)) -> Result<Grid<T, A>, ShapeError> {
        cut_clones(pair.0, *pair.1)
    }
}

// Returns the number of cells of rows that have one length, and that length.
fn measure<T, L: AsSlice<T>>(rows: &[L]) -> Result<(usize, usize), ShapeError>
    ensures { MatchResult result (λ sizes. CanJoin (map L.items rows.now) × (sizes.0 ≡ length
        (concat_rows (map L.items rows.now))) × (sizes.1 ≡ col_count (map L.items rows.now)))
        (λ e. RowsFault (map L.items rows.now) e × (e ≢ ShapeError.Memory)) }
{
    let cols = first_len(rows);
    for (number, row) in rows.iter().enumerate() {
        let len = row.as_slice().len();
        if len != cols {
            return Err(ShapeError::Ragged {
                row: number,
                len,
                cols,
            });
        }
    }
    match rows.len().checked_mul(cols) {
        Some(count) => Ok((count, cols)),
        None => Err(ShapeError::TooLarge),
    }
}

// Returns the cells of the rows, one row after another; `count` is their number.
fn join_rows<T: Drop, A: Allocator>(
    alloc: A,
    count: usize,
    rows: Vec<Vec<T, A>, A>,
) -> Result<Vec<T, A>, AllocError>
    ensures { IfOk result (λ cells. cells.items ≡ concat_rows (map (λ row. row.items) rows.items)) }
{
    let mut cells = Vec::with_capacity(alloc, count)?;
    for mut row in rows {
        cells.append(&mut row)?;
    }
    Ok(cells)
}

/// Returns the row-major grid of these rows, which are moved. No rows, or rows of length 0, give the empty grid.
///
///     try_from([[1, 2], [3, 4]])   [[1, 2], [3, 4]]
///
/// Fails: `Ragged` with the first row whose length is not that of row 0; else `TooLarge` where there are more than
/// `usize::MAX` cells (possible only with zero-sized cells); else `Memory`, from the outer vector's allocator. The rows
/// are dropped.
/// Cost: each cell is moved once; one allocation; nothing is allocated before the rows are measured.
impl<T: Drop, A: Allocator + Clone> TryFrom<Vec<Vec<T, A>, A>> for Grid<T, A> {
    type Error = ShapeError;

    ghost try_from_gives = { λ rows r. let lists = map (λ row. row.items) rows.items
        in RowsAnswer lists (λ t. t ≡ equal_rows lists) r };

    fn try_from(rows: Vec<Vec<T, A>, A>) -> Result<Grid<T, A>, ShapeError> {
        let (count, cols) = measure(rows.as_slice())?;
        let alloc = rows.allocator().clone()?;
        let cells = join_rows(alloc, count, rows)?;
        Ok(Grid::from_vec(cells, cols))
    }
}

// What the two borrowed lists of rows share.
fn join_clones<T: Clone, L: AsSlice<T>, A: Allocator + Clone>(
    alloc: &A,
    rows: &[L],
) -> Result<Grid<T, A>, ShapeError>
    ensures { RowsAnswer
        (map L.items rows.now) (AreClonedRows T.is_clone (map L.items rows.now)) result }
{
    let (count, cols) = measure(rows)?;
    let mut cells = Vec::with_capacity(alloc.clone()?, count)?;
    for row in rows {
        cells.extend_with_clones(row.as_slice())?;
    }
    Ok(Grid::from_vec(cells, cols))
}

/// Returns the row-major grid of clones of these rows. Where clones equal their source, the rows are these. No rows, or
/// rows of length 0, give the empty grid.
///
///     try_from(&[[1, 2], [3, 4]])   [[1, 2], [3, 4]]
///
/// Fails: `Ragged` with the first row whose length is not that of row 0; else `TooLarge` where there are more than
/// `usize::MAX` cells (possible only with zero-sized cells); else `Memory`, from the outer vector's allocator or a
/// clone.
/// Cost: one clone for each cell; nothing is allocated before the rows are measured.
impl<T: Clone, A: Allocator + Clone> TryFrom<&Vec<Vec<T, A>, A>> for Grid<T, A> {
    type Error = ShapeError;

    ghost try_from_gives = { λ rows r. let lists = map (λ row. row.items) rows.now.items
        in RowsAnswer lists (AreClonedRows T.is_clone lists) r };

    fn try_from(rows: &Vec<Vec<T, A>, A>) -> Result<Grid<T, A>, ShapeError> {
        join_clones(rows.allocator(), rows.as_slice())
    }
}

/// Returns the row-major grid of clones of these rows, which are borrowed. Where clones equal their source, the rows
/// are these. No rows, or rows of length 0, give the empty grid.
///
///     try_from(&[&[1, 2], &[3, 4]])   [[1, 2], [3, 4]]
///
/// Fails: `Ragged` with the first row whose length is not that of row 0; else `TooLarge` where there are more than
/// `usize::MAX` cells (possible only with zero-sized cells, or with one vector that is borrowed many times); else
/// `Memory`, from the outer vector's allocator or a clone.
/// Cost: one clone for each cell; nothing is allocated before the rows are measured.
impl<T: Clone, A: Allocator + Clone> TryFrom<&Vec<&Vec<T, A>, A>> for Grid<T, A> {
    type Error = ShapeError;

    ghost try_from_gives = { λ rows r. let lists = map (λ row. row.now.items) rows.now.items
        in RowsAnswer lists (AreClonedRows T.is_clone lists) r };

    fn try_from(rows: &Vec<&Vec<T, A>, A>) -> Result<Grid<T, A>, ShapeError> {
        join_clones(rows.allocator(), rows.as_slice())
    }
}
