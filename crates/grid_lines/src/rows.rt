//! A board as a vector of its rows, moved or cloned: what `TryFrom` takes.
ghost use Rattle.std.specs.Prelude.{◌≡◌, ◌<◌, map, take, drop, vec_len, IfOk, IfErr};
ghost use Rattle.grid_lines.specs.Prelude.{All, into_iter_items, row, row_count, col_count, AreCopied, IsRoomFor};

use grid::{Grid, Order};
use grid_base::clones_of_line;
use grid_view::{AsView, GridView};
use std::alloc::{AllocError, Allocator};
use std::vec;

/// Returns the rows, each as a vector of its cells.
///
///     [[1, 2], [3, 4]]   into_rows(grid)   [1, 2] and [3, 4]
///
/// Fails: if allocation fails; the grid comes back.
/// Cost: each cell is moved once; one allocation, and one for each row, before the first cell is moved. A column-major
/// grid is laid out first.
pub fn into_rows<T: Drop, A: Allocator + Clone>(
    mut grid: Grid<T, A>,
) -> Result<Vec<Vec<T, A>, A>, Grid<T, A>>
    ensures rows { IfOk result (λ rows. map (λ row. row.items) rows.items ≡ grid.rows) }
    ensures refused { IfErr result (λ left. left ≡ grid) }
{
    let Ok(mut rows) = empty_rows(&grid) else {
        return Err(grid);
    };
    let (count, cols) = grid.size();
    grid.lay_out(Order::RowMajor);
    let mut cells = grid.into_vec().into_iter();
    for row in 0..count {
        fill_row(&mut rows[row], &mut cells, cols);
    }
    Ok(rows)
}

// Returns as many empty vectors as there are rows, each with room for one of them.
fn empty_rows<T: Drop, A: Allocator + Clone>(
    grid: &Grid<T, A>,
) -> Result<Vec<Vec<T, A>, A>, AllocError>
    ensures count { IfOk result (λ rows. vec_len rows ≡ row_count grid.now.rows) }
    ensures room { IfOk result (λ rows. All (IsRoomFor (col_count grid.now.rows)) rows.items) }
{
    let (count, cols) = grid.size();
    let mut rows = Vec::with_capacity(grid.allocator().clone()?, count)?;
    for _ in 0..count {
        let room = Vec::with_capacity(grid.allocator().clone()?, cols)?;
        rows.push_reserved(room);
    }
    Ok(rows)
}

// Moves the next `count` cells into a vector that has room for them.
fn fill_row<T, A: Allocator>(row: &mut Vec<T, A>, cells: &mut vec::IntoIter<T, A>, count: usize)
    requires room { IsRoomFor count row.old }
    ensures row { row.new.items ≡ take count (into_iter_items cells.old) }
    ensures rest { into_iter_items cells.new ≡ drop count (into_iter_items cells.old) }
{
    for _ in 0..count {
        if let Some(cell) = cells.next() {
            row.push_reserved(cell);
        }
    }
}

/// Returns clones of the rows, each as a vector of its cells. Where clones equal their source, they are the rows.
///
///     [[1, 2], [3, 4]]   to_rows(alloc, &grid)   [1, 2] and [3, 4]
///
/// The board is a grid, a part, a turned or a deferred one.
///
/// Fails: if allocation fails, for the vectors or in a clone.
/// Cost: one clone for each cell; one allocation, and one for each row.
pub fn to_rows<T: Clone, V: AsView<T>, A: Allocator + Clone>(
    alloc: A,
    board: &V,
) -> Result<Vec<Vec<T, A>, A>, AllocError>
    ensures { IfOk result (λ rows.
        AreCopied T.is_clone (V.rows board.now) (map (λ row. row.items) rows.items)) }
{
    copied_rows(alloc, &board.as_view())
}

// Returns clones of the rows of a view.
fn copied_rows<T: Clone, A: Allocator + Clone>(
    alloc: A,
    view: &GridView<'_, T>,
) -> Result<Vec<Vec<T, A>, A>, AllocError>
    ensures { IfOk result (λ rows.
        AreCopied T.is_clone view.now.rows (map (λ row. row.items) rows.items)) }
{
    let count = view.rows();
    let mut rows = Vec::with_capacity(alloc, count)?;
    for r in 0..count {
        let row = clones_of_line(rows.allocator().clone()?, view.iter_row(r))?;
        rows.push_reserved(row);
    }
    Ok(rows)
}
