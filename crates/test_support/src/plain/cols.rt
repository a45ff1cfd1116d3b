//! Columns of a table: put, taken and padded, row by row. Each function returns a new table.
ghost use Rattle.std.specs.Prelude.{◌≡◌, ◌++◌, [], ◌∷◌, take, drop, map, filter, insert, IfOk};
ghost use Rattle.grid.specs.Prelude.{items_of_each, insert_into_rows, insert_col, insert_cols, has_cells, expanded_cols, prepended_cols, range_effect, after_effect};
ghost use Rattle.grid_commands.specs.declared.command.Axis.TheVariants.{Col};

use crate::plain::rows::{before, blank_line, copied, from, has_lines};
use std::alloc::{AllocError, Global};

// A row with a cell put before a place.
fn row_with_cell<T: Copy>(
    alloc: Global,
    row: &[T],
    at: usize,
    cell: T,
) -> Result<Vec<T>, AllocError>
    ensures { IfOk result (λ grown. grown.items ≡ insert row.now at cell) }
{
    let mut grown = Vec::from_slice(alloc, before(row, at))?;
    grown.push(cell)?;
    grown.extend_from_slice(from(row, at))?;
    Ok(grown)
}

// The cells of a line, each a row of its own.
fn rows_of_one<T: Copy>(alloc: Global, line: &[T]) -> Result<Vec<Vec<T>>, AllocError>
    ensures { IfOk result (λ rows. items_of_each rows.items ≡ map (λ x. x ∷ []) line.now) }
{
    let mut rows = Vec::new(alloc);
    for cell in line {
        let mut row = Vec::new(alloc);
        row.push(*cell)?;
        rows.push(row)?;
    }
    Ok(rows)
}

// Each cell of a line put into its row before a place.
fn insert_into_rows<T: Copy>(
    alloc: Global,
    table: &Vec<Vec<T>>,
    at: usize,
    line: &[T],
) -> Result<Vec<Vec<T>>, AllocError>
    ensures { IfOk result (λ grown. items_of_each grown.items
        ≡ insert_into_rows at line.now (items_of_each table.now.items)) }
{
    let mut grown = Vec::new(alloc);
    for (r, cell) in line.iter().enumerate() {
        if let Some(row) = table.get(r) {
            grown.push(row_with_cell(alloc, row.as_slice(), at, *cell)?)?;
        }
    }
    Ok(grown)
}

// A table with a column put before one.
pub(crate) fn insert_col<T: Copy>(
    alloc: Global,
    table: &Vec<Vec<T>>,
    at: usize,
    line: &[T],
) -> Result<Vec<Vec<T>>, AllocError>
    ensures { IfOk result (λ grown. items_of_each grown.items
        ≡ insert_col at line.now (items_of_each table.now.items)) }
{
    if table.is_empty() {
        rows_of_one(alloc, line)
    } else {
        insert_into_rows(alloc, table, at, line)
    }
}

// A table with columns put before one: the last of them first.
pub(crate) fn insert_cols<T: Copy>(
    alloc: Global,
    table: &Vec<Vec<T>>,
    at: usize,
    lines: &[Vec<T>],
) -> Result<Vec<Vec<T>>, AllocError>
    ensures { IfOk result (λ grown. items_of_each grown.items
        ≡ insert_cols at (items_of_each lines.now) (items_of_each table.now.items)) }
{
    match lines.split_first() {
        Some((line, others)) => {
            let grown = insert_cols(alloc, table, at, others)?;
            insert_col(alloc, &grown, at, line.as_slice())
        }
        None => copied(alloc, table),
    }
}

// A row without the cells from one place to another.
fn row_without<T: Copy>(
    alloc: Global,
    row: &[T],
    start: usize,
    end: usize,
) -> Result<Vec<T>, AllocError>
    ensures { IfOk result (λ left. left.items ≡ take start row.now ++ drop end row.now) }
{
    let mut left = Vec::from_slice(alloc, before(row, start))?;
    left.extend_from_slice(from(row, end))?;
    Ok(left)
}

// A table without the columns from one to another. Rows that become empty leave.
fn without_cols<T: Copy>(
    alloc: Global,
    table: &Vec<Vec<T>>,
    start: usize,
    end: usize,
) -> Result<Vec<Vec<T>>, AllocError>
    ensures { IfOk result (λ left. items_of_each left.items ≡ filter has_cells
        (map (λ r. take start r ++ drop end r) (items_of_each table.now.items))) }
{
    let mut left = Vec::new(alloc);
    for row in table {
        let kept = row_without(alloc, row.as_slice(), start, end)?;
        if !kept.is_empty() {
            left.push(kept)?;
        }
    }
    Ok(left)
}

// A table without `count` columns from one on, or with all of them where there are fewer.
pub(crate) fn delete_cols<T: Copy>(
    alloc: Global,
    table: &Vec<Vec<T>>,
    cols: usize,
    start: usize,
    count: usize,
) -> Result<Vec<Vec<T>>, AllocError>
    ensures { IfOk result (λ left. (d : T) → items_of_each left.items
        ≡ after_effect d Col (range_effect cols start count) (items_of_each table.now.items)) }
{
    if has_lines(cols, start, count) {
        without_cols(alloc, table, start, start + count)
    } else {
        copied(alloc, table)
    }
}

// A table with `count` defaults at the end of each row.
pub(crate) fn expand_cols<T: Copy>(
    alloc: Global,
    default: T,
    table: &Vec<Vec<T>>,
    count: usize,
) -> Result<Vec<Vec<T>>, AllocError>
    ensures { IfOk result (λ padded. items_of_each padded.items
        ≡ expanded_cols count default (items_of_each table.now.items)) }
{
    let mut padded = Vec::new(alloc);
    for row in table {
        let mut cells = Vec::from_slice(alloc, row.as_slice())?;
        cells.extend_from_slice(blank_line(alloc, default, count)?.as_slice())?;
        padded.push(cells)?;
    }
    Ok(padded)
}

// A table with `count` defaults at the beginning of each row.
pub(crate) fn prepend_cols<T: Copy>(
    alloc: Global,
    default: T,
    table: &Vec<Vec<T>>,
    count: usize,
) -> Result<Vec<Vec<T>>, AllocError>
    ensures { IfOk result (λ padded. items_of_each padded.items
        ≡ prepended_cols count default (items_of_each table.now.items)) }
{
    let mut padded = Vec::new(alloc);
    for row in table {
        let mut cells = blank_line(alloc, default, count)?;
        cells.extend_from_slice(row.as_slice())?;
        padded.push(cells)?;
    }
    Ok(padded)
}
