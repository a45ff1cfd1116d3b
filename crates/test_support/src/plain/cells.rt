//! Cells of a table: written, exchanged, and all made one value. Each function returns a new table.
ghost use Rattle.std.specs.Prelude.{◌≡◌, IfOk};
ghost use Rattle.grid.specs.Prelude.{items_of_each, with_cell, exchanged, filled};

use crate::plain::get;
use crate::plain::rows::{blank_line, copied};
use std::alloc::{AllocError, Global};

// Writes a cell, where there is one.
fn write<T: Copy>(table: &mut Vec<Vec<T>>, row: usize, col: usize, value: T)
    ensures { items_of_each table.new.items
        ≡ with_cell (items_of_each table.old.items) row col value }
{
    if let Some(cells) = table.get_mut(row) {
        if let Some(cell) = cells.get_mut(col) {
            *cell = value;
        }
    }
}

// A table with a cell written.
pub(crate) fn with_cell<T: Copy>(
    alloc: Global,
    table: &Vec<Vec<T>>,
    row: usize,
    col: usize,
    value: T,
) -> Result<Vec<Vec<T>>, AllocError>
    ensures { IfOk result (λ written. items_of_each written.items
        ≡ with_cell (items_of_each table.now.items) row col value) }
{
    let mut written = copied(alloc, table)?;
    write(&mut written, row, col, value);
    Ok(written)
}

// A table of which two cells have changed places.
pub(crate) fn exchanged<T: Copy>(
    alloc: Global,
    table: &Vec<Vec<T>>,
    a: (usize, usize),
    b: (usize, usize),
) -> Result<Vec<Vec<T>>, AllocError>
    ensures { IfOk result (λ written. items_of_each written.items
        ≡ exchanged (items_of_each table.now.items) a b) }
{
    let mut written = copied(alloc, table)?;
    if let Some(value) = get(table, b.0, b.1) {
        write(&mut written, a.0, a.1, value);
    }
    if let Some(value) = get(table, a.0, a.1) {
        write(&mut written, b.0, b.1, value);
    }
    Ok(written)
}

// A table of the same size with every cell the value.
pub(crate) fn filled<T: Copy>(
    alloc: Global,
    table: &Vec<Vec<T>>,
    value: T,
) -> Result<Vec<Vec<T>>, AllocError>
    ensures { IfOk result (λ cells.
        items_of_each cells.items ≡ filled value (items_of_each table.now.items)) }
{
    let mut cells = Vec::new(alloc);
    for row in table {
        cells.push(blank_line(alloc, value, row.len())?)?;
    }
    Ok(cells)
}
