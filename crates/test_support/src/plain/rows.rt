//! Rows of a table: copied, put, taken and padded. Each function returns a new table.
ghost use Rattle.std.specs.Prelude.{◌≡◌, ◌+◌, ◌++◌, [], ◌∷◌, take, drop, not, nat_lt, replicate, slice_get, IfOk, OnOk, option_map};
ghost use Rattle.grid.specs.Prelude.{items_of_each, row_count, insert_rows, expanded_rows, prepended_rows, range_effect, after_effect};
ghost use Rattle.grid_commands.specs.declared.command.Axis.TheVariants.{Row};

use std::alloc::{AllocError, Global};

// The items before a place, or all of them where there are fewer.
pub(crate) fn before<T>(items: &[T], at: usize) -> &[T]
    ensures { result.now ≡ take at items.now }
{
    if at < items.len() {
        items.split_at(at).0
    } else {
        items
    }
}

// The items from a place on.
pub(crate) fn from<T>(items: &[T], at: usize) -> &[T]
    ensures { result.now ≡ drop at items.now }
{
    if at < items.len() {
        items.split_at(at).1
    } else {
        items.split_at(items.len()).1
    }
}

// Whether a table of `lines` lines has `count` lines from one on.
pub(crate) fn has_lines(lines: usize, start: usize, count: usize) -> bool
    ensures { result ≡ not (nat_lt lines (start + count)) }
{
    match start.checked_add(count) {
        Some(end) => end <= lines,
        None => false,
    }
}

// A line of `len` cells that are the default.
pub(crate) fn blank_line<T: Copy>(
    alloc: Global,
    default: T,
    len: usize,
) -> Result<Vec<T>, AllocError>
    ensures { IfOk result (λ line. line.items ≡ replicate len default) }
{
    let mut line = Vec::new(alloc);
    for _ in 0..len {
        line.push(default)?;
    }
    Ok(line)
}

// Adds copies of rows at the end.
fn push_copies<T: Copy>(
    alloc: Global,
    table: &mut Vec<Vec<T>>,
    rows: &[Vec<T>],
) -> Result<(), AllocError>
    ensures { OnOk result (items_of_each table.new.items
        ≡ items_of_each table.old.items ++ items_of_each rows.now) }
{
    for row in rows {
        table.push(Vec::from_slice(alloc, row.as_slice())?)?;
    }
    Ok(())
}

// Adds rows of defaults at the end.
fn push_blank<T: Copy>(
    alloc: Global,
    default: T,
    table: &mut Vec<Vec<T>>,
    count: usize,
    width: usize,
) -> Result<(), AllocError>
    ensures { OnOk result (items_of_each table.new.items
        ≡ items_of_each table.old.items ++ replicate count (replicate width default)) }
{
    for _ in 0..count {
        table.push(blank_line(alloc, default, width)?)?;
    }
    Ok(())
}

// A copy of a table.
pub(crate) fn copied<T: Copy>(alloc: Global, table: &Vec<Vec<T>>) -> Result<Vec<Vec<T>>, AllocError>
    ensures { IfOk result (λ copy. items_of_each copy.items ≡ items_of_each table.now.items) }
{
    let mut copy = Vec::new(alloc);
    push_copies(alloc, &mut copy, table.as_slice())?;
    Ok(copy)
}

// A copy of a line, if there is one at the place.
pub(crate) fn line_at<T: Copy>(
    alloc: Global,
    table: &Vec<Vec<T>>,
    at: usize,
) -> Result<Option<Vec<T>>, AllocError>
    ensures { IfOk result (λ line. option_map (λ l. l.items) line
        ≡ slice_get (items_of_each table.now.items) at) }
{
    match table.get(at) {
        Some(line) => Ok(Some(Vec::from_slice(alloc, line.as_slice())?)),
        None => Ok(None),
    }
}

// A table with rows put before one.
pub(crate) fn insert_rows<T: Copy>(
    alloc: Global,
    table: &Vec<Vec<T>>,
    at: usize,
    lines: &[Vec<T>],
) -> Result<Vec<Vec<T>>, AllocError>
    ensures { IfOk result (λ grown. items_of_each grown.items
        ≡ insert_rows at (items_of_each lines.now) (items_of_each table.now.items)) }
{
    let mut grown = Vec::new(alloc);
    push_copies(alloc, &mut grown, before(table.as_slice(), at))?;
    push_copies(alloc, &mut grown, lines)?;
    push_copies(alloc, &mut grown, from(table.as_slice(), at))?;
    Ok(grown)
}

// A table with a row put before one.
pub(crate) fn insert_row<T: Copy>(
    alloc: Global,
    table: &Vec<Vec<T>>,
    at: usize,
    line: &[T],
) -> Result<Vec<Vec<T>>, AllocError>
    ensures { IfOk result (λ grown. items_of_each grown.items
        ≡ insert_rows at (line.now ∷ []) (items_of_each table.now.items)) }
{
    let mut grown = Vec::new(alloc);
    push_copies(alloc, &mut grown, before(table.as_slice(), at))?;
    grown.push(Vec::from_slice(alloc, line)?)?;
    push_copies(alloc, &mut grown, from(table.as_slice(), at))?;
    Ok(grown)
}

// A table without the rows from one to another.
fn without_rows<T: Copy>(
    alloc: Global,
    table: &Vec<Vec<T>>,
    start: usize,
    end: usize,
) -> Result<Vec<Vec<T>>, AllocError>
    ensures { IfOk result (λ left. items_of_each left.items
        ≡ take start (items_of_each table.now.items) ++ drop end (items_of_each table.now.items)) }
{
    let mut left = Vec::new(alloc);
    push_copies(alloc, &mut left, before(table.as_slice(), start))?;
    push_copies(alloc, &mut left, from(table.as_slice(), end))?;
    Ok(left)
}

// A table without `count` rows from one on, or with all of them where there are fewer.
pub(crate) fn delete_rows<T: Copy>(
    alloc: Global,
    table: &Vec<Vec<T>>,
    start: usize,
    count: usize,
) -> Result<Vec<Vec<T>>, AllocError>
    ensures { let t = items_of_each table.now.items in IfOk result (λ left. (d : T)
        → items_of_each left.items
        ≡ after_effect d Row (range_effect (row_count t) start count) t) }
{
    if has_lines(table.len(), start, count) {
        without_rows(alloc, table, start, start + count)
    } else {
        copied(alloc, table)
    }
}

// A table with rows of defaults at the end, unless it is empty.
pub(crate) fn expand_rows<T: Copy>(
    alloc: Global,
    default: T,
    table: &Vec<Vec<T>>,
    count: usize,
) -> Result<Vec<Vec<T>>, AllocError>
    ensures { IfOk result (λ padded. items_of_each padded.items
        ≡ expanded_rows count default (items_of_each table.now.items)) }
{
    let mut padded = Vec::new(alloc);
    if let Some(first) = table.first() {
        push_copies(alloc, &mut padded, table.as_slice())?;
        push_blank(alloc, default, &mut padded, count, first.len())?;
    }
    Ok(padded)
}

// A table with rows of defaults at the beginning, unless it is empty.
pub(crate) fn prepend_rows<T: Copy>(
    alloc: Global,
    default: T,
    table: &Vec<Vec<T>>,
    count: usize,
) -> Result<Vec<Vec<T>>, AllocError>
    ensures { IfOk result (λ padded. items_of_each padded.items
        ≡ prepended_rows count default (items_of_each table.now.items)) }
{
    let mut padded = Vec::new(alloc);
    if let Some(first) = table.first() {
        push_blank(alloc, default, &mut padded, count, first.len())?;
        push_copies(alloc, &mut padded, table.as_slice())?;
    }
    Ok(padded)
}
