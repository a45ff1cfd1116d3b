//! Iterators over strings, each dropped after one item from each end that it has. The grid is read or edited again.
use grid::{Grid, GridLineIter, GridRowIter, Order};
use std::alloc::{AllocError, Global};
use std::process::Abort;
use std::slice;
use std::test::Fail;
use test_support::fixtures::{has_texts, letters};

fn is_text(cell: Option<&String>, want: &str) -> bool {
    match cell {
        Some(text) => text.as_str() == want,
        None => false,
    }
}

// Writes a mark into a text that was handed out.
fn mark(cell: Option<&mut String>, with: &str) -> Result<(), AllocError> {
    match cell {
        Some(text) => text.push_str(with),
        None => Ok(()),
    }
}

// Marks both ends of an iterator over all cells for writing.
fn mark_ends(
    mut iter: slice::IterMut<'_, String>,
    first: &str,
    last: &str,
) -> Result<(), AllocError> {
    mark(iter.next(), first)?;
    mark(iter.next_back(), last)
}

// Marks the first cell of an iterator with positions.
fn mark_first(grid: &mut Grid<String>, with: &str) -> Result<(), AllocError> {
    let mut iter = grid.indexed_iter_mut();
    match iter.next() {
        Some((_, text)) => text.push_str(with),
        None => Ok(()),
    }
}

// Iterators over all cells for writing, each of which writes into what it hands out.
fn write_ends(grid: &mut Grid<String>) -> Result<(), AllocError> {
    mark_ends(grid.iter_mut(), "1", "2")?;
    mark_ends((&mut *grid).into_iter(), "3", "4")?;
    mark_first(grid, "5")
}

// Adds the text of a cell that was handed out.
fn add(text: &mut String, cell: Option<&String>) -> Result<(), AllocError> {
    match cell {
        Some(cell) => text.push_str(cell.as_str()),
        None => text.push_str("?"),
    }
}

// Adds those of both ends of a line.
fn add_ends(text: &mut String, line: Option<GridLineIter<'_, String>>) -> Result<(), AllocError> {
    match line {
        Some(mut line) => {
            add(text, line.next())?;
            add(text, line.next_back())
        }
        None => text.push_str("?"),
    }
}

// Adds those of the first line and of the last.
fn add_lines(text: &mut String, mut lines: GridRowIter<'_, String>) -> Result<(), AllocError> {
    add_ends(text, lines.next())?;
    add_ends(text, lines.next_back())
}

// Reads both ends of all cells, by the call and by reference, and the first cell with its position.
fn read_cells(grid: &Grid<String>, text: &mut String) -> Result<(), AllocError> {
    let mut cells = grid.iter();
    add(text, cells.next())?;
    add(text, cells.next_back())?;
    let mut cells = grid.into_iter();
    add(text, cells.next())?;
    add(text, cells.next_back())?;
    add(text, grid.indexed_iter().next().map(|(_, cell)| cell))
}

// Reads the first and the last line, then the second row and the second column.
fn read_lines(rt: &impl Abort, grid: &Grid<String>, text: &mut String) -> Result<(), AllocError> {
    add_lines(text, grid.iter_rows())?;
    add_lines(text, grid.iter_cols())?;
    assert!(rt; 1 < grid.rows());
    add_ends(text, Some(grid.iter_row(1)))?;
    assert!(rt; 1 < grid.cols());
    add_ends(text, Some(grid.iter_col(1)))
}

// Reads the first of the cells around the second cell of the first row.
fn read_near(rt: &impl Abort, grid: &Grid<String>, text: &mut String) -> Result<(), AllocError> {
    let there = 0 < grid.rows() && 1 < grid.cols();
    assert!(rt; there);
    add(text, grid.neighbors4((0, 1)).next().map(|(_, cell)| cell))?;
    add(text, grid.neighbors8((0, 1)).next().map(|(_, cell)| cell))?;
    add(
        text,
        grid.wrapped_neighbors4((0, 1)).next().map(|(_, cell)| cell),
    )?;
    add(
        text,
        grid.wrapped_neighbors8((0, 1)).next().map(|(_, cell)| cell),
    )
}

fn check_reading(rt: &impl Abort, alloc: Global, order: Order) -> Result<(), Fail> {
    let grid = letters(alloc, order)?;
    let mut text = String::new(alloc);
    read_cells(&grid, &mut text)?;
    read_lines(rt, &grid, &mut text)?;
    read_near(rt, &grid, &mut text)?;
    assert_eq!(rt; text.as_str(), "afafaacdfadcfdfbeaaed");
    Ok(())
}

#[test]
fn reading(rt: HostRuntime) -> Result<(), Fail> {
    for order in [Order::RowMajor, Order::ColumnMajor] {
        check_reading(&rt, rt.alloc(), order)?;
    }
    Ok(())
}

// Iterators along the second row and the second column.
fn write_lines(rt: &impl Abort, grid: &mut Grid<String>) -> Result<(), AllocError> {
    assert!(rt; 1 < grid.rows());
    mark(grid.iter_row_mut(1).next(), "6")?;
    assert!(rt; 1 < grid.cols());
    mark(grid.iter_col_mut(1).next(), "7")
}

fn check_writing(
    rt: &impl Abort,
    alloc: Global,
    order: Order,
    turned: &[&str],
) -> Result<(), Fail> {
    let mut grid = letters(alloc, order)?;
    write_ends(&mut grid)?;
    write_lines(rt, &mut grid)?;
    grid.rotate_half();
    assert!(rt; has_texts(&grid, order, turned));
    Ok(())
}

#[test]
fn writing(rt: HostRuntime) -> Result<(), Fail> {
    let by_rows = ["f24", "e", "d6", "c", "b7", "a135"];
    check_writing(&rt, rt.alloc(), Order::RowMajor, by_rows.as_slice())?;
    let by_columns = ["f24", "c", "e", "b7", "d6", "a135"];
    check_writing(&rt, rt.alloc(), Order::ColumnMajor, by_columns.as_slice())
}

// An iterator by value is dropped with the cells that are left.
fn gives_ends(grid: Grid<String>) -> bool {
    let mut iter = grid.into_iter();
    is_text(iter.next().as_ref(), "a") && is_text(iter.next_back().as_ref(), "f")
}

fn gives_first(grid: Grid<String>) -> bool {
    let mut iter = grid.indexed_into_iter();
    let first = match iter.next() {
        Some((at, text)) => at == (0, 0) && text.as_str() == "a",
        None => false,
    };
    first && iter.size_hint() == (5, Some(5))
}

#[test]
fn by_value(rt: HostRuntime) -> Result<(), Fail> {
    for order in [Order::RowMajor, Order::ColumnMajor] {
        assert!(rt; gives_ends(letters(rt.alloc(), order)?));
        assert!(rt; gives_first(letters(rt.alloc(), order)?));
    }
    Ok(())
}
