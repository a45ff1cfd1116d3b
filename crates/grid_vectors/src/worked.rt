//! Cells that have no size, no default, or own memory, and texts of integers of other types.
use crate::asserts::{assert_made, assert_refused, assert_stored};
use grid::Order::{ColumnMajor, RowMajor};
use grid::{Grid, GridError, Order, Whole};
use std::alloc::{AllocError, Global};
use std::process::Abort;
use std::test::Fail;
use test_support::fixtures::{ORDERS, cut, joined_texts};
use test_support::line_edits::{LineAt, insert, push_row};

// A capacity needs no cells, so their type need have no value to begin with.
#[derive(Debug, PartialEq, Drop)]
struct Made(u8);

#[test]
fn makes_room_for_cells_without_a_default(rt: HostRuntime) {
    let made = Grid::<Made>::with_capacity_and_order(rt.alloc(), 2, 3, ColumnMajor);
    assert_made(&rt, made, (0, 0), ColumnMajor, &[]);
    let made = Grid::<Made>::with_capacity(rt.alloc(), 2, 3);
    assert_made(&rt, made, (0, 0), RowMajor, &[]);
}

#[test]
fn makes_cells_of_no_size(rt: HostRuntime) {
    let made = Grid::<()>::new(rt.alloc(), 2, 3);
    assert_made(&rt, made, (2, 3), RowMajor, &[(); 6]);
    let made = Grid::<()>::new(rt.alloc(), usize::MAX, 2);
    assert_refused(&rt, made, GridError::TooLarge);
    let made = Grid::<()>::new_with_order(rt.alloc(), usize::MAX, 2, ColumnMajor);
    assert_refused(&rt, made, GridError::TooLarge);
}

// A line of cells that have no size.
fn units(alloc: Global, len: usize) -> Result<Vec<()>, AllocError> {
    let mut line = Vec::new(alloc);
    for _ in 0..len {
        line.push(())?;
    }
    Ok(line)
}

fn check_cells_of_no_size(rt: &impl Abort, alloc: Global, order: Order) -> Result<(), Fail> {
    let mut grid = Grid::<()>::new_with_order(alloc, 2, 3, order)?;
    push_row(&mut grid, units(alloc, 3)?)?;
    assert_stored(rt, &grid, (3, 3), order, &[(); 9]);
    assert_eq!(rt; grid.pop_col()?.map(|line| line.len()), Some(3));
    assert_stored(rt, &grid, (3, 2), order, &[(); 6]);
    grid.rotate_left();
    assert_eq!(rt; (grid.size(), grid.flatten().len()), ((2, 3), 6));
    Ok(())
}

fn check_padding_of_no_size(rt: &impl Abort, alloc: Global, order: Order) -> Result<(), Fail> {
    let mut grid = Grid::<()>::new_with_order(alloc, 1, 1, order)?;
    assert_eq!(rt; grid.expand_rows(usize::MAX), Err(GridError::TooLarge));
    assert_stored(rt, &grid, (1, 1), order, &[()]);
    grid.prepend_cols(2)?;
    assert_stored(rt, &grid, (1, 3), order, &[(); 3]);
    Ok(())
}

#[test]
fn edits_cells_of_no_size(rt: HostRuntime) -> Result<(), Fail> {
    for order in ORDERS {
        check_cells_of_no_size(&rt, rt.alloc(), order)?;
        check_padding_of_no_size(&rt, rt.alloc(), order)?;
    }
    Ok(())
}

// A line of texts of one letter each.
fn texts_of(alloc: Global, letters: &[&str]) -> Result<Vec<String>, AllocError> {
    let mut line = Vec::new(alloc);
    for letter in letters {
        line.push(String::from_str(alloc, *letter)?)?;
    }
    Ok(line)
}

fn assert_joined(
    rt: &impl Abort,
    alloc: Global,
    grid: &Grid<String>,
    want: &str,
) -> Result<(), AllocError> {
    let text = joined_texts(alloc, grid)?;
    assert_eq!(rt; text.as_str(), want);
    Ok(())
}

fn put_and_delete_texts(
    rt: &impl Abort,
    alloc: Global,
    grid: &mut Grid<String>,
) -> Result<(), Fail> {
    push_row(grid, texts_of(alloc, &["c"])?)?;
    assert!(rt; grid.delete_row(0));
    insert(grid, LineAt::Col(0), texts_of(alloc, &["d", "e"])?)?;
    assert_joined(rt, alloc, grid, "dbec")?;
    Ok(())
}

fn take_texts(rt: &impl Abort, alloc: Global, grid: &mut Grid<String>) -> Result<(), AllocError> {
    assert_eq!(rt; grid.pop_row()?.map(|line| line.len()), Some(2));
    assert_joined(rt, alloc, grid, "db")
}

#[test]
fn puts_deletes_and_takes_texts(rt: HostRuntime) -> Result<(), Fail> {
    let mut grid = Grid::from_vec(texts_of(rt.alloc(), &["a", "b"])?, 1);
    put_and_delete_texts(&rt, rt.alloc(), &mut grid)?;
    take_texts(&rt, rt.alloc(), &mut grid)?;
    Ok(())
}

fn check_pretty<T: Whole + Copy + Drop>(
    rt: &impl Abort,
    alloc: Global,
    (cells, cols): (&[T], usize),
    width: Option<usize>,
    want: &str,
) -> Result<(), Fail> {
    let grid = cut(Vec::from_slice(alloc, cells)?, cols, RowMajor)?;
    let text = grid.pretty(alloc, width)?;
    assert_eq!(rt; text.as_str(), want);
    Ok(())
}

#[test]
fn pretty_texts_of_other_integers(rt: HostRuntime) -> Result<(), Fail> {
    let ends = "[\n    [ 18446744073709551615,                    0]\n]";
    check_pretty(&rt, rt.alloc(), (&[u64::MAX, 0], 2), None, ends)?;
    check_pretty(&rt, rt.alloc(), (&[usize::MAX, 0], 2), None, ends)?;
    let negative = "[\n    [ -7]\n    [ 10]\n]";
    check_pretty::<i16>(&rt, rt.alloc(), (&[-7, 10], 1), Some(1), negative)?;
    check_pretty::<u8>(&rt, rt.alloc(), (&[], 0), None, "[]")
}
