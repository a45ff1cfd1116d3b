//! Cells that own memory are moved.
use grid::{Grid, Order};
use std::process::Abort;
use std::test::Fail;
use test_support::fixtures::{has_texts, letters};

#[test]
fn moves_texts(rt: HostRuntime) -> Result<(), Fail> {
    let mut grid = letters(rt.alloc(), Order::RowMajor)?;
    grid.transpose();
    assert_eq!(rt; grid.size(), (3, 2));
    assert!(rt; has_texts(&grid, Order::ColumnMajor, &["a", "b", "c", "d", "e", "f"]));
    grid.flip_rows();
    assert!(rt; has_texts(&grid, Order::ColumnMajor, &["c", "b", "a", "f", "e", "d"]));
    check_swap_of_texts(&rt, grid);
    Ok(())
}

fn check_swap_of_texts(rt: &impl Abort, mut grid: Grid<String>) {
    let (rows, cols) = grid.size();
    assert!(rt; 2 < rows && 1 < cols);
    grid.swap((0, 0), (2, 1));
    assert!(rt; has_texts(&grid, Order::ColumnMajor, &["d", "b", "a", "f", "e", "c"]));
    match grid.into_vec().as_slice() {
        [first, _, _, _, _, _] => assert_eq!(rt; first.as_str(), "d"),
        _ => panic!(rt; "six cells were stored"),
    }
}
