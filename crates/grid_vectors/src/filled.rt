//! Regions of cells that equal one another and are different.
use grid::{Grid, Order};
use grid_paths::{Connectivity, fill_region};
use std::process::Abort;
use std::test::Fail;

// A region filled by -0, which equals 0.
fn assert_filled<R: AllocGlobal + Abort>(
    rt: &R,
    cells: [f64; 6],
    at: (usize, usize),
    want: &str,
) -> Result<(), Fail> {
    for order in [Order::RowMajor, Order::ColumnMajor] {
        let mut grid = Grid::from_vec(Vec::from_array(rt.alloc(), cells)?, 3);
        grid.lay_out(order);
        fill_region(&mut grid, at, Connectivity::Four, -0.0)?;
        assert_eq!(rt; format!(in rt.alloc(); "{grid:?}")?.as_str(), want);
    }
    Ok(())
}

#[test]
fn equal_cells_are_replaced(rt: HostRuntime) -> Result<(), Fail> {
    let right = "[[-0.0, 1.0, 0.0][1.0, 0.0, 0.0]]";
    assert_filled(&rt, [0.0, 1.0, 0.0, 1.0, 0.0, 0.0], (0, 0), right)?;
    let below = "[[-0.0, -0.0, -0.0][-0.0, -0.0, 1.0]]";
    assert_filled(&rt, [0.0, 0.0, 0.0, 0.0, 0.0, 1.0], (0, 1), below)?;
    let above = "[[1.0, -0.0, -0.0][-0.0, -0.0, -0.0]]";
    assert_filled(&rt, [1.0, 0.0, 0.0, 0.0, 0.0, 0.0], (1, 1), above)?;
    let all = "[[-0.0, -0.0, -0.0][-0.0, -0.0, -0.0]]";
    assert_filled(&rt, [0.0, 0.0, 0.0, 0.0, 0.0, 0.0], (1, 2), all)?;
    Ok(())
}
