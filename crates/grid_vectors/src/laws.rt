//! Laws, each run once.
use crate::asserts::{Rows, assert_rows, grid_with};
use grid::{Grid, Order, Symmetry};
use grid_base::laws as symmetry_laws;
use std::test::Fail;
use test_support::fixtures::ORDERS;

// [[1, 2, 3], [4, 5, 6]] rotated counterclockwise and then flipped top to bottom is [[1, 4], [2, 5], [3, 6]].
const TURNED: Symmetry = Symmetry::RotateLeft;

const FLIPPED: Symmetry = Symmetry::FlipRows;

const WIDE: Rows = &[&[1, 2, 3], &[4, 5, 6]];

#[test]
fn joins_and_undoes_symmetries(rt: HostRuntime) -> Result<(), Fail> {
    let transposed = symmetry_laws::then_acts::<String>(TURNED, FLIPPED);
    assert_eq!(rt; transposed, Symmetry::Transpose);
    let back = symmetry_laws::inverse_acts::<String>(TURNED);
    assert_eq!(rt; back, Symmetry::RotateRight);
    Ok(())
}

#[test]
fn applies_what_is_joined(rt: HostRuntime) -> Result<(), Fail> {
    let mut grid = Grid::from_vec(vec![in rt.alloc(); 1, 2, 3, 4, 5, 6]?, 3);
    grid_laws::apply_then(&mut grid, TURNED, FLIPPED);
    assert_eq!(rt; grid.size(), (3, 2));
    assert_eq!(rt; grid.get(0, 1), Some(&4));
    grid_laws::apply_then_inverse(&mut grid, TURNED);
    assert_eq!(rt; grid.get(0, 1), Some(&4));
    Ok(())
}

// The calls that leave a grid as it was, and two flips that turn it by a half.
#[test]
fn keeps_what_is_turned_back(rt: HostRuntime) -> Result<(), Fail> {
    for order in ORDERS {
        let mut grid = grid_laws::rebuilt(grid_with(rt.alloc(), WIDE, order)?);
        grid_laws::rotate_right_then_left(&mut grid);
        grid_laws::rotate_left_four_times(&mut grid);
        assert_rows(&rt, rt.alloc(), &grid, WIDE, order)?;
        grid_laws::flip_rows_then_cols(&mut grid);
        assert_rows(&rt, rt.alloc(), &grid, &[&[6, 5, 4], &[3, 2, 1]], order)?;
    }
    Ok(())
}

// Of the cells around (0, 2) the first is (0, 1).
#[test]
fn steps_lead_to_neighbors(rt: HostRuntime) -> Result<(), Fail> {
    let grid = grid_with(rt.alloc(), WIDE, Order::ColumnMajor)?;
    let sized = 0 < grid.rows() && 2 < grid.cols();
    assert!(rt; sized);
    if sized {
        let sides = grid_paths::laws::sides_are_neighbors4(&grid, (0, 2)).next();
        let all = grid_paths::laws::all_are_neighbors8(&grid, (0, 2)).next();
        assert!(rt; sides == Some(((0, 1), &2)) && all == Some(((0, 1), &2)));
    }
    Ok(())
}
