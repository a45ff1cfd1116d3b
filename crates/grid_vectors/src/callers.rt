//! A caller whose result no clause says.
use grid::Grid;
use grid_callers::loops::flood;
use std::test::Fail;

#[test]
fn floods_what_is_joined_by_sides(rt: HostRuntime) -> Result<(), Fail> {
    let mut grid = Grid::from_vec(vec![in rt.alloc(); 1u8, 1, 2, 2, 1, 1]?, 3);
    flood(rt.alloc(), &mut grid, (0, 0), 7)?;
    assert_eq!(rt; grid.flatten().as_slice(), [7, 7, 2, 2, 7, 7].as_slice());
    Ok(())
}
