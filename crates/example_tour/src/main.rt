#![tactic(auto)]

use anyhow::Result;
use grid::Grid;

fn main(rt: HostRuntime) -> Result<()> {
    let alloc = rt.alloc();

    // Two rows of three zeros. The index is proved to be in range: no check runs.
    let mut board: Grid<u8> = Grid::new(alloc, 2, 3)?;
    board[(1, 2)] = 7;

    // If allocation fails, the error holds the row.
    board.push_row(vec![in alloc; 4, 5, 6]?)?;
    board.rotate_left();
    println!(rt; "{board}")?;

    let seven = board.position(|cell| *cell == 7);
    let near = board.count_neighbors8((1, 1), |cell| 0 < *cell);
    println!(rt; "7 is at {seven:?}; {near} cells around the middle aren't 0")?;

    // One generation of Life.
    let live = board.map_ref(|cell| 0 < *cell)?;
    let next = live.map_counts8(
        |cell| *cell,
        |cell, near| (near == 3) | (*cell & (near == 2)),
    )?;
    println!(rt; "{next:?}")?;
    Ok(())
}
