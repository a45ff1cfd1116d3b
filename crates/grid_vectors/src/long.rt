//! Long inputs: that calls succeed on them, and that a deferred script turns no cells. No clause says either.
use grid::Grid;
use grid_json::{from_value, to_value};
use grid_play::play;
use std::alloc::{AllocError, Global};
use std::process::Abort;
use std::test::Fail;
use test_support::fixtures::Heap;
use test_support::fuse::Fuse;
use test_support::line_edits::push_row;

// How often the board of the script is turned. At once that would take minutes, a million cells each time.
const TURNS: usize = 90_000;

// A script of more than a megabyte.
fn many_turns(alloc: Global) -> Result<String, AllocError> {
    let mut script = String::from_str(alloc, "RowMajor 1 0\nexpand_rows 999\nexpand_cols 999\n")?;
    for _ in 0..TURNS {
        script.push_str("rotate_left\n")?;
    }
    script.push_str("delete_rows 0 999\ndelete_cols 0 999\n")?;
    Ok(script)
}

// What it writes.
fn many_replies(alloc: Global) -> Result<String, AllocError> {
    let mut output = String::new(alloc);
    for _ in 0..TURNS {
        output.push_str("ok\n")?;
    }
    output.push_str("ok\nok\nyes\nyes\n[[0]]\n")?;
    Ok(output)
}

#[test]
fn deferred_scripts_turn_no_cells(rt: HostRuntime) -> Result<(), Fail> {
    let script = many_turns(rt.alloc())?;
    let output = play(rt.alloc(), script.as_bytes(), true)?;
    assert!(rt; output == many_replies(rt.alloc())?);
    Ok(())
}

#[test]
fn long_values_are_read(rt: HostRuntime) -> Result<(), Fail> {
    let grid = Grid::from_fn(rt.alloc(), 500, 600, |(row, col)| {
        row.wrapping_mul(col) as u32
    })?;
    let value = to_value(rt.alloc(), &grid)?;
    let read: Grid<u32> = from_value(rt.alloc(), &value)?;
    assert!(rt; read == grid);
    Ok(())
}

// Whether five rows are pushed with one request for each, the line's own, after one for all.
fn makes_room(heap: &Heap) -> Result<bool, Fail> {
    let mut grid = Grid::with_capacity(heap, 5, 80)?;
    for _ in 0..5 {
        push_row(&mut grid, Vec::from_elem(heap, 1u8, 80)?)?;
    }
    Ok(heap.granted() == 6)
}

#[test]
fn room_for_all_cells_is_made_once(rt: HostRuntime) -> Result<(), Fail> {
    let heap = Fuse::new(rt.alloc(), 100);
    assert!(rt; makes_room(&heap)?);
    Ok(())
}
