//! Conway's Life on a board whose edges meet. A glider crosses the corner and comes home.
//!
//! In four generations a glider goes one row down and one column right, so in 32 it goes once around the 8 rows and 8
//! columns.
#![tactic(auto)]

ghost use Rattle.std.specs.Prelude.{◌≡◌, IfOk};
ghost use Rattle.example_life.specs.Rule.{next_table};

use anyhow::Result;
use grid::Grid;
use std::alloc::{AllocError, Global};

const SIDE: usize = 8;

// The live cells of a glider: their rows and columns.
const GLIDER: [(usize, usize); 5] = [(0, 1), (1, 2), (2, 0), (2, 1), (2, 2)];

// The board with a glider in its upper left corner.
fn glider(alloc: Global) -> Result<Grid<bool>> {
    let mut board = Grid::init(alloc, SIDE, SIDE, false)?;
    for (row, col) in GLIDER {
        if let Some(cell) = board.get_mut(row, col) {
            *cell = true;
        }
    }
    Ok(board)
}

// The board of the next generation.
fn next_generation(board: &Grid<bool>) -> Result<Grid<bool>, AllocError>
    ensures { IfOk result (λ next. next.rows ≡ next_table board.now.rows) }
{
    board.map_wrapped_counts8(
        |live| *live,
        |live, near| (near == 3) | (*live & (near == 2)),
    )
}

fn print_board<R: Print + AllocGlobal>(rt: &R, generation: u32, board: &Grid<bool>) -> Result<()> {
    println!(rt; "generation {generation}")?;
    for row in board.iter_rows() {
        let line: String = row
            .map(|live| if *live { '#' } else { '.' })
            .collect(rt.alloc())?;
        println!(rt; "{line}")?;
    }
    println!(rt;)?;
    Ok(())
}

fn run<R: Print + AllocGlobal>(rt: &R) -> Result<()> {
    let start = glider(rt.alloc())?;
    let mut board = start.clone()?;
    for generation in 0..32u32 {
        if generation == 0 || generation == 4 || generation == 24 {
            print_board(rt, generation, &board)?;
        }
        board = next_generation(&board)?;
    }
    println!(rt; "home after 32 generations: {}", board == start)?;
    Ok(())
}

fn main(rt: HostRuntime) -> Result<()> {
    run(&rt)
}
