//! Larger inputs: a path of 77 steps, searches that outgrow the room they begin with, and the words of a failed
//! allocation.
use crate::state::{Answer, Start, came, made};
use crate::texts::DIGIT;
use crate::{copies, makers};
use grid::{Grid, GridError, GridLineIter, Order, ShapeError};
use grid_csv::CsvError;
use grid_json::{ReadError, RowsError};
use grid_lines::sort_rows_by;
use grid_paths::{
    Connectivity, cheapest, cheapest_path, distances, distances_from, regions, shortest_path,
};
use grid_play::ScriptFault;
use grid_pnm::PnmError;
use grid_text::TextError;
use std::alloc::{AllocError, Global};
use std::cell::Cell;
use std::cmp::Ordering;
use std::convert::identity;
use std::fmt::Display;
use std::io;
use test_support::fixtures::{Heap, ORDERS};
use test_support::fuse::Fuse;

// What a call starts from that has memory for all, and a board of this size.
fn ready(alloc: Global, size: (usize, usize)) -> Start {
    let start = Start::new(alloc, size, Order::RowMajor, DIGIT, u64::MAX);
    start.ready();
    start
}

// The side of the board of the long path, and where the path ends.
const SIDE: usize = 12;

const END: (usize, usize) = (11, 0);

// A path that goes along every second row, to the right and to the left in turn: 78 cells.
fn is_free((row, col): (usize, usize)) -> bool {
    row % 2 == 0 || (row % 4 == 1 && col == SIDE - 1) || (row % 4 == 3 && col == 0)
}

const SEARCHES: [&str; 4] = ["distances", "cheapest", "shortest_path", "cheapest_path"];

// Whether a search finds the way from the first cell to the end, of 77 steps that cost 2 each, and looks at no cell
// twice.
fn is_found(maze: &Grid<bool, &Heap>, name: &str) -> Result<bool, AllocError> {
    let calls = Cell::new(0u64);
    let test = |free: &bool| {
        calls.set(calls.get().wrapping_add(1));
        *free
    };
    let cost = |free: &bool| {
        calls.set(calls.get().wrapping_add(1));
        if *free { Some(2) } else { None }
    };
    Ok(match name {
        "distances" => {
            let steps = distances(maze, (0, 0), Connectivity::Four, test)?;
            steps.get_at(END) == Some(&Some(77)) && calls.get() == 144
        }
        "cheapest" => {
            let sums = cheapest(maze, (0, 0), Connectivity::Four, cost)?;
            sums.get_at(END) == Some(&Some(154)) && calls.get() == 144
        }
        "shortest_path" => match shortest_path(maze, (0, 0), END, Connectivity::Four, test)? {
            Some(path) => path.len() == 78 && calls.get() <= 144,
            None => false,
        },
        _ => match cheapest_path(maze, (0, 0), END, Connectivity::Four, cost)? {
            Some((path, sum)) => path.len() == 78 && sum == 154 && calls.get() <= 144,
            None => false,
        },
    })
}

// Searches the way with `granted` requests.
fn walked(heap: &Heap, order: Order, name: &str, granted: u64) -> Result<Answer, AllocError> {
    heap.grant(1);
    let maze = made(Grid::from_fn_with_order(heap, SIDE, SIDE, order, is_free))?;
    heap.grant(granted);
    Ok(match is_found(&maze, name) {
        Ok(true) => Answer::Done,
        Ok(false) => Answer::Wrong,
        Err(_) => Answer::Refused,
    })
}

// Two rows so wide that these outgrow the room that they begin with, where the second row costs more.
const WIDTH: usize = 2100;

const WIDE_SEARCHES: [&str; 5] = [
    "all sums",
    "a dear path",
    "distances from a row",
    "distances from all",
    "a region",
];

fn is_any(_: &bool) -> bool {
    true
}

fn is_cheap(dear: &bool) -> bool {
    !*dear
}

fn cost_of(dear: &bool) -> Option<u32> {
    Some(if *dear { 9999 } else { 1 })
}

fn outgrown(heap: &Heap, name: &str, granted: u64) -> Result<Answer, AllocError> {
    heap.grant(u64::MAX);
    let is_dear = |(row, _): (usize, usize)| name != "a region" && row == 1;
    let wide = made(Grid::from_fn(heap, 2, WIDTH, is_dear))?;
    let starts = if name == "distances from all" {
        wide.positions(heap, is_any)?
    } else {
        wide.positions(heap, is_cheap)?
    };
    heap.grant(granted);
    Ok(match name {
        "all sums" => came(cheapest(&wide, (0, 0), Connectivity::Four, cost_of)),
        "a dear path" => came(cheapest_path(&wide, (0, 0), (1, 0), Connectivity::Four, cost_of)),
        "a region" => came(regions(&wide, Connectivity::Four)),
        _ => came(distances_from(&wide, &starts, Connectivity::Four, is_any)),
    })
}

// Searches with `granted` requests. Whatever came of it, nothing is held in the end.
fn searched(alloc: Global, order: Order, name: &str, granted: u64) -> Result<Answer, AllocError> {
    let heap = Fuse::new(alloc, 0);
    let answer = if WIDE_SEARCHES.contains(&name) {
        outgrown(&heap, name, granted)?
    } else {
        walked(&heap, order, name, granted)?
    };
    Ok(if heap.held() == 0 {
        answer
    } else {
        Answer::Wrong
    })
}

// Searches with memory for all, and with each number of requests up to the first that is enough.
fn try_search<R: Print + AllocGlobal>(rt: &R, order: Order, name: &str) -> io::Result<u64> {
    if searched(rt.alloc(), order, name, u64::MAX)? != Answer::Done {
        println!(rt; "FAILED {name} of a long way, {order:?}, with memory for all")?;
    }
    for granted in 0..32u64 {
        match searched(rt.alloc(), order, name, granted)? {
            Answer::Refused => {}
            Answer::Done => return Ok(granted),
            _ => println!(rt; "FAILED {name} of a long way, {order:?}, {granted} granted")?,
        }
    }
    Ok(32)
}

fn try_searches<R: Print + AllocGlobal>(rt: &R) -> io::Result<()> {
    for name in SEARCHES {
        for order in ORDERS {
            let requests = try_search(rt, order, name)?;
            println!(rt; "{name} of a long way, {order:?}: {requests} requests")?;
        }
    }
    for name in WIDE_SEARCHES {
        let requests = try_search(rt, Order::RowMajor, name)?;
        println!(rt; "{name} of two wide rows: {requests} requests")?;
    }
    Ok(())
}

// Whether a failed allocation becomes this fault, which is told by its words.
fn is_out_of_memory<T: Display + PartialEq + From<AllocError> + Drop>(
    alloc: Global,
    fault: T,
) -> Result<bool, AllocError> {
    let mut text = String::new(alloc);
    write!(&mut text, "{fault}")?;
    Ok(text.as_str() == "out of memory" && fault == T::from(AllocError))
}

fn are_out_of_memory(alloc: Global) -> Result<bool, AllocError> {
    Ok(
        is_out_of_memory(alloc, GridError::Memory)?
            && is_out_of_memory(alloc, ShapeError::Memory)?
            && is_out_of_memory(alloc, TextError::Memory)?
            && is_out_of_memory(alloc, CsvError::Memory)?
            && is_out_of_memory(alloc, PnmError::Memory)?
            && is_out_of_memory(alloc, ReadError::Memory)?
            && is_out_of_memory(alloc, RowsError::Memory)?
            && ScriptFault::from(AllocError) == ScriptFault::Memory,
    )
}

// Compares the first cells of two lines backwards.
fn compared(
    mut a: GridLineIter<'_, (usize, usize)>,
    mut b: GridLineIter<'_, (usize, usize)>,
) -> Ordering {
    b.next().cmp(&a.next())
}

// Sorts a board that is laid out in the other order first, by rows that differ in their first cell.
fn is_sorted(heap: &Heap) -> Result<bool, AllocError> {
    let mut board = made(Grid::from_fn_with_order(heap, 64, 64, Order::ColumnMajor, identity))?;
    sort_rows_by(&mut board, compared)?;
    Ok(board.get(0, 0) == Some(&(63, 0)) && board.order() == Order::ColumnMajor)
}

// Updates the cells of a row that is longer than one that is updated in turn.
fn is_updated(start: &Start) -> Result<bool, AllocError> {
    let mut board = made(makers::of_cells(start, "Grid::from_fn", start.size))?;
    Ok(copies::updated(start, &mut board, "Grid::update") == Answer::Done)
}

fn try_lines<R: Print + AllocGlobal>(rt: &R) -> io::Result<()> {
    let start = ready(rt.alloc(), (1, 40));
    if !is_sorted(&start.heap)? || start.heap.held() != 0 {
        println!(rt; "FAILED sort_rows_by of 64 rows across the storage")?;
    }
    if !is_updated(&start)? || start.heap.held() != 0 {
        println!(rt; "FAILED update of a long row")?;
    }
    Ok(())
}

pub fn try_all<R: Print + AllocGlobal>(rt: &R) -> io::Result<()> {
    try_lines(rt)?;
    try_searches(rt)?;
    if are_out_of_memory(rt.alloc())? {
        println!(rt; "want of memory: 7 faults say so")
    } else {
        println!(rt; "FAILED a fault tells want of memory by other words")
    }
}
