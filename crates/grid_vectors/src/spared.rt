//! Calls that return no `Result`, on counted cells: that each drops what it takes out and nothing else, asks for no
//! memory, and calls its closure as often as it has to. No clause says any of these.
use grid::{Axis, Command, Grid, Order, Reply, Symmetry, Tally};
use grid_deferred::{Deferred, carry, carry_reply};
use grid_lines::{retain_cols, retain_rows, rewrite_rows, roll_rows};
use std::alloc::Global;
use std::cell::Cell;
use std::process::Abort;
use std::test::Fail;
use test_support::counted::Counted;
use test_support::fixtures::{Heap, ORDERS, SYMMETRIES};
use test_support::fuse::Fuse;

type Board<'a> = Grid<Counted<'a>, &'a Heap>;

// The edits, and how many cells of a board of 3 by 4 are left after each.
const EDITS: [(&str, u64); 17] = [
    ("apply", 12),
    ("clear", 0),
    ("delete_col", 9),
    ("delete_cols", 6),
    ("delete_row", 8),
    ("delete_rows", 4),
    ("fill_with", 12),
    ("lines", 12),
    ("retain_cols", 6),
    ("retain_rows", 4),
    ("roll_rows", 12),
    ("set", 12),
    ("set out of range", 12),
    ("set_at", 12),
    ("swap", 12),
    ("update", 12),
    ("update_part", 12),
];

// Makes an edit by its name.
fn edit<'a>(board: &mut Board<'a>, heap: &'a Heap, name: &str) {
    if board.size() != (3, 4) {
        return;
    }
    match name {
        "apply" => board.apply(Symmetry::RotateLeft),
        "clear" => board.clear(),
        "fill_with" => board.fill_with(|| Counted::new(heap, 7)),
        "lines" => rewrite_rows(board, |row| row.reverse()),
        "retain_cols" => retain_cols(
            board,
            |mut col| col.next().is_some_and(|cell| cell.value() < 2),
        ),
        "retain_rows" => retain_rows(
            board,
            |mut row| row.next().is_some_and(|cell| cell.value() < 4),
        ),
        "roll_rows" => roll_rows(board, 2),
        "swap" => board.swap((0, 0), (2, 3)),
        "update" => board.update(|_, cell| Counted::new(heap, cell.value())),
        "update_part" => board.update_part(
            (1, 1),
            (2, 2),
            |_, cell| Counted::new(heap, cell.value()),
        ),
        "set" | "set out of range" | "set_at" => write(board, Counted::new(heap, 7), name),
        _ => delete(board, name),
    }
}

// Writes a cell.
fn write<'a>(board: &mut Board<'a>, cell: Counted<'a>, name: &str) {
    let _before = match name {
        "set" => board.set(2, 3, cell),
        "set out of range" => board.set(3, 0, cell),
        _ => board.set_at((0, 1), cell),
    };
}

// Deletes lines.
fn delete(board: &mut Board<'_>, name: &str) {
    let _were_there = match name {
        "delete_col" => board.delete_col(1),
        "delete_cols" => board.delete_cols(1, 2),
        "delete_row" => board.delete_row(1),
        _ => board.delete_rows(0, 2),
    };
}

// A board of 3 by 4 with the cells 0 to 11, row by row.
fn numbered<'a>(heap: &'a Heap, order: Order) -> Result<Board<'a>, Fail> {
    Ok(Grid::from_fn_with_order(heap, 3, 4, order, |(row, col)| {
        Counted::new(heap, (row % 3 * 4 + col % 4) as u32)
    })?)
}

// How many cells there are after an edit, how many cells and blocks its heap holds, and for how many blocks it asked.
fn after(heap: &Heap, order: Order, name: &str) -> Result<(usize, u64, u64), Fail> {
    heap.grant(u64::MAX);
    let mut board = numbered(heap, order)?;
    heap.grant(u64::MAX);
    edit(&mut board, heap, name);
    Ok((board.iter().count(), heap.held(), heap.granted()))
}

fn check_edits(rt: &impl Abort, alloc: Global, order: Order) -> Result<(), Fail> {
    let heap = Fuse::new(alloc, 0);
    for (name, left) in EDITS {
        let (len, held, asked) = after(&heap, order, name)?;
        assert!(rt;
            (len as u64, held.wrapping_sub(left), asked) == (left, 1, 0),
            "{name} {order:?}: {len} cells, {held} held, {asked} asked"
        );
        assert_eq!(rt; heap.held(), 0, "{name} {order:?}");
    }
    Ok(())
}

#[test]
fn edits_drop_what_they_take_out_and_take_no_memory(rt: HostRuntime) -> Result<(), Fail> {
    for order in ORDERS {
        check_edits(&rt, rt.alloc(), order)?;
    }
    Ok(())
}

// The calls, and how often each calls its closure on a board of 3 by 4.
const CALLS: [(&str, u64); 8] = [
    ("position", 7),
    ("position of none", 12),
    ("count_neighbors4", 4),
    ("count_neighbors8", 8),
    ("count_neighbors4 at a corner", 2),
    ("count_neighbors8 at a corner", 3),
    ("count_wrapped_neighbors4", 4),
    ("count_wrapped_neighbors8", 8),
];

// How often a call by its name calls its closure, on a board whose cells are 0 to 11, row by row.
fn calls_of(grid: &Grid<u32>, name: &str) -> u64 {
    if grid.size() != (3, 4) {
        return 0;
    }
    let wanted = if name == "position of none" { 20 } else { 6 };
    let calls = Cell::new(0u64);
    let test = |cell: &u32| {
        calls.set(calls.get().wrapping_add(1));
        *cell == wanted
    };
    let _found = match name {
        "count_neighbors4" => grid.count_neighbors4((1, 1), test),
        "count_neighbors8" => grid.count_neighbors8((1, 1), test),
        "count_neighbors4 at a corner" => grid.count_neighbors4((2, 0), test),
        "count_neighbors8 at a corner" => grid.count_neighbors8((0, 3), test),
        "count_wrapped_neighbors4" => grid.count_wrapped_neighbors4((0, 0), test),
        "count_wrapped_neighbors8" => grid.count_wrapped_neighbors8((0, 0), test),
        _ => grid.position(test).map_or(0, |(row, _)| row),
    };
    calls.get()
}

#[test]
fn closures_are_called_once_for_each_cell(rt: HostRuntime) -> Result<(), Fail> {
    for order in ORDERS {
        let grid = Grid::from_fn_with_order(rt.alloc(), 3, 4, order, |(row, col)| {
            (row % 3 * 4 + col % 4) as u32
        })?;
        for (name, calls) in CALLS {
            assert_eq!(rt; calls_of(&grid, name), calls, "{name} {order:?}");
        }
    }
    Ok(())
}

// Two rows of three cells, to be inserted.
fn two_rows(heap: &Heap) -> Result<Command<u32, &Heap>, Fail> {
    let mut lines = Vec::with_capacity(heap, 2)?;
    lines.push(Vec::from_slice(heap, &[1, 2, 3])?)?;
    lines.push(Vec::from_slice(heap, &[4, 5, 6])?)?;
    Ok(Command::InsertRows(1, lines))
}

// Whether lines are carried through a symmetry, and a reply back, without a request for memory.
fn carries(heap: &Heap, symmetry: Symmetry) -> Result<bool, Fail> {
    heap.grant(u64::MAX);
    let command = two_rows(heap)?;
    let line = Vec::from_slice(heap, &[7, 8])?;
    heap.grant(u64::MAX);
    let carried = carry(symmetry, (3, 3), command);
    let reply = carry_reply(symmetry, Axis::Row, Reply::Line(Some(line)));
    let kept = matches!(
        carried,
        Command::InsertRows(_, _) | Command::InsertCols(_, _)
    );
    Ok(kept && matches!(reply, Reply::Line(Some(_))) && heap.granted() == 0)
}

// Whether a deferred board of 3 by 4 is turned and read without a request for memory.
fn defers(heap: &Heap, order: Order) -> Result<bool, Fail> {
    heap.grant(u64::MAX);
    let mut board = numbered(heap, order)?;
    heap.grant(u64::MAX);
    let mut deferred = Deferred::over(&mut board);
    let mut tally = Tally::new();
    let applied = deferred.step(Command::Apply(Symmetry::RotateLeft), &mut tally);
    let last = deferred.get(3, 2).map_or(0, |cell| cell.value());
    let turned = deferred.size() == (4, 3) && last == 8;
    let _pending = deferred.release();
    Ok(matches!(applied, Ok(Reply::Done)) && turned && heap.granted() == 0)
}

#[test]
fn lines_are_carried_and_boards_deferred_without_memory(rt: HostRuntime) -> Result<(), Fail> {
    let heap = Fuse::new(rt.alloc(), 0);
    for symmetry in SYMMETRIES {
        assert!(rt; carries(&heap, symmetry)?, "{symmetry:?}");
    }
    for order in ORDERS {
        assert!(rt; defers(&heap, order)?, "{order:?}");
    }
    assert_eq!(rt; heap.held(), 0);
    Ok(())
}
