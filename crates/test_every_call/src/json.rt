//! Boards as JSON values.
use crate::state::{Answer, Call, Numbers, Start, came};
use grid::Grid;
use grid_json::laws::written_and_read;
use grid_json::{Cell, RowsError, from_value, rows_from_value, rows_to_value, to_value};
use serde_json::Value;
use std::alloc::AllocError;
use test_support::counted::Counted;

pub const CALLS: [Call; 7] = [
    Call("Cell::to_cell", 4, None, None),
    Call("Cell::from_cell", 4, None, None),
    Call("grid_json::to_value", 1, None, None),
    Call("grid_json::from_value", 5, None, None),
    Call("grid_json::rows_to_value", 1, None, Some(1)),
    Call("grid_json::rows_from_value", 4, None, Some(1)),
    Call("grid_json::written_and_read", 1, None, None),
];

// A cell as a value, and back.
fn cell<T: Cell>(start: &Start, name: &str, cell: &T) -> Answer {
    match cell.to_cell(start.alloc) {
        Ok(value) if name == "Cell::from_cell" => came(T::from_cell(start.alloc, &value)),
        value => came(value),
    }
}

// Each cell of the board as a number, a large or a negative one, or a text.
fn cells(start: &Start, name: &str) -> Result<Answer, AllocError> {
    for number in start.numbers()?.iter() {
        let answer = match start.case {
            0 => cell(start, name, number),
            1 => cell(start, name, &u64::MAX.wrapping_sub(u64::from(*number))),
            2 => cell(start, name, &i64::MIN.wrapping_add(i64::from(*number))),
            _ => cell(start, name, &String::from_str(start.alloc, "a text")?),
        };
        if answer != Answer::Done {
            return Ok(answer);
        }
    }
    Ok(Answer::Done)
}

// The numbers of a board, in storage order.
fn stored_numbers(start: &Start, board: &Numbers<'_>) -> Result<Value, AllocError> {
    let mut numbers = Vec::new(start.alloc);
    for cell in board.iter() {
        numbers.push(Value::from(*cell))?;
    }
    Ok(Value::Array(numbers))
}

// The board as an array of its width, its numbers, and in cases 2 and 3 an order.
fn array_read(start: &Start) -> Result<Answer, AllocError> {
    let board = start.numbers()?;
    let mut items = Vec::new(start.alloc);
    items.push(Value::from(board.cols() as u64))?;
    items.push(stored_numbers(start, &board)?)?;
    if start.case > 1 {
        let name = if start.case == 2 {
            "RowMajor"
        } else {
            "ColumnMajor"
        };
        items.push(Value::String(String::from_str(start.alloc, name)?))?;
    }
    let value = Value::Array(items);
    let read: Result<Grid<u32>, _> = from_value(start.alloc, &value);
    Ok(came(read))
}

// The board as an object, in case 4 without an order.
fn object_read(start: &Start) -> Result<Answer, AllocError> {
    let mut value = to_value(start.alloc, &start.numbers()?)?;
    if let (Some(fields), 4) = (value.as_object_mut(), start.case) {
        let _order = fields.remove("order");
    }
    let read: Result<Grid<u32>, _> = from_value(start.alloc, &value);
    Ok(came(read))
}

// The rows as a value.
fn rows_of(start: &Start, board: &Numbers<'_>) -> Result<Value, AllocError> {
    rows_to_value(start.alloc, board, |cell| {
        start.called();
        Ok(Value::from(*cell))
    })
}

// Cells that are made from the numbers of a value. In case 3 none is a cell.
pub fn cells_of<'a>(start: &'a Start, value: &Value) -> Result<Grid<Counted<'a>>, RowsError> {
    rows_from_value(start.alloc, value, |item| match item.as_u64() {
        Some(_) if start.case != 3 => Ok(Some(start.try_cell(1)?)),
        _ => {
            start.called();
            Ok(None)
        }
    })
}

// One item that the closure, which is asked once, says is no cell.
fn no_cell_read(start: &Start) -> Result<Answer, AllocError> {
    if start.size != (1, 1) {
        return Ok(Answer::Skipped);
    }
    let value = rows_of(start, &start.numbers()?)?;
    start.ready();
    Ok(match cells_of(start, &value) {
        Err(RowsError::BadCell { row: 0, col: 0 }) => Answer::Done,
        Ok(_) => Answer::Wrong,
        read => came(read),
    })
}

// The rows of the board, and in case 1 an item after them that isn't a row, which is told when all cells are read.
fn rows_read(start: &Start) -> Result<Answer, AllocError> {
    let board = start.numbers()?;
    let mut value = rows_of(start, &board)?;
    if let (Some(items), 1) = (value.as_array_mut(), start.case) {
        items.push(Value::Null)?;
    }
    start.ready();
    let read = cells_of(start, &value);
    Ok(match read {
        Err(RowsError::NotRow { row }) if start.case == 1 && row == board.rows() => Answer::Done,
        Ok(_) if start.case == 1 => Answer::Wrong,
        read => came(read),
    })
}

// Two rows without cells.
fn empty_rows_read(start: &Start) -> Result<Answer, AllocError> {
    if start.size != (0, 0) {
        return Ok(Answer::Skipped);
    }
    let mut rows = Vec::new(start.alloc);
    for _ in 0..2usize {
        rows.push(Value::Array(Vec::new(start.alloc)))?;
    }
    let value = Value::Array(rows);
    start.ready();
    let read = cells_of(start, &value);
    Ok(match read {
        Ok(board) if !board.is_empty() => Answer::Wrong,
        read => came(read),
    })
}

fn written(start: &Start, name: &str) -> Result<Answer, AllocError> {
    let board = start.numbers()?;
    start.ready();
    Ok(match name {
        "grid_json::to_value" => came(to_value(start.alloc, &board)),
        "grid_json::rows_to_value" => came(rows_of(start, &board)),
        "grid_json::written_and_read" => came(written_and_read(start.alloc, &board)),
        _ => Answer::Wrong,
    })
}

pub fn call(start: &Start, name: &str) -> Result<Answer, AllocError> {
    match name {
        "Cell::to_cell" | "Cell::from_cell" => cells(start, name),
        "grid_json::from_value" if start.case == 0 || start.case == 4 => object_read(start),
        "grid_json::from_value" => array_read(start),
        "grid_json::rows_from_value" if start.case == 3 => no_cell_read(start),
        "grid_json::rows_from_value" if start.case == 2 => empty_rows_read(start),
        "grid_json::rows_from_value" => rows_read(start),
        name => written(start, name),
    }
}
