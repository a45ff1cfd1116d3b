//! Boards as CSV. A reader of CSV takes long, so few boards are enough.
use crate::state::{Answer, Call, Start, came, number_of};
use grid::{Grid, Order};
use grid_csv::laws::written_and_read;
use grid_csv::{CsvError, from_csv, from_csv_with_header, to_csv, to_csv_with_header};
use std::alloc::AllocError;
use test_support::counted::Counted;

pub const CALLS: [Call; 5] = [
    Call("grid_csv::to_csv", 3, None, Some(1)),
    Call("grid_csv::to_csv_with_header", 3, None, Some(1)),
    Call("grid_csv::from_csv", 5, None, Some(1)),
    Call("grid_csv::from_csv_with_header", 2, None, Some(1)),
    Call("grid_csv::written_and_read", 1, None, None),
];

// Writes a number as a field.
fn put(cell: &u32, field: &mut String) -> Result<(), AllocError> {
    write!(field, "{cell}")
}

// Writes it after forty zeros.
fn put_long(cell: &u32, field: &mut String) -> Result<(), AllocError> {
    field.push_str("0000000000000000000000000000000000000000")?;
    put(cell, field)
}

// Reads a number, whatever else it may find.
fn try_number_of(field: &str) -> Result<Option<u32>, AllocError> {
    Ok(number_of(field))
}

// What the call of this name reads of a sheet.
pub fn cells_of<'a>(
    start: &'a Start,
    name: &str,
    sheet: &[u8],
) -> Result<Grid<Counted<'a>>, CsvError> {
    let read = |field: &str| start.try_number(field);
    if name == "grid_csv::from_csv" {
        return from_csv(start.alloc, sheet, read);
    }
    let (_, cells) = from_csv_with_header(start.alloc, sheet, read)?;
    Ok(cells)
}

// A name for each column, or none.
fn header(start: &Start) -> Result<Vec<String>, AllocError> {
    let mut names = Vec::new(start.alloc);
    for _ in 0..start.size.1 {
        names.push(String::from_str(start.alloc, "a name of more than twenty-four bytes")?)?;
    }
    Ok(names)
}

fn csv_written<'a>(start: &'a Start, name: &str) -> Result<Answer, AllocError> {
    let board = start.numbers()?;
    start.ready();
    if name == "grid_csv::written_and_read" {
        return Ok(came(written_and_read(start.alloc, &board, put, try_number_of)));
    }
    let write = |cell: &u32, field: &mut String| {
        start.called();
        match start.case {
            0 => put(cell, field),
            // (a field that is quoted, and an empty one)
            1 => field.push_str("a, \"b\"\n"),
            _ => Ok(()),
        }
    };
    if name == "grid_csv::to_csv" {
        return Ok(came(to_csv(start.alloc, &board, write)));
    }
    let names = header(start)?;
    Ok(came(to_csv_with_header(start.alloc, names.as_slice(), &board, write)))
}

fn csv_read<'a>(start: &'a Start, name: &str) -> Result<Answer, AllocError> {
    let board = start.numbers()?;
    let text = if name == "grid_csv::from_csv_with_header" {
        let names = header(start)?;
        to_csv_with_header(start.alloc, names.as_slice(), &board, put)?
    } else if start.case == 0 {
        to_csv(start.alloc, &board, put)?
    } else {
        to_csv(start.alloc, &board, put_long)?
    };
    start.ready();
    Ok(came(cells_of(start, name, text.as_str().as_bytes())))
}

// A field that isn't UTF-8, after one that was read.
fn bad_csv_read<'a>(start: &'a Start, name: &str) -> Answer {
    if start.size != (1, 1) {
        return Answer::Skipped;
    }
    start.ready();
    match cells_of(start, name, b"1,\xff\n") {
        Err(
            CsvError::BadField {
                record: 1,
                field: 2,
            },
        ) => Answer::Done,
        Ok(_) => Answer::Wrong,
        read => came(read),
    }
}

// Four quoted fields and line ends of two bytes, a field after a byte order mark, or a header without records.
fn plain_read<'a>(start: &'a Start, name: &str) -> Answer {
    let sheet: &[u8] = match start.size {
        (2, 2) if start.case == 3 => b"\"1\",\"2\"\r\n3,\"4\"",
        (1, 1) if start.case == 4 => b"\xef\xbb\xbf5\n",
        (0, 0) if start.case == 1 => b"a,b\n",
        _ => return Answer::Skipped,
    };
    start.ready();
    came(cells_of(start, name, sheet))
}

pub fn call(start: &Start, name: &str) -> Result<Answer, AllocError> {
    let few = start.order == Order::RowMajor && start.size.0 <= 2 && start.size.1 <= 2;
    if !few {
        return Ok(Answer::Skipped);
    }
    match name {
        "grid_csv::from_csv" if start.case == 1 => Ok(bad_csv_read(start, name)),
        "grid_csv::from_csv" if start.case > 2 => Ok(plain_read(start, name)),
        "grid_csv::from_csv_with_header" if start.case == 1 => Ok(plain_read(start, name)),
        "grid_csv::from_csv" | "grid_csv::from_csv_with_header" => csv_read(start, name),
        name => csv_written(start, name),
    }
}
