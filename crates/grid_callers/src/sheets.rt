//! Callers of `grid_csv`.
ghost use Rattle.std.specs.Prelude.{◌≡◌, ◌++◌, [], Ok, IfOk, OnOk, map, string_bytes};
ghost use Rattle.std.specs.Fmt.{signed_decimal};
ghost use Rattle.text_lines.specs.Numbers.{cell_of};
ghost use Rattle.grid_csv.specs.Reading.{IsOrMemory, reading, reading_below, records_of, without_header};
ghost use Rattle.grid_csv.specs.Writing.{IsCsv};

use grid::Grid;
use grid_csv::laws::written_and_read;
use grid_csv::{CsvError, from_csv, from_csv_with_header, to_csv, to_csv_with_header};
use std::alloc::{AllocError, Allocator, Global};
use text_lines::parse_cell;

// The number that a field writes, if it is one.
fn number(field: &str) -> Result<Option<i64>, AllocError>
    ensures { result ≡ Ok (cell_of field.now) }
{
    Ok(parse_cell(field))
}

/// Reads a sheet of numbers.
pub fn numbers(alloc: Global, bytes: &[u8]) -> Result<Grid<i64>, CsvError>
    ensures { IsOrMemory (reading cell_of (records_of bytes.now)) result }
{
    from_csv(alloc, bytes, number)
}

// Appends a cell to the text of its field.
fn put(cell: &String, text: &mut String) -> Result<(), AllocError>
    ensures { OnOk result (string_bytes text.new ≡ string_bytes text.old ++ string_bytes cell.now) }
{
    text.push_str(cell.as_str())
}

/// Writes a sheet of strings.
pub fn strings_text<A: Allocator>(
    alloc: Global,
    sheet: &Grid<String, A>,
) -> Result<String, AllocError>
    ensures { IfOk result
        (λ text. IsCsv string_bytes [] sheet.now.rows (string_bytes text)) }
{
    to_csv(alloc, sheet, put)
}

/// Reads a sheet of numbers below a header.
pub fn headed_numbers(alloc: Global, bytes: &[u8]) -> Result<(Vec<String>, Grid<i64>), CsvError>
    ensures { IsOrMemory (reading_below cell_of (records_of bytes.now)) (without_header result) }
{
    from_csv_with_header(alloc, bytes, number)
}

/// Returns the sheet that is read from the CSV of one.
pub fn strings_again<A: Allocator>(
    alloc: Global,
    sheet: &Grid<String, A>,
) -> Result<Grid<String>, CsvError> {
    written_and_read(alloc, sheet, put, |field| {
        Ok(Some(String::from_str(alloc, field)?))
    })
}

// Appends a number to the text of its field.
fn put_number(cell: &i64, text: &mut String) -> Result<(), AllocError>
    ensures { OnOk result
        (string_bytes text.new ≡ string_bytes text.old ++ signed_decimal cell.now) }
{
    write!(text, "{cell}")
}

/// Writes a sheet of numbers below a header.
pub fn headed_text<A: Allocator>(
    alloc: Global,
    header: &[String],
    sheet: &Grid<i64, A>,
) -> Result<String, AllocError>
    ensures { IfOk result (λ text.
        IsCsv signed_decimal (map string_bytes header.now) sheet.now.rows (string_bytes text)) }
{
    to_csv_with_header(alloc, header, sheet, put_number)
}
