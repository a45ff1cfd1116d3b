//! Grids read from CSV.
ghost use Rattle.std.specs.Prelude.{◌≡◌, ◌⊎◌, [], ℕ, List, Option, IfOk, IfErr, Ok, Err, MatchResult, Some, length, map, MatchBool, string_bytes};
ghost use Rattle.grid_csv.specs.Prelude.{fields_of, HasLeft, Took, AddsCells, IsMemoryOrBad, AnswersField, IsOrMemory, MayRead, MayReadBelow, ReadsBy, first_of, read_header, reading, reading_below, records_of, width_of, without_header};
ghost use Rattle.grid_csv.specs.declared.error.CsvError.TheVariants.{Memory};

use super::error::CsvError;
use csv::{ByteRecord, Reader, ReaderBuilder};
use grid::{Grid, ShapeError};
use grid_rows::RowsBuilder;
use std::alloc::{AllocError, Global};
use std::str;

/// Returns the row-major grid of the records: each record is a row, and `read` says which cell a field is, or `None`
/// where it isn't one. A field that isn't UTF-8 isn't a cell.
///
///     from_csv(alloc, b"1,\"2\"\n3,4\n", |field| Ok(field.parse::<i64>().ok()))   [[1, 2], [3, 4]]
///
/// A byte order mark at the start, as spreadsheets write one, belongs to no field. Without records it is the empty
/// grid.
///
/// Requires: `read` can be called at every field.
/// Fails: `BadField` or `Ragged` of the first record that isn't a row; its fields are tested before their count.
/// `Memory` if allocation fails, also in `read`.
/// Cost: one call for each field; the vector of cells grows as it is filled.
pub fn from_csv<T: Drop, F>(alloc: Global, bytes: &[u8], read: F) -> Result<Grid<T>, CsvError>
where
    F: Fn(&str) -> Result<Option<T>, AllocError>,
    requires { F.IsAlwaysCallable read }
    ensures reads { (h : List ℕ → Option T) → ReadsBy F.post read h
        → IsOrMemory (reading h (records_of bytes.now)) result }
    ensures answers { MayRead (AnswersField F.post read) 1
        (length (first_of (records_of bytes.now))) (records_of bytes.now) result }
{
    let mut reader = reader_of(alloc, bytes);
    let mut row = ByteRecord::new(alloc);
    let rows = RowsBuilder::new(alloc);
    read_records(rows, 1, &mut reader, &mut row, &read)
}

/// Same as [`from_csv`], of records below a header: also returns the fields of the first record, each as a string.
///
///     from_csv_with_header(alloc, b"x,y\n1,2\n", |field| Ok(field.parse::<i64>().ok()))   ["x", "y"], [[1, 2]]
///
/// A header without records gives the empty grid. Errors count the header as record 1; each record is as long as it is.
pub fn from_csv_with_header<T: Drop, F>(
    alloc: Global,
    bytes: &[u8],
    read: F,
) -> Result<(Vec<String>, Grid<T>), CsvError>
where
    F: Fn(&str) -> Result<Option<T>, AllocError>,
    requires { F.IsAlwaysCallable read }
    ensures header { IfOk result
        (λ sheet. map string_bytes sheet.0.items ≡ first_of (records_of bytes.now)) }
    ensures reads { (h : List ℕ → Option T) → ReadsBy F.post read h
        → IsOrMemory (reading_below h (records_of bytes.now)) (without_header result) }
    ensures answers { MayReadBelow (AnswersField F.post read)
        (records_of bytes.now) (without_header result) }
{
    let mut reader = reader_of(alloc, bytes);
    let mut row = ByteRecord::new(alloc);
    if !next_row(&mut reader, &mut row)? {
        return Ok((Vec::new(alloc), Grid::empty(alloc)));
    }
    let header = header_of(alloc, &row)?;
    let rows = RowsBuilder::with_cols(alloc, row.len());
    let grid = read_records(rows, 2, &mut reader, &mut row, &read)?;
    Ok((header, grid))
}

// A reader of all records of these bytes, of any lengths.
fn reader_of(alloc: Global, bytes: &[u8]) -> Reader<&[u8]>
    ensures { HasLeft result (records_of bytes.now) }
{
    ReaderBuilder::new()
        .has_headers(false)
        .flexible(true)
        .from_reader(alloc, bytes)
}

// Reads the next record, and returns whether there was one. Of bytes in memory, and of records of any lengths, the
// reader fails only if allocation fails.
fn next_row(reader: &mut Reader<&[u8]>, row: &mut ByteRecord) -> Result<bool, CsvError>
    ensures ok { (left : List (List (List ℕ))) → HasLeft reader.old left
        → IfOk result (λ found. MatchBool found
        (Took left (fields_of row.new) reader.new) (left ≡ [])) }
    ensures err { IfErr result (λ e. e ≡ Memory) }
{
    let Ok(found) = reader.read_byte_record(row) else {
        return Err(CsvError::Memory);
    };
    Ok(found)
}

// The cell of a field.
fn cell_of<T, F>(field: &[u8], read: &F) -> Result<Option<T>, AllocError>
where
    F: Fn(&str) -> Result<Option<T>, AllocError>,
    requires { F.IsAlwaysCallable read.now }
    ensures { IfOk result (λ cell. AnswersField F.post read.now field.now cell) }
{
    match str::from_utf8(field) {
        Ok(text) => read(text),
        Err(_) => Ok(None),
    }
}

// The fields of a record as strings.
fn header_of(alloc: Global, row: &ByteRecord) -> Result<Vec<String>, CsvError>
    ensures { MatchResult result
        (λ header. read_header (fields_of row.now) ≡ Ok (map string_bytes header.items))
        (λ e. (e ≡ Memory) ⊎ (read_header (fields_of row.now) ≡ Err e)) }
{
    let mut header = RowsBuilder::new(alloc);
    push_fields(
        &mut header,
        1,
        row,
        &|name: &str| -> Result<Option<String>, AllocError>
            ensures { IfOk result
                (λ cell. (text : _) × (cell ≡ Some text) × (string_bytes text ≡ name.now)) }
        { Ok(Some(String::from_str(alloc, name)?)) },
    )?;
    Ok(header.into_vec())
}

// Adds the cells of the fields of a record.
fn push_fields<T: Drop, F>(
    rows: &mut RowsBuilder<T>,
    number: usize,
    row: &ByteRecord,
    read: &F,
) -> Result<(), CsvError>
where
    F: Fn(&str) -> Result<Option<T>, AllocError>,
    requires { F.IsAlwaysCallable read.now }
    ensures { MatchResult result
        (λ _. AddsCells (AnswersField F.post read.now)
        (fields_of row.now) rows.old rows.new)
        (λ e. IsMemoryOrBad (AnswersField F.post read.now) number (fields_of row.now) e) }
{
    for (index, field) in row.into_iter().enumerate() {
        match cell_of(field, read)? {
            Some(cell) => rows.push(cell)?,
            None => return Err(CsvError::BadField {
                record: number,
                field: index + 1,
            }),
        }
    }
    Ok(())
}

// Returns the grid of the records that are left. The first has this number.
fn read_records<T: Drop, F>(
    mut rows: RowsBuilder<T>,
    first: usize,
    reader: &mut Reader<&[u8]>,
    row: &mut ByteRecord,
    read: &F,
) -> Result<Grid<T>, CsvError>
where
    F: Fn(&str) -> Result<Option<T>, AllocError>,
    requires read { F.IsAlwaysCallable read.now }
    requires none { (rows.rows ≡ []) × (rows.cells ≡ []) }
    ensures { (left : List (List (List ℕ))) → HasLeft reader.old left
        → MayRead (AnswersField F.post read.now) first (width_of rows.cols left) left result }
{
    for number in first..usize::MAX {
        if !next_row(reader, row)? {
            return Ok(rows.into_grid());
        }
        push_fields(&mut rows, number, row, read)?;
        match rows.end_row() {
            Ok(()) => {}
            Err(ShapeError::Ragged { len, cols, .. }) => return Err(CsvError::Ragged {
                record: number,
                len,
                cols,
            }),
            Err(_) => return Err(CsvError::Memory),
        }
    }
    Err(CsvError::Memory)
}
