//! Boards written as CSV.
ghost use Rattle.std.specs.Prelude.{◌≡◌, ◌++◌, [], ℕ, List, map, IfOk, OnOk, IsUtf8, string_bytes};
ghost use Rattle.grid_csv.specs.Prelude.{AllZip, fields_of, default_writer, row_text, HasWritten, AnswersCell, IsCsv, MayWrite, MayWriteBelow, WritesBy, below_names, sheet_text};

use csv::{ByteRecord, Writer};
use grid_view::{AsView, ViewLineIter};
use std::alloc::{AllocError, Global};

/// Returns the CSV of a grid or of a view: a record for each row, and in it a field for each cell, the text that
/// `write` appends. Fields are in quotes where they have to be, with commas between them, and each record ends in a
/// line feed. No rows are the empty text.
///
///     [[1, 2], [3, 4]]   to_csv(alloc, board, |cell, text| write!(text, "{cell}"))   "1,2\n3,4\n"
///
/// Requires: `write` can be called at every cell.
/// Fails: if allocation fails, also in `write`.
/// Cost: one call for each cell.
pub fn to_csv<T, V: AsView<T>, F>(alloc: Global, board: &V, write: F) -> Result<String, AllocError>
where
    F: Fn(&T, &mut String) -> Result<(), AllocError>,
    requires { F.IsAlwaysCallable write }
    ensures text { (h : T → List ℕ) → WritesBy F.post write h
        → IfOk result (λ text. IsCsv h [] (V.rows board.now) (string_bytes text)) }
    ensures answers { IfOk result (λ text.
        MayWrite (AnswersCell F.post write) (V.rows board.now) (string_bytes text)) }
{
    let mut writer = Writer::from_writer(Vec::new(alloc));
    let mut fields = ByteRecord::new(alloc);
    let mut text = String::new(alloc);
    for row in board.as_view().iter_rows() {
        fill_record(&mut fields, &mut text, row, &write)?;
        write_record(&mut writer, &fields)?;
    }
    text_of(writer)
}

/// Same as [`to_csv`], below a record of these names.
///
///     [[1, 2]]   to_csv_with_header(alloc, ["x", "y"], board, |cell, text| write!(text, "{cell}"))   "x,y\n1,2\n"
///
/// Without names it is the CSV of the board. More or fewer names than columns make records of different lengths.
pub fn to_csv_with_header<T, V: AsView<T>, F>(
    alloc: Global,
    header: &[String],
    board: &V,
    write: F,
) -> Result<String, AllocError>
where
    F: Fn(&T, &mut String) -> Result<(), AllocError>,
    requires { F.IsAlwaysCallable write }
    ensures text { (h : T → List ℕ) → WritesBy F.post write h → IfOk result
        (λ text. IsCsv h (map string_bytes header.now) (V.rows board.now) (string_bytes text)) }
    ensures answers { IfOk result (λ text. MayWriteBelow (AnswersCell F.post write)
        (map string_bytes header.now) (V.rows board.now) (string_bytes text)) }
{
    let mut text = header_text(alloc, header)?;
    text.push_str(to_csv(alloc, board, write)?.as_str())?;
    Ok(text)
}

// The text of a record of names, if there are some.
fn header_text(alloc: Global, header: &[String]) -> Result<String, AllocError>
    ensures { IfOk result
        (λ text. string_bytes text ≡ sheet_text (below_names (map string_bytes header.now) [])) }
{
    if header.is_empty() {
        return Ok(String::new(alloc));
    }
    let mut fields = ByteRecord::new(alloc);
    for name in header {
        fields.push_field(name.as_bytes())?;
    }
    let mut writer = Writer::from_writer(Vec::new(alloc));
    write_record(&mut writer, &fields)?;
    text_of(writer)
}

// Makes the record of the texts of a row's cells.
fn fill_record<T, F>(
    fields: &mut ByteRecord,
    text: &mut String,
    row: ViewLineIter<'_, T>,
    write: &F,
) -> Result<(), AllocError>
where
    F: Fn(&T, &mut String) -> Result<(), AllocError>,
    requires { F.IsAlwaysCallable write.now }
    ensures { OnOk result
        (AllZip (AnswersCell F.post write.now) row.entry (fields_of fields.new)) }
{
    fields.clear();
    for cell in row {
        text.clear();
        write(cell, text)?;
        fields.push_field(text.as_bytes())?;
    }
    Ok(())
}

// Writes a record.
fn write_record(writer: &mut Writer<Vec<u8>>, fields: &ByteRecord) -> Result<(), AllocError>
    ensures { OnOk result ((bytes : List ℕ) → HasWritten writer.old bytes
        → HasWritten writer.new (bytes ++ row_text default_writer (fields_of fields.now))) }
{
    writer
        .write_byte_record(fields)
        .map_err(|_error| AllocError)
}

// Returns what was written, which is text.
fn text_of(writer: Writer<Vec<u8>>) -> Result<String, AllocError>
    requires { (bytes : List ℕ) × HasWritten writer bytes × IsUtf8 bytes }
    ensures { IfOk result (λ text. HasWritten writer (string_bytes text)) }
{
    let Ok(bytes) = writer.into_inner() else {
        return Err(AllocError);
    };
    match String::from_utf8(bytes) {
        Ok(text) => Ok(text),
        Err(_) => unreachable!(),
    }
}
