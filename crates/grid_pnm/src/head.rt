//! The header of a picture.
ghost use Rattle.std.specs.Prelude.{◌≡◌, ◌+◌, ◌-◌, ◌≤◌, ◌<◌, length, IfOk, IfSome};
ghost use Rattle.grid_pnm.specs.Prelude.{format_of, header_by, header_of};

use crate::PnmError;
use crate::scan::{is_white, next_number};

/// What a picture says of itself before its samples.
#[derive(Clone, Copy, Debug, PartialEq, Eq, Drop)]
pub struct Header {
    /// Whether a cell has three samples, for red, green and blue, and not one.
    pub color: bool,
    /// Whether the samples are written as decimals, and not as bytes.
    pub plain: bool,
    /// The number of rows.
    pub rows: usize,
    /// The number of columns.
    pub cols: usize,
    /// The greatest sample, which is white: 1 to 255.
    pub max: u8,
    /// The offset of the samples, in bytes.
    pub raster: usize,
}

/// Returns the header of a picture: a magic number, the numbers of columns and rows, and the greatest sample. White
/// space and comments may come before each number; after the last there is one byte of white space, and then the
/// samples.
///
///     read_header(b"P5 # a comment\n640 480\n255\n..")
///         { color: false, plain: false, rows: 480, cols: 640, max: 255, .. }
///
/// Fails: `BadMagic`, `BadNumber`, `BadMax` or `NoSpace`, whichever comes first.
/// Cost: the samples aren't read, and no memory is taken.
#[tactic(auto, unfolding(crate::specs::Header::header_after))]
pub fn read_header(bytes: &[u8]) -> Result<Header, PnmError>
    ensures header { result ≡ header_of bytes.now }
    ensures raster { IfOk result (λ header. header.raster ≤ length bytes.now) }
    ensures max { IfOk result (λ header. 0 < header.max) }
{
    let len = bytes.len();
    let Some(format) = read_format(bytes) else {
        return Err(PnmError::BadMagic);
    };
    let (cols, rest) = next_number(len, &bytes[2..])?;
    let (rows, rest) = next_number(len, rest)?;
    let (max, rest) = next_number(len, rest)?;
    header_by(len, format, Numbers { cols, rows, max }, rest)
}

// What the magic number says.
#[derive(Clone, Copy)]
struct Format {
    color: bool,
    plain: bool,
}

// The numbers after it.
#[derive(Clone, Copy)]
struct Numbers {
    cols: usize,
    rows: usize,
    max: usize,
}

// Returns the format that the magic number at the front stands for.
fn read_format(bytes: &[u8]) -> Option<Format>
    ensures format { result ≡ format_of bytes.now }
    ensures len { IfSome result (λ _. 2 ≤ length bytes.now) }
{
    let (color, plain) = if bytes.starts_with(b"P2") {
        (false, true)
    } else if bytes.starts_with(b"P3") {
        (true, true)
    } else if bytes.starts_with(b"P5") {
        (false, false)
    } else if bytes.starts_with(b"P6") {
        (true, false)
    } else {
        return None;
    };
    Some(Format { color, plain })
}

// Returns the header of a format and these numbers; `rest` is what comes after them.
#[tactic(auto, unfolding(crate::specs::Header::header_by))]
fn header_by(len: usize, format: Format, numbers: Numbers, rest: &[u8]) -> Result<Header, PnmError>
    requires { length rest.now ≤ len }
    ensures header { result ≡ header_by len format numbers rest.now }
    ensures raster { IfOk result (λ header. header.raster ≤ len) }
    ensures max { IfOk result (λ header. 0 < header.max) }
{
    let at = len - rest.len();
    let max = numbers.max;
    if max == 0 || max > 255 {
        return Err(PnmError::BadMax { max, at });
    }
    match rest.first() {
        Some(byte) if is_white(*byte) => Ok(Header {
            color: format.color,
            plain: format.plain,
            rows: numbers.rows,
            cols: numbers.cols,
            max: max as u8,
            raster: at + 1,
        }),
        _ => Err(PnmError::NoSpace { at }),
    }
}
