//! Grids as CSV: each record is a row, and each field a cell.
//!
//! Fields are separated by commas. A field may be in quotes, and may then hold commas, line feeds, and quotes, each
//! written twice. A record ends at a line feed, a carriage return or both, or at the end of the text; blank lines
//! aren't records. A byte order mark at the start is skipped.
#![tactic(auto)]

mod error;
pub mod laws;
mod read;
mod write;

pub use error::CsvError;
pub use read::{from_csv, from_csv_with_header};
pub use write::{to_csv, to_csv_with_header};
