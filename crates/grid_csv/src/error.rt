//! The errors of reading CSV.
ghost use Rattle.std.specs.Prelude.{◌≡◌};
ghost use Rattle.grid_csv.specs.declared.error.CsvError.TheVariants.{Memory};

use std::alloc::{AllocError, AllocFailed};
use thiserror::Error;

/// Why CSV could not be read as a grid: the first record that isn't a row. In a record the fields are tested first,
/// then their count.
#[derive(Clone, Copy, Debug, PartialEq, Eq, Error)]
pub enum CsvError {
    /// A field isn't a cell, or isn't text.
    #[error("record {record}, field {field} is no cell")]
    BadField {
        /// The record, counted from 1; a header is record 1.
        record: usize,
        /// The place of the field in the record, counted from 1.
        field: usize,
    },
    /// A record is not as long as the first.
    #[error("record {record} has {len} fields, not {cols}")]
    Ragged {
        /// The record, counted from 1; a header is record 1.
        record: usize,
        /// How many fields it has.
        len: usize,
        /// How many record 1 has.
        cols: usize,
    },
    /// Allocation failed.
    #[error("out of memory")]
    Memory,
}

/// Returns `CsvError::Memory`.
impl From<AllocError> for CsvError {
    ghost from_gives = { λ _ e. e ≡ Memory };

    fn from(_refused: AllocError) -> CsvError {
        CsvError::Memory
    }
}

/// Returns `CsvError::Memory`, and drops what was handed over.
impl<T: Drop> From<AllocFailed<T>> for CsvError {
    ghost from_gives = { λ _ e. e ≡ Memory };

    fn from(_refused: AllocFailed<T>) -> CsvError {
        CsvError::Memory
    }
}
