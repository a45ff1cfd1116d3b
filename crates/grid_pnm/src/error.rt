//! The errors of reading pictures.
ghost use Rattle.std.specs.Prelude.{◌≡◌};
ghost use Rattle.grid_pnm.specs.declared.error.PnmError.TheVariants.{Memory};

use std::alloc::{AllocError, AllocFailed};
use thiserror::Error;

/// Why bytes could not be read as a picture: the first fault from the front. Offsets are counted from 0, in bytes.
#[derive(Clone, Copy, Debug, PartialEq, Eq, Error)]
pub enum PnmError {
    /// The bytes begin with none of the magic numbers that the call reads.
    #[error("no magic number of such a picture at byte 0")]
    BadMagic,
    /// There is no number here, or one above `usize::MAX`.
    #[error("no number at byte {at}")]
    BadNumber {
        /// The first byte that is neither white space nor in a comment.
        at: usize,
    },
    /// The greatest sample is not from 1 to 255.
    #[error("the greatest sample is {max}, not 1 to 255, before byte {at}")]
    BadMax {
        /// The greatest sample that the header says.
        max: usize,
        /// The byte after it.
        at: usize,
    },
    /// There is no white space after the greatest sample.
    #[error("no white space at byte {at}")]
    NoSpace {
        /// The byte after the greatest sample.
        at: usize,
    },
    /// The raster has fewer bytes than a picture of this size has samples.
    #[error("too few bytes from byte {at} on for {rows} rows of {cols} cells")]
    Short {
        /// Where the raster begins.
        at: usize,
        /// The number of rows that the header says.
        rows: usize,
        /// The number of columns that it says.
        cols: usize,
    },
    /// A sample is above the greatest.
    #[error("the sample {sample} at byte {at} is above {max}")]
    AboveMax {
        /// The sample.
        sample: usize,
        /// Where it is.
        at: usize,
        /// The greatest sample that the header says.
        max: u8,
    },
    /// Allocation failed.
    #[error("out of memory")]
    Memory,
}

/// Returns `PnmError::Memory`.
impl From<AllocError> for PnmError {
    ghost from_gives = { λ _ e. e ≡ Memory };

    fn from(_refused: AllocError) -> PnmError {
        PnmError::Memory
    }
}

/// Returns `PnmError::Memory`, and drops what was handed over.
impl<T: Drop> From<AllocFailed<T>> for PnmError {
    ghost from_gives = { λ _ e. e ≡ Memory };

    fn from(_refused: AllocFailed<T>) -> PnmError {
        PnmError::Memory
    }
}
