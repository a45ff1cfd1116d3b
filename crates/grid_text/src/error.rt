//! The errors of reading text.
ghost use Rattle.std.specs.Prelude.{◌≡◌};
ghost use Rattle.grid_text.specs.declared.error.TextError.TheVariants.{Memory};

use std::alloc::{AllocError, AllocFailed};
use thiserror::Error;

/// Why a text could not be read as a grid: the first line that isn't a row. In a line the characters or words are
/// tested first, then their count.
#[derive(Clone, Copy, Debug, PartialEq, Eq, Error)]
pub enum TextError {
    /// A character isn't a cell.
    #[error("line {line}, column {column}: {found:?} is no cell")]
    BadChar {
        /// The line, counted from 1.
        line: usize,
        /// The place of the character in the line, counted from 1 in characters.
        column: usize,
        /// The character.
        found: char,
    },
    /// A word isn't a cell.
    #[error("line {line}, word {word} is no cell")]
    BadWord {
        /// The line, counted from 1.
        line: usize,
        /// The place of the word in the line, counted from 1.
        word: usize,
    },
    /// A line is not as long as the first.
    #[error("line {line} has {len} cells, not {cols}")]
    Ragged {
        /// The line, counted from 1.
        line: usize,
        /// How many characters or words it has.
        len: usize,
        /// How many line 1 has.
        cols: usize,
    },
    /// Allocation failed.
    #[error("out of memory")]
    Memory,
}

/// Returns `TextError::Memory`.
impl From<AllocError> for TextError {
    ghost from_gives = { λ _ e. e ≡ Memory };

    fn from(_refused: AllocError) -> TextError {
        TextError::Memory
    }
}

/// Returns `TextError::Memory`, and drops what was handed over.
impl<T: Drop> From<AllocFailed<T>> for TextError {
    ghost from_gives = { λ _ e. e ≡ Memory };

    fn from(_refused: AllocFailed<T>) -> TextError {
        TextError::Memory
    }
}
