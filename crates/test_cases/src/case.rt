//! How a case is written, and why one has no actual text.
use grid::ShapeError;
use std::alloc::{AllocError, AllocFailed};
use thiserror::Error;

/// Why a case has no actual text.
#[derive(Clone, Copy, Debug, PartialEq, Eq, Error)]
pub enum CaseError {
    #[error("unknown section")]
    UnknownSection,
    #[error("unknown call")]
    UnknownCall,
    #[error("no such board")]
    BadBoard,
    #[error("no such script")]
    BadScript,
    #[error("an argument of the call can't be read")]
    BadArgument,
    #[error("memory allocation failed")]
    Memory,
}

impl From<AllocError> for CaseError {
    fn from(_: AllocError) -> CaseError {
        CaseError::Memory
    }
}

impl<T: Drop> From<AllocFailed<T>> for CaseError {
    fn from(_: AllocFailed<T>) -> CaseError {
        CaseError::Memory
    }
}

/// Returns why cells are no board: want of memory, or the other error.
pub fn shape_error(error: ShapeError, other: CaseError) -> CaseError {
    match error {
        ShapeError::Memory => CaseError::Memory,
        _ => other,
    }
}

/// The text of a case: its title, the lines below it that are given, and the text that is expected.
#[derive(Clone, Copy)]
pub struct Case<'a> {
    pub title: &'a str,
    pub given: &'a str,
    pub expected: &'a str,
}

impl<'a> Case<'a> {
    /// Reads a case: `TITLE => EXPECTED` in one line, or a title, given lines, a line `--` and expected lines, or a
    /// title and expected lines.
    pub fn of(text: &'a str) -> Case<'a> {
        let (title, below) = text.split_once("\n").unwrap_or((text, ""));
        if let Some((title, expected)) = title.split_once(" => ") {
            return Case {
                title,
                given: "",
                expected,
            };
        }
        let (given, expected) = below.split_once("--\n").unwrap_or(("", below));
        Case {
            title,
            given,
            expected,
        }
    }

    /// Returns the first word of the title, and the others.
    pub fn call(&self) -> (&'a str, &'a str) {
        self.title.split_once(" ").unwrap_or((self.title, ""))
    }
}
