//! The texts of what calls return.
use crate::case::CaseError;
use grid::Grid;
use std::alloc::{AllocError, Allocator, Global};
use std::fmt::Debug;

/// Returns a text.
pub fn text(alloc: Global, text: &str) -> Result<String, CaseError> {
    Ok(String::from_str(alloc, text)?)
}

/// Returns the text of what a call returned.
pub fn shown<T: Debug + Drop>(alloc: Global, returned: T) -> Result<String, CaseError> {
    Ok(format!(in alloc; "{returned:?}")?)
}

/// Returns the text of what a call returned that fails only by memory.
pub fn shown_ok<T: Debug + Drop>(
    alloc: Global,
    returned: Result<T, AllocError>,
) -> Result<String, CaseError> {
    shown(alloc, returned?)
}

/// Returns the text of a board: its size, its order and its storage.
pub fn shown_board<T: Debug, A: Allocator>(
    alloc: Global,
    board: &Grid<T, A>,
) -> Result<String, CaseError> {
    Ok(format!(in alloc;
        "{:?} {:?} {:?}",
        board.size(),
        board.order(),
        board.flatten()
    )?)
}

/// Returns the text of a board that a call made, or of the error.
pub fn shown_made<T: Debug + Drop, E: Debug + Drop>(
    alloc: Global,
    made: Result<Grid<T>, E>,
) -> Result<String, CaseError> {
    match made {
        Ok(board) => shown_board(alloc, &board),
        Err(error) => shown(alloc, error),
    }
}

/// Returns the actual text of a case or of a call, or that of the error.
pub fn shown_actual(
    alloc: Global,
    actual: Result<String, CaseError>,
) -> Result<String, AllocError> {
    match actual {
        Ok(actual) => Ok(actual),
        Err(error) => format!(in alloc; "error: {error}"),
    }
}

/// Returns the actual text of one of several runs, after its name where the text isn't the expected one.
pub fn shown_run(
    alloc: Global,
    run: &str,
    actual: String,
    expected: &str,
) -> Result<String, AllocError> {
    if actual.as_str() == expected {
        return Ok(actual);
    }
    format!(in alloc; "{run}:\n{actual}")
}
