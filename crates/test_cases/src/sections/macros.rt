//! Boards that are written out by the macros.
use crate::ask::Ask;
use crate::case::CaseError;
use crate::shown::{shown, shown_made};
use grid::{GridView, Order, grid, grid_cm};
use std::alloc::Global;

// Row-major boards.
fn by_rows(alloc: Global, written: &str) -> Result<String, CaseError> {
    match written {
        "[1, 2] [3, 4]" => shown_made(alloc, grid!(alloc; [1u8, 2] [3, 4])),
        "[1, 2, 3]" => shown_made(alloc, grid!(alloc; [1u8, 2, 3])),
        "[]" => shown_made::<u8, _>(alloc, grid!(alloc; [])),
        "[] []" => shown_made::<u8, _>(alloc, grid!(alloc; [] [])),
        "" => shown_made::<u8, _>(alloc, grid!(alloc;)),
        _ => Err(CaseError::UnknownCall),
    }
}

// Column-major boards.
fn by_cols(alloc: Global, written: &str) -> Result<String, CaseError> {
    match written {
        "[1, 2, 3] [4, 5, 6]" => shown_made(alloc, grid_cm!(alloc; [1u8, 2, 3] [4, 5, 6])),
        "[1, 2, 3]" => shown_made(alloc, grid_cm!(alloc; [1u8, 2, 3])),
        "[]" => shown_made::<u8, _>(alloc, grid_cm!(alloc; [])),
        "[] []" => shown_made::<u8, _>(alloc, grid_cm!(alloc; [] [])),
        "" => shown_made::<u8, _>(alloc, grid_cm!(alloc;)),
        _ => texts(alloc, written),
    }
}

fn texts(alloc: Global, written: &str) -> Result<String, CaseError> {
    if written != "[\"a\", \"\"]" {
        return Err(CaseError::UnknownCall);
    }
    shown_made(
        alloc,
        grid_cm!(alloc; [String::from_str(alloc, "a")?, String::new(alloc)]),
    )
}

/// Returns the board of rows that are written out: the text of a case must be that of a macro call here.
pub fn actual(alloc: Global, ask: Ask<'_>) -> Result<String, CaseError> {
    match ask.call {
        "grid!" => by_rows(alloc, ask.rest),
        "grid_cm!" => by_cols(alloc, ask.rest),
        "over" => shown(
            alloc,
            GridView::over(&[1, 2, 3, 4, 5, 6], Order::ColumnMajor, 2, 3),
        ),
        _ => Err(CaseError::UnknownCall),
    }
}
