//! Conversions of vectors and of lists of rows.
use crate::ask::Ask;
use crate::case::CaseError;
use crate::shown::{shown, shown_board, shown_made};
use grid::{Grid, ShapeError, can_cut};
use grid_rows::RowsBuilder;
use std::alloc::{AllocError, Global};
use std::convert::TryFrom;

// The cells, moved or lent, in rows of some length.
fn pair(alloc: Global, ask: Ask<'_>) -> Result<String, CaseError> {
    let flat = ask.line(alloc)?;
    let cols = ask.number(0);
    match ask.call {
        "cells" => shown_made(alloc, Grid::try_from((flat, cols))),
        "cells_lent" => shown_made(alloc, Grid::try_from((&flat, cols))),
        "cells_and_length_lent" => shown_made(alloc, Grid::try_from((&flat, &cols))),
        _ => Err(CaseError::UnknownCall),
    }
}

// The rows, each lent, in this order or last first.
fn rows_lent(alloc: Global, rows: &Vec<Vec<i64>>, last_first: bool) -> Result<String, CaseError> {
    let lent: Result<Vec<&Vec<i64>>, AllocError> = if last_first {
        rows.iter().rev().collect(alloc)
    } else {
        rows.iter().collect(alloc)
    };
    shown_made(alloc, Grid::try_from(&lent?))
}

fn push_cells(builder: &mut RowsBuilder<i64>, row: &Vec<i64>) -> Result<(), AllocError> {
    for cell in row {
        builder.push(*cell)?;
    }
    Ok(())
}

// The rows cell by cell, and the cells of one that isn't ended.
fn built(
    mut builder: RowsBuilder<i64>,
    rows: &Vec<Vec<i64>>,
    open: Option<&Vec<i64>>,
) -> Result<RowsBuilder<i64>, ShapeError> {
    for row in rows {
        push_cells(&mut builder, row)?;
        builder.end_row()?;
    }
    if let Some(row) = open {
        push_cells(&mut builder, row)?;
    }
    Ok(builder)
}

// The grid of a builder, or its cells.
fn built_text(
    alloc: Global,
    ask: Ask<'_>,
    rows: &Vec<Vec<i64>>,
    open: Option<&Vec<i64>>,
) -> Result<String, CaseError> {
    let builder = match ask.call {
        "cell_by_cell_of" => RowsBuilder::with_cols(alloc, ask.number(0)),
        _ => RowsBuilder::new(alloc),
    };
    match built(builder, rows, open) {
        Ok(builder) if ask.word(0) == "vec" => shown(alloc, builder.into_vec()),
        Ok(builder) => shown_board(alloc, &builder.into_grid()),
        Err(error) => shown(alloc, error),
    }
}

// The rows cell by cell. Below `cell_by_cell_open` the last row isn't ended.
fn cell_by_cell(alloc: Global, ask: Ask<'_>) -> Result<String, CaseError> {
    let mut rows = ask.lines(alloc)?;
    if ask.call == "cell_by_cell_open" {
        let open = rows.pop();
        built_text(alloc, ask, &rows, open.as_ref())
    } else {
        built_text(alloc, ask, &rows, None)
    }
}

// The rows, lent as a list or one by one.
fn lent(alloc: Global, call: &str, rows: &Vec<Vec<i64>>) -> Result<String, CaseError> {
    match call {
        "list_lent" => shown_made(alloc, Grid::try_from(rows)),
        "rows_lent" => rows_lent(alloc, rows, false),
        "rows_lent_last_first" => rows_lent(alloc, rows, true),
        _ => Err(CaseError::UnknownCall),
    }
}

/// Returns what a conversion made.
pub fn actual(alloc: Global, ask: Ask<'_>) -> Result<String, CaseError> {
    match ask.call {
        "rows" => shown_made(alloc, Grid::try_from(ask.lines(alloc)?)),
        "rows_into" => shown_made::<i64, _>(alloc, ask.lines(alloc)?.try_into()),
        "list_lent" | "rows_lent" | "rows_lent_last_first" => {
            lent(alloc, ask.call, &ask.lines(alloc)?)
        }
        "cell_by_cell" | "cell_by_cell_open" | "cell_by_cell_of" => cell_by_cell(alloc, ask),
        "can_cut" => shown(alloc, can_cut(ask.number(0), ask.number(1))),
        _ => pair(alloc, ask),
    }
}
