//! JSON with allocation refused cell by cell.
ghost use Rattle.std.specs.Prelude.{◌^◌, pos};
ghost use Rattle.grid_json.specs.Content.{whole, unsigned_content};

use grid::Grid;
use grid_json::{Cell, ReadError, from_value, to_value};
use serde_json::Value;
use std::alloc::{AllocError, Global};
use std::process::Abort;
use std::test::Fail;

// A byte for which there is no memory where it is 13.
#[derive(Clone, Copy)]
struct Scarce(u8);

impl Cell for Scarce {
    ghost content = { λ cell. whole (pos cell.0) };

    ghost read = { unsigned_content (2 ^ 8) };

    fn to_cell(&self, alloc: Global) -> Result<Value, AllocError> {
        if self.0 == 13 {
            return Err(AllocError);
        }
        self.0.to_cell(alloc)
    }

    fn from_cell(alloc: Global, value: &Value) -> Result<Option<Scarce>, AllocError> {
        match u8::from_cell(alloc, value)? {
            Some(13) => Err(AllocError),
            Some(number) => Ok(Some(Scarce(number))),
            None => Ok(None),
        }
    }
}

// Rows of two, whose cells are refused in turn, and the last of which has memory for each cell.
const CELLS: [[u8; 4]; 5] = [
    [13, 2, 3, 4],
    [1, 13, 3, 4],
    [1, 2, 13, 4],
    [1, 2, 3, 13],
    [1, 2, 3, 4],
];

// Whether a grid of these cells is written, and the grid is as before.
fn is_written(rt: &impl Abort, alloc: Global, cells: &[u8; 4]) -> Result<bool, Fail> {
    let mut scarce = Vec::new(alloc);
    for number in cells {
        scarce.push(Scarce(*number))?;
    }
    assert!(rt; scarce.len() % 2 == 0);
    let grid = Grid::from_vec(scarce, 2);
    let written = to_value(alloc, &grid).is_ok();
    for (cell, number) in grid.flatten().iter().zip(cells) {
        assert_eq!(rt; cell.0, *number);
    }
    Ok(written)
}

#[test]
fn refused_at_each_cell_that_is_written(rt: HostRuntime) -> Result<(), Fail> {
    for (index, cells) in CELLS.iter().enumerate() {
        assert_eq!(rt; is_written(&rt, rt.alloc(), cells)?, index == 4);
    }
    Ok(())
}

// Why a text is no grid of such cells.
fn refusal<T: Cell>(alloc: Global, text: &str) -> Result<Option<ReadError>, Fail> {
    let value = Value::from_str(alloc, text)?;
    match from_value::<T>(alloc, &value) {
        Ok(_) => Ok(None),
        Err(refused) => Ok(Some(refused)),
    }
}

const TEXTS: [&str; 4] = [
    "[2,[13,2,3,4]]",
    "[2,[1,13,3,4]]",
    r#"{"cols":2,"data":[1,2,13,4]}"#,
    r#"{"cols":2,"data":[1,2,3,13],"order":"ColumnMajor"}"#,
];

#[test]
fn refused_at_each_cell_that_is_read(rt: HostRuntime) -> Result<(), Fail> {
    for text in TEXTS {
        assert_eq!(rt;
            refusal::<Scarce>(rt.alloc(), text)?,
            Some(ReadError::Memory)
        );
    }
    assert_eq!(rt; refusal::<Scarce>(rt.alloc(), "[2,[1,2,3,4]]")?, None);
    Ok(())
}

// A fault before the refused cell is returned.
#[test]
fn faults_before_the_refused_cell(rt: HostRuntime) -> Result<(), Fail> {
    let early = refusal::<Scarce>(rt.alloc(), "[2,[300,13]]")?;
    assert_eq!(rt; early, Some(ReadError::BadCell(0)));
    let late = refusal::<Scarce>(rt.alloc(), "[-1,[13]]")?;
    assert_eq!(rt; late, Some(ReadError::BadCols));
    Ok(())
}
