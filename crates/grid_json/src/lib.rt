//! Grids as JSON values: a grid is written as an object of `cols`, `data` and `order`, and read from one.
//!
//! A contract sees the content of each cell: an integer, a truth value, or the bytes of a text.
#![tactic(auto)]

mod cell;
mod error;
pub mod laws;
mod read;
mod rows;
mod write;

pub use cell::Cell;
pub use error::{Field, ReadError, RowsError};
pub use read::from_value;
pub use rows::{rows_from_value, rows_to_value};
pub use write::to_value;
