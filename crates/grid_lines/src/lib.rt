//! Rows and columns by their content: kept, sorted, rolled, written, rewritten one by one; a grid as vectors of its
//! rows.
#![tactic(auto)]

mod across;
mod indices;
mod retain;
mod rewrite;
mod roll;
mod rows;
mod set;
mod sort;
mod write;

pub use retain::{retain_cols, retain_rows};
pub use rewrite::{rewrite_cols, rewrite_rows};
pub use roll::{roll_cols, roll_rows};
pub use rows::{into_rows, to_rows};
pub use set::{set_col, set_row};
pub use sort::{sort_cols_by, sort_cols_by_key, sort_rows_by, sort_rows_by_key};
pub use write::{write_col, write_row};
