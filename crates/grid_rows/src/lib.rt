//! A grid that is read row by row, whatever the format.
//!
//! [`RowsBuilder`] takes the cells of a row one by one, says where a row is ragged, and becomes a grid.
#![tactic(auto)]

mod builder;

pub use builder::RowsBuilder;
