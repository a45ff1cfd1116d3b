//! Grids as text: each line is a row, and each character, or each word, a cell.
//!
//! A line ends at a line feed, with or without a carriage return before it, or at the end of the text. A line feed at
//! the end of the text adds no row. A blank line is a row without cells, as an empty list is in [`Grid`](grid::Grid)'s
//! `TryFrom`: among rows with cells it is ragged, and a text of blank lines is the empty grid.
#![tactic(auto)]

mod error;
pub mod laws;
mod read;
mod write;

pub use error::TextError;
pub use read::{from_text, from_words, try_from_words};
pub use write::{to_text, to_words};
