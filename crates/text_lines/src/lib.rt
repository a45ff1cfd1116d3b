//! Texts cut into lines, and lines into words; and the numbers that words write.
//!
//! A line ends at a line feed, with or without a carriage return before it, or at the end of the text. A line feed at
//! the end of the text begins no line. Words are separated by spaces and tabs.
#![tactic(auto)]

mod lines;
mod numbers;
mod words;

pub use lines::{Lines, cut_line};
pub use numbers::{parse_cell, parse_index};
pub use words::Words;
