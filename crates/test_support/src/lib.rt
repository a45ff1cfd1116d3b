//! What the tests share: a plain program over tables, which the library is tested against; an allocator that grants a
//! stated number of requests for memory; tables and grids to start from, comparisons, and calls that test their own
//! conditions.
#![tactic(auto)]

pub mod counted;
pub mod fixtures;
pub mod fuse;
pub mod line_edits;
pub mod plain;
