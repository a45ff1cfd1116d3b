//! What a grid is built on: the one vector of its cells with counted swaps, and the eight symmetries of a table
//! with words of moves.
#![tactic(auto)]

mod flat;
pub mod laws;
mod layout;
mod order;
mod tally;
mod whole;
mod words;

pub use flat::{
    Flat, GridLineIter, GridLineIterMut, Groups, IndexedIntoIter, IndexedIter, IndexedIterMut,
    Positions, SteppedIter, clones_of_line, move_last, weave,
};
pub use layout::{Layout, has_lines, strides_of};
pub use order::Order;
pub use tally::Tally;
pub use whole::Whole;
pub use words::{Move, Symmetry, reduce};
