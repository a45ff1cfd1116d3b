//! The cells around a cell of a table that a slice stores, row by row, on a table with edges or on one whose edges
//! meet. Users call them as methods of a grid.
#![tactic(auto)]

mod board;
mod count;
mod counts;
mod direction;
pub mod laws;
mod neighbors;
mod steps;
mod strided;

pub use board::{Board, Edges};
pub use count::count_near;
pub use counts::{map_counts, map_sums};
pub use direction::Direction;
pub use neighbors::{Neighbors, WrappedNeighbors, neighbors_in, neighbors_of};
pub use steps::Connectivity;
pub use strided::Strided;
