//! Shortest paths over the cells of a grid, and its connected regions.
//!
//! - How far: [`distances`] from a position, [`distances_from`] the nearest of several.
//! - By which path: [`shortest_path`].
//! - Where each cell has a cost: [`cheapest`], [`cheapest_path`].
//! - What is connected: [`regions`], [`fill_region`]; with a border, [`flood`].
//!
//! [`Connectivity`] says which steps there are: to the four cells that share a side with a cell, or to the eight that
//! share a side or a corner. [`laws`] ties them to `neighbors4` and `neighbors8`.
#![tactic(auto)]

mod answers;
mod around;
mod bfs;
mod cheap_path;
mod costs;
pub mod laws;
mod numbered;
mod path;
mod region;
mod search;
mod taken;
mod width;

pub use cheap_path::cheapest_path;
pub use costs::cheapest;
pub use grid_near::Connectivity;
pub use numbered::regions;
pub use path::shortest_path;
pub use region::fill_region;
pub use search::{distances, distances_from};
pub use taken::{Enter, flood};
