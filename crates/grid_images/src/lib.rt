//! Boards up to symmetry: which of the eight images of a board are the same, which is the least, and which boards are
//! images of each other.
//!
//! - The order of boards: [`compare`], by size and then cell by cell.
//! - A key of a board and all its images: [`canonicalize`], or [`least_image`] without a change. Two boards have the
//!   same canonical form exactly if one is an image of the other ([`laws::least_images_agree`]), so a `HashSet` of
//!   canonical forms counts boards up to symmetry.
//! - What leaves a board as it is, its stabilizer: [`symmetries`]. Its different images, its orbit: [`images`].
//! - What takes one board to another: [`symmetry_between`].
//!
//! None of them takes memory. What only reads takes any board by reference ([`AsView`](grid_view::AsView)): a grid, a
//! part or a turned board, a deferred one.
#![tactic(auto)]

mod between;
pub mod laws;
mod least;
mod orbit;
mod order;
mod same;
mod set;

pub use between::symmetry_between;
pub use least::{canonicalize, least_image};
pub use orbit::{images, symmetries};
pub use order::compare;
pub use set::SymmetrySet;
