//! Sums of the parts of a board of whole numbers, each in four reads: a summed-area table, or integral image.
//!
//! - Made once from a board: [`Sums::of`], or [`Sums::of_by`] with the number of each cell from a closure.
//! - Then asked as often as wanted: [`Sums::sum`], [`Sums::get_sum`], [`Sums::total`], [`Sums::mean`].
//!
//! A board is what lends itself as a view ([`AsView`](grid_view::AsView)): a grid, a view, as a part of a grid, or a
//! deferred one, by reference.
#![tactic(auto)]

mod sums;

pub use sums::Sums;
