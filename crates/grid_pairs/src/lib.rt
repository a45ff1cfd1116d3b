//! Two boards at once, the tiles and windows of a board, one value for each line, and where a pattern stands.
//!
//! - Two boards of one size: [`zip_with`] makes a grid of each two cells, [`update_with`] replaces the cells of one.
//! - Parts as views: [`tiles`] cuts a board, [`windows`] gives every part of a size.
//! - A value for each line, as a sum: [`fold_rows`], [`fold_cols`]; one for all cells: [`fold_cells`].
//! - The first part that is a pattern: [`find`].
//!
//! A board is what lends itself as a view ([`AsView`](grid_view::AsView)): a grid, a view, as a part of a grid, or a
//! deferred one, by reference.
#![tactic(auto)]

mod fold;
mod parts;
mod search;
mod update;
mod zip;

pub use fold::{fold_cells, fold_cols, fold_rows};
pub use parts::{IntoView, PartIter, tiles, windows};
pub use search::find;
pub use update::update_with;
pub use zip::zip_with;
