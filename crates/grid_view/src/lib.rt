//! Views of a table that a slice stores: a part of it, seen through a symmetry. No cell is copied and no memory taken.
//! Users make them with a grid's `view` and `part`.
#![tactic(auto)]

mod as_view;
mod axis;
mod cells;
mod copy;
mod display;
mod fold;
mod lines;
mod near;
mod pretty;
mod same;
mod search;
mod text;
mod view;
mod view_mut;

pub use as_view::AsView;
pub use cells::{ViewIndexedIter, ViewIter};
pub use lines::{ViewLineIter, ViewRowIter};
pub use same::same_cells;
pub use view::GridView;
pub use view_mut::GridViewMut;
