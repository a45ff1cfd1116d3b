//! A growable two-dimensional container in one flat vector, row by row or column by column.
//!
//! The order is invisible, except where the storage itself is shown: a contract sees a grid as a table, the list of
//! its rows, and an order. Iterators take no memory, copy no cell, and may be dropped early.
//!
//!     rows [[1, 2, 3], [4, 5, 6]]   row-major  1 2 3 | 4 5 6      column-major  1 4 | 2 5 | 3 6
//!
//! The eight symmetries of a table:
//!
//!     Identity   FlipCols   FlipRows   RotateHalf     Transpose  RotateLeft  RotateRight  AntiTranspose
//!      1 2 3      3 2 1      4 5 6       6 5 4           1 4         3 6          4 1           6 3
//!      4 5 6      6 5 4      1 2 3       3 2 1           2 5         2 5          5 2           5 2
//!                                                        3 6         1 4          6 3           4 1
//!
//! The calls of [`Grid`] by theme:
//!
//! - make one: `empty`; `new`, `init`, `from_fn`, `try_from_fn`, `with_capacity`, `from_vec`, `from_arrays`, each in
//!   either order; `grid!`, `grid_cm!`; `TryFrom` a vector and a number of columns, or a list of rows
//! - read: `size`, `rows`, `cols`, `order`, `is_empty`, `get`, `get_at`, `get_clamped`, `get_unchecked`,
//!   `grid[(row, col)]`, `flatten`, `as_slice`, `into_vec`; `contains`, `position`, `positions`, `beside`,
//!   `wrapped_beside`; `can_cut`, `fits_row`, `fits_col`, `allocator`
//! - write: `set`, `set_at`, `get_mut`, `get_mut_at`, `get_unchecked_mut`, `grid[(row, col)] = x`, `as_mut_slice`,
//!   `swap`, `fill`, `fill_with`, `clear`; `view_mut` and `part_mut`, values that a loop writes through
//! - rows and columns: `push_*`, `insert_*`, `pop_*`, `remove_*`, `delete_*`, `expand_*`, `prepend_*`, `append_*`,
//!   `split_off_*`, `resize`
//! - iterate: `iter`, `iter_row`, `iter_col` and their forms for writing, `iter_rows`, `iter_cols`, `indexed_iter`,
//!   `indexed_iter_mut`, `indexed_into_iter`, and a `for` over a grid
//! - the cells around a cell: `neighbors4`, `neighbors8`, `wrapped_neighbors4`, `wrapped_neighbors8`; how many pass a
//!   test, as `count_neighbors8`; a grid of what a closure makes of them, as `map_neighbors8`, or, many times faster,
//!   of their counts and sums, as `map_counts8` and `map_sums8`
//! - views, which copy no cell: `view` and `part`, and `turned`, `get`, `iter_row` and more on a [`GridView`];
//!   [`same_cells`] of two boards of any kind
//! - parts: `sub_grid`, `from_view`, `map_view`, `paste`, `paste_copied`, `paste_clipped`, `fill_part`, `update_part`,
//!   `swap_rows`, `swap_cols`
//! - the whole grid: `map`, `map_ref`, `map_indexed`, `try_map_indexed`, `update`, `clone`, `==`, `Hash`, `Debug`,
//!   `Display`, `pretty`
//! - turn: `transpose`, `flip_rows`, `flip_cols`, `rotate_left`, `rotate_right`, `rotate_half`; `apply` and
//!   `apply_counted` of a [`Symmetry`], one of [`Symmetry::ALL`], to which [`reduce`] brings a list of [`Move`]s;
//!   `lay_out` in an order
//! - commands as data: [`Command`], `step`, [`run`]
#![tactic(auto)]

mod all_cells;
mod command;
mod convert;
mod display;
mod edits;
mod exchange;
mod grid;
mod iterators;
mod macros;
mod neighbors;
mod part_mut;
mod parts;
mod paste;
mod positions;
mod pretty;
mod symmetry;
mod traits;
mod views;

pub use command::run;
pub use convert::can_cut;
pub use edits::GridRefused;
pub use grid::Grid;
pub use grid_base::{
    GridLineIter, GridLineIterMut, IndexedIntoIter, IndexedIter, IndexedIterMut, Move, Order,
    Positions, Symmetry, Tally, Whole, reduce,
};
pub use grid_commands::{
    Axis, Command, GridError, LineRefused, LinesRefused, Refusal, Reply, RunStopped, ShapeError,
};
pub use grid_near::{Direction, Neighbors, WrappedNeighbors};
pub use grid_view::{
    AsView, GridView, GridViewMut, ViewIndexedIter, ViewIter, ViewLineIter, ViewRowIter, same_cells,
};
pub use iterators::{GridColIter, GridRowIter};
