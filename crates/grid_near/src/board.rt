//! What the counts and the sums over all cells are called with.
ghost use Rattle.std.specs.Prelude.{◌≡◌, ◌*◌, length};

use crate::steps::Connectivity;
use grid_base::Layout;

/// What is next to the cells at an edge of a table.
#[derive(Clone, Copy, Debug, PartialEq, Eq)]
pub enum Edges {
    /// Nothing.
    Open,
    /// The cells at the other edge.
    Joined,
}

/// What [`map_counts`](crate::map_counts) and [`map_sums`](crate::map_sums) are called with: the cells and their
/// layout, the connectivity, what the edges do, and a closure that marks each cell. The slice has as many cells as the
/// layout.
#[derive(Drop)]
pub struct Board<'a, T, F> {
    pub cells: &'a [T],
    pub layout: Layout,
    pub edges: Edges,
    pub connectivity: Connectivity,
    pub mark: &'a F,
    pub ghost filled: { length cells.now ≡ layout.rows * layout.cols },
}
