//! Grids that are written out row by row.

#[doc(hidden)]
#[macro_export]
macro_rules! grid_of {
    ($alloc:expr, $order:expr;) => {{
        let mut cells: [[Option<_>; 0]; 0] = [];
        $crate::Grid::from_arrays($alloc, $order, &mut cells)
    }};
    ($alloc:expr, $order:expr; $([$($cell:expr),* $(,)?])+) => {{
        let mut cells = [$([$(Some($cell)),*]),+];
        $crate::Grid::from_arrays($alloc, $order, &mut cells)
    }};
}

/// Returns the row-major grid of these rows, as [`Grid::from_arrays`](crate::Grid::from_arrays) does, in the body of a
/// function. Rows of unequal length don't compile. No rows, or rows without cells, give the empty grid.
///
///     grid!(alloc; [1, 2] [3, 4])   [[1, 2], [3, 4]]
///
/// Fails: as `from_arrays`; the cells are dropped.
#[macro_export]
macro_rules! grid {
    ($alloc:expr; $($rows:tt)*) => {
        $crate::grid_of!($alloc, $crate::Order::RowMajor; $($rows)*)
    };
}

/// Same as [`grid!`], in column-major order. The rows are written out too.
///
///     grid_cm!(alloc; [1, 2] [3, 4])   [[1, 2], [3, 4]]
#[macro_export]
macro_rules! grid_cm {
    ($alloc:expr; $($rows:tt)*) => {
        $crate::grid_of!($alloc, $crate::Order::ColumnMajor; $($rows)*)
    };
}
