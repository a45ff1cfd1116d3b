//! Constructors of a grid by its size.
ghost use Rattle.std.specs.Prelude.{◌≡◌, ◌*◌, [], Ok, IfOk, IfErr};
ghost use Rattle.grid.specs.Prelude.{ClonesAreEqual, IsMade, FailsBySize, EachCellIs, HoldsDefaults, CallableOver, MadeBy, FailsAt};

use crate::{Grid, GridError};
use grid_base::{Flat, Layout, Order};
use std::alloc::Allocator;

mod arrays;

// Returns the number of cells of a grid of this size, or `TooLarge` where no `usize` holds it.
fn cell_count(rows: usize, cols: usize) -> Result<usize, GridError>
    ensures count { IfOk result (λ count. count ≡ rows * cols) }
    ensures fails { FailsBySize rows cols result }
{
    rows.checked_mul(cols).ok_or(GridError::TooLarge)
}

impl<T, A: Allocator> Grid<T, A> {
    // Returns the empty grid in this order.
    fn empty_with_order(alloc: A, order: Order) -> Grid<T, A>
        ensures rows { result.rows ≡ [] }
        ensures order { result.order ≡ order }
    {
        Grid::from_vec_with_order(Vec::new(alloc), 0, order)
    }

    /// Returns the row-major grid of this size whose cells are defaults. Without rows or without columns it is the
    /// empty grid.
    ///
    ///     new(alloc, 2, 3)   [[0, 0, 0], [0, 0, 0]]
    ///
    /// Fails: `TooLarge` where `rows * cols` exceeds `usize::MAX`, else `Memory`. Without rows or without columns it
    /// takes no memory and never fails.
    /// Cost: one default for each cell; one allocation.
    pub fn new(alloc: A, rows: usize, cols: usize) -> Result<Grid<T, A>, GridError>
    where
        T: Default,
        ensures made { IfOk result (IsMade Order.RowMajor rows cols) }
        ensures defaults { IfOk result (HoldsDefaults T.is_default) }
        ensures fails { FailsBySize rows cols result }
    {
        Grid::new_with_order(alloc, rows, cols, Order::RowMajor)
    }

    /// Same as [`new`](Grid::new), in this order.
    pub fn new_with_order(
        alloc: A,
        rows: usize,
        cols: usize,
        order: Order,
    ) -> Result<Grid<T, A>, GridError>
    where
        T: Default,
        ensures made { IfOk result (IsMade order rows cols) }
        ensures defaults { IfOk result (HoldsDefaults T.is_default) }
        ensures fails { FailsBySize rows cols result }
    {
        if rows == 0 || cols == 0 {
            return Ok(Grid::empty_with_order(alloc, order));
        }
        let count = cell_count(rows, cols)?;
        let mut cells = Vec::with_capacity(alloc, count)?;
        for _ in 0..count {
            cells.push_reserved(T::default());
        }
        Ok(Grid::from_vec_with_order(cells, cols, order))
    }

    /// Returns the row-major grid of this size whose cells all equal a value. Without rows or without columns it is the
    /// empty grid. The last cell is the value itself.
    ///
    ///     init(alloc, 2, 2, 7)   [[7, 7], [7, 7]]
    ///
    /// Requires: clones of the cell type equal their source. Where they needn't, as for cells that hold a `String`,
    /// call [`try_from_fn`](Grid::try_from_fn) with a closure that clones the value.
    /// Fails: `TooLarge` where `rows * cols` exceeds `usize::MAX`, else `Memory`; the value is dropped. Without rows or
    /// without columns it takes no memory and never fails.
    /// Cost: one clone for each cell but the last; one allocation, and those of the clones.
    pub fn init(alloc: A, rows: usize, cols: usize, value: T) -> Result<Grid<T, A>, GridError>
    where
        T: Clone,
        requires clones { ClonesAreEqual T.is_clone }
        ensures made { IfOk result (IsMade Order.RowMajor rows cols) }
        ensures cells { IfOk result (λ g. EachCellIs value g.rows) }
        ensures fails { FailsBySize rows cols result }
    {
        Grid::init_with_order(alloc, rows, cols, Order::RowMajor, value)
    }

    /// Same as [`init`](Grid::init), in this order.
    pub fn init_with_order(
        alloc: A,
        rows: usize,
        cols: usize,
        order: Order,
        value: T,
    ) -> Result<Grid<T, A>, GridError>
    where
        T: Clone,
        requires clones { ClonesAreEqual T.is_clone }
        ensures made { IfOk result (IsMade order rows cols) }
        ensures cells { IfOk result (λ g. EachCellIs value g.rows) }
        ensures fails { FailsBySize rows cols result }
    {
        if rows == 0 || cols == 0 {
            return Ok(Grid::empty_with_order(alloc, order));
        }
        let count = cell_count(rows, cols)?;
        let cells = Vec::from_elem(alloc, value, count)?;
        Ok(Grid::from_vec_with_order(cells, cols, order))
    }

    /// Returns the row-major grid of this size whose cells are what the closure, called in storage order, returns for
    /// each position. Without rows or without columns it is the empty grid.
    ///
    ///     from_fn(alloc, 2, 3, |(row, col)| 10 * row + col)   [[0, 1, 2], [10, 11, 12]]
    ///
    /// Requires: the closure can be called at each position, where `rows * cols` doesn't exceed `usize::MAX`.
    /// Fails: `TooLarge` where `rows * cols` exceeds `usize::MAX`, else `Memory`; the closure wasn't called. Without
    /// rows or without columns it takes no memory and never fails.
    /// Cost: one call for each cell; one allocation, before the first call.
    pub fn from_fn<F: Fn((usize, usize)) -> T>(
        alloc: A,
        rows: usize,
        cols: usize,
        f: F,
    ) -> Result<Grid<T, A>, GridError>
        requires { CallableOver F.pre f rows cols }
        ensures made { IfOk result (IsMade Order.RowMajor rows cols) }
        ensures cells { IfOk result (λ g. MadeBy F.post f rows cols g.rows) }
        ensures fails { FailsBySize rows cols result }
    {
        Grid::from_fn_with_order(alloc, rows, cols, Order::RowMajor, f)
    }

    /// Same as [`from_fn`](Grid::from_fn), in this order.
    pub fn from_fn_with_order<F: Fn((usize, usize)) -> T>(
        alloc: A,
        rows: usize,
        cols: usize,
        order: Order,
        f: F,
    ) -> Result<Grid<T, A>, GridError>
        requires { CallableOver F.pre f rows cols }
        ensures made { IfOk result (IsMade order rows cols) }
        ensures cells { IfOk result (λ g. MadeBy F.post f rows cols g.rows) }
        ensures fails { FailsBySize rows cols result }
    {
        if rows == 0 || cols == 0 {
            return Ok(Grid::empty_with_order(alloc, order));
        }
        cell_count(rows, cols)?;
        let flat = Flat::from_fn(alloc, Layout { order, rows, cols }, f)?;
        Ok(Grid {
            flat,
            row_count: rows,
            col_count: cols,
            order,
        })
    }

    /// Same as [`from_fn`](Grid::from_fn) with a closure that may fail. `Ok(Err(error))` is its first error, in storage
    /// order; the cells that were made are dropped. `??` propagates either error.
    ///
    ///     try_from_fn(alloc, 2, 3, |(row, col)| Ok(10 * row + col))   Ok(Ok([[0, 1, 2], [10, 11, 12]]))
    ///
    /// Requires: as `from_fn`.
    /// Fails: as `from_fn`.
    /// Cost: one call for each cell, up to the first error; one allocation, before the first call.
    pub fn try_from_fn<E, F: Fn((usize, usize)) -> Result<T, E>>(
        alloc: A,
        rows: usize,
        cols: usize,
        f: F,
    ) -> Result<Result<Grid<T, A>, E>, GridError>
    where
        T: Drop,
        requires { CallableOver F.pre f rows cols }
        ensures made { IfOk result (λ made. IfOk made (IsMade Order.RowMajor rows cols)) }
        ensures cells { IfOk result (λ made. IfOk made
            (λ g. MadeBy (λ f at y. F.post f at (Ok y)) f rows cols g.rows)) }
        ensures failed { IfOk result (λ made. IfErr made
            (FailsAt (F.post f) Order.RowMajor rows cols)) }
        ensures fails { FailsBySize rows cols result }
    {
        Grid::try_from_fn_with_order(alloc, rows, cols, Order::RowMajor, f)
    }

    /// Same as [`try_from_fn`](Grid::try_from_fn), in this order.
    pub fn try_from_fn_with_order<E, F: Fn((usize, usize)) -> Result<T, E>>(
        alloc: A,
        rows: usize,
        cols: usize,
        order: Order,
        f: F,
    ) -> Result<Result<Grid<T, A>, E>, GridError>
    where
        T: Drop,
        requires { CallableOver F.pre f rows cols }
        ensures made { IfOk result (λ made. IfOk made (IsMade order rows cols)) }
        ensures cells { IfOk result (λ made. IfOk made
            (λ g. MadeBy (λ f at y. F.post f at (Ok y)) f rows cols g.rows)) }
        ensures failed { IfOk result (λ made. IfErr made (FailsAt (F.post f) order rows cols)) }
        ensures fails { FailsBySize rows cols result }
    {
        if rows == 0 || cols == 0 {
            return Ok(Ok(Grid::empty_with_order(alloc, order)));
        }
        cell_count(rows, cols)?;
        let made = Flat::try_from_fn(alloc, Layout { order, rows, cols }, f)?;
        match made {
            Ok(flat) => Ok(Ok(Grid {
                flat,
                row_count: rows,
                col_count: cols,
                order,
            })),
            Err(error) => Ok(Err(error)),
        }
    }

    /// Returns an empty row-major grid with room for this many rows and columns.
    ///
    /// Fails: `TooLarge` where `rows * cols` exceeds `usize::MAX`, else `Memory`. Without rows or without columns it
    /// takes no memory and never fails.
    /// Cost: one allocation.
    pub fn with_capacity(alloc: A, rows: usize, cols: usize) -> Result<Grid<T, A>, GridError>
        ensures rows { IfOk result (λ g. g.rows ≡ []) }
        ensures order { IfOk result (λ g. g.order ≡ Order.RowMajor) }
        ensures fails { FailsBySize rows cols result }
    {
        Grid::with_capacity_and_order(alloc, rows, cols, Order::RowMajor)
    }

    /// Same as [`with_capacity`](Grid::with_capacity), in this order.
    pub fn with_capacity_and_order(
        alloc: A,
        rows: usize,
        cols: usize,
        order: Order,
    ) -> Result<Grid<T, A>, GridError>
        ensures rows { IfOk result (λ g. g.rows ≡ []) }
        ensures order { IfOk result (λ g. g.order ≡ order) }
        ensures fails { FailsBySize rows cols result }
    {
        let count = cell_count(rows, cols)?;
        let cells = Vec::with_capacity(alloc, count)?;
        Ok(Grid::from_vec_with_order(cells, 0, order))
    }
}
