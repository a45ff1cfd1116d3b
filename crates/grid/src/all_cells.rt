//! Calls on all cells of a grid: `fill` and `fill_with`, `map`, `map_ref`, `map_indexed` and `try_map_indexed`,
//! `update`.
ghost use Rattle.std.specs.Prelude.{◌≡◌, [], ⊤, length, Ok, IsOk, IfOk, IfErr, OnOk, OnErr};
ghost use Rattle.grid.specs.Prelude.{row_count, col_count, SameSizeAndOrder, storage, MapsTo, CallableAtEach, CallableAtRefs, CallableTimes, Generates, PairsUp, ClonesAreEqual, FnReturnsAt, filled, CallableAtPositions, MappedBy, ReachesThere, ReturnsThere, FailsAt};
ghost use Rattle.grid_commands.specs.declared.error.GridError.TheVariants.{Memory};

use crate::{Grid, GridError};
use grid_base::Layout;
use std::alloc::{AllocError, Allocator};

impl<T, A: Allocator> Grid<T, A> {
    /// Makes every cell the value. The size and the order stay.
    ///
    ///     [[1, 2], [3, 4]]   fill(7)   [[7, 7], [7, 7]]
    ///
    /// Where the cells are `Copy`, [`fill_with(|| value)`](Grid::fill_with) does the same, takes no memory and never
    /// fails. It is faster where the cells take more than 4,096 bytes.
    ///
    /// Requires: clones of the cell type equal their source. Where they needn't, as for cells that hold a `String`,
    /// call [`step`](Grid::step) with [`Command::Fill`](crate::Command::Fill).
    /// Fails: if allocation fails; the grid is unchanged, and the value is dropped. An empty grid takes no memory and
    /// never fails.
    /// Cost: one clone for each cell but the last, all of them before an old cell is dropped; one allocation, of a
    /// second vector, where the cells take more than 4,096 bytes.
    pub fn fill(&mut self, value: T) -> Result<(), AllocError>
    where
        T: Clone,
        A: Clone,
        requires clones { ClonesAreEqual T.is_clone }
        ensures ok { OnOk result (self.new.rows ≡ filled value self.old.rows) }
        ensures order { self.new.order ≡ self.old.order }
        ensures err { OnErr result (self.new ≡ self.old) }
        ensures empty { self.old.rows ≡ [] → IsOk result }
    {
        self.fill_clones(value)
    }

    // Makes every cell a clone of the value, or the value, also where a clone may differ from it.
    pub(crate) fn fill_clones(&mut self, value: T) -> Result<(), AllocError>
    where
        T: Clone,
        A: Clone,
        ensures ok { OnOk result
            (ClonesAreEqual T.is_clone → self.new.rows ≡ filled value self.old.rows) }
        ensures order { self.new.order ≡ self.old.order }
        ensures err { OnErr result (self.new ≡ self.old) }
        ensures empty { self.old.rows ≡ [] → IsOk result }
    {
        self.flat.fill(value)
    }

    /// Replaces each cell by what the closure returns, one call for each cell, in storage order. The size and the order
    /// stay.
    ///
    ///     [[1, 2], [3, 4]]   fill_with(|| { n += 1; n * 10 })   row-major [[10, 20], [30, 40]], where n was 0
    ///
    /// Requires: the closure can be called once for each cell, in turn.
    /// Cost: one call for each cell; no memory. `fill_with(|| value)` of a `Copy` value is as fast as a slice's `fill`.
    pub fn fill_with<F: FnMut() -> T>(&mut self, f: F)
    where
        T: Drop,
        requires { CallableTimes F.pre
            (λ p x q. F.step p x q) f (length (storage self.old.order self.old.rows)) }
        ensures same { SameSizeAndOrder self.old self.new }
        ensures cells { Generates (λ p x q. F.step p x q) f (storage self.new.order self.new.rows) }
    {
        self.flat.fill_with(f);
    }

    /// Returns the grid of what the closure, called in storage order, returns for each cell. The size and the order are
    /// the same.
    ///
    ///     [[1, 2], [3, 4]]   map(|x| x * 10)   [[10, 20], [30, 40]]
    ///
    /// Requires: the closure can be called at each cell, in turn.
    /// Fails: if allocation fails; this grid comes back, and the closure wasn't called.
    /// Cost: one call for each cell; one allocation.
    pub fn map<U, F: FnMut(T) -> U>(self, f: F) -> Result<Grid<U, A>, Grid<T, A>>
    where
        T: Drop,
        A: Clone,
        requires { CallableAtEach F.pre
            (λ p x y q. F.step p x y q) f (storage self.order self.rows) }
        ensures same { IfOk result (SameSizeAndOrder self) }
        ensures cells { IfOk result (λ g. MapsTo
            (λ p x y q. F.step p x y q) f (storage self.order self.rows) (storage g.order g.rows)) }
        ensures refused { IfErr result (λ g. g ≡ self) }
    {
        let (row_count, col_count, order) = (self.row_count, self.col_count, self.order);
        match self.flat.map(f) {
            Ok(flat) => Ok(Grid {
                flat,
                row_count,
                col_count,
                order,
            }),
            Err(flat) => Err(Grid {
                flat,
                row_count,
                col_count,
                order,
            }),
        }
    }

    /// Returns the grid of what the closure, called in storage order, returns for a reference to each cell. The size
    /// and the order are the same.
    ///
    ///     [[1, 2], [3, 4]]   map_ref(|x| *x * 10)   [[10, 20], [30, 40]]
    ///
    /// Requires: the closure can be called at a reference to each cell.
    /// Fails: if allocation fails; the closure wasn't called.
    /// Cost: one call for each cell; one allocation, before the first call.
    pub fn map_ref<U, F: Fn(&T) -> U>(&self, f: F) -> Result<Grid<U, A>, AllocError>
    where
        A: Clone,
        requires { CallableAtRefs F.pre f (storage self.now.order self.now.rows) }
        ensures same { IfOk result (SameSizeAndOrder self.now) }
        ensures cells { IfOk result (λ g. PairsUp
            (FnReturnsAt F.Fn f) (storage self.now.order self.now.rows) (storage g.order g.rows)) }
    {
        let flat = self.flat.map_ref(f)?;
        Ok(Grid {
            flat,
            row_count: self.row_count,
            col_count: self.col_count,
            order: self.order,
        })
    }

    /// Returns the grid of what the closure, called in storage order, returns for each position and a reference to the
    /// cell there. The size and the order are the same.
    ///
    ///     [[1, 2], [3, 4]]   map_indexed(|(row, col), x| row * 10 + col + *x)   [[1, 3], [13, 15]]
    ///
    /// Requires: the closure can be called at each position and a reference to the cell there.
    /// Fails: if allocation fails; the closure wasn't called.
    /// Cost: one call for each cell; one allocation, before the first call.
    pub fn map_indexed<U, F: Fn((usize, usize), &T) -> U>(
        &self,
        f: F,
    ) -> Result<Grid<U, A>, AllocError>
    where
        A: Clone,
        requires { CallableAtPositions F.pre f self.now.rows }
        ensures same { IfOk result (SameSizeAndOrder self.now) }
        ensures cells { IfOk result (λ g. MappedBy F.post f self.now.rows g.rows) }
    {
        let (order, rows, cols) = (self.order, self.row_count, self.col_count);
        let flat = self.flat.map_indexed(Layout { order, rows, cols }, f)?;
        Ok(Grid {
            flat,
            row_count: self.row_count,
            col_count: self.col_count,
            order,
        })
    }

    /// Same as [`map_indexed`](Grid::map_indexed) with a closure that may fail. `Ok(Err(error))` is its first error, in
    /// storage order; the cells that were made are dropped. `??` propagates either error.
    ///
    ///     [[1, 2], [3, 4]]   try_map_indexed(|_, x| 9u8.checked_sub(*x).ok_or("big"))   Ok(Ok([[8, 7], [6, 5]]))
    ///
    /// Requires: as `map_indexed`.
    /// Fails: if allocation fails; the closure wasn't called.
    /// Cost: one call for each cell, up to the first error; one allocation, before the first call.
    pub fn try_map_indexed<U, E, F: Fn((usize, usize), &T) -> Result<U, E>>(
        &self,
        f: F,
    ) -> Result<Result<Grid<U, A>, E>, AllocError>
    where
        A: Clone,
        U: Drop,
        requires { CallableAtPositions F.pre f self.now.rows }
        ensures same { IfOk result (λ made. IfOk made (SameSizeAndOrder self.now)) }
        ensures cells { IfOk result (λ made. IfOk made (λ g.
            MappedBy (λ f at p y. F.post f at p (Ok y)) f self.now.rows g.rows)) }
        ensures failed { IfOk result (λ made. IfErr made (FailsAt
            (ReturnsThere F.post f self.now.rows) self.now.order (row_count self.now.rows)
            (col_count self.now.rows))) }
    {
        let (rows, cols) = self.size();
        let alloc = self.allocator().clone()?;
        let made = Grid::try_from_fn_with_order(
            alloc,
            rows,
            cols,
            self.order(),
            |at|
                requires { ReachesThere F.pre f self.now.rows at }
                ensures { ReturnsThere F.post f self.entry.now.rows at result }
            { f(at, &self[at]) },
        );
        match made {
            Ok(made) => Ok(made),
            Err(_) => Err(AllocError),
        }
    }

    /// Replaces each cell by what the closure returns at its position and a reference to it, in storage order. The size
    /// and the order stay.
    ///
    ///     [[1, 2], [3, 4]]   update(|(row, col), x| row * 10 + col + *x)   [[1, 3], [13, 15]]
    ///
    /// Requires: the closure can be called at each position and a reference to the cell there.
    /// Cost: one call for each cell; no memory.
    pub fn update<F: Fn((usize, usize), &T) -> T>(&mut self, f: F)
    where
        T: Drop,
        requires { CallableAtPositions F.pre f self.old.rows }
        ensures same { SameSizeAndOrder self.old self.new }
        ensures cells { MappedBy F.post f self.old.rows self.new.rows }
    {
        let (order, rows, cols) = (self.order, self.row_count, self.col_count);
        self.flat.update(Layout { order, rows, cols }, f);
    }
}

/// Returns `GridError::Memory`, so that `?` propagates a failed [`map`](Grid::map). The grid is dropped.
impl<T: Drop, A: Allocator> From<Grid<T, A>> for GridError {
    ghost from_gives = { λ _ e. e ≡ Memory };

    fn from(_refused: Grid<T, A>) -> GridError {
        GridError::Memory
    }
}

/// Returns the error, so that `?` propagates a failed [`map`](Grid::map). The grid is dropped.
impl<T: Drop, A: Allocator> From<Grid<T, A>> for AllocError {
    ghost from_gives = { λ _ _. ⊤ };

    fn from(_refused: Grid<T, A>) -> AllocError {
        AllocError
    }
}
