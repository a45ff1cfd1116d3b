//! Calls on all cells of a `Flat`.
ghost use Rattle.std.specs.Prelude.{[], ◌≡◌, ◌+◌, ◌*◌, ◌<◌, ◌≤◌, length, replicate, take, zip, vec_len, vec_capacity, Ok, IsOk, IfOk, IfErr, OnOk, OnErr};
ghost use Rattle.grid_base.specs.Prelude.{FnReturnsAt, MapsTo, CallableAtEach, CallableAtRefs, CallableTimes, CallableAtCells, CallableAtItems, ReturnsAtCell, Generates, PairsUp, FailsFirst, CallableFrom, CallableAtTable, PairsUpTable, UpdatedFrom, positions_of, lines_of, ClonesAreEqual};

use super::Flat;
use super::positions::Positions;
use super::refill::refill;
use crate::Layout;
use core::slots::has_room;
use std::alloc::{AllocError, Allocator};

// Shorter lines are read in one loop over all cells. 8,192 bytes in lines of 24, in one loop and line by line: by a
// closure that ignores the position 0.25 and 1.8 us, by one that uses it 8.7 and 2.0 us; in lines of 32 0.25 and 0.4
// us, 8.3 and 0.7 us.
const LONG_LINE: usize = 32;

impl<T, A: Allocator> Flat<T, A> {
    /// Returns what the closure returns at each position of a table, in storage order.
    ///
    /// Requires: the closure can be called at each position.
    /// Fails: if allocation fails; the closure wasn't called.
    /// Cost: one call for each cell; one allocation, before the first call.
    pub fn from_fn<F: Fn((usize, usize)) -> T>(
        alloc: A,
        layout: Layout,
        f: F,
    ) -> Result<Flat<T, A>, AllocError>
        requires calls { CallableAtItems F.pre f (positions_of layout) }
        ensures len { IfOk result (λ g. length g ≡ layout.rows * layout.cols) }
        ensures cells { IfOk result (λ g. PairsUp (F.post f) (positions_of layout) g) }
    {
        let (lines, width) = layout.lines();
        let mut cells = Vec::with_capacity(alloc, layout.len())?;
        for line in 0..lines {
            // lines of one or two cells, whose count is a constant, become one loop, in vector code
            cells = match width {
                1 => push_line(cells, layout, line, 1, &f),
                2 => push_line(cells, layout, line, 2, &f),
                _ => push_line(cells, layout, line, width, &f),
            };
        }
        Ok(Flat { cells })
    }

    /// Same as [`from_fn`](Flat::from_fn) with a closure that may fail: its first error comes back, and the cells that
    /// were made are dropped.
    ///
    /// Requires: as `from_fn`.
    /// Fails: if allocation fails; the closure wasn't called.
    /// Cost: one call for each cell, up to the first error; one allocation, before the first call.
    pub fn try_from_fn<E, F: Fn((usize, usize)) -> Result<T, E>>(
        alloc: A,
        layout: Layout,
        f: F,
    ) -> Result<Result<Flat<T, A>, E>, AllocError>
    where
        T: Drop,
        requires calls { CallableAtItems F.pre f (positions_of layout) }
        ensures len { IfOk result (λ made. IfOk made (λ g. length g ≡ layout.rows * layout.cols)) }
        ensures cells { IfOk result (λ made. IfOk made
            (PairsUp (λ at y. F.post f at (Ok y)) (positions_of layout))) }
        ensures failed { IfOk result (λ made. IfErr made
            (FailsFirst (F.post f) (positions_of layout))) }
    {
        let mut cells = Vec::with_capacity(alloc, layout.len())?;
        let positions = Positions::new(layout);
        for at in positions {
            match f(at) {
                Ok(cell) => cells.push_reserved(cell),
                Err(error) => return Ok(Err(error)),
            }
        }
        Ok(Ok(Flat { cells }))
    }

    /// Makes every cell a clone of the value, or the value. Where a cell is `Copy`, [`fill_with`](Flat::fill_with) of a
    /// closure that returns the value does the same, takes no memory and can't fail.
    ///
    /// If clones of the cell type equal their source, every cell equals the value then.
    ///
    /// Fails: if allocation fails; the cells are unchanged, and the value is dropped. Without cells it takes no memory
    /// and never fails.
    /// Cost: one clone for each cell but the last, all of them before an old cell is dropped; one allocation, of a
    /// second vector, where the cells take more than 4,096 bytes.
    pub fn fill(&mut self, value: T) -> Result<(), AllocError>
    where
        T: Clone,
        A: Clone,
        ensures ok { OnOk result
            (ClonesAreEqual T.is_clone → self.new ≡ replicate (length self.old) value) }
        ensures len { OnOk result (length self.new ≡ length self.old) }
        ensures err { OnErr result (self.new ≡ self.old) }
        ensures none { length self.old ≡ 0 → IsOk result }
    {
        let len = self.cells.len();
        if len == 0 {
            return Ok(());
        }
        if has_room(self.cells.as_slice(), len) {
            return refill(self.cells.as_mut_slice(), value);
        }
        let alloc = self.cells.allocator().clone()?;
        self.cells = Vec::from_elem(alloc, value, len)?;
        Ok(())
    }

    /// Replaces each cell by what the closure returns, in order.
    ///
    /// Requires: the closure can be called once for each cell, in turn.
    /// Cost: one call for each cell; no memory.
    pub fn fill_with<F: FnMut() -> T>(&mut self, mut f: F)
    where
        T: Drop,
        requires { CallableTimes F.pre (λ p x q. F.step p x q) f (length self.old) }
        ensures len { length self.new ≡ length self.old }
        ensures cells { Generates (λ p x q. F.step p x q) f self.new }
    {
        let cells = self.cells.as_mut_slice();
        for cell in cells.iter_mut() {
            *cell = f();
        }
    }

    /// Returns what the closure returns at each cell, in order.
    ///
    /// Requires: the closure can be called at each cell, in turn.
    /// Fails: if allocation fails; these cells come back, and the closure wasn't called.
    /// Cost: one call for each cell; one allocation.
    pub fn map<U, F: FnMut(T) -> U>(self, mut f: F) -> Result<Flat<U, A>, Flat<T, A>>
    where
        T: Drop,
        A: Clone,
        requires { CallableAtEach F.pre (λ p x y q. F.step p x y q) f self }
        ensures len { IfOk result (λ g. length g ≡ length self) }
        ensures cells { IfOk result (λ g. MapsTo (λ p x y q. F.step p x y q) f self g) }
        ensures refused { IfErr result (λ g. g ≡ self) }
    {
        let alloc = match self.cells.allocator().clone() {
            Ok(alloc) => alloc,
            Err(_) => return Err(self),
        };
        let mut mapped = match Vec::with_capacity(alloc, self.cells.len()) {
            Ok(room) => room,
            Err(_) => return Err(self),
        };
        let Flat { cells } = self;
        for cell in cells {
            mapped.push_reserved(f(cell));
        }
        Ok(Flat { cells: mapped })
    }

    /// Returns what the closure returns at a reference to each cell, in order.
    ///
    /// Requires: the closure can be called at a reference to each cell.
    /// Fails: if allocation fails; the closure wasn't called.
    /// Cost: one call for each cell; one allocation, before the first call.
    pub fn map_ref<U, F: Fn(&T) -> U>(&self, f: F) -> Result<Flat<U, A>, AllocError>
    where
        A: Clone,
        requires { CallableAtRefs F.pre f self.now }
        ensures len { IfOk result (λ g. length g ≡ length self.now) }
        ensures cells { IfOk result (λ g. PairsUp (FnReturnsAt F.Fn f) self.now g) }
    {
        let alloc = self.cells.allocator().clone()?;
        let mut mapped = Vec::with_capacity(alloc, self.cells.len())?;
        for cell in self.cells.as_slice() {
            mapped.push_reserved(f(cell));
        }
        Ok(Flat { cells: mapped })
    }

    /// Returns what the closure returns at each position of a table, and a reference to the cell there.
    ///
    /// Requires: the vector has as many cells as the layout, and the closure can be called at each position and its
    /// cell.
    /// Fails: if allocation fails; the closure wasn't called.
    /// Cost: one call for each cell; one allocation, before the first call.
    pub fn map_indexed<U, F: Fn((usize, usize), &T) -> U>(
        &self,
        layout: Layout,
        f: F,
    ) -> Result<Flat<U, A>, AllocError>
    where
        A: Clone,
        requires cells { length self.now ≡ layout.rows * layout.cols }
        requires calls { CallableAtCells F.pre f (zip (positions_of layout) self.now) }
        ensures len { IfOk result (λ g. length g ≡ length self.now) }
        ensures cells { IfOk result (λ g.
            PairsUp (ReturnsAtCell F.post f) (zip (positions_of layout) self.now) g) }
    {
        let alloc = self.cells.allocator().clone()?;
        let room = Vec::with_capacity(alloc, self.cells.len())?;
        let (_, width) = layout.lines();
        let cells = if width < LONG_LINE {
            map_in_turn(room, self.cells.as_slice(), layout, &f)
        } else {
            map_by_line(room, self.cells.as_slice(), layout, &f)
        };
        Ok(Flat { cells })
    }

    /// Replaces each cell of a table by what the closure returns at its position and a reference to it, in order.
    ///
    /// Requires: the vector has as many cells as the layout, and the closure can be called at each position and its
    /// cell.
    /// Cost: one call for each cell; no memory.
    pub fn update<F: Fn((usize, usize), &T) -> T>(&mut self, layout: Layout, f: F)
    where
        T: Drop,
        requires cells { length self.old ≡ layout.rows * layout.cols }
        requires calls { CallableAtCells F.pre f (zip (positions_of layout) self.old) }
        ensures len { length self.new ≡ length self.old }
        ensures cells { PairsUp (ReturnsAtCell F.post f) (zip (positions_of layout) self.old)
            self.new }
    {
        let (_, width) = layout.lines();
        let cells = self.cells.as_mut_slice();
        if width < LONG_LINE {
            update_in_turn(cells, layout, &f);
        } else {
            update_by_line(cells, layout, &f);
        }
    }
}

// Replaces each cell of a table by what the closure returns at its position and a reference to it, in one loop. It is
// vectorised where the closure doesn't look at the position.
fn update_in_turn<T: Drop, F: Fn((usize, usize), &T) -> T>(cells: &mut [T], layout: Layout, f: &F)
    requires { CallableAtTable F.pre f.now layout cells.old }
    ensures { PairsUpTable (ReturnsAtCell F.post f.now) layout cells.old cells.new }
{
    let mut left = Positions::new(layout);
    for cell in cells.iter_mut() {
        let at = left.pass();
        *cell = f(at, cell);
    }
}

// Does the same, line by line along the storage. Where the closure doesn't look at the position and a cell is a byte,
// the compiler joins the fills of the lines into one.
fn update_by_line<T: Drop, F: Fn((usize, usize), &T) -> T>(cells: &mut [T], layout: Layout, f: &F)
    requires { CallableAtTable F.pre f.now layout cells.old }
    ensures { PairsUpTable (ReturnsAtCell F.post f.now) layout cells.old cells.new }
{
    let (lines, _) = layout.lines();
    for line in 0..lines {
        update_line(cells, layout, line, f);
    }
}

// Replaces the cells of a line along the storage in the same way.
fn update_line<T: Drop, F: Fn((usize, usize), &T) -> T>(
    cells: &mut [T],
    layout: Layout,
    line: usize,
    f: &F,
)
    requires cells { length cells.old ≡ layout.rows * layout.cols }
    requires line { line < (lines_of layout).0 }
    requires calls { CallableFrom F.pre f.now
        (positions_of layout) cells.old (line * (lines_of layout).1) }
    ensures { UpdatedFrom (ReturnsAtCell F.post f.now) (positions_of layout) cells.old
        (line * (lines_of layout).1) ((line + 1) * (lines_of layout).1) cells.new }
{
    let (_, width) = layout.lines();
    let start = line * width;
    for k in 0..width {
        let at = layout.at(line, k);
        cells[start + k] = f(at, &cells[start + k]);
    }
}

// Appends what the closure returns at each position of the next line along the storage. Such a loop is vectorised, and
// one over all positions isn't.
fn push_line<T, A: Allocator, F: Fn((usize, usize)) -> T>(
    mut cells: Vec<T, A>,
    layout: Layout,
    line: usize,
    width: usize,
    f: &F,
) -> Vec<T, A>
    requires line { line < (lines_of layout).0 }
    requires width { width ≡ (lines_of layout).1 }
    requires calls { CallableAtItems F.pre f.now (positions_of layout) }
    requires room { layout.rows * layout.cols ≤ vec_capacity cells }
    requires passed { vec_len cells ≡ line * (lines_of layout).1 }
    requires answers { PairsUp
        (F.post f.now) (take (vec_len cells) (positions_of layout)) cells.items }
    ensures room { vec_capacity result ≡ vec_capacity cells }
    ensures passed { vec_len result ≡ vec_len cells + (lines_of layout).1 }
    ensures answers { PairsUp
        (F.post f.now) (take (vec_len result) (positions_of layout)) result.items }
{
    for k in 0..width {
        let at = layout.at(line, k);
        cells.push_reserved(f(at));
    }
    cells
}

// Appends what the closure returns at each position and a reference to its cell, in one loop, which is vectorised where
// the closure doesn't look at the position. By value, as in `with_defaults`.
fn map_in_turn<T, U, A: Allocator, F: Fn((usize, usize), &T) -> U>(
    mut made: Vec<U, A>,
    cells: &[T],
    layout: Layout,
    f: &F,
) -> Vec<U, A>
    requires table { CallableAtTable F.pre f.now layout cells.now }
    requires room { (made.items ≡ []) × (length cells.now ≤ vec_capacity made) }
    ensures len { length result.items ≡ length cells.now }
    ensures cells { PairsUpTable (ReturnsAtCell F.post f.now) layout cells.now result.items }
{
    let mut left = Positions::new(layout);
    for cell in cells {
        let at = left.pass();
        made.push_reserved(f(at, cell));
    }
    made
}

// Does the same, line by line along the storage.
fn map_by_line<T, U, A: Allocator, F: Fn((usize, usize), &T) -> U>(
    mut made: Vec<U, A>,
    cells: &[T],
    layout: Layout,
    f: &F,
) -> Vec<U, A>
    requires table { CallableAtTable F.pre f.now layout cells.now }
    requires room { (made.items ≡ []) × (length cells.now ≤ vec_capacity made) }
    ensures len { length result.items ≡ length cells.now }
    ensures cells { PairsUpTable (ReturnsAtCell F.post f.now) layout cells.now result.items }
{
    let (lines, _) = layout.lines();
    for line in 0..lines {
        push_mapped(&mut made, cells, layout, line, f);
    }
    made
}

// Appends what the closure returns at each position of the next line along the storage, and a reference to the cell
// there.
fn push_mapped<T, U, A: Allocator, F: Fn((usize, usize), &T) -> U>(
    mapped: &mut Vec<U, A>,
    cells: &[T],
    layout: Layout,
    line: usize,
    f: &F,
)
    requires table { CallableAtTable F.pre f.now layout cells.now }
    requires line { line < (lines_of layout).0 }
    requires room { layout.rows * layout.cols ≤ vec_capacity mapped.old }
    requires passed { vec_len mapped.old ≡ line * (lines_of layout).1 }
    requires answers { PairsUp (ReturnsAtCell F.post f.now)
        (take (vec_len mapped.old) (zip (positions_of layout) cells.now)) mapped.old.items }
    ensures room { vec_capacity mapped.new ≡ vec_capacity mapped.old }
    ensures passed { vec_len mapped.new ≡ vec_len mapped.old + (lines_of layout).1 }
    ensures answers { PairsUp (ReturnsAtCell F.post f.now)
        (take (vec_len mapped.new) (zip (positions_of layout) cells.now)) mapped.new.items }
{
    let (_, width) = layout.lines();
    let start = line * width;
    for k in 0..width {
        let at = layout.at(line, k);
        mapped.push_reserved(f(at, &cells[start + k]));
    }
}
