//! A search that marks the cells which it takes, and floods.
ghost use Rattle.std.specs.Prelude.{◌≡◌, [], IfOk, OnOk, Contains};
ghost use Rattle.std.specs.List.{All};
ghost use Rattle.grid.specs.Prelude.{InRange};
ghost use Rattle.grid_paths.specs.Prelude.{IsStep, answers_by, HoldsOfAnswers, IsFlood, way_of, places, CanUndo, IsPassed, IsWritten, Takes};

use super::answers::answers_of;
use super::around::{Visit, visit_around, visit_each};
use grid::Grid;
use grid_near::Connectivity;
use std::alloc::{AllocError, Allocator};

/// What [`flood`] does at a cell.
#[derive(Clone, Copy, Debug, PartialEq, Eq)]
pub enum Enter {
    /// It stays out.
    No,
    /// It enters, and goes no further.
    Stop,
    /// It enters, and goes on to the cells around.
    On,
}

// Which cells a search takes, and what it writes there.
#[derive(Clone, Copy)]
pub(crate) struct Cells<T: Copy> {
    // It goes on from cells equal to this one.
    pub(crate) on: T,
    // It stops at those equal to this one, if there is one.
    pub(crate) stop: Option<T>,
    pub(crate) mark: T,
}

impl<T: Copy + PartialEq> Cells<T> {
    // What the search does at a cell.
    #[inline(always)]
    fn way_at(&self, cell: &T) -> Enter
        ensures { result ≡ way_of T.eq self.now.on self.now.stop cell.now }
    {
        if *cell == self.on {
            return Enter::On;
        }
        match &self.stop {
            Some(stop) if *cell == *stop => Enter::Stop,
            _ => Enter::No,
        }
    }
}

// A search: the grid, and the cells that it took there, each with its position.
#[derive(Drop)]
pub(crate) struct Taking<'a, T, A: Allocator> {
    pub(crate) grid: &'a mut Grid<T, A>,
    pub(crate) taken: Vec<((usize, usize), T), A>,
}

impl<T: Copy + PartialEq + Drop, A: Allocator> Visit<Cells<T>> for Taking<'_, T, A> {
    ghost can_visit = { λ cells s. IsPassed T.eq cells cells.mark };

    ghost visits = { λ cells at r s s'. CanUndo s s'
        × OnOk r (Takes T.eq cells (λ b. at ≡ b) s s') };

    // Takes a position, if its cell is one of those: keeps the cell, and writes the mark.
    #[inline(always)]
    fn visit(&mut self, at: (usize, usize), cells: Cells<T>) -> Result<(), AllocError> {
        let cell = match self.grid.get(at.0, at.1) {
            Some(cell) => *cell,
            None => return Ok(()),
        };
        if let Enter::No = cells.way_at(&cell) {
            return Ok(());
        }
        self.taken.push((at, cell))?;
        self.grid[at] = cells.mark;
        Ok(())
    }

    ghost again = { λ cells at s s' can took. can };
}

impl<T: Copy + PartialEq + Drop, A: Allocator> Taking<'_, T, A> {
    // Takes the positions around one that was taken, if the search goes on from its cell.
    #[inline(always)]
    fn take_around(
        &mut self,
        connectivity: Connectivity,
        from: ((usize, usize), T),
        cells: Cells<T>,
    ) -> Result<(), AllocError>
        requires at { InRange self.old.grid.now.rows (from.0).0 (from.0).1 }
        requires mark { IsPassed T.eq cells cells.mark }
        ensures kept { CanUndo self.old self.new }
        ensures takes { OnOk result (Takes T.eq cells (λ b.
            (way_of T.eq cells.on cells.stop from.1 ≡ Enter.On) × IsStep connectivity from.0 b)
            self.old self.new) }
    {
        let (at, cell) = from;
        match cells.way_at(&cell) {
            Enter::On => visit_around(self, connectivity, at, cells),
            _ => Ok(()),
        }
    }

    // Takes the positions that walks from some lead to, as far as their cells are those.
    pub(crate) fn take_region(
        &mut self,
        connectivity: Connectivity,
        starts: &[(usize, usize)],
        cells: Cells<T>,
    ) -> Result<(), AllocError>
        requires none { self.old.taken.items ≡ [] }
        requires mark { IsPassed T.eq cells cells.mark }
        ensures kept { CanUndo self.old self.new }
        ensures flood { OnOk result (IsFlood connectivity
            (answers_by (way_of T.eq cells.on cells.stop) self.old.grid.now.rows)
            starts.now (places self.new.taken.items)) }
        ensures written { OnOk result (IsWritten cells.mark
            (λ a. Contains (places self.new.taken.items) a)
            self.old.grid.now.rows self.new.grid.now.rows) }
    {
        // For the proof: it says that the rows are a table.
        let _size = self.grid.size();
        visit_each(self, starts, cells)?;
        let mut next = 0;
        while next < self.taken.len() {
            let from = self.taken[next];
            self.take_around(connectivity, from, cells)?;
            next += 1;
        }
        Ok(())
    }
}

// The positions alone.
fn places_of<T: Copy, A: Allocator>(
    taken: &[((usize, usize), T)],
    alloc: A,
) -> Result<Vec<(usize, usize), A>, AllocError>
    ensures { IfOk result (λ positions. positions.items ≡ places taken.now) }
{
    taken.iter().map(|(at, _)| *at).collect(alloc)
}

/// Returns the positions that walks from some positions lead to. The closure says of each cell whether a walk enters
/// it, and whether it goes on from there. Positions out of range and those of cells that aren't entered lead nowhere;
/// none is returned twice.
///
///     [[0, 0, 1, 0], [1, 1, 1, 0]]   flood(&[(0, 0)], Connectivity::Four, way)
///     [(0, 0), (0, 1), (1, 0), (1, 1), (0, 2)], in some order
///
/// Minesweeper does this: a field that no mine touches opens those around it, a numbered one opens alone.
///
/// Requires: the closure can be called at every cell.
/// Fails: if allocation fails.
/// Cost: one call for each cell; a constant number of steps for each cell and each of the positions; a grid of what the
/// closure said, the positions with these, and the positions.
pub fn flood<T, A: Allocator + Clone, F: Fn(&T) -> Enter>(
    grid: &Grid<T, A>,
    starts: &[(usize, usize)],
    connectivity: Connectivity,
    enter: F,
) -> Result<Vec<(usize, usize), A>, AllocError>
    requires { F.IsAlwaysCallable enter }
    ensures flood { IfOk result (λ found. HoldsOfAnswers F.post enter grid.now.rows (λ ways.
        IsFlood connectivity ways starts.now found.items)) }
    ensures in_range { IfOk result (λ found.
        All (λ at. InRange grid.now.rows at.0 at.1) found.items) }
{
    let mut ways = answers_of(grid, enter)?;
    let taken = Vec::new(grid.allocator().clone()?);
    let cells = Cells {
        on: Enter::On,
        stop: Some(Enter::Stop),
        mark: Enter::No,
    };
    let mut search = Taking {
        grid: &mut ways,
        taken,
    };
    search.take_region(connectivity, starts, cells)?;
    places_of(&search.taken, grid.allocator().clone()?)
}
