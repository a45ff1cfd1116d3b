//! The state of a breadth-first search: the step counts, or labels, and the queue.
ghost use Rattle.std.specs.Prelude.{◌≡◌, IfOk, None, OnOk, Some};
ghost use Rattle.grid_paths.specs.Prelude.{cell, IsBlank, Marks};

use grid::Grid;
use std::alloc::{AllocError, Allocator};

// How many positions a queue has room for from the start: 64 KB. It is twice what waits at once, about 2,000, in a
// search by sides from the middle of an open board of 1,000 rows and columns. The queue grows where it needs to.
pub(crate) const QUEUE_ROOM: usize = 4096;

// The state of a breadth-first search: the step count or label of each position, and the queue of those to go on from.
#[derive(Drop)]
pub(crate) struct Bfs<A: Allocator> {
    pub(crate) numbers: Grid<Option<usize>, A>,
    pub(crate) queue: Vec<(usize, usize), A>,
}

impl<A: Allocator> Bfs<A> {
    // Gives a position that has none this step count or label, and puts it at the end of the queue.
    #[inline(always)]
    pub(crate) fn mark(&mut self, at: (usize, usize), number: usize) -> Result<(), AllocError>
        requires { cell self.old.numbers.rows at.0 at.1 ≡ Some None }
        ensures { OnOk result (Marks at number self.old self.new) }
    {
        self.numbers[at] = Some(number);
        self.queue.push(at)?;
        Ok(())
    }
}

// Nothing reached yet, and an empty queue.
pub(crate) fn new_bfs<T, A: Allocator + Clone>(grid: &Grid<T, A>) -> Result<Bfs<A>, AllocError>
    ensures { IfOk result (λ bfs. IsBlank grid.now bfs) }
{
    let numbers = grid.map_indexed(|_, _| None)?;
    let cells = grid.flatten().len();
    let queue = Vec::with_capacity(grid.allocator().clone()?, cells.min(QUEUE_ROOM))?;
    Ok(Bfs { numbers, queue })
}
