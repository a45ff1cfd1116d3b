//! What the calls start from, what they come to, and whether a board is as it was made.
use grid::{Grid, GridError, GridRefused, LineRefused, LinesRefused, Order, RunStopped};
use std::alloc::{AllocError, Allocator, Global};
use std::cell::Cell;
use test_support::counted::Counted;
use test_support::fixtures::Heap;
use test_support::fuse::Fuse;

pub type Board<'a> = Grid<Counted<'a>, &'a Heap>;

// A board of cells that are copied, on the same memory.
pub type Numbers<'a> = Grid<u32, &'a Heap>;

pub type Line<'a> = Vec<Counted<'a>, &'a Heap>;

// A call: its name, how many cases it has, and for each case that isn't refused how many requests it makes on a board
// with cells, and how often it calls its closure for each cell, where its documentation says so.
#[derive(Clone, Copy)]
pub struct Call(
    pub &'static str,
    pub usize,
    pub Option<u64>,
    pub Option<u64>,
);

// What a call came to.
#[derive(Clone, Copy, PartialEq, Eq)]
pub enum Answer {
    Done,
    // It found no memory, and all that was handed over came back.
    Refused,
    // It found no memory after it had done a part, which its contract tells.
    Stopped,
    // It is no call on this board.
    Skipped,
    // What it returned is wrong.
    Wrong,
}

// What a call starts from: a board of this size and order, where `granted` requests are granted.
#[derive(Drop)]
pub struct Start {
    pub alloc: Global,
    pub heap: Heap,
    pub size: (usize, usize),
    pub order: Order,
    pub case: usize,
    pub granted: u64,
    pub calls: Cell<u64>,
    pub refusals: Cell<u64>,
    pub last: Cell<u64>,
    pub strays: Cell<u64>,
}

// The number that is written by these digits, or nothing.
pub fn number_of(word: &str) -> Option<u32> {
    word.parse::<u32>().ok()
}

// The length of a line that fits: as the board's, or two cells for an empty board.
pub fn fitting(len: usize) -> usize {
    if len == 0 { 2 } else { len }
}

// The number of the cell at a position.
pub fn number((row, col): (usize, usize)) -> u32 {
    (row % 10 * 10 + col % 10 + 1) as u32
}

impl Start {
    // That of a call whose requests are refused until it is made ready.
    pub fn new(
        alloc: Global,
        size: (usize, usize),
        order: Order,
        case: usize,
        granted: u64,
    ) -> Start {
        Start {
            alloc,
            heap: Fuse::new(alloc, 0),
            size,
            order,
            case,
            granted,
            calls: Cell::new(0),
            refusals: Cell::new(0),
            last: Cell::new(0),
            strays: Cell::new(0),
        }
    }

    // Grants all requests, to make what is handed over.
    pub fn prepare(&self) {
        self.heap.grant(u64::MAX);
    }

    // Grants the requests of the call, which comes next.
    pub fn ready(&self) {
        self.calls.set(0);
        self.heap.grant(self.granted);
    }

    // Counts a call of a closure, and makes a cell of this number.
    pub fn cell<'a>(&'a self, number: u32) -> Counted<'a> {
        self.called();
        Counted::new(&self.heap, number)
    }

    // The same of a cell that may be refused, which is counted too.
    pub fn try_cell<'a>(&'a self, number: u32) -> Result<Counted<'a>, AllocError> {
        self.called();
        let made = Counted::try_new(&self.heap, number);
        if made.is_err() {
            self.refusals.set(self.refusals.get().wrapping_add(1));
        }
        made
    }

    // Makes a cell of the number that this word is, which may be refused, or nothing.
    pub fn try_number<'a>(&'a self, word: &str) -> Result<Option<Counted<'a>>, AllocError> {
        match number_of(word) {
            Some(number) => Ok(Some(self.try_cell(number)?)),
            None => {
                self.called();
                Ok(None)
            }
        }
    }

    // Notes that a closure is called at the cell of this number, which comes after the last one in this order.
    pub fn visited(&self, order: Order, number: u32) {
        let (row, col) = (number.wrapping_sub(1) / 10, number.wrapping_sub(1) % 10);
        let rank = u64::from(match order {
            Order::RowMajor => number,
            Order::ColumnMajor => col.wrapping_mul(10).wrapping_add(row).wrapping_add(1),
        });
        if rank <= self.last.get() {
            self.strays.set(self.strays.get().wrapping_add(1));
        }
        self.last.set(rank);
    }

    // The same in storage order, and makes a cell of this number.
    pub fn visit<'a>(&'a self, number: u32) -> Counted<'a> {
        self.visited(self.order, number);
        self.cell(number)
    }

    // A cell that is handed over, and counted by the heap alone.
    pub fn given<'a>(&'a self, number: u32) -> Counted<'a> {
        Counted::new(&self.heap, number)
    }

    // Counts a call of a closure.
    pub fn called(&self) {
        self.calls.set(self.calls.get().wrapping_add(1));
    }

    // The line of `len` cells.
    pub fn line<'a>(&'a self, len: usize) -> Result<Line<'a>, AllocError> {
        let mut line = Vec::with_capacity(&self.heap, len)?;
        for col in 0..len {
            line.push(Counted::new(&self.heap, number((0, col))))?;
        }
        Ok(line)
    }

    // `count` lines of `len` cells.
    pub fn lines<'a>(
        &'a self,
        count: usize,
        len: usize,
    ) -> Result<Vec<Line<'a>, &'a Heap>, AllocError> {
        let mut lines = Vec::with_capacity(&self.heap, count)?;
        for _ in 0..count {
            lines.push(self.line(len)?)?;
        }
        Ok(lines)
    }

    // The board of this size and order, whose vector has no room to spare.
    pub fn board<'a>(
        &'a self,
        size: (usize, usize),
        order: Order,
    ) -> Result<Board<'a>, AllocError> {
        let board = Grid::from_fn_with_order(
            &self.heap,
            size.0,
            size.1,
            order,
            |at| Counted::new(&self.heap, number(at)),
        );
        made(board)
    }

    // The numbers of the board.
    pub fn numbers<'a>(&'a self) -> Result<Numbers<'a>, AllocError> {
        let (rows, cols) = self.size;
        made(Grid::from_fn_with_order(&self.heap, rows, cols, self.order, number))
    }
}

// Whether a line has its first cells as they were made, and `len` of them.
pub fn is_line(line: &Line<'_>, len: usize) -> bool {
    for col in 0..line.len() {
        match line.get(col) {
            Some(cell) if cell.value() == number((0, col)) => {}
            _ => return false,
        }
    }
    line.len() == len
}

// Whether a board is as it was made with this size and order.
pub fn is_board(board: &Board<'_>, (rows, cols): (usize, usize), order: Order) -> bool {
    for row in 0..rows {
        for col in 0..cols {
            match board.get(row, col) {
                Some(cell) if cell.value() == number((row, col)) => {}
                _ => return false,
            }
        }
    }
    board.size() == (rows, cols) && board.order() == order
}

// Whether the numbers of a board are as they were made.
pub fn are_numbers(board: &Numbers<'_>, (rows, cols): (usize, usize), order: Order) -> bool {
    for row in 0..rows {
        for col in 0..cols {
            if board.get(row, col) != Some(&number((row, col))) {
                return false;
            }
        }
    }
    board.size() == (rows, cols) && board.order() == order
}

// What was made, where nothing but memory may be wanting.
pub fn made<T: Drop, E: Drop>(outcome: Result<T, E>) -> Result<T, AllocError> {
    match outcome {
        Ok(made) => Ok(made),
        Err(_) => Err(AllocError),
    }
}

// What a fault is: nothing but a failed allocation may refuse a call.
pub fn came_of<E: PartialEq + From<AllocError> + Drop>(fault: E) -> Answer {
    if fault == E::from(AllocError) {
        Answer::Refused
    } else {
        Answer::Wrong
    }
}

// What an outcome is.
pub fn came<T: Drop, E: PartialEq + From<AllocError> + Drop>(outcome: Result<T, E>) -> Answer {
    match outcome {
        Ok(_) => Answer::Done,
        Err(fault) => came_of(fault),
    }
}

// That of a call whose closure may be refused.
pub fn both_came<T: Drop, E: PartialEq + From<AllocError> + Drop>(
    outcome: Result<Result<T, AllocError>, E>,
) -> Answer {
    match outcome {
        Ok(inner) => came(inner),
        Err(fault) => came_of(fault),
    }
}

// That of a run, which has a reply of each command that it did.
pub fn run_came<T: Drop, U: Drop, A: Allocator>(outcome: Result<T, RunStopped<U, A>>) -> Answer {
    match outcome {
        Ok(_) => Answer::Done,
        Err(stopped) => {
            let is_told = stopped.done == stopped.replies.len();
            let came = came_of(GridError::from(stopped));
            if is_told { came } else { Answer::Wrong }
        }
    }
}

// That of a call which the line comes back from, where it is refused.
pub fn line_came<'a>(
    outcome: Result<(), LineRefused<Counted<'a>, &'a Heap>>,
    len: usize,
) -> Answer {
    match outcome {
        Ok(()) => Answer::Done,
        Err(refused) if is_line(&refused.line, len) => came_of(GridError::from(refused)),
        Err(_) => Answer::Wrong,
    }
}

// That of a call which several lines come back from.
pub fn lines_came<'a>(
    outcome: Result<(), LinesRefused<Counted<'a>, &'a Heap>>,
    count: usize,
    len: usize,
) -> Answer {
    match outcome {
        Ok(()) => Answer::Done,
        Err(refused) => {
            for line in &refused.lines {
                if !is_line(line, len) {
                    return Answer::Wrong;
                }
            }
            if refused.lines.len() == count {
                came_of(GridError::from(refused))
            } else {
                Answer::Wrong
            }
        }
    }
}

// That of a call which a board comes back from.
pub fn board_came<'a>(
    outcome: Result<(), GridRefused<Counted<'a>, &'a Heap>>,
    size: (usize, usize),
    order: Order,
) -> Answer {
    match outcome {
        Ok(()) => Answer::Done,
        Err(refused) if is_board(&refused.grid, size, order) => {
            came_of(GridError::from(refused))
        }
        Err(_) => Answer::Wrong,
    }
}
