//! How many of the cells around each cell pass a test, for all cells of a table at once.
ghost use Rattle.std.specs.Prelude.{◌≡◌, ℕ, ◌+◌, ◌*◌, ◌<◌, ◌≤◌, length, vec_len, vec_capacity, false, slice_index_or, MatchOption, Some, IfOk};
ghost use Rattle.grid_near.specs.Prelude.{CallableAtRefs, ReturnsAtCell, PairsUp, lines_of, IsBeyond, count_around, sum_around, MarksBeside, MarksCells, WithEnds, near, table, placed_cells, AnswersCounted, AnswersSummed, AreBeside, CallableOnCounts, AreCounted, CallableOnSums, AreSummed, side};

use crate::board::{Board, Edges};
use crate::steps::{Connectivity, around};
use std::alloc::{AllocError, Allocator};

// The line before a line, the line, or the one after it, if the table has it.
fn line_beside(edges: Edges, lines: usize, line: usize, step: usize) -> Option<usize>
    requires line { line < lines }
    requires step { step < 3 }
    ensures { MatchOption result (IsBeyond lines (side edges lines line step))
        (λ l. (l < lines) × (side edges lines line step ≡ Some l)) }
{
    match edges {
        Edges::Joined => Some(around(lines, line, step)),
        Edges::Open => match step {
            0 => if line == 0 { None } else { Some(line - 1) },
            1 => Some(line),
            _ => if line + 1 < lines {
                Some(line + 1)
            } else {
                None
            },
        },
    }
}

// How many of the eight marks around place `k` of the middle line are true.
fn count_eight(up: &[bool], mid: &[bool], down: &[bool], k: usize) -> u8
    requires up { k + 2 < length up.now }
    requires mid { k + 2 < length mid.now }
    requires down { k + 2 < length down.now }
    ensures count { result ≡ count_around Connectivity.Eight up.now mid.now down.now k }
    ensures most { result ≤ 8 }
{
    let above = u8::from(up[k]) + u8::from(up[k + 1]) + u8::from(up[k + 2]);
    let beside = u8::from(mid[k]) + u8::from(mid[k + 2]);
    let below = u8::from(down[k]) + u8::from(down[k + 1]) + u8::from(down[k + 2]);
    above + beside + below
}

// How many of the four at its sides are true.
fn count_four(up: &[bool], mid: &[bool], down: &[bool], k: usize) -> u8
    requires up { k + 2 < length up.now }
    requires mid { k + 2 < length mid.now }
    requires down { k + 2 < length down.now }
    ensures count { result ≡ count_around Connectivity.Four up.now mid.now down.now k }
    ensures most { result ≤ 8 }
{
    u8::from(up[k + 1]) + u8::from(mid[k]) + u8::from(mid[k + 2]) + u8::from(down[k + 1])
}

// How many of the marks around place `k` of the middle line are true.
fn count_around(
    connectivity: Connectivity,
    up: &[bool],
    mid: &[bool],
    down: &[bool],
    k: usize,
) -> u8
    requires up { k + 2 < length up.now }
    requires mid { k + 2 < length mid.now }
    requires down { k + 2 < length down.now }
    ensures count { result ≡ count_around connectivity up.now mid.now down.now k }
    ensures most { result ≤ 8 }
{
    match connectivity {
        Connectivity::Four => count_four(up, mid, down, k),
        Connectivity::Eight => count_eight(up, mid, down, k),
    }
}

// Makes all marks blank.
fn blank_line<M: Copy>(marks: &mut [M], blank: M)
    ensures len { length marks.new ≡ length marks.old }
    ensures blank { (k : ℕ) → slice_index_or marks.new k blank ≡ blank }
{
    for k in 0..marks.len() {
        marks[k] = blank;
    }
}

// Marks the cells of a line, which start at cell `start`, from the second mark on.
fn mark_cells<T, M: Copy, F: Fn(&T) -> M>(
    marks: &mut [M],
    blank: M,
    board: &Board<'_, T, F>,
    start: usize,
)
    requires marks { length marks.old ≡ (lines_of board.now.layout).1 + 2 }
    requires cells { start + (lines_of board.now.layout).1 ≤ length board.now.cells.now }
    requires calls { CallableAtRefs F.pre board.now.mark.now board.now.cells.now }
    ensures len { length marks.new ≡ length marks.old }
    ensures cells { MarksCells blank F.post board.now.mark.now board.now.cells.now start
        (lines_of board.now.layout).1 marks.new }
{
    let (_, width) = board.layout.lines();
    let cells = board.cells;
    let mark = board.mark;
    for k in 0..width {
        marks[k + 1] = mark(&cells[start + k]);
    }
}

// Marks the two ends of a line.
fn mark_ends<M: Copy>(marks: &mut [M], blank: M, edges: Edges, width: usize)
    requires marks { length marks.old ≡ width + 2 }
    requires wide { 0 < width }
    ensures len { length marks.new ≡ length marks.old }
    ensures ends { WithEnds blank edges width marks.old marks.new }
{
    let (first, last) = match edges {
        Edges::Open => (blank, blank),
        Edges::Joined => (marks[width], marks[1]),
    };
    marks[0] = first;
    marks[width + 1] = last;
}

// Marks the cells of the line before a line, of the line, or of the one after it.
fn mark_line<T, M: Copy, F: Fn(&T) -> M>(
    marks: &mut [M],
    blank: M,
    board: &Board<'_, T, F>,
    at: (usize, usize),
)
    requires line { at.0 < (lines_of board.now.layout).0 }
    requires step { at.1 < 3 }
    requires marks { length marks.old ≡ (lines_of board.now.layout).1 + 2 }
    requires calls { CallableAtRefs F.pre board.now.mark.now board.now.cells.now }
    ensures len { length marks.new ≡ length marks.old }
    ensures marks { MarksBeside blank F.post board.now at.0 at.1 marks.new }
{
    let (lines, width) = board.layout.lines();
    match line_beside(board.edges, lines, at.0, at.1) {
        Some(line) => {
            mark_cells(marks, blank, board, line * width);
            mark_ends(marks, blank, board.edges, width);
        }
        None => blank_line(marks, blank),
    }
}

// The vector with the marks of a line, as `mark_line` makes them.
fn marked<T, M: Copy, A: Allocator, F: Fn(&T) -> M>(
    mut marks: Vec<M, A>,
    blank: M,
    board: &Board<'_, T, F>,
    at: (usize, usize),
) -> Vec<M, A>
    requires line { at.0 < (lines_of board.now.layout).0 }
    requires step { at.1 < 3 }
    requires marks { length marks.items ≡ (lines_of board.now.layout).1 + 2 }
    requires calls { CallableAtRefs F.pre board.now.mark.now board.now.cells.now }
    ensures len { length result.items ≡ length marks.items }
    ensures marks { MarksBeside blank F.post board.now at.0 at.1 result.items }
{
    mark_line(marks.as_mut_slice(), blank, board, at);
    marks
}

// Appends what the closure `rule` returns at each cell of the next line, and how many of the cells around it
// pass.
fn push_line<T, U, A: Allocator, F: Fn(&T) -> bool, G: Fn(&T, u8) -> U>(
    mut made: Vec<U, A>,
    marks: (&[bool], &[bool], &[bool]),
    board: &Board<'_, T, F>,
    line: usize,
    rule: &G,
) -> Vec<U, A>
    requires line { line < (lines_of board.now.layout).0 }
    requires marks { AreBeside false F.post board.now line marks.0.now marks.1.now marks.2.now }
    requires calls { CallableOnCounts board.now F.post G.pre rule.now }
    requires room { length board.now.cells.now ≤ vec_capacity made }
    requires passed { vec_len made ≡ line * (lines_of board.now.layout).1 }
    requires answers { AreCounted board.now F.post G.post rule.now (vec_len made) made.items }
    ensures room { vec_capacity result ≡ vec_capacity made }
    ensures passed { vec_len result ≡ vec_len made + (lines_of board.now.layout).1 }
    ensures answers { AreCounted board.now F.post G.post rule.now (vec_len result) result.items }
{
    let (up, mid, down) = marks;
    let (_, width) = board.layout.lines();
    let cells = board.cells;
    let connectivity = board.connectivity;
    let start = line * width;
    for k in 0..width {
        let count = count_around(connectivity, up, mid, down, k);
        made.push_reserved(rule(&cells[start + k], count));
    }
    made
}

/// Returns what the closure `rule` returns for a reference to each cell of a board, and how many of the four or the
/// eight cells around it the board marks with `true`.
///
/// Requires: the closures can be called with these arguments.
/// Fails: if allocation fails; neither closure was called.
/// Cost: one call of each for each cell, and, where the edges are joined, one more of `mark` for each cell of the first
/// line and of the last; one allocation, and three of a line of `bool`s.
pub fn map_counts<T, U, A: Allocator, F: Fn(&T) -> bool, G: Fn(&T, u8) -> U>(
    alloc: A,
    board: &Board<'_, T, F>,
    rule: G,
) -> Result<Vec<U, A>, AllocError>
where
    A: Clone,
    requires tests { CallableAtRefs F.pre board.now.mark.now board.now.cells.now }
    requires calls { CallableOnCounts board.now F.post G.pre rule }
    ensures len { IfOk result (λ made. length made.items ≡ length board.now.cells.now) }
    ensures cells { IfOk result (λ made. PairsUp (ReturnsAtCell
        (AnswersCounted (near board.now) F.post board.now.mark.now (table board.now) G.post) rule)
        (placed_cells board.now) made.items) }
{
    let (lines, width) = board.layout.lines();
    if lines == 0 {
        return Ok(Vec::new(alloc));
    }
    let Some(wide) = width.checked_add(2) else {
        return Err(AllocError);
    };
    let mut up = Vec::from_elem(alloc.clone()?, false, wide)?;
    let mut mid = Vec::from_elem(alloc.clone()?, false, wide)?;
    let mut down = Vec::from_elem(alloc.clone()?, false, wide)?;
    let mut made = Vec::with_capacity(alloc, board.cells.len())?;
    up = marked(up, false, board, (0, 0));
    mid = marked(mid, false, board, (0, 1));
    for line in 0..lines {
        down = marked(down, false, board, (line, 2));
        let marks = (up.as_slice(), mid.as_slice(), down.as_slice());
        made = push_line(made, marks, board, line, &rule);
        let spare = up;
        up = mid;
        mid = down;
        down = spare;
    }
    Ok(made)
}

// The sum of the marks around place `k` of the middle line.
fn sum_around(connectivity: Connectivity, up: &[u8], mid: &[u8], down: &[u8], k: usize) -> u16
    requires up { k + 2 < length up.now }
    requires mid { k + 2 < length mid.now }
    requires down { k + 2 < length down.now }
    ensures sum { result ≡ sum_around connectivity up.now mid.now down.now k }
    ensures most { result ≤ 2040 }
{
    match connectivity {
        Connectivity::Four => u16::from(up[k + 1])
            + u16::from(mid[k])
            + u16::from(mid[k + 2])
            + u16::from(down[k + 1]),
        Connectivity::Eight => {
            let above = u16::from(up[k]) + u16::from(up[k + 1]) + u16::from(up[k + 2]);
            let beside = u16::from(mid[k]) + u16::from(mid[k + 2]);
            let below = u16::from(down[k]) + u16::from(down[k + 1]) + u16::from(down[k + 2]);
            above + beside + below
        }
    }
}

// Appends what the closure `rule` returns at each cell of the next line, and the sum of the marks around it.
fn push_sums<T, U, A: Allocator, F: Fn(&T) -> u8, G: Fn(&T, u16) -> U>(
    mut made: Vec<U, A>,
    marks: (&[u8], &[u8], &[u8]),
    board: &Board<'_, T, F>,
    line: usize,
    rule: &G,
) -> Vec<U, A>
    requires line { line < (lines_of board.now.layout).0 }
    requires marks { AreBeside 0 F.post board.now line marks.0.now marks.1.now marks.2.now }
    requires calls { CallableOnSums board.now F.post G.pre rule.now }
    requires room { length board.now.cells.now ≤ vec_capacity made }
    requires passed { vec_len made ≡ line * (lines_of board.now.layout).1 }
    requires answers { AreSummed board.now F.post G.post rule.now (vec_len made) made.items }
    ensures room { vec_capacity result ≡ vec_capacity made }
    ensures passed { vec_len result ≡ vec_len made + (lines_of board.now.layout).1 }
    ensures answers { AreSummed board.now F.post G.post rule.now (vec_len result) result.items }
{
    let (up, mid, down) = marks;
    let (_, width) = board.layout.lines();
    let cells = board.cells;
    let connectivity = board.connectivity;
    let start = line * width;
    for k in 0..width {
        let sum = sum_around(connectivity, up, mid, down, k);
        made.push_reserved(rule(&cells[start + k], sum));
    }
    made
}

/// Same as [`map_counts`], with the sum of the marks of the cells around a cell in place of how many of them are
/// `true`.
///
/// Requires: as `map_counts`.
/// Fails: as `map_counts`.
/// Cost: as `map_counts`, with lines of `u8`s.
pub fn map_sums<T, U, A: Allocator, F: Fn(&T) -> u8, G: Fn(&T, u16) -> U>(
    alloc: A,
    board: &Board<'_, T, F>,
    rule: G,
) -> Result<Vec<U, A>, AllocError>
where
    A: Clone,
    requires weights { CallableAtRefs F.pre board.now.mark.now board.now.cells.now }
    requires calls { CallableOnSums board.now F.post G.pre rule }
    ensures len { IfOk result (λ made. length made.items ≡ length board.now.cells.now) }
    ensures cells { IfOk result (λ made. PairsUp (ReturnsAtCell
        (AnswersSummed (near board.now) F.post board.now.mark.now (table board.now) G.post) rule)
        (placed_cells board.now) made.items) }
{
    let (lines, width) = board.layout.lines();
    if lines == 0 {
        return Ok(Vec::new(alloc));
    }
    let Some(wide) = width.checked_add(2) else {
        return Err(AllocError);
    };
    let mut up = Vec::from_elem(alloc.clone()?, 0u8, wide)?;
    let mut mid = Vec::from_elem(alloc.clone()?, 0u8, wide)?;
    let mut down = Vec::from_elem(alloc.clone()?, 0u8, wide)?;
    let mut made = Vec::with_capacity(alloc, board.cells.len())?;
    up = marked(up, 0, board, (0, 0));
    mid = marked(mid, 0, board, (0, 1));
    for line in 0..lines {
        down = marked(down, 0, board, (line, 2));
        let marks = (up.as_slice(), mid.as_slice(), down.as_slice());
        made = push_sums(made, marks, board, line, &rule);
        let spare = up;
        up = mid;
        mid = down;
        down = spare;
    }
    Ok(made)
}
