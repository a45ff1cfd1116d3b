//! The steps around a cell: where each of them leads, and which of them are within the size.
ghost use Rattle.std.specs.Prelude.{◌≡◌, ◌<◌, ◌≤◌, ◌/◌, ◌%◌, IsTrue, ◌↔◌, length};
ghost use Rattle.grid_near.specs.Prelude.{step_count, around, box, positions_from, IsInner, IsThere};

/// Which cells are next to a cell.
#[derive(Clone, Copy, Debug, PartialEq, Eq)]
pub enum Connectivity {
    /// 4-connectivity: the cells that share a side with it, at most four.
    Four,
    /// 8-connectivity: the cells that share a side or a corner with it, at most eight.
    Eight,
}

// Whether all cells around a position are within the size.
pub(crate) fn is_inner(size: (usize, usize), at: (usize, usize)) -> bool
    ensures { IsTrue result ↔ IsInner size at }
{
    at.0 > 0 && at.1 > 0 && at.0 < size.0.saturating_sub(1) && at.1 < size.1.saturating_sub(1)
}

// How many steps there are from a cell.
pub(crate) fn step_count(connectivity: Connectivity) -> usize
    ensures { result ≡ step_count connectivity }
{
    match connectivity {
        Connectivity::Four => 4,
        Connectivity::Eight => 8,
    }
}

// The row and the column of step `k` in the box of nine cells.
pub(crate) fn offset(connectivity: Connectivity, k: usize) -> (usize, usize)
    requires { k < step_count connectivity }
    ensures row { result.0 ≡ box connectivity k / 3 }
    ensures col { result.1 ≡ box connectivity k % 3 }
{
    let cell = match connectivity {
        Connectivity::Four => 2 * k + 1,
        Connectivity::Eight => k + k / 4,
    };
    (cell / 3, cell % 3)
}

// `at - 1`, `at` or `at + 1`, modulo `len`, for `i` 0, 1 or 2.
pub(crate) fn around(len: usize, at: usize, i: usize) -> usize
    requires { at < len }
    ensures is { result ≡ around len at i }
    ensures within { result < len }
{
    match i {
        0 => { if at == 0 { len - 1 } else { at - 1 } }
        1 => at,
        _ => { if at + 1 == len { 0 } else { at + 1 } }
    }
}

// Whether the cell in row `i` and column `j` of the box of nine cells around a position is within the size.
pub(crate) fn is_there(size: (usize, usize), at: (usize, usize), i: usize, j: usize) -> bool
    ensures { IsTrue result ↔ IsThere size at i j }
{
    at.0 <= size.0
        && at.1 <= size.1
        && (i > 0 || at.0 > 0)
        && i <= size.0 - at.0
        && (j > 0 || at.1 > 0)
        && j <= size.1 - at.1
}

// Returns the first step, this one or a later, whose cell is within the size, or the number of steps.
// It reads no memory and writes none, so that what a caller read before it need not be read again.
#[inline(never)]
pub(crate) fn first_from(
    size: (usize, usize),
    at: (usize, usize),
    connectivity: Connectivity,
    from: usize,
) -> usize
    ensures keeps { from ≤ result }
    ensures skips { positions_from size connectivity at from
        ≡ positions_from size connectivity at result }
    ensures there { result < step_count connectivity
        → IsThere size at (box connectivity result / 3) (box connectivity result % 3) }
{
    for k in from..step_count(connectivity) {
        let (i, j) = offset(connectivity, k);
        if is_there(size, at, i, j) {
            return k;
        }
    }
    step_count(connectivity).max(from)
}

// Counts the steps, from this one on, whose cells are within the size.
pub(crate) fn count_from(
    size: (usize, usize),
    at: (usize, usize),
    connectivity: Connectivity,
    from: usize,
) -> usize
    ensures { result ≡ length (positions_from size connectivity at from) }
{
    let mut count = 0;
    for k in from..step_count(connectivity) {
        let (i, j) = offset(connectivity, k);
        if is_there(size, at, i, j) {
            count += 1;
        }
    }
    count
}
