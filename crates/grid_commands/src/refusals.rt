//! Why lines can't be put into a table, or padding added to it: functions of the lines and of the size.
ghost use Rattle.std.specs.Prelude.{◌≡◌, ◌+◌, ◌*◌, length, map, nat_eq, [], ◌∷◌};
ghost use Rattle.grid_base.specs.Prelude.{col_count, items_of_each};
ghost use Rattle.std.specs.List.{list_any, list_all};
ghost use Rattle.grid_commands.specs.Refusal.{exceeds, lines_refusal, pad_refusal};

use crate::command::Refusal;
use std::alloc::Allocator;
use std::convert::AsSlice;

/// Returns the length of the first row, or 0 where there is none.
///
///     first_len([[1, 2, 3], [4]])   3        first_len([])   0
///
/// Cost: constant.
pub fn first_len<T, L: AsSlice<T>>(rows: &[L]) -> usize
    ensures { result ≡ col_count (map L.items rows.now) }
{
    match rows.first() {
        Some(row) => row.as_slice().len(),
        None => 0,
    }
}

// Whether `count + more` lines of `width` cells exceed `usize::MAX`.
fn exceeds(count: usize, more: usize, width: usize) -> bool
    ensures { result ≡ exceeds ((count + more) * width) }
{
    match count.checked_add(more) {
        Some(total) => total.checked_mul(width).is_none(),
        None => width != 0,
    }
}

/// Returns why a line can't be put before line `at` of `count` lines of this width, or `None` where it can.
///
///     line_refusal(2, 3, 0, [1, 2])   Some(Length)        line_refusal(2, 3, 2, [1, 2, 3])   None
///
/// Cost: constant.
pub fn line_refusal<T, A: Allocator>(
    count: usize,
    width: usize,
    at: usize,
    line: &Vec<T, A>,
) -> Option<Refusal>
    ensures { result ≡ lines_refusal count width at (line.now.items ∷ []) }
{
    let len = line.len();
    if len == 0 {
        Some(Refusal::EmptyLine)
    } else if count != 0 && len != width {
        Some(Refusal::Length)
    } else if at > count {
        Some(Refusal::Index)
    } else if exceeds(count, 1, len) {
        Some(Refusal::TooLarge)
    } else {
        None
    }
}

fn any_of_length<T, A: Allocator>(lines: &[Vec<T, A>], len: usize) -> bool
    ensures { result ≡ list_any (λ l. nat_eq (length l) len) (items_of_each lines.now) }
{
    lines.iter().any(|line| line.len() == len)
}

fn all_of_length<T, A: Allocator>(lines: &[Vec<T, A>], len: usize) -> bool
    ensures { result ≡ list_all (λ l. nat_eq (length l) len) (items_of_each lines.now) }
{
    lines.iter().all(|line| line.len() == len)
}

/// Returns why lines can't be put before line `at` of `count` lines of this width, or `None` where they can.
///
///     lines_refusal(0, 0, 0, [[1, 2], [3]])   Some(Length)        lines_refusal(2, 3, 3, [])   Some(Index)
///
/// Cost: looks at the length of each line, at most twice.
pub fn lines_refusal<T, A: Allocator>(
    count: usize,
    width: usize,
    at: usize,
    lines: &[Vec<T, A>],
) -> Option<Refusal>
    ensures { result ≡ lines_refusal count width at (items_of_each lines.now) }
{
    let fitting = if count == 0 { first_len(lines) } else { width };
    if any_of_length(lines, 0) {
        Some(Refusal::EmptyLine)
    } else if !all_of_length(lines, fitting) {
        Some(Refusal::Length)
    } else if at > count {
        Some(Refusal::Index)
    } else if exceeds(count, lines.len(), fitting) {
        Some(Refusal::TooLarge)
    } else {
        None
    }
}

/// Returns why `count` lines of this width can't be padded by `more` of them, or `None` where they can.
///
///     pad_refusal(2, usize::MAX, 1)   Some(TooLarge)        pad_refusal(0, 0, 7)   None
///
/// Cost: constant.
pub fn pad_refusal(count: usize, width: usize, more: usize) -> Option<Refusal>
    ensures { result ≡ pad_refusal count width more }
{
    if count != 0 && more != 0 && exceeds(count, more, width) {
        Some(Refusal::TooLarge)
    } else {
        None
    }
}
