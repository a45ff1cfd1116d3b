//! Parts of a slice that are reversed, and blocks that are side by side and change places. No tally counts it.
ghost use Rattle.std.specs.Prelude.{◌≡◌, ◌<◌, ◌≤◌, ◌+◌, ◌-◌, ◌^◌, ◌++◌, length};
ghost use Rattle.grid_base.specs.Prelude.{BlocksExchanged, BlockTaken, PartReversed};

use std::mem;

// Fewer cells are swapped in a loop. Two cells put into the middle of a board of two columns and taken out again, by
// the loop and by a call: of 10 rows 65 and 79 ns on bytes, 77 and 76 ns on 8-byte cells; of 16 rows 78 and 64, 86 and
// 80.
const SHORT_PART: usize = 16;

// `rotate_left` and `with_room` clear 4096 bytes on the stack first: a rotation takes 48 ns at least, three reversals
// 12. At about this many bytes both take 64 to 75 ns, at cells of 8 bytes and of one.
pub(super) const FEW_BYTES: usize = 1024;

// Reverses the `n` cells from `start` on.
#[tactic(auto, using(crate::proofs::PartLemmas::turning_none, crate::proofs::PartLemmas::turning_more, crate::proofs::PartLemmas::turning_all))]
pub(super) fn reverse_part<T>(cells: &mut [T], start: usize, n: usize)
    requires within { start + n ≤ length cells.old }
    requires fits { start + n < 2 ^ 64 }
    ensures { PartReversed start n cells.old cells.new }
{
    if n < SHORT_PART {
        for i in 0..n / 2 {
            cells.swap(start + i, start + (n - 1 - i));
        }
    } else {
        cells[start..start + n].reverse();
    }
}

// Exchanges the `first` cells from `start` on with the `second` cells after them: few by three reversals, which need no
// room on the stack. `rotate_left` needs none for a single cell.
pub(super) fn exchange_blocks<T>(cells: &mut [T], start: usize, first: usize, second: usize)
    requires within { start + first + second ≤ length cells.old }
    requires fits { start + first + second < 2 ^ 64 }
    ensures { BlocksExchanged start first second cells.old cells.new }
{
    if first == 0 || second == 0 {
        return;
    }
    let few = first != 1 && second != 1 && mem::size_of_val(&cells[..first + second]) < FEW_BYTES;
    if few {
        reverse_part(cells, start, first);
        reverse_part(cells, start + first, second);
        reverse_part(cells, start, first + second);
    } else {
        exchange_at_once(cells, start, first, second);
    }
}

// In vector code. Where the one block is known to be a single cell, it is one move of the other.
pub(super) fn exchange_at_once<T>(cells: &mut [T], start: usize, first: usize, second: usize)
    requires within { start + first + second ≤ length cells.old }
    requires fits { start + first + second < 2 ^ 64 }
    ensures { BlocksExchanged start first second cells.old cells.new }
{
    cells[start..start + first + second].rotate_left(first);
}

// As `exchange_blocks` of the cells from `start` on and the line after them, but the line is a slice of its own: it
// takes as many of those cells as it has, from the first on. Block by block, from the end.
//
//     [1, 2, 3, 4], [5, 6]   exchange_apart(1)   [1, 4, 5, 6], [2, 3]
//
// Requires: the line is not empty.
pub(super) fn exchange_apart<T>(cells: &mut [T], start: usize, line: &mut [T])
    requires start { start ≤ length cells.old }
    requires some { 0 < length line.old }
    ensures cells { length cells.new ≡ length cells.old }
    ensures exchanged { BlocksExchanged start (length line.old) (length cells.old - start)
        (cells.old ++ line.old) (cells.new ++ line.new) }
{
    let count = line.len();
    let mut end = cells.len();
    while count <= end - start {
        end -= count;
        swap_parts(cells, end, line, 0, count);
    }
    let few = end - start;
    swap_parts(cells, start, line, count - few, few);
    exchange_blocks(line, 0, count - few, few);
}

// Exchanges the `n` cells from `i` on with those of another slice from `j` on.
pub(super) fn swap_parts<T>(cells: &mut [T], i: usize, others: &mut [T], j: usize, n: usize)
    requires within { i + n ≤ length cells.old }
    requires within_other { j + n ≤ length others.old }
    ensures taken { BlockTaken i j n cells.old others.old cells.new }
    ensures given { BlockTaken j i n others.old cells.old others.new }
{
    cells[i..i + n].swap_with_slice(&mut others[j..j + n]);
}
