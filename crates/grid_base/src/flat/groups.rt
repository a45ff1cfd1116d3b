//! Groups of cells that are among the lines of a vector, and how they are put there or taken out.
//!
//! All these calls see the cells as lines, here 2 of 3 cells, and each line's group, here 2 cells before place 1:
//!
//!     groups after the lines    [a b c | d e f | 1 2 | 3 4]
//!     groups in the lines       [a 1 2 b c | d 3 4 e f]
//!
//! `weave` brings the cells from the first form to the second. `take_out` takes the groups from the second form, and
//! leaves the lines. Both keep the order of the groups, and no tally counts their moves. `open` goes from the first
//! form to the second by counted swaps, which keep the order of the lines but not of the cells after them. `close_up`
//! takes the groups from the second form by counted swaps, and drops them; `drop_groups` does so uncounted.
ghost use Rattle.std.specs.Prelude.{◌≡◌, ◌+◌, ◌-◌, ◌*◌, ◌^◌, ◌<◌, ◌≤◌, ◌⊎◌, length, IfOk, OnErr};
ghost use Rattle.core.specs.Mem.Slots.{FitsRoom};
ghost use Rattle.grid_base.specs.Groups.{Widened, Woven, Opened, Closed, TakenOut};
ghost use Rattle.grid_base.specs.Tally.{saturating_count};
ghost use Rattle.grid_base.specs.declared.flat.groups.Method.TheVariants.{Nothing, Singly, ThroughRoom, ByHalves};

use super::counted::{move_back, move_forward};
use super::ends::without_tail;
use super::room::{Way, move_through_room};
use super::rotations::{
    FEW_BYTES, exchange_apart, exchange_at_once, exchange_blocks, reverse_part,
};
use super::{Flat, Swaps};
use crate::Tally;
use core::mem::replace_with;
use core::slots::has_room;
use std::alloc::{AllocError, Allocator};
use std::mem::size_of_val;

// Single cells in 33 short lines: one by one 390 ns at 8 bytes a cell and 182 ns at one, through the room 313 and 290.
const FEW_SINGLE_CELLS: usize = 32;

// Two cells into each line of 8: 4 lines take 70 ns without the room; 5 lines 107 to 115 ns, and through it 95 to 104.
const FEW_LINES: usize = 4;

// A row of 4096 by 4096 bytes, which the cache doesn't hold, takes a tenth longer by a move than by swaps.
const MANY_BYTES: usize = 1 << 20;

/// A vector's cells as lines with a group in each: `lines` lines of `width` cells, and in each line `count` more cells,
/// its group, before place `at`.
///
/// `at` is at most `width`, and there are at most `usize::MAX` cells, those of the groups included.
#[derive(Clone, Copy)]
pub struct Groups {
    pub lines: usize,
    pub width: usize,
    pub at: usize,
    pub count: usize,
    pub ghost within: { at ≤ width },
    pub ghost fits: { lines * (width + count) < 2 ^ 64 },
}

impl Groups {
    // Returns the same groups in fewer lines.
    fn in_lines(self, lines: usize) -> Groups
        requires { lines ≤ self.lines }
        ensures lines { result.lines ≡ lines }
        ensures width { result.width ≡ self.width }
        ensures at { result.at ≡ self.at }
        ensures count { result.count ≡ self.count }
    {
        Groups {
            lines,
            width: self.width,
            at: self.at,
            count: self.count,
        }
    }
}

impl<T, A: Allocator> Flat<T, A> {
    /// Takes the groups out of their lines, and returns them.
    ///
    ///     [1, 5, 3, 2, 6, 4]   take_out(2 lines of 2, 1 cell before place 1)   [5, 6], and [1, 3, 2, 4] stay
    ///
    /// Requires: the vector has the cells of these lines and groups.
    /// Fails: if the allocation for the groups, which comes first, fails; the cells are unchanged.
    /// Cost: that of [`weave`](super::weave).
    #[inline(always)]
    pub fn take_out(&mut self, groups: Groups) -> Result<Vec<T, A>, AllocError>
    where
        A: Clone,
        requires { length self.old ≡ groups.lines * (groups.width + groups.count) }
        ensures taken { IfOk result (λ taken. TakenOut groups.lines groups.width groups.at
            groups.count self.new taken.items self.old) }
        ensures err { OnErr result (self.new ≡ self.old) }
    {
        // the group after the only line leaves the end of the vector
        if groups.lines == 1 && groups.at == groups.width {
            return self.cells.split_off(groups.width);
        }
        self.take_from_lines(groups)
    }

    // The same, by the fastest way for these lines and groups.
    fn take_from_lines(&mut self, groups: Groups) -> Result<Vec<T, A>, AllocError>
    where
        A: Clone,
        requires { length self.old ≡ groups.lines * (groups.width + groups.count) }
        ensures taken { IfOk result (λ taken. TakenOut groups.lines groups.width groups.at
            groups.count self.new taken.items self.old) }
        ensures err { OnErr result (self.new ≡ self.old) }
    {
        let kept = groups.lines * groups.width;
        if let Method::Nothing = method_for(self.cells.as_slice(), groups) {
            return self.cells.split_off(kept);
        }
        let is_small = size_of_val(self.cells.as_slice()) < FEW_BYTES;
        if groups.lines == 1 && groups.count != 0 && is_small {
            return self.take_from_line(groups);
        }
        let alloc = self.cells.allocator().clone()?;
        let into = Vec::with_capacity(alloc, groups.lines * groups.count)?;
        unweave(self.cells.as_mut_slice(), groups);
        Ok(replace_with(&mut self.cells, (into, kept), without_tail))
    }

    // The same for a single line: cells at its end leave the vector first, and then change places with the group.
    fn take_from_line(&mut self, groups: Groups) -> Result<Vec<T, A>, AllocError>
    where
        A: Clone,
        requires cells { length self.old ≡ groups.lines * (groups.width + groups.count) }
        requires single { groups.lines ≡ 1 }
        requires has_count { 0 < groups.count }
        ensures taken { IfOk result (λ taken. TakenOut groups.lines groups.width groups.at
            groups.count self.new taken.items self.old) }
        ensures err { OnErr result (self.new ≡ self.old) }
    {
        let mut taken = self.cells.split_off(groups.width)?;
        exchange_apart(self.cells.as_mut_slice(), groups.at, taken.as_mut_slice());
        Ok(taken)
    }

    /// Spreads the lines that come first, so that each has room for its group. What was after the lines comes to the
    /// room, in any order.
    ///
    ///     [1, 3, 2, 4, 0, 0]   open(2 lines of 2, 1 cell before place 1)   [1, 0, 3, 2, 0, 4]
    ///
    /// Requires: the vector has the cells of these lines and groups; there is a line, and neither lines nor groups are
    /// empty.
    /// Cost: each cell whose place changes is swapped once, for a shift; no memory.
    pub fn open(&mut self, groups: Groups, tally: &mut Tally)
        requires cells { length self.old ≡ groups.lines * (groups.width + groups.count) }
        requires has_lines { 0 < groups.lines }
        requires has_width { 0 < groups.width }
        requires has_count { 0 < groups.count }
        ensures opened { Opened groups.lines groups.width groups.at groups.count self.old self.new }
        ensures symmetry { tally.new.symmetry ≡ tally.old.symmetry }
        ensures shift { tally.new.shift
            ≡ saturating_count tally.old.shift (groups.lines * groups.width - groups.at) }
    {
        // the stretch of cells after each group, the last first, moves back by that group and those before it
        let cells = self.cells.as_mut_slice();
        let mut swaps = Swaps::none();
        let mut end = groups.lines * groups.width;
        let mut line = groups.lines;
        while 0 < line {
            line -= 1;
            let start = groups.at + line * groups.width;
            swaps = move_back(cells, start, (line + 1) * groups.count, end - start, swaps);
            end = start;
        }
        tally.take(swaps);
    }

    /// Closes up the lines without their groups, and drops those.
    ///
    ///     [1, 5, 3, 2, 6, 4]   close_up(2 lines of 2, 1 cell before place 1)   [1, 3, 2, 4]
    ///
    /// Requires: the vector has the cells of these lines and groups, and the groups are not empty.
    /// Cost: each kept cell whose place changes is swapped once, for a shift; no memory.
    pub fn close_up(&mut self, groups: Groups, tally: &mut Tally)
    where
        T: Drop,
        requires cells { length self.old ≡ groups.lines * (groups.width + groups.count) }
        requires has_count { 0 < groups.count }
        ensures closed { Closed groups.lines groups.width groups.at groups.count self.new self.old }
        ensures symmetry { tally.new.symmetry ≡ tally.old.symmetry }
        ensures shift { tally.new.shift
            ≡ saturating_count tally.old.shift (groups.lines * groups.width - groups.at) }
    {
        // lines of no cells leave nothing to move
        if groups.width != 0 {
            close_lines(self.cells.as_mut_slice(), groups, tally);
        }
        self.cells.truncate(groups.lines * groups.width);
    }

    /// Closes up the lines without their groups, and drops those, as [`close_up`](Flat::close_up) does. No tally counts
    /// the moves.
    ///
    /// Requires: the vector has the cells of these lines and groups, and the groups are not empty.
    /// Cost: that of [`weave`](super::weave), or of `close_up` where that is faster; no memory.
    pub fn drop_groups(&mut self, groups: Groups)
    where
        T: Drop,
        requires cells { length self.old ≡ groups.lines * (groups.width + groups.count) }
        requires has_count { 0 < groups.count }
        ensures { Closed groups.lines groups.width groups.at groups.count self.new self.old }
    {
        if moves_at_once(self.cells.as_slice(), groups) {
            unweave(self.cells.as_mut_slice(), groups);
            self.cells.truncate(groups.lines * groups.width);
        } else if groups.lines == 1 && size_of_val(self.cells.as_slice()) < FEW_BYTES {
            close_line(self.cells.as_mut_slice(), groups);
            self.cells.truncate(groups.width);
        } else {
            self.close_up(groups, &mut Tally::new());
        }
    }
}

// Whether groups leave their lines faster by moves of whole blocks than by a swap for each cell: the groups fit the
// room, the cells take at least `FEW_BYTES`, and those of a single line less than `MANY_BYTES`.
fn moves_at_once<T>(cells: &[T], groups: Groups) -> bool
    requires { length cells.now ≡ groups.lines * (groups.width + groups.count) }
{
    let bytes = size_of_val(cells);
    FEW_BYTES <= bytes
        && (1 < groups.lines || bytes < MANY_BYTES)
        && has_room(cells, groups.lines * groups.count)
}

// How groups come to their places among the lines, and how they leave them.
#[derive(Clone, Copy)]
enum Method {
    // Nothing moves: the lines have no cells, or the group of a single line is at its end.
    Nothing,
    // Few single cells, among few cells, one by one.
    Singly,
    // Groups that fit the room on the stack, through it.
    ThroughRoom,
    // In turn where lines are long compared with the groups: then each round moves little more than a line.
    InTurn,
    // Others by halves of the lines.
    ByHalves,
}

#[inline(always)]
fn method_for<T>(cells: &[T], groups: Groups) -> Method
    requires { length cells.now ≡ groups.lines * (groups.width + groups.count) }
    ensures nothing { result ≡ Nothing
        → (groups.width ≡ 0) ⊎ ((groups.lines ≤ 1) × (groups.at ≡ groups.width)) }
    ensures single { result ≡ Singly → groups.count ≡ 1 }
    ensures lines { result ≡ ThroughRoom → 0 < groups.lines }
    ensures some { result ≡ ThroughRoom → 0 < length cells.now }
    ensures room { result ≡ ThroughRoom → FitsRoom T.row (groups.lines * groups.count) }
    ensures halves { result ≡ ByHalves → 1 < groups.lines }
{
    if groups.width == 0 || (groups.lines < 2 && groups.at == groups.width) {
        return Method::Nothing;
    }
    if groups.lines < 2 {
        return Method::InTurn;
    }
    let is_small = size_of_val(cells) < FEW_BYTES;
    if is_small && groups.count == 1 && groups.lines <= FEW_SINGLE_CELLS {
        Method::Singly
    } else if (FEW_LINES < groups.lines || !is_small)
        && !cells.is_empty()
        && has_room(cells, groups.lines * groups.count)
    {
        Method::ThroughRoom
    } else if groups.lines * groups.count <= groups.width {
        Method::InTurn
    } else {
        Method::ByHalves
    }
}

/// Puts the groups that are after the lines into their lines.
///
///     [1, 2, 3, 4, 5, 6]   weave(1 line of 4, 2 cells before place 2)    [1, 2, 5, 6, 3, 4]
///     [1, 3, 2, 4, 5, 6]   weave(2 lines of 2, 1 cell before place 1)   [1, 5, 3, 2, 6, 4]
///
/// Requires: the slice has the cells of these lines and groups.
/// Cost: time in the number of cells times log2(lines) + 1 at most, by rotations; no memory.
#[inline(always)]
pub fn weave<T>(cells: &mut [T], groups: Groups)
    requires { length cells.old ≡ groups.lines * (groups.width + groups.count) }
    ensures { Woven groups.lines groups.width groups.at groups.count cells.old cells.new }
{
    // A group after the only line is there, so a push at the end of the vector makes no call.
    if groups.lines == 1 && groups.at == groups.width {
        return;
    }
    weave_lines(cells, groups);
}

// The same, by the fastest way for these lines and groups.
fn weave_lines<T>(cells: &mut [T], groups: Groups)
    requires { length cells.old ≡ groups.lines * (groups.width + groups.count) }
    ensures { Woven groups.lines groups.width groups.at groups.count cells.old cells.new }
{
    match method_for(cells, groups) {
        Method::Nothing => {}
        Method::Singly => weave_singly(cells, groups),
        Method::ThroughRoom => move_through_room(cells, groups, Way::In),
        Method::InTurn => weave_in_turn(cells, groups),
        // The groups of the first half of the lines come before the lines of the second half; then each half is woven.
        Method::ByHalves => {
            let half = groups.lines / 2;
            let rest = groups.lines - half;
            exchange_blocks(
                cells,
                half * groups.width,
                rest * groups.width,
                half * groups.count,
            );
            let (front, back) = cells.split_at_mut(half * (groups.width + groups.count));
            weave_lines(front, groups.in_lines(half));
            weave_lines(back, groups.in_lines(rest));
        }
    }
}

// The groups are single cells. Each comes to its place, the first first, past all cells from there on.
fn weave_singly<T>(cells: &mut [T], groups: Groups)
    requires single { groups.count ≡ 1 }
    requires cells { length cells.old ≡ groups.lines * (groups.width + groups.count) }
    ensures { Woven groups.lines groups.width groups.at groups.count cells.old cells.new }
{
    let kept = groups.lines * groups.width;
    for line in 0..groups.lines {
        let at = groups.at + line * (groups.width + 1);
        exchange_at_once(cells, at, kept + line - at, 1);
    }
}

// The groups are single cells. Each goes after the lines, the last first, past all cells that are there.
fn unweave_singly<T>(cells: &mut [T], groups: Groups)
    requires single { groups.count ≡ 1 }
    requires cells { length cells.old ≡ groups.lines * (groups.width + groups.count) }
    ensures { Woven groups.lines groups.width groups.at groups.count cells.new cells.old }
{
    let kept = groups.lines * groups.width;
    let mut line = groups.lines;
    while 0 < line {
        line -= 1;
        let at = groups.at + line * (groups.width + 1);
        exchange_at_once(cells, at, 1, kept + line - at);
    }
}

// The cells after the place of each group, the last first, change places with that group and all before it.
fn weave_in_turn<T>(cells: &mut [T], groups: Groups)
    requires { length cells.old ≡ groups.lines * (groups.width + groups.count) }
    ensures { Woven groups.lines groups.width groups.at groups.count cells.old cells.new }
{
    let mut end = groups.lines * groups.width;
    let mut line = groups.lines;
    while 0 < line {
        line -= 1;
        let start = groups.at + line * groups.width;
        exchange_blocks(cells, start, end - start, (line + 1) * groups.count);
        end = start;
    }
}

// By halves, each half is unwoven; then the lines of the second half come before the groups of the first.
pub(super) fn unweave<T>(cells: &mut [T], groups: Groups)
    requires { length cells.old ≡ groups.lines * (groups.width + groups.count) }
    ensures { Woven groups.lines groups.width groups.at groups.count cells.new cells.old }
{
    match method_for(cells, groups) {
        Method::Nothing => {}
        Method::Singly => unweave_singly(cells, groups),
        Method::ThroughRoom => move_through_room(cells, groups, Way::Out),
        Method::InTurn => unweave_in_turn(cells, groups),
        Method::ByHalves => {
            let half = groups.lines / 2;
            let rest = groups.lines - half;
            let (front, back) = cells.split_at_mut(half * (groups.width + groups.count));
            unweave(front, groups.in_lines(half));
            unweave(back, groups.in_lines(rest));
            exchange_blocks(
                cells,
                half * groups.width,
                half * groups.count,
                rest * groups.width,
            );
        }
    }
}

// The stretch of cells after each group, from the first on, changes places with that group and all before it.
fn unweave_in_turn<T>(cells: &mut [T], groups: Groups)
    requires { length cells.old ≡ groups.lines * (groups.width + groups.count) }
    ensures { Woven groups.lines groups.width groups.at groups.count cells.new cells.old }
{
    let kept = groups.lines * groups.width;
    let mut start = groups.at;
    for line in 0..groups.lines {
        let stretch = groups.width.min(kept - start);
        exchange_blocks(cells, start, (line + 1) * groups.count, stretch);
        start += stretch;
    }
}

// Takes the cells after the group of a single line to its place: they are reversed with the group, and then alone.
fn close_line<T>(cells: &mut [T], groups: Groups)
    requires single { groups.lines ≡ 1 }
    requires cells { length cells.old ≡ groups.lines * (groups.width + groups.count) }
    ensures cells { length cells.new ≡ length cells.old }
    ensures lines { Widened groups.lines groups.width groups.at groups.count cells.new cells.old }
{
    let behind = groups.width - groups.at;
    reverse_part(cells, groups.at, groups.count + behind);
    reverse_part(cells, groups.at, behind);
}

// Takes the stretch of kept cells after each group, from the first on, to its place in the closed lines. It moves
// forward by the groups before it.
fn close_lines<T>(cells: &mut [T], groups: Groups, tally: &mut Tally)
    requires cells { length cells.old ≡ groups.lines * (groups.width + groups.count) }
    requires has_count { 0 < groups.count }
    ensures cells { length cells.new ≡ length cells.old }
    ensures lines { Widened groups.lines groups.width groups.at groups.count cells.new cells.old }
    ensures symmetry { tally.new.symmetry ≡ tally.old.symmetry }
    ensures shift { tally.new.shift
        ≡ saturating_count tally.old.shift (groups.lines * groups.width - groups.at) }
{
    let mut swaps = Swaps::none();
    let kept = groups.lines * groups.width;
    let mut start = groups.at;
    for line in 0..groups.lines {
        let stretch = groups.width.min(kept - start);
        swaps = move_forward(cells, start, (line + 1) * groups.count, stretch, swaps);
        start += stretch;
    }
    tally.take(swaps);
}
