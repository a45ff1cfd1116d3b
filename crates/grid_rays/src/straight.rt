//! The positions of a straight line between two.
ghost use Rattle.std.specs.Prelude.{◌≡◌, ◌+◌, ◌-◌, ◌*◌, ◌/◌, ◌^◌, ◌<◌, ◌≤◌, ⊤, length, IfSome, None, Some};
ghost use Rattle.std.specs.Int.{abs_diff};
ghost use Rattle.std.specs.Iterator.{YieldsFirst, item_count, UpTo, at_most};
ghost use Rattle.std.specs.Iterator.SizeHint.{IsWithinCount};
ghost use Rattle.grid_rays.specs.Segments.{segment, steps_between, IsStraight};
ghost use Rattle.grid_rays.specs.Drawn.{IsReached};

use std::alloc::AllocError;
use std::iter::FusedIterator;
use std::marker::Model;

// The rows of a straight line, or its columns: the first and the last, the one that it has come to, and what the
// rounding to that one took off, in parts of which as many as there are steps make one.
#[derive(Clone, Copy)]
pub(crate) struct Course {
    from: usize,
    to: usize,
    pub(crate) at: usize,
    past: usize,
}

impl Course {
    // Returns the start of the course of a line of so many steps.
    pub(crate) fn new(from: usize, to: usize, steps: usize) -> Course
        ensures from { result.from ≡ from }
        ensures to { result.to ≡ to }
        ensures reached { IsReached from to 0 steps result.at result.past }
    {
        Course {
            from,
            to,
            at: from,
            past: steps / 2,
        }
    }

    // Returns the course one step on, of a line of which so many steps are done and left.
    pub(crate) fn stepped(self, done: usize, left: usize) -> Course
        requires some { 0 < left }
        requires fits { done + left < 2 ^ 64 }
        requires near { abs_diff self.from self.to ≤ done + left }
        requires reached { IsReached self.from self.to done left self.at self.past }
        ensures from { result.from ≡ self.from }
        ensures to { result.to ≡ self.to }
        ensures reached { IsReached self.from self.to (done + 1) (left - 1) result.at result.past }
    {
        let steps = done + left;
        let (at, past) = if self.from <= self.to {
            let more = self.to - self.from;
            if self.past < steps - more {
                (self.at, self.past + more)
            } else {
                (self.at + 1, self.past - (steps - more))
            }
        } else {
            let less = self.from - self.to;
            if self.past < less {
                (self.at - 1, self.past + (steps - less))
            } else {
                (self.at, self.past - less)
            }
        };
        Course { at, past, ..self }
    }
}

// Returns how many steps lead from one position to another, where a step goes to any cell that touches.
pub(crate) fn steps_between(from: (usize, usize), to: (usize, usize)) -> usize
    ensures { result ≡ steps_between from to }
{
    from.0.abs_diff(to.0).max(from.1.abs_diff(to.1))
}

/// An iterator over the positions of a line, from the first to the last, seen as the list of those that remain. There
/// can be 2^64, so it has no `len`.
#[derive(Drop)]
pub struct SegmentIter {
    rows: Course,
    cols: Course,
    // The number of steps that are done, and of those that are left; and whether the last position was given.
    done: usize,
    left: usize,
    ended: bool,
}

impl Model for SegmentIter {
    ghost use Rattle.std.specs.Prelude.{ℕ, List};
    ghost use Rattle.grid_rays.specs.Drawn.{segment_left, IsDrawn};

    ghost Value = { List (ℕ × ℕ) };

    ghost view = { λ a. segment_left a.ended (a.rows.from, a.cols.from) (a.rows.to, a.cols.to)
        a.done a.left };

    ghost invariant = { λ a. IsDrawn (a.rows.from, a.cols.from) (a.rows.to, a.cols.to)
        (a.rows.at, a.cols.at) (a.rows.past, a.cols.past) a.done a.left };
}

/// Returns an iterator over the positions of the straight line from one position to another, both among them: those of
/// Bresenham's line, of which each touches the one before at a side or a corner.
///
///     segment((0, 0), (2, 4))   (0, 0), (1, 1), (1, 2), (2, 3), (2, 4)
///     segment((2, 4), (0, 0))   (2, 4), (2, 3), (1, 2), (1, 1), (0, 0)
///
/// Where the true line passes midway between two cells, the one with the greater row or column is taken, whichever end
/// it is drawn from: so the line back is the same in reverse. A board that has both ends has all of them.
///
/// Cost: constant for each position, without a division; no memory.
pub fn segment(from: (usize, usize), to: (usize, usize)) -> SegmentIter
    ensures positions { result ≡ segment from to }
    ensures straight { IsStraight from to result }
{
    let steps = steps_between(from, to);
    SegmentIter {
        rows: Course::new(from.0, to.0, steps),
        cols: Course::new(from.1, to.1, steps),
        done: 0,
        left: steps,
        ended: false,
    }
}

impl Iterator for SegmentIter {
    type Item = (usize, usize);

    ghost next_gives = { YieldsFirst (λ rest. rest) };

    ghost remaining = { item_count (λ rest. rest) };

    fn next(&mut self) -> Option<(usize, usize)> {
        if self.ended {
            return None;
        }
        let at = (self.rows.at, self.cols.at);
        if self.left == 0 {
            self.ended = true;
        } else {
            self.rows = self.rows.stepped(self.done, self.left);
            self.cols = self.cols.stepped(self.done, self.left);
            self.done += 1;
            self.left -= 1;
        }
        Some(at)
    }

    fn size_hint(&self) -> (usize, Option<usize>)
        ensures lower { IsWithinCount result.0 (at_most (length self.now)) }
        ensures upper { IfSome result.1 (UpTo (at_most (length self.now))) }
        ensures exact { length self.now < 2 ^ 64
            → result ≡ (length self.now, Some (length self.now)) }
        ensures longest { 2 ^ 64 ≤ length self.now → result ≡ (2 ^ 64 - 1, None) }
    {
        if self.ended {
            return (0, Some(0));
        }
        (self.left.saturating_add(1), self.left.checked_add(1))
    }
}

impl FusedIterator for SegmentIter {}

/// Returns an iterator over the same remaining positions.
///
/// Cost: constant; it is always `Ok`, and takes no memory.
impl Clone for SegmentIter {
    ghost is_clone = { λ it copy. copy ≡ it };

    ghost is_infallible = { λ _. ⊤ };

    fn clone(&self) -> Result<Self, AllocError> {
        Ok(SegmentIter { ..*self })
    }
}
