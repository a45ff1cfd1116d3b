//! Directions, and the positions next to a position.
ghost use Rattle.std.specs.Prelude.{◌≡◌, ◌+◌, ◌<◌, ◌≤◌, ◌%◌, ℕ, MatchOption, IfSome};
ghost use Rattle.grid_near.specs.Prelude.{box_of, clockwise, wrapped_beside, IsBeside, IsWithin};

use crate::steps::around;

/// A direction from a cell to one that touches it. The first row is up, and the first column left.
#[derive(Clone, Copy, Debug, PartialEq, Eq)]
pub enum Direction {
    Up,
    UpRight,
    Right,
    DownRight,
    Down,
    DownLeft,
    Left,
    UpLeft,
}

impl Direction {
    /// The directions to the cells that share a side with a cell.
    pub const SIDES: [Direction; 4] = [
        Direction::Up,
        Direction::Right,
        Direction::Down,
        Direction::Left,
    ];

    /// All eight.
    pub const ALL: [Direction; 8] = [
        Direction::Up,
        Direction::UpRight,
        Direction::Right,
        Direction::DownRight,
        Direction::Down,
        Direction::DownLeft,
        Direction::Left,
        Direction::UpLeft,
    ];

    /// The directions to the cells that share only a corner with a cell.
    pub const DIAGONALS: [Direction; 4] = [
        Direction::UpRight,
        Direction::DownRight,
        Direction::DownLeft,
        Direction::UpLeft,
    ];

    /// Returns the opposite direction.
    ///
    ///     UpRight.opposite()   DownLeft
    pub fn opposite(self) -> Direction
        ensures { (a b : ℕ × ℕ) → IsBeside self a b → IsBeside result b a }
    {
        match self {
            Direction::Up => Direction::Down,
            Direction::UpRight => Direction::DownLeft,
            Direction::Right => Direction::Left,
            Direction::DownRight => Direction::UpLeft,
            Direction::Down => Direction::Up,
            Direction::DownLeft => Direction::UpRight,
            Direction::Left => Direction::Right,
            Direction::UpLeft => Direction::DownRight,
        }
    }

    /// Returns the direction that is so many eighths of a turn on, clockwise: 2 are a quarter to the right, 6 a quarter
    /// to the left.
    ///
    ///     Up.turned(1)     UpRight
    ///     Left.turned(2)   Up
    pub fn turned(self, eighths: usize) -> Direction
        ensures { clockwise result ≡ (clockwise self + eighths) % 8 }
    {
        match (self.index() + eighths % 8) % 8 {
            0 => Direction::Up,
            1 => Direction::UpRight,
            2 => Direction::Right,
            3 => Direction::DownRight,
            4 => Direction::Down,
            5 => Direction::DownLeft,
            6 => Direction::Left,
            _ => Direction::UpLeft,
        }
    }

    // The index of a direction, clockwise from the one up.
    pub(crate) fn index(self) -> usize
        ensures is { result ≡ clockwise self }
        ensures below { result < 8 }
    {
        match self {
            Direction::Up => 0,
            Direction::UpRight => 1,
            Direction::Right => 2,
            Direction::DownRight => 3,
            Direction::Down => 4,
            Direction::DownLeft => 5,
            Direction::Left => 6,
            Direction::UpLeft => 7,
        }
    }

    /// Returns the position that is one step from `at`, if it is within `size.0` rows and `size.1` columns.
    ///
    ///     Right.step((2, 3), (0, 1))   Some((0, 2))
    ///     Right.step((2, 3), (0, 2))   None
    ///
    /// Cost: constant.
    pub fn step(self, size: (usize, usize), at: (usize, usize)) -> Option<(usize, usize)>
        ensures { MatchOption result
            ((to : _) → IsBeside self at to → IsWithin size to → ⊥)
            (λ to. IsBeside self at to × IsWithin size to) }
    {
        let (i, j) = self.in_box();
        // a step back from index 0 wraps to `usize::MAX`, which no size has
        let to = (
            at.0.checked_add(i)?.wrapping_sub(1),
            at.1.checked_add(j)?.wrapping_sub(1),
        );
        if to.0 < size.0 && to.1 < size.1 {
            Some(to)
        } else {
            None
        }
    }

    /// Returns the position that is one step from `at` on a board of `size.0` rows and `size.1` columns whose edges
    /// meet: the first row comes after the last, and so do the columns. Returns `None` exactly where `at` is out of
    /// range.
    ///
    ///     Right.wrapped_step((2, 3), (0, 1))    Some((0, 2))
    ///     Right.wrapped_step((2, 3), (0, 2))    Some((0, 0))
    ///     UpLeft.wrapped_step((2, 3), (0, 0))   Some((1, 2))
    ///
    /// Cost: constant; no division.
    pub fn wrapped_step(self, size: (usize, usize), at: (usize, usize)) -> Option<(usize, usize)>
        ensures to { MatchOption result (IsWithin size at → ⊥)
            (λ to. IsWithin size at × (to ≡ wrapped_beside self size at)) }
        ensures in_range { IfSome result (IsWithin size) }
    {
        if size.0 <= at.0 || size.1 <= at.1 {
            return None;
        }
        let (i, j) = self.in_box();
        Some((around(size.0, at.0, i), around(size.1, at.1, j)))
    }

    // The row and the column of the cell in this direction, of three rows and columns.
    fn in_box(self) -> (usize, usize)
        ensures is { result ≡ box_of self }
        ensures row { result.0 ≤ 2 }
        ensures col { result.1 ≤ 2 }
    {
        match self {
            Direction::Up => (0, 1),
            Direction::UpRight => (0, 2),
            Direction::Right => (1, 2),
            Direction::DownRight => (2, 2),
            Direction::Down => (2, 1),
            Direction::DownLeft => (2, 0),
            Direction::Left => (1, 0),
            Direction::UpLeft => (0, 0),
        }
    }
}
