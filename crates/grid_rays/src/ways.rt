//! How far it is to the edge.
ghost use Rattle.std.specs.Prelude.{◌≡◌, ◌+◌, ◌^◌, ◌<◌, ◌≤◌, ℕ};
ghost use Rattle.grid_near.specs.Directions.{box_of, IsWithin};
ghost use Rattle.grid_rays.specs.Steps.{HasSteps, Reaches};

use grid_near::Direction;

// The row and the column of the cell in a direction from the middle of three rows and columns.
pub(crate) fn step_of(way: Direction) -> (usize, usize)
    ensures { result ≡ box_of way }
{
    match way {
        Direction::Up => (0, 1),
        Direction::UpRight => (0, 2),
        Direction::Right => (1, 2),
        Direction::DownRight => (2, 2),
        Direction::Down => (2, 1),
        Direction::DownLeft => (2, 0),
        Direction::Left => (1, 0),
        Direction::UpLeft => (0, 0),
    }
}

// Returns how many steps lead from a position to the edge, or 0 out of range.
pub(crate) fn steps_to_edge(size: (usize, usize), at: (usize, usize), way: Direction) -> usize
    ensures reaches { HasSteps size (box_of way) at result }
    ensures beyond { IsWithin size at → (k : ℕ) → result < k → Reaches size (box_of way) at k → ⊥ }
    ensures within { 0 < result → IsWithin size at }
    ensures few { result ≤ size.0 + size.1 }
    ensures small { size.0 < 2 ^ 63 → size.1 < 2 ^ 63 → result < 2 ^ 63 }
{
    if at.0 >= size.0 || at.1 >= size.1 {
        return 0;
    }
    let (up, left) = at;
    let (down, right) = (size.0 - 1 - up, size.1 - 1 - left);
    match way {
        Direction::Up => up,
        Direction::UpRight => up.min(right),
        Direction::Right => right,
        Direction::DownRight => down.min(right),
        Direction::Down => down,
        Direction::DownLeft => down.min(left),
        Direction::Left => left,
        Direction::UpLeft => up.min(left),
    }
}
