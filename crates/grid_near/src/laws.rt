//! Laws of the directions, as public calls: where the lists of them have each.
ghost use Rattle.std.specs.Prelude.{◌≡◌, ◌%◌, ◌/◌, Some, slice_get};
ghost use Rattle.grid_near.specs.Prelude.{clockwise};
ghost use Rattle.grid_near.specs.declared.direction.Direction.{Direction};

use crate::direction::Direction;

/// Returns where [`Direction::ALL`] has a direction: they come clockwise, from the one up.
///
///     stands_in_all(Right)   2
pub fn stands_in_all(way: Direction) -> usize
    ensures place { slice_get Direction.ALL result ≡ Some way }
    ensures clockwise { result ≡ clockwise way }
{
    way.index()
}

/// Returns where [`Direction::SIDES`] or [`Direction::DIAGONALS`] has a direction: both come clockwise, from the first
/// that is up.
///
///     stands_among_four(Right)      1
///     stands_among_four(DownLeft)   2
pub fn stands_among_four(way: Direction) -> usize
    ensures sides { clockwise way % 2 ≡ 0 → slice_get Direction.SIDES result ≡ Some way }
    ensures diagonals { clockwise way % 2 ≡ 1 → slice_get Direction.DIAGONALS result ≡ Some way }
    ensures place { result ≡ clockwise way / 2 }
{
    match way {
        Direction::Up | Direction::UpRight => 0,
        Direction::Right | Direction::DownRight => 1,
        Direction::Down | Direction::DownLeft => 2,
        Direction::Left | Direction::UpLeft => 3,
    }
}
