//! Moves of a game that are made, looked at and taken back, with no proof file.
ghost use Rattle.std.specs.Prelude.{◌≡◌, OnOk};
ghost use Rattle.grid_changes.specs.Timeline.{board_of};

use grid::Command;
use grid_changes::History;
use std::alloc::AllocError;

/// Makes a move, as a search does: puts a piece at a position and returns how many like it are around it, or `None`
/// where the position isn't on the board. Then the move is taken back, and the board and what can be undone are as
/// before.
///
///     [[1, 1], [0, 0]]   after_move((1, 0), 1)   Some(2)
pub fn after_move(
    game: &mut History<u8>,
    at: (usize, usize),
    piece: u8,
) -> Result<Option<usize>, AllocError>
    ensures board { OnOk result (board_of game.new.grid ≡ board_of game.old.grid) }
    ensures past { OnOk result (game.new.past ≡ game.old.past) }
{
    if !game.grid().contains(at) {
        return Ok(None);
    }
    game.step(Command::Set(at.0, at.1, piece))?;
    let near = game.grid().count_neighbors8(at, |cell| *cell == piece);
    game.undo()?;
    Ok(Some(near))
}
