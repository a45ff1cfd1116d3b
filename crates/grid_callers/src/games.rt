//! Structs that hold grids and are cloned.
ghost use Rattle.std.specs.Prelude.{◌≡◌, IfOk};

use grid::{Grid, Order};
use std::alloc::{AllocError, Allocator, Global};

/// A board and whose turn it is.
#[derive(Clone, Drop)]
pub struct Game {
    pub board: Grid<u8>,
    pub turn: u32,
}

/// The same of any cells.
#[derive(Clone, Drop)]
pub struct Layers<T, A: Allocator = Global> {
    pub below: Grid<T, A>,
    pub above: Grid<T, A>,
}

/// Returns a copy of a game: the same board and turn.
pub fn copy_of(game: &Game) -> Result<Game, AllocError>
    ensures board { IfOk result (λ copy. copy.board ≡ game.now.board) }
    ensures turn { IfOk result (λ copy. copy.turn ≡ game.now.turn) }
{
    game.clone()
}

/// Returns a copy of layers.
pub fn copy_layers(layers: &Layers<u32>) -> Result<Layers<u32>, AllocError>
    ensures { IfOk result (λ copy. copy.below ≡ layers.now.below) }
{
    layers.clone()
}

/// Clones by the bound `Clone`.
pub fn twice<C: Clone>(value: &C) -> Result<(C, C), AllocError>
    ensures { IfOk result (λ both. C.is_clone value.now both.0) }
{
    Ok((value.clone()?, value.clone()?))
}

/// Two boards that are the same.
pub fn two_boards(board: &Grid<u32>) -> Result<(Grid<u32>, Grid<u32>), AllocError>
    ensures { IfOk result (λ both. both.0 ≡ board.now) }
{
    twice(board)
}

/// A vector of boards, cloned.
pub fn history(boards: &Vec<Grid<u8>>) -> Result<Vec<Grid<u8>>, AllocError> {
    boards.clone()
}

/// By method: the inherent call.
pub fn by_method(board: &Grid<u32>) -> Result<Grid<u32>, AllocError>
    ensures { IfOk result (λ copy. copy ≡ board.now) }
{
    board.clone()
}

/// Of a cell type whose clones may differ: only the trait's.
pub fn any_cells<T: Clone>(board: &Grid<T>) -> Result<Grid<T>, AllocError> {
    Clone::clone(board)
}
