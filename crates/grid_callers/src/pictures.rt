//! Callers of `grid_pnm`, all but the last with no proof file.
ghost use Rattle.std.specs.Prelude.{◌≡◌, ◌-◌, ◌∷◌, [], IfOk, MatchResult, if◌then◌else◌};
ghost use Rattle.grid_pnm.specs.Writing.{pgm_bytes, ppm_bytes, table_map};
ghost use Rattle.grid_pnm.specs.declared.error.PnmError.TheVariants.{Memory};

use grid::Grid;
use grid_pnm::laws::pgm_written_and_read;
use grid_pnm::{PnmError, from_pgm, from_ppm, read_header, to_pgm, to_ppm};
use std::alloc::{AllocError, Allocator, Global};

/// Draws a board of living cells, white on black.
pub fn drawn<A: Allocator>(alloc: Global, board: &Grid<bool, A>) -> Result<Vec<u8>, AllocError>
    ensures { IfOk result (λ bytes.
        bytes.items ≡ pgm_bytes (λ lives. if lives then 255 else 0) board.now.rows) }
{
    to_pgm(alloc, board, |lives| if *lives { 255 } else { 0 })
}

// The color of a height: the higher, the more red and the less blue.
fn heat(high: &u8) -> [u8; 3]
    ensures { result ≡ high.now ∷ 0 ∷ (255 - high.now) ∷ [] }
{
    [*high, 0, 255 - *high]
}

/// Draws heights from blue to red.
pub fn colored<A: Allocator>(alloc: Global, heights: &Grid<u8, A>) -> Result<Vec<u8>, AllocError>
    ensures { IfOk result (λ bytes.
        bytes.items ≡ ppm_bytes (λ high. high ∷ 0 ∷ (255 - high) ∷ []) heights.now.rows) }
{
    to_ppm(alloc, heights, heat)
}

// The mean of the three samples of a cell.
fn mean(cell: &[u8; 3]) -> u8 {
    let [red, green, blue] = *cell;
    ((u16::from(red) + u16::from(green) + u16::from(blue)) / 3) as u8
}

/// Reads a picture, gray or colored, as a gray one.
pub fn gray(alloc: Global, bytes: &[u8]) -> Result<Grid<u8>, PnmError> {
    if !read_header(bytes)?.color {
        return from_pgm(alloc, bytes);
    }
    let colors = from_ppm(alloc, bytes)?;
    let grays = colors.map_ref(mean)?;
    Ok(grays)
}

/// Reads a gray picture, and turns it to the right.
pub fn turned(alloc: Global, bytes: &[u8]) -> Result<Grid<u8>, PnmError> {
    let mut picture = from_pgm(alloc, bytes)?;
    picture.rotate_right();
    Ok(picture)
}

// The gray of a cell in a negative.
fn inverted(cell: &u8) -> u8
    ensures { result ≡ 255 - cell.now }
{
    255 - *cell
}

/// The negative of a gray board, through a picture.
pub fn negative<A: Allocator>(alloc: Global, board: &Grid<u8, A>) -> Result<Grid<u8>, PnmError>
    ensures { MatchResult result (λ negative.
        negative.rows ≡ table_map (λ x. 255 - x) board.now.rows) (λ e. e ≡ Memory) }
{
    pgm_written_and_read(alloc, board, inverted)
}
