//! Grids read from pictures.
ghost use Rattle.std.specs.Prelude.{◌≡◌, ◌⊎◌, ◌/◌, ◌≤◌, ℕ, List, Ok, Err, length, IfOk, MatchResult};
ghost use Rattle.grid_pnm.specs.Prelude.{first_chunks, sample_count, samples_of, pgm_of, ppm_of, IsOrMemory};
ghost use Rattle.grid_pnm.specs.declared.error.PnmError.TheVariants.{Memory};

use crate::samples::{plain_samples, raster, raw_samples};
use crate::{Header, PnmError, read_header};
use grid::Grid;
use std::alloc::{AllocError, Allocator};

/// Returns the row-major grid of a gray picture (PGM), raw (`P5`) or plain (`P2`): a sample for each cell, 0 for black
/// and the header's greatest for white, which [`read_header`] tells. Without rows or without columns it is the empty
/// grid.
///
///     from_pgm(alloc, b"P2 # plain\n3 2\n255\n0 7 255 3 2 1")   [[0, 7, 255], [3, 2, 1]]
///
/// Nothing after the last sample is read: other pictures may follow.
///
/// Fails: `BadMagic` of another picture; `BadNumber`, `BadMax`, `NoSpace`, `Short` or `AboveMax`, whichever comes
/// first; `Memory` if allocation fails. Nothing is allocated before it is seen that there are as many bytes as samples.
/// Cost: one allocation.
pub fn from_pgm<A: Allocator>(alloc: A, bytes: &[u8]) -> Result<Grid<u8, A>, PnmError>
    ensures { IsOrMemory 1 bytes.now (pgm_of bytes.now) result }
{
    let header = read_header(bytes)?;
    if header.color {
        return Err(PnmError::BadMagic);
    }
    let cells = gray_cells(alloc, bytes, &header)?;
    Ok(Grid::from_vec(cells, header.cols))
}

/// Returns the row-major grid of a colored picture (PPM), raw (`P6`) or plain (`P3`): a cell is its red, green and blue
/// sample. Otherwise it is as [`from_pgm`].
///
///     from_ppm(alloc, b"P3 1 2 255 255 0 0  9 8 7")   [[[255, 0, 0]], [[9, 8, 7]]]
///
/// Cost: one allocation; for a plain picture two, of which one is freed.
pub fn from_ppm<A: Allocator + Clone>(alloc: A, bytes: &[u8]) -> Result<Grid<[u8; 3], A>, PnmError>
    ensures { IsOrMemory 3 bytes.now (ppm_of bytes.now) result }
{
    let header = read_header(bytes)?;
    if !header.color {
        return Err(PnmError::BadMagic);
    }
    let cells = color_cells(alloc, bytes, &header)?;
    Ok(Grid::from_vec(cells, header.cols))
}

// The cells of a gray picture of this header.
#[tactic(auto, unfolding(crate::specs::Samples::samples_of))]
fn gray_cells<A: Allocator>(alloc: A, bytes: &[u8], header: &Header) -> Result<Vec<u8, A>, PnmError>
    requires { header.now.raster ≤ length bytes.now }
    ensures { MatchResult result
        (λ cells. (samples_of 1 bytes.now header.now ≡ Ok cells.items)
        × (length cells.items ≡ sample_count 1 header.now))
        (λ e. ((e ≡ Memory) × (sample_count 1 header.now ≤ length bytes.now))
        ⊎ (samples_of 1 bytes.now header.now ≡ Err e)) }
{
    let (count, raster) = raster(bytes, header, 1)?;
    if header.plain {
        return plain_samples(alloc, bytes.len(), header.max, count, raster);
    }
    let samples = raw_samples(header.raster, header.max, &raster[..count])?;
    let mut cells = Vec::new(alloc);
    cells.extend_from_slice(samples)?;
    Ok(cells)
}

// The cells of a colored picture of this header.
#[tactic(auto, unfolding(crate::specs::Samples::samples_of))]
fn color_cells<A: Allocator + Clone>(
    alloc: A,
    bytes: &[u8],
    header: &Header,
) -> Result<Vec<[u8; 3], A>, PnmError>
    requires { header.now.raster ≤ length bytes.now }
    ensures { MatchResult result
        (λ cells. (samples : List ℕ) × (samples_of 3 bytes.now header.now ≡ Ok samples)
        × (length samples ≡ sample_count 3 header.now)
        × (cells.items ≡ first_chunks 3 (length samples / 3) samples))
        (λ e. ((e ≡ Memory) × (sample_count 3 header.now ≤ length bytes.now))
        ⊎ (samples_of 3 bytes.now header.now ≡ Err e)) }
{
    let (count, raster) = raster(bytes, header, 3)?;
    if header.plain {
        let samples = plain_samples(alloc.clone()?, bytes.len(), header.max, count, raster)?;
        return Ok(in_threes(alloc, samples.as_slice())?);
    }
    let samples = raw_samples(header.raster, header.max, &raster[..count])?;
    Ok(in_threes(alloc, samples)?)
}

// Each three samples as a cell.
fn in_threes<A: Allocator>(alloc: A, samples: &[u8]) -> Result<Vec<[u8; 3], A>, AllocError>
    ensures { IfOk result (λ cells. cells.items
        ≡ first_chunks 3 (length samples.now / 3) samples.now) }
{
    let (threes, _) = samples.as_chunks::<3>();
    let mut cells = Vec::new(alloc);
    cells.extend_from_slice(threes)?;
    Ok(cells)
}
