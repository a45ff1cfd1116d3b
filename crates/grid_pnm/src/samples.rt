//! The samples of a picture.
ghost use Rattle.std.specs.Prelude.{◌≡◌, ◌⊎◌, ◌+◌, ◌^◌, ◌<◌, ◌≤◌, Ok, Err, length, drop, nat_lt, position, IfSome, MatchOption, MatchResult};
ghost use Rattle.grid_pnm.specs.Prelude.{next_sample, plain_samples, raw_samples, sample_count};
ghost use Rattle.grid_pnm.specs.declared.error.PnmError.TheVariants.{Short, Memory};

use crate::scan::{after_gap, next_number};
use crate::{Header, PnmError};
use std::alloc::Allocator;

// The bytes after the header, and how many samples they are to have, `channels` for each cell.
pub(crate) fn raster<'a>(
    bytes: &'a [u8],
    header: &Header,
    channels: usize,
) -> Result<(usize, &'a [u8]), PnmError>
    requires raster { header.now.raster ≤ length bytes.now }
    requires channels { 0 < channels }
    ensures { MatchResult result
        (λ found. (found.0 ≡ sample_count channels header.now)
        × (found.1.now ≡ drop header.now.raster bytes.now) × (found.0 ≤ length found.1.now))
        (λ e. (e ≡ Short header.now.raster header.now.rows header.now.cols)
        × (length (drop header.now.raster bytes.now) < sample_count channels header.now)) }
{
    let raster = &bytes[header.raster..];
    match sample_count(header, channels) {
        Some(count) if count <= raster.len() => Ok((count, raster)),
        _ => Err(PnmError::Short {
            at: header.raster,
            rows: header.rows,
            cols: header.cols,
        }),
    }
}

// How many samples a picture has, if a `usize` can say it.
fn sample_count(header: &Header, channels: usize) -> Option<usize>
    requires { 0 < channels }
    ensures { MatchOption result (2 ^ 64 ≤ sample_count channels header.now)
        (λ count. count ≡ sample_count channels header.now) }
{
    header.rows.checked_mul(header.cols)?.checked_mul(channels)
}

// The samples that these bytes are, which begin at this offset.
pub(crate) fn raw_samples(at: usize, max: u8, bytes: &[u8]) -> Result<&[u8], PnmError>
    requires { at + length bytes.now < 2 ^ 64 }
    ensures { MatchResult result
        (λ samples. (raw_samples at max bytes.now ≡ Ok bytes.now) × (samples.now ≡ bytes.now))
        (λ e. raw_samples at max bytes.now ≡ Err e) }
{
    if max == u8::MAX {
        return Ok(bytes);
    }
    match first_above(max, bytes) {
        None => Ok(bytes),
        Some(above) => Err(PnmError::AboveMax {
            sample: bytes[above] as usize,
            at: at + above,
            max,
        }),
    }
}

// Where the first sample above the greatest is.
fn first_above(max: u8, bytes: &[u8]) -> Option<usize>
    ensures first { result ≡ position (λ sample. nat_lt max sample) bytes.now }
    ensures within { IfSome result (λ above. above < length bytes.now) }
{
    bytes.iter().position(|sample| *sample > max)
}

// `count` samples in decimals, the first after the front of these bytes, which end a picture of `len` bytes.
pub(crate) fn plain_samples<A: Allocator>(
    alloc: A,
    len: usize,
    max: u8,
    count: usize,
    bytes: &[u8],
) -> Result<Vec<u8, A>, PnmError>
    ensures { MatchResult result
        (λ samples. (plain_samples len max count bytes.now ≡ Ok samples.items)
        × (length samples.items ≡ count))
        (λ e. (e ≡ Memory) ⊎ (plain_samples len max count bytes.now ≡ Err e)) }
{
    let mut samples = Vec::with_capacity(alloc, count)?;
    let mut rest = bytes;
    while samples.len() < count {
        let (sample, later) = next_sample(len, max, rest)?;
        samples.push(sample)?;
        rest = later;
    }
    Ok(samples)
}

// The sample that the number after white space and comments is, and the rest after it.
fn next_sample(len: usize, max: u8, bytes: &[u8]) -> Result<(u8, &[u8]), PnmError>
    ensures { MatchResult result
        (λ sample. next_sample len max bytes.now ≡ Ok (sample.0, sample.1.now))
        (λ e. next_sample len max bytes.now ≡ Err e) }
{
    let (sample, rest) = next_number(len, bytes)?;
    if sample > max as usize {
        let at = len.saturating_sub(after_gap(bytes).len());
        return Err(PnmError::AboveMax { sample, at, max });
    }
    Ok((sample as u8, rest))
}
