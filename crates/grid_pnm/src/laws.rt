//! The laws of pictures as public calls.
ghost use Rattle.std.specs.Prelude.{◌≡◌, ℕ, List, All, IfOk, MatchResult, length};
ghost use Rattle.grid_pnm.specs.Prelude.{WritesBy, table_map};
ghost use Rattle.grid_pnm.specs.declared.error.PnmError.TheVariants.{Memory};

use crate::{PnmError, from_pgm, from_ppm, to_pgm, to_ppm};
use grid::{Grid, Order};
use grid_view::AsView;
use std::alloc::Global;

/// Writes a board as a gray picture, and returns the row-major grid that is read from it. Its cells are the samples
/// that `write` returns, each in the place of its cell.
///
/// Requires: `write` can always be called.
/// Fails: `Memory`, and no other error.
pub fn pgm_written_and_read<T, V: AsView<T>, F: Fn(&T) -> u8>(
    alloc: Global,
    board: &V,
    write: F,
) -> Result<Grid<u8>, PnmError>
    requires { F.IsAlwaysCallable write }
    ensures rows { (h : T → ℕ) → WritesBy F.post write h → MatchResult result
        (λ again. again.rows ≡ table_map h (V.rows board.now)) (λ e. e ≡ Memory) }
    ensures order { IfOk result (λ again. again.order ≡ Order.RowMajor) }
{
    let bytes = to_pgm(alloc, board, write)?;
    from_pgm(alloc, bytes.as_slice())
}

/// Writes a board as a colored picture, and returns the row-major grid that is read from it. Its cells are the samples
/// that `write` returns, each three in the place of their cell.
///
/// Requires: `write` can always be called.
/// Fails: `Memory`, and no other error.
pub fn ppm_written_and_read<T, V: AsView<T>, F: Fn(&T) -> [u8; 3]>(
    alloc: Global,
    board: &V,
    write: F,
) -> Result<Grid<[u8; 3]>, PnmError>
    requires { F.IsAlwaysCallable write }
    ensures rows { (h : T → List ℕ) → WritesBy F.post write h
        → All (λ row. All (λ x. length (h x) ≡ 3) row) (V.rows board.now) → MatchResult result
        (λ again. again.rows ≡ table_map h (V.rows board.now)) (λ e. e ≡ Memory) }
    ensures order { IfOk result (λ again. again.order ≡ Order.RowMajor) }
{
    let bytes = to_ppm(alloc, board, write)?;
    from_ppm(alloc, bytes.as_slice())
}
