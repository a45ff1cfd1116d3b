//! The law of CSV as a public call.
ghost use Rattle.std.specs.Prelude.{◌≡◌, ℕ, List, All, IfOk, IfErr, map};
ghost use Rattle.grid_csv.specs.Prelude.{ReadsBack, WritesBy};
ghost use Rattle.grid_csv.specs.declared.error.CsvError.TheVariants.{Memory};

use crate::{CsvError, from_csv, to_csv};
use grid::{Grid, Order};
use grid_view::AsView;
use std::alloc::{AllocError, Global};

/// Writes a board as CSV, and returns the row-major grid that is read from it: one of the same rows, where `read` gives
/// each cell back from its text, or of the same texts, where it gives some cell of the same text, as of strings. No
/// text of a cell begins with a byte order mark.
///
/// Requires: `write` and `read` can always be called.
/// Fails: `Memory`, and, where cells are given back so, no other error.
pub fn written_and_read<T, V, W, R>(
    alloc: Global,
    board: &V,
    write: W,
    read: R,
) -> Result<Grid<T>, CsvError>
where
    T: Drop,
    V: AsView<T>,
    W: Fn(&T, &mut String) -> Result<(), AllocError>,
    R: Fn(&str) -> Result<Option<T>, AllocError>,
    requires write { W.IsAlwaysCallable write }
    requires read { R.IsAlwaysCallable read }
    ensures same { (w : T → List ℕ) → WritesBy W.post write w
        → All (λ row. All (ReadsBack w R.post read (λ x y. y ≡ x)) row) (V.rows board.now)
        → IfOk result (λ again. again.rows ≡ V.rows board.now) }
    ensures texts { (w : T → List ℕ) → WritesBy W.post write w
        → All (λ row. All (ReadsBack w R.post read (λ x y. w y ≡ w x)) row) (V.rows board.now)
        → IfOk result (λ again. map (map w) again.rows ≡ map (map w) (V.rows board.now)) }
    ensures order { IfOk result (λ again. again.order ≡ Order.RowMajor) }
    ensures err { (w : T → List ℕ) → WritesBy W.post write w
        → All (λ row. All (ReadsBack w R.post read (λ x y. w y ≡ w x)) row) (V.rows board.now)
        → IfErr result (λ e. e ≡ Memory) }
{
    let text = to_csv(alloc, board, write)?;
    from_csv(alloc, text.as_bytes(), read)
}
