//! The laws of texts as public calls.
ghost use Rattle.std.specs.Prelude.{◌≡◌, ℕ, Option, List, All, IfOk, IfErr};
ghost use Rattle.grid_text.specs.Prelude.{ReadsBy, ReadsWordsBy, WritesBy, ReadsBack, ReadsNumber};
ghost use Rattle.grid_text.specs.declared.error.TextError.TheVariants.{Memory};

use crate::{TextError, from_text, from_words, to_text, to_words};
use grid::{Grid, Whole};
use grid_view::AsView;
use std::alloc::Global;

/// Writes a board as a text, and returns the grid that is read from it: one of the same rows, where `read` gives each
/// cell back from its character, and no cell is written as a line feed or a carriage return.
///
/// Requires: `write` and `read` can always be called.
/// Fails: `Memory`, and, where cells are given back so, no other error.
pub fn written_and_read<T, V, W, R>(
    alloc: Global,
    board: &V,
    write: W,
    read: R,
) -> Result<Grid<T>, TextError>
where
    T: Drop,
    V: AsView<T>,
    W: Fn(&T) -> char,
    R: Fn(char) -> Option<T>,
    requires write { W.IsAlwaysCallable write }
    requires read { R.IsAlwaysCallable read }
    ensures ok { (w : T → ℕ) (h : ℕ → Option T) → WritesBy W.post write w → ReadsBy R.post read h
        → All (λ row. All (ReadsBack w h) row) (V.rows board.now)
        → IfOk result (λ again. again.rows ≡ V.rows board.now) }
    ensures err { (w : T → ℕ) (h : ℕ → Option T) → WritesBy W.post write w → ReadsBy R.post read h
        → All (λ row. All (ReadsBack w h) row) (V.rows board.now) → IfErr result (λ e. e ≡ Memory) }
{
    let text = to_text(alloc, board, write)?;
    from_text(alloc, text.as_str(), read)
}

/// Writes a board of integers as a text of words, and returns the grid that is read from it: one of the same rows,
/// where `read` gives each cell back from its decimals.
///
/// Requires: `read` can always be called.
/// Fails: `Memory`, and, where cells are given back so, no other error.
pub fn numbers_written_and_read<T, V, R>(
    alloc: Global,
    board: &V,
    read: R,
) -> Result<Grid<T>, TextError>
where
    T: Whole + Drop,
    V: AsView<T>,
    R: Fn(&str) -> Option<T>,
    requires { R.IsAlwaysCallable read }
    ensures ok { (h : List ℕ → Option T) → ReadsWordsBy R.post read h
        → All (λ row. All (ReadsNumber T.whole h) row) (V.rows board.now)
        → IfOk result (λ again. again.rows ≡ V.rows board.now) }
    ensures err { (h : List ℕ → Option T) → ReadsWordsBy R.post read h
        → All (λ row. All (ReadsNumber T.whole h) row) (V.rows board.now)
        → IfErr result (λ e. e ≡ Memory) }
{
    let text = to_words(alloc, board)?;
    from_words(alloc, text.as_str(), read)
}
