//! Boards written as text.
ghost use Rattle.std.specs.Prelude.{◌≡◌, ◌++◌, ◌<◌, ℕ, map, IfOk, OnOk, string_bytes};
ghost use Rattle.grid_base.specs.Table.{row, row_count};
ghost use Rattle.grid_text.specs.Prelude.{numbers, WritesBy, AnswersCell, MayWriteLine, MayWriteRows, table_text, line_of_numbers, numbers_text};

use grid::Whole;
use grid_view::{AsView, GridView, ViewLineIter};
use std::alloc::{AllocError, Global};

/// Returns a text of a grid or of a view: a line for each row, and in it the character that `write` says for each cell.
/// Each line ends in a line feed; no rows are the empty text.
///
///     [[1, 0], [0, 1]]   to_text(alloc, board, |x| if *x == 1 { '#' } else { '.' })   "#.\n.#\n"
///
/// Requires: `write` can be called at every cell.
/// Fails: if allocation fails.
/// Cost: one call for each cell; room for a byte a cell is made at once.
pub fn to_text<T, V: AsView<T>, F: Fn(&T) -> char>(
    alloc: Global,
    board: &V,
    write: F,
) -> Result<String, AllocError>
    requires { F.IsAlwaysCallable write }
    ensures text { (h : T → ℕ) → WritesBy F.post write h
        → IfOk result (λ text. string_bytes text ≡ table_text h (V.rows board.now)) }
    ensures answers { IfOk result (λ text.
        MayWriteRows (AnswersCell F.post write) (V.rows board.now) (string_bytes text)) }
{
    let view = board.as_view();
    let (rows, cols) = view.size();
    let mut text = String::with_capacity(alloc, rows.saturating_mul(cols.saturating_add(1)))?;
    for r in 0..rows {
        push_row(&mut text, &view, r, &write)?;
        text.push('\n')?;
    }
    Ok(text)
}

// Adds the characters of row `r`: of its slice, where it has one, in a loop that tests nothing else.
fn push_row<T, F: Fn(&T) -> char>(
    text: &mut String,
    view: &GridView<'_, T>,
    r: usize,
    write: &F,
) -> Result<(), AllocError>
    requires row_in { r < row_count view.now.rows }
    requires calls { F.IsAlwaysCallable write.now }
    ensures { OnOk result ((line : _)
        × MayWriteLine (AnswersCell F.post write.now) (row view.now.rows r) line
        × (string_bytes text.new ≡ string_bytes text.old ++ line)) }
{
    match view.row_slice(r) {
        Some(cells) => push_stored(text, cells, write),
        None => push_seen(text, view.iter_row(r), write),
    }
}

// Adds the characters of the cells of a slice.
fn push_stored<T, F: Fn(&T) -> char>(
    text: &mut String,
    cells: &[T],
    write: &F,
) -> Result<(), AllocError>
    requires { F.IsAlwaysCallable write.now }
    ensures { OnOk result ((line : _) × MayWriteLine (AnswersCell F.post write.now) cells.now line
        × (string_bytes text.new ≡ string_bytes text.old ++ line)) }
{
    for cell in cells {
        text.push(write(cell))?;
    }
    Ok(())
}

// Adds the characters of a row.
fn push_seen<T, F: Fn(&T) -> char>(
    text: &mut String,
    row: ViewLineIter<'_, T>,
    write: &F,
) -> Result<(), AllocError>
    requires { F.IsAlwaysCallable write.now }
    ensures { OnOk result ((line : _) × MayWriteLine (AnswersCell F.post write.now) row.entry line
        × (string_bytes text.new ≡ string_bytes text.old ++ line)) }
{
    for cell in row {
        text.push(write(cell))?;
    }
    Ok(())
}

/// Returns a text of a grid or of a view of integers: a line for each row, and in it the decimals of its cells, with a
/// space between two. Each line ends in a line feed; no rows are the empty text.
///
///     [[1, -20], [3, 4]]   to_words(alloc, board)   "1 -20\n3 4\n"
///
/// Fails: if allocation fails.
pub fn to_words<T: Whole, V: AsView<T>>(alloc: Global, board: &V) -> Result<String, AllocError>
    ensures { IfOk result
        (λ text. string_bytes text ≡ numbers_text (numbers T.whole (V.rows board.now))) }
{
    let mut text = String::new(alloc);
    for row in board.as_view().iter_rows() {
        push_numbers(&mut text, row)?;
        text.push('\n')?;
    }
    Ok(text)
}

// Adds the decimals of the cells of a row, with a space between two.
fn push_numbers<T: Whole>(text: &mut String, row: ViewLineIter<'_, T>) -> Result<(), AllocError>
    ensures { OnOk result (string_bytes text.new
        ≡ string_bytes text.old ++ line_of_numbers (map T.whole row.entry)) }
{
    let mut row = row;
    if let Some(first) = row.next() {
        let number = first.to_whole();
        write!(text, "{number}")?;
    }
    for cell in row {
        let number = cell.to_whole();
        write!(text, " {number}")?;
    }
    Ok(())
}
