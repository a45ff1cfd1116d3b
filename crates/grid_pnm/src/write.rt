//! Boards written as pictures.
ghost use Rattle.std.specs.Prelude.{◌≡◌, ◌++◌, ℕ, List, IfOk, OnOk};
ghost use Rattle.grid_pnm.specs.Prelude.{AllZip, concat_rows, WritesBy, AnswersCell, AnswersColor, MayDrawGrays, MayDrawColors, raw_picture, pgm_bytes, ppm_bytes};

use grid_view::{AsView, ViewLineIter};
use std::alloc::{AllocError, Allocator};

/// Returns the bytes of a gray picture (raw PGM, `P5`) of a grid or of a view: for each cell the sample that `write`
/// says, 0 for black and 255 for white.
///
///     [[0, 65], [66, 67]]   to_pgm(alloc, board, |x| *x)   "P5\n2 2\n255\n\0ABC"
///
/// Requires: `write` can be called at every cell.
/// Fails: if allocation fails.
/// Cost: one call for each cell; the vector grows to its end at once.
pub fn to_pgm<T, V: AsView<T>, B: Allocator, F: Fn(&T) -> u8>(
    alloc: B,
    board: &V,
    write: F,
) -> Result<Vec<u8, B>, AllocError>
    requires { F.IsAlwaysCallable write }
    ensures picture { (h : T → ℕ) → WritesBy F.post write h
        → IfOk result (λ bytes. bytes.items ≡ pgm_bytes h (V.rows board.now)) }
    ensures answers { IfOk result (λ bytes.
        MayDrawGrays (AnswersCell F.post write) (V.rows board.now) bytes.items) }
{
    let view = board.as_view();
    let (rows, cols) = view.size();
    let mut bytes = head(alloc, "P5", (rows, cols))?;
    if let Some(cells) = view.as_slice() {
        push_all(&mut bytes, cells, &write)?;
        return Ok(bytes);
    }
    bytes.reserve(rows.saturating_mul(cols))?;
    for row in view.iter_rows() {
        push_grays(&mut bytes, row, &write)?;
    }
    Ok(bytes)
}

/// Returns the bytes of a colored picture (raw PPM, `P6`) of a grid or of a view: for each cell the red, green and blue
/// sample that `write` says, each up to 255.
///
///     [[1], [0]]   to_ppm(alloc, board, |x| [*x, 65, 66])   "P6\n1 2\n255\n\x01AB\0AB"
///
/// Requires: `write` can be called at every cell.
/// Fails: if allocation fails.
/// Cost: one call for each cell; the vector grows as it is filled.
pub fn to_ppm<T, V: AsView<T>, B: Allocator, F: Fn(&T) -> [u8; 3]>(
    alloc: B,
    board: &V,
    write: F,
) -> Result<Vec<u8, B>, AllocError>
    requires { F.IsAlwaysCallable write }
    ensures picture { (h : T → List ℕ) → WritesBy F.post write h
        → IfOk result (λ bytes. bytes.items ≡ ppm_bytes h (V.rows board.now)) }
    ensures answers { IfOk result (λ bytes.
        MayDrawColors (AnswersColor F.post write) (V.rows board.now) bytes.items) }
{
    let view = board.as_view();
    let mut bytes = head(alloc, "P6", view.size())?;
    for row in view.iter_rows() {
        push_colors(&mut bytes, row, &write)?;
    }
    Ok(bytes)
}

// What comes before the samples of a raw picture with this magic number, of `size.0` rows and `size.1` columns.
fn head<B: Allocator>(alloc: B, magic: &str, size: (usize, usize)) -> Result<Vec<u8, B>, AllocError>
    ensures { IfOk result (λ bytes. (samples : List ℕ)
        → bytes.items ++ samples ≡ raw_picture magic.now size.0 size.1 samples) }
{
    let (rows, cols) = size;
    let mut text = String::new(alloc);
    write!(text, "{magic}\n{cols} {rows}\n{}\n", u8::MAX)?;
    Ok(text.into_bytes())
}

// Appends the sample of each of these cells, with room for all of them reserved.
fn push_all<T, B: Allocator, F: Fn(&T) -> u8>(
    bytes: &mut Vec<u8, B>,
    cells: &[T],
    write: &F,
) -> Result<(), AllocError>
    requires { F.IsAlwaysCallable write.now }
    ensures { OnOk result ((samples : _)
        × AllZip (AnswersCell F.post write.now) cells.now samples
        × (bytes.new.items ≡ bytes.old.items ++ samples)) }
{
    bytes.reserve(cells.len())?;
    for cell in cells {
        bytes.push_reserved(write(cell));
    }
    Ok(())
}

// Adds the sample of each cell of a row.
fn push_grays<T, B: Allocator, F: Fn(&T) -> u8>(
    bytes: &mut Vec<u8, B>,
    row: ViewLineIter<'_, T>,
    write: &F,
) -> Result<(), AllocError>
    requires { F.IsAlwaysCallable write.now }
    ensures { OnOk result ((samples : _)
        × AllZip (AnswersCell F.post write.now) row.entry samples
        × (bytes.new.items ≡ bytes.old.items ++ samples)) }
{
    bytes.reserve(row.len())?;
    for cell in row {
        bytes.push_reserved(write(cell));
    }
    Ok(())
}

// Adds the samples of each cell of a row.
fn push_colors<T, B: Allocator, F: Fn(&T) -> [u8; 3]>(
    bytes: &mut Vec<u8, B>,
    row: ViewLineIter<'_, T>,
    write: &F,
) -> Result<(), AllocError>
    requires { F.IsAlwaysCallable write.now }
    ensures { OnOk result ((colors : _)
        × AllZip (AnswersColor F.post write.now) row.entry colors
        × (bytes.new.items ≡ bytes.old.items ++ concat_rows colors)) }
{
    for cell in row {
        bytes.extend_from_slice(&write(cell))?;
    }
    Ok(())
}
