//! What a closure comes to over the cells of a line, and the closure as it is then.
ghost use Rattle.std.specs.Prelude.{◌<◌, List};
ghost use Rattle.std.specs.Iterator.{CallableInFold, Drains, FoldTurn, IsFinite};
ghost use Rattle.std.specs.List.{FoldsTo};
ghost use Rattle.grid_base.specs.Prelude.{row, row_count};
ghost use Rattle.grid_view.specs.Folded.{CallableOver, GoesOver};

use crate::view::GridView;
use grid_base::SteppedIter;

// Returns the closure, and what it comes to from `init` on over the items of an iterator.
fn fold_items<I: Iterator, B, F: FnMut(B, I::Item) -> B>(mut items: I, init: B, mut f: F) -> (F, B)
    requires can { I.can_next items }
    requires finite { IsFinite (I.remaining items) }
    requires callable { CallableInFold I.next_gives F.FnMut items f init }
    ensures { (xs : List I.Item) × Drains I.next_gives items xs
        × FoldsTo (FoldTurn F.FnMut) (f, init) xs (result.0, result.1) }
{
    let mut folded = init;
    while let Some(item) = items.next() {
        folded = f(folded, item);
    }
    (f, folded)
}

// The same over the cells that are left of a line.
pub(crate) fn fold_line<'a, T, B, F: FnMut(B, &'a T) -> B>(
    line: SteppedIter<'a, T>,
    init: B,
    f: F,
) -> (F, B)
    requires calls { CallableOver F.FnMut (f, init) line }
    ensures { GoesOver F.FnMut (f, init) line.entry (result.0, result.1) }
{
    fold_items(line, init, f)
}

// The same over the cells of a slice.
fn fold_slice<'a, T, B, F: FnMut(B, &'a T) -> B>(cells: &'a [T], init: B, f: F) -> (F, B)
    requires calls { CallableOver F.FnMut (f, init) cells.now }
    ensures { GoesOver F.FnMut (f, init) cells.now (result.0, result.1) }
{
    fold_items(cells.iter(), init, f)
}

// The same over the cells of a row, as a slice where it is one.
pub(crate) fn fold_row<'a, T, B, F: FnMut(B, &'a T) -> B>(
    view: &GridView<'a, T>,
    r: usize,
    init: B,
    f: F,
) -> (F, B)
    requires row_in { r < row_count view.now.rows }
    requires calls { CallableOver F.FnMut (f, init) (row view.now.rows r) }
    ensures { GoesOver F.FnMut (f, init) (row view.now.rows r) (result.0, result.1) }
{
    match view.row_slice(r) {
        Some(cells) => fold_slice(cells, init, f),
        None => fold_line(view.step_row(r), init, f),
    }
}
