//! Where the cells of a row are in the storage of a table: a start, an end and a stride.
ghost use Rattle.std.specs.Prelude.{◌+◌, ◌*◌, ◌<◌};
ghost use Rattle.grid_base.specs.Prelude.{place, IsSpan};

use crate::{Layout, Order};

// The places from `start` on and before `end`, each `stride` after the last.
#[derive(Drop)]
pub(super) struct Span {
    pub(super) start: usize,
    pub(super) end: usize,
    pub(super) stride: usize,
}

// Returns where the cells of row `r` are.
#[tactic(auto, using(crate::proofs::SpanLemmas::together_is, crate::proofs::SpanLemmas::across_is))]
pub(super) fn row_span(layout: Layout, r: usize) -> Span
    requires row_in { r < layout.rows }
    requires wide { 0 < layout.cols }
    ensures { IsSpan layout.cols (λ c. place layout.order layout.rows layout.cols r c)
        (layout.rows * layout.cols) result }
{
    match layout.order {
        // there is one place here, so that a loop over such rows has no inner loop
        _ if layout.cols == 1 => Span {
            start: r,
            end: r + 1,
            stride: 1,
        },
        Order::RowMajor => Span {
            start: r * layout.cols,
            end: r * layout.cols + layout.cols,
            stride: 1,
        },
        Order::ColumnMajor => Span {
            start: r,
            end: layout.cols * layout.rows,
            stride: layout.rows,
        },
    }
}
