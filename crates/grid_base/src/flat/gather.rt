//! Lines of cells that are moved to the end of a vector, in either order.
ghost use Rattle.std.specs.Prelude.{◌≡◌, ◌+◌, ◌*◌, ◌^◌, ◌<◌, ◌≤◌, [], ◌++◌, length, map, flat_map, reverse, All, OnOk, OnErr, vec_len, vec_capacity};
ghost use Rattle.grid_base.specs.Prelude.{row_count, col_count, concat_rows, IsTable, storage, items_of_each, last_of, before_last};

use super::Flat;
use crate::Order;
use std::alloc::{AllocError, Allocator};

impl<T, A: Allocator> Flat<T, A> {
    /// Moves the cells of rows of `width` cells to the end, in storage order.
    ///
    ///     [0]   append_rows(RowMajor, 2, [[1, 2], [3, 4]])      [0, 1, 2, 3, 4]
    ///     [0]   append_rows(ColumnMajor, 2, [[1, 2], [3, 4]])   [0, 1, 3, 2, 4]
    ///
    /// Requires: no row is empty, all have this length, and they have fewer than 2^64 cells.
    /// Fails: if the allocation for all of them, which comes first, fails; this vector and the rows are unchanged.
    pub fn append_rows(
        &mut self,
        order: Order,
        width: usize,
        rows: &mut [Vec<T, A>],
    ) -> Result<(), AllocError>
        requires table { IsTable (items_of_each rows.old) }
        requires width { width ≡ col_count (items_of_each rows.old) }
        requires fits { row_count (items_of_each rows.old) * col_count (items_of_each rows.old)
            < 2 ^ 64 }
        ensures ok { OnOk result (self.new ≡ self.old ++ storage order (items_of_each rows.old)) }
        ensures moved { OnOk result (All (λ row. row.items ≡ []) rows.new) }
        ensures err { OnErr result (self.new ≡ self.old) }
        ensures stays { OnErr result (rows.new ≡ rows.old) }
    {
        self.cells.reserve(rows.len() * width)?;
        match order {
            Order::RowMajor => append_each(&mut self.cells, rows),
            Order::ColumnMajor => append_across(&mut self.cells, rows, width),
        }
        Ok(())
    }
}

// Moves the cells of each line to the end. There is room, so no append fails.
fn append_each<T, A: Allocator>(cells: &mut Vec<T, A>, lines: &mut [Vec<T, A>])
    requires room { vec_len cells.old + length (concat_rows (items_of_each lines.old))
        ≤ vec_capacity cells.old }
    ensures cells { cells.new.items ≡ cells.old.items ++ concat_rows (items_of_each lines.old) }
    ensures moved { All (λ line. line.items ≡ []) lines.new }
{
    for line in lines.iter_mut() {
        let _ = cells.append(line);
    }
}

// Moves the first cell of each line of a table to the end, then the second, and so on.
fn append_across<T, A: Allocator>(cells: &mut Vec<T, A>, lines: &mut [Vec<T, A>], width: usize)
    requires table { IsTable (items_of_each lines.old) }
    requires width { width ≡ col_count (items_of_each lines.old) }
    requires room { vec_len cells.old + length lines.old * width ≤ vec_capacity cells.old }
    ensures cells { cells.new.items
        ≡ cells.old.items ++ storage Order.ColumnMajor (items_of_each lines.old) }
    ensures moved { All (λ line. line.items ≡ []) lines.new }
{
    reverse_each(lines);
    for _ in 0..width {
        append_lasts(cells, lines);
    }
}

fn reverse_each<T, A: Allocator>(lines: &mut [Vec<T, A>])
    ensures { items_of_each lines.new ≡ map reverse (items_of_each lines.old) }
{
    for line in lines.iter_mut() {
        line.reverse();
    }
}

// Moves the last cell of each line to the end.
fn append_lasts<T, A: Allocator>(cells: &mut Vec<T, A>, lines: &mut [Vec<T, A>])
    requires room { vec_len cells.old + length lines.old ≤ vec_capacity cells.old }
    ensures cells { cells.new.items
        ≡ cells.old.items ++ flat_map last_of (items_of_each lines.old) }
    ensures lines { items_of_each lines.new ≡ map before_last (items_of_each lines.old) }
    ensures room { vec_capacity cells.new ≡ vec_capacity cells.old }
{
    for line in lines.iter_mut() {
        if let Some(cell) = line.pop() {
            cells.push_reserved(cell);
        }
    }
}
