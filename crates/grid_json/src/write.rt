//! Writing a grid as a JSON value.
ghost use Rattle.std.specs.Prelude.{◌≡◌, IfOk, Ok, codes};
ghost use Rattle.grid_json.specs.Prelude.{number, unsigned, string, array, object, member, no_members, view, items_view, contents, order_name, value_of, reading};

use crate::Cell;
use grid::{Grid, Order};
use serde_json::{Value, json};
use std::alloc::{AllocError, Allocator, Global};

fn order_name(order: Order) -> &'static str
    ensures { result.now ≡ order_name order }
{
    match order {
        Order::RowMajor => "RowMajor",
        Order::ColumnMajor => "ColumnMajor",
    }
}

pub(crate) fn array_of(list: Vec<Value>) -> Value
    ensures { view result ≡ array (items_view list.items) }
{
    Value::Array(list)
}

fn object_of(alloc: Global, cols: usize, data: Value, order: &str) -> Result<Value, AllocError>
    ensures { IfOk result
        (λ value. view value ≡ object (member (codes "cols") (number (unsigned cols)) (member
        (codes "data") (view «data») (member (codes "order") (string order.now) no_members)))) }
{
    json!(in alloc; {"cols": cols, "data": data, "order": order})
}

/// Returns an object of `cols`, `data`, the cells in storage order, and `order`, which is read as the same rows and
/// order. The empty grid has no columns and no data.
///
///     [[1, 2], [3, 4]], column-major   to_value(alloc)   {"cols":2,"data":[1,3,2,4],"order":"ColumnMajor"}
///
/// Fails: if allocation fails.
/// Cost: each cell is written once.
pub fn to_value<T: Cell, A: Allocator>(
    alloc: Global,
    grid: &Grid<T, A>,
) -> Result<Value, AllocError>
    ensures value { IfOk result (λ value. view value ≡ value_of (contents T.content grid.now)) }
    ensures reading { IfOk result
        (λ value. reading T.read (view value) ≡ Ok (contents T.content grid.now)) }
{
    let (_, cols) = grid.size();
    let mut list = Vec::new(alloc);
    for cell in grid.flatten() {
        list.push(cell.to_cell(alloc)?)?;
    }
    object_of(alloc, cols, array_of(list), order_name(grid.order()))
}
