//! Reading a grid from a JSON value.
ghost use Rattle.std.specs.Prelude.{◌≡◌, map, option_map};
ghost use Rattle.grid_json.specs.Prelude.{view, items_view, members_view, contents, layout, is_field, has_unknown, parts_of, or_refuse, cols_in, items_in, cells_from, order_named, order_in, cut, reading, Gives, GivesOrMemory};

use crate::{Cell, Field, ReadError};
use grid::{Grid, Order, can_cut};
use serde_json::{Map, Value};
use std::alloc::Global;

// The parts of a grid's value that are there.
#[derive(Drop)]
struct Parts<'a> {
    cols: Option<&'a Value>,
    data: Option<&'a Value>,
    order: Option<&'a Value>,
}

fn is_field(key: &str) -> bool
    ensures { result ≡ is_field key.now }
{
    key == "cols" || key == "data" || key == "order"
}

// Whether an object has a key that no grid has.
fn has_unknown(map: &Map<String, Value>) -> bool
    ensures { result ≡ has_unknown (members_view map.now.entries) }
{
    for key in map.keys() {
        if !is_field(key.as_str()) {
            return true;
        }
    }
    false
}

// The parts by key of an object, or by index of an array.
fn parts_of(value: &Value) -> Result<Parts<'_>, ReadError>
    ensures { Gives (λ parts. record {
      cols = option_map (λ part. view part.now) parts.cols;
      data_part = option_map (λ part. view part.now) parts.«data»;
      order = option_map (λ part. view part.now) parts.order;
    }) (parts_of (view value.now)) result }
{
    match value {
        Value::Object(map) => {
            if has_unknown(map) {
                return Err(ReadError::UnknownField);
            }
            Ok(Parts {
                cols: value.get("cols"),
                data: value.get("data"),
                order: value.get("order"),
            })
        }
        Value::Array(list) => {
            if list.as_slice().len() > 3 {
                return Err(ReadError::TooLong);
            }
            Ok(Parts {
                cols: value.get(0usize),
                data: value.get(1usize),
                order: value.get(2usize),
            })
        }
        _ => Err(ReadError::NotGrid),
    }
}

fn required(part: Option<&Value>, field: Field) -> Result<&Value, ReadError>
    ensures { Gives (λ found. view found.now) (or_refuse
        (ReadError.MissingField field) (option_map (λ found. view found.now) part.entry)) result }
{
    part.ok_or(ReadError::MissingField(field))
}

fn cols_in(value: &Value) -> Result<usize, ReadError>
    ensures { result ≡ cols_in (view value.now) }
{
    let cols = value.as_u64().ok_or(ReadError::BadCols)?;
    Ok(cols as usize)
}

fn items_in(value: &Value) -> Result<&Vec<Value>, ReadError>
    ensures { Gives (λ list. items_view list.now.items) (items_in (view value.now)) result }
{
    value.as_array().ok_or(ReadError::BadData)
}

fn cells_in<T: Cell>(alloc: Global, items: &Vec<Value>) -> Result<Vec<T>, ReadError>
    ensures { GivesOrMemory (λ cells. map T.content cells.items)
        (cells_from T.read 0 (items_view items.now.items)) result }
{
    let mut cells = Vec::new(alloc);
    for (index, item) in items.iter().enumerate() {
        match T::from_cell(alloc, item)? {
            Some(cell) => cells.push(cell)?,
            None => return Err(ReadError::BadCell(index)),
        }
    }
    Ok(cells)
}

fn order_named(name: &str) -> Option<Order>
    ensures { result ≡ order_named name.now }
{
    match name {
        "RowMajor" => Some(Order::RowMajor),
        "ColumnMajor" => Some(Order::ColumnMajor),
        _ => None,
    }
}

// An absent order is row-major.
fn order_in(part: Option<&Value>) -> Result<Order, ReadError>
    ensures { result ≡ order_in (option_map (λ found. view found.now) part.entry) }
{
    let Some(value) = part else {
        return Ok(Order::RowMajor);
    };
    value
        .as_str()
        .and_then(|name| order_named(name))
        .ok_or(ReadError::BadOrder)
}

// The grid of the cells in storage order, in rows of `cols`.
fn cut<T: Drop>(cells: Vec<T>, cols: usize, order: Order) -> Result<Grid<T>, ReadError>
    ensures { Gives layout (cut order cols cells.items) result }
{
    let len = cells.len();
    if can_cut(len, cols) {
        Ok(Grid::from_vec_with_order(cells, cols, order))
    } else {
        Err(ReadError::Shape { len, cols })
    }
}

/// Returns the grid that a JSON value is: an object, or an array of `cols`, `data` and perhaps `order`. An absent
/// `order` is row-major. No data gives the empty grid, whatever `cols` is.
///
///     [2,[1,2,3,4]]   from_value(alloc)   [[1, 2], [3, 4]]
///
/// Fails: by the first of these tests that the value doesn't pass; `Memory` may come at any point.
///
///     1. NotGrid         it is neither an object nor an array
///     2. UnknownField    an object has another key than the three
///        TooLong         an array has more than three items
///     3. MissingField    cols isn't there, then data
///     4. BadCols         cols isn't an integer from 0 to usize::MAX
///     5. BadData         data isn't an array
///     6. BadCell         an item of data is no cell; the index is that of the first such item
///     7. BadOrder        order is there, and is neither the text RowMajor nor ColumnMajor
///     8. Shape           there are cells, and cols is 0 or does not divide their number
///
/// Cost: each item of `data` is read once, and each key of an object is compared with the three.
pub fn from_value<T: Cell>(alloc: Global, value: &Value) -> Result<Grid<T>, ReadError>
    ensures { GivesOrMemory (contents T.content) (reading T.read (view value.now)) result }
{
    let parts = parts_of(value)?;
    let cols = required(parts.cols, Field::Cols)?;
    let data = required(parts.data, Field::Data)?;
    let cols = cols_in(cols)?;
    let items = items_in(data)?;
    let cells = cells_in(alloc, items)?;
    let order = order_in(parts.order)?;
    cut(cells, cols, order)
}
