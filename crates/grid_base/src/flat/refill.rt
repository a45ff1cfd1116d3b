//! Cells that wait in a room on the stack while clones of a value are made in their places. If a clone fails, they come
//! back.
ghost use Rattle.std.specs.Prelude.{◌≡◌, ◌<◌, ◌≤◌, length, replicate, OnOk, OnErr};
ghost use Rattle.grid_base.specs.Prelude.{ClonesAreEqual, Filled, slots_items, slots_filled, slots_len, SamePlaces, Refills, FitsRoom, IsFull, FilledBy, PutBack};

use core::slots::{Slots, with_room, with_slots};
use std::alloc::AllocError;

// Makes every cell a clone of the value, and the last the value itself. The cells fit the room. Where a clone can't
// fail and a cell needs no drop, the compiler sees that nothing comes back, and the room is gone.
pub(super) fn refill<T: Clone>(cells: &mut [T], value: T) -> Result<(), AllocError>
    requires some { 0 < length cells.old }
    requires fits { FitsRoom T.row (length cells.old) }
    ensures ok { OnOk result
        (ClonesAreEqual T.is_clone → cells.new ≡ replicate (length cells.old) value) }
    ensures len { OnOk result (length cells.new ≡ length cells.old) }
    ensures err { OnErr result (cells.new ≡ cells.old) }
{
    let mut nothing = ();
    unsafe { with_slots(cells, &mut nothing, value, refill_on_stack) }
}

fn refill_on_stack<T: Clone>(
    row: Slots<T>,
    state: (),
    value: T,
) -> (Slots<T>, (), Result<(), AllocError>)
    requires some { 0 < slots_len row }
    requires full { IsFull row }
    requires fits { FitsRoom T.row (slots_len row) }
    ensures row { Refills row result.0 }
    ensures cells { FilledBy T.is_clone value (slots_items row) (slots_items result.0) result.2 }
{
    let len = row.len();
    let (filled, done) = unsafe { with_room(len, (row, value), refill_row) };
    (filled, state, done)
}

// Each cell but the last goes to the room, and a clone comes to its place.
fn refill_row<T: Clone>(
    mut room: Slots<T>,
    job: (Slots<T>, T),
) -> (Slots<T>, (Slots<T>, Result<(), AllocError>))
    requires some { 0 < slots_len job.0 }
    requires full { IsFull job.0 }
    requires room { slots_len room ≡ slots_len job.0 }
    ensures room { SamePlaces room result.0 }
    ensures row { Refills job.0 result.1.0 }
    ensures cells { FilledBy T.is_clone job.1 (slots_items job.0) (slots_items result.1.0) result.1.1 }
{
    let (mut row, value) = job;
    let last = row.len() - 1;
    for at in 0..last {
        match value.clone() {
            Ok(cell) => {
                row.move_to(at, &mut room, at);
                row.put(at, cell);
            }
            Err(error) => {
                put_back(&mut room, &mut row, at);
                return (room, (row, Err(error)));
            }
        }
    }
    drop(row.take(last));
    row.put(last, value);
    drop_first(&mut room, last);
    (room, (row, Ok(())))
}

// The first `count` cells of the room come back to their places in the row, whose cells are dropped.
fn put_back<T: Drop>(room: &mut Slots<T>, row: &mut Slots<T>, count: usize)
    requires row { (count ≤ slots_len row.old) × IsFull row.old }
    requires room { (count ≤ slots_len room.old) × Filled (slots_filled room.old) 0 count }
    ensures room { SamePlaces room.old room.new }
    ensures row { Refills row.old row.new }
    ensures cells { PutBack count (slots_items room.old) (slots_items row.old) (slots_items row.new) }
{
    for at in 0..count {
        drop(row.take(at));
        room.move_to(at, row, at);
    }
}

fn drop_first<T: Drop>(room: &mut Slots<T>, count: usize)
    requires { (count ≤ slots_len room.old) × Filled (slots_filled room.old) 0 count }
    ensures { SamePlaces room.old room.new }
{
    for at in 0..count {
        drop(room.take(at));
    }
}
