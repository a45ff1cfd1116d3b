//! Groups that wait in a room on the stack while the cells of the lines move, each cell once. No tally counts it.
ghost use Rattle.std.specs.Prelude.{◌≡◌, ◌+◌, ◌*◌, ◌<◌, ◌≤◌, ◌++◌, false, length, take, drop, slice_range};
ghost use Rattle.grid_base.specs.Prelude.{Filled, SameOutside, slots_items, slots_filled, slots_len, SamePlaces, Refills, FitsRoom, Woven, GroupsMoved, HasGroups};

use super::Groups;
use core::slots::{Slots, with_room, with_slots};

// Which way groups move: into the lines, from their end on, or out of the lines.
#[derive(Clone, Copy)]
pub(super) enum Way {
    In,
    Out,
}

// Moves the groups, which fit the room.
pub(super) fn move_through_room<T>(cells: &mut [T], groups: Groups, way: Way)
    requires lines { 0 < groups.lines }
    requires some { 0 < length cells.old }
    requires cells { length cells.old ≡ groups.lines * (groups.width + groups.count) }
    requires fits { FitsRoom T.row (groups.lines * groups.count) }
    ensures { GroupsMoved way groups cells.old cells.new }
{
    let mut nothing = ();
    unsafe { with_slots(cells, &mut nothing, (groups, way), move_on_stack) }
}

// Out of line, so that the room is no part of a caller's frame.
#[inline(never)]
fn move_on_stack<T>(row: Slots<T>, state: (), job: (Groups, Way)) -> (Slots<T>, (), ())
    requires row { HasGroups job.0 row }
    requires fits { FitsRoom T.row (job.0.lines * job.0.count) }
    ensures row { Refills row result.0 }
    ensures moved { GroupsMoved job.1 job.0 (slots_items row) (slots_items result.0) }
{
    let (groups, way) = job;
    let count = groups.lines * groups.count;
    let moved = match way {
        Way::In => unsafe { with_room(count, (row, groups), weave_row) },
        Way::Out => unsafe { with_room(count, (row, groups), unweave_row) },
    };
    (moved, state, ())
}

// `move_run`, but a single value moves without a call of `memmove`.
fn move_group<T>(from: &mut Slots<T>, at: usize, other: &mut Slots<T>, to: usize, count: usize)
    requires from { at + count ≤ slots_len from.old }
    requires to { to + count ≤ slots_len other.old }
    requires full { Filled (slots_filled from.old) at (at + count) }
    ensures left { (slots_items from.new ≡ slots_items from.old)
        × SameOutside false (slots_filled from.old) (slots_filled from.new) at (at + count) }
    ensures items { slots_items other.new ≡ take to (slots_items other.old)
        ++ slice_range (slots_items from.old) at (at + count)
        ++ drop (to + count) (slots_items other.old) }
    ensures filled { Filled (slots_filled other.new) to (to + count)
        × SameOutside false (slots_filled other.old) (slots_filled other.new) to (to + count) }
    ensures places { SamePlaces from.old from.new × SamePlaces other.old other.new }
{
    if count == 1 {
        from.move_to(at, other, to);
    } else {
        from.move_run(at, other, to, count);
    }
}

// All groups go to the room. Then the cells after the place of each group, the last first, move to the back, and the
// group comes to its place.
fn weave_row<T>(mut room: Slots<T>, job: (Slots<T>, Groups)) -> (Slots<T>, Slots<T>)
    requires row { HasGroups job.1 job.0 }
    requires room { job.1.lines * job.1.count ≤ slots_len room }
    ensures room { SamePlaces room result.0 }
    ensures row { Refills job.0 result.1 }
    ensures woven { Woven job.1.lines job.1.width job.1.at job.1.count
        (slots_items job.0) (slots_items result.1) }
{
    let (mut row, groups) = job;
    let mut end = groups.lines * groups.width;
    row.move_run(end, &mut room, 0, groups.lines * groups.count);
    let mut line = groups.lines;
    while 0 < line {
        line -= 1;
        let start = groups.at + line * groups.width;
        let few = line * groups.count;
        row.move_within(start, start + (few + groups.count), end - start);
        move_group(&mut room, few, &mut row, start + few, groups.count);
        end = start;
    }
    (room, row)
}

// Each group goes to the room, from the first on, and the cells after it move to the front. Then all groups come after
// the lines.
fn unweave_row<T>(mut room: Slots<T>, job: (Slots<T>, Groups)) -> (Slots<T>, Slots<T>)
    requires row { HasGroups job.1 job.0 }
    requires room { job.1.lines * job.1.count ≤ slots_len room }
    ensures room { SamePlaces room result.0 }
    ensures row { Refills job.0 result.1 }
    ensures woven { Woven job.1.lines job.1.width job.1.at job.1.count
        (slots_items result.1) (slots_items job.0) }
{
    let (mut row, groups) = job;
    let kept = groups.lines * groups.width;
    let mut start = groups.at;
    for line in 0..groups.lines {
        let few = line * groups.count;
        let stretch = groups.width.min(kept - start);
        move_group(&mut row, start + few, &mut room, few, groups.count);
        row.move_within(start + (few + groups.count), start, stretch);
        start += stretch;
    }
    room.move_run(0, &mut row, kept, groups.lines * groups.count);
    (room, row)
}
