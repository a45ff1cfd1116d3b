//! What lists of commands cost, at once and deferred, worked out from the definitions.
use grid::{Axis, Command, Order, Symmetry};
use test_support::fixtures::order_after;
use test_support::plain;

/// The symmetry count and the shift count.
pub type Tallied = (u128, u128);

/// What the commands so far cost.
#[derive(Clone, Copy)]
pub struct Costs {
    /// The order before the first command.
    first: Order,
    /// The order now.
    pub order: Order,
    /// What the symmetries so far join to.
    joined: Symmetry,
    /// The counts of a run at once.
    at_once: Tallied,
    /// The shift count of a deferred run.
    deferred_shift: u128,
}

impl Costs {
    /// Returns the costs of no commands at a grid of this order.
    pub fn new(order: Order) -> Costs {
        Costs {
            first: order,
            order,
            joined: Symmetry::Identity,
            at_once: (0, 0),
            deferred_shift: 0,
        }
    }

    /// Adds a command at a table of this size.
    pub fn add(&mut self, command: &Command<u32>, (rows, cols): (usize, usize)) {
        let shift = plain::shift(self.order, command, rows, cols);
        self.at_once.1 = self.at_once.1.saturating_add(shift);
        let carried = carried_shift(self.joined, self.first, command, (rows, cols));
        self.deferred_shift = self.deferred_shift.saturating_add(carried);
        if let Command::Apply(symmetry) = command {
            let price = plain::price(*symmetry, rows, cols);
            self.at_once.0 = self.at_once.0.saturating_add(price);
            self.order = order_after(*symmetry, self.order);
            self.joined = self.joined.then(*symmetry);
        }
    }

    /// Returns what a run at once counts.
    pub fn at_once(&self) -> Tallied {
        self.at_once
    }

    /// Returns what a deferred run counts whose final table has this size: the joined symmetry is applied once, to a
    /// base of the size before it.
    pub fn deferred(&self, size: (usize, usize)) -> Tallied {
        let (rows, cols) = base_size(self.joined, size);
        let price = plain::price(self.joined, rows, cols);
        (price, self.deferred_shift)
    }
}

fn transposes(symmetry: Symmetry) -> bool {
    matches!(
        symmetry,
        Symmetry::Transpose | Symmetry::RotateLeft | Symmetry::RotateRight | Symmetry::AntiTranspose
    )
}

// Whether the rows, or the columns, of an image are in the reversed order of the lines that they were.
fn reverses(symmetry: Symmetry, axis: Axis) -> bool {
    match axis {
        Axis::Row => matches!(
            symmetry,
            Symmetry::FlipRows
                | Symmetry::RotateHalf
                | Symmetry::RotateLeft
                | Symmetry::AntiTranspose
        ),
        Axis::Col => matches!(
            symmetry,
            Symmetry::FlipCols
                | Symmetry::RotateHalf
                | Symmetry::RotateRight
                | Symmetry::AntiTranspose
        ),
    }
}

// The size of the table whose image has this size.
fn base_size(symmetry: Symmetry, (rows, cols): (usize, usize)) -> (usize, usize) {
    if transposes(symmetry) {
        (cols, rows)
    } else {
        (rows, cols)
    }
}

// The axis of the lines that the lines of an axis of the image were.
fn base_axis(symmetry: Symmetry, axis: Axis) -> Axis {
    match (transposes(symmetry), axis) {
        (false, same) => same,
        (true, Axis::Row) => Axis::Col,
        (true, Axis::Col) => Axis::Row,
    }
}

// An edit whose shifts are counted.
#[derive(Clone, Copy)]
enum Shifting {
    Expand(usize),
    Prepend(usize),
    Delete(usize, usize),
}

// The edit of a command whose shifts are counted.
fn shifting_edit(command: &Command<u32>) -> Option<Shifting> {
    match command {
        Command::ExpandRows(count) | Command::ExpandCols(count) => Some(Shifting::Expand(*count)),
        Command::PrependRows(count) | Command::PrependCols(count) => {
            Some(Shifting::Prepend(*count))
        }
        Command::DeleteRow(at) | Command::DeleteCol(at) => Some(Shifting::Delete(*at, 1)),
        Command::DeleteRows(start, count) | Command::DeleteCols(start, count) => {
            Some(Shifting::Delete(*start, *count))
        }
        _ => None,
    }
}

// The same edit of `lines` lines in the reversed order.
fn mirrored(edit: Shifting, lines: usize) -> Shifting {
    match edit {
        Shifting::Expand(count) => Shifting::Prepend(count),
        Shifting::Prepend(count) => Shifting::Expand(count),
        Shifting::Delete(start, count) => match start.checked_add(count) {
            Some(end) if end <= lines => Shifting::Delete(lines - end, count),
            _ => edit,
        },
    }
}

// The command of an edit on lines of an axis.
fn command_on(axis: Axis, edit: Shifting) -> Command<u32> {
    match (axis, edit) {
        (Axis::Row, Shifting::Expand(count)) => Command::ExpandRows(count),
        (Axis::Col, Shifting::Expand(count)) => Command::ExpandCols(count),
        (Axis::Row, Shifting::Prepend(count)) => Command::PrependRows(count),
        (Axis::Col, Shifting::Prepend(count)) => Command::PrependCols(count),
        (Axis::Row, Shifting::Delete(start, count)) => Command::DeleteRows(start, count),
        (Axis::Col, Shifting::Delete(start, count)) => Command::DeleteCols(start, count),
    }
}

// The shift of a command on an image of this size, on the base, which has this order.
fn carried_shift(
    symmetry: Symmetry,
    order: Order,
    command: &Command<u32>,
    size: (usize, usize),
) -> u128 {
    let Some(edit) = shifting_edit(command) else {
        return 0;
    };
    let (rows, cols) = base_size(symmetry, size);
    let axis = base_axis(symmetry, command.axis());
    let lines = match axis {
        Axis::Row => rows,
        Axis::Col => cols,
    };
    let edit = if reverses(symmetry, command.axis()) {
        mirrored(edit, lines)
    } else {
        edit
    };
    plain::shift(order, &command_on(axis, edit), rows, cols)
}
