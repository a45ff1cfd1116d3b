//! The ways in which a list is run, and whether each agrees with the plain program.
use crate::commands::{copies, copy};
use crate::costs::{Costs, Tallied};
use grid::{Command, Grid, Order, Reply, RunStopped, Tally, run};
use grid_deferred::run_deferred;
use std::alloc::{AllocError, Global};
use test_support::fixtures::{grid_of, numbered, shows};
use test_support::plain;

/// The size and the order of a grid before a list, whose rows have the cells 1, 2, 3, ..
#[derive(Clone, Copy)]
pub struct Start {
    /// The rows and the columns.
    pub size: (usize, usize),
    /// The order.
    pub order: Order,
}

/// A way to run a list.
#[derive(Clone, Copy, Debug)]
pub enum Way {
    /// By `run`.
    AtOnce,
    /// By `run_deferred`.
    Deferred,
    /// By `Grid::step`.
    StepByStep,
}

// What the plain program says of a list: its run gives the replies and the rows, its steps the sizes that cost goes by.
#[derive(Drop)]
struct Outcome {
    table: Vec<Vec<u32>>,
    replies: Vec<Reply<u32>>,
    order: Order,
    at_once: Tallied,
    deferred: Tallied,
}

fn plain_outcome(
    alloc: Global,
    start: Start,
    commands: &[Command<u32>],
) -> Result<Outcome, AllocError> {
    let mut stepped = numbered(alloc, start.size.0, start.size.1)?;
    let mut costs = Costs::new(start.order);
    for command in commands {
        costs.add(command, plain::size(&stepped));
        let _ = plain::step(alloc, 0, command, &mut stepped)?;
    }
    let mut table = numbered(alloc, start.size.0, start.size.1)?;
    let replies = plain::run(alloc, 0, commands, &mut table)?;
    let deferred = costs.deferred(plain::size(&table));
    Ok(Outcome {
        table,
        replies,
        order: costs.order,
        at_once: costs.at_once(),
        deferred,
    })
}

// Whether a grid has the rows and the order that are wanted, and the tally the counts of this way.
fn agrees(grid: &Grid<u32>, tally: &Tally, way: Way, want: &Outcome) -> bool {
    let counts = match way {
        Way::AtOnce | Way::StepByStep => want.at_once,
        Way::Deferred => want.deferred,
    };
    (tally.symmetry(), tally.shift()) == counts && shows(grid, &want.table, want.order)
}

fn replied(ran: &Result<Vec<Reply<u32>>, RunStopped<u32>>, want: &Outcome) -> bool {
    match ran {
        Ok(replies) => *replies == want.replies,
        Err(_) => false,
    }
}

// Whether each command on its own has its reply.
fn step_replied(
    alloc: Global,
    grid: &mut Grid<u32>,
    commands: &[Command<u32>],
    tally: &mut Tally,
    want: &Outcome,
) -> Result<bool, AllocError> {
    let mut left = want.replies.iter();
    for command in commands {
        let reply = grid.step(copy(alloc, command)?, tally)?;
        if left.next() != Some(&reply) {
            return Ok(false);
        }
    }
    Ok(left.next().is_none())
}

// Whether a way to run commands does what is wanted.
fn holds(
    alloc: Global,
    grid: &mut Grid<u32>,
    commands: &[Command<u32>],
    way: Way,
    want: &Outcome,
) -> Result<bool, AllocError> {
    let mut tally = Tally::new();
    let same_replies = match way {
        Way::AtOnce => {
            let list = copies(alloc, commands)?;
            replied(&run(alloc, grid, list, &mut tally), want)
        }
        Way::Deferred => {
            let list = copies(alloc, commands)?;
            replied(&run_deferred(alloc, grid, list, &mut tally), want)
        }
        Way::StepByStep => step_replied(alloc, grid, commands, &mut tally, want)?,
    };
    Ok(same_replies && agrees(grid, &tally, way, want))
}

/// Returns the first way to run commands that does not do what the plain program does, or `None` where each does.
pub fn differing_way(
    alloc: Global,
    start: Start,
    commands: &[Command<u32>],
) -> Result<Option<Way>, AllocError> {
    let want = plain_outcome(alloc, start, commands)?;
    let table = numbered(alloc, start.size.0, start.size.1)?;
    for way in [Way::AtOnce, Way::Deferred, Way::StepByStep] {
        let same = match grid_of(alloc, &table, start.order) {
            Ok(mut grid) => holds(alloc, &mut grid, commands, way, &want)?,
            Err(_) => false,
        };
        if !same {
            return Ok(Some(way));
        }
    }
    Ok(None)
}
