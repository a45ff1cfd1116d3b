//! The commands of the lists: each kind, with places in range and past it, and lines that fit and that don't.
use grid::{Command, Symmetry};
use std::alloc::{AllocError, Global};
use test_support::fixtures::{SYMMETRIES, line_from};

// Lines in range of a table of two, and one past its end.
const PLACES: [usize; 3] = [0, 1, 2];

// Where lines are put, and one past that.
const GAPS: [usize; 4] = [0, 1, 2, 3];

// How many lines are padded or deleted.
const COUNTS: [usize; 4] = [0, 1, 2, usize::MAX];

// The cells that are read and written.
const CELLS: [(usize, usize); 4] = [(0, 0), (1, 1), (0, 2), (2, 0)];

// The pairs of cells that are exchanged.
const PAIRS: [((usize, usize), (usize, usize)); 5] = [
    ((0, 0), (0, 1)),
    ((1, 0), (0, 1)),
    ((0, 0), (0, 0)),
    ((2, 0), (0, 0)),
    ((0, 0), (0, 2)),
];

// The lengths of several lines.
const GROUPS: [&[usize]; 7] = [&[], &[1], &[2], &[1, 1], &[2, 2], &[1, 2], &[2, 0]];

/// Returns all commands.
pub fn all_commands(alloc: Global) -> Result<Vec<Command<u32>>, AllocError> {
    let mut commands = Vec::new(alloc);
    commands.push(Command::Size)?;
    push_cell_commands(&mut commands)?;
    push_reads(&mut commands)?;
    push_pushes(alloc, &mut commands)?;
    push_inserts(alloc, &mut commands)?;
    push_groups(alloc, &mut commands)?;
    push_removals(&mut commands)?;
    push_ranges(&mut commands)?;
    push_pads(&mut commands)?;
    commands.push(Command::Fill(50))?;
    commands.push(Command::Clear)?;
    for symmetry in SYMMETRIES {
        commands.push(Command::Apply(symmetry))?;
    }
    Ok(commands)
}

fn push_cell_commands(commands: &mut Vec<Command<u32>>) -> Result<(), AllocError> {
    for (row, col) in CELLS {
        commands.push(Command::Get(row, col))?;
        commands.push(Command::Set(row, col, 60))?;
    }
    for (a, b) in PAIRS {
        commands.push(Command::Swap(a, b))?;
    }
    Ok(())
}

fn push_reads(commands: &mut Vec<Command<u32>>) -> Result<(), AllocError> {
    for at in PLACES {
        commands.push(Command::Row(at))?;
        commands.push(Command::Col(at))?;
    }
    Ok(())
}

// Lines of no cell up to three.
fn push_pushes(alloc: Global, commands: &mut Vec<Command<u32>>) -> Result<(), AllocError> {
    for len in 0..4 {
        commands.push(Command::PushRow(line_from(alloc, 11, len)?))?;
        commands.push(Command::PushCol(line_from(alloc, 11, len)?))?;
    }
    Ok(())
}

fn push_inserts(alloc: Global, commands: &mut Vec<Command<u32>>) -> Result<(), AllocError> {
    for at in GAPS {
        for len in 0..3 {
            commands.push(Command::InsertRow(at, line_from(alloc, 21, len)?))?;
            commands.push(Command::InsertCol(at, line_from(alloc, 21, len)?))?;
        }
    }
    Ok(())
}

// Lines of these lengths.
fn group(alloc: Global, lens: &[usize]) -> Result<Vec<Vec<u32>>, AllocError> {
    let mut lines = Vec::new(alloc);
    let mut first = 31u32;
    for len in lens {
        lines.push(line_from(alloc, first, *len)?)?;
        first = first.saturating_add(5);
    }
    Ok(lines)
}

fn push_groups(alloc: Global, commands: &mut Vec<Command<u32>>) -> Result<(), AllocError> {
    for at in GAPS {
        for lens in GROUPS {
            commands.push(Command::InsertRows(at, group(alloc, lens)?))?;
            commands.push(Command::InsertCols(at, group(alloc, lens)?))?;
        }
    }
    Ok(())
}

fn push_removals(commands: &mut Vec<Command<u32>>) -> Result<(), AllocError> {
    commands.push(Command::PopRow)?;
    commands.push(Command::PopCol)?;
    for at in PLACES {
        commands.push(Command::RemoveRow(at))?;
        commands.push(Command::RemoveCol(at))?;
        commands.push(Command::DeleteRow(at))?;
        commands.push(Command::DeleteCol(at))?;
    }
    Ok(())
}

fn push_ranges(commands: &mut Vec<Command<u32>>) -> Result<(), AllocError> {
    for start in PLACES {
        for count in COUNTS {
            commands.push(Command::DeleteRows(start, count))?;
            commands.push(Command::DeleteCols(start, count))?;
        }
    }
    Ok(())
}

fn push_pads(commands: &mut Vec<Command<u32>>) -> Result<(), AllocError> {
    for count in COUNTS {
        commands.push(Command::ExpandRows(count))?;
        commands.push(Command::ExpandCols(count))?;
        commands.push(Command::PrependRows(count))?;
        commands.push(Command::PrependCols(count))?;
    }
    Ok(())
}

/// Returns the list of a symmetry and copies of the commands after it.
pub fn list_of(
    alloc: Global,
    symmetry: Symmetry,
    after: &[&Command<u32>],
) -> Result<Vec<Command<u32>>, AllocError> {
    let mut list = Vec::new(alloc);
    list.push(Command::Apply(symmetry))?;
    for command in after {
        list.push(copy(alloc, command)?)?;
    }
    Ok(list)
}

/// Returns copies of commands.
pub fn copies(alloc: Global, commands: &[Command<u32>]) -> Result<Vec<Command<u32>>, AllocError> {
    let mut copied = Vec::with_capacity(alloc, commands.len())?;
    for command in commands {
        copied.push(copy(alloc, command)?)?;
    }
    Ok(copied)
}

/// Returns copies of all commands, from one of them on; the first follows the last.
pub fn all_from(
    alloc: Global,
    commands: &[Command<u32>],
    first: usize,
) -> Result<Vec<Command<u32>>, AllocError> {
    let mut list = copies(alloc, &commands[first.min(commands.len())..])?;
    for command in commands.iter().take(first) {
        list.push(copy(alloc, command)?)?;
    }
    Ok(list)
}

fn copy_line(alloc: Global, line: &Vec<u32>) -> Result<Vec<u32>, AllocError> {
    Vec::from_slice(alloc, line.as_slice())
}

fn copy_lines(alloc: Global, lines: &Vec<Vec<u32>>) -> Result<Vec<Vec<u32>>, AllocError> {
    let mut copied = Vec::with_capacity(alloc, lines.len())?;
    for line in lines {
        copied.push(copy_line(alloc, line)?)?;
    }
    Ok(copied)
}

/// Returns a copy of a command.
pub fn copy(alloc: Global, command: &Command<u32>) -> Result<Command<u32>, AllocError> {
    Ok(match command {
        Command::PushRow(line) => Command::PushRow(copy_line(alloc, line)?),
        Command::PushCol(line) => Command::PushCol(copy_line(alloc, line)?),
        Command::InsertRow(at, line) => Command::InsertRow(*at, copy_line(alloc, line)?),
        Command::InsertCol(at, line) => Command::InsertCol(*at, copy_line(alloc, line)?),
        Command::InsertRows(at, lines) => Command::InsertRows(*at, copy_lines(alloc, lines)?),
        Command::InsertCols(at, lines) => Command::InsertCols(*at, copy_lines(alloc, lines)?),
        other => copy_short(other),
    })
}

// A copy of a command that has no lines; of one that has, `Size`.
fn copy_short(command: &Command<u32>) -> Command<u32> {
    match command {
        Command::Get(row, col) => Command::Get(*row, *col),
        Command::Row(at) => Command::Row(*at),
        Command::Col(at) => Command::Col(*at),
        Command::Set(row, col, cell) => Command::Set(*row, *col, *cell),
        Command::Swap(a, b) => Command::Swap(*a, *b),
        Command::PopRow => Command::PopRow,
        Command::PopCol => Command::PopCol,
        Command::RemoveRow(at) => Command::RemoveRow(*at),
        Command::RemoveCol(at) => Command::RemoveCol(*at),
        Command::DeleteRow(at) => Command::DeleteRow(*at),
        Command::DeleteCol(at) => Command::DeleteCol(*at),
        Command::DeleteRows(start, count) => Command::DeleteRows(*start, *count),
        Command::DeleteCols(start, count) => Command::DeleteCols(*start, *count),
        Command::ExpandRows(count) => Command::ExpandRows(*count),
        Command::ExpandCols(count) => Command::ExpandCols(*count),
        Command::PrependRows(count) => Command::PrependRows(*count),
        Command::PrependCols(count) => Command::PrependCols(*count),
        Command::Fill(cell) => Command::Fill(*cell),
        Command::Clear => Command::Clear,
        Command::Apply(symmetry) => Command::Apply(*symmetry),
        Command::Size
        | Command::PushRow(_)
        | Command::PushCol(_)
        | Command::InsertRow(_, _)
        | Command::InsertCol(_, _)
        | Command::InsertRows(_, _)
        | Command::InsertCols(_, _) => Command::Size,
    }
}
