//! Scripts: a grid on the first line, then at most one command on a line.
ghost use Rattle.std.specs.Prelude.{◌≡◌, ◌+◌, IfOk, map, option_map, option_to_list};
ghost use Rattle.grid_play.specs.Prelude.{command_value, words_of, lines_of, IsOrMemory, or_fault, order_of, layout, grid_of, grid_of_words, line_commands, commands_from, script_of, script_value, cells_of};
ghost use Rattle.grid_play.specs.declared.fault.ScriptFault.TheVariants.{BadGrid};

use crate::command::parse_command;
use crate::fault::ScriptFault;
use grid::{Command, Grid, Order, can_cut};
use std::alloc::{AllocError, Allocator, Global};
use text_lines::{Lines, Words, parse_cell, parse_index};

/// A script that was read.
#[derive(Drop)]
pub struct Script<A: Allocator = Global> {
    /// The grid of its first line.
    pub grid: Grid<i64, A>,
    /// The commands of its later lines.
    pub commands: Vec<Command<i64, A>, A>,
}

impl<A: Allocator + Clone> Script<A> {
    /// Reads a script.
    ///
    /// Fails: `BadGrid` or `BadCommand` at the first line that is at fault; `Memory` if allocation fails.
    pub fn parse(alloc: A, input: &[u8]) -> Result<Script<A>, ScriptFault>
        ensures { IsOrMemory script_value (script_of input.now) result }
    {
        let mut lines = Lines::of(input);
        let Some((_, first)) = lines.next() else {
            return Err(ScriptFault::BadGrid);
        };
        let grid = parse_grid(alloc.clone()?, first)?;
        let commands = parse_commands(alloc, lines)?;
        Ok(Script { grid, commands })
    }
}

// The grid of the first line.
#[tactic(auto, unfolding(crate::specs::Script::grid_of))]
fn parse_grid<A: Allocator>(alloc: A, line: &[u8]) -> Result<Grid<i64, A>, ScriptFault>
    ensures { IsOrMemory layout (or_fault BadGrid (grid_of line.now)) result }
{
    let Some(words) = Words::of(line) else {
        return Err(ScriptFault::BadGrid);
    };
    grid_of_words(alloc, words)?.ok_or(ScriptFault::BadGrid)
}

// The order, the number of columns, and the cells in storage order.
fn grid_of_words<A: Allocator>(
    alloc: A,
    mut words: Words<'_>,
) -> Result<Option<Grid<i64, A>>, AllocError>
    ensures { IfOk result (λ grid. option_map layout grid
        ≡ grid_of_words (words_of words.entry.0.now)) }
{
    let (Some(order), Some(cols)) = (words.next(), words.next()) else {
        return Ok(None);
    };
    let (Some(order), Some(cols)) = (order_of(order), parse_index(cols)) else {
        return Ok(None);
    };
    let Some(cells) = parse_cells(alloc, words)? else {
        return Ok(None);
    };
    if !can_cut(cells.len(), cols) {
        return Ok(None);
    }
    Ok(Some(Grid::from_vec_with_order(cells, cols, order)))
}

fn order_of(word: &str) -> Option<Order>
    ensures { result ≡ order_of word.now }
{
    match word {
        "RowMajor" => Some(Order::RowMajor),
        "ColumnMajor" => Some(Order::ColumnMajor),
        _ => None,
    }
}

// The cells that the words write, or `None` where one writes no cell.
pub(crate) fn parse_cells<A: Allocator>(
    alloc: A,
    words: Words<'_>,
) -> Result<Option<Vec<i64, A>>, AllocError>
    ensures { IfOk result (λ cells. option_map (λ line. line.items) cells
        ≡ cells_of (words_of words.entry.0.now)) }
{
    let mut cells = Vec::new(alloc);
    for word in words {
        match parse_cell(word) {
            Some(cell) => cells.push(cell)?,
            None => return Ok(None),
        }
    }
    Ok(Some(cells))
}

fn parse_commands<A: Allocator + Clone>(
    alloc: A,
    lines: Lines<'_>,
) -> Result<Vec<Command<i64, A>, A>, ScriptFault>
    ensures { IsOrMemory (λ commands. map command_value commands.items)
        (commands_from (lines.entry.count + 1) (lines_of lines.entry.rest.now)) result }
{
    let mut commands = Vec::new(alloc.clone()?);
    for (number, line) in lines {
        match parse_line(alloc.clone()?, line)? {
            None => return Err(ScriptFault::BadCommand(number)),
            Some(None) => {}
            Some(Some(command)) => commands.push(command)?,
        }
    }
    Ok(commands)
}

// The command of a line, if it has one; `None` where it is neither without words nor a command.
#[tactic(auto, unfolding(crate::specs::Script::line_commands))]
fn parse_line<A: Allocator + Clone>(
    alloc: A,
    line: &[u8],
) -> Result<Option<Option<Command<i64, A>>>, AllocError>
    ensures { IfOk result (λ read. option_map (λ command. map command_value
        (option_to_list command)) read ≡ line_commands line.now) }
{
    let Some(mut words) = Words::of(line) else {
        return Ok(None);
    };
    let Some(name) = words.next() else {
        return Ok(Some(None));
    };
    Ok(parse_command(alloc, name, words)?.map(|command| Some(command)))
}
