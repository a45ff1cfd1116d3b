//! The commands of a script: a name, and the words after it.
ghost use Rattle.std.specs.Prelude.{◌≡◌, ◌++◌, Some, IfOk, option_map};
ghost use Rattle.grid.specs.Prelude.{items_of_each, command_value};
ghost use Rattle.grid_play.specs.Prelude.{words_of, alone, bare_forms, cell_forms, count_forms, index_forms, form_among, command_among, command_of, with_no_word, one_cell, one_index, two_indices, position_and_cell, two_positions, index_and_line, index_and_lines, lines_of_length};

use crate::script::parse_cells;
use grid::{Command, Symmetry, can_cut};
use std::alloc::{AllocError, Allocator};
use text_lines::{Words, parse_cell, parse_index};

/// Returns the command of a name and all words after it, or `None` where they are none.
///
///     "insert_row", "1 7 8 9"   InsertRow(1, [7, 8, 9])
///
/// Fails: if the allocation of a line fails.
#[tactic(auto, unfolding(crate::specs::Commands::command_of, crate::specs::Commands::line_forms))]
pub(crate) fn parse_command<A: Allocator + Clone>(
    alloc: A,
    name: &str,
    words: Words<'_>,
) -> Result<Option<Command<i64, A>>, AllocError>
    ensures { IfOk result (λ command. option_map command_value command
        ≡ command_of name.now (words_of words.entry.0.now)) }
{
    match name {
        "push_row" => Ok(parse_cells(alloc, words)?.map(|line| Command::PushRow(line))),
        "push_col" => Ok(parse_cells(alloc, words)?.map(|line| Command::PushCol(line))),
        "insert_row" => Ok(parse_insert(alloc, words)?.map(|put| Command::InsertRow(put.0, put.1))),
        "insert_col" => Ok(parse_insert(alloc, words)?.map(|put| Command::InsertCol(put.0, put.1))),
        "insert_rows" => Ok(parse_insert_lines(alloc, words)?.map(|put| Command::InsertRows(
            put.0, put.1,
        ))),
        "insert_cols" => Ok(parse_insert_lines(alloc, words)?.map(|put| Command::InsertCols(
            put.0, put.1,
        ))),
        _ => Ok(cell_command(name, words)),
    }
}

// A command on cells, or one that `index_command` reads.
#[tactic(auto, unfolding(crate::specs::Commands::cell_forms))]
fn cell_command<A: Allocator>(name: &str, words: Words<'_>) -> Option<Command<i64, A>>
    ensures { option_map command_value result ≡ command_among
        (cell_forms ++ (index_forms ++ (count_forms ++ bare_forms)))
        name.now (words_of words.entry.0.now) }
{
    match name {
        "get" => {
            let at = two_indices(words)?;
            Some(Command::Get(at.0, at.1))
        }
        "set" => {
            let cell = position_and_cell(words)?;
            Some(Command::Set(cell.0, cell.1, cell.2))
        }
        "swap" => {
            let positions = two_positions(words)?;
            Some(Command::Swap(positions.0, positions.1))
        }
        "fill" => Some(Command::Fill(one_cell(words)?)),
        _ => index_command(name, words),
    }
}

// A command on a line of some index or on a range of lines, or one that `count_command` reads.
#[tactic(auto, unfolding(crate::specs::Commands::index_forms))]
fn index_command<A: Allocator>(name: &str, words: Words<'_>) -> Option<Command<i64, A>>
    ensures { option_map command_value result ≡ command_among
        (index_forms ++ (count_forms ++ bare_forms)) name.now (words_of words.entry.0.now) }
{
    match name {
        "row" => Some(Command::Row(one_index(words)?)),
        "col" => Some(Command::Col(one_index(words)?)),
        "remove_row" => Some(Command::RemoveRow(one_index(words)?)),
        "remove_col" => Some(Command::RemoveCol(one_index(words)?)),
        "delete_row" => Some(Command::DeleteRow(one_index(words)?)),
        "delete_col" => Some(Command::DeleteCol(one_index(words)?)),
        "delete_rows" => {
            let range = two_indices(words)?;
            Some(Command::DeleteRows(range.0, range.1))
        }
        "delete_cols" => {
            let range = two_indices(words)?;
            Some(Command::DeleteCols(range.0, range.1))
        }
        _ => count_command(name, words),
    }
}

// A command that adds a number of lines, or a name alone.
#[tactic(auto, unfolding(crate::specs::Commands::count_forms))]
fn count_command<A: Allocator>(name: &str, words: Words<'_>) -> Option<Command<i64, A>>
    ensures { option_map command_value result
        ≡ command_among (count_forms ++ bare_forms) name.now (words_of words.entry.0.now) }
{
    match name {
        "expand_rows" => Some(Command::ExpandRows(one_index(words)?)),
        "expand_cols" => Some(Command::ExpandCols(one_index(words)?)),
        "prepend_rows" => Some(Command::PrependRows(one_index(words)?)),
        "prepend_cols" => Some(Command::PrependCols(one_index(words)?)),
        _ => alone(words, bare_command(name)?),
    }
}

// A command that is a name alone.
#[tactic(auto, unfolding(crate::specs::Commands::bare_forms))]
fn bare_command<A: Allocator>(name: &str) -> Option<Command<i64, A>>
    ensures { option_map (λ command. alone (command_value command)) result
        ≡ form_among bare_forms name.now }
{
    match name {
        "size" => Some(Command::Size),
        "pop_row" => Some(Command::PopRow),
        "pop_col" => Some(Command::PopCol),
        "clear" => Some(Command::Clear),
        "identity" => Some(Command::Apply(Symmetry::Identity)),
        "flip_cols" => Some(Command::Apply(Symmetry::FlipCols)),
        "flip_rows" => Some(Command::Apply(Symmetry::FlipRows)),
        "rotate_half" => Some(Command::Apply(Symmetry::RotateHalf)),
        "transpose" => Some(Command::Apply(Symmetry::Transpose)),
        "rotate_left" => Some(Command::Apply(Symmetry::RotateLeft)),
        "rotate_right" => Some(Command::Apply(Symmetry::RotateRight)),
        "anti_transpose" => Some(Command::Apply(Symmetry::AntiTranspose)),
        _ => None,
    }
}

// An insertion point and a line that is inserted there: `I V..`.
#[tactic(auto, unfolding(crate::specs::Commands::index_and_line))]
fn parse_insert<A: Allocator>(
    alloc: A,
    mut words: Words<'_>,
) -> Result<Option<(usize, Vec<i64, A>)>, AllocError>
    ensures { IfOk result (λ read. option_map (λ p. (p.0, p.1.items)) read
        ≡ index_and_line (words_of words.entry.0.now)) }
{
    let Some(at) = words.next().and_then(|word| parse_index(word)) else {
        return Ok(None);
    };
    Ok(parse_cells(alloc, words)?.map(|line| (at, line)))
}

// An insertion point and lines that are inserted there: `I L V..`, the cells joined, in lines of length L.
#[tactic(auto, unfolding(crate::specs::Commands::index_and_lines))]
fn parse_insert_lines<A: Allocator + Clone>(
    alloc: A,
    mut words: Words<'_>,
) -> Result<Option<(usize, Vec<Vec<i64, A>, A>)>, AllocError>
    ensures { IfOk result (λ read. option_map (λ p. (p.0, items_of_each p.1.items)) read
        ≡ index_and_lines (words_of words.entry.0.now)) }
{
    let (Some(at), Some(len)) = (words.next(), words.next()) else {
        return Ok(None);
    };
    let (Some(at), Some(len)) = (parse_index(at), parse_index(len)) else {
        return Ok(None);
    };
    let Some(cells) = parse_cells(alloc.clone()?, words)? else {
        return Ok(None);
    };
    Ok(cut_lines(alloc, cells.as_slice(), len)?.map(|lines| (at, lines)))
}

// The cells in lines of length `len`, or `None` where they can't be cut so.
fn cut_lines<A: Allocator + Clone>(
    alloc: A,
    cells: &[i64],
    len: usize,
) -> Result<Option<Vec<Vec<i64, A>, A>>, AllocError>
    ensures { IfOk result (λ lines. option_map (λ ls. items_of_each ls.items) lines
        ≡ lines_of_length len cells.now) }
{
    if !can_cut(cells.len(), len) {
        return Ok(None);
    }
    let mut lines = Vec::new(alloc.clone()?);
    if len != 0 {
        for line in cells.chunks(len) {
            lines.push(Vec::from_slice(alloc.clone()?, line)?)?;
        }
    }
    Ok(Some(lines))
}

// The command, if there are no words.
fn alone<A: Allocator>(mut words: Words<'_>, command: Command<i64, A>) -> Option<Command<i64, A>>
    ensures { option_map command_value result
        ≡ with_no_word (words_of words.entry.0.now) (command_value command) }
{
    match words.next() {
        None => Some(command),
        Some(_) => None,
    }
}

fn one_cell(mut words: Words<'_>) -> Option<i64>
    ensures { result ≡ one_cell (words_of words.entry.0.now) }
{
    let (Some(value), None) = (words.next(), words.next()) else {
        return None;
    };
    parse_cell(value)
}

fn one_index(mut words: Words<'_>) -> Option<usize>
    ensures { result ≡ one_index (words_of words.entry.0.now) }
{
    let (Some(number), None) = (words.next(), words.next()) else {
        return None;
    };
    parse_index(number)
}

#[tactic(auto, unfolding(crate::specs::Commands::two_indices))]
fn two_indices(mut words: Words<'_>) -> Option<(usize, usize)>
    ensures { result ≡ two_indices (words_of words.entry.0.now) }
{
    let (Some(first), Some(second), None) = (words.next(), words.next(), words.next()) else {
        return None;
    };
    Some((parse_index(first)?, parse_index(second)?))
}

// A position and a cell: `R C V`.
#[tactic(auto, unfolding(crate::specs::Commands::position_and_cell))]
fn position_and_cell(mut words: Words<'_>) -> Option<(usize, usize, i64)>
    ensures { result ≡ position_and_cell (words_of words.entry.0.now) }
{
    let row = words.next()?;
    let col = words.next()?;
    let value = words.next()?;
    if words.next().is_some() {
        return None;
    }
    Some((parse_index(row)?, parse_index(col)?, parse_cell(value)?))
}

// Two positions: `R C R C`.
#[tactic(auto, unfolding(crate::specs::Commands::two_positions))]
fn two_positions(mut words: Words<'_>) -> Option<((usize, usize), (usize, usize))>
    ensures { result ≡ two_positions (words_of words.entry.0.now) }
{
    let first_row = words.next()?;
    let first_col = words.next()?;
    let second_row = words.next()?;
    let second_col = words.next()?;
    if words.next().is_some() {
        return None;
    }
    Some((
        (parse_index(first_row)?, parse_index(first_col)?),
        (parse_index(second_row)?, parse_index(second_col)?),
    ))
}
