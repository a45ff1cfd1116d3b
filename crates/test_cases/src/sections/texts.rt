//! Reads each text as a board, and writes the board, and then the transposed one.
//!
//! A case is a line `== CALL NAME`, a text, a line `--`, and the board that the call reads, with the two texts that are
//! written; or why there is none. Below `from_text` a cell is `.`, `#` or `é`, below `from_words` a number up to 255,
//! below `from_long_words` an `i64`.
use crate::case::{Case, CaseError};
use grid::{Grid, Whole};
use grid_text::{TextError, from_text, from_words, to_text, to_words};
use std::alloc::{AllocError, Global};
use std::fmt::Debug;
use std::str::FromStr;

fn cell(letter: char) -> Option<u8> {
    match letter {
        '.' => Some(0),
        '#' => Some(1),
        'é' => Some(2),
        _ => None,
    }
}

fn letter(cell: &u8) -> char {
    match *cell {
        0 => '.',
        1 => '#',
        _ => 'é',
    }
}

fn number<T: FromStr>(word: &str) -> Option<T>
where
    <T as FromStr>::Err: Drop,
{
    word.parse::<T>().ok()
}

// The text of why there is no board.
fn refused(alloc: Global, error: TextError) -> Result<String, CaseError> {
    match error {
        TextError::Memory => Err(CaseError::Memory),
        error => Ok(format!(in alloc; "{error}\n")?),
    }
}

fn add_text(texts: &mut String, text: Result<String, AllocError>) -> Result<(), AllocError> {
    texts.push_str(text?.as_str())
}

// A board of letters as text, and that of the transposed board.
fn letter_texts(alloc: Global, board: &mut Grid<u8>) -> Result<String, AllocError> {
    let mut texts = format!(in alloc; "{board:?}\n")?;
    add_text(&mut texts, to_text(alloc, board, letter))?;
    board.transpose();
    add_text(&mut texts, to_text(alloc, board, letter))?;
    Ok(texts)
}

// The same of a board of numbers.
fn number_texts<T: Whole + Debug + Drop>(
    alloc: Global,
    board: &mut Grid<T>,
) -> Result<String, AllocError> {
    let mut texts = format!(in alloc; "{board:?}\n")?;
    add_text(&mut texts, to_words(alloc, board))?;
    board.transpose();
    add_text(&mut texts, to_words(alloc, board))?;
    Ok(texts)
}

fn letters(alloc: Global, read: Result<Grid<u8>, TextError>) -> Result<String, CaseError> {
    match read {
        Ok(mut board) => Ok(letter_texts(alloc, &mut board)?),
        Err(error) => refused(alloc, error),
    }
}

fn numbers<T: Whole + Debug + Drop>(
    alloc: Global,
    read: Result<Grid<T>, TextError>,
) -> Result<String, CaseError> {
    match read {
        Ok(mut board) => Ok(number_texts(alloc, &mut board)?),
        Err(error) => refused(alloc, error),
    }
}

/// Returns the board that a call reads, and the texts that are written, or why there is no board.
pub fn actual(alloc: Global, case: Case<'_>) -> Result<String, CaseError> {
    let (call, _) = case.call();
    match call {
        "from_text" => letters(alloc, from_text(alloc, case.given, cell)),
        "from_words" => numbers::<u8>(alloc, from_words(alloc, case.given, number)),
        "from_long_words" => numbers::<i64>(alloc, from_words(alloc, case.given, number)),
        _ => Err(CaseError::UnknownCall),
    }
}
